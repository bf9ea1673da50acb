// Elements put into a sink: a text into lent memory, or into a counter that finds where it would end.
#![tactic(auto)]

mod counter;
mod decimal;
pub mod sink;
mod writer;

pub use counter::Counter;
pub use sink::Sink;
pub use writer::{Writer, store_u16};
