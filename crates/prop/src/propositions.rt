// Propositions with the table of their ends.
ghost use Rattle.std.specs.Prelude.{◌<◌, ℕ, get_or};

use vocabulary::Memory;

// The propositions of a memory, with the table of their ends.
#[derive(Clone, Copy)]
pub struct Propositions<'a> {
    pub memory: Memory<'a>,
    pub ends: &'a [u16],
    // A proof knows this of a parameter, and of a field where the struct says it.
    pub ghost fits: { (i : ℕ) → get_or ends.now i 0 < 65536 },
}
