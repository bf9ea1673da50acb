// The sink that only counts: a dry run.
#![tactic(auto)]

ghost use Rattle.std.specs.Prelude.{◌^◌, ◌<◌};

use crate::sink::Sink;

// How many elements were put, or as many as a number can say where they are more.
#[derive(Clone, Copy)]
pub struct Counter {
    pub count: usize,
    pub ghost bounded: { count < 2 ^ 64 },
}

impl<T: Copy + Drop> Sink<T> for Counter {
    ghost use Rattle.output.specs.Sinks.{CounterPuts};
    ghost use Rattle.output.specs.Laws.{counter_laws};

    ghost puts = { CounterPuts };

    ghost laws = { counter_laws };

    fn put(&mut self, item: T) {
        let _ = item;
        self.count = self.count.saturating_add(1);
    }

    fn put_all(&mut self, s: &[T]) {
        self.count = self.count.saturating_add(s.len());
    }
}
