// The sink that writes into lent memory.
#![tactic(auto)]

ghost use Rattle.std.specs.Prelude.{[], ◌∷◌, ◌≡◌, ◌-◌, ◌^◌, ◌<◌, ◌≤◌, min, length, take};
ghost use Rattle.std.proofs.lemmas.List.Edits.{sets};
ghost use Rattle.definitions.specs.Code.{u16};
ghost use Rattle.output.specs.Wrote.{Wrote};

use crate::sink::{Sink, put_u16};

// Lent memory, and the position of what is put next, which is past the end once something did not fit. What does not fit is dropped.
// The position is a number and no Option: a caller may begin past the end, and to put nothing there changes nothing.
#[derive(Drop)]
pub struct Writer<'a, T> {
    pub out: &'a mut [T],
    pub to: usize,
    // So there is a position past the end. Bytes and numbers have a size, and no memory of them is longer.
    pub ghost bounded: { length out.now < 2 ^ 63 },
}

impl<'a, T: Copy + Drop> Sink<T> for Writer<'a, T> {
    ghost use Rattle.output.specs.Sinks.{WriterPuts};
    ghost use Rattle.output.specs.Laws.{writer_laws};

    ghost puts = { WriterPuts };

    ghost laws = { writer_laws };

    fn put(&mut self, item: T) {
        if self.out.len() <= self.to {
            self.to = self.out.len() + 1;
            return;
        }
        self.out[self.to] = item;
        self.to += 1;
    }

    fn put_all(&mut self, s: &[T]) {
        let count = fitting(self.out.len(), self.to, s.len());
        copy(self.out, self.to, &s[..count]);
        if count < s.len() {
            self.to = self.out.len() + 1;
            return;
        }
        self.to += count;
    }
}

// How many of so many elements lie within the memory from `to` on.
fn fitting(length: usize, to: usize, count: usize) -> usize
    ensures { result ≡ min (length - to) count }
{
    length.saturating_sub(to).min(count)
}

// Stores elements that lie within the memory, one by one: `copy_from_slice` asks of who links a library for C that there is a `memmove`.
fn copy<T: Copy + Drop>(out: &mut [T], to: usize, part: &[T])
    requires { length part.now ≤ length out.old - to }
    ensures { out.new ≡ sets out.old to part.now }
{
    for i in 0..part.len() {
        out[to + i] = part[i];
    }
}

// A number of a sheet in lent memory, from a place on, as far as there is room.
pub fn store_u16(memory: &mut [u8], to: usize, n: u16)
    ensures { memory.new ≡ sets memory.old to (u16 n) }
{
    put_u16(&mut Writer { out: memory, to }, n);
}
