// What elements are put into, one after another, and the numbers that are put into it.
#![tactic(auto)]

ghost use Rattle.std.specs.Prelude.{[], ◌∷◌, List};
ghost use Rattle.definitions.specs.Code.{u16};
ghost use Rattle.output.specs.Numbers.{u16s};
ghost use Rattle.output.specs.SinkLaws.{SinkLaws};

pub use crate::decimal::put_decimal;

pub trait Sink<T> {
    // A sink, the elements that are put into it, and the sink after that.
    ghost puts: { Self → List T → Self → Type 0 };

    // One element.
    fn put(&mut self, item: T)
        ensures { puts self.old (item ∷ []) self.new };

    // All elements of a slice.
    fn put_all(&mut self, s: &[T])
        ensures { puts self.old s.now self.new };

    // What is put in turn is put together.
    ghost laws: { SinkLaws puts };
}

// A number of a sheet: two bytes, the low one first.
pub fn put_u16<S: Sink<u8>>(sink: &mut S, n: u16)
    ensures { S.puts sink.old (u16 n) sink.new }
{
    let [low, high] = n.to_le_bytes();
    sink.put(low);
    sink.put(high);
}

// The numbers of a sheet, one after another.
#[tactic(auto, using(crate::proofs::Numbers::one_more), unfolding(crate::specs::Numbers::u16s))]
pub fn put_u16s<S: Sink<u8>>(sink: &mut S, numbers: &[u16])
    ensures { S.puts sink.old (u16s numbers.now) sink.new }
{
    for &n in numbers {
        put_u16(sink, n);
    }
}
