// The proposition at an ordinal among all small ones over a few zero-place names, found by division and remainder.
#![tactic(auto)]

mod names;

ghost use Rattle.std.specs.Prelude.{◌≡◌, ◌<◌, length};
ghost use Rattle.definitions.specs.Exercises.{exercise_answer};
ghost use Rattle.output.specs.Written.{Fills};
ghost use Rattle.exercise_laws.specs.Counts.{each};
ghost use Rattle.exercises.specs.Sizes.{Few, size, CountOf, Located, Divided, code_at};

use definitions::{Reason, Refusal};
use names::count_names;
use output::{Counter, Sink, Writer};
use prefix_code::{ATOM, Connective, FALSE, TRUE};

// At most so many connectives.
const CONNECTIVE_LIMIT: usize = 3;

// How many there are of 0 to 3 connectives, over no name, one, two and three.
const COUNTS: [[usize; 4]; 4] = [
    [2, 12, 144, 2160],
    [3, 27, 486, 10935],
    [4, 48, 1152, 34560],
    [5, 75, 2250, 84375],
];

// The roots: ∧ before ∨ before ⊃.
const ROOTS: [Connective; 3] = [Connective::And, Connective::Or, Connective::Impl];

// How many propositions have exactly k connectives. That names and connectives are few is asked as a fact, since the connectives are
// others at each call: a struct of both numbers would be made anew for each.
fn count(names: usize, k: usize) -> usize
    requires { Few names k }
    ensures { CountOf names k result }
{
    COUNTS[names][k]
}

// The number of connectives of the proposition at an ordinal, and its index among those of as many.
#[derive(Drop)]
struct Place {
    size: usize,
    index: usize,
}

// The place of the proposition at an ordinal, if the list is not past its end there.
fn locate(names: usize, n: usize, ordinal: usize) -> Option<Place>
    requires { Few names n }
    ensures { Located names n ordinal result }
{
    let mut index = ordinal;
    for size in 0..=n {
        let c = count(names, size);
        if index < c {
            return Some(Place { size, index });
        }
        index -= c;
    }
    None
}

// The left part's number of connectives, and the index of each part among those of as many.
#[derive(Drop)]
struct Parts {
    size: usize,
    left: usize,
    right: usize,
}

// The parts of the proposition at an index among those of one root, the parts having k connectives together. It has no search in common
// with `locate`: its blocks are as long as a product, of which it needs one factor at the end, and one of them always holds the index.
fn divide(names: usize, k: usize, i: usize) -> Parts
    requires { Few names k × (i < each (size names) k) }
    ensures { Divided names k i result }
{
    let mut rest = i;
    for size in 0..=k {
        let rights = count(names, k - size);
        let block = count(names, size) * rights;
        if rest < block {
            return Parts {
                size,
                left: rest / rights,
                right: rest % rights,
            };
        }
        rest -= block;
    }
    unreachable!()
}

// The code of a leaf: ⊤, ⊥, then the names.
fn put_leaf<S: Sink<u8>>(sink: &mut S, names: usize, i: usize)
    requires { Few names 0 × (i < size names 0) }
    ensures { S.puts sink.old (code_at names 0 i) sink.new }
{
    match i {
        0 => sink.put(TRUE),
        1 => sink.put(FALSE),
        _ => sink.put_all(&[ATOM, (i - 2) as u8, 0, 0]),
    }
}

// The code of the proposition at an index among those of k connectives.
fn put_sized<S: Sink<u8>>(sink: &mut S, names: usize, k: usize, i: usize)
    requires { Few names k × (i < size names k) }
    ensures { S.puts sink.old (code_at names k i) sink.new }
{
    if k == 0 {
        put_leaf(sink, names, i);
        return;
    }
    let each = count(names, k) / 3;
    let parts = divide(names, k - 1, i % each);
    sink.put(ROOTS[i / each].byte());
    put_sized(sink, names, parts.size, parts.left);
    put_sized(sink, names, k - 1 - parts.size, parts.right);
}

// The code of the proposition at an ordinal among all of at most n connectives over names that are divided by newlines:
// 29 for names that are too many, repeated or malformed, or an n past 3; 30 for an ordinal past the end; then 16.
pub fn exercise(text: &[u8], n: usize, ordinal: usize, out: &mut [u8]) -> Result<usize, Refusal>
    ensures { Fills (exercise_answer text.now n ordinal (length out.old))
        out.old out.new result }
{
    let names = count_names(text).ok_or(Reason::Exercise.at(0))?;
    if CONNECTIVE_LIMIT < n {
        return Err(Reason::Exercise.at(0));
    }
    let place = locate(names, n, ordinal).ok_or(Reason::Ordinal.at(0))?;
    let mut length = Counter { count: 0 };
    put_sized(&mut length, names, place.size, place.index);
    if out.len() < length.count {
        return Err(Reason::Room.at(0));
    }
    put_sized(&mut Writer { out, to: 0 }, names, place.size, place.index);
    Ok(length.count)
}
