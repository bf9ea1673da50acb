// Names, after the Rust's identifier.rs: which bytes are one, how two stand to each other, and where a name stood first.
#![tactic(auto)]

mod classes;

ghost use Rattle.std.specs.Prelude.{◌≡◌};
ghost use Rattle.definitions.specs.Name.{is_name, eq_name, compare_name};
ghost use Rattle.definitions.specs.Outcome.{lowest};
ghost use Rattle.definitions.specs.Sheet.{marked};
ghost use Rattle.number.specs.Pairs.{NameWithin};
ghost use Rattle.identifier.specs.Pairs.{PairsWithin, same_bytes};

pub use classes::Class;
use number::Marked;
use search::lowest;
use std::cmp::Ordering;

// A name has at most so many bytes.
pub const NAME_LENGTH_LIMIT: usize = 32;

// Whether each byte is one that its position allows.
#[tactic(auto, unfolding(definitions::specs::Name::is_name))]
pub fn is_name(name: &[u8]) -> bool
    ensures { result ≡ is_name name.now }
{
    let Some((first, rest)) = name.split_first() else {
        return false;
    };
    if !Class::of_byte(*first).may_begin() {
        return false;
    }
    rest.iter().all(|&b| Class::of_byte(b).may_follow())
}

// How two names stand to each other: by bytes, a name before its own extensions.
#[tactic(auto, using(crate::proofs::Comparing::compare_is))]
pub fn compare_names(a: &[u8], b: &[u8]) -> Ordering
    ensures { result ≡ compare_name a.now b.now }
{
    a.cmp(b)
}

// Whether two names have the same bytes.
#[tactic(auto, using(crate::proofs::Comparing::eq_name_is))]
pub fn same_name(a: &[u8], b: &[u8]) -> bool
    ensures { result ≡ eq_name a.now b.now }
{
    a == b
}

// Whether the names of two numbers have the same bytes. Those of one number have, and are not looked at.
#[tactic(auto, using(definitions::proofs::Names::eq_name_refl))]
pub fn same_bytes(names: Marked, a: usize, b: usize) -> bool
    requires { NameWithin names.pairs.now names.bytes.now a × NameWithin names.pairs.now names.bytes.now b }
    ensures { result ≡ eq_name
        (marked names.entry.pairs.now names.entry.bytes.now a)
        (marked names.entry.pairs.now names.entry.bytes.now b) }
{
    a == b || same_name(names.piece(a), names.piece(b))
}

// The first name before number i with the same bytes as name i. No operation asks for it: it is the plain search that an index of
// the names (document 02, ticket 14) has to agree with.
#[tactic(auto, using(definitions::proofs::NameOrder::equal_name))]
pub fn first_equal(names: Marked, i: usize) -> Option<usize>
    requires { PairsWithin names.pairs.now names.bytes.now i }
    ensures { result ≡ lowest (same_bytes names.entry.pairs.now names.entry.bytes.now i) i }
{
    lowest(i, |j| same_bytes(names, j, i))
}
