// How many nodes the term of each record has, kept in the record in the place of its label count: so that a walk over a term finds the
// number of a node after a part at once.
#![tactic(auto)]

ghost use Rattle.std.specs.Prelude.{◌≡◌, ℕ, ◌+◌, ◌*◌, ◌≤◌, ◌<◌, length};
ghost use Rattle.definitions.specs.Prop.{Prop};
ghost use Rattle.definitions.specs.TermText.{nodes};
ghost use Rattle.proof_term.specs.Records.{record_size, term_at};
ghost use Rattle.term_sizes.specs.Sizes.{CountedTo, Sized, part_size, SizesFilled};

// A record's number of nodes stands where its tally stood.
pub use proof_term::TALLY as SIZE;
use proof_term::{RECORD_SIZE, field, parts_at, sum_over};

// The nodes that a part of record m keeps. What is no earlier record counts as a leaf.
#[tactic(auto, unfolding(crate::specs::Sizes::part_size))]
fn part_size(records: &[u16], m: usize, part: usize) -> usize
    requires { record_size * (m + 1) ≤ length records.now }
    ensures { (result ≡ part_size records.now m part) × (result ≤ 65535) }
{
    if part < m {
        return field(records, part, SIZE);
    }
    1
}

// The nodes of record m, by those of its parts, as far as a number of a record goes.
fn count_nodes(records: &[u16], m: usize) -> usize
    requires { (record_size * (m + 1) ≤ length records.now) × ((k : ℕ) → k < m → Sized records.now k) }
    ensures { (result ≤ 65535) × ((props : ℕ → Prop ℕ) → CountedTo (nodes (term_at props records.now m)) result) }
{
    sum_over(1, parts_at(records, m), |part| part_size(records, m, part))
}

// Keeps the node counts of the records up to n. A record's count is made of those of earlier ones, so no iterator goes over the
// records while they are written.
pub fn fill_sizes(records: &mut [u16], n: usize)
    requires { record_size * (n + 1) ≤ length records.old }
    ensures { SizesFilled records.old n records.new }
{
    for m in 0..=n {
        let count = count_nodes(records, m);
        records[RECORD_SIZE * m + SIZE] = count as u16;
    }
}
