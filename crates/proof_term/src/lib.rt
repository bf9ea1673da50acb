// Terms (source document 001) as numbered records in lent memory: a kind, five numbers and the label tally each, a term's parts
// before the term.
#![tactic(auto)]

mod forms;
mod nodes;
mod term_records;

ghost use Rattle.std.specs.Prelude.{◌≡◌, ℕ, ◌+◌, ◌*◌, ◌≤◌, ◌<◌, length, get_or};
ghost use Rattle.definitions.specs.Prop.{Prop};
ghost use Rattle.definitions.specs.Term.{annotation_count};
ghost use Rattle.proof_term.specs.Records.{record_size, field_at, term_at};
ghost use Rattle.proof_term.specs.Views.{kind_number, node_kind, node_numbers, PartsBelow};
ghost use Rattle.proof_term.specs.Tally.{tally_limit, sum_over, tally_over, NodesTallied};
ghost use Rattle.proof_term.specs.Making.{Pushed};

pub use forms::Form;
pub use nodes::{Kind, Label, Node, has_label, kind_at, label_at, node_at, parameter_at, parts_at};
pub use term_records::TermRecords;

// The numbers of a record. Records are rows of one memory of u16, as C is handed them: its promise and the definitions speak of one list
// of numbers, into which rows of the type `[u16; RECORD_SIZE]` would have to be flattened in each clause.
pub const RECORD_SIZE: usize = 7;

// A term has at most so many nodes, and so many records.
pub const NODE_LIMIT: usize = 2048;

// The number of a record that is its tally, and the most that it says.
pub const TALLY: usize = RECORD_SIZE - 1;

const TALLY_LIMIT: usize = u16::MAX as usize;

// The kinds of labels, as records keep them: none, a proposition by the number that stands for it, a datatype by its name.
pub const NO_LABEL: u16 = 0;

pub const PROPOSITION: u16 = 1;

pub const DATATYPE: u16 = 2;

// Stores record `used` of a node and gives the number of the next one. `TermRecords::make` sums the tally. The reader of terms hands its own:
// what it has in hand counts its labels, and by `make` each of its terms would owe that its parts are earlier records, which keep these
// counts. It is no method of `TermRecords`: the reader has the memory in its `Work` and the number in a `Progress`, a value that it hands
// on.
#[tactic(auto, using(crate::proofs::Making::stored))]
pub fn push(records: &mut [u16], used: usize, node: Node, tally: u16) -> usize
    requires { record_size * (used + 1) ≤ length records.old }
    ensures { Pushed (kind_number (node_kind node)) (node_numbers node) tally
        records.old used records.new result }
{
    let at = RECORD_SIZE * used;
    let kind = node.kind().number();
    let [a, b, c, d, e] = node.numbers();
    records[at..at + RECORD_SIZE].copy_from_slice(&[kind, a, b, c, d, e, tally]);
    used + 1
}

// A number and the values of some parts of a record, as far as a number of a record goes.
pub fn sum_over<F: Fn(usize) -> usize>(own: usize, parts: &[u16], value: F) -> usize
    requires few { (own ≤ 1) × (length parts.now ≤ 3) }
    requires asked { (k : ℕ) → k < length parts.now → F.pre value (get_or parts.now k 0) }
    requires small { (k r : ℕ) → k < length parts.now → F.post value (get_or parts.now k 0) r → r ≤ tally_limit }
    ensures { (is : ℕ → ℕ)
        → ((k r : ℕ) → k < length parts.now → F.post value (get_or parts.now k 0) r → r ≡ is (get_or parts.now k 0))
        → result ≡ sum_over own parts.now is }
{
    let mut sum = own;
    for &part in parts {
        sum += value(usize::from(part));
    }
    sum.min(TALLY_LIMIT)
}

// The tally of the record of a node over earlier records: its own label and the tallies of its parts, as far as the limit.
#[tactic(auto, using(crate::proofs::Records::few_parts))]
fn tally_over(records: &[u16], used: usize, node: Node) -> usize
    requires { (record_size * used ≤ length records.now) × PartsBelow used node }
    ensures { (result ≡ tally_over records.now (kind_number (node_kind node)) (node_numbers node)) × (result < 65536) }
{
    let own = usize::from(node.label().is_some());
    let numbers = node.numbers();
    sum_over(own, &numbers[..node.kind().part_count()], |part| {
        field(records, part, TALLY)
    })
}

// Number `i` of record `n`; number 0 is the kind, number 6 the tally.
#[tactic(auto, unfolding(crate::specs::Records::field_at))]
pub fn field(records: &[u16], n: usize, i: usize) -> usize
    requires { (record_size * (n + 1) ≤ length records.now) × (i < record_size) }
    ensures { (result ≡ field_at records.now n i) × (result < 65536) }
{
    usize::from(records[RECORD_SIZE * n + i])
}

// The label count of the term that record `n` holds, whose nodes keep theirs: the record's tally.
pub fn annotation_count(records: &[u16], n: usize) -> usize
    requires { (record_size * (n + 1) ≤ length records.now) × NodesTallied records.now n }
    ensures { (props : ℕ → Prop ℕ) → result ≡ annotation_count (term_at props records.now n) }
{
    field(records, n, TALLY)
}
