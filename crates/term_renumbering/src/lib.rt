// A term in records over other name numbers, in place: each number of a record that is a name goes through a map.
#![tactic(auto)]

ghost use Rattle.std.specs.Prelude.{◌≡◌, ◌+◌, ◌*◌, ◌≤◌, ◌<◌, length, set};
ghost use Rattle.proof_term.specs.Records.{record_size};
ghost use Rattle.renumbering.specs.Renumbered.{mapped};
ghost use Rattle.term_renumbering.specs.Over.{is_name, number_over, Over, RecordsOver};

use proof_term::{DATATYPE, Kind, RECORD_SIZE, kind_at};

// Whether number `i` of a record of a kind is a name, by the kind of its label: a label's number is one if it is a datatype. A record is
// no `Node` here, whose `numbers` are 0 where its kind has none: whatever a record holds, each number that is no name stays as it is.
#[tactic(auto, unfolding(crate::specs::Over::is_name))]
fn is_name(kind: Kind, label: u16, i: usize) -> bool
    ensures { result ≡ is_name kind label i }
{
    match kind {
        Kind::Ident => i == 1,
        Kind::Function => i == 2 || i == 4 && label == DATATYPE,
        Kind::LetIn => i == 3 || i == 4,
        Kind::Case => i == 4 || i == 5,
        Kind::TypeAscription => i == 4 && label == DATATYPE,
        _ => false,
    }
}

// Number `i` of a record: what the map has for it if it is a name, and 0 past its end; else the number itself.
#[tactic(auto, unfolding(crate::specs::Over::number_over, renumbering::specs::Renumbered::mapped))]
fn number_over(numbers: &[u16], kind: Kind, label: u16, i: usize, number: u16) -> u16
    ensures { result ≡ number_over (mapped numbers.now) kind label i number }
{
    if is_name(kind, label, i) {
        return numbers.get(usize::from(number)).copied().unwrap_or(0);
    }
    number
}

// The names of a record, a memory of one.
fn renumber_record(row: &mut [u16], numbers: &[u16])
    requires { length row.old ≡ record_size }
    ensures { Over (mapped numbers.now) row.old 0 row.new }
{
    let kind = kind_at(row, 0);
    let label = row[3];
    for (i, number) in row.iter_mut().enumerate() {
        *number = number_over(numbers, kind, label, i, *number);
    }
}

// The names of the records up to `n`. Each is lent by its place: of a memory that `chunks_exact_mut` has lent out, a proof knows the
// length alone.
pub fn renumber_records(records: &mut [u16], n: usize, numbers: &[u16])
    requires { record_size * (n + 1) ≤ length records.old }
    ensures { RecordsOver (mapped numbers.now) records.old n records.new }
{
    for m in 0..=n {
        let at = RECORD_SIZE * m;
        renumber_record(&mut records[at..at + RECORD_SIZE], numbers);
    }
}
