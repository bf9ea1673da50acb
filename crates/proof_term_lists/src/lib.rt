// The atom list and the datatype list of a term in records, put into a sink of uses or of numbers. The records stand in the term's order, so
// that a list is what the labels of one record after the other add.
#![tactic(auto)]

ghost use Rattle.std.specs.Prelude.{◌≡◌, ℕ, ◌+◌, ◌*◌, ◌≤◌, ◌<◌, length};
ghost use Rattle.proof_term.specs.Records.{record_size};
ghost use Rattle.proof_term_lists.specs.Labels.{term_uses, is_listed, record_adds, added_uses, AddedStands, ListableIn, term_of};
ghost use Rattle.proof_term_lists.specs.Numbers.{list_numbers};

use definitions::{TermList, Version};
use output::Sink;
use proof_term::{Label, node_at};
use prop_lists::{Numbers, UseSink, put_entries};
use vocabulary::Memory;

// Whether a list takes up a label: a datatype is no atom, and the datatypes of a proposition are listed in versions 2 and 3 only.
#[tactic(auto, unfolding(crate::specs::Labels::is_listed))]
fn is_listed(label: Label, list: TermList) -> bool
    ensures { result ≡ is_listed list label }
{
    match (label, list) {
        (Label::Datatype(_), TermList::Atoms) => false,
        (Label::Proposition(_), TermList::Datatypes(Version::First)) => false,
        _ => true,
    }
}

// What a record adds to a list: its label, if it has one that the list takes up. The list is a value that is asked for, as
// prop_lists::own_entry says.
#[tactic(auto, unfolding(crate::specs::Labels::record_adds))]
pub fn record_adds(term_records: &[u16], m: usize, list: TermList) -> Option<Label>
    requires { record_size * (m + 1) ≤ length term_records.now }
    ensures { result ≡ record_adds list term_records.now m }
{
    node_at(term_records, m)
        .label()
        .filter(|&label| is_listed(label, list))
}

// The uses in what a record adds: a datatype, or the entries of the proposition at an offset of the code.
fn put_added<S: UseSink>(sink: &mut S, list: TermList, memory: &Memory, added: Option<Label>)
    requires added_stands { AddedStands memory.now.bytes.now memory.now.vocabulary added }
    requires known { (name : ℕ) → name < memory.now.vocabulary.name_count → S.knows sink.old name }
    ensures { S.puts sink.old
        (added_uses memory.now.bytes.now memory.now.vocabulary list added) sink.new }
{
    match added {
        None => {}
        Some(Label::Datatype(name)) => sink.put_use(name, 0),
        Some(Label::Proposition(at)) => put_entries(sink, list, memory, usize::from(at)),
    }
}

// The uses in a list of the term that record `n` holds: what the label of each record up to it adds.
pub fn put_term_uses<S: UseSink>(
    sink: &mut S,
    list: TermList,
    memory: &Memory,
    term_records: &[u16],
    n: usize,
)
    requires listable { ListableIn memory.now term_records.now n }
    requires known { (name : ℕ) → name < memory.now.vocabulary.name_count → S.knows sink.old name }
    ensures { S.puts sink.old (term_uses list (term_of memory.now term_records.now n)) sink.new }
{
    for m in 0..=n {
        let added = record_adds(term_records, m, list);
        put_added(sink, list, memory, added);
    }
}

// A list of the term that record `n` holds, as numbers.
pub fn put_term_list<S: Sink<u16>>(
    sink: &mut S,
    list: TermList,
    memory: &Memory,
    term_records: &[u16],
    n: usize,
)
    requires { ListableIn memory.now term_records.now n }
    ensures { S.puts sink.old (list_numbers list (term_of memory.now term_records.now n)) sink.new }
{
    let mut numbers = Numbers { sink, list };
    put_term_uses(&mut numbers, list, memory, term_records, n);
}
