// The entries of a proposition in a list, after the Rust's get_atoms and get_datatypes: its atoms or its datatypes, left to right with
// repeats. One walk over the heads of its code hands them out.
#![tactic(auto)]

ghost use Rattle.std.specs.Prelude.{◌≡◌, ℕ, List, [], ◌∷◌, ◌<◌, ◌≤◌, ⊤};
ghost use Rattle.definitions.specs.Prop.{AtomUse};
ghost use Rattle.definitions.specs.Code.{parameter_limit};
ghost use Rattle.vocabulary.specs.Memory.{prop_of, PropositionAt};
ghost use Rattle.prop_lists.specs.Entries.{use_of, entries, own_entry, entry_numbers};
ghost use Rattle.prop_lists.specs.UseSinkLaws.{UseSinkLaws};

use definitions::TermList;
use output::Sink;
use prefix_code::{Shape, known_end, known_head_end, shape_at};
use vocabulary::Memory;

// An entry of a list: the number of a name, and an atom's parameter count or 0 for a datatype. The count is no Option: a datatype is declared
// as the use of a name with the count 0, so the 0 is what a None would be turned into at once.
#[derive(Clone, Copy)]
pub struct Entry {
    pub name: usize,
    pub count: usize,
}

// What the shape of a proposition adds to a list, its parts aside: an atom its name and its count, a quantifier its datatype. Which list is
// asked for is the caller's value, so the lists differ here and in an entry's numbers.
#[tactic(auto, unfolding(crate::specs::Entries::own_entry))]
pub fn own_entry(list: TermList, shape: Shape) -> Option<Entry>
    ensures { result ≡ own_entry list shape }
{
    match (list, shape) {
        (TermList::Atoms, Shape::Atom { name, count, .. }) => Some(Entry {
            name,
            count: usize::from(count),
        }),
        (TermList::Datatypes(_), Shape::Quantified { datatype, .. }) => Some(Entry {
            name: datatype,
            count: 0,
        }),
        _ => None,
    }
}

// The numbers of an entry: an atom's name and count, a datatype's name.
#[tactic(auto, unfolding(crate::specs::Entries::entry_numbers))]
pub fn put_entry<S: Sink<u16>>(sink: &mut S, list: TermList, name: u16, count: usize)
    requires { count < 65536 }
    ensures { S.puts sink.old (entry_numbers list (use_of name count ∷ [])) sink.new }
{
    sink.put(name);
    match list {
        TermList::Atoms => sink.put(count as u16),
        TermList::Datatypes(_) => {}
    }
}

// What uses of names are put into, one after another. It is no `Sink`, whose `put` takes every element: declarations have flags for the
// names of their memory alone, so a use is put where its name is known.
pub trait UseSink {
    // A sink, the uses that are put into it, and the sink after that.
    ghost puts: { Self → List (AtomUse ℕ) → Self → Type 0 };

    // Whether a sink knows a name, by its number.
    ghost knows: { Self → ℕ → Type 0 };

    // One use: the number of a name, and an atom's parameter count or 0 for a datatype.
    fn put_use(&mut self, name: u16, count: usize)
        requires known { knows self.old name }
        requires few { count ≤ parameter_limit }
        ensures { puts self.old (use_of name count ∷ []) self.new };

    // What is put in turn is put together, and the names that a sink knows stay known.
    ghost laws: { UseSinkLaws puts knows };
}

// A sink of uses that puts the numbers of each into another: an atom's name and count, a datatype's name.
#[derive(Drop)]
pub struct Numbers<'a, S> {
    pub sink: &'a mut S,
    pub list: TermList,
}

impl<'a, S: Sink<u16>> UseSink for Numbers<'a, S> {
    ghost use Rattle.prop_lists.specs.Numbered.{NumbersPut, numbers_laws};

    ghost puts = { NumbersPut S.puts };

    ghost knows = { λ _ _. ⊤ };

    ghost laws = { numbers_laws S.laws };

    #[tactic(auto, unfolding(definitions::specs::Code::parameter_limit))]
    fn put_use(&mut self, name: u16, count: usize) {
        put_entry(self.sink, self.list, name, count);
    }
}

// The entries of the proposition at an offset of the code, head by head: a head's bytes say how far the next one is, so no range counts the
// turns. As an iterator over `entries_from` all of its `next` is proved but that what is left is a row: a ghost field keeps a fact that has
// one proof, and `Row` holds propositions. It would take laws that `Codable` has one proof, and that each entry of a row is in bounds.
pub fn put_entries<S: UseSink>(sink: &mut S, list: TermList, memory: &Memory, at: usize)
    requires some_proposition { PropositionAt memory.now at }
    requires known { (name : ℕ) → name < memory.now.vocabulary.name_count → S.knows sink.old name }
    ensures { S.puts sink.old (entries list (prop_of memory.now at)) sink.new }
{
    let code = memory.code();
    let names = memory.vocabulary.name_count;
    let end = known_end(code, at, names);
    let mut i = at;
    while i < end {
        if let Some(entry) = own_entry(list, shape_at(code, i)) {
            sink.put_use(entry.name as u16, entry.count);
        }
        i = known_head_end(code, i, names);
    }
}
