// The name context, after the Rust's identifier_context.rs, in lent memory, the oldest entry first.
// Names are numbers of the sheet, and equal where their bytes are.
#![tactic(auto)]

ghost use Rattle.std.specs.Prelude.{◌≡◌, ◌<◌, length};
ghost use Rattle.definitions.specs.Name.{eq_name};
ghost use Rattle.definitions.specs.Sheet.{marked};
ghost use Rattle.number.specs.Pairs.{NameWithin};
ghost use Rattle.identifier_context.specs.Memory.{Holds, name_at, entry_of, entry_at};
ghost use Rattle.identifier_context.specs.Promises.{Inserts, Finds, name_asked, admitted, is_visible, Shows};
ghost use Rattle.identifier_context.specs.Lent.{name_in, IsNamed, IsHeld, InsertsInto, RemovesFrom};

use definitions::{Identifier, Reason, Refusal};
use identifier::same_bytes;
use number::Marked;
use search::highest;

// An identifier and its type: kind 0 and a proposition's number, or kind 1 and the number of a datatype's name.
// `kind` stays a number: an insertion stores every number, and a narrower type would ask more of who inserts.
#[derive(Debug, Clone, Copy, Default, PartialEq, Eq)]
pub struct Entry {
    pub identifier: Identifier,
    pub kind: u16,
    pub number: u16,
}

// What is looked up: the latest entry of a name, or of an identifier. The contracts speak of it, where a closure would have no name.
#[derive(Debug, Clone, Copy, PartialEq, Eq)]
pub enum Lookup {
    ByName(u16),
    ByIdentifier(Identifier),
}

// Makes an entry the latest, unless the lent memory has no room for it, and answers the count of entries.
pub fn insert(entries: &mut [Entry], len: usize, entry: Entry) -> Result<usize, Refusal>
    ensures { Inserts entries.old entries.new len entry result }
{
    if entries.len() <= len {
        return Err(Reason::Room.at(0));
    }
    entries[len] = entry;
    Ok(len + 1)
}

// Whether the names of two numbers have the same bytes.
fn same_name(names: Marked, a: u16, b: u16) -> bool
    requires { NameWithin names.pairs.now names.bytes.now a × NameWithin names.pairs.now names.bytes.now b }
    ensures { result ≡ eq_name
        (marked names.entry.pairs.now names.entry.bytes.now a)
        (marked names.entry.pairs.now names.entry.bytes.now b) }
{
    same_bytes(names, usize::from(a), usize::from(b))
}

// Whether a lookup admits the entry of an index.
#[tactic(auto, using(crate::proofs::Lookups::admits_name, crate::proofs::Lookups::admits_identifier, crate::proofs::Lookups::admits_no_other_id), unfolding(crate::specs::Memory::entry_at))]
fn admits(entries: &[Entry], i: usize, names: Marked, lookup: Lookup) -> bool
    requires { (i < length entries.now)
        × NameWithin names.pairs.now names.bytes.now (name_at entries.now i)
        × NameWithin names.pairs.now names.bytes.now (name_asked lookup) }
    ensures { result ≡ admitted (marked names.entry.pairs.now names.entry.bytes.now) lookup
        (entry_of (entry_at entries.now i)) }
{
    let own = entries[i].identifier;
    match lookup {
        Lookup::ByName(name) => same_name(names, name, own.name),
        Lookup::ByIdentifier(wanted) => wanted.unique_id == own.unique_id
            && same_name(names, wanted.name, own.name),
    }
}

// The index of the latest entry that a lookup admits.
fn find(entries: &[Entry], len: usize, names: Marked, lookup: Lookup) -> Option<usize>
    requires { Holds names.pairs.now names.bytes.now entries.now len
        × NameWithin names.pairs.now names.bytes.now (name_asked lookup) }
    ensures { Finds (marked names.entry.pairs.now names.entry.bytes.now) lookup entries.now len result }
{
    highest(len, |i| admits(entries, i, names, lookup))
}

// The index of the latest entry of a name.
pub fn get_by_name(entries: &[Entry], len: usize, names: Marked, name: u16) -> Option<usize>
    requires { Holds names.pairs.now names.bytes.now entries.now len × NameWithin names.pairs.now names.bytes.now name }
    ensures { Finds (marked names.entry.pairs.now names.entry.bytes.now) (Lookup.ByName name) entries.now len result }
{
    find(entries, len, names, Lookup::ByName(name))
}

// The index of the latest entry of an identifier.
pub fn get(entries: &[Entry], len: usize, names: Marked, identifier: Identifier) -> Option<usize>
    requires { Holds names.pairs.now names.bytes.now entries.now len
        × NameWithin names.pairs.now names.bytes.now identifier.«name» }
    ensures { Finds (marked names.entry.pairs.now names.entry.bytes.now) (Lookup.ByIdentifier identifier)
        entries.now len result }
{
    find(entries, len, names, Lookup::ByIdentifier(identifier))
}

// Whether no later entry has the name of the entry of an index.
#[tactic(auto, using(crate::proofs::Visibility::visible_at), unfolding(crate::specs::Memory::entry_at))]
fn is_visible(entries: &[Entry], len: usize, names: Marked, i: usize) -> bool
    requires { Holds names.pairs.now names.bytes.now entries.now len × (i < len) }
    ensures { result ≡ is_visible (marked names.entry.pairs.now names.entry.bytes.now) entries.now len i }
{
    let own = entries[i].identifier;
    find(entries, len, names, Lookup::ByName(own.name)) == Some(i)
}

// The index of the latest visible entry before one: from the count on, this hands out what the Rust's get_all_visible collects.
// The caller keeps the index, and may insert and remove between two calls, where an `Iterator` would borrow the entries all along.
pub fn next_visible(entries: &[Entry], len: usize, names: Marked, before: usize) -> Option<usize>
    requires { Holds names.pairs.now names.bytes.now entries.now len }
    ensures { Shows (marked names.entry.pairs.now names.entry.bytes.now) entries.now len before result }
{
    highest(before.min(len), |i| is_visible(entries, len, names, i))
}

// Lent memory, how many entries of a context it holds, and what their names are. No invariant says that the entries are there and that
// their numbers are names': `insert` promises to store every number, for which neither document 01 nor the Rust has a condition.
// Entries in a shared slice make no context, nor do entries without names: they have the functions above, which its methods call.
#[derive(Drop)]
pub struct Context<'a> {
    pub entries: &'a mut [Entry],
    pub len: usize,
    pub names: Marked<'a>,
}

impl Context<'_> {
    // Makes an entry the latest, unless the lent memory has no room for it.
    pub fn insert(&mut self, entry: Entry) -> Result<(), Refusal>
        ensures { InsertsInto self.old entry result self.new }
    {
        let len = insert(self.entries, self.len, entry)?;
        self.len = len;
        Ok(())
    }

    // The index of the latest entry that a lookup admits.
    fn find(&self, lookup: Lookup) -> Option<usize>
        requires { IsHeld self.now × IsNamed self.now (name_asked lookup) }
        ensures { Finds (name_in self.now) lookup self.now.entries.now self.now.«len» result }
    {
        find(self.entries, self.len, self.names, lookup)
    }

    // The lookups and the removals, by a name and by an identifier, are the four operations of the Rust: each is its own function there.

    // The index of the latest entry of a name.
    pub fn get_by_name(&self, name: u16) -> Option<usize>
        requires { IsHeld self.now × IsNamed self.now name }
        ensures { Finds (name_in self.now) (Lookup.ByName name) self.now.entries.now self.now.«len» result }
    {
        get_by_name(self.entries, self.len, self.names, name)
    }

    // The index of the latest entry of an identifier.
    pub fn get(&self, identifier: Identifier) -> Option<usize>
        requires { IsHeld self.now × IsNamed self.now identifier.«name» }
        ensures { Finds (name_in self.now) (Lookup.ByIdentifier identifier) self.now.entries.now self.now.«len» result }
    {
        get(self.entries, self.len, self.names, identifier)
    }

    // Takes out the latest entry that a lookup admits, and returns it.
    fn remove_latest(&mut self, lookup: Lookup) -> Option<Entry>
        requires { IsHeld self.old × IsNamed self.old (name_asked lookup) }
        ensures { RemovesFrom self.old lookup result self.new }
    {
        let i = self.find(lookup)?;
        let entry = self.entries[i];
        self.entries.copy_within(i + 1..self.len, i);
        self.len -= 1;
        Some(entry)
    }

    // Takes out the latest entry of a name.
    pub fn remove_by_name(&mut self, name: u16) -> Option<Entry>
        requires { IsHeld self.old × IsNamed self.old name }
        ensures { RemovesFrom self.old (Lookup.ByName name) result self.new }
    {
        self.remove_latest(Lookup::ByName(name))
    }

    // Takes out the latest entry of an identifier.
    pub fn remove(&mut self, identifier: Identifier) -> Option<Entry>
        requires { IsHeld self.old × IsNamed self.old identifier.«name» }
        ensures { RemovesFrom self.old (Lookup.ByIdentifier identifier) result self.new }
    {
        self.remove_latest(Lookup::ByIdentifier(identifier))
    }

    // The index of the latest visible entry before one: from the count on, this hands out what the Rust's get_all_visible collects.
    pub fn next_visible(&self, before: usize) -> Option<usize>
        requires { IsHeld self.now }
        ensures { Shows (name_in self.now) self.now.entries.now self.now.«len» before result }
    {
        next_visible(self.entries, self.len, self.names, before)
    }
}
