// Declarations, after the Rust's generate_proof_term_from_proof_tree: the first occurrence of each atom by name bytes and count,
// and of each datatype by name bytes. They stand in fixed memory, a name's number and a count each; a datatype has the count 0.
// The search among them follows the chain of a start slot, so that first occurrences take a time that grows with the uses.
#![tactic(auto)]

ghost use Rattle.std.specs.Prelude.{◌≡◌, [], ◌∷◌, ◌≤◌, ◌<◌, ◌&&◌, eqb, length};
ghost use Rattle.definitions.specs.Name.{eq_name};
ghost use Rattle.definitions.specs.NameIndex.{start_slot};
ghost use Rattle.vocabulary.specs.Memory.{name_of, HasName};
ghost use Rattle.prop_lists.specs.Entries.{use_of};
ghost use Rattle.declarations.specs.Memory.{use_in, declarations, declared_uses, is_declared, DeclaredIn, Counted, Fresh, Room, Held};
ghost use Rattle.declarations.specs.Lines.{count_text, break_before, declaration, declaration_lines};

use definitions::TermList;
use identifier::same_name;
use name_index::{SLOT_COUNT, start_slot};
use output::Sink;
use output::sink::put_decimal;
use prefix_code::PARAMETER_LIMIT;
use prop_lists::UseSink;
use vocabulary::Memory;

// The counts of parameters, from 0 on. A name has a flag for each.
pub const COUNTS: usize = PARAMETER_LIMIT as usize + 1;

// A declaration: the number of a name, and a count, in 16 bits each, since the stack holds as many as there are flags.
#[derive(Clone, Copy, Default)]
pub struct Declaration {
    pub name: u16,
    pub count: u16,
}

impl Declaration {
    // Whether it has this count and the bytes of this name. The counts are compared first, so that few names are.
    fn has(&self, memory: &Memory, name: usize, count: usize) -> bool
        requires { HasName memory.now name × HasName memory.now self.now.name }
        ensures { result ≡ (eq_name (name_of memory.now name) (name_of memory.now self.now.name) && eqb count self.now.count) }
    {
        count == usize::from(self.count)
            && same_name(memory.name(name), memory.name(usize::from(self.name)))
    }
}

// Declarations stand loose beside their memory where they are written, measured and sorted: a sort changes them behind a `&mut` and the
// others read them behind a `&`, so it would take two structs, and `text`, which measures, sorts and then writes them, would show
// `Declared` three times to make one, as it does now at its calls.

// The declarations so far: the first `len` of N rows. Whether a use was noted, by its name's number and its count. The declarations of a
// start slot in a chain: its newest, and behind each the next older one. A link is no field of a row, since `declared` lends the rows as a
// slice of declarations.
#[derive(Drop)]
pub struct Table<const N: usize> {
    rows: [Declaration; N],
    len: usize,
    seen: [bool; N],
    newest: [Option<u16>; SLOT_COUNT],
    older: [Option<u16>; N],
}

// The declarations over the names of a memory. As a sink of uses they note each use that is not declared yet.
#[derive(Drop)]
pub struct Declarations<'a, const N: usize> {
    memory: Memory<'a>,
    table: Table<N>,
    pub ghost held: { Held memory.bytes.now memory.vocabulary table },
}

impl<'a, const N: usize> Declarations<'a, N> {
    // No declarations.
    #[tactic(auto, unfolding(definitions::specs::NameIndex::slot_count))]
    pub fn new(memory: Memory<'a>) -> Self
        requires { Room memory.bytes.now memory.vocabulary N }
        ensures { Fresh result.table × (result.memory ≡ memory.entry) }
    {
        Declarations {
            memory,
            table: Table {
                rows: [Declaration::default(); N],
                len: 0,
                seen: [false; N],
                newest: [None; SLOT_COUNT],
                older: [None; N],
            },
        }
    }

    // The declarations, the oldest first.
    pub fn declared(&self) -> &[Declaration]
        ensures { (result.now ≡ declarations self.now.table) × (length result.now ≡ self.now.table.len) }
    {
        &self.table.rows[..self.table.len]
    }

    // Whether a declaration has this count and the bytes of this name. The search goes from the newest of the name's slot to older ones.
    // By `successors` it would have to be shown of a whole run that it ends; the loop's measure says it of one step.
    #[tactic(auto, unfolding(definitions::specs::NameIndex::slot_count), using(crate::proofs::Noting::slot_below))]
    fn is_declared(&self, slot: usize, name: usize, count: usize) -> bool
        requires known { name < self.now.memory.vocabulary.name_count }
        requires its_slot { slot ≡ start_slot (name_of self.now.memory name) }
        ensures { result ≡ is_declared (name_of self.now.memory) (declarations self.now.table) (use_of name count) }
    {
        let mut next = self.table.newest[slot];
        while let Some(j) = next {
            let j = usize::from(j);
            if self.table.rows[j].has(&self.memory, name, count) {
                return true;
            }
            next = self.table.older[j];
        }
        false
    }
}

impl<'a, const N: usize> UseSink for Declarations<'a, N> {
    ghost use Rattle.declarations.specs.Noted.{DeclarationsPut, declarations_laws};

    ghost puts = { DeclarationsPut };

    ghost knows = { λ m name. name < m.memory.vocabulary.name_count };

    ghost laws = { declarations_laws };

    // Adds a use, unless a declaration has its name bytes and count. A use that was noted under the same number is known by its flag,
    // so the search runs once for each number and count. A new declaration is put before the chain of its slot.
    #[tactic(auto, unfolding(definitions::specs::NameIndex::slot_count, definitions::specs::Code::parameter_limit), using(crate::proofs::Noting::slot_below))]
    fn put_use(&mut self, name: u16, count: usize) {
        let number = usize::from(name);
        let flag = COUNTS * number + count;
        if self.table.seen[flag] {
            return;
        }
        let slot = start_slot(self.memory.name(number));
        let known = self.is_declared(slot, number, count);
        self.table.seen[flag] = true;
        if known {
            return;
        }
        let len = self.table.len;
        self.table.rows[len] = Declaration {
            name,
            count: count as u16,
        };
        self.table.older[len] = self.table.newest[slot];
        self.table.newest[slot] = Some(len as u16);
        self.table.len += 1;
    }
}

// The count of an atom in brackets, or nothing where it has no parameters.
#[tactic(auto, unfolding(crate::specs::Lines::count_text))]
fn put_count<S: Sink<u8>>(sink: &mut S, count: usize)
    ensures { S.puts sink.old (count_text count) sink.new }
{
    if count == 0 {
        return;
    }
    sink.put(b'(');
    put_decimal(sink, count as u64);
    sink.put(b')');
}

// The line of an entry of a list, which is a value that is asked for, as prop_lists::own_entry says.
fn put_declaration<S: Sink<u8>>(sink: &mut S, this: Declaration, list: TermList, memory: &Memory)
    requires { HasName memory.now this.name }
    ensures line { S.puts sink.old (declaration list (use_in (name_of memory.now) this)) sink.new }
    // A count that is handed over fits 16 bits.
    ensures counted { this.count < 65536 }
{
    let name = memory.name(this.name as usize);
    match list {
        TermList::Atoms => {
            sink.put_all(b"atom ");
            sink.put_all(name);
            put_count(sink, this.count as usize);
            sink.put(b';');
        }
        TermList::Datatypes(_) => {
            sink.put_all(b"datatype ");
            sink.put_all(name);
            sink.put(b';');
        }
    }
}

// The newline before each line but the first.
#[tactic(auto, unfolding(crate::specs::Lines::break_before))]
fn put_line_break<S: Sink<u8>>(sink: &mut S, line: usize)
    ensures { S.puts sink.old (break_before line) sink.new }
{
    if line == 0 {
        return;
    }
    sink.put(b'\n');
}

// The lines of the declarations of a list, joined by newlines.
pub fn put_declarations<S: Sink<u8>>(
    sink: &mut S,
    declared: &[Declaration],
    list: TermList,
    memory: &Memory,
)
    requires { DeclaredIn memory.now declared.now }
    ensures lines { S.puts sink.old
        (declaration_lines list (declared_uses (name_of memory.now) declared.now)) sink.new }
    // A slice says nothing of its elements' numbers. That the counts fit gives the lines a bound, and a counter then tells their length.
    ensures counted { Counted declared.now }
{
    for (j, this) in declared.iter().enumerate() {
        put_line_break(sink, j);
        put_declaration(sink, *this, list, memory);
    }
}
