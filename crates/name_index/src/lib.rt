// The index of names: 1,024 slots, a name's number behind the taken slots from its start slot on, round the end.
#![tactic(auto)]

ghost use Rattle.std.specs.Prelude.{◌≡◌, ℕ, Bool, ◌+◌, ◌*◌, ◌%◌, ◌<◌, ◌≤◌, take, drop};
ghost use Rattle.definitions.specs.Name.{Name, eq_name};
ghost use Rattle.definitions.specs.Sheet.{name_limit};
ghost use Rattle.definitions.specs.NameIndex as names;
ghost use Rattle.definitions.specs.NameIndex.{wrap, start_slot, slot_count, slot_at, free, index};
ghost use Rattle.vocabulary.specs.Memory.{name_of, LiesWithin};
ghost use Rattle.name_index.specs.Probed.{Taken, probed};

use identifier::same_name;
use number::{pair_length, pair_offset};
use vocabulary::Memory;

// How many slots there are.
pub const SLOT_COUNT: usize = 1024;

// What a free slot holds, which is no name's number. Slots are numbers that C callers lend and read, and so no Options.
pub const FREE: u16 = 65535;

// The running number after one more byte: 31 times itself plus the byte, wrapping at 2 to the 32nd.
#[tactic(auto, unfolding(definitions::specs::NameIndex::wrap))]
fn next_running(n: u32, byte: u8) -> u32
    ensures { result ≡ (31 * n + byte) % wrap }
{
    n.wrapping_mul(31).wrapping_add(u32::from(byte))
}

// The start slot of a name.
#[tactic(auto, unfolding(definitions::specs::NameIndex::running, definitions::specs::NameIndex::start_slot, definitions::specs::NameIndex::slot_count))]
pub fn start_slot(name: &[u8]) -> usize
    ensures { result ≡ start_slot name.now }
{
    let mut running = 0;
    for &byte in name {
        running = next_running(running, byte);
    }
    running as usize % SLOT_COUNT
}

// So many bytes from a place on, as far as there are any.
#[tactic(auto, using(crate::proofs::AnyName::cut_is))]
fn cut(bytes: &[u8], start: usize, count: usize) -> &[u8]
    ensures { result.now ≡ take count (drop start bytes.now) }
{
    let rest = &bytes[start.min(bytes.len())..];
    &rest[..count.min(rest.len())]
}

// The name of a number, whatever its pair says: cut at the end of the text, and empty where there is no pair.
#[tactic(auto, using(crate::proofs::AnyName::no_name, crate::proofs::AnyName::pair_there, crate::proofs::AnyName::name_cut))]
pub fn any_name<'m>(memory: &Memory<'m>, i: usize) -> &'m [u8]
    requires { LiesWithin memory.now }
    ensures { result.now ≡ name_of memory.now i }
{
    if memory.vocabulary.name_count <= i {
        return &memory.bytes[..0];
    }
    let pairs = memory.pairs();
    cut(memory.text(), pair_offset(pairs, i), pair_length(pairs, i))
}

// The names of a memory, with slots beside them.
#[derive(Clone, Copy)]
pub struct Index<'a> {
    pub memory: Memory<'a>,
    pub slots: &'a [u16; SLOT_COUNT],
    pub ghost within: { LiesWithin memory },
}

// The number of a name's equal, or the slot that the name would enter. Slots that hold others' numbers are stepped over from its start
// slot on, round the end. A closure says whether the name of a number that a slot holds is the equal.
#[tactic(auto, unfolding(definitions::specs::NameIndex::start_slot, definitions::specs::NameIndex::slot_count))]
pub fn probe_by<F: Fn(usize) -> bool>(
    slots: &[u16; SLOT_COUNT],
    name: &[u8],
    is_equal: F,
) -> Result<usize, usize>
    requires { (at : ℕ) → at < slot_count → Taken slots.now at → F.pre is_equal (slot_at slots.now at) }
    ensures { (named : ℕ → Name) →
        ((number : ℕ) (r : Bool) → F.post is_equal number r → r ≡ eq_name (named number) name.now) →
        result ≡ probed named slots.now name.now }
{
    let start = start_slot(name);
    for step in 0..SLOT_COUNT {
        let at = (start + step) % SLOT_COUNT;
        let number = slots[at];
        if number == FREE {
            return Err(at);
        }
        if is_equal(usize::from(number)) {
            return Ok(usize::from(number));
        }
    }
    Err(start)
}

impl Index<'_> {
    // Whether the name of a number has these bytes.
    fn is_named(&self, i: usize, name: &[u8]) -> bool
        ensures { result ≡ eq_name (name_of self.now.memory i) name.now }
    {
        same_name(any_name(&self.memory, i), name)
    }

    // The number of a name with equal bytes, or the slot that the name would enter.
    pub fn probe(&self, name: &[u8]) -> Result<usize, usize>
        ensures { result ≡ probed (name_of self.now.memory) self.now.slots.now name.now }
    {
        probe_by(self.slots, name, |i| self.is_named(i, name))
    }

    // What the slots answer: the number of a name with equal bytes, or that there is none.
    #[tactic(auto, using(crate::proofs::Entering::found_held, crate::proofs::Entering::found_absent))]
    pub fn find(&self, name: &[u8]) -> Option<usize>
        ensures { result ≡ (names.find (name_of self.now.memory) self.now.slots.now name.now) }
    {
        self.probe(name).ok()
    }
}

// Name i enters the index of the names before it, if it does not repeat one of them.
#[tactic(auto, unfolding(definitions::specs::Sheet::name_limit, definitions::specs::NameIndex::slot_count), using(crate::proofs::Entering::repeated, crate::proofs::Entering::entered, crate::proofs::Entering::absent_below))]
pub fn enter(slots: &mut [u16; SLOT_COUNT], memory: &Memory, i: usize)
    requires i_lt_name_limit { (i < name_limit) × LiesWithin memory.now }
    requires slots_value { slots.old ≡ index (name_of memory.now) i }
    ensures { slots.new ≡ index (name_of memory.now) (i + 1) }
{
    let index = Index {
        memory: *memory,
        slots,
    };
    let Err(at) = index.probe(any_name(memory, i)) else {
        return;
    };
    slots[at] = i as u16;
}

// The index of a memory's names, in slots that the caller lends. A name's number is the loop's own count.
pub fn build(slots: &mut [u16; SLOT_COUNT], memory: &Memory)
    requires within { LiesWithin memory.now }
    requires name_count_bound { memory.now.vocabulary.name_count ≤ name_limit }
    ensures { slots.new ≡ index (name_of memory.now) memory.now.vocabulary.name_count }
{
    slots.fill(FREE);
    for i in 0..memory.vocabulary.name_count {
        enter(slots, memory, i);
    }
}
