// The numbers that names have in a merged sheet: the lowest of equal bytes among the host's names and then the missing ones. Each
// sheet has its index beside it, so that a name is found at once.
#![tactic(auto)]

ghost use Rattle.std.specs.Prelude.{◌≡◌, true, false, cond, ◌+◌, ◌<◌, length};
ghost use Rattle.definitions.specs.Sheet.{names};
ghost use Rattle.definitions.specs.Graft.{missing};
ghost use Rattle.graft_laws.specs.Missing.{missing_below};
ghost use Rattle.sheet.specs.Admitted.{Accepted};
ghost use Rattle.vocabulary.specs.Memory.{HasName, name_of};
ghost use Rattle.merged_names.specs.Numbered.{Indexed, Numbered, Known, NumberedTo, SameMemory};

use name_index::{Index, SLOT_COUNT, build};
use sheet::AdmittedSheet;
use vocabulary::Memory;

// Name i of the host where the host holds it, else of the donor: a part of one of the two memories.
pub fn name_bytes<'a>(host: &Memory<'a>, donor: &Memory<'a>, held: bool, i: usize) -> &'a [u8]
    requires { (held ≡ true → HasName host.now i) × (held ≡ false → HasName donor.now i) }
    ensures { result.now ≡ cond held (name_of host.now i) (name_of donor.now i) }
{
    if held {
        return host.name(i);
    }
    donor.name(i)
}

// The names of a sheet with their index, which is built in lent slots.
pub fn index_names<'a, 's: 'a>(
    sheet: &AdmittedSheet<'s>,
    slots: &'a mut [u16; SLOT_COUNT],
) -> Index<'a>
    ensures is { result.memory.bytes.now ≡ sheet.now }
    ensures indexed { Indexed result }
    ensures accepted { Accepted sheet.now }
{
    let memory = sheet.memory();
    build(slots, &memory);
    Index { memory, slots }
}

// The names of a host and of a donor, each by the index of its own sheet.
#[derive(Clone, Copy)]
pub struct IndexedSheets<'h, 'd> {
    pub host: Index<'h>,
    pub donor: Index<'d>,
    pub ghost host_indexed: { Indexed host },
    pub ghost donor_indexed: { Indexed donor },
}

// The numbers of the donor's names as they are stored, and how many of the names so far are missing in the host.
// `equal_conclusions::NumberedSheets` holds the numbers once all are stored.
#[derive(Drop)]
struct Numbering<'a> {
    numbers: &'a mut [u16],
    missing: usize,
}

impl Numbering<'_> {
    // The number that donor name n has already: the host's of equal bytes, or that of an earlier name of the donor. A new name has none.
    fn known_number(&self, sheets: &IndexedSheets, n: usize) -> Option<usize>
        requires below { n < names sheets.now.donor.memory.bytes.now }
        requires numbered { Numbered sheets.now.host.memory.bytes.now sheets.now.donor.memory.bytes.now n self.now.numbers.now }
        ensures { Known sheets.now.host.memory.bytes.now sheets.now.donor.memory.bytes.now n result }
    {
        let bytes = sheets.donor.memory.name(n);
        if let Some(i) = sheets.host.find(bytes) {
            return Some(i);
        }
        let m = sheets.donor.find(bytes)?;
        if m < n {
            return Some(usize::from(self.numbers[m]));
        }
        None
    }

    // Stores the number of donor name n.
    fn number_name(&mut self, sheets: &IndexedSheets, n: usize)
        requires below { n < names sheets.now.donor.memory.bytes.now }
        requires so_far { NumberedTo sheets.now.host.memory.bytes.now sheets.now.donor.memory.bytes.now n self.old }
        ensures so_far { NumberedTo sheets.now.host.memory.bytes.now sheets.now.donor.memory.bytes.now
            (n + 1) self.new }
        ensures same_memory { SameMemory self.old self.new }
    {
        let Some(known) = self.known_number(sheets, n) else {
            self.numbers[n] = (sheets.host.memory.vocabulary.name_count + self.missing) as u16;
            self.missing += 1;
            return;
        };
        self.numbers[n] = known as u16;
    }
}

// Stores the number of each donor name, and answers how many of them are missing in the host. The numbers have memory of fixed size, one
// for each name that a sheet may have, and `Numbered` says how many are stored.
pub fn fill_numbers(sheets: &IndexedSheets, numbers: &mut [u16]) -> usize
    requires { Numbered sheets.now.host.memory.bytes.now sheets.now.donor.memory.bytes.now 0 numbers.old }
    ensures value { result ≡ length (missing sheets.now.host.memory.bytes.now sheets.now.donor.memory.bytes.now) }
    ensures numbered { Numbered sheets.now.host.memory.bytes.now sheets.now.donor.memory.bytes.now
        (names sheets.now.donor.memory.bytes.now) numbers.new }
{
    let mut numbering = Numbering {
        numbers,
        missing: 0,
    };
    for n in 0..sheets.donor.memory.vocabulary.name_count {
        numbering.number_name(sheets, n);
    }
    numbering.missing
}
