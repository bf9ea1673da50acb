// The names met in a text.
ghost use Rattle.std.specs.Prelude.{◌≡◌, ◌+◌, ◌*◌, ◌≤◌, ◌<◌, length, MatchOption};
ghost use Rattle.definitions.specs.Name.{eq_name};
ghost use Rattle.definitions.specs.Sheet.{name_limit, pair_size, marked};
ghost use Rattle.definitions.specs.TermText.{term_text_limit};
ghost use Rattle.words.specs.Places.{between};
ghost use Rattle.words.specs.Names.{Table, NamePlace, PairFits, with_pair};

use identifier::same_name;
use name_index::{FREE, SLOT_COUNT, probe_by};
use number::{Marked, PAIR_SIZE};
use output::Writer;
use output::sink::put_u16s;
use vocabulary::NAME_LIMIT;

// A text and the names met in it, in the order in which they were met: their pairs, which mark them there, and slots that are their
// index. The slots hold numbers and `FREE`, and no Options: the laws of the index are over lists of numbers, which slots that C lends
// are too. The pairs have memory of fixed size, which no pair is pushed to, and `count` says how many are stored.
#[derive(Drop)]
pub struct NameTable<'t> {
    pub text: &'t [u8],
    pub pairs: [u8; PAIR_SIZE * NAME_LIMIT],
    pub slots: [u16; SLOT_COUNT],
    pub count: u16,
    pub ghost table: { Table text.now pairs slots count },
}

// Stores the pair of a name that stands from `at` to `end` as number `count`.
#[tactic(auto, unfolding(definitions::specs::Sheet::pair_size, definitions::specs::TermText::term_text_limit, definitions::specs::Sheet::name_length_limit, crate::specs::Names::with_pair))]
pub fn put_pair(pairs: &mut [u8], count: usize, at: usize, end: usize)
    requires { PairFits pairs.old count at end }
    ensures { pairs.new ≡ with_pair pairs.old count at end }
{
    let to = PAIR_SIZE * count;
    let pair = [at as u16, (end - at) as u16];
    put_u16s(&mut Writer { out: pairs, to }, &pair);
}

impl<'t> NameTable<'t> {
    ghost use Rattle.words.specs.Table.{searched, TooMany, NumberOf};

    // The table of a text, without names: every slot is free, and no pair is looked at.
    pub fn new(text: &'t [u8]) -> NameTable<'t>
        requires { length text.now ≤ term_text_limit }
        ensures { (result.text ≡ text.entry) × (result.count ≡ 0) }
    {
        NameTable {
            text,
            pairs: [0; PAIR_SIZE * NAME_LIMIT],
            slots: [FREE; SLOT_COUNT],
            count: 0,
        }
    }

    // Forgets the names.
    pub fn clear(&mut self)
        ensures { (self.new.text ≡ self.old.text) × (self.new.count ≡ 0) }
    {
        self.slots.fill(FREE);
        self.count = 0;
    }

    // Whether the name of a number has these bytes.
    fn is_named(&self, number: usize, name: &[u8]) -> bool
        requires { number < self.now.count }
        ensures { result ≡ eq_name (marked self.now.pairs self.now.text.now number) name.now }
    {
        let names = Marked {
            pairs: &self.pairs,
            bytes: self.text,
        };
        same_name(names.piece(number), name)
    }

    // The number of a name with these bytes, or the slot that the name would enter.
    #[tactic(auto, using(crate::proofs::Indexing::slots_size, crate::proofs::Indexing::number_below), unfolding(crate::specs::Table::searched))]
    pub fn find(&self, name: &[u8]) -> Result<usize, usize>
        ensures { result ≡ searched self.now name.now }
    {
        probe_by(&self.slots, name, |number| self.is_named(number, name))
    }

    // The number of the name that stands from `at` to `end`: of the pair that marks the same bytes, or else of a new pair, which enters
    // the index. None where there are too many names.
    pub fn number_of_name(&mut self, at: usize, end: usize) -> Option<u16>
        requires { NamePlace self.old.text.now at end }
        ensures { MatchOption result (TooMany (between at end self.old.text.now) self.old)
            (NumberOf (between at end self.old.text.now) self.old self.new) }
    {
        match self.find(&self.text[at..end]) {
            Ok(number) => Some(number as u16),
            Err(slot) => {
                let count = self.count;
                if usize::from(count) == NAME_LIMIT {
                    return None;
                }
                put_pair(&mut self.pairs, usize::from(count), at, end);
                self.slots[slot] = count;
                self.count = count + 1;
                Some(count)
            }
        }
    }
}
