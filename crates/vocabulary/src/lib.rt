// The names and the code of propositions in one memory: those of a sheet, or of a term that was read. A function that reads names or
// propositions takes a `Memory`, bytes with their vocabulary; one that compares two memories takes two.
#![tactic(auto)]

mod memory;

ghost use Rattle.std.specs.Prelude.{◌≡◌};
ghost use Rattle.definitions.specs.Name.{eq_name};
ghost use Rattle.vocabulary.specs.Memory.{pairs_of, text_of, code_of, name_of, LiesWithin, HasName, PropositionAt};
ghost use Rattle.vocabulary.specs.Vocabulary.{ShapeIn};

pub use memory::Memory;
use number::{Marked, PAIR_SIZE};
use prefix_code::{Shape, shape_at};

// A memory has at most so many names.
pub const NAME_LIMIT: usize = 512;

// The count of names, and where their pairs, their text and the code begin; how long the last two are.
#[derive(Clone, Copy)]
pub struct Vocabulary {
    pub name_count: usize,
    pub pairs: usize,
    pub text: usize,
    pub text_length: usize,
    pub code: usize,
    pub code_length: usize,
}

impl<'m> Memory<'m> {
    // The names' pairs.
    #[tactic(auto, unfolding(crate::specs::Vocabulary::pairs_in, definitions::specs::Sheet::pair_size))]
    pub fn pairs(&self) -> &'m [u8]
        requires { LiesWithin self.now }
        ensures { result.now ≡ pairs_of self.now }
    {
        let v = self.vocabulary;
        &self.bytes[v.pairs..v.pairs + PAIR_SIZE * v.name_count]
    }

    // Their text.
    #[tactic(auto, unfolding(crate::specs::Vocabulary::text_in))]
    pub fn text(&self) -> &'m [u8]
        requires { LiesWithin self.now }
        ensures { result.now ≡ text_of self.now }
    {
        let v = self.vocabulary;
        &self.bytes[v.text..v.text + v.text_length]
    }

    // The code of the propositions.
    #[tactic(auto, unfolding(crate::specs::Vocabulary::code_in))]
    pub fn code(&self) -> &'m [u8]
        requires { LiesWithin self.now }
        ensures { result.now ≡ code_of self.now }
    {
        let v = self.vocabulary;
        &self.bytes[v.code..v.code + v.code_length]
    }

    // The names: their pairs, and the text that these mark.
    pub fn marked_names(&self) -> Marked<'m>
        requires { LiesWithin self.now }
        ensures pairs { result.pairs.now ≡ pairs_of self.now }
        ensures text { result.bytes.now ≡ text_of self.now }
    {
        Marked {
            pairs: self.pairs(),
            bytes: self.text(),
        }
    }

    // The bytes of a name.
    #[tactic(auto, unfolding(crate::specs::Vocabulary::name_in))]
    pub fn name(&self, i: usize) -> &'m [u8]
        requires { HasName self.now i }
        ensures { result.now ≡ name_of self.now i }
    {
        self.marked_names().piece(i)
    }

    // Whether a name of this memory and a name of another have the same bytes.
    pub fn same_name(&self, i: usize, other: &Memory, j: usize) -> bool
        requires { HasName self.now i × HasName other.now j }
        ensures { result ≡ eq_name (name_of self.now i) (name_of other.now j) }
    {
        identifier::same_name(self.name(i), other.name(j))
    }

    // The shape of the proposition at an offset of the code.
    pub fn shape(&self, at: usize) -> Shape
        requires { PropositionAt self.now at }
        ensures { ShapeIn self.now.bytes.now self.now.vocabulary at result }
    {
        shape_at(self.code(), at)
    }
}
