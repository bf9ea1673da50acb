// The header of a sheet, and where the parts lie that follow it.
ghost use Rattle.std.specs.Prelude.{◌*◌, ◌<◌, ◌≡◌, List, ℕ, Some, Err, MatchResult};
ghost use Rattle.reader.specs.Reading.{number_after};
ghost use Rattle.definitions.specs.Sheet.{header_out_of_range};
ghost use Rattle.sheet.specs.Header.{header_of, InRange, layout_of, vocabulary_of};
ghost use Rattle.sheet.specs.Checks.{answered, short_check};

use definitions::{Reason, Refusal};
use reader::header_number;
use vocabulary::Vocabulary;

// The six header numbers: T, N, C, P, S and the goal. The `header_of` any bytes is one, and so is what two of them add up to, in the
// ranges or not: `InRange` is asked for where the numbers are reckoned with or written. A second type for those in their ranges would
// hold this one, and all who read a number of an accepted sheet, who are asked for nothing, would go through it.
#[derive(Clone, Copy)]
pub struct Sheet {
    pub text_length: usize,
    pub names: usize,
    pub code_length: usize,
    pub propositions: usize,
    pub steps: usize,
    pub goal: usize,
}

// Where each part after the names' pairs begins, and where the sheet ends.
#[derive(Drop)]
pub struct Layout {
    pub proposition_pairs: usize,
    pub steps: usize,
    pub text: usize,
    pub code: usize,
    pub end: usize,
}

// The number k of the header, or refusal 1: fewer bytes came than a header has.
#[tactic(auto, using(crate::proofs::Short::too_short))]
fn header_field(s: &[u8], k: usize) -> Result<usize, Refusal>
    requires { k < 6 }
    ensures { MatchResult result (λ n. Some n ≡ number_after s.now (2 * k))
        (λ refusal. Err refusal ≡ answered (header_of s.now) (short_check s.now)) }
{
    header_number(s, k).ok_or(Reason::NoHeader.at(0))
}

impl Sheet {
    // Document 01's limits: text bytes, names, code bytes, propositions, steps; bytes of a name, parameters of an atom,
    // nesting of a proposition and of a tree; and the last column of a step.
    pub const TEXT_LIMIT: usize = 8192;

    pub const NAME_LIMIT: usize = vocabulary::NAME_LIMIT;

    pub const CODE_LIMIT: usize = prefix_code::CODE_LIMIT;

    pub const PROPOSITION_LIMIT: usize = 512;

    pub const STEP_LIMIT: usize = 1024;

    pub const NAME_LENGTH_LIMIT: usize = identifier::NAME_LENGTH_LIMIT;

    pub const PARAMETER_LIMIT: usize = prefix_code::PARAMETER_LIMIT as usize;

    pub const PROPOSITION_NESTING_LIMIT: usize = prefix_code::NESTING_LIMIT;

    pub const TREE_NESTING_LIMIT: u16 = 256;

    pub const COLUMN_LIMIT: usize = steps::COLUMN_LIMIT as usize;

    // The bytes of the header, of a pair of offset and length, and of a step.
    pub const HEADER_SIZE: usize = 12;

    pub const PAIR_SIZE: usize = number::PAIR_SIZE;

    pub const STEP_SIZE: usize = steps::STEP_SIZE;

    // The bytes of the longest sheet.
    pub const LENGTH_LIMIT: usize = Self::HEADER_SIZE
        + Self::PAIR_SIZE * (Self::NAME_LIMIT + Self::PROPOSITION_LIMIT)
        + Self::STEP_SIZE * Self::STEP_LIMIT
        + Self::TEXT_LIMIT
        + Self::CODE_LIMIT;

    // The header of these bytes, number by number through a reader. A table of six numbers would name none of them here.
    pub fn header(s: &[u8]) -> Result<Sheet, Refusal>
        ensures { result ≡ answered (header_of s.now) (short_check s.now) }
    {
        Ok(Self {
            text_length: header_field(s, 0)?,
            names: header_field(s, 1)?,
            code_length: header_field(s, 2)?,
            propositions: header_field(s, 3)?,
            steps: header_field(s, 4)?,
            goal: header_field(s, 5)?,
        })
    }

    // Whether a header number lies outside its range.
    #[tactic(auto, unfolding(definitions::specs::Sheet::text_limit, definitions::specs::Sheet::name_limit, definitions::specs::Sheet::code_limit, definitions::specs::Sheet::proposition_limit, definitions::specs::Sheet::step_limit, definitions::specs::Sheet::header_out_of_range, crate::specs::Header::header_of))]
    pub fn out_of_range(self) -> bool
        ensures { (s : List ℕ) → self ≡ header_of s → result ≡ header_out_of_range s }
    {
        Self::TEXT_LIMIT < self.text_length
            || Self::NAME_LIMIT < self.names
            || Self::CODE_LIMIT < self.code_length
            || !(1..=Self::PROPOSITION_LIMIT).contains(&self.propositions)
            || !(1..=Self::STEP_LIMIT).contains(&self.steps)
            || self.propositions <= self.goal
    }

    // Where the parts of a sheet with this header lie.
    #[tactic(auto, unfolding(definitions::specs::Sheet::text_limit, definitions::specs::Sheet::name_limit, definitions::specs::Sheet::code_limit, definitions::specs::Sheet::proposition_limit, definitions::specs::Sheet::step_limit, definitions::specs::Sheet::header_size, definitions::specs::Sheet::pair_size, definitions::specs::Sheet::step_size, crate::specs::Header::layout_of))]
    pub fn layout(self) -> Layout
        requires { InRange self }
        ensures { result ≡ layout_of self }
    {
        let proposition_pairs = Self::HEADER_SIZE + Self::PAIR_SIZE * self.names;
        let steps = proposition_pairs + Self::PAIR_SIZE * self.propositions;
        let text = steps + Self::STEP_SIZE * self.steps;
        let code = text + self.text_length;
        Layout {
            proposition_pairs,
            steps,
            text,
            code,
            end: code + self.code_length,
        }
    }

    // Where the names and the code of a sheet with this header lie.
    #[tactic(auto, unfolding(crate::specs::Header::vocabulary_of, definitions::specs::Sheet::header_size))]
    pub fn vocabulary(self) -> Vocabulary
        requires { InRange self }
        ensures { result ≡ vocabulary_of self }
    {
        let layout = self.layout();
        Vocabulary {
            name_count: self.names,
            pairs: Self::HEADER_SIZE,
            text: layout.text,
            text_length: self.text_length,
            code: layout.code,
            code_length: self.code_length,
        }
    }
}
