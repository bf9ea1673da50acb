// A sheet that refusals 1 to 11 let pass. A clause sees it as its bytes.
ghost use Rattle.std.specs.Prelude.{◌≡◌, ◌<◌, IfOk};
ghost use Rattle.definitions.specs.Sheet.{propositions, steps, marked, name_pairs, proposition_pairs, step_records, text_bytes, code_bytes};
ghost use Rattle.steps.specs.Tables.{SizeTable};
ghost use Rattle.sheet.specs.Header.{header_of, vocabulary_of};
ghost use Rattle.sheet.specs.Admitted.{Accepted, Admits};

use crate::header::Sheet;
use crate::parts::HeadedSheet;
use crate::{answer, check};
use definitions::Refusal;
use number::Marked;
use std::marker::Model;
use vocabulary::Memory;

// The bytes with their header. What hands out a part also tells what the refusals have shown of the bytes.
#[derive(Drop)]
pub struct AdmittedSheet<'a> {
    sheet: HeadedSheet<'a>,
}

impl<'a> Model for AdmittedSheet<'a> {
    ghost use Rattle.std.specs.Prelude.{List, ℕ};

    ghost Value = { List ℕ };

    ghost use Rattle.sheet.specs.Admitted.{Accepted};

    ghost view = { λ a. a.sheet.bytes.now };

    ghost invariant = { λ a. Accepted a.sheet.bytes.now };
}

impl<'a> AdmittedSheet<'a> {
    // The sheet of these bytes, or the first of refusals 1 to 11.
    pub fn new(bytes: &'a [u8]) -> Result<AdmittedSheet<'a>, Refusal>
        ensures { Admits bytes.now result }
    {
        let header = answer(bytes)?;
        let sheet = HeadedSheet { bytes, header };
        Ok(AdmittedSheet { sheet })
    }

    // The same, and the sizes of its steps' trees: a SizedSheet keeps both.
    pub(crate) fn with_sizes(
        bytes: &'a [u8],
        sizes: &mut [u16; Sheet::STEP_LIMIT],
    ) -> Result<AdmittedSheet<'a>, Refusal>
        ensures admits { Admits bytes.now result }
        ensures sized { IfOk result (λ _. SizeTable (step_records bytes.now) (steps bytes.now) sizes.new) }
    {
        let header = check(bytes, sizes)?;
        let sheet = HeadedSheet { bytes, header };
        Ok(AdmittedSheet { sheet })
    }

    // Its bytes.
    pub fn bytes(&self) -> &'a [u8]
        ensures is { result.now ≡ self.now }
        ensures accepted { Accepted self.now }
    {
        self.sheet.bytes
    }

    // Its header.
    pub fn header(&self) -> Sheet
        ensures is { result ≡ header_of self.now }
        ensures accepted { Accepted self.now }
    {
        self.sheet.header
    }

    // Its names and its code.
    pub fn memory(&self) -> Memory<'a>
        ensures bytes { result.bytes.now ≡ self.now }
        ensures vocabulary { result.vocabulary ≡ vocabulary_of (header_of self.now) }
        ensures accepted { Accepted self.now }
    {
        self.sheet.memory()
    }

    // The pairs of its names.
    pub fn name_pairs(&self) -> &'a [u8]
        ensures is { result.now ≡ name_pairs self.now }
        ensures accepted { Accepted self.now }
    {
        self.sheet.name_pairs()
    }

    // The pairs of its propositions.
    pub fn proposition_pairs(&self) -> &'a [u8]
        ensures is { result.now ≡ proposition_pairs self.now }
        ensures accepted { Accepted self.now }
    {
        self.sheet.proposition_pairs()
    }

    // Its names, and the text that their pairs mark.
    pub fn marked_names(&self) -> Marked<'a>
        ensures pairs { result.pairs.now ≡ name_pairs self.now }
        ensures text { result.bytes.now ≡ text_bytes self.now }
        ensures accepted { Accepted self.now }
    {
        self.sheet.marked_names()
    }

    // Its propositions, and the code that their pairs mark.
    pub fn marked_propositions(&self) -> Marked<'a>
        ensures pairs { result.pairs.now ≡ proposition_pairs self.now }
        ensures code { result.bytes.now ≡ code_bytes self.now }
        ensures accepted { Accepted self.now }
    {
        self.sheet.marked_propositions()
    }

    // The code of a proposition.
    pub fn proposition(&self, i: usize) -> &'a [u8]
        requires { i < propositions self.now }
        ensures is { result.now ≡ marked (proposition_pairs self.now) (code_bytes self.now) i }
        ensures accepted { Accepted self.now }
    {
        self.marked_propositions().piece(i)
    }

    // Its steps.
    pub fn step_records(&self) -> &'a [u8]
        ensures is { result.now ≡ step_records self.now }
        ensures accepted { Accepted self.now }
    {
        self.sheet.step_records()
    }

    // The text of its names.
    pub fn text_bytes(&self) -> &'a [u8]
        ensures is { result.now ≡ text_bytes self.now }
        ensures accepted { Accepted self.now }
    {
        self.sheet.text_bytes()
    }

    // The code of its propositions.
    pub fn code_bytes(&self) -> &'a [u8]
        ensures is { result.now ≡ code_bytes self.now }
        ensures accepted { Accepted self.now }
    {
        self.sheet.code_bytes()
    }
}
