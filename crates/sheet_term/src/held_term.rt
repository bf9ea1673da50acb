// A sheet with its term in records.
ghost use Rattle.std.specs.Prelude.{◌≡◌};
ghost use Rattle.sheet.specs.Admitted.{Accepted};
ghost use Rattle.sheet.specs.Header.{header_of, vocabulary_of};
ghost use Rattle.sheet_term.specs.Held.{HeldTerm, Holds};

use crate::{TERM_NUMBERS, sheet_term};
use definitions::Refusal;
use sheet::AdmittedSheet;
use std::marker::Model;
use vocabulary::Memory;

// The sheet, and lent records, of which record n holds its term. A clause sees the sheet's bytes, the records and n.
#[derive(Drop)]
pub struct SheetTerm<'a, 't> {
    sheet: AdmittedSheet<'a>,
    terms: &'t [u16],
    n: usize,
}

impl<'a, 't> Model for SheetTerm<'a, 't> {
    ghost use Rattle.std.specs.Prelude.{List, ℕ};
    ghost use Rattle.sheet.specs.Admitted.{Accepted};
    ghost use Rattle.sheet_term.specs.Held.{HeldTerm};

    ghost Value = { List ℕ × List ℕ × ℕ };

    ghost view = { λ a. (a.sheet, a.terms.now, a.n) };

    ghost invariant = { λ a. Accepted a.sheet × HeldTerm a.sheet a.terms.now a.n };
}

impl<'a, 't> SheetTerm<'a, 't> {
    // The sheet of these bytes and its term, or the first of refusals 1 to 15. Where the bytes are refused, what the records hold is left
    // open.
    #[tactic(auto, unfolding(definitions::specs::Sheet::step_limit))]
    pub fn new(
        s: &'a [u8],
        terms: &'t mut [u16; TERM_NUMBERS],
    ) -> Result<SheetTerm<'a, 't>, Refusal>
        ensures { Holds s.now result }
    {
        let (sheet, n) = sheet_term(s, terms)?;
        Ok(SheetTerm { sheet, terms, n })
    }

    // The sheet.
    pub fn sheet(&self) -> &AdmittedSheet<'a>
        ensures is { result.now ≡ self.now.0 }
        ensures held { HeldTerm self.now.0 self.now.1 self.now.2 }
    {
        &self.sheet
    }

    // The sheet's names and code.
    pub fn memory(&self) -> Memory<'a>
        ensures bytes { result.bytes.now ≡ self.now.0 }
        ensures vocabulary { result.vocabulary ≡ vocabulary_of (header_of self.now.0) }
        ensures accepted { Accepted self.now.0 }
    {
        self.sheet.memory()
    }

    // The records.
    pub fn terms(&self) -> &'t [u16]
        ensures { result.now ≡ self.now.1 }
    {
        self.terms
    }

    // The record that holds the term.
    pub fn record(&self) -> usize
        ensures is { result ≡ self.now.2 }
        ensures held { HeldTerm self.now.0 self.now.1 self.now.2 }
    {
        self.n
    }
}
