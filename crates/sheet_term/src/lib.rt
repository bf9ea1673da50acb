// The term of a sheet in records, for every sequence of bytes, and what its readers may know of it.
#![tactic(auto)]

mod held_term;

ghost use Rattle.std.specs.Prelude.{◌≡◌};
ghost use Rattle.definitions.specs.Answers.{label_count};
ghost use Rattle.sheet_term.specs.Held.{Exports, Gives};
ghost use Rattle.sheet_term.specs.Counted.{counted_of};

use definitions::Refusal;
pub use held_term::SheetTerm;
use proof_term::{RECORD_SIZE, annotation_count};
use proof_tree::{WalkedSteps, export_as_proof_term};
use sheet::{AdmittedSheet, Sheet, SizedSheet};

// Room for two term records for each step.
pub const TERM_NUMBERS: usize = 2 * RECORD_SIZE * Sheet::STEP_LIMIT;

// The record that holds the term of an admitted sheet.
fn export(sized: &SizedSheet, terms: &mut [u16; TERM_NUMBERS]) -> Result<usize, Refusal>
    ensures { Exports sized.now terms.new result }
{
    let sheet = sized.admitted();
    let sizes = sized.sizes();
    let h = sheet.header();
    let steps = WalkedSteps {
        names: h.names,
        pairs: sheet.proposition_pairs(),
        code: sheet.code_bytes(),
        records: sheet.step_records(),
        sizes,
        count: h.steps,
    };
    let next = export_as_proof_term(&steps, terms)?;
    Ok(next - 1)
}

// The sheet of any bytes and the record that holds its term, or the first of refusals 1 to 15. Where the bytes are refused, what the
// records hold is left open. Who only reads the term takes a `SheetTerm`; here the records stay the caller's, since `judgement` writes
// other name numbers and then sizes into them before it checks a term.
pub fn sheet_term<'a>(
    s: &'a [u8],
    terms: &mut [u16; TERM_NUMBERS],
) -> Result<(AdmittedSheet<'a>, usize), Refusal>
    ensures { Gives s.now terms.new result }
{
    let mut sizes = [0u16; Sheet::STEP_LIMIT];
    let sheet = SizedSheet::new(s, &mut sizes)?;
    let n = export(&sheet, terms)?;
    Ok((sheet.into_admitted(), n))
}

// The label count of any bytes.
#[tactic(auto, unfolding(definitions::specs::Sheet::step_limit, definitions::specs::Answers::label_count, definitions::specs::Outcome::map_outcome, crate::specs::Counted::counted_of))]
pub fn label_count(s: &[u8]) -> Result<usize, Refusal>
    ensures { result ≡ counted_of (label_count s.now) }
{
    let mut terms = [0u16; TERM_NUMBERS];
    let held = SheetTerm::new(s, &mut terms)?;
    Ok(annotation_count(held.terms(), held.record()))
}
