// The conclusions of two steps compared, for every sequence of bytes and every two numbers: refusals 1 to 11, then 17, then two
// propositions up to the names of their bound objects, two type judgements by their names' bytes and their ids.
#![tactic(auto)]

ghost use Rattle.std.specs.Prelude.{◌≡◌, ◌<◌};
ghost use Rattle.definitions.specs.Name.{eq_name};
ghost use Rattle.definitions.specs.Sheet.{names, propositions, name_of};
ghost use Rattle.definitions.specs.Comparison.{eq_identifier, alpha_eq};
ghost use Rattle.definitions.specs.Answers.{comparison};
ghost use Rattle.sheet.specs.Checks.{outcome_of};
ghost use Rattle.comparison.specs.Conclusions.{named_identifier, named_prop, JudgementIn, ConclusionIn, judgement_eq, conclusion_comparison};

use definitions::{Identifier, Reason, Refusal};
use identifier::same_bytes;
use number::pair_offset;
use sheet::AdmittedSheet;
use steps::{Conclusion, Judgement, step_at};

// Whether the names of two numbers have the same bytes: equal numbers are answered without a look at these, which two vocabularies
// could not tell.
#[tactic(auto, unfolding(definitions::specs::Sheet::name_of))]
fn same_named(sheet: &AdmittedSheet, a: u16, b: u16) -> bool
    requires { (a < names sheet.now) × (b < names sheet.now) }
    ensures { result ≡ eq_name (name_of sheet.now a) (name_of sheet.now b) }
{
    same_bytes(sheet.marked_names(), a as usize, b as usize)
}

// Two identifiers: their names, by their bytes, and their ids.
#[tactic(auto, unfolding(definitions::specs::Tree::rename_identifier, definitions::specs::Comparison::eq_identifier, steps::specs::StepAt::identifier_of, crate::specs::Conclusions::named_identifier))]
fn same_identifier(sheet: &AdmittedSheet, x: Identifier, y: Identifier) -> bool
    requires { (x.«name» < names sheet.now) × (y.«name» < names sheet.now) }
    ensures { result ≡ eq_identifier (named_identifier sheet.now x) (named_identifier sheet.now y) }
{
    same_named(sheet, x.name, y.name) && x.unique_id == y.unique_id
}

// Two type judgements: their objects, and the names of the datatypes. Those of two sheets are compared over two vocabularies
// elsewhere; here equal numbers need no look at the bytes.
#[tactic(auto, unfolding(crate::specs::Conclusions::judgement_eq))]
fn same_judgement(sheet: &AdmittedSheet, x: Judgement, y: Judgement) -> bool
    requires { JudgementIn sheet.now x × JudgementIn sheet.now y }
    ensures { result ≡ judgement_eq sheet.now x y }
{
    same_identifier(sheet, x.object, y.object) && same_named(sheet, x.datatype, y.datatype)
}

// Two propositions, by their numbers.
fn compare_propositions(sheet: &AdmittedSheet, p: u16, q: u16) -> Result<bool, Refusal>
    requires { (p < propositions sheet.now) × (q < propositions sheet.now) }
    ensures { outcome_of result ≡ alpha_eq (named_prop sheet.now p) (named_prop sheet.now q) }
{
    let marked = sheet.marked_propositions();
    let i = pair_offset(marked.pairs, p as usize);
    let j = pair_offset(marked.pairs, q as usize);
    alpha_eq::alpha_eq(marked.bytes, i, j, sheet.marked_names())
}

// Two conclusions, be they those of steps or not: a proposition and a type judgement are a no. A comparison of propositions up to the
// names of their objects may be refused, as that of two sheets' code bytes never is, so the two have no common match.
#[tactic(auto, using(crate::proofs::Conclusions::proposition_and_judgement, crate::proofs::Conclusions::judgement_and_proposition), unfolding(definitions::specs::Comparison::no))]
pub fn compare_conclusions(
    sheet: &AdmittedSheet,
    left: Conclusion,
    right: Conclusion,
) -> Result<bool, Refusal>
    requires { ConclusionIn sheet.now left × ConclusionIn sheet.now right }
    ensures { outcome_of result ≡ conclusion_comparison sheet.now left right }
{
    match (left, right) {
        (Conclusion::PropIsTrue(p), Conclusion::PropIsTrue(q)) => compare_propositions(sheet, p, q),
        (Conclusion::TypeJudgement(x), Conclusion::TypeJudgement(y)) => {
            Ok(same_judgement(sheet, x, y))
        }
        _ => Ok(false),
    }
}

// Two steps of a sheet: 17 where it has no such step.
fn compare_steps(sheet: &AdmittedSheet, i: usize, j: usize) -> Result<bool, Refusal>
    ensures { outcome_of result ≡ comparison sheet.now i j }
{
    let steps = sheet.header().steps;
    if steps <= i || steps <= j {
        return Err(Reason::ComparedStep.at(0));
    }
    let records = sheet.step_records();
    let left = step_at(records, i).conclusion;
    let right = step_at(records, j).conclusion;
    compare_conclusions(sheet, left, right)
}

// The comparison of two steps' conclusions, for any bytes.
pub fn compare(s: &[u8], i: usize, j: usize) -> Result<bool, Refusal>
    ensures { outcome_of result ≡ comparison s.now i j }
{
    let sheet = AdmittedSheet::new(s)?;
    compare_steps(&sheet, i, j)
}
