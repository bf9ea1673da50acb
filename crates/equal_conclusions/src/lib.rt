// Whether a conclusion of a host and one of a donor are equal, names taken by bytes: refusal 27. Propositions are compared by their
// codes over the merged numbers, by which names have equal bytes just where their numbers are equal.
#![tactic(auto)]

mod numbered_sheets;

ghost use Rattle.std.specs.Prelude.{◌≡◌, ◌-◌, ◌<◌, ◌≤◌, length};
ghost use Rattle.definitions.specs.Equal.{eq_conclusion};
ghost use Rattle.definitions.specs.Sheet.{name_limit, names, propositions, steps};
ghost use Rattle.definitions.specs.Answers.{named_conclusion};
ghost use Rattle.merged_names.specs.Numbered.{Numbered};
ghost use Rattle.sheet.specs.Admitted.{Accepted};
ghost use Rattle.steps.specs.StepAt.{KnownJudgement};
ghost use Rattle.equal_conclusions.specs.Equality.{code_over, same_proposition, same_judgement};

use identifier::same_name;
pub use numbered_sheets::NumberedSheets;
use output::Writer;
use renumbering::put_proposition;
use sheet::{AdmittedSheet, Sheet};
use steps::{Conclusion, Judgement, step_at};

// The code of a proposition over other name numbers, in lent memory.
fn renumber_proposition<'a>(
    sheet: &AdmittedSheet,
    i: usize,
    numbers: &[u16],
    memory: &'a mut [u8; Sheet::CODE_LIMIT],
) -> &'a [u8]
    requires i_bound { i < propositions sheet.now }
    requires room { name_limit ≤ length numbers.now }
    ensures is { result.now ≡ code_over sheet.now numbers.now i }
    ensures accepted { Accepted sheet.now }
{
    let names = sheet.header().names;
    let mut writer = Writer { out: memory, to: 0 };
    put_proposition(sheet.proposition(i), names, numbers, &mut writer);
    let end = writer.to;
    &memory[..end]
}

// Whether a proposition of the host and one of the donor are equal.
fn same_propositions(sheets: &NumberedSheets, host_numbers: &[u16], p: usize, q: usize) -> bool
    requires p_bound { (p < propositions sheets.now.host.now) × (q < propositions sheets.now.donor.now) }
    requires numbered { Numbered sheets.now.host.now sheets.now.host.now (names sheets.now.host.now) host_numbers.now }
    ensures { result ≡ same_proposition sheets.now.host.now p sheets.now.donor.now q }
{
    let mut left = [0u8; Sheet::CODE_LIMIT];
    let mut right = [0u8; Sheet::CODE_LIMIT];
    let ours = renumber_proposition(sheets.host, p, host_numbers, &mut left);
    let theirs = renumber_proposition(sheets.donor, q, sheets.numbers, &mut right);
    same_name(ours, theirs)
}

// Whether a type judgement of the host and one of the donor are equal: names are equal where their bytes are, so that no derived
// equality of judgements says it, and each part is tested by itself.
fn same_judgements(sheets: &NumberedSheets, x: Judgement, y: Judgement) -> bool
    requires { KnownJudgement (names sheets.now.host.now) x × KnownJudgement (names sheets.now.donor.now) y }
    ensures { result ≡ same_judgement sheets.now.host.now x sheets.now.donor.now y }
{
    let host = sheets.host.memory();
    let donor = sheets.donor.memory();
    if !host.same_name(x.object.name as usize, &donor, y.object.name as usize) {
        return false;
    }
    if x.object.unique_id != y.object.unique_id {
        return false;
    }
    host.same_name(x.datatype as usize, &donor, y.datatype as usize)
}

// Whether the conclusion of step k of the host and that of the donor's root are equal. One sheet's propositions are compared up to
// their bound names; here names are of two sheets, and equal propositions have equal codes.
pub fn same_conclusion(sheets: &NumberedSheets, host_numbers: &[u16], k: usize) -> bool
    requires k_bound { k < steps sheets.now.host.now }
    requires numbered { Numbered sheets.now.host.now sheets.now.host.now (names sheets.now.host.now) host_numbers.now }
    ensures { result ≡ eq_conclusion (named_conclusion sheets.now.host.now k)
        (named_conclusion sheets.now.donor.now (steps sheets.now.donor.now - 1)) }
{
    let ours = step_at(sheets.host.step_records(), k).conclusion;
    let root = sheets.donor.header().steps - 1;
    let theirs = step_at(sheets.donor.step_records(), root).conclusion;
    match (ours, theirs) {
        (Conclusion::PropIsTrue(p), Conclusion::PropIsTrue(q)) => {
            same_propositions(sheets, host_numbers, p as usize, q as usize)
        }
        (Conclusion::TypeJudgement(x), Conclusion::TypeJudgement(y)) => {
            same_judgements(sheets, x, y)
        }
        _ => false,
    }
}
