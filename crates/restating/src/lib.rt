// A conclusion restated, after the Rust's create_alphq_eq_tree: the old sheet with one more step, AlphaEquivalent over the old root,
// for every sequence of bytes and every room; 1 to 11, 23, 24, 19 or 25, 16.
#![tactic(auto)]

ghost use Rattle.std.specs.Prelude.{◌≡◌, false, true, ℕ, ◌<◌, length, take, Ok};
ghost use Rattle.definitions.specs.Outcome.{accepted};
ghost use Rattle.definitions.specs.Sheet.{step_limit, names, propositions, steps};
ghost use Rattle.definitions.specs.Tree.{root_of};
ghost use Rattle.definitions.specs.Admission.{bad_step};
ghost use Rattle.definitions.specs.Answers.{is_in_room};
ghost use Rattle.definitions.specs.Restate.{new_record, no_step_left, restate_answer};
ghost use Rattle.writer_laws.specs.Restates.{Restates};
ghost use Rattle.output.specs.Numbers.{u16s};
ghost use Rattle.output.specs.Written.{Fills};
ghost use Rattle.sheet.specs.Header.{InRange};
ghost use Rattle.sheet.specs.Admitted.{Accepted};
ghost use Rattle.sheet.specs.Checks.{outcome_of};
ghost use Rattle.restating.specs.Step.{given_of, header_numbers, sheet_with, root_compared, judged};
ghost use Rattle.restating.specs.Slots.{slots_after};

use comparison::compare_conclusions;
use definitions::{Reason, Refusal};
use name_index::{SLOT_COUNT, build};
use output::sink::put_u16s;
use output::{Sink, Writer};
use sheet::{AdmittedSheet, Sheet, SizedSheet};
use steps::{Rule, bad_step, step_at};

// A conclusion in the form of a step record, and a column. The kind is a number, since refusal 23 is for one that is no kind.
#[derive(Drop)]
pub struct Given {
    pub kind: u16,
    pub first: u16,
    pub second: u16,
    pub third: u16,
    pub column: u16,
}

// The new step's record: AlphaEquivalent over one premiss, without identifiers, and what is given. What is given may be no conclusion,
// so it is written number by number, into an array of the size of a record.
fn new_record(given: Given) -> [u8; Sheet::STEP_SIZE]
    ensures { result ≡ new_record (given_of given) }
{
    let rule = [Rule::AlphaEquivalent as u8, 1, 0, 0, 0, 0, 0, 0, 0, 0];
    let conclusion = [
        given.kind,
        given.first,
        given.second,
        given.third,
        given.column,
    ];
    let mut step = [0u8; Sheet::STEP_SIZE];
    let mut writer = Writer {
        out: &mut step,
        to: 0,
    };
    writer.put_all(&rule);
    put_u16s(&mut writer, &conclusion);
    step
}

// The header of a sheet.
#[tactic(auto, unfolding(definitions::specs::Sheet::text_limit, definitions::specs::Sheet::name_limit, definitions::specs::Sheet::code_limit, definitions::specs::Sheet::proposition_limit, definitions::specs::Sheet::step_limit, crate::specs::Step::header_numbers))]
pub fn put_header<S: Sink<u8>>(sink: &mut S, h: Sheet)
    requires { InRange h }
    ensures { S.puts sink.old (u16s (header_numbers h)) sink.new }
{
    let numbers = [
        h.text_length as u16,
        h.names as u16,
        h.code_length as u16,
        h.propositions as u16,
        h.steps as u16,
        h.goal as u16,
    ];
    put_u16s(sink, &numbers);
}

// The sheet with one more step: its header, all up to the text, the step, and the rest.
#[tactic(auto, using(crate::proofs::Bytes::after_header, crate::proofs::Bytes::within, crate::proofs::Bytes::its_range), unfolding(definitions::specs::Sheet::header_size, definitions::specs::Sheet::step_limit))]
fn put_sheet<S: Sink<u8>>(sink: &mut S, sheet: &AdmittedSheet, step: &[u8])
    requires { steps sheet.now < step_limit }
    ensures { S.puts sink.old (sheet_with sheet.now step.now) sink.new }
{
    let s = sheet.bytes();
    let h = sheet.header();
    let new = Sheet {
        steps: h.steps + 1,
        ..h
    };
    let text = h.layout().text;
    let pairs_and_steps = &s[Sheet::HEADER_SIZE..text];
    let text_and_code = &s[text..];
    put_header(sink, new);
    sink.put_all(pairs_and_steps);
    sink.put_all(step);
    sink.put_all(text_and_code);
}

// 24: there are already 1,024 steps or 256 levels.
#[tactic(auto, unfolding(definitions::specs::Restate::no_step_left, definitions::specs::Sheet::step_limit, definitions::specs::Sheet::tree_nesting_limit, sheet::specs::Header::header_of))]
fn no_step_left(sheet: &SizedSheet) -> bool
    ensures { result ≡ no_step_left sheet.now (root_of sheet.now) }
{
    Sheet::STEP_LIMIT <= sheet.admitted().header().steps
        || Sheet::TREE_NESTING_LIMIT <= sheet.root_height()
}

// The root's conclusion and that of one more step.
#[tactic(auto, unfolding(definitions::specs::Sheet::step_size))]
fn compare_root(sheet: &AdmittedSheet, step: &[u8; Sheet::STEP_SIZE]) -> Result<bool, Refusal>
    requires { bad_step (names sheet.now) (propositions sheet.now) step.now 0 ≡ false }
    ensures { outcome_of result ≡ root_compared sheet.now step.now }
{
    let h = sheet.header();
    let root = step_at(sheet.step_records(), h.steps - 1).conclusion;
    let new = step_at(step, 0).conclusion;
    compare_conclusions(sheet, root, new)
}

// 23, 24, and then whether the root's conclusion equals that of one more step.
#[tactic(auto, unfolding(definitions::specs::Sheet::step_size))]
fn judge(sheet: &SizedSheet, step: &[u8; Sheet::STEP_SIZE]) -> Result<bool, Refusal>
    ensures value { outcome_of result ≡ judged sheet.now step.now }
    ensures accepted { Accepted sheet.now }
{
    let h = sheet.admitted().header();
    if bad_step(step, 0, h.names, h.propositions) {
        return Err(Reason::Given.at(0));
    }
    if no_step_left(sheet) {
        return Err(Reason::NoStepLeft.at(0));
    }
    compare_root(sheet.admitted(), step)
}

// The sheet with one more step, where it fits: it is longer by the record.
fn write_sheet(
    sheet: &AdmittedSheet,
    step: &[u8; Sheet::STEP_SIZE],
    out: &mut [u8],
) -> Result<usize, Refusal>
    requires { steps sheet.now < step_limit }
    ensures { Fills (is_in_room (length out.old) (accepted (sheet_with sheet.now step.now)))
        out.old out.new result }
{
    let end = sheet.bytes().len() + Sheet::STEP_SIZE;
    if out.len() < end {
        return Err(Reason::Room.at(0));
    }
    put_sheet(&mut Writer { out, to: 0 }, sheet, step);
    Ok(end)
}

// The new sheet of an accepted one, after the tests.
fn restate_accepted(sheet: &SizedSheet, given: Given, out: &mut [u8]) -> Result<usize, Refusal>
    ensures { Fills (restate_answer sheet.now (given_of given) (length out.old))
        out.old out.new result }
{
    let step = new_record(given);
    let same = judge(sheet, &step)?;
    if !same {
        return Err(Reason::NotAlphaEqual.at(0));
    }
    write_sheet(sheet.admitted(), &step, out)
}

// The same, with the index of the new sheet's names, which are the old ones.
fn restate_indexed(
    sheet: &SizedSheet,
    given: Given,
    slots: &mut [u16; SLOT_COUNT],
    out: &mut [u8],
) -> Result<usize, Refusal>
    ensures fills { Fills (restate_answer sheet.now (given_of given) (length out.old))
        out.old out.new result }
    ensures slots_after { slots.new ≡ slots_after
        (restate_answer sheet.now (given_of given) (length out.old)) slots.old }
{
    let length = restate_accepted(sheet, given, out)?;
    build(slots, &sheet.admitted().memory());
    Ok(length)
}

// The old sheet with one more step, AlphaEquivalent over the old root. The slots are the index of the new sheet's names, or what
// they were where it is refused.
pub fn restate(
    s: &[u8],
    given: Given,
    slots: &mut [u16; SLOT_COUNT],
    out: &mut [u8],
) -> Result<usize, Refusal>
    ensures fills { Fills (restate_answer s.now (given_of given) (length out.old))
        out.old out.new result }
    ensures slots_after { slots.new ≡ slots_after
        (restate_answer s.now (given_of given) (length out.old)) slots.old }
    ensures restates { (n : ℕ) → result ≡ Ok n
        → Restates s.now (given_of given) (take n out.new) }
{
    let mut sizes = [0u16; Sheet::STEP_LIMIT];
    let sheet = SizedSheet::new(s, &mut sizes)?;
    restate_indexed(&sheet, given, slots, out)
}
