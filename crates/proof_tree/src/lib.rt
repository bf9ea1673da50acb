// From the steps of a sheet to the records of its term (source document 000).
#![tactic(auto)]

mod conclusion;
mod step;
mod table;
mod term;
mod walked_steps;

ghost use Rattle.std.specs.Prelude.{◌+◌, ◌*◌, ◌-◌, ◌<◌, ◌≡◌, length, get_or};
ghost use Rattle.definitions.specs.Tree.{rule_in};
ghost use Rattle.definitions.specs.Export.{checking};
ghost use Rattle.proof_term.specs.Making.{Room};
ghost use Rattle.proof_term.specs.InPlace.{InPlace};
ghost use Rattle.proof_tree.specs.Table.{mode_of, ending_of, TableRow};
ghost use Rattle.proof_tree.specs.Labelling.{ending_at};
ghost use Rattle.proof_tree.specs.Terms.{Parts, first_three};
ghost use Rattle.proof_tree.specs.Exporting.{RoomFor, PlacedIn, Exported, ExportedIn};
ghost use Rattle.proof_tree.specs.Wrapping.{WrappedIn};

use conclusion::StatedConclusion;
use definitions::{Reason, Refusal};
use proof_term::{Label, Node, TermRecords};
use step::premiss;
use steps::{premiss_count, rule_byte, step_at};
pub use table::ReasoningMode;
use table::{Ending, Row, row_of};
use term::rule_term;
pub use walked_steps::WalkedSteps;

// Ascribes the newest term with the conclusion of its step k.
fn wrap_into_type_ascription(
    conclusion: &StatedConclusion,
    k: usize,
    terms: &mut TermRecords,
) -> Result<(), Refusal>
    requires { (k < 65536) × Room terms.old.numbers.now terms.old.used × (0 < terms.old.used) }
    ensures { InPlace (WrappedIn conclusion.now.pairs.now k conclusion.now.conclusion result) terms.old terms.new }
{
    let Some(at) = conclusion.proposition_at() else {
        return Err(Reason::AscribedJudgement.at(k));
    };
    let ascription = Node::TypeAscription {
        body: (terms.used - 1) as u16,
        label: Label::Proposition(at as u16),
    };
    terms.make(ascription);
    Ok(())
}

// The ending of a step's term in its mode, as the enum of the table has it: in checking mode no term is labelled.
#[tactic(auto, unfolding(crate::specs::Table::mode_of, crate::specs::Table::ending_of, crate::specs::Labelling::ending_at))]
fn ending_in(mode: ReasoningMode, ending: Ending) -> Ending
    ensures { ending_of result ≡ ending_at (mode_of mode) (ending_of ending) }
{
    match mode {
        ReasoningMode::Checking => Ending::Bare,
        ReasoningMode::Inferring => ending,
    }
}

// The term of step k in its mode, over the records of its premisses' terms: its ending says which label it has, and whether an
// ascription follows.
fn placed_term(
    steps: &WalkedSteps,
    k: usize,
    mode: ReasoningMode,
    row: Row,
    parts: [u16; 3],
    terms: &mut TermRecords,
) -> Result<(), Refusal>
    requires k_in_bounds { k < steps.now.count }
    requires row { TableRow (rule_in steps.now.records.now k) row }
    requires parts { Parts row.term (get_or parts 0 0) (get_or parts 1 0) (get_or parts 2 0)
        terms.old.numbers.now terms.old.used × Room terms.old.numbers.now (terms.old.used + 1) }
    ensures { InPlace (PlacedIn steps.now k (mode_of mode) (length row.modes.now) (first_three parts) result)
        terms.old terms.new }
{
    let ending = ending_in(mode, row.ending);
    let step = step_at(steps.records, k);
    let conclusion = StatedConclusion {
        names: steps.names,
        pairs: steps.pairs,
        code: steps.code,
        conclusion: step.conclusion,
    };
    let label = conclusion.annotation(ending, k)?;
    let first = step.first.name;
    let second = step.second.name;
    rule_term(row.term, first, second, label, parts, terms);
    let Ending::Ascribed = ending else {
        return Ok(());
    };
    wrap_into_type_ascription(&conclusion, k, terms)
}

// The term of step k in its mode: its premisses are counted on entering it and come next, in order; its conclusion comes last.
fn do_export_as_proof_term(
    steps: &WalkedSteps,
    k: usize,
    mode: ReasoningMode,
    terms: &mut TermRecords,
) -> Result<(), Refusal>
    requires k_in_bounds { k < steps.now.count }
    requires room_for { RoomFor terms.old.numbers.now (terms.old.used + 2 * get_or steps.now.sizes.now k 0) }
    ensures { InPlace (ExportedIn steps.now k (mode_of mode) result) terms.old terms.new }
{
    let row = row_of(rule_byte(steps.records, k));
    if !row.admits_count(premiss_count(steps.records, k)) {
        return Err(Reason::PremissCount.at(k));
    }
    let mut parts = [0u16; 3];
    for (i, &premiss_mode) in row.modes.iter().enumerate() {
        do_export_as_proof_term(
            steps,
            premiss(steps, k, i),
            premiss_mode.unwrap_or(mode),
            terms,
        )?;
        parts[i] = (terms.used - 1) as u16;
    }
    placed_term(steps, k, mode, row, parts, terms)
}

// The sheet's term: what the last step gives in checking mode.
#[tactic(auto, unfolding(crate::specs::Table::mode_of))]
pub fn export_as_proof_term(steps: &WalkedSteps, term_records: &mut [u16]) -> Result<usize, Refusal>
    requires some_step { 0 < steps.now.count }
    requires room_for { RoomFor term_records.old (2 * steps.now.count) }
    ensures { Exported steps.now (steps.now.count - 1) checking term_records.old 0 term_records.new result }
{
    let mut terms = TermRecords {
        numbers: term_records,
        used: 0,
    };
    do_export_as_proof_term(steps, steps.count - 1, ReasoningMode::Checking, &mut terms)?;
    Ok(terms.used)
}
