// The sheet: its header, its parts, and which bytes are one.
#![tactic(auto)]

mod admitted_sheet;
mod header;
mod pairs;
mod parts;
mod sized_sheet;

ghost use Rattle.std.specs.Prelude.{◌≡◌, ◌<◌, IfSome};
ghost use Rattle.definitions.specs.Reason.{number_of};
ghost use Rattle.definitions.specs.Outcome.{refuse_at};
ghost use Rattle.definitions.specs.Admission.{header_checks};
ghost use Rattle.sheet.specs.Header.{header_of};
ghost use Rattle.sheet.specs.Checks.{outcome_of, checked_of, answered, name_checks, proposition_checks, step_checks, tree_checks};
ghost use Rattle.sheet.specs.Sizes.{steps_finding_trees, sized_steps, Sized};

pub use admitted_sheet::AdmittedSheet;
use definitions::{Reason, Refusal};
pub use header::{Layout, Sheet};
pub use pairs::{first_bad_code, first_bad_name, first_bad_pair, first_deep_proposition};
pub use parts::HeadedSheet;
pub use sized_sheet::SizedSheet;
use steps::{SizedSteps, fill_sizes, first_bad_step, leaves_trees};

// The refusal for a reason at a place that was found, if one was.
#[tactic(auto, unfolding(definitions::specs::Outcome::refuse, definitions::specs::Outcome::refuse_at))]
fn refuse_at(place: Option<usize>, reason: Reason) -> Result<(), Refusal>
    requires { IfSome place (λ k. k < 65536) }
    ensures { outcome_of result ≡ refuse_at place (number_of reason) }
{
    match place {
        Some(place) => Err(reason.at(place)),
        None => Ok(()),
    }
}

// Refusals 1 to 3: the header, and the length that it gives.
pub fn check_header(s: &[u8]) -> Result<Sheet, Refusal>
    ensures { result ≡ answered (header_of s.now) (header_checks s.now) }
{
    let h = Sheet::header(s)?;
    if h.out_of_range() {
        return Err(Reason::HeaderRange.at(0));
    }
    if s.len() != h.layout().end {
        return Err(Reason::ByteCount.at(0));
    }
    Ok(h)
}

// The stages behind the header.
impl HeadedSheet<'_> {
    // Refusals 4 and 5: the names.
    #[tactic(auto, using(crate::proofs::Searched::fits, crate::proofs::Searched::searched, crate::proofs::Given::name_pairs_present, crate::proofs::Given::names_fit, crate::proofs::Stages::stopped, crate::proofs::Placed::name_pairs_alike), unfolding(crate::specs::Header::header_of, crate::specs::Checks::name_checks, definitions::specs::Sheet::name_length_limit))]
    fn check_names(&self) -> Result<(), Refusal>
        ensures { outcome_of result ≡ name_checks self.now.bytes.now }
    {
        let h = self.header;
        let names = self.marked_names();
        let bad_pair = first_bad_pair(
            names.pairs,
            h.names,
            h.text_length,
            Sheet::NAME_LENGTH_LIMIT,
        );
        refuse_at(bad_pair, Reason::NamePair)?;
        refuse_at(first_bad_name(names, h.names), Reason::NameByte)
    }

    // Refusals 6 to 8: the propositions.
    #[tactic(auto, using(crate::proofs::Searched::fits, crate::proofs::Searched::searched, crate::proofs::Given::proposition_pairs_present, crate::proofs::Given::propositions_fit, crate::proofs::Stages::stopped, crate::proofs::Placed::proposition_pairs_alike), unfolding(crate::specs::Header::header_of, crate::specs::Checks::proposition_checks))]
    fn check_propositions(&self) -> Result<(), Refusal>
        ensures { outcome_of result ≡ proposition_checks self.now.bytes.now }
    {
        let h = self.header;
        let marked = self.marked_propositions();
        let bad_pair = first_bad_pair(marked.pairs, h.propositions, h.code_length, h.code_length);
        refuse_at(bad_pair, Reason::PropositionPair)?;
        refuse_at(
            first_bad_code(marked, h.propositions, h.names),
            Reason::PropositionCode,
        )?;
        refuse_at(
            first_deep_proposition(marked, h.propositions, h.names),
            Reason::PropositionNesting,
        )
    }

    // Refusal 9: the steps.
    #[tactic(auto, using(crate::proofs::Searched::fits, crate::proofs::Searched::searched, crate::proofs::Given::steps_present, crate::proofs::Given::steps_fit), unfolding(crate::specs::Header::header_of, crate::specs::Checks::step_checks))]
    fn check_steps(&self) -> Result<(), Refusal>
        ensures { outcome_of result ≡ step_checks self.now.bytes.now }
    {
        let h = self.header;
        let records = self.step_records();
        refuse_at(
            first_bad_step(records, h.steps, h.names, h.propositions),
            Reason::StepField,
        )
    }

    // Refusals 10 and 11: the steps' trees.
    #[tactic(auto, unfolding(definitions::specs::Sheet::step_limit))]
    fn check_trees(&self, sizes: &mut [u16; Sheet::STEP_LIMIT]) -> Result<(), Refusal>
        ensures value { outcome_of result ≡ tree_checks self.now.bytes.now }
        ensures sized { Sized self.now.bytes.now (steps_finding_trees self.now.bytes.now) sizes.old sizes.new }
    {
        let records = self.step_records();
        let steps = self.header.steps;
        refuse_at(fill_sizes(records, steps, sizes), Reason::TreeCount)?;
        if leaves_trees(records, steps, sizes) {
            return Err(Reason::TreeCount.at(steps - 1));
        }
        let sized = SizedSteps {
            step_records: records,
            steps,
            sizes,
        };
        let mut heights = [0u16; Sheet::STEP_LIMIT];
        refuse_at(
            sized.first_deep_tree(&mut heights, Sheet::TREE_NESTING_LIMIT),
            Reason::TreeNesting,
        )
    }
}

// Refusals 1 to 11 in their order. The table gets the sizes of the steps' trees: of all, where the sheet is accepted, and else of
// those that the checks reached.
#[tactic(auto, using(crate::proofs::Order::header_refuses, crate::proofs::Order::header_sizes, crate::proofs::Order::header_found, crate::proofs::Order::names_refuse, crate::proofs::Order::name_sizes, crate::proofs::Order::propositions_refuse, crate::proofs::Order::proposition_sizes, crate::proofs::Order::steps_refuse, crate::proofs::Order::step_sizes, crate::proofs::Order::trees_refuse, crate::proofs::Order::trees_pass, crate::proofs::Order::tree_sizes), unfolding(definitions::specs::Sheet::step_limit))]
pub fn check(s: &[u8], sizes: &mut [u16; Sheet::STEP_LIMIT]) -> Result<Sheet, Refusal>
    ensures value { result ≡ checked_of s.now }
    ensures sized { Sized s.now (sized_steps s.now) sizes.old sizes.new }
{
    let header = check_header(s)?;
    let sheet = HeadedSheet { bytes: s, header };
    sheet.check_names()?;
    sheet.check_propositions()?;
    sheet.check_steps()?;
    sheet.check_trees(sizes)?;
    Ok(header)
}

// The same where nobody asks for the sizes: a caller's frame has no table then.
pub fn answer(s: &[u8]) -> Result<Sheet, Refusal>
    ensures { result ≡ checked_of s.now }
{
    let mut sizes = [0u16; Sheet::STEP_LIMIT];
    check(s, &mut sizes)
}
