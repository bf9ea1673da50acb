// The step records of a sheet: a step as a value, refusals 9, 10 and 11, and the sizes of the steps' trees.
#![tactic(auto)]

mod record;
mod rule;
mod sized_steps;

ghost use Rattle.std.specs.Prelude.{ℕ, List, ◌≤◌, ◌<◌, ◌≡◌, length};
ghost use Rattle.definitions.specs.Outcome.{lowest};
ghost use Rattle.definitions.specs.Sheet.{step_limit, rule_byte, premiss_count};
ghost use Rattle.definitions.specs.Admission.{bad_step, trees_left};
ghost use Rattle.steps.specs.Records.{HasStep, HasSteps};
ghost use Rattle.steps.specs.StepAt.{step_at};
ghost use Rattle.steps.specs.Tables.{SizeTable, FilledSizes};

use definitions::Identifier;
use record::StepRecord;
pub use rule::Rule;
use search::lowest;
pub use sized_steps::SizedSteps;

// The bytes of a step.
pub const STEP_SIZE: usize = 20;

// The last column of the grid.
pub const COLUMN_LIMIT: u16 = 4095;

// A type judgement: an object, and the name of its datatype.
#[derive(Clone, Copy)]
pub struct Judgement {
    pub object: Identifier,
    pub datatype: u16,
}

// A conclusion: the number of a proposition, or a type judgement.
#[derive(Clone, Copy)]
pub enum Conclusion {
    PropIsTrue(u16),
    TypeJudgement(Judgement),
}

// A step, with the numbers of its record: its rule by its byte, since a record that refusal 9 has not seen may have none.
#[derive(Drop)]
pub struct Step {
    pub rule: u8,
    pub premiss_count: u8,
    pub first: Identifier,
    pub second: Identifier,
    pub conclusion: Conclusion,
    pub column: u16,
}

// The readers of one step. A function calls one or two of them for a step: with a public `StepRecord` it would name the same records
// and step in a literal, and show the same fact of them there.

// The byte of the rule of step k.
pub fn rule_byte(step_records: &[u8], k: usize) -> u8
    requires { HasStep step_records.now k }
    ensures { result ≡ rule_byte step_records.now k }
{
    StepRecord { step_records, k }.rule_byte()
}

// Its premiss count.
pub fn premiss_count(step_records: &[u8], k: usize) -> u8
    requires { HasStep step_records.now k }
    ensures { result ≡ premiss_count step_records.now k }
{
    StepRecord { step_records, k }.premiss_count()
}

// Step k.
pub fn step_at(step_records: &[u8], k: usize) -> Step
    requires { HasStep step_records.now k }
    ensures { result ≡ step_at step_records.now k }
{
    StepRecord { step_records, k }.step()
}

// Step k has a number that refusal 9 does not let pass.
pub fn bad_step(step_records: &[u8], k: usize, names: usize, propositions: usize) -> bool
    requires { HasStep step_records.now k }
    ensures { result ≡ bad_step names propositions step_records.now k }
{
    StepRecord { step_records, k }.is_bad(names, propositions)
}

// Refusal 9: the lowest of the steps that is bad.
pub fn first_bad_step(
    step_records: &[u8],
    steps: usize,
    names: usize,
    propositions: usize,
) -> Option<usize>
    requires { HasSteps step_records.now steps }
    ensures { result ≡ lowest (bad_step names propositions step_records.now) steps }
{
    lowest(steps, |k| bad_step(step_records, k, names, propositions))
}

// Refusal 10, its first part: the lowest step that finds too few trees. The sizes are those of the steps' trees. Each turn reads the
// sizes that the turns before it wrote, so no search over a closure that only reads serves.
#[tactic(auto, unfolding(definitions::specs::Sheet::step_size, definitions::specs::Sheet::step_limit, crate::specs::Tables::TreeStart))]
pub fn fill_sizes(step_records: &[u8], steps: usize, sizes: &mut [u16]) -> Option<usize>
    requires { (HasSteps step_records.now steps) × (steps ≤ step_limit) × (steps ≤ length sizes.old) }
    ensures { FilledSizes step_records.now steps sizes.old result sizes.new }
{
    for k in 0..steps {
        let front = SizedSteps {
            step_records,
            steps: k,
            sizes,
        };
        let Some(start) = front.next_start() else {
            return Some(k);
        };
        sizes[k] = (k + 1 - start) as u16;
    }
    None
}

// Refusal 10, its second part: the last step's tree has not all the steps. It reads one size, and asks no more of the table.
pub fn leaves_trees(step_records: &[u8], steps: usize, sizes: &[u16]) -> bool
    requires { (0 < steps) × (steps ≤ length sizes.now) × SizeTable step_records.now steps sizes.now }
    ensures { (names : ℕ) (pairs code : List ℕ) →
        result ≡ trees_left names pairs code step_records.now steps }
{
    usize::from(sizes[steps - 1]) < steps
}
