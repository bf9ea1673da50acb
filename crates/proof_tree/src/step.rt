// Which steps finish a step's premisses.
ghost use Rattle.std.specs.Prelude.{◌+◌, ◌<◌, ◌≡◌};
ghost use Rattle.definitions.specs.Sheet.{premiss_count};
ghost use Rattle.proof_tree.specs.Premisses.{PremissStep};

use crate::walked_steps::WalkedSteps;
use steps::premiss_count;

// How many of the premisses come after the one of a position.
fn later_premisses(count: usize, position: usize) -> usize
    requires { position < count }
    ensures { position + 1 + result ≡ count }
{
    count - position - 1
}

// The step that finishes the premiss of a position, earliest first: back from step k over the premisses after it. Each step back is
// as long as the size says where the last one ended. The closure of a `fold` would have to say in clauses of its own which step has a
// tree before it and where that tree starts; the loop needs none beside its invariant.
pub fn premiss(steps: &WalkedSteps, k: usize, position: usize) -> usize
    requires k_in_bounds { k < steps.now.count }
    requires position_in_bounds { position < premiss_count steps.now.records.now k }
    ensures { PremissStep steps.now.records.now k position result }
{
    let later = later_premisses(premiss_count(steps.records, k) as usize, position);
    let sizes = steps.sizes;
    let mut start = k;
    for _ in 0..later {
        start -= sizes[start - 1] as usize;
    }
    start - 1
}
