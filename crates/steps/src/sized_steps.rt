// The first steps of some records, with the sizes of their trees.
ghost use Rattle.std.specs.Prelude.{ℕ, ◌≤◌, ◌<◌, ◌≡◌, List, length};
ghost use Rattle.definitions.specs.Tree.{height, tree_in};
ghost use Rattle.steps.specs.Records.{HasStep};
ghost use Rattle.steps.specs.Tables.{TreeStart, StepsSized, HeightTable, FilledHeights};

use crate::premiss_count;

// The table may be longer than the steps: its front has their sizes.
#[derive(Clone, Copy)]
pub struct SizedSteps<'a> {
    pub step_records: &'a [u8],
    pub steps: usize,
    pub sizes: &'a [u16],
    pub ghost sized: { StepsSized step_records.now steps sizes.now },
}

impl SizedSteps<'_> {
    // Where the tree of the step behind these starts, if that step finds its premisses: back over each of them by its size. A `try_fold`
    // leaves open that each turn may subtract and where the last one ends, which are inductions over its turns: the loop has one invariant.
    // With the loops of `tree_height` and of `premiss` in `proof_tree` it shares the one line that goes back, and `Walk`, which says where
    // that leads: an iterator over premisses would be a struct with an `impl` and its laws in the place of that line.
    #[tactic(auto, using(crate::proofs::Walk::walk_within))]
    pub(crate) fn next_start(&self) -> Option<usize>
        requires { HasStep self.now.step_records.now self.now.steps }
        ensures { TreeStart self.now.step_records.now self.now.steps result }
    {
        let needed = premiss_count(self.step_records, self.steps);
        let sizes = self.sizes;
        let mut start = self.steps;
        for _ in 0..needed {
            if start == 0 {
                return None;
            }
            start -= sizes[start - 1] as usize;
        }
        Some(start)
    }

    // The nesting of the tree of step k: one more than that of its deepest premiss. A `fold` over the place and the deepest leaves open
    // that each turn may subtract, that the sum fits and what it is, as the `try_fold` of `next_start` does.
    #[tactic(auto, using(crate::proofs::Walk::walk_within))]
    fn tree_height(&self, k: usize, heights: &[u16]) -> u16
        requires { (k < self.now.steps) × (k ≤ length heights.now)
            × HeightTable self.now.step_records.now k heights.now }
        ensures { (names : ℕ) (pairs code : List ℕ) →
            result ≡ height (tree_in names pairs code self.now.step_records.now k) }
    {
        let premisses = premiss_count(self.step_records, k);
        let sizes = self.sizes;
        let mut start = k;
        let mut deepest = 0;
        for _ in 0..premisses {
            let last = start - 1;
            deepest = heights[last].max(deepest);
            start -= sizes[last] as usize;
        }
        deepest + 1
    }

    // The lowest step whose tree nests deeper than a limit: with that of a sheet, this is refusal 11. The heights are those of the
    // steps before it, which its turns write and read in their order.
    pub fn first_deep_tree(&self, heights: &mut [u16], limit: u16) -> Option<usize>
        requires { self.now.steps ≤ length heights.old }
        ensures { FilledHeights self.now.step_records.now self.now.steps limit heights.old result
            heights.new }
    {
        for k in 0..self.steps {
            let height = self.tree_height(k, heights);
            if limit < height {
                return Some(k);
            }
            heights[k] = height;
        }
        None
    }
}
