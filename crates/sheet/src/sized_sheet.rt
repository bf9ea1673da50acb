// A sheet that refusals 1 to 11 let pass, with the sizes of its steps' trees. A clause sees it as its bytes.
ghost use Rattle.std.specs.Prelude.{◌≡◌};
ghost use Rattle.definitions.specs.Sheet.{steps, step_records};
ghost use Rattle.definitions.specs.Tree.{height, root_of};
ghost use Rattle.steps.specs.Tables.{SizeTable};
ghost use Rattle.sheet.specs.Admitted.{Accepted, Admits};

use crate::admitted_sheet::AdmittedSheet;
use crate::header::Sheet;
use definitions::Refusal;
use std::marker::Model;
use steps::SizedSteps;

// The sheet, beside the table that the checks filled. The table is lent, since it has 2 KiB, and may go before the sheet's bytes.
#[derive(Drop)]
pub struct SizedSheet<'a, 't> {
    admitted: AdmittedSheet<'a>,
    sizes: &'t [u16; Sheet::STEP_LIMIT],
}

impl<'a, 't> Model for SizedSheet<'a, 't> {
    ghost use Rattle.std.specs.Prelude.{List, ℕ};

    ghost Value = { List ℕ };

    ghost use Rattle.definitions.specs.Sheet.{steps, step_records};
    ghost use Rattle.steps.specs.Tables.{SizeTable};
    ghost use Rattle.sheet.specs.Admitted.{Accepted};

    ghost view = { λ a. a.admitted };

    ghost invariant = { λ a. Accepted a.admitted × SizeTable (step_records a.admitted) (steps a.admitted) a.sizes.now };
}

impl<'a, 't> SizedSheet<'a, 't> {
    // The sheet of these bytes, or the first of refusals 1 to 11. The table takes the sizes.
    pub fn new(
        bytes: &'a [u8],
        sizes: &'t mut [u16; Sheet::STEP_LIMIT],
    ) -> Result<SizedSheet<'a, 't>, Refusal>
        ensures { Admits bytes.now result }
    {
        let admitted = AdmittedSheet::with_sizes(bytes, sizes)?;
        Ok(SizedSheet { admitted, sizes })
    }

    // The sheet without its sizes.
    pub fn admitted(&self) -> &AdmittedSheet<'a>
        ensures is { result.now ≡ self.now }
        ensures accepted { Accepted self.now }
    {
        &self.admitted
    }

    // The sheet itself, for who needs the sizes no more.
    pub fn into_admitted(self) -> AdmittedSheet<'a>
        ensures is { result ≡ self.entry }
        ensures accepted { Accepted self.entry }
    {
        self.admitted
    }

    // The size of each step's tree.
    pub fn sizes(&self) -> &'t [u16; Sheet::STEP_LIMIT]
        ensures { SizeTable (step_records self.now) (steps self.now) result.now }
    {
        self.sizes
    }

    // The nesting of the root.
    pub fn root_height(&self) -> u16
        ensures { result ≡ height (root_of self.now) }
    {
        let step_records = self.admitted.step_records();
        let steps = self.admitted.header().steps;
        let sizes = self.sizes;
        let sized = SizedSteps {
            step_records,
            steps,
            sizes,
        };
        let mut heights = [0u16; Sheet::STEP_LIMIT];
        let limit = Sheet::TREE_NESTING_LIMIT;
        sized.first_deep_tree(&mut heights, limit);
        heights[steps - 1]
    }
}
