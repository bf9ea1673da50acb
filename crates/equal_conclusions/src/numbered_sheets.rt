// A host and a donor of a graft, with the numbers of the donor's names.
ghost use Rattle.definitions.specs.Sheet.{names};
ghost use Rattle.merged_names.specs.Numbered.{Numbered};

use sheet::AdmittedSheet;

// The two sheets, and the number that each name of the donor has in the merged one.
#[derive(Clone, Copy)]
pub struct NumberedSheets<'a> {
    pub host: &'a AdmittedSheet<'a>,
    pub donor: &'a AdmittedSheet<'a>,
    pub numbers: &'a [u16],
    pub ghost numbered: { Numbered host.now donor.now (names donor.now) numbers.now },
}
