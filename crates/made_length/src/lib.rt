// How long a restated sheet, a merged one and the code of an exercise are: each is made in memory of its own, which has room for the
// longest.
#![tactic(auto)]

ghost use Rattle.std.specs.Prelude.{◌≡◌};
ghost use Rattle.definitions.specs.Restate.{restated};
ghost use Rattle.output.specs.Written.{written_of};
ghost use Rattle.restating.specs.Step.{given_of};
ghost use Rattle.grafting.specs.Answered.{merged_of};
ghost use Rattle.made_length.specs.Whole.{whole_graft, whole_exercise};

use definitions::{Refusal, Whose};
use exercises::exercise;
use grafting::graft;
use name_index::SLOT_COUNT;
use restating::{Given, restate};
use sheet::Sheet;

// The bytes of the longest code of an exercise: three connectives and four names.
const EXERCISE_LIMIT: usize = 19;

// How long the sheet with one more step is, or its refusal.
pub fn restate_length(s: &[u8], given: Given) -> Result<usize, Refusal>
    ensures { result ≡ written_of (restated s.now (given_of given)) }
{
    let mut slots = [0u16; SLOT_COUNT];
    let mut out = [0u8; Sheet::LENGTH_LIMIT];
    restate(s, given, &mut slots, &mut out)
}

// How long the sheet of a graft is, or the refusal and whose it is.
pub fn graft_length<'a>(
    host: &'a [u8],
    k: usize,
    donor: &'a [u8],
) -> Result<usize, (Whose, Refusal)>
    ensures { result ≡ merged_of (whole_graft host.now donor.now k) }
{
    let mut slots = [0u16; SLOT_COUNT];
    let mut out = [0u8; Sheet::LENGTH_LIMIT];
    graft(host, k, donor, &mut slots, &mut out)
}

// How long the code of an exercise is, or its refusal.
pub fn exercise_length(names: &[u8], n: usize, ordinal: usize) -> Result<usize, Refusal>
    ensures { result ≡ written_of (whole_exercise names.now n ordinal) }
{
    let mut out = [0u8; EXERCISE_LIMIT];
    exercise(names, n, ordinal, &mut out)
}
