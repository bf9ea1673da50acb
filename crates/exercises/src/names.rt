// The names of an exercise: how many a caller's list has, and whether one may follow those before it.
ghost use Rattle.std.specs.Prelude.{◌≡◌, not, false};
ghost use Rattle.definitions.specs.CallerNames.{names_in};
ghost use Rattle.definitions.specs.Exercises.{bad_names};
ghost use Rattle.exercises.specs.Names.{names_of, with_name, count_of};

use caller_names::{names_in, well_formed};
use identifier::NAME_LENGTH_LIMIT;

// At most so many names.
const NAME_LIMIT: usize = 3;

// Whether a name may stand behind those before it: there is room for it, it is one, and it differs from all of them.
#[tactic(auto, using(crate::proofs::Counting::no_room, crate::proofs::Counting::no_name, crate::proofs::Counting::judged_by))]
fn may_follow(earlier: &[&[u8]], name: &[u8]) -> bool
    ensures { bad_names (names_of earlier.now) ≡ false → result ≡ not (bad_names (with_name (names_of earlier.now) name.now)) }
{
    if NAME_LIMIT <= earlier.len() {
        return false;
    }
    if !well_formed(name) {
        return false;
    }
    !earlier.contains(&name)
}

// How many names there are; none, if they are more than three, repeated or malformed.
#[tactic(auto, unfolding(definitions::specs::Exercises::bad_names, definitions::specs::Exercises::exercise_name_limit, definitions::specs::CallerNames::all_well_formed, definitions::specs::Exercises::repeated))]
pub fn count_names(text: &[u8]) -> Option<usize>
    ensures { result ≡ count_of (names_in text.now) }
{
    // As many names as there may be, with the newlines between them, have fewer bytes. So a longer text is refused, and no piece of it is
    // searched for its end.
    if NAME_LIMIT * (NAME_LENGTH_LIMIT + 1) <= text.len() {
        return None;
    }
    // There is no heap, so that the names so far are the first `count` of an array. An `output::Writer` over it would count them the same, as
    // its position, and past the end too.
    let mut names = [text; NAME_LIMIT];
    let mut count = 0;
    for name in names_in(text) {
        if !may_follow(&names[..count], name) {
            return None;
        }
        names[count] = name;
        count += 1;
    }
    Some(count)
}
