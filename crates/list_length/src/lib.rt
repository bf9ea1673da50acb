// How long the atom list and the datatype list of a sheet's term are: they are put into a counter.
#![tactic(auto)]

ghost use Rattle.std.specs.Prelude.{◌≡◌, Ok};
ghost use Rattle.definitions.specs.Outcome.{map_outcome};
ghost use Rattle.definitions.specs.Answers.{sheet_term};
ghost use Rattle.output.specs.Written.{written_of};
ghost use Rattle.proof_term_lists.specs.Numbers.{list_numbers};

use definitions::{Refusal, TermList};
use output::Counter;
use proof_term_lists::put_term_list;
use sheet_term::{SheetTerm, TERM_NUMBERS};

// How many numbers a list of a term that is held has.
pub fn held_list_length(held: &SheetTerm, list: TermList) -> usize
    ensures { Ok result ≡ written_of (map_outcome (list_numbers list) (sheet_term held.now.0)) }
{
    let mut length = Counter { count: 0 };
    put_term_list(
        &mut length,
        list,
        &held.memory(),
        held.terms(),
        held.record(),
    );
    length.count
}

// How many numbers a list of a sheet's term has, or the refusal of the term, for every sequence of bytes.
pub fn list_length(s: &[u8], list: TermList) -> Result<usize, Refusal>
    ensures { result ≡ written_of (map_outcome (list_numbers list) (sheet_term s.now)) }
{
    let mut terms = [0u16; TERM_NUMBERS];
    let held = SheetTerm::new(s, &mut terms)?;
    Ok(held_list_length(&held, list))
}
