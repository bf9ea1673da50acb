// Pairs of offset and length, and what stands in the bytes that they mark. How many pairs there are, and how many bytes, is handed beside
// them: the definitions count by the numbers of the header, and from a slice of pairs the count would have to be divided out.
ghost use Rattle.std.specs.Prelude.{◌≡◌, ◌*◌, ◌≤◌, length};
ghost use Rattle.definitions.specs.Outcome.{lowest};
ghost use Rattle.definitions.specs.Sheet.{pair_size};
ghost use Rattle.definitions.specs.Admission.{bad_name, bad_code, deep_proposition};
ghost use Rattle.sheet.specs.Pairs.{bad_pair, HasPairs, HasCodes};

use crate::header::Sheet;
use identifier::is_name;
use number::{Marked, pair_length, pair_offset};
use prefix_code::{is_code, is_deep};
use search::lowest;

// Refusals 4 and 6: the lowest pair that starts before the last one's end, ends past so many bytes, or is empty or too long.
// Each pair is judged by the end of the one before it, which goes along: a test of a place alone would read that pair again.
#[tactic(auto, unfolding(definitions::specs::Sheet::pair_size, definitions::specs::Sheet::pair_offset, definitions::specs::Sheet::pair_length, definitions::specs::Sheet::number_at))]
pub fn first_bad_pair(pairs: &[u8], count: usize, bytes: usize, longest: usize) -> Option<usize>
    requires { pair_size * count ≤ length pairs.now }
    ensures { result ≡ lowest (bad_pair pairs.now bytes longest) count }
{
    let mut last_end = 0;
    for i in 0..count {
        let offset = pair_offset(pairs, i);
        let length = pair_length(pairs, i);
        let end = offset + length;
        if offset < last_end || bytes < end || !(1..=longest).contains(&length) {
            return Some(i);
        }
        last_end = end;
    }
    None
}

// Refusal 5: the lowest name with a byte that its position does not allow. What this search and the two below ask for is what the stage
// before each has shown of the pairs. A `HeadedSheet` knows its header alone, so as its methods they would ask for the same.
#[tactic(auto, unfolding(definitions::specs::Admission::bad_name))]
pub fn first_bad_name(names: Marked, count: usize) -> Option<usize>
    requires { HasPairs names.pairs.now names.bytes.now count }
    ensures { result ≡ lowest (bad_name names.entry.pairs.now names.entry.bytes.now) count }
{
    lowest(count, |i| !is_name(names.piece(i)))
}

// Refusal 7: the lowest proposition whose code is not exactly one proposition.
#[tactic(auto, unfolding(definitions::specs::Admission::bad_code), using(crate::proofs::Searched::denied_twice))]
pub fn first_bad_code(propositions: Marked, count: usize, names: usize) -> Option<usize>
    requires { HasPairs propositions.pairs.now propositions.bytes.now count }
    ensures { result ≡ lowest (bad_code names propositions.entry.pairs.now propositions.entry.bytes.now) count }
{
    lowest(count, |i| !is_code(propositions.piece(i), names))
}

// Refusal 8: the lowest proposition that nests too deep.
#[tactic(auto, unfolding(definitions::specs::Sheet::proposition_nesting_limit, definitions::specs::Tree::prop_in, definitions::specs::Admission::deep_proposition), using(crate::proofs::Given::pair_within, crate::proofs::Given::code_at))]
pub fn first_deep_proposition(propositions: Marked, count: usize, names: usize) -> Option<usize>
    requires { HasCodes names propositions.pairs.now propositions.bytes.now count }
    ensures { result ≡ lowest (deep_proposition names propositions.entry.pairs.now propositions.entry.bytes.now) count }
{
    lowest(count, |i| {
        let proposition = propositions.piece(i);
        is_deep(proposition, names, Sheet::PROPOSITION_NESTING_LIMIT)
    })
}
