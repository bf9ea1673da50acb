// The code of a sheet's propositions over other name numbers, each where it stood, with ⊤ and ⊥ behind all of them.
#![tactic(auto)]

ghost use Rattle.standing_code.specs.Over.{Codes, CodeStands};

use number::{Marked, pair_offset};
use output::Writer;
use renumbering::put_proposition;

// Behind the most bytes of code that a sheet has stand ⊤ and ⊥.
const TOP: usize = prefix_code::CODE_LIMIT;

const BOTTOM: usize = TOP + 1;

pub const CODE_SIZE: usize = BOTTOM + 1;

// The propositions, one after another, by their numbers, since a number is what finds a pair among the pairs; and then ⊤ and ⊥.
pub fn put_code(propositions: Marked, count: usize, names: usize, numbers: &[u16], out: &mut [u8])
    requires { Codes names propositions.pairs.now propositions.bytes.now count numbers.now out.old }
    ensures { CodeStands names propositions.entry.pairs.now propositions.entry.bytes.now count numbers.now out.new }
{
    for k in 0..count {
        let to = pair_offset(propositions.pairs, k);
        let mut there = Writer { out, to };
        put_proposition(propositions.piece(k), names, numbers, &mut there);
    }
    out[TOP] = prefix_code::TRUE;
    out[BOTTOM] = prefix_code::FALSE;
}
