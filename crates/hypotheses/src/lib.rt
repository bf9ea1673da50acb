// The hypotheses of a judgement: pairs of a name's number and a proposition's number, the latest last. Whether they are the sheet's,
// whether they may be checked, and the scope that they fill.
#![tactic(auto)]

ghost use Rattle.std.specs.Prelude.{◌≡◌, false, [], ◌<◌};
ghost use Rattle.definitions.specs.Sheet.{propositions};
ghost use Rattle.definitions.specs.Sound.{is_quantifier_free};
ghost use Rattle.definitions.specs.CheckAnswers.{all_quantifier_free, named_prop, hypothesis_out, assumed};
ghost use Rattle.hypotheses.specs.Pairs.{out_of};
ghost use Rattle.hypotheses.specs.Entered.{entered, Enterable};

use checkable::is_quantifier_free;
use number::pair_offset;
use prop_numbers::NAMES;
use sheet::AdmittedSheet;

// The hypotheses are a slice of numbers and no slice of pairs, since so they come in from C.

// Whether a hypothesis has a number that is not the sheet's, or the last name no proposition: refusal 31.
pub fn is_out(hypotheses: &[u16], names: usize, propositions: usize) -> bool
    ensures { result ≡ out_of names propositions hypotheses.now }
{
    hypotheses.chunks(2).any(|pair| match *pair {
        [name, proposition] => {
            names <= usize::from(name) || propositions <= usize::from(proposition)
        }
        _ => true,
    })
}

// Whether a proposition of the sheet has no quantifier and no uninstantiated parameter. Its pair says where its code ends; `is_free_at` of
// checkable has to find the end.
pub fn is_free(sheet: &AdmittedSheet, k: usize) -> bool
    requires { k < propositions sheet.now }
    ensures { result ≡ is_quantifier_free (named_prop sheet.now k) }
{
    is_quantifier_free(sheet.proposition(k), sheet.header().names)
}

// Whether the proposition of each hypothesis is such a one, also where a later hypothesis hides it: refusal 22.
pub fn are_free(sheet: &AdmittedSheet, hypotheses: &[u16]) -> bool
    requires { hypothesis_out sheet.now hypotheses.now ≡ false }
    ensures { result ≡ all_quantifier_free (assumed sheet.now hypotheses.now []) }
{
    hypotheses
        .chunks_exact(2)
        .all(|pair| is_free(sheet, usize::from(pair[1])))
}

// Enters the hypotheses into the scope, each under the number that the map has for its name: the offset of its proposition.
// A later one takes the entry of an earlier one of its name.
pub fn assume(hypotheses: &[u16], numbers: &[u16], pairs: &[u8], scope: &mut [Option<u32>; NAMES])
    requires { Enterable numbers.now pairs.now hypotheses.now scope.old }
    ensures { scope.new ≡ entered numbers.now pairs.now hypotheses.now
        scope.old }
{
    for pair in hypotheses.chunks_exact(2) {
        let name = numbers[pair[0] as usize] as usize;
        let at = pair_offset(pairs, pair[1] as usize);
        scope[name] = Some(at as u32);
    }
}
