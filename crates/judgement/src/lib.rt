// Whether the checking rules derive a judgement about a sheet's own term, for every sequence of bytes and every question. Before they
// are asked, every name gets the lowest number of its bytes, in the term and in the code.
#![tactic(auto)]

ghost use Rattle.std.specs.Prelude.{◌≡◌, ◌||◌, ◌≤◌, length, leb, Ok};
ghost use Rattle.definitions.specs.Outcome.{accepted};
ghost use Rattle.definitions.specs.Sheet.{name_limit, names, propositions, proposition_pairs, code_bytes};
ghost use Rattle.definitions.specs.CheckAnswers.{hypothesis_out, judgement};
ghost use Rattle.merged_names.specs.Numbered.{Numbered};
ghost use Rattle.standing_code.specs.Over.{CodeStands};
ghost use Rattle.sheet_term.specs.Held.{HeldTerm};
ghost use Rattle.judgement.specs.Answered.{judgement_of, Judges};
ghost use Rattle.judgement.specs.Asked.{Known, held_term, may_check, ruled, LowestNumbers};

use checkable::is_checkable;
use checker::{State, Terms};
use definitions::{Reason, Refusal};
use hypotheses::{are_free, assume, is_free, is_out};
use merged_names::{IndexedSheets, fill_numbers, index_names};
use name_index::SLOT_COUNT;
use number::pair_offset;
use proof_term::NODE_LIMIT;
use prop_numbers::{Made, NAMES};
use sheet::{AdmittedSheet, Sheet};
use sheet_term::{TERM_NUMBERS, sheet_term};
use standing_code::{CODE_SIZE, put_code};
use term_renumbering::renumber_records;
use term_sizes::fill_sizes;

// Stores for each name the lowest number with its bytes. A graft numbers the names of two sheets over two indexes; here one index is
// both.
fn number_names(sheet: &AdmittedSheet, numbers: &mut [u16])
    requires { name_limit ≤ length numbers.old }
    ensures { Numbered sheet.now sheet.now (names sheet.now) numbers.new }
{
    let mut slots = [0u16; SLOT_COUNT];
    let index = index_names(sheet, &mut slots);
    let sheets = IndexedSheets {
        host: index,
        donor: index,
    };
    fill_numbers(&sheets, numbers);
}

// 31: the proposition or a hypothesis is not the sheet's.
fn is_outside(sheet: &AdmittedSheet, hypotheses: &[u16], k: usize) -> bool
    ensures { result ≡ (leb (propositions sheet.now) k || hypothesis_out sheet.now hypotheses.now) }
{
    let h = sheet.header();
    h.propositions <= k || is_out(hypotheses, h.names, h.propositions)
}

// The question is two parameters, the hypotheses and k, and no struct: what is known of it, `Known`, is asked by two functions alone, and
// each clause would say `question.now.hypotheses.now` and `question.now.k` for `hypotheses.now` and `k`.

// 22 of the term, the proposition and the hypotheses: whether the rules speak of them.
fn may_check(sheet: &AdmittedSheet, terms: &[u16], n: usize, hypotheses: &[u16], k: usize) -> bool
    requires held_term { HeldTerm sheet.now terms.now n }
    requires known { Known sheet.now hypotheses.now k }
    ensures { result ≡ may_check sheet.now terms.now n hypotheses.now k }
{
    is_checkable(terms, n, sheet.code_bytes(), sheet.header().names)
        && is_free(sheet, k)
        && are_free(sheet, hypotheses)
}

// The sheet's propositions over the numbers, each where it stands, and then ⊤ and ⊥.
fn stand(sheet: &AdmittedSheet, numbers: &[u16], code: &mut [u8; CODE_SIZE])
    requires { names sheet.now ≤ length numbers.now }
    ensures { CodeStands (names sheet.now) (proposition_pairs sheet.now) (code_bytes sheet.now)
        (propositions sheet.now) numbers.now code.new }
{
    let h = sheet.header();
    let propositions = sheet.marked_propositions();
    put_code(propositions, h.propositions, h.names, numbers, code);
}

// What the rules say: the node at which they stop, or none where they derive the judgement.
fn decide(
    sheet: &AdmittedSheet,
    terms: &mut [u16; TERM_NUMBERS],
    n: usize,
    hypotheses: &[u16],
    k: usize,
    numbers: &[u16],
) -> Option<usize>
    requires held_term { HeldTerm sheet.now terms.old n }
    requires lowest { LowestNumbers sheet.now numbers.now }
    requires known { Known sheet.now hypotheses.now k }
    ensures { Ok result ≡ judgement_of (accepted (ruled sheet.now terms.old n hypotheses.now k)) }
{
    let pairs = sheet.proposition_pairs();
    let mut code = [0u8; CODE_SIZE];
    stand(sheet, numbers, &mut code);
    renumber_records(terms, n, numbers);
    fill_sizes(terms, n);
    let mut state = State {
        scope: [None; NAMES],
        made: [Made::default(); NODE_LIMIT],
    };
    assume(hypotheses, numbers, pairs, &mut state.scope);
    // A label of a sheet's own term has its offset for its number.
    let judged = Terms {
        records: terms,
        code: &code,
        stride: 1,
    };
    let at = pair_offset(pairs, k);
    // The root is node 0.
    judged.check(&mut state, n, 0, at).err()
}

// 31, 22 and the answer, of the term that is held.
#[tactic(auto, unfolding(definitions::specs::Sheet::name_limit))]
fn judge_held(
    sheet: &AdmittedSheet,
    terms: &mut [u16; TERM_NUMBERS],
    n: usize,
    hypotheses: &[u16],
    k: usize,
) -> Result<Option<usize>, Refusal>
    requires { HeldTerm sheet.now terms.old n }
    ensures { result ≡ judgement_of (judgement sheet.now (held_term sheet.now terms.old n)
        hypotheses.now k) }
{
    if is_outside(sheet, hypotheses, k) {
        return Err(Reason::JudgedNumber.at(0));
    }
    if !may_check(sheet, terms, n, hypotheses, k) {
        return Err(Reason::Uncheckable.at(0));
    }
    let mut numbers = [0u16; Sheet::NAME_LIMIT];
    number_names(sheet, &mut numbers);
    let names = sheet.header().names;
    Ok(decide(sheet, terms, n, hypotheses, k, &numbers[..names]))
}

// The judgement that the sheet's own term checks against its proposition k, from hypotheses given as a name's number and a
// proposition's number each, the latest last: the node of the term at which the rules stop, or none where they derive it; or the
// first of refusals 1 to 15, 31 and 22.
pub fn judge(s: &[u8], hypotheses: &[u16], k: usize) -> Result<Option<usize>, Refusal>
    ensures { Judges s.now hypotheses.now k result }
{
    let mut terms = [0u16; TERM_NUMBERS];
    let (sheet, n) = sheet_term(s, &mut terms)?;
    judge_held(&sheet, &mut terms, n, hypotheses, k)
}
