// Refusal 22: whether a proposition in code is quantifier-free, and whether a term in records has no let, no datatype label and
// only such labels.
#![tactic(auto)]

ghost use Rattle.std.specs.Prelude.{◌≡◌, ℕ, ◌+◌, ◌*◌, ◌≤◌, List, length};
ghost use Rattle.definitions.specs.Prop.{Prop, PropParameter};
ghost use Rattle.definitions.specs.Code.{encode, Codable};
ghost use Rattle.definitions.specs.Sound.{all_instantiated, is_quantifier_free};
ghost use Rattle.definitions.specs.CheckAnswers.{is_checkable};
ghost use Rattle.prefix_code.specs.Scan.{Stands, parameters_coding};
ghost use Rattle.prefix_code.specs.Head as heads;
ghost use Rattle.prefix_code.specs.Head.{head_coding};
ghost use Rattle.prefix_code.specs.PropAt.{prop_at, Present};
ghost use Rattle.proof_term.specs.Records.{record_size, term_at};
ghost use Rattle.proof_term.specs.Views.{node_at};
ghost use Rattle.renumbering.specs.Renumbered.{Whole};
ghost use Rattle.checkable.specs.Plain.{is_plain_head, SomeParameters, SomeHead};
ghost use Rattle.checkable.specs.Terms.{own_checkable, LabelsPresent};

use prefix_code::{Head, ParameterKind, known_end, known_head_end};
use proof_term::{Kind, Label, node_at, parts_at};

// Code and the count of its names stand loose. Callers have the one as a part of a sheet's bytes and the other in its header,
// and what is asked of both is handed on to prefix_code, which takes them so: a struct of both would be made by each caller to be taken
// apart again here.

// Whether each of so many parameters from `at` on is instantiated. As long as they are, each has the size of one.
fn are_instantiated(code: &[u8], at: usize, count: usize) -> bool
    requires { SomeParameters count code.now at }
    ensures { (names : ℕ) (ps : List (PropParameter ℕ)) (rest : List ℕ)
        → Stands (parameters_coding names count) code.now at ps rest → result ≡ all_instantiated ps }
{
    let instantiated = ParameterKind::Instantiated.byte();
    code[at..]
        .chunks(ParameterKind::Instantiated.size())
        .take(count)
        .all(|parameter| parameter[0] == instantiated)
}

// Whether the head at `at` is no quantifier and has no uninstantiated parameter.
fn is_plain_head(code: &[u8], at: usize) -> bool
    requires { SomeHead code.now at }
    ensures { (names : ℕ) (h : heads.Head) (rest : List ℕ)
        → Stands (head_coding names) code.now at h rest → result ≡ is_plain_head h }
{
    match Head::of_known(code[at]) {
        Head::True | Head::False | Head::Binary(_) => true,
        Head::Atom => are_instantiated(code, at + 4, usize::from(code[at + 3])),
        Head::Quantified(_) => false,
    }
}

// Whether the proposition that is all of the code has no quantifier and no uninstantiated parameter.
pub fn is_quantifier_free(code: &[u8], names: usize) -> bool
    requires { Whole names code.now }
    ensures { (p : Prop ℕ) → Codable names p → code.now ≡ encode p → result ≡ is_quantifier_free p }
{
    let mut i = 0;
    // A head's own bytes say where it ends, so the place moves by no fixed step. An iterator over heads would have to keep the row of
    // propositions that is left in a ghost field, as prop_lists::put_entries tells.
    while i < code.len() {
        if !is_plain_head(code, i) {
            return false;
        }
        i = known_head_end(code, i, names);
    }
    true
}

// The same of the proposition at an offset, whose end is not known: a sheet's pairs say where their propositions end.
pub fn is_free_at(code: &[u8], at: usize, names: usize) -> bool
    requires { Present names code.now at }
    ensures { result ≡ is_quantifier_free (prop_at names code.now at) }
{
    let end = known_end(code, at, names);
    is_quantifier_free(&code[at..end], names)
}

// Whether record `n` is no let, and its label, if it has one, a quantifier-free proposition.
fn is_plain_record(records: &[u16], n: usize, code: &[u8], names: usize) -> bool
    requires { (record_size * (n + 1) ≤ length records.now) × LabelsPresent names code.now records.now n }
    ensures { result ≡ own_checkable (prop_at names code.now) (node_at records.now n) }
{
    let node = node_at(records, n);
    if node.kind() == Kind::LetIn {
        return false;
    }
    match node.label() {
        None => true,
        Some(Label::Datatype(_)) => false,
        Some(Label::Proposition(p)) => is_free_at(code, usize::from(p), names),
    }
}

// Whether the term that record `n` holds has no let, no datatype label, and labels without quantifiers and uninstantiated parameters.
pub fn is_checkable(records: &[u16], n: usize, code: &[u8], names: usize) -> bool
    requires { (record_size * (n + 1) ≤ length records.now) × LabelsPresent names code.now records.now n }
    ensures { result ≡ is_checkable (term_at (prop_at names code.now) records.now n) }
{
    if !is_plain_record(records, n, code, names) {
        return false;
    }
    for &part in parts_at(records, n) {
        let part = usize::from(part);
        if part < n && !is_checkable(records, part, code, names) {
            return false;
        }
    }
    true
}
