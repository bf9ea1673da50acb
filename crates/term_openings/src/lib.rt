// What a turn of the reader of terms does before a term: a word, a name, a bracket that opens.
#![tactic(auto)]

ghost use Rattle.std.specs.Prelude.{◌≤◌, length, MatchOption};
ghost use Rattle.definitions.specs.CallerNames.{names_in};
ghost use Rattle.definitions.specs.TermReader.{fn_word, case_word, let_word};
ghost use Rattle.words.specs.Places.{NameEnds};
ghost use Rattle.prop_reader.specs.Answer.{LabelBegins};
ghost use Rattle.term_stack.specs.Standing.{ThereIs, AtReading};
ghost use Rattle.term_stack.specs.Turning.{TurnBegins, TurnEnds};
ghost use Rattle.term_openings.specs.Beginning.{AtClosed, Wordless, Started, AtCall, NameLacksAfter, NameThere, TextBegins, TextEnds, NamesBegin, NamesEnd};
ghost use Rattle.term_openings.specs.Parameters.{ParameterLacks, ParameterGiven};

use proof_term::{Label, Node};
use prop_parts::{NameRead, read_name};
use prop_reader::{LabelRead, read_label};
use term_stack::{Entry, Progress, Purpose, State, Work};
use words::{NameTable, NamedFunction, Start, expect, name_end, start_of, word_end};

// Each function is lent the memories that it reads or writes and no others, so that its contract says of the others that they stay: over
// a struct of list, names, code and work every clause would speak of all four. The table of names holds the text; a function that looks up
// no name takes the text alone.

// A name as a closed term, from `s.at` to `end`, read for a purpose.
fn name_for(
    names: &mut NameTable,
    work: &mut Work,
    s: Progress,
    end: usize,
    p: Purpose,
) -> Option<State>
    requires { NamesBegin (AtClosed p) names.old work.old s
        × NameEnds names.old.text.now s.at end }
    ensures { NamesEnd (AtClosed p) 0 names.old work.old s names.new work.new result }
{
    let name = names.number_of_name(s.at, end)?;
    let behind = Progress { at: end, ..s };
    work.use_leaf(behind, Node::Ident { name }, p)
}

// A bracket that opens, read for a purpose: unit where it closes at once, or else an entry for what stands in it.
#[tactic(auto, unfolding(crate::specs::Beginning::TextBegins, crate::specs::Beginning::with_text))]
fn open_for(text: &[u8], work: &mut Work, s: Progress, p: Purpose) -> Option<State>
    requires { TextBegins (AtClosed p) text.now work.old s × Wordless text.now s.at }
    ensures { TextEnds (AtClosed p) 0 text.now work.old s work.new result }
{
    let inside = expect(text, s.at, b"(")?;
    if let Some(end) = expect(text, inside, b")") {
        let behind = Progress { at: end, ..s };
        return work.use_leaf(behind, Node::Unit, p);
    }
    let behind = Progress { at: inside, ..s };
    work.enter(behind, Entry::Bracket(p))
}

// A closed term at `s.at`, read for a purpose: a name, `sorry`, unit, or a bracket that opens.
#[tactic(auto, unfolding(crate::specs::Beginning::NamesBegin, crate::specs::Beginning::with_names))]
pub fn closed_for(names: &mut NameTable, work: &mut Work, s: Progress, p: Purpose) -> Option<State>
    requires { NamesBegin (AtClosed p) names.old work.old s }
    ensures { NamesEnd (AtClosed p) 0 names.old work.old s names.new work.new result }
{
    let text = names.text;
    if let Some(end) = name_end(text, s.at) {
        return name_for(names, work, s, end, p);
    }
    let end = word_end(text, s.at);
    if let Start::Sorry = start_of(&text[s.at..end]) {
        let behind = Progress { at: end, ..s };
        return work.use_leaf(behind, Node::Sorry, p);
    }
    open_for(text, work, s, p)
}

// After `case`: a blank, and then the head.
#[tactic(auto, unfolding(crate::specs::Beginning::TextBegins, crate::specs::Beginning::with_text))]
fn start_case(text: &[u8], work: &mut Work, s: Progress) -> Option<State>
    requires { TextBegins (Started case_word) text.now work.old s }
    ensures { TextEnds (Started case_word) 0 text.now work.old s work.new result }
{
    let head = expect(text, s.at, b" ")?;
    work.enter(Progress { at: head, ..s }, Entry::CaseHead)
}

// After the word of a named function: a blank, and then the body, a closed term. It shares with `start_case` the line for the blank
// alone.
#[tactic(auto, unfolding(crate::specs::Beginning::NamesBegin, crate::specs::Beginning::with_names))]
fn call(
    names: &mut NameTable,
    work: &mut Work,
    s: Progress,
    function: NamedFunction,
) -> Option<State>
    requires { NamesBegin (AtCall function) names.old work.old s }
    ensures { NamesEnd (AtCall function) 0 names.old work.old s names.new work.new result }
{
    let body = expect(names.text, s.at, b" ")?;
    let behind = Progress { at: body, ..s };
    closed_for(names, work, behind, Purpose::Body(function))
}

// The name after these bytes at `at`, with its number.
pub fn name_after(names: &mut NameTable, at: usize, what: &[u8]) -> Option<NameRead>
    requires { at ≤ length names.old.text.now }
    ensures { MatchOption result (NameLacksAfter what.now names.old.text.now at names.old)
        (λ r. ThereIs (NameThere what.now names.old.text.now at names.old names.new r)) }
{
    let start = expect(names.text, at, what)?;
    read_name(names, start)
}

// After `let`: two names in brackets, and then the head.
#[tactic(auto, unfolding(crate::specs::Beginning::NamesBegin, crate::specs::Beginning::with_names))]
fn start_let(names: &mut NameTable, work: &mut Work, s: Progress) -> Option<State>
    requires { NamesBegin (Started let_word) names.old work.old s }
    ensures { NamesEnd (Started let_word) 0 names.old work.old s names.new work.new result }
{
    let text = names.text;
    let first = name_after(names, s.at, b" (")?;
    let second = name_after(names, first.end, b", ")?;
    let head = expect(text, second.end, b") = ")?;
    let behind = Progress { at: head, ..s };
    work.enter(behind, Entry::LetHead(first.number, second.number))
}

// The label of a parameter whose name ends at `at`, if one follows it.
fn parameter_label(
    names: &mut NameTable,
    at: usize,
    types: &[u8],
    code: &mut [u8],
    to: usize,
) -> Option<LabelRead<Option<Label>>>
    requires { LabelBegins at names.old to }
    ensures { MatchOption result (ParameterLacks names.old.text.now at (names_in types.now) names.old)
        (λ r. ThereIs (ParameterGiven names.old.text.now at (names_in types.now) names.old
        code.old to names.new code.new r)) }
{
    let Some(start) = expect(names.text, at, b": ") else {
        return Some(LabelRead {
            end: at,
            label: None,
            to,
        });
    };
    let read = read_label(names, start, types, code, to)?;
    Some(LabelRead {
        end: read.end,
        label: Some(read.label),
        to: read.to,
    })
}

// After `fn`: the parameter with its label, if it has one, and then the body.
#[tactic(auto, unfolding(term_stack::specs::Turning::TurnBegins, term_stack::specs::Turning::scene_of))]
fn start_function(
    types: &[u8],
    names: &mut NameTable,
    code: &mut [u8],
    work: &mut Work,
    s: Progress,
) -> Option<State>
    requires { TurnBegins (Started fn_word) types.now names.old code.old work.old s }
    ensures { TurnEnds (Started fn_word) 0 types.now names.old
        code.old work.old s names.new code.new work.new result }
{
    let text = names.text;
    let name = name_after(names, s.at, b" ")?;
    let read = parameter_label(names, name.end, types, code, s.to)?;
    let body = expect(text, read.end, b" => ")?;
    let behind = Progress {
        at: body,
        to: read.to,
        ..s
    };
    let entry = Entry::FunctionBody {
        name: name.number,
        label: read.label,
    };
    work.enter(behind, entry)
}

// A term begins at `s.at`: goes on by its first word.
#[tactic(auto, unfolding(term_stack::specs::Turning::TurnBegins, term_stack::specs::Turning::scene_of))]
pub fn start(
    types: &[u8],
    names: &mut NameTable,
    code: &mut [u8],
    work: &mut Work,
    s: Progress,
) -> Option<State>
    requires { TurnBegins AtReading types.now names.old code.old work.old s }
    ensures { TurnEnds AtReading 0 types.now names.old
        code.old work.old s names.new code.new work.new result }
{
    let text = names.text;
    let end = word_end(text, s.at);
    let first = start_of(&text[s.at..end]);
    let behind = Progress { at: end, ..s };
    match first {
        Start::Function => start_function(types, names, code, work, behind),
        Start::Case => start_case(text, work, behind),
        Start::Let => start_let(names, work, behind),
        Start::Call(function) => call(names, work, behind, function),
        Start::Sorry | Start::Other => closed_for(names, work, s, Purpose::Head),
    }
}
