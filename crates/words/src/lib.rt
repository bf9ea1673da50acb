// What stands in front in the text of a term: words, names, expected bytes. Each reader gives the place after what it read, or none
// where that does not stand there.
// A text and a place in it are two parameters, and no cursor with a ghost field for `at ≤ length text.now`: the readers answer places, so
// each call would build a cursor and show there what it shows now, and each clause would say `drop c.at c.text.now` for `drop at text.now`.
#![tactic(auto)]

ghost use Rattle.std.specs.Prelude.{◌≡◌, ◌≤◌, length, drop, None, MatchOption};
ghost use Rattle.definitions.specs.Name.{eq_name};
ghost use Rattle.definitions.specs.Text.{occurs};
ghost use Rattle.definitions.specs.TermText.{keywords, is_admitted, all_admitted};
ghost use Rattle.definitions.specs.CallerNames.{names_in};
ghost use Rattle.definitions.specs.TermReader.{name, expect, start_of, argument_follows};
ghost use Rattle.words.specs.Places.{WordEnds, NameEnds, Expected};
ghost use Rattle.words.specs.Starts.{as_start};

mod name_table;

use caller_names::{names_in, well_formed};
use identifier::Class;
pub use name_table::{NameTable, put_pair};

// Where the name bytes from `at` on end.
pub fn word_end(text: &[u8], at: usize) -> usize
    requires { at ≤ length text.now }
    ensures { WordEnds text.now at result }
{
    let Some(length) = text[at..]
        .iter()
        .position(|b| !Class::of_byte(*b).may_follow())
    else {
        return text.len();
    };
    at + length
}

// Whether these bytes are one of the words that are no names of a term.
#[tactic(auto, unfolding(definitions::specs::TermText::keywords, definitions::specs::Text::occurs), using(crate::proofs::Spelled::by_bytes))]
fn is_keyword(word: &[u8]) -> bool
    ensures { result ≡ occurs eq_name word.now keywords }
{
    matches!(
        word,
        b"fn"
            | b"case"
            | b"of"
            | b"inl"
            | b"inr"
            | b"let"
            | b"in"
            | b"fst"
            | b"snd"
            | b"abort"
            | b"sorry"
    )
}

// Whether these bytes are a name of a term: one of document 01's that is no keyword.
#[tactic(auto, unfolding(definitions::specs::TermText::is_admitted))]
pub fn is_admitted(name: &[u8]) -> bool
    ensures { result ≡ is_admitted name.now }
{
    well_formed(name) && !is_keyword(name)
}

// Whether each name of a list is admitted.
pub fn all_admitted(list: &[u8]) -> bool
    ensures { result ≡ all_admitted (names_in list.now) }
{
    names_in(list).all(|name| is_admitted(name))
}

// Where the name at `at` ends.
pub fn name_end(text: &[u8], at: usize) -> Option<usize>
    requires { at ≤ length text.now }
    ensures { MatchOption result (name (drop at text.now) ≡ None) (NameEnds text.now at) }
{
    let end = word_end(text, at);
    if is_admitted(&text[at..end]) {
        return Some(end);
    }
    None
}

// Where the expected bytes end.
pub fn expect(text: &[u8], at: usize, what: &[u8]) -> Option<usize>
    requires { at ≤ length text.now }
    ensures { MatchOption result (expect what.now (drop at text.now) ≡ None) (Expected what.now text.now at) }
{
    if text[at..].starts_with(what) {
        return Some(at + what.len());
    }
    None
}

// The functions that a term calls by a word of their own.
#[derive(Clone, Copy)]
pub enum NamedFunction {
    Fst,
    Snd,
    Inl,
    Inr,
    Abort,
}

// How a term begins, by its first word.
#[derive(Clone, Copy)]
pub enum Start {
    Function,
    Case,
    Let,
    Call(NamedFunction),
    Sorry,
    Other,
}

// The start of a term whose first word these bytes are.
#[tactic(auto, unfolding(definitions::specs::TermReader::start_of, crate::specs::Starts::as_start, crate::specs::Starts::as_named), using(crate::proofs::Spelled::by_bytes))]
pub fn start_of(word: &[u8]) -> Start
    ensures { result ≡ as_start (start_of word.now) }
{
    match word {
        b"fn" => Start::Function,
        b"case" => Start::Case,
        b"let" => Start::Let,
        b"fst" => Start::Call(NamedFunction::Fst),
        b"snd" => Start::Call(NamedFunction::Snd),
        b"inl" => Start::Call(NamedFunction::Inl),
        b"inr" => Start::Call(NamedFunction::Inr),
        b"abort" => Start::Call(NamedFunction::Abort),
        b"sorry" => Start::Sorry,
        _ => Start::Other,
    }
}

// Whether an argument follows at `at`: a blank, and then a name, `sorry` or a bracket.
pub fn argument_follows(text: &[u8], at: usize) -> bool
    requires { at ≤ length text.now }
    ensures { result ≡ argument_follows (drop at text.now) }
{
    let Some(start) = expect(text, at, b" ") else {
        return false;
    };
    let end = word_end(text, start);
    let word = &text[start..end];
    if is_admitted(word) {
        return true;
    }
    if let Start::Sorry = start_of(word) {
        return true;
    }
    expect(text, start, b"(").is_some()
}
