// What a turn behind a term does: an argument, a label, or what the entry on top of the stack waits for.
#![tactic(auto)]

ghost use Rattle.std.specs.Prelude.{true, false, ◌≡◌, ◌<◌, ◌≤◌, length, drop, MatchOption};
ghost use Rattle.definitions.specs.Name.{Name};
ghost use Rattle.definitions.specs.Utf8.{utf8};
ghost use Rattle.definitions.specs.TermReader.{argument_follows};
ghost use Rattle.reading_laws.specs.TermMachine.{holding, giving};
ghost use Rattle.words.specs.Places.{Expected};
ghost use Rattle.term_stack.specs.Standing.{AtTerm};
ghost use Rattle.term_stack.specs.Turning.{TurnBegins, TurnEnds};
ghost use Rattle.term_openings.specs.Beginning.{TextBegins, TextEnds, NamesBegin, NamesEnd};
ghost use Rattle.term_closings.specs.Branching.{BranchLacks, BranchGiven, branch_entry};
ghost use Rattle.term_closings.specs.Giving.{AtEntry};

use proof_term::{Form, Node};
use prop_parts::NameRead;
use prop_reader::read_label;
use term_openings::{closed_for, name_after};
use term_stack::{Entry, Hand, NO_ASCRIPTION, NO_FUNCTION, Part, Progress, Purpose, State, Work};
use words::{NameTable, argument_follows, expect};

// As in `term_openings`, each function is lent the memories that it reads or writes and no others, so that its contract says what stays.

// The first term after a bracket is in hand: the bracket closes, or the second part of a pair is to be read.
#[tactic(auto, using(crate::proofs::Taken::taken_within, crate::proofs::Taken::taken_small))]
fn give_bracket(text: &[u8], work: &mut Work, s: Progress, hand: Hand, p: Purpose) -> Option<State>
    requires { TextBegins (AtEntry hand (Entry.Bracket p)) text.now work.old s }
    ensures { TextEnds (AtEntry hand (Entry.Bracket p)) 2 text.now work.old s work.new result }
{
    if hand.own {
        return None;
    }
    if let Some(comma) = expect(text, s.at, b", ") {
        let entry = Entry::Second(p, hand.waiting(s));
        return work.enter(Progress { at: comma, ..s }, entry);
    }
    let end = expect(text, s.at, b")")?;
    let behind = Progress { at: end, ..s };
    work.use_for(behind, Hand { own: true, ..hand }, p)
}

// The second part of a pair is in hand: the bracket closes, and the pair is used as the bracket was to be.
#[tactic(auto, using(crate::proofs::Taken::taken_within, crate::proofs::Taken::taken_small))]
fn give_second(
    text: &[u8],
    work: &mut Work,
    s: Progress,
    hand: Hand,
    p: Purpose,
    first: Part,
) -> Option<State>
    requires { TextBegins (AtEntry hand (Entry.Second p first)) text.now work.old s }
    ensures { TextEnds (AtEntry hand (Entry.Second p first)) 2 text.now work.old s work.new result }
{
    if hand.own {
        return None;
    }
    let end = expect(text, s.at, b")")?;
    let behind = Progress { at: end, ..s };
    let node = Node::Pair {
        first: first.root,
        second: hand.waiting(s).root,
    };
    let pair = Hand::over_part(Form::Closed, first, hand);
    let made = work.make(behind, node, pair)?;
    work.use_for(made, pair, p)
}

// The head of a let with these names is in hand, and then its body.
#[tactic(auto, using(crate::proofs::Taken::taken_within, crate::proofs::Taken::taken_small))]
fn give_let(text: &[u8], work: &mut Work, s: Progress, hand: Hand, x: u16, y: u16) -> Option<State>
    requires { TextBegins (AtEntry hand (Entry.LetHead x y)) text.now work.old s }
    ensures { TextEnds (AtEntry hand (Entry.LetHead x y)) 2 text.now work.old s work.new result }
{
    hand.due(NO_ASCRIPTION)?;
    let body = expect(text, s.at, b" in ")?;
    let entry = Entry::LetBody(x, y, hand.waiting(s));
    work.enter(Progress { at: body, ..s }, entry)
}

// What stands before the branch of a case: this word, a name and an arrow. The branch begins at the end of what was read.
fn read_branch(names: &mut NameTable, at: usize, word: &[u8]) -> Option<NameRead>
    requires { at ≤ length names.old.text.now }
    ensures { MatchOption result (BranchLacks word.now names.old.text.now at names.old)
        (λ r. (x : Name) × BranchGiven word.now names.old.text.now at names.old names.new r x) }
{
    let text = names.text;
    let name = name_after(names, at, word)?;
    let end = expect(text, name.end, b" => ")?;
    Some(NameRead { end, ..name })
}

// The head of a case is in hand or, where the head and the name behind it wait, its first branch: then the branch that follows.
#[tactic(auto, unfolding(term_openings::specs::Beginning::NamesBegin, term_openings::specs::Beginning::with_names))]
fn give_branch(
    names: &mut NameTable,
    work: &mut Work,
    s: Progress,
    hand: Hand,
    before: Option<(Part, u16)>,
) -> Option<State>
    requires { NamesBegin (AtEntry hand (branch_entry before)) names.old work.old s }
    ensures { NamesEnd (AtEntry hand (branch_entry before)) 2 names.old work.old s
        names.new work.new result }
{
    hand.due(NO_ASCRIPTION)?;
    let word = match before {
        None => b" of inl ".as_slice(),
        Some(_) => b", inr ".as_slice(),
    };
    let branch = read_branch(names, s.at, word)?;
    let behind = Progress {
        at: branch.end,
        ..s
    };
    let part = hand.waiting(s);
    let entry = match before {
        None => Entry::CaseFirst(part, branch.number),
        Some((head, x)) => Entry::CaseSecond(head, x, part, branch.number),
    };
    work.enter(behind, entry)
}

// A whole term is in hand: takes the entry on top off the stack, and does what it waits for.
#[tactic(auto, unfolding(term_openings::specs::Beginning::NamesBegin, term_openings::specs::Beginning::with_names))]
pub fn give(names: &mut NameTable, work: &mut Work, s: Progress, hand: Hand) -> Option<State>
    requires { NamesBegin (AtTerm giving hand) names.old work.old s × (0 < s.depth) }
    ensures { NamesEnd (AtTerm giving hand) 0 names.old work.old s names.new work.new result }
{
    let text = names.text;
    let below = Progress {
        depth: s.depth - 1,
        ..s
    };
    let entry = work.entries[below.depth];
    match entry {
        Entry::Bracket(p) => give_bracket(text, work, below, hand, p),
        Entry::Second(p, first) => give_second(text, work, below, hand, p, first),
        Entry::FunctionBody { name, label } => work.close_function(below, hand, name, label),
        Entry::CaseHead => give_branch(names, work, below, hand, None),
        Entry::CaseFirst(head, x) => give_branch(names, work, below, hand, Some((head, x))),
        Entry::CaseSecond(head, x, left, y) => work.close_case(below, hand, head, x, left, y),
        Entry::LetHead(x, y) => give_let(text, work, below, hand, x, y),
        Entry::LetBody(x, y, head) => work.close_let(below, hand, x, y, head),
    }
}

// A label follows at `at`, behind a colon: the term in hand is ascribed by it.
fn ascribe(
    types: &[u8],
    names: &mut NameTable,
    code: &mut [u8],
    work: &mut Work,
    s: Progress,
    hand: Hand,
    at: usize,
) -> Option<State>
    requires { TurnBegins (AtTerm holding hand) types.now names.old code.old work.old s
        × (argument_follows (drop s.at names.old.text.now) ≡ false)
        × Expected (utf8 ": ") names.old.text.now s.at at }
    ensures { TurnEnds (AtTerm holding hand) 1 types.now names.old code.old work.old s
        names.new code.new work.new result }
{
    hand.due(NO_FUNCTION)?;
    let read = read_label(names, at, types, code, s.to)?;
    let behind = Progress {
        at: read.end,
        to: read.to,
        ..s
    };
    let node = Node::TypeAscription {
        body: hand.waiting(s).root,
        label: read.label,
    };
    let whole = Hand::over(Form::Ascription, 0, 1, hand);
    let made = work.make(behind, node, whole)?;
    Some(State::Giving(made, whole))
}

// An argument follows: a closed term, to which the term in hand is applied.
#[tactic(auto, unfolding(term_openings::specs::Beginning::NamesBegin, term_openings::specs::Beginning::with_names))]
fn argument(names: &mut NameTable, work: &mut Work, s: Progress, hand: Hand) -> Option<State>
    requires { NamesBegin (AtTerm holding hand) names.old work.old s
        × (argument_follows (drop s.at names.old.text.now) ≡ true) }
    ensures { NamesEnd (AtTerm holding hand) 0 names.old work.old s names.new work.new result }
{
    hand.due(NO_FUNCTION)?;
    let start = expect(names.text, s.at, b" ")?;
    let behind = Progress { at: start, ..s };
    closed_for(names, work, behind, Purpose::Argument(hand.waiting(s)))
}

// A term is in hand to which more may belong: an argument, a label, or neither.
#[tactic(auto, unfolding(term_stack::specs::Turning::TurnBegins, term_stack::specs::Turning::scene_of))]
pub fn chain(
    types: &[u8],
    names: &mut NameTable,
    code: &mut [u8],
    work: &mut Work,
    s: Progress,
    hand: Hand,
) -> Option<State>
    requires { TurnBegins (AtTerm holding hand) types.now names.old code.old work.old s }
    ensures { TurnEnds (AtTerm holding hand) 1 types.now names.old code.old work.old s
        names.new code.new work.new result }
{
    if argument_follows(names.text, s.at) {
        return argument(names, work, s, hand);
    }
    if let Some(label) = expect(names.text, s.at, b": ") {
        return ascribe(types, names, code, work, s, hand, label);
    }
    Some(State::Giving(s, hand))
}
