// A term, read from strict text into lent memory: turn after turn, until there is no term or nothing waits for it.
#![tactic(auto)]

ghost use Rattle.std.specs.Prelude.{◌≡◌, true, [], ◌*◌, ◌<◌, ◌≤◌, ◌++◌, length, take, drop, MatchOption, MatchResult};
ghost use Rattle.definitions.specs.CallerNames.{names_in};
ghost use Rattle.definitions.specs.TermReader.{read_answer};
ghost use Rattle.term_stack.specs.Turning.{scene_of};
ghost use Rattle.term_reader.specs.Between.{goes_on, TurnFollows, GoesOn, ReadBegins};
ghost use Rattle.term_reader.specs.Whole.{Unsettled, Settled, ReadEnds, Readable, NoTerm, Measures, HasRead, Rereads};
ghost use Rattle.term_reader.specs.Answered.{answer_of, Copyable, short_for, HasRoom, HandsOver};
ghost use Rattle.term_reader.specs.Answered.{ReadsTerm, RestoresTerm};

use definitions::{Reason, Refusal};
use number::PAIR_SIZE;
use proof_term::RECORD_SIZE;
use term_closings::{chain, give};
use term_openings::start;
use term_stack::{Progress, State, Work};
use words::{NameTable, all_admitted};

// A term's text has at most so many bytes; a sheet's text has a limit of its own.
const TEXT_LIMIT: usize = 65536;

// How many nodes, names, bytes of code and labels a term has. The lent memories are longer than what a term takes of them, so its sizes
// are handed beside them.
#[derive(Drop)]
pub struct TermSize {
    pub nodes: usize,
    pub names: usize,
    pub code: usize,
    pub labels: usize,
}

// Whether another turn follows: the term is not whole, or something waits for it.
#[tactic(auto, unfolding(crate::specs::Between::goes_on))]
fn goes_on(state: State) -> bool
    ensures { result ≡ goes_on state }
{
    match state {
        State::Reading(_) | State::Holding(_, _) => true,
        State::Giving(s, _) => 0 < s.depth,
    }
}

// One turn. As in `term_openings`, each function is lent the memories that it reads or writes and no others.
#[tactic(auto, unfolding(term_stack::specs::Turning::TurnBegins, crate::specs::Between::TurnFollows, term_stack::specs::Standing::AtState, term_stack::specs::Turning::TurnEnds, crate::specs::Between::GoesOn, term_stack::specs::Standing::left_of))]
fn turn(
    types: &[u8],
    names: &mut NameTable,
    code: &mut [u8],
    work: &mut Work,
    state: State,
) -> Option<State>
    requires { TurnFollows types.now names.old code.old work.old state × (goes_on state ≡ true) }
    ensures { GoesOn types.now names.old code.old work.old state
        names.new code.new work.new result }
{
    match state {
        State::Reading(s) => start(types, names, code, work, s),
        State::Holding(s, hand) => chain(types, names, code, work, s, hand),
        State::Giving(s, hand) => give(names, work, s, hand),
    }
}

// The term that is whole and for which nothing waits: what is left of the text, and brackets around the whole, belong to no term.
fn settle(names: &NameTable, state: State) -> Option<TermSize>
    ensures { MatchOption result (Unsettled (length names.now.text.now) state)
        (Settled (length names.now.text.now) names.now.count state) }
{
    let State::Giving(s, hand) = state else {
        return None;
    };
    if s.at < names.text.len() || hand.own {
        return None;
    }
    Some(TermSize {
        nodes: s.used,
        names: usize::from(names.count),
        code: s.to,
        labels: hand.tally,
    })
}

// The term of a text: its records at the start of `work`, its names in their table, and its labels' code as far as there is room.
fn read(types: &[u8], names: &mut NameTable, code: &mut [u8], work: &mut Work) -> Option<TermSize>
    requires { ReadBegins types.now work.old }
    ensures { ReadEnds (scene_of types.now names.old.text.now names.new code.old code.new) work.new result }
{
    names.clear();
    let mut state = State::Reading(Progress::default());
    // How many turns there are shows only as they are taken.
    while goes_on(state) {
        state = turn(types, names, code, work, state)?;
    }
    settle(names, state)
}

// 20 where a text is too long to be read, or the list is not admitted.
#[tactic(auto, unfolding(definitions::specs::TermText::term_text_limit))]
fn readable(text: &[u8], types: &[u8]) -> Result<(), Refusal>
    ensures { MatchResult result (λ u. Readable types.now text.now) (NoTerm types.now text.now) }
{
    if TEXT_LIMIT < text.len() || !all_admitted(types) {
        return Err(Reason::NoTerm.at(0));
    }
    Ok(())
}

// The first pass, which stores no code: 20 where there is no term.
// Tried: with no `requires` of `work`, how long its arrays are stays open, since nothing here makes slices of them.
fn measure(types: &[u8], names: &mut NameTable, work: &mut Work) -> Result<TermSize, Refusal>
    requires { ReadBegins types.now work.old }
    ensures { MatchResult result (Measures types.now names.old.text.now names.new work.new)
        (NoTerm types.now names.old.text.now) }
{
    read(types, names, &mut [], work).ok_or(Reason::NoTerm.at(0))
}

// The second pass, which stores the code of the labels, if they have any.
#[tactic(auto, unfolding(crate::specs::Whole::HasRead))]
fn store_code(types: &[u8], names: &mut NameTable, code: &mut [u8], work: &mut Work, size: usize)
    requires { HasRead types.now names.old work.old size }
    ensures { Rereads types.now names.old code.old work.old size
        names.new code.new work.new }
{
    if size > 0 {
        read(types, names, code, work);
    }
}

// Whether a room is too short for the records, the names or the code.
#[tactic(auto, unfolding(crate::specs::Answered::short_for, definitions::specs::Sheet::pair_size))]
fn too_short(records: usize, names: usize, code: usize, size: &TermSize) -> bool
    requires { (size.now.nodes ≤ 2048) × (size.now.names ≤ 512) }
    ensures { result ≡ short_for records names code size.now }
{
    records < RECORD_SIZE * size.nodes || names < PAIR_SIZE * size.names || code < size.code
}

// Copies the records and the pairs of a term of this size.
fn copy_out(records: &mut [u16], names: &mut [u8], work: &Work, table: &NameTable, size: &TermSize)
    requires held { Copyable (length work.now.records) (length table.now.pairs) size.now }
    requires room { Copyable (length records.old) (length names.old) size.now }
    ensures records_after { records.new ≡ take (7 * size.now.nodes) work.now.records ++ drop (7 * size.now.nodes) records.old }
    ensures names_after { names.new ≡ take (4 * size.now.names) table.now.pairs ++ drop (4 * size.now.names) names.old }
{
    let numbers = RECORD_SIZE * size.nodes;
    records[..numbers].copy_from_slice(&work.records[..numbers]);
    let bytes = PAIR_SIZE * size.names;
    names[..bytes].copy_from_slice(&table.pairs[..bytes]);
}

// Hands the term over that was measured, in rooms that hold it. The three memories are lent by C one by one, and stand in no struct: where
// one of several `&mut` ends, nothing ties the memories to what it held, as appended_parts says of two.
fn hand_over(
    types: &[u8],
    table: &mut NameTable,
    work: &mut Work,
    records: &mut [u16],
    names: &mut [u8],
    code: &mut [u8],
    size: &TermSize,
)
    requires { HasRoom types.now table.old work.old records.old names.old code.old size.now }
    ensures { HandsOver types.now table.old work.old
        records.old names.old code.old size.now
        records.new names.new code.new }
{
    store_code(types, table, code, work, size.code);
    copy_out(records, names, work, table, size);
}

// How large the term is whose strict text these bytes are, or 20: what `read_term` answers given room.
pub fn term_size(text: &[u8], types: &[u8]) -> Result<TermSize, Refusal>
    ensures { result ≡ answer_of (read_answer (names_in types.now) text.now) }
{
    readable(text, types)?;
    let mut work = Work::new();
    let mut table = NameTable::new(text);
    measure(types, &mut table, &mut work)
}

// The term whose strict text these bytes are, without declarations; the datatypes are listed with newlines between their names. Its
// records, the pairs of its names, which mark them in the text, and its labels' code stand at the start of the lent memory. A
// refusal leaves all as it was.
pub fn read_term(
    text: &[u8],
    types: &[u8],
    records: &mut [u16],
    names: &mut [u8],
    code: &mut [u8],
) -> Result<TermSize, Refusal>
    ensures reads_term { ReadsTerm types.now text.now
        records.old names.old code.old
        records.new names.new code.new result }
    ensures restores_term { RestoresTerm types.now text.now
        records.old names.old code.old
        records.new names.new code.new result }
{
    readable(text, types)?;
    let mut work = Work::new();
    let mut table = NameTable::new(text);
    let size = measure(types, &mut table, &mut work)?;
    if too_short(records.len(), names.len(), code.len(), &size) {
        return Err(Reason::Room.at(0));
    }
    hand_over(types, &mut table, &mut work, records, names, code, &size);
    Ok(size)
}
