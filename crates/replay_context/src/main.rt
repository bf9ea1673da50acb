// Asks each question of a fixed list of sequences on a name context, and says how many of the answers agree with those that the list
// holds: the Rust's, and document 01's where the lent room is full. tests/oracle/README.md has the form of the list.
#![tactic(auto)]

ghost use Rattle.std.specs.Prelude.{◌≡◌, Bool, ◌≤◌};
ghost use Rattle.number.specs.Pairs.{NameWithin};
ghost use Rattle.identifier_context.specs.Lent.{IsNamed, IsHeld};

use definitions::{Identifier, Refusal};
use identifier_context::{Context, Entry};
use input::{read_array, read_u16};
use number::{Marked, PAIR_SIZE, pair_length, pair_offset};
use std::{fs, io};

// What a question asks for. The entry beside it is to be inserted, or has the identifier that is looked for.
#[derive(Debug, Clone, Copy, PartialEq, Eq)]
enum Question {
    Insert,
    RemoveByName,
    Remove,
    FirstVisible,
    NextVisible,
    Get,
    GetByName,
}

impl From<u16> for Question {
    // The list's numbers of the questions; any other asks for the latest entry of a name.
    fn from(number: u16) -> Self {
        match number {
            0 => Question::Insert,
            1 => Question::RemoveByName,
            2 => Question::Remove,
            3 => Question::FirstVisible,
            4 => Question::NextVisible,
            5 => Question::Get,
            _ => Question::GetByName,
        }
    }
}

// The most entries that are lent.
const ROOM: usize = 16;

// The numbers of an entry, in which the list says the lent room.
const ENTRY_NUMBERS: usize = 4;

// The bytes of a context's names: eight pairs, and their text.
const PAIR_BYTES: usize = 32;

const TEXT_BYTES: usize = 64;

// The questions on a context.
const QUESTIONS: usize = 40;

// The entry that a question finds or takes out, if any, or a refusal.
type Answer = Result<Option<Entry>, Refusal>;

// What came of a question: the index before which the next visible entry is sought, and the answer.
#[derive(Drop)]
struct Turn {
    before: usize,
    answer: Answer,
}

impl Turn {
    // A turn after which all entries of a context are left to be sought.
    fn new(context: &Context, answer: Answer) -> Self {
        let before = context.len;
        Self { before, answer }
    }
}

// The list's next entry. `rest` is what is left of the list; past its end there are zeros.
fn read_entry(rest: &mut &[u8]) -> Entry {
    let identifier = Identifier {
        name: read_u16(rest),
        unique_id: read_u16(rest),
    };
    Entry {
        identifier,
        kind: read_u16(rest),
        number: read_u16(rest),
    }
}

// An answer as the list has it: 0 for no entry, 1 for one, or a refusal's number; and the entry, or zeros.
fn listed(answer: Answer) -> (u16, Entry) {
    match answer {
        Ok(None) => (0, Entry::default()),
        Ok(Some(entry)) => (1, entry),
        Err(refusal) => (u16::from(refusal.number), Entry::default()),
    }
}

// The entry of an index that an operation found.
fn found_entry(context: &Context, found: Option<usize>) -> Option<Entry> {
    context.entries.get(found?).copied()
}

// Whether a number has a pair that ends within the text. Both slices are passed, since what bytes are at most is known of a parameter.
#[tactic(auto, unfolding(definitions::specs::Sheet::pair_size, definitions::specs::Sheet::pair_offset, definitions::specs::Sheet::pair_length, definitions::specs::Sheet::number_at))]
fn is_name(pairs: &[u8], text: &[u8], name: usize) -> bool
    ensures { result ≡ Bool.true → NameWithin pairs.now text.now name }
{
    if pairs.len() / PAIR_SIZE <= name {
        return false;
    }
    pair_offset(pairs, name) + pair_length(pairs, name) <= text.len()
}

// Makes an entry the latest.
fn insert(context: &mut Context, entry: Entry) -> Turn
    requires { IsHeld context.old × IsNamed context.old entry.identifier.«name» }
    ensures { IsHeld context.new }
{
    let inserted = context.insert(entry);
    Turn::new(context, inserted.map(|()| None))
}

// Takes out the latest entry of a name.
fn remove_by_name(context: &mut Context, name: u16) -> Turn
    requires { IsHeld context.old × IsNamed context.old name }
    ensures { IsHeld context.new }
{
    let removed = context.remove_by_name(name);
    Turn::new(context, Ok(removed))
}

// Takes out the latest entry of an identifier.
fn remove(context: &mut Context, identifier: Identifier) -> Turn
    requires { IsHeld context.old × IsNamed context.old identifier.«name» }
    ensures { IsHeld context.new }
{
    let removed = context.remove(identifier);
    Turn::new(context, Ok(removed))
}

// The latest visible entry before an index.
fn visible(context: &Context, before: usize) -> Turn
    requires { IsHeld context.now }
{
    let found = context.next_visible(before);
    Turn {
        before: found.unwrap_or(0),
        answer: Ok(found_entry(context, found)),
    }
}

// The turn that a question asks for, with the entry, name or identifier that it is about.
fn ask(context: &mut Context, before: usize, question: Question, entry: Entry) -> Turn
    requires { IsHeld context.old × IsNamed context.old entry.identifier.«name» }
    ensures { IsHeld context.new }
{
    match question {
        Question::Insert => insert(context, entry),
        Question::RemoveByName => remove_by_name(context, entry.identifier.name),
        Question::Remove => remove(context, entry.identifier),
        Question::FirstVisible => {
            let len = context.len;
            visible(context, len)
        }
        Question::NextVisible => visible(context, before),
        Question::Get => {
            let found = context.get(entry.identifier);
            Turn::new(context, Ok(found_entry(context, found)))
        }
        Question::GetByName => {
            let found = context.get_by_name(entry.identifier.name);
            Turn::new(context, Ok(found_entry(context, found)))
        }
    }
}

// The turn of the list's next question.
fn ask_next(rest: &mut &[u8], context: &mut Context, before: usize) -> Turn
    requires { IsHeld context.old }
    ensures { IsHeld context.new }
{
    let question = Question::from(read_u16(rest));
    let entry = read_entry(rest);
    let Marked { pairs, bytes } = context.names;
    if is_name(pairs, bytes, usize::from(entry.identifier.name)) {
        return ask(context, before, question, entry);
    }
    Turn::new(context, Ok(None))
}

// Whether the list's next answer, with the count of entries beside it, is that of a turn.
fn agrees(rest: &mut &[u8], len: usize, answer: Answer) -> bool {
    let listed_len = usize::from(read_u16(rest));
    let outcome = read_u16(rest);
    let entry = read_entry(rest);
    listed_len == len && (outcome, entry) == listed(answer)
}

// How many of the answers to a context's questions agree. The context is empty at first.
fn agreeing(rest: &mut &[u8], entries: &mut [Entry], names: Marked) -> usize
    ensures { result ≤ 40 }
{
    let mut context = Context {
        entries,
        len: 0,
        names,
    };
    let mut before = 0;
    let mut agreed = 0;
    for _ in 0..QUESTIONS {
        let turn = ask_next(rest, &mut context, before);
        before = turn.before;
        agreed += usize::from(agrees(rest, context.len, turn.answer));
    }
    agreed
}

// Asks the questions of the next context, in memory for so many entries as the list says.
fn ask_all(rest: &mut &[u8]) -> usize
    ensures { result ≤ 40 }
{
    let pairs = read_array::<PAIR_BYTES>(rest);
    let text = read_array::<TEXT_BYTES>(rest);
    let mut memory = [Entry::default(); ROOM];
    let lent = (usize::from(read_u16(rest)) / ENTRY_NUMBERS).min(ROOM);
    let names = Marked {
        pairs: &pairs,
        bytes: &text,
    };
    agreeing(rest, &mut memory[..lent], names)
}

// The list is read at once, into memory of std's: a read for each number would ask the system 117,000 times. Each context is read from
// what the one before it left, so that the loop counts contexts and has no place of its own.
fn main(rt: HostRuntime) -> io::Result<()> {
    let bytes = fs::read(&rt, "contexts")?;
    let mut rest = bytes.as_slice();
    let contexts = usize::from(read_u16(&mut rest));
    let mut agreed = 0;
    for _ in 0..contexts {
        agreed += ask_all(&mut rest);
    }
    let questions = QUESTIONS * contexts;
    println!(rt; "{contexts} contexts, {questions} questions, {agreed} answers agree")
}
