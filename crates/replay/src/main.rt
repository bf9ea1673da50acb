// Asks each question of a fixed list of sheets, of names for exercises and of texts of terms, and says how many of the answers agree
// with those that the list holds: the Rust's, and those of documents 01 and 02 where the Rust has none. tests/oracle/README.md has the
// form of the list, and README.md says how it is made.
#![tactic(auto)]

ghost use Rattle.std.specs.Prelude.{◌<◌, ◌≤◌};

use definitions::{Located, Style, Whose};
use input::{read_array, read_u16};
use name_index::{FREE, SLOT_COUNT};
use number::PAIR_SIZE;
use proof_term::RECORD_SIZE;
use restating::Given;
use std::{fs, io};
use term_reader::TermSize;

// What a question asks for.
#[derive(Debug, Clone, Copy, PartialEq, Eq)]
enum Question {
    PlainText,
    StrictText,
    AtomList,
    DatatypeList,
    LabelCount,
    Comparison,
    Board,
    HandoutPlain,
    HandoutStrict,
    HandoutDatatypes,
    Exercise,
    NameIndex,
    FindName,
    Restate,
    Graft,
    ReadTerm,
    Judge,
}

impl From<u8> for Question {
    // The list's numbers of the questions; any other asks for the board's output.
    fn from(number: u8) -> Self {
        match number {
            0 => Question::PlainText,
            1 => Question::StrictText,
            2 => Question::AtomList,
            3 => Question::DatatypeList,
            4 => Question::LabelCount,
            5 => Question::Comparison,
            7 => Question::HandoutPlain,
            8 => Question::HandoutStrict,
            9 => Question::HandoutDatatypes,
            10 => Question::Exercise,
            11 => Question::NameIndex,
            12 => Question::FindName,
            13 => Question::Restate,
            14 => Question::Graft,
            15 => Question::ReadTerm,
            16 => Question::Judge,
            _ => Question::Board,
        }
    }
}

// The most bytes or numbers that are lent. Memory is zero before it is lent.
const ROOM: usize = 65536;

// The most numbers that are read of an answer: their bytes fill the room.
const NUMBERS: usize = ROOM / 2;

// The most numbers of the hypotheses of a judgement.
const HYPOTHESES: usize = 256;

// The list's number for a judgement that is derived, where one that is not has the node of a term.
const DERIVED: usize = 65535;

// A refusal's number, its place and its column.
#[derive(Debug, Clone, Copy, PartialEq, Eq)]
struct Refused {
    number: u8,
    place: usize,
    column: usize,
}

impl From<Located> for Refused {
    fn from(located: Located) -> Self {
        Self {
            number: located.refusal.number,
            place: usize::from(located.refusal.place),
            column: usize::from(located.column),
        }
    }
}

// A length, a count, or 1 for yes and 0 for no; or a refusal.
type Answer = Result<usize, Refused>;

// The list's next number. `rest` is what is left of the list; past its end there are zeros.
fn read_byte(rest: &mut &[u8]) -> u8 {
    let [byte] = read_array::<1>(rest);
    byte
}

fn read_u32(rest: &mut &[u8]) -> usize
    ensures { result < 4294967296 }
{
    u32::from_le_bytes(read_array(rest)) as usize
}

fn read_u64(rest: &mut &[u8]) -> usize {
    u64::from_le_bytes(read_array(rest)) as usize
}

// The next bytes, so many or all that are left.
fn read_bytes<'a>(rest: &mut &'a [u8], count: usize) -> &'a [u8] {
    let (bytes, behind) = rest.split_at(count.min(rest.len()));
    *rest = behind;
    bytes
}

// 0 and what is accepted, or a refusal's number, its place and its column.
fn read_answer(rest: &mut &[u8]) -> Answer {
    let number = read_byte(rest);
    let value = read_u32(rest);
    if number == 0 {
        return Ok(value);
    }
    Err(Refused {
        number,
        place: value,
        column: usize::from(read_u16(rest)),
    })
}

// The number that is accepted, if it is not the one that stands for none.
fn read_option(rest: &mut &[u8], none: usize) -> Result<Option<usize>, Refused> {
    let number = read_answer(rest)?;
    Ok(Some(number).filter(|accepted| *accepted != none))
}

// An answer with its refusal as the list has it.
fn listed<T>(answer: Result<T, Located>) -> Result<T, Refused> {
    Ok(answer?)
}

// Bytes and numbers are read and compared by functions of their own: over a type parameter it stays open that an array of it fits memory,
// and that its `==` may be called.

// So many bytes of the list, at most the room, and zeros past them and past the list's end. All of an answer is compared with memory that
// was lent, which holds zeros past the answer too, and what is asked about is as long as the list says: a slice of the list would say less.
fn read_memory(rest: &mut &[u8], count: usize) -> [u8; ROOM] {
    let mut bytes = [0; ROOM];
    input::read_full(rest, &mut bytes[..count.min(ROOM)]);
    bytes
}

// The same of so many numbers, at most those whose bytes fill the room. Those that the memory has no place for are read over.
fn read_numbers<const N: usize>(rest: &mut &[u8], count: usize) -> [u16; N] {
    let mut numbers = [0; N];
    let listed = count.min(NUMBERS);
    for number in &mut numbers[..listed.min(N)] {
        *number = read_u16(rest);
    }
    for _ in N..listed {
        read_u16(rest);
    }
    numbers
}

// Whether an operation that writes bytes into lent memory answers as the list does, and leaves the bytes that the list holds.
fn text_agrees<F: FnOnce(&mut [u8]) -> Result<usize, Located>>(rest: &mut &[u8], ask: F) -> bool
    requires { F.IsAlwaysCallable ask }
{
    let room = read_u32(rest).min(ROOM);
    let expected = read_answer(rest);
    let bytes = read_memory(rest, expected.unwrap_or(0));
    let mut out = [0; ROOM];
    let answer = listed(ask(&mut out[..room]));
    answer == expected && out == bytes
}

// The same of an operation that writes numbers.
fn list_agrees<F: FnOnce(&mut [u16]) -> Result<usize, Located>>(rest: &mut &[u8], ask: F) -> bool
    requires { F.IsAlwaysCallable ask }
{
    let room = read_u32(rest).min(ROOM);
    let expected = read_answer(rest);
    let numbers = read_numbers::<ROOM>(rest, expected.unwrap_or(0));
    let mut out = [0; ROOM];
    let answer = listed(ask(&mut out[..room]));
    answer == expected && out == numbers
}

fn comparison_agrees(rest: &mut &[u8], s: &[u8]) -> bool {
    let i = usize::from(read_u16(rest));
    let j = usize::from(read_u16(rest));
    read_answer(rest) == listed(skriduhol::compare(s, i, j).map(|same| usize::from(same)))
}

fn handout_agrees(rest: &mut &[u8], s: &[u8], style: Style) -> bool {
    let version = read_u64(rest);
    text_agrees(rest, |out| skriduhol::handout(s, version, style, out))
}

fn handout_datatypes_agree(rest: &mut &[u8], s: &[u8]) -> bool {
    let version = read_u64(rest);
    list_agrees(rest, |out| skriduhol::handout_datatypes(s, version, out))
}

// The board's memory has one size, so no room stands in the list.
fn board_agrees(rest: &mut &[u8], s: &[u8]) -> bool {
    let expected = read_answer(rest);
    let bytes = read_memory(rest, expected.unwrap_or(0));
    let mut out = [0; ROOM];
    let answer = Ok(skriduhol::board_output(s, &mut out));
    answer == expected && out == bytes
}

// Names stand where other questions have a sheet.
fn exercise_agrees(rest: &mut &[u8], names: &[u8]) -> bool {
    let n = read_u64(rest);
    let ordinal = read_u64(rest);
    text_agrees(rest, |out| skriduhol::exercise(names, n, ordinal, out))
}

// The slots have one size, so no room stands in the list.
fn index_agrees(rest: &mut &[u8], s: &[u8]) -> bool {
    let expected = read_answer(rest);
    let numbers = read_numbers::<SLOT_COUNT>(rest, expected.unwrap_or(0));
    let mut slots = [0; SLOT_COUNT];
    let answer = listed(skriduhol::name_index(s, &mut slots));
    answer == expected && slots == numbers
}

// A name is sought in the sheet's own index, or, where that is refused, in slots that all hold 0.
fn search_agrees(rest: &mut &[u8], s: &[u8]) -> bool {
    let length = usize::from(read_byte(rest));
    let name = read_memory(rest, length);
    let expected = read_option(rest, usize::from(FREE));
    let mut slots = [0; SLOT_COUNT];
    let _ = skriduhol::name_index(s, &mut slots);
    listed(skriduhol::find_name(s, &slots, &name[..length])) == expected
}

// What is given for a restatement stands in the order of a step record.
fn restate_agrees(rest: &mut &[u8], s: &[u8]) -> bool {
    let given = Given {
        kind: read_u16(rest),
        first: read_u16(rest),
        second: read_u16(rest),
        third: read_u16(rest),
        column: read_u16(rest),
    };
    let mut slots = [0; SLOT_COUNT];
    text_agrees(rest, |out| skriduhol::restate(s, given, &mut slots, out))
}

fn judge_agrees(rest: &mut &[u8], s: &[u8]) -> bool {
    let count = usize::from(read_byte(rest));
    let hypotheses = read_numbers::<HYPOTHESES>(rest, count);
    let proposition = read_u64(rest);
    let expected = read_option(rest, DERIVED);
    listed(skriduhol_terms::judge(s, &hypotheses[..count], proposition)) == expected
}

// The nodes of a term, its names and its bytes of code; or how many numbers of records and bytes of names and of code are lent for it.
#[derive(Debug, Clone, Copy, PartialEq, Eq, Default)]
struct Size {
    records: usize,
    names: usize,
    code: usize,
}

impl From<TermSize> for Size {
    fn from(term: TermSize) -> Self {
        Self {
            records: term.nodes,
            names: term.names,
            code: term.code,
        }
    }
}

// Only a term has names and code.
fn read_term_answer(rest: &mut &[u8]) -> Result<Size, Refused> {
    let records = read_answer(rest)?;
    Ok(Size {
        records,
        names: usize::from(read_u16(rest)),
        code: read_u32(rest),
    })
}

fn read_room(rest: &mut &[u8]) -> Size {
    Size {
        records: read_u32(rest),
        names: read_u32(rest),
        code: read_u32(rest),
    }
}

fn term_agrees(rest: &mut &[u8], text: &[u8], datatypes: &[u8]) -> bool {
    let room = read_room(rest);
    let expected = read_term_answer(rest);
    let held = expected.unwrap_or_default();
    let numbers = read_numbers::<ROOM>(rest, RECORD_SIZE * held.records.min(ROOM));
    let pairs = read_memory(rest, PAIR_SIZE * held.names.min(ROOM));
    let labels = read_memory(rest, held.code);
    let mut records = [0; ROOM];
    let mut names = [0; ROOM];
    let mut code = [0; ROOM];
    let reading = skriduhol_terms::read_term(
        text,
        datatypes,
        &mut records[..room.records.min(ROOM)],
        &mut names[..room.names.min(ROOM)],
        &mut code[..room.code.min(ROOM)],
    );
    let answer = reading.map(Size::from).map_err(Refused::from);
    answer == expected && records == numbers && names == pairs && code == labels
}

// The text stands where other questions have a sheet.
fn reading_agrees(rest: &mut &[u8], text: &[u8]) -> bool {
    let length = usize::from(read_u16(rest));
    let datatypes = read_memory(rest, length);
    term_agrees(rest, text, &datatypes[..length])
}

// What a graft answers: a length, or a refusal and whose it is. No graft answers as the list does where the list says nobody's.
type GraftAnswer = Result<usize, (Option<Whose>, Refused)>;

fn grafted_answer(grafted: Result<usize, (Whose, Located)>) -> GraftAnswer {
    grafted.map_err(|(whose, located)| (Some(whose), Refused::from(located)))
}

// The list's numbers of those whose a refusal is; any other is nobody's.
fn read_whose(rest: &mut &[u8]) -> Option<Whose> {
    match read_byte(rest) {
        0 => Some(Whose::Neither),
        1 => Some(Whose::Host),
        2 => Some(Whose::Donor),
        _ => None,
    }
}

// Only a refusal is somebody's.
fn read_graft_answer(rest: &mut &[u8]) -> GraftAnswer {
    read_answer(rest).map_err(|refused| (read_whose(rest), refused))
}

// The host is the first of the entry's bytes, and the donor the first of those behind it.
fn graft_agrees(rest: &mut &[u8], mut both: &[u8]) -> bool {
    let host = read_bytes(&mut both, read_u32(rest));
    let donor = read_bytes(&mut both, read_u32(rest));
    let step = read_u64(rest);
    let room = read_u32(rest).min(ROOM);
    let expected = read_graft_answer(rest);
    let bytes = read_memory(rest, expected.unwrap_or(0));
    let mut slots = [0; SLOT_COUNT];
    let mut out = [0; ROOM];
    let answer = grafted_answer(skriduhol::graft(host, step, donor, &mut slots, &mut out[..room]));
    answer == expected && out == bytes
}

// Whether the answer to the next question agrees.
fn agrees(rest: &mut &[u8], s: &[u8]) -> bool {
    match Question::from(read_byte(rest)) {
        Question::PlainText => text_agrees(rest, |out| skriduhol::plain_text(s, out)),
        Question::StrictText => text_agrees(rest, |out| skriduhol::strict_text(s, out)),
        Question::AtomList => list_agrees(rest, |out| skriduhol::atom_list(s, out)),
        Question::DatatypeList => list_agrees(rest, |out| skriduhol::datatype_list(s, out)),
        Question::LabelCount => read_answer(rest) == listed(skriduhol::label_count(s)),
        Question::Comparison => comparison_agrees(rest, s),
        Question::Board => board_agrees(rest, s),
        Question::HandoutPlain => handout_agrees(rest, s, Style::Plain),
        Question::HandoutStrict => handout_agrees(rest, s, Style::Strict),
        Question::HandoutDatatypes => handout_datatypes_agree(rest, s),
        Question::Exercise => exercise_agrees(rest, s),
        Question::NameIndex => index_agrees(rest, s),
        Question::FindName => search_agrees(rest, s),
        Question::Restate => restate_agrees(rest, s),
        Question::Graft => graft_agrees(rest, s),
        Question::ReadTerm => reading_agrees(rest, s),
        Question::Judge => judge_agrees(rest, s),
    }
}

// How many of the answers to so many questions agree.
fn agreeing(rest: &mut &[u8], s: &[u8], questions: usize) -> usize
    ensures { result ≤ questions }
{
    (0..questions).filter(|_| agrees(rest, s)).count()
}

// How many questions were asked, and how many of the answers agree.
#[derive(Drop)]
struct Tally {
    questions: usize,
    agreed: usize,
}

// Asks the questions on the next entry of the list, a sheet or names.
fn ask_next(rest: &mut &[u8]) -> Tally
    ensures { (result.«questions» < 256) × (result.«agreed» < 256) }
{
    let length = read_u32(rest).min(ROOM);
    let sheet = read_bytes(rest, length);
    let questions = usize::from(read_byte(rest));
    let agreed = agreeing(rest, sheet, questions);
    Tally { questions, agreed }
}

// The list is read at once, into memory of std's: it is longer than a stack should hold, and most reads from it are of a few bytes.
// Each entry is read from what the one before it left, so that the loop counts entries and has no place of its own.
fn main(rt: HostRuntime) -> io::Result<()> {
    let answers = fs::read(&rt, "answers")?;
    let mut rest = answers.as_slice();
    let entries = read_u32(&mut rest);
    let mut questions = 0;
    let mut agreed = 0;
    for _ in 0..entries {
        let tally = ask_next(&mut rest);
        questions += tally.questions;
        agreed += tally.agreed;
    }
    println!(rt; "{entries} entries, {questions} questions, {agreed} answers agree")
}
