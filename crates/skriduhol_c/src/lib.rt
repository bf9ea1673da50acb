// The public operations as symbols of C. A slice is a pointer and a length there. Each operation but the board's output, which has no
// refusal, returns 0 for an accepted answer or the refusal's number. Behind `value` stands what was accepted, as one number, or the
// refusal's place; behind `column` the column of the step that refusals 9 to 15 name, else 0.
#![tactic(auto)]

ghost use Rattle.std.specs.Prelude.{◌≡◌, List, [], ℕ, length};
ghost use Rattle.definitions.specs.Outcome.{Outcome};
ghost use Rattle.definitions.specs.Name.{Name};
ghost use Rattle.definitions.specs.Term.{ProofTerm};
ghost use Rattle.definitions.specs.Answers.{text_answer, atoms_answer, datatypes_answer, label_count, comparison, board_output};
ghost use Rattle.definitions.specs.Restate.{restated, restate_answer};
ghost use Rattle.definitions.specs.Graft as graft;
ghost use Rattle.definitions.specs.Graft.{graft_answer};
ghost use Rattle.definitions.specs.Exercises.{exercise_answer};
ghost use Rattle.definitions.specs.NameIndex.{index_of, index_answer, find_answer};
ghost use Rattle.definitions.specs.declared.Style.TheVariants.{Plain, Strict};
ghost use Rattle.restating.specs.Step.{given_of};
ghost use Rattle.restating.specs.Slots.{slots_after};
ghost use Rattle.grafting.specs.Answered.{slots_by};
ghost use Rattle.made_length.specs.Whole.{whole_exercise};
ghost use Rattle.skriduhol.specs.Grafts.{grafted_of};
ghost use Rattle.skriduhol.specs.Lengths.{whole_text, whole_atoms, whole_datatypes};
ghost use Rattle.skriduhol.specs.Board.{Prints};
ghost use Rattle.skriduhol.specs.Searched.{plain_answer};
ghost use Rattle.skriduhol_terms.specs.Reading.{reading_of};
ghost use Rattle.skriduhol_c.specs.Handed.{Hands, HandsAnswer, HandsFilled, HandsLength, yes_or_no, number_or_free, given_in};
ghost use Rattle.skriduhol_c.specs.Grafts.{HandsBy, HandsGrafted, HandsGraftLength};
ghost use Rattle.skriduhol_c.specs.Judged.{HandsJudged};
ghost use Rattle.skriduhol_c.specs.TermsRead.{HandsSizes, HandsRead, HandsReadLength};

use definitions::{Located, Style, Whose};
use name_index::{FREE, SLOT_COUNT};
use restating::Given;
use skriduhol::BOARD_ROOM;
use term_reader::TermSize;

// Hands over an answer: what is accepted, as one number, or a refusal's number, place and column. A caller in C has no Result, so
// value and column stand behind pointers of their own.
fn hand(answer: Result<usize, Located>, value: &mut usize, column: &mut usize) -> u8
    ensures { HandsAnswer answer value.new column.new result }
{
    match answer {
        Ok(number) => {
            *value = number;
            *column = 0;
            0
        }
        Err(located) => {
            let refusal = located.refusal;
            *value = usize::from(refusal.place);
            *column = usize::from(located.column);
            refusal.number
        }
    }
}

// Each export of one shape stands by itself: it has one symbol in C and a contract of its own, and its body is a call.

// The plain text: that of version 1.
#[unsafe(no_mangle)]
pub extern "C" fn skriduhol_plain_text(
    sheet: &[u8],
    out: &mut [u8],
    value: &mut usize,
    column: &mut usize,
) -> u8
    ensures { HandsFilled (λ s. text_answer s 1 Plain) sheet.now out.old out.new
        value.new column.new result }
{
    hand(skriduhol::plain_text(sheet, out), value, column)
}

// The strict text: that of version 1.
#[unsafe(no_mangle)]
pub extern "C" fn skriduhol_strict_text(
    sheet: &[u8],
    out: &mut [u8],
    value: &mut usize,
    column: &mut usize,
) -> u8
    ensures { HandsFilled (λ s. text_answer s 1 Strict) sheet.now out.old out.new
        value.new column.new result }
{
    hand(skriduhol::strict_text(sheet, out), value, column)
}

// The atom list.
#[unsafe(no_mangle)]
pub extern "C" fn skriduhol_atom_list(
    sheet: &[u8],
    out: &mut [u16],
    value: &mut usize,
    column: &mut usize,
) -> u8
    ensures { HandsFilled atoms_answer sheet.now out.old out.new value.new column.new result }
{
    hand(skriduhol::atom_list(sheet, out), value, column)
}

// The datatype list: that of version 1.
#[unsafe(no_mangle)]
pub extern "C" fn skriduhol_datatype_list(
    sheet: &[u8],
    out: &mut [u16],
    value: &mut usize,
    column: &mut usize,
) -> u8
    ensures { HandsFilled (λ s. datatypes_answer s 1) sheet.now out.old out.new
        value.new column.new result }
{
    hand(skriduhol::datatype_list(sheet, out), value, column)
}

// The plain text of a version of the handout, 1 to 3.
#[unsafe(no_mangle)]
pub extern "C" fn skriduhol_handout_plain(
    sheet: &[u8],
    version: usize,
    out: &mut [u8],
    value: &mut usize,
    column: &mut usize,
) -> u8
    ensures { HandsFilled (λ s. text_answer s version Plain) sheet.now out.old out.new
        value.new column.new result }
{
    hand(
        skriduhol::handout(sheet, version, Style::Plain, out),
        value,
        column,
    )
}

// The strict text of a version of the handout, 1 to 3.
#[unsafe(no_mangle)]
pub extern "C" fn skriduhol_handout_strict(
    sheet: &[u8],
    version: usize,
    out: &mut [u8],
    value: &mut usize,
    column: &mut usize,
) -> u8
    ensures { HandsFilled (λ s. text_answer s version Strict) sheet.now out.old out.new
        value.new column.new result }
{
    hand(
        skriduhol::handout(sheet, version, Style::Strict, out),
        value,
        column,
    )
}

// The datatype list of a version of the handout, 1 to 3.
#[unsafe(no_mangle)]
pub extern "C" fn skriduhol_handout_datatypes(
    sheet: &[u8],
    version: usize,
    out: &mut [u16],
    value: &mut usize,
    column: &mut usize,
) -> u8
    ensures { HandsFilled (λ s. datatypes_answer s version) sheet.now out.old out.new
        value.new column.new result }
{
    hand(
        skriduhol::handout_datatypes(sheet, version, out),
        value,
        column,
    )
}

// How long the plain text is.
#[unsafe(no_mangle)]
pub extern "C" fn skriduhol_plain_text_length(
    sheet: &[u8],
    value: &mut usize,
    column: &mut usize,
) -> u8
    ensures { HandsLength (λ s. text_answer s 1 Plain) (λ s. whole_text s 1 Plain) sheet.now
        value.new column.new result }
{
    hand(
        skriduhol::handout_length(sheet, 1, Style::Plain),
        value,
        column,
    )
}

// How long the strict text is.
#[unsafe(no_mangle)]
pub extern "C" fn skriduhol_strict_text_length(
    sheet: &[u8],
    value: &mut usize,
    column: &mut usize,
) -> u8
    ensures { HandsLength (λ s. text_answer s 1 Strict) (λ s. whole_text s 1 Strict) sheet.now
        value.new column.new result }
{
    hand(
        skriduhol::handout_length(sheet, 1, Style::Strict),
        value,
        column,
    )
}

// How many numbers the atom list has.
#[unsafe(no_mangle)]
pub extern "C" fn skriduhol_atom_list_length(
    sheet: &[u8],
    value: &mut usize,
    column: &mut usize,
) -> u8
    ensures { HandsLength atoms_answer whole_atoms sheet.now
        value.new column.new result }
{
    hand(skriduhol::atom_list_length(sheet), value, column)
}

// How many numbers the datatype list has.
#[unsafe(no_mangle)]
pub extern "C" fn skriduhol_datatype_list_length(
    sheet: &[u8],
    value: &mut usize,
    column: &mut usize,
) -> u8
    ensures { HandsLength (λ s. datatypes_answer s 1) (λ s. whole_datatypes s 1) sheet.now
        value.new column.new result }
{
    hand(skriduhol::handout_datatypes_length(sheet, 1), value, column)
}

// How long the plain text of a version of the handout is.
#[unsafe(no_mangle)]
pub extern "C" fn skriduhol_handout_plain_length(
    sheet: &[u8],
    version: usize,
    value: &mut usize,
    column: &mut usize,
) -> u8
    ensures { HandsLength (λ s. text_answer s version Plain) (λ s. whole_text s version Plain) sheet.now
        value.new column.new result }
{
    hand(
        skriduhol::handout_length(sheet, version, Style::Plain),
        value,
        column,
    )
}

// How long the strict text of a version of the handout is.
#[unsafe(no_mangle)]
pub extern "C" fn skriduhol_handout_strict_length(
    sheet: &[u8],
    version: usize,
    value: &mut usize,
    column: &mut usize,
) -> u8
    ensures { HandsLength (λ s. text_answer s version Strict) (λ s. whole_text s version Strict) sheet.now
        value.new column.new result }
{
    hand(
        skriduhol::handout_length(sheet, version, Style::Strict),
        value,
        column,
    )
}

// How many numbers the datatype list of a version of the handout has.
#[unsafe(no_mangle)]
pub extern "C" fn skriduhol_handout_datatypes_length(
    sheet: &[u8],
    version: usize,
    value: &mut usize,
    column: &mut usize,
) -> u8
    ensures { HandsLength (λ s. datatypes_answer s version) (λ s. whole_datatypes s version) sheet.now
        value.new column.new result }
{
    hand(
        skriduhol::handout_datatypes_length(sheet, version),
        value,
        column,
    )
}

// The label count.
#[unsafe(no_mangle)]
pub extern "C" fn skriduhol_label_count(sheet: &[u8], value: &mut usize, column: &mut usize) -> u8
    ensures { Hands (λ (n : ℕ). n) sheet.now (label_count sheet.now) value.new column.new result }
{
    hand(skriduhol::label_count(sheet), value, column)
}

// The comparison of two steps' conclusions: 1 for yes and 0 for no.
#[unsafe(no_mangle)]
pub extern "C" fn skriduhol_compare(
    sheet: &[u8],
    i: usize,
    j: usize,
    value: &mut usize,
    column: &mut usize,
) -> u8
    ensures { Hands yes_or_no sheet.now (comparison sheet.now i j) value.new column.new result }
{
    let compared = skriduhol::compare(sheet, i, j);
    hand(compared.map(usize::from), value, column)
}

// What is given for a restatement: a kind, three numbers and a column, in the order of a step record. Five loose numbers are given by
// C alone, so that this stands beside the exports and is no `From` of the crate that has `Given`.
#[tactic(auto, unfolding(restating::specs::Step::given_of, crate::specs::Handed::given_in))]
fn given_in(given: &[u16; 5]) -> Given
    ensures { given_of result ≡ given_in given.now }
{
    let [kind, first, second, third, column] = *given;
    Given {
        kind,
        first,
        second,
        third,
        column,
    }
}

// The old sheet with one more step, AlphaEquivalent over the old root. Given are a kind, three numbers and a column, in the order of
// a step record; the slots are the index of the new sheet's names.
#[unsafe(no_mangle)]
pub extern "C" fn skriduhol_restate(
    sheet: &[u8],
    given: &[u16; 5],
    slots: &mut [u16; SLOT_COUNT],
    out: &mut [u8],
    value: &mut usize,
    column: &mut usize,
) -> u8
    ensures hands_filled { HandsFilled (λ s. restate_answer s (given_in given.now)) sheet.now out.old
        out.new value.new column.new result }
    ensures slots_after { slots.new ≡ slots_after
        (restate_answer sheet.now (given_in given.now) (length out.old)) slots.old }
{
    let restatement = given_in(given);
    hand(
        skriduhol::restate(sheet, restatement, slots, out),
        value,
        column,
    )
}

// How long the sheet with one more step is.
#[unsafe(no_mangle)]
pub extern "C" fn skriduhol_restate_length(
    sheet: &[u8],
    given: &[u16; 5],
    value: &mut usize,
    column: &mut usize,
) -> u8
    ensures { HandsLength (λ s. restate_answer s (given_in given.now))
        (λ s. restated s (given_in given.now)) sheet.now value.new column.new result }
{
    let restatement = given_in(given);
    hand(skriduhol::restate_length(sheet, restatement), value, column)
}

// The length of a merged sheet is the value; a refusal says whose it is, by its number among the variants.
fn hand_grafted(
    grafted: Result<usize, (Whose, Located)>,
    value: &mut usize,
    column: &mut usize,
    whose: &mut usize,
) -> u8
    ensures { (h d : List ℕ) (o : graft.Grafted) → grafted ≡ grafted_of h d o
        → HandsBy h d o value.new column.new whose.new result }
{
    match grafted {
        Ok(length) => {
            *whose = 0;
            hand(Ok(length), value, column)
        }
        Err((by, located)) => {
            *whose = by as usize;
            hand(Err(located), value, column)
        }
    }
}

// The donor's steps in place of a step of the host; the slots are the index of the merged sheet's names.
#[unsafe(no_mangle)]
pub extern "C" fn skriduhol_graft<'a>(
    host: &'a [u8],
    step: usize,
    donor: &'a [u8],
    slots: &mut [u16; SLOT_COUNT],
    out: &mut [u8],
    value: &mut usize,
    column: &mut usize,
    whose: &mut usize,
) -> u8
    ensures hands_grafted { HandsGrafted host.now donor.now step out.old out.new
        value.new column.new whose.new result }
    ensures slots_after { slots.new ≡ slots_by
        (graft_answer host.now donor.now step (length out.old)) slots.old }
{
    hand_grafted(
        skriduhol::graft(host, step, donor, slots, out),
        value,
        column,
        whose,
    )
}

// How long the merged sheet is.
#[unsafe(no_mangle)]
pub extern "C" fn skriduhol_graft_length<'a>(
    host: &'a [u8],
    step: usize,
    donor: &'a [u8],
    value: &mut usize,
    column: &mut usize,
    whose: &mut usize,
) -> u8
    ensures { HandsGraftLength host.now donor.now step
        value.new column.new whose.new result }
{
    hand_grafted(
        skriduhol::graft_length(host, step, donor),
        value,
        column,
        whose,
    )
}

// What the board program prints, and how many bytes it is.
#[unsafe(no_mangle)]
pub extern "C" fn skriduhol_board_output(sheet: &[u8], out: &mut [u8; BOARD_ROOM]) -> usize
    ensures { Prints (board_output sheet.now) out.old out.new result }
{
    skriduhol::board_output(sheet, out)
}

// The code of the proposition at an ordinal among all of at most n connectives over a caller's names, divided by newlines.
#[unsafe(no_mangle)]
pub extern "C" fn skriduhol_exercise(
    names: &[u8],
    n: usize,
    ordinal: usize,
    out: &mut [u8],
    value: &mut usize,
    column: &mut usize,
) -> u8
    ensures { HandsFilled (λ _. exercise_answer names.now n ordinal) [] out.old
        out.new value.new column.new result }
{
    hand(skriduhol::exercise(names, n, ordinal, out), value, column)
}

// How long the code of an exercise is.
#[unsafe(no_mangle)]
pub extern "C" fn skriduhol_exercise_length(
    names: &[u8],
    n: usize,
    ordinal: usize,
    value: &mut usize,
    column: &mut usize,
) -> u8
    ensures { HandsLength (λ _. exercise_answer names.now n ordinal)
        (λ _. whole_exercise names.now n ordinal) [] value.new column.new result }
{
    hand(skriduhol::exercise_length(names, n, ordinal), value, column)
}

// The index of the sheet's names, in 1,024 slots.
#[unsafe(no_mangle)]
pub extern "C" fn skriduhol_name_index(
    sheet: &[u8],
    slots: &mut [u16; SLOT_COUNT],
    value: &mut usize,
    column: &mut usize,
) -> u8
    ensures { HandsFilled (λ s _. index_answer s) sheet.now slots.old slots.new
        value.new column.new result }
{
    hand(skriduhol::name_index(sheet, slots), value, column)
}

// The number of a name, or that of a free slot for none, since C has no Option.
fn number_or_free(found: Option<usize>) -> usize
    ensures { result ≡ number_or_free found }
{
    found.unwrap_or(usize::from(FREE))
}

// The number of a name by slots beside the sheet, if it has one: by the sheet's own index, the lowest of equal bytes.
#[unsafe(no_mangle)]
pub extern "C" fn skriduhol_find_name(
    sheet: &[u8],
    slots: &[u16; SLOT_COUNT],
    name: &[u8],
    value: &mut usize,
    column: &mut usize,
) -> u8
    ensures hands { Hands number_or_free sheet.now
        (find_answer sheet.now slots.now name.now) value.new column.new result }
    ensures by_own_index { slots.now ≡ index_of sheet.now → Hands number_or_free sheet.now
        (plain_answer sheet.now name.now) value.new column.new result }
{
    let searched = skriduhol::find_name(sheet, slots, name);
    hand(searched.map(number_or_free), value, column)
}

// The judgement that the sheet's own term checks against a proposition, from hypotheses given as a name's number and a proposition's
// number each: 1 for yes, and 0 for no with the node at which the rules stop.
#[unsafe(no_mangle)]
pub extern "C" fn skriduhol_judge(
    sheet: &[u8],
    hypotheses: &[u16],
    proposition: usize,
    value: &mut usize,
    column: &mut usize,
    node: &mut usize,
) -> u8
    ensures { HandsJudged sheet.now hypotheses.now proposition value.new
        column.new node.new result }
{
    match skriduhol_terms::judge(sheet, hypotheses, proposition) {
        Ok(None) => {
            *node = 0;
            hand(Ok(1), value, column)
        }
        Ok(Some(at)) => {
            *node = at;
            hand(Ok(0), value, column)
        }
        Err(located) => {
            *node = 0;
            hand(Err(located), value, column)
        }
    }
}

// The value is how many nodes a term has, and behind two pointers of their own are its names and the bytes of its labels' code. A
// refusal has 0 for both.
fn hand_reading(
    reading: Result<TermSize, Located>,
    value: &mut usize,
    column: &mut usize,
    name_count: &mut usize,
    code_length: &mut usize,
) -> u8
    ensures { (o : Outcome (ProofTerm Name)) → reading ≡ reading_of o → HandsSizes o value.new
        column.new name_count.new code_length.new result }
{
    match reading {
        Ok(size) => {
            *name_count = size.names;
            *code_length = size.code;
            hand(Ok(size.nodes), value, column)
        }
        Err(located) => {
            *name_count = 0;
            *code_length = 0;
            hand(Err(located), value, column)
        }
    }
}

// The term whose strict text these bytes are.
#[unsafe(no_mangle)]
pub extern "C" fn skriduhol_read_term(
    text: &[u8],
    datatypes: &[u8],
    records: &mut [u16],
    names: &mut [u8],
    code: &mut [u8],
    value: &mut usize,
    column: &mut usize,
    name_count: &mut usize,
    code_length: &mut usize,
) -> u8
    ensures { HandsRead datatypes.now text.now
        records.old names.old code.old
        records.new names.new code.new value.new column.new
        name_count.new code_length.new result }
{
    let reading = skriduhol_terms::read_term(text, datatypes, records, names, code);
    hand_reading(reading, value, column, name_count, code_length)
}

// How large that term is: what `skriduhol_read_term` hands over given room, and never 16.
#[unsafe(no_mangle)]
pub extern "C" fn skriduhol_read_term_length(
    text: &[u8],
    datatypes: &[u8],
    value: &mut usize,
    column: &mut usize,
    name_count: &mut usize,
    code_length: &mut usize,
) -> u8
    ensures { HandsReadLength datatypes.now text.now value.new column.new
        name_count.new code_length.new result }
{
    let reading = skriduhol_terms::read_term_length(text, datatypes);
    hand_reading(reading, value, column, name_count, code_length)
}
