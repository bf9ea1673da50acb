// The text of a sheet's term: the declarations, and then the term (source document 005).
#![tactic(auto)]

ghost use Rattle.std.specs.Prelude.{◌≡◌, ◌≤◌, ◌<◌, List, ℕ, length};
ghost use Rattle.definitions.specs.declared.Version.TheVariants.{First};
ghost use Rattle.definitions.specs.Outcome.{accepted};
ghost use Rattle.definitions.specs.Name.{Name};
ghost use Rattle.definitions.specs.Term.{ProofTerm};
ghost use Rattle.definitions.specs.Display.{display_term};
ghost use Rattle.definitions.specs.Text.{first_list, second_list, heading};
ghost use Rattle.definitions.specs.Answers.{is_in_room, named_term, goal_prop, sheet_text};
ghost use Rattle.output.specs.Written.{written_of, Fills};
ghost use Rattle.vocabulary.specs.Vocabulary.{name_in};
ghost use Rattle.declarations.specs.Memory.{declared_uses, Declared};
ghost use Rattle.sheet_term.specs.Held.{HeldTerm};
ghost use Rattle.text.specs.Declaring.{sheet_vocabulary, heading_lines, term_of, Declares, Arranges, EndsKnown, HeadingLength, TermLength, Prints};

use declaration_length::lines_length;
use declaration_order::sort_declarations;
use declarations::{COUNTS, Declaration, Declarations, put_declarations};
use definitions::{Reason, Refusal, Style, TermList, Version};
use number::pair_offset;
use output::{Sink, Writer};
use proof_term_display::Printer;
use proof_term_length::term_length;
use proof_term_lists::put_term_uses;
use prop::{Propositions, fill_all_ends};
use prop_lists::put_entries;
use sheet::{AdmittedSheet, Sheet};
use sheet_term::{SheetTerm, TERM_NUMBERS};

// As many declarations as there are names and counts of parameters.
const DECLARATION_LIMIT: usize = COUNTS * Sheet::NAME_LIMIT;

// The cap to which the bytes of a term's text are counted. No sheet's term has as many, so each is counted whole.
const TERM_TEXT_LIMIT: usize = 1 << 42;

// The list whose declarations come first in a version of the heading, and the list whose come second. In this crate the version is looked
// at here and where the order is chosen, and handed on elsewhere.
#[tactic(auto, unfolding(definitions::specs::Text::first_list, definitions::specs::Text::second_list))]
fn lists(version: Version) -> (TermList, TermList)
    ensures { (result.0 ≡ first_list version) × (result.1 ≡ second_list version) }
{
    match version {
        Version::First => (TermList::Atoms, TermList::Datatypes(Version::First)),
        Version::Second | Version::Third => (TermList::Datatypes(version), TermList::Atoms),
    }
}

// The declarations of a list of the term and then of what the goal adds to it, in lent memory.
fn declare<'m>(
    held: &SheetTerm,
    list: TermList,
    room: &'m mut [Declaration; DECLARATION_LIMIT],
) -> &'m mut [Declaration]
    ensures few { length result.now < 32768 }
    ensures declares { Declares held.now.0 First list result.now }
{
    let memory = held.memory();
    let mut noted = Declarations::<DECLARATION_LIMIT>::new(memory);
    put_term_uses(&mut noted, list, &memory, held.terms(), held.record());
    let sheet = held.sheet();
    let goal = pair_offset(sheet.proposition_pairs(), sheet.header().goal);
    put_entries(&mut noted, list, &memory, goal);
    let all = noted.declared();
    let declared = &mut room[..all.len()];
    declared.copy_from_slice(all);
    declared
}

// The declarations of the first list of a version, and those of the second, in lent memory each.
fn declare_both<'m>(
    held: &SheetTerm,
    version: Version,
    first_room: &'m mut [Declaration; DECLARATION_LIMIT],
    second_room: &'m mut [Declaration; DECLARATION_LIMIT],
) -> (&'m mut [Declaration], &'m mut [Declaration])
    ensures declares { Declares held.now.0 First (first_list version) result.0.now }
    ensures declares_2 { Declares held.now.0 First (second_list version) result.1.now }
    ensures few { (length result.0.now < 32768) × (length result.1.now < 32768) }
{
    let (upper, lower) = lists(version);
    let first = declare(held, upper, first_room);
    let second = declare(held, lower, second_room);
    (first, second)
}

// What the term's text is printed and measured by: its records, the sheet's names and propositions with their ends, and the style.
fn printer<'a>(
    held: &SheetTerm<'a, 'a>,
    style: Style,
    ends: &'a [u16; Sheet::CODE_LIMIT],
) -> Printer<'a>
    requires { EndsKnown held.now.0 ends.now }
    ensures { HeldTerm held.now.0 held.now.1 held.now.2 →
        Prints held.now.0 held.now.1 held.now.2 style result }
{
    Printer {
        records: held.terms(),
        propositions: Propositions {
            memory: held.memory(),
            ends,
        },
        style,
    }
}

// The term, from its records.
fn put_term<S: Sink<u8>>(
    held: &SheetTerm,
    sink: &mut S,
    style: Style,
    ends: &[u16; Sheet::CODE_LIMIT],
)
    requires { EndsKnown held.now.0 ends.now }
    ensures { S.puts sink.old (display_term style (term_of held.now.0 held.now.1 held.now.2)) sink.new }
{
    printer(held, style, ends).put(sink, held.record());
}

// How long the term's text is.
fn measure_term(held: &SheetTerm, style: Style, ends: &[u16; Sheet::CODE_LIMIT]) -> usize
    requires { EndsKnown held.now.0 ends.now }
    ensures { TermLength (display_term style (term_of held.now.0 held.now.1 held.now.2)) result }
{
    term_length(printer(held, style, ends), held.record(), TERM_TEXT_LIMIT)
}

// How long the text of the term in a version is.
fn text_length(held: &SheetTerm, version: Version, style: Style) -> usize
    ensures { (a : List ℕ) → sheet_text held.now.0 version style ≡ accepted a → result ≡ length a }
{
    let sheet = held.sheet();
    let mut ends = [0u16; Sheet::CODE_LIMIT];
    fill_sheet_ends(sheet, &mut ends);
    let term = measure_term(held, style, &ends);
    let mut first_room = [Declaration::default(); DECLARATION_LIMIT];
    let mut second_room = [Declaration::default(); DECLARATION_LIMIT];
    let (first, second) = declare_both(held, version, &mut first_room, &mut second_room);
    heading_length(sheet, version, first, second) + term
}

// Puts declarations, as they were first met, into the order of a version.
fn arrange(sheet: &AdmittedSheet, version: Version, declared: &mut [Declaration])
    requires { Declared sheet.now (sheet_vocabulary sheet.now) declared.old }
    ensures { Arranges sheet.now version declared.old declared.new }
{
    match version {
        Version::First | Version::Second => {}
        Version::Third => sort_declarations(declared, &sheet.memory()),
    }
}

// Fills in where each proposition of the sheet and each of its parts ends.
fn fill_sheet_ends(sheet: &AdmittedSheet, ends: &mut [u16; Sheet::CODE_LIMIT])
    ensures { EndsKnown sheet.now ends.new }
{
    let h = sheet.header();
    fill_all_ends(
        sheet.proposition_pairs(),
        sheet.code_bytes(),
        h.propositions,
        h.names,
        ends,
    );
}

// What stands before the term: the lines of the first list, those of the second, and an empty line.
fn put_heading<S: Sink<u8>>(
    sink: &mut S,
    sheet: &AdmittedSheet,
    version: Version,
    first: &[Declaration],
    second: &[Declaration],
)
    requires first { Declared sheet.now (sheet_vocabulary sheet.now) first.now }
    requires second { Declared sheet.now (sheet_vocabulary sheet.now) second.now }
    ensures { S.puts sink.old (heading_lines version
        (declared_uses (name_in sheet.now (sheet_vocabulary sheet.now)) first.now)
        (declared_uses (name_in sheet.now (sheet_vocabulary sheet.now)) second.now)) sink.new }
{
    let memory = sheet.memory();
    let (upper, lower) = lists(version);
    put_declarations(sink, first, upper, &memory);
    sink.put(b'\n');
    put_declarations(sink, second, lower, &memory);
    sink.put_all(b"\n\n");
}

// How long what stands before the term is: the order of the lines is no matter, so they are measured before they are sorted. Each list is
// counted by itself, with the bound that `lines_length` gives; one counter for the whole would ask of `put_heading` to hand that bound on.
fn heading_length(
    sheet: &AdmittedSheet,
    version: Version,
    first: &[Declaration],
    second: &[Declaration],
) -> usize
    requires declares { Declares sheet.now First (first_list version) first.now }
    requires declares_2 { Declares sheet.now First (second_list version) second.now }
    requires few { (length first.now < 32768) × (length second.now < 32768) }
    ensures { HeadingLength sheet.now version result }
{
    let memory = sheet.memory();
    let (upper, lower) = lists(version);
    lines_length(first, upper, &memory) + lines_length(second, lower, &memory) + 3
}

// How long the text of a sheet is in a version and a style, or the refusal of the sheet's term, for every sequence of bytes.
pub fn sheet_text_length(s: &[u8], version: Version, style: Style) -> Result<usize, Refusal>
    ensures { result ≡ written_of (sheet_text s.now version style) }
{
    let mut terms = [0u16; TERM_NUMBERS];
    let held = SheetTerm::new(s, &mut terms)?;
    Ok(text_length(&held, version, style))
}

// The text of a sheet's term in a version, in lent memory: measured, and then written where it fits. A term that is too long for the
// memory is refused before anything is declared. A test of room has no value to hand on, so it is an `if`.
pub fn text(
    held: &SheetTerm,
    version: Version,
    style: Style,
    out: &mut [u8],
) -> Result<usize, Refusal>
    ensures { Fills (is_in_room (length out.old) (sheet_text held.now.0 version style))
        out.old out.new result }
{
    let sheet = held.sheet();
    let mut ends = [0u16; Sheet::CODE_LIMIT];
    fill_sheet_ends(sheet, &mut ends);
    let term = measure_term(held, style, &ends);
    if out.len() < term {
        return Err(Reason::Room.at(0));
    }
    let mut first_room = [Declaration::default(); DECLARATION_LIMIT];
    let mut second_room = [Declaration::default(); DECLARATION_LIMIT];
    let (first, second) = declare_both(held, version, &mut first_room, &mut second_room);
    let end = heading_length(sheet, version, first, second) + term;
    if out.len() < end {
        return Err(Reason::Room.at(0));
    }
    arrange(sheet, version, first);
    arrange(sheet, version, second);
    let mut writer = Writer { out, to: 0 };
    put_heading(&mut writer, sheet, version, first, second);
    put_term(held, &mut writer, style, &ends);
    Ok(end)
}
