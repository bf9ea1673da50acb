// The public operations, for every sequence of bytes and every room: each equals a definition, and a refusal leaves the lent memory
// as it was, save that the board's output is then the refusal's line.
//
// All memory is the caller's, the slots of an index among it, as the C interface lends it: an answer stands at its start, and its length
// is handed back.
#![tactic(auto)]

ghost use Rattle.std.specs.Prelude.{◌≡◌, List, [], ℕ, length, take, Ok};
ghost use Rattle.definitions.specs.declared.Style.TheVariants.{Plain, Strict};
ghost use Rattle.definitions.specs.Answers.{is_in_room, sheet_text, version_of, text_answer, atoms_answer, datatypes_answer, label_count, comparison, board_output};
ghost use Rattle.definitions.specs.Restate.{restated, restate_answer};
ghost use Rattle.definitions.specs.declared.Whose.TheVariants.{Host, Donor};
ghost use Rattle.definitions.specs.Graft.{graft_answer, located_by};
ghost use Rattle.definitions.specs.Exercises.{exercise_answer};
ghost use Rattle.definitions.specs.NameIndex.{index_of, index_answer, find_answer};
ghost use Rattle.output.specs.Written.{Fills};
ghost use Rattle.writer_laws.specs.Restates.{Restates};
ghost use Rattle.graft_laws.specs.Merges.{Merges};
ghost use Rattle.restating.specs.Step.{given_of};
ghost use Rattle.restating.specs.Slots.{slots_after};
ghost use Rattle.grafting.specs.Answered.{slots_by};
ghost use Rattle.made_length.specs.Whole.{whole_exercise};
ghost use Rattle.located.specs.AfterHeader.{AfterHeader};
ghost use Rattle.skriduhol.specs.Accurate.{AccurateText, AccurateCount};
ghost use Rattle.skriduhol.specs.Lists.{list_answer};
ghost use Rattle.skriduhol.specs.Asked.{asked_of};
ghost use Rattle.skriduhol.specs.Located.{FillsOf, count_of, verdict_of};
ghost use Rattle.skriduhol.specs.Lengths.{whole_text, whole_atoms, whole_datatypes, Measures, MeasuresGraft};
ghost use Rattle.skriduhol.specs.Grafts.{GraftsOf};
ghost use Rattle.skriduhol.specs.Board.{Prints};
ghost use Rattle.skriduhol.specs.Searched.{searched_of, plain_answer};

use definitions::{Located, Reason, Refusal, Style, TermList, Version, Whose};
use list_length::{held_list_length, list_length};
use located::{locate, put_refusal};
use name_index::{Index, SLOT_COUNT};
use output::Writer;
use proof_term_lists::put_term_list;
use restating::Given;
use sheet::{AdmittedSheet, check_header};
use sheet_term::{SheetTerm, TERM_NUMBERS};
use text::{sheet_text_length, text};
use vocabulary::Memory;

// The version of a number, or 21, which names no step of any sheet. A `TryFrom` would be this match with this contract, and stand in
// `definitions`, where the type is; a number is turned into a version in this crate alone.
#[tactic(auto, unfolding(crate::specs::Asked::asked_of, definitions::specs::Answers::version_of))]
fn asked_version(number: usize) -> Result<Version, Located>
    ensures { (s : List ℕ) → result ≡ asked_of s (version_of number) }
{
    match number {
        1 => Ok(Version::First),
        2 => Ok(Version::Second),
        3 => Ok(Version::Third),
        _ => Err(Located::from(Reason::Version.at(0))),
    }
}

// The text of a version in a style: the sheet's term, and then its declarations and the term as printed.
// It shares with the lists the term's memory and the line that fills it; a closure over that term would write the lent memory, and so
// carry the clauses of both.
fn styled_text(s: &[u8], version: Version, style: Style, out: &mut [u8]) -> Result<usize, Refusal>
    ensures { Fills (is_in_room (length out.old) (sheet_text s.now version style)) out.old out.new result }
{
    let mut terms = [0u16; TERM_NUMBERS];
    let held = SheetTerm::new(s, &mut terms)?;
    text(&held, version, style, out)
}

// The text of a version of the handout, 1 to 3, in a style.
pub fn handout(s: &[u8], version: usize, style: Style, out: &mut [u8]) -> Result<usize, Located>
    ensures fills_of { FillsOf s.now (text_answer s.now version style (length out.old)) out.old out.new result }
    ensures accurate_text { AccurateText version style s.now out.old out.new result }
{
    let asked = asked_version(version)?;
    let written = styled_text(s, asked, style, out);
    written.map_err(|refusal| locate(s, refusal))
}

// The plain text: that of version 1.
pub fn plain_text(s: &[u8], out: &mut [u8]) -> Result<usize, Located>
    ensures fills_of { FillsOf s.now (text_answer s.now 1 Plain (length out.old)) out.old out.new result }
    ensures accurate_text { AccurateText 1 Plain s.now out.old out.new result }
{
    handout(s, 1, Style::Plain, out)
}

// The strict text: that of version 1.
pub fn strict_text(s: &[u8], out: &mut [u8]) -> Result<usize, Located>
    ensures fills_of { FillsOf s.now (text_answer s.now 1 Strict (length out.old)) out.old out.new result }
    ensures accurate_text { AccurateText 1 Strict s.now out.old out.new result }
{
    handout(s, 1, Style::Strict, out)
}

// How long the text of a version of the handout is, in a style.
pub fn handout_length(s: &[u8], version: usize, style: Style) -> Result<usize, Located>
    ensures { Measures s.now (text_answer s.now version style)
        (whole_text s.now version style) result }
{
    let asked = asked_version(version)?;
    let length = sheet_text_length(s, asked, style);
    length.map_err(|refusal| locate(s, refusal))
}

// A list of the sheet: the sheet's term, and then what its labels add. It is counted before it is written, since a refusal leaves the
// memory as it was.
fn label_list(s: &[u8], which: TermList, out: &mut [u16]) -> Result<usize, Refusal>
    ensures { Fills (list_answer which s.now (length out.old)) out.old out.new result }
{
    let mut terms = [0u16; TERM_NUMBERS];
    let held = SheetTerm::new(s, &mut terms)?;
    let length = held_list_length(&held, which);
    if out.len() < length {
        return Err(Reason::Room.at(0));
    }
    let mut writer = Writer { out, to: 0 };
    put_term_list(
        &mut writer,
        which,
        &held.memory(),
        held.terms(),
        held.record(),
    );
    Ok(length)
}

// The atom list, in every version the same: the number of a name and a parameter count for each atom.
pub fn atom_list(s: &[u8], out: &mut [u16]) -> Result<usize, Located>
    ensures { FillsOf s.now (atoms_answer s.now (length out.old)) out.old out.new result }
{
    let written = label_list(s, TermList::Atoms, out);
    written.map_err(|refusal| locate(s, refusal))
}

// The datatype list of a version of the handout, 1 to 3: the number of a name for each datatype.
pub fn handout_datatypes(s: &[u8], version: usize, out: &mut [u16]) -> Result<usize, Located>
    ensures { FillsOf s.now (datatypes_answer s.now version (length out.old)) out.old out.new result }
{
    let asked = asked_version(version)?;
    let written = label_list(s, TermList::Datatypes(asked), out);
    written.map_err(|refusal| locate(s, refusal))
}

// The datatype list: that of version 1.
pub fn datatype_list(s: &[u8], out: &mut [u16]) -> Result<usize, Located>
    ensures { FillsOf s.now (datatypes_answer s.now 1 (length out.old)) out.old out.new result }
{
    handout_datatypes(s, 1, out)
}

// How many numbers the atom list has.
pub fn atom_list_length(s: &[u8]) -> Result<usize, Located>
    ensures { Measures s.now (atoms_answer s.now) (whole_atoms s.now) result }
{
    let length = list_length(s, TermList::Atoms);
    length.map_err(|refusal| locate(s, refusal))
}

// How many numbers the datatype list of a version of the handout has.
pub fn handout_datatypes_length(s: &[u8], version: usize) -> Result<usize, Located>
    ensures { Measures s.now (datatypes_answer s.now version)
        (whole_datatypes s.now version) result }
{
    let asked = asked_version(version)?;
    let length = list_length(s, TermList::Datatypes(asked));
    length.map_err(|refusal| locate(s, refusal))
}

// The label count.
pub fn label_count(s: &[u8]) -> Result<usize, Located>
    ensures value { result ≡ count_of s.now (label_count s.now) }
    ensures accurate_count { AccurateCount s.now result }
{
    let labels = sheet_term::label_count(s);
    labels.map_err(|refusal| locate(s, refusal))
}

// The comparison of two steps' conclusions.
pub fn compare(s: &[u8], i: usize, j: usize) -> Result<bool, Located>
    ensures { result ≡ verdict_of s.now (comparison s.now i j) }
{
    let same = comparison::compare(s, i, j);
    same.map_err(|refusal| locate(s, refusal))
}

// The old sheet with one more step, AlphaEquivalent over the old root: its conclusion and its column are given. The slots are the
// index of the new sheet's names. The bytes handed over are a sheet with the old one's parts, answers and index.
pub fn restate(
    s: &[u8],
    given: Given,
    slots: &mut [u16; SLOT_COUNT],
    out: &mut [u8],
) -> Result<usize, Located>
    ensures fills_of { FillsOf s.now (restate_answer s.now (given_of given) (length out.old))
        out.old out.new result }
    ensures slots_after { slots.new ≡ slots_after
        (restate_answer s.now (given_of given) (length out.old)) slots.old }
    ensures restates { (n : ℕ) → result ≡ Ok n
        → Restates s.now (given_of given) (take n out.new) }
{
    let written = restating::restate(s, given, slots, out);
    written.map_err(|refusal| locate(s, refusal))
}

// How long the sheet with one more step is.
pub fn restate_length(s: &[u8], given: Given) -> Result<usize, Located>
    ensures { Measures s.now (restate_answer s.now (given_of given))
        (restated s.now (given_of given)) result }
{
    let length = made_length::restate_length(s, given);
    length.map_err(|refusal| locate(s, refusal))
}

// A refusal of a graft, with the column of the step that it names in the sheet whose it is. The match picks the sheet: only of the
// one whose the refusal is, if any, is the header known to be right.
#[tactic(auto, unfolding(definitions::specs::Graft::located_by))]
fn locate_by(host: &[u8], donor: &[u8], refused: (Whose, Refusal)) -> (Whose, Located)
    requires { (refused.0 ≡ Host → AfterHeader host.now refused.1) × (refused.0 ≡ Donor → AfterHeader donor.now refused.1) }
    ensures { result ≡ (refused.0, located_by host.now donor.now refused.0 refused.1) }
{
    let (whose, refusal) = refused;
    let located = match whose {
        Whose::Neither => Located::from(refusal),
        Whose::Host => locate(host, refusal),
        Whose::Donor => locate(donor, refusal),
    };
    (whose, located)
}

// The donor's steps in place of step k of the host, a Sorry without premisses. The slots are the index of the merged sheet's names.
// The bytes handed over are a sheet that merges the two.
pub fn graft<'a>(
    host: &'a [u8],
    k: usize,
    donor: &'a [u8],
    slots: &mut [u16; SLOT_COUNT],
    out: &mut [u8],
) -> Result<usize, (Whose, Located)>
    ensures grafts_of { GraftsOf host.now donor.now
        (graft_answer host.now donor.now k (length out.old)) out.old out.new result }
    ensures slots_after { slots.new ≡ slots_by
        (graft_answer host.now donor.now k (length out.old)) slots.old }
    ensures merges { (n : ℕ) → result ≡ Ok n
        → Merges host.now donor.now k (take n out.new) }
{
    let merged = grafting::graft(host, k, donor, slots, out);
    merged.map_err(|refused| locate_by(host, donor, refused))
}

// How long the merged sheet is.
pub fn graft_length<'a>(
    host: &'a [u8],
    k: usize,
    donor: &'a [u8],
) -> Result<usize, (Whose, Located)>
    ensures { MeasuresGraft host.now donor.now k result }
{
    let length = made_length::graft_length(host, k, donor);
    length.map_err(|refused| locate_by(host, donor, refused))
}

// The bytes that the board program lends.
pub const BOARD_ROOM: usize = 65536;

// What the board program prints: the plain text of version 1, or the refusal's line.
pub fn board_output(s: &[u8], out: &mut [u8; BOARD_ROOM]) -> usize
    ensures { Prints (board_output s.now) out.old out.new result }
{
    let filled = plain_text(s, out);
    match filled {
        Ok(length) => length,
        Err(located) => put_refusal(out, located),
    }
}

// The code of the proposition at an ordinal among all of at most n connectives over a caller's names, which are divided by
// newlines. No sheet is asked about, so a refusal has no column.
pub fn exercise(names: &[u8], n: usize, ordinal: usize, out: &mut [u8]) -> Result<usize, Located>
    ensures { FillsOf [] (exercise_answer names.now n ordinal (length out.old))
        out.old out.new result }
{
    let written = exercises::exercise(names, n, ordinal, out);
    written.map_err(Located::from)
}

// How long the code of an exercise is.
pub fn exercise_length(names: &[u8], n: usize, ordinal: usize) -> Result<usize, Located>
    ensures { Measures [] (exercise_answer names.now n ordinal)
        (whole_exercise names.now n ordinal) result }
{
    let length = made_length::exercise_length(names, n, ordinal);
    length.map_err(Located::from)
}

// The index of the sheet's names.
pub fn name_index(s: &[u8], slots: &mut [u16; SLOT_COUNT]) -> Result<usize, Located>
    ensures { FillsOf s.now (index_answer s.now) slots.old slots.new result }
{
    let checked = AdmittedSheet::new(s);
    let sheet = checked.map_err(|refusal| locate(s, refusal))?;
    name_index::build(slots, &sheet.memory());
    Ok(SLOT_COUNT)
}

// The number of a name by slots beside the sheet, if it has one: by its own index, the lowest of equal bytes. Of the sheet no more is
// asked than where its names lie.
pub fn find_name<'a>(
    s: &'a [u8],
    slots: &'a [u16; SLOT_COUNT],
    name: &[u8],
) -> Result<Option<usize>, Located>
    ensures value { result ≡ searched_of s.now (find_answer s.now slots.now name.now) }
    ensures by_own_index { slots.now ≡ index_of s.now
        → result ≡ searched_of s.now (plain_answer s.now name.now) }
{
    let checked = check_header(s);
    let h = checked.map_err(|refusal| locate(s, refusal))?;
    let memory = Memory {
        bytes: s,
        vocabulary: h.vocabulary(),
    };
    let index = Index { memory, slots };
    Ok(index.find(name))
}
