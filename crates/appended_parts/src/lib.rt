// What a graft appends to the host's parts, in order and without gaps: the donor's names that are missing, and all its propositions
// over the merged numbers. Pairs and bytes stand in two memories until the merged sheet is written.
#![tactic(auto)]

ghost use Rattle.std.specs.Prelude.{◌≡◌, ◌+◌, ◌*◌, ◌<◌, ◌≤◌, length};
ghost use Rattle.definitions.specs.Sheet.{pair_size, code_limit, names, propositions, text_length};
ghost use Rattle.definitions.specs.Graft.{missing};
ghost use Rattle.graft_laws.specs.Missing.{missing_below};
ghost use Rattle.appended_parts.specs.Appended.{codes_below, Room, WrotePair, Addable, Appends};

use equal_conclusions::NumberedSheets;
use number::PAIR_SIZE;
use output::sink::put_u16s;
use output::{Sink, Writer};
use renumbering::put_proposition;
use sheet::AdmittedSheet;

// How many pieces were appended, and how long they are together. The memories for pairs and bytes stand beside it: of a struct that holds
// a writer over each, the methods were proved, but where it ends nothing ties the two memories to what it held, as it does for one, and
// `append_names` and `append_propositions` could not promise their bytes.
#[derive(Default, Clone, Copy)]
pub struct Appended {
    pub count: usize,
    pub length: usize,
}

// The pair of one piece more, whose bytes stand after those before it.
#[tactic(auto, unfolding(definitions::specs::Sheet::text_limit, definitions::specs::Sheet::name_limit, definitions::specs::Sheet::pair_size))]
fn append_pair(pairs: &mut [u8], from: usize, before: Appended, length: usize) -> Appended
    requires { Addable from before length }
    ensures pair { WrotePair (from + before.«length») length pairs.old (pair_size * before.«count») pairs.new }
    ensures more { result ≡ record { count = before.«count» + 1; length = before.«length» + length } }
{
    let offset = from + before.length;
    let to = PAIR_SIZE * before.count;
    let pair = [offset as u16, length as u16];
    put_u16s(&mut Writer { out: pairs, to }, &pair);
    Appended {
        count: before.count + 1,
        length: before.length + length,
    }
}

// Name n of the donor after those before it, if it is new: then its number is the next.
fn append_name(
    sheets: &NumberedSheets,
    n: usize,
    before: Appended,
    pairs: &mut [u8],
    text: &mut [u8],
) -> Appended
    requires n_bound { n < names sheets.now.donor.now }
    requires appends { Appends (text_length sheets.now.host.now)
        (missing_below sheets.now.host.now sheets.now.donor.now n) pairs.old text.old before }
    ensures { Appends (text_length sheets.now.host.now)
        (missing_below sheets.now.host.now sheets.now.donor.now (n + 1)) pairs.new text.new result }
{
    let h = sheets.host.header();
    let donor = sheets.donor.memory();
    if sheets.numbers[n] as usize != h.names + before.count {
        return before;
    }
    let piece = donor.name(n);
    let mut behind = Writer {
        out: text,
        to: before.length,
    };
    behind.put_all(piece);
    append_pair(pairs, h.text_length, before, piece.len())
}

// The donor's names that are missing in the host.
pub fn append_names(sheets: &NumberedSheets, pairs: &mut [u8], text: &mut [u8]) -> Appended
    requires { Room pairs.old text.old }
    ensures { Appends (text_length sheets.now.host.now) (missing sheets.now.host.now sheets.now.donor.now)
        pairs.new text.new result }
{
    let mut appended = Appended::default();
    for n in 0..sheets.donor.header().names {
        appended = append_name(sheets, n, appended, pairs, text);
    }
    appended
}

// Proposition i of the donor, over the merged numbers, after those before it.
fn append_proposition(
    donor: &AdmittedSheet,
    numbers: &[u16],
    i: usize,
    from: usize,
    before: Appended,
    pairs: &mut [u8],
    code: &mut [u8],
) -> Appended
    requires i_bound { (i < propositions donor.now) × (from ≤ code_limit) }
    requires numbers { names donor.now ≤ length numbers.now }
    requires appends { Appends from (codes_below donor.now numbers.now i) pairs.old code.old before }
    ensures { Appends from (codes_below donor.now numbers.now (i + 1)) pairs.new code.new result }
{
    let g = donor.header();
    let source = donor.proposition(i);
    let mut behind = Writer {
        out: code,
        to: before.length,
    };
    put_proposition(source, g.names, numbers, &mut behind);
    append_pair(pairs, from, before, source.len())
}

// All propositions of the donor, over the merged numbers, counted on from an offset. Any numbers will do that are as many as the donor's
// names, so that it takes no `NumberedSheets`, which would ask that they are those of a graft.
pub fn append_propositions(
    donor: &AdmittedSheet,
    numbers: &[u16],
    from: usize,
    pairs: &mut [u8],
    code: &mut [u8],
) -> Appended
    requires from_bound { from ≤ code_limit }
    requires numbers { names donor.now ≤ length numbers.now }
    requires room { Room pairs.old code.old }
    ensures { Appends from (codes_below donor.now numbers.now (propositions donor.now)) pairs.new code.new result }
{
    let mut appended = Appended::default();
    for i in 0..donor.header().propositions {
        appended = append_proposition(donor, numbers, i, from, appended, pairs, code);
    }
    appended
}
