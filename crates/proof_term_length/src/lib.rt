// How long the text of a term is, from its records, without printing it: by the formats that it is printed by. Sums stop at a cap; the one
// that `text` hands over lies past every term of a sheet, so that each is counted whole.
#![tactic(auto)]

ghost use Rattle.std.specs.Prelude.{◌≡◌, true, Option, ℕ, ◌+◌, ◌*◌, ◌≤◌, ◌<◌, IfSome, min, length};
ghost use Rattle.proof_term.specs.Records.{record_size};
ghost use Rattle.prop.specs.Propositions.{text_at, HasProposition};
ghost use Rattle.prop_length.specs.Length.{TextLength};
ghost use Rattle.proof_term_display.specs.Format.{item_of, fixed, part, part_number};
ghost use Rattle.proof_term_display.specs.Printer.{HasLabel, shown_in, shown_of_parameter};
ghost use Rattle.proof_term_length.specs.Measure.{Agrees};
ghost use Rattle.proof_term_length.specs.OfMeasure.{TermMeasurable, KnownLengths, length_of_term, Held, HasNames, HasShortCode, LengthsBelow, CanMeasure, LabelFitsItem, size_of_name, size_of_item, text_size};

use prefix_code::CODE_LIMIT;
use proof_term::{Label, NODE_LIMIT, field, kind_at, label_at, parameter_at};
use proof_term_display::{Printer, TermPart, format_of, is_bracketed};
use prop::Propositions;
use prop_length::{name_length, text_length};

// The bytes of Unit's text, of a pair of brackets, and of the colon and the blank before the label of a parameter.
const UNIT_LENGTH: usize = 2;

const BRACKETS: usize = 2;

const COLON: usize = 2;

// The sum of two lengths, as far as a cap.
fn sum(a: usize, b: usize, cap: usize) -> usize
    ensures { result ≡ min (a + b) cap }
{
    a.saturating_add(b).min(cap)
}

// Whether a byte of a format lies outside of the range from 1 to M, in which all lie that stand for a name, a part or a label. Most of
// those that stand for themselves do.
fn is_outside(b: u8) -> bool
    ensures { result ≡ true → item_of b ≡ fixed b }
{
    b < b'1' || b'M' < b
}

// The length of the text of the proposition at `at`, which is found out once: the table has it from then on.
fn known_length(
    propositions: &Propositions,
    at: usize,
    known: &mut [Option<u32>; CODE_LIMIT],
) -> usize
    requires printable { HasProposition propositions.now at × (at < 8192) }
    requires known { KnownLengths propositions.now known.old }
    ensures { TextLength (text_at propositions.now at) result
        × KnownLengths propositions.now known.new }
{
    if let Some(length) = known[at] {
        return length as usize;
    }
    let length = text_length(propositions, at);
    known[at] = Some(length as u32);
    length
}

// What a term's text is measured by: what it is printed by, and the cap.
#[derive(Clone, Copy)]
struct Measure<'a> {
    printer: Printer<'a>,
    cap: usize,
}

impl Measure<'_> {
    // The length of the name in a number of record `n`. A number of no name stands for no byte.
    fn name_in(&self, n: usize, number: usize) -> usize
        requires held { Held self.now n × (number < record_size) }
        requires all_named { HasNames self.now }
        ensures { result ≡ size_of_name self.now n number }
    {
        let name = field(self.printer.records, n, number);
        let memory = self.printer.propositions.memory;
        if memory.vocabulary.name_count <= name {
            return 0;
        }
        name_length(&memory, name)
    }

    // The length of a part of record `n`, in brackets where its position asks for them, by the lengths of the records before.
    fn part_in(&self, n: usize, which: TermPart, lengths: &[usize; NODE_LIMIT]) -> usize
        requires held { Held self.now n }
        requires measured_below { LengthsBelow self.now lengths.now n }
        ensures { Agrees self.now.cap result (size_of_item self.now n (part (part_number which))) }
    {
        let number = field(self.printer.records, n, which.field());
        if n <= number {
            return UNIT_LENGTH;
        }
        if is_bracketed(
            self.printer.records,
            number,
            which.position(),
            self.printer.style,
        ) {
            return sum(BRACKETS, lengths[number], self.cap);
        }
        lengths[number]
    }

    // The length of a label: that of a datatype's name, or of a proposition's text.
    #[tactic(auto, unfolding(definitions::specs::Term::rename_label, definitions::specs::Display::display_label))]
    fn label_length(&self, label: Label, known: &mut [Option<u32>; CODE_LIMIT]) -> usize
        requires has_label { HasLabel self.now.printer.propositions label }
        requires short { HasShortCode self.now }
        requires known { KnownLengths self.now.printer.propositions known.old }
        ensures { TextLength (shown_in self.now.printer.propositions label) result
            × KnownLengths self.now.printer.propositions known.new }
    {
        match label {
            Label::Datatype(name) => name_length(
                &self.printer.propositions.memory,
                usize::from(name),
            ),
            Label::Proposition(at) => known_length(
                &self.printer.propositions,
                usize::from(at),
                known,
            ),
        }
    }

    // The length of the label of a parameter, if it has one, with the colon and the blank before it.
    #[tactic(auto, unfolding(definitions::specs::Term::rename_parameter_label, definitions::specs::Display::display_parameter_label))]
    fn parameter_length(&self, label: Option<Label>, known: &mut [Option<u32>; CODE_LIMIT]) -> usize
        requires has_label { IfSome label (HasLabel self.now.printer.propositions) }
        requires short { HasShortCode self.now }
        requires known { KnownLengths self.now.printer.propositions known.old }
        ensures { (result ≡ length (shown_of_parameter self.now.printer.propositions label))
            × KnownLengths self.now.printer.propositions known.new }
    {
        let Some(label) = label else {
            return 0;
        };
        COLON + self.label_length(label, known)
    }

    // The length of what a byte of a format stands for in record `n`.
    fn item_length(
        &self,
        n: usize,
        b: u8,
        lengths: &[usize; NODE_LIMIT],
        known: &mut [Option<u32>; CODE_LIMIT],
    ) -> usize
        requires measurable { CanMeasure self.now n }
        requires measured_below { LengthsBelow self.now lengths.now n }
        requires fits { LabelFitsItem self.now n (item_of b) }
        requires known { KnownLengths self.now.printer.propositions known.old }
        ensures { Agrees self.now.cap result (size_of_item self.now n (item_of b))
            × KnownLengths self.now.printer.propositions known.new }
    {
        match b {
            b'1'..=b'5' => self.name_in(n, usize::from(b - b'0')),
            b'L' => self.parameter_length(parameter_at(self.printer.records, n), known),
            b'M' => self.label_length(label_at(self.printer.records, n), known),
            _ => match TermPart::of_letter(b) {
                Some(which) => self.part_in(n, which, lengths),
                None => 1,
            },
        }
    }

    // The length of record `n`'s text, item by item of its kind's format, by the lengths of the records before. The bytes that can only
    // stand for themselves, most of a format, are counted apart, and meet the cap once, all together.
    #[tactic(auto, using(crate::proofs::Progress::item_fits, crate::proofs::Progress::ends_past))]
    fn record_length(
        &self,
        n: usize,
        lengths: &[usize; NODE_LIMIT],
        known: &mut [Option<u32>; CODE_LIMIT],
    ) -> usize
        requires measurable { CanMeasure self.now n }
        requires measured_below { LengthsBelow self.now lengths.now n }
        requires known { KnownLengths self.now.printer.propositions known.old }
        ensures { (result ≡ min (text_size self.now n) self.now.cap)
            × KnownLengths self.now.printer.propositions known.new }
    {
        let mut length = 0;
        let mut fixed = 0;
        for &b in format_of(kind_at(self.printer.records, n)) {
            if is_outside(b) {
                fixed += 1;
            } else {
                let item = self.item_length(n, b, lengths, known);
                length = sum(length, item, self.cap);
            }
        }
        sum(length, fixed, self.cap)
    }
}

// The length of record `n`'s text, as far as the cap.
pub fn term_length(printer: Printer, n: usize, cap: usize) -> usize
    requires { TermMeasurable printer n }
    ensures { result ≡ min (length_of_term printer.entry n) cap }
{
    let measure = Measure { printer, cap };
    // The memory of both tables is fixed, since a library has no heap.
    let mut known = [None; CODE_LIMIT];
    let mut lengths = [0usize; NODE_LIMIT];
    for m in 0..=n {
        lengths[m] = measure.record_length(m, &lengths, &mut known);
    }
    lengths[n]
}
