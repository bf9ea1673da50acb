// The text of a term from its records (`Display` of source document 001), plain and strict.
#![tactic(auto)]

ghost use Rattle.std.specs.Prelude.{◌≡◌, ◌&&◌, true, false, ℕ, ◌+◌, ◌*◌, ◌≤◌, [], length, get_or, leb, MatchOption, IfSome};
ghost use Rattle.definitions.specs.Name.{Name};
ghost use Rattle.definitions.specs.Prop.{Prop};
ghost use Rattle.definitions.specs.Term.{ProofTerm, rename_term};
ghost use Rattle.definitions.specs.Display.{form};
ghost use Rattle.proof_term.specs.Records.{record_size, field_at, record_term};
ghost use Rattle.proof_term.specs.Forms.{as_form};
ghost use Rattle.proof_term.specs.Views.{kind_number};
ghost use Rattle.proof_term_display.specs.Ascriptions.{bracket, AscribedBody, body_bracketed};
ghost use Rattle.proof_term_display.specs.Brackets.{position_of, is_bracketed, bracket_row, form_at};
ghost use Rattle.proof_term_display.specs.Format.{part_field, part_number, part_position, item_of, part, items, formats};
ghost use Rattle.proof_term_display.specs.Printer.{HasLabel, shown_in, shown_of_parameter, HasTerm, HasItem, HasLabelOf, text_of, text_of_item, text_after};

use definitions::Style;
use output::Sink;
use proof_term::{Form, Kind, Label, field, kind_at, label_at, parameter_at};
use prop::Propositions;

// The positions of parts.
#[derive(Clone, Copy, PartialEq, Eq)]
pub enum PartPosition {
    FunctionOf,
    ArgumentOf,
    BodyOf,
    AscribedBy,
    PartOf,
    Within,
}

// The parts of terms, each with the letter that stands for it in a format: the parts of a function, a case or a let in their order, the
// bodies of a named function and of an ascription, the function and the argument of an application, and the parts of a pair.
#[derive(Clone, Copy, PartialEq, Eq)]
pub enum TermPart {
    First,
    Second,
    Third,
    NamedBody,
    AscribedBody,
    Function,
    Argument,
    PairFirst,
    PairSecond,
}

impl TermPart {
    // The part of a letter of a format, A to I.
    pub fn of_letter(b: u8) -> Option<TermPart>
        ensures { MatchOption result (leb 65 b && leb b 73 ≡ false) (λ p. b ≡ 65 + part_number p) }
    {
        match b {
            b'A' => Some(TermPart::First),
            b'B' => Some(TermPart::Second),
            b'C' => Some(TermPart::Third),
            b'D' => Some(TermPart::NamedBody),
            b'E' => Some(TermPart::AscribedBody),
            b'F' => Some(TermPart::Function),
            b'G' => Some(TermPart::Argument),
            b'H' => Some(TermPart::PairFirst),
            b'I' => Some(TermPart::PairSecond),
            _ => None,
        }
    }

    // The record's number of it.
    pub fn field(self) -> usize
        ensures { result ≡ part_field (part_number self) }
    {
        match self {
            TermPart::Third => 3,
            TermPart::Second | TermPart::Argument | TermPart::PairSecond => 2,
            _ => 1,
        }
    }

    // Its position.
    pub fn position(self) -> PartPosition
        ensures { result ≡ part_position (part_number self) }
    {
        match self {
            TermPart::First | TermPart::Second | TermPart::Third => PartPosition::Within,
            TermPart::NamedBody => PartPosition::BodyOf,
            TermPart::AscribedBody => PartPosition::AscribedBy,
            TermPart::Function => PartPosition::FunctionOf,
            TermPart::Argument => PartPosition::ArgumentOf,
            TermPart::PairFirst | TermPart::PairSecond => PartPosition::PartOf,
        }
    }
}

// The form of a term by its record's kind.
#[tactic(auto, unfolding(proof_term::specs::Forms::as_form, definitions::specs::Display::form, definitions::specs::Term::rename_term))]
fn form_of(kind: Kind) -> Form
    ensures { (f : ℕ → Name) (props : ℕ → Prop ℕ) (term : ℕ → ProofTerm ℕ) (a b c d e : ℕ) →
        result ≡ as_form (form (rename_term f (record_term props term (kind_number kind) a b c d e))) }
{
    match kind {
        Kind::Ident | Kind::Pair | Kind::Unit | Kind::Sorry => Form::Closed,
        Kind::ProjectFst | Kind::ProjectSnd | Kind::Application => Form::Call,
        Kind::OrLeft | Kind::OrRight | Kind::Abort => Form::Call,
        Kind::Function => Form::Function,
        Kind::LetIn | Kind::Case => Form::Block,
        Kind::TypeAscription => Form::Ascription,
    }
}

// Whether a part in a position is bracketed, by its form: closed, call, function, block, ascription. It is document 01's table of brackets,
// with a row for each position and a column for each form.
#[tactic(auto, unfolding(crate::specs::Brackets::is_bracketed, definitions::specs::Display::brackets_of, definitions::specs::Display::is_strict, definitions::specs::Display::brackets, definitions::specs::Display::bracketed))]
fn brackets_of(position: PartPosition, style: Style) -> [bool; 5]
    ensures { result ≡ bracket_row position style }
{
    let strict = style == Style::Strict;
    match position {
        PartPosition::FunctionOf => [false, false, true, strict, true],
        PartPosition::ArgumentOf => [false, true, true, strict, true],
        PartPosition::BodyOf => [false, true, true, true, true],
        PartPosition::AscribedBy => [false, false, true, true, true],
        PartPosition::PartOf => [false, false, false, false, false],
        PartPosition::Within => [false, false, false, false, strict],
    }
}

// Whether the term of record `n` is bracketed in a position.
pub fn is_bracketed(records: &[u16], n: usize, position: PartPosition, style: Style) -> bool
    requires { record_size * (n + 1) ≤ length records.now }
    ensures { (f : ℕ → Name) (props : ℕ → Prop ℕ) →
        result ≡ is_bracketed (position_of position) style (form_at f props records.now n) }
{
    let brackets = brackets_of(position, style);
    brackets[form_of(kind_at(records, n)).rank()]
}

// The format of a kind. A digit stands for the name in that number of the record. A, B and C stand for the parts of a function, a case
// or a let, D for the body of a named function, E for that of an ascription, F and G for the function and the argument of an
// application, H and I for the parts of a pair, L for the label of a parameter, if it has one, and M for that of an ascription.
// It is a text and no list of items: a case's would be ten values, `[Text(b"case "), Part(First), Text(b" of inl "), Name(4), ..]`, in which
// what is printed is no longer read at a glance. The definition of the formats has the same texts and letters.
#[tactic(auto, unfolding(crate::specs::Format::formats))]
pub fn format_of(kind: Kind) -> &'static [u8]
    ensures { items result.now ≡ get_or formats (kind_number kind) [] }
{
    match kind {
        Kind::Ident => b"1",
        Kind::Pair => b"(H, I)",
        Kind::ProjectFst => b"fst D",
        Kind::ProjectSnd => b"snd D",
        Kind::Function => b"fn 2L => A",
        Kind::Application => b"F G",
        Kind::LetIn => b"let (3, 4) = A in B",
        Kind::OrLeft => b"inl D",
        Kind::OrRight => b"inr D",
        Kind::Case => b"case A of inl 4 => B, inr 5 => C",
        Kind::Abort => b"abort D",
        Kind::TypeAscription => b"E: M",
        Kind::Unit => b"()",
        Kind::Sorry => b"sorry",
    }
}

// What the printing of a term goes by: its records, the memory of its names and propositions, and the style.
#[derive(Clone, Copy)]
pub struct Printer<'a> {
    pub records: &'a [u16],
    pub propositions: Propositions<'a>,
    pub style: Style,
}

// A label: a proposition or a datatype.
#[tactic(auto, unfolding(definitions::specs::Term::rename_label, definitions::specs::Display::display_label))]
fn put_label<S: Sink<u8>>(sink: &mut S, label: Label, propositions: &Propositions)
    requires { HasLabel propositions.now label }
    ensures { S.puts sink.old (shown_in propositions.now label) sink.new }
{
    match label {
        Label::Datatype(datatype) => {
            sink.put_all(propositions.memory.name(usize::from(datatype)));
        }
        Label::Proposition(at) => propositions.put(sink, usize::from(at)),
    }
}

// The label of a parameter, if it has one, after a colon.
#[tactic(auto, unfolding(definitions::specs::Term::rename_parameter_label, definitions::specs::Display::display_parameter_label))]
fn put_parameter_label<S: Sink<u8>>(sink: &mut S, label: Option<Label>, propositions: &Propositions)
    requires { IfSome label (HasLabel propositions.now) }
    ensures { S.puts sink.old (shown_of_parameter propositions.now label) sink.new }
{
    let Some(label) = label else {
        return;
    };
    sink.put_all(b": ");
    put_label(sink, label, propositions);
}

// A bracket, if there is one. A closure that puts what stands between two of them would have to state the whole walk in its contract.
#[tactic(auto, unfolding(crate::specs::Ascriptions::bracket))]
fn put_bracket<S: Sink<u8>>(sink: &mut S, b: u8, bracketed: bool)
    ensures { S.puts sink.old (bracket bracketed b) sink.new }
{
    if bracketed {
        sink.put(b);
    }
}

// The body of record `n`, if that is the ascription of an earlier record. The body is printed in the frame of its ascription.
fn ascribed_body(records: &[u16], n: usize) -> Option<usize>
    requires { record_size * (n + 1) ≤ length records.now }
    ensures { AscribedBody records.now n result }
{
    let Kind::TypeAscription = kind_at(records, n) else {
        return None;
    };
    let body = field(records, n, 1);
    (body < n).then_some(body)
}

// Whether the body of an ascription is bracketed.
#[tactic(auto, unfolding(crate::specs::Ascriptions::body_bracketed))]
fn is_body_bracketed(records: &[u16], ascribed: Option<usize>, style: Style) -> bool
    requires { IfSome ascribed (λ body. record_size * (body + 1) ≤ length records.now) }
    ensures { (f : ℕ → Name) (props : ℕ → Prop ℕ) →
        result ≡ body_bracketed f props records.now ascribed style }
{
    let Some(body) = ascribed else {
        return false;
    };
    is_bracketed(records, body, PartPosition::AscribedBy, style)
}

impl Printer<'_> {
    // What stands after the body of record `n`, if that is an ascription of an earlier record: a colon and its label.
    #[tactic(auto, unfolding(crate::specs::Ascriptions::after_body))]
    fn put_ascription<S: Sink<u8>>(&self, sink: &mut S, n: usize, is_ascription: bool)
        requires has_term { HasTerm self.now n }
        requires has_label { is_ascription ≡ true → HasLabelOf self.now n }
        ensures { S.puts sink.old (text_after self.now n is_ascription) sink.new }
    {
        if is_ascription {
            sink.put_all(b": ");
            put_label(sink, label_at(self.records, n), &self.propositions);
        }
    }

    // A part of record `n`, in brackets where its position asks for them.
    #[cycle(put)]
    fn put_part<S: Sink<u8>>(&self, sink: &mut S, n: usize, which: TermPart)
        requires has_term { HasTerm self.now n }
        requires has_item { HasItem self.now n (part (part_number which)) }
        ensures { S.puts sink.old (text_of_item self.now n (part (part_number which))) sink.new }
    {
        let number = field(self.records, n, which.field());
        if n <= number {
            sink.put_all(b"()");
            return;
        }
        let bracketed = is_bracketed(self.records, number, which.position(), self.style);
        let ascribed = ascribed_body(self.records, number);
        let inner = is_body_bracketed(self.records, ascribed, self.style);
        put_bracket(sink, b'(', bracketed);
        put_bracket(sink, b'(', inner);
        self.put(sink, ascribed.unwrap_or(number));
        put_bracket(sink, b')', inner);
        self.put_ascription(sink, number, ascribed.is_some());
        put_bracket(sink, b')', bracketed);
    }

    // What a byte of a format stands for in record `n`.
    #[cycle(put)]
    fn put_item<S: Sink<u8>>(&self, sink: &mut S, n: usize, b: u8)
        requires has_term { HasTerm self.now n }
        requires has_item { HasItem self.now n (item_of b) }
        ensures { S.puts sink.old (text_of_item self.now n (item_of b)) sink.new }
    {
        match b {
            b'1'..=b'5' => {
                let number = field(self.records, n, (b - b'0') as usize);
                sink.put_all(self.propositions.memory.name(number));
            }
            b'L' => put_parameter_label(sink, parameter_at(self.records, n), &self.propositions),
            b'M' => put_label(sink, label_at(self.records, n), &self.propositions),
            _ => match TermPart::of_letter(b) {
                Some(which) => self.put_part(sink, n, which),
                None => sink.put(b),
            },
        }
    }

    // The term of record `n`, item by item of its kind's format.
    #[cycle(put)]
    pub fn put<S: Sink<u8>>(&self, sink: &mut S, n: usize)
        requires { HasTerm self.now n }
        ensures { S.puts sink.old (text_of self.now n) sink.new }
    {
        for &b in format_of(kind_at(self.records, n)) {
            self.put_item(sink, n, b);
        }
    }
}
