// The parts of a label's text and of its code: signs, connectives and names, and the bytes that stand for them.
// Code is stored at a place of lent memory, by a writer that begins there: no one sink goes through a reading, since an atom's head is
// stored once its parameters are (atom_reader), and a connective is put in front of its left side (prop_frames), and a sink only goes on.
// What does not fit is dropped, and an empty memory is lent where nothing is to be stored.
#![tactic(auto)]

ghost use Rattle.std.specs.Prelude.{◌≡◌, ◌≤◌, ◌<◌, [], ◌∷◌, length, drop, eqb, None, MatchOption};
ghost use Rattle.definitions.specs.Text.{occurs};
ghost use Rattle.definitions.specs.TermReader.{sign, connective};
ghost use Rattle.std.proofs.lemmas.List.Edits.{sets};
ghost use Rattle.prop_parts.specs.Found.{ConnectiveAt, constant_byte, opening_sign, sign_size, SignAt, NameLacks, NameGiven, bound_numbers, kind_of, ParameterPut};

use output::sink::put_u16;
use output::{Sink, Writer};
use prefix_code::{Connective, FALSE, ParameterKind, Quantifier, TRUE};
use words::{NameTable, expect, name_end};

// ⊤ or ⊥.
#[derive(Clone, Copy, PartialEq, Eq)]
pub enum Constant {
    Top,
    Bottom,
}

// What a part follows: the sign of a negation, of brackets or of a quantifier.
#[derive(Clone, Copy)]
pub enum Opening {
    Negation,
    Bracket,
    Binder(Quantifier),
}

// How a proposition begins that begins with no name.
#[derive(Clone, Copy)]
pub enum Sign {
    Constant(Constant),
    Opening(Opening),
}

// A name that was read: where it ends, and its number.
#[derive(Clone, Copy)]
pub struct NameRead {
    pub end: usize,
    pub number: u16,
}

// The connective at `at`, and where it ends.
pub fn connective_at(text: &[u8], at: usize) -> Option<(Connective, usize)>
    requires { at ≤ length text.now }
    ensures { MatchOption result (connective (drop at text.now) ≡ None) (ConnectiveAt text.now at) }
{
    [Connective::And, Connective::Or, Connective::Impl]
        .iter()
        .copied()
        .find(|c| expect(text, at, c.text()).is_some())
        .map(|c| (c, at + c.text().len()))
}

// The signs, each behind its bytes. Those of ∀ and ∃ are those of `Quantifier::sign`, which the value of a static cannot call.
static SIGNS: [(&[u8], Sign); 6] = [
    (b"\xE2\x8A\xA4", Sign::Constant(Constant::Top)), // ⊤
    (b"\xE2\x8A\xA5", Sign::Constant(Constant::Bottom)), // ⊥
    (b"\xC2\xAC", Sign::Opening(Opening::Negation)), // ¬
    (b"(", Sign::Opening(Opening::Bracket)),
    (
        b"\xE2\x88\x80", // ∀
        Sign::Opening(Opening::Binder(Quantifier::ForAll)),
    ),
    (
        b"\xE2\x88\x83", // ∃
        Sign::Opening(Opening::Binder(Quantifier::Exists)),
    ),
];

// The sign at `at`.
pub fn sign_at(text: &[u8], at: usize) -> Option<Sign>
    requires { at ≤ length text.now }
    ensures { MatchOption result (sign (drop at text.now) ≡ None) (SignAt text.now at) }
{
    let rest = &text[at..];
    SIGNS
        .iter()
        .find(|row| rest.starts_with(row.0))
        .map(|row| row.1)
}

// The bytes of ⊤ and of ⊥. Their size and that of an `Opening` stand apart from `sign_at`: `open_front` and `read_constant` of prop_frames
// are given the place of a sign, by which their code is measured, and would take its end as one parameter more.
pub const CONSTANT_SIZE: usize = 3;

impl Constant {
    // The head byte of its code.
    #[tactic(auto, unfolding(crate::specs::Found::constant_byte))]
    pub fn byte(self) -> u8
        ensures { result ≡ constant_byte self }
    {
        match self {
            Constant::Top => TRUE,
            Constant::Bottom => FALSE,
        }
    }
}

impl Opening {
    // How many bytes it has.
    #[tactic(auto, unfolding(crate::specs::Found::sign_size))]
    pub fn size(self) -> usize
        ensures { result ≡ sign_size (opening_sign self) }
    {
        match self {
            Opening::Negation => 2,
            Opening::Bracket => 1,
            Opening::Binder(_) => 3,
        }
    }
}

// The name at `at`, with its number; none where no name stands there or there are too many.
pub fn read_name(names: &mut NameTable, at: usize) -> Option<NameRead>
    requires { at ≤ length names.old.text.now }
    ensures { MatchOption result (NameLacks at names.old) (NameGiven at names.old names.new) }
{
    let end = name_end(names.text, at)?;
    let number = names.number_of_name(at, end)?;
    Some(NameRead { end, number })
}

// One byte.
pub fn put(code: &mut [u8], to: usize, b: u8)
    ensures { code.new ≡ sets code.old to (b ∷ []) }
{
    Writer { out: code, to }.put(b);
}

// The kind of a parameter whose name has this number, where quantifiers bind names of these numbers.
pub fn parameter_kind(bound: &[u16], number: usize) -> ParameterKind
    ensures { result ≡ kind_of (occurs eqb number (bound_numbers bound.now (length bound.now))) }
{
    // Any number may be asked of it, and `bound.contains` would ask for one of 16 bits.
    if bound.iter().any(|b| usize::from(*b) == number) {
        return ParameterKind::Uninstantiated;
    }
    ParameterKind::Instantiated
}

// The code of a parameter, instantiated with id 0 where it is not bound. Gives its size.
#[tactic(auto, unfolding(crate::specs::Found::parameter_of, definitions::specs::Code::encode_parameter, definitions::specs::Code::u16))]
pub fn put_parameter(code: &mut [u8], to: usize, number: u16, kind: ParameterKind) -> usize
    ensures { ParameterPut kind number code.old to code.new result }
{
    let mut out = Writer { out: code, to };
    out.put(kind.byte());
    put_u16(&mut out, number);
    if kind == ParameterKind::Instantiated {
        put_u16(&mut out, 0);
    }
    kind.size()
}
