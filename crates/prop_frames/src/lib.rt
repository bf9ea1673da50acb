// What stands around the parts of a proposition, read from strict text into prefix code: a negation's sign, brackets, a quantifier
// with its names, a connective between two sides. A reader gives what it read, or none where that does not stand there or there are
// too many names.
#![tactic(auto)]

ghost use Rattle.std.specs.Prelude.{◌≡◌, List, ℕ, ◌+◌, ◌≤◌, ◌<◌, length, drop, None, Some, MatchOption};
ghost use Rattle.definitions.specs.Name.{Name};
ghost use Rattle.definitions.specs.Prop.{Prop, quantifier_byte};
ghost use Rattle.definitions.specs.TermReader.{standing, signed, goes_on};
ghost use Rattle.definitions.specs.TermText.{term_text_limit};
ghost use Rattle.std.proofs.lemmas.List.Edits.{sets};
ghost use Rattle.words.specs.declared.name_table.NameTable.{NameTable};
ghost use Rattle.words.specs.Table.{table_names};
ghost use Rattle.prefix_code.specs.Shape.{meant, quantifier_meant};
ghost use Rattle.prop_parts.specs.Found.{code_reach, constant_sign, opening_sign};
ghost use Rattle.atom_reader.specs.Scope.{Binds};
ghost use Rattle.atom_reader.specs.Reading.{Measured, PropAnswer};
ghost use Rattle.prop_frames.specs.Fronts.{Part, Front, front_sign, part_least, BinderLacks, Binder, BinderGiven, binder_code, FrontBegins, FrontAnswer, Closable, enclosed, Closes};
ghost use Rattle.prop_frames.specs.Sides.{GoesOnAt, sides_agree, inserted, Joinable, Joins};

use atom_reader::{Place, PropRead};
use output::sink::put_u16;
use output::{Sink, Writer};
use prefix_code::{Connective, FALSE, Quantifier, STRONGEST, WEAKEST};
use prop_parts::{CONSTANT_SIZE, Constant, Opening, connective_at, put, read_name};
use words::{NameTable, expect};

// The names of a quantifier: where they end, and their numbers.
#[derive(Clone, Copy)]
pub struct BinderRead {
    pub end: usize,
    pub object: u16,
    pub datatype: u16,
}

// The readers are given `names`, `bound`, `code` and the place apart, as in atom_reader. The names that quantifiers bind fill
// the memory `bound` up to the place's depth: memory of fixed size has no push.

// The names of a quantifier, after its sign.
fn binder_names(names: &mut NameTable, at: usize) -> Option<BinderRead>
    requires { at ≤ length names.old.text.now }
    ensures { MatchOption result (BinderLacks at names.old)
        (λ r. (b : Binder) × BinderGiven at names.old names.new r b) }
{
    let text = names.text;
    let object = read_name(names, at)?;
    let colon = expect(text, object.end, b":")?;
    let datatype = read_name(names, colon)?;
    let end = expect(text, datatype.end, b". ")?;
    Some(BinderRead {
        end,
        object: object.number,
        datatype: datatype.number,
    })
}

// What stands in the code of a quantifier before its part.
#[tactic(auto, unfolding(crate::specs::Fronts::binder_code, definitions::specs::Code::u16))]
fn put_binder(code: &mut [u8], to: usize, quantifier: Quantifier, object: u16, datatype: u16)
    ensures { code.new ≡ sets code.old to
        (binder_code (quantifier_byte (quantifier_meant quantifier)) object datatype) }
{
    let mut out = Writer { out: code, to };
    out.put(quantifier.byte());
    put_u16(&mut out, object);
    put_u16(&mut out, datatype);
}

// What stands before a part: the sign at `p` and what belongs to it. Gives the place of the part.
#[tactic(auto, unfolding(definitions::specs::TermText::term_text_limit))]
pub fn open_front(
    names: &mut NameTable,
    bound: &mut [u16],
    code: &mut [u8],
    p: Place,
    sign: Opening,
) -> Option<Place>
    requires { FrontBegins names.old bound.old p sign }
    ensures { (ns : List Name) →
        Binds ns (table_names names.old) bound.old p.depth →
        FrontAnswer (opening_sign sign) ns names.old bound.old code.old p
        names.new bound.new code.new result }
{
    let to = p.to;
    let depth = p.depth;
    let at = p.at + sign.size();
    match sign {
        Opening::Bracket => Some(Place { at, ..p }),
        Opening::Negation => {
            put(code, to, Connective::Impl.byte());
            Some(Place {
                at,
                to: to + 1,
                ..p
            })
        }
        Opening::Binder(quantifier) => {
            let read = binder_names(names, at)?;
            put_binder(code, to, quantifier, read.object, read.datatype);
            bound[depth] = read.object;
            Some(Place {
                at: read.end,
                depth: depth + 1,
                to: to + 5,
            })
        }
    }
}

// How strongly the part after a sign binds at least.
pub fn part_least(sign: Opening) -> usize
    ensures { (f : Front) → opening_sign sign ≡ front_sign f → result ≡ part_least f }
{
    match sign {
        Opening::Negation => STRONGEST,
        _ => 0,
    }
}

// A proposition around its part, with so many bytes more in code.
#[tactic(auto, unfolding(crate::specs::Fronts::enclosed))]
fn enclosing(part: PropRead, bytes: usize, strength: usize) -> PropRead
    requires { (part.size < code_reach) × (part.nesting < code_reach) × (bytes < 256) }
    ensures { result ≡ enclosed part bytes strength }
{
    PropRead {
        size: part.size + bytes,
        nesting: part.nesting + 1,
        strength,
        bottom: false,
        own: false,
        ..part
    }
}

// What was opened by a sign, with the part in it, whose code stands from `to` on.
pub fn close_prop(
    text: &[u8],
    code: &mut [u8],
    to: usize,
    sign: Opening,
    part: PropRead,
) -> Option<PropRead>
    requires { Closable text.now to part }
    ensures { (f : Front) (q : Prop Name) → opening_sign sign ≡ front_sign f → Measured part q →
        Closes f q text.now code.old to part code.new result }
{
    match sign {
        Opening::Bracket => {
            if part.own {
                return None;
            }
            let end = expect(text, part.end, b")")?;
            Some(PropRead {
                end,
                own: true,
                ..part
            })
        }
        Opening::Negation => {
            if part.own != (part.strength < STRONGEST) {
                return None;
            }
            put(code, to + part.size, FALSE);
            Some(enclosing(part, 2, STRONGEST))
        }
        Opening::Binder(_) => {
            if part.own {
                return None;
            }
            Some(enclosing(part, 5, WEAKEST))
        }
    }
}

// ⊤ or ⊥, whose sign stands at `p`.
pub fn read_constant(text: &[u8], code: &mut [u8], p: Place, sign: Constant) -> PropRead
    requires { (p.at + 3 ≤ length text.now) × (p.to < code_reach) × (length text.now ≤ term_text_limit) }
    ensures { (part : Part) (ns : List Name) (held : NameTable) (bound : List ℕ) → held.text.now ≡ text.now →
        PropAnswer (signed part ns (constant_sign sign) (drop (p.at + 3) text.now))
        held bound code.old p held bound code.new (Some result) }
{
    put(code, p.to, sign.byte());
    PropRead {
        end: p.at + CONSTANT_SIZE,
        size: 1,
        nesting: 1,
        strength: STRONGEST,
        bottom: sign == Constant::Bottom,
        own: false,
    }
}

// The connective at `at` that binds at least so strongly, and where it ends.
pub fn goes_on(text: &[u8], at: usize, least: usize) -> Option<(Connective, usize)>
    requires { at ≤ length text.now }
    ensures { MatchOption result (goes_on least (drop at text.now) ≡ None) (GoesOnAt text.now at least) }
{
    connective_at(text, at).filter(|found| least <= found.0.strength())
}

// Whether a connective may join these sides: they stand in the brackets that are due, and this is no negation.
fn may_join(connective: Connective, left: PropRead, right: PropRead) -> bool
    ensures { (p q : Prop Name) → Measured left p → Measured right q →
        result ≡ sides_agree (meant connective) (standing left.own p) (standing right.own q) }
{
    if left.own != connective.wraps_left(left.strength) {
        return false;
    }
    if right.own != connective.wraps_right(right.strength) {
        return false;
    }
    match connective {
        Connective::Impl => !right.bottom,
        _ => true,
    }
}

// Puts one byte in front of so many from `to` on, as far as there is room.
#[tactic(auto, unfolding(crate::specs::Sides::inserted))]
fn insert(code: &mut [u8], to: usize, size: usize, b: u8)
    requires { to + size < code_reach }
    ensures { code.new ≡ inserted code.old to size b }
{
    if to < code.len() {
        let last = (code.len() - 1).min(to + size);
        code.copy_within(to..last, to + 1);
        code[to] = b;
    }
}

// A left side, whose code stands from `to` on, a connective, and a right side, whose code stands after it.
pub fn join(
    text: &[u8],
    code: &mut [u8],
    to: usize,
    connective: Connective,
    left: PropRead,
    right: PropRead,
) -> Option<PropRead>
    requires { Joinable text.now to left right }
    ensures { (p q : Prop Name) → Measured left p → Measured right q →
        Joins (meant connective) p q text.now code.old to left right code.new result }
{
    if !may_join(connective, left, right) {
        return None;
    }
    insert(code, to, left.size + right.size, connective.byte());
    Some(PropRead {
        end: right.end,
        size: 1 + left.size + right.size,
        nesting: left.nesting.max(right.nesting) + 1,
        strength: connective.strength(),
        bottom: false,
        own: false,
    })
}
