// The label of a term, read from strict text: a proposition into prefix code, or a datatype. Each reader gives what it read, or none
// where it does not stand there or there are too many names. Names are noted in any case; of the code, what does not fit is dropped.
#![tactic(auto)]

ghost use Rattle.std.specs.Prelude.{List, ◌+◌, ◌≤◌, ◌<◌, length, drop, MatchOption};
ghost use Rattle.definitions.specs.CallerNames.{names_in};
ghost use Rattle.definitions.specs.Name.{Name};
ghost use Rattle.definitions.specs.TermReader.{unit, read_prop};
ghost use Rattle.words.specs.Places.{between};
ghost use Rattle.words.specs.Names.{NamePlace};
ghost use Rattle.words.specs.Table.{table_names, TooMany};
ghost use Rattle.atom_reader.specs.Scope.{Binds};
ghost use Rattle.atom_reader.specs.Reading.{Begins, PropAnswer};
ghost use Rattle.prop_reader.specs.Answer.{LoneLacks, LoneEnds, DatatypeGiven, PropositionAnswer, LabelBegins, LabelAnswer};

use atom_reader::{Place, PropRead, read_atom};
use caller_names::is_listed;
use prefix_code::{CODE_LIMIT, NESTING_LIMIT};
use proof_term::Label;
use prop_frames::{close_prop, goes_on, join, open_front, part_least, read_constant};
use prop_parts::{Sign, connective_at, sign_at};
use words::{NameTable, expect, name_end};

// Twice as many levels as a proposition may nest: brackets take one.
const LEVELS: usize = 2 * NESTING_LIMIT;

// The readers are given `names`, `bound`, `code` and the place apart, as in atom_reader and prop_frames.

// An atom, a sign with what belongs to it, or a proposition in brackets, whose parts are read so many levels deep.
#[cycle(read_prop_read_unit)]
fn read_unit(
    names: &mut NameTable,
    bound: &mut [u16],
    code: &mut [u8],
    p: Place,
    levels: usize,
) -> Option<PropRead>
    requires { Begins names.old bound.old p (levels + 1) 0 }
    ensures { (ns : List Name) →
        Binds ns (table_names names.old) bound.old p.depth →
        PropAnswer (unit (read_prop levels) ns (drop p.at names.old.text.now))
        names.old bound.old code.old p
        names.new bound.new code.new result }
{
    let text = names.text;
    if let Some(end) = name_end(text, p.at) {
        return read_atom(names, bound, code, p, end);
    }
    match sign_at(text, p.at)? {
        Sign::Constant(sign) => Some(read_constant(text, code, p, sign)),
        Sign::Opening(sign) => {
            let place = open_front(names, bound, code, p, sign)?;
            let least = part_least(sign);
            let part = read_prop(names, bound, code, place, levels, least)?;
            close_prop(text, code, place.to, sign, part)
        }
    }
}

// A proposition that binds at least so strongly, read so many levels deep.
#[cycle(read_prop_read_unit)]
fn read_prop(
    names: &mut NameTable,
    bound: &mut [u16],
    code: &mut [u8],
    p: Place,
    levels: usize,
    least: usize,
) -> Option<PropRead>
    requires { Begins names.old bound.old p levels 0 }
    ensures { (ns : List Name) →
        Binds ns (table_names names.old) bound.old p.depth →
        PropAnswer (read_prop levels least ns (drop p.at names.old.text.now))
        names.old bound.old code.old p
        names.new bound.new code.new result }
{
    if levels == 0 {
        return None;
    }
    let text = names.text;
    let to = p.to;
    let depth = p.depth;
    let mut left = read_unit(names, bound, code, p, levels - 1)?;
    for _ in 1..levels {
        let Some((connective, at)) = goes_on(text, left.end, least) else {
            return Some(left);
        };
        let place = Place {
            at,
            depth,
            to: to + left.size,
        };
        let asked = connective.right_least();
        let right = read_prop(names, bound, code, place, levels - 1, asked)?;
        left = join(text, code, to, connective, left, right)?;
    }
    Some(left)
}

// A label that was read: where it ends, what it is, and where the next code begins. Where a label may be missing, `L` is an option of
// one.
#[derive(Clone, Copy)]
pub struct LabelRead<L> {
    pub end: usize,
    pub label: L,
    pub to: usize,
}

// Where a lone name at `at` ends: one that neither a bracket nor a connective follows.
fn lone_end(text: &[u8], at: usize) -> Option<usize>
    requires { at ≤ length text.now }
    ensures { MatchOption result (LoneLacks text.now at) (LoneEnds text.now at) }
{
    let end = name_end(text, at)?;
    if expect(text, end, b"(").is_some() {
        return None;
    }
    if connective_at(text, end).is_some() {
        return None;
    }
    Some(end)
}

// The datatype whose name stands from `at` to `end`.
fn read_datatype(
    names: &mut NameTable,
    at: usize,
    end: usize,
    to: usize,
) -> Option<LabelRead<Label>>
    requires { NamePlace names.old.text.now at end }
    ensures { MatchOption result (TooMany (between at end names.old.text.now) names.old)
        (DatatypeGiven at end names.old to names.new) }
{
    let number = names.number_of_name(at, end)?;
    Some(LabelRead {
        end,
        label: Label::Datatype(number),
        to,
    })
}

// The proposition at `at`, within the limits and in no brackets of its own.
#[tactic(auto, unfolding(definitions::specs::TermText::term_text_limit))]
fn read_proposition(
    names: &mut NameTable,
    at: usize,
    code: &mut [u8],
    to: usize,
) -> Option<LabelRead<Label>>
    requires { LabelBegins at names.old to }
    ensures { PropositionAnswer at names.old code.old to
        names.new code.new result }
{
    let mut bound = [0u16; LEVELS];
    let p = Place { at, depth: 0, to };
    let read = read_prop(names, &mut bound, code, p, LEVELS, 0)?;
    let size = read.size;
    if read.own {
        return None;
    }
    if NESTING_LIMIT < read.nesting {
        return None;
    }
    if CODE_LIMIT < size {
        return None;
    }
    Some(LabelRead {
        end: read.end,
        label: Label::Proposition((to / 2) as u16),
        to: to + size + size % 2,
    })
}

// The label at `at`. A proposition's number is half the offset of its code; a lone listed name is a datatype.
pub fn read_label(
    names: &mut NameTable,
    at: usize,
    types: &[u8],
    code: &mut [u8],
    to: usize,
) -> Option<LabelRead<Label>>
    requires { LabelBegins at names.old to }
    ensures { LabelAnswer at (names_in types.now) names.old
        code.old to names.new code.new result }
{
    let Some(end) = lone_end(names.text, at) else {
        return read_proposition(names, at, code, to);
    };
    if is_listed(types, &names.text[at..end]) {
        return read_datatype(names, at, end, to);
    }
    read_proposition(names, at, code, to)
}
