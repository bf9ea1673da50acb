// An atom of a label: its name and its parameters, read from strict text into prefix code. A reader gives what it read, or none where
// it does not stand there or there are too many names. Names are noted in any case; of the code, what does not fit is dropped, as
// prop_parts says.
#![tactic(auto)]

ghost use Rattle.std.specs.Prelude.{◌≡◌, List, ◌<◌, length, drop};
ghost use Rattle.definitions.specs.Name.{Name};
ghost use Rattle.definitions.specs.Code.{parameter_limit};
ghost use Rattle.definitions.specs.TermReader.{parameters_of};
ghost use Rattle.std.proofs.lemmas.List.Edits.{sets};
ghost use Rattle.words.specs.Places.{between};
ghost use Rattle.words.specs.Names.{NamePlace};
ghost use Rattle.words.specs.Table.{table_names};
ghost use Rattle.atom_reader.specs.Scope.{Binds};
ghost use Rattle.atom_reader.specs.Reading.{Begins, parameters_from, ParameterAnswer, ParametersAnswer, atom_head, atom_from, PropAnswer};

use output::sink::put_u16;
use output::{Sink, Writer};
use prefix_code::{ATOM, PARAMETER_LIMIT, STRONGEST};
use prop_parts::{parameter_kind, put_parameter, read_name};
use words::{NameTable, expect};

// Where the reading stands: in the text, under how many quantifiers, and in the code. The reader of terms has two of these numbers among
// its own; it hands them over one by one, and no quantifier is open then.
#[derive(Clone, Copy)]
pub struct Place {
    pub at: usize,
    pub depth: usize,
    pub to: usize,
}

// The parameters of an atom: where they end, how many they are, and their size in code.
#[derive(Clone, Copy)]
pub struct ParametersRead {
    pub end: usize,
    pub parameters: usize,
    pub size: usize,
}

// A proposition that was read: where it ends, its size in code, its nesting, how strongly it binds, whether it is ⊥, and whether it
// stood in brackets of its own.
#[derive(Clone, Copy)]
pub struct PropRead {
    pub end: usize,
    pub size: usize,
    pub nesting: usize,
    pub strength: usize,
    pub bottom: bool,
    pub own: bool,
}

// The readers are given `names`, `bound`, `code` and the place apart: a struct of them would hold two `&mut`, `names` and `code`, and
// of such a struct a caller does not know at its end what the memories hold. `Begins` says of all of them at once what is required.

// One parameter of an atom: a name, bound by a quantifier or not.
fn read_parameter(
    names: &mut NameTable,
    bound: &[u16],
    code: &mut [u8],
    p: Place,
) -> Option<ParametersRead>
    requires { Begins names.old bound.now p 0 2 }
    ensures { (ns : List Name) →
        Binds ns (table_names names.old) bound.now p.depth →
        ParameterAnswer ns names.old code.old p
        names.new code.new result }
{
    let name = read_name(names, p.at)?;
    let kind = parameter_kind(&bound[..p.depth], usize::from(name.number));
    let size = put_parameter(code, p.to, name.number, kind);
    Some(ParametersRead {
        end: name.end,
        parameters: 1,
        size,
    })
}

// The parameters of an atom from the first one on, where at most so many more may follow: names with ", " between them, and ")".
fn read_parameters(
    names: &mut NameTable,
    bound: &[u16],
    code: &mut [u8],
    p: Place,
    most: usize,
) -> Option<ParametersRead>
    requires { Begins names.old bound.now p 0 2 }
    ensures { (ns : List Name) →
        Binds ns (table_names names.old) bound.now p.depth →
        ParametersAnswer (parameters_from ns most (drop p.at names.old.text.now)) most 1
        names.old code.old p
        names.new code.new result }
{
    if most == 0 {
        return None;
    }
    let text = names.text;
    let first = read_parameter(names, bound, code, p)?;
    let Some(more) = expect(text, first.end, b", ") else {
        let end = expect(text, first.end, b")")?;
        return Some(ParametersRead { end, ..first });
    };
    let place = Place {
        at: more,
        to: p.to + first.size,
        ..p
    };
    let rest = read_parameters(names, bound, code, place, most - 1)?;
    Some(ParametersRead {
        end: rest.end,
        parameters: 1 + rest.parameters,
        size: first.size + rest.size,
    })
}

// The parameters of an atom, after its name, perhaps none.
fn atom_parameters(
    names: &mut NameTable,
    bound: &[u16],
    code: &mut [u8],
    p: Place,
) -> Option<ParametersRead>
    requires { Begins names.old bound.now p 0 2 }
    ensures { (ns : List Name) →
        Binds ns (table_names names.old) bound.now p.depth →
        ParametersAnswer (parameters_of ns (drop p.at names.old.text.now)) parameter_limit 0
        names.old code.old p
        names.new code.new result }
{
    let Some(open) = expect(names.text, p.at, b"(") else {
        return Some(ParametersRead {
            end: p.at,
            parameters: 0,
            size: 0,
        });
    };
    let place = Place { at: open, ..p };
    read_parameters(names, bound, code, place, PARAMETER_LIMIT as usize)
}

// What stands in the code of an atom before its parameters.
#[tactic(auto, unfolding(crate::specs::Reading::atom_head, definitions::specs::Code::u16))]
fn put_atom(code: &mut [u8], to: usize, number: u16, parameters: usize)
    requires { parameters < 256 }
    ensures { code.new ≡ sets code.old to (atom_head number parameters) }
{
    let mut out = Writer { out: code, to };
    out.put(ATOM);
    put_u16(&mut out, number);
    out.put(parameters as u8);
}

// An atom whose name ends at `end`.
#[tactic(auto, unfolding(definitions::specs::TermText::term_text_limit))]
pub fn read_atom(
    names: &mut NameTable,
    bound: &[u16],
    code: &mut [u8],
    p: Place,
    end: usize,
) -> Option<PropRead>
    requires { Begins names.old bound.now p 0 0 × NamePlace names.old.text.now p.at end }
    ensures { (ns : List Name) →
        Binds ns (table_names names.old) bound.now p.depth →
        PropAnswer (atom_from ns (between p.at end names.old.text.now) (drop end names.old.text.now))
        names.old bound.now code.old p
        names.new bound.now code.new result }
{
    let number = names.number_of_name(p.at, end)?;
    let place = Place {
        at: end,
        to: p.to + 4,
        ..p
    };
    let read = atom_parameters(names, bound, code, place)?;
    put_atom(code, p.to, number, read.parameters);
    Some(PropRead {
        end: read.end,
        size: 4 + read.size,
        nesting: 1,
        strength: STRONGEST,
        bottom: false,
        own: false,
    })
}
