// How long the lines of declarations are: they are put into a counter.
#![tactic(auto)]

ghost use Rattle.std.specs.Prelude.{◌<◌, length};
ghost use Rattle.vocabulary.specs.Memory.{name_of};
ghost use Rattle.prop_length.specs.Length.{TextLength};
ghost use Rattle.declarations.specs.Memory.{declared_uses, DeclaredIn};
ghost use Rattle.declarations.specs.Lines.{declaration_lines};

use declarations::{Declaration, put_declarations};
use definitions::TermList;
use output::Counter;
use vocabulary::Memory;

// How many bytes the lines of the declarations of a list have, joined by newlines.
pub fn lines_length(declared: &[Declaration], list: TermList, memory: &Memory) -> usize
    requires { DeclaredIn memory.now declared.now × (length declared.now < 32768) }
    ensures { TextLength
        (declaration_lines list (declared_uses (name_of memory.now) declared.now)) result }
{
    let mut length = Counter { count: 0 };
    put_declarations(&mut length, declared, list, memory);
    length.count
}
