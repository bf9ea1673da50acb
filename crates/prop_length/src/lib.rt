// How long a name is, and the text of a proposition: it is put into a counter.
#![tactic(auto)]

ghost use Rattle.vocabulary.specs.Memory.{name_of, HasName};
ghost use Rattle.prop.specs.Propositions.{text_at, HasProposition};
ghost use Rattle.prop_length.specs.Length.{NameLength, TextLength};

use number::pair_length;
use output::Counter;
use prop::Propositions;
use vocabulary::Memory;

// How many bytes a name has.
pub fn name_length(memory: &Memory, i: usize) -> usize
    requires { HasName memory.now i }
    ensures { NameLength (name_of memory.now i) result }
{
    pair_length(memory.pairs(), i)
}

// How many bytes the text of the proposition at `at` has.
pub fn text_length(propositions: &Propositions, at: usize) -> usize
    requires { HasProposition propositions.now at }
    ensures { TextLength (text_at propositions.now at) result }
{
    let mut length = Counter { count: 0 };
    propositions.put(&mut length, at);
    length.count
}
