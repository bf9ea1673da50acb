// Propositions, after the Rust's prop.rs: where the code of each part ends, how strongly a proposition binds, and its text.
#![tactic(auto)]

mod propositions;

ghost use Rattle.std.specs.Prelude.{◌≡◌, ℕ, ◌<◌};
ghost use Rattle.definitions.specs.Name.{Name};
ghost use Rattle.definitions.specs.Prop.{rename_prop};
ghost use Rattle.definitions.specs.Sheet.{pair_offset};
ghost use Rattle.definitions.specs.Display;
ghost use Rattle.prefix_code.specs.PropAt.{prop_at};
ghost use Rattle.prefix_code.specs.Shape.{quantifier_meant};
ghost use Rattle.vocabulary.specs.Memory.{name_of, HasName};
ghost use Rattle.prop.specs.Ends.{Known, Fillable, Filled, AllFillable};
ghost use Rattle.prop.specs.Printing.{quantifier_head, Legible};
ghost use Rattle.prop.specs.Propositions.{prop_named, text_at, part_at, HasAtom, PutsAtom, HasProposition};

use number::{number_at, pair_offset};
use output::Sink;
use prefix_code::{Connective, Head, ParameterKind, Quantifier, Shape, WEAKEST, known_head_end};
pub use propositions::Propositions;

// Code, place, count of names and ends stand loose in the filling, as in prefix_code: the ends are what it writes.

// How strongly an atom binds.
pub const ATOM_STRENGTH: usize = prefix_code::STRONGEST;

// Fills in where the proposition at `at` ends, and where each of its parts does, each at its start. The table lies beside the code, an
// entry for each byte: it is filled in once and read in one look, where a scan of the left part at each level would take the square.
pub fn fill_ends(code: &[u8], at: usize, names: usize, ends: &mut [u16]) -> usize
    requires { Fillable names code.now at ends.old }
    ensures { Filled (prop_at names code.now at) ends.old at ends.new result }
{
    let mut i = known_head_end(code, at, names);
    for _ in 0..Head::of_known(code[at]).parts() {
        i = fill_ends(code, i, names, ends);
    }
    ends[at] = i as u16;
    i
}

// The same for the propositions of a sheet, whose header says how many there are. Pairs and code stand loose and are no `Marked`: of its
// fields a proof does not know that they hold bytes, as it does of a parameter, and a clause that says so would ask more of callers.
#[tactic(auto, unfolding(definitions::specs::Sheet::pair_size))]
pub fn fill_all_ends(pairs: &[u8], code: &[u8], count: usize, names: usize, ends: &mut [u16])
    requires { AllFillable names pairs.now code.now count ends.old }
    ensures { (i : ℕ) → i < count →
        Known names code.now ends.new (pair_offset pairs.now i) }
{
    for i in 0..count {
        fill_ends(code, pair_offset(pairs, i), names, ends);
    }
}

// How strongly the proposition at `at` binds, whatever its names are. An implication of ⊥ is printed as a negation, and binds as strongly
// as an atom. The head is all that is asked for here; a Shape would also read the numbers behind it. Tried: with the test of the right side
// as a guard of one match, a proof does not know in the arm behind it that it failed.
pub fn precedence(code: &[u8], ends: &[u16], at: usize) -> usize
    requires { Legible code.now ends.now at }
    ensures { (names : ℕ) (f : ℕ → Name) → Known names code.now ends.now at →
        result ≡ Display.precedence (rename_prop f (prop_at names code.now at)) }
{
    let head = Head::of_known(code[at]);
    if head == Head::Binary(Connective::Impl) {
        let right = ends[at + 1] as usize;
        if Head::of_known(code[right]) == Head::False {
            return ATOM_STRENGTH;
        }
        return Connective::Impl.strength();
    }
    match head {
        Head::Binary(connective) => connective.strength(),
        Head::Quantified(_) => WEAKEST,
        Head::True | Head::False | Head::Atom => ATOM_STRENGTH,
    }
}

impl Propositions<'_> {
    // How strongly the proposition at `at` binds.
    #[tactic(auto, unfolding(vocabulary::specs::Vocabulary::prop_in))]
    fn strength(&self, at: usize) -> usize
        requires { HasProposition self.now at }
        ensures { result ≡ Display.precedence (prop_named self.now at) }
    {
        precedence(self.memory.code(), self.ends, at)
    }

    // A quantifier with its object and its datatype, up to its body.
    fn put_quantifier<S: Sink<u8>>(
        &self,
        sink: &mut S,
        q: Quantifier,
        object: usize,
        datatype: usize,
    )
        requires { HasName self.now.memory object × HasName self.now.memory datatype }
        ensures { S.puts sink.old (quantifier_head (name_of self.now.memory) (quantifier_meant q) object datatype) sink.new }
    {
        sink.put_all(q.sign());
        sink.put_all(self.memory.name(object));
        sink.put(b':');
        sink.put_all(self.memory.name(datatype));
        sink.put_all(b". ");
    }

    // An atom with its parameters, from the name, the count and the place that its shape gives. The place moves by hand, as
    // prefix_code::parameters_end says.
    fn put_atom<S: Sink<u8>>(&self, sink: &mut S, name: usize, count: u8, parameters: usize)
        requires { HasAtom self.now name count parameters }
        ensures { PutsAtom self.now name count parameters S.puts sink.old sink.new }
    {
        sink.put_all(self.memory.name(name));
        if count == 0 {
            return;
        }
        sink.put(b'(');
        let code = self.memory.code();
        let mut i = parameters;
        for left in (0..count).rev() {
            sink.put_all(self.memory.name(number_at(code, i + 1)));
            i += ParameterKind::of_known(code[i]).size();
            if 0 < left {
                sink.put_all(b", ");
            }
        }
        sink.put(b')');
    }

    // The text of the proposition at `at`, in brackets if it binds less strongly than `least`.
    #[cycle(put)]
    fn put_part<S: Sink<u8>>(&self, sink: &mut S, at: usize, least: usize)
        requires { HasProposition self.now at }
        ensures { S.puts sink.old (part_at self.now at least) sink.new }
    {
        if self.strength(at) < least {
            sink.put(b'(');
            self.put(sink, at);
            sink.put(b')');
            return;
        }
        self.put(sink, at);
    }

    // The text of the proposition at `at`.
    #[cycle(put)]
    pub fn put<S: Sink<u8>>(&self, sink: &mut S, at: usize)
        requires { HasProposition self.now at }
        ensures { S.puts sink.old (text_at self.now at) sink.new }
    {
        match self.memory.shape(at) {
            Shape::True => sink.put_all(b"\xE2\x8A\xA4"), // ⊤
            Shape::False => sink.put_all(b"\xE2\x8A\xA5"), // ⊥
            Shape::Atom {
                name,
                count,
                parameters,
            } => self.put_atom(sink, name, count, parameters),
            Shape::Quantified {
                quantifier,
                object,
                datatype,
                body,
            } => {
                self.put_quantifier(sink, quantifier, object, datatype);
                self.put(sink, body);
            }
            Shape::Binary { connective, left } => {
                if self.strength(at) == ATOM_STRENGTH {
                    sink.put_all(b"\xC2\xAC"); // ¬
                    self.put_part(sink, left, ATOM_STRENGTH);
                    return;
                }
                let right = self.ends[left] as usize;
                self.put_part(sink, left, connective.left_least());
                sink.put_all(connective.text());
                self.put_part(sink, right, connective.right_least());
            }
        }
    }
}
