// Propositions and steps written again over other name numbers: each name goes through a map, a step's proposition is counted on
// from another sheet's, and all else stays as it is.
#![tactic(auto)]

ghost use Rattle.std.specs.Prelude.{◌≡◌, ℕ, ◌+◌, ◌<◌, ◌≤◌, leb, length};
ghost use Rattle.definitions.specs.Sheet.{number_at};
ghost use Rattle.definitions.specs.Code.{u16};
ghost use Rattle.prefix_code.specs.Scan.{proposition_coding, parameter_coding, parameters_coding};
ghost use Rattle.prefix_code.specs.Head.{head_coding};
ghost use Rattle.renumbering.specs.Renumbered.{Standing, Renumbers, rename_head, rename_parameters, Whole, PutWhole};
ghost use Rattle.definitions.specs.Prop.{rename_parameter};
ghost use Rattle.renumbering.specs.Renumbered.{mapped};
ghost use Rattle.renumbering.specs.StepOver.{identifiers_of, name_over, conclusion_over, step_over, conclusion_bytes, step_bytes, steps_over};
ghost use Rattle.renumbering.specs.StepOver.{ConclusionMapped, IdentifiersMapped, StepMapped, StepsMapped};

use definitions::Identifier;
use number::number_at;
use output::Sink;
use output::sink::{put_u16, put_u16s};
use prefix_code::{Head, ParameterKind, known_head_end};
use steps::{Conclusion, Judgement, Rule, Step, step_at};

// The code of a proposition with so many names, and the map that has a number for each of these. The place stands loose: it moves from call
// to call. What is asked and promised is one relation of a coding, `Standing` or `Renumbers`, in which each method names its own.
#[derive(Clone, Copy)]
struct MappedCode<'a> {
    code: &'a [u8],
    names: usize,
    numbers: &'a [u16],
    ghost enough: { names ≤ length numbers.now },
}

impl MappedCode<'_> {
    // The name whose number stands at a position, through the map.
    #[tactic(auto, unfolding(crate::specs::Renumbered::mapped))]
    fn put_name<S: Sink<u8>>(&self, at: usize, sink: &mut S)
        requires { (at + 1 < length self.now.code.now) × (number_at self.now.code.now at < self.now.names) }
        ensures { S.puts sink.old (u16 (mapped self.now.numbers.now (number_at self.now.code.now at))) sink.new }
    {
        put_u16(sink, self.numbers[number_at(self.code, at)]);
    }

    // The parameter at a position: its kind, its name through the map, and its id if it has one.
    fn put_parameter<S: Sink<u8>>(&self, at: usize, sink: &mut S)
        requires { Standing (parameter_coding self.now.names) self.now.code.now at }
        ensures { Renumbers (parameter_coding self.now.names) rename_parameter self.now.code.now at self.now.numbers.now
            S.puts sink.old sink.new }
    {
        let byte = self.code[at];
        sink.put(byte);
        self.put_name(at + 1, sink);
        match ParameterKind::of_known(byte) {
            ParameterKind::Uninstantiated => {}
            ParameterKind::Instantiated => put_u16(sink, number_at(self.code, at + 3) as u16),
        }
    }

    // So many parameters from a position on, gone through by hand, as prefix_code::parameters_end says.
    fn put_parameters<S: Sink<u8>>(&self, at: usize, count: usize, sink: &mut S)
        requires { Standing (parameters_coding self.now.names count) self.now.code.now at }
        ensures { Renumbers (parameters_coding self.now.names count) rename_parameters self.now.code.now at self.now.numbers.now
            S.puts sink.old sink.new }
    {
        let mut i = at;
        for _ in 0..count {
            self.put_parameter(i, sink);
            i += ParameterKind::of_known(self.code[i]).size();
        }
    }

    // The head at a position: all that stands before its parts.
    fn put_head<S: Sink<u8>>(&self, at: usize, sink: &mut S)
        requires { Standing (head_coding self.now.names) self.now.code.now at }
        ensures { Renumbers (head_coding self.now.names) rename_head self.now.code.now at self.now.numbers.now
            S.puts sink.old sink.new }
    {
        let front = self.code[at];
        sink.put(front);
        match Head::of_known(front) {
            Head::True | Head::False | Head::Binary(_) => {}
            Head::Atom => {
                let count = self.code[at + 3];
                self.put_name(at + 1, sink);
                sink.put(count);
                self.put_parameters(at + 4, count as usize, sink);
            }
            Head::Quantified(_) => {
                self.put_name(at + 1, sink);
                self.put_name(at + 3, sink);
            }
        }
    }
}

// The proposition that is all of the code, head by head.
pub fn put_proposition<S: Sink<u8>>(code: &[u8], names: usize, numbers: &[u16], sink: &mut S)
    requires { Whole names code.now × (names ≤ length numbers.now) }
    ensures { PutWhole names code.now numbers.now S.puts sink.old sink.new }
{
    let mapped = MappedCode {
        code,
        names,
        numbers,
    };
    let mut i = 0;
    // A head's own bytes say where it ends, so the place moves by no fixed step. An iterator over heads would have to keep the row of
    // propositions that is left in a ghost field, as prop_lists::put_entries tells.
    while i < code.len() {
        mapped.put_head(i, sink);
        i = known_head_end(code, i, names);
    }
}

// The numbers of a step's identifiers: the map's for those that its rule has, and the others as they stand.
#[tactic(auto, unfolding(crate::specs::Renumbered::mapped, crate::specs::StepOver::name_over, crate::specs::StepOver::identifiers_of))]
fn renumber_identifiers(numbers: &[u16], step: &Step) -> (u16, u16)
    requires { IdentifiersMapped step.now numbers.now }
    ensures first { result.0 ≡ name_over (mapped numbers.now) (leb 1 (identifiers_of step.now)) step.now.first.name }
    ensures second { result.1 ≡ name_over (mapped numbers.now) (leb 2 (identifiers_of step.now)) step.now.second.name }
{
    let first = step.first.name;
    let second = step.second.name;
    match Rule::of_byte(step.rule).map_or(0, Rule::identifier_count) {
        0 => (first, second),
        1 => (numbers[first as usize], second),
        _ => (numbers[first as usize], numbers[second as usize]),
    }
}

// A conclusion over the map's numbers, its proposition counted on from `shift`.
#[tactic(auto, unfolding(crate::specs::Renumbered::mapped, crate::specs::StepOver::conclusion_over))]
fn renumber_conclusion(numbers: &[u16], conclusion: Conclusion, shift: usize) -> Conclusion
    requires { ConclusionMapped conclusion shift numbers.now }
    ensures { result ≡ conclusion_over (mapped numbers.now) shift conclusion }
{
    match conclusion {
        Conclusion::PropIsTrue(p) => Conclusion::PropIsTrue((shift + p as usize) as u16),
        Conclusion::TypeJudgement(x) => Conclusion::TypeJudgement(Judgement {
            object: Identifier {
                name: numbers[x.object.name as usize],
                ..x.object
            },
            datatype: numbers[x.datatype as usize],
        }),
    }
}

// A step over the map's numbers; ids, premiss count and column stay, and so do the fields that its rule lacks.
#[tactic(auto, unfolding(crate::specs::StepOver::step_over))]
fn renumber_step(numbers: &[u16], step: Step, shift: usize) -> Step
    requires { StepMapped step shift numbers.now }
    ensures { result ≡ step_over (mapped numbers.now) shift step }
{
    let (first, second) = renumber_identifiers(numbers, &step);
    let concluded = step.conclusion;
    let conclusion = renumber_conclusion(numbers, concluded, shift);
    Step {
        first: Identifier {
            name: first,
            ..step.first
        },
        second: Identifier {
            name: second,
            ..step.second
        },
        conclusion,
        ..step
    }
}

// A conclusion and the column after it.
#[tactic(auto, using(crate::proofs::Steps::conclusion_is))]
fn put_conclusion<S: Sink<u8>>(sink: &mut S, conclusion: Conclusion, column: u16)
    ensures { S.puts sink.old (conclusion_bytes conclusion column) sink.new }
{
    let [kind, first, second, third] = conclusion.numbers();
    put_u16s(sink, &[kind, first, second, third, column]);
}

// The record of a step.
fn put_step<S: Sink<u8>>(sink: &mut S, step: Step)
    ensures { S.puts sink.old (step_bytes step) sink.new }
{
    let names = [
        step.first.name,
        step.first.unique_id,
        step.second.name,
        step.second.unique_id,
    ];
    let conclusion = step.conclusion;
    sink.put(step.rule);
    sink.put(step.premiss_count);
    put_u16s(sink, &names);
    put_conclusion(sink, conclusion, step.column);
}

// The first steps, one after another.
pub fn put_renumbered_steps<S: Sink<u8>>(
    records: &[u8],
    steps: usize,
    shift: usize,
    numbers: &[u16],
    sink: &mut S,
)
    requires { StepsMapped records.now steps shift numbers.now }
    ensures { S.puts sink.old (steps_over (mapped numbers.now) shift records.now steps) sink.new }
{
    for k in 0..steps {
        put_step(sink, renumber_step(numbers, step_at(records, k), shift));
    }
}
