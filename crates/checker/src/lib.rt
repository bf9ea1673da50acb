// Checking and inferring over term records, as document 01's rules call each other. Every proposition that is checked against or
// that a name stands for has its code in one memory; what a pair and a labelled function infer is made in another. Names are
// numbers that are equal where their bytes are.
#![tactic(auto)]

ghost use Rattle.std.specs.Prelude.{◌≡◌, ℕ, ◌+◌, ◌-◌, ◌*◌, ◌≤◌, ◌<◌, length, get_or, set, None};
ghost use Rattle.proof_term.specs.Records.{record_size, field_at};
ghost use Rattle.proof_term.specs.declared.nodes.Kind.TheVariants.{Function, Pair, Application, Case};
ghost use Rattle.prop_numbers.specs.Standing.{standing, name_space, Stood};
ghost use Rattle.checker.specs.Asking.{Few, LabelHeld, OfKind, JudgeableTerm};
ghost use Rattle.checker.specs.Judging.{InferredTerm, CheckedTerm};
ghost use Rattle.checker.specs.Helping.{After, Found, Bound, label_place, BodySide};

use prefix_code::{Connective, known_end};
use proof_term::{Kind, Label, NODE_LIMIT, field, kind_at, label_at, parameter_at};
use prop_numbers::{Made, NAMES, Propositions, make, same_code, side_of};
use term_sizes::SIZE;

// The numbers of a record that the rules read: its parts, or an identifier's name; a function's name; the names of a case's two branches.
const FIRST: usize = 1;

const SECOND: usize = 2;

const THIRD: usize = 3;

const NAME: usize = 2;

const LEFT_NAME: usize = 4;

const RIGHT_NAME: usize = 5;

// The records of terms, and the code that their labels stand in. A label's number times the stride is its offset there: 1 for a sheet's own
// term, 2 for one that is read beside a sheet, where numbers count pairs of bytes.
#[derive(Clone, Copy)]
pub struct Terms<'a> {
    pub records: &'a [u16],
    pub code: &'a [u8],
    pub stride: usize,
}

// What changes while a term is judged: where the proposition of each name in scope stands, and what the nodes made. It is a struct of its
// own, so that no clause has to say that the records and the code stay.
#[derive(Drop)]
pub struct State {
    pub scope: [Option<u32>; NAMES],
    pub made: [Made; NODE_LIMIT],
}

// What a name stands for, or the node.
fn entry(scope: &[Option<u32>; NAMES], name: usize, node: usize) -> Result<usize, usize>
    requires { name < name_space }
    ensures { Found (get_or scope.now name None) node result }
{
    scope[name].map(|p| p as usize).ok_or(node)
}

// Binds a name to the proposition at p, and gives the entry that this hides.
fn bind(scope: &mut [Option<u32>; NAMES], name: usize, p: usize) -> Option<u32>
    requires { (name < name_space) × (p < standing) }
    ensures { Bound scope.old name p scope.new result }
{
    scope[name].replace(p as u32)
}

// Puts the hidden entry back.
fn unbind(scope: &mut [Option<u32>; NAMES], name: usize, hidden: Option<u32>)
    requires { name < name_space }
    ensures { scope.new ≡ set scope.old name hidden }
{
    scope[name] = hidden;
}

// Checking and inferring have an arm for each rule. An arm that binds a name or asks of two parts is a function of its own, which the
// compiler puts into its one caller, so that each of the 512 levels takes one frame. An answer is nothing or a proposition's number, or else
// the node that stops the rules (docs/DECISIONS.md, 135).
// An arm asks for the numbers of its record as it needs them, and takes no Node apart: while the head and the first branch of a case are
// judged, each of the 512 levels would keep the second branch and its name too, where the record's number is enough. Each answer would also
// cite a law that the node's fields are the record's numbers, which is what `field` says of its result.
// Binding a name around one call stands six times: a method over a closure would stand in the cycle of calls with each closure, and each
// use would ask a measure and a contract of both. The head of a case stands in two arms: a function for its two calls would be one more of
// the cycle, and its contract would say again what `infer` and `with_connective` say.
// What every arm asks, JudgeableTerm, speaks of the state too, which each call changes, so that no ghost field beside m and node holds it.
impl<'a> Terms<'a> {
    // The node after those of the term of record m, whose own is `node`.
    fn after(&self, m: usize, node: usize) -> usize
        requires { Few self.now.records.now m node }
        ensures { After self.now.records.now m node result }
    {
        node + field(self.records, m, SIZE)
    }

    // The propositions that stand in the code, and those that the nodes made.
    fn propositions<'b>(&self, made: &'b [Made; NODE_LIMIT]) -> Propositions<'b>
    where
        'a: 'b,
        ensures { (result.code.now ≡ self.now.code.now) × (result.made.now ≡ made.now) }
    {
        Propositions {
            code: self.code,
            made,
        }
    }

    // The right side of the implication at p, if it is one and has the label of the function of record m, if that has one, for its left
    // side; else the node.
    fn body_side(&self, m: usize, p: usize, node: usize) -> Result<usize, usize>
        requires m_in_bounds { (record_size * (m + 1) ≤ length self.now.records.now)
            × LabelHeld self.now.records.now self.now.code.now self.now.stride m }
        requires m_value { OfKind self.now.records.now m Function × Stood self.now.code.now p
            × (length self.now.code.now ≤ standing) }
        ensures { BodySide self.now.records.now self.now.code.now self.now.stride m p node result }
    {
        let side = side_of(self.code, p, Connective::Impl, node)?;
        match parameter_at(self.records, m) {
            None => Ok(side),
            Some(Label::Datatype(_)) => Err(node),
            Some(Label::Proposition(number)) => {
                if same_code(self.code, self.stride * usize::from(number), p + 1) {
                    return Ok(side);
                }
                Err(node)
            }
        }
    }

    // Where a label stands, if there is one and it is a proposition; else the node.
    #[tactic(auto, unfolding(crate::specs::Helping::label_place), using(crate::proofs::Labels::short_stride))]
    fn label_place(&self, label: Option<Label>, node: usize) -> Result<usize, usize>
        requires { self.now.stride ≤ 2 }
        ensures { result ≡ label_place self.now.stride label node }
    {
        match label {
            Some(Label::Proposition(number)) => Ok(self.stride * usize::from(number)),
            Some(Label::Datatype(_)) | None => Err(node),
        }
    }

    // ⊥ stands last in the code.
    fn bottom(&self) -> usize
        requires { 2 ≤ length self.now.code.now }
        ensures { result ≡ length self.now.code.now - 1 }
    {
        self.code.len() - 1
    }

    // ⊤ stands before it.
    fn top(&self) -> usize
        requires { 2 ≤ length self.now.code.now }
        ensures { result ≡ length self.now.code.now - 2 }
    {
        self.code.len() - 2
    }

    // Does the term of record m, a node of that number, check against the proposition at p?
    #[cycle(check_infer)]
    pub fn check(&self, state: &mut State, m: usize, node: usize, p: usize) -> Result<(), usize>
        requires { JudgeableTerm self.now state.old m node × Stood self.now.code.now p }
        ensures { CheckedTerm self.now m node p state.old state.new result }
    {
        let kind = kind_at(self.records, m);
        let first = field(self.records, m, FIRST);
        match kind {
            Kind::Function => self.check_function(state, m, node, p),
            Kind::Pair => self.check_pair(state, m, node, p),
            Kind::OrLeft => {
                side_of(self.code, p, Connective::Or, node)?;
                self.check(state, first, node + 1, p + 1)
            }
            Kind::OrRight => {
                let side = side_of(self.code, p, Connective::Or, node)?;
                self.check(state, first, node + 1, side)
            }
            Kind::Case => self.check_case(state, m, node, p),
            Kind::Abort => self.check(state, first, node + 1, self.bottom()),
            Kind::Sorry => Ok(()),
            Kind::LetIn => Err(node),
            Kind::Ident
            | Kind::ProjectFst
            | Kind::ProjectSnd
            | Kind::Application
            | Kind::TypeAscription
            | Kind::Unit => {
                let r = self.infer(state, m, node)?;
                self.propositions(&state.made).agree(r, p, node)
            }
        }
    }

    // A function: its body against the right side of an implication, under its name for the left side.
    #[cycle(check_infer)]
    fn check_function(
        &self,
        state: &mut State,
        m: usize,
        node: usize,
        p: usize,
    ) -> Result<(), usize>
        requires ready { JudgeableTerm self.now state.old m node × Stood self.now.code.now p }
        requires kind { OfKind self.now.records.now m Function }
        ensures { CheckedTerm self.now m node p state.old state.new result }
    {
        let first = field(self.records, m, FIRST);
        let side = self.body_side(m, p, node)?;
        let name = field(self.records, m, NAME);
        let hidden = bind(&mut state.scope, name, p + 1);
        let r = self.check(state, first, node + 1, side);
        unbind(&mut state.scope, name, hidden);
        r
    }

    // A pair: each part against a side of a conjunction.
    #[cycle(check_infer)]
    fn check_pair(&self, state: &mut State, m: usize, node: usize, p: usize) -> Result<(), usize>
        requires ready { JudgeableTerm self.now state.old m node × Stood self.now.code.now p }
        requires kind { OfKind self.now.records.now m Pair }
        ensures { CheckedTerm self.now m node p state.old state.new result }
    {
        let first = field(self.records, m, FIRST);
        let side = side_of(self.code, p, Connective::And, node)?;
        self.check(state, first, node + 1, p + 1)?;
        let second = field(self.records, m, SECOND);
        let next = self.after(first, node + 1);
        self.check(state, second, next, side)
    }

    // A case: each branch against p, under its name for a side of the disjunction that the head infers.
    #[cycle(check_infer)]
    fn check_case(&self, state: &mut State, m: usize, node: usize, p: usize) -> Result<(), usize>
        requires ready { JudgeableTerm self.now state.old m node × Stood self.now.code.now p }
        requires kind { OfKind self.now.records.now m Case }
        ensures { CheckedTerm self.now m node p state.old state.new result }
    {
        let first = field(self.records, m, FIRST);
        let inferred = self.infer(state, first, node + 1)?;
        let h = self
            .propositions(&state.made)
            .with_connective(inferred, Connective::Or, node)?;
        let second = field(self.records, m, SECOND);
        let next = self.after(first, node + 1);
        let last = self.after(second, next);
        let name = field(self.records, m, LEFT_NAME);
        let hidden = bind(&mut state.scope, name, h + 1);
        let r = self.check(state, second, next, p);
        unbind(&mut state.scope, name, hidden);
        r?;
        let third = field(self.records, m, THIRD);
        let side = known_end(self.code, h + 1, NAMES);
        let name = field(self.records, m, RIGHT_NAME);
        let hidden = bind(&mut state.scope, name, side);
        let r = self.check(state, third, last, p);
        unbind(&mut state.scope, name, hidden);
        r
    }

    // What does the term of record m, a node of that number, infer?
    #[cycle(check_infer)]
    pub fn infer(&self, state: &mut State, m: usize, node: usize) -> Result<usize, usize>
        requires { JudgeableTerm self.now state.old m node }
        ensures { InferredTerm self.now m node state.old state.new result }
    {
        let kind = kind_at(self.records, m);
        let first = field(self.records, m, FIRST);
        match kind {
            Kind::Ident => entry(&state.scope, first, node),
            Kind::ProjectFst => {
                let r = self.infer(state, first, node + 1)?;
                self.propositions(&state.made).first_side(r, node)
            }
            Kind::ProjectSnd => {
                let r = self.infer(state, first, node + 1)?;
                self.propositions(&state.made).second_side(r, node)
            }
            Kind::Application => self.infer_application(state, m, node),
            Kind::TypeAscription => {
                let label = self.label_place(Some(label_at(self.records, m)), node)?;
                self.check(state, first, node + 1, label)?;
                Ok(label)
            }
            Kind::Function => self.infer_function(state, m, node),
            Kind::Pair => self.infer_pair(state, m, node),
            Kind::Case => self.infer_case(state, m, node),
            Kind::Unit => Ok(self.top()),
            Kind::LetIn | Kind::OrLeft | Kind::OrRight | Kind::Abort | Kind::Sorry => Err(node),
        }
    }

    // An application: the right side of the implication that its function infers, if the argument checks against the left side.
    #[cycle(check_infer)]
    fn infer_application(&self, state: &mut State, m: usize, node: usize) -> Result<usize, usize>
        requires ready { JudgeableTerm self.now state.old m node }
        requires kind { OfKind self.now.records.now m Application }
        ensures { InferredTerm self.now m node state.old state.new result }
    {
        let first = field(self.records, m, FIRST);
        let inferred = self.infer(state, first, node + 1)?;
        let propositions = self.propositions(&state.made);
        let p = propositions.with_connective(inferred, Connective::Impl, node)?;
        let second = field(self.records, m, SECOND);
        let next = self.after(first, node + 1);
        let argument = propositions.left(p);
        let side = propositions.right(p);
        self.check(state, second, next, argument)?;
        Ok(side)
    }

    // A function with a proposition for its label: the implication from that to what its body infers.
    #[cycle(check_infer)]
    fn infer_function(&self, state: &mut State, m: usize, node: usize) -> Result<usize, usize>
        requires ready { JudgeableTerm self.now state.old m node }
        requires kind { OfKind self.now.records.now m Function }
        ensures { InferredTerm self.now m node state.old state.new result }
    {
        let first = field(self.records, m, FIRST);
        let label = self.label_place(parameter_at(self.records, m), node)?;
        let name = field(self.records, m, NAME);
        let hidden = bind(&mut state.scope, name, label);
        let r = self.infer(state, first, node + 1);
        unbind(&mut state.scope, name, hidden);
        let r = r?;
        Ok(make(&mut state.made, node, Connective::Impl, label, r))
    }

    // A pair: the conjunction of what its parts infer.
    #[cycle(check_infer)]
    fn infer_pair(&self, state: &mut State, m: usize, node: usize) -> Result<usize, usize>
        requires ready { JudgeableTerm self.now state.old m node }
        requires kind { OfKind self.now.records.now m Pair }
        ensures { InferredTerm self.now m node state.old state.new result }
    {
        let first = field(self.records, m, FIRST);
        let p = self.infer(state, first, node + 1)?;
        let second = field(self.records, m, SECOND);
        let next = self.after(first, node + 1);
        let q = self.infer(state, second, next)?;
        Ok(make(&mut state.made, node, Connective::And, p, q))
    }

    // A case: what both branches infer, each under its name for a side of the disjunction that the head infers.
    #[cycle(check_infer)]
    fn infer_case(&self, state: &mut State, m: usize, node: usize) -> Result<usize, usize>
        requires ready { JudgeableTerm self.now state.old m node }
        requires kind { OfKind self.now.records.now m Case }
        ensures { InferredTerm self.now m node state.old state.new result }
    {
        let first = field(self.records, m, FIRST);
        let inferred = self.infer(state, first, node + 1)?;
        let h = self
            .propositions(&state.made)
            .with_connective(inferred, Connective::Or, node)?;
        let second = field(self.records, m, SECOND);
        let next = self.after(first, node + 1);
        let last = self.after(second, next);
        let name = field(self.records, m, LEFT_NAME);
        let hidden = bind(&mut state.scope, name, h + 1);
        let q = self.infer(state, second, next);
        unbind(&mut state.scope, name, hidden);
        let q = q?;
        let third = field(self.records, m, THIRD);
        let side = known_end(self.code, h + 1, NAMES);
        let name = field(self.records, m, RIGHT_NAME);
        let hidden = bind(&mut state.scope, name, side);
        let r = self.infer(state, third, last);
        unbind(&mut state.scope, name, hidden);
        let r = r?;
        self.propositions(&state.made).agree(r, q, node)?;
        Ok(q)
    }
}
