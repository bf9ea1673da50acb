// Two propositions of a sheet compared up to the names of their bound objects, after `Prop::alpha_eq` of the Rust's prop.rs.
// Names are equal where their bytes are, the latest binding decides, and the first no ends the walk. Where the Rust panics, two
// atoms of one name with different parameter counts are a no, and two unbound parameters refusal 19.
#![tactic(auto)]

ghost use Rattle.std.specs.Prelude.{◌≡◌, ◌≤◌, ◌+◌, get_or, length};
ghost use Rattle.definitions.specs.Sheet.{marked};
ghost use Rattle.number.specs.Pairs.{NameWithin};
ghost use Rattle.prefix_code.specs.Scan.{proposition_coding, parameter_coding};
ghost use Rattle.alpha_eq.specs.Bindings.{numbers, Bound};
ghost use Rattle.alpha_eq.specs.Comparing.{of_sides, of_applied, of_scope, form_coding, several_coding, bound_alike_in, alpha_eq_parameter_in, alpha_eq_parameters_in, alpha_eq_atom_in, alpha_eq_under_in, alpha_eq_sides_in, alpha_eq_scope_in, ComparableIn, AnswersIn, TwoPropositions, Decides};
ghost use Rattle.sheet.specs.Checks.{outcome_of};

use definitions::{Reason, Refusal};
use identifier::same_bytes;
use number::{Marked, number_at};
use prefix_code::{Head, ParameterKind};

// What the walk over two codes answers: where both end if they are the same, nothing if they are not, or a refusal.
pub type Compared = Result<Option<(usize, usize)>, Refusal>;

// The objects of two quantifiers that bind each other, by the numbers of their names: the left proposition's and the right one's.
#[derive(Clone, Copy)]
pub struct BoundObjects {
    pub left: usize,
    pub right: usize,
}

// What the quantifiers above two propositions bind, the latest first: those of each lie in the frame of the walk that goes below its two
// quantifiers, so that it is there for as long as the walk is below them.
#[derive(Clone, Copy)]
pub enum Binders<'a> {
    Empty,
    Latest(BoundObjects, &'a Binders<'a>),
}

// The code of two propositions, with the names that it has by their numbers. What is asked and answered of it is
// one relation of a coding, and each function names its own coding in it.
#[derive(Clone, Copy)]
pub struct NamedCode<'a> {
    pub code: &'a [u8],
    pub names: Marked<'a>,
}

// Two uninstantiated parameters, by the latest binding that has either: 19 where there is none.
fn bound_alike(bindings: &Binders, names: Marked, x: usize, y: usize) -> Result<bool, Refusal>
    requires bound { Bound names.pairs.now names.bytes.now (numbers bindings.now) }
    requires name_within { NameWithin names.pairs.now names.bytes.now x × NameWithin names.pairs.now names.bytes.now y }
    ensures { outcome_of result ≡ bound_alike_in names.entry.pairs.now names.entry.bytes.now (numbers bindings.now) x y }
{
    let mut rest = bindings;
    while let Binders::Latest(objects, earlier) = rest {
        let binds_x = same_bytes(names, objects.left, x);
        let binds_y = same_bytes(names, objects.right, y);
        if binds_x || binds_y {
            return Ok(binds_x && binds_y);
        }
        rest = earlier;
    }
    Err(Reason::UnboundParameter.at(0))
}

impl NamedCode<'_> {
    // The parameters at i and j.
    fn parameter(&self, i: usize, j: usize, bindings: &Binders) -> Compared
        requires comparable { ComparableIn parameter_coding self.now i j bindings.now }
        requires inside { (i + 3 ≤ length self.now.code.now) × (j + 3 ≤ length self.now.code.now) }
        ensures { AnswersIn parameter_coding self.now i j alpha_eq_parameter_in bindings.now result }
    {
        let byte = self.code[i];
        if byte != self.code[j] {
            return Ok(None);
        }
        let x = number_at(self.code, i + 1);
        let y = number_at(self.code, j + 1);
        let kind = ParameterKind::of_known(byte);
        let size = kind.size();
        let ends = (i + size, j + size);
        match kind {
            ParameterKind::Uninstantiated => {
                let same = bound_alike(bindings, self.names, x, y)?;
                Ok(same.then_some(ends))
            }
            ParameterKind::Instantiated => {
                let same_object = same_bytes(self.names, x, y);
                let id = number_at(self.code, i + 3);
                let other_id = number_at(self.code, j + 3);
                Ok((same_object && id == other_id).then_some(ends))
            }
        }
    }

    // So many parameters from i and from j on, gone through by hand: the answer is where both lists end, as prefix_code::parameters_end
    // says.
    fn parameters(&self, i: usize, j: usize, count: usize, bindings: &Binders) -> Compared
        requires { ComparableIn (several_coding count) self.now i j bindings.now }
        ensures { AnswersIn (several_coding count) self.now i j alpha_eq_parameters_in bindings.now result }
    {
        let mut left = i;
        let mut right = j;
        for _ in 0..count {
            let next = self.parameter(left, right, bindings)?;
            let Some((left_end, right_end)) = next else {
                return Ok(None);
            };
            left = left_end;
            right = right_end;
        }
        Ok(Some((left, right)))
    }

    // Below, the numbers behind two heads of one byte are read by their offsets. A match on what prefix_code::shape_at hands out of both has
    // eighteen names for eight reads, and is longer than a function may be; cut into these three functions it hands on six numbers to two
    // of them and two to the third, in place of i and j, of which the contracts speak.

    // The atoms at i and j: names, then parameter counts, then parameters.
    fn atom(&self, i: usize, j: usize, bindings: &Binders) -> Compared
        requires comparable { ComparableIn (form_coding of_applied) self.now i j bindings.now }
        requires inside { (i + 4 ≤ length self.now.code.now) × (j + 4 ≤ length self.now.code.now) }
        ensures { AnswersIn (form_coding of_applied) self.now i j alpha_eq_atom_in bindings.now result }
    {
        let a = number_at(self.code, i + 1);
        let b = number_at(self.code, j + 1);
        let same_atom = same_bytes(self.names, a, b);
        let count = self.code[i + 3];
        let other_count = self.code[j + 3];
        if !same_atom || count != other_count {
            return Ok(None);
        }
        self.parameters(i + 4, j + 4, usize::from(count), bindings)
    }

    // The propositions of one connective at i and j: the left sides, and after a yes the right ones.
    #[cycle(scope_sides_under)]
    fn sides<'a>(&self, i: usize, j: usize, bindings: &'a Binders<'a>) -> Compared
        requires comparable { ComparableIn (form_coding of_sides) self.now i j bindings.now }
        requires same_front { get_or self.now.code.now i 0 ≡ get_or self.now.code.now j 0 }
        ensures { AnswersIn (form_coding of_sides) self.now i j alpha_eq_sides_in bindings.now result }
    {
        let left = self.under(i + 1, j + 1, bindings)?;
        let Some((i_end, j_end)) = left else {
            return Ok(None);
        };
        self.under(i_end, j_end, bindings)
    }

    // The propositions of one quantifier at i and j: datatypes, then the bodies with the objects bound to each other.
    #[cycle(scope_sides_under)]
    fn scope<'a>(&self, i: usize, j: usize, bindings: &'a Binders<'a>) -> Compared
        requires comparable { ComparableIn (form_coding of_scope) self.now i j bindings.now }
        requires same_front { get_or self.now.code.now i 0 ≡ get_or self.now.code.now j 0 }
        requires inside { (i + 5 ≤ length self.now.code.now) × (j + 5 ≤ length self.now.code.now) }
        ensures { AnswersIn (form_coding of_scope) self.now i j alpha_eq_scope_in bindings.now result }
    {
        let t = number_at(self.code, i + 3);
        let u = number_at(self.code, j + 3);
        if !same_bytes(self.names, t, u) {
            return Ok(None);
        }
        let objects = BoundObjects {
            left: number_at(self.code, i + 1),
            right: number_at(self.code, j + 1),
        };
        self.under(i + 5, j + 5, &Binders::Latest(objects, bindings))
    }

    // The propositions at i and j under some bindings, by the head that stands in front of both.
    #[cycle(scope_sides_under)]
    pub fn under<'a>(&self, i: usize, j: usize, bindings: &'a Binders<'a>) -> Compared
        requires { ComparableIn proposition_coding self.now i j bindings.now }
        ensures { AnswersIn proposition_coding self.now i j alpha_eq_under_in bindings.now result }
    {
        let front = self.code[i];
        if front != self.code[j] {
            return Ok(None);
        }
        match Head::of_known(front) {
            Head::True | Head::False => Ok(Some((i + 1, j + 1))),
            Head::Binary(_) => self.sides(i, j, bindings),
            Head::Atom => self.atom(i, j, bindings),
            Head::Quantified(_) => self.scope(i, j, bindings),
        }
    }
}

// Are the propositions at i and j the same up to the names of their bound objects?
pub fn alpha_eq(code: &[u8], i: usize, j: usize, names: Marked) -> Result<bool, Refusal>
    requires { TwoPropositions code.now i j names.pairs.now names.bytes.now }
    ensures { Decides code.now i j (marked names.entry.pairs.now names.entry.bytes.now) result }
{
    let named = NamedCode { code, names };
    let ends = named.under(i, j, &Binders::Empty)?;
    Ok(ends.is_some())
}
