// Propositions as numbers: the offset of a code that stands, or past all code the node that made it of two others. Names are numbers
// that are equal where their bytes are, so two propositions that stand are equal where their code bytes are.
#![tactic(auto)]

ghost use Rattle.std.specs.Prelude.{◌≡◌, ℕ, ◌+◌, ◌≤◌, ◌<◌, length, Ok};
ghost use Rattle.definitions.specs.Name.{Name};
ghost use Rattle.definitions.specs.Prop.{rename_prop};
ghost use Rattle.definitions.specs.Equal.{eq_prop};
ghost use Rattle.prefix_code.specs.PropAt.{prop_at, Present};
ghost use Rattle.prop_numbers.specs.Standing.{standing, node_limit, number_limit, name_space, Space, connective_of, left_of, RightOf, slotted};
ghost use Rattle.prop_numbers.specs.Standing.{Known, Stood, Distinct};
ghost use Rattle.prop_numbers.specs.Answering.{Alike, Agreed, SideOf, Expected, FirstSide, Projected};

use prefix_code::{CODE_LIMIT, Connective, Head, known_end, scan};
use proof_term::NODE_LIMIT;
use vocabulary::NAME_LIMIT;

// The labels of a term that is read beside a sheet have so many bytes of code at most: a label's number has 16 bits and counts pairs of
// bytes.
const LABEL_CODE_LIMIT: usize = 2 * (u16::MAX as usize + 1);

// ⊤ and ⊥ have a byte of code each.
const CONSTANTS: usize = 2;

// A proposition is the offset of its code, or past all code the number of a made one, a connective and two propositions. The code is a
// sheet's, the labels of a term read beside it, and last ⊤ and ⊥.
pub const STANDING: usize = CODE_LIMIT + LABEL_CODE_LIMIT + CONSTANTS;

// Each node of a term may make one proposition, in the slot of its number: its connective, none where nothing is made, and the numbers
// of its sides. The connective alone is an Option: `left` and `right` may be asked of every slot, and of one that made nothing each would
// have to say again what an Option of the whole leaves out.
#[derive(Clone, Copy, Default)]
pub struct Made {
    connective: Option<Connective>,
    left: u32,
    right: u32,
}

// All name numbers are below this: a sheet's, and then as many of a term read beside it.
pub const NAMES: usize = 2 * NAME_LIMIT;

// The propositions that have numbers: those that stand in the code, and those that the nodes of a term made. How long both are is a clause
// and no ghost field: the checker, which changes the slots, would prove it of each struct that it lends, beside `Space` or `Known`.
#[derive(Clone, Copy)]
pub struct Propositions<'a> {
    pub code: &'a [u8],
    pub made: &'a [Made; NODE_LIMIT],
}

impl Propositions<'_> {
    // The connective of a proposition, if it is binary.
    #[tactic(auto, using(crate::proofs::Fronts::past_front), unfolding(crate::specs::Standing::connective_of))]
    fn connective(&self, p: usize) -> Option<Connective>
        requires { Space self.now.code.now self.now.made.now p }
        ensures { result ≡ connective_of self.now.code.now self.now.made.now p }
    {
        if p < STANDING {
            return match Head::of_byte(self.code[p])? {
                Head::Binary(connective) => Some(connective),
                _ => None,
            };
        }
        self.made[p - STANDING].connective
    }

    // The left side of a binary proposition.
    #[tactic(auto, unfolding(crate::specs::Standing::left_of))]
    pub fn left(&self, p: usize) -> usize
        requires { p < number_limit }
        ensures { result ≡ left_of self.now.made.now p }
    {
        if p < STANDING {
            return p + 1;
        }
        self.made[p - STANDING].left as usize
    }

    // The right side. It may be asked of any number that can be looked up, and answers each, so no Option: where no proposition stands behind
    // the byte at p, a position past the end of the code.
    #[tactic(auto, unfolding(crate::specs::Standing::right_of))]
    pub fn right(&self, p: usize) -> usize
        requires { Space self.now.code.now self.now.made.now p }
        ensures { RightOf self.now.code.now self.now.made.now p result }
    {
        if p < STANDING {
            return scan(self.code, p + 1, NAMES).unwrap_or(self.code.len() + 1);
        }
        self.made[p - STANDING].right as usize
    }

    // Whether two propositions are equal. Where one of them is made, both are binary or they differ.
    fn same(&self, p: usize, q: usize) -> bool
        requires code_len_bound { (length self.now.code.now ≤ standing) × (length self.now.made.now ≡ node_limit) }
        requires known { Known self.now.code.now self.now.made.now p × Known self.now.code.now self.now.made.now q }
        ensures { Alike self.now.code.now self.now.made.now p q result }
    {
        if p < STANDING && q < STANDING {
            return same_code(self.code, p, q);
        }
        if self.connective(p) != self.connective(q) {
            return false;
        }
        let left_same = self.same(self.left(p), self.left(q));
        if !left_same {
            return false;
        }
        self.same(self.right(p), self.right(q))
    }

    // Whether two propositions are equal; else the node.
    pub fn agree(&self, p: usize, q: usize, node: usize) -> Result<(), usize>
        requires code_len_bound { (length self.now.code.now ≤ standing) × (length self.now.made.now ≡ node_limit) }
        requires known { Known self.now.code.now self.now.made.now p × Known self.now.code.now self.now.made.now q }
        ensures { Agreed self.now.code.now self.now.made.now p q node result }
    {
        if self.same(p, q) {
            return Ok(());
        }
        Err(node)
    }

    // The proposition, if it has that connective; else the node.
    pub fn with_connective(
        &self,
        p: usize,
        connective: Connective,
        node: usize,
    ) -> Result<usize, usize>
        requires { Space self.now.code.now self.now.made.now p }
        ensures { Expected self.now.code.now self.now.made.now p connective node result }
    {
        if self.connective(p) == Some(connective) {
            return Ok(p);
        }
        Err(node)
    }

    // The side of a conjunction, as the closure finds it; else the node.
    fn project<F: Fn(usize) -> usize>(&self, p: usize, node: usize, side: F) -> Result<usize, usize>
        requires given { Space self.now.code.now self.now.made.now p }
        requires side { F.pre side p }
        ensures { Projected self.now.code.now self.now.made.now p (F.post side) node result }
    {
        self.with_connective(p, Connective::And, node).map(side)
    }

    // The first side of a conjunction, or the node.
    pub fn first_side(&self, p: usize, node: usize) -> Result<usize, usize>
        requires { Space self.now.code.now self.now.made.now p }
        ensures { Projected self.now.code.now self.now.made.now p (FirstSide self.now.made.now) node result }
    {
        self.project(p, node, |whole| self.left(whole))
    }

    // The second side.
    pub fn second_side(&self, p: usize, node: usize) -> Result<usize, usize>
        requires { Space self.now.code.now self.now.made.now p }
        ensures { Projected self.now.code.now self.now.made.now p
            (RightOf self.now.code.now self.now.made.now) node result }
    {
        self.project(p, node, |whole| self.right(whole))
    }
}

// Whether the codes at i and j are of one proposition.
pub fn same_code(code: &[u8], i: usize, j: usize) -> bool
    requires { Present name_space code.now i × Present name_space code.now j }
    ensures { (f : ℕ → Name) → Distinct f → result ≡ eq_prop (rename_prop f (prop_at name_space code.now i))
        (rename_prop f (prop_at name_space code.now j)) }
{
    let i_end = known_end(code, i, NAMES);
    let j_end = known_end(code, j, NAMES);
    code[i..i_end] == code[j..j_end]
}

// The right side of the proposition that stands at p, if it has that connective; else the node.
pub fn side_of(code: &[u8], p: usize, connective: Connective, node: usize) -> Result<usize, usize>
    requires { Stood code.now p × (length code.now ≤ standing) }
    ensures { SideOf code.now p connective node result }
{
    if code[p] == connective.byte() {
        return Ok(known_end(code, p + 1, NAMES));
    }
    Err(node)
}

// Makes a proposition of two in the node's slot, and gives its number.
#[tactic(auto, unfolding(crate::specs::Standing::slotted))]
pub fn make(
    made: &mut [Made; NODE_LIMIT],
    node: usize,
    connective: Connective,
    left: usize,
    right: usize,
) -> usize
    requires { (node < node_limit) × (left < number_limit) × (right < number_limit) }
    ensures number { result ≡ standing + node }
    ensures slot { made.new ≡ slotted made.old node connective left right }
{
    made[node] = Made {
        connective: Some(connective),
        left: left as u32,
        right: right as u32,
    };
    STANDING + node
}
