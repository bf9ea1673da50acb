// A proposition's prefix code: where it ends, whether it is one, and whether it nests too deep.
#![tactic(auto)]

ghost use Rattle.std.specs.Prelude.{◌≡◌, ℕ, ◌≤◌, ◌<◌, false, not, length, ltb, get_or, MatchOption, unwrap_or};
ghost use Rattle.definitions.specs.Prop.{False, nesting, connective_byte, quantifier_byte};
ghost use Rattle.definitions.specs.Display.{connective_precedence, wraps_left, wraps_right, connective_text, quantifier_text};
ghost use Rattle.definitions.specs.TermReader.{right_least};
ghost use Rattle.definitions.specs.Code.{decode};
ghost use Rattle.definitions.specs.Admission.{is_none};
ghost use Rattle.prefix_code.specs.Scan.{Starts, Ends, EndIfAny, Scanned, proposition_coding, parameter_coding, parameters_coding, shallow_coding};
ghost use Rattle.prefix_code.specs.Head.{head_coding, parts_after};
ghost use Rattle.prefix_code.specs.PropAt.{Present};
ghost use Rattle.prefix_code.specs.Shape.{SomeProposition, kind_byte, kind_size, meant, quantifier_meant, head_byte, ShapeOf};

// An atom has at most so many parameters.
pub const PARAMETER_LIMIT: u8 = 8;

// A proposition nests at most so deep.
pub const NESTING_LIMIT: usize = 64;

// All propositions of a sheet, and one of a label, take at most so many bytes.
pub const CODE_LIMIT: usize = 8192;

// The bytes in front, each read as a `Head`. Other crates write those of ⊤, ⊥ and atoms by these names; a connective and a quantifier
// give theirs by `byte`, so that the names of those serve `Head::of_byte` alone, whose patterns cannot call it.
pub const TRUE: u8 = 0;

pub const FALSE: u8 = 1;

const AND: u8 = Connective::And as u8;

const OR: u8 = Connective::Or as u8;

const IMPL: u8 = Connective::Impl as u8;

pub const ATOM: u8 = 5;

const FOR_ALL: u8 = Quantifier::ForAll as u8;

const EXISTS: u8 = Quantifier::Exists as u8;

// Code, a place in it and the count of its names stand loose: the place moves from call to call, and of a struct of the other two nearly
// each use, here and in the crates above, would read `code.bytes`, for the count is only asked for where a number of a name has to be below
// it, and `shape_at`, which looks for no end, has none. What a function promises of an end is one relation of its own
// coding, as `EndIfAny (head_coding names) code.now at result`.

// A parameter that a quantifier binds, and one with an id, each by the byte in front of its name.
#[derive(Debug, Clone, Copy, PartialEq, Eq)]
pub enum ParameterKind {
    Uninstantiated = 0,
    Instantiated = 1,
}

impl ParameterKind {
    // The kind of a byte in front. A byte fails to be one in one way, so the error of a TryFrom would say no more than None.
    pub fn of_byte(b: u8) -> Option<ParameterKind>
        ensures { MatchOption result (2 ≤ b) (λ k. b ≡ kind_byte k) }
    {
        match b {
            0 => Some(ParameterKind::Uninstantiated),
            1 => Some(ParameterKind::Instantiated),
            _ => None,
        }
    }

    // The kind of a byte that stands in front of a parameter.
    pub fn of_known(b: u8) -> ParameterKind
        requires { b < 2 }
        ensures { b ≡ kind_byte result }
    {
        ParameterKind::of_byte(b).unwrap()
    }

    // Its byte in front.
    pub fn byte(self) -> u8
        ensures { result ≡ kind_byte self }
    {
        self as u8
    }

    // How many bytes a parameter of it has. Its name stands 1 and its id 3 bytes behind its start. Who reads them writes the two offsets: of
    // a view with both, prop::put_atom would use the name alone, and are_instantiated of checkable neither.
    pub fn size(self) -> usize
        ensures { result ≡ kind_size self }
    {
        match self {
            ParameterKind::Uninstantiated => 3,
            ParameterKind::Instantiated => 5,
        }
    }
}

// Where the parameter at `at` ends, if one stands there.
pub fn parameter_end(code: &[u8], at: usize, names: usize) -> Option<usize>
    requires { at ≤ length code.now }
    ensures { EndIfAny (parameter_coding names) code.now at result }
{
    if code.len() - at < 3 {
        return None;
    }
    if names <= number::number_at(code, at + 1) {
        return None;
    }
    let size = ParameterKind::of_byte(code[at])?.size();
    if code.len() - at < size {
        return None;
    }
    Some(at + size)
}

// Where so many parameters from `at` on end, if so many stand there. The place moves by hand here and in three crates above: an iterator
// over parameters could serve prop::put_atom and renumbering's put_parameters alone, since here the bytes may be no parameters, and
// alpha_eq answers where both lists end, which the parameters that an iterator hands out do not say.
pub fn parameters_end(code: &[u8], at: usize, count: usize, names: usize) -> Option<usize>
    requires { at ≤ length code.now }
    ensures { EndIfAny (parameters_coding names count) code.now at result }
{
    let mut i = at;
    for _ in 0..count {
        i = parameter_end(code, i, names)?;
    }
    Some(i)
}

// Where the atom at `at` ends with its parameters, if one stands there.
#[tactic(auto, unfolding(definitions::specs::Code::parameter_limit))]
fn atom_end(code: &[u8], at: usize, names: usize) -> Option<usize>
    requires { (at < length code.now) × (get_or code.now at 0 ≡ 5) }
    ensures { EndIfAny (head_coding names) code.now at result }
{
    if code.len() - at < 4 {
        return None;
    }
    if names <= number::number_at(code, at + 1) {
        return None;
    }
    let count = code[at + 3];
    if PARAMETER_LIMIT < count {
        return None;
    }
    parameters_end(code, at + 4, count as usize, names)
}

// Where the quantifier at `at` ends with its object and its datatype, if one stands there.
fn quantifier_end(code: &[u8], at: usize, names: usize) -> Option<usize>
    requires { (at < length code.now) × (5 < get_or code.now at 0) × (get_or code.now at 0 < 8) }
    ensures { EndIfAny (head_coding names) code.now at result }
{
    if code.len() - at < 5 {
        return None;
    }
    if names <= number::number_at(code, at + 1) {
        return None;
    }
    if names <= number::number_at(code, at + 3) {
        return None;
    }
    Some(at + 5)
}

// Where the head at `at` ends, if one stands there.
pub fn head_end(code: &[u8], at: usize, names: usize) -> Option<usize>
    requires { at ≤ length code.now }
    ensures { EndIfAny (head_coding names) code.now at result }
{
    match Head::of_byte(*code.get(at)?)? {
        Head::Atom => atom_end(code, at, names),
        Head::Quantified(_) => quantifier_end(code, at, names),
        Head::True | Head::False | Head::Binary(_) => Some(at + 1),
    }
}

// Where the head that stands at `at` ends.
pub fn known_head_end(code: &[u8], at: usize, names: usize) -> usize
    requires { Starts (head_coding names) code.now at }
    ensures { Ends (head_coding names) code.now at result }
{
    head_end(code, at, names).unwrap()
}

// Where the proposition at `at` ends, if one stands there. How many are still needed grows on the way, so no range counts the turns.
pub fn scan(code: &[u8], at: usize, names: usize) -> Option<usize>
    requires { at ≤ length code.now }
    ensures { EndIfAny (proposition_coding names) code.now at result }
{
    let mut i = at;
    let mut needed: usize = 1;
    while 0 < needed {
        let end = head_end(code, i, names)?;
        needed = needed - 1 + Head::of_known(code[i]).parts();
        i = end;
    }
    Some(i)
}

// Where the proposition that stands at `at` ends.
pub fn known_end(code: &[u8], at: usize, names: usize) -> usize
    requires { Present names code.now at }
    ensures { Scanned names code.now at result }
{
    scan(code, at, names).unwrap()
}

// Where the proposition at `at` ends, if one stands there that nests at most so deep.
fn shallow_end(code: &[u8], at: usize, names: usize, depth: usize) -> Option<usize>
    requires { at ≤ length code.now }
    ensures { EndIfAny (shallow_coding names depth) code.now at result }
{
    if depth == 0 {
        return None;
    }
    let mut i = head_end(code, at, names)?;
    for _ in 0..Head::of_known(code[at]).parts() {
        i = shallow_end(code, i, names, depth - 1)?;
    }
    Some(i)
}

// Is it exactly one proposition over its whole length, with names below `names`? If not, that is refusal 7.
pub fn is_code(code: &[u8], names: usize) -> bool
    ensures { result ≡ not (is_none (decode names code.now)) }
{
    scan(code, 0, names) == Some(code.len())
}

// Does the proposition nest deeper than a limit? With that of a sheet, this is refusal 8. Each level but the innermost takes at
// least two bytes, so short code nests no deeper.
pub fn is_deep(code: &[u8], names: usize, limit: usize) -> bool
    requires { is_none (decode names code.now) ≡ false }
    ensures { result ≡ ltb limit (nesting (unwrap_or (decode names code.now) False)) }
{
    if code.len() / 2 < limit {
        return false;
    }
    shallow_end(code, 0, names, limit).is_none()
}

// How strongly ⊤, ⊥, atoms and negations bind.
pub const STRONGEST: usize = 999;

// How strongly quantified propositions bind.
pub const WEAKEST: usize = 1;

// ∧, ∨ and ⊃, each with its byte in front.
#[derive(Debug, Clone, Copy, PartialEq, Eq)]
pub enum Connective {
    And = 2,
    Or = 3,
    Impl = 4,
}

impl Connective {
    // Its byte in front.
    #[tactic(auto, unfolding(definitions::specs::Prop::connective_byte))]
    pub fn byte(self) -> u8
        ensures { result ≡ connective_byte (meant self) }
    {
        self as u8
    }

    // Its text, with a blank on each side.
    #[tactic(auto, unfolding(definitions::specs::Display::connective_text))]
    pub fn text(self) -> &'static [u8]
        ensures { result.now ≡ connective_text (meant self) }
    {
        match self {
            Connective::And => b" \xE2\x88\xA7 ", // ∧
            Connective::Or => b" \xE2\x88\xA8 ", // ∨
            Connective::Impl => b" \xE2\x8A\x83 ", // ⊃
        }
    }

    // How strongly it binds.
    #[tactic(auto, unfolding(definitions::specs::Display::connective_precedence))]
    pub fn strength(self) -> usize
        ensures { result ≡ connective_precedence (meant self) }
    {
        match self {
            Connective::And => 4,
            Connective::Or => 3,
            Connective::Impl => 2,
        }
    }

    // How strongly its left side must bind to stand without brackets: ∧ and ∨ associate to the left, ⊃ to the right.
    #[tactic(auto, unfolding(definitions::specs::Display::wraps_left))]
    pub fn left_least(self) -> usize
        ensures { (strength : ℕ) → ltb strength result ≡ wraps_left (meant self) strength }
    {
        match self {
            Connective::And => 4,
            Connective::Or | Connective::Impl => 3,
        }
    }

    // The same for its right side.
    #[tactic(auto, unfolding(definitions::specs::TermReader::right_least, definitions::specs::Display::wraps_right))]
    pub fn right_least(self) -> usize
        ensures is { result ≡ right_least (meant self) }
        ensures wraps { (strength : ℕ) → ltb strength result ≡ wraps_right (meant self) strength }
    {
        match self {
            Connective::And => 5,
            Connective::Or => 4,
            Connective::Impl => 2,
        }
    }

    // Whether a left side that binds so strongly is bracketed.
    pub fn wraps_left(self, strength: usize) -> bool
        ensures { result ≡ wraps_left (meant self) strength }
    {
        strength < self.left_least()
    }

    // Whether a right side that binds so strongly is bracketed.
    pub fn wraps_right(self, strength: usize) -> bool
        ensures { result ≡ wraps_right (meant self) strength }
    {
        strength < self.right_least()
    }
}

// ∀ and ∃, each with its byte in front.
#[derive(Debug, Clone, Copy, PartialEq, Eq)]
pub enum Quantifier {
    ForAll = 6,
    Exists = 7,
}

impl Quantifier {
    // Its byte in front.
    #[tactic(auto, unfolding(definitions::specs::Prop::quantifier_byte))]
    pub fn byte(self) -> u8
        ensures { result ≡ quantifier_byte (quantifier_meant self) }
    {
        self as u8
    }

    // Its sign.
    #[tactic(auto, unfolding(definitions::specs::Display::quantifier_text))]
    pub fn sign(self) -> &'static [u8]
        ensures { result.now ≡ quantifier_text (quantifier_meant self) }
    {
        match self {
            Quantifier::ForAll => b"\xE2\x88\x80", // ∀
            Quantifier::Exists => b"\xE2\x88\x83", // ∃
        }
    }
}

// What stands in front of a proposition's code.
#[derive(Debug, Clone, Copy, PartialEq, Eq)]
pub enum Head {
    True,
    False,
    Binary(Connective),
    Atom,
    Quantified(Quantifier),
}

impl Head {
    // The head of a byte in front. A byte fails to be one in one way, so the error of a TryFrom would say no more than None.
    #[tactic(auto, unfolding(definitions::specs::Prop::connective_byte, definitions::specs::Prop::quantifier_byte))]
    pub fn of_byte(b: u8) -> Option<Head>
        ensures { MatchOption result (8 ≤ b) (λ h. b ≡ head_byte h) }
    {
        match b {
            TRUE => Some(Head::True),
            FALSE => Some(Head::False),
            AND => Some(Head::Binary(Connective::And)),
            OR => Some(Head::Binary(Connective::Or)),
            IMPL => Some(Head::Binary(Connective::Impl)),
            ATOM => Some(Head::Atom),
            FOR_ALL => Some(Head::Quantified(Quantifier::ForAll)),
            EXISTS => Some(Head::Quantified(Quantifier::Exists)),
            _ => None,
        }
    }

    // The head of a byte that stands in front of a proposition.
    pub fn of_known(b: u8) -> Head
        requires { b < 8 }
        ensures { b ≡ head_byte result }
    {
        Head::of_byte(b).unwrap()
    }

    // How many propositions follow it.
    #[tactic(auto, using(crate::proofs::Heads::connective_byte_lem, crate::proofs::Heads::quantifier_byte_lem), unfolding(crate::specs::Head::parts_after))]
    pub fn parts(self) -> usize
        ensures { result ≡ parts_after (head_byte self) }
    {
        match self {
            Head::Binary(_) => 2,
            Head::Quantified(_) => 1,
            Head::True | Head::False | Head::Atom => 0,
        }
    }
}

// What the proposition at a position is: its form, the numbers that stand behind its byte in front, and where its first part or its
// parameters begin.
#[derive(Drop)]
pub enum Shape {
    True,
    False,
    Binary {
        connective: Connective,
        left: usize,
    },
    Atom {
        name: usize,
        count: u8,
        parameters: usize,
    },
    Quantified {
        quantifier: Quantifier,
        object: usize,
        datatype: usize,
        body: usize,
    },
}

// The shape of the proposition at `at`.
pub fn shape_at(code: &[u8], at: usize) -> Shape
    requires { SomeProposition code.now at }
    ensures { (names : ℕ) → Present names code.now at → ShapeOf names code.now at result }
{
    match Head::of_known(code[at]) {
        Head::True => Shape::True,
        Head::False => Shape::False,
        Head::Binary(connective) => Shape::Binary {
            connective,
            left: at + 1,
        },
        Head::Atom => Shape::Atom {
            name: number::number_at(code, at + 1),
            count: code[at + 3],
            parameters: at + 4,
        },
        Head::Quantified(quantifier) => Shape::Quantified {
            quantifier,
            object: number::number_at(code, at + 1),
            datatype: number::number_at(code, at + 3),
            body: at + 5,
        },
    }
}
