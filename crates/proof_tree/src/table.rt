// Document 01's table of places and labels, with the term that each rule has in source document 000.
ghost use Rattle.std.specs.Prelude.{◌<◌, ◌≡◌, length, get_or};
ghost use Rattle.definitions.specs.Tree.{ProofTreeRule, rules, Sorry};
ghost use Rattle.definitions.specs.Export.{admits_count};
ghost use Rattle.proof_tree.specs.Table.{mode_of, premiss_mode, TableRow};

use Ending::{Ascribed, Bare, DatatypeLabelled, LeftLabelled, PremissOwn};
use ReasoningMode::{Checking, Inferring};
use RuleTerm::{
    Abort, Application, Case, Function, Ident, LetIn, OrLeft, OrRight, Pair, Premiss, ProjectFst,
    ProjectSnd, Sorry, Unit,
};

// Whether a term is checked or inferred: document 01's places, by the Rust's name.
#[derive(Clone, Copy)]
pub enum ReasoningMode {
    Checking,
    Inferring,
}

// What becomes of a step's term in inferring mode.
#[derive(Clone, Copy)]
pub enum Ending {
    Bare,
    Ascribed,
    LeftLabelled,
    DatatypeLabelled,
    PremissOwn,
}

// The term that a rule has over those of its premisses; `Premiss` is the first one's own. It is no `Option<Kind>`: no rule makes an
// ascription, so `node_over` would have an arm for one, and no label to give it.
#[derive(Clone, Copy)]
pub enum RuleTerm {
    Pair,
    ProjectFst,
    ProjectSnd,
    Unit,
    Function,
    Application,
    Ident,
    OrLeft,
    OrRight,
    Case,
    Abort,
    LetIn,
    Sorry,
    Premiss,
}

// A row of the table: the modes of the premisses that are read, which are as many as there must be, none for the step's own; the most
// that there may be; what becomes of the step's term; the term.
#[derive(Clone, Copy)]
pub struct Row {
    pub modes: &'static [Option<ReasoningMode>],
    pub most: u8,
    pub ending: Ending,
    pub term: RuleTerm,
}

// A row on one line of the table: the value of a static calls no function.
macro_rules! row {
    ($modes:expr, $most:expr, $ending:expr, $term:expr) => {
        Row {
            modes: $modes,
            most: $most,
            ending: $ending,
            term: $term,
        }
    };
}

// A row for each rule, in the order of their bytes, so that a rule's byte, which the steps have, is its place. A look reads one row of
// the static, which no frame of the walk holds.
static ROWS: [Row; 17] = [
    row!(&[None, None], 2, Bare, Pair), // AndIntro
    row!(&[Some(Inferring)], 1, Bare, ProjectFst), // AndElimFst
    row!(&[Some(Inferring)], 1, Bare, ProjectSnd), // AndElimSnd
    row!(&[], u8::MAX, Bare, Unit), // TrueIntro
    row!(&[None], 1, LeftLabelled, Function), // ImplIntro
    row!(&[Some(Inferring), Some(Checking)], 2, Bare, Application), // ImplElim
    row!(&[], u8::MAX, Bare, Ident), // Ident
    row!(&[Some(Checking)], 1, Ascribed, OrLeft), // OrIntroFst
    row!(&[Some(Checking)], 1, Ascribed, OrRight), // OrIntroSnd
    row!(&[Some(Inferring), None, None], 3, Bare, Case), // OrElim
    row!(&[Some(Checking)], 1, Ascribed, Abort), // FalsumElim
    row!(&[None], 1, DatatypeLabelled, Function), // ForAllIntro
    row!(&[Some(Inferring), Some(Checking)], 2, Bare, Application), // ForAllElim
    row!(&[Some(Checking), Some(Checking)], 2, Ascribed, Pair), // ExistsIntro
    row!(&[Some(Inferring), None], 2, Bare, LetIn), // ExistsElim
    row!(&[], u8::MAX, Ascribed, Sorry), // Sorry
    row!(&[None], u8::MAX, PremissOwn, Premiss), // AlphaEquivalent
];

// The row of the rule of a byte.
#[tactic(auto, unfolding(definitions::specs::Tree::rules))]
pub fn row_of(rule: u8) -> Row
    requires { rule < length rules }
    ensures { TableRow (get_or rules rule Sorry) result }
{
    ROWS[rule as usize]
}

impl Row {
    // Does a step of the row's rule have so many premisses?
    pub fn admits_count(self, count: u8) -> bool
        ensures { (rule : ProofTreeRule) → TableRow rule self → result ≡ admits_count rule count }
    {
        let fewest = self.modes.len();
        fewest <= count as usize && count <= self.most
    }
}
