// The memory of the reader of terms: the records of what was read, a stack of entries for what is not finished, and the term in hand,
// whose record is the last.
#![tactic(auto)]

ghost use Rattle.std.specs.Prelude.{◌≡◌, true, false, ◌+◌, ◌-◌, ◌<◌, ◌≤◌, max, leb, MatchOption};
ghost use Rattle.definitions.specs.TermReader.{same};
ghost use Rattle.proof_term.specs.Forms.{rank};
ghost use Rattle.term_stack.specs.Growing.{named_node, node_row, Unmade, MadeOf, Entered};
ghost use Rattle.term_stack.specs.Standing.{Scene, ThereIs, Roomy};
ghost use Rattle.term_stack.specs.Using.{Builds, Using, Leaf, Gives, Refuses, Turned, left_after};

use proof_term::{Form, Label, NODE_LIMIT, Node, RECORD_SIZE, push};
use words::NamedFunction;

// How far the reading is: in the text, in the entries, the records and the labels' code.
#[derive(Clone, Copy, Default)]
pub struct Progress {
    pub at: usize,
    pub depth: usize,
    pub used: usize,
    pub to: usize,
}

// The term in hand: its form, whether it stands in brackets of its own, how deep it nests and how many labels it has.
#[derive(Clone, Copy)]
pub struct Hand {
    pub form: Form,
    pub own: bool,
    pub nest: usize,
    pub tally: usize,
}

// Where the reading stands: before a term, behind a term to which more may belong, or behind a whole term.
#[derive(Clone, Copy)]
pub enum State {
    Reading(Progress),
    Holding(Progress, Hand),
    Giving(Progress, Hand),
}

// A term that waits for another: its record, how deep it nests and how many labels it has.
#[derive(Clone, Copy)]
pub struct Part {
    pub root: u16,
    pub nest: u16,
    pub tally: u16,
}

// What a closed term is read for: the head of a term, an argument of a function, or the body of a named function.
#[derive(Clone, Copy)]
pub enum Purpose {
    Head,
    Argument(Part),
    Body(NamedFunction),
}

// What waits for a term: the parts of a case, the first term after a bracket, the second part of a pair, and the parts of a function and
// a let, with the terms, the labels and the numbers of the names that were read before. The head of a case comes first, whose bytes are
// zeros: so a memory of it alone is zeroed where it lies, and no array is copied into it. A part of a case and the name behind it are no
// one value: the name is that of the branch that is read next.
#[derive(Clone, Copy)]
pub enum Entry {
    CaseHead,
    CaseFirst(Part, u16),
    CaseSecond(Part, u16, Part, u16),
    Bracket(Purpose),
    Second(Purpose, Part),
    FunctionBody { name: u16, label: Option<Label> },
    LetHead(u16, u16),
    LetBody(u16, u16, Part),
}

// A term nests at most so deep.
const NESTING_LIMIT: usize = 512;

// The most entries that a term within the limits needs: two levels of it take three entries, and the innermost leaves one less.
const ENTRY_LIMIT: usize = 3 * NESTING_LIMIT / 2 - 1;

// From which form on a part is bracketed in strict text.
pub const CLOSED_ONLY: Form = Form::Call;

pub const NO_FUNCTION: Form = Form::Function;

pub const NO_ASCRIPTION: Form = Form::Ascription;

impl Hand {
    // Goes on where the brackets of the term in hand are those that are due where forms are bracketed from `least` on.
    #[tactic(auto, using(reading_laws::proofs::PropTexts::same_is), unfolding(proof_term::specs::Forms::rank))]
    pub fn due(self, least: Form) -> Option<()>
        ensures { MatchOption result (same self.own (leb (rank least) (rank self.form)) ≡ false)
            (λ u. same self.own (leb (rank least) (rank self.form)) ≡ true) }
    {
        (self.own == (least <= self.form)).then_some(())
    }

    // The term in hand as one that waits for another.
    pub fn waiting(self, s: Progress) -> Part
        requires { (0 < s.used) × (s.used ≤ 2048) × (self.nest ≤ 512) × (self.tally ≤ 4098) }
        ensures { result ≡ record { root = s.used - 1; nest = self.nest; tally = self.tally } }
    {
        Part {
            root: (s.used - 1) as u16,
            nest: self.nest as u16,
            tally: self.tally as u16,
        }
    }

    // A term of this form over the term in hand and others, which nest so deep and have so many labels with its own.
    pub fn over(form: Form, nest: usize, tally: usize, hand: Hand) -> Hand
        requires { (nest < 65536) × (tally < 131072) × (hand.nest ≤ 512) × (hand.tally ≤ 4098) }
        ensures { result ≡ record { form = form; own = false; nest = max nest hand.nest + 1; tally = tally + hand.tally } }
    {
        Hand {
            form,
            own: false,
            nest: nest.max(hand.nest) + 1,
            tally: tally + hand.tally,
        }
    }

    // A term of this form over a part that waited and the term in hand.
    pub fn over_part(form: Form, part: Part, hand: Hand) -> Hand
        requires { (hand.nest ≤ 512) × (hand.tally ≤ 4098) }
        ensures { result ≡ record { form = form; own = false; nest = max part.nest hand.nest + 1; tally = part.tally + hand.tally } }
    {
        Self::over(form, usize::from(part.nest), usize::from(part.tally), hand)
    }
}

// The node of a named function over the record of its body.
#[tactic(auto, unfolding(crate::specs::Growing::named_node))]
fn named(function: NamedFunction, body: u16) -> Node
    ensures { result ≡ named_node function body }
{
    match function {
        NamedFunction::Fst => Node::ProjectFst { body },
        NamedFunction::Snd => Node::ProjectSnd { body },
        NamedFunction::Inl => Node::OrLeft { body },
        NamedFunction::Inr => Node::OrRight { body },
        NamedFunction::Abort => Node::Abort { body },
    }
}

// The memory of a reading.
#[derive(Drop)]
pub struct Work {
    pub records: [u16; RECORD_SIZE * NODE_LIMIT],
    pub entries: [Entry; ENTRY_LIMIT],
}

impl Work {
    // A memory of which nothing is read.
    pub fn new() -> Work
        ensures { Roomy result }
    {
        Work {
            records: [0; RECORD_SIZE * NODE_LIMIT],
            entries: [Entry::CaseHead; ENTRY_LIMIT],
        }
    }

    // Memory and progress are two parameters: each turn hands on a `State`, which has the progress in it, so a struct of both would be taken
    // apart and put together at each turn. Progress and the term in hand are two as well: `enter` takes the one, `due` and `over` the other,
    // and `make` the progress before a term with the term that is in hand behind it.

    // Makes the record of a node, whose term is in hand then, if no limit is passed.
    #[tactic(auto, unfolding(crate::specs::Growing::node_row, definitions::specs::TermMemory::seven))]
    pub fn make(&mut self, s: Progress, node: Node, hand: Hand) -> Option<Progress>
        requires { hand.tally < 65536 }
        ensures { MatchOption result (Unmade s.used hand.nest)
            (MadeOf s (node_row node hand.tally) hand self.old self.new) }
    {
        if NODE_LIMIT <= s.used || NESTING_LIMIT < hand.nest {
            return None;
        }
        let used = push(&mut self.records, s.used, node, hand.tally as u16);
        Some(Progress { used, ..s })
    }

    // Puts an entry on the stack, if there are not more than a term within the limits needs; a term is to be read then.
    pub fn enter(&mut self, s: Progress, entry: Entry) -> Option<State>
        ensures { MatchOption result (767 ≤ s.depth) (Entered s entry self.old self.new) }
    {
        if ENTRY_LIMIT <= s.depth {
            return None;
        }
        self.entries[s.depth] = entry;
        Some(State::Reading(Progress {
            depth: s.depth + 1,
            ..s
        }))
    }

    // Makes the record of a term over the term in hand, which is bracketed where forms are from `least` on: the whole term is held then.
    fn build(
        &mut self,
        s: Progress,
        hand: Hand,
        least: Form,
        node: Node,
        whole: Hand,
    ) -> Option<State>
        requires { ThereIs (λ (z : Scene). Builds least z self.old s hand (node_row node whole.tally) whole) }
        ensures { (z : Scene) → Builds least z self.old s hand (node_row node whole.tally) whole →
            MatchOption result (Refuses z) (Turned z self.new (left_after z s)) }
    {
        hand.due(least)?;
        let made = self.make(s, node, whole)?;
        Some(State::Holding(made, whole))
    }

    // A closed term is in hand: makes of it what it was read for.
    pub fn use_for(&mut self, s: Progress, hand: Hand, p: Purpose) -> Option<State>
        requires { ThereIs (λ (z : Scene). Using z self.old s hand p) }
        ensures { (z : Scene) → Using z self.old s hand p →
            MatchOption result (Refuses z) (Turned z self.new (left_after z s)) }
    {
        match p {
            Purpose::Head => Some(State::Holding(s, hand)),
            Purpose::Argument(function) => {
                let node = Node::Application {
                    function: function.root,
                    argument: hand.waiting(s).root,
                };
                let whole = Hand::over_part(Form::Call, function, hand);
                self.build(s, hand, CLOSED_ONLY, node, whole)
            }
            Purpose::Body(function) => {
                let node = named(function, hand.waiting(s).root);
                let whole = Hand::over(Form::Call, 0, 0, hand);
                self.build(s, hand, CLOSED_ONLY, node, whole)
            }
        }
    }

    // Makes a leaf, and of it what it was read for.
    pub fn use_leaf(&mut self, s: Progress, node: Node, p: Purpose) -> Option<State>
        requires { ThereIs (λ (z : Scene). Leaf z self.old s node p) }
        ensures { (z : Scene) → Leaf z self.old s node p →
            MatchOption result (Refuses z) (Turned z self.new (left_after z s)) }
    {
        let leaf = Hand {
            form: Form::Closed,
            own: false,
            nest: 1,
            tally: 0,
        };
        let made = self.make(s, node, leaf)?;
        self.use_for(made, leaf, p)
    }

    // The body of a function is in hand, and with it the function.
    pub fn close_function(
        &mut self,
        s: Progress,
        hand: Hand,
        name: u16,
        label: Option<Label>,
    ) -> Option<State>
        requires { ThereIs (λ (z : Scene). Gives z self.old s hand (Entry.FunctionBody name label)) }
        ensures { (z : Scene) → Gives z self.old s hand (Entry.FunctionBody name label)
            → MatchOption result (Refuses z) (Turned z self.new (left_after z s)) }
    {
        let node = Node::Function {
            parameter: name,
            label,
            body: hand.waiting(s).root,
        };
        let whole = Hand::over(Form::Function, 0, usize::from(label.is_some()), hand);
        self.build(s, hand, NO_ASCRIPTION, node, whole)
    }

    // The second branch of a case is in hand, and with it the case of this head and first branch.
    pub fn close_case(
        &mut self,
        s: Progress,
        hand: Hand,
        head: Part,
        x: u16,
        left: Part,
        y: u16,
    ) -> Option<State>
        requires { ThereIs (λ (z : Scene). Gives z self.old s hand (Entry.CaseSecond head x left y)) }
        ensures { (z : Scene) → Gives z self.old s hand (Entry.CaseSecond head x left y)
            → MatchOption result (Refuses z) (Turned z self.new (left_after z s)) }
    {
        let nest = usize::from(head.nest.max(left.nest));
        let tally = usize::from(head.tally) + usize::from(left.tally);
        let whole = Hand::over(Form::Block, nest, tally, hand);
        let node = Node::Case {
            head: head.root,
            first: x,
            left: left.root,
            second: y,
            right: hand.waiting(s).root,
        };
        self.build(s, hand, NO_ASCRIPTION, node, whole)
    }

    // The body of a let is in hand, and with it the let of this head.
    pub fn close_let(
        &mut self,
        s: Progress,
        hand: Hand,
        x: u16,
        y: u16,
        head: Part,
    ) -> Option<State>
        requires { ThereIs (λ (z : Scene). Gives z self.old s hand (Entry.LetBody x y head)) }
        ensures { (z : Scene) → Gives z self.old s hand (Entry.LetBody x y head)
            → MatchOption result (Refuses z) (Turned z self.new (left_after z s)) }
    {
        let whole = Hand::over_part(Form::Block, head, hand);
        let node = Node::LetIn {
            first: x,
            second: y,
            head: head.root,
            body: hand.waiting(s).root,
        };
        self.build(s, hand, NO_ASCRIPTION, node, whole)
    }
}
