// The kinds of records as values, and a record as a node of its term, with its parts, names and label by name.
ghost use Rattle.std.specs.Prelude.{◌≡◌, ◌+◌, ◌*◌, ◌≤◌, length, get_or};
ghost use Rattle.proof_term.specs.Records.{record_size, field_at, part_count};
ghost use Rattle.proof_term.specs.Labels.{has_label};
ghost use Rattle.proof_term.specs.Views.{label_numbers, node_kind, node_label, node_numbers, kind_number, kind_of, label_of_numbers, parameter_of_numbers, node_of, node_at, PartsOf};

use crate::{DATATYPE, NO_LABEL, PROPOSITION, RECORD_SIZE, field};

// The kinds of records, in the Rust's order: a record keeps the number of its own.
#[derive(Debug, Clone, Copy, PartialEq, Eq)]
pub enum Kind {
    Ident,
    Pair,
    ProjectFst,
    ProjectSnd,
    Function,
    Application,
    LetIn,
    OrLeft,
    OrRight,
    Case,
    Abort,
    TypeAscription,
    Unit,
    Sorry,
}

impl Kind {
    // The kind of a number. A static of the kinds in this order would be as long, and an unknown number would
    // still have to be told apart.
    #[tactic(auto, unfolding(crate::specs::Views::kind_of), using(crate::proofs::Views::kind_unknown))]
    pub fn of(number: usize) -> Kind
        ensures { result ≡ kind_of number }
    {
        match number {
            0 => Kind::Ident,
            1 => Kind::Pair,
            2 => Kind::ProjectFst,
            3 => Kind::ProjectSnd,
            4 => Kind::Function,
            5 => Kind::Application,
            6 => Kind::LetIn,
            7 => Kind::OrLeft,
            8 => Kind::OrRight,
            9 => Kind::Case,
            10 => Kind::Abort,
            11 => Kind::TypeAscription,
            13 => Kind::Sorry,
            // An unknown kind counts as this one.
            _ => Kind::Unit,
        }
    }

    // How many of a record's numbers are parts.
    pub fn part_count(self) -> usize
        ensures { result ≡ part_count (kind_number self) }
    {
        match self {
            Kind::Ident | Kind::Unit | Kind::Sorry => 0,
            Kind::Pair | Kind::Application | Kind::LetIn => 2,
            Kind::Case => 3,
            _ => 1,
        }
    }

    // The number of a kind, as a record keeps it.
    pub fn number(self) -> u16
        ensures { result ≡ kind_number self }
    {
        self as u16
    }
}

// A label: the number that stands for a proposition, or the name of a datatype.
#[derive(Debug, Clone, Copy, PartialEq, Eq)]
pub enum Label {
    Proposition(u16),
    Datatype(u16),
}

// A record as a node of its term: its parts, numbers of records, its names and its label.
#[derive(Debug, Clone, Copy, PartialEq, Eq)]
pub enum Node {
    Ident {
        name: u16,
    },
    Pair {
        first: u16,
        second: u16,
    },
    ProjectFst {
        body: u16,
    },
    ProjectSnd {
        body: u16,
    },
    Function {
        parameter: u16,
        label: Option<Label>,
        body: u16,
    },
    Application {
        function: u16,
        argument: u16,
    },
    LetIn {
        first: u16,
        second: u16,
        head: u16,
        body: u16,
    },
    OrLeft {
        body: u16,
    },
    OrRight {
        body: u16,
    },
    Case {
        head: u16,
        first: u16,
        left: u16,
        second: u16,
        right: u16,
    },
    Abort {
        body: u16,
    },
    TypeAscription {
        body: u16,
        label: Label,
    },
    Unit,
    Sorry,
}

impl Label {
    // Its numbers in a record: its kind, and the number itself.
    fn numbers(self) -> (u16, u16)
        ensures { result ≡ label_numbers self }
    {
        match self {
            Label::Proposition(number) => (PROPOSITION, number),
            Label::Datatype(name) => (DATATYPE, name),
        }
    }
}

impl Node {
    pub fn kind(self) -> Kind
        ensures { result ≡ node_kind self }
    {
        match self {
            Node::Ident { .. } => Kind::Ident,
            Node::Pair { .. } => Kind::Pair,
            Node::ProjectFst { .. } => Kind::ProjectFst,
            Node::ProjectSnd { .. } => Kind::ProjectSnd,
            Node::Function { .. } => Kind::Function,
            Node::Application { .. } => Kind::Application,
            Node::LetIn { .. } => Kind::LetIn,
            Node::OrLeft { .. } => Kind::OrLeft,
            Node::OrRight { .. } => Kind::OrRight,
            Node::Case { .. } => Kind::Case,
            Node::Abort { .. } => Kind::Abort,
            Node::TypeAscription { .. } => Kind::TypeAscription,
            Node::Unit => Kind::Unit,
            Node::Sorry => Kind::Sorry,
        }
    }

    // The label of an ascription, and that of a function whose parameter has one.
    pub fn label(self) -> Option<Label>
        ensures { result ≡ node_label self }
    {
        match self {
            Node::Function { label, .. } => label,
            Node::TypeAscription { label, .. } => Some(label),
            _ => None,
        }
    }

    // The numbers of its record behind the kind, as far as the tally. It is as long as there are kinds whose parts, names or labels differ.
    pub fn numbers(self) -> [u16; 5]
        ensures { result ≡ node_numbers self }
    {
        match self {
            Node::Ident { name } => [name, 0, 0, 0, 0],
            Node::Pair { first, second } => [first, second, 0, 0, 0],
            Node::Function {
                parameter,
                label,
                body,
            } => {
                let (kind, number) = match label {
                    Some(l) => l.numbers(),
                    None => (NO_LABEL, 0),
                };
                [body, parameter, kind, number, 0]
            }
            Node::Application { function, argument } => [function, argument, 0, 0, 0],
            Node::LetIn {
                first,
                second,
                head,
                body,
            } => [head, body, first, second, 0],
            Node::Case {
                head,
                first,
                left,
                second,
                right,
            } => [head, left, right, first, second],
            Node::TypeAscription { body, label } => {
                let (kind, number) = label.numbers();
                [body, 0, kind, number, 0]
            }
            Node::ProjectFst { body }
            | Node::ProjectSnd { body }
            | Node::OrLeft { body }
            | Node::OrRight { body }
            | Node::Abort { body } => [body, 0, 0, 0, 0],
            Node::Unit | Node::Sorry => [0, 0, 0, 0, 0],
        }
    }
}

// The label of two numbers of a record, the kind of a label and its number.
#[tactic(auto, unfolding(crate::specs::Views::label_of_numbers))]
fn label_of_numbers(kind: u16, number: u16) -> Label
    ensures { result ≡ label_of_numbers kind number }
{
    if kind == DATATYPE {
        return Label::Datatype(number);
    }
    Label::Proposition(number)
}

// The same of a parameter, which may have none.
#[tactic(auto, unfolding(crate::specs::Views::parameter_of_numbers))]
fn parameter_of_numbers(kind: u16, number: u16) -> Option<Label>
    ensures { result ≡ parameter_of_numbers kind number }
{
    if kind == NO_LABEL {
        return None;
    }
    Some(label_of_numbers(kind, number))
}

// The node of a kind and five numbers, in the order of a record. It is as long as there are kinds, an arm for each.
fn node_of(kind: Kind, numbers: [u16; 5]) -> Node
    ensures { result ≡ node_of kind (get_or numbers 0 0) (get_or numbers 1 0) (get_or numbers 2 0)
        (get_or numbers 3 0) (get_or numbers 4 0) }
{
    let [a, b, c, d, e] = numbers;
    match kind {
        Kind::Ident => Node::Ident { name: a },
        Kind::Pair => Node::Pair {
            first: a,
            second: b,
        },
        Kind::ProjectFst => Node::ProjectFst { body: a },
        Kind::ProjectSnd => Node::ProjectSnd { body: a },
        Kind::Function => Node::Function {
            parameter: b,
            label: parameter_of_numbers(c, d),
            body: a,
        },
        Kind::Application => Node::Application {
            function: a,
            argument: b,
        },
        Kind::LetIn => Node::LetIn {
            first: c,
            second: d,
            head: a,
            body: b,
        },
        Kind::OrLeft => Node::OrLeft { body: a },
        Kind::OrRight => Node::OrRight { body: a },
        Kind::Case => Node::Case {
            head: a,
            first: d,
            left: b,
            second: e,
            right: c,
        },
        Kind::Abort => Node::Abort { body: a },
        Kind::TypeAscription => Node::TypeAscription {
            body: a,
            label: label_of_numbers(c, d),
        },
        Kind::Unit => Node::Unit,
        Kind::Sorry => Node::Sorry,
    }
}

// Memory and number stand loose in what reads a record. A reader in another crate has the clause for one memory and goes on to another
// number at each part (`PrintableTerm`, `Measurable`, `Judgeable`): a value of both with the clause as a ghost field would be made anew at
// each number, by a function that asks for the same clause.

// The kind of record `n`.
pub fn kind_at(records: &[u16], n: usize) -> Kind
    requires { record_size * (n + 1) ≤ length records.now }
    ensures { result ≡ kind_of (field_at records.now n 0) }
{
    Kind::of(field(records, n, 0))
}

// Whether a record has a label, by the number of its kind and that of its label's kind: an ascription, or a function whose parameter has
// one.
#[tactic(auto, unfolding(crate::specs::Labels::has_label))]
pub fn has_label(kind: usize, label: usize) -> bool
    ensures { result ≡ has_label kind label }
{
    if kind == Kind::TypeAscription as usize {
        return true;
    }
    kind == Kind::Function as usize && label != usize::from(NO_LABEL)
}

// The label of record `n`, an ascription.
pub fn label_at(records: &[u16], n: usize) -> Label
    requires { record_size * (n + 1) ≤ length records.now }
    ensures { result ≡ label_of_numbers (field_at records.now n 3) (field_at records.now n 4) }
{
    label_of_numbers(field(records, n, 3) as u16, field(records, n, 4) as u16)
}

// The label of record `n`, a function, if its parameter has one.
pub fn parameter_at(records: &[u16], n: usize) -> Option<Label>
    requires { record_size * (n + 1) ≤ length records.now }
    ensures { result ≡ parameter_of_numbers (field_at records.now n 3) (field_at records.now n 4) }
{
    parameter_of_numbers(field(records, n, 3) as u16, field(records, n, 4) as u16)
}

// The node that record `n` is.
#[tactic(auto, unfolding(crate::specs::Records::field_at, crate::specs::Views::node_at))]
pub fn node_at(records: &[u16], n: usize) -> Node
    requires { record_size * (n + 1) ≤ length records.now }
    ensures { result ≡ node_at records.now n }
{
    let at = RECORD_SIZE * n;
    let numbers = [
        records[at + 1],
        records[at + 2],
        records[at + 3],
        records[at + 4],
        records[at + 5],
    ];
    node_of(kind_at(records, n), numbers)
}

// The parts of record `n`.
pub fn parts_at(records: &[u16], n: usize) -> &[u16]
    requires { record_size * (n + 1) ≤ length records.now }
    ensures { PartsOf records.now n result.now }
{
    let first = RECORD_SIZE * n + 1;
    &records[first..first + kind_at(records, n).part_count()]
}
