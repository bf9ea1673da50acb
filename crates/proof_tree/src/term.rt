// The term that a rule has in source document 000, as a record over those of its premisses.
ghost use Rattle.std.specs.Prelude.{◌≡◌, get_or};
ghost use Rattle.proof_term.specs.InPlace.{InPlace};
ghost use Rattle.proof_tree.specs.Terms.{node_over, Parts, MadeOver};

use crate::table::RuleTerm;
use proof_term::{Label, Node, TermRecords};

// The node of a rule's term over the records of its parts, with a step's names and the label of a parameter: none where the term is
// the premiss's own. It is as long as there are terms, an arm for each.
fn node_over(
    term: RuleTerm,
    first: u16,
    second: u16,
    label: Option<Label>,
    parts: [u16; 3],
) -> Option<Node>
    ensures { result ≡ node_over term first second label (get_or parts 0 0) (get_or parts 1 0) (get_or parts 2 0) }
{
    let [a, b, c] = parts;
    match term {
        RuleTerm::Pair => Some(Node::Pair {
            first: a,
            second: b,
        }),
        RuleTerm::ProjectFst => Some(Node::ProjectFst { body: a }),
        RuleTerm::ProjectSnd => Some(Node::ProjectSnd { body: a }),
        RuleTerm::Unit => Some(Node::Unit),
        RuleTerm::Function => Some(Node::Function {
            parameter: first,
            label,
            body: a,
        }),
        RuleTerm::Application => Some(Node::Application {
            function: a,
            argument: b,
        }),
        RuleTerm::Ident => Some(Node::Ident { name: first }),
        RuleTerm::OrLeft => Some(Node::OrLeft { body: a }),
        RuleTerm::OrRight => Some(Node::OrRight { body: a }),
        RuleTerm::Case => Some(Node::Case {
            head: a,
            first,
            left: b,
            second,
            right: c,
        }),
        RuleTerm::Abort => Some(Node::Abort { body: a }),
        RuleTerm::LetIn => Some(Node::LetIn {
            first,
            second,
            head: a,
            body: b,
        }),
        RuleTerm::Sorry => Some(Node::Sorry),
        RuleTerm::Premiss => None,
    }
}

// Makes the term over the records of its parts, as many as it is over.
pub fn rule_term(
    term: RuleTerm,
    first: u16,
    second: u16,
    label: Option<Label>,
    parts: [u16; 3],
    terms: &mut TermRecords,
)
    requires { Parts term (get_or parts 0 0) (get_or parts 1 0) (get_or parts 2 0)
        terms.old.numbers.now terms.old.used }
    ensures { InPlace (MadeOver term first second label parts) terms.old terms.new }
{
    if let Some(node) = node_over(term, first, second, label, parts) {
        terms.make(node);
    }
}
