// A step's conclusion, as it is taken apart for a label.
ghost use Rattle.std.specs.Prelude.{ℕ, ◌<◌, ◌≡◌, get_or};
ghost use Rattle.definitions.specs.Reason.{number_of};
ghost use Rattle.proof_tree.specs.Table.{ending_of};
ghost use Rattle.proof_tree.specs.Opening.{offset_of};
ghost use Rattle.proof_tree.specs.Exportable.{Stated};
ghost use Rattle.proof_tree.specs.Labelling.{left_label_of, datatype_label_of, parameter_label_of, label_or, ShapeFound, AnnotationOf};

use crate::table::Ending;
use definitions::{Reason, Refusal};
use number::pair_offset;
use prefix_code::{Connective, Quantifier, Shape, shape_at};
use proof_term::Label;
use steps::Conclusion;

// A label that step k must have, or its refusal.
fn or_refusal(label: Option<Label>, reason: Reason, k: usize) -> Result<Option<Label>, Refusal>
    requires { k < 65536 }
    ensures { result ≡ label_or (number_of reason) k label }
{
    Ok(Some(label.ok_or(reason.at(k))?))
}

// A conclusion with the pairs and the code, over so many names, that its proposition stands in. `WalkedSteps` has the same three: a struct
// of them would save two lines in the one function that makes this of that, and each use and clause of both would go through it.
// Nor are pairs and code a `Marked`: no function is handed the two, so that it would shorten no list and lengthen each use by a word.
#[derive(Clone, Copy)]
pub struct StatedConclusion<'a> {
    pub names: usize,
    pub pairs: &'a [u8],
    pub code: &'a [u8],
    pub conclusion: Conclusion,
    // A proof knows this of a parameter, and of a field where the struct says it.
    pub ghost bytes: { (i : ℕ) → get_or code.now i 0 < 256 },
    pub ghost stated: { Stated names pairs.now code.now conclusion },
}

impl StatedConclusion<'_> {
    // The offset of its proposition, if it has one.
    #[tactic(auto, using(crate::proofs::Concluding::opens))]
    pub fn proposition_at(&self) -> Option<usize>
        ensures { result ≡ offset_of self.now.pairs.now self.now.conclusion }
    {
        let Conclusion::PropIsTrue(p) = self.conclusion else {
            return None;
        };
        Some(pair_offset(self.pairs, p as usize))
    }

    // The shape of its proposition, if it has one.
    fn shape(&self) -> Option<Shape>
        ensures { ShapeFound self.now.pairs.now self.now.code.now self.now.conclusion result }
    {
        let at = self.proposition_at()?;
        Some(shape_at(self.code, at))
    }

    // Its left side, if it is an implication.
    fn left_label(&self) -> Option<Label>
        ensures { (k : ℕ) → AnnotationOf (left_label_of k) self.now.pairs.now self.now.code.now self.now.conclusion (label_or 14 k result) }
    {
        let Some(
            Shape::Binary {
                connective: Connective::Impl,
                left,
            },
        ) = self.shape()
        else {
            return None;
        };
        Some(Label::Proposition(left as u16))
    }

    // Its datatype, if it is a ∀.
    fn datatype_label(&self) -> Option<Label>
        ensures { (k : ℕ) → AnnotationOf (datatype_label_of k) self.now.pairs.now self.now.code.now self.now.conclusion (label_or 15 k result) }
    {
        let Some(
            Shape::Quantified {
                quantifier: Quantifier::ForAll,
                datatype,
                ..
            },
        ) = self.shape()
        else {
            return None;
        };
        Some(Label::Datatype(datatype as u16))
    }

    // The label of the parameter of a function that step k makes, with that ending and this conclusion.
    #[tactic(auto, unfolding(crate::specs::Labelling::parameter_label_of, crate::specs::Table::ending_of))]
    pub fn annotation(&self, ending: Ending, k: usize) -> Result<Option<Label>, Refusal>
        requires { k < 65536 }
        ensures { AnnotationOf (parameter_label_of (ending_of ending) k)
            self.now.pairs.now self.now.code.now self.now.conclusion result }
    {
        match ending {
            Ending::LeftLabelled => or_refusal(self.left_label(), Reason::NoImplication, k),
            Ending::DatatypeLabelled => or_refusal(self.datatype_label(), Reason::NoUniversal, k),
            Ending::Bare | Ending::Ascribed | Ending::PremissOwn => Ok(None),
        }
    }
}
