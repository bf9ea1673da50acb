// The outermost forms of terms, as far as brackets go.
ghost use Rattle.std.specs.Prelude.{◌≡◌};
ghost use Rattle.proof_term.specs.Forms.{rank};

// The forms, in the order of the brackets that they need.
#[derive(Debug, Clone, Copy, PartialEq, Eq, PartialOrd, Ord)]
pub enum Form {
    Closed,
    Call,
    Function,
    Block,
    Ascription,
}

impl Form {
    // The place of a form in the order.
    #[tactic(auto, unfolding(crate::specs::Forms::rank))]
    pub fn rank(self) -> usize
        ensures { result ≡ rank self }
    {
        self as usize
    }
}
