// The rules, each by the byte that stands for it.
ghost use Rattle.std.specs.Prelude.{◌≡◌};
ghost use Rattle.definitions.specs.Tree.{identifier_count};
ghost use Rattle.steps.specs.Rules.{rule_of, RuleAt};

#[derive(Debug, Clone, Copy, PartialEq, Eq)]
pub enum Rule {
    AndIntro,
    AndElimFst,
    AndElimSnd,
    TrueIntro,
    ImplIntro,
    ImplElim,
    Ident,
    OrIntroFst,
    OrIntroSnd,
    OrElim,
    FalsumElim,
    ForAllIntro,
    ForAllElim,
    ExistsIntro,
    ExistsElim,
    Sorry,
    AlphaEquivalent,
}

impl Rule {
    // The rule of a byte, if it has one. A byte fails to be one in one way, so the error of a TryFrom would say no more than None.
    #[tactic(auto, unfolding(definitions::specs::Tree::rules))]
    pub fn of_byte(byte: u8) -> Option<Rule>
        ensures { RuleAt byte result }
    {
        Some(match byte {
            0 => Rule::AndIntro,
            1 => Rule::AndElimFst,
            2 => Rule::AndElimSnd,
            3 => Rule::TrueIntro,
            4 => Rule::ImplIntro,
            5 => Rule::ImplElim,
            6 => Rule::Ident,
            7 => Rule::OrIntroFst,
            8 => Rule::OrIntroSnd,
            9 => Rule::OrElim,
            10 => Rule::FalsumElim,
            11 => Rule::ForAllIntro,
            12 => Rule::ForAllElim,
            13 => Rule::ExistsIntro,
            14 => Rule::ExistsElim,
            15 => Rule::Sorry,
            16 => Rule::AlphaEquivalent,
            _ => return None,
        })
    }

    // How many identifiers it has.
    #[tactic(auto, unfolding(definitions::specs::Tree::identifier_count, crate::specs::Rules::rule_of))]
    pub fn identifier_count(self) -> u8
        ensures { result ≡ identifier_count (rule_of self) }
    {
        match self {
            Rule::ImplIntro | Rule::Ident | Rule::ForAllIntro => 1,
            Rule::OrElim | Rule::ExistsElim => 2,
            _ => 0,
        }
    }
}
