// The types that every layer shares with the definitions.
#![tactic(auto)]

ghost use Rattle.std.specs.Prelude.{◌≡◌, ◌<◌};
ghost use Rattle.definitions.specs.Reason.{number_of};

use std::fmt;

// Why an input is refused, by the numbers of documents 01 and 02.
#[derive(Clone, Copy, PartialEq, Eq)]
pub enum Reason {
    NoHeader = 1, // fewer than 12 bytes came
    HeaderRange = 2, // a header number lies outside its range
    ByteCount = 3, // the byte count is not the one that the header gives
    NamePair = 4, // a name's pair starts before the last one's end, ends past the text, or has a length outside 1 to 32
    NameByte = 5, // a name holds a byte that its position does not allow
    PropositionPair = 6, // a proposition's pair starts before the last one's end, ends past the code, or has length 0
    PropositionCode = 7, // a proposition's code is not exactly one proposition with names of the sheet
    PropositionNesting = 8, // a proposition nests deeper than 64
    StepField = 9, // a rule, kind, name, proposition number or column of a step is out of range, or an unused field is not 0
    TreeCount = 10, // a step finds too few trees before it, or the last step leaves more than one
    TreeNesting = 11, // a step's tree nests deeper than 256
    PremissCount = 12, // a visited step has the wrong premiss count
    AscribedJudgement = 13, // an ascription is needed where the conclusion is a type judgement
    NoImplication = 14, // a function of ImplIntro needs a label and its conclusion is no implication
    NoUniversal = 15, // a function of ForAllIntro needs a label and its conclusion is no ∀
    Room = 16, // the lent output is shorter than the answer
    ComparedStep = 17, // a comparison names a step that the sheet has not
    ParameterCount = 18, // two atoms of one name have different parameter counts: no function refuses so, they are a no
    UnboundParameter = 19, // two uninstantiated parameters meet with neither bound on its side
    NoTerm = 20, // no term, or more than one, has the text as its strict text within the limits, or a listed datatype is no name
    Version = 21, // the version of the handout is outside 1 to 3
    Uncheckable = 22, // the term, a hypothesis or the proposition holds what the checking rules have no rule for
    Given = 23, // the given conclusion or column breaks the rules of a step
    NoStepLeft = 24, // there are already 1,024 steps or 256 levels
    NotAlphaEqual = 25, // the root's conclusion and the given one are not alpha equal
    NoOpenStep = 26, // the host step is no Sorry without premisses
    ConclusionsDiffer = 27, // the conclusions of the host step and of the donor's root differ, names taken by bytes
    MergedLimit = 28, // the merged sheet passes a limit of the sheet
    Exercise = 29, // the names of an exercise are too many, repeated or malformed, or its number of connectives passes 3
    Ordinal = 30, // the ordinal of an exercise is past the end
    JudgedNumber = 31, // a number of the hypotheses or of the proposition is not the sheet's, or a last name has no proposition
}

impl Reason {
    // The refusal for this reason at a place.
    pub fn at(self, place: usize) -> Refusal
        requires { place < 65536 }
        ensures { result ≡ record { number = number_of self; place = place } }
    {
        Refusal::at(self as u8, place)
    }
}

// A refusal: the number of its reason, and its place. Documents 01 and 02 and C know a reason by its number, and the definitions answer with
// this very type.
#[derive(Clone, Copy, PartialEq, Eq)]
pub struct Refusal {
    pub number: u8,
    pub place: u16,
}

impl Refusal {
    // The refusal of a number at a place.
    pub fn at(number: u8, place: usize) -> Self
        requires { place < 65536 }
        ensures { result ≡ record { number = number; place = place } }
    {
        // A TryFrom would have a branch for what cannot come.
        let place = place as u16;
        Self { number, place }
    }
}

// As the programs print it, within a line.
impl fmt::Display for Refusal {
    fn fmt<W: fmt::Write>(&self, f: &mut fmt::Formatter<W>) -> fmt::Result {
        write!(f, "refused {} at {}", self.number, self.place)
    }
}

// A refusal as it is handed back: with the column of the step that it names, or 0 where it names none. It is no Option, since the C
// interface hands out a column in every case, and 0 where none is named.
#[derive(Clone, Copy, PartialEq, Eq)]
pub struct Located {
    pub refusal: Refusal,
    pub column: u16,
}

// A refusal that names no step.
impl From<Refusal> for Located {
    ghost use Rattle.std.specs.Prelude.{◌≡◌};

    ghost from_gives = { λ refusal located. located ≡ record { refusal = refusal; column = 0 } };

    fn from(refusal: Refusal) -> Self {
        Self { refusal, column: 0 }
    }
}

// A name, by its number, and an id, which tells objects of one name apart.
#[derive(Debug, Clone, Copy, Default, PartialEq, Eq)]
pub struct Identifier {
    pub name: u16,
    pub unique_id: u16,
}

// How a text is asked for: as the Rust prints it, or with the brackets of strict text too.
#[derive(Clone, Copy, PartialEq, Eq)]
pub enum Style {
    Plain,
    Strict,
}

// The version of the handout. The first is document 01's. The second has the datatype declarations before the atoms', and its
// datatype list holds the datatypes of every label. The third is the second with its declarations sorted.
#[derive(Clone, Copy, PartialEq, Eq)]
pub enum Version {
    First,
    Second,
    Third,
}

// A list of a term: its atoms, or its datatypes in a version.
#[derive(Clone, Copy)]
pub enum TermList {
    Atoms,
    Datatypes(Version),
}

// Whose refusal it is that a graft meets: neither sheet's, the host's or the donor's. It is no Option of a side: a refusal that is
// neither sheet's is an answer of its own, 16 or 26 to 28, which C hands out as 0 beside 1 and 2.
#[derive(Clone, Copy, PartialEq, Eq)]
pub enum Whose {
    Neither,
    Host,
    Donor,
}
