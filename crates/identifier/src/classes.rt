// The class of a byte in a name, by a table.
ghost use Rattle.std.specs.Prelude.{◌≡◌};
ghost use Rattle.definitions.specs.Name.{byte_class, may_begin, may_follow};
ghost use Rattle.identifier.specs.Class.{class_of};

use Class::{Digit, Letter, Other, Underscore};

// The classes of document 01, `Other` that of the bytes that no name has.
#[repr(u8)]
#[derive(Debug, Clone, Copy, PartialEq, Eq)]
pub enum Class {
    Other,
    Letter,
    Digit,
    Underscore,
}

impl Class {
    // The class of a byte, by the table.
    #[tactic(auto, using(crate::proofs::Table::classes_hold), unfolding(crate::specs::Class::ClassTable))]
    pub fn of_byte(b: u8) -> Class
        ensures { class_of result ≡ byte_class b }
    {
        CLASSES[usize::from(b)]
    }

    // Whether a name may begin with a byte of this class.
    #[tactic(auto, unfolding(definitions::specs::Name::may_begin))]
    pub fn may_begin(self) -> bool
        ensures { result ≡ may_begin (class_of self) }
    {
        matches!(self, Letter)
    }

    // Whether a byte of this class may follow in a name.
    #[tactic(auto, unfolding(definitions::specs::Name::may_follow))]
    pub fn may_follow(self) -> bool
        ensures { result ≡ may_follow (class_of self) }
    {
        !matches!(self, Other)
    }
}

// The class of each byte, as the table of 256 entries that document 01 asks for.
static CLASSES: [Class; 256] = [
    // 0 to 47
    Other, Other, Other, Other, Other, Other, Other, Other, Other, Other, Other, Other, Other,
    Other, Other, Other, Other, Other, Other, Other, Other, Other, Other, Other, Other, Other,
    Other, Other, Other, Other, Other, Other, Other, Other, Other, Other, Other, Other, Other,
    Other, Other, Other, Other, Other, Other, Other, Other, Other,
    // `0` to `9`
    Digit, Digit, Digit, Digit, Digit, Digit, Digit, Digit, Digit, Digit,
    // 58 to 64
    Other, Other, Other, Other, Other, Other, Other,
    // `A` to `Z`
    Letter, Letter, Letter, Letter, Letter, Letter, Letter, Letter, Letter, Letter, Letter, Letter,
    Letter, Letter, Letter, Letter, Letter, Letter, Letter, Letter, Letter, Letter, Letter, Letter,
    Letter, Letter,
    // 91 to 94
    Other, Other, Other, Other,
    // `_` and 96
    Underscore, Other,
    // `a` to `z`
    Letter, Letter, Letter, Letter, Letter, Letter, Letter, Letter, Letter, Letter, Letter, Letter,
    Letter, Letter, Letter, Letter, Letter, Letter, Letter, Letter, Letter, Letter, Letter, Letter,
    Letter, Letter,
    // 123 to 255
    Other, Other, Other, Other, Other, Other, Other, Other, Other, Other, Other, Other, Other,
    Other, Other, Other, Other, Other, Other, Other, Other, Other, Other, Other, Other, Other,
    Other, Other, Other, Other, Other, Other, Other, Other, Other, Other, Other, Other, Other,
    Other, Other, Other, Other, Other, Other, Other, Other, Other, Other, Other, Other, Other,
    Other, Other, Other, Other, Other, Other, Other, Other, Other, Other, Other, Other, Other,
    Other, Other, Other, Other, Other, Other, Other, Other, Other, Other, Other, Other, Other,
    Other, Other, Other, Other, Other, Other, Other, Other, Other, Other, Other, Other, Other,
    Other, Other, Other, Other, Other, Other, Other, Other, Other, Other, Other, Other, Other,
    Other, Other, Other, Other, Other, Other, Other, Other, Other, Other, Other, Other, Other,
    Other, Other, Other, Other, Other, Other, Other, Other, Other, Other, Other, Other, Other,
    Other, Other, Other,
];
