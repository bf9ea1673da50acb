// The parts of a sheet, as slices of its bytes.
ghost use Rattle.std.specs.Prelude.{◌≡◌, ◌<◌, ℕ, get_or};
ghost use Rattle.definitions.specs.Sheet.{name_pairs, proposition_pairs, step_records, text_bytes, code_bytes};
ghost use Rattle.sheet.specs.Header.{InRange, HasHeader, vocabulary_of};

use crate::header::Sheet;
use number::Marked;
use vocabulary::Memory;

// Bytes with their header, which lies in its ranges and says how many they are. No refusal has looked at what lies in their parts.
#[derive(Clone, Copy)]
pub struct HeadedSheet<'a> {
    pub bytes: &'a [u8],
    pub header: Sheet,
    pub ghost headed: { HasHeader bytes.now header },
    // A proof knows this of a parameter, and of a field where the struct says it.
    pub ghost fits: { (i : ℕ) → get_or bytes.now i 0 < 256 },
}

impl<'a> HeadedSheet<'a> {
    // Its names and its code.
    pub fn memory(&self) -> Memory<'a>
        ensures bytes { result.bytes.now ≡ self.now.bytes.now }
        ensures vocabulary { result.vocabulary ≡ vocabulary_of self.now.header }
    {
        Memory {
            bytes: self.bytes,
            vocabulary: self.header.vocabulary(),
        }
    }

    // The pairs of its names.
    #[tactic(auto, using(crate::proofs::NamesAndCode::within, crate::proofs::NamesAndCode::pairs_are))]
    pub fn name_pairs(&self) -> &'a [u8]
        ensures { result.now ≡ name_pairs self.now.bytes.now }
    {
        self.memory().pairs()
    }

    // The pairs of its propositions.
    #[tactic(auto, unfolding(crate::specs::Header::layout_of, crate::specs::Header::header_of, definitions::specs::Sheet::proposition_pairs, definitions::specs::Sheet::header_size, definitions::specs::Sheet::pair_size, definitions::specs::Sheet::step_size, definitions::specs::Sheet::name_pairs_start, definitions::specs::Sheet::proposition_pairs_start, definitions::specs::Sheet::steps_start, definitions::specs::Sheet::text_start, definitions::specs::Sheet::code_start, definitions::specs::Sheet::sheet_length))]
    pub fn proposition_pairs(&self) -> &'a [u8]
        ensures { result.now ≡ proposition_pairs self.now.bytes.now }
    {
        let layout = self.header.layout();
        &self.bytes[layout.proposition_pairs..layout.steps]
    }

    // Its steps.
    #[tactic(auto, unfolding(crate::specs::Header::layout_of, crate::specs::Header::header_of, definitions::specs::Sheet::step_records, definitions::specs::Sheet::header_size, definitions::specs::Sheet::pair_size, definitions::specs::Sheet::step_size, definitions::specs::Sheet::name_pairs_start, definitions::specs::Sheet::proposition_pairs_start, definitions::specs::Sheet::steps_start, definitions::specs::Sheet::text_start, definitions::specs::Sheet::code_start, definitions::specs::Sheet::sheet_length))]
    pub fn step_records(&self) -> &'a [u8]
        ensures { result.now ≡ step_records self.now.bytes.now }
    {
        let layout = self.header.layout();
        &self.bytes[layout.steps..layout.text]
    }

    // The text of its names.
    #[tactic(auto, using(crate::proofs::NamesAndCode::within, crate::proofs::NamesAndCode::text_is))]
    pub fn text_bytes(&self) -> &'a [u8]
        ensures { result.now ≡ text_bytes self.now.bytes.now }
    {
        self.memory().text()
    }

    // The code of its propositions.
    #[tactic(auto, using(crate::proofs::NamesAndCode::within, crate::proofs::NamesAndCode::code_is))]
    pub fn code_bytes(&self) -> &'a [u8]
        ensures { result.now ≡ code_bytes self.now.bytes.now }
    {
        self.memory().code()
    }

    // Its names: their pairs, and the text that these mark.
    #[tactic(auto, using(crate::proofs::NamesAndCode::within, crate::proofs::NamesAndCode::pairs_are, crate::proofs::NamesAndCode::text_is))]
    pub fn marked_names(&self) -> Marked<'a>
        ensures pairs { result.pairs.now ≡ name_pairs self.now.bytes.now }
        ensures text { result.bytes.now ≡ text_bytes self.now.bytes.now }
    {
        self.memory().marked_names()
    }

    // Its propositions: their pairs, and the code that these mark.
    pub fn marked_propositions(&self) -> Marked<'a>
        ensures pairs { result.pairs.now ≡ proposition_pairs self.now.bytes.now }
        ensures code { result.bytes.now ≡ code_bytes self.now.bytes.now }
    {
        Marked {
            pairs: self.proposition_pairs(),
            bytes: self.code_bytes(),
        }
    }
}
