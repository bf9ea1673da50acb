// Bytes with their vocabulary.
ghost use Rattle.std.specs.Prelude.{◌<◌, ℕ, get_or};

use crate::Vocabulary;

// Bytes, and where names and code lie in them. That these parts lie within the bytes is asked where one is read, and is no ghost field:
// `declarations::put_declarations` of no declarations asks nothing of their memory, and a type would.
#[derive(Clone, Copy)]
pub struct Memory<'m> {
    pub bytes: &'m [u8],
    pub vocabulary: Vocabulary,
    // A proof knows this of a parameter, and of a field where the struct says it.
    pub ghost fits: { (i : ℕ) → get_or bytes.now i 0 < 256 },
}
