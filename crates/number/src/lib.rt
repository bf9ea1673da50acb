// Document 01's numbers: a u16, low byte first; and its pairs of an offset and a length.
#![tactic(auto)]

ghost use Rattle.std.specs.Prelude.{◌≡◌, ◌+◌, ◌*◌, ◌<◌, ◌≤◌, length};
ghost use Rattle.definitions.specs.Sheet.{pair_size, number_at, pair_offset, pair_length, marked};
ghost use Rattle.number.specs.Pairs.{NameWithin};

// The number at an offset. As a u16 it would need no bound in the clause, but nearly every reader compares it with a length or a count, adds
// it to a place or indexes by it, and would convert it there; only steps, renumbering, prop_lists and proof_tree store one as a u16.
#[tactic(auto, unfolding(definitions::specs::Sheet::number_at))]
pub fn number_at(s: &[u8], i: usize) -> usize
    requires { i + 1 < length s.now }
    ensures { (result ≡ number_at s.now i) × (result < 65536) }
{
    usize::from(u16::from_le_bytes([s[i], s[i + 1]]))
}

// The bytes of a pair: its offset and its length, a number each.
pub const PAIR_SIZE: usize = 4;

// Where the bytes that pair i marks begin.
#[tactic(auto, unfolding(definitions::specs::Sheet::pair_size, definitions::specs::Sheet::pair_offset))]
pub fn pair_offset(pairs: &[u8], i: usize) -> usize
    requires { pair_size * (i + 1) ≤ length pairs.now }
    ensures { result ≡ pair_offset pairs.now i }
{
    number_at(pairs, PAIR_SIZE * i)
}

// How many bytes pair i marks.
#[tactic(auto, unfolding(definitions::specs::Sheet::pair_size, definitions::specs::Sheet::pair_length))]
pub fn pair_length(pairs: &[u8], i: usize) -> usize
    requires { pair_size * (i + 1) ≤ length pairs.now }
    ensures { result ≡ pair_length pairs.now i }
{
    number_at(pairs, PAIR_SIZE * i + 2)
}

// Bytes, and the pairs of offset and length that mark pieces of them: names in a text, or propositions in code.
#[derive(Clone, Copy)]
pub struct Marked<'a> {
    pub pairs: &'a [u8],
    pub bytes: &'a [u8],
}

impl<'a> Marked<'a> {
    // The piece that pair i marks. That it lies within the bytes is asked of this pair and is no invariant, since it does not hold of every
    // pair before a sheet is admitted.
    #[tactic(auto, unfolding(definitions::specs::Sheet::pair_end, definitions::specs::Sheet::marked))]
    pub fn piece(self, i: usize) -> &'a [u8]
        requires { NameWithin self.pairs.now self.bytes.now i }
        ensures { result.now ≡ marked self.entry.pairs.now self.entry.bytes.now i }
    {
        let offset = pair_offset(self.pairs, i);
        let end = offset + pair_length(self.pairs, i);
        &self.bytes[offset..end]
    }
}
