// A reader holds a sheet and a position in it, and is passed by value: reading leaves it where it was, and `moved` is the next one.
// Document 01 asks for it: a thin layer over the numbers of a sheet.
#![tactic(auto)]

ghost use Rattle.std.specs.Prelude.{◌≡◌, ◌*◌};
ghost use Rattle.reader.specs.Reading.{bytes_after, number_after, position_after};

use number::number_at;

#[derive(Clone, Copy)]
pub struct Reader<'a> {
    pub sheet: &'a [u8],
    pub at: usize,
}

impl<'a> Reader<'a> {
    // A reader at the start of a sheet.
    pub fn new(sheet: &'a [u8]) -> Reader<'a>
        ensures { (result.sheet ≡ sheet.entry) × (result.at ≡ 0) }
    {
        Reader { sheet, at: 0 }
    }

    // How many bytes are left.
    pub fn left(self) -> usize
        ensures { result ≡ bytes_after self.entry.sheet.now self.entry.at }
    {
        self.sheet.len().saturating_sub(self.at)
    }

    // The number at the position, low byte first; the reader past it is `moved(1)`.
    #[tactic(auto, unfolding(crate::specs::Reading::number_after))]
    pub fn next_number(self) -> Option<usize>
        ensures { result ≡ number_after self.entry.sheet.now self.entry.at }
    {
        if self.left() < 2 {
            return None;
        }
        Some(number_at(self.sheet, self.at))
    }

    // The reader moved on by so many numbers, two bytes each, or to the end where fewer are left.
    #[tactic(auto, unfolding(crate::specs::Reading::position_after))]
    pub fn moved(self, numbers: usize) -> Reader<'a>
        ensures { (result.sheet ≡ self.entry.sheet) × (result.at ≡ position_after self.entry.sheet.now self.entry.at numbers) }
    {
        if numbers <= self.left() / 2 {
            let at = self.at + 2 * numbers;
            return Reader { at, ..self };
        }
        let at = self.sheet.len();
        Reader { at, ..self }
    }
}

// The number k of a header, counted from 0, read through a reader. Its parameters are plain, so its callers meet no reader.
pub fn header_number(s: &[u8], k: usize) -> Option<usize>
    ensures { result ≡ number_after s.now (2 * k) }
{
    Reader::new(s).moved(k).next_number()
}
