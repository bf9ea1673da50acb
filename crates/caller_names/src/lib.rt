// A caller's list of names: pieces of some bytes, divided by newlines.
#![tactic(auto)]

ghost use Rattle.std.specs.Prelude.{◌≡◌};
ghost use Rattle.definitions.specs.Name.{eq_name};
ghost use Rattle.definitions.specs.Text.{occurs};
ghost use Rattle.definitions.specs.CallerNames.{names_in, well_formed};
ghost use Rattle.std.specs.Iterator.{YieldsFirstRef, item_count};
ghost use Rattle.caller_names.specs.Left.{names_left};

use identifier::{NAME_LENGTH_LIMIT, is_name, same_name};

// Whether these bytes are a name of document 01.
#[tactic(auto, unfolding(definitions::specs::CallerNames::well_formed, definitions::specs::Sheet::name_length_limit))]
pub fn well_formed(name: &[u8]) -> bool
    ensures { result ≡ well_formed name.now }
{
    name.len() <= NAME_LENGTH_LIMIT && is_name(name)
}

// An iterator over the names of a list, from the first to the last: the bytes that are not cut yet, or none past the last name. A slice's
// own `split` gives a `Split` of a closure, whose type no result can name, and divides no bytes into one piece, where a list has no names.
#[derive(Drop)]
pub struct Names<'a> {
    rest: Option<&'a [u8]>,
}

impl<'a> Iterator for Names<'a> {
    type Item = &'a [u8];

    ghost next_gives = { YieldsFirstRef names_left };

    ghost remaining = { item_count names_left };

    #[tactic(auto, unfolding(crate::specs::Left::pieces_of))]
    fn next(&mut self) -> Option<&'a [u8]> {
        let rest = self.rest?;
        let Some(end) = rest.iter().position(|b| *b == b'\n') else {
            self.rest = None;
            return Some(rest);
        };
        self.rest = Some(&rest[end + 1..]);
        Some(&rest[..end])
    }
}

// The names of a list. No bytes are no names.
#[tactic(auto, using(crate::proofs::Pieces::no_names, crate::proofs::Pieces::names_pieces), unfolding(crate::specs::Left::pieces_of))]
pub fn names_in(list: &[u8]) -> Names
    ensures { names_left result ≡ names_in list.now }
{
    if list.is_empty() {
        return Names { rest: None };
    }
    Names { rest: Some(list) }
}

// Whether a name is in a list.
pub fn is_listed(list: &[u8], name: &[u8]) -> bool
    ensures { result ≡ occurs eq_name name.now (names_in list.now) }
{
    names_in(list).any(|other| same_name(name, other))
}
