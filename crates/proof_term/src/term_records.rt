// Records of terms in lent memory, and how many of them are made.
ghost use Rattle.std.specs.Prelude.{◌+◌, ◌*◌, ◌≤◌, length};
ghost use Rattle.proof_term.specs.Records.{record_size};
ghost use Rattle.proof_term.specs.Views.{node_term, PartsBelow};
ghost use Rattle.proof_term.specs.Making.{Made};
ghost use Rattle.proof_term.specs.InPlace.{InPlace};

use crate::{Node, push, tally_over};

#[derive(Drop)]
pub struct TermRecords<'a> {
    pub numbers: &'a mut [u16],
    pub used: usize,
}

impl TermRecords<'_> {
    // Makes the record of a node over earlier records, with its tally.
    pub fn make(&mut self, node: Node)
        requires { (record_size * (self.old.used + 1) ≤ length self.old.numbers.now) × PartsBelow self.old.used node }
        ensures { InPlace (Made (λ props part. node_term props part node)) self.old self.new }
    {
        let used = self.used;
        let numbers = &mut *self.numbers;
        let tally = tally_over(numbers, used, node);
        self.used = push(numbers, used, node, tally as u16);
    }
}
