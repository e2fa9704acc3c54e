// The recount of what a script is answered. Its counts stay at the largest number once there.
ghost use Rattle.std.specs.Prelude.{◌≡◌, List, [], ◌∷◌, ◌++◌, length, IfOk};
ghost use Rattle.recount.specs.Recount.{Reply, Counts, capped, how_many, accepted as is_accepted, refused_with, denied as is_denied, denied_to, row_of};

use crate::denials::Denials;
use crate::row::Row;
use crate::verdicts::Verdicts;
use frame::{Answer, FrameFault};
use std::alloc::{AllocError, Global};

// Of which list it is the recount is a premise of its clauses and no ghost field: a list is data, and a ghost field
// holds a fact.
#[derive(Drop)]
pub struct Recount {
    verdicts: Verdicts,
    denials: Denials,
}

impl Recount {
    // The recount of no replies.
    pub fn new(heap: Global) -> Result<Recount, AllocError>
        ensures counts { IfOk result (Counts []) }
    {
        let denials = Denials::new(heap)?;
        Ok(Recount {
            verdicts: Verdicts::new(),
            denials,
        })
    }

    // The recount of all these replies.
    pub fn of(heap: Global, replies: &[Result<Answer, FrameFault>]) -> Result<Recount, AllocError>
        ensures counts { IfOk result (Counts replies.now) }
    {
        let mut recount = Recount::new(heap)?;
        for reply in replies {
            recount.note(reply);
        }
        Ok(recount)
    }

    // Counts one reply more.
    pub fn note(&mut self, reply: &Result<Answer, FrameFault>)
        ensures counts { (xs : List Reply) → Counts xs self.old → Counts (xs ++ reply.now ∷ []) self.new }
    {
        self.verdicts.note(reply);
        self.denials.note(reply);
    }

    // How many lines were answered.
    pub fn lines(&self) -> u64
        ensures result { (xs : List Reply) → Counts xs self.now → result ≡ capped (length xs) }
    {
        self.verdicts.lines
    }

    // How many of them were accepted.
    pub fn accepted(&self) -> u64
        ensures result { (xs : List Reply) → Counts xs self.now → result ≡ capped (how_many is_accepted xs) }
    {
        self.verdicts.accepted
    }

    // How many were refused with this number. Any number may be asked for, so it is no enum.
    pub fn refused(&self, number: u8) -> u64
        ensures result { (xs : List Reply) → Counts xs self.now → result ≡ capped (how_many (refused_with number) xs) }
    {
        self.verdicts.refused_with(number)
    }

    // The denials under 16 and 17 in all.
    pub fn denials(&self) -> Row
        ensures result { (xs : List Reply) → Counts xs self.now → result ≡ row_of is_denied xs }
    {
        self.denials.all
    }

    // The denials under 16 or 17 of a task at a reserve. Any number may be asked for here too.
    pub fn denied(&self, number: u8, task: u8, reserve: u8) -> Row
        ensures result { (xs : List Reply) → Counts xs self.now → result ≡ row_of (denied_to number task reserve) xs }
    {
        self.denials.row(number, task, reserve)
    }
}
