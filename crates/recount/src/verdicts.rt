// How many lines were accepted, and how many refused with each number.
ghost use Rattle.std.specs.Prelude.{◌≡◌, ◌+◌, [], length, slice_index};
ghost use Rattle.recount.specs.Recount.{Judges, capped};
ghost use Rattle.recount.specs.Noting.{accepted_after, refused_after};

use frame::{Answer, FrameFault};
use node::REFUSALS;

#[derive(Drop)]
pub(crate) struct Verdicts {
    pub(crate) lines: u64,
    pub(crate) accepted: u64,
    // The refused lines by their number.
    refused: [u64; REFUSALS],
}

impl Verdicts {
    pub(crate) fn new() -> Verdicts
        ensures counts { Judges [] result }
    {
        Verdicts {
            lines: 0,
            accepted: 0,
            refused: [0; REFUSALS],
        }
    }

    pub(crate) fn note(&mut self, reply: &Result<Answer, FrameFault>)
        ensures within { length self.old.refused ≡ 18 }
        ensures lines { self.new.lines ≡ capped (self.old.lines + 1) }
        ensures accepted { self.new.accepted ≡ accepted_after reply.now self.old.accepted }
        ensures refused { self.new.refused ≡ refused_after reply.now self.old.refused }
    {
        self.lines = self.lines.saturating_add(1);
        match reply {
            Ok(_) => self.accepted = self.accepted.saturating_add(1),
            Err(fault) => {
                let times = &mut self.refused[usize::from(fault.number())];
                *times = times.saturating_add(1);
            }
        }
    }

    // How many were refused with this number, which may be any.
    pub(crate) fn refused_with(&self, number: u8) -> u64
        ensures result { result ≡ slice_index self.now.refused number }
    {
        self.refused.get(usize::from(number)).copied().unwrap_or(0)
    }
}
