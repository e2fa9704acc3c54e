// The denials that tell how much is lacking: those under 16 and 17.
ghost use Rattle.std.specs.Prelude.{◌≡◌};
ghost use Rattle.recount.specs.Recount.{lack_of};

use frame::{Answer, FrameFault};
use node::Denial;

// What falls short.
#[derive(Clone, Copy)]
pub(crate) enum Shortage {
    // The level of the reserve: 16.
    Level,
    // A stage of the store: 17.
    Store,
}

// What a denial tells to be lacking.
#[derive(Clone, Copy)]
pub(crate) struct Lack {
    pub(crate) shortage: Shortage,
    pub(crate) task: u8,
    pub(crate) reserve: u8,
    pub(crate) deficit: u32,
}

impl Lack {
    // What a reply tells to be lacking, where it is such a denial.
    pub(crate) fn of(reply: &Result<Answer, FrameFault>) -> Option<Lack>
        ensures result { result ≡ lack_of reply.now }
    {
        match reply {
            Err(
                FrameFault::Denied(
                    Denial::LevelTooLow {
                        task,
                        reserve,
                        deficit,
                    },
                ),
            ) => Some(Lack {
                shortage: Shortage::Level,
                task: *task,
                reserve: *reserve,
                deficit: *deficit,
            }),
            Err(FrameFault::Denied(Denial::StoreRefused(overdraw))) => Some(Lack {
                shortage: Shortage::Store,
                task: overdraw.task,
                reserve: overdraw.reserve,
                deficit: overdraw.fault.deficit,
            }),
            _ => None,
        }
    }
}
