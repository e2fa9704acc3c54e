// Why a line is refused.
ghost use Rattle.std.specs.Prelude.{◌≡◌};
ghost use Rattle.node.specs.declared.denial.Denial.TheVariants.{OutOfRange as Outside};
ghost use Rattle.frame.specs.Fault.{number_of};
ghost use Rattle.frame.specs.declared.fault.FrameFault.TheVariants.{Denied};

use node::Denial;
use rates::OutOfRange;
use thiserror::Error;

#[derive(Clone, Copy, PartialEq, Eq, Debug, Error)]
pub enum FrameFault {
    #[error("the answer array has fewer than 160 bytes")]
    ShortAnswer,
    #[error("the line is not 2 to 80 digits 0-9 and A-F, two for each byte")]
    BadLine,
    #[error("no frame has this first byte and this length")]
    UnknownFrame,
    // A frame that builds a node comes when one stands, or another frame comes before.
    #[error("a node is built once, before every other frame")]
    OutOfTurn,
    // The node refuses the call.
    #[error(transparent)]
    Denied(Denial),
}

// By hand, since `from_gives` says which refusal it is.
impl From<Denial> for FrameFault {
    ghost from_gives = { λ d f. f ≡ Denied d };

    fn from(denial: Denial) -> FrameFault {
        Self::Denied(denial)
    }
}

// By hand, for the same reason.
impl From<OutOfRange> for FrameFault {
    ghost from_gives = { λ _ f. f ≡ Denied Outside };

    fn from(_out: OutOfRange) -> FrameFault {
        Self::Denied(Denial::OutOfRange)
    }
}

impl FrameFault {
    // The number by which the rules name this refusal.
    pub fn number(self) -> u8
        ensures result { result ≡ number_of self }
    {
        match self {
            FrameFault::ShortAnswer => 1,
            FrameFault::BadLine => 2,
            FrameFault::UnknownFrame => 3,
            FrameFault::OutOfTurn => 4,
            FrameFault::Denied(denial) => denial.number(),
        }
    }
}
