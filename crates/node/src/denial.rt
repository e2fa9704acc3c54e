// Why a node refuses a call.
ghost use Rattle.std.specs.Prelude.{◌≡◌};
ghost use Rattle.node.specs.Denial.{number_of};
ghost use Rattle.node.specs.declared.denial.Denial.TheVariants.{OutOfRange as Outside, StoreRefused};

use rates::OutOfRange;
use store::Fault;
use thiserror::Error;

// A store's fault, whole, with the task and the reserve that met it.
#[derive(Clone, Copy, PartialEq, Eq, Debug, Error)]
#[error("task {task} drew on reserve {reserve}, but stage {height} of the store ({kind}) lacks {deficit} quanta", height = .fault.height, kind = char::from(.fault.kind), deficit = .fault.deficit)]
pub struct Overdraw {
    pub task: u8,
    pub reserve: u8,
    pub fault: Fault,
}

// The refusal numbers end below this.
pub const REFUSALS: usize = 18;

#[derive(Clone, Copy, PartialEq, Eq, Debug, Error)]
pub enum Denial {
    #[error("the report array has fewer than 96 places")]
    ShortReport,
    #[error("a number lies outside its range")]
    OutOfRange,
    #[error("the reserve or tap named is not open")]
    Absent,
    #[error("the reserve or tap to be opened is open already")]
    AlreadyOpen,
    // The serial and the amount fit no grant that is out, or parked, as the call asks.
    #[error("the serial and the amount fit no grant that the call can take")]
    NoSuchGrant,
    #[error("the task does not own the reserve")]
    NotOwner,
    #[error("the tap's source and sink are the same reserve")]
    SameEnds,
    #[error("the opening amount is above the new reserve's limit")]
    AboveLimit,
    #[error("the reserve is a parent, an end of a tap, or has an open grant")]
    InUse,
    #[error("more was used than was granted")]
    Overused,
    #[error("64 grants are open: settle one first")]
    TooManyGrants,
    #[error("the node has had all the ticks or grants that it may have")]
    Exhausted,
    #[error("task {task} asked of reserve {reserve}, whose level lacks {deficit} quanta")]
    LevelTooLow { task: u8, reserve: u8, deficit: u32 },
    // The store refuses the draw.
    #[error(transparent)]
    StoreRefused(Overdraw),
}

// By hand, since `from_gives` says which refusal it is.
impl From<OutOfRange> for Denial {
    ghost from_gives = { λ _ d. d ≡ Outside };

    fn from(_out: OutOfRange) -> Denial {
        Self::OutOfRange
    }
}

// By hand, for the same reason.
impl From<Overdraw> for Denial {
    ghost from_gives = { λ o d. d ≡ StoreRefused o };

    fn from(overdraw: Overdraw) -> Denial {
        Self::StoreRefused(overdraw)
    }
}

impl Denial {
    // The number by which the rules name this refusal.
    pub fn number(self) -> u8
        ensures result { result ≡ number_of self }
    {
        match self {
            Denial::ShortReport => 1,
            Denial::OutOfRange => 5,
            Denial::Absent => 6,
            Denial::AlreadyOpen => 7,
            Denial::NoSuchGrant => 8,
            Denial::NotOwner => 9,
            Denial::SameEnds => 10,
            Denial::AboveLimit => 11,
            Denial::InUse => 12,
            Denial::Overused => 13,
            Denial::TooManyGrants => 14,
            Denial::Exhausted => 15,
            Denial::LevelTooLow { .. } => 16,
            Denial::StoreRefused(_) => 17,
        }
    }
}
