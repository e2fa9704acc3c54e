// What ends an example early. It is `Drop`, so it holds no slip.
ghost use Rattle.std.specs.Prelude.{◌≡◌};
ghost use Rattle.example.specs.declared.failure.Failure.TheVariants.{OutOfRange as Outside, Fault as Refused, Denied, Output};

use node::Denial;
use rates::OutOfRange;
use std::io;
use store::Fault;
use thiserror::Error;

#[derive(Debug, Drop, Error)]
pub enum Failure {
    // A store could not be made.
    #[error("a store's numbers lie outside their range")]
    OutOfRange(OutOfRange),
    // A store refused a draw.
    #[error("a store lacks {deficit} quanta", deficit = .0.deficit)]
    Fault(Fault),
    // A node refused a call.
    #[error(transparent)]
    Denied(Denial),
    #[error(transparent)]
    Output(io::Error),
}

// By hand, as the ones after it, since `from_gives` says which failure it is.
impl From<OutOfRange> for Failure {
    ghost from_gives = { λ out f. f ≡ Outside out };

    fn from(out: OutOfRange) -> Failure {
        Failure::OutOfRange(out)
    }
}

impl From<Fault> for Failure {
    ghost from_gives = { λ fault f. f ≡ Refused fault };

    fn from(fault: Fault) -> Failure {
        Failure::Fault(fault)
    }
}

impl From<Denial> for Failure {
    ghost from_gives = { λ denial f. f ≡ Denied denial };

    fn from(denial: Denial) -> Failure {
        Failure::Denied(denial)
    }
}

impl From<io::Error> for Failure {
    ghost from_gives = { λ error f. f ≡ Output error };

    fn from(error: io::Error) -> Failure {
        Failure::Output(error)
    }
}
