// Failures: the sentence that each ends a program with, but that of a failure to print, which is the system's.
ghost use Rattle.trials.specs.Tally.{Further};

use crate::tally::Tally;
use example::Failure;
use node::Denial;
use rates::OutOfRange;
use store::Fault;

const LACK: Fault = Fault {
    height: 0,
    kind: b'C',
    deficit: 7,
};

pub(crate) fn run(tally: &mut Tally<'_>)
    ensures trials { Further tally.old tally.new }
{
    tally.hold(
        "failure of a store's numbers",
        "a store's numbers lie outside their range",
        Failure::from(OutOfRange),
    );
    tally.hold(
        "failure of a draw that lacks 7",
        "a store lacks 7 quanta",
        Failure::from(LACK),
    );
    tally.hold(
        "failure of a call",
        "64 grants are open: settle one first",
        Failure::from(Denial::TooManyGrants),
    );
}
