// Floors: what they keep from a draw, whose fault is told, and what they do not stop.
ghost use Rattle.trials.specs.Tally.{Further};

use crate::call::{Call, script};
use crate::stack::{charged, over};
use crate::tally::Tally;
use layers::Floor;

const OVER_SIX: &[(Call, &str)] = &[
    (Call::Height, "1"),
    (Call::Available, "2"),
    (Call::Draw(3), "fault height 1, kind R, deficit 1"),
    (Call::Draw(7), "fault height 0, kind C, deficit 1"),
    (Call::Draw(2), "accepted"),
    (Call::Held, "4"),
    (Call::Draw(0), "accepted"),
    (Call::Draw(1), "fault height 1, kind R, deficit 1"),
];

const ABOVE: &[(Call, &str)] = &[
    (Call::Available, "0"),
    (Call::Draw(1), "fault height 1, kind R, deficit 1"),
    (Call::Drain(2), "2"),
    (Call::Charge(20), "9"),
    (Call::Held, "10"),
];

pub(crate) fn run(tally: &mut Tally<'_>)
    ensures trials { Further tally.old tally.new }
{
    script(
        tally,
        "floor 4 over 6",
        over(Ok(Floor::new(4)), charged(10, 6)),
        OVER_SIX,
    );
    script(
        tally,
        "floor 4294967295 over 3",
        over(Ok(Floor::new(u32::MAX)), charged(10, 3)),
        ABOVE,
    );
}
