// Capacitors: the edges of the capacity, a charge above the room, refused and accepted draws, drains and ticks.
ghost use Rattle.trials.specs.Tally.{Further};

use crate::call::{Call, script};
use crate::shown::Refusal;
use crate::tally::Tally;
use rates::G;
use store::Capacitor;

const SMALL: &[(Call, &str)] = &[
    (Call::Height, "0"),
    (Call::Held, "0"),
    (Call::Charge(7), "7"),
    (Call::Charge(7), "3"),
    (Call::Charge(u32::MAX), "0"),
    (Call::Capacity, "10"),
    (Call::Tick, "0"),
    (Call::Drain(4), "4"),
    (Call::Available, "6"),
    (Call::Draw(7), "fault height 0, kind C, deficit 1"),
    (
        Call::Draw(u32::MAX),
        "fault height 0, kind C, deficit 4294967289",
    ),
    (Call::Held, "6"),
    (Call::Draw(5), "accepted"),
    (Call::Drain(4), "1"),
    (Call::Draw(0), "accepted"),
    (Call::Draw(1), "fault height 0, kind C, deficit 1"),
];

pub(crate) fn run(tally: &mut Tally<'_>)
    ensures trials { Further tally.old tally.new }
{
    script(tally, "capacitor of 10", Capacitor::new(10), SMALL);
    script(
        tally,
        "capacitor of G",
        Capacitor::new(G),
        &[(Call::Charge(u32::MAX), "1000000000")],
    );
    tally.hold(
        "refusal of a capacitor of G + 1",
        "5",
        Refusal(Capacitor::new(G + 1).err()),
    );
}
