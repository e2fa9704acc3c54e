// Leakage: the remainder that it keeps, the edges of its part, and layers above and below it.
ghost use Rattle.trials.specs.Tally.{Further};

use crate::call::{Call, script};
use crate::shown::Refusal;
use crate::stack::{charged, over};
use crate::tally::Tally;
use layers::{Floor, Leakage};

const FIGURE: &[(Call, &str)] = &[
    (Call::Tick, "2"),
    (Call::Tick, "2"),
    (Call::Held, "21"),
    (Call::Tick, "2"),
];

// The stages begin at 10, 6, 6 and 4.
const DEEP: &[(Call, &str)] = &[
    (Call::Height, "3"),
    (Call::Draw(5), "fault height 3, kind R, deficit 1"),
    (Call::Draw(7), "fault height 1, kind R, deficit 1"),
    (Call::Draw(11), "fault height 0, kind C, deficit 1"),
    (Call::Tick, "5"),
    (Call::Available, "0"),
    (Call::Draw(1), "fault height 3, kind R, deficit 1"),
    (Call::Tick, "2"),
    (Call::Draw(1), "fault height 1, kind R, deficit 1"),
    (Call::Tick, "2"),
    (Call::Held, "1"),
];

const TWICE: &[(Call, &str)] = &[(Call::Tick, "19"), (Call::Held, "81")];

pub(crate) fn run(tally: &mut Tally<'_>)
    ensures trials { Further tally.old tally.new }
{
    script(
        tally,
        "leakage 1000 over 25",
        over(Leakage::new(1_000), charged(100, 25)),
        FIGURE,
    );
    tally.hold(
        "refusal of leakage 10001",
        "5",
        Refusal(over(Leakage::new(10_001), charged(25, 25)).err()),
    );
    script(
        tally,
        "floor 2 over leakage 5000 over floor 4 over 10",
        over(
            Ok(Floor::new(2)),
            over(
                Leakage::new(5_000),
                over(Ok(Floor::new(4)), charged(10, 10)),
            ),
        ),
        DEEP,
    );
    script(
        tally,
        "leakage 1000 over leakage 1000 over 100",
        over(
            Leakage::new(1_000),
            over(Leakage::new(1_000), charged(100, 100)),
        ),
        TWICE,
    );
}
