// Banks: the order of their cells, how many there may be, and what they may hold together.
ghost use Rattle.trials.specs.Tally.{Further};

use crate::call::{Call, script};
use crate::shown::Refusal;
use crate::stack::made;
use crate::tally::Tally;
use rates::G;
use store::{Bank, Store};

const FILLED: &[(Call, &str)] = &[
    (Call::Height, "0"),
    (Call::Capacity, "10"),
    (Call::Charge(20), "10"),
    (Call::Draw(11), "fault height 0, kind F, deficit 1"),
    (Call::Tick, "0"),
    (Call::Drain(3), "3"),
    (Call::Available, "7"),
    (Call::Drain(9), "7"),
];

const EDGES: &[(&[u32], &str)] = &[
    (&[], "5"),
    (&[0], "0"),
    (&[1, 1, 1, 1, 1, 1, 1, 1], "0"),
    (&[1, 1, 1, 1, 1, 1, 1, 1, 1], "5"),
    (&[G - 1, 1], "0"),
    (&[G, 1], "5"),
    (&[u32::MAX, 1], "5"),
];

fn cells(tally: &mut Tally<'_>)
    ensures trials { Further tally.old tally.new }
{
    let Some(mut bank) = made(tally, "cells 5, 3, 2", Bank::new(&[5, 3, 2])) else {
        return;
    };
    let _ = bank.charge(7);
    tally.hold("cells 5, 3, 2 charged with 7", "[5, 2, 0]", &bank);
    let _ = bank.draw(3);
    tally.hold("then draw 3", "[4, 0, 0]", &bank);
}

fn edges(tally: &mut Tally<'_>)
    ensures trials { Further tally.old tally.new }
{
    for (capacities, expected) in EDGES {
        tally.hold(
            format_args!("refusal of a bank of {capacities:?}"),
            expected,
            Refusal(Bank::new(capacities).err()),
        );
    }
}

pub(crate) fn run(tally: &mut Tally<'_>)
    ensures trials { Further tally.old tally.new }
{
    cells(tally);
    script(tally, "cells 5, 3, 2", Bank::new(&[5, 3, 2]), FILLED);
    edges(tally);
}
