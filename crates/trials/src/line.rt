// Lines: what a whole line is answered, in which order it is looked at, and the array that the answer goes to.
ghost use Rattle.std.specs.Prelude.{length};
ghost use Rattle.trials.specs.Tally.{Adds, Further};

use crate::shown::{Told, Written};
use crate::tally::Tally;
use frame::ROOM;
use simulator::Simulator;

// No node stands until a capacitor of G is built.
const CAPACITOR: &[(&str, &str)] = &[
    ("", "02$"),
    ("1", "02$"),
    (
        "00000000000000000000000000000000000000000000000000000000000000000000000000000000",
        "03$",
    ),
    (
        "0000000000000000000000000000000000000000000000000000000000000000000000000000000000",
        "02$",
    ),
    ("100000006/", "02$"),
    ("100000006:", "02$"),
    ("100000006@", "02$"),
    ("100000006G", "02$"),
    ("100000006a", "02$"),
    ("00", "03$"),
    ("04", "03$"),
    ("0A", "03$"),
    ("13", "03$"),
    ("08000000", "03$"),
    ("0800000000FF", "03$"),
    ("083B9ACA01", "04$"),
    ("103B9ACA01", "05$"),
    ("0800000001", "04$"),
    ("103B9ACA00", "00$"),
    ("10FFFFFFFF", "04$"),
    ("10000000", "03$"),
    ("083B9ACA01", "05$"),
    ("083B9ACA00", "00000000003B9ACA00$"),
    ("0800000001", "000000000000000000$"),
];

const LAYERED: &[(&str, &str)] = &[
    ("110000006400000004", "03$"),
    ("1100000064000000042711", "05$"),
    ("11000000640000000403E8", "00$"),
    ("0800000019", "000000000000000019$"),
    ("0800000000", "000000000200000000$"),
    ("080000000A", "00000000020000000A$"),
    ("0800000000", "000000000300000000$"),
];

const BANK: &[(&str, &str)] = &[
    ("123B9ACA000000000100000000", "05$"),
    ("12000000050000000300000002", "00$"),
    ("0800000007", "000000000000000007$"),
    ("0800000007", "000000000000000003$"),
];

// One reserve with a tap: a request beyond its level, one within it, and the books.
const WORKED: &[(&str, &str)] = &[
    ("1000000064", "00$"),
    ("01000001070000003200000000", "00$"),
    ("0300000001000000010001", "00$"),
    ("080000000A", "00000000000000000A$"),
    ("06070100000002", "10070100000001$"),
    ("06070100000001", "0000000001$"),
    ("07070000000100000001", "0000000000$"),
    (
        "09",
        "00000000000000000A000000000000000900000000000000000000000000000001000000000000000000000000000000010000000000000001$",
    ),
];

// A grant of 5 settled when the capacitor of 10 holds 9: with 6 used, with 2 used, and once more; then one that is used up.
const UNUSED: &[(&str, &str)] = &[
    ("100000000A", "00$"),
    ("080000000A", "00000000000000000A$"),
    ("06000000000005", "0000000001$"),
    ("0800000004", "000000000000000004$"),
    ("07000000000100000006", "0D$"),
    ("07000000000100000002", "0000000002$"),
    ("07000000000100000002", "08$"),
    (
        "09",
        "00000000000000000E000000000000000A00000000000000000000000000000002000000000000000200000000000000050000000000000005$",
    ),
    ("06000000000005", "0000000002$"),
    ("07000000000200000005", "0000000000$"),
    (
        "09",
        "00000000000000000E0000000000000005000000000000000000000000000000070000000000000002000000000000000A000000000000000A$",
    ),
];

// A loss of 7 over a root with 3, reserve 4 with 2 and reserve 1 with 5 leaves 0, 0 and 3.
const LOSS: &[(&str, &str)] = &[
    ("110000000A000000001B58", "00$"),
    ("080000000A", "00000000000000000A$"),
    ("01000004000000000A00000002", "00$"),
    ("01000001000000000A00000005", "00$"),
    ("0800000000", "000000000700000000$"),
    ("06000000000001", "10000000000001$"),
    ("06000400000001", "10000400000001$"),
    ("06000100000004", "10000100000001$"),
    (
        "09",
        "00000000000000000A000000000000000300000000000000000000000000000000000000000000000700000000000000000000000000000000$",
    ),
];

// A capacitor of 0 takes nothing.
const NO_ROOM: &[(&str, &str)] = &[
    ("1000000000", "00$"),
    ("0800000005", "000000000000000000$"),
    (
        "09",
        "000000000000000005000000000000000000000000000000000000000000000000000000000000000500000000000000000000000000000000$",
    ),
];

// Leakage of 10,000 parts loses all that was held, and not this tick's harvest.
const ALL_LEAKS: &[(&str, &str)] = &[
    ("110000001E000000002710", "00$"),
    ("0800000019", "000000000000000019$"),
    ("0800000007", "000000001900000007$"),
    (
        "09",
        "000000000000000020000000000000000700000000000000000000000000000000000000000000001900000000000000000000000000000000$",
    ),
];

// Leakage of 0 parts loses nothing, and a floor above the capacity lets nothing be drawn.
const NONE_LEAKS: &[(&str, &str)] = &[
    ("110000001EFFFFFFFF0000", "00$"),
    ("0800000019", "000000000000000019$"),
    ("0800000000", "000000000000000000$"),
    ("06000000000001", "110000015200000001$"),
    ("0600000000001A", "10000000000001$"),
];

// A grant of 1 from the root.
const GRANT: &str = "06000000000001";

const MOST_GRANTS: u8 = 64;

const CHARGED: &[(&str, &str)] = &[("1000000064", "00$"), ("0800000064", "000000000000000064$")];

// With one grant less than may be open: the last one, the next, and another once one is settled.
const FULL: &[(&str, &str)] = &[
    (GRANT, "0000000040$"),
    (GRANT, "0E$"),
    ("07000000004000000000", "0000000000$"),
    (GRANT, "0000000041$"),
];

// Lines to the simulator, each with its answer, as far as the simulator says that it wrote.
fn session(tally: &mut Tally<'_>, simulator: &mut Simulator, lines: &[(&str, &str)])
    ensures trials { Adds (length lines.now) tally.old tally.new }
{
    for (line, expected) in lines {
        let mut out = [0; ROOM];
        let came = simulator.answer(line.as_bytes(), &mut out);
        tally.hold(*line, expected, Told(came.map(|len| Written(&out[..len]))));
    }
}

// As many grants as may be open, and more; of the first ones no trial is made.
fn grants(tally: &mut Tally<'_>)
    ensures trials { Further tally.old tally.new }
{
    let mut simulator = Simulator::new();
    session(tally, &mut simulator, CHARGED);
    for _ in 1..MOST_GRANTS {
        let _ = simulator.answer(GRANT.as_bytes(), &mut [0; ROOM]);
    }
    session(tally, &mut simulator, FULL);
}

// A line into an array that is one byte too short.
fn short(tally: &mut Tally<'_>)
    ensures trials { Adds 1 tally.old tally.new }
{
    let mut out = [0; ROOM - 1];
    let came = Simulator::new().answer(b"1000000064", &mut out);
    tally.hold("into 159 bytes", "refused 1", Told(came));
}

// Each is a simulator of its own.
const SESSIONS: &[&[(&str, &str)]] = &[
    CAPACITOR, LAYERED, BANK, WORKED, UNUSED, LOSS, NO_ROOM, ALL_LEAKS, NONE_LEAKS,
];

pub(crate) fn run(tally: &mut Tally<'_>)
    ensures trials { Further tally.old tally.new }
{
    for lines in SESSIONS {
        session(tally, &mut Simulator::new(), lines);
    }
    grants(tally);
    short(tally);
}
