// Constant rates: their dues with the remainder kept, and the edges of their ranges.
ghost use Rattle.std.specs.Prelude.{◌≡◌, MatchResult};
ghost use Rattle.rates.specs.Rate.{Fits};
ghost use Rattle.node.specs.declared.denial.Denial.TheVariants.{OutOfRange as Outside};
ghost use Rattle.frame.specs.declared.fault.FrameFault.TheVariants.{Denied};
ghost use Rattle.trials.specs.Tally.{Further};
ghost use Rattle.trials.specs.Rate.{DuesOf};

use crate::shown::Told;
use crate::tally::Tally;
use frame::FrameFault;
use rates::Rate;
use std::fmt;

// The rate n/d with the remainder r, and what is expected of so many ticks.
struct Case {
    n: u32,
    d: u32,
    r: u32,
    ticks: u8,
    expected: &'static str,
}

const RATES: &[Case] = &[
    Case {
        n: 1,
        d: 3,
        r: 0,
        ticks: 6,
        expected: "[0][0][1][0][0][1]",
    },
    Case {
        n: 7,
        d: 2,
        r: 0,
        ticks: 4,
        expected: "[3][4][3][4]",
    },
    Case {
        n: 0,
        d: 1,
        r: 0,
        ticks: 2,
        expected: "[0][0]",
    },
    Case {
        n: 1_000_000,
        d: 1,
        r: 0,
        ticks: 1,
        expected: "[1000000]",
    },
    Case {
        n: 1_000_000,
        d: 65_535,
        r: 0,
        ticks: 4,
        expected: "[15][15][15][16]",
    },
    Case {
        n: 1,
        d: 3,
        r: 2,
        ticks: 3,
        expected: "[1][0][0]",
    },
    Case {
        n: 1_000_001,
        d: 1,
        r: 0,
        ticks: 1,
        expected: "refused 5",
    },
    Case {
        n: 1,
        d: 0,
        r: 0,
        ticks: 1,
        expected: "refused 5",
    },
    Case {
        n: 1,
        d: 65_536,
        r: 0,
        ticks: 1,
        expected: "refused 5",
    },
    Case {
        n: 1,
        d: 3,
        r: 3,
        ticks: 1,
        expected: "refused 5",
    },
];

// What a rate is due at each of its next ticks.
#[derive(Drop)]
struct Dues {
    rate: Rate,
    ticks: u8,
}

impl Dues {
    fn of(case: &Case) -> Result<Dues, FrameFault>
        ensures result { MatchResult result (DuesOf case.now) (λ fault. (Fits case.now.n case.now.d case.now.r → ⊥) × (fault ≡ Denied Outside)) }
    {
        let rate = Rate::resume(case.n, case.d, case.r)?;
        Ok(Dues {
            rate,
            ticks: case.ticks,
        })
    }
}

// By hand: no derive makes steps.
impl fmt::Display for Dues {
    fn fmt<W: fmt::Write>(&self, f: &mut fmt::Formatter<W>) -> fmt::Result {
        let mut rate = self.rate;
        for _ in 0..self.ticks {
            let (due, _) = rate.step();
            write!(f, "[{due}]")?;
            rate = rate.stepped();
        }
        Ok(())
    }
}

pub(crate) fn run(tally: &mut Tally<'_>)
    ensures trials { Further tally.old tally.new }
{
    for case in RATES {
        let Case {
            n,
            d,
            r,
            expected,
            ..
        } = case;
        tally.hold(
            format_args!("dues of {n}/{d} with remainder {r}"),
            expected,
            Told(Dues::of(case)),
        );
    }
}
