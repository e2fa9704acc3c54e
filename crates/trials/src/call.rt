// Calls of a store, written down so that a table can hold them.
ghost use Rattle.std.specs.Prelude.{length};
ghost use Rattle.trials.specs.Tally.{Adds};
ghost use Rattle.trials.specs.Stack.{unless_made};
ghost use Rattle.trials.specs.Call.{Asked};

use crate::stack::made;
use crate::tally::Tally;
use rates::OutOfRange;
use std::fmt;
use std::fmt::Display;
use store::{Fault, Store};

// Data and no closures, since each call is told by its name and by what it asks.
#[derive(Clone, Copy)]
pub(crate) enum Call {
    Held,
    Capacity,
    Available,
    Height,
    Charge(u32),
    Draw(u32),
    Drain(u32),
    Tick,
}

// By hand, as that of an answer: the trials compare these words, and a derive of text is for errors.
impl fmt::Display for Call {
    fn fmt<W: fmt::Write>(&self, f: &mut fmt::Formatter<W>) -> fmt::Result {
        match self {
            Call::Held => f.write_str("held"),
            Call::Capacity => f.write_str("capacity"),
            Call::Available => f.write_str("available"),
            Call::Height => f.write_str("height"),
            Call::Charge(q) => write!(f, "charge {q}"),
            Call::Draw(q) => write!(f, "draw {q}"),
            Call::Drain(q) => write!(f, "drain {q}"),
            Call::Tick => f.write_str("tick"),
        }
    }
}

// What a store answered.
#[derive(Clone, Copy)]
enum Came {
    Number(u32),
    Drawn(Result<(), Fault>),
}

impl fmt::Display for Came {
    fn fmt<W: fmt::Write>(&self, f: &mut fmt::Formatter<W>) -> fmt::Result {
        match self {
            Came::Number(number) => write!(f, "{number}"),
            Came::Drawn(Ok(())) => f.write_str("accepted"),
            Came::Drawn(Err(fault)) => {
                let Fault {
                    height,
                    kind,
                    deficit,
                } = fault;
                let kind = char::from(*kind);
                write!(f, "fault height {height}, kind {kind}, deficit {deficit}")
            }
        }
    }
}

fn answer<S: Store>(store: &mut S, call: Call) -> Came
    ensures sound { S.sound store.old → S.sound store.new }
    ensures asked { S.sound store.old → Asked (S.Store.own) store.old call result store.new }
{
    match call {
        Call::Held => Came::Number(store.held()),
        Call::Capacity => Came::Number(store.capacity()),
        Call::Available => Came::Number(store.available()),
        Call::Height => Came::Number(u32::from(store.height())),
        Call::Charge(q) => Came::Number(store.charge(q)),
        Call::Draw(q) => Came::Drawn(store.draw(q)),
        Call::Drain(q) => Came::Number(store.drain(q)),
        Call::Tick => Came::Number(store.tick()),
    }
}

// One store's calls in turn, each with its answer.
pub(crate) fn script<S: Store + Drop>(
    tally: &mut Tally<'_>,
    name: impl Display + Drop,
    new: Result<S, OutOfRange>,
    calls: &[(Call, &str)],
)
    ensures trials { Adds (unless_made new (length calls.now)) tally.old tally.new }
{
    let Some(mut store) = made(tally, format_args!("{name}"), new) else {
        return;
    };
    for (call, expected) in calls {
        let came = answer(&mut store, *call);
        tally.hold(format_args!("{name}, {call}"), expected, came);
    }
}
