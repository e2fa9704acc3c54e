// Stores to run calls on, where they can be made.
ghost use Rattle.std.specs.Prelude.{◌≡◌, None, Some, MatchResult};
ghost use Rattle.trials.specs.Tally.{Adds};
ghost use Rattle.trials.specs.Stack.{charged_of, layered_of, unless_made};

use crate::tally::Tally;
use layers::{Layer, Layered};
use rates::OutOfRange;
use std::fmt::Display;
use store::{Capacitor, Store};

// A capacitor that was charged once.
pub(crate) fn charged(capacity: u32, q: u32) -> Result<Capacitor, OutOfRange>
    ensures result { result ≡ charged_of capacity q }
{
    let mut capacitor = Capacitor::new(capacity)?;
    let _ = capacitor.charge(q);
    Ok(capacitor)
}

// The layer over the store, if there are both.
pub(crate) fn over<S: Drop, L: Layer + Drop>(
    layer: Result<L, OutOfRange>,
    below: Result<S, OutOfRange>,
) -> Result<Layered<S, L>, OutOfRange>
    ensures result { result ≡ layered_of layer below }
{
    Ok(layer?.over(below?))
}

// A store that could not be made is one trial that differs. A match, since no clause tells what a closure counts.
pub(crate) fn made<S>(
    tally: &mut Tally<'_>,
    name: impl Display + Drop,
    new: Result<S, OutOfRange>,
) -> Option<S>
    ensures result { MatchResult new (λ s. result ≡ Some s) (λ _. result ≡ None) }
    ensures trials { Adds (unless_made new 0) tally.old tally.new }
{
    match new {
        Ok(store) => Some(store),
        Err(_) => {
            tally.hold(name, "made", "refused");
            None
        }
    }
}
