// That what stores and layers tell leaves one value.
ghost use Rattle.store.specs.Meaning.{Determined};

use crate::layer::Layer;
use crate::layered::Layered;
use store::{Bank, Capacitor, Store, Told};

/// States what is known of the next value of a store: after each change of a capacitor, or of a bank, one value agrees with
/// what it tells, and no other does; and so it is with any layer over a store of which this holds, be that a layer again.
/// The call does nothing.
pub fn told_is_one<S: Store, L: Layer>()
    ensures capacitor { Determined (⟦<Capacitor as Told>⟧.after) }
    ensures bank { Determined (⟦<Bank as Told>⟧.after) }
    ensures layered { Determined S.after → Determined (⟦<Layered<S, L> as Told>⟧.after) }
{}
