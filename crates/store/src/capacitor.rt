// The capacitor.
ghost use Rattle.std.specs.Prelude.{◌≡◌, IfOk, OnErr, OnOk, refl};
ghost use Rattle.store.specs.Capacitor.{new_capacitor, capacitor_means, CapacitorSound, filled, emptied, capacitor_after, capacitor_store};
ghost use Rattle.store.specs.Meaning.{Charged, Drawn, Drained, Ticked, exactly};
ghost use Rattle.store.specs.Laws.{capacitor_laws};

use crate::cell::Cell;
use crate::fault::Fault;
use crate::store::Store;
use crate::told::Told;
use rates::{G, OutOfRange};

/// A capacitor: one stage of the letter C, all that it holds is available, and a tick loses nothing.
#[derive(Drop)]
pub struct Capacitor {
    cell: Cell,
}

impl Capacitor {
    /// An empty capacitor. A capacity above G is refused.
    pub fn new(capacity: u32) -> Result<Capacitor, OutOfRange>
        ensures result { result ≡ new_capacitor capacity }
        ensures sound { IfOk result CapacitorSound }
    {
        if capacity > G {
            return Err(OutOfRange);
        }
        Ok(Capacitor {
            cell: Cell::empty(capacity),
        })
    }
}

impl Told for Capacitor {
    ghost after = { exactly capacitor_after };
}

impl Store for Capacitor {
    ghost held = { λ c. (capacitor_means c).held };

    ghost capacity = { λ c. (capacitor_means c).capacity };

    ghost stages = { λ c. (capacitor_means c).stages };

    ghost coming_loss = { capacitor_store.coming_loss };

    ghost sound = { CapacitorSound };

    const KIND: u8 = b'C';

    ghost KIND = { capacitor_store.KIND };

    ghost means = { capacitor_laws };

    ghost on_top = { λ _ s. refl };

    fn held(&self) -> u32 {
        self.cell.held()
    }

    fn capacity(&self) -> u32 {
        self.cell.capacity()
    }

    fn available(&self) -> u32 {
        self.held()
    }

    fn height(&self) -> u8 {
        0
    }

    fn charge(&mut self, q: u32) -> u32
        ensures sound { CapacitorSound self.old → CapacitorSound self.new }
        ensures charged { CapacitorSound self.old → Charged q (capacitor_means self.old) result (capacitor_means self.new) }
        ensures after { self.new ≡ filled q self.old }
    {
        self.cell.charge(q)
    }

    fn draw(&mut self, q: u32) -> Result<(), Fault>
        ensures sound { CapacitorSound self.old → CapacitorSound self.new }
        ensures drawn { CapacitorSound self.old → Drawn q (capacitor_means self.old) result (capacitor_means self.new) }
        ensures same { OnErr result (self.new ≡ self.old) }
        ensures after { OnOk result (self.new ≡ emptied q self.old) }
    {
        self.cell.draw(q).map_err(|deficit| Fault {
            height: 0,
            kind: Self::KIND,
            deficit,
        })
    }

    fn drain(&mut self, q: u32) -> u32
        ensures sound { CapacitorSound self.old → CapacitorSound self.new }
        ensures drained { CapacitorSound self.old → Drained q (capacitor_means self.old) result (capacitor_means self.new) }
        ensures after { self.new ≡ emptied q self.old }
    {
        self.cell.drain(q)
    }

    fn tick(&mut self) -> u32
        ensures sound { CapacitorSound self.old → CapacitorSound self.new }
        ensures ticked { CapacitorSound self.old → Ticked (capacitor_means self.old) result (capacitor_means self.new) }
        ensures result { result ≡ 0 }
        ensures same { self.new ≡ self.old }
    {
        // A tick loses nothing.
        0
    }
}
