// A store of one's own: a battery.
ghost use Rattle.std.specs.Prelude.{◌≡◌, IfOk, OnErr, OnOk, min, refl};
ghost use Rattle.store.specs.Meaning.{Charged, Drawn, Drained, Ticked, exactly};
ghost use Rattle.guide.specs.Battery.{new_battery, battery_means, battery_after, BatterySound, filled, emptied, battery_store};
ghost use Rattle.guide.specs.Laws.{battery_laws};

use rates::{G, OutOfRange};
use store::{Cell, Fault, Store, Told};

// What a tick loses, while anything is held.
const SELF_DISCHARGE: u32 = 1;

/// A battery: it comes full, all that it holds is available, and a tick loses 1 quantum of it. Its letter is B.
#[derive(Drop)]
pub struct Battery {
    cell: Cell,
}

impl Battery {
    /// A full battery. A capacity above G is refused.
    pub fn new(capacity: u32) -> Result<Battery, OutOfRange>
        ensures result { result ≡ new_battery capacity }
        ensures sound { IfOk result BatterySound }
    {
        if capacity > G {
            return Err(OutOfRange);
        }
        Ok(Battery {
            cell: Cell::full(capacity),
        })
    }
}

// Its next value is a function of what it is, and is told exactly.
impl Told for Battery {
    ghost after = { exactly battery_after };
}

// Written out in full, as an example: each call is its cell's.
impl Store for Battery {
    ghost held = { λ b. (battery_means b).held };

    ghost capacity = { λ b. (battery_means b).capacity };

    ghost stages = { λ b. (battery_means b).stages };

    ghost coming_loss = { battery_store.coming_loss };

    ghost sound = { BatterySound };

    const KIND: u8 = b'B';

    ghost KIND = { battery_store.KIND };

    ghost means = { battery_laws };

    ghost on_top = { λ _ s. refl };

    fn held(&self) -> u32 {
        self.cell.held()
    }

    fn capacity(&self) -> u32 {
        self.cell.capacity()
    }

    fn available(&self) -> u32 {
        self.held()
    }

    fn height(&self) -> u8 {
        0
    }

    fn charge(&mut self, q: u32) -> u32
        ensures sound { BatterySound self.old → BatterySound self.new }
        ensures charged { BatterySound self.old → Charged q (battery_means self.old) result (battery_means self.new) }
        ensures after { self.new ≡ filled q self.old }
    {
        self.cell.charge(q)
    }

    fn draw(&mut self, q: u32) -> Result<(), Fault>
        ensures sound { BatterySound self.old → BatterySound self.new }
        ensures drawn { BatterySound self.old → Drawn q (battery_means self.old) result (battery_means self.new) }
        ensures same { OnErr result (self.new ≡ self.old) }
        ensures after { OnOk result (self.new ≡ emptied q self.old) }
    {
        self.cell.draw(q).map_err(|deficit| Fault {
            height: 0,
            kind: Self::KIND,
            deficit,
        })
    }

    fn drain(&mut self, q: u32) -> u32
        ensures sound { BatterySound self.old → BatterySound self.new }
        ensures drained { BatterySound self.old → Drained q (battery_means self.old) result (battery_means self.new) }
        ensures after { self.new ≡ emptied q self.old }
    {
        self.cell.drain(q)
    }

    fn tick(&mut self) -> u32
        ensures sound { BatterySound self.old → BatterySound self.new }
        ensures ticked { BatterySound self.old → Ticked (battery_means self.old) result (battery_means self.new) }
        ensures loss { BatterySound self.old → result ≡ min 1 self.old.cell.held }
        ensures after { self.new ≡ emptied 1 self.old }
    {
        self.drain(SELF_DISCHARGE)
    }
}
