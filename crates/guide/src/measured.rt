// A store of which nobody can tell what it will hold: its losses are measured.
ghost use Rattle.std.specs.Prelude.{◌≡◌, IfOk, refl};
ghost use Rattle.store.specs.Meaning.{nothing};
ghost use Rattle.guide.specs.Measured.{new_measured, measured_means, MeasuredSound, measured_store};
ghost use Rattle.guide.specs.Laws.{measured_laws};

use rates::{G, OutOfRange};
use store::{Cell, Fault, Store, Told};

/// A sensor that counts what leaks away.
// It promises nothing: no reading follows from those before it.
pub trait Sensor {
    /// How many quanta have leaked since the last reading.
    fn read(&mut self) -> u32;
}

/// A store whose tick loses what its sensor read last, as far as that is held; then the sensor is read anew. All that it
/// holds is available. Its letter is M.
#[derive(Drop)]
pub struct Measured<M> {
    cell: Cell,
    sensor: M,
    // The last reading, which the next tick takes off.
    reading: u32,
}

impl<M: Sensor> Measured<M> {
    /// A full store, of which nothing has leaked yet. A capacity above G is refused: the sensor comes back.
    pub fn new(capacity: u32, sensor: M) -> Result<Measured<M>, (OutOfRange, M)>
        ensures result { result ≡ new_measured capacity sensor }
        ensures sound { IfOk result MeasuredSound }
    {
        if capacity > G {
            return Err((OutOfRange, sensor));
        }
        Ok(Measured {
            cell: Cell::full(capacity),
            sensor,
            reading: 0,
        })
    }
}

// No function gives its next value, since none gives the next reading.
impl<M: Sensor> Told for Measured<M> {
    ghost after = { nothing };
}

impl<M: Sensor> Store for Measured<M> {
    ghost held = { λ s. (measured_means s).held };

    ghost capacity = { λ s. (measured_means s).capacity };

    ghost stages = { λ s. (measured_means s).stages };

    ghost coming_loss = { measured_store.coming_loss };

    ghost sound = { MeasuredSound };

    const KIND: u8 = b'M';

    ghost KIND = { (measured_store {M = M}).KIND };

    ghost means = { measured_laws };

    ghost on_top = { λ _ s. refl };

    fn held(&self) -> u32 {
        self.cell.held()
    }

    fn capacity(&self) -> u32 {
        self.cell.capacity()
    }

    fn available(&self) -> u32 {
        self.held()
    }

    fn height(&self) -> u8 {
        0
    }

    fn charge(&mut self, q: u32) -> u32 {
        self.cell.charge(q)
    }

    fn draw(&mut self, q: u32) -> Result<(), Fault> {
        self.cell.draw(q).map_err(|deficit| Fault {
            height: 0,
            kind: Self::KIND,
            deficit,
        })
    }

    fn drain(&mut self, q: u32) -> u32 {
        self.cell.drain(q)
    }

    // A reading above what is held takes all.
    fn tick(&mut self) -> u32 {
        let loss = self.drain(self.reading);
        self.reading = self.sensor.read();
        loss
    }
}
