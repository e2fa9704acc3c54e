// Leakage.
ghost use Rattle.std.specs.Prelude.{◌≡◌, ◌+◌, ◌*◌, IfOk, refl};
ghost use Rattle.layers.specs.Leakage.{new_leakage, LeakSound, leakage_layer};
ghost use Rattle.layers.specs.Laws.{all_under};

use crate::layer::Layer;
use rates::{OutOfRange, PARTS};

/// Leakage: at each tick a part of what the store below holds is lost, available or not. Its letter is L. What is less than
/// a quantum is kept, and counts at the next tick.
#[derive(Drop)]
pub struct Leakage {
    part: u16,
    // What the leaks so far have left over, in ten-thousandths of a quantum.
    remainder: u16,
}

impl Leakage {
    /// A leakage of so many ten-thousandths, which has kept nothing yet. A part above 10,000 is refused.
    pub fn new(part: u16) -> Result<Leakage, OutOfRange>
        ensures result { result ≡ new_leakage part }
        ensures sound { IfOk result LeakSound }
    {
        if part > PARTS {
            return Err(OutOfRange);
        }
        Ok(Leakage { part, remainder: 0 })
    }

    // What leaks of so much with what was left over, in ten-thousandths of a quantum.
    fn due(&self, held: u32) -> u64
        ensures result { result ≡ held * self.now.part + self.now.remainder }
    {
        u64::from(held) * u64::from(self.part) + u64::from(self.remainder)
    }
}

impl Layer for Leakage {
    ghost leak = { leakage_layer.leak };

    ghost after = { leakage_layer.after };

    ghost sound = { leakage_layer.sound };

    const KIND: u8 = b'L';

    ghost KIND = { leakage_layer.KIND };

    fn leaves(&self, below: u32) -> u32 {
        below
    }

    fn leak(&self, held: u32) -> u32 {
        (self.due(held) / u64::from(PARTS)).min(u64::from(held)) as u32
    }

    fn tick(&mut self, held: u32) {
        self.remainder = (self.due(held) % u64::from(PARTS)) as u16;
    }

    ghost lettered = { tt };

    ghost under = { λ l a s. all_under a };

    ghost lowers = { λ l a q s le. refl };
}
