// The floor.
ghost use Rattle.std.specs.Prelude.{◌≡◌};
ghost use Rattle.layers.specs.Floor.{floor_layer};
ghost use Rattle.layers.specs.Laws.{less_under, less_lowers};

use crate::layer::Layer;

/// A floor: the lowest part of what is available below stays out of a draw's reach. Its letter is R; nothing leaks.
#[derive(Drop)]
pub struct Floor {
    amount: u32,
}

impl Floor {
    /// A floor of any number of quanta.
    pub fn new(amount: u32) -> Floor
        ensures result { result ≡ record { amount = amount } }
    {
        Floor { amount }
    }
}

impl Layer for Floor {
    ghost leaves = { floor_layer.leaves };

    const KIND: u8 = b'R';

    ghost KIND = { floor_layer.KIND };

    fn leaves(&self, below: u32) -> u32 {
        below.saturating_sub(self.amount)
    }

    fn leak(&self, _held: u32) -> u32 {
        0
    }

    fn tick(&mut self, _held: u32) {}

    ghost lettered = { tt };

    ghost under = { λ f a s. less_under f.amount a };

    ghost lowers = { λ f a q s le. less_lowers f.amount a q };
}
