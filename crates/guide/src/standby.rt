// A layer of one's own: a standby current.
ghost use Rattle.std.specs.Prelude.{◌≡◌, refl};
ghost use Rattle.layers.specs.Laws.{all_under};
ghost use Rattle.guide.specs.Standby.{standby_layer};

use layers::Layer;

/// A standby current: at each tick a fixed amount of what the store below holds is lost. Its letter is Y.
#[derive(Drop)]
pub struct Standby {
    amount: u32,
}

impl Standby {
    /// A standby current of any number of quanta.
    pub fn new(amount: u32) -> Standby
        ensures result { result ≡ record { amount = amount } }
    {
        Standby { amount }
    }
}

impl Layer for Standby {
    ghost leak = { standby_layer.leak };

    const KIND: u8 = b'Y';

    ghost KIND = { standby_layer.KIND };

    fn leaves(&self, below: u32) -> u32 {
        below
    }

    fn leak(&self, _held: u32) -> u32 {
        self.amount
    }

    fn tick(&mut self, _held: u32) {}

    ghost lettered = { tt };

    ghost under = { λ y a s. all_under a };

    ghost lowers = { λ y a q s le. refl };
}
