// The trait of all layers.
ghost use Rattle.std.specs.Prelude.{◌≡◌, ℕ, ◌-◌, ◌≤◌, T};
ghost use Rattle.store.specs.Meaning.{letter};

use crate::layered::Layered;

/// A layer over a store, told by the stage that it adds on top, and by what a tick lets leak of what the store below holds.
/// `leaves` and `leak` are questions; `tick` alone changes it.
// No method has a default body: it would be proved once, for ghost members that it does not know.
pub trait Layer {
    // How much it leaves available where so much is available below.
    ghost leaves: { Self → ℕ → ℕ } = { λ l below. below };

    // How much leaks at a tick from a store that holds so much.
    ghost leak: { Self → ℕ → ℕ } = { λ l held. 0 };

    // The layer after that tick.
    ghost after: { Self → ℕ → Self } = { λ l held. l };

    // The value is well made; every call keeps it so.
    ghost sound: { Self → Type 0 } = { λ l. Unit {0} };

    /// The letter of this kind of layer, and so of the stage that it adds.
    const KIND: u8;

    ghost KIND: { ℕ };

    /// How much of what is available below it leaves available.
    fn leaves(&self, below: u32) -> u32
        ensures result { sound self.now → result ≡ leaves self.now below };

    /// How much a tick lets leak from a store that then holds so much.
    fn leak(&self, held: u32) -> u32
        ensures result { sound self.now → result ≡ leak self.now held };

    /// A tick passes over a store that then holds so much.
    fn tick(&mut self, held: u32)
        ensures sound { sound self.old → sound self.new }
        ensures after { sound self.old → self.new ≡ after self.old held };

    /// This layer over the store.
    final fn over<S>(self, below: S) -> Layered<S, Self>
    where
        Self: Sized,
        ensures result { result ≡ record { below = below; layer = self } }
    {
        Layered { below, layer: self }
    }

    // The letter is one of ASCII.
    ghost lettered: { T (letter KIND) };

    // It leaves no more than there is.
    ghost under: { (l : Self) (a : ℕ) → sound l → leaves l a ≤ a };

    // What a draw takes below is taken off what it leaves.
    ghost lowers: { (l : Self) (a q : ℕ) → sound l → q ≤ leaves l a → leaves l (a - q) ≡ leaves l a - q };
}
