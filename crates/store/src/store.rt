// The trait of all stores of energy.
ghost use Rattle.std.specs.Prelude.{◌≡◌, ℕ, List, OnErr, OnOk};
ghost use Rattle.store.specs.Meaning.{Stage, charge, draw, drain, tick, meaning, Sound, Charged, Drawn, Drained, Ticked, top, top_kind, height_of};

use crate::fault::Fault;
use crate::told::Told;

/// A store of energy in whole quanta, told by what it holds, what it can hold, its stages from the bottom up, and what its
/// next tick will lose. The law of a node rests on that alone. What is promised is promised of a value that is `sound`;
/// a store's constructor makes such values, and every call keeps them so.
// No method has a default body: it would be proved once, for ghost members that it does not know.
pub trait Store: Told {
    ghost held: { Self → ℕ };

    ghost capacity: { Self → ℕ };

    ghost stages: { Self → List Stage };

    // What the next tick will lose.
    ghost coming_loss: { Self → ℕ };

    // The value is well made. It is no invariant of a type: a layer over any store knows only what that store promises.
    ghost sound: { Self → Type 0 };

    /// The letter of this kind of store, or of the layer on top: that of the top stage, as faults tell it.
    const KIND: u8;

    ghost KIND: { ℕ };

    /// How many quanta are held; at most the capacity.
    fn held(&self) -> u32
        ensures result { sound self.now → result ≡ held self.now };

    /// How many quanta can be held; at most G. No call changes it.
    fn capacity(&self) -> u32
        ensures result { sound self.now → result ≡ capacity self.now };

    /// The most that a draw is given: what the stage on top has available. At most what is held.
    fn available(&self) -> u32
        ensures result { sound self.now → result ≡ top (stages self.now) };

    /// How many stages stand above the bottom one; 255 stands for that many or more.
    fn height(&self) -> u8
        ensures result { sound self.now → result ≡ height_of (stages self.now) };

    /// Takes in as much of q as there is room for, and answers how much that is. Never refused.
    fn charge(&mut self, q: u32) -> u32
        ensures sound { sound self.old → sound self.new }
        ensures charged { sound self.old → Charged q (meaning held capacity stages self.old) result (meaning held capacity stages self.new) }
        ensures after { sound self.old → Self.after (charge q) self.old self.new };

    /// Gives q out, where so much is available: what is held, and what each stage has, is then less by q. Otherwise the
    /// value stays as it is, and the fault tells which stage had too little, and what it lacked.
    fn draw(&mut self, q: u32) -> Result<(), Fault>
        ensures sound { sound self.old → sound self.new }
        ensures drawn { sound self.old → Drawn q (meaning held capacity stages self.old) result (meaning held capacity stages self.new) }
        ensures same { OnErr result (self.new ≡ self.old) }
        ensures after { sound self.old → OnOk result (Self.after (draw q) self.old self.new) };

    /// Lets go of as much of q as is held, available or not, and answers how much that is. Never refused.
    fn drain(&mut self, q: u32) -> u32
        ensures sound { sound self.old → sound self.new }
        ensures drained { sound self.old → Drained q (meaning held capacity stages self.old) result (meaning held capacity stages self.new) }
        ensures after { sound self.old → Self.after (drain q) self.old self.new };

    /// One tick passes. Answers how many quanta were lost, which is what was coming, and at most what was held.
    fn tick(&mut self) -> u32
        ensures sound { sound self.old → sound self.new }
        ensures ticked { sound self.old → Ticked (meaning held capacity stages self.old) result (meaning held capacity stages self.new) }
        ensures loss { sound self.old → result ≡ coming_loss self.old }
        ensures after { sound self.old → Self.after tick self.old self.new };

    // The meaning of a sound value hangs together.
    ghost means: { (s : Self) → sound s → Sound (meaning held capacity stages s) };

    // The letter is that of the top stage.
    ghost on_top: { (s : Self) → sound s → top_kind (stages s) ≡ KIND };
}
