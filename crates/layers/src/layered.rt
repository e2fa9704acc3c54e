// A store under a layer.
ghost use Rattle.std.specs.Prelude.{◌≡◌, OnErr, OnOk};
ghost use Rattle.store.specs.Meaning.{Charged, Drawn, Drained, Ticked, charge, draw, drain, tick};
ghost use Rattle.layers.specs.Layered.{layered_means, layered_loss, layered_after, LayeredSound, AfterTick, Leaked};
ghost use Rattle.store.proofs.Stages.{sound_more, top_kind_more};

use crate::layer::Layer;
use store::{Fault, Store, Told};

/// A layer over a store: a store again, with the layer's stage on top. A call that the layer has no part in goes to the
/// store below as it is, and so does that store's fault come up.
#[derive(Drop)]
pub struct Layered<S, L> {
    pub(crate) below: S,
    pub(crate) layer: L,
}

impl<S: Store, L: Layer> Told for Layered<S, L> {
    ghost after = { layered_after (S.Store.own) (L.Layer) (S.after) };
}

impl<S: Store, L: Layer> Store for Layered<S, L> {
    ghost held = { λ y. (layered_means (S.Store.own) (L.Layer) y).held };

    ghost capacity = { λ y. (layered_means (S.Store.own) (L.Layer) y).capacity };

    ghost stages = { λ y. (layered_means (S.Store.own) (L.Layer) y).stages };

    ghost coming_loss = { layered_loss (S.Store.own) (L.Layer) };

    ghost sound = { LayeredSound (S.Store.own) (L.Layer) };

    const KIND: u8 = L::KIND;

    ghost KIND = { L.Layer.KIND };

    ghost means = { λ y s. sound_more _ _ (S.Store.means y.below s.0) (L.Layer.lettered) (L.Layer.under y.layer _ s.1) };

    ghost on_top = { λ y _. top_kind_more (S.Store.stages y.below) _ };

    fn held(&self) -> u32 {
        self.below.held()
    }

    fn capacity(&self) -> u32 {
        self.below.capacity()
    }

    fn available(&self) -> u32 {
        self.layer.leaves(self.below.available())
    }

    fn height(&self) -> u8 {
        self.below.height().saturating_add(1)
    }

    fn charge(&mut self, q: u32) -> u32
        ensures sound { LayeredSound (S.Store.own) (L.Layer) self.old → LayeredSound (S.Store.own) (L.Layer) self.new }
        ensures charged { LayeredSound (S.Store.own) (L.Layer) self.old → Charged q (layered_means (S.Store.own) (L.Layer) self.old) result (layered_means (S.Store.own) (L.Layer) self.new) }
        ensures after { LayeredSound (S.Store.own) (L.Layer) self.old → layered_after (S.Store.own) (L.Layer) (S.after) (charge q) self.old self.new }
        ensures layer { self.new.layer ≡ self.old.layer }
    {
        self.below.charge(q)
    }

    // The layer's own fault is told only where every stage below could give.
    fn draw(&mut self, q: u32) -> Result<(), Fault>
        ensures sound { LayeredSound (S.Store.own) (L.Layer) self.old → LayeredSound (S.Store.own) (L.Layer) self.new }
        ensures drawn { LayeredSound (S.Store.own) (L.Layer) self.old → Drawn q (layered_means (S.Store.own) (L.Layer) self.old) result (layered_means (S.Store.own) (L.Layer) self.new) }
        ensures same { OnErr result (self.new ≡ self.old) }
        ensures after { LayeredSound (S.Store.own) (L.Layer) self.old → OnOk result (layered_after (S.Store.own) (L.Layer) (S.after) (draw q) self.old self.new) }
        ensures layer { self.new.layer ≡ self.old.layer }
    {
        let below = self.below.available();
        let available = self.layer.leaves(below);
        if available < q && q <= below {
            return Err(Fault {
                height: self.height(),
                kind: L::KIND,
                deficit: q - available,
            });
        }
        self.below.draw(q)
    }

    fn drain(&mut self, q: u32) -> u32
        ensures sound { LayeredSound (S.Store.own) (L.Layer) self.old → LayeredSound (S.Store.own) (L.Layer) self.new }
        ensures drained { LayeredSound (S.Store.own) (L.Layer) self.old → Drained q (layered_means (S.Store.own) (L.Layer) self.old) result (layered_means (S.Store.own) (L.Layer) self.new) }
        ensures after { LayeredSound (S.Store.own) (L.Layer) self.old → layered_after (S.Store.own) (L.Layer) (S.after) (drain q) self.old self.new }
        ensures layer { self.new.layer ≡ self.old.layer }
    {
        self.below.drain(q)
    }

    // The leak is drained, not drawn, so that no floor below stops it.
    fn tick(&mut self) -> u32
        ensures sound { LayeredSound (S.Store.own) (L.Layer) self.old → LayeredSound (S.Store.own) (L.Layer) self.new }
        ensures ticked { LayeredSound (S.Store.own) (L.Layer) self.old → Ticked (layered_means (S.Store.own) (L.Layer) self.old) result (layered_means (S.Store.own) (L.Layer) self.new) }
        ensures loss { LayeredSound (S.Store.own) (L.Layer) self.old → result ≡ layered_loss (S.Store.own) (L.Layer) self.old }
        ensures after { LayeredSound (S.Store.own) (L.Layer) self.old → layered_after (S.Store.own) (L.Layer) (S.after) tick self.old self.new }
        ensures leaked { LayeredSound (S.Store.own) (L.Layer) self.old → Leaked (S.Store.own) (L.Layer) self.old result self.new }
        ensures layer { AfterTick (L.Layer) self.old.layer self.new.layer }
    {
        let loss = self.below.tick();
        let held = self.below.held();
        let leak = self.layer.leak(held);
        self.layer.tick(held);
        let gone = self.below.drain(leak);
        loss.saturating_add(gone)
    }
}
