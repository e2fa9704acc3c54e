// The bank of cells.
ghost use Rattle.std.specs.Prelude.{◌≡◌, IfOk, OnErr, OnOk, map, refl};
ghost use Rattle.store.specs.Bank.{new_bank, bank_means, BankSound, with_cells, filled, emptied, bank_after, bank_store, bank_text};
ghost use Rattle.store.specs.Meaning.{Charged, Drawn, Drained, Ticked, exactly};
ghost use Rattle.store.specs.Laws.{bank_laws};

use crate::cell::Cell;
use crate::fault::Fault;
use crate::store::Store;
use crate::told::Told;
use arrayvec::ArrayVec;
use rates::{G, OutOfRange};
use std::fmt;

const MOST_CELLS: usize = 8;

/// A bank of 1 to 8 cells: one stage of the letter F, filled from cell 0 up and emptied from the last cell down. All that
/// its cells hold is available, and a tick loses nothing.
#[derive(Drop)]
pub struct Bank {
    cells: ArrayVec<Cell, MOST_CELLS>,
}

impl Bank {
    /// An empty bank of cells with these capacities. No cell, more than 8, or capacities above G together are refused.
    pub fn new(capacities: &[u32]) -> Result<Bank, OutOfRange>
        ensures result { result ≡ new_bank capacities.now }
        ensures sound { IfOk result BankSound }
    {
        let count = capacities.len();
        if count == 0 || count > MOST_CELLS {
            return Err(OutOfRange);
        }
        let total = capacities
            .iter()
            .fold(0u32, |total, capacity| total.saturating_add(*capacity));
        if total > G {
            return Err(OutOfRange);
        }
        let mut cells = ArrayVec::new();
        for capacity in capacities {
            cells.push(Cell::empty(*capacity));
        }
        Ok(Bank { cells })
    }

    /// The cells, cell 0 first.
    pub fn cells(&self) -> &[Cell]
        ensures result { result.now ≡ self.now.cells.items }
    {
        self.cells.as_slice()
    }

    // What each cell holds, cell 0 first.
    fn held_by_cell(&self) -> ArrayVec<u32, MOST_CELLS>
        ensures result { result.items ≡ map (λ x. x.held) self.now.cells.items }
    {
        let mut held = ArrayVec::new();
        for cell in self.cells.as_slice() {
            held.push(cell.held());
        }
        held
    }
}

impl Told for Bank {
    ghost after = { exactly bank_after };
}

impl Store for Bank {
    ghost held = { λ b. (bank_means b).held };

    ghost capacity = { λ b. (bank_means b).capacity };

    ghost stages = { λ b. (bank_means b).stages };

    ghost coming_loss = { bank_store.coming_loss };

    ghost sound = { BankSound };

    const KIND: u8 = b'F';

    ghost KIND = { bank_store.KIND };

    ghost means = { bank_laws };

    ghost on_top = { λ _ s. refl };

    fn held(&self) -> u32 {
        self.cells
            .iter()
            .fold(0u32, |total, cell| total.saturating_add(cell.held()))
    }

    fn capacity(&self) -> u32 {
        self.cells
            .iter()
            .fold(0u32, |total, cell| total.saturating_add(cell.capacity()))
    }

    fn available(&self) -> u32 {
        self.held()
    }

    fn height(&self) -> u8 {
        0
    }

    fn charge(&mut self, q: u32) -> u32
        ensures sound { BankSound self.old → BankSound self.new }
        ensures charged { BankSound self.old → Charged q (bank_means self.old) result (bank_means self.new) }
        ensures after { self.new ≡ with_cells (filled q self.old.cells.items) }
    {
        let mut left = q;
        for cell in self.cells.iter_mut() {
            left -= cell.charge(left);
        }
        q - left
    }

    fn draw(&mut self, q: u32) -> Result<(), Fault>
        ensures sound { BankSound self.old → BankSound self.new }
        ensures drawn { BankSound self.old → Drawn q (bank_means self.old) result (bank_means self.new) }
        ensures same { OnErr result (self.new ≡ self.old) }
        ensures after { OnOk result (self.new ≡ with_cells (emptied q self.old.cells.items)) }
    {
        let held = self.held();
        if q > held {
            return Err(Fault {
                height: 0,
                kind: Self::KIND,
                deficit: q - held,
            });
        }
        let _ = self.drain(q);
        Ok(())
    }

    fn drain(&mut self, q: u32) -> u32
        ensures sound { BankSound self.old → BankSound self.new }
        ensures drained { BankSound self.old → Drained q (bank_means self.old) result (bank_means self.new) }
        ensures after { self.new ≡ with_cells (emptied q self.old.cells.items) }
    {
        let mut left = q;
        // By place: what `iter_mut().rev()` leaves behind is not told by its contract.
        let cells = self.cells.as_mut_slice();
        let mut i = cells.len();
        while i > 0 && left > 0 {
            i -= 1;
            left -= cells[i].drain(left);
        }
        q - left
    }

    fn tick(&mut self) -> u32
        ensures sound { BankSound self.old → BankSound self.new }
        ensures ticked { BankSound self.old → Ticked (bank_means self.old) result (bank_means self.new) }
        ensures result { result ≡ 0 }
        ensures same { self.new ≡ self.old }
    {
        // A tick loses nothing.
        0
    }
}

// What each cell holds, cell 0 first, as `[5, 2, 0]`. By hand: no derive goes over a list.
impl fmt::Display for Bank {
    ghost output = { bank_text };

    fn fmt<W: fmt::Write>(&self, f: &mut fmt::Formatter<W>) -> fmt::Result {
        let held = self.held_by_cell();
        let amounts = held.as_slice();
        write!(f, "{amounts:?}")
    }
}
