// The reserves of a node, by number: 0 is the root.
ghost use Rattle.std.specs.Prelude.{◌≡◌, ◌+◌, ◌-◌, min, Some, None, slice_index_or, slice_set};
ghost use Rattle.tables.specs.Reserves.{first_reserves, level_at, headroom, put_level, lower, fill, fill_up, charge_loss, parent_is, is_parent};

use crate::table::Table;
use rates::G;

pub const RESERVES: usize = 32;

pub const LAST_RESERVE: u8 = 31;

pub const ROOT: u8 = 0;

// The owner of the root.
pub const ROOT_TASK: u8 = 0;

#[derive(Clone, Copy)]
pub struct Reserve {
    pub owner: u8,
    pub parent: u8,
    pub limit: u32,
    pub level: u32,
}

pub type Reserves = Table<Reserve, RESERVES>;

impl Reserve {
    // What it can still take.
    pub fn headroom(self) -> u32
        ensures result { result ≡ self.limit - self.level }
    {
        self.limit.saturating_sub(self.level)
    }
}

// The row is that of a reserve with this parent.
fn has_parent(row: Option<Reserve>, parent: u8) -> bool
    ensures result { result ≡ parent_is parent row }
{
    row.is_some_and(|reserve| reserve.parent == parent)
}

impl Table<Reserve, RESERVES> {
    // Only the root, with what the store holds.
    pub fn new(held: u32) -> Reserves
        ensures result { result.rows ≡ first_reserves held }
    {
        let mut reserves = Table::empty();
        let root = Reserve {
            owner: ROOT_TASK,
            parent: ROOT,
            limit: G,
            level: held,
        };
        reserves.open(ROOT, root);
        reserves
    }

    // Another level at an open reserve.
    pub(crate) fn relevel(&mut self, i: usize, level: u32)
        ensures after { self.new.rows ≡ put_level self.old.rows i level }
    {
        if i < RESERVES {
            if let Some(row) = &mut self.rows[i] {
                row.level = level;
            }
        }
    }

    // q less at an open reserve, or as much of it as is there.
    pub fn lower(&mut self, i: u8, q: u32)
        ensures after { self.new.rows ≡ lower self.old.rows i q }
    {
        if let Some(row) = self.get(i) {
            self.relevel(usize::from(i), row.level.saturating_sub(q));
        }
    }

    // q more at an open reserve, up to its limit: what is over.
    pub fn fill(&mut self, i: u8, q: u32) -> u32
        ensures result { result ≡ q - headroom self.old.rows i }
        ensures after { self.new.rows ≡ fill self.old.rows i q }
    {
        let Some(row) = self.get(i) else {
            return q;
        };
        let taken = q.min(row.headroom());
        self.relevel(usize::from(i), row.level + taken);
        q - taken
    }

    // q more at a reserve, and what is over at the root.
    pub fn fill_up(&mut self, i: u8, q: u32)
        ensures after { self.new.rows ≡ fill_up self.old.rows i q }
    {
        let over = self.fill(i, q);
        let _ = self.fill(ROOT, over);
    }

    // Takes q from reserve i, as far as that goes: what is left to take.
    fn charge(&mut self, i: usize, q: u32) -> u32
        ensures result { result ≡ q - level_at self.old.rows i }
        ensures after { self.new.rows ≡ lower self.old.rows i (min q (level_at self.old.rows i)) }
    {
        let Some(row) = self.at(i) else {
            return q;
        };
        let taken = q.min(row.level);
        self.relevel(i, row.level - taken);
        q - taken
    }

    // Charges a loss: the root gives first, then each reserve from the last down to reserve 1, until nothing is left of it.
    pub fn charge_loss(&mut self, q: u32)
        ensures after { self.new.rows ≡ charge_loss q self.old.rows }
    {
        let mut left = self.charge(usize::from(ROOT), q);
        for i in (1..RESERVES).rev() {
            if left == 0 {
                return;
            }
            left = self.charge(i, left);
        }
    }

    // Some open reserve has this parent; the root has none.
    pub fn is_parent(&self, i: u8) -> bool
        ensures result { result ≡ is_parent self.now.rows i }
    {
        self.rows.iter().skip(1).any(|row| has_parent(*row, i))
    }
}
