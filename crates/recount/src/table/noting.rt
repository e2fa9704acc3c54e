// How a denial is noted in the row of its task and reserve.
ghost use Rattle.std.specs.Prelude.{◌≡◌, ℕ, IfOk};
ghost use Rattle.recount.specs.Recount.{none, place as place_of, rows_of, row_at};
ghost use Rattle.recount.specs.Noting.{noted};

use super::Table;
use crate::lack::Lack;
use crate::row::Row;
use std::alloc::{AllocError, Global};

const ROWS: usize = 65_536;

// Where the row of a task and a reserve stands.
fn place(task: u8, reserve: u8) -> usize
    ensures result { result ≡ place_of task reserve }
{
    usize::from(task) * 256 + usize::from(reserve)
}

impl Table {
    // No denials.
    pub(crate) fn new(heap: Global) -> Result<Table, AllocError>
        ensures result { IfOk result (λ t. (task reserve : ℕ) → row_at t task reserve ≡ none) }
    {
        let rows = vec![in heap; Row::new(); ROWS]?;
        Ok(Table { rows })
    }

    pub(crate) fn add(&mut self, lack: Lack)
        ensures after { rows_of self.new ≡ noted (rows_of self.old) lack }
    {
        let place = place(lack.task, lack.reserve);
        self.rows[place] = self.rows[place].add(lack.deficit);
    }

    pub(crate) fn row(&self, task: u8, reserve: u8) -> Row
        ensures result { result ≡ row_at self.now task reserve }
    {
        self.rows[place(task, reserve)]
    }
}
