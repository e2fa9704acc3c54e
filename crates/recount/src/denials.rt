// The denials under 16 and 17.
ghost use Rattle.std.specs.Prelude.{◌≡◌, [], IfOk};
ghost use Rattle.recount.specs.Recount.{Denies, lack_of, row_in, rows_of};
ghost use Rattle.recount.specs.Noting.{Keyed, all_after, rows_after};

use crate::lack::{Lack, Shortage};
use crate::row::Row;
use crate::table::Table;
use frame::{Answer, FrameFault};
use std::alloc::{AllocError, Global};

#[derive(Drop)]
pub(crate) struct Denials {
    // All of them.
    pub(crate) all: Row,
    // Those under 16.
    level: Table,
    // Those under 17.
    store: Table,
}

impl Denials {
    pub(crate) fn new(heap: Global) -> Result<Denials, AllocError>
        ensures counts { IfOk result (Denies []) }
    {
        let level = Table::new(heap)?;
        let store = Table::new(heap)?;
        Ok(Denials {
            all: Row::new(),
            level,
            store,
        })
    }

    pub(crate) fn note(&mut self, reply: &Result<Answer, FrameFault>)
        ensures within { Keyed (lack_of reply.now) }
        ensures all { self.new.all ≡ all_after (lack_of reply.now) self.old.all }
        ensures level { rows_of self.new.level ≡ rows_after 16 (lack_of reply.now) (rows_of self.old.level) }
        ensures store { rows_of self.new.store ≡ rows_after 17 (lack_of reply.now) (rows_of self.old.store) }
    {
        if let Some(lack) = Lack::of(reply) {
            self.all = self.all.add(lack.deficit);
            match lack.shortage {
                Shortage::Level => self.level.add(lack),
                Shortage::Store => self.store.add(lack),
            }
        }
    }

    // The row of a task and a reserve; under another number than 16 and 17 it has nothing. Any number may be asked for,
    // so it is a number and no Shortage.
    pub(crate) fn row(&self, number: u8, task: u8, reserve: u8) -> Row
        ensures result { result ≡ row_in self.now number task reserve }
    {
        match number {
            16 => self.level.row(task, reserve),
            17 => self.store.row(task, reserve),
            _ => Row::new(),
        }
    }
}
