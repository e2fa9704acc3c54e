// The constant taps of a node, by number.
ghost use Rattle.std.specs.Prelude.{◌≡◌, ◌-◌, ◌&&◌, min, None, MatchOption, slice_index_or, slice_set};
ghost use Rattle.rates.specs.Rate.{Fits, remainder};
ghost use Rattle.std.specs.List.{list_any};
ghost use Rattle.std.specs.Option.{is_some, unwrap_or};
ghost use Rattle.tables.specs.Rows.{present};
ghost use Rattle.tables.specs.Reserves.{level_at, headroom, give, lower};
ghost use Rattle.tables.specs.Taps.{first_taps, tap_due, with_remainder, ends_at, Moves, Ran};

use crate::reserves::{RESERVES, Reserve, Reserves};
use crate::table::Table;
use rates::Rate;

pub const TAPS: usize = 96;

pub const LAST_TAP: u8 = 95;

// n quanta in d ticks from the source to the sink, with the remainder r.
#[derive(Clone, Copy)]
pub struct Tap {
    pub source: u8,
    pub sink: u8,
    pub n: u32,
    pub d: u16,
    pub r: u32,
}

pub type Taps = Table<Tap, TAPS>;

impl Tap {
    // What is due at a tick, and the remainder after it, where there is a rate.
    fn step(self) -> Option<(u32, u32)>
        ensures result { MatchOption result (Fits self.n self.d self.r → ⊥) (λ x. Fits self.n self.d self.r × (x ≡ (tap_due self, remainder self.n self.d self.r))) }
    {
        let rate = Rate::resume(self.n, u32::from(self.d), self.r).ok()?;
        Some(rate.step())
    }
}

// The row is that of a tap that begins or ends at reserve i.
fn touches(row: Option<Tap>, i: u8) -> bool
    ensures result { result ≡ ends_at i row }
{
    row.is_some_and(|tap| tap.source == i || tap.sink == i)
}

// What of a due can move. The sum of the sink's level and what the source has of the due is a `u64`, which holds it whatever
// the rows are.
fn movable(due: u32, from: Reserve, to: Reserve) -> u32
    ensures result { result ≡ min due (min from.level (to.limit - to.level)) }
{
    let there = due.min(from.level);
    if u64::from(to.level) + u64::from(there) <= u64::from(to.limit) {
        there
    } else {
        to.headroom()
    }
}

// Moves what is due, as far as the source has it and the sink has room for it: what it moved, where both are open.
fn carry(reserves: &mut Reserves, source: u8, sink: u8, due: u32) -> Option<u32>
    ensures moves { is_some result ≡ (present reserves.old.rows source && present reserves.old.rows sink) }
    ensures result { unwrap_or result 0 ≡ min due (min (level_at reserves.old.rows source) (headroom reserves.old.rows sink)) }
    ensures after { reserves.new.rows ≡ give (lower reserves.old.rows source (unwrap_or result 0)) sink (unwrap_or result 0) }
{
    let (source, sink) = (usize::from(source), usize::from(sink));
    if source >= RESERVES || sink >= RESERVES {
        return None;
    }
    let (Some(from), Some(to)) = (reserves.rows[source], reserves.rows[sink]) else {
        return None;
    };
    let moved = movable(due, from, to);
    reserves.relevel(source, from.level - moved);
    // Looked up anew, since it may be the source.
    if let Some(to) = reserves.rows[sink] {
        reserves.relevel(sink, to.level + moved);
    }
    Some(moved)
}

impl Table<Tap, TAPS> {
    pub fn new() -> Taps
        ensures result { result.rows ≡ first_taps }
    {
        Table::empty()
    }

    // Some open tap begins or ends at reserve i.
    pub fn ends_at(&self, i: u8) -> bool
        ensures result { result ≡ list_any (ends_at i) self.now.rows }
    {
        self.rows.iter().any(|row| touches(*row, i))
    }

    // Another remainder at an open tap.
    fn keep_remainder(&mut self, k: usize, r: u32)
        ensures after { self.new.rows ≡ slice_set self.old.rows k (with_remainder r (slice_index_or self.old.rows k None)) }
    {
        if k < TAPS {
            if let Some(row) = &mut self.rows[k] {
                row.r = r;
            }
        }
    }

    // The turn of tap k at a tick: what it moved, where it has a rate and it and its ends are open.
    pub fn run(&mut self, k: usize, reserves: &mut Reserves) -> Option<u32>
        ensures moves { MatchOption result (Moves reserves.old.rows (slice_index_or self.old.rows k None) → ⊥) (λ _. Moves reserves.old.rows (slice_index_or self.old.rows k None)) }
        ensures ran { Ran k reserves.old.rows self.old.rows (unwrap_or result 0) reserves.new.rows self.new.rows }
    {
        let tap = self.at(k)?;
        let (due, r) = tap.step()?;
        self.keep_remainder(k, r);
        carry(reserves, tap.source, tap.sink, due)
    }
}
