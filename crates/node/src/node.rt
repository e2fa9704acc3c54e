// A node over a store of harvested energy: its reserves, its taps, the grants that are open, and what it has counted.
ghost use Rattle.std.specs.Prelude.{◌≡◌, ◌-◌, ◌≤◌, true, false, length, take, drop, IfOk, IfErr, OnErr, OnOk};
ghost use Rattle.store.specs.Meaning.{Meaning, draw};
ghost use Rattle.tables.specs.Taps.{AllFit, Turns};
ghost use Rattle.node.specs.Calls.{settle as settlement, park as park_call, recall as recall_call, audited};
ghost use Rattle.node.specs.Rules.{turned_down};
ghost use Rattle.node.specs.Runs.{Lawful};
ghost use Rattle.node.specs.Steps.{verdict};
ghost use Rattle.node.specs.Node.{standing_of, IsOut, Marked, Newborn, Extends, Stored, opening, closing, tapping, shutting};
ghost use Rattle.node.specs.Node.{granting, settling, parking, recalling, ticking, DrawnFor};

use crate::denial::{Denial, Overdraw};
use crate::new_reserve::NewReserve;
use crate::new_tap::NewTap;
use crate::slip::Slip;
use crate::totals::Totals;
use rates::G;
use store::Store;
use tables::{Books, Grants, ROOT, Reserve, Reserves, TAPS, Tap, Taps};

mod checks;

#[derive(Drop)]
pub struct Node<S> {
    store: S,
    reserves: Reserves,
    taps: Taps,
    grants: Grants,
    books: Books,
    // Accepted ticks.
    ticks: u32,
}

// Draws for a task, from a reserve of its: a fault is told with both.
fn draw<S: Store>(store: &mut S, task: u8, reserve: u8, amount: u32) -> Result<(), Overdraw>
    ensures drawn { DrawnFor (S.Store.own) task reserve amount store.old result store.new }
    ensures same { OnErr result (store.new ≡ store.old) }
    ensures after { S.sound store.old → OnOk result (S.after (draw amount) store.old store.new) }
{
    store.draw(amount).map_err(|fault| Overdraw {
        task,
        reserve,
        fault,
    })
}

// The turns of all taps, the one with the lowest number first: what each moved, and 0 where none is open.
fn run_taps(taps: &mut Taps, reserves: &mut Reserves, report: &mut [u32])
    requires { 96 ≤ length report.old }
    ensures turns { AllFit taps.old.rows → Turns reserves.old.rows taps.old.rows (take 96 report.new) reserves.new.rows taps.new.rows }
    ensures further { drop 96 report.new ≡ drop 96 report.old }
{
    report[..TAPS].fill(0);
    for k in 0..taps.end() {
        if let Some(moved) = taps.run(k, reserves) {
            report[k] = moved;
        }
    }
}

// That a refused call changes nothing each contract says: it is said of that call's answer, and no type has it.
impl<S: Store> Node<S> {
    // A node over any store: the root alone is open, and has all that is held.
    pub fn new(store: S) -> Node<S>
        ensures new { S.sound store → Newborn (S.Store.own) store result }
        ensures stored { result.store ≡ store }
    {
        let held = store.held();
        Node {
            store,
            reserves: Reserves::new(held),
            taps: Taps::new(),
            grants: Grants::new(),
            books: Books::new(held),
            ticks: 0,
        }
    }

    // Opens a reserve under a parent that the task owns, which gives it its first level.
    pub fn open(&mut self, task: u8, reserve: NewReserve) -> Result<(), Denial>
        ensures step { Extends (S.Store.own) self.old (opening task reserve.parent reserve.number reserve.owner reserve.limit reserve.amount result) self.new }
        ensures stored { Stored (S.Store.own) (S.after) self.old.store (opening task reserve.parent reserve.number reserve.owner reserve.limit reserve.amount result) self.new.store }
        ensures same { OnErr result (self.new ≡ self.old) }
    {
        self.may_open(task, reserve)?;
        self.reserves.lower(reserve.parent, reserve.amount);
        self.reserves.open(
            reserve.number,
            Reserve {
                owner: reserve.owner,
                parent: reserve.parent,
                limit: reserve.limit,
                level: reserve.amount,
            },
        );
        Ok(())
    }

    // Closes a reserve: its parent takes the level back, and the root what the parent has no room for.
    pub fn close(&mut self, task: u8, number: u8) -> Result<(), Denial>
        ensures step { Extends (S.Store.own) self.old (closing task number result) self.new }
        ensures stored { Stored (S.Store.own) (S.after) self.old.store (closing task number result) self.new.store }
        ensures same { OnErr result (self.new ≡ self.old) }
    {
        let row = self.may_close(task, number)?;
        self.reserves.close(number);
        self.reserves.fill_up(row.parent, row.level);
        Ok(())
    }

    // Opens a tap from a source that the task owns.
    pub fn tap(&mut self, task: u8, tap: NewTap) -> Result<(), Denial>
        ensures step { Extends (S.Store.own) self.old (tapping task tap.number tap.source tap.sink tap.n tap.d result) self.new }
        ensures stored { Stored (S.Store.own) (S.after) self.old.store (tapping task tap.number tap.source tap.sink tap.n tap.d result) self.new.store }
        ensures same { OnErr result (self.new ≡ self.old) }
    {
        self.may_tap(task, tap)?;
        self.taps.open(
            tap.number,
            Tap {
                source: tap.source,
                sink: tap.sink,
                n: tap.n,
                d: tap.d,
                r: 0,
            },
        );
        Ok(())
    }

    pub fn shut(&mut self, task: u8, tap: u8) -> Result<(), Denial>
        ensures step { Extends (S.Store.own) self.old (shutting task tap result) self.new }
        ensures stored { Stored (S.Store.own) (S.after) self.old.store (shutting task tap result) self.new.store }
        ensures same { OnErr result (self.new ≡ self.old) }
    {
        self.may_shut(task, tap)?;
        self.taps.close(tap);
        Ok(())
    }

    // A slip for the amount. The store is asked first, and the level lowered only where it gives.
    pub fn grant(&mut self, task: u8, reserve: u8, amount: u32) -> Result<Slip, Denial>
        ensures step { Extends (S.Store.own) self.old (granting task reserve amount result) self.new }
        ensures stored { Stored (S.Store.own) (S.after) self.old.store (granting task reserve amount result) self.new.store }
        ensures same { OnErr result (self.new ≡ self.old) }
        ensures slip { IfOk result (λ slip. (slip.amount ≡ amount) × IsOut slip self.new) }
    {
        self.may_request(task, reserve, amount)?;
        draw(&mut self.store, task, reserve, amount)?;
        self.reserves.lower(reserve, amount);
        let serial = self.grants.add(amount, reserve);
        self.books.grant(amount);
        Ok(Slip { serial, amount })
    }

    // Ends a grant: what was used is spent, and what was not is charged to the store. Answers what of that found no room.
    pub fn settle(&mut self, slip: Slip, used: u32) -> Result<u32, (Denial, Slip)>
        ensures step { Extends (S.Store.own) self.old (settling slip used result) self.new }
        ensures stored { Stored (S.Store.own) (S.after) self.old.store (settling slip used result) self.new.store }
        ensures judged { (m : Meaning) → turned_down m (standing_of self.old) (settlement slip.serial slip.amount used) ≡ verdict (settling slip used result) }
        ensures same { IfErr result (λ e. (e.1 ≡ slip) × (self.new ≡ self.old)) }
    {
        let Some(found) = self.out(&slip) else {
            return Err((Denial::NoSuchGrant, slip));
        };
        if slip.amount < used {
            return Err((Denial::Overused, slip));
        }
        let Slip { serial, amount } = slip;
        let unused = amount - used;
        let taken = self.store.charge(unused);
        let lost = unused.saturating_sub(taken);
        self.reserves.fill_up(found.grant.reserve, taken);
        self.grants.remove(found.place, serial);
        self.books.settle(amount, used, lost);
        Ok(lost)
    }

    // Leaves the slip's serial with the node, and answers it.
    pub fn park(&mut self, slip: Slip) -> Result<u32, (Denial, Slip)>
        ensures step { Extends (S.Store.own) self.old (parking slip result) self.new }
        ensures stored { Stored (S.Store.own) (S.after) self.old.store (parking slip result) self.new.store }
        ensures judged { (m : Meaning) → turned_down m (standing_of self.old) (park_call slip.serial slip.amount) ≡ verdict (parking slip result) }
        ensures same { IfErr result (λ e. (e.1 ≡ slip) × (self.new ≡ self.old)) }
        ensures after { IfOk result (λ serial. (serial ≡ slip.serial) × Marked true serial self.old self.new) }
    {
        let Some(found) = self.out(&slip) else {
            return Err((Denial::NoSuchGrant, slip));
        };
        let Slip { serial, amount: _ } = slip;
        self.grants.mark(found.place, serial, true);
        Ok(serial)
    }

    // A slip again, of a grant that is parked under this serial, for the owner of the grant's reserve.
    pub fn recall(&mut self, task: u8, serial: u32) -> Result<Slip, Denial>
        ensures step { Extends (S.Store.own) self.old (recalling task serial result) self.new }
        ensures stored { Stored (S.Store.own) (S.after) self.old.store (recalling task serial result) self.new.store }
        ensures same { OnErr result (self.new ≡ self.old) }
        ensures judged { (m : Meaning) → turned_down m (standing_of self.old) (recall_call task serial) ≡ verdict (recalling task serial result) }
        ensures slip { IfOk result (λ slip. (slip.serial ≡ serial) × IsOut slip self.new) }
        ensures after { OnOk result (Marked false serial self.old self.new) }
    {
        let found = self.may_recall(task, serial)?;
        self.grants.mark(found.place, serial, false);
        Ok(Slip {
            serial,
            amount: found.grant.amount,
        })
    }

    // One tick: the reserves bear what the store loses, the root gets what the store takes in of the harvest, and the taps
    // have their turns. Answers loss and intake; the first 96 places of the report get what each tap moved.
    pub fn tick(&mut self, harvest: u32, report: &mut [u32]) -> Result<(u32, u32), Denial>
        ensures step { Extends (S.Store.own) self.old (ticking harvest report.new result) self.new }
        ensures stored { Stored (S.Store.own) (S.after) self.old.store (ticking harvest report.new result) self.new.store }
        ensures same { OnErr result ((self.new ≡ self.old) × (report.new ≡ report.old)) }
        ensures further { drop 96 report.new ≡ drop 96 report.old }
        ensures grants { self.new.grants ≡ self.old.grants }
    {
        if report.len() < TAPS {
            return Err(Denial::ShortReport);
        }
        if harvest > G {
            return Err(Denial::OutOfRange);
        }
        if self.ticks >= G {
            return Err(Denial::Exhausted);
        }
        let loss = self.store.tick();
        self.reserves.charge_loss(loss);
        let intake = self.store.charge(harvest);
        let _ = self.reserves.fill(ROOT, intake);
        run_taps(&mut self.taps, &mut self.reserves, report);
        self.ticks += 1;
        self.books.tick(harvest, loss, intake);
        Ok((loss, intake))
    }

    // The seven totals; nothing changes.
    pub fn audit(&self) -> Totals
        ensures step { Extends (S.Store.own) self.now (audited result) self.now }
        ensures stored { Stored (S.Store.own) (S.after) self.now.store (audited result) self.now.store }
        ensures law { Lawful (S.Store.own) self.now result }
    {
        Totals {
            received: self.books.received,
            held: u64::from(self.store.held()),
            open: self.books.open,
            spent: self.books.spent,
            lost: self.books.lost,
            granted: self.books.granted,
            settled: self.books.settled,
        }
    }
}
