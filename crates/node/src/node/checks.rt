// Why a node turns a call down: the tests of each call, in checking order.
ghost use Rattle.std.specs.Prelude.{◌≡◌, true, false, ◌&&◌, IfOk, Some, None, MatchOption, nat_le, slice_index_or};
ghost use Rattle.store.specs.Meaning.{Meaning};
ghost use Rattle.tables.specs.Reserves.{owns as owner_of};
ghost use Rattle.tables.specs.Grants.{open_in, grant_of, fits_out};
ghost use Rattle.node.specs.Calls.{open_reserve, close_reserve, open_tap, shut_tap, recall};
ghost use Rattle.node.specs.Rules.{first_of, between, request_tests, turned_down};
ghost use Rattle.node.specs.Node.{refusal_of, standing_of};

use super::Node;
use crate::denial::Denial;
use crate::new_reserve::NewReserve;
use crate::new_tap::NewTap;
use crate::slip::Slip;
use rates::{G, Rate};
use tables::{Found, GRANTS, LAST_RESERVE, LAST_TAP, Reserve};

// There is a rate n / d.
fn is_rate(n: u32, d: u16) -> bool
    ensures result { result ≡ (nat_le n 1000000 && between 1 d 65535) }
{
    Rate::new(n, u32::from(d)).is_ok()
}

impl<S> Node<S> {
    pub(super) fn owns(&self, task: u8, reserve: u8) -> bool
        ensures result { result ≡ owner_of self.now.reserves.rows task reserve }
    {
        self.reserves
            .get(reserve)
            .is_some_and(|row| row.owner == task)
    }

    pub(super) fn may_open(&self, task: u8, reserve: NewReserve) -> Result<(), Denial>
        ensures judged { (m : Meaning) → refusal_of result ≡ turned_down m (standing_of self.now) (open_reserve task reserve.parent reserve.number reserve.owner reserve.limit reserve.amount) }
    {
        let NewReserve {
            parent,
            number,
            owner: _,
            limit,
            amount,
        } = reserve;
        if !(parent <= LAST_RESERVE && 1 <= number && number <= LAST_RESERVE && limit <= G) {
            return Err(Denial::OutOfRange);
        }
        let from = self.reserves.get(parent).ok_or(Denial::Absent)?;
        if self.reserves.get(number).is_some() {
            return Err(Denial::AlreadyOpen);
        }
        if from.owner != task {
            return Err(Denial::NotOwner);
        }
        if limit < amount {
            return Err(Denial::AboveLimit);
        }
        if from.level < amount {
            let deficit = amount - from.level;
            return Err(Denial::LevelTooLow {
                task,
                reserve: parent,
                deficit,
            });
        }
        Ok(())
    }

    pub(super) fn may_close(&self, task: u8, number: u8) -> Result<Reserve, Denial>
        ensures judged { (m : Meaning) → refusal_of result ≡ turned_down m (standing_of self.now) (close_reserve task number) }
        ensures found { IfOk result (λ row. slice_index_or self.now.reserves.rows number None ≡ Some row) }
    {
        if !(1 <= number && number <= LAST_RESERVE) {
            return Err(Denial::OutOfRange);
        }
        let row = self.reserves.get(number).ok_or(Denial::Absent)?;
        if row.owner != task {
            return Err(Denial::NotOwner);
        }
        if self.reserves.is_parent(number)
            || self.taps.ends_at(number)
            || self.grants.any_of(number)
        {
            return Err(Denial::InUse);
        }
        Ok(row)
    }

    pub(super) fn may_tap(&self, task: u8, tap: NewTap) -> Result<(), Denial>
        ensures judged { (m : Meaning) → refusal_of result ≡ turned_down m (standing_of self.now) (open_tap task tap.number tap.source tap.sink tap.n tap.d) }
    {
        let NewTap {
            number,
            source,
            sink,
            n,
            d,
        } = tap;
        if !(number <= LAST_TAP
            && source <= LAST_RESERVE
            && sink <= LAST_RESERVE
            && is_rate(n, d))
        {
            return Err(Denial::OutOfRange);
        }
        if !(self.reserves.get(source).is_some() && self.reserves.get(sink).is_some()) {
            return Err(Denial::Absent);
        }
        if self.taps.get(number).is_some() {
            return Err(Denial::AlreadyOpen);
        }
        if !self.owns(task, source) {
            return Err(Denial::NotOwner);
        }
        if source == sink {
            return Err(Denial::SameEnds);
        }
        Ok(())
    }

    pub(super) fn may_shut(&self, task: u8, tap: u8) -> Result<(), Denial>
        ensures judged { (m : Meaning) → refusal_of result ≡ turned_down m (standing_of self.now) (shut_tap task tap) }
    {
        if tap > LAST_TAP {
            return Err(Denial::OutOfRange);
        }
        let row = self.taps.get(tap).ok_or(Denial::Absent)?;
        if !self.owns(task, row.source) {
            return Err(Denial::NotOwner);
        }
        Ok(())
    }

    // All but what the store is asked.
    pub(super) fn may_request(&self, task: u8, reserve: u8, amount: u32) -> Result<(), Denial>
        ensures judged { refusal_of result ≡ first_of (request_tests (standing_of self.now) task reserve amount) }
    {
        if !(reserve <= LAST_RESERVE && 1 <= amount && amount <= G) {
            return Err(Denial::OutOfRange);
        }
        let row = self.reserves.get(reserve).ok_or(Denial::Absent)?;
        if row.owner != task {
            return Err(Denial::NotOwner);
        }
        if self.grants.len() >= GRANTS {
            return Err(Denial::TooManyGrants);
        }
        if self.grants.serials() >= G {
            return Err(Denial::Exhausted);
        }
        if row.level < amount {
            let deficit = amount - row.level;
            return Err(Denial::LevelTooLow {
                task,
                reserve,
                deficit,
            });
        }
        Ok(())
    }

    pub(super) fn may_recall(&self, task: u8, serial: u32) -> Result<Found, Denial>
        ensures judged { (m : Meaning) → refusal_of result ≡ turned_down m (standing_of self.now) (recall task serial) }
        ensures found { IfOk result (λ f. grant_of serial (open_in self.now.grants) ≡ Some f.grant) }
    {
        let parked = self.grants.find(serial).filter(|found| found.grant.parked);
        let found = parked.ok_or(Denial::NoSuchGrant)?;
        if !self.owns(task, found.grant.reserve) {
            return Err(Denial::NotOwner);
        }
        Ok(found)
    }

    // The grant of a slip, where it is out and has the slip's amount.
    pub(super) fn out(&self, slip: &Slip) -> Option<Found>
        ensures result { MatchOption result (fits_out slip.now.serial slip.now.amount (open_in self.now.grants) ≡ false) (λ f. (fits_out slip.now.serial slip.now.amount (open_in self.now.grants) ≡ true) × (grant_of slip.now.serial (open_in self.now.grants) ≡ Some f.grant)) }
    {
        self.grants.find(slip.serial).filter(|found| found.grant.amount == slip.amount
            && !found.grant.parked)
    }
}
