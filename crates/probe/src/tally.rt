// What the radio was due, what it got, and how its requests went.
ghost use Rattle.std.specs.Prelude.{◌≡◌, ◌≤◌};
ghost use Rattle.node.specs.Denial.{number_of};
ghost use Rattle.probe.specs.Tally.{nothing, count_tick, count_request, count_grant, count_denial, count_settled};

use node::{Denial, REFUSALS};

#[derive(Drop)]
pub(crate) struct Tally {
    pub(crate) ticks: u64,
    pub(crate) delivered: u64,
    pub(crate) requests: u64,
    pub(crate) requested: u64,
    pub(crate) granted: u64,
    pub(crate) denied: u64,
    // The denied requests by refusal number: the values that a Denial carries are not counted apart.
    pub(crate) reasons: [u64; REFUSALS],
    pub(crate) settled: u64,
    pub(crate) spent: u64,
    pub(crate) lost: u64,
}

impl Tally {
    pub(crate) fn new() -> Tally
        ensures result { result ≡ nothing }
    {
        Tally {
            ticks: 0,
            delivered: 0,
            requests: 0,
            requested: 0,
            granted: 0,
            denied: 0,
            reasons: [0; REFUSALS],
            settled: 0,
            spent: 0,
            lost: 0,
        }
    }

    // A tick at which the radio got so much.
    pub(crate) fn tick(&mut self, moved: u32)
        ensures after { self.new ≡ count_tick moved self.old }
        ensures later { self.old.ticks ≤ self.new.ticks }
    {
        self.ticks = self.ticks.saturating_add(1);
        self.delivered = self.delivered.saturating_add(u64::from(moved));
    }

    pub(crate) fn request(&mut self, amount: u32)
        ensures after { self.new ≡ count_request amount self.old }
    {
        self.requests = self.requests.saturating_add(1);
        self.requested = self.requested.saturating_add(u64::from(amount));
    }

    pub(crate) fn grant(&mut self)
        ensures after { self.new ≡ count_grant self.old }
    {
        self.granted = self.granted.saturating_add(1);
    }

    pub(crate) fn deny(&mut self, denial: Denial)
        ensures after { self.new ≡ count_denial (number_of denial) self.old }
    {
        self.denied = self.denied.saturating_add(1);
        let times = &mut self.reasons[usize::from(denial.number())];
        *times = times.saturating_add(1);
    }

    pub(crate) fn settle(&mut self, used: u32, lost: u32)
        ensures after { self.new ≡ count_settled used lost self.old }
    {
        self.settled = self.settled.saturating_add(1);
        self.spent = self.spent.saturating_add(u64::from(used));
        self.lost = self.lost.saturating_add(u64::from(lost));
    }
}
