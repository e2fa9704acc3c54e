// A soil probe whose radio is fed by a tap, and sends whenever its dues cover a send.
ghost use Rattle.std.specs.Prelude.{IfOk, Result, ◌≡◌};
ghost use Rattle.store.specs.Capacitor.{capacitor_store};
ghost use Rattle.node.specs.Node.{IsOut};
ghost use Rattle.node.specs.Runs.{Reached};
ghost use Rattle.probe.specs.Tally.{nothing};
ghost use Rattle.probe.specs.Probe.{due_after as due_in, covers as covers_send, Covered, requested as requested_for, Sent, Turned};

use crate::tally::Tally;
use example::Failure;
use node::{Denial, NewReserve, NewTap, Node, ROOT, ROOT_TASK, Slip, TAPS};
use store::{Capacitor, Store};

const CAPACITY: u32 = 100_000;

const HARVEST: u32 = 1_000;

const TICKS: u32 = 200_000;

const RADIO: u8 = 1;

const RADIO_TASK: u8 = 7;

const RADIO_LIMIT: u32 = 1_000;

const RADIO_TAP: u8 = 0;

// The radio is fed 1 quantum in so many ticks.
const TICKS_A_QUANTUM: u16 = 3;

const SEND: u32 = 31;

// What the radio is due in so many ticks, the whole quanta alone.
fn due_after(ticks: u64) -> u64
    ensures result { result ≡ due_in ticks }
{
    ticks / u64::from(TICKS_A_QUANTUM)
}

// The dues cover one send beyond what was requested.
fn covers(due: u64, requested: u64) -> bool
    ensures result { result ≡ covers_send due requested }
{
    u64::from(SEND) <= due.saturating_sub(requested)
}

#[derive(Drop)]
struct Probe<S> {
    node: Node<S>,
    // How the radio fared.
    tally: Tally,
}

impl<S: Store> Probe<S> {
    fn new(store: S) -> Probe<S>
        ensures run { S.sound store → Reached (S.Store.own) result.node }
        ensures tally { result.tally ≡ nothing }
    {
        Probe {
            node: Node::new(store),
            tally: Tally::new(),
        }
    }

    // A reserve for the radio's task, and a tap from the root to it: two values, with this story's numbers.
    fn feed_radio(&mut self) -> Result<(), Denial>
        ensures run { Reached (S.Store.own) self.old.node → Reached (S.Store.own) self.new.node }
        ensures tally { self.new.tally ≡ self.old.tally }
    {
        let radio = NewReserve {
            parent: ROOT,
            number: RADIO,
            owner: RADIO_TASK,
            limit: RADIO_LIMIT,
            amount: 0,
        };
        self.node.open(ROOT_TASK, radio)?;
        let feed = NewTap {
            number: RADIO_TAP,
            source: ROOT,
            sink: RADIO,
            n: 1,
            d: TICKS_A_QUANTUM,
        };
        self.node.tap(ROOT_TASK, feed)
    }

    // Requests a grant for one send, and counts how it went; a match, since each way is counted.
    fn request(&mut self) -> Result<Slip, Denial>
        ensures run { Reached (S.Store.own) self.old.node → Reached (S.Store.own) self.new.node }
        ensures tally { self.new.tally ≡ requested_for result self.old.tally }
        ensures slip { IfOk result (λ slip. (slip.amount ≡ 31) × IsOut slip self.new.node) }
    {
        self.tally.request(SEND);
        match self.node.grant(RADIO_TASK, RADIO, SEND) {
            Ok(slip) => {
                self.tally.grant();
                Ok(slip)
            }
            Err(denial) => {
                self.tally.deny(denial);
                Err(denial)
            }
        }
    }

    // One send: its slip is out, so it is not refused when it is settled with all used.
    fn send(&mut self) -> Result<(), Denial>
        ensures run { Reached (S.Store.own) self.old.node → Reached (S.Store.own) self.new.node }
        ensures tally { Sent self.old.tally result self.new.tally }
    {
        let slip = self.request()?;
        match self.node.settle(slip, SEND) {
            Ok(lost) => {
                self.tally.settle(SEND, lost);
                Ok(())
            }
            Err((_, _slip)) => unreachable!(),
        }
    }

    // One tick, and then a send if the dues cover it; a denial is counted, and the send left out.
    fn turn(&mut self) -> Result<(), Denial>
        ensures run { Reached (S.Store.own) self.old.node → Reached (S.Store.own) self.new.node }
        ensures tally { Turned self.old.tally result self.new.tally }
        ensures covered { Covered self.old.tally → Covered self.new.tally }
    {
        let mut report = [0; TAPS];
        let _ = self.node.tick(HARVEST, &mut report)?;
        self.tally.tick(report[0]);
        if covers(due_after(self.tally.ticks), self.tally.requested) {
            let _ = self.send();
        }
        Ok(())
    }

    fn show(&self, rt: &impl Print) -> Result<(), Failure> {
        let Tally {
            ticks,
            delivered,
            requests,
            requested,
            granted,
            denied,
            settled,
            spent,
            lost,
            ..
        } = &self.tally;
        let due = due_after(*ticks);
        println!(rt;
            "After {ticks} ticks {due} quanta were due to the radio, and {delivered} were delivered."
        )?;
        println!(rt;
            "It made {requests} requests, for {requested} quanta: {granted} were granted and {denied} denied."
        )?;
        println!(rt; "It settled {settled} slips: {spent} quanta were spent and {lost} lost.")?;
        Ok(())
    }

    // One request more than the dues cover, and how often each refusal was met by then.
    fn hasten(&mut self, rt: &impl Print) -> Result<(), Failure>
        ensures run { Reached (S.Store.own) self.old.node → Reached (S.Store.own) self.new.node }
        ensures tally { (r : Result (Unit {0}) Denial) × Sent self.old.tally r self.new.tally }
    {
        if let Err(denial) = self.send() {
            println!(rt; "A request beyond the dues is denied: {denial}.")?;
        }
        for (number, count) in self.tally.reasons.iter().enumerate() {
            if *count > 0 {
                println!(rt; "Requests denied with refusal {number}: {count}.")?;
            }
        }
        Ok(())
    }
}

// The probe after so many ticks.
fn lived(ticks: u32) -> Result<Probe<Capacitor>, Failure>
    ensures run { IfOk result (λ probe. Reached capacitor_store probe.node) }
    ensures covered { IfOk result (λ probe. Covered probe.tally) }
{
    let mut probe = Probe::new(Capacitor::new(CAPACITY)?);
    probe.feed_radio()?;
    for _ in 0..ticks {
        probe.turn()?;
    }
    Ok(probe)
}

pub(crate) fn tell(rt: &impl Print) -> Result<(), Failure> {
    println!(rt;
        "A soil probe has a capacitor of {CAPACITY} quanta and a harvest of {HARVEST} a tick."
    )?;
    println!(rt;
        "Its radio is fed 1 quantum in {TICKS_A_QUANTUM} ticks, and a send takes {SEND} quanta."
    )?;
    let mut probe = lived(TICKS)?;
    probe.show(rt)?;
    probe.hasten(rt)
}
