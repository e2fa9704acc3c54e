// A radio that lives on a battery, and one that lives on a store whose losses are measured: a node over stores and a layer
// of one's own.
#![tactic(auto)]

ghost use Rattle.std.specs.Prelude.{◌≡◌, ◌+◌, ◌-◌, ◌^◌, min, IfOk};
ghost use Rattle.node.specs.Runs.{Reached, Lawful};
ghost use Rattle.guide.specs.Measured.{measured_store};
ghost use Rattle.radio.specs.Supply.{supply_store, Balanced};

use example::Failure;
use guide::{Battery, Measured, Sensor, Standby};
use layers::{Layer, Layered};
use node::{Denial, NewReserve, NewTap, Node, ROOT, ROOT_TASK, TAPS, Totals};
use rates::OutOfRange;
use std::process::ExitCode;
use store::Store;

const RADIO: u8 = 1;

const RADIO_TASK: u8 = 7;

const RADIO_TAP: u8 = 0;

// What the sensor reads, in this order.
const LEAKED: [u32; 4] = [3, 0, 11, 2];

// That calls led to the node is the clause `run` and no ghost field: a run is data, and a ghost field holds a fact.
// `request` and `send` do what the frames 06 and 07 do: they are the example of how a slip is handled, written out.
// `request_either` is a match, since it prints and asks again: a closure of `or_else` would be no plainer.

// A node over a full battery with a standby current.
fn powered(capacity: u32, standby: u32) -> Result<Node<Layered<Battery, Standby>>, OutOfRange>
    ensures run { IfOk result (Reached supply_store) }
{
    let battery = Battery::new(capacity)?;
    let supply = Standby::new(standby).over(battery);
    let node = Node::new(supply);
    Ok(node)
}

// The readings of a sensor, from the first on; after the last of them it reads 0.
#[derive(Drop)]
struct Readings {
    next: usize,
}

impl Sensor for Readings {
    fn read(&mut self) -> u32
        ensures next { self.new.next ≡ min (self.old.next + 1) (2 ^ 64 - 1) }
    {
        let reading = LEAKED.get(self.next).copied().unwrap_or(0);
        self.next = self.next.saturating_add(1);
        reading
    }
}

// A node over a full store whose losses are measured.
fn measured(capacity: u32) -> Result<Node<Measured<Readings>>, OutOfRange>
    ensures run { IfOk result (Reached measured_store) }
{
    match Measured::new(capacity, Readings { next: 0 }) {
        Ok(store) => Ok(Node::new(store)),
        Err((refusal, _)) => Err(refusal),
    }
}

// A reserve for the radio's task, and a tap of 5 quanta a tick from the root to it.
fn feed_radio<S: Store>(node: &mut Node<S>) -> Result<(), Denial>
    ensures run { Reached (S.Store.own) node.old → Reached (S.Store.own) node.new }
{
    let radio = NewReserve {
        parent: ROOT,
        number: RADIO,
        owner: RADIO_TASK,
        limit: 50,
        amount: 0,
    };
    node.open(ROOT_TASK, radio)?;
    let feed = NewTap {
        number: RADIO_TAP,
        source: ROOT,
        sink: RADIO,
        n: 5,
        d: 1,
    };
    node.tap(ROOT_TASK, feed)
}

// So many ticks without a harvest: what they lost.
fn wait<S: Store>(node: &mut Node<S>, ticks: u32) -> Result<u32, Denial>
    ensures run { Reached (S.Store.own) node.old → Reached (S.Store.own) node.new }
{
    let mut lost = 0u32;
    for _ in 0..ticks {
        let mut report = [0; TAPS];
        let (loss, _) = node.tick(0, &mut report)?;
        lost = lost.saturating_add(loss);
    }
    Ok(lost)
}

// A grant for the radio, whose slip is parked at once: its serial. The slip is out, so its parking is not refused.
fn request<S: Store>(node: &mut Node<S>, amount: u32) -> Result<u32, Denial>
    ensures run { Reached (S.Store.own) node.old → Reached (S.Store.own) node.new }
{
    let slip = node.grant(RADIO_TASK, RADIO, amount)?;
    match node.park(slip) {
        Ok(serial) => Ok(serial),
        Err((_, _slip)) => unreachable!(),
    }
}

// A grant of what is wanted or, where that is denied, of what is enough.
fn request_either<S: Store>(
    rt: &impl Print,
    node: &mut Node<S>,
    wanted: u32,
    enough: u32,
) -> Result<u32, Failure>
    ensures run { Reached (S.Store.own) node.old → Reached (S.Store.own) node.new }
{
    match request(node, wanted) {
        Err(denial) => {
            println!(rt; "A grant of {wanted} is denied: {denial}.")?;
            Ok(request(node, enough)?)
        }
        Ok(serial) => Ok(serial),
    }
}

// The slip is recalled, and settled with so much used: what of the rest was lost. Where that is refused, the slip is
// parked again: it is out, so its parking is not refused.
fn send<S: Store>(node: &mut Node<S>, serial: u32, used: u32) -> Result<u32, Denial>
    ensures run { Reached (S.Store.own) node.old → Reached (S.Store.own) node.new }
{
    let slip = node.recall(RADIO_TASK, serial)?;
    match node.settle(slip, used) {
        Ok(lost) => Ok(lost),
        Err((denial, slip)) => match node.park(slip) {
            Ok(_) => Err(denial),
            Err((_, _slip)) => unreachable!(),
        },
    }
}

// The law holds over any store, so what is counted balances, whatever was denied on the way.
fn audit<S: Store>(node: &Node<S>) -> Totals
    ensures law { Lawful (S.Store.own) node.now result }
    ensures balance { Reached (S.Store.own) node.now → Balanced result }
{
    node.audit()
}

// What becomes of a radio over this node: its totals.
fn tell<S: Store>(rt: &impl Print, node: &mut Node<S>) -> Result<Totals, Failure>
    ensures balance { Reached (S.Store.own) node.old → IfOk result Balanced }
{
    feed_radio(node)?;
    let lost = wait(node, 4)?;
    println!(rt; "Four ticks without a harvest lose {lost} quanta.")?;
    let serial = request_either(rt, node, 30, 12)?;
    let lost = send(node, serial, 9)?;
    println!(rt; "A send uses 9 quanta, and {lost} of the rest are lost.")?;
    Ok(audit(node))
}

// The totals at the end are told in one sentence.
fn tell_totals(rt: &impl Print, totals: Totals) -> Result<(), Failure> {
    let Totals {
        received,
        held,
        open,
        spent,
        lost,
        ..
    } = totals;
    println!(rt;
        "Of {received} quanta {held} are held, {open} open, {spent} spent and {lost} lost."
    )?;
    Ok(())
}

// Over a battery with a standby current.
fn over_battery(rt: &impl Print) -> Result<Totals, Failure>
    ensures balance { IfOk result Balanced }
{
    let mut node = powered(100, 2)?;
    tell(rt, &mut node)
}

// Over a store of which it is not known what it will hold: this balances too.
fn over_measured(rt: &impl Print) -> Result<Totals, Failure>
    ensures balance { IfOk result Balanced }
{
    let mut node = measured(100)?;
    tell(rt, &mut node)
}

fn report(rt: &impl Print) -> Result<(), Failure> {
    println!(rt; "A radio over a battery of 100 with a standby current of 2.")?;
    let totals = over_battery(rt)?;
    tell_totals(rt, totals)?;
    println!(rt; "A radio over a store of 100 whose losses are measured.")?;
    let totals = over_measured(rt)?;
    tell_totals(rt, totals)
}

fn main(rt: HostRuntime) -> ExitCode {
    example::ended(&rt, "radio", report(&rt))
}
