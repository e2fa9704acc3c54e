// What a frame is about, what it asks to be done, and who asks.
ghost use Rattle.std.specs.Prelude.{◌≡◌};
ghost use Rattle.cinderlog.specs.Matter.{asker_of};

use frame::Frame;
use node::{NewReserve, NewTap};
use std::fmt;

fn tell_layers<W: fmt::Write>(
    f: &mut fmt::Formatter<W>,
    capacity: u32,
    floor: u32,
    part: u16,
) -> fmt::Result {
    write!(
        f,
        "a node over a capacitor of {capacity} under a floor of {floor} under leakage of {part} parts"
    )
}

fn tell_cells<W: fmt::Write>(f: &mut fmt::Formatter<W>, capacities: [u32; 3]) -> fmt::Result {
    let [first, second, third] = capacities;
    write!(
        f,
        "a node over a bank of cells of {first}, {second} and {third}"
    )
}

fn tell_reserve<W: fmt::Write>(f: &mut fmt::Formatter<W>, reserve: NewReserve) -> fmt::Result {
    let NewReserve {
        parent,
        number,
        owner,
        limit,
        amount,
    } = reserve;
    write!(
        f,
        "reserve {number} for task {owner} under {parent}, limit {limit}, with {amount}"
    )
}

fn tell_tap<W: fmt::Write>(f: &mut fmt::Formatter<W>, tap: NewTap) -> fmt::Result {
    let NewTap {
        number,
        source,
        sink,
        n,
        d,
    } = tap;
    write!(
        f,
        "tap {number} from {source} to {sink}, rate {n}/{d} a tick"
    )
}

// What a frame is about.
#[derive(Clone, Copy)]
pub struct Matter(pub Frame);

// By hand, as the ones after it: each is put together from a frame, which no derive does.
impl fmt::Display for Matter {
    fn fmt<W: fmt::Write>(&self, f: &mut fmt::Formatter<W>) -> fmt::Result {
        match self.0 {
            Frame::Capacitor { capacity } => write!(f, "a node over a capacitor of {capacity}"),
            Frame::Layered {
                capacity,
                floor,
                part,
            } => tell_layers(f, capacity, floor, part),
            Frame::Bank { capacities } => tell_cells(f, capacities),
            Frame::Open { reserve, .. } => tell_reserve(f, reserve),
            Frame::Close { number, .. } => write!(f, "reserve {number}"),
            Frame::Tap { tap, .. } => tell_tap(f, tap),
            Frame::Shut { tap, .. } => write!(f, "tap {tap}"),
            Frame::Grant {
                reserve,
                amount,
                ..
            } => write!(f, "{amount} of reserve {reserve}"),
            Frame::Settle { serial, used, .. } => write!(f, "grant {serial}, used {used}"),
            Frame::Tick { harvest } => write!(f, "harvest {harvest}"),
            Frame::Audit => f.write_str("the seven totals"),
        }
    }
}

// What a frame asks to be done, and the same once it is done.
fn deed(frame: Frame) -> (&'static str, &'static str) {
    match frame {
        Frame::Capacitor { .. } | Frame::Layered { .. } | Frame::Bank { .. } => ("build", "built"),
        Frame::Open { .. } | Frame::Tap { .. } => ("open", "opened"),
        Frame::Close { .. } => ("close", "closed"),
        Frame::Shut { .. } => ("shut", "shut"),
        Frame::Grant { .. } => ("grant", "granted"),
        Frame::Settle { .. } => ("settle", "settled"),
        Frame::Tick { .. } => ("tick with", "ticked with"),
        Frame::Audit => ("tell", "told"),
    }
}

// What a frame did, with what it is about.
#[derive(Clone, Copy)]
pub struct Done(pub Frame);

impl fmt::Display for Done {
    fn fmt<W: fmt::Write>(&self, f: &mut fmt::Formatter<W>) -> fmt::Result {
        let (_, done) = deed(self.0);
        let matter = Matter(self.0);
        write!(f, "{done}: {matter}")
    }
}

// The task that asks, where a frame names one.
pub fn asker(frame: Frame) -> Option<u8>
    ensures result { result ≡ asker_of frame }
{
    match frame {
        Frame::Open { task, .. }
        | Frame::Close { task, .. }
        | Frame::Tap { task, .. }
        | Frame::Shut { task, .. }
        | Frame::Grant { task, .. }
        | Frame::Settle { task, .. } => Some(task),
        _ => None,
    }
}

// What a frame asks, and who.
#[derive(Clone, Copy)]
pub struct Asked(pub Frame);

impl fmt::Display for Asked {
    fn fmt<W: fmt::Write>(&self, f: &mut fmt::Formatter<W>) -> fmt::Result {
        let (deed, _) = deed(self.0);
        let matter = Matter(self.0);
        match asker(self.0) {
            Some(task) => write!(f, "task {task}, {deed} {matter}"),
            None => write!(f, "{deed} {matter}"),
        }
    }
}
