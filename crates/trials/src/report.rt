// Reports of ticks: the shortest that is taken, one that is too short, and one with further places.
ghost use Rattle.trials.specs.Tally.{Further};
ghost use Rattle.trials.specs.Report.{TicksOnce};

use crate::shown::Told;
use crate::stack::made;
use crate::tally::Tally;
use frame::FrameFault;
use node::Node;
use std::fmt;
use store::{Capacitor, Store};

// What a place has that no tick writes.
const KEPT: u32 = 9;

// What a tick answers.
#[derive(Drop)]
struct Ticked {
    loss: u32,
    intake: u32,
}

// By hand: a derive of text is for errors.
impl fmt::Display for Ticked {
    fn fmt<W: fmt::Write>(&self, f: &mut fmt::Formatter<W>) -> fmt::Result {
        let Ticked { loss, intake } = self;
        write!(f, "loss {loss}, intake {intake}")
    }
}

fn tick(node: &mut Node<Capacitor>, report: &mut [u32]) -> Result<Ticked, FrameFault>
    ensures step { TicksOnce node.old report.new result node.new }
{
    let (loss, intake) = node.tick(4, report)?;
    Ok(Ticked { loss, intake })
}

// A tick into this report, and then what one of its places has.
fn report(
    tally: &mut Tally<'_>,
    node: &mut Node<Capacitor>,
    report: &mut [u32],
    expected: &str,
    place: usize,
    has: &str,
)
    ensures trials { Further tally.old tally.new }
{
    let places = report.len();
    let came = Told(tick(node, report));
    tally.hold(format_args!("tick into {places} places"), expected, came);
    if let Some(moved) = report.get(place) {
        tally.hold(format_args!("then place {place}"), has, moved);
    }
}

pub(crate) fn run(tally: &mut Tally<'_>)
    ensures trials { Further tally.old tally.new }
{
    let Some(capacitor) = made(tally, "capacitor of 10", Capacitor::new(10)) else {
        return;
    };
    let mut node = Node::new(capacitor);
    report(tally, &mut node, &mut [KEPT; 95], "refused 1", 94, "9");
    report(
        tally,
        &mut node,
        &mut [KEPT; 96],
        "loss 0, intake 4",
        95,
        "0",
    );
    report(
        tally,
        &mut node,
        &mut [KEPT; 200],
        "loss 0, intake 4",
        96,
        "9",
    );
}
