// What stands between the lines of a script: no node yet, or one over a store that a frame built.
ghost use Rattle.std.specs.Prelude.{◌≡◌, ◌≤◌, IfOk};
ghost use Rattle.simulator.specs.Simulator.{Reached, layered_of, layered_store, Built, Serves, Replies, Answers, SameIfRefused};
ghost use Rattle.simulator.specs.declared.simulator.Simulator.TheVariants.{Empty as Nothing};

use crate::serve::serve;
use frame::{Answer, Frame, FrameFault, ROOM, write_answer};
use layers::{Floor, Layer, Layered, Leakage};
use node::Node;
use rates::OutOfRange;
use store::{Bank, Capacitor};

// A capacitor under a floor under leakage.
pub type Layers = Layered<Layered<Capacitor, Floor>, Leakage>;

#[derive(Drop)]
pub enum Simulator {
    // No frame has built a node yet. It is a case and no Option, which would need a second enum for the other three.
    Empty,
    Single(Node<Capacitor>),
    Layered(Node<Layers>),
    Cells(Node<Bank>),
}

// Its numbers are a frame's three fields, handed on here alone.
fn layers(capacity: u32, floor: u32, part: u16) -> Result<Layers, OutOfRange>
    ensures result { result ≡ layered_of capacity floor part }
    ensures sound { IfOk result layered_store.sound }
{
    let capacitor = Capacitor::new(capacity)?;
    let leakage = Leakage::new(part)?;
    Ok(leakage.over(Floor::new(floor).over(capacitor)))
}

// What a frame builds where no node stands.
fn build(frame: Frame) -> Result<Simulator, FrameFault>
    ensures built { Built frame result }
{
    match frame {
        Frame::Capacitor { capacity } => {
            let capacitor = Capacitor::new(capacity)?;
            Ok(Simulator::Single(Node::new(capacitor)))
        }
        Frame::Layered {
            capacity,
            floor,
            part,
        } => {
            let store = layers(capacity, floor, part)?;
            Ok(Simulator::Layered(Node::new(store)))
        }
        Frame::Bank { capacities } => {
            let bank = Bank::new(&capacities)?;
            Ok(Simulator::Cells(Node::new(bank)))
        }
        _ => Err(FrameFault::OutOfTurn),
    }
}

// That calls led to the node is the clause `run` and no ghost field: a run is data, and a ghost field holds a fact.
impl Simulator {
    // Nothing stands before the first frame.
    pub fn new() -> Simulator
        ensures result { result ≡ Nothing }
    {
        Simulator::Empty
    }

    // What a frame is answered before a node stands. It stays a call: a function's variables are cleared as it begins,
    // and those of a new node are large.
    #[cold]
    #[inline(never)]
    fn begin(&mut self, frame: Frame) -> Result<Answer, FrameFault>
        requires { self.old ≡ Nothing }
        ensures serves { Serves Nothing frame result self.new }
        ensures same { SameIfRefused result self.old self.new }
    {
        *self = build(frame)?;
        Ok(Answer::Done)
    }

    fn serve(&mut self, frame: &Frame) -> Result<Answer, FrameFault>
        ensures run { Reached self.old → Reached self.new }
        ensures serves { Serves self.old frame.now result self.new }
        ensures same { Reached self.old → SameIfRefused result self.old self.new }
    {
        match self {
            Simulator::Empty => self.begin(*frame),
            Simulator::Single(node) => serve(node, frame),
            Simulator::Layered(node) => serve(node, frame),
            Simulator::Cells(node) => serve(node, frame),
        }
    }

    // What the line is answered, or why it is refused.
    pub fn reply(&mut self, line: &[u8]) -> Result<Answer, FrameFault>
        ensures run { Reached self.old → Reached self.new }
        ensures replies { Replies self.old line.now result self.new }
        ensures same { Reached self.old → SameIfRefused result self.old self.new }
    {
        // By reference, since a frame that is moved is copied byte by byte.
        match &Frame::of_line(line) {
            Ok(frame) => self.serve(frame),
            Err(fault) => Err(*fault),
        }
    }

    // Writes the answer line over the front of an array of 160 bytes or more, and tells its length.
    pub fn answer(&mut self, line: &[u8], out: &mut [u8]) -> Result<usize, FrameFault>
        ensures run { Reached self.old → Reached self.new }
        ensures answers { Answers self.old line.now out.old result self.new out.new }
        ensures within { IfOk result (λ len. len ≤ 160) }
    {
        if out.len() < ROOM {
            return Err(FrameFault::ShortAnswer);
        }
        write_answer(self.reply(line), out)
    }
}
