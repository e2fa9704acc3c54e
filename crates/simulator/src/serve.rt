// What a node answers to a frame: the calls that the frame stands for, in order.
ghost use Rattle.std.specs.Prelude.{◌≡◌, OnErr};
ghost use Rattle.node.specs.Node.{SoundNode};
ghost use Rattle.simulator.specs.Simulator.{Grants, Settles, Ticks, ServesOn};

use frame::{Answer, Frame, FrameFault};
use node::{Node, TAPS};
use store::Store;

// A grant whose slip is parked: a slip that was just given is out, so its parking is not refused.
fn grant<S: Store>(
    node: &mut Node<S>,
    task: u8,
    reserve: u8,
    amount: u32,
) -> Result<Answer, FrameFault>
    ensures calls { Grants (S.Store.own) (S.after) node.old task reserve amount result node.new }
    ensures same { OnErr result (node.new ≡ node.old) }
{
    let slip = node.grant(task, reserve, amount)?;
    match node.park(slip) {
        Ok(serial) => Ok(Answer::Granted { serial }),
        Err((_, _slip)) => unreachable!(),
    }
}

// A recall, a settlement and, where that is refused, a parking: the slip is out between them.
fn settle<S: Store>(
    node: &mut Node<S>,
    task: u8,
    serial: u32,
    used: u32,
) -> Result<Answer, FrameFault>
    ensures calls { Settles (S.Store.own) (S.after) node.old task serial used result node.new }
    ensures same { SoundNode (S.Store.own) node.old → OnErr result (node.new ≡ node.old) }
{
    let slip = node.recall(task, serial)?;
    match node.settle(slip, used) {
        Ok(lost) => Ok(Answer::Settled { lost }),
        Err((denial, slip)) => match node.park(slip) {
            Ok(_) => Err(FrameFault::from(denial)),
            Err((_, _slip)) => unreachable!(),
        },
    }
}

// A tick, whose answer tells nothing of the report. The report is a variable of this function, so no other frame clears one.
fn tick<S: Store>(node: &mut Node<S>, harvest: u32) -> Result<Answer, FrameFault>
    ensures calls { Ticks (S.Store.own) (S.after) node.old harvest result node.new }
    ensures same { OnErr result (node.new ≡ node.old) }
{
    let mut report = [0; TAPS];
    let (loss, intake) = node.tick(harvest, &mut report)?;
    Ok(Answer::Ticked { loss, intake })
}

pub(crate) fn serve<S: Store>(node: &mut Node<S>, frame: &Frame) -> Result<Answer, FrameFault>
    ensures serves { ServesOn (S.Store.own) (S.after) node.old frame.now result node.new }
    ensures same { SoundNode (S.Store.own) node.old → OnErr result (node.new ≡ node.old) }
{
    match frame {
        Frame::Open { task, reserve } => {
            node.open(*task, *reserve)?;
            Ok(Answer::Done)
        }
        Frame::Close { task, number } => {
            node.close(*task, *number)?;
            Ok(Answer::Done)
        }
        Frame::Tap { task, tap } => {
            node.tap(*task, *tap)?;
            Ok(Answer::Done)
        }
        Frame::Shut { task, tap } => {
            node.shut(*task, *tap)?;
            Ok(Answer::Done)
        }
        Frame::Grant {
            task,
            reserve,
            amount,
        } => grant(node, *task, *reserve, *amount),
        Frame::Settle { task, serial, used } => settle(node, *task, *serial, *used),
        Frame::Tick { harvest } => tick(node, *harvest),
        Frame::Audit => Ok(Answer::Audited(node.audit())),
        Frame::Capacitor { .. } | Frame::Layered { .. } | Frame::Bank { .. } => Err(
            FrameFault::OutOfTurn,
        ),
    }
}
