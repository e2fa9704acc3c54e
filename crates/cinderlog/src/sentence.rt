// What a line was and what came of it, in a sentence.
use crate::balance::Balance;
use crate::matter::{Asked, Done, Matter, asker};
use frame::{Answer, Frame, FrameFault};
use node::{Denial, NewReserve};
use std::fmt;

// A refusal of a frame.
#[derive(Clone, Copy)]
struct Refusal(Frame, FrameFault);

// By hand, as the ones after it: each is put together from a frame, a reply or a refusal, which no derive does.
impl fmt::Display for Refusal {
    fn fmt<W: fmt::Write>(&self, f: &mut fmt::Formatter<W>) -> fmt::Result {
        let matter = Matter(self.0);
        match (self.0, self.1) {
            (
                Frame::Open {
                    reserve: NewReserve { number, amount, .. },
                    ..
                },
                FrameFault::Denied(
                    Denial::LevelTooLow {
                        task,
                        reserve,
                        deficit,
                    },
                ),
            ) => write!(
                f,
                "denied: task {task} asked {amount} of reserve {reserve} for a new reserve {number}, and it lacks {deficit}"
            ),
            (_, FrameFault::Denied(Denial::LevelTooLow { task, deficit, .. })) => write!(
                f,
                "denied: task {task} asked {matter}, which lacks {deficit}"
            ),
            (_, FrameFault::Denied(Denial::StoreRefused(overdraw))) => {
                let task = overdraw.task;
                let height = overdraw.fault.height;
                let kind = char::from(overdraw.fault.kind);
                let deficit = overdraw.fault.deficit;
                write!(
                    f,
                    "denied: task {task} asked {matter}, but stage {height} of the store ({kind}) lacks {deficit}"
                )
            }
            (frame, fault) => {
                let number = fault.number();
                let asked = Asked(frame);
                write!(f, "refused {number}: {fault} ({asked})")
            }
        }
    }
}

// A line that is a frame, and what it was answered.
#[derive(Clone, Copy)]
pub struct Entry {
    pub frame: Frame,
    pub reply: Result<Answer, FrameFault>,
    // The accepted ticks so far.
    pub ticks: u64,
}

impl fmt::Display for Entry {
    fn fmt<W: fmt::Write>(&self, f: &mut fmt::Formatter<W>) -> fmt::Result {
        let matter = Matter(self.frame);
        let ticks = self.ticks;
        match self.reply {
            Ok(Answer::Done) => {
                let done = Done(self.frame);
                write!(f, "{done}")
            }
            Ok(Answer::Granted { serial }) => match asker(self.frame) {
                Some(task) => write!(f, "grant {serial}: task {task} got {matter}"),
                None => write!(f, "grant {serial}"),
            },
            Ok(Answer::Settled { lost }) => write!(f, "settled: {matter}, lost {lost}"),
            Ok(Answer::Ticked { loss, intake }) => {
                write!(f, "tick {ticks}: {matter}, taken {intake}, lost {loss}")
            }
            Ok(Answer::Audited(totals)) => {
                let balance = Balance(totals);
                write!(f, "audit: {balance}")
            }
            Err(fault) => {
                let refusal = Refusal(self.frame, fault);
                write!(f, "{refusal}")
            }
        }
    }
}

// A line that is no frame.
#[derive(Clone, Copy)]
pub struct NoFrame(pub FrameFault);

impl fmt::Display for NoFrame {
    fn fmt<W: fmt::Write>(&self, f: &mut fmt::Formatter<W>) -> fmt::Result {
        let fault = self.0;
        match fault {
            FrameFault::BadLine => write!(f, "damaged: {fault}"),
            _ => {
                let number = fault.number();
                write!(f, "refused {number}: {fault}")
            }
        }
    }
}
