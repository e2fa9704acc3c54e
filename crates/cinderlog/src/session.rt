// A script as far as it has been told.
ghost use Rattle.std.specs.Prelude.{◌≡◌, [], IfOk};
ghost use Rattle.recount.specs.Recount.{Counts};
ghost use Rattle.simulator.specs.declared.simulator.Simulator.TheVariants.{Empty as Nothing};
ghost use Rattle.cinderlog.specs.Session.{Logged, ticks_after};

use crate::balance::Balance;
use crate::sentence::{Entry, NoFrame};
use crate::table::Table;
use filter::Script;
use frame::{Answer, Frame, FrameFault};
use recount::Recount;
use simulator::Simulator;
use std::alloc::Global;
use std::io;
use std::io::{BufWriter, Stdout, Write};

#[derive(Drop)]
pub struct Session {
    simulator: Simulator,
    recount: Recount,
    // The accepted ticks.
    ticks: u64,
    output: BufWriter<Stdout>,
}

impl Session {
    // Nothing stands, and nothing is told.
    pub fn new(heap: Global, output: Stdout) -> io::Result<Session>
        ensures simulator { IfOk result (λ s. s.simulator ≡ Nothing) }
        ensures counts { IfOk result (λ s. Counts [] s.recount) }
        ensures ticks { IfOk result (λ s. s.ticks ≡ 0) }
    {
        let recount = Recount::new(heap)?;
        let output = BufWriter::new(heap, output)?;
        Ok(Session {
            simulator: Simulator::new(),
            recount,
            ticks: 0,
            output,
        })
    }

    // Counts an accepted tick.
    fn count_tick(&mut self, reply: Result<Answer, FrameFault>)
        ensures ticks { self.new.ticks ≡ ticks_after reply self.old.ticks }
        ensures same { (self.new.simulator ≡ self.old.simulator) × (self.new.recount ≡ self.old.recount) }
    {
        if let Ok(Answer::Ticked { .. }) = reply {
            self.ticks = self.ticks.saturating_add(1);
        }
    }

    // Replays a line, and counts what it is answered.
    fn reply(&mut self, line: &[u8]) -> Result<Answer, FrameFault>
        ensures logged { Logged self.old line.now self.new }
    {
        let reply = self.simulator.reply(line);
        self.recount.note(&reply);
        self.count_tick(reply);
        reply
    }

    // The totals of the node, where one stands.
    fn tell_totals(&mut self) -> io::Result<()>
        ensures same { (self.new.recount ≡ self.old.recount) × (self.new.ticks ≡ self.old.ticks) }
    {
        match self.simulator.reply(b"09") {
            Ok(Answer::Audited(totals)) => {
                let balance = Balance(totals);
                writeln!(self.output, "{balance}")
            }
            _ => writeln!(self.output, "no node stands"),
        }
    }
}

impl Script for Session {
    ghost hears = { Logged };
    // Neither the end nor a flush counts anything.
    ghost ends = { λ s s'. (s'.recount ≡ s.recount) × (s'.ticks ≡ s.ticks) };

    ghost flushes = { λ s s'. (s'.simulator ≡ s.simulator) × (s'.recount ≡ s.recount) × (s'.ticks ≡ s.ticks) };

    fn line(&mut self, line: &[u8]) -> io::Result<()> {
        let reply = self.reply(line);
        let number = self.recount.lines();
        let ticks = self.ticks;
        match Frame::of_line(line) {
            Ok(frame) => {
                let entry = Entry {
                    frame,
                    reply,
                    ticks,
                };
                writeln!(self.output, "{number}: {entry}")
            }
            Err(fault) => {
                let entry = NoFrame(fault);
                writeln!(self.output, "{number}: {entry}")
            }
        }
    }

    fn end(&mut self) -> io::Result<()> {
        let table = Table(&self.recount);
        write!(self.output, "{table}")?;
        self.tell_totals()
    }

    fn flush(&mut self) -> io::Result<()> {
        self.output.flush()
    }
}
