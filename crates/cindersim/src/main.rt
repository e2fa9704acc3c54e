// Reads frames from standard input, one to a line, and writes one answer line for each.
#![tactic(auto)]

ghost use Rattle.std.specs.Prelude.{◌≡◌, ◌≤◌, ◌+◌, ◌++◌, [], Result, OnOk, take};
ghost use Rattle.std.specs.Io.KnownBytes.{Appends};
ghost use Rattle.frame.specs.declared.answer.Answer.{Answer};
ghost use Rattle.frame.specs.Answer.{reply_bytes};
ghost use Rattle.frame.specs.Digits.{written};
ghost use Rattle.frame.specs.declared.fault.FrameFault.{FrameFault};
ghost use Rattle.simulator.specs.declared.simulator.Simulator.TheVariants.{Empty as Nothing};
ghost use Rattle.simulator.specs.Simulator.{Replies};
ghost use Rattle.cindersim.specs.Held.{Grows};

use filter::Script;
use frame::ROOM;
use simulator::Simulator;
use std::io;
use std::io::Write;
use std::process::ExitCode;

const BUFFER: usize = 65_536;

const HELP: &str =
    "cindersim: a node's reserves, taps and grants over harvested energy, driven by frames

usage: cindersim < SCRIPT

Each line of the script is a frame in upper-case hexadecimal, two digits a byte,
numbers high byte first. Each is answered by one line on standard output.
A field's length in bytes follows its name.

  10 capacity 4                     build a node over a capacitor
  11 capacity 4, floor 4, part 2    over a capacitor under a floor under leakage
  12 capacities 4, 4, 4             over a bank of three cells
  01 task 1, parent 1, number 1, owner 1, limit 4, amount 4    open a reserve
  02 task 1, number 1                                          close it
  03 task 1, tap 1, source 1, sink 1, n 4, d 2                 open a tap
  05 task 1, tap 1                                             shut it
  06 task 1, reserve 1, amount 4    grant; the answer tells serial 4
  07 task 1, serial 4, used 4       settle; the answer tells quanta lost 4
  08 harvest 4                      one tick; the answer tells loss 4, intake 4
  09                                audit; the answer tells seven totals, 8 each:
                                    received, held, open, spent, lost, granted, settled

An accepted frame is answered 00 and the fields told, a refused one its number:

  02 no line of 2 to 80 digits      0A source and sink are the same
  03 no such frame or length        0B the amount is above the limit
  04 a node stands, or none does    0C the reserve is in use
  05 a number out of its range      0D more is used than was granted
  06 no such reserve or tap         0E 64 grants are open
  07 the reserve or tap is open     0F no more ticks, or grants
  08 no such grant is parked        10 task 1, reserve 1, deficit 4: its level is too low
  09 the task is not the owner      11 task 1, reserve 1, height 1, kind 1, deficit 4:
                                       a stage of the store lacks so much
";

// A simulator, with the answers that are not written yet. It is for any writer, since some tell what they were given.
#[derive(Drop)]
struct Session<W: Write + Drop> {
    simulator: Simulator,
    output: W,
    buffer: [u8; BUFFER],
    // So many bytes of the buffer are answers.
    len: usize,
    ghost within: { len ≤ 65536 },
}

impl<W: Write + Drop> Session<W> {
    // Nothing stands, and no answer is held.
    fn new(output: W) -> Session<W>
        ensures simulator { result.simulator ≡ Nothing }
        ensures held { result.len ≡ 0 }
    {
        Session {
            simulator: Simulator::new(),
            output,
            buffer: [0; BUFFER],
            len: 0,
        }
    }

    // Writes the answers that are held.
    fn write(&mut self) -> io::Result<()>
        ensures after { OnOk result (self.new.len ≡ 0) }
        ensures written { OnOk result (Appends (W.contents self.old.output) (W.contents self.new.output) (take self.old.len self.old.buffer)) }
        ensures same { self.new.simulator ≡ self.old.simulator }
    {
        self.output.write_all(&self.buffer[..self.len])?;
        self.len = 0;
        Ok(())
    }

    // Writes them where there is no room for one more.
    fn make_room(&mut self) -> io::Result<()>
        ensures room { OnOk result (self.new.len + 160 ≤ 65536) }
        ensures held { OnOk result (Grows (W.contents self.old.output) (take self.old.len self.old.buffer) (W.contents self.new.output) (take self.new.len self.new.buffer) []) }
        ensures same { self.new.simulator ≡ self.old.simulator }
    {
        if BUFFER - self.len < ROOM {
            self.write()?;
        }
        Ok(())
    }

    // Answers a line, where there is room. It is never inlined, so that `line` is small, and is inlined: the result of `line`
    // is large, and would be cleared and copied each time.
    #[inline(never)]
    fn answer(&mut self, line: &[u8])
        requires { self.old.len + 160 ≤ 65536 }
        ensures replies { (r : Result Answer FrameFault) × Replies self.old.simulator line.now r self.new.simulator × (take self.new.len self.new.buffer ≡ take self.old.len self.old.buffer ++ written (reply_bytes r)) }
        ensures same { self.new.output ≡ self.old.output }
    {
        // The rest of the buffer is as long as an answer may ask, so it is written.
        if let Ok(len) = self.simulator.answer(line, &mut self.buffer[self.len..]) {
            self.len += len;
        }
    }
}

impl<W: Write + Drop> Script for Session<W> {
    // The simulator replies to the line, and its answer stands last.
    ghost hears = { λ s line s'. (r : Result Answer FrameFault) × Replies s.simulator line r s'.simulator × Grows (W.contents s.output) (take s.len s.buffer) (W.contents s'.output) (take s'.len s'.buffer) (written (reply_bytes r)) };
    // The end answers nothing, and a flush writes the answers that are held.
    ghost ends = { λ s s'. s' ≡ s };

    ghost flushes = { λ s s'. (s'.len ≡ 0) × Appends (W.contents s.output) (W.contents s'.output) (take s.len s.buffer) × (s'.simulator ≡ s.simulator) };

    fn line(&mut self, line: &[u8]) -> io::Result<()> {
        self.make_room()?;
        self.answer(line);
        Ok(())
    }

    fn end(&mut self) -> io::Result<()> {
        Ok(())
    }

    fn flush(&mut self) -> io::Result<()> {
        self.write()
    }
}

fn main(rt: HostRuntime) -> ExitCode {
    let mut session = Session::new(rt.stdout());
    filter::run(&rt, "cindersim", HELP, &mut session)
}
