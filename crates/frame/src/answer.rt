// What a line is answered.
ghost use Rattle.std.specs.Prelude.{◌≡◌, ◌+◌, ◌∷◌, ◌*◌, ◌≤◌, Result, length};
ghost use Rattle.node.specs.Denial.{be4, number_of as denial_number, values_of as denial_values};
ghost use Rattle.frame.specs.Answer.{be8, total_bytes, told_bytes, reply_bytes, answered, after_answer};
ghost use Rattle.frame.specs.Digits.{with_bytes};
ghost use Rattle.frame.specs.Fault.{number_of, values_of};

use crate::digits::put_byte;
use crate::fault::FrameFault;
use node::{Denial, Totals};

// An array for an answer has so many places, or more.
pub const ROOM: usize = 160;

// What an accepted frame is answered.
#[derive(Clone, Copy)]
pub enum Answer {
    // Nothing to tell.
    Done,
    // A grant, with the serial of its slip.
    Granted { serial: u32 },
    // A settled grant, with the quanta lost.
    Settled { lost: u32 },
    // A tick.
    Ticked { loss: u32, intake: u32 },
    // The totals of an audit.
    Audited(Totals),
}

// Writes the digits of the four bytes of a number, high byte first, from a place on.
fn put_four(out: &mut [u8], at: usize, n: u32)
    requires { at + 8 ≤ length out.old }
    ensures after { out.new ≡ with_bytes at (be4 n) out.old }
{
    let [b3, b2, b1, b0] = n.to_be_bytes();
    put_byte(out, at, b3);
    put_byte(out, at + 2, b2);
    put_byte(out, at + 4, b1);
    put_byte(out, at + 6, b0);
}

// Writes the digits of the eight bytes of a number, high byte first, from a place on.
fn put_eight(out: &mut [u8], at: usize, n: u64)
    requires { at + 16 ≤ length out.old }
    ensures after { out.new ≡ with_bytes at (be8 n) out.old }
{
    let [b7, b6, b5, b4, b3, b2, b1, b0] = n.to_be_bytes();
    put_byte(out, at, b7);
    put_byte(out, at + 2, b6);
    put_byte(out, at + 4, b5);
    put_byte(out, at + 6, b4);
    put_byte(out, at + 8, b3);
    put_byte(out, at + 10, b2);
    put_byte(out, at + 12, b1);
    put_byte(out, at + 14, b0);
}

// Writes the digits of a node's refusal, which are those of its number and of the values told with it, and tells how many they are.
fn put_denial(out: &mut [u8], denial: Denial) -> usize
    requires { 160 ≤ length out.old }
    ensures result { result ≡ 2 * length (denial_number denial ∷ denial_values denial) }
    ensures after { out.new ≡ with_bytes 0 (denial_number denial ∷ denial_values denial) out.old }
{
    put_byte(out, 0, denial.number());
    match denial {
        Denial::LevelTooLow {
            task,
            reserve,
            deficit,
        } => {
            put_byte(out, 2, task);
            put_byte(out, 4, reserve);
            put_four(out, 6, deficit);
            14
        }
        Denial::StoreRefused(overdraw) => {
            put_byte(out, 2, overdraw.task);
            put_byte(out, 4, overdraw.reserve);
            put_byte(out, 6, overdraw.fault.height);
            put_byte(out, 8, overdraw.fault.kind);
            put_four(out, 10, overdraw.fault.deficit);
            18
        }
        _ => 2,
    }
}

// The same of a refusal.
fn put_fault(out: &mut [u8], fault: FrameFault) -> usize
    requires { 160 ≤ length out.old }
    ensures result { result ≡ 2 * length (number_of fault ∷ values_of fault) }
    ensures after { out.new ≡ with_bytes 0 (number_of fault ∷ values_of fault) out.old }
{
    match fault {
        FrameFault::Denied(denial) => put_denial(out, denial),
        _ => {
            put_byte(out, 0, fault.number());
            2
        }
    }
}

// Writes the digits of an audit's answer, 0 and the seven totals, and tells how many they are.
fn put_totals(out: &mut [u8], totals: Totals) -> usize
    requires { 160 ≤ length out.old }
    ensures result { result ≡ 2 * length (total_bytes totals) }
    ensures after { out.new ≡ with_bytes 0 (total_bytes totals) out.old }
{
    put_byte(out, 0, 0);
    put_eight(out, 2, totals.received);
    put_eight(out, 18, totals.held);
    put_eight(out, 34, totals.open);
    put_eight(out, 50, totals.spent);
    put_eight(out, 66, totals.lost);
    put_eight(out, 82, totals.granted);
    put_eight(out, 98, totals.settled);
    114
}

// Writes the digits of what an accepted frame is answered, 0 and what is told, and tells how many they are.
fn put_answer(out: &mut [u8], answer: Answer) -> usize
    requires { 160 ≤ length out.old }
    ensures result { result ≡ 2 * length (told_bytes answer) }
    ensures after { out.new ≡ with_bytes 0 (told_bytes answer) out.old }
{
    match answer {
        Answer::Done => {
            put_byte(out, 0, 0);
            2
        }
        Answer::Granted { serial: n } | Answer::Settled { lost: n } => {
            put_byte(out, 0, 0);
            put_four(out, 2, n);
            10
        }
        Answer::Ticked { loss, intake } => {
            put_byte(out, 0, 0);
            put_four(out, 2, loss);
            put_four(out, 10, intake);
            18
        }
        Answer::Audited(totals) => put_totals(out, totals),
    }
}

// The same of an answer or a refusal.
fn put_reply(out: &mut [u8], reply: Result<Answer, FrameFault>) -> usize
    requires { 160 ≤ length out.old }
    ensures result { result ≡ 2 * length (reply_bytes reply) }
    ensures after { out.new ≡ with_bytes 0 (reply_bytes reply) out.old }
{
    match reply {
        Ok(answer) => put_answer(out, answer),
        Err(fault) => put_fault(out, fault),
    }
}

// Writes the line of an answer or a refusal over the front of an array of 160 bytes or more, and tells its length.
pub fn write_answer(reply: Result<Answer, FrameFault>, out: &mut [u8]) -> Result<usize, FrameFault>
    ensures result { result ≡ answered reply out.old }
    ensures after { out.new ≡ after_answer reply out.old }
{
    if out.len() < ROOM {
        return Err(FrameFault::ShortAnswer);
    }
    let end = put_reply(out, reply);
    out[end] = b'\n';
    Ok(end + 1)
}
