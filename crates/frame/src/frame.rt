// The frames: a first byte that names the kind, then that kind's fields and nothing more.
ghost use Rattle.std.specs.Prelude.{◌≡◌, ℕ, List};
ghost use Rattle.frame.specs.Prefix.{cut};
ghost use Rattle.frame.specs.Frame.{frame_in, frame_of, open_of, close_of, tap_of, shut_of, grant_of, settle_of, tick_of, audit_of, capacitor_of, layered_of, bank_of};

use crate::digits::{MOST_BYTES, read_line};
use crate::fault::FrameFault;
use node::{NewReserve, NewTap};

#[derive(Clone, Copy)]
pub enum Frame {
    // A node over a capacitor.
    Capacitor {
        capacity: u32,
    },
    // A node over a capacitor under a floor under leakage.
    Layered {
        capacity: u32,
        floor: u32,
        part: u16,
    },
    // A node over a bank of three cells.
    Bank {
        capacities: [u32; 3],
    },
    // A reserve opened under its parent.
    Open {
        task: u8,
        reserve: NewReserve,
    },
    // A reserve closed.
    Close {
        task: u8,
        number: u8,
    },
    // A tap opened.
    Tap {
        task: u8,
        tap: NewTap,
    },
    // A tap shut.
    Shut {
        task: u8,
        tap: u8,
    },
    // A grant requested, its slip to be parked.
    Grant {
        task: u8,
        reserve: u8,
        amount: u32,
    },
    // A parked grant settled.
    Settle {
        task: u8,
        serial: u32,
        used: u32,
    },
    // One tick of the node that stands.
    Tick {
        harvest: u32,
    },
    // The seven totals of the node that stands.
    Audit,
}

// A function for each kind, so that each takes its fields apart by one pattern of named fields and nothing more.
fn capacitor(fields: &[u8]) -> Result<Frame, FrameFault>
    ensures result { result ≡ capacitor_of fields.now }
{
    match fields {
        [c3, c2, c1, c0] => Ok(Frame::Capacitor {
            capacity: u32::from_be_bytes([*c3, *c2, *c1, *c0]),
        }),
        _ => Err(FrameFault::UnknownFrame),
    }
}

fn layered(fields: &[u8]) -> Result<Frame, FrameFault>
    ensures result { result ≡ layered_of fields.now }
{
    match fields {
        [c3, c2, c1, c0, f3, f2, f1, f0, p1, p0] => Ok(Frame::Layered {
            capacity: u32::from_be_bytes([*c3, *c2, *c1, *c0]),
            floor: u32::from_be_bytes([*f3, *f2, *f1, *f0]),
            part: u16::from_be_bytes([*p1, *p0]),
        }),
        _ => Err(FrameFault::UnknownFrame),
    }
}

fn bank(fields: &[u8]) -> Result<Frame, FrameFault>
    ensures result { result ≡ bank_of fields.now }
{
    match fields {
        [a3, a2, a1, a0, b3, b2, b1, b0, c3, c2, c1, c0] => Ok(Frame::Bank {
            capacities: [
                u32::from_be_bytes([*a3, *a2, *a1, *a0]),
                u32::from_be_bytes([*b3, *b2, *b1, *b0]),
                u32::from_be_bytes([*c3, *c2, *c1, *c0]),
            ],
        }),
        _ => Err(FrameFault::UnknownFrame),
    }
}

fn opening(fields: &[u8]) -> Result<Frame, FrameFault>
    ensures result { result ≡ open_of fields.now }
{
    match fields {
        [task, parent, number, owner, l3, l2, l1, l0, a3, a2, a1, a0] => Ok(Frame::Open {
            task: *task,
            reserve: NewReserve {
                parent: *parent,
                number: *number,
                owner: *owner,
                limit: u32::from_be_bytes([*l3, *l2, *l1, *l0]),
                amount: u32::from_be_bytes([*a3, *a2, *a1, *a0]),
            },
        }),
        _ => Err(FrameFault::UnknownFrame),
    }
}

fn close(fields: &[u8]) -> Result<Frame, FrameFault>
    ensures result { result ≡ close_of fields.now }
{
    match fields {
        [task, number] => Ok(Frame::Close {
            task: *task,
            number: *number,
        }),
        _ => Err(FrameFault::UnknownFrame),
    }
}

fn tap(fields: &[u8]) -> Result<Frame, FrameFault>
    ensures result { result ≡ tap_of fields.now }
{
    match fields {
        [task, number, source, sink, n3, n2, n1, n0, d1, d0] => Ok(Frame::Tap {
            task: *task,
            tap: NewTap {
                number: *number,
                source: *source,
                sink: *sink,
                n: u32::from_be_bytes([*n3, *n2, *n1, *n0]),
                d: u16::from_be_bytes([*d1, *d0]),
            },
        }),
        _ => Err(FrameFault::UnknownFrame),
    }
}

fn shut(fields: &[u8]) -> Result<Frame, FrameFault>
    ensures result { result ≡ shut_of fields.now }
{
    match fields {
        [task, number] => Ok(Frame::Shut {
            task: *task,
            tap: *number,
        }),
        _ => Err(FrameFault::UnknownFrame),
    }
}

fn grant(fields: &[u8]) -> Result<Frame, FrameFault>
    ensures result { result ≡ grant_of fields.now }
{
    match fields {
        [task, reserve, a3, a2, a1, a0] => Ok(Frame::Grant {
            task: *task,
            reserve: *reserve,
            amount: u32::from_be_bytes([*a3, *a2, *a1, *a0]),
        }),
        _ => Err(FrameFault::UnknownFrame),
    }
}

fn settle(fields: &[u8]) -> Result<Frame, FrameFault>
    ensures result { result ≡ settle_of fields.now }
{
    match fields {
        [task, s3, s2, s1, s0, u3, u2, u1, u0] => Ok(Frame::Settle {
            task: *task,
            serial: u32::from_be_bytes([*s3, *s2, *s1, *s0]),
            used: u32::from_be_bytes([*u3, *u2, *u1, *u0]),
        }),
        _ => Err(FrameFault::UnknownFrame),
    }
}

fn tick(fields: &[u8]) -> Result<Frame, FrameFault>
    ensures result { result ≡ tick_of fields.now }
{
    match fields {
        [h3, h2, h1, h0] => Ok(Frame::Tick {
            harvest: u32::from_be_bytes([*h3, *h2, *h1, *h0]),
        }),
        _ => Err(FrameFault::UnknownFrame),
    }
}

fn audit(fields: &[u8]) -> Result<Frame, FrameFault>
    ensures result { result ≡ audit_of fields.now }
{
    match fields {
        [] => Ok(Frame::Audit),
        _ => Err(FrameFault::UnknownFrame),
    }
}

impl Frame {
    // The frame that a line is, of which the first 81 bytes tell as much as the whole.
    pub fn of_line(line: &[u8]) -> Result<Frame, FrameFault>
        ensures result { result ≡ frame_in line.now }
        ensures long { (xs : List ℕ) → line.now ≡ cut xs → result ≡ frame_in xs }
    {
        let mut array = [0; MOST_BYTES];
        match read_line(line, &mut array) {
            Ok(len) => Frame::from_bytes(&array[..len]),
            Err(fault) => Err(fault),
        }
    }

    // The frame of a line's bytes.
    pub fn from_bytes(bytes: &[u8]) -> Result<Frame, FrameFault>
        ensures result { result ≡ frame_of bytes.now }
    {
        match bytes {
            [0x01, fields @ ..] => opening(fields),
            [0x02, fields @ ..] => close(fields),
            [0x03, fields @ ..] => tap(fields),
            [0x05, fields @ ..] => shut(fields),
            [0x06, fields @ ..] => grant(fields),
            [0x07, fields @ ..] => settle(fields),
            [0x08, fields @ ..] => tick(fields),
            [0x09, fields @ ..] => audit(fields),
            [0x10, fields @ ..] => capacitor(fields),
            [0x11, fields @ ..] => layered(fields),
            [0x12, fields @ ..] => bank(fields),
            _ => Err(FrameFault::UnknownFrame),
        }
    }
}
