// The first N bytes of what it is given, in their order.
ghost use Rattle.std.specs.Prelude.{◌≤◌};

mod filling;

// It has its own array and length, to stay `Copy`, which an `ArrayVec` is not.
#[derive(Clone, Copy)]
pub struct Prefix<const N: usize> {
    array: [u8; N],
    len: usize,
    ghost within: { len ≤ N },
}

// What is kept of a line: with so many bytes it is over-long, whatever follows.
pub const KEPT: usize = 81;

// A line as it is read.
pub type Line = Prefix<KEPT>;

// The bytes of a line of at most 80 digits.
pub type Bytes = Prefix<40>;
