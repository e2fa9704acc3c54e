// Lines of hexadecimal digits, the frames that they are, and the lines that answer them.
#![tactic(auto)]

mod answer;
mod digits;
mod fault;
mod frame;
mod prefix;

pub use answer::{Answer, ROOM, write_answer};
pub use digits::decode;
pub use fault::FrameFault;
pub use frame::Frame;
pub use prefix::{Bytes, KEPT, Line, Prefix};
