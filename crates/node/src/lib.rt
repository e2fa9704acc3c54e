// A node: it divides what a store holds among reserves, feeds them by taps, and grants from them.
#![tactic(auto)]

mod denial;
mod new_reserve;
mod new_tap;
mod node;
mod slip;
mod totals;

pub use denial::{Denial, Overdraw, REFUSALS};
pub use new_reserve::NewReserve;
pub use new_tap::NewTap;
pub use node::Node;
pub use slip::Slip;
pub use tables::{ROOT, ROOT_TASK, TAPS};
pub use totals::Totals;
