// Two stores and a layer of one's own, written over the crates `store` and `layers` alone.
#![tactic(auto)]

mod battery;
mod measured;
mod standby;

pub use battery::Battery;
pub use measured::{Measured, Sensor};
pub use standby::Standby;
