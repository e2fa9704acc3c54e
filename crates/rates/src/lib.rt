// Amounts and their bounds, and the constant rate.
#![tactic(auto)]

mod amount;
mod rate;

pub use amount::{G, OutOfRange, PARTS};
pub use rate::Rate;
