// A line in, an answer line out.
#![tactic(auto)]

mod serve;
mod simulator;

pub use simulator::{Layers, Simulator};
