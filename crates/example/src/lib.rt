// What the examples share: what ends one early, and how its program ends.
#![tactic(auto)]

mod ending;
mod failure;

pub use ending::ended;
pub use failure::Failure;
