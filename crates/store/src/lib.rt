// What a store of harvested energy means, and the two stores.
#![tactic(auto)]

mod bank;
mod capacitor;
mod cell;
mod fault;
mod store;
mod told;

pub use bank::Bank;
pub use capacitor::Capacitor;
pub use cell::Cell;
pub use fault::Fault;
pub use store::Store;
pub use told::Told;
