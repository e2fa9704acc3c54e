// What the answers to a script come to: how many lines, accepted and refused, and who was denied how much.
#![tactic(auto)]

mod denials;
mod lack;
mod recount;
mod row;
mod table;
mod verdicts;

pub use recount::Recount;
pub use row::Row;
