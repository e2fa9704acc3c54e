// What the programs share: a script read from standard input, cut into lines, and handed over line by line.
#![tactic(auto)]

mod cutting;
mod program;
mod script;

pub use cutting::{Cutter, feed, line_end};
pub use program::run;
pub use script::Script;
