// The tables of a node, plain rows of numbers: reserves, constant taps, grants and books.
#![tactic(auto)]

mod books;
mod grant;
mod grants;
mod reserves;
mod table;
mod taps;

pub use books::Books;
pub use grant::Grant;
pub use grants::{Found, GRANTS, Grants};
pub use reserves::{LAST_RESERVE, ROOT, ROOT_TASK, Reserve, Reserves};
pub use table::Table;
pub use taps::{LAST_TAP, TAPS, Tap, Taps};
