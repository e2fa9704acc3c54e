// The denials under one number: a row for each task and reserve, whatever bytes they are.
ghost use Rattle.std.specs.Prelude.{◌≡◌, vec_len};

use crate::row::Row;

mod noting;

// All rows are made at once, so that noting a denial never needs memory, as an entry of a map might.
#[derive(Drop)]
pub(crate) struct Table {
    rows: Vec<Row>,
    ghost full: { vec_len rows ≡ 65536 },
}
