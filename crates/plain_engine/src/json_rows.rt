// Rows that are given as JSON.
ghost use Rattle.std.specs.Prelude.{◌≡◌, ◌+◌, ◌^◌, ◌<◌, length, IfOk};
ghost use Rattle.std.specs.Option.{option_map};
ghost use Rattle.data_rows.specs.JsonRows.{row_of_json, first_bad};
ghost use Rattle.param_flow.specs.Machine.{new_rows};
ghost use Rattle.plain_engine.specs.inner.JsonRows.{bad_row};

use cell_value::{Key, Keyed, Rows};
use data_rows::{bad_field, row_of_json};
use json_exact::Json;
use std::alloc::Global;
use text_kit::{OutOfMemory, Seq};

/// The rows of values, in order: their ids count on from `id`, and a list or an object in a row is read as null.
pub fn new_rows(alloc: Global, id: u64, trees: &[Json]) -> Result<Rows, OutOfMemory>
    requires { id + length trees.now < 2 ^ 64 }
    ensures { IfOk result (λ rows. rows ≡ new_rows id trees.now) }
{
    let mut rows = Seq::with_capacity(alloc, trees.len())?;
    let mut next = id;
    for tree in trees {
        rows.push(keyed_row(alloc, next, tree)?)?;
        next += 1;
    }
    Ok(rows)
}

// The row of a value, with its key.
fn keyed_row(alloc: Global, id: u64, tree: &Json) -> Result<Keyed, OutOfMemory>
    ensures { IfOk result (λ keyed. keyed ≡ record { key = record { id = id; branch = 0 }; row = row_of_json tree.now }) }
{
    Ok(Keyed {
        key: Key { id, branch: 0 },
        row: row_of_json(alloc, tree)?,
    })
}

/// The first value that can't be read as a row, by its number from 0, with its first field that can't be read.
pub fn first_bad(trees: &[Json]) -> Option<(u64, &str)>
    ensures { option_map bad_row result ≡ first_bad 0 trees.now }
{
    for (row, tree) in trees.iter().enumerate() {
        if let Some(field) = bad_field(tree) {
            return Some((row as u64, field));
        }
    }
    None
}
