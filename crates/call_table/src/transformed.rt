// Rows that are transformed.
ghost use Rattle.std.specs.Prelude.{◌≡◌, ◌*◌, length, IfOk};
ghost use Rattle.plain_rows.specs.Rows.{AreRows};
ghost use Rattle.call_table.specs.Numbered.{BranchesBelow};

use crate::json_rows::CallStop;
use cell_value::Rows;
use plain_rows::{FoldOf, LookupOf};
use std::alloc::Global;

/// What a fold makes of rows whose branches are below a number, where there is room for it.
pub(crate) fn folded(alloc: Global, rows: &Rows, how: &FoldOf, most: u64) -> Result<Rows, CallStop>
    requires rows { AreRows rows.now }
    requires branches { BranchesBelow most rows.now }
    ensures rows { IfOk result AreRows }
    ensures branches { IfOk result (BranchesBelow (most * length how.now.fields)) }
{
    let fields = how.fields.len();
    if fields > 1000 || most > 1000 || rows.len() > 1000 {
        return Err(CallStop::Shape);
    }
    Ok(plain_rows::fold(alloc, rows, how)?)
}

// How many branches are below twice so many fields.
fn twice(fields: usize) -> Result<u64, CallStop>
    ensures { IfOk result (λ n. n ≡ 2 * fields) }
{
    if fields > 1000 {
        return Err(CallStop::Shape);
    }
    Ok(2 * fields as u64)
}

/// What two folds make of rows, one after the other.
pub(crate) fn folded_twice(
    alloc: Global,
    rows: &Rows,
    first: &FoldOf,
    second: &FoldOf,
) -> Result<Rows, CallStop>
    requires rows { AreRows rows.now }
    requires branches { BranchesBelow 2 rows.now }
{
    let most = twice(first.fields.len())?;
    let rows = folded(alloc, rows, first, 2)?;
    folded(alloc, &rows, second, most)
}

/// What a lookup makes of rows.
pub(crate) fn looked_up(
    alloc: Global,
    rows: &Rows,
    other: &Rows,
    how: &LookupOf,
) -> Result<Rows, CallStop>
    requires rows { AreRows rows.now }
    requires other { AreRows other.now }
{
    if how.outs.len() != how.fields.len() {
        return Err(CallStop::Shape);
    }
    Ok(plain_rows::lookup(alloc, rows, other, how)?)
}
