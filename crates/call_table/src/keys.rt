// Rows under keys.
ghost use Rattle.std.specs.Prelude.{◌+◌, ◌≤◌, IfOk, OnOk};
ghost use Rattle.plain_rows.specs.Rows.{AreRows, keys_of};
ghost use Rattle.call_table.specs.Numbered.{AreNumbered, BranchesBelow};

use crate::spelled::rows_by;
use cell_value::{Key, Keyed, Row, Rows};
use std::alloc::Global;
use text_kit::{OutOfMemory, Seq};

// Adds a row under the key with a number: its branch is what is left of the number by 2.
#[tactic(auto, using(crate::proofs::NumberedLemmas::one_more))]
fn push_row(out: &mut Rows, number: u64, row: Row) -> Result<(), OutOfMemory>
    requires few { number ≤ 100000 }
    requires numbered { AreNumbered number (keys_of out.old) }
    ensures { OnOk result (AreNumbered (number + 1) (keys_of out.new)) }
{
    let id = number / 2;
    let branch = number as u32 % 2;
    out.push(Keyed {
        key: Key { id, branch },
        row,
    })
}

/// Rows under the keys with every number from 2 on, or every second. Too many are refused as memory is.
#[tactic(auto, using(crate::proofs::NumberedLemmas::later, crate::proofs::NumberedLemmas::numbered_are_rows, crate::proofs::NumberedLemmas::branches_of))]
pub(crate) fn keyed(alloc: Global, rows: Seq<Row>, second: bool) -> Result<Rows, OutOfMemory>
    ensures rows { IfOk result AreRows }
    ensures branches { IfOk result (BranchesBelow 2) }
{
    let mut out = Seq::new(alloc);
    let mut number: u64 = 2;
    for row in rows.into_vec() {
        if number > 100_000 {
            return Err(OutOfMemory);
        }
        push_row(&mut out, number, row)?;
        number = after(number, second);
    }
    Ok(out)
}

// The next number, or the one behind it.
fn after(number: u64, second: bool) -> u64
    requires { number ≤ 100000 }
    ensures from { number + 1 ≤ result }
    ensures within { result ≤ number + 2 }
{
    if second { number + 2 } else { number + 1 }
}

/// The rows of a list under ids that count from 1.
pub(crate) fn one_each(alloc: Global, list: &str) -> Result<Rows, OutOfMemory>
    ensures { IfOk result AreRows }
{
    keyed(alloc, rows_by(alloc, list)?, true)
}

/// The rows of a list, two under each id from 1 on.
pub(crate) fn two_each(alloc: Global, list: &str) -> Result<Rows, OutOfMemory>
    ensures { IfOk result AreRows }
{
    keyed(alloc, rows_by(alloc, list)?, false)
}
