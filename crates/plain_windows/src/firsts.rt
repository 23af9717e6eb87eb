// How many of the cells before each place are the first of their kind.
ghost use Rattle.std.specs.Prelude.{◌≡◌, ◌+◌, ◌≤◌, ◌||◌, length, IfOk, OnOk, if◌then◌else◌};
ghost use Rattle.std.specs.BTreeSet.{contains};
ghost use Rattle.cell_value.specs.declared.cell.Cell.{Cell as CellValue};
ghost use Rattle.cell_value.specs.Cell.{cell_cmp, same_cells};
ghost use Rattle.plain_rows.specs.Rows.{most_listed};
ghost use Rattle.plain_windows.specs.inner.Firsts.{AreFirsts};

use cell_value::Cell;
use std::alloc::Global;
use std::collections::BTreeSet;
use text_kit::{OutOfMemory, Seq};

// One more where the cell wasn't seen; it then is.
fn count_after(seen: &mut BTreeSet<Cell>, cell: &Cell, n: usize) -> Result<usize, OutOfMemory>
    requires { n ≤ most_listed }
    ensures value { IfOk result (λ m. m ≡ (if contains cell_cmp seen.old cell.now then n else n + 1)) }
    ensures seen { OnOk result ((c : CellValue) → contains cell_cmp seen.new c ≡ (contains cell_cmp seen.old c || same_cells cell.now c)) }
{
    if seen.contains(cell) {
        return Ok(n);
    }
    seen.insert(cell.copy()?)?;
    Ok(n + 1)
}

/// How many of the cells before each place, and before the end, are the first of their kind.
pub(crate) fn firsts(alloc: Global, cells: &[Cell]) -> Result<Seq<usize>, OutOfMemory>
    requires { length cells.now ≤ most_listed }
    ensures { IfOk result (AreFirsts cells.now) }
{
    let mut seen = BTreeSet::new(alloc);
    let mut counts = Seq::with_capacity(alloc, cells.len() + 1)?;
    let mut n: usize = 0;
    for cell in cells {
        counts.push(n)?;
        n = count_after(&mut seen, cell, n)?;
    }
    counts.push(n)?;
    Ok(counts)
}
