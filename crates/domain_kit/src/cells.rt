// Distinct cells, in the orders in which domains have them.
ghost use Rattle.std.specs.Prelude.{◌≡◌, ◌∷◌, [], ◌++◌, ◌||◌, IfOk, OnOk, if◌then◌else◌};
ghost use Rattle.std.specs.BTreeSet.{contains};
ghost use Rattle.cell_value.specs.declared.cell.Cell.{Cell};
ghost use Rattle.cell_value.specs.Cell.{cell_cmp, same_cells};
ghost use Rattle.domain_kit.specs.Cells.{in_first_order, descending};
ghost use Rattle.tick_kit.specs.Domains.{ascending};

use cell_value::Cell;
use std::alloc::Global;
use std::collections::BTreeSet;
use text_kit::{OutOfMemory, Seq};

// Adds a cell to those that were found, unless it was seen.
fn note(found: &mut Seq<Cell>, seen: &mut BTreeSet<Cell>, cell: &Cell) -> Result<(), OutOfMemory>
    ensures found { OnOk result (found.new
        ≡ (if contains cell_cmp seen.old cell.now then found.old else found.old ++ cell.now ∷ [])) }
    ensures seen { OnOk result ((c : Cell) → contains cell_cmp seen.new c ≡ (contains cell_cmp seen.old c || same_cells c cell.now)) }
{
    if seen.contains(cell) {
        return Ok(());
    }
    found.push(cell.copy()?)?;
    seen.insert(cell.copy()?)?;
    Ok(())
}

/// The distinct cells, by where each stands first.
pub fn in_first_order(alloc: Global, cells: &[Cell]) -> Result<Seq<Cell>, OutOfMemory>
    ensures { IfOk result (λ found. found ≡ in_first_order cells.now) }
{
    let mut seen = BTreeSet::new(alloc);
    let mut found = Seq::new(alloc);
    for cell in cells {
        note(&mut found, &mut seen, cell)?;
    }
    Ok(found)
}

// The set of some cells.
fn set_of(alloc: Global, cells: Seq<Cell>) -> Result<BTreeSet<Cell>, OutOfMemory>
    ensures { IfOk result (λ found. found.keys ≡ ascending cell_cmp cells) }
{
    let mut left = cells;
    let mut found = BTreeSet::new(alloc);
    while let Some(cell) = left.pop() {
        found.insert(cell)?;
    }
    Ok(found)
}

/// The distinct cells in ascending order.
pub(crate) fn ascending(alloc: Global, cells: Seq<Cell>) -> Result<Seq<Cell>, OutOfMemory>
    ensures { IfOk result (λ found. found ≡ ascending cell_cmp cells) }
{
    let found = set_of(alloc, cells)?;
    Ok(Seq::from_vec(found.into_iter().collect(alloc)?))
}

/// The distinct cells in descending order.
pub(crate) fn descending(alloc: Global, cells: Seq<Cell>) -> Result<Seq<Cell>, OutOfMemory>
    ensures { IfOk result (λ found. found ≡ descending cell_cmp cells) }
{
    let mut found = ascending(alloc, cells)?.into_vec();
    found.reverse();
    Ok(Seq::from_vec(found))
}
