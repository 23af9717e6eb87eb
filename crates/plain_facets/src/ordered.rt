// The cells of a field by what stands beside them.
ghost use Rattle.std.specs.Prelude.{◌≡◌, true, false, Option, Some, None, cond, map, option_copied, IfOk, OnOk};
ghost use Rattle.std.specs.Option.{option_or};
ghost use Rattle.cell_value.specs.declared.cell.Cell.{Cell as CellValue};
ghost use Rattle.cell_value.specs.Cell.{same_cells};
ghost use Rattle.plain_facets.specs.Facets.{by_firsts};
ghost use Rattle.plain_facets.specs.inner.Besides.{beside_at, first_found, beside_or_null, behind_its_own, in_order_of};

use crate::sets::in_order;
use cell_value::Cell;
use std::alloc::Global;
use std::cmp::Reverse;
use std::collections::BTreeMap;
use text_kit::{OutOfMemory, Seq};

// What stands beside cells.
type Besides = BTreeMap<Cell, Cell>;

// Nothing beside any cell.
fn no_besides(alloc: Global) -> Besides
    ensures { (cell : CellValue) → beside_at result cell ≡ None }
{
    BTreeMap::new(alloc)
}

// Whether something stands beside a cell.
fn beside<'a>(besides: &'a Besides, cell: &Cell) -> Option<&'a Cell>
    ensures { option_copied result ≡ beside_at besides.now cell.now }
{
    besides.get(cell)
}

// Puts what stands beside a cell beside which nothing stands.
fn put(besides: &mut Besides, cell: Cell, beside: Cell) -> Result<(), OutOfMemory>
    ensures { OnOk result ((q : CellValue) → beside_at besides.new q ≡ cond (same_cells cell q) (Some beside) (beside_at besides.old q)) }
{
    besides.insert(cell, beside)?;
    Ok(())
}

// Puts what stands beside a cell, unless something does.
fn note(besides: &mut Besides, pair: &(Cell, Cell)) -> Result<(), OutOfMemory>
    ensures { OnOk result ((q : CellValue) → beside_at besides.new q
        ≡ option_or (beside_at besides.old q) (cond (same_cells pair.now.0 q) (Some pair.now.1) None)) }
{
    match beside(besides, &pair.0) {
        Some(_) => Ok(()),
        None => {
            put(besides, pair.0.copy()?, pair.1.copy()?)?;
            Ok(())
        }
    }
}

// What stands beside each cell where it stands first.
fn besides_of(alloc: Global, pairs: &[(Cell, Cell)]) -> Result<Besides, OutOfMemory>
    ensures { IfOk result (λ besides. (q : CellValue) → beside_at besides q ≡ first_found pairs.now q) }
{
    let mut besides = no_besides(alloc);
    for pair in pairs {
        note(&mut besides, pair)?;
    }
    Ok(besides)
}

// What stands beside a cell, null where nothing does.
fn beside_or_null(besides: &Besides, cell: &Cell) -> Result<Cell, OutOfMemory>
    ensures { IfOk result (λ found. found ≡ beside_or_null besides.now cell.now) }
{
    match beside(besides, cell) {
        Some(found) => found.copy(),
        None => Ok(Cell::Null),
    }
}

// Each first cell behind what stands beside it.
fn rising(
    alloc: Global,
    besides: &Besides,
    pairs: &[(Cell, Cell)],
) -> Result<Vec<(Cell, Cell)>, OutOfMemory>
    ensures { IfOk result (λ made. made.items ≡ map (behind_its_own besides.now) pairs.now) }
{
    let mut made = Vec::new(alloc);
    for pair in pairs {
        made.push((beside_or_null(besides, &pair.0)?, pair.0.copy()?))?;
    }
    Ok(made)
}

// The same, so that the greatest stands first.
fn falling(
    alloc: Global,
    besides: &Besides,
    pairs: &[(Cell, Cell)],
) -> Result<Vec<(Reverse<Cell>, Cell)>, OutOfMemory>
    ensures { IfOk result (λ made. map (λ r. (r.0.0, r.1)) made.items ≡ map (behind_its_own besides.now) pairs.now) }
{
    let mut made = Vec::new(alloc);
    for pair in pairs {
        made.push((Reverse(beside_or_null(besides, &pair.0)?), pair.0.copy()?))?;
    }
    Ok(made)
}

// The second parts of pairs.
fn seconds<T>(alloc: Global, pairs: &[(T, Cell)]) -> Result<Seq<Cell>, OutOfMemory>
    ensures { IfOk result (λ cells. cells ≡ map (λ pair. pair.1) pairs.now) }
{
    let mut cells = Seq::with_capacity(alloc, pairs.len())?;
    for pair in pairs {
        cells.push(pair.1.copy()?)?;
    }
    Ok(cells)
}

// The different first cells, that beside which the least stands first.
fn by_rising(
    alloc: Global,
    besides: &Besides,
    pairs: &[(Cell, Cell)],
) -> Result<Seq<Cell>, OutOfMemory>
    ensures { IfOk result (λ cells. cells ≡ in_order_of false besides.now pairs.now) }
{
    let found = in_order(alloc, rising(alloc, besides, pairs)?)?;
    Ok(seconds(alloc, found.as_slice())?)
}

// The different first cells, that beside which the greatest stands first.
fn by_falling(
    alloc: Global,
    besides: &Besides,
    pairs: &[(Cell, Cell)],
) -> Result<Seq<Cell>, OutOfMemory>
    ensures { IfOk result (λ cells. cells ≡ in_order_of true besides.now pairs.now) }
{
    let found = in_order(alloc, falling(alloc, besides, pairs)?)?;
    Ok(seconds(alloc, found.as_slice())?)
}

// The different first cells, in a direction.
fn in_direction(
    alloc: Global,
    descending: bool,
    besides: &Besides,
    pairs: &[(Cell, Cell)],
) -> Result<Seq<Cell>, OutOfMemory>
    ensures { IfOk result (λ cells. cells ≡ in_order_of descending besides.now pairs.now) }
{
    if descending {
        by_falling(alloc, besides, pairs)
    } else {
        by_rising(alloc, besides, pairs)
    }
}

/// The different first cells of pairs, by what stands beside each where it stands first, the least or the greatest first. Cells with
/// the same beside them stand ascending.
pub(crate) fn by_firsts(
    alloc: Global,
    descending: bool,
    pairs: &[(Cell, Cell)],
) -> Result<Seq<Cell>, OutOfMemory>
    ensures { IfOk result (λ cells. cells ≡ by_firsts descending pairs.now) }
{
    let besides = besides_of(alloc, pairs)?;
    Ok(in_direction(alloc, descending, &besides, pairs)?)
}
