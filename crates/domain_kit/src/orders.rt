// The order in which the cells of a discrete domain stand.
ghost use Rattle.std.specs.Prelude.{◌≡◌, map, IfOk};
ghost use Rattle.fixed_num.specs.Ranges.{all_found};
ghost use Rattle.expr_eval.specs.Answers.{Evaluates};
ghost use Rattle.domain_kit.specs.Orders.{in_direction, ranked, all_ranked, by_rank, by_operation};
ghost use Rattle.domain_kit.specs.inner.Held.{values_held};

use crate::cells::{ascending, descending};
use crate::keyed::{Entry, Held, all_held, held_of, held_values, keys_of};
use cell_value::Cell;
use expr_eval::EvalError;
use plain_groups::aggregate_cells;
use std::alloc::Global;
use text_kit::{OutOfMemory, Seq};

/// The distinct cells from the least to the greatest, or where that is asked from the greatest to the least.
pub fn in_direction(
    alloc: Global,
    descends: bool,
    cells: Seq<Cell>,
) -> Result<Seq<Cell>, OutOfMemory>
    ensures { IfOk result (λ out. out ≡ in_direction descends cells) }
{
    if descends {
        descending(alloc, cells)
    } else {
        ascending(alloc, cells)
    }
}

// A cell under what an operation gives over its values.
fn ranked(alloc: Global, op: u16, held: &Held, cell: &Cell) -> Result<Entry, EvalError>
    ensures { Evaluates result (ranked op (values_held held.now) cell.now) }
{
    let rank = aggregate_cells(alloc, op, held_values(held, cell))?;
    Ok(Entry {
        key: rank,
        value: cell.copy()?,
    })
}

// Each cell under what an operation gives over its values.
fn each_ranked(alloc: Global, op: u16, held: &Held, cells: &[Cell]) -> Result<Seq<Entry>, EvalError>
    ensures { Evaluates result (all_found (map (ranked op (values_held held.now)) cells.now)) }
{
    let mut ranks = Seq::with_capacity(alloc, cells.len())?;
    for cell in cells {
        match ranked(alloc, op, held, cell) {
            Ok(rank) => ranks.push(rank)?,
            Err(error) => return Err(error),
        }
    }
    Ok(ranks)
}

// Each distinct key, ascending, under what an operation gives over its values.
fn all_ranked(alloc: Global, op: u16, entries: &[Entry]) -> Result<Seq<Entry>, EvalError>
    ensures { Evaluates result (all_ranked op entries.now) }
{
    let held = held_of(alloc, entries)?;
    let keys = ascending(alloc, keys_of(alloc, entries)?)?;
    each_ranked(alloc, op, &held, keys.as_slice())
}

/// Cells, each as the value under its rank, by their ranks in a direction; cells of one rank stay as they stand.
pub fn by_rank(alloc: Global, descends: bool, ranks: &[Entry]) -> Result<Seq<Cell>, OutOfMemory>
    ensures { IfOk result (λ cells. cells ≡ by_rank descends ranks.now) }
{
    let held = held_of(alloc, ranks)?;
    let keys = in_direction(alloc, descends, keys_of(alloc, ranks)?)?;
    all_held(alloc, &held, keys.as_slice())
}

/// The distinct keys by what the operation of a code gives over the values of each, in a direction; keys for which it gives the same stand
/// ascending. `Overflow` comes exactly where it overflows for one of them.
pub fn by_operation(
    alloc: Global,
    descends: bool,
    op: u16,
    entries: &[Entry],
) -> Result<Seq<Cell>, EvalError>
    ensures { Evaluates result (by_operation descends op entries.now) }
{
    let ranks = all_ranked(alloc, op, entries)?;
    Ok(by_rank(alloc, descends, ranks.as_slice())?)
}
