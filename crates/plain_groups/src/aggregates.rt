// What operations give over the cells of a group.
ghost use Rattle.std.specs.Prelude.{◌≡◌, [], ◌∷◌, ◌*◌, ◌≤◌, count_by, length, IfOk};
ghost use Rattle.cell_value.specs.declared.cell.Cell.TheVariants.{Null as NullCell};
ghost use Rattle.cell_value.specs.Cell.{same_cells};
ghost use Rattle.expr_eval.specs.Answers.{Evaluates};
ghost use Rattle.expr_eval.specs.Numbers.{number_or_null};
ghost use Rattle.plain_groups.specs.Groups.{firsts};
ghost use Rattle.plain_groups.specs.Aggregates.{most_cells, count_cell, sum, sum_of, aggregate_of, of_numbers, mean_of, quartile_of};
ghost use Rattle.expr_eval.specs.Builtins.{least_of, greatest_of};

use crate::numbers::{greatest_of, least_of, mean_of, numbers_among, quartile_of, sum_of};
use crate::places::{leader, no_places};
use cell_value::Cell;
use expr_eval::EvalError;
use fixed_num::Num;
use std::alloc::Global;
use text_kit::OutOfMemory;

/// How many cells an operation takes. No memory holds more.
const MOST_CELLS: usize = 1_099_511_627_776;

// How many as a cell.
fn count_cell(n: usize) -> Cell
    requires { n ≤ most_cells }
    ensures { result ≡ count_cell n }
{
    match Num::of_millionths(n as i128 * 1_000_000) {
        Some(number) => Cell::Number(number),
        None => unreachable!(),
    }
}

// How many cells are null.
fn nulls(cells: &[Cell]) -> usize
    ensures value { result ≡ count_by (λ cell. same_cells cell NullCell) cells.now }
    ensures bound { result ≤ length cells.now }
{
    let mut n: usize = 0;
    for cell in cells {
        if cell.same(&Cell::Null) {
            n += 1;
        }
    }
    n
}

// A cell as a list of one.
fn lone(alloc: Global, cell: &Cell) -> Result<Vec<Cell>, OutOfMemory>
    ensures { IfOk result (λ key. key.items ≡ cell.now ∷ []) }
{
    let mut key = Vec::with_capacity(alloc, 1)?;
    key.push(cell.copy()?)?;
    Ok(key)
}

// How many different cells there are.
fn different(alloc: Global, cells: &[Cell]) -> Result<usize, OutOfMemory>
    ensures value { IfOk result (λ n. n ≡ length (firsts same_cells cells.now)) }
    ensures bound { IfOk result (λ n. n ≤ length cells.now) }
{
    let mut places = no_places(alloc);
    let mut n: usize = 0;
    for (at, cell) in cells.iter().enumerate() {
        if leader(&mut places, lone(alloc, cell)?, at)? == at {
            n += 1;
        }
    }
    Ok(n)
}

// The sum of the numbers as a cell. `Overflow` exactly where it is out of range.
fn sum_cell(alloc: Global, cells: &[Cell]) -> Result<Cell, EvalError>
    requires { length cells.now ≤ most_cells }
    ensures { Evaluates result (sum cells.now) }
{
    let numbers = numbers_among(alloc, cells)?;
    match Num::of_millionths(sum_of(&numbers)) {
        Some(number) => Ok(Cell::Number(number)),
        None => Err(EvalError::Overflow),
    }
}

// The number as a cell, null where there is none.
fn number_or_null(found: Option<Num>) -> Cell
    ensures { result ≡ number_or_null found }
{
    match found {
        Some(number) => Cell::Number(number),
        None => Cell::Null,
    }
}

// The mean of the numbers as a cell.
fn mean(alloc: Global, cells: &[Cell]) -> Result<Cell, EvalError>
    requires { length cells.now ≤ most_cells }
    ensures { Evaluates result (of_numbers mean_of cells.now) }
{
    Ok(number_or_null(mean_of(&numbers_among(alloc, cells)?)))
}

// The least number as a cell.
fn min(alloc: Global, cells: &[Cell]) -> Result<Cell, EvalError>
    requires { length cells.now ≤ most_cells }
    ensures { Evaluates result (of_numbers least_of cells.now) }
{
    Ok(number_or_null(least_of(&numbers_among(alloc, cells)?)))
}

// The greatest number as a cell.
fn max(alloc: Global, cells: &[Cell]) -> Result<Cell, EvalError>
    requires { length cells.now ≤ most_cells }
    ensures { Evaluates result (of_numbers greatest_of cells.now) }
{
    Ok(number_or_null(greatest_of(&numbers_among(alloc, cells)?)))
}

// The number at so many quarters of the way from the least to the greatest number as a cell.
fn quartile(alloc: Global, cells: &[Cell], quarters: usize) -> Result<Cell, EvalError>
    requires few { length cells.now ≤ most_cells }
    requires within { quarters ≤ 4 }
    ensures { Evaluates result (of_numbers (quartile_of quarters) cells.now) }
{
    Ok(number_or_null(quartile_of(quarters, numbers_among(alloc, cells)?)))
}

/// What the operation of a code gives over at most 2^40 cells; null where the code is of no aggregate. `Overflow` comes exactly
/// where a sum is out of range.
#[tactic(auto, unfolding(crate::specs::Aggregates::aggregates))]
pub(crate) fn aggregate_of(alloc: Global, op: u16, cells: &[Cell]) -> Result<Cell, EvalError>
    requires { length cells.now ≤ most_cells }
    ensures { Evaluates result (aggregate_of op cells.now) }
{
    match op {
        0 => Ok(count_cell(cells.len())),
        1 => Ok(count_cell(cells.len() - nulls(cells))),
        2 => Ok(count_cell(nulls(cells))),
        3 => Ok(count_cell(different(alloc, cells)?)),
        4 => sum_cell(alloc, cells),
        5 | 6 => mean(alloc, cells),
        7 => min(alloc, cells),
        8 => max(alloc, cells),
        9 => quartile(alloc, cells, 2),
        10 => quartile(alloc, cells, 1),
        11 => quartile(alloc, cells, 3),
        _ => Ok(Cell::Null),
    }
}

/// What the operation of a code among `case_table::OPERATIONS` gives over cells; null where the code is of no aggregate. `Overflow`
/// comes exactly where a sum is out of range.
pub fn aggregate_cells(alloc: Global, op: u16, cells: &[Cell]) -> Result<Cell, EvalError>
    ensures { Evaluates result (aggregate_of op cells.now) }
{
    if cells.len() > MOST_CELLS {
        return Err(EvalError::Memory);
    }
    aggregate_of(alloc, op, cells)
}
