// The totals of cells as they run, of which those of a frame are differences.
ghost use Rattle.std.specs.Prelude.{◌≡◌, ◌+◌, ◌*◌, ◌<◌, ◌≤◌, length, pos, int_lt, unsigned_abs, IfOk, if◌then◌else◌};
ghost use Rattle.fixed_num.specs.Number.{limit, IsNumber, rounded};
ghost use Rattle.expr_eval.specs.Answers.{Evaluates};
ghost use Rattle.plain_rows.specs.Rows.{most_listed};
ghost use Rattle.plain_windows.specs.inner.Totals.{AtMostSo, AddsLittle, AreSmall, total_between, total_in};
ghost use Rattle.plain_windows.specs.inner.Totals.{sum_cell, mean_cell, no_total, total_after, totals_from};

use crate::frames::Frame;
use cell_value::Cell;
use expr_eval::EvalError;
use fixed_num::Num;
use std::alloc::Global;
use text_kit::{OutOfMemory, Seq};

/// What cells are together.
#[derive(Clone, Copy, Debug)]
pub(crate) struct Total {
    /// The sum of the numbers that aren't negative.
    pub up: u128,
    /// How far the sum of the negative numbers is below zero.
    pub down: u128,
    /// How many numbers there are.
    pub numbers: usize,
    /// How many nulls there are.
    pub nulls: usize,
}

// A number where it isn't negative, else 0.
fn upward(value: Num) -> u128
    ensures value { result ≡ (if int_lt value (pos 0) then 0 else unsigned_abs value) }
    ensures bound { result ≤ limit }
{
    let value = value.millionths();
    if value < 0 { 0 } else { value.unsigned_abs() }
}

// How far a number is below zero.
fn downward(value: Num) -> u128
    ensures value { result ≡ (if int_lt value (pos 0) then unsigned_abs value else 0) }
    ensures bound { result ≤ limit }
{
    let value = value.millionths();
    if value < 0 { value.unsigned_abs() } else { 0 }
}

// Nothing.
fn no_total() -> Total
    ensures { result ≡ no_total }
{
    Total {
        up: 0,
        down: 0,
        numbers: 0,
        nulls: 0,
    }
}

// The totals with a cell more.
fn total_after(total: Total, n: usize, cell: &Cell) -> Total
    requires few { n ≤ most_listed }
    requires so_far { AtMostSo total n }
    ensures value { result ≡ total_after total cell.now }
    ensures bound { AtMostSo result (n + 1) }
    ensures cell { AddsLittle cell.now }
{
    match cell {
        Cell::Number(number) => Total {
            up: total.up + upward(*number),
            down: total.down + downward(*number),
            numbers: total.numbers + 1,
            nulls: total.nulls,
        },
        Cell::Null => Total {
            up: total.up,
            down: total.down,
            numbers: total.numbers,
            nulls: total.nulls + 1,
        },
        _ => total,
    }
}

/// The totals before each of several cells and behind the last.
pub(crate) fn totals(alloc: Global, cells: &[Cell]) -> Result<Seq<Total>, OutOfMemory>
    requires { length cells.now ≤ most_listed }
    ensures value { IfOk result (λ totals. totals ≡ totals_from no_total cells.now) }
    ensures bound { IfOk result AreSmall }
{
    let mut totals = Seq::with_capacity(alloc, cells.len() + 1)?;
    let mut total = no_total();
    for (at, cell) in cells.iter().enumerate() {
        totals.push(total)?;
        total = total_after(total, at, cell);
    }
    totals.push(total)?;
    Ok(totals)
}

// What a total has more than another.
fn total_between(a: Total, b: Total) -> Total
    ensures { result ≡ total_between a b }
{
    Total {
        up: b.up.saturating_sub(a.up),
        down: b.down.saturating_sub(a.down),
        numbers: b.numbers.saturating_sub(a.numbers),
        nulls: b.nulls.saturating_sub(a.nulls),
    }
}

/// What the cells of a frame are together.
pub(crate) fn total_in(totals: &[Total], frame: Frame) -> Total
    requires inside { frame.to < length totals.now }
    requires bound { AreSmall totals.now }
    ensures value { result ≡ total_in frame totals.now }
    ensures bound { AtMostSo result most_listed }
{
    if frame.from < frame.to {
        total_between(totals[frame.from], totals[frame.to])
    } else {
        no_total()
    }
}

/// The sum as a cell. `Overflow` exactly where it is out of range.
pub(crate) fn sum_cell(total: Total) -> Result<Cell, EvalError>
    requires { AtMostSo total most_listed }
    ensures { Evaluates result (sum_cell total) }
{
    match Num::of_millionths(total.up as i128 - total.down as i128) {
        Some(number) => Ok(Cell::Number(number)),
        None => Err(EvalError::Overflow),
    }
}

// `p` by `q`, rounded to the nearest, the middle going upward.
fn rounded(p: i128, q: u64) -> i128
    requires p_in_reach { unsigned_abs p ≤ most_listed * limit }
    requires q_above_zero { 0 < q }
    requires q_in_reach { q ≤ most_listed }
    ensures value { result ≡ rounded p q }
    ensures bound { unsigned_abs p ≤ q * limit → IsNumber result }
{
    (2 * p + i128::from(q)).div_euclid(2 * i128::from(q))
}

/// The mean as a cell; null where there is no number.
pub(crate) fn mean_cell(total: Total) -> Cell
    requires { AtMostSo total most_listed }
    ensures { result ≡ mean_cell total }
{
    if total.numbers == 0 {
        return Cell::Null;
    }
    let sum = total.up as i128 - total.down as i128;
    match Num::of_millionths(rounded(sum, total.numbers as u64)) {
        Some(number) => Cell::Number(number),
        None => unreachable!(),
    }
}
