// The values of rows by their places, and the sums of partitions.
ghost use Rattle.std.specs.Prelude.{◌≡◌, ℕ, ◌<◌, ◌≤◌, [], map, fold, length, pos, slice_index_or, All, IfOk, option_map};
ghost use Rattle.std.specs.Int.{int_max};
ghost use Rattle.fixed_num.specs.Ranges.{all_found};
ghost use Rattle.cell_value.specs.State.{greatest_id};
ghost use Rattle.cell_value.specs.Datum.{cell_at, datum_of};
ghost use Rattle.expr_eval.specs.Numbers.{the_number};
ghost use Rattle.plain_rows.specs.Rows.{AreRows, most_listed};
ghost use Rattle.plain_stacks.specs.Stacks.{amount};
ghost use Rattle.plain_stacks.specs.inner.Sums.{values_at, sums_of, sums_at};

use crate::sums::{Sums, sums_of};
use cell_value::{Cell, Keyed};
use fixed_num::Num;
use plain_rows::{Offset, cell_of};
use std::alloc::Global;
use text_kit::{OutOfMemory, Seq};

// The number that the cell is; None exactly where it is of another kind.
fn the_number(cell: &Cell) -> Option<Num>
    ensures { result ≡ the_number cell.now }
{
    match cell {
        Cell::Number(number) => Some(*number),
        _ => None,
    }
}

// The number zero.
fn zero() -> Num
    ensures { result ≡ pos 0 }
{
    match Num::of_millionths(0) {
        Some(zero) => zero,
        None => unreachable!(),
    }
}

/// The number of a row in a field; None exactly where its cell is of another kind.
pub(crate) fn number_in(row: &Keyed, field: &str) -> Result<Option<Num>, OutOfMemory>
    requires { row.now.key.id ≤ greatest_id }
    ensures { IfOk result (λ number. number ≡ the_number (cell_at row.now field.now)) }
{
    Ok(the_number(&cell_of(row, field)?))
}

// What a row adds to its stack.
fn amount(row: &Keyed, field: &str) -> Result<Num, OutOfMemory>
    requires { row.now.key.id ≤ greatest_id }
    ensures { IfOk result (λ number. number ≡ amount field.now (datum_of row.now)) }
{
    match number_in(row, field)? {
        Some(number) => Ok(number),
        None => Ok(zero()),
    }
}

/// What each row adds to its stack.
pub(crate) fn amounts(alloc: Global, rows: &[Keyed], field: &str) -> Result<Seq<Num>, OutOfMemory>
    requires { AreRows rows.now }
    ensures { IfOk result (λ amounts. amounts ≡ map (λ row. amount field.now (datum_of row)) rows.now) }
{
    let mut amounts = Seq::with_capacity(alloc, rows.len())?;
    for row in rows {
        amounts.push(amount(row, field)?)?;
    }
    Ok(amounts)
}

// The values at places.
fn values_at(alloc: Global, amounts: &[Num], places: &[usize]) -> Result<Seq<Num>, OutOfMemory>
    requires { All (λ place. place < length amounts.now) places.now }
    ensures { IfOk result (λ values. values ≡ values_at amounts.now places.now) }
{
    let mut values = Seq::with_capacity(alloc, places.len())?;
    for place in places {
        values.push(amounts[*place])?;
    }
    Ok(values)
}

// The sums of a partition, by the places of its rows in order.
fn sums_by(
    alloc: Global,
    offset: Offset,
    amounts: &[Num],
    places: &[usize],
) -> Result<Sums, OutOfMemory>
    requires within { All (λ place. place < length amounts.now) places.now }
    requires few { length places.now ≤ most_listed }
    ensures { IfOk result (λ sums. sums ≡ sums_of offset (values_at amounts.now places.now)) }
{
    let values = values_at(alloc, amounts, places)?;
    sums_of(alloc, offset, values.as_slice())
}

/// The sums of partitions.
pub(crate) fn all_sums(
    alloc: Global,
    offset: Offset,
    amounts: &[Num],
    lists: &[Seq<usize>],
) -> Result<Seq<Sums>, OutOfMemory>
    requires within { (k : ℕ) → k < length lists.now → All (λ place. place < length amounts.now) (slice_index_or lists.now k []) }
    requires few { (k : ℕ) → k < length lists.now → length (slice_index_or lists.now k []) ≤ most_listed }
    ensures { IfOk result (λ sums. sums ≡ map (λ list. sums_of offset (values_at amounts.now list)) lists.now) }
{
    let mut sums = Seq::with_capacity(alloc, lists.len())?;
    for list in lists {
        sums.push(sums_by(alloc, offset, amounts, list.as_slice())?)?;
    }
    Ok(sums)
}

// The greater of two numbers.
fn greater(a: Num, b: Num) -> Num
    ensures { result ≡ int_max a b }
{
    if a < b { b } else { a }
}

// How long the values of a partition are together; None exactly where that is out of range.
fn whole_at(sums: &[Sums], home: usize) -> Option<Num>
    requires { home < length sums.now }
    ensures { result ≡ (sums_at sums.now home).whole }
{
    sums[home].whole
}

/// The greatest whole of the partitions of rows; None exactly where one is lacking.
pub(crate) fn greatest_whole(sums: &[Sums], homes: &[usize]) -> Option<Num>
    requires { All (λ home. home < length sums.now) homes.now }
    ensures { result ≡ option_map (fold int_max (pos 0)) (all_found (map (λ home. (sums_at sums.now home).whole) homes.now)) }
{
    let mut greatest = zero();
    for home in homes {
        let whole = whole_at(sums, *home)?;
        greatest = greater(greatest, whole);
    }
    Some(greatest)
}
