// Sums, means and quartiles of numbers.
ghost use Rattle.std.specs.Prelude.{◌≡◌, ◌-◌, ◌*◌, ◌<◌, ◌≤◌, ◌+ℤ◌, ◌*ℤ◌, length, pos, IfOk, Some, unsigned_abs, slice_index_or};
ghost use Rattle.fixed_num.specs.Number.{limit, IsNumber, rounded};
ghost use Rattle.std.specs.Int.{int_min, int_max};
ghost use Rattle.expr_eval.specs.Numbers.{the_number};
ghost use Rattle.expr_eval.specs.Builtins.{least_of, greatest_of};
ghost use Rattle.plain_groups.specs.Aggregates.{most_cells, numbers_among, sum_of, mean_of, sorted, at_quarters, quartile_of};

use cell_value::Cell;
use fixed_num::Num;
use std::alloc::Global;
use text_kit::OutOfMemory;

// The number that the cell is; None exactly where it is of another kind.
fn the_number(cell: &Cell) -> Option<Num>
    ensures { result ≡ the_number cell.now }
{
    match cell {
        Cell::Number(number) => Some(*number),
        _ => None,
    }
}

/// The numbers among cells, in their order.
pub(crate) fn numbers_among(alloc: Global, cells: &[Cell]) -> Result<Vec<Num>, OutOfMemory>
    ensures value { IfOk result (λ numbers. numbers.items ≡ numbers_among cells.now) }
    ensures bound { IfOk result (λ numbers. length numbers.items ≤ length cells.now) }
{
    let mut numbers = Vec::with_capacity(alloc, cells.len())?;
    for cell in cells {
        if let Some(number) = the_number(cell) {
            numbers.push(number)?;
        }
    }
    Ok(numbers)
}

/// The sum of at most 2^40 numbers, which is exact.
pub(crate) fn sum_of(numbers: &[Num]) -> i128
    requires { length numbers.now ≤ most_cells }
    ensures value { result ≡ sum_of numbers.now }
    ensures bound { unsigned_abs result ≤ length numbers.now * limit }
{
    let mut sum = 0;
    for number in numbers {
        sum += number.millionths();
    }
    sum
}

// `p` by `q`, rounded to the nearest, the middle going upward.
fn rounded(p: i128, q: u64) -> i128
    requires p_in_reach { unsigned_abs p ≤ most_cells * limit }
    requires q_above_zero { 0 < q }
    requires q_in_reach { q ≤ most_cells }
    ensures value { result ≡ rounded p q }
    ensures bound { unsigned_abs p ≤ q * limit → IsNumber result }
{
    (2 * p + i128::from(q)).div_euclid(2 * i128::from(q))
}

/// The mean of at most 2^40 numbers; None exactly where there is none.
pub(crate) fn mean_of(numbers: &[Num]) -> Option<Num>
    requires { length numbers.now ≤ most_cells }
    ensures { result ≡ mean_of numbers.now }
{
    if numbers.is_empty() {
        return None;
    }
    Num::of_millionths(rounded(sum_of(numbers), numbers.len() as u64))
}

// The lesser of two numbers.
fn lesser(a: Num, b: Num) -> Num
    ensures { result ≡ int_min a b }
{
    if b < a { b } else { a }
}

// The greater of two numbers.
fn greater(a: Num, b: Num) -> Num
    ensures { result ≡ int_max a b }
{
    if a < b { b } else { a }
}

/// The least number; None exactly where there is none.
pub(crate) fn least_of(numbers: &[Num]) -> Option<Num>
    ensures { result ≡ least_of numbers.now }
{
    let [first, others @ ..] = numbers else {
        return None;
    };
    let mut least = *first;
    for number in others {
        least = lesser(least, *number);
    }
    Some(least)
}

/// The greatest number; None exactly where there is none.
pub(crate) fn greatest_of(numbers: &[Num]) -> Option<Num>
    ensures { result ≡ greatest_of numbers.now }
{
    let [first, others @ ..] = numbers else {
        return None;
    };
    let mut greatest = *first;
    for number in others {
        greatest = greater(greatest, *number);
    }
    Some(greatest)
}

// The numbers from the least to the greatest.
fn sorted(numbers: Vec<Num>) -> Vec<Num>
    ensures { result.items ≡ sorted numbers.items }
{
    let mut numbers = numbers;
    numbers.sort_unstable();
    numbers
}

// The number at a place, 0 where there is none.
fn number_at(numbers: &[Num], i: usize) -> Num
    ensures { result ≡ slice_index_or numbers.now i (pos 0) }
{
    match numbers.get(i) {
        Some(number) => *number,
        None => match Num::of_millionths(0) {
            Some(zero) => zero,
            None => unreachable!(),
        },
    }
}

// Four times the number that stands so many quarters of the way between two.
fn four_times_between(low: Num, high: Num, part: usize) -> i128
    requires { part < 4 }
    ensures value { result ≡ pos (4 - part) *ℤ low +ℤ pos part *ℤ high }
    ensures bound { unsigned_abs result ≤ 4 * limit }
{
    let low = low.millionths();
    let high = high.millionths();
    match part {
        0 => 4 * low,
        1 => 3 * low + high,
        2 => 2 * low + 2 * high,
        _ => low + 3 * high,
    }
}

// The number at a place that is counted in quarters of places.
fn at_quarters(numbers: &[Num], quarters: usize) -> Option<Num>
    ensures { result ≡ Some (at_quarters numbers.now quarters) }
{
    let low = number_at(numbers, quarters / 4);
    let high = number_at(numbers, quarters / 4 + 1);
    Num::of_millionths(rounded(four_times_between(low, high, quarters % 4), 4))
}

/// The number at so many quarters of the way from the least to the greatest of at most 2^40 numbers; None exactly where
/// there is none.
pub(crate) fn quartile_of(quarters: usize, numbers: Vec<Num>) -> Option<Num>
    requires few { length numbers.items ≤ most_cells }
    requires within { quarters ≤ 4 }
    ensures { result ≡ quartile_of quarters numbers.items }
{
    if numbers.is_empty() {
        return None;
    }
    let place = (numbers.len() - 1) * quarters;
    at_quarters(&sorted(numbers), place)
}
