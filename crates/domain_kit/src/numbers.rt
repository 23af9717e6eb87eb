// Numbers.
ghost use Rattle.std.specs.Prelude.{◌≡◌, pos};
ghost use Rattle.std.specs.Int.{int_min, int_max};
ghost use Rattle.fixed_num.specs.Number.{million};
ghost use Rattle.expr_eval.specs.Numbers.{the_number};

use cell_value::Cell;
use fixed_num::Num;

/// The lesser of two numbers.
pub(crate) fn lesser(a: Num, b: Num) -> Num
    ensures { result ≡ int_min a b }
{
    if b < a { b } else { a }
}

/// The greater of two numbers.
pub(crate) fn greater(a: Num, b: Num) -> Num
    ensures { result ≡ int_max a b }
{
    if a < b { b } else { a }
}

/// The number 0.
pub(crate) fn zero() -> Num
    ensures { result ≡ pos 0 }
{
    match Num::of_millionths(0) {
        Some(number) => number,
        None => unreachable!(),
    }
}

/// The number 1.
pub(crate) fn one() -> Num
    ensures { result ≡ pos million }
{
    match Num::of_millionths(1_000_000) {
        Some(number) => number,
        None => unreachable!(),
    }
}

/// So many millionths.
pub(crate) fn millionths(n: usize) -> Num
    ensures { result ≡ pos n }
{
    match Num::of_millionths(n as i128) {
        Some(number) => number,
        None => unreachable!(),
    }
}

/// The number in a cell, if it is one.
pub(crate) fn the_number(cell: &Cell) -> Option<Num>
    ensures { result ≡ the_number cell.now }
{
    match cell {
        Cell::Number(n) => Some(*n),
        Cell::Null | Cell::Flag(_) | Cell::Text(_) | Cell::Pair(_, _) => None,
    }
}
