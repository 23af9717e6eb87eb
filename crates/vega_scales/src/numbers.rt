// Numbers.
ghost use Rattle.std.specs.Prelude.{◌≡◌, pos};
ghost use Rattle.expr_eval.specs.Numbers.{the_number};

use cell_value::Cell;
use fixed_num::Num;

/// The number 0.
pub(crate) fn zero() -> Num
    ensures { result ≡ pos 0 }
{
    match Num::of_millionths(0) {
        Some(number) => number,
        None => unreachable!(),
    }
}

/// The number in a cell, if it is one.
pub(crate) fn the_number(cell: &Cell) -> Option<Num>
    ensures { result ≡ the_number cell.now }
{
    match cell {
        Cell::Number(n) => Some(*n),
        Cell::Null | Cell::Flag(_) | Cell::Text(_) | Cell::Pair(_, _) => None,
    }
}
