// The kinds of cells, what cells of a kind hold, and the numbers that cells stand for.
ghost use Rattle.std.specs.Prelude.{◌≡◌, ◌*◌, pos};
ghost use Rattle.fixed_num.specs.Number.{million};
ghost use Rattle.expr_eval.specs.Numbers.{is_text, is_pair, the_number, the_pair, cell_number, number_in_text, number_or_null};

use cell_value::Cell;
use fixed_num::Num;

/// So many times one.
pub(crate) fn whole(n: u8) -> Num
    ensures { result ≡ pos (n * million) }
{
    match Num::of_millionths(i128::from(n) * 1_000_000) {
        Some(number) => number,
        None => unreachable!(),
    }
}

/// Whether the cell is a text.
pub(crate) fn is_text(cell: &Cell) -> bool
    ensures { result ≡ is_text cell.now }
{
    matches!(cell, Cell::Text(_))
}

/// Whether the cell is a pair.
pub(crate) fn is_pair(cell: &Cell) -> bool
    ensures { result ≡ is_pair cell.now }
{
    matches!(cell, Cell::Pair(_, _))
}

/// The number that the cell is; None exactly where it is of another kind.
pub(crate) fn the_number(cell: &Cell) -> Option<Num>
    ensures { result ≡ the_number cell.now }
{
    match cell {
        Cell::Number(number) => Some(*number),
        _ => None,
    }
}

/// The two numbers that the cell is; None exactly where it is of another kind.
pub(crate) fn the_pair(cell: &Cell) -> Option<(Num, Num)>
    ensures { result ≡ the_pair cell.now }
{
    match cell {
        Cell::Pair(first, second) => Some((*first, *second)),
        _ => None,
    }
}

/// The number as a cell, null where there is none.
pub(crate) fn number_or_null(found: Option<Num>) -> Cell
    ensures { result ≡ number_or_null found }
{
    match found {
        Some(number) => Cell::Number(number),
        None => Cell::Null,
    }
}

/// The number that a text spells; None exactly where it is no JSON number in range.
fn number_in_text(text: &str) -> Option<Num>
    ensures { result ≡ number_in_text text.now }
{
    match Num::read_decimal(text.as_bytes()) {
        Ok(number) => Some(number),
        Err(_) => None,
    }
}

/// The number that the cell stands for; None exactly where it stands for none.
pub(crate) fn cell_number(cell: &Cell) -> Option<Num>
    ensures { result ≡ cell_number cell.now }
{
    match cell {
        Cell::Null => None,
        Cell::Flag(flag) => Some(whole(u8::from(*flag))),
        Cell::Number(number) => Some(*number),
        Cell::Text(text) => number_in_text(text.as_str()),
        Cell::Pair(_, _) => None,
    }
}
