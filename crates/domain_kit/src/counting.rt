// Which cells count for a continuous domain, and as which numbers.
ghost use Rattle.std.specs.Prelude.{◌≡◌, ◌≤ℤ◌, IfSome};
ghost use Rattle.time_calc.specs.Instants.{stands_for_instant, first_instant, last_instant, instant_number};
ghost use Rattle.scale_kit.specs.Places.{in_time, the_instant};
ghost use Rattle.domain_kit.specs.Counting.{listed_instant, counted, extent_among, extent_between, numbers_or_instants, pair_in};
ghost use Rattle.domain_kit.specs.inner.Extents.{with_number};

use crate::numbers::{greater, lesser, one, the_number, zero};
use cell_value::Cell;
use fixed_num::Num;
use time_calc::read_instant;

/// Which cells count for a domain of numbers.
#[derive(Clone, Copy, Debug, PartialEq, Eq)]
pub enum Counting {
    /// Numbers.
    Numbers,
    /// Numbers that stand for instants in range.
    Instants,
    /// These, and texts that give instants.
    ListedInstants,
}

/// The first instant in range, in millionths of a millisecond since 1970.
const FIRST_INSTANT: i128 = -62_135_596_800_000_000_000;

/// The last.
const LAST_INSTANT: i128 = 253_370_764_799_999_000_000;

/// The number of the first instant in range.
pub(crate) fn first_instant() -> Num
    ensures { result ≡ instant_number first_instant }
{
    match Num::of_millionths(FIRST_INSTANT) {
        Some(number) => number,
        None => unreachable!(),
    }
}

/// That of the last.
pub(crate) fn last_instant() -> Num
    ensures { result ≡ instant_number last_instant }
{
    match Num::of_millionths(LAST_INSTANT) {
        Some(number) => number,
        None => unreachable!(),
    }
}

// Whether a number stands for an instant in range.
fn is_instant(n: Num) -> bool
    ensures { result ≡ stands_for_instant n }
{
    FIRST_INSTANT <= n.millionths() && n.millionths() <= LAST_INSTANT
}

// A number that stands for an instant in range.
fn in_time(n: Num) -> Option<Num>
    ensures { result ≡ in_time n }
{
    if is_instant(n) { Some(n) } else { None }
}

// The instant in range for which a cell stands.
fn the_instant(cell: &Cell) -> Option<Num>
    ensures { result ≡ the_instant cell.now }
{
    match cell {
        Cell::Number(n) => in_time(*n),
        Cell::Null | Cell::Flag(_) | Cell::Text(_) | Cell::Pair(_, _) => None,
    }
}

// The instant in range for which a cell of a list stands.
fn listed_instant(cell: &Cell) -> Option<Num>
    ensures { result ≡ listed_instant cell.now }
{
    match cell {
        Cell::Number(n) => in_time(*n),
        Cell::Text(text) => in_time(read_instant(text.as_str())?),
        Cell::Null | Cell::Flag(_) | Cell::Pair(_, _) => None,
    }
}

// The number as which a cell counts.
fn counted(counting: Counting, cell: &Cell) -> Option<Num>
    ensures { result ≡ counted counting cell.now }
{
    match counting {
        Counting::Numbers => the_number(cell),
        Counting::Instants => the_instant(cell),
        Counting::ListedInstants => listed_instant(cell),
    }
}

// The ends of the numbers so far, with that of a cell.
fn with_cell(counting: Counting, ends: Option<(Num, Num)>, cell: &Cell) -> Option<(Num, Num)>
    requires { IfSome ends (λ e. e.0 ≤ℤ e.1) }
    ensures value { result ≡ with_number ends (counted counting cell.now) }
    ensures ordered { IfSome result (λ e. e.0 ≤ℤ e.1) }
{
    match counted(counting, cell) {
        Some(n) => match ends {
            Some((low, high)) => Some((lesser(low, n), greater(high, n))),
            None => Some((n, n)),
        },
        None => ends,
    }
}

/// The least and the greatest number as which cells count; 0 and 1 where none counts.
pub fn extent_among(counting: Counting, cells: &[Cell]) -> (Num, Num)
    ensures value { result ≡ extent_among counting cells.now }
    ensures ordered { result.0 ≤ℤ result.1 }
{
    let mut ends = None;
    for cell in cells {
        ends = with_cell(counting, ends, cell);
    }
    match ends {
        Some(found) => found,
        None => (zero(), one()),
    }
}

/// The extent between the least and the greatest of some numbers; 0 and 1 where there are none.
pub fn extent_between(ends: Option<(Num, Num)>) -> (Num, Num)
    requires { IfSome ends (λ e. e.0 ≤ℤ e.1) }
    ensures value { result ≡ extent_between ends }
    ensures ordered { result.0 ≤ℤ result.1 }
{
    match ends {
        Some(found) => found,
        None => (zero(), one()),
    }
}

/// What counts on a scale of time or another.
pub fn numbers_or_instants(is_time: bool) -> Counting
    ensures { result ≡ numbers_or_instants is_time }
{
    if is_time {
        Counting::Instants
    } else {
        Counting::Numbers
    }
}

/// The two numbers of a pair, as far as they count, from the lesser to the greater; None for another cell.
pub fn pair_in(counting: Counting, cell: &Cell) -> Option<(Num, Num)>
    ensures value { result ≡ pair_in counting cell.now }
    ensures ordered { IfSome result (λ e. e.0 ≤ℤ e.1) }
{
    match cell {
        Cell::Pair(a, b) => Some(extent_among(counting, &[Cell::Number(*a), Cell::Number(*b)])),
        Cell::Null | Cell::Flag(_) | Cell::Number(_) | Cell::Text(_) => None,
    }
}
