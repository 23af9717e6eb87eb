// What builtins give for the values of their arguments.
ghost use Rattle.std.specs.Prelude.{◌≡◌, ◌+ℤ◌, ◌<◌, ◌^◌, pos, unsigned_abs};
ghost use Rattle.std.specs.Int.{int_min, int_max};
ghost use Rattle.fixed_num.specs.Number.{million, floored};
ghost use Rattle.expr_eval.specs.Numbers.{is_number, is_text, is_flag};
ghost use Rattle.expr_eval.specs.Builtins.{test_of, is_valid, as_number, as_text, as_date, one_number, of_number, size, ceiling, floor};
ghost use Rattle.expr_eval.specs.Builtins.{nearest, square_root, part_in, date_in, three_numbers, clamped, within, flag_of_within};
ghost use Rattle.expr_eval.specs.Answers.{Evaluates};

use crate::EvalError;
use crate::numbers::{cell_number, number_or_null, the_number, the_pair, whole};
use crate::ranges::number;
use cell_value::Cell;
use fixed_num::Num;
use std::alloc::Global;
use text_kit::OutOfMemory;
use time_calc::{PartOf, part, read_instant};

// Each of these gives null for a number of arguments that isn't admitted.

/// `isValid`
pub(crate) fn is_valid(args: &[Cell]) -> Result<Cell, EvalError>
    ensures { Evaluates result (test_of is_valid args.now) }
{
    match args {
        [only] => Ok(Cell::Flag(!matches!(only, Cell::Null))),
        _ => Ok(Cell::Null),
    }
}

/// `isNumber`
pub(crate) fn is_number(args: &[Cell]) -> Result<Cell, EvalError>
    ensures { Evaluates result (test_of is_number args.now) }
{
    match args {
        [only] => Ok(Cell::Flag(matches!(only, Cell::Number(_)))),
        _ => Ok(Cell::Null),
    }
}

/// `isString`
pub(crate) fn is_string(args: &[Cell]) -> Result<Cell, EvalError>
    ensures { Evaluates result (test_of is_text args.now) }
{
    match args {
        [only] => Ok(Cell::Flag(matches!(only, Cell::Text(_)))),
        _ => Ok(Cell::Null),
    }
}

/// `isBoolean`
pub(crate) fn is_boolean(args: &[Cell]) -> Result<Cell, EvalError>
    ensures { Evaluates result (test_of is_flag args.now) }
{
    match args {
        [only] => Ok(Cell::Flag(matches!(only, Cell::Flag(_)))),
        _ => Ok(Cell::Null),
    }
}

/// `toNumber`
pub(crate) fn to_number(args: &[Cell]) -> Result<Cell, EvalError>
    ensures { Evaluates result (as_number args.now) }
{
    match args {
        [only] => Ok(number_or_null(cell_number(only))),
        _ => Ok(Cell::Null),
    }
}

/// `toString`
pub(crate) fn to_string(alloc: Global, args: &[Cell]) -> Result<Cell, EvalError>
    ensures { Evaluates result (as_text args.now) }
{
    match args {
        [only] => Ok(Cell::Text(only.display(alloc)?)),
        _ => Ok(Cell::Null),
    }
}

// The instant that a cell is or tells; None exactly where there is none.
fn date_in(cell: &Cell) -> Option<Num>
    ensures { result ≡ date_in cell.now }
{
    match cell {
        Cell::Null => None,
        Cell::Flag(_) => None,
        Cell::Number(number) => Some(*number),
        Cell::Text(text) => read_instant(text.as_str()),
        Cell::Pair(_, _) => None,
    }
}

/// `toDate`
pub(crate) fn to_date(args: &[Cell]) -> Result<Cell, EvalError>
    ensures { Evaluates result (as_date args.now) }
{
    match args {
        [only] => Ok(number_or_null(date_in(only))),
        _ => Ok(Cell::Null),
    }
}

// The one argument, where it is a number.
fn one_number(args: &[Cell]) -> Option<Num>
    ensures { result ≡ one_number args.now }
{
    match args {
        [only] => the_number(only),
        _ => None,
    }
}

/// `abs`
#[tactic(auto, using(crate::proofs::RangeLemmas::in_range_from_exact))]
pub(crate) fn abs(args: &[Cell]) -> Result<Cell, EvalError>
    ensures { Evaluates result (of_number size args.now) }
{
    match one_number(args) {
        Some(n) => number(Num::of_millionths(n.millionths().abs())),
        None => Ok(Cell::Null),
    }
}

/// `ceil`
#[tactic(auto, using(crate::proofs::RangeLemmas::in_range_from_exact))]
pub(crate) fn ceil(args: &[Cell]) -> Result<Cell, EvalError>
    ensures { Evaluates result (of_number ceiling args.now) }
{
    match one_number(args) {
        Some(n) => number(n.ceil_to(whole(1))),
        None => Ok(Cell::Null),
    }
}

/// `floor`
#[tactic(auto, using(crate::proofs::RangeLemmas::in_range_from_exact))]
pub(crate) fn floor(args: &[Cell]) -> Result<Cell, EvalError>
    ensures { Evaluates result (of_number floor args.now) }
{
    match one_number(args) {
        Some(n) => number(n.floor_to(whole(1))),
        None => Ok(Cell::Null),
    }
}

/// `sqrt`
pub(crate) fn sqrt(args: &[Cell]) -> Result<Cell, EvalError>
    ensures { Evaluates result (of_number square_root args.now) }
{
    match one_number(args) {
        Some(n) => Ok(number_or_null(n.root())),
        None => Ok(Cell::Null),
    }
}

// The whole number of a count and another one, in millionths, or the next one below it.
#[tactic(auto, using(crate::proofs::RangeLemmas::floored_from_remainder))]
fn floor_of_sum(a: i128, b: i128) -> i128
    requires a_in_reach { unsigned_abs a < 2 ^ 120 }
    requires b_in_reach { unsigned_abs b < 2 ^ 120 }
    ensures { result ≡ floored (a +ℤ b) (pos million) }
{
    let sum = a + b;
    sum - sum.rem_euclid(1_000_000)
}

/// `round`
#[tactic(auto, using(crate::proofs::RangeLemmas::in_range_from_exact))]
pub(crate) fn round(args: &[Cell]) -> Result<Cell, EvalError>
    ensures { Evaluates result (of_number nearest args.now) }
{
    match one_number(args) {
        Some(n) => number(Num::of_millionths(floor_of_sum(n.millionths(), 500_000))),
        None => Ok(Cell::Null),
    }
}

/// The nine parts of an instant, with the prefix `utc` and without.
pub(crate) fn part_of(p: PartOf, args: &[Cell]) -> Result<Cell, EvalError>
    ensures { Evaluates result (part_in p args.now) }
{
    match one_number(args) {
        Some(at) => Ok(number_or_null(part(at, p))),
        None => Ok(Cell::Null),
    }
}

// The lesser and the greater of two numbers.
pub(crate) fn lesser(a: Num, b: Num) -> Num
    ensures { result ≡ int_min a b }
{
    if b.millionths() < a.millionths() {
        b
    } else {
        a
    }
}

pub(crate) fn greater(a: Num, b: Num) -> Num
    ensures { result ≡ int_max a b }
{
    if b.millionths() < a.millionths() {
        a
    } else {
        b
    }
}

// Three numbers; None for other arguments.
pub(crate) fn three_numbers(args: &[Cell]) -> Option<(Num, Num, Num)>
    ensures { result ≡ three_numbers args.now }
{
    match args {
        [a, b, c] => Some((the_number(a)?, the_number(b)?, the_number(c)?)),
        _ => None,
    }
}

/// `clamp`
pub(crate) fn clamp(args: &[Cell]) -> Result<Cell, EvalError>
    ensures { Evaluates result (clamped args.now) }
{
    match three_numbers(args) {
        Some((n, low, high)) => Ok(Cell::Number(greater(low, lesser(n, high)))),
        None => Ok(Cell::Null),
    }
}

// Whether a number lies between the two of a pair; null for other cells.
fn is_within(number: &Cell, pair: &Cell) -> Cell
    ensures { result ≡ flag_of_within number.now pair.now }
{
    match (the_number(number), the_pair(pair)) {
        (Some(n), Some((a, b))) => Cell::Flag(
            lesser(a, b).millionths() <= n.millionths()
                && n.millionths() <= greater(a, b).millionths(),
        ),
        _ => Cell::Null,
    }
}

/// `inrange`
pub(crate) fn in_range(args: &[Cell]) -> Result<Cell, EvalError>
    ensures { Evaluates result (within args.now) }
{
    match args {
        [number, pair] => Ok(is_within(number, pair)),
        _ => Ok(Cell::Null),
    }
}
