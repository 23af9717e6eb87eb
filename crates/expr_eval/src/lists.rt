// Builtins of many numbers, and of a text.
ghost use Rattle.std.specs.Prelude.{◌≡◌, ◌+◌, ◌<◌, ◌^◌, pos, ◌+ℤ◌, ◌-ℤ◌, ◌*ℤ◌, count_by, nat_lt, nat_le};
ghost use Rattle.std.specs.Str.{chars};
ghost use Rattle.fixed_num.specs.Bands.{space_of};
ghost use Rattle.expr_eval.specs.Builtins.{number_at, instant_in, instant, least_among, greatest_among, least_cell, greatest_cell, space};
ghost use Rattle.expr_eval.specs.Builtins.{utf16_length, length_of};
ghost use Rattle.expr_eval.specs.Answers.{Evaluates};

use crate::EvalError;
use crate::builtins::{greater, lesser, three_numbers};
use crate::numbers::{number_or_null, the_number, whole};
use crate::ranges::{count, number};
use cell_value::Cell;
use fixed_num::Num;
use time_calc::instant_of;

// The least of numbers; None where an argument is no number, and where there is none.
fn least_among(args: &[Cell]) -> Option<Num>
    ensures { result ≡ least_among args.now }
{
    let [first, more @ ..] = args else {
        return None;
    };
    let mut least = the_number(first)?;
    for arg in more {
        least = lesser(least, the_number(arg)?);
    }
    Some(least)
}

// The greatest of numbers; None where an argument is no number, and where there is none.
fn greatest_among(args: &[Cell]) -> Option<Num>
    ensures { result ≡ greatest_among args.now }
{
    let [first, more @ ..] = args else {
        return None;
    };
    let mut greatest = the_number(first)?;
    for arg in more {
        greatest = greater(greatest, the_number(arg)?);
    }
    Some(greatest)
}

/// `min`
pub(crate) fn min(args: &[Cell]) -> Result<Cell, EvalError>
    ensures { Evaluates result (least_cell args.now) }
{
    Ok(number_or_null(least_among(args)))
}

/// `max`
pub(crate) fn max(args: &[Cell]) -> Result<Cell, EvalError>
    ensures { Evaluates result (greatest_cell args.now) }
{
    Ok(number_or_null(greatest_among(args)))
}

// A count of steps less the inner padding and with the outer one on both sides, in millionths.
fn padded(count: Num, inner: Num, outer: Num) -> i128
    ensures { result ≡ count -ℤ inner +ℤ pos 2 *ℤ outer }
{
    count.millionths() - inner.millionths() + 2 * outer.millionths()
}

// The space of so many bands, in millionths of a step.
fn space_of(count: Num, inner: Num, outer: Num) -> i128
    ensures { result ≡ space_of count inner outer }
{
    let space = padded(count, inner, outer);
    if count.millionths() == 0 {
        0
    } else if space > 0 {
        space
    } else {
        1_000_000
    }
}

/// `bandspace`
#[tactic(auto, using(crate::proofs::RangeLemmas::in_range_from_exact))]
pub(crate) fn band_space(args: &[Cell]) -> Result<Cell, EvalError>
    ensures { Evaluates result (space args.now) }
{
    match three_numbers(args) {
        Some((count, inner, outer)) => number(Num::of_millionths(space_of(count, inner, outer))),
        None => Ok(Cell::Null),
    }
}

// The argument at a place as a number, or another number where it is missing; None where it is no number.
fn number_at(args: &[Cell], place: usize, missing: Num) -> Option<Num>
    ensures { result ≡ number_at args.now place missing }
{
    match args.get(place) {
        Some(arg) => the_number(arg),
        None => Some(missing),
    }
}

// The instant of a year, a month and further parts; None exactly where there is none.
fn instant_in(args: &[Cell]) -> Option<Num>
    ensures { result ≡ instant_in args.now }
{
    let year = number_at(args, 0, whole(0))?;
    let month = number_at(args, 1, whole(0))?;
    let date = number_at(args, 2, whole(1))?;
    let hours = number_at(args, 3, whole(0))?;
    let minutes = number_at(args, 4, whole(0))?;
    let seconds = number_at(args, 5, whole(0))?;
    let milliseconds = number_at(args, 6, whole(0))?;
    instant_of(year, month, date, hours, minutes, seconds, milliseconds)
}

/// `utc` and `datetime`
pub(crate) fn instant(args: &[Cell]) -> Result<Cell, EvalError>
    ensures { Evaluates result (instant args.now) }
{
    Ok(number_or_null(instant_in(args)))
}

// How many characters up to U+FFFF a text has.
fn narrow_characters(text: &str) -> usize
    ensures { result ≡ count_by (λ c. nat_le c 65535) (chars text.now) }
{
    text.chars().filter(|c| *c <= '\u{ffff}').count()
}

// How many characters above U+FFFF a text has.
fn wide_characters(text: &str) -> usize
    ensures { result ≡ count_by (λ c. nat_lt 65535 c) (chars text.now) }
{
    text.chars().filter(|c| *c > '\u{ffff}').count()
}

// How many units of UTF-16 a text has.
fn utf16_length(text: &str) -> u128
    ensures value { result ≡ utf16_length text.now }
    ensures bound { result < 2 ^ 66 }
{
    narrow_characters(text) as u128 + 2 * wide_characters(text) as u128
}

/// `length`
pub(crate) fn length(args: &[Cell]) -> Result<Cell, EvalError>
    ensures { Evaluates result (length_of args.now) }
{
    match args {
        [Cell::Text(text)] => count(utf16_length(text.as_str())),
        _ => Ok(Cell::Null),
    }
}
