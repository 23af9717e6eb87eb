//! The instant of a year, a month and further parts.
ghost use Rattle.std.specs.Prelude.{◌≡◌, ◌≤◌, pos, IfSome, Some};
ghost use Rattle.std.specs.List.{list_all};
ghost use Rattle.time_calc.specs.Datetime.{is_whole, whole_of, first_day, first_of_month, seconds_of, milliseconds_of, instant_after};
ghost use Rattle.time_calc.specs.Datetime.{instant_of_wholes, instant_of};
ghost use Rattle.time_calc.specs.inner.Datetime.{IsWithin};

use crate::calendar::{Date, day_of_date};
use crate::instants::{DAY_LENGTH, MILLION, instant_in_range};
use fixed_num::Num;

/// Whether a number is a whole number.
fn is_whole(number: Num) -> bool
    ensures { result ≡ is_whole number }
{
    number.millionths() % MILLION == 0
}

/// Whether all numbers are whole numbers.
fn are_whole(numbers: &[Num]) -> bool
    ensures { result ≡ list_all is_whole numbers.now }
{
    numbers.iter().all(|number| is_whole(*number))
}

/// The whole number that a number is, or the next one below it.
#[tactic(auto, unfolding(crate::specs::Datetime::whole_of))]
fn whole_of(number: Num) -> i128
    ensures value { result ≡ whole_of number }
    ensures bound { IsWithin 15 result }
{
    number.millionths().div_euclid(MILLION)
}

/// The first day of a month, counted from 1; None exactly where it is out of the range of instants.
fn first_day(year: i128, month: u32) -> Option<i128>
    requires low { 1 ≤ month }
    requires high { month ≤ 12 }
    ensures value { result ≡ first_day year month }
    ensures bound { IfSome result (IsWithin 15) }
{
    if year < 1 || year > 9998 {
        return None;
    }
    Some(first_day_in(year as u32, month))
}

/// The first day of a month, counted from 1, in the years 1 to 9998.
#[tactic(auto, using(crate::proofs::DatetimeLemmas::years_1_to_9998))]
fn first_day_in(year: u32, month: u32) -> i128
    requires from_year_1 { 1 ≤ year }
    requires to_year_9998 { year ≤ 9998 }
    requires low { 1 ≤ month }
    requires high { month ≤ 12 }
    ensures value { Some result ≡ first_day (pos year) month }
    ensures bound { IsWithin 15 result }
{
    i128::from(day_of_date(Date {
        year,
        month,
        day: 1,
    }))
}

/// The first day of a month of a year, the month counted from 0 and carried into years where it is past December or before
/// January; None exactly where it is out of the range of instants.
fn first_of_month(year: i128, month: i128) -> Option<i128>
    requires year { IsWithin 15 year }
    requires month { IsWithin 15 month }
    ensures value { result ≡ first_of_month year month }
    ensures bound { IfSome result (IsWithin 15) }
{
    first_day(year + month.div_euclid(12), month.rem_euclid(12) as u32 + 1)
}

/// The seconds of so many hours, minutes and seconds.
fn seconds_of(hours: Num, minutes: Num, seconds: Num) -> i128
    ensures value { result ≡ seconds_of (whole_of hours) (whole_of minutes) (whole_of seconds) }
    ensures bound { IsWithin 19 result }
{
    whole_of(hours) * 3600 + whole_of(minutes) * 60 + whole_of(seconds)
}

/// The milliseconds of so many hours, minutes, seconds and milliseconds.
fn milliseconds_of(hours: Num, minutes: Num, seconds: Num, milliseconds: Num) -> i128
    ensures value { result ≡ milliseconds_of (whole_of hours) (whole_of minutes) (whole_of seconds) (whole_of milliseconds) }
    ensures bound { IsWithin 23 result }
{
    seconds_of(hours, minutes, seconds) * 1000 + whole_of(milliseconds)
}

/// The instant `date - 1` days and so many milliseconds after the start of a day.
fn instant_after(day: i128, date: Num, milliseconds: i128) -> i128
    requires day { IsWithin 15 day }
    requires milliseconds { IsWithin 23 milliseconds }
    ensures { result ≡ instant_after day (whole_of date) milliseconds }
{
    (day + whole_of(date) - 1) * DAY_LENGTH + milliseconds
}

/// The instant of whole parts; None exactly where the first of the month or the instant is out of range.
fn instant_of_wholes(
    year: Num,
    month: Num,
    date: Num,
    hours: Num,
    minutes: Num,
    seconds: Num,
    milliseconds: Num,
) -> Option<Num>
    ensures { result ≡ instant_of_wholes (whole_of year) (whole_of month) (whole_of date)
        (whole_of hours) (whole_of minutes) (whole_of seconds) (whole_of milliseconds) }
{
    let day = first_of_month(whole_of(year), whole_of(month))?;
    let rest = milliseconds_of(hours, minutes, seconds, milliseconds);
    instant_in_range(instant_after(day, date, rest))
}

/// The instant of a year, a month from 0, a date from 1, hours, minutes, seconds and milliseconds, in UTC. Parts past their range
/// roll over: months carry into years, and the instant is the first of that month plus `date - 1` days and the smaller parts.
/// A year below 100 stands for itself. None exactly where a part is no whole number, or where that first of the month or that
/// instant is out of the range of instants, the years 1 to 9998.
pub fn instant_of(
    year: Num,
    month: Num,
    date: Num,
    hours: Num,
    minutes: Num,
    seconds: Num,
    milliseconds: Num,
) -> Option<Num>
    ensures { result ≡ instant_of year month date hours minutes seconds milliseconds }
{
    if !are_whole(&[year, month, date, hours, minutes, seconds, milliseconds]) {
        return None;
    }
    instant_of_wholes(year, month, date, hours, minutes, seconds, milliseconds)
}
