//! The boundaries of units of time, before and after an instant.
ghost use Rattle.std.specs.Prelude.{◌≡◌, ◌≤◌, ◌<◌, ◌*◌, ◌≤ℤ◌, ℤ, pos, neg_ℤ, Some, option_map, IfSome, IsTrue};
ghost use Rattle.std.specs.Option.{option_and_then};
ghost use Rattle.case_table.specs.declared.unit.Unit.TheVariants.{Week};
ghost use Rattle.time_calc.specs.Boundaries.{Truncates, Follows, last_boundary};
ghost use Rattle.time_calc.specs.Calendar.{is_date};
ghost use Rattle.time_calc.specs.Instants.{instant_at, instant_number, first_instant, last_instant};
ghost use Rattle.time_calc.specs.NextBoundary.{picked, boundary_in_day, boundary_by_date, boundary_of_week, boundary_of_milliseconds};
ghost use Rattle.time_calc.specs.NextBoundary.{boundary_of_clock, boundary_of_dates, boundary_at, truncated, next_boundary};

use crate::calendar::{
    DAYS_BEFORE_1970, Date, date_of_day, days_before_month, days_before_year, days_of_month,
    weekday_of,
};
use crate::instants::{
    FIRST_INSTANT, LAST_INSTANT, day_of_instant, instant_at, number_of, rest_of_day,
};
use case_table::Unit;
use fixed_num::Num;

/// Which boundary of two.
#[derive(Clone, Copy, Debug, PartialEq, Eq)]
pub(crate) enum Side {
    /// The last that isn't after an instant.
    Before,
    /// The first after an instant.
    After,
}

/// Of the units of a period, the last with a multiple of `n` as its number up to one of them, or the first after it.
fn picked(side: Side, n: u32, count: u32, number: u32) -> u32
    requires some { 1 ≤ n }
    requires inside { number < count }
    ensures value { result ≡ picked side n count number }
    ensures bound { result ≤ count }
{
    let before = number - number % n;
    match side {
        Side::Before => before,
        Side::After => before + n.min(count - before),
    }
}

/// The milliseconds since midnight of a boundary of seconds, minutes or hours.
fn boundary_in_day(side: Side, unit: Unit, n: u32, m: u32) -> u32
    requires some { 1 ≤ n }
    requires inside { m < 86_400_000 }
    ensures value { result ≡ boundary_in_day side unit n m }
    ensures bound { result ≤ 86_400_000 }
{
    match unit {
        Unit::Second => m - m % 60_000 + 1000 * picked(side, n, 60, m / 1000 % 60),
        Unit::Minute => m - m % 3_600_000 + 60_000 * picked(side, n, 60, m / 60_000 % 60),
        _ => 3_600_000 * picked(side, n, 24, m / 3_600_000),
    }
}

/// The days before a boundary of days, months, quarters or years, counted from 1 January of the year 0.
fn boundary_by_date(side: Side, unit: Unit, n: u32, date: Date) -> u32
    requires some { 1 ≤ n }
    requires date { IsTrue (is_date date) }
    requires year { date.year ≤ 9999 }
    ensures value { result ≡ boundary_by_date side unit n date }
    ensures bound { result ≤ 4_000_000 }
{
    let month = date.month - 1;
    match unit {
        Unit::Day => {
            days_before_month(date.year, month)
                + picked(side, n, days_of_month(date.year, date.month), date.day - 1)
        }
        Unit::Month => days_before_month(date.year, picked(side, n, 12, month)),
        Unit::Quarter => days_before_month(date.year, 3 * picked(side, n, 4, month / 3)),
        _ => days_before_year(picked(side, n, 10_000, date.year)),
    }
}

/// The Sunday that begins the week of a day, or the next one.
fn boundary_of_week(side: Side, day: i64) -> i64
    requires low { neg_ℤ (pos 719_528) ≤ℤ day }
    requires high { day ≤ℤ pos 2_932_531 }
    ensures value { result ≡ boundary_of_week side day }
    ensures low { neg_ℤ (pos 800_000) ≤ℤ result }
    ensures high { result ≤ℤ pos 4_000_000 }
{
    let sunday = day - i64::from(weekday_of(day));
    match side {
        Side::Before => sunday,
        Side::After => sunday + 7,
    }
}

/// The multiple of `n` milliseconds before or after an instant.
fn boundary_of_milliseconds(side: Side, n: u32, instant: i64) -> i64
    requires some { 1 ≤ n }
    requires first { first_instant ≤ℤ instant }
    requires last { instant ≤ℤ last_instant }
    ensures { result ≡ boundary_of_milliseconds side n instant }
{
    let n = i64::from(n);
    let before = instant - instant.rem_euclid(n);
    match side {
        Side::Before => before,
        Side::After => before + n,
    }
}

/// The boundary of seconds, minutes or hours before or after an instant.
fn boundary_of_clock(side: Side, unit: Unit, n: u32, instant: i64) -> i64
    requires some { 1 ≤ n }
    requires first { first_instant ≤ℤ instant }
    requires last { instant ≤ℤ last_instant }
    ensures { result ≡ boundary_of_clock side unit n instant }
{
    let boundary = boundary_in_day(side, unit, n, rest_of_day(instant));
    day_of_instant(instant) * 86_400_000 + i64::from(boundary)
}

/// The boundary of days, months, quarters or years before or after an instant.
fn boundary_of_dates(side: Side, unit: Unit, n: u32, instant: i64) -> i64
    requires some { 1 ≤ n }
    requires first { first_instant ≤ℤ instant }
    requires last { instant ≤ℤ last_instant }
    ensures { result ≡ boundary_of_dates side unit n instant }
{
    let date = date_of_day(day_of_instant(instant));
    (i64::from(boundary_by_date(side, unit, n, date)) - DAYS_BEFORE_1970) * 86_400_000
}

/// The last boundary of `n` units that isn't after an instant, or the first after it, in range or not.
fn boundary_at(side: Side, unit: Unit, n: u32, instant: i64) -> i64
    requires some { 1 ≤ n }
    requires first { first_instant ≤ℤ instant }
    requires last { instant ≤ℤ last_instant }
    ensures { result ≡ boundary_at side unit n instant }
{
    match unit {
        Unit::Millisecond => boundary_of_milliseconds(side, n, instant),
        Unit::Second | Unit::Minute | Unit::Hour => boundary_of_clock(side, unit, n, instant),
        Unit::Week => boundary_of_week(side, day_of_instant(instant)) * 86_400_000,
        _ => boundary_of_dates(side, unit, n, instant),
    }
}

/// The last boundary in range that isn't after an instant, or the first instant of the range.
#[tactic(auto, unfolding(crate::specs::NextBoundary::truncated))]
fn truncated(instant: i64, unit: Unit, n: u32) -> i64
    requires some { 1 ≤ n }
    requires first { first_instant ≤ℤ instant }
    requires last { instant ≤ℤ last_instant }
    ensures value { result ≡ truncated unit n instant }
    ensures low { first_instant ≤ℤ result }
    ensures high { result ≤ℤ last_instant }
{
    boundary_at(Side::Before, unit, n, instant).max(FIRST_INSTANT)
}

/// The first boundary after an instant; None where it is past the last that there may be.
#[tactic(auto, unfolding(crate::specs::NextBoundary::next_boundary))]
pub(crate) fn next_boundary(instant: i64, unit: Unit, n: u32) -> Option<i64>
    requires some { 1 ≤ n }
    requires first { first_instant ≤ℤ instant }
    requires last { instant ≤ℤ last_instant }
    ensures value { result ≡ next_boundary unit n instant }
    ensures low { IfSome result (λ boundary. first_instant ≤ℤ boundary) }
    ensures high { IfSome result (λ boundary. boundary ≤ℤ last_boundary) }
{
    let boundary = boundary_at(Side::After, unit, n, instant);
    if boundary <= LAST_INSTANT + 1 {
        Some(boundary)
    } else {
        None
    }
}

/// The last boundary of `n` units that isn't after `at`, an instant in milliseconds since 1970-01-01T00:00Z, in UTC; where none is
/// in range, the first instant of the range. A fraction of a millisecond is dropped downward. A boundary of `n` milliseconds,
/// seconds, minutes or hours begins one whose number (of milliseconds since 1970, else in the next larger of these units) is a
/// multiple of `n`, one of `n` days a day whose date less one is, one of `n` months, quarters or years one whose number from 0 is;
/// a week begins on Sunday, and `n` is 1 for weeks. None exactly where `at` is out of the range, the years 1 to 9998.
pub fn truncate(at: Num, unit: Unit, n: u32) -> Option<Num>
    requires some { 1 ≤ n }
    requires single_weeks { unit ≡ Week → n ≡ 1 }
    ensures last { Truncates unit n (instant_at at) result }
    ensures value { result ≡ option_map (λ instant. instant_number (truncated unit n instant)) (instant_at at) }
{
    let instant = instant_at(at)?;
    number_of(truncated(instant, unit, n))
}

/// The first boundary of `n` units after `at`; such boundaries are those of `truncate`. None exactly where `at` is out of the range,
/// or no boundary up to 9999-01-01T00:00Z follows.
pub fn next(at: Num, unit: Unit, n: u32) -> Option<Num>
    requires some { 1 ≤ n }
    requires single_weeks { unit ≡ Week → n ≡ 1 }
    ensures first { Follows unit n (instant_at at) result }
    ensures value { result ≡ option_map instant_number (option_and_then (next_boundary unit n) (instant_at at)) }
{
    let instant = instant_at(at)?;
    number_of(next_boundary(instant, unit, n)?)
}
