//! The start and the end of a time unit at an instant.
ghost use Rattle.std.specs.Prelude.{◌≡◌, ◌≤◌, ◌==◌, ◌≤ℤ◌, ℤ, pos, neg_ℤ};
ghost use Rattle.case_table.specs.TimeUnits.{rule_of};
ghost use Rattle.time_calc.specs.Calendar.{day_of_date};
ghost use Rattle.time_calc.specs.Instants.{first_instant, last_instant};
ghost use Rattle.time_calc.specs.TimeUnits.{part_number, keeps, kept_or, kept_month, kept_days, kept_time, start_day, start_time, start_of, span_of};

use crate::boundaries::next_boundary;
use crate::calendar::{Date, date_of_day, day_of_date, weekday_of};
use crate::instants::{
    TimeOfDay, day_of_instant, instant_at, number_of, since_midnight, time_of_instant,
};
use case_table::{PartOf, TimeUnit};
use fixed_num::Num;

/// Whether two parts are the same.
fn is_part(a: PartOf, b: PartOf) -> bool
    ensures { result ≡ (part_number a == part_number b) }
{
    a == b
}

/// Whether a part is one of those that are kept.
fn keeps(kept: &[PartOf], p: PartOf) -> bool
    ensures { result ≡ keeps kept.now p }
{
    kept.iter().any(|k| is_part(*k, p))
}

/// What is kept of a number, and what stands in its place where it isn't kept.
fn kept_or(kept: &[PartOf], p: PartOf, number: u32, otherwise: u32) -> u32
    ensures { result ≡ kept_or kept.now p number otherwise }
{
    if keeps(kept, p) { number } else { otherwise }
}

/// The first of the month that is kept of a date.
fn kept_month(kept: &[PartOf], date: Date) -> Date
    requires low { 1 ≤ date.month }
    ensures { result ≡ kept_month kept.now date }
{
    let quarter = kept_or(kept, PartOf::Quarter, (date.month - 1) / 3 * 3 + 1, 1);
    Date {
        year: kept_or(kept, PartOf::Year, date.year, 2012),
        month: kept_or(kept, PartOf::Month, date.month, quarter),
        day: 1,
    }
}

/// How many days after the first of its month a time unit begins.
fn kept_days(kept: &[PartOf], date: Date, weekday: u32) -> u32
    requires { 1 ≤ date.day }
    ensures { result ≡ kept_days kept.now date weekday }
{
    let days = kept_or(kept, PartOf::Day, weekday, 0);
    kept_or(kept, PartOf::Date, date.day - 1, days)
}

/// The time of day that is kept.
fn kept_time(kept: &[PartOf], time: TimeOfDay) -> TimeOfDay
    ensures { result ≡ kept_time kept.now time }
{
    TimeOfDay {
        hours: kept_or(kept, PartOf::Hours, time.hours, 0),
        minutes: kept_or(kept, PartOf::Minutes, time.minutes, 0),
        seconds: kept_or(kept, PartOf::Seconds, time.seconds, 0),
        milliseconds: kept_or(kept, PartOf::Milliseconds, time.milliseconds, 0),
    }
}

/// The day on which a time unit begins.
fn start_day(kept: &[PartOf], instant: i64) -> i64
    requires first { first_instant ≤ℤ instant }
    requires last { instant ≤ℤ last_instant }
    ensures value { result ≡ start_day kept.now instant }
    ensures low { neg_ℤ (pos 719_162) ≤ℤ result }
    ensures high { result ≤ℤ pos 2_932_531 }
{
    let day = day_of_instant(instant);
    let date = date_of_day(day);
    day_of_date(kept_month(kept, date)) + i64::from(kept_days(kept, date, weekday_of(day)))
}

/// The milliseconds since midnight at which a time unit begins.
fn start_time(kept: &[PartOf], instant: i64) -> u32
    requires first { first_instant ≤ℤ instant }
    requires last { instant ≤ℤ last_instant }
    ensures value { result ≡ start_time kept.now instant }
    ensures bound { result ≤ 86_399_999 }
{
    since_midnight(kept_time(kept, time_of_instant(instant)))
}

/// The start of a time unit at an instant: the parts that it keeps, and those of 2012-01-01T00:00:00Z in place of the others.
#[tactic(auto, unfolding(crate::specs::TimeUnits::start_of))]
fn start_of(kept: &[PartOf], instant: i64) -> i64
    requires first { first_instant ≤ℤ instant }
    requires last { instant ≤ℤ last_instant }
    ensures value { result ≡ start_of kept.now instant }
    ensures low { first_instant ≤ℤ result }
    ensures high { result ≤ℤ last_instant }
{
    start_day(kept, instant) * 86_400_000 + i64::from(start_time(kept, instant))
}

/// The start and the end of a time unit at `at`, in milliseconds since 1970-01-01T00:00Z: the start has the parts that the unit
/// keeps, and those of 2012-01-01T00:00:00Z in place of the others; the end is the next boundary of its smallest unit. None
/// where `at` is out of the range, the years 1 to 9998, and for each of `UNIT_RULES` nowhere else.
pub fn span_of(at: Num, unit: &TimeUnit) -> Option<(Num, Num)>
    ensures { result ≡ span_of (rule_of unit.now) at }
{
    let start = start_of(unit.kept, instant_at(at)?);
    let end = next_boundary(start, unit.smallest, 1)?;
    Some((number_of(start)?, number_of(end)?))
}
