//! The proleptic Gregorian calendar, which is `jiff`'s.
ghost use Rattle.std.specs.Prelude.{◌≡◌, ◌+◌, ◌%◌, ◌≤◌, ◌+ℤ◌, ◌≤ℤ◌, ℤ, pos, neg_ℤ, IsTrue};
ghost use Rattle.jiff_core.specs.Date.{epoch_day};
ghost use Rattle.time_calc.specs.Calendar.{is_leap, days_of_month, days_before_year, days_of_months, is_date, day_count, day_of_date};
ghost use Rattle.time_calc.specs.Calendar.{date_of_count, date_of_day, weekday_of};

use jiff::civil;
use jiff_core::civil::Date as PlainDate;

/// A date: the year, the month from 1 to 12, and the day of the month from 1.
#[derive(Clone, Copy, Debug)]
pub struct Date {
    pub year: u32,
    pub month: u32,
    pub day: u32,
}

/// The number of days from 1 January of the year 0 to 1 January 1970.
pub(crate) const DAYS_BEFORE_1970: i64 = 719_528;

/// The number of days from 1 January of the year 0 to 1 January 10000, before which `jiff`'s dates end.
const DAYS_BEFORE_10000: u32 = 3_652_425;

/// The number of days from 1 January of the year -9999, where `jiff`'s dates begin, to that of the year 0.
const DAYS_BEFORE_0: u32 = 3_652_059;

/// A date as `jiff` has it.
fn civil_date(date: Date) -> civil::Date
    requires year { date.year ≤ 9_999 }
    requires date { IsTrue (is_date date) }
    ensures year { result.year ≡ pos date.year }
    ensures month { result.month ≡ date.month }
    ensures day { result.day ≡ date.day }
{
    civil::date(date.year as i16, date.month as i8, date.day as i8)
}

/// The number of days of a month, counted from 1.
pub(crate) fn days_of_month(year: u32, month: u32) -> u32
    requires year { year ≤ 9_999 }
    requires low { 1 ≤ month }
    requires high { month ≤ 12 }
    ensures value { result ≡ days_of_month (is_leap year) month }
    ensures bound { result ≤ 31 }
{
    let first = civil_date(Date {
        year,
        month,
        day: 1,
    });
    u32::from(first.days_in_month().unsigned_abs())
}

/// Whether the calendar has a date.
pub(crate) fn is_date(date: Date) -> bool
    requires { date.year ≤ 9_999 }
    ensures { result ≡ is_date date }
{
    1 <= date.month
        && date.month <= 12
        && 1 <= date.day
        && date.day <= days_of_month(date.year, date.month)
}

/// The number of days from 1 January of the year 0 to a date.
fn day_count(date: Date) -> u32
    requires year { date.year ≤ 9_999 }
    requires date { IsTrue (is_date date) }
    ensures value { result ≡ day_count date }
    ensures bound { result ≤ 3_652_424 }
{
    civil_date(date).to_plain().days_since_min() - DAYS_BEFORE_0
}

/// The number of days of the years from 0 to before this one.
pub(crate) fn days_before_year(year: u32) -> u32
    requires { year ≤ 10_000 }
    ensures value { result ≡ days_before_year year }
    ensures bound { result ≤ 3_652_425 }
{
    if year == 10_000 {
        DAYS_BEFORE_10000
    } else {
        day_count(Date {
            year,
            month: 1,
            day: 1,
        })
    }
}

/// The number of days from 1 January of the year 0 until so many months of a year have gone by.
pub(crate) fn days_before_month(year: u32, months: u32) -> u32
    requires year { year ≤ 9_999 }
    requires months { months ≤ 12 }
    ensures value { result ≡ days_before_year year + days_of_months (is_leap year) months }
    ensures bound { result ≤ 3_652_425 }
{
    if months == 12 {
        days_before_year(year + 1)
    } else {
        day_count(Date {
            year,
            month: months + 1,
            day: 1,
        })
    }
}

/// The day of a date, counted from 1 January 1970.
pub(crate) fn day_of_date(date: Date) -> i64
    requires year { date.year ≤ 9_999 }
    requires date { IsTrue (is_date date) }
    ensures value { result ≡ day_of_date date }
    ensures low { neg_ℤ (pos 719_528) ≤ℤ result }
    ensures high { result ≤ℤ pos 2_932_896 }
{
    i64::from(day_count(date)) - DAYS_BEFORE_1970
}

/// The date so many days after 1 January of the year 0, as `jiff` has it.
fn civil_of_count(count: u32) -> PlainDate
    requires { count ≤ 3_652_424 }
    ensures { epoch_day result +ℤ pos 719_528 ≡ pos count }
{
    PlainDate::from_days_since_min(count + DAYS_BEFORE_0)
}

/// The date of a day counted from 1 January of the year 0.
fn date_of_count(count: u32) -> Date
    requires { count ≤ 3_652_424 }
    ensures value { result ≡ date_of_count count }
    ensures month { 1 ≤ result.month }
{
    let date = civil_of_count(count);
    Date {
        year: u32::from(date.year.unsigned_abs()),
        month: u32::from(date.month),
        day: u32::from(date.day),
    }
}

/// The date of a day, counted from 1 January 1970.
pub(crate) fn date_of_day(day: i64) -> Date
    requires from_year_0 { neg_ℤ (pos 719_528) ≤ℤ day }
    requires to_year_9999 { day ≤ℤ pos 2_932_896 }
    ensures value { result ≡ date_of_day day }
    ensures month { 1 ≤ result.month }
{
    date_of_count((day + DAYS_BEFORE_1970) as u32)
}

/// The day of the week, Sunday 0 and Saturday 6, of a day counted from 1 January of the year 0.
fn weekday_of_count(count: u32) -> u32
    requires { count ≤ 3_652_424 }
    ensures value { result ≡ (count + 6) % 7 }
    ensures bound { result ≤ 6 }
{
    let weekday = civil_of_count(count).weekday();
    u32::from(weekday.to_sunday_zero_offset().unsigned_abs())
}

/// The day of the week, Sunday 0 and Saturday 6.
#[tactic(auto, unfolding(crate::specs::Calendar::weekday_of))]
pub(crate) fn weekday_of(day: i64) -> u32
    requires from_year_0 { neg_ℤ (pos 719_528) ≤ℤ day }
    requires to_year_9999 { day ≤ℤ pos 2_932_896 }
    ensures value { result ≡ weekday_of day }
    ensures bound { result ≤ 6 }
{
    weekday_of_count((day + DAYS_BEFORE_1970) as u32)
}
