//! Instants read from texts.
ghost use Rattle.std.specs.Prelude.{◌≡◌, ◌≤◌, ◌+◌, IfSome, IsTrue, map, position, bytes_eq, option_map, take};
ghost use Rattle.case_table.specs.Names.{index_of};
ghost use Rattle.time_calc.specs.Calendar.{is_date, day_of_date};
ghost use Rattle.time_calc.specs.Instants.{is_time, instant_of_day};
ghost use Rattle.time_calc.specs.Texts.{month_names, month_by, checked_date, date_by, time_by, is_offset, zone_by, number_at, instant_by, read_instant};
ghost use Rattle.time_calc.specs.inner.Datetime.{IsWithin};
ghost use Rattle.time_calc.specs.inner.Forms.{IsFormOf};
ghost use Rattle.time_calc.specs.inner.Texts.{place_among};

use crate::calendar::{Date, day_of_date, is_date};
use crate::forms::{form_of, value, value_or_one};
use crate::instants::{DAY_LENGTH, TimeOfDay, instant_in_range, is_time, since_midnight};
use fixed_num::Num;

/// The names of the months.
pub(crate) const MONTH_NAMES: [&str; 12] = [
    "Jan", "Feb", "Mar", "Apr", "May", "Jun", "Jul", "Aug", "Sep", "Oct", "Nov", "Dec",
];

/// The place of a name among names.
fn place_of(names: &[&'static str], name: &[u8]) -> Option<usize>
    ensures { result ≡ position (λ n. bytes_eq n.now name.now) names.now }
{
    names.iter().position(|n| n.as_bytes() == name)
}

/// The same, said of what the names are.
#[tactic(auto, unfolding(crate::specs::inner::Texts::place_among))]
fn place_among(names: &[&'static str], name: &[u8]) -> Option<usize>
    ensures { result ≡ place_among (map (λ n. n.now) names.now) name.now }
{
    place_of(names, name)
}

/// The month of a name, counted from 1.
#[tactic(auto, unfolding(crate::specs::inner::Texts::place_among))]
fn named_month(name: &[u8]) -> Option<u32>
    ensures value { result ≡ option_map (λ index. index + 1) (index_of month_names name.now) }
    ensures bound { IfSome result (λ month. month ≤ 9_999) }
{
    let place = place_among(&MONTH_NAMES, name)?;
    Some(place as u32 + 1)
}

/// The first three bytes of a text.
fn front(text: &[u8]) -> &[u8]
    ensures { result.now ≡ take 3 text.now }
{
    if text.len() < 3 { text } else { &text[..3] }
}

/// The month, counted from 1: by its name where one stands at the front, else by its digits.
#[tactic(auto, unfolding(crate::specs::Texts::month_by))]
fn month_by(form: &[u8], text: &[u8]) -> Option<u32>
    requires { IsFormOf text.now form.now }
    ensures value { result ≡ month_by form.now text.now }
    ensures bound { IfSome result (λ month. month ≤ 9_999) }
{
    if !form.is_empty() && form[0] == b'B' {
        named_month(front(text))
    } else {
        Some(value_or_one(b'M', form, text))
    }
}

/// The calendar's date of a year, a month and a day.
fn checked_date(year: u32, month: u32, day: u32) -> Option<Date>
    requires { year ≤ 9_999 }
    ensures value { result ≡ checked_date year month day }
    ensures date { IfSome result (λ date. IsTrue (is_date date)) }
    ensures bound { IfSome result (λ date. date.year ≤ 9_999) }
{
    let date = Date { year, month, day };
    if is_date(date) { Some(date) } else { None }
}

/// The date that a text of a form gives.
#[tactic(auto, unfolding(crate::specs::Texts::date_by))]
fn date_by(form: &[u8], text: &[u8]) -> Option<Date>
    requires { IsFormOf text.now form.now }
    ensures value { result ≡ date_by form.now text.now }
    ensures date { IfSome result (λ date. IsTrue (is_date date)) }
    ensures bound { IfSome result (λ date. date.year ≤ 9_999) }
{
    let month = month_by(form, text)?;
    checked_date(
        value(b'Y', form, text),
        month,
        value_or_one(b'D', form, text),
    )
}

/// The time of day that a text of a form gives.
#[tactic(auto, unfolding(crate::specs::Texts::time_by))]
fn time_by(form: &[u8], text: &[u8]) -> Option<TimeOfDay>
    requires { IsFormOf text.now form.now }
    ensures value { result ≡ time_by form.now text.now }
    ensures time { IfSome result (λ time. IsTrue (is_time time)) }
{
    let time = TimeOfDay {
        hours: value(b'h', form, text),
        minutes: value(b'm', form, text),
        seconds: value(b's', form, text),
        milliseconds: 100 * value(b'i', form, text)
            + 10 * value(b'j', form, text)
            + value(b'k', form, text),
    };
    if is_time(time) { Some(time) } else { None }
}

/// Whether a zone is at most 23:59 away from UTC.
fn is_offset(hours: u32, minutes: u32) -> bool
    ensures { result ≡ is_offset hours minutes }
{
    hours <= 23 && minutes <= 59
}

/// The milliseconds by which the zone of a text of a form is ahead of UTC.
#[tactic(auto, unfolding(crate::specs::Texts::zone_by))]
fn zone_by(form: &[u8], text: &[u8]) -> Option<i128>
    requires { IsFormOf text.now form.now }
    ensures value { result ≡ zone_by form.now text.now }
    ensures bound { IfSome result (IsWithin 9) }
{
    let hours_ahead = value(b'p', form, text);
    let minutes_ahead = value(b'q', form, text);
    let hours_behind = value(b'u', form, text);
    let minutes_behind = value(b'v', form, text);
    if !is_offset(hours_ahead, minutes_ahead) || !is_offset(hours_behind, minutes_behind) {
        return None;
    }
    let ahead = hours_ahead * 3_600_000 + minutes_ahead * 60_000;
    let behind = hours_behind * 3_600_000 + minutes_behind * 60_000;
    Some(i128::from(ahead) - i128::from(behind))
}

/// The instant of a date and a time of day, in UTC.
#[tactic(auto, unfolding(crate::specs::Instants::instant_of_day))]
fn instant_of_day(date: Date, time: TimeOfDay) -> i128
    requires year { date.year ≤ 9_999 }
    requires date { IsTrue (is_date date) }
    requires time { IsTrue (is_time time) }
    ensures value { result ≡ instant_of_day (day_of_date date) time }
    ensures bound { IsWithin 18 result }
{
    i128::from(day_of_date(date)) * DAY_LENGTH + i128::from(since_midnight(time))
}

/// The number of the instant of a date, a time of day and a zone; None exactly where the instant is out of range.
fn number_at(date: Date, time: TimeOfDay, zone: i128) -> Option<Num>
    requires year { date.year ≤ 9_999 }
    requires date { IsTrue (is_date date) }
    requires time { IsTrue (is_time time) }
    requires zone { IsWithin 9 zone }
    ensures { result ≡ number_at date time zone }
{
    instant_in_range(instant_of_day(date, time) - zone)
}

/// The instant that a text of a form gives.
#[tactic(auto, unfolding(crate::specs::Texts::instant_by))]
fn instant_by(form: &[u8], text: &[u8]) -> Option<Num>
    requires { IsFormOf text.now form.now }
    ensures { result ≡ instant_by form.now text.now }
{
    let date = date_by(form, text)?;
    let time = time_by(form, text)?;
    let zone = zone_by(form, text)?;
    number_at(date, time, zone)
}

/// The instant that a text gives, in milliseconds since 1970-01-01T00:00Z; None exactly where it gives none in range, the years
/// 1 to 9998 in UTC. A text gives one as `YYYY`, `YYYY-MM`, `YYYY-MM-DD`, `YYYY/MM/DD`, `Mon D YYYY` with the English name of a
/// month in three letters and one or two digits, or as `YYYY-MM-DD` with `T` or a space and `HH:MM`, `HH:MM:SS`, or `HH:MM:SS`
/// with a point and 1 to 9 digits, and then nothing, `Z`, or a sign and `HH:MM` of at most 23:59. Without a zone it is UTC, and
/// digits beyond milliseconds are dropped.
#[tactic(auto, unfolding(crate::specs::Texts::read_instant))]
pub fn read_instant(text: &str) -> Option<Num>
    ensures { result ≡ read_instant text.now }
{
    let text = text.as_bytes();
    let form = form_of(text)?;
    instant_by(form.as_bytes(), text)
}
