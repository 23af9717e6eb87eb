//! Instants: whole milliseconds since 1970-01-01T00:00Z.
ghost use Rattle.std.specs.Prelude.{◌≡◌, ◌≤◌, ◌<◌, ◌≤ℤ◌, ◌+ℤ◌, ℤ, pos, neg_ℤ, unsigned_abs, Some, IfSome, IsTrue};
ghost use Rattle.std.specs.Int.{int_rem_euclid};
ghost use Rattle.time_calc.specs.Instants.{day_length, instant_number, instant_in_range, instant_at, since_midnight, is_time};
ghost use Rattle.time_calc.specs.Instants.{day_of_instant, time_of_instant, first_instant, last_instant};

use fixed_num::Num;

/// A time of day on a clock of 24 hours.
#[derive(Clone, Copy, Debug)]
pub struct TimeOfDay {
    pub hours: u32,
    pub minutes: u32,
    pub seconds: u32,
    pub milliseconds: u32,
}

/// How many millionths one has.
pub(crate) const MILLION: i128 = 1_000_000;

/// The milliseconds of a day.
pub(crate) const DAY_LENGTH: i128 = 86_400_000;

/// 0001-01-01T00:00:00.000Z.
pub(crate) const FIRST_INSTANT: i64 = -62_135_596_800_000;

/// 9998-12-31T23:59:59.999Z.
pub(crate) const LAST_INSTANT: i64 = 253_370_764_799_999;

/// The days from the first instant to 1 January 1970.
const DAYS_FROM_FIRST: i64 = 719_162;

/// The number of an instant; None exactly where it is out of range.
pub(crate) fn instant_in_range(instant: i128) -> Option<Num>
    ensures { result ≡ instant_in_range instant }
{
    if instant < i128::from(FIRST_INSTANT) || instant > i128::from(LAST_INSTANT) {
        return None;
    }
    Num::of_millionths(instant * MILLION)
}

/// The number of an instant, or of the one at which the range ends.
pub(crate) fn number_of(instant: i64) -> Option<Num>
    requires low { first_instant ≤ℤ instant }
    requires high { instant ≤ℤ (last_instant +ℤ pos 1) }
    ensures { result ≡ Some (instant_number instant) }
{
    Num::of_millionths(i128::from(instant) * MILLION)
}

/// The instant for which a number stands, in whole milliseconds, below it where it has a fraction; None exactly where the
/// number is out of range.
pub(crate) fn instant_at(number: Num) -> Option<i64>
    ensures value { result ≡ instant_at number }
    ensures low { IfSome result (λ instant. first_instant ≤ℤ instant) }
    ensures high { IfSome result (λ instant. instant ≤ℤ last_instant) }
{
    let millionths = number.millionths();
    if millionths < i128::from(FIRST_INSTANT) * MILLION
        || millionths > i128::from(LAST_INSTANT) * MILLION
    {
        return None;
    }
    // a million is 64 * 15,625, and the quotient by 64 fits into 64 bits
    let past_first = (millionths - i128::from(FIRST_INSTANT) * MILLION) as u128;
    Some(((past_first / 64) as u64 / 15_625) as i64 + FIRST_INSTANT)
}

/// The milliseconds of an instant since the first one, which begins a day.
fn since_first(instant: i64) -> u64
    requires first { first_instant ≤ℤ instant }
    requires last { instant ≤ℤ last_instant }
    ensures { (first_instant +ℤ pos result) ≡ instant }
{
    (instant - FIRST_INSTANT) as u64
}

/// The day of an instant, counted from 1 January 1970.
#[tactic(auto, unfolding(crate::specs::Instants::day_of_instant))]
pub(crate) fn day_of_instant(instant: i64) -> i64
    requires first { first_instant ≤ℤ instant }
    requires last { instant ≤ℤ last_instant }
    ensures value { result ≡ day_of_instant instant }
    ensures low { neg_ℤ (pos 719_162) ≤ℤ result }
    ensures high { result ≤ℤ pos 2_932_531 }
{
    (since_first(instant) / 86_400_000) as i64 - DAYS_FROM_FIRST
}

/// The milliseconds of an instant since its midnight.
pub(crate) fn rest_of_day(instant: i64) -> u32
    requires first { first_instant ≤ℤ instant }
    requires last { instant ≤ℤ last_instant }
    ensures value { result ≡ unsigned_abs (int_rem_euclid instant (pos day_length)) }
    ensures bound { result < day_length }
{
    (since_first(instant) % 86_400_000) as u32
}

/// The time of day of an instant.
#[tactic(auto, unfolding(crate::specs::Instants::time_of_instant))]
pub(crate) fn time_of_instant(instant: i64) -> TimeOfDay
    requires first { first_instant ≤ℤ instant }
    requires last { instant ≤ℤ last_instant }
    ensures { result ≡ time_of_instant instant }
{
    let milliseconds = rest_of_day(instant);
    TimeOfDay {
        hours: milliseconds / 3_600_000,
        minutes: milliseconds / 60_000 % 60,
        seconds: milliseconds / 1000 % 60,
        milliseconds: milliseconds % 1000,
    }
}

/// Whether a clock shows a time of day.
pub(crate) fn is_time(time: TimeOfDay) -> bool
    ensures { result ≡ is_time time }
{
    time.hours <= 23 && time.minutes <= 59 && time.seconds <= 59 && time.milliseconds <= 999
}

/// The milliseconds of a time of day since midnight.
pub(crate) fn since_midnight(time: TimeOfDay) -> u32
    requires { IsTrue (is_time time) }
    ensures value { result ≡ since_midnight time }
    ensures bound { result ≤ 86_399_999 }
{
    time.hours * 3_600_000 + time.minutes * 60_000 + time.seconds * 1000 + time.milliseconds
}
