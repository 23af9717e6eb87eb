//! The parts of an instant.
ghost use Rattle.std.specs.Prelude.{◌≡◌, ◌≤ℤ◌, ℤ};
ghost use Rattle.time_calc.specs.Instants.{first_instant, last_instant};
ghost use Rattle.time_calc.specs.Parts.{part_of, part};

use crate::calendar::{date_of_day, weekday_of};
use crate::instants::{day_of_instant, instant_at, time_of_instant};
use case_table::PartOf;
use fixed_num::Num;

/// A part of the instant for which a number of milliseconds since 1970-01-01T00:00Z stands, in UTC: the quarter from 1, the
/// month from 0, the day of the week from Sunday 0. A fraction of a millisecond is dropped downward. None exactly where the
/// number is below -62135596800000 (the year 1) or above 253370764799999 (the end of 9998).
pub fn part(at: Num, p: PartOf) -> Option<Num>
    ensures { result ≡ part at p }
{
    let instant = instant_at(at)?;
    Num::of_millionths(i128::from(part_of(instant, p)) * 1_000_000)
}

/// A part of an instant.
pub(crate) fn part_of(instant: i64, p: PartOf) -> u32
    requires first { first_instant ≤ℤ instant }
    requires last { instant ≤ℤ last_instant }
    ensures { result ≡ part_of instant p }
{
    match p {
        PartOf::Year => date_of_day(day_of_instant(instant)).year,
        PartOf::Quarter => (date_of_day(day_of_instant(instant)).month - 1) / 3 + 1,
        PartOf::Month => date_of_day(day_of_instant(instant)).month - 1,
        PartOf::Date => date_of_day(day_of_instant(instant)).day,
        PartOf::Day => weekday_of(day_of_instant(instant)),
        PartOf::Hours => time_of_instant(instant).hours,
        PartOf::Minutes => time_of_instant(instant).minutes,
        PartOf::Seconds => time_of_instant(instant).seconds,
        PartOf::Milliseconds => time_of_instant(instant).milliseconds,
    }
}
