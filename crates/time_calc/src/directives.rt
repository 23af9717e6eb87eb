//! The directives of patterns.
ghost use Rattle.std.specs.Prelude.{◌≡◌, ◌≤◌, ◌≤ℤ◌, map};
ghost use Rattle.time_calc.specs.Instants.{first_instant, last_instant};
ghost use Rattle.time_calc.specs.Labels.{directive_of, directive_text, hour_of_twelve, named};
ghost use Rattle.time_calc.specs.Parts.{part_of};
ghost use Rattle.time_calc.specs.inner.Labels.{written_text};

use crate::parts::part_of;
use crate::texts::MONTH_NAMES;
use case_table::PartOf;

/// A directive of a pattern.
#[derive(Clone, Copy, Debug, PartialEq, Eq)]
pub(crate) enum Directive {
    Year,
    Quarter,
    Month,
    Date,
    Hours,
    HoursOfTwelve,
    Minutes,
    Seconds,
    Milliseconds,
    ShortMonth,
    LongMonth,
    ShortDay,
    HalfOfDay,
    Percent,
}

/// What a directive writes.
#[derive(Clone, Copy, Debug)]
pub(crate) enum Written {
    /// The last digits of a number.
    Digits(u32, u32),
    /// A name.
    Name(&'static str),
}

const LONG_MONTH_NAMES: [&str; 12] = [
    "January",
    "February",
    "March",
    "April",
    "May",
    "June",
    "July",
    "August",
    "September",
    "October",
    "November",
    "December",
];

const DAY_NAMES: [&str; 7] = ["Sun", "Mon", "Tue", "Wed", "Thu", "Fri", "Sat"];

const HALF_NAMES: [&str; 2] = ["AM", "PM"];

/// The directive of a letter.
#[tactic(auto, unfolding(crate::specs::Labels::directive_of))]
pub(crate) fn directive_of(letter: char) -> Option<Directive>
    ensures { result ≡ directive_of letter }
{
    match letter {
        'Y' => Some(Directive::Year),
        'm' => Some(Directive::Month),
        'd' => Some(Directive::Date),
        'H' => Some(Directive::Hours),
        'I' => Some(Directive::HoursOfTwelve),
        'M' => Some(Directive::Minutes),
        'S' => Some(Directive::Seconds),
        'L' => Some(Directive::Milliseconds),
        'b' => Some(Directive::ShortMonth),
        'a' => Some(Directive::ShortDay),
        'B' => Some(Directive::LongMonth),
        'p' => Some(Directive::HalfOfDay),
        'q' => Some(Directive::Quarter),
        '%' => Some(Directive::Percent),
        _ => None,
    }
}

/// A name by its number, counted from 0.
fn name_at(names: &[&'static str], number: u32) -> &'static str
    ensures { result.now ≡ named (map (λ n. n.now) names.now) number }
{
    match names.get(number as usize) {
        Some(name) => name,
        None => "",
    }
}

/// A part of an instant.
fn part_at(instant: i64, p: PartOf) -> u32
    requires first { first_instant ≤ℤ instant }
    requires last { instant ≤ℤ last_instant }
    ensures value { result ≡ part_of instant p }
    ensures bound { result ≤ 10_000 }
{
    part_of(instant, p)
}

/// The name of a month, in three letters.
fn short_month(instant: i64) -> Written
    requires first { first_instant ≤ℤ instant }
    requires last { instant ≤ℤ last_instant }
    ensures { written_text result ≡ directive_text instant Directive.ShortMonth }
{
    Written::Name(name_at(&MONTH_NAMES, part_at(instant, PartOf::Month)))
}

/// The name of a month.
fn long_month(instant: i64) -> Written
    requires first { first_instant ≤ℤ instant }
    requires last { instant ≤ℤ last_instant }
    ensures { written_text result ≡ directive_text instant Directive.LongMonth }
{
    Written::Name(name_at(&LONG_MONTH_NAMES, part_at(instant, PartOf::Month)))
}

/// The name of a day of the week, in three letters.
fn short_day(instant: i64) -> Written
    requires first { first_instant ≤ℤ instant }
    requires last { instant ≤ℤ last_instant }
    ensures { written_text result ≡ directive_text instant Directive.ShortDay }
{
    Written::Name(name_at(&DAY_NAMES, part_at(instant, PartOf::Day)))
}

/// AM or PM.
fn half_of_day(instant: i64) -> Written
    requires first { first_instant ≤ℤ instant }
    requires last { instant ≤ℤ last_instant }
    ensures { written_text result ≡ directive_text instant Directive.HalfOfDay }
{
    Written::Name(name_at(&HALF_NAMES, part_at(instant, PartOf::Hours) / 12))
}

/// The hour on a clock of twelve hours.
fn hour_of_twelve(instant: i64) -> u32
    requires first { first_instant ≤ℤ instant }
    requires last { instant ≤ℤ last_instant }
    ensures { result ≡ hour_of_twelve (part_of instant PartOf.Hours) }
{
    (part_at(instant, PartOf::Hours) + 11) % 12 + 1
}

/// What a directive writes of an instant.
pub(crate) fn written_by(directive: Directive, instant: i64) -> Written
    requires first { first_instant ≤ℤ instant }
    requires last { instant ≤ℤ last_instant }
    ensures { written_text result ≡ directive_text instant directive }
{
    match directive {
        Directive::Year => Written::Digits(4, part_at(instant, PartOf::Year)),
        Directive::Quarter => Written::Digits(1, part_at(instant, PartOf::Quarter)),
        Directive::Month => Written::Digits(2, part_at(instant, PartOf::Month) + 1),
        Directive::Date => Written::Digits(2, part_at(instant, PartOf::Date)),
        Directive::Hours => Written::Digits(2, part_at(instant, PartOf::Hours)),
        Directive::HoursOfTwelve => Written::Digits(2, hour_of_twelve(instant)),
        Directive::Minutes => Written::Digits(2, part_at(instant, PartOf::Minutes)),
        Directive::Seconds => Written::Digits(2, part_at(instant, PartOf::Seconds)),
        Directive::Milliseconds => Written::Digits(3, part_at(instant, PartOf::Milliseconds)),
        Directive::ShortMonth => short_month(instant),
        Directive::LongMonth => long_month(instant),
        Directive::ShortDay => short_day(instant),
        Directive::HalfOfDay => half_of_day(instant),
        Directive::Percent => Written::Name("%"),
    }
}
