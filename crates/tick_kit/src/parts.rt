//! Where units of time begin, by the parts of an instant.
ghost use Rattle.std.specs.Prelude.{◌≡◌, ◌≤◌, IsTrue, unsigned_abs};
ghost use Rattle.time_calc.specs.Instants.{stands_for_instant};
ghost use Rattle.time_calc.specs.Parts.{part_of};
ghost use Rattle.time_calc.specs.Boundaries.{begins_second, begins_minute, begins_hour, begins_day, begins_month, begins, number_of_unit};
ghost use Rattle.tick_kit.specs.TimeTicks.{whole_milliseconds, is_whole, is_boundary_number};

use fixed_num::Num;
use time_calc::{PartOf, Unit, part};

/// A part of the instant of a number.
#[tactic(auto, using(crate::proofs::PartLemmas::part_there))]
pub(crate) fn part_at(at: Num, p: PartOf) -> u128
    requires { IsTrue (stands_for_instant at) }
    ensures { result ≡ part_of (whole_milliseconds at) p }
{
    match part(at, p) {
        Some(number) => number.millionths().unsigned_abs() / 1_000_000,
        None => unreachable!(),
    }
}

/// Whether the instant of a number begins a second.
pub(crate) fn begins_second(at: Num) -> bool
    requires { IsTrue (stands_for_instant at) }
    ensures { result ≡ begins_second (whole_milliseconds at) }
{
    part_at(at, PartOf::Milliseconds) == 0
}

/// Whether the instant of a number begins a minute.
pub(crate) fn begins_minute(at: Num) -> bool
    requires { IsTrue (stands_for_instant at) }
    ensures { result ≡ begins_minute (whole_milliseconds at) }
{
    begins_second(at) && part_at(at, PartOf::Seconds) == 0
}

/// Whether the instant of a number begins an hour.
pub(crate) fn begins_hour(at: Num) -> bool
    requires { IsTrue (stands_for_instant at) }
    ensures { result ≡ begins_hour (whole_milliseconds at) }
{
    begins_minute(at) && part_at(at, PartOf::Minutes) == 0
}

/// Whether the instant of a number begins a day.
pub(crate) fn begins_day(at: Num) -> bool
    requires { IsTrue (stands_for_instant at) }
    ensures { result ≡ begins_day (whole_milliseconds at) }
{
    begins_hour(at) && part_at(at, PartOf::Hours) == 0
}

/// Whether the instant of a number begins a month.
pub(crate) fn begins_month(at: Num) -> bool
    requires { IsTrue (stands_for_instant at) }
    ensures { result ≡ begins_month (whole_milliseconds at) }
{
    begins_day(at) && part_at(at, PartOf::Date) == 1
}

// Whether the instant of a number begins a unit.
fn begins(at: Num, unit: Unit) -> bool
    requires { IsTrue (stands_for_instant at) }
    ensures { result ≡ begins unit (whole_milliseconds at) }
{
    match unit {
        Unit::Millisecond => true,
        Unit::Second => begins_second(at),
        Unit::Minute => begins_minute(at),
        Unit::Hour => begins_hour(at),
        Unit::Day => begins_day(at),
        Unit::Week => begins_day(at) && part_at(at, PartOf::Day) == 0,
        Unit::Month => begins_month(at),
        Unit::Quarter => begins_month(at) && part_at(at, PartOf::Month) % 3 == 0,
        Unit::Year => begins_month(at) && part_at(at, PartOf::Month) == 0,
    }
}

// The size of the whole milliseconds of a number that has no fraction.
fn size_in_milliseconds(at: Num) -> u128
    requires { IsTrue (is_whole at) }
    ensures { result ≡ unsigned_abs (whole_milliseconds at) }
{
    at.millionths().unsigned_abs() / 1_000_000
}

// The number of the unit that the instant of a number is in.
fn number_of_unit(at: Num, unit: Unit) -> u128
    requires instant { IsTrue (stands_for_instant at) }
    requires whole { IsTrue (is_whole at) }
    ensures { result ≡ number_of_unit unit (whole_milliseconds at) }
{
    match unit {
        Unit::Millisecond => size_in_milliseconds(at),
        Unit::Second => part_at(at, PartOf::Seconds),
        Unit::Minute => part_at(at, PartOf::Minutes),
        Unit::Hour => part_at(at, PartOf::Hours),
        Unit::Day => part_at(at, PartOf::Date).saturating_sub(1),
        Unit::Week => 0,
        Unit::Month => part_at(at, PartOf::Month),
        Unit::Quarter => part_at(at, PartOf::Month) / 3,
        Unit::Year => part_at(at, PartOf::Year),
    }
}

// Whether a number has no fraction.
fn is_whole(at: Num) -> bool
    ensures { result ≡ is_whole at }
{
    at.millionths().unsigned_abs() % 1_000_000 == 0
}

/// Whether a number is that of a boundary of `n` units.
#[tactic(auto, unfolding(crate::specs::TimeTicks::is_boundary_number, time_calc::specs::Boundaries::is_boundary))]
pub(crate) fn is_boundary_number(at: Num, unit: Unit, n: u32) -> bool
    requires instant { IsTrue (stands_for_instant at) }
    requires some { 1 ≤ n }
    ensures { result ≡ is_boundary_number unit n at }
{
    is_whole(at) && begins(at, unit) && number_of_unit(at, unit) % u128::from(n) == 0
}
