//! Intervals between ticks of instants.
ghost use Rattle.std.specs.Prelude.{◌≡◌, ◌*◌, ◌≤◌, ◌<◌, ◌^◌, IsTrue};
ghost use Rattle.fixed_num.specs.Number.{limit};
ghost use Rattle.case_table.specs.declared.unit.Unit.TheVariants.{Week};
ghost use Rattle.tick_kit.specs.Intervals.{is_below, is_nearer_first, nearest_interval, whole_units, interval_of, one_second, longer_intervals};
ghost use Rattle.tick_kit.specs.Steps.{spaced};
ghost use Rattle.tick_kit.specs.inner.Intervals.{are_close};

use crate::steps::spaced;
use time_calc::Unit;

/// So many units, taken to be so many milliseconds long.
#[derive(Clone, Copy, Debug)]
pub(crate) struct Interval {
    pub unit: Unit,
    pub count: u32,
    pub length: u64,
}

// A row of the table of intervals.
macro_rules! every {
    ($count:literal, $unit:ident, $length:literal) => {
        Interval {
            unit: Unit::$unit,
            count: $count,
            length: $length,
        }
    };
}

/// The milliseconds of a year of 365 days.
const YEAR_LENGTH: u128 = 31_536_000_000;

/// The intervals that are longer than a second, up to a year; months have 30 days.
const LONGER_INTERVALS: [Interval; 17] = [
    every!(5, Second, 5_000),
    every!(15, Second, 15_000),
    every!(30, Second, 30_000),
    every!(1, Minute, 60_000),
    every!(5, Minute, 300_000),
    every!(15, Minute, 900_000),
    every!(30, Minute, 1_800_000),
    every!(1, Hour, 3_600_000),
    every!(3, Hour, 10_800_000),
    every!(6, Hour, 21_600_000),
    every!(12, Hour, 43_200_000),
    every!(1, Day, 86_400_000),
    every!(2, Day, 172_800_000),
    every!(1, Week, 604_800_000),
    every!(1, Month, 2_592_000_000),
    every!(3, Month, 7_776_000_000),
    every!(1, Year, 31_536_000_000),
];

// Whether the spacing of so many ticks over a span is below a length.
fn is_below(span: u128, count: u32, length: u64) -> bool
    ensures { result ≡ is_below span count length }
{
    span < u128::from(length) * (1_000_000 * u128::from(count))
}

// Whether the square of the spacing is below the product of two lengths.
fn is_nearer_first(span: u128, count: u32, a: u64, b: u64) -> bool
    requires close { a * b ≤ 3 * 10 ^ 20 }
    requires few { count ≤ 1000 }
    ensures { result ≡ is_nearer_first span count a b }
{
    let unit = 1_000_000 * u128::from(count);
    let bound = u128::from(a) * u128::from(b) * (unit * unit);
    match span.checked_mul(span) {
        Some(square) => square < bound,
        None => false,
    }
}

// Of the neighbours between which the spacing lies, the one that it is nearer to.
fn nearest_interval(span: u128, count: u32, first: Interval, longer: &[Interval]) -> Interval
    requires few { count ≤ 1000 }
    requires close { IsTrue (are_close first longer.now) }
    ensures { result ≡ nearest_interval span count first longer.now }
{
    let mut a = first;
    for b in longer {
        if is_below(span, count, b.length) {
            return if is_nearer_first(span, count, a.length, b.length) {
                a
            } else {
                *b
            };
        }
        a = *b;
    }
    a
}

// The whole units of the step for so many ticks over a span, at least one.
#[tactic(auto, using(crate::proofs::IntervalLemmas::spaced_bound))]
fn whole_units(span: u128, count: u128) -> u32
    requires span_in_reach { span ≤ 2 * limit }
    requires some { 0 < count }
    requires few { count ≤ 2 ^ 64 }
    requires near { span ≤ 2 * 10 ^ 12 * count }
    ensures value { result ≡ whole_units (spaced span count) }
    ensures some { 1 ≤ result }
{
    match spaced(span, count) {
        Some(step) => (step / 1_000_000).max(1) as u32,
        None => 1,
    }
}

// One second.
const ONE_SECOND: Interval = every!(1, Second, 1_000);

// Of the intervals from a second to a year, the one that the spacing of so many ticks over a span is nearest to.
#[tactic(auto, using(crate::proofs::IntervalLemmas::middle_some, crate::proofs::IntervalLemmas::middle_weeks))]
fn middle_interval(span: u128, count: u32) -> Interval
    requires { count ≤ 1000 }
    ensures value { result ≡ nearest_interval span count one_second longer_intervals }
    ensures some { 1 ≤ result.count }
    ensures single_weeks { result.unit ≡ Week → result.count ≡ 1 }
{
    nearest_interval(span, count, ONE_SECOND, &LONGER_INTERVALS)
}

/// The interval between so many ticks over a span, as a unit and how many.
#[tactic(auto, unfolding(crate::specs::Intervals::interval_of))]
pub(crate) fn interval_of(span: u128, count: u32) -> (Unit, u32)
    requires span_in_reach { span ≤ 2 * limit }
    requires some { 1 ≤ count }
    requires few { count ≤ 1000 }
    ensures value { result ≡ interval_of span count }
    ensures some { 1 ≤ result.1 }
    ensures single_weeks { result.0 ≡ Week → result.1 ≡ 1 }
{
    if is_below(span, count, 1_000) {
        (Unit::Millisecond, whole_units(span, u128::from(count)))
    } else if is_below(span, count, 31_536_000_000) {
        let interval = middle_interval(span, count);
        (interval.unit, interval.count)
    } else {
        (
            Unit::Year,
            whole_units(span, u128::from(count) * YEAR_LENGTH),
        )
    }
}
