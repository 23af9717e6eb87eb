//! Ticks of instants.
ghost use Rattle.std.specs.Prelude.{◌≡◌, ◌≤◌, ◌≤ℤ◌, ◌++◌, [], ◌∷◌, ℤ, List, if◌then◌else◌, IsTrue, IfOk, OnOk};
ghost use Rattle.case_table.specs.declared.unit.Unit.TheVariants.{Week};
ghost use Rattle.time_calc.specs.Instants.{stands_for_instant};
ghost use Rattle.tick_kit.specs.Steps.{span_of};
ghost use Rattle.tick_kit.specs.TimeTicks.{is_boundary_number, boundaries_in, time_ticks_of};
ghost use Rattle.tick_kit.specs.inner.Boundaries.{following, up_to, boundaries_after, boundaries_on_the_way, with_later};

use crate::intervals::interval_of;
use crate::multiples::one_tick;
use crate::parts::is_boundary_number;
use crate::steps::span_between;
use fixed_num::Num;
use std::alloc::Global;
use text_kit::{OutOfMemory, Seq};
use time_calc::{Unit, next};

// The first boundary of `n` units after the instant of a number, where it isn't past an end.
#[tactic(auto, unfolding(crate::specs::inner::Boundaries::following))]
fn next_up_to(at: Num, unit: Unit, n: u32, high: Num) -> Option<Num>
    requires some { 1 ≤ n }
    requires single_weeks { unit ≡ Week → n ≡ 1 }
    ensures { (later : ℤ → List ℤ) → up_to high (following unit n at) later ≡ with_later result later }
{
    let boundary = next(at, unit, n)?;
    if boundary <= high {
        Some(boundary)
    } else {
        None
    }
}

// Adds the boundaries of `n` units after a number, up to an end.
fn push_boundaries(
    ticks: &mut Seq<Num>,
    unit: Unit,
    n: u32,
    lo: Num,
    hi: Num,
) -> Result<(), OutOfMemory>
    requires some { 1 ≤ n }
    requires single_weeks { unit ≡ Week → n ≡ 1 }
    ensures { OnOk result (ticks.new ≡ ticks.old ++ boundaries_after (span_of (lo, hi)) unit n hi lo) }
{
    let mut at = lo;
    for _turn in 0..span_between(lo, hi) {
        let Some(boundary) = next_up_to(at, unit, n, hi) else {
            return Ok(());
        };
        ticks.push(boundary)?;
        at = boundary;
    }
    Ok(())
}

// A number as a tick, where it is that of a boundary of `n` units.
fn tick_at(alloc: Global, at: Num, unit: Unit, n: u32) -> Result<Seq<Num>, OutOfMemory>
    requires instant { IsTrue (stands_for_instant at) }
    requires some { 1 ≤ n }
    ensures { IfOk result (λ ticks. ticks ≡ (if is_boundary_number unit n at then at ∷ [] else [])) }
{
    if is_boundary_number(at, unit, n) {
        one_tick(alloc, at)
    } else {
        Ok(Seq::new(alloc))
    }
}

// The boundaries of `n` units on the way from one end of a domain to the other.
#[tactic(auto, unfolding(crate::specs::inner::Boundaries::boundaries_on_the_way))]
fn boundaries_on_the_way(
    alloc: Global,
    unit: Unit,
    n: u32,
    lo: Num,
    hi: Num,
) -> Result<Seq<Num>, OutOfMemory>
    requires instant { IsTrue (stands_for_instant lo) }
    requires some { 1 ≤ n }
    requires single_weeks { unit ≡ Week → n ≡ 1 }
    ensures { IfOk result (λ ticks. ticks ≡ boundaries_on_the_way unit n (lo, hi)) }
{
    let mut ticks = tick_at(alloc, lo, unit, n)?;
    push_boundaries(&mut ticks, unit, n, lo, hi)?;
    Ok(ticks)
}

// The boundaries of `n` units in a domain.
fn boundaries_in(
    alloc: Global,
    unit: Unit,
    n: u32,
    lo: Num,
    hi: Num,
) -> Result<Seq<Num>, OutOfMemory>
    requires ordered { lo ≤ℤ hi }
    requires first { IsTrue (stands_for_instant lo) }
    requires last { IsTrue (stands_for_instant hi) }
    requires some { 1 ≤ n }
    requires single_weeks { unit ≡ Week → n ≡ 1 }
    ensures { IfOk result (λ ticks. ticks ≡ boundaries_in unit n (lo, hi)) }
{
    boundaries_on_the_way(alloc, unit, n, lo, hi)
}

/// The ticks of a domain of instants, in milliseconds since 1970-01-01T00:00Z, in UTC, for about `count` of them: the boundaries from
/// `lo` to `hi`, in ascending order, of milliseconds, seconds, minutes, hours, days, weeks, months or years, by the spacing
/// `(hi - lo) / count`; a domain of one point is its own tick.
#[tactic(auto, unfolding(crate::specs::TimeTicks::time_ticks_of))]
pub fn time_ticks(alloc: Global, lo: Num, hi: Num, count: u32) -> Result<Seq<Num>, OutOfMemory>
    requires ordered { lo ≤ℤ hi }
    requires first { IsTrue (stands_for_instant lo) }
    requires last { IsTrue (stands_for_instant hi) }
    requires some { 1 ≤ count }
    requires few { count ≤ 1000 }
    ensures { IfOk result (λ ticks. ticks ≡ time_ticks_of count (lo, hi)) }
{
    if lo == hi {
        return one_tick(alloc, lo);
    }
    let (unit, n) = interval_of(span_between(lo, hi), count);
    boundaries_in(alloc, unit, n, lo, hi)
}
