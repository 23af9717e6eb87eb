//! Ticks of numbers.
ghost use Rattle.std.specs.Prelude.{◌≡◌, ◌+ℤ◌, ◌≤ℤ◌, ◌<ℤ◌, [], ◌∷◌, ◌*ℤ◌, ◌≤◌, ℤ, pos, neg_ℤ, unsigned_abs, IfOk};
ghost use Rattle.text_kit.specs.Answer.{GivesAs};
ghost use Rattle.fixed_num.specs.Number.{limit};
ghost use Rattle.tick_kit.specs.declared.multiples.TickError.TheVariants.{Memory};
ghost use Rattle.tick_kit.specs.Ticks.{multiples_in, numbers_apart, count_apart, cause, ticks_or_fault};

use crate::steps::step_between;
use fixed_num::Num;
use std::alloc::Global;
use text_kit::{OutOfMemory, Seq};

/// Why there are no ticks.
#[derive(Clone, Copy, Debug, PartialEq, Eq)]
pub enum TickError {
    /// The step is out of range.
    Overflow,
    /// Memory was refused.
    Memory,
}

impl From<OutOfMemory> for TickError {
    ghost from_gives = { λ _ e. e ≡ Memory };

    fn from(_: OutOfMemory) -> TickError {
        TickError::Memory
    }
}

// One tick.
pub(crate) fn one_tick(alloc: Global, at: Num) -> Result<Seq<Num>, OutOfMemory>
    ensures { IfOk result (λ ticks. ticks ≡ at ∷ []) }
{
    let mut ticks = Seq::new(alloc);
    ticks.push(at)?;
    Ok(ticks)
}

// So many numbers, each a step above the one before.
fn numbers_apart(alloc: Global, n: u128, step: Num, first: Num) -> Result<Seq<Num>, OutOfMemory>
    requires some { pos 0 <ℤ step }
    requires low { neg_ℤ (pos limit) ≤ℤ first }
    requires high { (first +ℤ pos n *ℤ step) ≤ℤ (pos limit +ℤ step) }
    ensures { IfOk result (λ ticks. ticks ≡ numbers_apart n step first) }
{
    let mut ticks = Seq::new(alloc);
    let mut at = first;
    for _turn in 0..n {
        ticks.push(at)?;
        let Some(next) = at.add(step) else {
            return Ok(ticks);
        };
        at = next;
    }
    Ok(ticks)
}

// How many numbers a step apart there are from the first up to an end.
fn count_apart(step: Num, first: Num, high: Num) -> u128
    requires { pos 0 <ℤ step }
    ensures { result ≡ count_apart step first high }
{
    let step = step.millionths();
    (high.millionths() + step - first.millionths()).unsigned_abs() / step.unsigned_abs()
}

// The multiples of a step in a domain.
fn multiples_in(alloc: Global, step: Num, lo: Num, hi: Num) -> Result<Seq<Num>, OutOfMemory>
    requires some { pos 0 <ℤ step }
    requires ordered { lo ≤ℤ hi }
    ensures { IfOk result (λ ticks. ticks ≡ multiples_in step (lo, hi)) }
{
    let _ends = (lo.millionths(), hi.millionths());
    let Some(first) = lo.ceil_to(step) else {
        return Ok(Seq::new(alloc));
    };
    numbers_apart(alloc, count_apart(step, first, hi), step, first)
}

/// The ticks of a domain, for about `count` of them: the multiples of its step from `lo` to `hi`, in ascending order; a domain of one
/// point is its own tick. `Overflow` exactly where the step is out of range.
pub fn ticks(alloc: Global, lo: Num, hi: Num, count: u32) -> Result<Seq<Num>, TickError>
    requires ordered { lo ≤ℤ hi }
    requires some { 1 ≤ count }
    requires few { count ≤ 1000 }
    ensures { GivesAs (λ ticks. ticks) cause result (ticks_or_fault count (lo, hi)) }
{
    if lo == hi {
        return Ok(one_tick(alloc, lo)?);
    }
    match step_between(lo, hi, count) {
        Some(step) => Ok(multiples_in(alloc, step, lo, hi)?),
        None => Err(TickError::Overflow),
    }
}
