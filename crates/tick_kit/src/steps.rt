//! Steps of ticks, and nice domains.
ghost use Rattle.std.specs.Prelude.{◌≡◌, ℕ, ◌*◌, ◌^◌, ◌<◌, ◌≤◌, ◌≤ℤ◌, ◌<ℤ◌, ℤ, pos, unsigned_abs, nat_lt, find, IfSome, IfNone};
ghost use Rattle.std.specs.Option.{option_map};
ghost use Rattle.fixed_num.specs.Number.{limit, million};
ghost use Rattle.tick_kit.specs.Steps.{steps_at, spaced, step_of, span_of, widened, nice_of};
ghost use Rattle.tick_kit.specs.StepLaws.{AnswersStep};

use fixed_num::Num;

/// The greatest count of millionths.
pub(crate) const LIMIT: u128 = 1_000_000_000_000_000_000_000;

// The first of 1, 2 and 5 times a power of ten that is taken for so many ticks over a span.
fn spaced_at(power: u128, span: u128, count: u128) -> Option<u128>
    requires power_in_reach { power ≤ 10 * limit }
    requires parts_in_reach { power * count ≤ 2 ^ 96 }
    requires span_in_reach { span ≤ 2 * limit }
    ensures value { result
        ≡ option_map (λ (s : ℕ × ℕ). s.0) (find (λ (s : ℕ × ℕ). nat_lt (span * million) (s.1 * count)) (steps_at power)) }
    ensures passed { IfNone result (power * count ≤ span) }
    ensures found { IfSome result (λ step. 0 < step) }
{
    let reach = span * 1_000_000;
    let parts = power * count;
    if reach < 1_414_214 * parts {
        Some(power)
    } else if reach < 3_162_278 * parts {
        Some(2 * power)
    } else if reach < 7_071_068 * parts {
        Some(5 * power)
    } else {
        None
    }
}

// The step for so many ticks over a span, in range or not.
pub(crate) fn spaced(span: u128, count: u128) -> Option<u128>
    requires span_in_reach { span ≤ 2 * limit }
    requires some { 0 < count }
    requires few { count ≤ 2 ^ 64 }
    ensures value { result ≡ spaced span count }
    ensures positive { IfSome result (λ step. 0 < step) }
{
    let mut power = 1;
    for _turn in 0..23u32 {
        if let Some(step) = spaced_at(power, span, count) {
            return Some(step);
        }
        power *= 10;
    }
    None
}

// The step for so many ticks over a span; None exactly where it is out of range.
#[tactic(auto, using(crate::proofs::StepLawLemmas::answers_step), unfolding(crate::specs::Steps::step_of))]
fn step_over(span: u128, count: u128) -> Option<u128>
    requires span_in_reach { span ≤ 2 * limit }
    requires some { 0 < count }
    requires few { count ≤ 2 ^ 64 }
    ensures value { result ≡ step_of span count }
    ensures in_range { IfSome result (λ step. step ≤ limit) }
    ensures positive { IfSome result (λ step. 0 < step) }
{
    let step = spaced(span, count)?;
    if step <= LIMIT { Some(step) } else { None }
}

// How far apart two numbers are.
pub(crate) fn span_between(low: Num, high: Num) -> u128
    ensures value { result ≡ span_of (low, high) }
    ensures in_reach { result ≤ 2 * limit }
{
    (high.millionths() - low.millionths()).unsigned_abs()
}

// A step as a number.
fn number_of(step: Option<u128>) -> Option<Num>
    requires in_range { IfSome step (λ n. n ≤ limit) }
    ensures { result ≡ option_map pos step }
{
    Num::of_millionths(step? as i128)
}

// The step for so many ticks between two numbers.
#[tactic(auto, using(crate::proofs::StepLawLemmas::answers_step_between))]
pub(crate) fn step_between(low: Num, high: Num, count: u32) -> Option<Num>
    requires some { 1 ≤ count }
    ensures value { result ≡ option_map pos (step_of (span_of (low, high)) count) }
    ensures spaced { AnswersStep (span_of (low, high)) count (option_map unsigned_abs result) }
    ensures positive { IfSome result (λ step. pos 0 <ℤ step) }
{
    number_of(step_over(span_between(low, high), u128::from(count)))
}

/// The step for `count` ticks from `lo` to `hi`: 1, 2 or 5 times a power of ten, by the spacing `(hi - lo) / count`; at least one
/// millionth. None exactly where it is out of range.
pub fn step_of(lo: Num, hi: Num, count: u32) -> Option<Num>
    requires ordered { lo <ℤ hi }
    requires some { 1 ≤ count }
    requires few { count ≤ 1000 }
    ensures value { result ≡ option_map pos (step_of (span_of (lo, hi)) count) }
    ensures spaced { AnswersStep (span_of (lo, hi)) count (option_map unsigned_abs result) }
    ensures positive { IfSome result (λ step. pos 0 <ℤ step) }
{
    step_between(lo, hi, count)
}

// A domain taken outward to multiples of its step; None exactly where that is out of range.
fn widened(low: Num, high: Num, count: u32) -> Option<(Num, Num)>
    requires ordered { low ≤ℤ high }
    requires some { 1 ≤ count }
    ensures value { result ≡ widened count (low, high) }
    ensures ordered { IfSome result (λ domain. domain.0 ≤ℤ domain.1) }
{
    let step = step_between(low, high, count)?;
    Some((low.floor_to(step)?, high.ceil_to(step)?))
}

/// A nice domain for `count` ticks: `lo` taken down and `hi` up to multiples of their step until the step stays, at most ten times.
/// One point stays as it is. None exactly where a step or an end is out of range.
pub fn nice(lo: Num, hi: Num, count: u32) -> Option<(Num, Num)>
    requires ordered { lo ≤ℤ hi }
    requires some { 1 ≤ count }
    requires few { count ≤ 1000 }
    ensures value { result ≡ nice_of count (lo, hi) }
    ensures ordered { IfSome result (λ domain. domain.0 ≤ℤ domain.1) }
{
    let mut domain = (lo, hi);
    if lo == hi {
        return Some(domain);
    }
    for _turn in 0..10u32 {
        let wider = widened(domain.0, domain.1, count)?;
        if wider == domain {
            return Some(domain);
        }
        domain = wider;
    }
    Some(domain)
}
