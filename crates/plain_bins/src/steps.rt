// The width of bins.
ghost use Rattle.std.specs.Prelude.{◌≡◌, ◌*◌, ◌<◌, ◌≤◌, ◌<ℤ◌, pos, nat_le, find, IfSome};
ghost use Rattle.std.specs.Option.{option_map};
ghost use Rattle.fixed_num.specs.Number.{limit};
ghost use Rattle.plain_bins.specs.Steps.{positive_or, span_of, step_for, step_of};

use fixed_num::Num;
use plain_rows::BinOf;

// How many millionths one has.
const ONE: u128 = 1_000_000;

// The widths that are chosen from, in millionths: 1, 2 and 5 times the powers of ten.
const STEPS: [u128; 64] = [
    1,
    2,
    5,
    10,
    20,
    50,
    100,
    200,
    500,
    1_000,
    2_000,
    5_000,
    10_000,
    20_000,
    50_000,
    100_000,
    200_000,
    500_000,
    1_000_000,
    2_000_000,
    5_000_000,
    10_000_000,
    20_000_000,
    50_000_000,
    100_000_000,
    200_000_000,
    500_000_000,
    1_000_000_000,
    2_000_000_000,
    5_000_000_000,
    10_000_000_000,
    20_000_000_000,
    50_000_000_000,
    100_000_000_000,
    200_000_000_000,
    500_000_000_000,
    1_000_000_000_000,
    2_000_000_000_000,
    5_000_000_000_000,
    10_000_000_000_000,
    20_000_000_000_000,
    50_000_000_000_000,
    100_000_000_000_000,
    200_000_000_000_000,
    500_000_000_000_000,
    1_000_000_000_000_000,
    2_000_000_000_000_000,
    5_000_000_000_000_000,
    10_000_000_000_000_000,
    20_000_000_000_000_000,
    50_000_000_000_000_000,
    100_000_000_000_000_000,
    200_000_000_000_000_000,
    500_000_000_000_000_000,
    1_000_000_000_000_000_000,
    2_000_000_000_000_000_000,
    5_000_000_000_000_000_000,
    10_000_000_000_000_000_000,
    20_000_000_000_000_000_000,
    50_000_000_000_000_000_000,
    100_000_000_000_000_000_000,
    200_000_000_000_000_000_000,
    500_000_000_000_000_000_000,
    1_000_000_000_000_000_000_000,
];

// A count, or another where it is 0.
fn positive_or(count: u128, other: u128) -> u128
    ensures { result ≡ positive_or count other }
{
    if 0 < count { count } else { other }
}

// How far bins have to reach: from the least number to the greatest, or where that is 0 as far as it is from 0, or 1.
fn span_of(low: Num, high: Num) -> u128
    ensures { result ≡ span_of low high }
{
    let between = (high.millionths() - low.millionths()).unsigned_abs();
    positive_or(between, positive_or(low.millionths().unsigned_abs(), ONE))
}

// Whether so many bins of a width reach over a span.
#[tactic(auto, using(crate::proofs::StepLemmas::cut_product))]
fn is_enough(step: u128, span: u128, maxbins: u32) -> bool
    ensures { result ≡ nat_le span (maxbins * step) }
{
    span <= u128::from(maxbins).saturating_mul(step)
}

// The first of some widths of which so many bins reach over a span.
fn first_enough(steps: &[u128], span: u128, maxbins: u32) -> Option<u128>
    ensures { result ≡ find (λ step. nat_le span (maxbins * step)) steps.now }
{
    for step in steps {
        if is_enough(*step, span, maxbins) {
            return Some(*step);
        }
    }
    None
}

// The least width of which so many bins reach over a span.
fn enough(span: u128, maxbins: u32) -> Option<u128>
    ensures value { result ≡ step_for span maxbins }
    ensures above_zero { IfSome result (λ step. 0 < step) }
    ensures in_range { IfSome result (λ step. step ≤ limit) }
{
    first_enough(&STEPS, span, maxbins)
}

// A width as a number.
fn number_of(step: Option<u128>) -> Option<Num>
    requires { IfSome step (λ n. n ≤ limit) }
    ensures { result ≡ option_map pos step }
{
    Num::of_millionths(step? as i128)
}

// The least width of which so many bins reach from one number to another.
fn step_between(low: Num, high: Num, maxbins: u32) -> Option<Num>
    ensures value { result ≡ option_map pos (step_for (span_of low high) maxbins) }
    ensures above_zero { IfSome result (λ step. pos 0 <ℤ step) }
{
    number_of(enough(span_of(low, high), maxbins))
}

/// The width of bins, given or found; None exactly where it is out of range.
pub fn step_of(b: &BinOf, low: Num, high: Num) -> Option<Num>
    requires { IfSome b.now.step (λ step. pos 0 <ℤ step) }
    ensures value { result ≡ step_of b.now low high }
    ensures above_zero { IfSome result (λ step. pos 0 <ℤ step) }
{
    match b.step {
        Some(step) => Some(step),
        None => step_between(low, high, b.maxbins),
    }
}
