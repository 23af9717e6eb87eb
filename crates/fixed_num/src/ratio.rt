// Products of two numbers over a third, in words of 128 bits.
ghost use Rattle.std.specs.Prelude.{◌≡◌, ◌+◌, ◌*◌, ◌/◌, ◌%◌, ◌<◌, ◌≤◌, ℤ, ◌*ℤ◌, Option, Some, None, IfSome, IfNone, unsigned_abs};
ghost use Rattle.std.specs.Option.{SomeIff};
ghost use Rattle.fixed_num.specs.Number.{limit, signed, rounded, rounded_ratio};

/// Twice the greatest count: what is farther from zero than this leads from no number to a number.
const REACH: u128 = 2_000_000_000_000_000_000_000;

/// A factor is multiplied in two parts, cut at this power of two.
const CUT: u128 = 0x100_0000_0000_0000;

// The quotient and the remainder of `a * b` by `d`; None exactly where the quotient is out of reach.
#[tactic(auto, using(crate::proofs::ProductLemmas::quotients))]
fn product_over(a: u128, b: u128, d: u128) -> Option<(u128, u128)>
    requires a_in_reach { a ≤ 2 * limit }
    requires b_in_reach { b ≤ 2 * limit }
    requires d_in_reach { d ≤ 2 * limit }
    requires d_above_zero { 0 < d }
    ensures { SomeIff result (a * b / d ≤ 2 * limit) (a * b / d, a * b % d) }
{
    let high = a * (b / CUT);
    let whole = high / d;
    if whole > REACH / CUT {
        return None;
    }
    let low = high % d * CUT + a * (b % CUT);
    let quotient = whole * CUT + low / d;
    if quotient > REACH {
        None
    } else {
        Some((quotient, low % d))
    }
}

// A quotient and its remainder by `d`, with a sign, rounded to the nearest, the middle going upward.
#[tactic(auto, using(crate::proofs::RoundingLemmas::nearest))]
fn nearest(negative: bool, whole: u128, rest: u128, d: u128) -> i128
    requires in_reach { whole ≤ 2 * limit }
    requires d_in_reach { d ≤ 2 * limit }
    requires below { rest < d }
    ensures value { result ≡ rounded (signed negative (whole * d + rest)) d }
    ensures bound { unsigned_abs result ≤ 2 * limit + 1 }
    ensures lower_bound { whole ≤ unsigned_abs result }
{
    let size = whole as i128;
    if negative {
        if 2 * rest > d { -size - 1 } else { -size }
    } else {
        if 2 * rest >= d { size + 1 } else { size }
    }
}

// `p * q / r`, rounded to the nearest, the middle going upward; None exactly where the quotient of the sizes is out of reach.
pub(crate) fn rounded_product(p: i128, q: i128, r: i128) -> Option<i128>
    requires p_in_reach { unsigned_abs p ≤ 2 * limit }
    requires q_in_reach { unsigned_abs q ≤ 2 * limit }
    requires r_in_reach { unsigned_abs r ≤ 2 * limit }
    requires r_not_zero { 0 < unsigned_abs r }
    ensures value { IfSome result (λ x. x ≡ rounded_ratio (p *ℤ q) r) }
    ensures bound { IfSome result (λ x. unsigned_abs x ≤ 2 * limit + 1) }
    ensures none { IfNone result (2 * limit < unsigned_abs (rounded_ratio (p *ℤ q) r)) }
{
    let size = r.unsigned_abs();
    let (whole, rest) = product_over(p.unsigned_abs(), q.unsigned_abs(), size)?;
    let negative = (p < 0) ^ (q < 0) ^ (r < 0);
    Some(nearest(negative, whole, rest, size))
}
