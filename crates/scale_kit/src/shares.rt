//! Shares of a size, rounded once. A domain may have any number of cells, so the products are taken in two parts.
ghost use Rattle.std.specs.Prelude.{◌≡◌, ◌≢◌, ◌*◌, ◌/◌, ◌%◌, ◌+◌, ◌^◌, ◌<◌, ◌≤◌, pos, ◌+ℤ◌, ◌-ℤ◌, ◌*ℤ◌, ◌<ℤ◌, ◌≤ℤ◌, unsigned_abs};
ghost use Rattle.fixed_num.specs.Number.{limit, IsNumber, rounded, rounded_ratio, signed};
ghost use Rattle.fixed_num.specs.Ranges.{in_range};
ghost use Rattle.scale_kit.specs.Scale.{IsRange};
ghost use Rattle.scale_kit.specs.inner.Between.{IsBetween};

use fixed_num::Num;

/// A size is multiplied in two parts, cut at this power of two.
const CUT: u128 = 0x1000_0000;

/// The number of so many millionths.
pub fn number(millionths: i128) -> Num
    requires { IsNumber millionths }
    ensures { result ≡ millionths }
{
    match Num::of_millionths(millionths) {
        Some(number) => number,
        None => unreachable!(),
    }
}

/// How far it is from one number to another.
pub fn between(from: Num, to: Num) -> i128
    ensures value { result ≡ to -ℤ from }
    ensures bound { unsigned_abs result ≤ 2 * limit }
{
    to.millionths() - from.millionths()
}

// The quotient and the remainder of `part * size` by `whole`.
#[tactic(auto, using(fixed_num::proofs::ProductLemmas::quotients, crate::proofs::ShareLemmas::quotient_within))]
fn product_over(part: u128, size: u128, whole: u128) -> (u128, u128)
    requires part { part ≤ whole }
    requires size { size ≤ 2 ^ 57 }
    requires some { 0 < whole }
    requires bound { whole ≤ 2 ^ 90 }
    ensures quotient { result.0 ≡ part * size / whole }
    ensures rest { result.1 ≡ part * size % whole }
    ensures within { result.0 ≤ size }
{
    let high = part * (size / CUT);
    let low = high % whole * CUT + part * (size % CUT);
    (high / whole * CUT + low / whole, low % whole)
}

// A quotient and its remainder by `d`, with a sign, rounded to the nearest, the middle going upward.
#[tactic(auto, using(fixed_num::proofs::RoundingLemmas::nearest))]
fn nearest(negative: bool, whole: u128, rest: u128, d: u128) -> i128
    requires whole { whole ≤ 2 ^ 57 }
    requires bound { d ≤ 2 ^ 90 }
    requires below { rest < d }
    ensures value { result ≡ rounded (signed negative (whole * d + rest)) d }
{
    let size = whole as i128;
    if negative {
        if 2 * rest > d { -size - 1 } else { -size }
    } else {
        if 2 * rest >= d { size + 1 } else { size }
    }
}

/// So many parts of a size that has `whole` of them, rounded to the nearest, the middle going upward.
pub fn share(size: i128, part: i128, whole: i128) -> i128
    requires size { unsigned_abs size ≤ 2 ^ 57 }
    requires from { pos 0 ≤ℤ part }
    requires to { part ≤ℤ whole }
    requires some { pos 0 <ℤ whole }
    requires bound { whole ≤ℤ pos (2 ^ 90) }
    ensures value { result ≡ rounded (size *ℤ part) (unsigned_abs whole) }
    ensures within { IsBetween (pos 0) size result }
{
    let d = whole.unsigned_abs();
    let (quotient, rest) = product_over(part.unsigned_abs(), size.unsigned_abs(), d);
    nearest(size < 0, quotient, rest, d)
}

/// So many parts of the way from the beginning of a range to its end, which has `whole` of them.
pub fn way(range: (Num, Num), part: i128, whole: i128) -> Num
    requires range { IsRange range }
    requires from { pos 0 ≤ℤ part }
    requires to { part ≤ℤ whole }
    requires some { pos 0 <ℤ whole }
    requires bound { whole ≤ℤ pos (2 ^ 90) }
    ensures value { result ≡ rounded ((range.1 -ℤ range.0) *ℤ part) (unsigned_abs whole) }
    ensures within { IsBetween (pos 0) (range.1 -ℤ range.0) result }
{
    number(share(between(range.0, range.1), part, whole))
}

/// The place so many parts of the way along a range.
pub fn moved(range: (Num, Num), part: i128, whole: i128) -> Num
    requires range { IsRange range }
    requires from { pos 0 ≤ℤ part }
    requires to { part ≤ℤ whole }
    requires some { pos 0 <ℤ whole }
    requires bound { whole ≤ℤ pos (2 ^ 90) }
    ensures value { result ≡ range.0 +ℤ rounded ((range.1 -ℤ range.0) *ℤ part) (unsigned_abs whole) }
    ensures within { IsBetween range.0 range.1 result }
{
    match range.0.add(way(range, part, whole)) {
        Some(place) => place,
        None => unreachable!(),
    }
}

/// A number and `p` times `q` over `r`, each of the three from its first number to its second; None exactly where that is out of range.
pub fn along(start: Num, p: (Num, Num), q: (Num, Num), r: (Num, Num)) -> Option<Num>
    requires { r.0 ≢ r.1 }
    ensures { result ≡ in_range (start +ℤ rounded_ratio ((p.1 -ℤ p.0) *ℤ (q.1 -ℤ q.0)) (r.1 -ℤ r.0)) }
{
    start.along(between(p.0, p.1), between(q.0, q.1), between(r.0, r.1))
}
