// Sums of places, in pixels.
ghost use Rattle.std.specs.Prelude.{◌≡◌, ◌≤◌, pos, int_lt, unsigned_abs};
ghost use Rattle.fixed_num.specs.Number.{limit, rounded, signed};
ghost use Rattle.guide_kit.specs.Measures.{pixels, farthest, plus, minus, half};

use fixed_num::Num;

/// The greatest count of millionths.
const LIMIT: u128 = 1_000_000_000_000_000_000_000;

/// So many pixels.
pub fn pixels(n: u64) -> Num
    requires { n ≤ farthest }
    ensures { result ≡ pixels n }
{
    match Num::of_millionths(i128::from(n) * 1_000_000) {
        Some(number) => number,
        None => unreachable!(),
    }
}

// Whether a place is below zero.
fn is_negative(z: Num) -> bool
    ensures { result ≡ int_lt z (pos 0) }
{
    z.millionths() < 0
}

// The millionths of a place without its sign.
fn size_of(z: Num) -> u128
    ensures value { result ≡ unsigned_abs z }
    ensures bound { result ≤ limit }
{
    z.millionths().unsigned_abs()
}

// The place of so many millionths with a sign.
fn place_of(negative: bool, millionths: u128) -> Num
    requires { millionths ≤ limit }
    ensures { result ≡ signed negative millionths }
{
    let size = millionths as i128;
    if negative {
        match Num::of_millionths(-size) {
            Some(place) => place,
            None => unreachable!(),
        }
    } else {
        match Num::of_millionths(size) {
            Some(place) => place,
            None => unreachable!(),
        }
    }
}

/// The sum of two places, cut to 10^15 pixels on both sides of zero.
pub fn plus(a: Num, b: Num) -> Num
    ensures { result ≡ plus a b }
{
    let _ = a.millionths();
    match a.add(b) {
        Some(sum) => sum,
        None => place_of(is_negative(b), LIMIT),
    }
}

/// The difference of two places, cut to 10^15 pixels on both sides of zero.
pub fn minus(a: Num, b: Num) -> Num
    ensures { result ≡ minus a b }
{
    let _ = a.millionths();
    match a.sub(b) {
        Some(difference) => difference,
        None => place_of(!is_negative(b), LIMIT),
    }
}

// The size of the half of so many millionths, rounded to the nearest, the middle going upward.
#[tactic(auto, using(crate::proofs::HalfLemmas::halves))]
fn half_of(negative: bool, millionths: u128) -> u128
    requires { millionths ≤ limit }
    ensures value { rounded (signed negative millionths) 2 ≡ signed negative result }
    ensures bound { result ≤ limit }
{
    if negative {
        millionths / 2
    } else {
        (millionths + 1) / 2
    }
}

/// The middle of a size.
#[tactic(auto, using(crate::proofs::HalfLemmas::by_size), unfolding(crate::specs::Measures::half))]
pub fn half(size: Num) -> Num
    ensures { result ≡ half size }
{
    let negative = is_negative(size);
    place_of(negative, half_of(negative, size_of(size)))
}
