// Numbers of pixels.
ghost use Rattle.std.specs.Prelude.{◌≡◌, pos, ◌+ℤ◌, ◌-ℤ◌, ◌*◌, ◌*ℤ◌};
ghost use Rattle.fixed_num.specs.Number.{million, rounded};
ghost use Rattle.fixed_num.specs.Ranges.{in_range};

use fixed_num::Num;

/// The sum of two numbers; None exactly where it is out of range.
#[tactic(auto, using(fixed_num::proofs::RangeLemmas::in_range_from_exact))]
pub fn sum_of(a: Num, b: Num) -> Option<Num>
    ensures { result ≡ in_range (a +ℤ b) }
{
    a.add(b)
}

/// So many times a width; None exactly where it is out of range.
#[tactic(auto, using(fixed_num::proofs::RangeLemmas::in_range_from_exact))]
pub fn times(share: Num, width: Num) -> Option<Num>
    ensures { result ≡ in_range (rounded (share *ℤ width) million) }
{
    share.mul(width)
}

/// The number 0.
pub fn zero() -> Num
    ensures { result ≡ pos 0 }
{
    match Num::of_millionths(0) {
        Some(zero) => zero,
        None => unreachable!(),
    }
}

/// The difference of two numbers; None exactly where it is out of range.
#[tactic(auto, using(fixed_num::proofs::RangeLemmas::in_range_from_exact))]
pub fn difference(a: Num, b: Num) -> Option<Num>
    ensures { result ≡ in_range (a -ℤ b) }
{
    a.sub(b)
}

/// The half of a number, rounded to the nearest; None exactly where it is out of range.
pub fn half(size: Num) -> Option<Num>
    ensures { result ≡ in_range (rounded size 2) }
{
    zero().along(size.millionths(), 1, 2)
}

/// So many pixels.
pub fn pixels(n: u8) -> Num
    ensures { result ≡ pos (n * million) }
{
    match Num::of_millionths(i128::from(n) * 1_000_000) {
        Some(number) => number,
        None => unreachable!(),
    }
}
