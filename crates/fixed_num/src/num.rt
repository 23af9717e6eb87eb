ghost use Rattle.std.specs.Prelude.{◌≡◌, ◌≢◌, Option, Some, None, pos, neg_ℤ, ◌+ℤ◌, ◌-ℤ◌, ◌*ℤ◌, ◌<ℤ◌, ◌≤ℤ◌, ◌<◌, ◌≤◌, ◌*◌, unsigned_abs};
ghost use Rattle.std.specs.Option.{SomeIff, MatchOption};
ghost use Rattle.fixed_num.specs.Number.{limit, IsNumber, floored, ceiled, million, IsRoot, root_of, rounded, rounded_ratio};

use crate::ratio::rounded_product;
use std::marker::Model;

/// How many millionths one has.
pub(crate) const MILLION: u128 = 1_000_000;

/// The greatest count of millionths.
pub(crate) const LIMIT: u128 = 1_000_000_000_000_000_000_000;

/// A number: a whole count of millionths, from -10^21 to 10^21. Contracts see it as that count.
#[derive(Clone, Copy, Debug, PartialEq, Eq, PartialOrd, Ord)]
pub struct Num {
    count: i128,
}

impl Model for Num {
    ghost use Rattle.std.specs.Prelude.{ℤ};
    ghost use Rattle.fixed_num.specs.Number.{IsNumber};

    ghost Value = { ℤ };

    ghost view = { λ num. num.count };

    ghost invariant = { λ num. IsNumber num.count };

    ghost inverse = { λ m. record { count = m } };
}

impl Num {
    /// The number of `m` millionths; None exactly where `m` is out of range.
    pub fn of_millionths(m: i128) -> Option<Num>
        ensures { SomeIff result (IsNumber m) m }
    {
        if m.unsigned_abs() <= LIMIT {
            Some(Num { count: m })
        } else {
            None
        }
    }

    /// The count of millionths.
    pub fn millionths(self) -> i128
        ensures value { result ≡ self }
        ensures in_range { IsNumber self }
    {
        self.count
    }

    /// The sum; None exactly where it is out of range.
    pub fn add(self, o: Num) -> Option<Num>
        ensures { SomeIff result (IsNumber (self +ℤ o)) (self +ℤ o) }
    {
        Num::of_millionths(self.count + o.count)
    }

    /// The difference; None exactly where it is out of range.
    pub fn sub(self, o: Num) -> Option<Num>
        ensures { SomeIff result (IsNumber (self -ℤ o)) (self -ℤ o) }
    {
        Num::of_millionths(self.count - o.count)
    }

    /// The greatest multiple of a `step` above 0 not above this number; None exactly where it is out of range.
    #[tactic(auto, using(crate::proofs::RoundingLemmas::floored_from_remainder))]
    pub fn floor_to(self, step: Num) -> Option<Num>
        requires { pos 0 <ℤ step }
        ensures { SomeIff result (IsNumber (floored self step)) (floored self step) }
    {
        Num::of_millionths(self.count - self.count.rem_euclid(step.count))
    }

    // The number as far on the other side of zero.
    fn opposite(self) -> Num
        ensures value { result ≡ neg_ℤ self }
        ensures in_range { IsNumber result }
    {
        Num { count: -self.count }
    }

    /// The least multiple of a `step` above 0 not below this number; None exactly where it is out of range.
    #[tactic(auto, unfolding(crate::specs::Number::ceiled))]
    pub fn ceil_to(self, step: Num) -> Option<Num>
        requires { pos 0 <ℤ step }
        ensures { SomeIff result (IsNumber (ceiled self step)) (ceiled self step) }
    {
        Some(self.opposite().floor_to(step)?.opposite())
    }

    /// This number and `p * q / r` millionths, that rounded to the nearest, the middle going upward;
    /// None exactly where the sum is out of range. The three are at most 2 * 10^21 from 0, and `r` is not 0.
    pub fn along(self, p: i128, q: i128, r: i128) -> Option<Num>
        requires p_in_reach { unsigned_abs p ≤ 2 * limit }
        requires q_in_reach { unsigned_abs q ≤ 2 * limit }
        requires r_in_reach { unsigned_abs r ≤ 2 * limit }
        requires r_not_zero { 0 < unsigned_abs r }
        ensures { SomeIff result (IsNumber (self +ℤ rounded_ratio (p *ℤ q) r)) (self +ℤ rounded_ratio (p *ℤ q) r) }
    {
        Num::of_millionths(self.count + rounded_product(p, q, r)?)
    }

    /// The product, rounded to the nearest millionth, the middle going upward; None exactly where it is out of range.
    #[tactic(auto, unfolding(crate::specs::Number::rounded_ratio))]
    pub fn mul(self, o: Num) -> Option<Num>
        ensures { SomeIff result (IsNumber (rounded (self *ℤ o) million)) (rounded (self *ℤ o) million) }
    {
        Num::of_millionths(rounded_product(self.count, o.count, MILLION as i128)?)
    }

    /// The quotient, rounded to the nearest millionth, the middle going upward; None exactly where it is out of range or `o` is 0.
    pub fn div(self, o: Num) -> Option<Num>
        ensures { SomeIff result
            ((o ≢ pos 0) × IsNumber (rounded_ratio (self *ℤ pos million) o))
            (rounded_ratio (self *ℤ pos million) o) }
    {
        if o.count == 0 {
            return None;
        }
        Num::of_millionths(rounded_product(self.count, MILLION as i128, o.count)?)
    }

    /// The greatest number that is not below 0 and whose square is not above this one; None exactly for a negative number.
    pub fn root(self) -> Option<Num>
        ensures greatest { MatchOption result (self <ℤ pos 0) (IsRoot self) }
        ensures value { SomeIff result (pos 0 ≤ℤ self) (root_of self) }
    {
        if self.count < 0 {
            return None;
        }
        let root = (self.count.unsigned_abs() * MILLION).isqrt();
        Some(Num {
            count: root as i128,
        })
    }
}
