// Domains of numbers as they are widened.
ghost use Rattle.std.specs.Prelude.{◌≡◌, ◌≤ℤ◌, IfSome};
ghost use Rattle.tick_kit.specs.Domains.{with_zero};
ghost use Rattle.domain_kit.specs.Counting.{cut_in_time, widened, widened_as_asked};

use crate::counting::{first_instant, last_instant};
use crate::numbers::{greater, lesser, zero};
use fixed_num::Num;
use tick_kit::nice;

// A domain that takes in 0.
fn with_zero(ends: (Num, Num)) -> (Num, Num)
    requires { ends.0 ≤ℤ ends.1 }
    ensures value { result ≡ with_zero ends }
    ensures ordered { result.0 ≤ℤ result.1 }
{
    (lesser(ends.0, zero()), greater(ends.1, zero()))
}

// A number cut to the range of instants.
fn cut_in_time(n: Num) -> Num
    ensures { result ≡ cut_in_time n }
{
    greater(first_instant(), lesser(n, last_instant()))
}

// A domain widened to round numbers; on a time scale it is cut to the range of instants.
#[tactic(auto, using(crate::proofs::NumberLemmas::cut_keeps_order))]
fn widened(is_time: bool, low: Num, high: Num) -> Option<(Num, Num)>
    requires { low ≤ℤ high }
    ensures value { result ≡ widened is_time (low, high) }
    ensures ordered { IfSome result (λ e. e.0 ≤ℤ e.1) }
{
    let (low, high) = nice(low, high, 10)?;
    if is_time {
        Some((cut_in_time(low), cut_in_time(high)))
    } else {
        Some((low, high))
    }
}

/// A domain that takes in 0, and then is widened to round numbers, where each is asked; None exactly where it is widened out of range.
pub fn widened_as_asked(
    is_time: bool,
    takes_zero: bool,
    is_nice: bool,
    ends: (Num, Num),
) -> Option<(Num, Num)>
    requires { ends.0 ≤ℤ ends.1 }
    ensures value { result ≡ widened_as_asked is_time takes_zero is_nice ends }
    ensures ordered { IfSome result (λ e. e.0 ≤ℤ e.1) }
{
    let taken = if takes_zero { with_zero(ends) } else { ends };
    if is_nice {
        widened(is_time, taken.0, taken.1)
    } else {
        Some(taken)
    }
}
