// Squares of distances, which one word doesn't hold.
ghost use Rattle.std.specs.Prelude.{◌≡◌, ◌+◌, ◌*◌, ◌^◌, ◌<◌, ◌≤◌, nat_le};

/// A distance is squared in two parts, cut at this power of two.
const CUT: u128 = 0x10_0000_0000;

/// The square of the cut.
const WORD: u128 = 0x100_0000_0000_0000_0000;

// A square as so many times `WORD`, and what is left.
#[derive(Clone, Copy)]
struct Parts {
    high: u128,
    low: u128,
}

// The square of a distance.
fn square_of(n: u128) -> Parts
    requires { n < 2 ^ 72 }
    ensures value { result.high * 2 ^ 72 + result.low ≡ n * n }
    ensures high_in_reach { result.high ≤ n }
    ensures low_in_reach { result.low < 2 ^ 72 }
{
    let (high, low) = (n / CUT, n % CUT);
    let rest = 2 * high * low * CUT + low * low;
    Parts {
        high: high * high + rest / WORD,
        low: rest % WORD,
    }
}

/// Whether a point that is so far from a centre across and down is no farther from it than the radius.
pub(crate) fn is_within_radius(across: u128, down: u128, radius: u128) -> bool
    requires across_in_reach { across < 2 ^ 72 }
    requires down_in_reach { down < 2 ^ 72 }
    requires radius_in_reach { radius < 2 ^ 72 }
    ensures { result ≡ nat_le (across * across + down * down) (radius * radius) }
{
    let a = square_of(across);
    let b = square_of(down);
    let most = square_of(radius);
    // how many more of the higher part it takes, as the lower one doesn't suffice
    let more = (a.low + b.low + (WORD - 1 - most.low)) / WORD;
    a.high + b.high + more <= most.high
}
