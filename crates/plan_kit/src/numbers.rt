// Numbers that are written.
ghost use Rattle.std.specs.Prelude.{◌≡◌, ◌*◌, pos, neg_ℤ, unwrap_or};
ghost use Rattle.fixed_num.specs.Number.{million};

use fixed_num::Num;

/// The number of so many millionths.
pub fn millionths(count: u32) -> Num
    ensures { result ≡ pos count }
{
    match Num::of_millionths(i128::from(count)) {
        Some(number) => number,
        None => unreachable!(),
    }
}

/// The number of so many ones.
pub fn ones(n: u32) -> Num
    ensures { result ≡ pos (n * million) }
{
    match Num::of_millionths(i128::from(n) * 1_000_000) {
        Some(number) => number,
        None => unreachable!(),
    }
}

/// The opposite of a number.
pub fn turned(n: Num) -> Num
    ensures { result ≡ neg_ℤ n }
{
    match Num::of_millionths(-n.millionths()) {
        Some(number) => number,
        None => unreachable!(),
    }
}

/// A number that may be given, or else another.
pub fn number_or(given: Option<Num>, otherwise: Num) -> Num
    ensures { result ≡ unwrap_or given otherwise }
{
    match given {
        Some(number) => number,
        None => otherwise,
    }
}
