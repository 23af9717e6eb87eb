// Numbers that are written.
ghost use Rattle.std.specs.Prelude.{◌≡◌, ◌*◌, pos, neg_ℤ, IfOk};
ghost use Rattle.fixed_num.specs.Number.{million};
ghost use Rattle.vega_assemble.specs.Steps.{counted, bound_written};

use fixed_num::Num;
use text_kit::OutOfMemory;

/// The number of so many millionths.
pub(crate) fn millionths(count: u32) -> Num
    ensures { result ≡ pos count }
{
    match Num::of_millionths(i128::from(count)) {
        Some(number) => number,
        None => unreachable!(),
    }
}

/// The number of so many ones.
pub(crate) fn ones(n: u32) -> Num
    ensures { result ≡ counted n }
{
    match Num::of_millionths(i128::from(n) * 1_000_000) {
        Some(number) => number,
        None => unreachable!(),
    }
}

/// The number of so many ones below zero.
pub(crate) fn ones_below(n: u16) -> Num
    ensures { result ≡ neg_ℤ (pos (n * million)) }
{
    match Num::of_millionths(i128::from(n) * -1_000_000) {
        Some(number) => number,
        None => unreachable!(),
    }
}

/// A place in a list as a number; there is no memory for a list with more places than numbers go.
pub(crate) fn place_number(n: usize) -> Result<Num, OutOfMemory>
    ensures { IfOk result (λ number. number ≡ counted n) }
{
    match Num::of_millionths(i128::from(n as u64) * 1_000_000) {
        Some(number) => Ok(number),
        None => Err(OutOfMemory),
    }
}

/// A bound of a frame as a number.
pub(crate) fn bound_written(n: i32) -> Num
    ensures { result ≡ bound_written n }
{
    match Num::of_millionths(i128::from(n) * 1_000_000) {
        Some(number) => number,
        None => unreachable!(),
    }
}
