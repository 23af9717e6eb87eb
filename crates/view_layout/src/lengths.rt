// Lengths: counts of millionths of a pixel, from 0.
ghost use Rattle.std.specs.Prelude.{◌≡◌};
ghost use Rattle.view_layout.specs.Lengths.{plus, length_of, number_of, title_height};

use fixed_num::Num;

/// The greatest length.
const LONGEST: u128 = 1_000_000_000_000_000_000_000;

/// How high a grid's title is.
const TITLE: u128 = 23_000_000;

/// A sum of two lengths, cut at 10^15 pixels.
pub fn plus(a: u128, b: u128) -> u128
    ensures { result ≡ plus a b }
{
    a.saturating_add(b).min(LONGEST)
}

/// A number as a length: nothing where it is below 0.
pub fn length_of(number: Num) -> u128
    ensures { result ≡ length_of number }
{
    let count = number.millionths();
    if count < 0 { 0 } else { count as u128 }
}

/// A length as a number, cut at 10^15 pixels.
pub fn number_of(length: u128) -> Num
    ensures { result ≡ number_of length }
{
    match Num::of_millionths(length.min(LONGEST) as i128) {
        Some(number) => number,
        None => unreachable!(),
    }
}

/// How high the title of a grid is.
pub fn title_height(title: bool) -> u128
    ensures { result ≡ title_height title }
{
    if title { TITLE } else { 0 }
}
