// Lengths at plots, in pixels.
ghost use Rattle.std.specs.Prelude.{◌≡◌};
ghost use Rattle.std.specs.Int.{int_min, int_max};
ghost use Rattle.plot_scenes.specs.Lengths.{beyond, gap, title_space};

use fixed_num::Num;

/// The greatest extent, in pixels.
const GREATEST_EXTENT: u64 = 100_000_000_000;

/// The lesser of two lengths.
pub(crate) fn lesser(a: Num, b: Num) -> Num
    ensures { result ≡ int_min a b }
{
    if b < a { b } else { a }
}

/// The greater of two lengths.
pub(crate) fn greater(a: Num, b: Num) -> Num
    ensures { result ≡ int_max a b }
{
    if a < b { b } else { a }
}

/// The sum of two extents at one side of a plot, cut to 10^11 pixels.
pub(crate) fn beyond(a: Num, b: Num) -> Num
    ensures { result ≡ beyond a b }
{
    lesser(guide_kit::plus(a, b), guide_kit::pixels(GREATEST_EXTENT))
}

/// The space between the content and legends, and between legends.
pub(crate) fn gap() -> Num
    ensures { result ≡ gap }
{
    guide_kit::pixels(18)
}

/// The space that a title takes above.
pub(crate) fn title_space() -> Num
    ensures { result ≡ title_space }
{
    guide_kit::pixels(23)
}
