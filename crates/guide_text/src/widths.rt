// How wide texts are drawn.
ghost use Rattle.std.specs.Prelude.{◌≡◌, ◌≤◌};
ghost use Rattle.guide_text.specs.Widths.{columns_of, greatest_size, width_of};

use unicode_width::UnicodeWidthStr;

/// The greatest width of a text, in pixels.
const GREATEST_SIZE: u64 = 100_000_000_000;

// The columns that a text takes.
#[tactic(auto, unfolding(crate::specs::Widths::columns_of))]
fn columns_of(text: &str) -> usize
    ensures { result ≡ columns_of text.now }
{
    text.width()
}

/// The width of a text in pixels, with `column` of them, at most 100, to each of its columns, cut to 10^11. A wide character takes two
/// columns, a mark on the character before it none, each other character one.
pub fn text_width(text: &str, column: u64) -> u64
    requires { column ≤ 100 }
    ensures value { result ≡ width_of column text.now }
    ensures bound { result ≤ greatest_size }
{
    let columns = u128::from(columns_of(text) as u64);
    (columns * u128::from(column)).min(u128::from(GREATEST_SIZE)) as u64
}
