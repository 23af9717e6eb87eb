// The titles of views.
ghost use Rattle.std.specs.Prelude.{◌≡◌, IfOk};
ghost use Rattle.guide_kit.specs.Titles.{title_of};

use crate::items::{view_title_style, words_at};
use crate::measures::{half, minus, pixels, plus};
use fixed_num::Num;
use scene_tree::{Anchor, Item};
use std::alloc::Global;
use text_kit::{OutOfMemory, Text};

/// The title of a view of this width in pixels, at its middle, 10 pixels above what extends `above` pixels above the view.
pub fn title_of(alloc: Global, text: &str, width: Num, above: Num) -> Result<Item, OutOfMemory>
    ensures { IfOk result (λ item. item ≡ title_of text.now width above) }
{
    let y = minus(pixels(0), plus(above, pixels(10)));
    let style = view_title_style(Anchor::Middle);
    words_at(alloc, style, half(width), y, Text::of(alloc, text)?)
}
