// Words at plots and grids, with their middle at a place.
ghost use Rattle.std.specs.Prelude.{◌≡◌, IfOk};
ghost use Rattle.scene_tree.specs.declared.shape.Anchor.TheVariants.{Middle};
ghost use Rattle.guide_kit.specs.Items.{words_at as words, label_style as labels, view_title_style as view_titles};

use fixed_num::Num;
use guide_kit::{label_style, view_title_style, words_at};
use scene_tree::{Anchor, Item};
use std::alloc::Global;
use text_kit::{OutOfMemory, Text};

/// A text as labels are drawn.
pub(crate) fn label_at(
    alloc: Global,
    turned: bool,
    x: Num,
    y: Num,
    text: Text,
) -> Result<Item, OutOfMemory>
    ensures { IfOk result (λ item. item ≡ words (labels turned Middle) x y text) }
{
    words_at(alloc, label_style(turned, Anchor::Middle), x, y, text)
}

/// A text as the titles of views are drawn.
pub(crate) fn view_title_at(alloc: Global, x: Num, y: Num, text: Text) -> Result<Item, OutOfMemory>
    ensures { IfOk result (λ item. item ≡ words (view_titles Middle) x y text) }
{
    words_at(alloc, view_title_style(Anchor::Middle), x, y, text)
}
