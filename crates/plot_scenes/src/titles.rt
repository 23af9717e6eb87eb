// The title of a plot.
ghost use Rattle.std.specs.Prelude.{◌≡◌, ◌++◌, OnOk};
ghost use Rattle.plot_scenes.specs.Titles.{title_items, with_title};

use crate::extents::{Extents, widened};
use crate::lengths::title_space;
use fixed_num::Num;
use guide_kit::{Side, title_of};
use scene_tree::Item;
use std::alloc::Global;
use text_kit::{OutOfMemory, Seq, Text};

/// Adds the title of a plot of this width in pixels, above what extends above it, if it has one.
pub(crate) fn push_title(
    alloc: Global,
    title: &Option<Text>,
    width: Num,
    extents: &Extents,
    items: &mut Seq<Item>,
) -> Result<(), OutOfMemory>
    ensures { OnOk result (items.new ≡ items.old ++ title_items title.now width extents.now) }
{
    match title {
        Some(text) => items.push(title_of(alloc, text.as_str(), width, extents.top)?),
        None => Ok(()),
    }
}

/// The extents with the title, if there is one.
pub(crate) fn with_title(title: &Option<Text>, extents: &Extents) -> Extents
    ensures { result ≡ with_title title.now extents.now }
{
    match title {
        Some(_) => widened(Side::Top, title_space(), extents),
        None => *extents,
    }
}
