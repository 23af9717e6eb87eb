//! The members of objects: sizes, the look of all views, and what views share.
ghost use Rattle.std.specs.Prelude.{◌≡◌, ◌++◌, OnOk};
ghost use Rattle.vl_schema.specs.Sizes.{all_sizes};

use crate::codes::{
    CONFIG, CONFIG_VIEW, FREE, PLAIN_SIZE, RESOLVE, RESOLVE_SCALE, SHARING, SIZE, SIZE_STEP,
};
use crate::tables::{Table, push_layouts};
use spec_schema::{Layout, table};
use std::alloc::Global;
use text_kit::{OutOfMemory, Seq};

// A size by its step, the look of all views and their sizes, what views share, and which scales.
const SIZES: [Table<'static>; 5] = layout_tables![
    SIZE [] [must "step" SIZE_STEP] None;
    CONFIG [] [may "view" CONFIG_VIEW] None;
    CONFIG_VIEW [] [
        may "continuousWidth" PLAIN_SIZE, may "continuousHeight" PLAIN_SIZE, may "discreteWidth" SIZE,
        may "discreteHeight" SIZE, may "step" SIZE_STEP, may "stroke" FREE, may "strokeWidth" FREE
    ] None;
    RESOLVE [] [may "scale" RESOLVE_SCALE] None;
    RESOLVE_SCALE [] [
        may "x" SHARING, may "y" SHARING, may "x2" SHARING, may "y2" SHARING, may "color" SHARING,
        may "opacity" SHARING, may "size" SHARING, may "shape" SHARING, may "detail" SHARING, may "text" SHARING,
        may "row" SHARING, may "column" SHARING, may "facet" SHARING
    ] None;
];

/// Adds these layouts.
#[tactic(auto, unfolding(crate::specs::Sizes::all_sizes, crate::specs::Sizes::step, crate::specs::Sizes::config, crate::specs::Sizes::config_view, crate::specs::Sizes::resolve, crate::specs::Sizes::resolve_scale))]
pub fn push_sizes(alloc: Global, out: &mut Seq<Layout>) -> Result<(), OutOfMemory>
    ensures { OnOk result (out.new ≡ out.old ++ all_sizes) }
{
    push_layouts(alloc, out, &SIZES)
}
