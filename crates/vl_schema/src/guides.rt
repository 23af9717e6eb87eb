//! The members of objects: scales, guides and orders of channels.
ghost use Rattle.std.specs.Prelude.{◌≡◌, ◌++◌, OnOk};
ghost use Rattle.vl_schema.specs.Guides.{all_guides};

use crate::codes::{
    ANGLE, AXIS, CHANNEL_NAME, FLAG, FREE, HEADER, LABEL_FORMAT, LEGEND, OPERATION, ORDER, RANGE,
    SCALARS, SCALE, SCALE_DOMAIN, SCALE_TYPE, SCHEME, SHARE, SIDE, SORT, TEXT, TICK_COUNT, TITLE,
    X_AXIS, X_SIDE, Y_AXIS, Y_SIDE,
};
use crate::tables::{Table, push_layouts};
use spec_schema::{Layout, When, table};
use std::alloc::Global;
use text_kit::{OutOfMemory, Seq};

// Axes, each with the sides along which it stands; then a scale, the domain that a selection gives, a legend, a header, and the order of
// a channel by a count and by an aggregate of a field.
macro_rules! guide_tables {
    ($($object:ident $sides:ident),*) => {
        layout_tables![
            $($object [] [
                may "title" TITLE, may "labels" FLAG, may "ticks" FLAG, may "domain" FLAG, may "grid" FLAG,
                may "labelAngle" ANGLE, may "tickCount" TICK_COUNT, may "values" SCALARS, may "orient" $sides,
                may "format" LABEL_FORMAT
            ] None;)*
            SCALE [] [
                may "type" SCALE_TYPE, may "domain" SCALE_DOMAIN, may "range" RANGE, may "scheme" SCHEME, may "zero" FLAG,
                may "nice" FLAG, may "padding" SHARE, may "paddingInner" SHARE, may "paddingOuter" SHARE,
                may "reverse" FLAG
            ] None;
            SCALE_DOMAIN [] [must "param" TEXT, may "encoding" CHANNEL_NAME] None;
            LEGEND [] [may "title" TITLE, may "format" LABEL_FORMAT] None;
            HEADER [] [may "labels" FLAG, may "title" FREE] None;
            SORT [When::Says("op", "count")] [may "field" TEXT, may "op" OPERATION, may "order" ORDER] None;
            SORT [] [must "field" TEXT, may "op" OPERATION, may "order" ORDER] None;
        ]
    };
}

const GUIDES: [Table<'static>; 9] = guide_tables![X_AXIS X_SIDE, Y_AXIS Y_SIDE, AXIS SIDE];

/// Adds these layouts.
#[tactic(auto, unfolding(crate::specs::Guides::all_guides, crate::specs::Guides::all_axes, crate::specs::Guides::axis_along, crate::specs::Guides::scale, crate::specs::Guides::selected_domain, crate::specs::Guides::legend, crate::specs::Guides::header, crate::specs::Guides::sort_by_count, crate::specs::Guides::sort_by_field))]
pub fn push_guides(alloc: Global, out: &mut Seq<Layout>) -> Result<(), OutOfMemory>
    ensures { OnOk result (out.new ≡ out.old ++ all_guides) }
{
    push_layouts(alloc, out, &GUIDES)
}
