//! The members of views in a layer: units and layers stand there, and another view has no place for the member that
//! decides.
ghost use Rattle.std.specs.Prelude.{◌≡◌, ◌++◌, OnOk};
ghost use Rattle.vl_schema.specs.Layers.{all_layers};

use crate::codes::{COUNT, LAYER_ENCODING, LAYER_VIEW, LAYERS, MARK, SPACE, VIEW, VIEW_KINDS};
use crate::views::{Kind, push_kinds};
use spec_schema::{Layout, When, table};
use std::alloc::Global;
use text_kit::{OutOfMemory, Seq};

// Units and layers, by their first deciding member; faceted views, those side by side, one below the other and in a grid; a faceted
// view that has its `spec` alone; and units without a deciding member.
const KINDS: [Kind<'static>; 8] = view_kinds![
    [When::Leads(VIEW_KINDS, "mark")] [must "mark" MARK, may "encoding" LAYER_ENCODING];
    [When::Leads(VIEW_KINDS, "layer")] [must "layer" LAYERS, may "encoding" LAYER_ENCODING];
    [When::Leads(VIEW_KINDS, "facet")] [may "spec" VIEW, may "columns" COUNT, may "spacing" SPACE];
    [When::Leads(VIEW_KINDS, "hconcat")] [may "spacing" SPACE];
    [When::Leads(VIEW_KINDS, "vconcat")] [may "spacing" SPACE];
    [When::Leads(VIEW_KINDS, "concat")] [may "spacing" SPACE, may "columns" COUNT];
    [When::Has("spec")] [may "columns" COUNT, may "spacing" SPACE];
    [] [must "mark" MARK, may "encoding" LAYER_ENCODING];
];

/// Adds these layouts.
#[tactic(auto, unfolding(crate::specs::Layers::all_layers, crate::specs::Layers::led_layers, crate::specs::Layers::other_layers, crate::specs::Layers::faceted_in_layer, crate::specs::Layers::row_in_layer, crate::specs::Layers::column_in_layer, crate::specs::Layers::grid_in_layer, crate::specs::Layers::spec_in_layer, crate::specs::Views::unit_view, crate::specs::Views::layered_view))]
pub fn push_layers(alloc: Global, out: &mut Seq<Layout>) -> Result<(), OutOfMemory>
    ensures { OnOk result (out.new ≡ out.old ++ all_layers) }
{
    push_kinds(alloc, out, LAYER_VIEW, false, &KINDS)
}
