//! The schema of Vega-Lite specifications.
ghost use Rattle.std.specs.Prelude.{◌≡◌, ◌++◌, IfOk, OnOk};
ghost use Rattle.vl_schema.specs.Schema.{view_layouts, source_layouts, channel_layouts, condition_layouts, other_layouts, layouts, vl_schema};

use crate::channels::{push_channels, push_encodings};
use crate::codes::{TOP, VIEW};
use crate::conditions::push_conditions;
use crate::facets::push_facets;
use crate::filters::push_filters;
use crate::guides::push_guides;
use crate::layers::push_layers;
use crate::marks::push_marks;
use crate::operations::push_operations;
use crate::parameters::push_parameters;
use crate::shapes::shapes;
use crate::sizes::push_sizes;
use crate::sources::push_sources;
use crate::transforms::push_transforms;
use crate::views::push_views;
use crate::words::words;
use spec_schema::{Layout, Schema};
use std::alloc::Global;
use text_kit::{OutOfMemory, Seq};

// Adds the layouts of views.
#[tactic(auto, unfolding(crate::specs::Schema::view_layouts))]
fn view_layouts(alloc: Global, out: &mut Seq<Layout>) -> Result<(), OutOfMemory>
    ensures { OnOk result (out.new ≡ out.old ++ view_layouts) }
{
    push_views(alloc, out, TOP, true)?;
    push_views(alloc, out, VIEW, false)?;
    push_layers(alloc, out)
}

// Adds those of sources, parameters and marks.
#[tactic(auto, unfolding(crate::specs::Schema::source_layouts))]
fn source_layouts(alloc: Global, out: &mut Seq<Layout>) -> Result<(), OutOfMemory>
    ensures { OnOk result (out.new ≡ out.old ++ source_layouts) }
{
    push_sources(alloc, out)?;
    push_parameters(alloc, out)?;
    push_marks(alloc, out)
}

// Adds those of channels and facets.
#[tactic(auto, unfolding(crate::specs::Schema::channel_layouts))]
fn channel_layouts(alloc: Global, out: &mut Seq<Layout>) -> Result<(), OutOfMemory>
    ensures { OnOk result (out.new ≡ out.old ++ channel_layouts) }
{
    push_encodings(alloc, out)?;
    push_channels(alloc, out)?;
    push_facets(alloc, out)
}

// Adds those of conditions and filters.
#[tactic(auto, unfolding(crate::specs::Schema::condition_layouts))]
fn condition_layouts(alloc: Global, out: &mut Seq<Layout>) -> Result<(), OutOfMemory>
    ensures { OnOk result (out.new ≡ out.old ++ condition_layouts) }
{
    push_conditions(alloc, out)?;
    push_filters(alloc, out)
}

// Adds those of transforms, guides and sizes.
#[tactic(auto, unfolding(crate::specs::Schema::other_layouts))]
fn other_layouts(alloc: Global, out: &mut Seq<Layout>) -> Result<(), OutOfMemory>
    ensures { OnOk result (out.new ≡ out.old ++ other_layouts) }
{
    push_transforms(alloc, out)?;
    push_operations(alloc, out)?;
    push_guides(alloc, out)?;
    push_sizes(alloc, out)
}

// Adds the layouts of all objects.
#[tactic(auto, unfolding(crate::specs::Schema::layouts))]
fn push_all(alloc: Global, out: &mut Seq<Layout>) -> Result<(), OutOfMemory>
    ensures { OnOk result (out.new ≡ out.old ++ layouts) }
{
    view_layouts(alloc, out)?;
    source_layouts(alloc, out)?;
    channel_layouts(alloc, out)?;
    condition_layouts(alloc, out)?;
    other_layouts(alloc, out)
}

// The layouts of all objects.
fn layouts(alloc: Global) -> Result<Seq<Layout>, OutOfMemory>
    ensures { IfOk result (λ l. l ≡ layouts) }
{
    let mut out = Seq::new(alloc);
    push_all(alloc, &mut out)?;
    Ok(out)
}

/// The rules of Vega-Lite specifications.
#[tactic(auto, unfolding(crate::specs::Schema::vl_schema))]
pub fn vl_schema(alloc: Global) -> Result<Schema, OutOfMemory>
    ensures { IfOk result (λ s. s ≡ vl_schema) }
{
    Ok(Schema {
        shapes: shapes(alloc)?,
        names: words(alloc)?,
        layouts: layouts(alloc)?,
    })
}
