//! The schema of Vega specifications.
ghost use Rattle.std.specs.Prelude.{◌≡◌, ◌++◌, IfOk, OnOk};
ghost use Rattle.vega_schema.specs.Schema.{first_layouts, later_layouts, last_layouts, layouts, vega_schema};

use crate::channels::push_channels;
use crate::domains::push_domains;
use crate::groupings::push_groupings;
use crate::guides::push_guides;
use crate::marks::push_marks;
use crate::plain_marks::push_plain_marks;
use crate::scales::push_scales;
use crate::shapes::shapes;
use crate::signals::push_signals;
use crate::sizes::push_sizes;
use crate::sources::push_sources;
use crate::transforms::push_transforms;
use crate::words::words;
use spec_schema::{Layout, Schema};
use std::alloc::Global;
use text_kit::{OutOfMemory, Seq};

// Adds some of the layouts.
fn first_layouts(alloc: Global, out: &mut Seq<Layout>) -> Result<(), OutOfMemory>
    ensures { OnOk result (out.new ≡ out.old ++ first_layouts) }
{
    push_guides(alloc, out)?;
    push_sources(alloc, out)?;
    push_transforms(alloc, out)
}

// Adds some of the layouts.
fn later_layouts(alloc: Global, out: &mut Seq<Layout>) -> Result<(), OutOfMemory>
    ensures { OnOk result (out.new ≡ out.old ++ later_layouts) }
{
    push_groupings(alloc, out)?;
    push_signals(alloc, out)?;
    push_scales(alloc, out)
}

// Adds some of the layouts.
fn last_layouts(alloc: Global, out: &mut Seq<Layout>) -> Result<(), OutOfMemory>
    ensures { OnOk result (out.new ≡ out.old ++ last_layouts) }
{
    push_domains(alloc, out)?;
    push_plain_marks(alloc, out)?;
    push_marks(alloc, out)?;
    push_channels(alloc, out)?;
    push_sizes(alloc, out)
}

// The layouts of all objects.
fn layouts(alloc: Global) -> Result<Seq<Layout>, OutOfMemory>
    ensures { IfOk result (λ l. l ≡ layouts) }
{
    let mut out = Seq::new(alloc);
    first_layouts(alloc, &mut out)?;
    later_layouts(alloc, &mut out)?;
    last_layouts(alloc, &mut out)?;
    Ok(out)
}

/// The rules of Vega specifications.
#[tactic(auto, unfolding(crate::specs::Schema::vega_schema))]
pub fn vega_schema(alloc: Global) -> Result<Schema, OutOfMemory>
    ensures { IfOk result (λ s. s ≡ vega_schema) }
{
    Ok(Schema {
        shapes: shapes(alloc)?,
        names: words(alloc)?,
        layouts: layouts(alloc)?,
    })
}
