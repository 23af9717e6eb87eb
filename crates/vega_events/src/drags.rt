// Drags on selections of a Vega chart.
ghost use Rattle.std.specs.Prelude.{◌≡◌, ℕ, map, IfOk, All, option_copied};
ghost use Rattle.scale_kit.specs.Scale.{AreScales};
ghost use Rattle.selection_events.specs.Drags.{HasScale};
ghost use Rattle.selection_events.specs.Events.{channel_here as channel_in, dragged_over};
ghost use Rattle.vega_events.specs.Scales.{inverted_by as scale_by};

use crate::scales::inverted_by;
use cell_value::StoreOf;
use scale_kit::{Scale, ScaleSet};
use scene_tree::Panel;
use selection_events::{ChannelHere, Drag, DragOf, store_dragged};
use std::alloc::Global;
use text_kit::{OutOfMemory, Seq};
use vega_selections::VgSelection;

// A copy of a scale, if there is one.
fn copied(alloc: Global, s: Option<&Scale>) -> Result<Option<Scale>, OutOfMemory>
    ensures { IfOk result (λ copy. copy ≡ option_copied s.entry) }
{
    match s {
        Some(s) => Ok(Some(s.copy(alloc)?)),
        None => Ok(None),
    }
}

// A channel of a selection in the panel of an index.
fn channel_here(
    alloc: Global,
    set: &ScaleSet,
    v: &VgSelection,
    index: usize,
    d: &DragOf,
) -> Result<ChannelHere, OutOfMemory>
    ensures { IfOk result (λ c. c ≡ channel_in (scale_by set.now v.now) index v.now.selection d.now) }
{
    let scale = copied(alloc, inverted_by(set, v, index, d.channel.as_str()))?;
    Ok(ChannelHere {
        channel: d.channel.copy()?,
        field: d.field.copy()?,
        scale,
    })
}

// The channels of a selection in the panel of an index.
fn channels_here(
    alloc: Global,
    set: &ScaleSet,
    v: &VgSelection,
    index: usize,
) -> Result<Seq<ChannelHere>, OutOfMemory>
    ensures { IfOk result (λ cs. cs ≡ map (channel_in (scale_by set.now v.now) index v.now.selection) v.now.selection.drag) }
{
    let drag = v.selection.drag.as_slice();
    let mut out = Seq::with_capacity(alloc, drag.len())?;
    for d in drag {
        out.push(channel_here(alloc, set, v, index, d)?)?;
    }
    Ok(out)
}

// The store of a selection after a drag over these channels.
fn dragged_over(
    alloc: Global,
    d: Drag,
    v: &VgSelection,
    panel: &Panel,
    least: u32,
    store: &StoreOf,
    channels: &[ChannelHere],
) -> Result<StoreOf, OutOfMemory>
    requires { All HasScale channels.now }
    ensures { IfOk result (λ after. (index : ℕ) → after
        ≡ dragged_over d v.now.selection (index, panel.now) least store.now channels.now) }
{
    if channels.is_empty() {
        store.copy(alloc)
    } else {
        store_dragged(alloc, v.selection.name.as_str(), panel, least, d, channels)
    }
}

/// The store of a selection that concerns the panel of an index after a drag that begins there.
#[tactic(auto, using(crate::proofs::ScaleLemmas::channels_have_scales))]
pub(crate) fn dragged(
    alloc: Global,
    set: &ScaleSet,
    v: &VgSelection,
    index: usize,
    panel: &Panel,
    least: u32,
    d: Drag,
    store: &StoreOf,
) -> Result<StoreOf, OutOfMemory>
    requires { AreScales set.now }
    ensures { IfOk result (λ after. after ≡ dragged_over d v.now.selection (index, panel.now) least store.now
        (map (channel_in (scale_by set.now v.now) index v.now.selection) v.now.selection.drag)) }
{
    let channels = channels_here(alloc, set, v, index)?;
    dragged_over(alloc, d, v, panel, least, store, channels.as_slice())
}
