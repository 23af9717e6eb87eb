// What an interval keeps: the drags of a selection.
ghost use Rattle.std.specs.Prelude.{◌≡◌, ◌==◌, ◌++◌, [], option_map, option_to_list, IfOk, OnOk};
ghost use Rattle.std.specs.Option.{option_map_or};
ghost use Rattle.std.specs.List.{filter_map, list_any};
ghost use Rattle.vl_compose.specs.Shown.{unit_shown};
ghost use Rattle.chart_plan.specs.Plots.{with_number};
ghost use Rattle.chart_plan.specs.Selections.{type_in, is_interval, channels_said, first_name, channels_once, drag_channels, both_places};
ghost use Rattle.chart_plan.specs.Selections.{place_word, drag_with, drag_of, dragged};
ghost use Rattle.chart_plan.specs.inner.Marked.{unit_there, first_at};

use crate::kept::push_channel_names;
use crate::selections::{channels_said, first_name, first_unit, is_interval, type_in};
use selection_events::DragOf;
use std::alloc::Global;
use text_kit::{OutOfMemory, Seq, Text};
use vl_compose::UnitHere;
use vl_normalize::{X, Y};
use vl_spec::Select;

// X and y.
fn both_places(alloc: Global) -> Result<Seq<u16>, OutOfMemory>
    ensures { IfOk result (λ codes. codes ≡ both_places) }
{
    Seq::from_slice(alloc, &[X, Y])
}

// Whether a channel is there.
fn has_channel(channels: &[u16], channel: u16) -> bool
    ensures { result ≡ list_any (λ m. m == channel) channels.now }
{
    for one in channels {
        if *one == channel {
            return true;
        }
    }
    false
}

// Adds a channel, unless it is there.
fn push_channel(channels: &mut Seq<u16>, channel: u16) -> Result<(), OutOfMemory>
    ensures { OnOk result (channels.new ≡ with_number channels.old channel) }
{
    if has_channel(channels.as_slice(), channel) {
        Ok(())
    } else {
        channels.push(channel)
    }
}

// Channels, each where it stands first. Few differ, so that looking for one is short.
fn channels_once(alloc: Global, channels: &[u16]) -> Result<Seq<u16>, OutOfMemory>
    ensures { IfOk result (λ once. once ≡ channels_once channels.now) }
{
    let mut once = Seq::new(alloc);
    for channel in channels {
        push_channel(&mut once, *channel)?;
    }
    Ok(once)
}

// The channels of a drag.
pub(crate) fn drag_channels(alloc: Global, select: &Select) -> Result<Seq<u16>, OutOfMemory>
    ensures { IfOk result (λ codes. codes ≡ drag_channels select.now) }
{
    if is_interval(type_in(select)) {
        match channels_said(select) {
            Some(channels) => channels_once(alloc, channels.as_slice()),
            None => both_places(alloc),
        }
    } else {
        Ok(Seq::new(alloc))
    }
}

// The name of a place.
fn place_word(code: u16) -> Option<&'static str>
    ensures { option_map (λ w. w.now) result ≡ place_word code }
{
    if code == X {
        Some("x")
    } else if code == Y {
        Some("y")
    } else {
        None
    }
}

// A channel of a drag, where it shows a field.
fn drag_with(alloc: Global, field: &Text, code: u16) -> Result<Option<DragOf>, OutOfMemory>
    ensures { IfOk result (λ drag. drag ≡ option_map (drag_with field.now) (place_word code)) }
{
    match place_word(code) {
        Some(word) => {
            let channel = Text::of(alloc, word)?;
            let field = field.copy()?;
            Ok(Some(DragOf { channel, field }))
        }
        None => Ok(None),
    }
}

// The channel of a drag of a unit.
#[tactic(auto, unfolding(crate::specs::Selections::drag_of))]
fn drag_of(alloc: Global, unit: &UnitHere, code: u16) -> Result<Option<DragOf>, OutOfMemory>
    ensures { IfOk result (λ drag. drag ≡ drag_of (unit_shown unit.now) code) }
{
    let mut names = Seq::new(alloc);
    push_channel_names(alloc, true, unit, code, &mut names)?;
    match first_name(names.as_slice()) {
        Some(field) => drag_with(alloc, field, code),
        None => Ok(None),
    }
}

// Adds the channel of a drag.
fn push_drag(
    alloc: Global,
    unit: &UnitHere,
    code: u16,
    out: &mut Seq<DragOf>,
) -> Result<(), OutOfMemory>
    ensures { OnOk result (out.new ≡ out.old ++ option_to_list (drag_of (unit_shown unit.now) code)) }
{
    match drag_of(alloc, unit, code)? {
        Some(drag) => out.push(drag),
        None => Ok(()),
    }
}

// The channels of a drag of a unit.
fn unit_dragged(alloc: Global, unit: &UnitHere, codes: &[u16]) -> Result<Seq<DragOf>, OutOfMemory>
    ensures { IfOk result (λ drags. drags ≡ filter_map (drag_of (unit_shown unit.now)) codes.now) }
{
    let mut out = Seq::new(alloc);
    for code in codes {
        push_drag(alloc, unit, *code, &mut out)?;
    }
    Ok(out)
}

// Those of the first unit at some places, along some channels.
fn dragged_along(
    alloc: Global,
    units: &[UnitHere],
    places: &[usize],
    codes: &[u16],
) -> Result<Seq<DragOf>, OutOfMemory>
    ensures { IfOk result (λ drags. drags
        ≡ option_map_or (λ u. filter_map (drag_of u) codes.now) (first_at (unit_there units.now) places.now) []) }
{
    match first_unit(units, places) {
        Some(unit) => unit_dragged(alloc, unit, codes),
        None => Ok(Seq::new(alloc)),
    }
}

// Those of the first unit at some places.
pub(crate) fn dragged(
    alloc: Global,
    select: &Select,
    units: &[UnitHere],
    places: &[usize],
) -> Result<Seq<DragOf>, OutOfMemory>
    ensures { IfOk result (λ drags. drags ≡ dragged select.now (first_at (unit_there units.now) places.now)) }
{
    let codes = drag_channels(alloc, select)?;
    dragged_along(alloc, units, places, codes.as_slice())
}
