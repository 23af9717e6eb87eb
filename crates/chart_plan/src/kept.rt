// The fields of channels that selections keep.
ghost use Rattle.std.specs.Prelude.{◌≡◌, ◌==◌, ◌++◌, map, find, option_copied, option_map, option_to_list, IfOk, OnOk};
ghost use Rattle.std.specs.List.{filter_map};
ghost use Rattle.vl_compose.specs.Definitions.{has_own_scale};
ghost use Rattle.vl_compose.specs.Shown.{kind_of, round_shown, unit_shown, view_shown};
ghost use Rattle.chart_plan.specs.Grids.{shown_by};
ghost use Rattle.chart_plan.specs.Selections.{all_of, unscaled, crossed_by, parted_by, kind_parted, or_further_out, facet_channel, is_parting};
ghost use Rattle.chart_plan.specs.Selections.{first_alone, own_definitions, kept_definitions, kept_name, channel_names, names_of_channels};

use crate::orders::{cell_name, field_copied};
use scale_infer::is_binned;
use std::alloc::Global;
use text_kit::{OutOfMemory, Seq, Text};
use vl_compose::{UnitHere, ViewHere, definitions_at};
use vl_normalize::{COLOR, COLUMN, FACET, OPACITY, ROW, SHAPE, SIZE, X, Y};
use vl_spec::{Channel, ChannelKind, ChannelOf, CrossFacet, Definition, Facet, ViewKind};

// Whether a channel of this code has a scale of its own.
fn has_own_scale(code: u16) -> bool
    ensures { result ≡ has_own_scale code }
{
    code == X || code == Y || code == COLOR || code == OPACITY || code == SIZE || code == SHAPE
}

// Whether a channel of this code parts rows.
fn is_parting(code: u16) -> bool
    ensures { result ≡ is_parting code }
{
    code == ROW || (code == COLUMN || code == FACET)
}

// Adds the definitions of a list of channels.
fn push_several<'s>(
    channels: &'s [Channel],
    out: &mut Seq<&'s Definition>,
) -> Result<(), OutOfMemory>
    ensures { OnOk result (map (λ d. d.now) out.new ≡ map (λ d. d.now) out.old ++ map shown_by channels.now) }
{
    for channel in channels {
        out.push(&channel.definition)?;
    }
    Ok(())
}

// Adds the definitions of what stands under the name of a channel.
fn push_all_of<'s>(shows: &'s ChannelKind, out: &mut Seq<&'s Definition>) -> Result<(), OutOfMemory>
    ensures { OnOk result (map (λ d. d.now) out.new ≡ map (λ d. d.now) out.old ++ all_of shows.now) }
{
    match shows {
        ChannelKind::One(channel) => out.push(&channel.definition),
        ChannelKind::Several(channels) => push_several(channels.as_slice(), out),
    }
}

// What stands under the name of a channel among some.
fn channel_among<'s>(channels: &[&'s ChannelOf], code: u16) -> Option<&'s ChannelOf>
    ensures { option_copied result ≡ find (λ c. c.channel == code) (map (λ c. c.now) channels.now) }
{
    for channel in channels {
        if channel.channel == code {
            return Some(*channel);
        }
    }
    None
}

// Adds the definitions of a channel that has no scale.
fn push_unscaled<'s>(
    channels: &[&'s ChannelOf],
    code: u16,
    out: &mut Seq<&'s Definition>,
) -> Result<(), OutOfMemory>
    ensures { OnOk result (map (λ d. d.now) out.new ≡ map (λ d. d.now) out.old ++ unscaled (map (λ c. c.now) channels.now) code) }
{
    match channel_among(channels, code) {
        Some(channel) => push_all_of(&channel.shows, out),
        None => Ok(()),
    }
}

// The field of a facet by rows and columns that parts by it.
fn crossed_by(code: u16, cross: &CrossFacet) -> Option<&Channel>
    ensures { option_copied result ≡ crossed_by code cross.now }
{
    if code == ROW {
        cross.row.as_ref()
    } else if code == COLUMN {
        cross.column.as_ref()
    } else {
        None
    }
}

// The field of a facet that parts by it.
fn parted_by(code: u16, facet: &Facet) -> Option<&Channel>
    ensures { option_copied result ≡ parted_by code facet.now }
{
    match facet {
        Facet::One(channel) => { if code == FACET { Some(channel) } else { None } }
        Facet::Cross(cross) => crossed_by(code, cross),
    }
}

// The same of a view that may be no facet.
fn kind_parted(code: u16, kind: &ViewKind) -> Option<&Channel>
    ensures { option_copied result ≡ kind_parted code (kind_of kind.now) }
{
    match kind {
        ViewKind::Facet(faceted) => parted_by(code, &faceted.facet),
        ViewKind::Unit(_) | ViewKind::Layer(_) | ViewKind::Joined(_) => None,
    }
}

// The field of a view, or else another.
fn or_further_out<'s>(
    code: u16,
    outer: Option<&'s Channel>,
    here: &ViewHere<'s>,
) -> Option<&'s Channel>
    ensures { option_copied result ≡ or_further_out code (option_copied outer.entry) (view_shown here.now) }
{
    match kind_parted(code, &here.view.kind) {
        Some(channel) => Some(channel),
        None => outer,
    }
}

// The field of the innermost facet that has one.
fn facet_channel<'s>(code: u16, round: &[ViewHere<'s>]) -> Option<&'s Channel>
    ensures { option_copied result ≡ facet_channel code (round_shown round.now) }
{
    let mut channel = None;
    for here in round {
        channel = or_further_out(code, channel, here);
    }
    channel
}

// The definition of the innermost such facet.
fn facet_definitions<'s>(
    alloc: Global,
    code: u16,
    round: &[ViewHere<'s>],
) -> Result<Seq<&'s Definition>, OutOfMemory>
    ensures { IfOk result (λ ds. map (λ d. d.now) ds ≡ option_to_list (option_map shown_by (facet_channel code (round_shown round.now)))) }
{
    let mut out = Seq::new(alloc);
    if let Some(channel) = facet_channel(code, round) {
        out.push(&channel.definition)?;
    }
    Ok(out)
}

// The first of several definitions alone.
fn first_alone<'s>(
    alloc: Global,
    definitions: &[&'s Definition],
) -> Result<Seq<&'s Definition>, OutOfMemory>
    ensures { IfOk result (λ ds. map (λ d. d.now) ds ≡ first_alone (map (λ d. d.now) definitions.now)) }
{
    let mut out = Seq::new(alloc);
    if let [first, ..] = definitions {
        out.push(*first)?;
    }
    Ok(out)
}

// The definitions of a channel without facets.
fn own_definitions<'s>(
    alloc: Global,
    code: u16,
    unit: &UnitHere<'s>,
) -> Result<Seq<&'s Definition>, OutOfMemory>
    ensures { IfOk result (λ ds. map (λ d. d.now) ds ≡ own_definitions code (unit_shown unit.now)) }
{
    if has_own_scale(code) {
        let definitions = definitions_at(alloc, unit.channels.as_slice(), code)?;
        first_alone(alloc, definitions.as_slice())
    } else {
        let mut out = Seq::new(alloc);
        push_unscaled(unit.channels.as_slice(), code, &mut out)?;
        Ok(out)
    }
}

// The definitions of a channel of a unit whose fields a selection keeps.
fn kept_definitions<'s>(
    alloc: Global,
    code: u16,
    unit: &UnitHere<'s>,
) -> Result<Seq<&'s Definition>, OutOfMemory>
    ensures { IfOk result (λ ds. map (λ d. d.now) ds ≡ kept_definitions code (unit_shown unit.now)) }
{
    if is_parting(code) {
        facet_definitions(alloc, code, unit.round.as_slice())
    } else {
        own_definitions(alloc, code, unit)
    }
}

// The name under which a definition's field is kept.
fn kept_name(
    alloc: Global,
    interval: bool,
    code: u16,
    definition: &Definition,
) -> Result<Option<Text>, OutOfMemory>
    ensures { IfOk result (λ name. name ≡ kept_name interval code definition.now) }
{
    if interval && is_binned(definition) {
        field_copied(definition)
    } else {
        cell_name(alloc, code, definition)
    }
}

// Adds a name, if there is one.
fn push_name(name: Option<Text>, out: &mut Seq<Text>) -> Result<(), OutOfMemory>
    ensures { OnOk result (out.new ≡ out.old ++ option_to_list name) }
{
    match name {
        Some(name) => out.push(name),
        None => Ok(()),
    }
}

// Adds the names of definitions.
fn push_names(
    alloc: Global,
    interval: bool,
    code: u16,
    definitions: &[&Definition],
    out: &mut Seq<Text>,
) -> Result<(), OutOfMemory>
    ensures { OnOk result (out.new ≡ out.old ++ filter_map (kept_name interval code) (map (λ d. d.now) definitions.now)) }
{
    for definition in definitions {
        push_name(kept_name(alloc, interval, code, definition)?, out)?;
    }
    Ok(())
}

/// Adds the names of a channel of a unit.
pub(crate) fn push_channel_names(
    alloc: Global,
    interval: bool,
    unit: &UnitHere,
    code: u16,
    out: &mut Seq<Text>,
) -> Result<(), OutOfMemory>
    ensures { OnOk result (out.new ≡ out.old ++ channel_names interval (unit_shown unit.now) code) }
{
    let definitions = kept_definitions(alloc, code, unit)?;
    push_names(alloc, interval, code, definitions.as_slice(), out)
}

/// The names of some channels of a unit.
pub(crate) fn names_of_channels(
    alloc: Global,
    interval: bool,
    unit: &UnitHere,
    codes: &[u16],
) -> Result<Seq<Text>, OutOfMemory>
    ensures { IfOk result (λ names. names ≡ names_of_channels interval (unit_shown unit.now) codes.now) }
{
    let mut out = Seq::new(alloc);
    for code in codes {
        push_channel_names(alloc, interval, unit, *code, &mut out)?;
    }
    Ok(out)
}
