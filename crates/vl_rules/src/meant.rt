//! What selections over channels mean in units.
ghost use Rattle.std.specs.Prelude.{◌≡◌, ◌++◌, filter_map, flat_map, map, option_to_list, IfOk, OnOk};
ghost use Rattle.std.specs.Option.{option_copied};
ghost use Rattle.std.specs.List.{list_any};
ghost use Rattle.vl_normalize.specs.Facets.{is_facet};
ghost use Rattle.vl_compose.specs.Shown.{kind_of, round_shown};
ghost use Rattle.scale_infer.specs.Types.{is_aggregated as is_aggregated_definition};
ghost use Rattle.vl_rules.specs.Parts.{facet_part, view_part, own_part, round_parts, own_of, owns_of, owns_at, innermost, meant};
ghost use Rattle.vl_rules.specs.Parts.{has_source, all_of, kind_definitions, shows_aggregate};
ghost use Rattle.vl_rules.specs.inner.Held.{all_of_conditions, all_of_condition};
ghost use Rattle.vl_rules.specs.inner.Shown.{marked_shown, part_shown};

use crate::marked::Marked;
use crate::parts::Part;
use crate::units::has_channel;
use scale_infer::is_aggregated;
use std::alloc::Global;
use text_kit::{OutOfMemory, Seq};
use vl_compose::ViewHere;
use vl_normalize::{COLUMN, FACET, ROW, shown};
use vl_spec::{
    Channel, ChannelKind, ChannelOf, Condition, Conditions, Definition, Facet, ViewKind,
};

// Whether a channel of this code parts rows.
fn is_facet(code: u16) -> bool
    ensures { result ≡ is_facet code }
{
    code == ROW || code == COLUMN || code == FACET
}

// The definition of the rows, the columns or the panels of a facet.
fn facet_part(code: u16, facet: &Facet) -> Option<&Channel>
    ensures { option_copied result ≡ facet_part code facet.now }
{
    match facet {
        Facet::One(channel) => { if code == FACET { Some(channel) } else { None } }
        Facet::Cross(of) => {
            if code == ROW {
                of.row.as_ref()
            } else if code == COLUMN {
                of.column.as_ref()
            } else {
                None
            }
        }
    }
}

// The same of a view.
fn view_part(code: u16, kind: &ViewKind) -> Option<&Channel>
    ensures { option_copied result ≡ view_part code (kind_of kind.now) }
{
    match kind {
        ViewKind::Facet(faceted) => facet_part(code, &faceted.facet),
        ViewKind::Unit(_) | ViewKind::Layer(_) | ViewKind::Joined(_) => None,
    }
}

// The same among the channels of a unit.
fn own_part<'s>(code: u16, channels: &[&'s ChannelOf]) -> Option<&'s Channel>
    ensures { option_copied result ≡ own_part code (map (λ c. c.now) channels.now) }
{
    if code == FACET && (has_channel(channels, ROW) || has_channel(channels, COLUMN)) {
        None
    } else {
        shown(channels, code)
    }
}

// Adds a channel, if there is one.
fn push_some<'s>(
    channel: Option<&'s Channel>,
    out: &mut Seq<&'s Channel>,
) -> Result<(), OutOfMemory>
    ensures { OnOk result (map (λ c. c.now) out.new ≡ map (λ c. c.now) out.old ++ option_to_list (option_copied channel.entry)) }
{
    match channel {
        Some(channel) => out.push(channel),
        None => Ok(()),
    }
}

// Adds those of the facets among some views, from the first on.
fn push_round<'s>(
    code: u16,
    round: &[ViewHere<'s>],
    out: &mut Seq<&'s Channel>,
) -> Result<(), OutOfMemory>
    ensures { OnOk result (map (λ c. c.now) out.new
        ≡ map (λ c. c.now) out.old ++ filter_map (λ v. view_part code v.kind) (round_shown round.now)) }
{
    for here in round {
        push_some(view_part(code, &here.view.kind), out)?;
    }
    Ok(())
}

/// The definitions of rows, columns or panels of the facets round a unit, from the outside in.
pub fn round_parts<'s>(
    alloc: Global,
    code: u16,
    unit: &Marked<'s>,
) -> Result<Seq<&'s Channel>, OutOfMemory>
    ensures { IfOk result (λ parts. map (λ c. c.now) parts ≡ round_parts code (marked_shown unit.now)) }
{
    let mut out = Seq::new(alloc);
    push_round(code, unit.round.as_slice(), &mut out)?;
    push_some(own_part(code, unit.channels.as_slice()), &mut out)?;
    Ok(out)
}

// The last of some channels.
fn last_of<'s>(channels: &[&'s Channel]) -> Option<&'s Channel>
    ensures { option_copied result ≡ innermost (map (λ c. c.now) channels.now) }
{
    let mut last = None;
    for channel in channels {
        last = Some(*channel);
    }
    last
}

// Adds what a channel shows where no condition holds, if there is a channel.
fn push_own<'s>(
    channel: Option<&'s Channel>,
    out: &mut Seq<&'s Definition>,
) -> Result<(), OutOfMemory>
    ensures { OnOk result (map (λ d. d.now) out.new
        ≡ map (λ d. d.now) out.old ++ map own_of (option_to_list (option_copied channel.entry))) }
{
    match channel {
        Some(channel) => out.push(&channel.definition),
        None => Ok(()),
    }
}

// Adds what each of some channels shows where no condition holds.
fn push_each_own<'s>(
    channels: &'s [Channel],
    out: &mut Seq<&'s Definition>,
) -> Result<(), OutOfMemory>
    ensures { OnOk result (map (λ d. d.now) out.new ≡ map (λ d. d.now) out.old ++ map own_of channels.now) }
{
    for channel in channels {
        out.push(&channel.definition)?;
    }
    Ok(())
}

// Adds the own definitions of what a channel shows.
fn push_owns<'s>(shows: &'s ChannelKind, out: &mut Seq<&'s Definition>) -> Result<(), OutOfMemory>
    ensures { OnOk result (map (λ d. d.now) out.new ≡ map (λ d. d.now) out.old ++ owns_of shows.now) }
{
    match shows {
        ChannelKind::One(channel) => out.push(&channel.definition),
        ChannelKind::Several(channels) => push_each_own(channels.as_slice(), out),
    }
}

// The own definitions of what a channel shows.
fn owns_of<'s>(alloc: Global, shows: &'s ChannelKind) -> Result<Seq<&'s Definition>, OutOfMemory>
    ensures { IfOk result (λ ds. map (λ d. d.now) ds ≡ owns_of shows.now) }
{
    let mut out = Seq::new(alloc);
    push_owns(shows, &mut out)?;
    Ok(out)
}

// Those of the channel of a code.
fn owns_at<'s>(
    alloc: Global,
    channels: &[&'s ChannelOf],
    code: u16,
) -> Result<Seq<&'s Definition>, OutOfMemory>
    ensures { IfOk result (λ ds. map (λ d. d.now) ds ≡ owns_at (map (λ c. c.now) channels.now) code) }
{
    for channel in channels {
        if channel.channel == code {
            return owns_of(alloc, &channel.shows);
        }
    }
    Ok(Seq::new(alloc))
}

// That of the innermost facet round a unit which has such.
fn of_facet<'s>(
    alloc: Global,
    code: u16,
    unit: &Marked<'s>,
) -> Result<Seq<&'s Definition>, OutOfMemory>
    ensures { IfOk result (λ ds. map (λ d. d.now) ds
        ≡ map own_of (option_to_list (innermost (round_parts code (marked_shown unit.now))))) }
{
    let parts = round_parts(alloc, code, unit)?;
    let mut out = Seq::new(alloc);
    push_own(last_of(parts.as_slice()), &mut out)?;
    Ok(out)
}

/// What a selection over the channel of a code means in a unit.
pub fn meant<'s>(
    alloc: Global,
    code: u16,
    part: &Part<'s>,
) -> Result<Seq<&'s Definition>, OutOfMemory>
    ensures { IfOk result (λ ds. map (λ d. d.now) ds ≡ meant code (part_shown part.now)) }
{
    if is_facet(code) {
        of_facet(alloc, code, &part.unit)
    } else {
        owns_at(alloc, part.channels.as_slice(), code)
    }
}

// Whether a definition has a field or an aggregate.
fn has_source(definition: &Definition) -> bool
    ensures { result ≡ has_source definition.now }
{
    match definition {
        Definition::Field(of) => of.field.is_some() || of.aggregate.is_some(),
        Definition::Value(_) | Definition::Datum(_) => false,
    }
}

/// Whether one of some definitions has a field or an aggregate.
pub fn any_has_source(definitions: &[&Definition]) -> bool
    ensures { result ≡ list_any has_source (map (λ d. d.now) definitions.now) }
{
    for definition in definitions {
        if has_source(definition) {
            return true;
        }
    }
    false
}

// Adds all definitions of a channel.
#[cycle(definitions)]
fn push_channel<'s>(channel: &'s Channel, out: &mut Seq<&'s Definition>) -> Result<(), OutOfMemory>
    ensures { OnOk result (map (λ d. d.now) out.new ≡ map (λ d. d.now) out.old ++ all_of channel.now) }
{
    out.push(&channel.definition)?;
    match &channel.condition {
        Some(conditions) => push_conditions(conditions, out),
        None => Ok(()),
    }
}

// Adds those of conditions.
#[cycle(definitions)]
fn push_conditions<'s>(
    conditions: &'s Conditions,
    out: &mut Seq<&'s Definition>,
) -> Result<(), OutOfMemory>
    ensures { OnOk result (map (λ d. d.now) out.new ≡ map (λ d. d.now) out.old ++ all_of_conditions conditions.now) }
{
    match conditions {
        Conditions::One(condition) => push_channel(&condition.get().shows, out),
        Conditions::Several(conditions) => push_each(conditions, out),
    }
}

// Adds those of each of some conditions.
#[cycle(definitions)]
fn push_each<'s>(
    conditions: &'s Seq<Condition>,
    out: &mut Seq<&'s Definition>,
) -> Result<(), OutOfMemory>
    ensures { OnOk result (map (λ d. d.now) out.new ≡ map (λ d. d.now) out.old ++ flat_map all_of_condition conditions.now) }
{
    for condition in conditions.as_slice() {
        push_channel(&condition.shows, out)?;
    }
    Ok(())
}

// Adds all definitions of each of some channels.
fn push_several<'s>(
    channels: &'s [Channel],
    out: &mut Seq<&'s Definition>,
) -> Result<(), OutOfMemory>
    ensures { OnOk result (map (λ d. d.now) out.new ≡ map (λ d. d.now) out.old ++ flat_map all_of channels.now) }
{
    for channel in channels {
        push_channel(channel, out)?;
    }
    Ok(())
}

// Adds all definitions of what a channel shows.
fn push_kind<'s>(shows: &'s ChannelKind, out: &mut Seq<&'s Definition>) -> Result<(), OutOfMemory>
    ensures { OnOk result (map (λ d. d.now) out.new ≡ map (λ d. d.now) out.old ++ kind_definitions shows.now) }
{
    match shows {
        ChannelKind::One(channel) => push_channel(channel, out),
        ChannelKind::Several(channels) => push_several(channels.as_slice(), out),
    }
}

/// All definitions of what a channel shows, those of its conditions too.
pub fn kind_definitions<'s>(
    alloc: Global,
    shows: &'s ChannelKind,
) -> Result<Seq<&'s Definition>, OutOfMemory>
    ensures { IfOk result (λ ds. map (λ d. d.now) ds ≡ kind_definitions shows.now) }
{
    let mut out = Seq::new(alloc);
    push_kind(shows, &mut out)?;
    Ok(out)
}

// Whether one of some definitions shows an aggregate.
fn any_is_aggregated(definitions: &[&Definition]) -> bool
    ensures { result ≡ list_any is_aggregated_definition (map (λ d. d.now) definitions.now) }
{
    for definition in definitions {
        if is_aggregated(definition) {
            return true;
        }
    }
    false
}

// Whether a channel shows an aggregate.
fn shows_aggregate(alloc: Global, channel: &ChannelOf) -> Result<bool, OutOfMemory>
    ensures { IfOk result (λ shows. shows ≡ shows_aggregate channel.now) }
{
    let definitions = kind_definitions(alloc, &channel.shows)?;
    Ok(any_is_aggregated(definitions.as_slice()))
}

/// Whether one of some channels shows an aggregate.
pub fn any_shows_aggregate(alloc: Global, channels: &[&ChannelOf]) -> Result<bool, OutOfMemory>
    ensures { IfOk result (λ any. any ≡ list_any shows_aggregate (map (λ c. c.now) channels.now)) }
{
    for channel in channels {
        if shows_aggregate(alloc, channel)? {
            return Ok(true);
        }
    }
    Ok(false)
}
