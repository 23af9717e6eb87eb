//! What the units of a specification have that selections may keep.
ghost use Rattle.std.specs.Prelude.{◌≡◌, ◌++◌, filter_map, flat_map, map, option_to_list, IfOk, OnOk};
ghost use Rattle.vl_compose.specs.Shown.{round_shown};
ghost use Rattle.vl_rules.specs.Offers.{asked_of, asked_at, channel_groups, facet_groups, group_names, row_names, kept_by_default};
ghost use Rattle.vl_rules.specs.Offers.{spot_among, offer_among, offers_among};
ghost use Rattle.vl_rules.specs.Parts.{own_of, parts_of};
ghost use Rattle.vl_rules.specs.inner.Shown.{marked_shown, part_shown};

use crate::marked::Marked;
use crate::meant::{any_has_source, any_shows_aggregate, kind_definitions, meant, round_parts};
use crate::named::{extents_of, names_of, push_all_groups};
use crate::parts::{Part, parts_among};
use crate::standings::{Home, Standing, all_on_line, home_at, on_line, standings};
use spec_walk::Step;
use std::alloc::Global;
use text_kit::{OutOfMemory, Seq, Text};
use vl_compose::{ViewHere, plot_of};
use vl_names::copied_trail;
use vl_normalize::{COLOR, COLUMN, DETAIL, FACET, OPACITY, ROW, SHAPE, SIZE, TEXT, X, X2, Y, Y2};
use vl_spec::{Channel, ChannelOf, Definition};

/// What a selection over a channel keeps of a unit.
pub struct Asked {
    /// Whether there is a field or an aggregate.
    pub sourced: bool,
    /// The names under which a point keeps it.
    pub names: Seq<Text>,
    /// Those under which an interval does.
    pub extents: Seq<Text>,
}

/// A place of a unit, as intervals see it.
#[derive(Clone, Copy)]
pub struct OfferedPlace {
    /// Up to where its scale is shared.
    pub home: Home,
    /// Whether an interval may span it.
    pub spans: bool,
}

/// A unit, as selections see it.
pub struct Offer {
    /// The steps that lead to it.
    pub trail: Seq<Step>,
    /// The names of the views round it, and its own.
    pub names: Seq<Text>,
    /// The number of its plot among all views.
    pub plot: usize,
    /// Its x.
    pub x: OfferedPlace,
    /// Its y.
    pub y: OfferedPlace,
    /// What a point keeps that says neither fields nor channels.
    pub kept: Seq<Text>,
    /// What it has for each channel, in the order of their codes.
    pub asked: Seq<Asked>,
}

impl Drop for Asked {
    fn drop(self) {
        let Asked {
            sourced: _,
            names: _,
            extents: _,
        } = self;
    }
}

impl Drop for Offer {
    fn drop(self) {
        let Offer {
            trail: _,
            names: _,
            plot: _,
            x: _,
            y: _,
            kept: _,
            asked: _,
        } = self;
    }
}

/// The codes of all channels.
pub const CHANNEL_CODES: [u16; 13] = [
    X, Y, X2, Y2, COLOR, OPACITY, SIZE, SHAPE, DETAIL, TEXT, ROW, COLUMN, FACET,
];

// Those of channels that part rows.
const FACET_CODES: [u16; 3] = [ROW, COLUMN, FACET];

// What a selection over a channel of some definitions keeps.
fn asked_of(alloc: Global, code: u16, definitions: &[&Definition]) -> Result<Asked, OutOfMemory>
    ensures { IfOk result (λ asked. asked ≡ asked_of code (map (λ d. d.now) definitions.now)) }
{
    let names = names_of(alloc, code, definitions)?;
    let extents = extents_of(alloc, code, definitions)?;
    Ok(Asked {
        sourced: any_has_source(definitions),
        names,
        extents,
    })
}

// What a selection over the channel of a code keeps of a unit.
fn asked_at(alloc: Global, part: &Part, code: u16) -> Result<Asked, OutOfMemory>
    ensures { IfOk result (λ asked. asked ≡ asked_at (part_shown part.now) code) }
{
    let definitions = meant(alloc, code, part)?;
    asked_of(alloc, code, definitions.as_slice())
}

// The same for some channels.
fn asked_for_all(alloc: Global, part: &Part, codes: &[u16]) -> Result<Seq<Asked>, OutOfMemory>
    ensures { IfOk result (λ all. all ≡ map (asked_at (part_shown part.now)) codes.now) }
{
    let mut all = Seq::new(alloc);
    for code in codes {
        all.push(asked_at(alloc, part, *code)?)?;
    }
    Ok(all)
}

// Adds the names by which a channel groups rows.
fn push_channel_groups(
    alloc: Global,
    channel: &ChannelOf,
    out: &mut Seq<Text>,
) -> Result<(), OutOfMemory>
    ensures { OnOk result (out.new ≡ out.old ++ channel_groups channel.now) }
{
    let definitions = kind_definitions(alloc, &channel.shows)?;
    push_all_groups(alloc, channel.channel, definitions.as_slice(), out)
}

// Adds those by which some channels do.
fn push_channels_groups(
    alloc: Global,
    channels: &[&ChannelOf],
    out: &mut Seq<Text>,
) -> Result<(), OutOfMemory>
    ensures { OnOk result (out.new ≡ out.old ++ flat_map channel_groups (map (λ c. c.now) channels.now)) }
{
    for channel in channels {
        push_channel_groups(alloc, channel, out)?;
    }
    Ok(())
}

// What some channels show where no condition holds.
fn owns<'s>(alloc: Global, channels: &[&'s Channel]) -> Result<Seq<&'s Definition>, OutOfMemory>
    ensures { IfOk result (λ ds. map (λ d. d.now) ds ≡ map own_of (map (λ c. c.now) channels.now)) }
{
    let mut out = Seq::new(alloc);
    for channel in channels {
        out.push(&channel.definition)?;
    }
    Ok(out)
}

// Adds the names by which the facets round a unit group rows.
fn push_facet_groups(
    alloc: Global,
    unit: &Marked,
    code: u16,
    out: &mut Seq<Text>,
) -> Result<(), OutOfMemory>
    ensures { OnOk result (out.new ≡ out.old ++ facet_groups (marked_shown unit.now) code) }
{
    let parts = round_parts(alloc, code, unit)?;
    let definitions = owns(alloc, parts.as_slice())?;
    push_all_groups(alloc, code, definitions.as_slice(), out)
}

// The same for rows, columns and panels.
fn push_facets_groups(
    alloc: Global,
    unit: &Marked,
    codes: &[u16],
    out: &mut Seq<Text>,
) -> Result<(), OutOfMemory>
    ensures { OnOk result (out.new ≡ out.old ++ flat_map (facet_groups (marked_shown unit.now)) codes.now) }
{
    for code in codes {
        push_facet_groups(alloc, unit, *code, out)?;
    }
    Ok(())
}

// All names by which an aggregated unit groups its rows.
fn group_names(alloc: Global, part: &Part) -> Result<Seq<Text>, OutOfMemory>
    ensures { IfOk result (λ names. names ≡ group_names (part_shown part.now)) }
{
    let mut out = Seq::new(alloc);
    push_channels_groups(alloc, part.channels.as_slice(), &mut out)?;
    push_facets_groups(alloc, &part.unit, &FACET_CODES, &mut out)?;
    Ok(out)
}

// The name of the row itself.
fn row_name(alloc: Global) -> Result<Seq<Text>, OutOfMemory>
    ensures { IfOk result (λ names. names ≡ row_names) }
{
    let mut out = Seq::new(alloc);
    out.push(Text::of(alloc, "_vgsid_")?)?;
    Ok(out)
}

// What a point keeps of a unit that says neither fields nor channels.
fn kept_by_default(alloc: Global, part: &Part) -> Result<Seq<Text>, OutOfMemory>
    ensures { IfOk result (λ names. names ≡ kept_by_default (part_shown part.now)) }
{
    if any_shows_aggregate(alloc, part.channels.as_slice())? {
        group_names(alloc, part)
    } else {
        row_name(alloc)
    }
}

// A copy of a name.
fn push_copy(name: &Option<Text>, out: &mut Seq<Text>) -> Result<(), OutOfMemory>
    ensures { OnOk result (out.new ≡ out.old ++ option_to_list name.now) }
{
    match name {
        Some(name) => out.push(name.copy()?),
        None => Ok(()),
    }
}

// The names of some views.
fn view_names(alloc: Global, round: &[ViewHere]) -> Result<Seq<Text>, OutOfMemory>
    ensures { IfOk result (λ names. names ≡ filter_map (λ v. v.name) (round_shown round.now)) }
{
    let mut names = Seq::new(alloc);
    for here in round {
        push_copy(&here.view.name, &mut names)?;
    }
    Ok(names)
}

// A place of a unit, by how all units stand to the scales of the channel.
fn spot_at(
    alloc: Global,
    code: u16,
    standings: &[Standing],
    part: &Part,
) -> Result<OfferedPlace, OutOfMemory>
    ensures { IfOk result (λ spot. spot ≡ spot_among code standings.now (part_shown part.now)) }
{
    let definitions = meant(alloc, code, part)?;
    let home = home_at(code, part);
    Ok(OfferedPlace {
        home,
        spans: all_on_line(definitions.as_slice()) && on_line(standings, home),
    })
}

// A unit as selections see it, by how all units stand to the scales of x and of y.
fn offer_at(
    alloc: Global,
    across: &[Standing],
    down: &[Standing],
    part: &Part,
) -> Result<Offer, OutOfMemory>
    ensures { IfOk result (λ offer. offer ≡ offer_among across.now down.now (part_shown part.now)) }
{
    let x = spot_at(alloc, X, across, part)?;
    let y = spot_at(alloc, Y, down, part)?;
    let plot = plot_of(part.unit.round.as_slice());
    let trail = copied_trail(alloc, part.unit.trail.as_slice())?;
    let names = view_names(alloc, part.unit.round.as_slice())?;
    let kept = kept_by_default(alloc, part)?;
    let asked = asked_for_all(alloc, part, &CHANNEL_CODES)?;
    Ok(Offer {
        trail,
        names,
        plot,
        x,
        y,
        kept,
        asked,
    })
}

// Units as selections see them.
fn offers_by(
    alloc: Global,
    across: &[Standing],
    down: &[Standing],
    parts: &[Part],
) -> Result<Seq<Offer>, OutOfMemory>
    ensures { IfOk result (λ offers. offers ≡ map (offer_among across.now down.now) (map part_shown parts.now)) }
{
    let mut offers = Seq::new(alloc);
    for part in parts {
        offers.push(offer_at(alloc, across, down, part)?)?;
    }
    Ok(offers)
}

// The same of all of them.
fn offers_among(alloc: Global, parts: &[Part]) -> Result<Seq<Offer>, OutOfMemory>
    ensures { IfOk result (λ offers. offers ≡ offers_among (map part_shown parts.now)) }
{
    let across = standings(alloc, X, parts)?;
    let down = standings(alloc, Y, parts)?;
    offers_by(alloc, across.as_slice(), down.as_slice(), parts)
}

/// Some units as selections see them.
pub fn offers_of(alloc: Global, units: &[Marked]) -> Result<Seq<Offer>, OutOfMemory>
    ensures { IfOk result (λ offers. offers ≡ offers_among (flat_map parts_of (map marked_shown units.now))) }
{
    let parts = parts_among(alloc, units)?;
    offers_among(alloc, parts.as_slice())
}
