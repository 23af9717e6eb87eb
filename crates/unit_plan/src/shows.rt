// What a unit shows.
ghost use Rattle.std.specs.Prelude.{◌≡◌, ◌++◌, map, option_copied, IfOk, OnOk};
ghost use Rattle.vl_compose.specs.Shown.{kind_of, unit_shown};
ghost use Rattle.scale_infer.specs.Scales.{first_definition, first_at};
ghost use Rattle.unit_plan.specs.Shows.{channel_shows, own_shows, part_shows, facet_shows_by, kind_shows, facet_shows, shows_of, field_in, branch_shows};
ghost use Rattle.unit_plan.specs.inner.Lent.{branches_shown};
ghost use Rattle.unit_plan.specs.inner.LentShows.{shows_shown};

use crate::branches::{BranchHere, push_branches};
use std::alloc::Global;
use text_kit::{OutOfMemory, Seq};
use vl_compose::{UnitHere, definitions_at};
use vl_normalize::{COLUMN, FACET, ROW};
use vl_spec::{Channel, ChannelOf, Definition, Facet, FieldDefinition, ViewKind};

/// A definition with the code of its channel.
#[derive(Clone, Copy)]
pub(crate) struct ShownHere<'s> {
    /// The code of the channel.
    pub(crate) channel: u16,
    /// The definition.
    pub(crate) shows: &'s Definition,
}

// Adds what branches show.
fn push_branch_shows<'s>(
    channel: u16,
    branches: &[BranchHere<'s>],
    out: &mut Seq<ShownHere<'s>>,
) -> Result<(), OutOfMemory>
    ensures { OnOk result (shows_shown out.new ≡ shows_shown out.old ++ map (branch_shows channel) (branches_shown branches.now)) }
{
    for branch in branches {
        out.push(ShownHere {
            channel,
            shows: branch.shows,
        })?;
    }
    Ok(())
}

// Adds what a channel shows.
fn push_channel_shows<'s>(
    alloc: Global,
    channel: &'s ChannelOf,
    out: &mut Seq<ShownHere<'s>>,
) -> Result<(), OutOfMemory>
    ensures { OnOk result (shows_shown out.new ≡ shows_shown out.old ++ channel_shows channel.now) }
{
    let mut branches = Seq::new(alloc);
    push_branches(alloc, &channel.shows, &mut branches)?;
    push_branch_shows(channel.channel, branches.as_slice(), out)
}

// Adds what the channels of a unit show.
fn push_own_shows<'s>(
    alloc: Global,
    unit: &UnitHere<'s>,
    out: &mut Seq<ShownHere<'s>>,
) -> Result<(), OutOfMemory>
    ensures { OnOk result (shows_shown out.new ≡ shows_shown out.old ++ own_shows (unit_shown unit.now)) }
{
    for channel in unit.channels.as_slice() {
        push_channel_shows(alloc, *channel, out)?;
    }
    Ok(())
}

// Adds what the channel of a facet shows, where it has that channel.
fn push_part<'s>(
    code: u16,
    channel: &'s Option<Channel>,
    out: &mut Seq<ShownHere<'s>>,
) -> Result<(), OutOfMemory>
    ensures { OnOk result (shows_shown out.new ≡ shows_shown out.old ++ part_shows code channel.now) }
{
    match channel {
        Some(channel) => out.push(ShownHere {
            channel: code,
            shows: &channel.definition,
        }),
        None => Ok(()),
    }
}

// Adds what a facet shows.
fn push_facet<'s>(facet: &'s Facet, out: &mut Seq<ShownHere<'s>>) -> Result<(), OutOfMemory>
    ensures { OnOk result (shows_shown out.new ≡ shows_shown out.old ++ facet_shows_by facet.now) }
{
    match facet {
        Facet::One(channel) => out.push(ShownHere {
            channel: FACET,
            shows: &channel.definition,
        }),
        Facet::Cross(of) => {
            push_part(ROW, &of.row, out)?;
            push_part(COLUMN, &of.column, out)
        }
    }
}

// Adds what a view shows as a facet.
fn push_kind<'s>(kind: &'s ViewKind, out: &mut Seq<ShownHere<'s>>) -> Result<(), OutOfMemory>
    ensures { OnOk result (shows_shown out.new ≡ shows_shown out.old ++ kind_shows (kind_of kind.now)) }
{
    match kind {
        ViewKind::Facet(faceted) => push_facet(&faceted.facet, out),
        ViewKind::Unit(_) | ViewKind::Layer(_) | ViewKind::Joined(_) => Ok(()),
    }
}

// Adds what the facets round a unit show.
fn push_facet_shows<'s>(
    unit: &UnitHere<'s>,
    out: &mut Seq<ShownHere<'s>>,
) -> Result<(), OutOfMemory>
    ensures { OnOk result (shows_shown out.new ≡ shows_shown out.old ++ facet_shows (unit_shown unit.now)) }
{
    for here in unit.round.as_slice() {
        push_kind(&here.view.kind, out)?;
    }
    Ok(())
}

/// What the channels of a unit show.
pub(crate) fn own_shows<'s>(
    alloc: Global,
    unit: &UnitHere<'s>,
) -> Result<Seq<ShownHere<'s>>, OutOfMemory>
    ensures { IfOk result (λ shows. shows_shown shows ≡ own_shows (unit_shown unit.now)) }
{
    let mut out = Seq::new(alloc);
    push_own_shows(alloc, unit, &mut out)?;
    Ok(out)
}

/// What the facets round a unit show.
pub(crate) fn facet_shows<'s>(
    alloc: Global,
    unit: &UnitHere<'s>,
) -> Result<Seq<ShownHere<'s>>, OutOfMemory>
    ensures { IfOk result (λ shows. shows_shown shows ≡ facet_shows (unit_shown unit.now)) }
{
    let mut out = Seq::new(alloc);
    push_facet_shows(unit, &mut out)?;
    Ok(out)
}

/// What a unit shows.
pub(crate) fn shows_of<'s>(
    alloc: Global,
    unit: &UnitHere<'s>,
) -> Result<Seq<ShownHere<'s>>, OutOfMemory>
    ensures { IfOk result (λ shows. shows_shown shows ≡ shows_of (unit_shown unit.now)) }
{
    let mut out = Seq::new(alloc);
    push_own_shows(alloc, unit, &mut out)?;
    push_facet_shows(unit, &mut out)?;
    Ok(out)
}

/// The definition by a field that is shown, if it is one.
pub(crate) fn field_in(definition: &Definition) -> Option<&FieldDefinition>
    ensures { option_copied result ≡ field_in definition.now }
{
    match definition {
        Definition::Field(of) => Some(of),
        Definition::Value(_) | Definition::Datum(_) => None,
    }
}

// The first of several definitions.
fn first_of<'s>(definitions: &[&'s Definition]) -> Option<&'s Definition>
    ensures { option_copied result ≡ first_definition (map (λ definition. definition.now) definitions.now) }
{
    match definitions {
        [first, ..] => Some(*first),
        [] => None,
    }
}

/// The first definition of a channel of a unit that has a scale: its own before those of its conditions.
pub(crate) fn first_at<'s>(
    alloc: Global,
    unit: &UnitHere<'s>,
    channel: u16,
) -> Result<Option<&'s Definition>, OutOfMemory>
    ensures { IfOk result (λ first. option_copied first ≡ first_at (unit_shown unit.now) channel) }
{
    let definitions = definitions_at(alloc, unit.channels.as_slice(), channel)?;
    Ok(first_of(definitions.as_slice()))
}
