// Channels that part the rows of a unit, as the facet of a view round it.
ghost use Rattle.std.specs.Prelude.{◌≡◌, map, IfOk};
ghost use Rattle.std.specs.Option.{option_copied, option_and_then};
ghost use Rattle.vl_normalize.specs.Facets.{is_facet, facet_by, facet_of, definition_spacing, channel_spacing, facet_spacing};

use crate::channels::shown;
use crate::codes::{COLUMN, FACET, ROW};
use fixed_num::Num;
use std::alloc::Global;
use text_kit::{Copies, OutOfMemory};
use vl_spec::{Channel, ChannelOf, CrossFacet, Definition, Facet};

/// Whether a channel of this code parts rows.
pub fn is_facet(code: u16) -> bool
    ensures { result ≡ is_facet code }
{
    code == ROW || code == COLUMN || code == FACET
}

// A copy of a channel that may be absent.
fn copied_channel(alloc: Global, channel: Option<&Channel>) -> Result<Option<Channel>, OutOfMemory>
    ensures { IfOk result (λ copy. copy ≡ option_copied channel.entry) }
{
    match channel {
        Some(channel) => Ok(Some(channel.copied(alloc)?)),
        None => Ok(None),
    }
}

// How rows are parted into rows and columns of panels.
fn cross_of(
    alloc: Global,
    row: Option<&Channel>,
    column: Option<&Channel>,
) -> Result<CrossFacet, OutOfMemory>
    ensures { IfOk result (λ of. of ≡ record { row = option_copied row.entry; column = option_copied column.entry }) }
{
    let row = copied_channel(alloc, row)?;
    let column = copied_channel(alloc, column)?;
    Ok(CrossFacet { row, column })
}

// The facet of a row, a column and a facet.
fn facet_by(
    alloc: Global,
    row: Option<&Channel>,
    column: Option<&Channel>,
    wrapped: Option<&Channel>,
) -> Result<Option<Facet>, OutOfMemory>
    ensures { IfOk result (λ facet. facet ≡ facet_by (option_copied row.entry) (option_copied column.entry) (option_copied wrapped.entry)) }
{
    if row.is_some() || column.is_some() {
        Ok(Some(Facet::Cross(cross_of(alloc, row, column)?)))
    } else {
        match wrapped {
            Some(channel) => Ok(Some(Facet::One(channel.copied(alloc)?))),
            None => Ok(None),
        }
    }
}

/// How the channels of a unit part its rows, if they do.
pub fn facet_of(alloc: Global, channels: &[&ChannelOf]) -> Result<Option<Facet>, OutOfMemory>
    ensures { IfOk result (λ facet. facet ≡ facet_of (map (λ c. c.now) channels.now)) }
{
    facet_by(
        alloc,
        shown(channels, ROW),
        shown(channels, COLUMN),
        shown(channels, FACET),
    )
}

// The space that a definition asks for between panels.
fn definition_spacing(definition: &Definition) -> Option<Num>
    ensures { result ≡ definition_spacing definition.now }
{
    match definition {
        Definition::Field(of) => of.spacing,
        Definition::Value(_) | Definition::Datum(_) => None,
    }
}

// The space that a channel that may be absent asks for.
fn channel_spacing(channel: &Option<Channel>) -> Option<Num>
    ensures { result ≡ option_and_then channel_spacing channel.now }
{
    match channel {
        Some(channel) => definition_spacing(&channel.definition),
        None => None,
    }
}

/// The space between the panels of a facet.
pub fn facet_spacing(facet: &Facet) -> Option<Num>
    ensures { result ≡ facet_spacing facet.now }
{
    match facet {
        Facet::One(channel) => definition_spacing(&channel.definition),
        Facet::Cross(of) => match channel_spacing(&of.row) {
            Some(spacing) => Some(spacing),
            None => channel_spacing(&of.column),
        },
    }
}
