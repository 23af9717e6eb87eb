// Units with all of their channels.
ghost use Rattle.std.specs.Prelude.{◌≡◌, map, IfOk};
ghost use Rattle.std.specs.Option.{option_map_or};
ghost use Rattle.vl_normalize.specs.Heads.{view_of};
ghost use Rattle.vl_normalize.specs.Marks.{used};
ghost use Rattle.vl_normalize.specs.Normal.{unit_of, unit_with, part_with, line_with_points, mark_kind, faceted_by, unit_form};

use crate::facets::{facet_of, facet_spacing};
use crate::heads::{Head, no_head};
use crate::marks;
use crate::marks::{line_of, pointed, points_of};
use std::alloc::Global;
use text_kit::{Boxed, Copies, OutOfMemory, Seq};
use vl_spec::{
    ChannelOf, Encoding, Facet, Faceted, Layer, Mark, MarkDefinition, Unit, View, ViewKind,
};

// A mark with channels.
fn unit_of(mark: Option<Mark>, channels: Seq<ChannelOf>) -> ViewKind
    ensures { result ≡ unit_of mark channels }
{
    ViewKind::Unit(Unit {
        mark,
        encoding: Some(Encoding { channels }),
    })
}

// Copies of channels.
fn copies_of(alloc: Global, channels: &[&ChannelOf]) -> Result<Seq<ChannelOf>, OutOfMemory>
    ensures { IfOk result (λ out. out ≡ map (λ c. c.now) channels.now) }
{
    let mut out = Seq::with_capacity(alloc, channels.len())?;
    for channel in channels {
        out.push(channel.copied(alloc)?)?;
    }
    Ok(out)
}

// Copies of the channels that a mark has a use for.
fn used_copies(
    alloc: Global,
    mark: &Option<Mark>,
    channels: &[&ChannelOf],
) -> Result<Seq<ChannelOf>, OutOfMemory>
    ensures { IfOk result (λ out. out ≡ used mark.now (map (λ c. c.now) channels.now)) }
{
    let channels = marks::used(alloc, mark, channels)?;
    copies_of(alloc, channels.as_slice())
}

// A mark with those of some channels that it has a use for.
fn unit_with(
    alloc: Global,
    mark: &Option<Mark>,
    channels: &[&ChannelOf],
) -> Result<ViewKind, OutOfMemory>
    ensures { IfOk result (λ kind. kind ≡ unit_with mark.now (map (λ c. c.now) channels.now)) }
{
    let channels = used_copies(alloc, mark, channels)?;
    let mark = mark.copied(alloc)?;
    Ok(unit_of(mark, channels))
}

// The same as a view of its own.
fn part_with(
    alloc: Global,
    mark: MarkDefinition,
    channels: &[&ChannelOf],
) -> Result<View, OutOfMemory>
    ensures { IfOk result (λ view. view ≡ part_with mark (map (λ c. c.now) channels.now)) }
{
    let mark = Some(Mark::Definition(mark));
    let channels = used_copies(alloc, &mark, channels)?;
    Ok(no_head(alloc).view(unit_of(mark, channels)))
}

// A line and its points above it.
fn line_with_points(
    alloc: Global,
    channels: &[&ChannelOf],
    mark: &MarkDefinition,
) -> Result<ViewKind, OutOfMemory>
    ensures { IfOk result (λ kind. kind ≡ line_with_points (map (λ c. c.now) channels.now) mark.now) }
{
    let mut layer = Seq::with_capacity(alloc, 2)?;
    layer.push(part_with(alloc, line_of(alloc, mark)?, channels)?)?;
    layer.push(part_with(alloc, points_of(alloc, mark)?, channels)?)?;
    Ok(ViewKind::Layer(Layer {
        layer,
        encoding: None,
    }))
}

// A mark with some channels: a line with points is a layer of two.
fn mark_kind(
    alloc: Global,
    mark: &Option<Mark>,
    channels: &[&ChannelOf],
) -> Result<ViewKind, OutOfMemory>
    ensures { IfOk result (λ kind. kind ≡ mark_kind mark.now (map (λ c. c.now) channels.now)) }
{
    match pointed(mark) {
        Some(of) => line_with_points(alloc, channels, of),
        None => unit_with(alloc, mark, channels),
    }
}

// A view parted by a facet, and what stays inside.
fn faceted_by(
    alloc: Global,
    head: Head,
    inside: ViewKind,
    facet: Facet,
) -> Result<View, OutOfMemory>
    ensures { IfOk result (λ view. view ≡ faceted_by head inside facet) }
{
    let (outer, inner) = head.parted(alloc);
    let spacing = facet_spacing(&facet);
    let spec = Boxed::new(alloc, inner.view(inside))?;
    Ok(outer.view(ViewKind::Facet(Faceted {
        facet,
        columns: None,
        spacing,
        spec,
    })))
}

// A view, parted where there is a facet.
fn parted_by(
    alloc: Global,
    head: Head,
    inside: ViewKind,
    facet: Option<Facet>,
) -> Result<View, OutOfMemory>
    ensures { IfOk result (λ view. view ≡ option_map_or (faceted_by head inside) facet (view_of head inside)) }
{
    match facet {
        Some(facet) => faceted_by(alloc, head, inside, facet),
        None => Ok(head.view(inside)),
    }
}

/// A unit with all of its channels.
pub fn unit_form(
    alloc: Global,
    mark: &Option<Mark>,
    channels: &[&ChannelOf],
    head: Head,
) -> Result<View, OutOfMemory>
    ensures { IfOk result (λ view. view ≡ unit_form mark.now (map (λ c. c.now) channels.now) head) }
{
    let facet = facet_of(alloc, channels)?;
    let inside = mark_kind(alloc, mark, channels)?;
    parted_by(alloc, head, inside, facet)
}
