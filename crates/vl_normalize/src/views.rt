// Views among the channels of the layers round them.
ghost use Rattle.std.specs.Prelude.{◌≡◌, map, [], IfOk};
ghost use Rattle.vl_normalize.specs.Normal.{normal_view, normal_kind, normal_layer, normal_faceted, normal_joined, normal_form, unit_form};
ghost use Rattle.vl_normalize.specs.Channels.{channels_in, with_around};

use crate::heads::{Head, head_of};
use crate::{channels, units};
use std::alloc::Global;
use text_kit::{Boxed, Copies, OutOfMemory, Seq, beside_three};
use vl_spec::{ChannelOf, Faceted, Joined, Layer, Unit, View, ViewKind, VlSpec};

// The normal form of a unit.
fn normal_unit(
    alloc: Global,
    around: &[&ChannelOf],
    unit: &Unit,
    head: Head,
) -> Result<View, OutOfMemory>
    ensures { IfOk result (λ view. view
        ≡ unit_form unit.now.mark (with_around (channels_in unit.now.encoding) (map (λ c. c.now) around.now)) head) }
{
    let channels = channels::with_around(alloc, channels::channels_in(&unit.encoding), around)?;
    units::unit_form(alloc, &unit.mark, channels.as_slice(), head)
}

// The normal form of a view.
#[cycle(views)]
fn normal_view(alloc: Global, around: &[&ChannelOf], view: &View) -> Result<View, OutOfMemory>
    ensures { IfOk result (λ normal. normal ≡ normal_view view.now (map (λ c. c.now) around.now)) }
{
    let head = head_of(alloc, view)?;
    normal_kind(alloc, around, &view.kind, head)
}

// The normal form of a view of this kind.
#[cycle(views)]
fn normal_kind(
    alloc: Global,
    around: &[&ChannelOf],
    kind: &ViewKind,
    head: Head,
) -> Result<View, OutOfMemory>
    ensures { IfOk result (λ view. view ≡ normal_kind kind.now (map (λ c. c.now) around.now) head) }
{
    match kind {
        ViewKind::Unit(unit) => normal_unit(alloc, around, unit, head),
        ViewKind::Layer(layer) => Ok(head.view(ViewKind::Layer(normal_layer(
            alloc, around, layer,
        )?))),
        ViewKind::Facet(faceted) => Ok(head.view(ViewKind::Facet(normal_faceted(
            alloc, around, faceted,
        )?))),
        ViewKind::Joined(joined) => Ok(head.view(ViewKind::Joined(normal_joined(
            alloc, around, joined,
        )?))),
    }
}

// The normal form of a layer.
#[cycle(views)]
fn normal_layer(alloc: Global, around: &[&ChannelOf], layer: &Layer) -> Result<Layer, OutOfMemory>
    ensures { IfOk result (λ normal. normal ≡ normal_layer layer.now (map (λ c. c.now) around.now)) }
{
    let inside = channels::with_around(alloc, channels::channels_in(&layer.encoding), around)?;
    Ok(Layer {
        layer: normal_views(alloc, inside.as_slice(), layer.layer.as_slice())?,
        encoding: None,
    })
}

// The normal form of a faceted view.
#[cycle(views)]
fn normal_faceted(
    alloc: Global,
    around: &[&ChannelOf],
    faceted: &Faceted,
) -> Result<Faceted, OutOfMemory>
    ensures { IfOk result (λ normal. normal ≡ normal_faceted faceted.now (map (λ c. c.now) around.now)) }
{
    let facet = faceted.facet.copied(alloc)?;
    Ok(Faceted {
        facet,
        columns: faceted.columns,
        spacing: faceted.spacing,
        spec: boxed_view(alloc, around, faceted.spec.get())?,
    })
}

// The normal form of joined views.
#[cycle(views)]
fn normal_joined(
    alloc: Global,
    around: &[&ChannelOf],
    joined: &Joined,
) -> Result<Joined, OutOfMemory>
    ensures { IfOk result (λ normal. normal ≡ normal_joined joined.now (map (λ c. c.now) around.now)) }
{
    Ok(Joined {
        joining: joined.joining,
        columns: joined.columns,
        spacing: joined.spacing,
        views: normal_views(alloc, around, joined.views.as_slice())?,
    })
}

// The normal form of a view, in a box.
#[cycle(views)]
fn boxed_view(alloc: Global, around: &[&ChannelOf], view: &View) -> Result<Boxed<View>, OutOfMemory>
    ensures { IfOk result (λ normal. normal ≡ normal_view view.now (map (λ c. c.now) around.now)) }
{
    Boxed::new(alloc, normal_view(alloc, around, view)?)
}

// The normal forms of views.
#[cycle(views)]
fn normal_views(
    alloc: Global,
    around: &[&ChannelOf],
    views: &[View],
) -> Result<Seq<View>, OutOfMemory>
    ensures { IfOk result (λ normal. normal ≡ map (λ view. normal_view view (map (λ c. c.now) around.now)) views.now) }
{
    let mut out = Seq::with_capacity(alloc, views.len())?;
    for view in views {
        out.push(normal_view(alloc, around, view)?)?;
    }
    Ok(out)
}

/// The normal form of a specification: the channels of a layer stand in its units, a line with points is a layer of both, and a unit whose
/// channels part its rows stands in a faceted view.
pub fn normalize(alloc: Global, s: &VlSpec) -> Result<VlSpec, OutOfMemory>
    ensures { IfOk result (λ normal. normal ≡ normal_form s.now) }
{
    let view = normal_view(alloc, &[], &s.view)?;
    let (view, schema, sources, params) = beside_three(
        alloc, view, &s.schema, &s.sources, &s.params,
    )?;
    Ok(VlSpec {
        schema,
        padding: s.padding,
        autosize: s.autosize,
        config: s.config,
        sources,
        params,
        view,
    })
}
