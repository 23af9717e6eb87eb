// The brushes of stores.
ghost use Rattle.std.specs.Prelude.{◌≡◌, ◌+◌, ◌++◌, ◌∷◌, [], pos, ◌-ℤ◌, ◌≤ℤ◌, find, slice_get, Some, option_copied, IfSome, IfOk, OnOk};
ghost use Rattle.std.specs.Option.{option_map, option_map_or};
ghost use Rattle.std.specs.Str.{bytes_eq};
ghost use Rattle.cell_value.specs.declared.cell.Cell.TheVariants.{Number};
ghost use Rattle.scale_kit.specs.Lines.{cut_to};
ghost use Rattle.scale_kit.specs.Scale.{IsScale};
ghost use Rattle.scale_kit.specs.Places.{place_of};
ghost use Rattle.selection_events.specs.Brushes.{are_same_facets, is_of_store, is_brushed, brushed_at, place_in, between, span_on};
ghost use Rattle.selection_events.specs.Brushes.{whole_span, extent_span, span_along, brush_item, brush_in, panel_with, panels_with};
ghost use Rattle.selection_events.specs.Brushes.{brushed_with, with_brush, all_brushed, with_brushes};
ghost use Rattle.scene_tree.specs.declared.scene.Panel.{Panel as AnyPanel};
ghost use Rattle.selection_events.specs.BrushAnswers.{Brushes};
ghost use Rattle.selection_events.specs.Events.{Inverts};

use crate::PlotOf;
use crate::drags::{greater, lesser};
use crate::places::{has_unit, plot_of, zero};
use crate::tuples::is_same_tuple;
use cell_value::{Cell, Extent, Row, SharedText, StoreOf};
use fixed_num::Num;
use scale_kit::{Overflow, Scale, place};
use scene_tree::{Item, Panel, Scene, Shape};
use std::alloc::Global;
use text_kit::{OutOfMemory, Seq, Text};

/// Why no brushes are drawn.
#[derive(Clone, Copy, Debug, PartialEq, Eq)]
pub enum BrushError {
    /// An end is out of range.
    Overflow,
    /// Memory was refused.
    Memory,
}

impl From<OutOfMemory> for BrushError {
    ghost use Rattle.selection_events.specs.declared.brushes.BrushError.TheVariants as error;

    ghost from_gives = { λ _ e. e ≡ error.Memory };

    fn from(_: OutOfMemory) -> BrushError {
        BrushError::Memory
    }
}

/// The scales that drags invert, which can be found.
pub trait DragScales {
    /// The scale, if there is one, in the panel of an index, of the selection of a name, along a channel.
    ghost inverts: { Self → Inverts };

    /// All of them are scales.
    ghost sound: { Self → Type 0 };

    /// The scale in the panel of an index, of the selection of a name, along a channel; None where there is none.
    fn inverted<'a>(&'a self, index: usize, name: &str, channel: &str) -> Option<&'a Scale>
        requires { sound self.now }
        ensures value { option_copied result ≡ inverts self.now index name.now channel.now }
        ensures scale { IfSome (option_copied result) IsScale };
}

// ---- the panel of a brush

// Whether two facet rows of a plot are the same.
fn are_same_facets(
    fields: &Option<Seq<Text>>,
    a: &Option<Row>,
    b: &Option<Row>,
) -> Result<bool, OutOfMemory>
    ensures { IfOk result (λ same. same ≡ are_same_facets fields.now a.now b.now) }
{
    let Some(fields) = fields else {
        return Ok(true);
    };
    match a {
        Some(a) => match b {
            Some(b) => is_same_tuple(fields.as_slice(), a, b),
            None => Ok(false),
        },
        None => Ok(false),
    }
}

// Whether a plot draws the unit of a store, and its panel has the facet row of the store.
fn is_of_store(store: &StoreOf, panel: &Panel, plot: &PlotOf) -> Result<bool, OutOfMemory>
    ensures { IfOk result (λ b. b ≡ is_of_store store.now panel.now plot.now) }
{
    if has_unit(store.unit, plot) {
        are_same_facets(&plot.facet, &panel.facet, &store.panel)
    } else {
        Ok(false)
    }
}

// Whether the brush of a store is drawn in a panel.
fn is_brushed(plots: &[PlotOf], store: &StoreOf, panel: &Panel) -> Result<bool, OutOfMemory>
    ensures { IfOk result (λ b. b ≡ is_brushed plots.now store.now panel.now) }
{
    match plot_of(plots, panel) {
        Some(plot) => is_of_store(store, panel, plot),
        None => Ok(false),
    }
}

// The index of the panel in which the brush of a store is drawn.
fn brushed_at(
    plots: &[PlotOf],
    panels: &[Panel],
    store: &StoreOf,
) -> Result<Option<usize>, OutOfMemory>
    ensures { IfOk result (λ at. at ≡ option_map (λ p. p.0) (brushed_at plots.now panels.now store.now)) }
{
    for (at, panel) in panels.iter().enumerate() {
        if is_brushed(plots, store, panel)? {
            return Ok(Some(at));
        }
    }
    Ok(None)
}

// ---- its place

// A place cut to a plot of this size.
fn cut(size: Num, at: Num) -> Num
    ensures { result ≡ cut_to (pos 0, size) at }
{
    greater(zero(), lesser(at, size))
}

// An end as a place in a plot of this size.
#[tactic(auto, using(crate::proofs::BrushLemmas::not_below))]
fn place_in(size: Num, found: Result<Option<Num>, Overflow>) -> Option<Num>
    ensures place { result ≡ place_in size found }
    ensures within { IfSome result (λ at. pos 0 ≤ℤ at) }
{
    match found {
        Ok(Some(at)) => Some(cut(size, at)),
        Ok(None) => Some(zero()),
        Err(_) => None,
    }
}

// The place of an end of an extent.
fn end_on(size: Num, s: &Scale, end: Num) -> Option<Num>
    requires { IsScale s.now }
    ensures place { result ≡ place_in size (place_of s.now (Number end)) }
    ensures within { IfSome result (λ at. pos 0 ≤ℤ at) }
{
    place_in(size, place(s, &Cell::Number(end)))
}

/// Where a brush begins along a channel, and how far it goes.
#[derive(Clone, Copy, Debug)]
struct Span {
    from: Num,
    size: Num,
}

// How far one place is behind another.
#[tactic(auto, using(crate::proofs::BrushLemmas::is_number))]
fn distance(from: Num, to: Num) -> Num
    requires from { pos 0 ≤ℤ from }
    requires to { from ≤ℤ to }
    ensures { result ≡ to -ℤ from }
{
    match to.sub(from) {
        Some(distance) => distance,
        None => unreachable!(),
    }
}

// Between two places of a plot.
#[tactic(auto, using(crate::proofs::BrushLemmas::least_of_both, crate::proofs::BrushLemmas::in_order))]
fn between(a: Num, b: Num) -> Span
    requires a { pos 0 ≤ℤ a }
    requires b { pos 0 ≤ℤ b }
    ensures { (result.from, result.size) ≡ between a b }
{
    let from = lesser(a, b);
    let to = greater(a, b);
    Span {
        from,
        size: distance(from, to),
    }
}

// An extent on a scale, in a plot of this size.
fn span_on(size: Num, e: &Extent, s: &Scale) -> Option<Span>
    requires { IsScale s.now }
    ensures { option_map (λ span. (span.from, span.size)) result ≡ span_on size e.now s.now }
{
    let a = end_on(size, s, e.lo)?;
    let b = end_on(size, s, e.hi)?;
    Some(between(a, b))
}

// The whole plot.
fn whole_span(size: Num) -> Option<Span>
    ensures { option_map (λ span. (span.from, span.size)) result ≡ whole_span size }
{
    Some(Span { from: zero(), size })
}

// The extent of a channel, if there is one.
fn extent_of<'a>(extents: &'a [Extent], channel: &str) -> Option<&'a Extent>
    ensures { option_copied result ≡ find (λ e. bytes_eq e.channel channel.now) extents.now }
{
    for e in extents {
        if e.channel.as_str() == channel {
            return Some(e);
        }
    }
    None
}

// An extent on a scale, if there is one, in a plot of this size; else the whole plot.
fn span_with(size: Num, e: &Extent, s: Option<&Scale>) -> Option<Span>
    requires { IfSome (option_copied s) IsScale }
    ensures { option_map (λ span. (span.from, span.size)) result
        ≡ option_map_or (span_on size e.now) (option_copied s.entry) (whole_span size) }
{
    match s {
        Some(s) => span_on(size, e, s),
        None => whole_span(size),
    }
}

// Where an extent of a store, if there is one, stands along a channel, in the panel of an index.
fn span_of<S: DragScales>(
    scales: &S,
    index: usize,
    store: &StoreOf,
    size: Num,
    channel: &str,
    e: Option<&Extent>,
) -> Option<Span>
    requires { S.sound scales.now }
    ensures { option_map (λ span. (span.from, span.size)) result
        ≡ extent_span (S.inverts scales.now) index store.now size channel.now (option_copied e.entry) }
{
    match e {
        Some(e) => span_with(
            size,
            e,
            scales.inverted(index, store.name.as_str(), channel),
        ),
        None => whole_span(size),
    }
}

// Where the brush of a store stands along a channel, in the panel of an index.
fn span_along<S: DragScales>(
    scales: &S,
    index: usize,
    store: &StoreOf,
    size: Num,
    channel: &str,
) -> Option<Span>
    requires { S.sound scales.now }
    ensures { option_map (λ span. (span.from, span.size)) result ≡ span_along (S.inverts scales.now) index store.now size channel.now }
{
    let e = extent_of(store.extents.as_slice(), channel);
    span_of(scales, index, store, size, channel, e)
}

// An eighth.
fn faint() -> Num
    ensures { result ≡ pos 125000 }
{
    match Num::of_millionths(125_000) {
        Some(number) => number,
        None => unreachable!(),
    }
}

// One pixel.
fn one() -> Num
    ensures { result ≡ pos 1000000 }
{
    match Num::of_millionths(1_000_000) {
        Some(number) => number,
        None => unreachable!(),
    }
}

// The brush over these spans.
fn brush_item(alloc: Global, across: Span, down: Span) -> Result<Item, OutOfMemory>
    ensures { IfOk result (λ item. item ≡ brush_item (across.from, across.size) (down.from, down.size)) }
{
    Ok(Item {
        shape: Shape::Rect {
            x: across.from,
            y: down.from,
            width: across.size,
            height: down.size,
        },
        fill: Some(SharedText::of(alloc, "#333")?),
        stroke: None,
        stroke_width: one(),
        opacity: faint(),
        unit: None,
        key: None,
    })
}

// ---- scenes with brushes

/// Where the brush of a store stands in a panel.
#[derive(Clone, Copy, Debug)]
struct Spans {
    across: Span,
    down: Span,
}

// A panel with the brush over these spans behind its items.
fn panel_with(alloc: Global, panel: Panel, across: Span, down: Span) -> Result<Panel, OutOfMemory>
    ensures { IfOk result (λ p. p ≡ record panel {
      items = panel.items ++ brush_item (across.from, across.size) (down.from, down.size) ∷ [];
    }) }
{
    let Panel {
        x,
        y,
        width,
        height,
        view,
        facet,
        items,
    } = panel;
    let mut items = items;
    items.push(alloc, brush_item(alloc, across, down)?)?;
    Ok(Panel {
        x,
        y,
        width,
        height,
        view,
        facet,
        items,
    })
}

// Adds a panel, with the brush over these spans where it is that of the index.
fn push_panel(
    alloc: Global,
    index: usize,
    spans: &Spans,
    at: usize,
    panel: Panel,
    out: &mut Seq<Panel>,
) -> Result<(), OutOfMemory>
    ensures { OnOk result (out.new ≡ out.old
        ++ panel_with index (brush_item (spans.now.across.from, spans.now.across.size) (spans.now.down.from, spans.now.down.size)) (at, panel) ∷ []) }
{
    if at == index {
        out.push(panel_with(alloc, panel, spans.across, spans.down)?)
    } else {
        out.push(panel)
    }
}

// The number behind this one; so many panels no scene could hold.
fn following(at: usize) -> Result<usize, OutOfMemory>
    ensures { IfOk result (λ next. next ≡ at + 1) }
{
    match at.checked_add(1) {
        Some(next) => Ok(next),
        None => Err(OutOfMemory),
    }
}

// Panels with the brush over these spans in that of the index.
fn panels_with(
    alloc: Global,
    panels: Seq<Panel>,
    index: usize,
    spans: &Spans,
) -> Result<Seq<Panel>, OutOfMemory>
    ensures { IfOk result (λ out. out ≡ panels_with panels index
        (brush_item (spans.now.across.from, spans.now.across.size) (spans.now.down.from, spans.now.down.size))) }
{
    let mut out = Seq::with_capacity(alloc, panels.len())?;
    let mut at = 0;
    for panel in panels.into_vec() {
        push_panel(alloc, index, spans, at, panel, &mut out)?;
        at = following(at)?;
    }
    Ok(out)
}

// Where the brush of a store stands in the panel of an index, of this size.
fn spans_in<S: DragScales>(
    scales: &S,
    store: &StoreOf,
    index: usize,
    width: Num,
    height: Num,
) -> Option<Spans>
    requires { S.sound scales.now }
    ensures { (panel : AnyPanel) → panel.width ≡ width → panel.height ≡ height
        → option_map (λ s. brush_item (s.across.from, s.across.size) (s.down.from, s.down.size)) result
        ≡ brush_in (S.inverts scales.now) store.now (index, panel) }
{
    let across = span_along(scales, index, store, width, "x")?;
    let down = span_along(scales, index, store, height, "y")?;
    Some(Spans { across, down })
}

// Where the brush of a store stands in the panel of an index, if there is such a panel.
fn spans_at<S: DragScales>(
    scales: &S,
    panels: &[Panel],
    store: &StoreOf,
    index: usize,
) -> Option<Spans>
    requires { S.sound scales.now }
    ensures { (panel : AnyPanel) → slice_get panels.now index ≡ Some panel
        → option_map (λ s. brush_item (s.across.from, s.across.size) (s.down.from, s.down.size)) result
        ≡ brush_in (S.inverts scales.now) store.now (index, panel) }
{
    let panel = panels.get(index)?;
    spans_in(scales, store, index, panel.width, panel.height)
}

// Panels with the brush of a store in that of the index.
fn brushed_with<S: DragScales>(
    alloc: Global,
    scales: &S,
    panels: Seq<Panel>,
    store: &StoreOf,
    index: usize,
) -> Result<Seq<Panel>, BrushError>
    requires { S.sound scales.now }
    ensures { (panel : AnyPanel) → slice_get panels index ≡ Some panel
        → Brushes (brushed_with (S.inverts scales.now) panels store.now (Some (index, panel))) result }
{
    match spans_at(scales, panels.as_slice(), store, index) {
        Some(spans) => Ok(panels_with(alloc, panels, index, &spans)?),
        None => Err(BrushError::Overflow),
    }
}

// Panels with the brush of a store that has extents.
#[tactic(auto, using(crate::proofs::BrushLemmas::brushed_there, crate::proofs::BrushLemmas::brushed_nowhere))]
fn with_extents<S: DragScales>(
    alloc: Global,
    plots: &[PlotOf],
    scales: &S,
    store: &StoreOf,
    panels: Seq<Panel>,
) -> Result<Seq<Panel>, BrushError>
    requires { S.sound scales.now }
    ensures { Brushes (brushed_with (S.inverts scales.now) panels store.now (brushed_at plots.now panels store.now)) result }
{
    match brushed_at(plots, panels.as_slice(), store)? {
        Some(index) => brushed_with(alloc, scales, panels, store, index),
        None => Ok(panels),
    }
}

// Panels with the brush of a store.
fn with_brush<S: DragScales>(
    alloc: Global,
    plots: &[PlotOf],
    scales: &S,
    store: &StoreOf,
    panels: Seq<Panel>,
) -> Result<Seq<Panel>, BrushError>
    requires { S.sound scales.now }
    ensures { Brushes (with_brush plots.now (S.inverts scales.now) store.now panels) result }
{
    if store.extents.is_empty() {
        Ok(panels)
    } else {
        with_extents(alloc, plots, scales, store, panels)
    }
}

// Panels with the brushes of stores.
fn all_brushed<S: DragScales>(
    alloc: Global,
    plots: &[PlotOf],
    scales: &S,
    stores: &[StoreOf],
    panels: Seq<Panel>,
) -> Result<Seq<Panel>, BrushError>
    requires { S.sound scales.now }
    ensures { Brushes (all_brushed plots.now (S.inverts scales.now) stores.now panels) result }
{
    let mut now = panels;
    for store in stores {
        now = with_brush(alloc, plots, scales, store, now)?;
    }
    Ok(now)
}

/// A scene with the brushes of stores, each drawn last in its panel: the first in the scene whose plot draws the unit of the store and which has
/// its facet row. A brush stands between the places of the ends of its extents, cut to the plot, and goes over the whole plot along a channel
/// without an extent. `Overflow` comes exactly where such a place is out of range.
pub fn with_brushes<S: DragScales>(
    alloc: Global,
    plots: &[PlotOf],
    scales: &S,
    stores: &[StoreOf],
    scene: Scene,
) -> Result<Scene, BrushError>
    requires { S.sound scales.now }
    ensures { Brushes (with_brushes plots.now (S.inverts scales.now) stores.now scene) result }
{
    let Scene {
        width,
        height,
        panels,
    } = scene;
    Ok(Scene {
        width,
        height,
        panels: all_brushed(alloc, plots, scales, stores, panels)?,
    })
}
