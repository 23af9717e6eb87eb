// What is drawn of a specification from the facts of its copies.
ghost use Rattle.std.specs.Prelude.{◌≡◌, ◌∷◌, ◌++◌, [], pos, map, IfOk, IfSome, OnOk};
ghost use Rattle.std.specs.List.{filter};
ghost use Rattle.expr_eval.specs.Answers.{Evaluates};
ghost use Rattle.expr_eval.specs.Stores.{values_of_stores};
ghost use Rattle.scale_kit.specs.Scale.{IsPixel, AreScales};
ghost use Rattle.vega_guides.specs.Shown.{IsCount};
ghost use Rattle.vega_spec.specs.declared.spec.Group.{out-Group};
ghost use Rattle.plot_scenes.specs.Scenes.{drawing_with};
ghost use Rattle.plot_scenes.specs.Views.{HasLegends};
ghost use Rattle.vega_copies.specs.inner.Kept.{KeepsAll};
ghost use Rattle.vega_copies.specs.Outlines.{object_here, outline_of};
ghost use Rattle.vega_copies.specs.inner.FactsSeen.{copy_seen, FactsFit};
ghost use Rattle.vega_copies.specs.inner.Outlined.{marks_in, marks_of};
ghost use Rattle.vega_drawing.specs.Drawings.{drawn_from_facts, scales_of_chart};
ghost use Rattle.vega_drawing.specs.Scales.{scale_in, set_of};
ghost use Rattle.vega_drawing.specs.Sizes.{padding_round};
ghost use Rattle.vega_drawing.specs.Tops.{of_chart};
ghost use Rattle.vega_drawing.specs.inner.Framed.{cells_seen, unlisted, IsFrame};
ghost use Rattle.vega_drawing.specs.inner.Kept.{axis_seen, chart_has, scale_seen, AreKeptAxes, IsKeptScale};
ghost use Rattle.vega_drawing.specs.inner.Levels.{values_over};
ghost use Rattle.vega_drawing.specs.inner.Topped.{drawn_grid, drawn_plot, drawn_top, found_on_top, grid_with_axes, held_top, is_of_chart};
ghost use Rattle.vega_drawing.specs.inner.Topped.{names_on_top, sized_plot, top_seen, with_axes, IsTop, found_in_top, frame_of_top};

use crate::axes::{and_axes, axes_in};
use crate::frames::{Frame, Sizing, slice_of};
use crate::grids::{grid_view, plot_view};
use crate::items::MarkItems;
use crate::kept::kept_scales;
use crate::marks::Numbers;
use crate::scales::{AxisHere, OfChart, ScaleHere, and_outer, scale_in, set_of};
use crate::sizes::{number, padding_round, size_of};
use crate::values::{ValuesAt, with_signals};
use cell_value::Cell;
use expr_eval::{EvalError, Stores};
use fixed_num::Num;
use guide_kit::GuideError;
use mark_encode::IndexedSet;
use plot_scenes::{Drawing, Header, Placed, drawing_with};
use scale_kit::ScaleIn;
use std::alloc::Global;
use text_kit::{OutOfMemory, Seq, Text};
use vega_copies::{CopyFacts, Step, scales_in};
use vega_spec::{Layout, VgSpec};

// Adds a scale of the top where it belongs to the whole chart.
fn push_chart_scale(
    alloc: Global,
    frame: &Frame,
    scale: &ScaleHere,
    out: &mut Seq<ScaleIn>,
) -> Result<(), OutOfMemory>
    requires frame { IsFrame frame.now }
    requires kept { IsKeptScale scale.now.kept.now }
    ensures { OnOk result (out.new ≡ out.old
        ++ map (scale_in frame.now.width frame.now.height) (filter is_of_chart (scale_seen scale.now ∷ []))) }
{
    if scale.kept.of_chart {
        out.push(scale_in(alloc, frame.width, frame.height, scale)?)
    } else {
        Ok(())
    }
}

// The scales of the top that belong to the whole chart, by their names.
fn scales_of_chart(alloc: Global, frame: &Frame) -> Result<Seq<ScaleIn>, OutOfMemory>
    requires { IsFrame frame.now }
    ensures { IfOk result (λ scales. scales ≡ scales_of_chart (unlisted frame.now)) }
{
    let mut out = Seq::new(alloc);
    for scale in frame.scales {
        push_chart_scale(alloc, frame, scale, &mut out)?;
    }
    Ok(out)
}

// What is drawn of the view of the top.
fn view_drawn(alloc: Global, g: &VgSpec, frame: &Frame, view: Placed) -> Result<Drawing, EvalError>
    requires frame { IsFrame frame.now }
    requires legends { HasLegends view }
    ensures { Evaluates result (drawing_with (padding_round g.now.padding) (scales_of_chart (unlisted frame.now)) view) }
{
    let of_chart = scales_of_chart(alloc, frame)?;
    match drawing_with(alloc, padding_round(g.padding), of_chart, view) {
        Ok(drawing) => Ok(drawing),
        Err(GuideError::Overflow) => Err(EvalError::Overflow),
        Err(GuideError::Memory) => Err(EvalError::Memory),
    }
}

// No length.
fn no_length() -> Num
    ensures value { result ≡ pos 0 }
    ensures pixel { IsPixel result }
{
    number(0)
}

/// What is known of the top before its size is.
#[derive(Clone, Copy)]
pub struct Top<'s, 'a> {
    /// The specification.
    pub g: &'s VgSpec,
    /// The facts of the top.
    pub facts: &'a CopyFacts,
    /// The values of signals in it.
    pub values: ValuesAt<'a>,
    /// Its cells; None outside facets.
    pub cells: Option<&'a [(Text, Cell)]>,
    /// The scales that have names in it.
    pub scales: &'a [ScaleHere<'s, 'a>],
}

// The top as the one copy of itself, with its size.
fn top_frame<'s, 'x, 'i>(
    path: &'x [Step],
    top: &Top<'s, 'x>,
    set: &'x IndexedSet<'i>,
    axes: &'x [AxisHere<'s, 'x>],
    headers: &'x [Header],
    width: Num,
    height: Num,
) -> Frame<'s, 'x, 'i>
    ensures { result ≡ held_top path.entry top.now.values top.now.scales set.entry axes.entry top.now.cells headers.entry width height }
{
    Frame {
        path,
        values: top.values,
        scales: top.scales,
        set,
        axes,
        cells: top.cells,
        headers,
        width,
        height,
        x: number(0),
        y: number(0),
    }
}

// What is drawn of the top where it is a plot of this size.
fn draw_sized<'s, 'x, 'i, M: MarkItems>(
    alloc: Global,
    maker: &M,
    top: &Top<'s, 'x>,
    set: &'x IndexedSet<'i>,
    width: Num,
    height: Num,
) -> Result<Drawing, EvalError>
    requires sound { M.sound maker.now }
    requires top { IsTop top.now.g.now top.now.scales.now top.now.facts.now }
    requires set { set.now ≡ set_of width height (map scale_seen top.now.scales.now) }
    requires scales { AreScales set.now }
    requires width { IsPixel width }
    requires height { IsPixel height }
    ensures { Evaluates result (drawn_plot (M.items maker.now) top.now.g.now (found_in_top (M.lists maker.now) top.now)
        (frame_of_top (M.lists maker.now) top.now width height)) }
{
    let frame = top_frame(&[], top, set, &[], &[], width, height);
    let numbers = Numbers { unit: 0, number: 0 };
    match plot_view(
        alloc,
        maker,
        &frame,
        &top.g.group,
        top.facts.inside.as_slice(),
        numbers,
    ) {
        Ok(view) => view_drawn(alloc, top.g, &frame, view),
        Err(error) => Err(error),
    }
}

// What is drawn of the top where it is a plot.
fn draw_plot<'s, 'x, M: MarkItems>(
    alloc: Global,
    maker: &M,
    top: &Top<'s, 'x>,
) -> Result<Drawing, EvalError>
    requires sound { M.sound maker.now }
    requires top { IsTop top.now.g.now top.now.scales.now top.now.facts.now }
    ensures { Evaluates result (sized_plot (M.items maker.now) top.now.g.now (found_in_top (M.lists maker.now) top.now)
        (frame_of_top (M.lists maker.now) top.now (pos 0) (pos 0))) }
{
    let sizing = Sizing {
        values: top.values,
        scales: top.scales,
    };
    let width = match size_of(alloc, &top.g.width, &sizing) {
        Ok(width) => width,
        Err(error) => return Err(error),
    };
    let height = match size_of(alloc, &top.g.height, &sizing) {
        Ok(height) => height,
        Err(error) => return Err(error),
    };
    let set = set_of(alloc, width, height, top.scales)?;
    let indexed = IndexedSet::of(alloc, &set)?;
    draw_sized(alloc, maker, &*top, &indexed, width, height)
}

// What is drawn of the top where it is a grid, with the axes in it.
fn draw_axes<'s, 'x, 'i, M: MarkItems>(
    alloc: Global,
    maker: &M,
    top: &Top<'s, 'x>,
    layout: &Layout,
    set: &'x IndexedSet<'i>,
    axes: &'x [AxisHere<'s, 'x>],
    size: Num,
) -> Result<Drawing, EvalError>
    requires sound { M.sound maker.now }
    requires top { IsTop top.now.g.now top.now.scales.now top.now.facts.now }
    requires set { set.now ≡ set_of size size (map scale_seen top.now.scales.now) }
    requires scales { AreScales set.now }
    requires axes { AreKeptAxes axes.now }
    requires columns { IfSome layout.now.columns IsCount }
    requires size { IsPixel size }
    ensures { Evaluates result (drawn_grid (M.items maker.now) top.now.g.now layout.now (found_in_top (M.lists maker.now) top.now)
        (with_axes (map axis_seen axes.now) (frame_of_top (M.lists maker.now) top.now size size))) }
{
    let frame = top_frame(&[], top, set, axes, &[], size, size);
    let numbers = Numbers { unit: 0, number: 0 };
    match grid_view(
        alloc,
        maker,
        &frame,
        &top.g.group,
        top.facts.inside.as_slice(),
        layout,
        numbers,
    ) {
        Ok(view) => view_drawn(alloc, top.g, &frame, view),
        Err(error) => Err(error),
    }
}

// What is drawn of the top where it is a grid.
fn draw_grid<'s, 'x, M: MarkItems>(
    alloc: Global,
    maker: &M,
    top: &Top<'s, 'x>,
    layout: &Layout,
) -> Result<Drawing, EvalError>
    requires sound { M.sound maker.now }
    requires top { IsTop top.now.g.now top.now.scales.now top.now.facts.now }
    requires columns { IfSome layout.now.columns IsCount }
    ensures { Evaluates result (grid_with_axes (M.items maker.now) top.now.g.now layout.now (found_in_top (M.lists maker.now) top.now)
        (frame_of_top (M.lists maker.now) top.now (pos 0) (pos 0))) }
{
    let size = no_length();
    let set = set_of(alloc, size, size, top.scales)?;
    let indexed = IndexedSet::of(alloc, &set)?;
    let axes = and_axes(alloc, &[], top.scales, axes_in(&top.g.group))?;
    draw_axes(alloc, maker, &*top, layout, &indexed, axes.as_slice(), size)
}

// What is drawn of the top with its scales, where these are the values of signals and its cells.
fn draw_top<'s, 'x, M: MarkItems>(
    alloc: Global,
    maker: &M,
    g: &'s VgSpec,
    facts: &'x CopyFacts,
    values: ValuesAt<'x>,
    cells: Option<&'x [(Text, Cell)]>,
    scales: &'x [ScaleHere<'s, 'x>],
) -> Result<Drawing, EvalError>
    requires sound { M.sound maker.now }
    requires top { IsTop g.now scales.now facts.now }
    ensures { Evaluates result (drawn_top (M.items maker.now) g.now
        (found_on_top (M.lists maker.now) (values_over values.entry.stores.now values.entry.levels.now) facts.now)
        (top_seen (names_on_top (M.lists maker.now) (values_over values.entry.stores.now values.entry.levels.now))
        (cells_seen cells.entry) (map scale_seen scales.now)
        (pos 0) (pos 0))) }
{
    let top = Top {
        g,
        facts,
        values,
        cells,
        scales,
    };
    match &g.group.layout {
        Some(layout) => draw_grid(alloc, maker, &top, layout),
        None => draw_plot(alloc, maker, &top),
    }
}

// Which scales of the top belong to the whole chart.
fn of_top(layout: &Option<Layout>) -> OfChart
    ensures { chart_has result ≡ of_chart layout.now }
{
    match layout {
        Some(_) => OfChart::Grid,
        None => OfChart::Plot,
    }
}

/// What is drawn of a specification of which these facts were found, with the items of its marks from a maker: the picture with its panels,
/// and the scales of its plots. `Overflow` comes exactly where a number is out of range. No row is read: the domains of scales, the values of
/// signals and the copies of groups are those of the facts; what is read of selections is read of the stores. The time is near linear in the
/// facts and in what is drawn, for each plot in the domains of the scales that have names in it, and for each axis and legend in the domain
/// of its scale.
pub fn drawn<'x, M: MarkItems>(
    alloc: Global,
    g: &VgSpec,
    facts: &'x CopyFacts,
    stores: &'x Stores<'x>,
    maker: &M,
) -> Result<Drawing, EvalError>
    requires kept { KeepsAll g.now }
    requires sound { M.sound maker.now }
    requires fit { FactsFit (object_here (out-Group g.now.group)) (marks_of (marks_in (out-Group g.now.group))) facts.now }
    ensures { Evaluates result (drawn_from_facts (M.items maker.now) g.now (outline_of g.now)
        (copy_seen (M.lists maker.now) facts.now [] (values_of_stores stores.now))) }
{
    let own = kept_scales(
        alloc,
        of_top(&g.group.layout),
        scales_in(&g.group),
        facts.domains.as_slice(),
    )?;
    let mine = own.as_slice();
    let scales = and_outer(alloc, mine, &[])?;
    let here = scales.as_slice();
    let levels = with_signals(alloc, &facts.signals, &[])?;
    let signals = levels.as_slice();
    draw_top(
        alloc,
        maker,
        g,
        &*facts,
        ValuesAt {
            stores,
            levels: signals,
        },
        slice_of(&facts.cells),
        here,
    )
}
