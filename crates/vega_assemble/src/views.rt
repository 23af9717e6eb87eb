// Views as objects.
ghost use Rattle.std.specs.Prelude.{◌≡◌, ◌++◌, ◌∷◌, [], map, Some, IfOk, OnOk};
ghost use Rattle.vega_assemble.specs.Assembled.{held_at_top};
ghost use Rattle.vega_assemble.specs.Drags.{copies_in};
ghost use Rattle.vega_assemble.specs.Facets.{grids_inside};
ghost use Rattle.vega_assemble.specs.Keys.{sort_of};
ghost use Rattle.vega_assemble.specs.Guides.{axis_written};
ghost use Rattle.vega_assemble.specs.Made.{NoMarks, rolled};
ghost use Rattle.vega_assemble.specs.Scales.{scale_written};
ghost use Rattle.vega_assemble.specs.Views.{is_same_holder, scales_of, held_by, unit_at, units_made, plot_made, columns_written, layout_of};
ghost use Rattle.vega_assemble.specs.Views.{parts_with, facet_of, joined, faceted, cells_of, grid_made, no_view, plot_at, grid_at};
ghost use Rattle.vega_assemble.specs.Views.{view_made};
ghost use Rattle.vega_assemble.specs.inner.Holders.{held_for, opened, grid_opened, group_for};

use crate::drags::{push_copies, push_outer_names};
use crate::facets::{facet_over, parts_by};
use crate::guides::{axes_written, push_legend};
use crate::keys::sort_of;
use crate::made::{Extent, group_mark, group_with};
use crate::marks::push_unit;
use crate::numbers::ones;
use crate::scales::{push_helpers, scale_written};
use crate::several::copied_text;
use crate::sizes::extent_beside;
use fixed_num::Num;
use plan_kit::{FacetPlan, GridColumns, GridPlan, Plan, PlotPlan, ScalePlan, ViewPlan};
use std::alloc::Global;
use text_kit::{OutOfMemory, Seq, Text};
use vega_spec::{Axis, Facet, Group, Layout, Legend, Scale, Sort, VgMark};

/// To what a view belongs.
#[derive(Clone, Copy)]
pub(crate) enum Holder {
    /// To joined views.
    Joined,
    /// To the chart.
    Chart,
    /// To the facet of a number, as what stands in its panels.
    Facet(usize),
}

/// Scales, and their legends.
#[derive(Drop)]
pub(crate) struct Held {
    /// The scales.
    pub scales: Seq<Scale>,
    /// The legends.
    pub legends: Seq<Legend>,
}

/// The group of an object with what stands in it, and its size where it is a plot.
#[derive(Drop)]
pub(crate) struct Opened {
    /// The group.
    pub group: Group,
    /// The size.
    pub extent: Option<Extent>,
}

// ---- what belongs to a view

// Whether a scale belongs to a facet, or without one to the chart.
fn belongs_to(holder: Option<usize>, scale: &ScalePlan) -> bool
    ensures { result ≡ is_same_holder holder scale.now.holder }
{
    match (holder, scale.holder) {
        (None, None) => true,
        (Some(facet), Some(other)) => facet == other,
        (None, Some(_)) | (Some(_), None) => false,
    }
}

// Adds the scales that belong there.
fn push_scales(
    alloc: Global,
    stem: &Text,
    scales: &[ScalePlan],
    holder: Option<usize>,
    out: &mut Seq<Scale>,
) -> Result<(), OutOfMemory>
    ensures { OnOk result (out.new ≡ out.old ++ map (scale_written stem.now scales.now) (scales_of scales.now holder)) }
{
    for (number, scale) in scales.iter().enumerate() {
        if belongs_to(holder, scale) {
            out.push(scale_written(alloc, stem, scales, number, scale)?)?;
        }
    }
    Ok(())
}

// The same.
fn scales_held(
    alloc: Global,
    stem: &Text,
    scales: &[ScalePlan],
    holder: Option<usize>,
) -> Result<Seq<Scale>, OutOfMemory>
    ensures { IfOk result (λ made. made ≡ (held_by stem.now scales.now holder).scales) }
{
    let mut out = Seq::new(alloc);
    push_scales(alloc, stem, scales, holder, &mut out)?;
    Ok(out)
}

// The legends of these.
fn legends_held(
    alloc: Global,
    stem: &Text,
    scales: &[ScalePlan],
    holder: Option<usize>,
) -> Result<Seq<Legend>, OutOfMemory>
    ensures { IfOk result (λ made. made ≡ (held_by stem.now scales.now holder).legends) }
{
    let mut out = Seq::new(alloc);
    for (number, scale) in scales.iter().enumerate() {
        if belongs_to(holder, scale) {
            push_legend(alloc, stem, scales, number, scale, &mut out)?;
        }
    }
    Ok(out)
}

// The scales of the chart, with the helpers.
fn chart_scales(alloc: Global, stem: &Text, p: &Plan) -> Result<Seq<Scale>, OutOfMemory>
    ensures { IfOk result (λ made. made ≡ (held_at_top stem.now p.now).scales) }
{
    let mut out = scales_held(alloc, stem, p.scales.as_slice(), None)?;
    push_helpers(alloc, stem, p.units.as_slice(), &mut out)?;
    Ok(out)
}

// The scales that belong to a holder.
fn scales_for(
    alloc: Global,
    stem: &Text,
    p: &Plan,
    holder: Holder,
) -> Result<Seq<Scale>, OutOfMemory>
    ensures { IfOk result (λ made. made ≡ (held_for stem.now p.now holder).scales) }
{
    match holder {
        Holder::Joined => Ok(Seq::new(alloc)),
        Holder::Chart => chart_scales(alloc, stem, p),
        Holder::Facet(facet) => scales_held(alloc, stem, p.scales.as_slice(), Some(facet)),
    }
}

// Their legends.
fn legends_for(
    alloc: Global,
    stem: &Text,
    p: &Plan,
    holder: Holder,
) -> Result<Seq<Legend>, OutOfMemory>
    ensures { IfOk result (λ made. made ≡ (held_for stem.now p.now holder).legends) }
{
    match holder {
        Holder::Joined => Ok(Seq::new(alloc)),
        Holder::Chart => legends_held(alloc, stem, p.scales.as_slice(), None),
        Holder::Facet(facet) => legends_held(alloc, stem, p.scales.as_slice(), Some(facet)),
    }
}

// What belongs to a holder.
fn held_for(alloc: Global, stem: &Text, p: &Plan, holder: Holder) -> Result<Held, OutOfMemory>
    ensures { IfOk result (λ held. held ≡ held_for stem.now p.now holder) }
{
    let scales = scales_for(alloc, stem, p, holder)?;
    let legends = legends_for(alloc, stem, p, holder)?;
    Ok(Held { scales, legends })
}

// A value, and what belongs to a holder.
fn held_beside<K: Drop>(
    alloc: Global,
    kept: K,
    stem: &Text,
    p: &Plan,
    holder: Holder,
) -> Result<(K, Held), OutOfMemory>
    ensures { IfOk result (λ both. both ≡ (kept, held_for stem.now p.now holder)) }
{
    let held = held_for(alloc, stem, p, holder)?;
    Ok((kept, held))
}

// ---- plots

// Adds the marks of the unit of a number.
fn push_unit_at(
    alloc: Global,
    stem: &Text,
    p: &Plan,
    number: usize,
    out: &mut Seq<VgMark>,
) -> Result<(), OutOfMemory>
    ensures { OnOk result (out.new ≡ out.old ++ rolled (unit_at stem.now p.now number NoMarks)) }
{
    match p.units.get(number) {
        Some(unit) => push_unit(alloc, stem, p.scales.as_slice(), unit, out),
        None => Ok(()),
    }
}

// The marks of units.
fn units_made(
    alloc: Global,
    stem: &Text,
    p: &Plan,
    units: &[usize],
) -> Result<Seq<VgMark>, OutOfMemory>
    ensures { IfOk result (λ marks. marks ≡ rolled (units_made stem.now p.now units.now)) }
{
    let mut out = Seq::new(alloc);
    for unit in units {
        push_unit_at(alloc, stem, p, *unit, &mut out)?;
    }
    Ok(out)
}

// A value, and the axes of a plot.
fn axes_beside<K: Drop>(
    alloc: Global,
    kept: K,
    stem: &Text,
    p: &Plan,
    plot: &PlotPlan,
) -> Result<(K, Seq<Axis>), OutOfMemory>
    ensures { IfOk result (λ both. both ≡ (kept, map (axis_written stem.now p.now.scales) plot.now.axes)) }
{
    let axes = axes_written(alloc, stem, p.scales.as_slice(), plot.axes.as_slice())?;
    Ok((kept, axes))
}

// Scales, and then the copies in a plot.
fn with_copies(
    alloc: Global,
    stem: &Text,
    p: &Plan,
    plot: &PlotPlan,
    scales: Seq<Scale>,
) -> Result<Seq<Scale>, OutOfMemory>
    ensures { IfOk result (λ all. all ≡ scales ++ copies_in stem.now p.now.scales p.now.selections plot.now.number) }
{
    let mut all = scales;
    push_copies(
        alloc,
        stem,
        p.scales.as_slice(),
        p.selections.as_slice(),
        plot,
        &mut all,
    )?;
    Ok(all)
}

// A value, and what belongs to a holder with the copies in a plot.
fn plot_held<K: Drop>(
    alloc: Global,
    kept: K,
    stem: &Text,
    p: &Plan,
    plot: &PlotPlan,
    holder: Holder,
) -> Result<(K, Held), OutOfMemory>
    ensures { IfOk result (λ both. both ≡ (
      kept,
      record {
        scales = (held_for stem.now p.now holder).scales ++ copies_in stem.now p.now.scales p.now.selections plot.now.number;
        legends = (held_for stem.now p.now holder).legends;
      },
    )) }
{
    let legends = legends_for(alloc, stem, p, holder)?;
    let scales = scales_for(alloc, stem, p, holder)?;
    let scales = with_copies(alloc, stem, p, plot, scales)?;
    Ok((kept, Held { scales, legends }))
}

// A plot.
fn plot_opened(
    alloc: Global,
    stem: &Text,
    p: &Plan,
    plot: &PlotPlan,
    holder: Holder,
) -> Result<Opened, OutOfMemory>
    ensures { IfOk result (λ made. made ≡ opened (plot_made stem.now p.now plot.now (held_for stem.now p.now holder))) }
{
    let title = copied_text(&plot.title)?;
    let marks = units_made(alloc, stem, p, plot.units.as_slice())?;
    let (kept, axes) = axes_beside(alloc, (title, marks), stem, p, plot)?;
    let (kept, held) = plot_held(alloc, (kept, axes), stem, p, plot, holder)?;
    let ((kept, held), extent) = extent_beside(
        alloc,
        (kept, held),
        stem,
        p.scales.as_slice(),
        plot,
    )?;
    let ((title, marks), axes) = kept;
    let Held { scales, legends } = held;
    Ok(Opened {
        group: group_with(scales, None, marks, axes, legends, title),
        extent: Some(extent),
    })
}

// ---- grids

// How many groups stand in a row at most.
fn columns_written(columns: GridColumns) -> Option<Num>
    ensures { result ≡ columns_written columns }
{
    match columns {
        GridColumns::OneRow | GridColumns::Crossed => None,
        GridColumns::Count(n) => Some(ones(n)),
    }
}

// How groups stand in a grid.
fn layout_of(grid: &GridPlan) -> Layout
    ensures { result ≡ layout_of grid.now }
{
    Layout {
        padding: Some(grid.spacing),
        columns: columns_written(grid.columns),
    }
}

// The names of the lists that a facet parts.
fn parts_of(
    alloc: Global,
    stem: &Text,
    p: &Plan,
    grid: &GridPlan,
    f: &FacetPlan,
) -> Result<Seq<Text>, OutOfMemory>
    ensures { IfOk result (λ names. names ≡ parts_with stem.now p.now (grids_inside p.now.grids grid.now f.now) grid.now f.now) }
{
    let grids = p.grids.as_slice();
    let scales = p.scales.as_slice();
    let mut names = parts_by(alloc, stem, grids, grid, f, scales)?;
    push_outer_names(
        alloc,
        stem,
        p.selections.as_slice(),
        grids,
        grid,
        f,
        scales,
        &mut names,
    )?;
    Ok(names)
}

// The facet of the group of a grid.
fn facet_of(
    alloc: Global,
    stem: &Text,
    p: &Plan,
    grid: &GridPlan,
    f: &FacetPlan,
) -> Result<Facet, OutOfMemory>
    ensures { IfOk result (λ facet. facet ≡ facet_of stem.now p.now grid.now f.now) }
{
    let names = parts_of(alloc, stem, p, grid, f)?;
    facet_over(alloc, names, f)
}

// A value, and the facet of a grid with the order of its copies.
fn facet_beside<K: Drop>(
    alloc: Global,
    kept: K,
    stem: &Text,
    p: &Plan,
    grid: &GridPlan,
    f: &FacetPlan,
) -> Result<(K, (Option<Sort>, Facet)), OutOfMemory>
    ensures { IfOk result (λ both. both ≡ (kept, (sort_of stem.now f.now.fields, facet_of stem.now p.now grid.now f.now))) }
{
    let sort = sort_of(alloc, stem, f.fields.as_slice())?;
    let facet = facet_of(alloc, stem, p, grid, f)?;
    Ok((kept, (sort, facet)))
}

// A value, and a title.
fn title_beside<K: Drop>(kept: K, title: &Option<Text>) -> Result<(K, Option<Text>), OutOfMemory>
    ensures { IfOk result (λ both. both ≡ (kept, title.now)) }
{
    let title = copied_text(title)?;
    Ok((kept, title))
}

// A grid with these groups.
#[inline(never)]
fn grid_with(
    alloc: Global,
    stem: &Text,
    p: &Plan,
    grid: &GridPlan,
    marks: Seq<VgMark>,
    holder: Holder,
) -> Result<Opened, OutOfMemory>
    ensures { IfOk result (λ made. made ≡ grid_opened stem.now p.now grid.now marks holder) }
{
    let (marks, title) = title_beside(marks, &grid.title)?;
    let ((marks, title), held) = held_beside(alloc, (marks, title), stem, p, holder)?;
    let Held { scales, legends } = held;
    Ok(Opened {
        group: group_with(
            scales,
            Some(layout_of(grid)),
            marks,
            Seq::new(alloc),
            legends,
            title,
        ),
        extent: None,
    })
}

// A group for a view, with its facet.
#[inline(never)]
fn as_group(made: Opened, sort: Option<Sort>, facet: Option<Facet>) -> VgMark
    ensures { result ≡ group_for made sort facet }
{
    let Opened { group, extent } = made;
    group_mark(group, extent, facet, sort)
}

// A view that isn't there.
fn no_view(alloc: Global) -> Opened
    ensures { result ≡ opened no_view }
{
    Opened {
        group: group_with(
            Seq::new(alloc),
            None,
            Seq::new(alloc),
            Seq::new(alloc),
            Seq::new(alloc),
            None,
        ),
        extent: None,
    }
}

// ---- views

// The plot at a place.
#[inline(never)]
fn plot_at(
    alloc: Global,
    stem: &Text,
    p: &Plan,
    place: usize,
    holder: Holder,
) -> Result<Opened, OutOfMemory>
    ensures { IfOk result (λ made. made ≡ opened (plot_at stem.now p.now place (held_for stem.now p.now holder))) }
{
    match p.plots.get(place) {
        Some(plot) => plot_opened(alloc, stem, p, plot, holder),
        None => Ok(no_view(alloc)),
    }
}

/// A view of the plan, to what it belongs.
#[cycle(walk)]
pub(crate) fn view_made(
    alloc: Global,
    stem: &Text,
    p: &Plan,
    view: &ViewPlan,
    holder: Holder,
) -> Result<Opened, OutOfMemory>
    ensures { IfOk result (λ made. made ≡ opened (view_made stem.now p.now view.now (held_for stem.now p.now holder))) }
{
    match view {
        ViewPlan::Plot(place) => plot_at(alloc, stem, p, *place, holder),
        ViewPlan::Grid(place, views) => grid_at(alloc, stem, p, *place, views.as_slice(), holder),
    }
}

// The grid at a place, with its views.
#[cycle(walk)]
fn grid_at(
    alloc: Global,
    stem: &Text,
    p: &Plan,
    place: usize,
    views: &[ViewPlan],
    holder: Holder,
) -> Result<Opened, OutOfMemory>
    ensures { IfOk result (λ made. made
        ≡ opened (grid_at stem.now p.now place (map (view_made stem.now p.now) views.now) (held_for stem.now p.now holder))) }
{
    match p.grids.get(place) {
        Some(grid) => grid_made(alloc, stem, p, grid, views, holder),
        None => Ok(no_view(alloc)),
    }
}

// A grid with its views.
#[cycle(walk)]
fn grid_made(
    alloc: Global,
    stem: &Text,
    p: &Plan,
    grid: &GridPlan,
    views: &[ViewPlan],
    holder: Holder,
) -> Result<Opened, OutOfMemory>
    ensures { IfOk result (λ made. made
        ≡ opened (grid_made stem.now p.now (map (view_made stem.now p.now) views.now) grid.now (held_for stem.now p.now holder))) }
{
    let marks = cells_of(alloc, stem, p, grid, views)?;
    grid_with(alloc, stem, p, grid, marks, holder)
}

// The groups of a grid.
#[cycle(walk)]
fn cells_of(
    alloc: Global,
    stem: &Text,
    p: &Plan,
    grid: &GridPlan,
    views: &[ViewPlan],
) -> Result<Seq<VgMark>, OutOfMemory>
    ensures { IfOk result (λ marks. marks ≡ rolled (cells_of stem.now p.now grid.now (map (view_made stem.now p.now) views.now))) }
{
    match &grid.facet {
        Some(f) => faceted(alloc, stem, p, grid, f, views),
        None => joined(alloc, stem, p, views),
    }
}

// The groups of joined views.
#[cycle(walk)]
#[inline(never)]
fn joined(
    alloc: Global,
    stem: &Text,
    p: &Plan,
    views: &[ViewPlan],
) -> Result<Seq<VgMark>, OutOfMemory>
    ensures { IfOk result (λ marks. marks ≡ rolled (joined (map (view_made stem.now p.now) views.now))) }
{
    let mut out = Seq::new(alloc);
    for view in views {
        let made = view_made(alloc, stem, p, view, Holder::Joined)?;
        out.push(as_group(made, None, None))?;
    }
    Ok(out)
}

// The one group of a facet.
#[cycle(walk)]
fn faceted(
    alloc: Global,
    stem: &Text,
    p: &Plan,
    grid: &GridPlan,
    f: &FacetPlan,
    views: &[ViewPlan],
) -> Result<Seq<VgMark>, OutOfMemory>
    ensures { IfOk result (λ marks. marks ≡ rolled (faceted stem.now p.now grid.now f.now (map (view_made stem.now p.now) views.now))) }
{
    match views {
        [view, ..] => {
            let made = view_made(alloc, stem, p, view, Holder::Facet(grid.number))?;
            facet_group(alloc, stem, p, grid, f, made)
        }
        [] => Ok(Seq::new(alloc)),
    }
}

// A group in the panels of a facet.
#[inline(never)]
fn facet_group(
    alloc: Global,
    stem: &Text,
    p: &Plan,
    grid: &GridPlan,
    f: &FacetPlan,
    made: Opened,
) -> Result<Seq<VgMark>, OutOfMemory>
    ensures { IfOk result (λ marks. marks
        ≡ group_for made (sort_of stem.now f.now.fields) (Some (facet_of stem.now p.now grid.now f.now)) ∷ []) }
{
    let (made, (sort, facet)) = facet_beside(alloc, made, stem, p, grid, f)?;
    let mut out = Seq::new(alloc);
    out.push(as_group(made, sort, Some(facet)))?;
    Ok(out)
}
