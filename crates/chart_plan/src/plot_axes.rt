// Which axes plots have, and where.
ghost use Rattle.std.specs.Prelude.{◌≡◌, ◌==◌, ◌++◌, ◌∷◌, [], map, IfOk, OnOk, if◌then◌else◌};
ghost use Rattle.vl_compose.specs.Shown.{unit_shown};
ghost use Rattle.chart_plan.specs.Plots.{is_in, unit_shows, all_shows, axis_definitions, is_behind, edges_of, axis_plan, and_axis};
ghost use Rattle.chart_plan.specs.Plots.{with_axis, axes_along, axes_of};

use crate::plots::is_in;
use crate::shown::push_shown;
use guide_infer::{axis_by, is_bare, with_axes};
use plan_kit::{AxisPlan, ScalePlan};
use std::alloc::Global;
use text_kit::{OutOfMemory, Seq};
use vl_compose::UnitHere;
use vl_normalize::{X, Y};
use vl_spec::Definition;

// Adds what a unit in a plot shows on a scale.
fn push_shows<'s>(
    alloc: Global,
    plot: usize,
    scale: &ScalePlan,
    unit: &UnitHere<'s>,
    out: &mut Seq<&'s Definition>,
) -> Result<(), OutOfMemory>
    ensures { OnOk result (map (λ d. d.now) out.new ≡ map (λ d. d.now) out.old ++ unit_shows plot scale.now (unit_shown unit.now)) }
{
    if is_in(plot, unit) {
        push_shown(alloc, unit, scale.channel, scale.units.as_slice(), out)
    } else {
        Ok(())
    }
}

// What all units in a plot show on a scale.
fn all_shows<'s>(
    alloc: Global,
    plot: usize,
    scale: &ScalePlan,
    units: &[UnitHere<'s>],
) -> Result<Seq<&'s Definition>, OutOfMemory>
    ensures { IfOk result (λ out. map (λ d. d.now) out ≡ all_shows plot scale.now (map unit_shown units.now)) }
{
    let mut out = Seq::new(alloc);
    for unit in units {
        push_shows(alloc, plot, scale, unit, &mut out)?;
    }
    Ok(out)
}

// What they show that counts for an axis.
fn axis_definitions<'s>(
    alloc: Global,
    plot: usize,
    scale: &ScalePlan,
    units: &[UnitHere<'s>],
) -> Result<Seq<&'s Definition>, OutOfMemory>
    ensures { IfOk result (λ out. map (λ d. d.now) out ≡ axis_definitions plot scale.now (map unit_shown units.now)) }
{
    let shown = all_shows(alloc, plot, scale, units)?;
    with_axes(alloc, shown.as_slice())
}

// Whether a facet is inside another.
fn is_behind(holder: &Option<usize>, facet: usize) -> bool
    ensures { result ≡ is_behind holder.now facet }
{
    match holder {
        Some(holder) => *holder < facet,
        None => true,
    }
}

// Adds a facet that is inside another.
fn push_edge(
    holder: &Option<usize>,
    facet: usize,
    edges: &mut Seq<usize>,
) -> Result<(), OutOfMemory>
    ensures { OnOk result (edges.new ≡ edges.old ++ (if is_behind holder.now facet then facet ∷ [] else [])) }
{
    if is_behind(holder, facet) {
        edges.push(facet)
    } else {
        Ok(())
    }
}

// The facets that share a scale among their panels.
fn edges_of(
    alloc: Global,
    holder: &Option<usize>,
    facets: &[usize],
) -> Result<Seq<usize>, OutOfMemory>
    ensures { IfOk result (λ edges. edges ≡ edges_of holder.now facets.now) }
{
    let mut edges = Seq::new(alloc);
    for facet in facets {
        push_edge(holder, *facet, &mut edges)?;
    }
    Ok(edges)
}

// An axis behind those that are drawn before it.
fn axis_plan(
    alloc: Global,
    facets: &[usize],
    number: usize,
    scale: &ScalePlan,
    before: usize,
    definitions: &[&Definition],
) -> Result<AxisPlan, OutOfMemory>
    ensures { IfOk result (λ axis. axis ≡ axis_plan facets.now number scale.now before (map (λ d. d.now) definitions.now)) }
{
    let edges = edges_of(alloc, &scale.holder, facets)?;
    let axis = axis_by(alloc, scale.channel, scale.kind, before, definitions)?;
    Ok(AxisPlan {
        scale: number,
        axis,
        edges,
    })
}

// Adds an axis, if a definition counts for it.
fn push_axis(
    alloc: Global,
    facets: &[usize],
    number: usize,
    scale: &ScalePlan,
    axes: &mut Seq<AxisPlan>,
    definitions: &[&Definition],
) -> Result<(), OutOfMemory>
    ensures { OnOk result (axes.new ≡ and_axis facets.now number scale.now axes.old (map (λ d. d.now) definitions.now)) }
{
    if is_bare(definitions) {
        Ok(())
    } else {
        let before = axes.len();
        axes.push(axis_plan(alloc, facets, number, scale, before, definitions)?)
    }
}

// Adds the axis of a scale of a channel.
fn push_if_along(
    alloc: Global,
    channel: u16,
    plot: usize,
    facets: &[usize],
    units: &[UnitHere],
    axes: &mut Seq<AxisPlan>,
    number: usize,
    scale: &ScalePlan,
) -> Result<(), OutOfMemory>
    ensures { OnOk result (axes.new ≡ with_axis channel plot facets.now (map unit_shown units.now) axes.old (number, scale.now)) }
{
    if scale.channel == channel {
        let definitions = axis_definitions(alloc, plot, scale, units)?;
        push_axis(alloc, facets, number, scale, axes, definitions.as_slice())
    } else {
        Ok(())
    }
}

// The axes of a plot along a channel.
fn axes_along(
    alloc: Global,
    channel: u16,
    plot: usize,
    facets: &[usize],
    scales: &[ScalePlan],
    units: &[UnitHere],
) -> Result<Seq<AxisPlan>, OutOfMemory>
    ensures { IfOk result (λ axes. axes ≡ axes_along channel plot facets.now scales.now (map unit_shown units.now)) }
{
    let mut axes = Seq::new(alloc);
    for (number, scale) in scales.iter().enumerate() {
        push_if_along(
            alloc, channel, plot, facets, units, &mut axes, number, scale,
        )?;
    }
    Ok(axes)
}

// The axes of a plot.
pub(crate) fn axes_of(
    alloc: Global,
    plot: usize,
    facets: &[usize],
    scales: &[ScalePlan],
    units: &[UnitHere],
) -> Result<Seq<AxisPlan>, OutOfMemory>
    ensures { IfOk result (λ axes. axes ≡ axes_of plot facets.now scales.now (map unit_shown units.now)) }
{
    let mut axes = axes_along(alloc, X, plot, facets, scales, units)?;
    axes.append(axes_along(alloc, Y, plot, facets, scales, units)?)?;
    Ok(axes)
}
