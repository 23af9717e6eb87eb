// The plan of a chart.
ghost use Rattle.std.specs.Prelude.{◌≡◌, map, unwrap_or, IfOk};
ghost use Rattle.vl_compose.specs.Shown.{unit_shown};
ghost use Rattle.chart_plan.specs.Plan.{all_scales, unit_by, usual_padding, plan_with, plan_over, plan_among, normal_plan, plan_of};

use crate::grids::grids_of;
use crate::plots::plots_of;
use crate::scales::{scales_of, seen_by};
use crate::selections::selections_of;
use crate::shown::scales_among;
use crate::views::view_of;
use fixed_num::Num;
use plan_kit::{GridPlan, Plan, PlotPlan, ScalePlan, SelectionPlan, UnitPlan, ViewPlan};
use scale_infer::infer;
use std::alloc::Global;
use text_kit::{OutOfMemory, Seq};
use unit_plan::{SelectionNames, selection_names, unit_plan_of};
use vl_compose::{UnitHere, units_of, views_of};
use vl_normalize::normalize;
use vl_spec::{ParamOf, VlSpec};

// The scales of a specification in normal form.
fn all_scales(alloc: Global, s: &VlSpec, units: &[UnitHere]) -> Result<Seq<ScalePlan>, OutOfMemory>
    ensures { IfOk result (λ scales. scales ≡ all_scales s.now (map unit_shown units.now)) }
{
    let views = views_of(alloc, s)?;
    let shared = scales_among(alloc, units)?;
    let inferred = infer(alloc, s, &views, &shared)?;
    scales_of(alloc, s.params.as_slice(), units, inferred.as_slice())
}

// The plan of a unit.
fn unit_by(
    alloc: Global,
    names: &SelectionNames,
    scales: &[ScalePlan],
    unit: &UnitHere,
) -> Result<UnitPlan, OutOfMemory>
    ensures { IfOk result (λ plan. plan ≡ unit_by names.now.params.now scales.now (unit_shown unit.now)) }
{
    let seen = seen_by(alloc, scales, unit.number)?;
    unit_plan_of(alloc, names, unit, seen.as_slice())
}

// The plans of units, where it is known which names are selections.
fn units_named(
    alloc: Global,
    names: &SelectionNames,
    scales: &[ScalePlan],
    units: &[UnitHere],
) -> Result<Seq<UnitPlan>, OutOfMemory>
    ensures { IfOk result (λ plans. plans ≡ map (unit_by names.now.params.now scales.now) (map unit_shown units.now)) }
{
    let mut plans = Seq::new(alloc);
    for unit in units {
        plans.push(unit_by(alloc, names, scales, unit)?)?;
    }
    Ok(plans)
}

// The plans of units.
fn units_by(
    alloc: Global,
    params: &[ParamOf],
    scales: &[ScalePlan],
    units: &[UnitHere],
) -> Result<Seq<UnitPlan>, OutOfMemory>
    ensures { IfOk result (λ plans. plans ≡ map (unit_by params.now scales.now) (map unit_shown units.now)) }
{
    let names = selection_names(alloc, params)?;
    units_named(alloc, &names, scales, units)
}

// The space round a picture.
fn padding_of(padding: Option<Num>) -> Num
    ensures { result ≡ unwrap_or padding usual_padding }
{
    match padding {
        Some(padding) => padding,
        None => match Num::of_millionths(5_000_000) {
            Some(padding) => padding,
            None => unreachable!(),
        },
    }
}

// The plan of a specification with these scales and plots.
fn plan_with(
    alloc: Global,
    s: &VlSpec,
    here: &[UnitHere],
    scales: Seq<ScalePlan>,
    plots: Seq<PlotPlan>,
) -> Result<Plan, OutOfMemory>
    ensures { IfOk result (λ plan. plan ≡ plan_with s.now (map unit_shown here.now) scales plots) }
{
    let grids = grids_of(alloc, here)?;
    let view = view_of(alloc, s)?;
    let selections = selections_of(
        alloc,
        here,
        scales.as_slice(),
        plots.as_slice(),
        s.params.as_slice(),
    )?;
    let units = units_by(alloc, s.params.as_slice(), scales.as_slice(), here)?;
    Ok(Plan {
        units,
        scales,
        plots,
        grids,
        view,
        padding: padding_of(s.padding),
        selections,
    })
}

// The plan of a specification with these scales.
fn plan_over(
    alloc: Global,
    s: &VlSpec,
    here: &[UnitHere],
    scales: Seq<ScalePlan>,
) -> Result<Plan, OutOfMemory>
    ensures { IfOk result (λ plan. plan ≡ plan_over s.now (map unit_shown here.now) scales) }
{
    let plots = plots_of(alloc, &s.config, scales.as_slice(), here)?;
    plan_with(alloc, s, here, scales, plots)
}

// The plan of a specification with these units.
fn plan_among(alloc: Global, s: &VlSpec, here: &[UnitHere]) -> Result<Plan, OutOfMemory>
    ensures { IfOk result (λ plan. plan ≡ plan_among s.now (map unit_shown here.now)) }
{
    let scales = all_scales(alloc, s, here)?;
    plan_over(alloc, s, here, scales)
}

// The plan of a specification in normal form.
fn normal_plan(alloc: Global, s: &VlSpec) -> Result<Plan, OutOfMemory>
    ensures { IfOk result (λ plan. plan ≡ normal_plan s.now) }
{
    let units = units_of(alloc, s)?;
    plan_among(alloc, s, units.as_slice())
}

/// The plan of a chart: all that is inferred of a specification, in time near linear in it for a given number of units.
pub fn plan_of(alloc: Global, s: &VlSpec) -> Result<Plan, OutOfMemory>
    ensures { IfOk result (λ plan. plan ≡ plan_of s.now) }
{
    let normal = normalize(alloc, s)?;
    normal_plan(alloc, &normal)
}
