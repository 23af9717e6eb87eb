// The compiled specification.
ghost use Rattle.std.specs.Prelude.{◌≡◌, ◌++◌, map, flat_map, IfOk, OnOk};
ghost use Rattle.std.specs.List.{enumerate_from, list_any};
ghost use Rattle.vega_assemble.specs.Lists.{lists_for_scale};
ghost use Rattle.vega_assemble.specs.Keys.{lists_of_grid, grid_begins};
ghost use Rattle.vega_assemble.specs.Names.{none_name};
ghost use Rattle.vega_assemble.specs.Signals.{signals_of};
ghost use Rattle.vega_assemble.specs.Sources.{source_written};
ghost use Rattle.vega_assemble.specs.Steps.{steps_written};
ghost use Rattle.vega_assemble.specs.Assembled.{first_name, none_steps, none_list, unit_list, begun_list, scale_begins, is_begun, begun_lists};
ghost use Rattle.vega_assemble.specs.Assembled.{lists_made, sets_of, written_with, written};
ghost use Rattle.vega_assemble.specs.inner.Groups.{lists_in, top_with};

use crate::drags::push_all_outer;
use crate::keys::{grid_begins, push_grid};
use crate::lists::{domain_begins, push_all_for};
use crate::made::{top_with, with_lists};
use crate::mentioned::mentioned;
use crate::names::{begun_name, none_name, unit_name};
use crate::several::two_of;
use crate::signals::signals_of;
use crate::sources::{list_made, source_written};
use crate::stems::stem_for;
use crate::steps::push_steps;
use crate::views::{Holder, Opened, view_made};
use expr_syntax::Expr;
use plan_kit::{GridPlan, Plan, ScalePlan, UnitPlan};
use std::alloc::Global;
use text_kit::{OutOfMemory, Seq, Text};
use vega_spec::{DataSet, Extent, Filter, Signal, Transform, VgSpec};
use vl_spec::{SourceOf, VlSpec};

// ---- data sets

// The name of the first source; empty without one.
fn first_name(alloc: Global, sources: &[SourceOf]) -> Result<Text, OutOfMemory>
    ensures { IfOk result (λ name. name ≡ first_name sources.now) }
{
    match sources {
        [source, ..] => source.name.copy(),
        [] => Ok(Text::new(alloc)),
    }
}

// The steps that leave no row, and their signal.
fn none_steps(alloc: Global, stem: &Text) -> Result<Seq<Transform>, OutOfMemory>
    ensures { IfOk result (λ steps. steps ≡ none_steps (none_name stem.now)) }
{
    let field = none_name(stem)?;
    let signal = none_name(stem)?;
    two_of(
        alloc,
        Transform::Filter(Filter {
            expr: Expr::Flag(false),
        }),
        Transform::Extent(Extent { field, signal }),
    )
}

// The list without rows.
fn none_list(alloc: Global, stem: &Text, sources: &[SourceOf]) -> Result<DataSet, OutOfMemory>
    ensures { IfOk result (λ set. set ≡ none_list stem.now sources.now) }
{
    let name = none_name(stem)?;
    let source = first_name(alloc, sources)?;
    let steps = none_steps(alloc, stem)?;
    Ok(list_made(name, source, steps))
}

// Adds the sources.
fn push_sources(
    alloc: Global,
    sources: &[SourceOf],
    out: &mut Seq<DataSet>,
) -> Result<(), OutOfMemory>
    ensures { OnOk result (out.new ≡ out.old ++ map source_written sources.now) }
{
    for source in sources {
        out.push(source_written(alloc, source)?)?;
    }
    Ok(())
}

// The steps of a unit.
fn unit_steps(alloc: Global, stem: &Text, unit: &UnitPlan) -> Result<Seq<Transform>, OutOfMemory>
    ensures { IfOk result (λ steps. steps ≡ steps_written stem.now (unit.now.before ++ unit.now.after)) }
{
    let mut steps = Seq::new(alloc);
    push_steps(alloc, stem, unit.before.as_slice(), &mut steps)?;
    push_steps(alloc, stem, unit.after.as_slice(), &mut steps)?;
    Ok(steps)
}

// The rows of a unit.
fn unit_list(alloc: Global, stem: &Text, unit: &UnitPlan) -> Result<DataSet, OutOfMemory>
    ensures { IfOk result (λ set. set ≡ unit_list stem.now unit.now) }
{
    let name = unit_name(alloc, stem, unit.number)?;
    let source = unit.source.copy()?;
    let steps = unit_steps(alloc, stem, unit)?;
    Ok(list_made(name, source, steps))
}

// Its steps before its aggregate.
fn begun_steps(alloc: Global, stem: &Text, unit: &UnitPlan) -> Result<Seq<Transform>, OutOfMemory>
    ensures { IfOk result (λ steps. steps ≡ steps_written stem.now unit.now.before) }
{
    let mut steps = Seq::new(alloc);
    push_steps(alloc, stem, unit.before.as_slice(), &mut steps)?;
    Ok(steps)
}

// Its rows before its aggregate.
fn begun_list(alloc: Global, stem: &Text, unit: &UnitPlan) -> Result<DataSet, OutOfMemory>
    ensures { IfOk result (λ set. set ≡ begun_list stem.now unit.now) }
{
    let name = begun_name(alloc, stem, unit.number)?;
    let source = unit.source.copy()?;
    let steps = begun_steps(alloc, stem, unit)?;
    Ok(list_made(name, source, steps))
}

// Whether the domain of a scale reads these, and whether a facet does.
fn scales_begin(unit: usize, scales: &[ScalePlan]) -> bool
    ensures { result ≡ list_any (scale_begins unit) scales.now }
{
    for scale in scales {
        if domain_begins(unit, &scale.domain) {
            return true;
        }
    }
    false
}

fn grids_begin(unit: usize, grids: &[GridPlan]) -> bool
    ensures { result ≡ list_any (grid_begins unit) grids.now }
{
    for grid in grids {
        if grid_begins(unit, grid) {
            return true;
        }
    }
    false
}

// Whether an order reads them.
fn is_begun(p: &Plan, unit: &UnitPlan) -> bool
    ensures { result ≡ is_begun p.now unit.now }
{
    scales_begin(unit.number, p.scales.as_slice()) || grids_begin(unit.number, p.grids.as_slice())
}

// Adds the rows of units.
fn push_units(
    alloc: Global,
    stem: &Text,
    units: &[UnitPlan],
    out: &mut Seq<DataSet>,
) -> Result<(), OutOfMemory>
    ensures { OnOk result (out.new ≡ out.old ++ map (unit_list stem.now) units.now) }
{
    for unit in units {
        out.push(unit_list(alloc, stem, unit)?)?;
    }
    Ok(())
}

// Adds those before their aggregates that an order reads.
fn push_begun(
    alloc: Global,
    stem: &Text,
    p: &Plan,
    out: &mut Seq<DataSet>,
) -> Result<(), OutOfMemory>
    ensures { OnOk result (out.new ≡ out.old ++ begun_lists stem.now p.now) }
{
    for unit in p.units.as_slice() {
        if is_begun(p, unit) {
            out.push(begun_list(alloc, stem, unit)?)?;
        }
    }
    Ok(())
}

// Adds what domains read besides.
fn push_all_lists(
    alloc: Global,
    stem: &Text,
    p: &Plan,
    out: &mut Seq<DataSet>,
) -> Result<(), OutOfMemory>
    ensures { OnOk result (out.new ≡ out.old ++ flat_map (lists_for_scale stem.now p.now.grids) (enumerate_from 0 p.now.scales)) }
{
    for (number, scale) in p.scales.as_slice().iter().enumerate() {
        push_all_for(alloc, stem, p.grids.as_slice(), number, scale, out)?;
    }
    Ok(())
}

// Adds what facets read besides.
fn push_grids(
    alloc: Global,
    stem: &Text,
    grids: &[GridPlan],
    out: &mut Seq<DataSet>,
) -> Result<(), OutOfMemory>
    ensures { OnOk result (out.new ≡ out.old ++ flat_map (lists_of_grid stem.now) grids.now) }
{
    for grid in grids {
        push_grid(alloc, stem, grid, out)?;
    }
    Ok(())
}

// Adds all data sets that are no sources.
fn push_made(
    alloc: Global,
    stem: &Text,
    p: &Plan,
    out: &mut Seq<DataSet>,
) -> Result<(), OutOfMemory>
    ensures { OnOk result (out.new ≡ out.old ++ lists_made stem.now p.now) }
{
    push_units(alloc, stem, p.units.as_slice(), out)?;
    push_begun(alloc, stem, p, out)?;
    push_all_lists(alloc, stem, p, out)?;
    push_grids(alloc, stem, p.grids.as_slice(), out)?;
    push_all_outer(
        alloc,
        stem,
        p.selections.as_slice(),
        p.scales.as_slice(),
        out,
    )
}

// All data sets.
fn sets_of(alloc: Global, stem: &Text, s: &VlSpec, p: &Plan) -> Result<Seq<DataSet>, OutOfMemory>
    ensures { IfOk result (λ sets. sets ≡ sets_of stem.now s.now p.now) }
{
    let mut out = Seq::new(alloc);
    push_sources(alloc, s.sources.as_slice(), &mut out)?;
    out.push(none_list(alloc, stem, s.sources.as_slice())?)?;
    push_made(alloc, stem, p, &mut out)?;
    Ok(out)
}

// ---- the whole

// The data sets and the signals.
fn lists_of(
    alloc: Global,
    stem: &Text,
    s: &VlSpec,
    p: &Plan,
) -> Result<(Seq<DataSet>, Seq<Signal>), OutOfMemory>
    ensures { IfOk result (λ both. both ≡ (sets_of stem.now s.now p.now, signals_of stem.now p.now.scales p.now.selections s.now.params)) }
{
    let signals = signals_of(
        alloc,
        stem,
        p.scales.as_slice(),
        p.selections.as_slice(),
        s.params.as_slice(),
    )?;
    let sets = sets_of(alloc, stem, s, p)?;
    Ok((sets, signals))
}

// A value, and these.
fn lists_beside<K: Drop>(
    alloc: Global,
    kept: K,
    stem: &Text,
    s: &VlSpec,
    p: &Plan,
) -> Result<(K, (Seq<DataSet>, Seq<Signal>)), OutOfMemory>
    ensures { IfOk result (λ both. both
        ≡ (kept, (sets_of stem.now s.now p.now, signals_of stem.now p.now.scales p.now.selections s.now.params))) }
{
    let lists = lists_of(alloc, stem, s, p)?;
    Ok((kept, lists))
}

// An object as the top of a plan, with the data sets and the signals.
fn top_of(
    alloc: Global,
    stem: &Text,
    s: &VlSpec,
    p: &Plan,
    made: Opened,
) -> Result<VgSpec, OutOfMemory>
    ensures { IfOk result (λ g. g ≡ top_with
        (lists_in made.group (sets_of stem.now s.now p.now) (signals_of stem.now p.now.scales p.now.selections s.now.params))
        made.extent
        p.now.padding) }
{
    let (Opened { group, extent }, (sets, signals)) = lists_beside(alloc, made, stem, s, p)?;
    top_with(alloc, with_lists(group, sets, signals), extent, p.padding)
}

// A plan written down, with this stem before the names that are made.
fn written_with(alloc: Global, stem: &Text, s: &VlSpec, p: &Plan) -> Result<VgSpec, OutOfMemory>
    ensures { IfOk result (λ g. g ≡ written_with stem.now s.now p.now) }
{
    let made = view_made(alloc, stem, p, &p.view, Holder::Chart)?;
    top_of(alloc, stem, s, p, made)
}

/// A plan of a specification, written down as one of Vega. Its sources and its parameters have the names of the specification, and the names that it
/// makes besides differ from every name that the specification mentions. In time near linear in both for a given number of units; expressions are as
/// high as the logarithm of the longest list. The one error is that memory is refused.
pub fn written(alloc: Global, s: &VlSpec, p: &Plan) -> Result<VgSpec, OutOfMemory>
    ensures { IfOk result (λ g. g ≡ written s.now p.now) }
{
    let names = mentioned(alloc, s, p)?;
    let stem = stem_for(alloc, names.as_slice())?;
    written_with(alloc, &stem, s, p)
}
