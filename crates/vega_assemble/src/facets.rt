// Facets.
ghost use Rattle.std.specs.Prelude.{◌≡◌, ◌++◌, map, flat_map, false, IfOk, OnOk};
ghost use Rattle.std.specs.Option.{option_map_or};
ghost use Rattle.plan_kit.specs.Among.{is_among};
ghost use Rattle.vega_spec.specs.declared.data.DataSet.{DataSet as ADataSet};
ghost use Rattle.vega_assemble.specs.Names.{unit_name, keys_name};
ghost use Rattle.vega_assemble.specs.Lists.{lists_of_scale};
ghost use Rattle.vega_assemble.specs.Facets.{names_of_keys, first_of, is_grid_inside, grids_inside, holds, is_held, scales_inside, scale_names};
ghost use Rattle.vega_assemble.specs.Facets.{keys_inside, deeper, parts_by, header_of, crossing, facet_over};

use crate::keys::has_keys;
use crate::lists::{field_names, is_among, push_lists};
use crate::names::{keys_name, unit_name};
use crate::several::copied_texts;
use plan_kit::{FacetField, FacetPlan, GridPlan, ScalePlan};
use std::alloc::Global;
use text_kit::{OutOfMemory, Seq, Text};
use vega_spec::{Cross, DataSet, Facet, Header, Texts};

// ---- facets inside a facet

// Whether the first of some units is one of others.
fn first_is_among(units: &[usize], first: &[usize]) -> bool
    ensures { result ≡ option_map_or (is_among units.now) (first_of first.now) false }
{
    match first {
        [unit, ..] => is_among(units, *unit),
        [] => false,
    }
}

/// Whether a grid's facet is at or inside another.
pub(crate) fn is_grid_inside(outer: &GridPlan, parts: &FacetPlan, inner: &GridPlan) -> bool
    ensures { result ≡ is_grid_inside outer.now parts.now inner.now }
{
    match &inner.facet {
        Some(f) => outer.number <= inner.number
            && first_is_among(parts.units.as_slice(), f.units.as_slice()),
        None => false,
    }
}

// Whether a facet of this number is at or inside a facet.
fn holds(grids: &[GridPlan], outer: &GridPlan, parts: &FacetPlan, number: usize) -> bool
    ensures { result ≡ holds (grids_inside grids.now outer.now parts.now) number }
{
    for grid in grids {
        if is_grid_inside(outer, parts, grid) && grid.number == number {
            return true;
        }
    }
    false
}

/// Whether a scale stands once in a panel of a facet, or of one inside it.
pub(crate) fn is_held(
    grids: &[GridPlan],
    outer: &GridPlan,
    parts: &FacetPlan,
    number: usize,
    scale: &ScalePlan,
) -> bool
    ensures { result ≡ is_held (grids_inside grids.now outer.now parts.now) (number, scale.now) }
{
    let _ = number;
    match scale.holder {
        Some(holder) => holds(grids, outer, parts, holder),
        None => false,
    }
}

// ---- names of parts

// Adds the names of a facet's lists of keys.
fn push_key_names(
    alloc: Global,
    stem: &Text,
    number: usize,
    f: &FacetPlan,
    out: &mut Seq<Text>,
) -> Result<(), OutOfMemory>
    ensures { OnOk result (out.new ≡ out.old ++ names_of_keys stem.now number f.now) }
{
    if has_keys(f.fields.as_slice()) {
        push_unit_keys(alloc, stem, number, f.units.as_slice(), out)
    } else {
        Ok(())
    }
}

// Adds those of units.
fn push_unit_keys(
    alloc: Global,
    stem: &Text,
    number: usize,
    units: &[usize],
    out: &mut Seq<Text>,
) -> Result<(), OutOfMemory>
    ensures { OnOk result (out.new ≡ out.old ++ map (keys_name stem.now number) units.now) }
{
    for unit in units {
        out.push(keys_name(alloc, stem, number, *unit)?)?;
    }
    Ok(())
}

// Adds the names of the rows of units.
fn push_unit_names(
    alloc: Global,
    stem: &Text,
    units: &[usize],
    out: &mut Seq<Text>,
) -> Result<(), OutOfMemory>
    ensures { OnOk result (out.new ≡ out.old ++ map (unit_name stem.now) units.now) }
{
    for unit in units {
        out.push(unit_name(alloc, stem, *unit)?)?;
    }
    Ok(())
}

/// Adds the names of data sets.
pub(crate) fn push_set_names(sets: &[DataSet], out: &mut Seq<Text>) -> Result<(), OutOfMemory>
    ensures { OnOk result (out.new ≡ out.old ++ map (λ (set : ADataSet). set.name) sets.now) }
{
    for set in sets {
        out.push(set.name.copy()?)?;
    }
    Ok(())
}

// The lists that only the domains of scales held there read.
fn lists_held(
    alloc: Global,
    stem: &Text,
    grids: &[GridPlan],
    outer: &GridPlan,
    parts: &FacetPlan,
    scales: &[ScalePlan],
) -> Result<Seq<DataSet>, OutOfMemory>
    ensures { IfOk result (λ sets. sets
        ≡ flat_map (lists_of_scale stem.now grids.now) (scales_inside (grids_inside grids.now outer.now parts.now) scales.now)) }
{
    let mut out = Seq::new(alloc);
    for (number, scale) in scales.iter().enumerate() {
        if is_held(grids, outer, parts, number, scale) {
            push_lists(alloc, stem, grids, number, scale, &mut out)?;
        }
    }
    Ok(out)
}

// Adds their names.
fn push_scale_names(
    alloc: Global,
    stem: &Text,
    grids: &[GridPlan],
    outer: &GridPlan,
    parts: &FacetPlan,
    scales: &[ScalePlan],
    out: &mut Seq<Text>,
) -> Result<(), OutOfMemory>
    ensures { OnOk result (out.new ≡ out.old
        ++ scale_names stem.now grids.now (scales_inside (grids_inside grids.now outer.now parts.now) scales.now)) }
{
    let sets = lists_held(alloc, stem, grids, outer, parts, scales)?;
    push_set_names(sets.as_slice(), out)
}

// Adds the keys of a grid's facet.
fn push_keys_inside(
    alloc: Global,
    stem: &Text,
    grid: &GridPlan,
    out: &mut Seq<Text>,
) -> Result<(), OutOfMemory>
    ensures { OnOk result (out.new ≡ out.old ++ keys_inside stem.now grid.now) }
{
    match &grid.facet {
        Some(f) => push_key_names(alloc, stem, grid.number, f, out),
        None => Ok(()),
    }
}

// Adds the keys of the facets inside a facet.
fn push_deeper_keys(
    alloc: Global,
    stem: &Text,
    grids: &[GridPlan],
    outer: &GridPlan,
    parts: &FacetPlan,
    out: &mut Seq<Text>,
) -> Result<(), OutOfMemory>
    ensures { OnOk result (out.new ≡ out.old
        ++ flat_map (keys_inside stem.now) (deeper outer.now.number (grids_inside grids.now outer.now parts.now))) }
{
    for grid in grids {
        if is_grid_inside(outer, parts, grid) && grid.number != outer.number {
            push_keys_inside(alloc, stem, grid, out)?;
        }
    }
    Ok(())
}

/// The names of all lists that a facet parts, but for those of copies of scales, which come behind.
pub(crate) fn parts_by(
    alloc: Global,
    stem: &Text,
    grids: &[GridPlan],
    outer: &GridPlan,
    parts: &FacetPlan,
    scales: &[ScalePlan],
) -> Result<Seq<Text>, OutOfMemory>
    ensures { IfOk result (λ names. names ≡ parts_by stem.now grids.now (grids_inside grids.now outer.now parts.now)
        (scales_inside (grids_inside grids.now outer.now parts.now) scales.now) outer.now.number parts.now) }
{
    let mut names = Seq::new(alloc);
    push_key_names(alloc, stem, outer.number, parts, &mut names)?;
    push_unit_names(alloc, stem, parts.units.as_slice(), &mut names)?;
    push_scale_names(alloc, stem, grids, outer, parts, scales, &mut names)?;
    push_deeper_keys(alloc, stem, grids, outer, parts, &mut names)?;
    Ok(names)
}

// ---- the facet of a group

// The header of a field.
fn header_of(field: &FacetField) -> Option<Header>
    ensures { result ≡ header_of field.now }
{
    if field.labels {
        if field.is_beside {
            Some(Header::Row)
        } else {
            Some(Header::Column)
        }
    } else {
        None
    }
}

// The headers of fields.
fn headers_of(alloc: Global, fields: &[FacetField]) -> Result<Seq<Option<Header>>, OutOfMemory>
    ensures { IfOk result (λ headers. headers ≡ map header_of fields.now) }
{
    let mut out = Seq::new(alloc);
    for field in fields {
        out.push(header_of(field))?;
    }
    Ok(out)
}

// Whether each choice of cells is a panel.
fn crossing(fields: &[FacetField]) -> Option<Cross>
    ensures { result ≡ crossing fields.now }
{
    match fields {
        [_] => None,
        _ => Some(Cross { cross: Some(true) }),
    }
}

/// A facet that parts lists of these names, each under its own.
pub(crate) fn facet_over(
    alloc: Global,
    names: Seq<Text>,
    f: &FacetPlan,
) -> Result<Facet, OutOfMemory>
    ensures { IfOk result (λ facet. facet ≡ facet_over names f.now) }
{
    let data_ = copied_texts(alloc, names.as_slice())?;
    let groupby = field_names(alloc, f)?;
    let headers = headers_of(alloc, f.fields.as_slice())?;
    Ok(Facet {
        name: Texts::Several(names),
        data_: Texts::Several(data_),
        groupby,
        aggregate: crossing(f.fields.as_slice()),
        headers: Some(headers),
    })
}
