// What drags invert.
ghost use Rattle.std.specs.Prelude.{◌≡◌, ◌++◌, ◌∷◌, ◌==◌, [], map, flat_map, option_to_list, IfOk, OnOk, if◌then◌else◌};
ghost use Rattle.std.specs.List.{enumerate_from, list_all};
ghost use Rattle.plan_kit.specs.declared.domains.DomainPlan.TheVariants as plan;
ghost use Rattle.vega_assemble.specs.Facets.{grids_inside, scales_inside};
ghost use Rattle.vega_assemble.specs.Names.{drag_name};
ghost use Rattle.vega_assemble.specs.Drags.{scales_along, differ, one_name, dragged_name, copies_along, copies, is_copied, references_of};
ghost use Rattle.vega_assemble.specs.Drags.{outer_list, outer_lists, all_outer, outer_names, reference_outside, domain_outside, copy_of, copy_at};
ghost use Rattle.vega_assemble.specs.Drags.{is_drag_in, scale_in_plot, copy_along, copies_for, copies_in};

use crate::domains::referred;
use crate::facets::{is_held, push_set_names};
use crate::lists::is_among;
use crate::names::{drag_name, outer_name, scale_name};
use crate::scales::scale_over;
use crate::sources::list_made;
use plan_kit::{
    DomainPlan, DragPlan, FacetPlan, GridPlan, PlotPlan, RowCells, ScalePlan, SelectionPlan,
};
use std::alloc::Global;
use text_kit::{Copies, OutOfMemory, Seq, Text};
use vega_spec::{DataSet, Domain, FieldsDomain, Reference, Scale};
use vl_normalize::{X, Y};

// ---- scales of drags

// The numbers of the scales that the drags of a selection invert along a channel.
fn scales_along(alloc: Global, channel: u16, s: &SelectionPlan) -> Result<Seq<usize>, OutOfMemory>
    ensures { IfOk result (λ numbers. numbers ≡ scales_along channel s.now) }
{
    let mut out = Seq::new(alloc);
    for drag in s.drags.as_slice() {
        push_along(channel, drag.channel, drag.scale, &mut out)?;
    }
    Ok(out)
}

// Adds a number, if it is that of a drag along a channel.
fn push_along(channel: u16, own: u16, scale: usize, out: &mut Seq<usize>) -> Result<(), OutOfMemory>
    ensures { OnOk result (out.new ≡ out.old ++ (if own == channel then scale ∷ [] else [])) }
{
    if own == channel {
        out.push(scale)
    } else {
        Ok(())
    }
}

// Whether all numbers are one.
fn are_all(numbers: &[usize], n: usize) -> bool
    ensures { result ≡ list_all (λ m. m == n) numbers.now }
{
    for number in numbers {
        if *number != n {
            return false;
        }
    }
    true
}

// Whether they differ.
fn differ(numbers: &[usize]) -> bool
    ensures { result ≡ differ numbers.now }
{
    match numbers {
        [first, others @ ..] => !are_all(others, *first),
        [] => false,
    }
}

// The name of the first of some scales.
fn one_name(
    alloc: Global,
    stem: &Text,
    scales: &[ScalePlan],
    numbers: &[usize],
) -> Result<Text, OutOfMemory>
    ensures { IfOk result (λ name. name ≡ one_name stem.now scales.now numbers.now) }
{
    match numbers {
        [first, ..] => scale_name(alloc, stem, scales, *first),
        [] => Ok(Text::new(alloc)),
    }
}

/// The name of the scale that a drag of the selection at a place inverts along a channel.
pub(crate) fn dragged_name(
    alloc: Global,
    stem: &Text,
    scales: &[ScalePlan],
    selection: usize,
    s: &SelectionPlan,
    channel: u16,
) -> Result<Text, OutOfMemory>
    ensures { IfOk result (λ name. name ≡ dragged_name stem.now scales.now selection s.now channel) }
{
    let numbers = scales_along(alloc, channel, s)?;
    if differ(numbers.as_slice()) {
        drag_name(alloc, stem, selection, channel)
    } else {
        one_name(alloc, stem, scales, numbers.as_slice())
    }
}

// ---- lists for copies

// Whether a selection wants copies of a scale along a channel.
fn copies_along(
    alloc: Global,
    number: usize,
    channel: u16,
    s: &SelectionPlan,
) -> Result<bool, OutOfMemory>
    ensures { IfOk result (λ wants. wants ≡ copies_along number channel s.now) }
{
    let numbers = scales_along(alloc, channel, s)?;
    Ok(differ(numbers.as_slice()) && is_among(numbers.as_slice(), number))
}

// Whether it wants any.
fn copies(alloc: Global, number: usize, s: &SelectionPlan) -> Result<bool, OutOfMemory>
    ensures { IfOk result (λ wants. wants ≡ copies number s.now) }
{
    let across = copies_along(alloc, number, X, s)?;
    let down = copies_along(alloc, number, Y, s)?;
    Ok(across || down)
}

// Whether some selection does.
fn is_copied(
    alloc: Global,
    selections: &[SelectionPlan],
    number: usize,
) -> Result<bool, OutOfMemory>
    ensures { IfOk result (λ is. is ≡ is_copied selections.now number) }
{
    for s in selections {
        if copies(alloc, number, s)? {
            return Ok(true);
        }
    }
    Ok(false)
}

// The references of a domain.
fn references_of(
    alloc: Global,
    stem: &Text,
    number: usize,
    plan: &DomainPlan,
) -> Result<Seq<Reference>, OutOfMemory>
    ensures { IfOk result (λ rs. rs ≡ references_of stem.now number plan.now) }
{
    match plan {
        DomainPlan::Cells(_) => Ok(Seq::new(alloc)),
        DomainPlan::Columns(of) => referred(alloc, stem, number, &of.order, of.columns.as_slice()),
    }
}

// The list of a reference once more.
fn outer_list(
    alloc: Global,
    stem: &Text,
    number: usize,
    place: usize,
    r: &Reference,
) -> Result<DataSet, OutOfMemory>
    ensures { IfOk result (λ set. set ≡ outer_list stem.now number (place, r.now)) }
{
    let name = outer_name(alloc, stem, number, place)?;
    let source = r.data_.copy()?;
    Ok(list_made(name, source, Seq::new(alloc)))
}

// Adds those of references.
fn push_references(
    alloc: Global,
    stem: &Text,
    number: usize,
    references: &[Reference],
    out: &mut Seq<DataSet>,
) -> Result<(), OutOfMemory>
    ensures { OnOk result (out.new ≡ out.old ++ map (outer_list stem.now number) (enumerate_from 0 references.now)) }
{
    for (place, r) in references.iter().enumerate() {
        out.push(outer_list(alloc, stem, number, place, r)?)?;
    }
    Ok(())
}

// Adds those of a scale, if it is copied.
fn push_outer(
    alloc: Global,
    stem: &Text,
    selections: &[SelectionPlan],
    number: usize,
    scale: &ScalePlan,
    out: &mut Seq<DataSet>,
) -> Result<(), OutOfMemory>
    ensures { OnOk result (out.new ≡ out.old ++ outer_lists stem.now selections.now (number, scale.now)) }
{
    if is_copied(alloc, selections, number)? {
        let references = references_of(alloc, stem, number, &scale.domain)?;
        push_references(alloc, stem, number, references.as_slice(), out)
    } else {
        Ok(())
    }
}

/// Adds the lists that copies of scales read.
pub(crate) fn push_all_outer(
    alloc: Global,
    stem: &Text,
    selections: &[SelectionPlan],
    scales: &[ScalePlan],
    out: &mut Seq<DataSet>,
) -> Result<(), OutOfMemory>
    ensures { OnOk result (out.new ≡ out.old ++ all_outer stem.now selections.now scales.now) }
{
    for (number, scale) in scales.iter().enumerate() {
        push_outer(alloc, stem, selections, number, scale, out)?;
    }
    Ok(())
}

// Those of the scales held in a facet.
fn outer_held(
    alloc: Global,
    stem: &Text,
    selections: &[SelectionPlan],
    grids: &[GridPlan],
    outer: &GridPlan,
    parts: &FacetPlan,
    scales: &[ScalePlan],
) -> Result<Seq<DataSet>, OutOfMemory>
    ensures { IfOk result (λ sets. sets
        ≡ flat_map (outer_lists stem.now selections.now) (scales_inside (grids_inside grids.now outer.now parts.now) scales.now)) }
{
    let mut out = Seq::new(alloc);
    for (number, scale) in scales.iter().enumerate() {
        if is_held(grids, outer, parts, number, scale) {
            push_outer(alloc, stem, selections, number, scale, &mut out)?;
        }
    }
    Ok(out)
}

/// Adds their names.
pub(crate) fn push_outer_names(
    alloc: Global,
    stem: &Text,
    selections: &[SelectionPlan],
    grids: &[GridPlan],
    outer: &GridPlan,
    parts: &FacetPlan,
    scales: &[ScalePlan],
    out: &mut Seq<Text>,
) -> Result<(), OutOfMemory>
    ensures { OnOk result (out.new ≡ out.old
        ++ outer_names stem.now selections.now (scales_inside (grids_inside grids.now outer.now parts.now) scales.now)) }
{
    let sets = outer_held(alloc, stem, selections, grids, outer, parts, scales)?;
    push_set_names(sets.as_slice(), out)
}

// ---- copies

// A reference to the list that only facets outside part.
fn reference_outside(
    alloc: Global,
    stem: &Text,
    number: usize,
    place: usize,
    r: &Reference,
) -> Result<Reference, OutOfMemory>
    ensures { IfOk result (λ made. made ≡ reference_outside stem.now number (place, r.now)) }
{
    let data_ = outer_name(alloc, stem, number, place)?;
    let field = r.field.copy()?;
    Ok(Reference { data_, field })
}

// Cells of rows as a domain over these lists.
fn rows_outside(
    alloc: Global,
    stem: &Text,
    number: usize,
    of: &RowCells,
) -> Result<Domain, OutOfMemory>
    ensures { IfOk result (λ made. made ≡ domain_outside stem.now number (plan.Columns of.now)) }
{
    let references = referred(alloc, stem, number, &of.order, of.columns.as_slice())?;
    let mut fields = Seq::new(alloc);
    for (place, r) in references.as_slice().iter().enumerate() {
        fields.push(reference_outside(alloc, stem, number, place, r)?)?;
    }
    Ok(Domain::Fields(FieldsDomain { fields, sort: None }))
}

// The domain of a copy.
fn domain_outside(
    alloc: Global,
    stem: &Text,
    number: usize,
    plan: &DomainPlan,
) -> Result<Domain, OutOfMemory>
    ensures { IfOk result (λ made. made ≡ domain_outside stem.now number plan.now) }
{
    match plan {
        DomainPlan::Cells(cells) => cells.copied(alloc).map(Domain::Cells),
        DomainPlan::Columns(of) => rows_outside(alloc, stem, number, of),
    }
}

// The copy of a scale by its number.
fn copy_of(
    alloc: Global,
    stem: &Text,
    name: Text,
    number: usize,
    scale: &ScalePlan,
) -> Result<Scale, OutOfMemory>
    ensures { IfOk result (λ made. made ≡ copy_of stem.now name number scale.now) }
{
    let domain = domain_outside(alloc, stem, number, &scale.domain)?;
    scale_over(alloc, name, domain, scale)
}

// Whether a drag stands in a plot along a channel.
fn is_drag_in(plot: usize, channel: u16, drag: &DragPlan) -> bool
    ensures { result ≡ is_drag_in plot channel drag.now }
{
    drag.channel == channel && drag.plot == plot
}

// The number of the scale that a drag in a plot inverts along a channel.
fn scale_in_plot(plot: usize, channel: u16, s: &SelectionPlan) -> Option<usize>
    ensures { result ≡ scale_in_plot plot channel s.now }
{
    for drag in s.drags.as_slice() {
        if is_drag_in(plot, channel, drag) {
            return Some(drag.scale);
        }
    }
    None
}

// Adds the copy that drags of a selection along a channel invert, of the scale of a number.
fn push_copy(
    alloc: Global,
    stem: &Text,
    scales: &[ScalePlan],
    selection: usize,
    channel: u16,
    number: usize,
    out: &mut Seq<Scale>,
) -> Result<(), OutOfMemory>
    ensures { OnOk result (out.new ≡ out.old ++ option_to_list (copy_at stem.now scales.now (drag_name stem.now selection channel) number)) }
{
    match scales.get(number) {
        Some(scale) => {
            let name = drag_name(alloc, stem, selection, channel)?;
            out.push(copy_of(alloc, stem, name, number, scale)?)
        }
        None => Ok(()),
    }
}

// Adds the copy in a plot for a selection along a channel, where scales differ.
fn push_copy_along(
    alloc: Global,
    stem: &Text,
    scales: &[ScalePlan],
    plot: usize,
    selection: usize,
    s: &SelectionPlan,
    channel: u16,
    out: &mut Seq<Scale>,
) -> Result<(), OutOfMemory>
    ensures { OnOk result (out.new ≡ out.old ++ option_to_list (copy_along stem.now scales.now plot selection s.now channel)) }
{
    let numbers = scales_along(alloc, channel, s)?;
    if !differ(numbers.as_slice()) {
        return Ok(());
    }
    match scale_in_plot(plot, channel, s) {
        Some(number) => push_copy(alloc, stem, scales, selection, channel, number, out),
        None => Ok(()),
    }
}

// Adds the copies in a plot for a selection.
fn push_copies_for(
    alloc: Global,
    stem: &Text,
    scales: &[ScalePlan],
    plot: usize,
    selection: usize,
    s: &SelectionPlan,
    out: &mut Seq<Scale>,
) -> Result<(), OutOfMemory>
    ensures { OnOk result (out.new ≡ out.old ++ copies_for stem.now scales.now plot (selection, s.now)) }
{
    push_copy_along(alloc, stem, scales, plot, selection, s, X, out)?;
    push_copy_along(alloc, stem, scales, plot, selection, s, Y, out)
}

/// Adds all copies in a plot.
pub(crate) fn push_copies(
    alloc: Global,
    stem: &Text,
    scales: &[ScalePlan],
    selections: &[SelectionPlan],
    plot: &PlotPlan,
    out: &mut Seq<Scale>,
) -> Result<(), OutOfMemory>
    ensures { OnOk result (out.new ≡ out.old ++ copies_in stem.now scales.now selections.now plot.now.number) }
{
    for (selection, s) in selections.iter().enumerate() {
        push_copies_for(alloc, stem, scales, plot.number, selection, s, out)?;
    }
    Ok(())
}
