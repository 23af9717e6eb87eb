// The plots of a specification.
ghost use Rattle.std.specs.Prelude.{◌≡◌, ◌++◌, ◌+◌, [], ◌∷◌, flat_map, map, unwrap_or, Some, option_copied, IfOk, OnOk};
ghost use Rattle.vega_selections.specs.Plots.{size_of, whole_plot, as_object, fields_of, under, of_group, alone, spans_in, mark_spans};
ghost use Rattle.vega_selections.specs.Plots.{numbers_from, plot_at, numbered, plots_of};

use crate::marks::{is_group, marks_in};
use selection_events::PlotOf;
use std::alloc::Global;
use text_kit::{Copies, OutOfMemory, Seq, Text, copy_list};
use vega_spec::{Group, MarkFrom, VgMark, VgSpec};

/// Marks that follow each other in the text.
#[derive(Debug, Drop)]
pub struct Span {
    /// How many marks other than groups.
    pub size: u32,
    /// Whether they are those of a plot.
    pub is_plot: bool,
    /// The fields of the facets round them; None outside facets.
    pub facet: Option<Seq<Text>>,
}

// A sum that 32 bits can hold; of so many marks no specification could be held.
fn sum(a: u32, b: u32) -> Result<u32, OutOfMemory>
    ensures { IfOk result (λ sum. sum ≡ a + b) }
{
    match a.checked_add(b) {
        Some(sum) => Ok(sum),
        None => Err(OutOfMemory),
    }
}

// How many marks there are in several spans.
fn size_of(spans: &[Span]) -> Result<u32, OutOfMemory>
    ensures { IfOk result (λ size. size ≡ size_of spans.now) }
{
    let mut size = 0;
    for span in spans {
        size = sum(size, span.size)?;
    }
    Ok(size)
}

// The one span of a plot of so many marks.
fn whole_plot(alloc: Global, size: u32) -> Result<Seq<Span>, OutOfMemory>
    ensures { IfOk result (λ spans. spans ≡ whole_plot size ∷ []) }
{
    let mut spans = Seq::new(alloc);
    spans.push(Span {
        size,
        is_plot: true,
        facet: None,
    })?;
    Ok(spans)
}

// The spans of an object: a grid has those in it, a plot is one.
fn as_object(alloc: Global, is_grid: bool, inside: Seq<Span>) -> Result<Seq<Span>, OutOfMemory>
    ensures { IfOk result (λ spans. spans ≡ as_object is_grid inside) }
{
    if is_grid {
        Ok(inside)
    } else {
        whole_plot(alloc, size_of(inside.as_slice())?)
    }
}

// The fields of the facet of a group, if it has one.
fn fields_of(from: &Option<MarkFrom>) -> Option<&Seq<Text>>
    ensures { option_copied result ≡ fields_of from.now }
{
    match from {
        Some(MarkFrom::Facet(facet)) => Some(&facet.groupby),
        Some(MarkFrom::Data(_)) => None,
        None => None,
    }
}

// These fields, and then those of the facets inside.
fn joined(
    alloc: Global,
    fields: &[Text],
    inner: Option<Seq<Text>>,
) -> Result<Option<Seq<Text>>, OutOfMemory>
    ensures { IfOk result (λ all. all ≡ Some (fields.now ++ unwrap_or inner [])) }
{
    let mut all = copy_list(alloc, fields)?;
    if let Some(inner) = inner {
        all.append(inner)?;
    }
    Ok(Some(all))
}

// A span in a facet by these fields.
fn under(alloc: Global, fields: &[Text], span: Span) -> Result<Span, OutOfMemory>
    ensures { IfOk result (λ s. s ≡ under fields.now span) }
{
    let Span {
        size,
        is_plot,
        facet,
    } = span;
    let facet = joined(alloc, fields, facet)?;
    Ok(Span {
        size,
        is_plot,
        facet,
    })
}

// Spans in a facet by these fields.
fn all_under(alloc: Global, fields: &[Text], spans: Seq<Span>) -> Result<Seq<Span>, OutOfMemory>
    ensures { IfOk result (λ all. all ≡ map (under fields.now) spans) }
{
    let mut out = Seq::with_capacity(alloc, spans.len())?;
    for span in spans.into_vec() {
        out.push(under(alloc, fields, span)?)?;
    }
    Ok(out)
}

// The spans of a group, in its facet if it has one.
fn of_group(
    alloc: Global,
    from: &Option<MarkFrom>,
    spans: Seq<Span>,
) -> Result<Seq<Span>, OutOfMemory>
    ensures { IfOk result (λ all. all ≡ of_group from.now spans) }
{
    match fields_of(from) {
        Some(fields) => all_under(alloc, fields.as_slice(), spans),
        None => Ok(spans),
    }
}

// The span of a mark alone.
fn alone(alloc: Global) -> Result<Seq<Span>, OutOfMemory>
    ensures { IfOk result (λ spans. spans ≡ alone ∷ []) }
{
    let mut spans = Seq::new(alloc);
    spans.push(Span {
        size: 1,
        is_plot: false,
        facet: None,
    })?;
    Ok(spans)
}

// The spans of an object.
#[cycle(spans)]
#[tactic(auto, using(crate::proofs::FoldLemmas::spans_of_object))]
fn spans_in(alloc: Global, group: &Group) -> Result<Seq<Span>, OutOfMemory>
    ensures { IfOk result (λ spans. spans ≡ spans_in group.now) }
{
    let inside = spans_below(alloc, marks_in(group))?;
    as_object(alloc, group.layout.is_some(), inside)
}

// The spans of some marks.
#[cycle(spans)]
fn spans_below(alloc: Global, marks: &[VgMark]) -> Result<Seq<Span>, OutOfMemory>
    ensures { IfOk result (λ spans. spans ≡ flat_map (λ spans. spans) (map mark_spans marks.now)) }
{
    let mut out = Seq::new(alloc);
    for mark in marks {
        out.append(mark_spans(alloc, mark)?)?;
    }
    Ok(out)
}

// The spans of a mark.
#[cycle(spans)]
#[tactic(auto, using(crate::proofs::FoldLemmas::spans_of_group, crate::proofs::FoldLemmas::span_of_plain))]
fn mark_spans(alloc: Global, mark: &VgMark) -> Result<Seq<Span>, OutOfMemory>
    ensures { IfOk result (λ spans. spans ≡ mark_spans mark.now) }
{
    if is_group(mark.type_) {
        let inside = spans_in(alloc, &mark.group)?;
        of_group(alloc, &mark.from, inside)
    } else {
        alone(alloc)
    }
}

// So many numbers, from one on.
#[tactic(auto, using(crate::proofs::NumberLemmas::first_number, crate::proofs::NumberLemmas::no_number))]
fn numbers_from(alloc: Global, unit: u32, size: u32) -> Result<Seq<u32>, OutOfMemory>
    ensures { IfOk result (λ units. units ≡ numbers_from unit size) }
{
    let mut units = Seq::new(alloc);
    for at in 0..size {
        units.push(sum(unit, at)?)?;
    }
    Ok(units)
}

// Adds the plot of a span whose first mark has this number, where it is one with marks.
fn push_plot(alloc: Global, unit: u32, span: Span, out: &mut Seq<PlotOf>) -> Result<(), OutOfMemory>
    ensures { OnOk result (out.new ≡ out.old ++ plot_at unit span) }
{
    let Span {
        size,
        is_plot,
        facet,
    } = span;
    if is_plot && size != 0 {
        let units = numbers_from(alloc, unit, size)?;
        out.push(PlotOf { units, facet })
    } else {
        Ok(())
    }
}

// The plots of spans, whose marks are numbered from 0.
fn numbered(alloc: Global, spans: Seq<Span>) -> Result<Seq<PlotOf>, OutOfMemory>
    ensures { IfOk result (λ plots. plots ≡ numbered 0 spans) }
{
    let mut out = Seq::new(alloc);
    let mut unit = 0;
    for span in spans.into_vec() {
        let next = sum(unit, span.size)?;
        push_plot(alloc, unit, span, &mut out)?;
        unit = next;
    }
    Ok(out)
}

/// The plots with marks of a specification, in the order of the text: the top, or each group under a `layout`, where it has no `layout` of its
/// own; with the numbers of the marks that it draws and the fields of the facets round it.
pub fn plots_of(alloc: Global, g: &VgSpec) -> Result<Seq<PlotOf>, OutOfMemory>
    ensures { IfOk result (λ plots. plots ≡ plots_of g.now) }
{
    let spans = spans_in(alloc, &g.group)?;
    numbered(alloc, spans)
}
