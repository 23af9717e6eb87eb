// Scales.
ghost use Rattle.std.specs.Prelude.{◌≡◌, ◌≤ℤ◌, false, IfOk, IsTrue};
ghost use Rattle.std.specs.Option.{option_map};
ghost use Rattle.expr_eval.specs.Answers.{Evaluates};
ghost use Rattle.vega_lists.specs.Held.{scope_read, AreAllRows};
ghost use Rattle.scale_kit.specs.Scale.{IsPixel, IsRange, IsScale, AreInstants};
ghost use Rattle.vega_scales.specs.declared.scaled.Scaled.TheVariants as scaled;
ghost use Rattle.vega_scales.specs.Scales.{is_discrete, is_ordinal, is_time, is_set, takes_zero, ends_of, banded, ordinal_over, over_numbers};
ghost use Rattle.vega_scales.specs.Scales.{numbers_of_scale, between, domain_of, scale_over, scale_of, domain_length, FitsScale};
ghost use Rattle.vega_scales.specs.Scales.{is_order_built, is_domain_built, has_ends};
ghost use Rattle.vega_scales.specs.Scales.{has_entries, is_ramp, fits_range, is_built, KeepsBounds};

use crate::domains::{continuous_domain, discrete_domain};
use crate::entries::entries_of;
use crate::numbers::zero;
use crate::ranges::{ends_in, padding_of, turned};
use crate::scaled::Scaled;
use cell_value::Cell;
use domain_kit::{color_from, color_to, entries_turned};
use expr_eval::{EvalError, ParamReader};
use fixed_num::Num;
use scale_kit::Scale;
use std::alloc::Global;
use text_kit::{OutOfMemory, Seq};
use vega_lists::ListReader;
use vega_spec::{Domain, DomainOrder, Range};

// The codes of the kinds of scales.
const LINEAR: u16 = 0;

const TIME: u16 = 1;

const BAND: u16 = 2;

const POINT: u16 = 3;

const ORDINAL: u16 = 4;

/// Whether a scale is discrete: a band, a point or an ordinal scale.
pub fn is_discrete(scale: &vega_spec::Scale) -> bool
    ensures { result ≡ is_discrete scale.now }
{
    scale.type_ == BAND || scale.type_ == POINT || scale.type_ == ORDINAL
}

/// Whether a scale is an ordinal one.
pub fn is_ordinal(scale: &vega_spec::Scale) -> bool
    ensures { result ≡ is_ordinal scale.now }
{
    scale.type_ == ORDINAL
}

/// Whether a scale is one of time.
pub(crate) fn is_time(scale: &vega_spec::Scale) -> bool
    ensures { result ≡ is_time scale.now }
{
    scale.type_ == TIME
}

/// Whether a flag is there and true.
pub(crate) fn is_set(flag: Option<bool>) -> bool
    ensures { result ≡ is_set flag }
{
    flag.unwrap_or(false)
}

/// Whether the domain of a scale takes in 0.
pub(crate) fn takes_zero(scale: &vega_spec::Scale) -> bool
    ensures { result ≡ takes_zero scale.now }
{
    scale.zero.unwrap_or(scale.type_ == LINEAR)
}

/// How many of the operations, from the first, are aggregates.
const AGGREGATES: u16 = 12;

// Whether an order of cells is built.
fn is_order_built(sort: &Option<DomainOrder>) -> bool
    ensures { result ≡ is_order_built sort.now }
{
    match sort {
        None => true,
        Some(DomainOrder::True) => true,
        Some(DomainOrder::Cells(_)) => true,
        Some(DomainOrder::Operation(_, op, _)) => *op < AGGREGATES,
    }
}

/// Whether a domain is built as that of a discrete scale: an operation by which its cells stand is an aggregate.
pub fn is_domain_built(domain: &Domain) -> bool
    ensures { result ≡ is_domain_built domain.now }
{
    match domain {
        Domain::Cells(_) | Domain::Signal(_) => true,
        Domain::Field(of) => is_order_built(&of.sort),
        Domain::Fields(of) => is_order_built(&of.sort),
    }
}

// Whether a range is one of places.
fn has_ends(range: &Range) -> bool
    ensures { result ≡ has_ends range.now }
{
    ends_in(true, zero(), zero(), range).is_some()
}

// Whether a range is one of entries.
#[tactic(auto, using(crate::proofs::ScaleLemmas::entries_or_none))]
fn has_entries(range: &Range) -> bool
    ensures { result ≡ has_entries range.now }
{
    match range {
        Range::Cells(cells) => !cells.is_empty(),
        Range::Category | Range::Ramp | Range::Symbol => true,
        Range::Width | Range::Height => false,
    }
}

// Whether a range is the one of a ramp.
fn is_ramp(range: &Range) -> bool
    ensures { result ≡ is_ramp range.now }
{
    match range {
        Range::Ramp => true,
        Range::Cells(_) | Range::Width | Range::Height | Range::Category | Range::Symbol => false,
    }
}

// Whether scales of a kind may have a range.
fn fits_range(kind: u16, range: &Range) -> bool
    ensures { result ≡ fits_range kind range.now }
{
    if kind == LINEAR || kind == TIME {
        is_ramp(range) || has_ends(range)
    } else if kind == BAND || kind == POINT {
        has_ends(range)
    } else {
        kind == ORDINAL && has_entries(range)
    }
}

/// Whether a scale is built. A linear or a time scale has the width, the height, two numbers or a ramp as its range, a band or a point
/// scale one of the first three, and an ordinal scale a list with entries or one of the ranges of colours and signs; and the domain of a
/// discrete scale is built.
pub fn is_built(scale: &vega_spec::Scale) -> bool
    ensures { result ≡ is_built scale.now }
{
    fits_range(scale.type_, &scale.range) && (!is_discrete(scale) || is_domain_built(&scale.domain))
}

// The ends of the range of a scale.
#[tactic(auto, using(crate::proofs::ScaleLemmas::ends_of_kept))]
fn ends_of(scale: &vega_spec::Scale, width: Num, height: Num) -> (Num, Num)
    ensures value { result ≡ ends_of scale.now width height }
    ensures kept { KeepsBounds scale.now → IsPixel width → IsPixel height → is_ordinal scale.now ≡ false → IsRange result }
{
    let ends = ends_in(is_discrete(scale), width, height, &scale.range);
    turned(is_set(scale.reverse), ends.unwrap_or((zero(), zero())))
}

// A band or a point for each cell.
#[tactic(auto, using(crate::proofs::ScaleLemmas::padding_kept))]
fn banded(scale: &vega_spec::Scale, ends: (Num, Num), cells: Seq<Cell>) -> Scale
    ensures value { result ≡ banded scale.now ends cells }
    ensures kept { KeepsBounds scale.now → IsRange ends → IsScale result }
{
    let outer = padding_of(scale.padding_outer, scale.padding);
    if scale.type_ == BAND {
        Scale::Band {
            domain: cells,
            inner: padding_of(scale.padding_inner, scale.padding),
            outer,
            r0: ends.0,
            r1: ends.1,
        }
    } else {
        Scale::Point {
            domain: cells,
            outer,
            r0: ends.0,
            r1: ends.1,
        }
    }
}

// An entry of the range for each cell, of the range turned round where that is asked.
#[tactic(auto, using(crate::proofs::ScaleLemmas::entries_there))]
fn ordinal_over(
    alloc: Global,
    scale: &vega_spec::Scale,
    cells: Seq<Cell>,
) -> Result<Scale, OutOfMemory>
    ensures value { IfOk result (λ made. made ≡ ordinal_over scale.now cells) }
    ensures kept { IsTrue (has_entries scale.now.range) → IfOk result IsScale }
{
    let entries = entries_of(alloc, &scale.range, cells.len())?;
    Ok(Scale::Ordinal {
        domain: cells,
        range: entries_turned(is_set(scale.reverse), entries),
    })
}

// The numbers or the instants of a domain, laid over a range of places or over the colours of a ramp.
fn over_numbers(scale: &vega_spec::Scale, ends: (Num, Num), d0: Num, d1: Num) -> Scale
    requires ordered { d0 ≤ℤ d1 }
    requires in_time { IsTrue (is_time scale.now) → AreInstants (d0, d1) }
    ensures value { result ≡ over_numbers scale.now ends (d0, d1) }
    ensures kept { IsRange ends → IsScale result }
{
    let (r0, r1) = ends;
    if is_ramp(&scale.range) {
        Scale::Ramp {
            time: is_time(scale),
            d0,
            d1,
            from: color_from(is_set(scale.reverse)),
            to: color_to(is_set(scale.reverse)),
        }
    } else if is_time(scale) {
        Scale::Time { d0, d1, r0, r1 }
    } else {
        Scale::Linear { d0, d1, r0, r1 }
    }
}

// The scale over the cells of a discrete one.
#[tactic(auto, using(crate::proofs::ScaleLemmas::entries_fit))]
fn over_cells(
    alloc: Global,
    scale: &vega_spec::Scale,
    width: Num,
    height: Num,
    cells: Seq<Cell>,
) -> Result<Scale, OutOfMemory>
    requires { IsTrue (is_built scale.now) }
    ensures value { IfOk result (λ made. made ≡ scale_over scale.now width height (scaled.Cells cells)) }
    ensures kept { KeepsBounds scale.now → IsPixel width → IsPixel height → IfOk result IsScale }
{
    if is_ordinal(scale) {
        Ok(ordinal_over(alloc, scale, cells)?)
    } else {
        Ok(banded(scale, ends_of(scale, width, height), cells))
    }
}

// The scale from a number to another.
#[tactic(auto, using(crate::proofs::ScaleLemmas::not_ordinal))]
fn over_between(scale: &vega_spec::Scale, width: Num, height: Num, d0: Num, d1: Num) -> Scale
    requires { FitsScale scale.now (scaled.Between d0 d1) }
    ensures value { result ≡ scale_over scale.now width height (scaled.Between d0 d1) }
    ensures kept { KeepsBounds scale.now → IsPixel width → IsPixel height → IsScale result }
{
    over_numbers(scale, ends_of(scale, width, height), d0, d1)
}

// The scale over a domain that becomes a part of it.
fn scale_with(
    alloc: Global,
    scale: &vega_spec::Scale,
    width: Num,
    height: Num,
    domain: Scaled,
) -> Result<Scale, OutOfMemory>
    requires built { IsTrue (is_built scale.now) }
    requires fits { FitsScale scale.now domain }
    ensures value { IfOk result (λ made. made ≡ scale_over scale.now width height domain) }
    ensures kept { KeepsBounds scale.now → IsPixel width → IsPixel height → IfOk result IsScale }
{
    match domain {
        Scaled::Cells(cells) => Ok(over_cells(alloc, scale, width, height, cells)?),
        Scaled::Between(d0, d1) => Ok(over_between(scale, width, height, d0, d1)),
    }
}

/// The scale of a specification over a domain that `domain_of` gives for it, in a plot of this width and height in pixels.
pub fn scale_over(
    alloc: Global,
    scale: &vega_spec::Scale,
    width: Num,
    height: Num,
    domain: &Scaled,
) -> Result<Scale, OutOfMemory>
    requires built { IsTrue (is_built scale.now) }
    requires fits { FitsScale scale.now domain.now }
    ensures value { IfOk result (λ made. made ≡ scale_over scale.now width height domain.now) }
    // What callers of a scale ask of it holds where its numbers are those that specifications may have.
    ensures kept { KeepsBounds scale.now → IsPixel width → IsPixel height → IfOk result IsScale }
{
    let own = domain.copy(alloc)?;
    Ok(scale_with(alloc, scale, width, height, own)?)
}

// The numbers between which a continuous scale runs.
fn numbers_between<L: ListReader, P: ParamReader>(
    alloc: Global,
    scale: &vega_spec::Scale,
    lists: &L,
    params: &P,
) -> Result<Scaled, EvalError>
    requires lists { AreAllRows (L.named lists.now) }
    requires continuous { is_discrete scale.now ≡ false }
    ensures value { Evaluates result (option_map between
        (numbers_of_scale (P.values params.now) (scope_read (L.named lists.now)) scale.now)) }
    ensures fits { IfOk result (FitsScale scale.now) }
{
    let (d0, d1) = continuous_domain(alloc, scale, lists, params)?;
    Ok(Scaled::Between(d0, d1))
}

/// What a scale of a specification scales, from the lists of rows. `Overflow` comes exactly where an expression that its domain needs
/// overflows, or a sum by which the cells of its domain stand, or its domain is widened out of range.
pub fn domain_of<L: ListReader, P: ParamReader>(
    alloc: Global,
    scale: &vega_spec::Scale,
    lists: &L,
    params: &P,
) -> Result<Scaled, EvalError>
    requires lists { AreAllRows (L.named lists.now) }
    requires built { IsTrue (is_built scale.now) }
    ensures value { Evaluates result (domain_of (P.values params.now) (scope_read (L.named lists.now)) scale.now) }
    ensures fits { IfOk result (FitsScale scale.now) }
{
    if is_discrete(scale) {
        let cells = discrete_domain(alloc, &scale.domain, lists, params)?;
        Ok(Scaled::Cells(cells))
    } else {
        numbers_between(alloc, scale, lists, params)
    }
}

/// The scale of a specification in a plot of this width and height, from the lists of rows. `Overflow` comes exactly where its domain
/// overflows.
pub fn scale_of<L: ListReader, P: ParamReader>(
    alloc: Global,
    scale: &vega_spec::Scale,
    lists: &L,
    width: Num,
    height: Num,
    params: &P,
) -> Result<Scale, EvalError>
    requires lists { AreAllRows (L.named lists.now) }
    requires built { IsTrue (is_built scale.now) }
    ensures value { Evaluates result (scale_of (P.values params.now) (scope_read (L.named lists.now)) width height scale.now) }
    // What callers of a scale ask of it holds where its numbers are those that specifications may have.
    ensures kept { KeepsBounds scale.now → IsPixel width → IsPixel height → IfOk result IsScale }
{
    let domain = domain_of(alloc, scale, lists, params)?;
    Ok(scale_with(alloc, scale, width, height, domain)?)
}

/// How long the domain of a scale is: as many cells as a discrete one has, and 2 otherwise. `Overflow` comes exactly where the
/// expression of a discrete scale's domain overflows, or a sum by which its cells stand.
pub fn domain_length<L: ListReader, P: ParamReader>(
    alloc: Global,
    scale: &vega_spec::Scale,
    lists: &L,
    params: &P,
) -> Result<u64, EvalError>
    requires lists { AreAllRows (L.named lists.now) }
    requires built { IsTrue (is_domain_built scale.now.domain) }
    ensures { Evaluates result (domain_length (P.values params.now) (scope_read (L.named lists.now)) scale.now) }
{
    if is_discrete(scale) {
        let cells = discrete_domain(alloc, &scale.domain, lists, params)?;
        Ok(cells.len() as u64)
    } else {
        Ok(2)
    }
}
