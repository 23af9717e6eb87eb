//! What scales, and what uses them, give.
ghost use Rattle.std.specs.Prelude.{◌≡◌, ◌++◌, reverse, OnOk};
ghost use Rattle.vega_parts.specs.Scales.{type_named, type_of, range_named, range_of, traits_of, scale_name, scale_parts, for_size};
ghost use Rattle.vega_parts.specs.Scales.{for_legend, two_scales, legend_parts};
ghost use Rattle.std.specs.Str.{bytes_eq};

use crate::around::{
    Around, child, has_layout, is_in_plot, is_plot, object_round, place_of, scope_of,
};
use crate::members::text_at;
use crate::names::push_used_member;
use crate::part::{Given, GivenName, Part, RangeKind, ScaleTraits, ScaleType, Used};
use crate::several::all_four;
use json_exact::Json;
use std::alloc::Global;
use text_kit::{OutOfMemory, Seq, Text};

// Whether two texts are the same.
fn is_word(text: &str, word: &str) -> bool
    ensures { result ≡ bytes_eq text.now word.now }
{
    text == word
}

// The type of a scale that a text names.
fn type_named(text: &str) -> ScaleType
    ensures { result ≡ type_named text.now }
{
    if is_word(text, "linear") {
        ScaleType::Linear
    } else if is_word(text, "time") {
        ScaleType::Time
    } else if is_word(text, "band") {
        ScaleType::Band
    } else if is_word(text, "point") {
        ScaleType::Point
    } else if is_word(text, "ordinal") {
        ScaleType::Ordinal
    } else {
        ScaleType::Other
    }
}

// The type of a scale.
fn type_of(tree: &Json) -> ScaleType
    ensures { result ≡ type_of tree.now }
{
    match text_at(tree, "type") {
        Some((_, text)) => type_named(text),
        None => ScaleType::Other,
    }
}

// The range that a text names.
fn range_named(text: &str) -> RangeKind
    ensures { result ≡ range_named text.now }
{
    if is_word(text, "width") {
        RangeKind::Width
    } else if is_word(text, "height") {
        RangeKind::Height
    } else if is_word(text, "ramp") {
        RangeKind::Ramp
    } else {
        RangeKind::Other
    }
}

// The range of a scale.
fn range_of(tree: &Json) -> RangeKind
    ensures { result ≡ range_of tree.now }
{
    match text_at(tree, "range") {
        Some((_, text)) => range_named(text),
        None => RangeKind::Other,
    }
}

// What the rules ask of a scale.
fn traits_of(trail: &[Around], tree: &Json) -> ScaleTraits
    ensures { result ≡ traits_of (reverse trail.now) tree.now }
{
    ScaleTraits {
        type_: type_of(tree),
        range: range_of(tree),
        in_plot: is_in_plot(object_round(trail)),
    }
}

// Adds the name of a scale.
fn push_scale_name(
    alloc: Global,
    trail: &[Around],
    tree: &Json,
    number: usize,
    name: &str,
    out: &mut Seq<Part>,
) -> Result<(), OutOfMemory>
    ensures { OnOk result (out.new ≡ out.old ++ scale_name (reverse trail.now) tree.now (number, name.now)) }
{
    let (scope, of, at, name) = all_four(
        scope_of(alloc, trail),
        place_of(alloc, trail),
        child(alloc, trail, number),
        Text::of(alloc, name),
    )?;
    out.push(Part::Given(GivenName {
        kind: Given::Scale,
        scope,
        of,
        at,
        name,
        scale: Some(traits_of(trail, tree)),
    }))
}

/// Adds what a scale gives.
pub fn push_scale_parts(
    alloc: Global,
    trail: &[Around],
    tree: &Json,
    out: &mut Seq<Part>,
) -> Result<(), OutOfMemory>
    ensures { OnOk result (out.new ≡ out.old ++ scale_parts (reverse trail.now) tree.now) }
{
    match text_at(tree, "name") {
        Some((number, name)) => push_scale_name(alloc, trail, tree, number, name, out),
        None => Ok(()),
    }
}

/// For what a scale is used in a channel that gives the size of a plot.
pub fn for_size(trail: &[Around]) -> Used
    ensures { result ≡ for_size (reverse trail.now) }
{
    if is_plot(object_round(trail)) {
        Used::SizedScale
    } else {
        Used::Scale
    }
}

// For what a scale is used in a legend.
fn for_legend(trail: &[Around]) -> Used
    ensures { result ≡ for_legend (reverse trail.now) }
{
    if has_layout(object_round(trail)) {
        Used::SizedScale
    } else {
        Used::Scale
    }
}

// Adds two scales of a legend.
fn push_two_scales(
    alloc: Global,
    first: &str,
    second: &str,
    trail: &[Around],
    tree: &Json,
    out: &mut Seq<Part>,
) -> Result<(), OutOfMemory>
    ensures { OnOk result (out.new ≡ out.old ++ two_scales first.now second.now (reverse trail.now) tree.now) }
{
    push_used_member(alloc, for_legend(trail), first, trail, tree, out)?;
    push_used_member(alloc, for_legend(trail), second, trail, tree, out)
}

/// Adds the scales of a legend.
pub fn push_legend_parts(
    alloc: Global,
    trail: &[Around],
    tree: &Json,
    out: &mut Seq<Part>,
) -> Result<(), OutOfMemory>
    ensures { OnOk result (out.new ≡ out.old ++ legend_parts (reverse trail.now) tree.now) }
{
    push_two_scales(alloc, "fill", "opacity", trail, tree, out)?;
    push_two_scales(alloc, "shape", "size", trail, tree, out)
}
