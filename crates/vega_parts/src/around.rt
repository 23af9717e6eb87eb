//! The values round a value.
ghost use Rattle.std.specs.Prelude.{◌≡◌, ◌-◌, ◌++◌, ◌∷◌, [], drop, length, map, reverse, IfOk};
ghost use Rattle.std.specs.List.{list_any};
ghost use Rattle.vega_parts.specs.Trails.{is_group, is_object, has_facet, noted, place_of, child, grandchild, object_at, object_round};
ghost use Rattle.vega_parts.specs.Trails.{scope_of, has_layout, is_object_itself, is_top, is_faceted, is_plot, is_in_plot};

use crate::members::{has_member, member_at, says_text};
use crate::part::Place;
use json_exact::Json;
use std::alloc::Global;
use text_kit::{OutOfMemory, Seq};
use vega_schema::{MARK, TOP};

/// What is noted of a value on the way down to others.
#[derive(Clone, Copy)]
pub struct Around {
    /// Its number among its parent's children, counted from 0.
    pub number: usize,
    /// Its shape.
    pub shape: u16,
    /// Whether it is an object that has names: the top or a group.
    pub object: bool,
    /// Whether it is one with a layout.
    pub layout: bool,
    /// Whether it is a group with a facet.
    pub facet: bool,
}

/// Whether a value is a group.
pub fn is_group(shape: u16, tree: &Json) -> bool
    ensures { result ≡ is_group shape tree.now }
{
    shape == MARK && says_text(tree, "type", "group")
}

// Whether it is an object that has names: the top or a group.
fn is_object(shape: u16, tree: &Json) -> bool
    ensures { result ≡ is_object shape tree.now }
{
    shape == TOP || is_group(shape, tree)
}

// Whether the rows of a value come from a facet.
fn has_facet(tree: &Json) -> bool
    ensures { result ≡ has_facet tree.now }
{
    match member_at(tree, "from") {
        Some((_, from)) => has_member(from, "facet"),
        None => false,
    }
}

/// What is noted of a value.
pub fn noted(number: usize, shape: u16, tree: &Json) -> Around
    ensures { result ≡ noted number shape tree.now }
{
    Around {
        number,
        shape,
        object: is_object(shape, tree),
        layout: is_object(shape, tree) && has_member(tree, "layout"),
        facet: is_group(shape, tree) && has_facet(tree),
    }
}

// The numbers of some values.
fn numbers(alloc: Global, trail: &[Around]) -> Result<Place, OutOfMemory>
    ensures { IfOk result (λ place. place ≡ map (λ a. a.number) trail.now) }
{
    let mut place = Seq::with_capacity(alloc, trail.len())?;
    for around in trail {
        place.push(around.number)?;
    }
    Ok(place)
}

/// Where a value stands.
#[tactic(auto, using(crate::proofs::Trails::place_forward))]
pub fn place_of(alloc: Global, trail: &[Around]) -> Result<Place, OutOfMemory>
    ensures { IfOk result (λ place. place ≡ place_of (reverse trail.now)) }
{
    match trail {
        [_, below @ ..] => numbers(alloc, below),
        [] => Ok(Seq::new(alloc)),
    }
}

/// Where a child of a value stands.
pub fn child(alloc: Global, trail: &[Around], number: usize) -> Result<Place, OutOfMemory>
    ensures { IfOk result (λ place. place ≡ child (reverse trail.now) number) }
{
    let mut place = place_of(alloc, trail)?;
    place.push(number)?;
    Ok(place)
}

/// Where a child of that child stands.
pub fn grandchild(
    alloc: Global,
    trail: &[Around],
    number: usize,
    inner: usize,
) -> Result<Place, OutOfMemory>
    ensures { IfOk result (λ place. place ≡ grandchild (reverse trail.now) number inner) }
{
    let mut place = child(alloc, trail, number)?;
    place.push(inner)?;
    Ok(place)
}

/// Where a child of that one stands.
pub fn below_grandchild(
    alloc: Global,
    trail: &[Around],
    number: usize,
    inner: usize,
    last: usize,
) -> Result<Place, OutOfMemory>
    ensures { IfOk result (λ place. place ≡ grandchild (reverse trail.now) number inner ++ last ∷ []) }
{
    let mut place = grandchild(alloc, trail, number, inner)?;
    place.push(last)?;
    Ok(place)
}

/// The trail without its innermost value.
#[tactic(auto, using(crate::proofs::Trails::front_reversed))]
pub fn round(trail: &[Around]) -> &[Around]
    ensures around { reverse result.now ≡ drop 1 (reverse trail.now) }
    ensures shorter { length result.now ≡ length trail.now - 1 }
{
    match trail {
        [round @ .., _] => round,
        [] => &[],
    }
}

// The trail as far as its innermost object.
#[tactic(auto, using(crate::proofs::Trails::object_found, crate::proofs::Trails::object_further))]
fn object_at(trail: &[Around]) -> &[Around]
    ensures { reverse result.now ≡ object_at (reverse trail.now) }
{
    let mut rest = trail;
    while !rest.is_empty() {
        if is_object_itself(rest) {
            return rest;
        }
        rest = round(rest);
    }
    rest
}

/// The trail as far as the innermost object round its innermost value.
pub fn object_round(trail: &[Around]) -> &[Around]
    ensures { reverse result.now ≡ object_round (reverse trail.now) }
{
    object_at(round(trail))
}

/// The object round a value, by its place.
pub fn scope_of(alloc: Global, trail: &[Around]) -> Result<Place, OutOfMemory>
    ensures { IfOk result (λ place. place ≡ scope_of (reverse trail.now)) }
{
    place_of(alloc, object_round(trail))
}

/// Whether a value is an object with a layout.
pub fn has_layout(trail: &[Around]) -> bool
    ensures { result ≡ has_layout (reverse trail.now) }
{
    match trail {
        [.., here] => here.layout,
        [] => false,
    }
}

/// Whether a value is itself the top or a group.
pub fn is_object_itself(trail: &[Around]) -> bool
    ensures { result ≡ is_object_itself (reverse trail.now) }
{
    match trail {
        [.., here] => here.object,
        [] => false,
    }
}

/// Whether a value is the top.
pub fn is_top(trail: &[Around]) -> bool
    ensures { result ≡ is_top (reverse trail.now) }
{
    trail.len() == 1
}

// Whether one of some values is a group with a facet.
fn any_facet(trail: &[Around]) -> bool
    ensures { result ≡ list_any (λ a. a.facet) trail.now }
{
    for around in trail {
        if around.facet {
            return true;
        }
    }
    false
}

/// Whether a value is a group with a facet or stands inside one.
#[tactic(auto, using(crate::proofs::Trails::faceted_forward))]
pub fn is_faceted(trail: &[Around]) -> bool
    ensures { result ≡ is_faceted (reverse trail.now) }
{
    any_facet(trail)
}

/// Whether an object is a plot.
pub fn is_plot(trail: &[Around]) -> bool
    ensures { result ≡ is_plot (reverse trail.now) }
{
    !has_layout(trail) && (is_top(trail) || has_layout(object_round(trail)))
}

/// Whether an object stands in a plot.
pub fn is_in_plot(trail: &[Around]) -> bool
    ensures { result ≡ is_in_plot (reverse trail.now) }
{
    !is_top(trail) && !has_layout(object_round(trail))
}
