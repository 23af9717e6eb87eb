// What drags leave in stores.
ghost use Rattle.std.specs.Prelude.{◌≡◌, ◌-ℤ◌, codes, IsTrue, IfOk, All};
ghost use Rattle.std.specs.Int.{int_min, int_max};
ghost use Rattle.std.specs.Ordering.{int_eq};
ghost use Rattle.std.specs.Str.{bytes_eq};
ghost use Rattle.fixed_num.specs.Number.{IsNumber};
ghost use Rattle.scale_kit.specs.Scale.{IsScale};
ghost use Rattle.scale_kit.specs.Places.{inverse_within};
ghost use Rattle.selection_events.specs.Drags.{is_time, can_invert, along, ends_of, extent_between, extent_on, extent_of, extents_of};
ghost use Rattle.selection_events.specs.Drags.{with_extents, store_dragged, HasScale};

use crate::places::zero;
use crate::stores::empty_store;
use cell_value::{Extent, Row, StoreOf};
use fixed_num::Num;
use scale_kit::{Scale, invert_within};
use scene_tree::Panel;
use std::alloc::Global;
use text_kit::{Copies, OutOfMemory, Seq, Text};

/// A drag from one place of the picture to another, in pixels from its upper left corner.
#[derive(Clone, Copy, Debug, PartialEq, Eq)]
pub struct Drag {
    /// How far to the right it begins.
    pub x1: Num,
    /// How far down it begins.
    pub y1: Num,
    /// How far to the right it ends.
    pub x2: Num,
    /// How far down it ends.
    pub y2: Num,
}

/// A channel of a drag in a panel.
#[derive(Debug, Drop)]
pub struct ChannelHere {
    /// The channel: `x` or `y`.
    pub channel: Text,
    /// The field that the channel shows.
    pub field: Text,
    /// The scale that the drag inverts along the channel in that panel, if there is one.
    pub scale: Option<Scale>,
}

// Whether two numbers are the same.
fn are_equal(a: Num, b: Num) -> bool
    ensures { result ≡ int_eq a b }
{
    a == b
}

/// The lesser of two numbers.
pub(crate) fn lesser(a: Num, b: Num) -> Num
    ensures { result ≡ int_min a b }
{
    if b < a { b } else { a }
}

/// The greater of two numbers.
pub(crate) fn greater(a: Num, b: Num) -> Num
    ensures { result ≡ int_max a b }
{
    if b < a { a } else { b }
}

// Whether the ends on a scale are instants.
fn is_time(s: &Scale) -> bool
    ensures { result ≡ is_time s.now }
{
    match s {
        Scale::Time { .. } => true,
        Scale::Linear { .. }
        | Scale::Band { .. }
        | Scale::Point { .. }
        | Scale::Ordinal { .. }
        | Scale::Ramp { .. } => false,
    }
}

// Whether places on a scale have inverses.
fn can_invert(s: &Scale) -> bool
    ensures { result ≡ can_invert s.now }
{
    match s {
        Scale::Linear { r0, r1, .. } => !are_equal(*r0, *r1),
        Scale::Time { r0, r1, .. } => !are_equal(*r0, *r1),
        Scale::Band { .. } | Scale::Point { .. } | Scale::Ordinal { .. } | Scale::Ramp { .. } => {
            false
        }
    }
}

// Where a place lies beyond a panel, so far that it is out of range from the panel's beginning on.
#[tactic(auto, using(crate::proofs::AlongLemmas::before_panel, crate::proofs::AlongLemmas::behind_panel))]
fn far_end(begin: Num, size: Num, at: Num) -> Num
    ensures { (IsNumber (at -ℤ begin) → ⊥) → result ≡ along begin size at }
{
    let _ = (begin.millionths(), size.millionths(), at.millionths());
    if at.millionths() < begin.millionths() {
        zero()
    } else {
        greater(zero(), size)
    }
}

// A place along one direction, from the beginning of a panel on and cut to the panel.
fn along(begin: Num, size: Num, at: Num) -> Num
    ensures { result ≡ along begin size at }
{
    match at.sub(begin) {
        Some(distance) => greater(zero(), lesser(distance, size)),
        None => far_end(begin, size, at),
    }
}

// Whether a channel is the one to the right.
fn is_across(channel: &str) -> bool
    ensures { result ≡ bytes_eq channel.now (codes "x") }
{
    channel == "x"
}

// The two ends of a drag along a channel, in the panel.
fn ends_of(panel: &Panel, d: &Drag, channel: &str) -> (Num, Num)
    ensures { result ≡ ends_of panel.now d.now channel.now }
{
    if is_across(channel) {
        (
            along(panel.x, panel.width, d.x1),
            along(panel.x, panel.width, d.x2),
        )
    } else {
        (
            along(panel.y, panel.height, d.y1),
            along(panel.y, panel.height, d.y2),
        )
    }
}

// The extent of a channel between two numbers in either order.
fn extent_between(
    c: &ChannelHere,
    temporal: bool,
    a: Num,
    b: Num,
) -> Result<Option<Extent>, OutOfMemory>
    ensures { IfOk result (λ extent. extent ≡ extent_between c.now temporal a b) }
{
    if are_equal(a, b) {
        return Ok(None);
    }
    Ok(Some(Extent {
        channel: c.channel.copy()?,
        field: c.field.copy()?,
        temporal,
        lo: lesser(a, b),
        hi: greater(a, b),
    }))
}

// The number at a place on a scale that has inverses, cut to the domain.
#[tactic(auto, using(crate::proofs::InverseLemmas::has_inverse))]
fn inverted(s: &Scale, p: Num) -> Num
    requires scale { IsScale s.now }
    requires inverse { IsTrue (can_invert s.now) }
    ensures { result ≡ inverse_within s.now p }
{
    invert_within(s, p)
}

// The extent of a channel between two places of its scale's range.
fn extent_on(c: &ChannelHere, s: &Scale, ends: (Num, Num)) -> Result<Option<Extent>, OutOfMemory>
    requires { IsScale s.now }
    ensures { IfOk result (λ extent. extent ≡ extent_on c.now s.now ends) }
{
    if !can_invert(s) {
        return Ok(None);
    }
    let (first, second) = ends;
    extent_between(c, is_time(s), inverted(s, first), inverted(s, second))
}

// The extent of a channel in a panel.
fn extent_of(panel: &Panel, d: &Drag, c: &ChannelHere) -> Result<Option<Extent>, OutOfMemory>
    requires { HasScale c.now }
    ensures { IfOk result (λ extent. extent ≡ extent_of panel.now d.now c.now) }
{
    match &c.scale {
        Some(s) => extent_on(c, s, ends_of(panel, d, c.channel.as_str())),
        None => Ok(None),
    }
}

// The extents of all channels.
#[tactic(auto, using(fixed_num::proofs::FoundLemmas::one_more))]
fn extents_of(
    alloc: Global,
    panel: &Panel,
    d: &Drag,
    channels: &[ChannelHere],
) -> Result<Option<Seq<Extent>>, OutOfMemory>
    requires { All HasScale channels.now }
    ensures { IfOk result (λ extents. extents ≡ extents_of panel.now d.now channels.now) }
{
    let mut out = Seq::new(alloc);
    for c in channels {
        let Some(extent) = extent_of(panel, d, c)? else {
            return Ok(None);
        };
        out.push(extent)?;
    }
    Ok(Some(out))
}

// A store with these extents since an event in a panel with this facet row, in this unit.
fn with_extents(
    alloc: Global,
    name: &str,
    facet: &Option<Row>,
    unit: u32,
    extents: Option<Seq<Extent>>,
) -> Result<StoreOf, OutOfMemory>
    ensures { IfOk result (λ store. store ≡ with_extents name.now facet.now unit extents) }
{
    let Some(extents) = extents else {
        return empty_store(alloc, name);
    };
    if extents.is_empty() {
        return empty_store(alloc, name);
    }
    let panel = Copies::copied(facet, alloc)?;
    let name = Text::of(alloc, name)?;
    Ok(StoreOf {
        name,
        tuples: Seq::new(alloc),
        extents,
        panel,
        unit,
    })
}

/// The store of a selection after a drag over these channels in a panel, whose least unit of the selection is this: for each channel the
/// extent between the two ends, each cut to the panel, inverted on the channel's scale and cut to its domain; nothing where a channel comes
/// to a point, or has no linear or time scale.
pub fn store_dragged(
    alloc: Global,
    name: &str,
    panel: &Panel,
    unit: u32,
    d: Drag,
    channels: &[ChannelHere],
) -> Result<StoreOf, OutOfMemory>
    requires { All HasScale channels.now }
    ensures { IfOk result (λ store. store ≡ store_dragged name.now panel.now unit d channels.now) }
{
    let extents = extents_of(alloc, panel, &d, channels)?;
    with_extents(alloc, name, &panel.facet, unit, extents)
}
