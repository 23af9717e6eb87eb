// The units of a specification.
ghost use Rattle.std.specs.Prelude.{◌≡◌, ◌∷◌, ◌++◌, [], map, IfOk, OnOk};
ghost use Rattle.vl_compose.specs.Rounds.{rounds_in, in_order};
ghost use Rattle.vl_compose.specs.Shown.{kind_of, round_shown, unit_shown, view_shown};
ghost use Rattle.vl_compose.specs.Units.{own_channels, channels_at, units_of};
ghost use Rattle.vl_compose.specs.inner.Found.{found_shown, counted, with_unit, after};

use crate::here::{UnitHere, ViewHere};
use std::alloc::Global;
use text_kit::{OutOfMemory, Seq};
use vl_normalize::{channels_in, used, with_around};
use vl_spec::{ChannelOf, Unit, View, ViewKind, VlSpec};

// How many views were met, and the units among them.
#[derive(Drop)]
struct Found<'s> {
    count: usize,
    units: Seq<UnitHere<'s>>,
}

// The channels that a view gives to itself or to the views in it.
fn own_channels(kind: &ViewKind) -> &[ChannelOf]
    ensures { result.now ≡ own_channels (kind_of kind.now) }
{
    match kind {
        ViewKind::Unit(unit) => channels_in(&unit.encoding),
        ViewKind::Layer(layer) => channels_in(&layer.encoding),
        ViewKind::Facet(_) | ViewKind::Joined(_) => &[],
    }
}

// All channels that stand at the last of some views.
fn channels_at<'s>(alloc: Global, round: &[ViewHere<'s>]) -> Result<Seq<&'s ChannelOf>, OutOfMemory>
    ensures { IfOk result (λ channels. map (λ c. c.now) channels ≡ channels_at (round_shown round.now)) }
{
    let mut channels = Seq::new(alloc);
    for here in round {
        channels = with_around(alloc, own_channels(&here.view.kind), channels.as_slice())?;
    }
    Ok(channels)
}

// One more view; there is no memory for more than a `usize` counts.
fn count_view(found: &mut Found) -> Result<(), OutOfMemory>
    ensures { OnOk result (found_shown found.new ≡ counted (found_shown found.old)) }
{
    match found.count.checked_add(1) {
        Some(count) => {
            found.count = count;
            Ok(())
        }
        None => Err(OutOfMemory),
    }
}

// The views round a view, and itself behind them.
fn and_here<'s>(
    alloc: Global,
    outer: &[ViewHere<'s>],
    here: ViewHere<'s>,
) -> Result<Seq<ViewHere<'s>>, OutOfMemory>
    ensures { IfOk result (λ round. round_shown round ≡ round_shown outer.now ++ view_shown here.entry ∷ []) }
{
    let mut round = Seq::from_slice(alloc, outer)?;
    round.push(here)?;
    Ok(round)
}

// Adds a unit, which stands in these views.
fn push_unit<'s>(
    alloc: Global,
    unit: &'s Unit,
    outer: &[ViewHere<'s>],
    here: ViewHere<'s>,
    found: &mut Found<'s>,
) -> Result<(), OutOfMemory>
    ensures { OnOk result (found_shown found.new
        ≡ with_unit (found_shown found.old) unit.now.mark (round_shown outer.now ++ view_shown here.entry ∷ [])) }
{
    let round = and_here(alloc, outer, here)?;
    let channels = channels_at(alloc, round.as_slice())?;
    let channels = used(alloc, &unit.mark, channels.as_slice())?;
    count_view(found)?;
    let number = found.units.len();
    found.units.push(UnitHere {
        number,
        round,
        mark: &unit.mark,
        channels,
    })
}

// Finds the units of a view, which stands in these views.
#[cycle(walk)]
fn walk_view<'s>(
    alloc: Global,
    view: &'s View,
    outer: &[ViewHere<'s>],
    child: usize,
    found: &mut Found<'s>,
) -> Result<(), OutOfMemory>
    ensures { OnOk result (found_shown found.new
        ≡ after (found_shown found.old) (rounds_in view.now (round_shown outer.now) child found.old.count)) }
{
    let here = ViewHere {
        number: found.count,
        child,
        view,
    };
    match &view.kind {
        ViewKind::Unit(unit) => push_unit(alloc, unit, outer, here, found),
        ViewKind::Layer(layer) => walk_row(alloc, layer.layer.as_slice(), outer, here, found),
        ViewKind::Facet(faceted) => walk_alone(alloc, faceted.spec.get(), outer, here, found),
        ViewKind::Joined(joined) => walk_row(alloc, joined.views.as_slice(), outer, here, found),
    }
}

// Finds those of the only view in a view, which stands in these views.
#[cycle(walk)]
fn walk_alone<'s>(
    alloc: Global,
    view: &'s View,
    outer: &[ViewHere<'s>],
    here: ViewHere<'s>,
    found: &mut Found<'s>,
) -> Result<(), OutOfMemory>
    ensures { OnOk result (found_shown found.new
        ≡ after (counted (found_shown found.old))
        (rounds_in view.now (round_shown outer.now ++ view_shown here.entry ∷ []) 0 (counted (found_shown found.old)).count)) }
{
    count_view(found)?;
    let round = and_here(alloc, outer, here)?;
    walk_view(alloc, view, round.as_slice(), 0, found)
}

// Finds those of the views in a view, which stands in these views.
#[cycle(walk)]
fn walk_row<'s>(
    alloc: Global,
    views: &'s [View],
    outer: &[ViewHere<'s>],
    here: ViewHere<'s>,
    found: &mut Found<'s>,
) -> Result<(), OutOfMemory>
    ensures { OnOk result (found_shown found.new
        ≡ after (counted (found_shown found.old))
        (in_order (map rounds_in views.now) (round_shown outer.now ++ view_shown here.entry ∷ []) 0 (counted (found_shown found.old)).count)) }
{
    count_view(found)?;
    let round = and_here(alloc, outer, here)?;
    walk_views(alloc, views, round.as_slice(), found)
}

// Finds those of views that stand in the same views.
#[cycle(walk)]
fn walk_views<'s>(
    alloc: Global,
    views: &'s [View],
    outer: &[ViewHere<'s>],
    found: &mut Found<'s>,
) -> Result<(), OutOfMemory>
    ensures { OnOk result (found_shown found.new
        ≡ after (found_shown found.old) (in_order (map rounds_in views.now) (round_shown outer.now) 0 found.old.count)) }
{
    for (child, view) in views.iter().enumerate() {
        walk_view(alloc, view, outer, child, found)?;
    }
    Ok(())
}

/// The units of a specification, in the order of the text, in time and memory as the specification has views, each of them as deep as views
/// stand in it and as its transforms are many.
pub fn units_of<'s>(alloc: Global, s: &'s VlSpec) -> Result<Seq<UnitHere<'s>>, OutOfMemory>
    ensures { IfOk result (λ units. map unit_shown units ≡ units_of s.now) }
{
    let mut found = Found {
        count: 0,
        units: Seq::new(alloc),
    };
    walk_view(alloc, &s.view, &[], 0, &mut found)?;
    let Found { count: _, units } = found;
    Ok(units)
}
