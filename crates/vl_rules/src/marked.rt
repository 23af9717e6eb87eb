//! The units of a specification as it is written.
ghost use Rattle.std.specs.Prelude.{◌≡◌, ◌∷◌, ◌++◌, [], map, take, IfOk, OnOk};
ghost use Rattle.vl_compose.specs.Rounds.{rounds_in, in_order};
ghost use Rattle.vl_compose.specs.Shown.{kind_of, round_shown, view_shown};
ghost use Rattle.vl_compose.specs.Units.{own_channels, channels_at};
ghost use Rattle.vl_rules.specs.Leads.{trail_of};
ghost use Rattle.vl_rules.specs.Marked.{marked};
ghost use Rattle.vl_rules.specs.inner.Found.{found_shown, and_met, with_unit, after, most_found};
ghost use Rattle.vl_rules.specs.inner.Shown.{marked_shown, marked_with};

use crate::leads::{last_trail, led};
use spec_walk::Step;
use std::alloc::Global;
use text_kit::{OutOfMemory, Seq};
use vl_compose::ViewHere;
use vl_names::copied_trail;
use vl_normalize::{channels_in, with_around};
use vl_spec::{ChannelOf, Mark, Unit, View, ViewKind, VlSpec};

/// How many units there may be.
pub const MOST_UNITS: usize = 32;

// How many views are looked for: one more, which is at fault.
const MOST_FOUND: usize = 33;

/// A unit where it stands.
#[derive(Drop)]
pub struct Marked<'s> {
    /// The views round it, from the top in; the last is itself.
    pub round: Seq<ViewHere<'s>>,
    /// The steps that lead to it.
    pub trail: Seq<Step>,
    /// Its mark.
    pub mark: &'s Option<Mark>,
    /// All channels that stand at it: its own, and behind them those of the layers round it.
    pub channels: Seq<&'s ChannelOf>,
}

// How many views were met, and the first units among them.
#[derive(Drop)]
struct Found<'s> {
    count: usize,
    units: Seq<Marked<'s>>,
}

/// The channels that a view gives to itself or to the views in it.
pub fn own_channels(kind: &ViewKind) -> &[ChannelOf]
    ensures { result.now ≡ own_channels (kind_of kind.now) }
{
    match kind {
        ViewKind::Unit(unit) => channels_in(&unit.encoding),
        ViewKind::Layer(layer) => channels_in(&layer.encoding),
        ViewKind::Facet(_) | ViewKind::Joined(_) => &[],
    }
}

// All channels that stand at the last of some views.
fn channels_at<'s>(alloc: Global, round: &[ViewHere<'s>]) -> Result<Seq<&'s ChannelOf>, OutOfMemory>
    ensures { IfOk result (λ channels. map (λ c. c.now) channels ≡ channels_at (round_shown round.now)) }
{
    let mut channels = Seq::new(alloc);
    for here in round {
        channels = with_around(alloc, own_channels(&here.view.kind), channels.as_slice())?;
    }
    Ok(channels)
}

// The steps to the last of some views.
fn trail_of(alloc: Global, round: &[ViewHere]) -> Result<Seq<Step>, OutOfMemory>
    ensures { IfOk result (λ trail. trail ≡ trail_of (round_shown round.now)) }
{
    let views = led(alloc, round)?;
    copied_trail(alloc, last_trail(views.as_slice()))
}

// The views round a view, and itself behind them.
fn and_here<'s>(
    alloc: Global,
    outer: &[ViewHere<'s>],
    here: ViewHere<'s>,
) -> Result<Seq<ViewHere<'s>>, OutOfMemory>
    ensures { IfOk result (λ round. round_shown round ≡ round_shown outer.now ++ view_shown here.entry ∷ []) }
{
    let mut round = Seq::from_slice(alloc, outer)?;
    round.push(here)?;
    Ok(round)
}

// A unit that stands in these views.
fn marked_with<'s>(
    alloc: Global,
    unit: &'s Unit,
    outer: &[ViewHere<'s>],
    here: ViewHere<'s>,
) -> Result<Marked<'s>, OutOfMemory>
    ensures { IfOk result (λ m. marked_shown m ≡ marked_with unit.now.mark (round_shown outer.now ++ view_shown here.entry ∷ [])) }
{
    let round = and_here(alloc, outer, here)?;
    let channels = channels_at(alloc, round.as_slice())?;
    let trail = trail_of(alloc, round.as_slice())?;
    Ok(Marked {
        round,
        trail,
        mark: &unit.mark,
        channels,
    })
}

// Adds a unit, unless enough are there.
fn push_unit<'s>(
    alloc: Global,
    unit: &'s Unit,
    outer: &[ViewHere<'s>],
    here: ViewHere<'s>,
    units: &mut Seq<Marked<'s>>,
) -> Result<(), OutOfMemory>
    ensures { OnOk result (take most_found (map marked_shown units.new)
        ≡ take most_found (map marked_shown units.old ++ marked_with unit.now.mark (round_shown outer.now ++ view_shown here.entry ∷ []) ∷ [])) }
{
    if units.len() < MOST_FOUND {
        units.push(marked_with(alloc, unit, outer, here)?)
    } else {
        Ok(())
    }
}

// One more view; there is no memory for more than a `usize` counts.
fn count_view(found: &mut Found) -> Result<(), OutOfMemory>
    ensures { OnOk result (found_shown found.new ≡ and_met (found_shown found.old)) }
{
    match found.count.checked_add(1) {
        Some(count) => {
            found.count = count;
            Ok(())
        }
        None => Err(OutOfMemory),
    }
}

// Finds a unit, which stands in these views.
fn find_unit<'s>(
    alloc: Global,
    unit: &'s Unit,
    outer: &[ViewHere<'s>],
    here: ViewHere<'s>,
    found: &mut Found<'s>,
) -> Result<(), OutOfMemory>
    ensures { OnOk result (found_shown found.new
        ≡ with_unit (found_shown found.old) unit.now.mark (round_shown outer.now ++ view_shown here.entry ∷ [])) }
{
    push_unit(alloc, unit, outer, here, &mut found.units)?;
    count_view(found)
}

// Finds the units of a view, which stands in these views.
#[cycle(walk)]
fn walk_view<'s>(
    alloc: Global,
    view: &'s View,
    outer: &[ViewHere<'s>],
    child: usize,
    found: &mut Found<'s>,
) -> Result<(), OutOfMemory>
    ensures { OnOk result (found_shown found.new
        ≡ after (found_shown found.old) (rounds_in view.now (round_shown outer.now) child found.old.count)) }
{
    let here = ViewHere {
        number: found.count,
        child,
        view,
    };
    match &view.kind {
        ViewKind::Unit(unit) => find_unit(alloc, unit, outer, here, found),
        ViewKind::Layer(layer) => walk_row(alloc, layer.layer.as_slice(), outer, here, found),
        ViewKind::Facet(faceted) => walk_alone(alloc, faceted.spec.get(), outer, here, found),
        ViewKind::Joined(joined) => walk_row(alloc, joined.views.as_slice(), outer, here, found),
    }
}

// Finds those of the only view in a view, which stands in these views.
#[cycle(walk)]
fn walk_alone<'s>(
    alloc: Global,
    view: &'s View,
    outer: &[ViewHere<'s>],
    here: ViewHere<'s>,
    found: &mut Found<'s>,
) -> Result<(), OutOfMemory>
    ensures { OnOk result (found_shown found.new
        ≡ after (and_met (found_shown found.old))
        (rounds_in view.now (round_shown outer.now ++ view_shown here.entry ∷ []) 0 (and_met (found_shown found.old)).count)) }
{
    count_view(found)?;
    let round = and_here(alloc, outer, here)?;
    walk_view(alloc, view, round.as_slice(), 0, found)
}

// Finds those of the views in a view, which stands in these views.
#[cycle(walk)]
fn walk_row<'s>(
    alloc: Global,
    views: &'s [View],
    outer: &[ViewHere<'s>],
    here: ViewHere<'s>,
    found: &mut Found<'s>,
) -> Result<(), OutOfMemory>
    ensures { OnOk result (found_shown found.new
        ≡ after (and_met (found_shown found.old))
        (in_order (map rounds_in views.now) (round_shown outer.now ++ view_shown here.entry ∷ []) 0 (and_met (found_shown found.old)).count)) }
{
    count_view(found)?;
    let round = and_here(alloc, outer, here)?;
    walk_views(alloc, views, round.as_slice(), found)
}

// Finds those of views that stand in the same views.
#[cycle(walk)]
fn walk_views<'s>(
    alloc: Global,
    views: &'s [View],
    outer: &[ViewHere<'s>],
    found: &mut Found<'s>,
) -> Result<(), OutOfMemory>
    ensures { OnOk result (found_shown found.new
        ≡ after (found_shown found.old) (in_order (map rounds_in views.now) (round_shown outer.now) 0 found.old.count)) }
{
    for (child, view) in views.iter().enumerate() {
        walk_view(alloc, view, outer, child, found)?;
    }
    Ok(())
}

/// The first 33 units of a specification, in the order of the text, in time as the specification has views, each as deep as it stands.
pub fn first_marked<'s>(alloc: Global, s: &'s VlSpec) -> Result<Seq<Marked<'s>>, OutOfMemory>
    ensures { IfOk result (λ units. map marked_shown units ≡ take most_found (marked s.now)) }
{
    let mut found = Found {
        count: 0,
        units: Seq::new(alloc),
    };
    walk_view(alloc, &s.view, &[], 0, &mut found)?;
    let Found {
        count: _,
        mut units,
    } = found;
    units.truncate(MOST_FOUND);
    Ok(units)
}
