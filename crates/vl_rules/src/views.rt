//! The faults of scales and of selections, view by view.
ghost use Rattle.std.specs.Prelude.{◌≡◌, ◌++◌, true, codes, flat_map, map, IfOk, OnOk};
ghost use Rattle.spec_schema.specs.Order.{earlier as earlier_fault};
ghost use Rattle.vl_normalize.specs.Channels.{channels_in as channels_inside};
ghost use Rattle.vl_names.specs.inner.Shown.{view_shown};
ghost use Rattle.vl_trails.specs.Faults.{earliest_placed, wrong_if};
ghost use Rattle.vl_trails.specs.Judging.{after};
ghost use Rattle.vl_trails.specs.Trails.{to_item, to_member};
ghost use Rattle.vl_rules.specs.Resting.{select_at};
ghost use Rattle.vl_rules.specs.Selections.{asking_of as asking_said, concerned as concerned_by, is_wrong_for as is_wrong_selection};
ghost use Rattle.vl_rules.specs.Views.{selection_fault, kind_fault, param_fault, params_faults, param_faults, encoding_faults, faults_of_view};

use crate::channels::judge_encoding;
use crate::marked::own_channels;
use crate::offers::Offer;
use crate::resting::select_at as place_of_select;
use crate::scales::judge_wrong;
use crate::selections::{asking_of, below, concerned, is_wrong_for};
use json_exact::Json;
use spec_schema::Fault;
use std::alloc::Global;
use text_kit::OutOfMemory;
use vl_names::{ViewHere, copied_trail};
use vl_spec::{ChannelOf, ParamKind, ParamOf, Selection};
use vl_trails::Judging;

// Whether a selection is wrong for the units that it concerns.
fn is_wrong(
    alloc: Global,
    offers: &[Offer],
    inside: &[&Offer],
    selection: &Selection,
) -> Result<bool, OutOfMemory>
    ensures { IfOk result (λ wrong. wrong
        ≡ is_wrong_selection (asking_said selection.now.select) (concerned_by offers.now (map (λ o. o.now) inside.now) selection.now)) }
{
    let asking = asking_of(alloc, &selection.select)?;
    let units = concerned(alloc, offers, inside, selection)?;
    is_wrong_for(alloc, &asking, units.as_slice())
}

// The selection where one is is wrong.
fn judge_select(
    alloc: Global,
    judging: &mut Judging,
    first: &Option<Fault>,
) -> Result<(), OutOfMemory>
    ensures { OnOk result (judging.new
        ≡ after judging.old (wrong_if true (select_at judging.old.tree.now first.now judging.old.trail))) }
{
    let trail = place_of_select(alloc, judging.tree, first, judging.trail.as_slice())?;
    judge_wrong(alloc, judging, trail.as_slice())
}

// Judges the selection where one is.
#[tactic(auto, using(vl_trails::proofs::WayLemmas::after_none))]
fn judge_selection(
    alloc: Global,
    judging: &mut Judging,
    first: &Option<Fault>,
    offers: &[Offer],
    inside: &[&Offer],
    selection: &Selection,
) -> Result<(), OutOfMemory>
    ensures { OnOk result (judging.new
        ≡ after judging.old (selection_fault judging.old.tree.now first.now offers.now (map (λ o. o.now) inside.now) selection.now judging.old.trail)) }
{
    if is_wrong(alloc, offers, inside, selection)? {
        judge_select(alloc, judging, first)
    } else {
        Ok(())
    }
}

// Judges the parameter where one is.
#[tactic(auto, using(vl_trails::proofs::WayLemmas::after_none))]
fn judge_kind(
    alloc: Global,
    judging: &mut Judging,
    first: &Option<Fault>,
    offers: &[Offer],
    inside: &[&Offer],
    kind: &ParamKind,
) -> Result<(), OutOfMemory>
    ensures { OnOk result (judging.new
        ≡ after judging.old (kind_fault judging.old.tree.now first.now offers.now (map (λ o. o.now) inside.now) kind.now judging.old.trail)) }
{
    match kind {
        ParamKind::Select(selection) => judge_selection(
            alloc, judging, first, offers, inside, selection,
        ),
        ParamKind::Value(_) | ParamKind::Expr(_) => Ok(()),
    }
}

// Judges the parameter of a number, where one is.
#[tactic(auto, using(vl_trails::proofs::WayLemmas::after_none))]
fn judge_param(
    alloc: Global,
    judging: &mut Judging,
    first: &Option<Fault>,
    params: &[ParamOf],
    offers: &[Offer],
    inside: &[&Offer],
    number: usize,
) -> Result<(), OutOfMemory>
    ensures { OnOk result (judging.new
        ≡ after judging.old (param_fault judging.old.tree.now first.now params.now offers.now (map (λ o. o.now) inside.now) number judging.old.trail)) }
{
    match params.get(number) {
        Some(param) => judge_kind(alloc, judging, first, offers, inside, &param.kind),
        None => Ok(()),
    }
}

// Judges the item of this place, which is the parameter of a number.
#[tactic(auto, using(vl_trails::proofs::WayLemmas::there_and_back))]
fn judge_item(
    alloc: Global,
    judging: &mut Judging,
    first: &Option<Fault>,
    params: &[ParamOf],
    offers: &[Offer],
    inside: &[&Offer],
    place: usize,
    number: usize,
) -> Result<(), OutOfMemory>
    ensures { OnOk result (judging.new
        ≡ after judging.old
        (param_fault judging.old.tree.now first.now params.now offers.now (map (λ o. o.now) inside.now) number (to_item judging.old.trail place))) }
{
    judging.enter_item(place)?;
    judge_param(alloc, judging, first, params, offers, inside, number)?;
    judging.leave();
    Ok(())
}

// Judges the parameters of these numbers, items of the list where one is.
fn judge_items(
    alloc: Global,
    judging: &mut Judging,
    first: &Option<Fault>,
    params: &[ParamOf],
    offers: &[Offer],
    inside: &[&Offer],
    numbers: &[usize],
) -> Result<(), OutOfMemory>
    ensures { OnOk result (judging.new
        ≡ after judging.old (params_faults judging.old.tree.now first.now params.now offers.now (map (λ o. o.now) inside.now) numbers.now judging.old.trail)) }
{
    for (place, number) in numbers.iter().enumerate() {
        judge_item(
            alloc, judging, first, params, offers, inside, place, *number,
        )?;
    }
    Ok(())
}

// Judges them as those of the view where one is.
#[tactic(auto, using(vl_trails::proofs::WayLemmas::there_and_back))]
fn judge_listed(
    alloc: Global,
    judging: &mut Judging,
    first: &Option<Fault>,
    params: &[ParamOf],
    offers: &[Offer],
    inside: &[&Offer],
    numbers: &[usize],
) -> Result<(), OutOfMemory>
    ensures { OnOk result (judging.new
        ≡ after judging.old (params_faults judging.old.tree.now first.now params.now offers.now (map (λ o. o.now) inside.now) numbers.now
        (to_member judging.old.trail (codes "params")))) }
{
    judging.enter(alloc, "params")?;
    judge_items(alloc, judging, first, params, offers, inside, numbers)?;
    judging.leave();
    Ok(())
}

// Judges the parameters of the view where one is.
fn judge_params(
    alloc: Global,
    judging: &mut Judging,
    first: &Option<Fault>,
    params: &[ParamOf],
    offers: &[Offer],
    numbers: &[usize],
) -> Result<(), OutOfMemory>
    ensures { OnOk result (judging.new ≡ after judging.old (param_faults judging.old.tree.now first.now params.now offers.now numbers.now judging.old.trail)) }
{
    let inside = below(alloc, judging.trail.as_slice(), offers)?;
    judge_listed(
        alloc,
        judging,
        first,
        params,
        offers,
        inside.as_slice(),
        numbers,
    )
}

// The channels that a view has itself.
fn channels_of<'s>(here: &ViewHere<'s>) -> &'s [ChannelOf]
    ensures { result.now ≡ channels_inside (view_shown here.now).encoding }
{
    own_channels(&here.view.kind)
}

// Judges a view where one is.
#[tactic(auto, using(vl_trails::proofs::WayLemmas::then_after))]
fn judge_here(
    alloc: Global,
    judging: &mut Judging,
    first: &Option<Fault>,
    params: &[ParamOf],
    offers: &[Offer],
    numbers: &[usize],
    channels: &[ChannelOf],
) -> Result<(), OutOfMemory>
    ensures { OnOk result (judging.new
        ≡ after judging.old (param_faults judging.old.tree.now first.now params.now offers.now numbers.now judging.old.trail
        ++ encoding_faults judging.old.tree.now channels.now judging.old.trail)) }
{
    judge_params(alloc, judging, first, params, offers, numbers)?;
    judge_encoding(alloc, judging, channels)
}

// The fault so far, or one of a view.
fn sooner_view(
    alloc: Global,
    tree: &Json,
    so_far: Option<Fault>,
    first: &Option<Fault>,
    params: &[ParamOf],
    offers: &[Offer],
    here: &ViewHere,
) -> Result<Option<Fault>, OutOfMemory>
    ensures { IfOk result
        (λ f. f ≡ earlier_fault so_far (earliest_placed tree.now (faults_of_view tree.now first.now params.now offers.now (view_shown here.now)))) }
{
    let trail = copied_trail(alloc, here.trail.as_slice())?;
    let mut judging = Judging {
        tree,
        trail,
        first: so_far,
    };
    judge_here(
        alloc,
        &mut judging,
        first,
        params,
        offers,
        here.view.params.as_slice(),
        channels_of(here),
    )?;
    Ok(judging.first.take())
}

/// The fault so far, or one of some views, where these are the parameters and the units of their specification.
pub fn sooner_views(
    alloc: Global,
    tree: &Json,
    mut so_far: Option<Fault>,
    first: &Option<Fault>,
    params: &[ParamOf],
    offers: &[Offer],
    views: &[ViewHere],
) -> Result<Option<Fault>, OutOfMemory>
    ensures { IfOk result (λ f. f ≡ earlier_fault so_far
        (earliest_placed tree.now (flat_map (faults_of_view tree.now first.now params.now offers.now) (map view_shown views.now)))) }
{
    for here in views {
        so_far = sooner_view(alloc, tree, so_far, first, params, offers, here)?;
    }
    Ok(so_far)
}
