//! How far folds multiply the rows of a unit.
ghost use Rattle.std.specs.Prelude.{◌≡◌, [], length, map, unwrap_or, IfOk};
ghost use Rattle.spec_schema.specs.Order.{earlier as earlier_fault};
ghost use Rattle.vl_spec.specs.declared.views.View.{out-View};
ghost use Rattle.vl_trails.specs.Faults.{earliest_placed};
ghost use Rattle.vl_rules.specs.Folds.{rows_from, passing, fold_trail, fold_among, fold_fault, too_many_rows};
ghost use Rattle.vl_rules.specs.inner.Shown.{led_shown, marked_shown};

use crate::leads::{LedView, led};
use crate::marked::Marked;
use json_exact::Json;
use spec_schema::{Fault, SpecKind};
use spec_walk::Step;
use std::alloc::Global;
use text_kit::{OutOfMemory, Seq};
use vl_compose::transforms_of;
use vl_names::{to_item, to_member};
use vl_spec::{Transform, View};
use vl_trails::{Broken, sooner_placed};

/// How many rows folds may make of one.
pub const MOST_ROWS: usize = 8;

// How many rows a transform makes of one.
fn rows_from(transform: &Transform) -> usize
    ensures { result ≡ rows_from transform.now }
{
    match transform {
        Transform::Fold(of) => of.fold.len(),
        Transform::Filter(_)
        | Transform::Calculate(_)
        | Transform::Bin(_)
        | Transform::TimeUnit(_)
        | Transform::Aggregate(_)
        | Transform::JoinAggregate(_)
        | Transform::Stack(_)
        | Transform::Window(_)
        | Transform::Lookup(_) => 1,
    }
}

// The number of the first of some transforms by which there are too many rows.
fn passing(transforms: &[&Transform]) -> Option<usize>
    ensures { result ≡ passing (map (λ t. t.now) transforms.now) }
{
    let mut rows: usize = 1;
    for (number, transform) in transforms.iter().enumerate() {
        rows = rows.saturating_mul(rows_from(transform));
        if rows > MOST_ROWS {
            return Some(number);
        }
    }
    None
}

// The steps to the fold of a view's transform of a number.
fn fold_trail(alloc: Global, trail: &[Step], number: usize) -> Result<Seq<Step>, OutOfMemory>
    ensures { IfOk result (λ longer. longer ≡ fold_trail trail.now number) }
{
    let transforms = to_member(alloc, trail, "transform")?;
    let transform = to_item(alloc, transforms.as_slice(), number)?;
    to_member(alloc, transform.as_slice(), "fold")
}

// How many transforms a view has.
fn transforms_in(view: &View) -> usize
    ensures { result ≡ length (unwrap_or (out-View view.now).transform []) }
{
    match &view.transform {
        Some(transforms) => transforms.len(),
        None => 0,
    }
}

// The steps to the fold that has this number among the transforms of some views.
fn fold_among(alloc: Global, views: &[LedView], number: usize) -> Result<Seq<Step>, OutOfMemory>
    ensures { IfOk result (λ trail. trail ≡ fold_among (map led_shown views.now) number) }
{
    let mut left = number;
    for led in views {
        let many = transforms_in(led.here.view);
        if left < many {
            return fold_trail(alloc, led.trail.as_slice(), left);
        }
        left -= many;
    }
    Ok(Seq::new(alloc))
}

// The fault so far, or the fold of this number on the way to a unit.
fn sooner_fold(
    alloc: Global,
    tree: &Json,
    so_far: Option<Fault>,
    unit: &Marked,
    number: usize,
) -> Result<Option<Fault>, OutOfMemory>
    ensures { IfOk result (λ f. f ≡ earlier_fault so_far (earliest_placed tree.now (fold_fault (marked_shown unit.now) number))) }
{
    let views = led(alloc, unit.round.as_slice())?;
    let trail = fold_among(alloc, views.as_slice(), number)?;
    sooner_placed(
        alloc,
        tree,
        so_far,
        trail.as_slice(),
        &Broken::Value(SpecKind::Wrong),
    )
}

/// The fault so far, or the fold by which the rows of a unit are too many.
pub fn sooner_folds(
    alloc: Global,
    tree: &Json,
    so_far: Option<Fault>,
    unit: &Marked,
) -> Result<Option<Fault>, OutOfMemory>
    ensures { IfOk result (λ f. f ≡ earlier_fault so_far (earliest_placed tree.now (too_many_rows (marked_shown unit.now)))) }
{
    let transforms = transforms_of(alloc, unit.round.as_slice())?;
    match passing(transforms.as_slice()) {
        Some(number) => sooner_fold(alloc, tree, so_far, unit, number),
        None => Ok(so_far),
    }
}
