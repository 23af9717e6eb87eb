//! Unknown names in views.
ghost use Rattle.std.specs.Prelude.{◌≡◌, [], codes, map, unwrap_or, IfOk, OnOk};
ghost use Rattle.std.specs.Option.{option_copied};
ghost use Rattle.spec_schema.specs.Order.{earlier};
ghost use Rattle.vl_spec.specs.declared.transforms.Transform.TheVariants as transform;
ghost use Rattle.vl_spec.specs.declared.views.ViewKind.{out-ViewKind};
ghost use Rattle.vl_names.specs.Filters.{filter_faults};
ghost use Rattle.vl_names.specs.Unknown.{encoding_part, facet_part, transform_faults, transforms_faults, unknown_in_views, view_faults};
ghost use Rattle.vl_names.specs.inner.Looked.{known_shown};
ghost use Rattle.vl_names.specs.inner.Shown.{encoding_at, facet_at, view_shown};
ghost use Rattle.vl_trails.specs.Faults.{earliest_placed};
ghost use Rattle.vl_trails.specs.Judging.{after};
ghost use Rattle.vl_trails.specs.Trails.{to_item, to_member};

use crate::channels::{judge_encoding, judge_facet};
use crate::filters::judge_filter;
use crate::known::{ParamNames, knows};
use crate::trails::copied_trail;
use crate::views::ViewHere;
use json_exact::Json;
use spec_schema::{Fault, SpecKind};
use std::alloc::Global;
use text_kit::{OutOfMemory, Seq};
use vl_spec::{CalculateTransform, Encoding, Facet, Filter, Transform, ViewKind};
use vl_trails::Judging;

// Judges the filter under `filter`.
#[tactic(auto, using(vl_trails::proofs::WayLemmas::there_and_back))]
fn judge_under_filter(
    alloc: Global,
    known: &ParamNames,
    filter: &Filter,
    j: &mut Judging,
) -> Result<(), OutOfMemory>
    ensures { OnOk result (j.new ≡ after j.old (filter_faults (known_shown known.now) filter.now (to_member j.old.trail (codes "filter")))) }
{
    j.enter(alloc, "filter")?;
    judge_filter(alloc, known, filter, j)?;
    j.leave();
    Ok(())
}

// Judges the expression under `calculate`.
fn judge_calculate(
    alloc: Global,
    known: &ParamNames,
    of: &CalculateTransform,
    j: &mut Judging,
) -> Result<(), OutOfMemory>
    ensures { OnOk result (j.new
        ≡ after j.old (transform_faults (known_shown known.now) (transform.Calculate of.now) j.old.trail)) }
{
    let knows = knows(alloc, known, &of.calculate)?;
    j.judge_member(alloc, "calculate", !knows, SpecKind::Wrong)
}

// Judges the names in a transform where one is.
#[tactic(auto, using(vl_trails::proofs::WayLemmas::after_none))]
fn judge_transform(
    alloc: Global,
    known: &ParamNames,
    transform: &Transform,
    j: &mut Judging,
) -> Result<(), OutOfMemory>
    ensures { OnOk result (j.new ≡ after j.old (transform_faults (known_shown known.now) transform.now j.old.trail)) }
{
    match transform {
        Transform::Filter(filter) => judge_under_filter(alloc, known, filter, j),
        Transform::Calculate(of) => judge_calculate(alloc, known, of, j),
        Transform::Bin(_)
        | Transform::TimeUnit(_)
        | Transform::Aggregate(_)
        | Transform::JoinAggregate(_)
        | Transform::Stack(_)
        | Transform::Window(_)
        | Transform::Lookup(_)
        | Transform::Fold(_) => Ok(()),
    }
}

// Judges an item of a list of transforms.
#[tactic(auto, using(vl_trails::proofs::WayLemmas::there_and_back))]
fn judge_item(
    alloc: Global,
    known: &ParamNames,
    number: usize,
    transform: &Transform,
    j: &mut Judging,
) -> Result<(), OutOfMemory>
    ensures { OnOk result (j.new ≡ after j.old (transform_faults (known_shown known.now) transform.now (to_item j.old.trail number))) }
{
    j.enter_item(number)?;
    judge_transform(alloc, known, transform, j)?;
    j.leave();
    Ok(())
}

// Judges the transforms of a list where one is.
fn judge_items(
    alloc: Global,
    known: &ParamNames,
    transforms: &[Transform],
    j: &mut Judging,
) -> Result<(), OutOfMemory>
    ensures { OnOk result (j.new ≡ after j.old (transforms_faults (known_shown known.now) transforms.now j.old.trail)) }
{
    for (number, transform) in transforms.iter().enumerate() {
        judge_item(alloc, known, number, transform, j)?;
    }
    Ok(())
}

/// The transforms of a list that may be absent.
pub fn transforms_in(transforms: &Option<Seq<Transform>>) -> &[Transform]
    ensures { result.now ≡ unwrap_or transforms.now [] }
{
    match transforms {
        Some(transforms) => transforms.as_slice(),
        None => &[],
    }
}

// Judges the transforms under `transform`.
#[tactic(auto, using(vl_trails::proofs::WayLemmas::there_and_back))]
fn judge_transforms(
    alloc: Global,
    known: &ParamNames,
    transforms: &[Transform],
    j: &mut Judging,
) -> Result<(), OutOfMemory>
    ensures { OnOk result (j.new
        ≡ after j.old (transforms_faults (known_shown known.now) transforms.now (to_member j.old.trail (codes "transform")))) }
{
    j.enter(alloc, "transform")?;
    judge_items(alloc, known, transforms, j)?;
    j.leave();
    Ok(())
}

// The encoding of a view, if it has one.
fn encoding_of(kind: &ViewKind) -> Option<&Encoding>
    ensures { option_copied result ≡ encoding_at (out-ViewKind kind.now) }
{
    match kind {
        ViewKind::Unit(unit) => unit.encoding.as_ref(),
        ViewKind::Layer(layer) => layer.encoding.as_ref(),
        ViewKind::Facet(_) | ViewKind::Joined(_) => None,
    }
}

// The facet of a view, if it has one.
fn facet_of(kind: &ViewKind) -> Option<&Facet>
    ensures { option_copied result ≡ facet_at (out-ViewKind kind.now) }
{
    match kind {
        ViewKind::Facet(faceted) => Some(&faceted.facet),
        ViewKind::Unit(_) | ViewKind::Layer(_) | ViewKind::Joined(_) => None,
    }
}

// Judges the channels of a view.
#[tactic(auto, using(vl_trails::proofs::WayLemmas::after_none))]
fn judge_channels(
    alloc: Global,
    known: &ParamNames,
    kind: &ViewKind,
    j: &mut Judging,
) -> Result<(), OutOfMemory>
    ensures { OnOk result (j.new
        ≡ after j.old (encoding_part (known_shown known.now) (encoding_at (out-ViewKind kind.now)) j.old.trail)) }
{
    match encoding_of(kind) {
        Some(encoding) => judge_encoding(alloc, known, encoding, j),
        None => Ok(()),
    }
}

// Judges the facet of a view.
#[tactic(auto, using(vl_trails::proofs::WayLemmas::after_none))]
fn judge_parts(
    alloc: Global,
    known: &ParamNames,
    kind: &ViewKind,
    j: &mut Judging,
) -> Result<(), OutOfMemory>
    ensures { OnOk result (j.new ≡ after j.old (facet_part (known_shown known.now) (facet_at (out-ViewKind kind.now)) j.old.trail)) }
{
    match facet_of(kind) {
        Some(facet) => judge_facet(alloc, known, facet, j),
        None => Ok(()),
    }
}

// Judges the names in a view, without the views in it.
#[tactic(auto, using(vl_trails::proofs::WayLemmas::then_after))]
fn judge_view(
    alloc: Global,
    known: &ParamNames,
    here: &ViewHere,
    j: &mut Judging,
) -> Result<(), OutOfMemory>
    requires { j.old.trail ≡ here.now.trail }
    ensures { OnOk result (j.new ≡ after j.old (view_faults (known_shown known.now) (view_shown here.now))) }
{
    judge_transforms(alloc, known, transforms_in(&here.view.transform), j)?;
    judge_channels(alloc, known, &here.view.kind, j)?;
    judge_parts(alloc, known, &here.view.kind, j)
}

// The fault so far, or one of the names in a view that stands before it.
fn sooner_in_view(
    alloc: Global,
    tree: &Json,
    so_far: Option<Fault>,
    known: &ParamNames,
    here: &ViewHere,
) -> Result<Option<Fault>, OutOfMemory>
    ensures { IfOk result (λ f. f ≡ earlier so_far (earliest_placed tree.now (view_faults (known_shown known.now) (view_shown here.now)))) }
{
    let trail = copied_trail(alloc, here.trail.as_slice())?;
    let mut j = Judging {
        tree,
        trail,
        first: so_far,
    };
    judge_view(alloc, known, here, &mut j)?;
    Ok(j.first.take())
}

/// The fault so far, or that of an unknown name in views that stands first and before it.
pub fn sooner_unknown(
    alloc: Global,
    tree: &Json,
    so_far: Option<Fault>,
    known: &ParamNames,
    views: &[ViewHere],
) -> Result<Option<Fault>, OutOfMemory>
    ensures { IfOk result (λ f. f
        ≡ earlier so_far (earliest_placed tree.now (unknown_in_views (known_shown known.now) (map view_shown views.now)))) }
{
    let mut so_far = so_far;
    for here in views {
        so_far = sooner_in_view(alloc, tree, so_far, known, here)?;
    }
    Ok(so_far)
}
