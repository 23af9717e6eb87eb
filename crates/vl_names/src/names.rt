//! All rules of names together.
ghost use Rattle.std.specs.Prelude.{◌≡◌, map, IfOk};
ghost use Rattle.spec_schema.specs.Order.{earlier};
ghost use Rattle.vl_names.specs.Circles.{breaks_circle, needs_among};
ghost use Rattle.vl_names.specs.Given.{data_given as names_of_data, views_given as names_given};
ghost use Rattle.vl_names.specs.Known.{first_named, param_names as names_of_params, view_names as names_of_views};
ghost use Rattle.vl_names.specs.Names.{faults_with, name_faults, param_faults, twice_given};
ghost use Rattle.vl_names.specs.Params.{breaks_views, first_param_fault};
ghost use Rattle.vl_names.specs.Twice.{twice};
ghost use Rattle.vl_names.specs.inner.Index.{IsIndex};
ghost use Rattle.vl_names.specs.inner.Looked.{known_shown, named_by};
ghost use Rattle.vl_names.specs.inner.Shown.{view_shown};
ghost use Rattle.vl_trails.specs.Faults.{earliest_placed};

use crate::circles::first_on_circle;
use crate::given::{data_given, views_given};
use crate::index::indexed;
use crate::keyed::Keyed;
use crate::known::{ParamNames, param_names, view_names};
use crate::params::{KnownNames, KnownViews, OneName, sooner_breaking, sooner_found};
use crate::twice::sooner_twice;
use crate::unknown::sooner_unknown;
use crate::views::{ViewHere, views_of};
use json_exact::Json;
use spec_schema::Fault;
use std::alloc::Global;
use text_kit::OutOfMemory;
use vl_spec::{ParamOf, VlSpec};

// The first fault of names of data that are given twice.
fn first_twice(alloc: Global, tree: &Json, views: &[ViewHere]) -> Result<Option<Fault>, OutOfMemory>
    ensures { IfOk result (λ f. f ≡ earliest_placed tree.now (twice tree.now (names_of_data tree.now (map view_shown views.now)))) }
{
    let given = data_given(alloc, tree, views)?;
    sooner_twice(alloc, tree, None, given.as_slice())
}

// The fault so far, or the first of names of views that are given twice, if it stands before it.
fn sooner_view_twice(
    alloc: Global,
    tree: &Json,
    so_far: Option<Fault>,
    views: &[ViewHere],
) -> Result<Option<Fault>, OutOfMemory>
    ensures { IfOk result (λ f. f ≡ earlier so_far (earliest_placed tree.now (twice tree.now (names_given (map view_shown views.now))))) }
{
    let given = views_given(alloc, views)?;
    sooner_twice(alloc, tree, so_far, given.as_slice())
}

// The first fault of names of data or of views that are given twice.
#[tactic(auto, using(vl_trails::proofs::OrderLemmas::then_faults))]
fn first_given_twice(
    alloc: Global,
    tree: &Json,
    views: &[ViewHere],
) -> Result<Option<Fault>, OutOfMemory>
    ensures { IfOk result (λ f. f ≡ earliest_placed tree.now (twice_given tree.now (map view_shown views.now))) }
{
    let so_far = first_twice(alloc, tree, views)?;
    let so_far = sooner_view_twice(alloc, tree, so_far, views)?;
    Ok(so_far)
}

// The fault so far, or that of the first selection with an unknown view, if it stands before it.
fn sooner_unknown_view(
    alloc: Global,
    tree: &Json,
    so_far: Option<Fault>,
    views: &[ViewHere],
    params: &[ParamOf],
) -> Result<Option<Fault>, OutOfMemory>
    ensures { IfOk result (λ f. f ≡ earlier so_far (earliest_placed tree.now
        (first_param_fault (map view_shown views.now) (breaks_views (first_named (names_of_views (map view_shown views.now)))) params.now))) }
{
    let names = view_names(alloc, views)?;
    let index = indexed(alloc, names.as_slice())?;
    let rule = KnownViews { index: &index };
    sooner_breaking(alloc, tree, so_far, views, &rule, params)
}

// The fault so far, or that of the first parameter that needs itself, if it stands before it.
fn sooner_circle(
    alloc: Global,
    tree: &Json,
    so_far: Option<Fault>,
    index: &Keyed,
    views: &[ViewHere],
    params: &[ParamOf],
) -> Result<Option<Fault>, OutOfMemory>
    ensures { IfOk result (λ f. f ≡ earlier so_far (earliest_placed tree.now
        (first_param_fault (map view_shown views.now) (breaks_circle (needs_among (named_by index.now) params.now)) params.now))) }
{
    let found = first_on_circle(alloc, index, params)?;
    sooner_found(alloc, tree, so_far, views, found)
}

// The fault so far, or the first of those of parameters, if it stands before it.
fn sooner_params(
    alloc: Global,
    tree: &Json,
    so_far: Option<Fault>,
    known: &ParamNames,
    views: &[ViewHere],
) -> Result<Option<Fault>, OutOfMemory>
    ensures { IfOk result (λ f. f ≡ earlier so_far (earliest_placed tree.now
        (param_faults (known_shown known.now) (named_by known.now.index.now) (first_named (names_of_views (map view_shown views.now)))
        (map view_shown views.now) known.now.params.now))) }
{
    let one = OneName { index: known.index };
    let so_far = sooner_breaking(alloc, tree, so_far, views, &one, known.params)?;
    let all = KnownNames { known: *known };
    let so_far = sooner_breaking(alloc, tree, so_far, views, &all, known.params)?;
    let so_far = sooner_unknown_view(alloc, tree, so_far, views, known.params)?;
    let so_far = sooner_circle(alloc, tree, so_far, known.index, views, known.params)?;
    Ok(so_far)
}

// The first fault of names, where these are the views and what is known.
fn first_with(
    alloc: Global,
    tree: &Json,
    known: &ParamNames,
    views: &[ViewHere],
) -> Result<Option<Fault>, OutOfMemory>
    ensures { IfOk result (λ f. f ≡ earliest_placed tree.now
        (faults_with tree.now (known_shown known.now) (named_by known.now.index.now) (map view_shown views.now) known.now.params.now)) }
{
    let so_far = first_given_twice(alloc, tree, views)?;
    let so_far = sooner_params(alloc, tree, so_far, known, views)?;
    let so_far = sooner_unknown(alloc, tree, so_far, known, views)?;
    Ok(so_far)
}

// The numbers of parameters by their names.
fn param_index(alloc: Global, params: &[ParamOf]) -> Result<Keyed, OutOfMemory>
    ensures { IfOk result (λ index. IsIndex index (names_of_params params.now)) }
{
    let names = param_names(alloc, params)?;
    indexed(alloc, names.as_slice())
}

/// The fault of a name that stands first in the tree which says a specification: a name that is given twice, one that is unknown, or a
/// parameter that needs itself; None exactly where there is none. Near linear in the tree and the specification, where objects have few
/// members and are nested by few levels.
pub fn first_name_fault(
    alloc: Global,
    tree: &Json,
    s: &VlSpec,
) -> Result<Option<Fault>, OutOfMemory>
    ensures { IfOk result (λ f. f ≡ earliest_placed tree.now (name_faults tree.now s.now)) }
{
    let params = s.params.as_slice();
    let index = param_index(alloc, params)?;
    let known = ParamNames {
        params,
        index: &index,
    };
    let views = views_of(alloc, s)?;
    let first = first_with(alloc, tree, &known, views.as_slice())?;
    Ok(first)
}
