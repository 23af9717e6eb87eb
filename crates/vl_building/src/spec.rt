// Whole specifications.
ghost use Rattle.std.specs.Prelude.{◌≡◌, IfOk};
ghost use Rattle.vl_building.specs.Spec.{bare_params, spec_of};
ghost use Rattle.vl_building.specs.inner.Kept.{spec_by};

use crate::data::ParamAt;
use crate::gather::gathered;
use crate::names::named_at;
use crate::naming::{Named, naming_in};
use crate::numbers::number_between;
use crate::several::all_five;
use crate::sizes::config_at;
use crate::sources::sources_of;
use crate::views::view_of;
use json_exact::Json;
use std::alloc::Global;
use text_kit::{OutOfMemory, Seq};
use tree_readers::{members_of, needed_members, text_at};
use vl_spec::{MOST_SPACE, ParamOf, VlSpec};

// The parameters without their places.
fn bare_params(alloc: Global, params: Seq<ParamAt>) -> Result<Seq<ParamOf>, OutOfMemory>
    ensures { IfOk result (λ bare. bare ≡ bare_params params) }
{
    let mut out = Seq::new(alloc);
    for at in params.into_vec() {
        out.push(at.into_param())?;
    }
    Ok(out)
}

// The specification of these parameters, where this goes by places.
fn spec_by(
    alloc: Global,
    tree: &Json,
    named: &Named,
    params: Seq<ParamAt>,
) -> Result<VlSpec, OutOfMemory>
    ensures { IfOk result (λ s. s ≡ spec_by tree.now named.now params) }
{
    let members = members_of(tree);
    let (params, schema, sources, config, view) = all_five(
        bare_params(alloc, params),
        text_at(members, "$schema"),
        sources_of(
            alloc,
            needed_members(members, "datasets"),
            named.all.as_slice(),
        ),
        config_at(alloc, members, "config"),
        view_of(alloc, named, members, &[]),
    )?;
    Ok(VlSpec {
        schema,
        padding: number_between(members, "padding", 0, MOST_SPACE),
        autosize: named_at(members, "autosize"),
        config,
        sources,
        params,
        view,
    })
}

/// The specification that a tree says. Each part is read by its name; a part that is absent or ill-formed is as one that isn't there,
/// or empty where it has to be there. The one error is that memory is refused.
pub fn spec_of(alloc: Global, tree: &Json) -> Result<VlSpec, OutOfMemory>
    ensures { IfOk result (λ s. s ≡ spec_of tree.now) }
{
    let params = gathered(alloc, tree)?;
    let named = naming_in(alloc, tree, params.as_slice())?;
    spec_by(alloc, tree, &named, params)
}
