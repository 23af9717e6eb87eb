//! The names of parameters that the expressions of a change mention.
ghost use Rattle.std.specs.Prelude.{◌≡◌, IfOk, map};
ghost use Rattle.std.specs.List.{flat_map, list_all};
ghost use Rattle.std.specs.Option.{option_to_list};
ghost use Rattle.expr_syntax.specs.Names.{names_in};
ghost use Rattle.param_flow.specs.Change.{names_of_entry, names_of_change};
ghost use Rattle.param_flow.specs.Semantics.{has_param};
ghost use Rattle.vega_meaning.specs.Semantics.{vega_semantics};
ghost use Rattle.plain_engine.specs.inner.Mentions.{is_param, are_params};

use expr_syntax::{Expr, names_of};
use param_flow::{ChangeOf, Modify};
use std::alloc::Global;
use text_kit::OutOfMemory;
use vega_spec::{Parameter, VgSpec, parameters_of};

// Whether there is a parameter of this name.
fn is_param(params: &[Parameter], name: &str) -> bool
    ensures { result ≡ is_param params.now name.now }
{
    params.iter().any(|param| param.name.as_str() == name)
}

// Whether all of these are names of parameters.
fn are_params(params: &[Parameter], names: &[&str]) -> bool
    ensures { result ≡ are_params params.now (map (λ name. name.now) names.now) }
{
    for name in names {
        if !is_param(params, name) {
            return false;
        }
    }
    true
}

// Whether an expression mentions only parameters.
fn is_known(alloc: Global, params: &[Parameter], e: &Expr) -> Result<bool, OutOfMemory>
    ensures { IfOk result (λ known. known ≡ are_params params.now (names_in e.now)) }
{
    let names = names_of(alloc, e)?;
    Ok(are_params(params, names.as_slice()))
}

// Whether an expression that may be absent mentions only parameters.
fn is_test_known(
    alloc: Global,
    params: &[Parameter],
    test: &Option<Expr>,
) -> Result<bool, OutOfMemory>
    ensures { IfOk result (λ known. known ≡ are_params params.now (flat_map names_in (option_to_list test.now))) }
{
    match test {
        Some(test) => is_known(alloc, params, test),
        None => Ok(true),
    }
}

// Whether the expressions of an entry mention only parameters.
#[tactic(auto, using(crate::proofs::MentionLemmas::are_params_both))]
fn is_entry_known(alloc: Global, params: &[Parameter], entry: &Modify) -> Result<bool, OutOfMemory>
    ensures { IfOk result (λ known. known ≡ are_params params.now (names_of_entry entry.now)) }
{
    if is_known(alloc, params, &entry.test)? {
        is_known(alloc, params, &entry.value)
    } else {
        Ok(false)
    }
}

// Whether the expressions of entries mention only parameters.
#[tactic(auto, using(crate::proofs::MentionLemmas::are_params_both))]
fn are_entries_known(
    alloc: Global,
    params: &[Parameter],
    entries: &[Modify],
) -> Result<bool, OutOfMemory>
    ensures { IfOk result (λ known. known ≡ are_params params.now (flat_map names_of_entry entries.now)) }
{
    for entry in entries {
        if !is_entry_known(alloc, params, entry)? {
            return Ok(false);
        }
    }
    Ok(true)
}

// Whether the expressions of a change mention only these parameters.
#[tactic(auto, using(crate::proofs::MentionLemmas::are_params_both))]
fn is_change_known(
    alloc: Global,
    params: &[Parameter],
    change: &ChangeOf,
) -> Result<bool, OutOfMemory>
    ensures { IfOk result (λ known. known ≡ are_params params.now (names_of_change change.now)) }
{
    if is_test_known(alloc, params, &change.remove)? {
        are_entries_known(alloc, params, change.modify.as_slice())
    } else {
        Ok(false)
    }
}

/// Whether the expressions of a change mention only parameters of a specification.
#[tactic(auto, using(crate::proofs::MentionLemmas::all_params))]
pub fn mentions_params(alloc: Global, g: &VgSpec, change: &ChangeOf) -> Result<bool, OutOfMemory>
    ensures { IfOk result (λ known. known ≡ list_all (has_param (vega_semantics g.now)) (names_of_change change.now)) }
{
    let params = parameters_of(alloc, g)?;
    is_change_known(alloc, params.as_slice(), change)
}
