//! Parameters that need themselves.
ghost use Rattle.std.specs.Prelude.{◌≡◌, ◌++◌, find, map, IfOk, OnOk};
ghost use Rattle.std.specs.List.{enumerate_from, filter_map};
ghost use Rattle.std.specs.Option.{option_to_list};
ghost use Rattle.need_graph.specs.Needs.{needs_itself};
ghost use Rattle.vl_spec.specs.declared.params.ParamKind.TheVariants as param_kind;
ghost use Rattle.vl_names.specs.Circles.{breaks_circle, needs_among, needs_of};
ghost use Rattle.vl_names.specs.Params.{first_breaking};
ghost use Rattle.vl_names.specs.inner.Looked.{named_by};
ghost use Rattle.vl_names.specs.inner.Numbers.{number_of};

use crate::keyed::Keyed;
use crate::known::param_named;
use crate::params::{Breaking, member_step};
use expr_reading::parameters_of;
use expr_syntax::Expr;
use need_graph::first_in_need_of_itself;
use std::alloc::Global;
use text_kit::{OutOfMemory, Seq};
use vl_spec::{ParamKind, ParamOf};

// Adds the number of the parameter of a name, if there is one.
fn push_named(
    alloc: Global,
    index: &Keyed,
    name: &str,
    out: &mut Seq<usize>,
) -> Result<(), OutOfMemory>
    ensures { OnOk result (out.new ≡ out.old ++ option_to_list (named_by index.now name.now)) }
{
    match param_named(alloc, index, name)? {
        Some(number) => out.push(number),
        None => Ok(()),
    }
}

// The numbers of the parameters of some names.
fn all_named(alloc: Global, index: &Keyed, names: &[&str]) -> Result<Seq<usize>, OutOfMemory>
    ensures { IfOk result (λ numbers. numbers ≡ filter_map (named_by index.now) (map (λ n. n.now) names.now)) }
{
    let mut out = Seq::new(alloc);
    for name in names {
        push_named(alloc, index, name, &mut out)?;
    }
    Ok(out)
}

// The numbers of the parameters that an expression mentions.
fn needs_of_expr(alloc: Global, index: &Keyed, e: &Expr) -> Result<Seq<usize>, OutOfMemory>
    ensures { IfOk result (λ numbers. numbers ≡ needs_of (named_by index.now) (param_kind.Expr e.now)) }
{
    let names = parameters_of(alloc, e)?;
    all_named(alloc, index, names.as_slice())
}

// The numbers of the parameters that one needs by itself.
fn needs_of(alloc: Global, index: &Keyed, kind: &ParamKind) -> Result<Seq<usize>, OutOfMemory>
    ensures { IfOk result (λ numbers. numbers ≡ needs_of (named_by index.now) kind.now) }
{
    match kind {
        ParamKind::Expr(e) => needs_of_expr(alloc, index, e),
        ParamKind::Value(_) | ParamKind::Select(_) => Ok(Seq::new(alloc)),
    }
}

// What each parameter needs.
fn needs_among(
    alloc: Global,
    index: &Keyed,
    params: &[ParamOf],
) -> Result<Seq<Seq<usize>>, OutOfMemory>
    ensures { IfOk result (λ needs. needs ≡ needs_among (named_by index.now) params.now) }
{
    let mut needs = Seq::with_capacity(alloc, params.len())?;
    for param in params {
        needs.push(needs_of(alloc, index, &param.kind)?)?;
    }
    Ok(needs)
}

// The number of a parameter.
fn number_of(number: usize, _: &ParamOf) -> usize
    ensures { result ≡ number }
{
    number
}

// The numbers of all parameters.
fn numbers(alloc: Global, params: &[ParamOf]) -> Result<Seq<usize>, OutOfMemory>
    ensures { IfOk result (λ numbers. numbers ≡ map number_of (enumerate_from 0 params.now)) }
{
    let mut numbers = Seq::with_capacity(alloc, params.len())?;
    for (number, param) in params.iter().enumerate() {
        numbers.push(number_of(number, param))?;
    }
    Ok(numbers)
}

// The number of the first parameter that needs itself.
fn first_in_need(
    alloc: Global,
    index: &Keyed,
    params: &[ParamOf],
) -> Result<Option<usize>, OutOfMemory>
    ensures { IfOk result (λ found. found
        ≡ find (needs_itself (needs_among (named_by index.now) params.now)) (map number_of (enumerate_from 0 params.now))) }
{
    let needs = needs_among(alloc, index, params)?;
    let candidates = numbers(alloc, params)?;
    first_in_need_of_itself(alloc, &needs, candidates.as_slice())
}

/// The first parameter that needs itself, by itself or through others; None exactly where none does. Near linear in the parameters and
/// the names that they mention.
#[tactic(auto, using(crate::proofs::CircleLemmas::circle_found))]
pub fn first_on_circle(
    alloc: Global,
    index: &Keyed,
    params: &[ParamOf],
) -> Result<Option<Breaking>, OutOfMemory>
    ensures { IfOk result (λ found. found
        ≡ first_breaking (breaks_circle (needs_among (named_by index.now) params.now)) (enumerate_from 0 params.now)) }
{
    match first_in_need(alloc, index, params)? {
        Some(number) => {
            let inside = member_step(alloc, "expr")?;
            Ok(Some(Breaking { number, inside }))
        }
        None => Ok(None),
    }
}
