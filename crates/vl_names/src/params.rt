//! The rules of parameters: the first that breaks each.
ghost use Rattle.std.specs.Prelude.{◌≡◌, ◌==◌, [], ◌∷◌, Some, codes, is_none, map, IfOk};
ghost use Rattle.std.specs.Option.{option_map};
ghost use Rattle.std.specs.List.{enumerate_from, position_from};
ghost use Rattle.spec_schema.specs.Order.{earlier};
ghost use Rattle.spec_walk.specs.declared.places.Step.TheVariants as step;
ghost use Rattle.vl_spec.specs.declared.params.ParamKind.TheVariants as param_kind;
ghost use Rattle.vl_names.specs.Params.{breaking, first_breaking, first_param_fault, found_fault, has_earlier, trail_in, trail_of_param};
ghost use Rattle.vl_names.specs.Params.{unknown_in_param, unknown_in_views_of, unknown_view};
ghost use Rattle.vl_names.specs.inner.Keyed.{number_at};
ghost use Rattle.vl_names.specs.inner.Looked.{known_shown, named_by};
ghost use Rattle.vl_names.specs.inner.Shown.{view_shown};
ghost use Rattle.vl_trails.specs.Faults.{earliest_placed};
ghost use Rattle.vl_trails.specs.Trails.{to_item as item_trail, to_member as member_trail};

use crate::index::named_at;
use crate::keyed::Keyed;
use crate::known::{ParamNames, knows, param_named};
use crate::trails::{to_item, to_member};
use crate::views::ViewHere;
use expr_syntax::Expr;
use json_exact::Json;
use spec_schema::{Fault, SpecKind};
use spec_walk::Step;
use std::alloc::Global;
use text_kit::{OutOfMemory, Seq, Text};
use vl_spec::{ParamKind, ParamOf};
use vl_trails::{Broken, sooner_placed};

/// A parameter that breaks a rule.
#[derive(Drop)]
pub struct Breaking {
    /// Its number among the parameters, counted from 0.
    pub number: usize,
    /// The steps from it to what is wrong.
    pub inside: Seq<Step>,
}

/// A rule of parameters.
pub trait ParamRule {
    ghost use Rattle.std.specs.Prelude.{ℕ, Option};
    ghost use Rattle.vl_spec.specs.declared.params.ParamOf.{ParamOf};
    ghost use Rattle.vl_trails.specs.Trails.{Trail};

    ghost broken: { Self → ℕ × ParamOf → Option Trail };

    /// The steps from a parameter of a number to what is wrong by the rule, if it breaks the rule.
    fn broken(
        &self,
        alloc: Global,
        number: usize,
        param: &ParamOf,
    ) -> Result<Option<Seq<Step>>, OutOfMemory>
        ensures { IfOk result (λ inside. inside ≡ broken self.now (number, param.now)) };
}

/// No parameter has the name of an earlier one.
#[derive(Clone, Copy)]
pub struct OneName<'a> {
    /// The numbers of parameters by their names: of those that are equal the first.
    pub index: &'a Keyed,
}

/// Each name in the expression of a parameter is known.
#[derive(Clone, Copy)]
pub struct KnownNames<'a> {
    /// The parameters.
    pub known: ParamNames<'a>,
}

/// Each view of a selection is known.
#[derive(Clone, Copy)]
pub struct KnownViews<'a> {
    /// The numbers of the names of views.
    pub index: &'a Keyed,
}

// Whether an earlier parameter has the name of one.
fn has_earlier(
    alloc: Global,
    index: &Keyed,
    number: usize,
    param: &ParamOf,
) -> Result<bool, OutOfMemory>
    ensures { IfOk result (λ has. has ≡ has_earlier (named_by index.now) (number, param.now)) }
{
    match param_named(alloc, index, param.name.as_str())? {
        Some(first) => Ok(first < number),
        None => Ok(false),
    }
}

/// The step to a member.
pub fn member_step(alloc: Global, name: &str) -> Result<Seq<Step>, OutOfMemory>
    ensures { IfOk result (λ steps. steps ≡ step.Name name.now ∷ []) }
{
    let name = Text::of(alloc, name)?;
    let mut steps = Seq::new(alloc);
    steps.push(Step::Name(name))?;
    Ok(steps)
}

impl ParamRule for OneName<'_> {
    ghost use Rattle.vl_names.specs.Params.{breaks_name};
    ghost use Rattle.vl_names.specs.inner.Looked.{named_by};

    ghost broken = { λ rule. breaks_name (named_by rule.index.now) };

    fn broken(
        &self,
        alloc: Global,
        number: usize,
        param: &ParamOf,
    ) -> Result<Option<Seq<Step>>, OutOfMemory> {
        if has_earlier(alloc, self.index, number, param)? {
            member_step(alloc, "name").map(Some)
        } else {
            Ok(None)
        }
    }
}

// The step to an expression that mentions an unknown name.
fn unknown_in_expr(
    alloc: Global,
    known: &ParamNames,
    e: &Expr,
) -> Result<Option<Seq<Step>>, OutOfMemory>
    ensures { IfOk result (λ inside. inside ≡ unknown_in_param (known_shown known.now) (param_kind.Expr e.now)) }
{
    if knows(alloc, known, e)? {
        Ok(None)
    } else {
        member_step(alloc, "expr").map(Some)
    }
}

impl ParamRule for KnownNames<'_> {
    ghost use Rattle.vl_names.specs.Params.{breaks_known};
    ghost use Rattle.vl_names.specs.inner.Looked.{known_shown};

    ghost broken = { λ rule. breaks_known (known_shown rule.known) };

    fn broken(
        &self,
        alloc: Global,
        _: usize,
        param: &ParamOf,
    ) -> Result<Option<Seq<Step>>, OutOfMemory> {
        match &param.kind {
            ParamKind::Expr(e) => unknown_in_expr(alloc, &self.known, e),
            ParamKind::Value(_) | ParamKind::Select(_) => Ok(None),
        }
    }
}

// Whether a name is that of no view.
fn is_unknown_view(alloc: Global, index: &Keyed, name: &Text) -> Result<bool, OutOfMemory>
    ensures { IfOk result (λ is. is ≡ is_none (number_at index.now name.now)) }
{
    let number = named_at(alloc, index, name.as_str())?;
    Ok(number.is_none())
}

// The number of the first of some names that is that of no view.
fn unknown_view(alloc: Global, index: &Keyed, names: &[Text]) -> Result<Option<usize>, OutOfMemory>
    ensures { IfOk result (λ number. number ≡ unknown_view (number_at index.now) names.now) }
{
    for (number, name) in names.iter().enumerate() {
        if is_unknown_view(alloc, index, name)? {
            return Ok(Some(number));
        }
    }
    Ok(None)
}

// The steps to an entry of `views`.
fn entry_steps(alloc: Global, number: usize) -> Result<Seq<Step>, OutOfMemory>
    ensures { IfOk result (λ steps. steps ≡ step.Name (codes "views") ∷ step.Number number ∷ []) }
{
    let mut steps = member_step(alloc, "views")?;
    steps.push(Step::Number(number))?;
    Ok(steps)
}

// The steps to the first entry of some `views` that is no view.
fn unknown_in_list(
    alloc: Global,
    index: &Keyed,
    names: &[Text],
) -> Result<Option<Seq<Step>>, OutOfMemory>
    ensures { IfOk result (λ inside. inside ≡ unknown_in_views_of (number_at index.now) (Some names.now)) }
{
    match unknown_view(alloc, index, names)? {
        Some(number) => entry_steps(alloc, number).map(Some),
        None => Ok(None),
    }
}

// The same of `views` that may be absent.
fn unknown_in_views_of(
    alloc: Global,
    index: &Keyed,
    names: &Option<Seq<Text>>,
) -> Result<Option<Seq<Step>>, OutOfMemory>
    ensures { IfOk result (λ inside. inside ≡ unknown_in_views_of (number_at index.now) names.now) }
{
    match names {
        Some(names) => unknown_in_list(alloc, index, names.as_slice()),
        None => Ok(None),
    }
}

impl ParamRule for KnownViews<'_> {
    ghost use Rattle.vl_names.specs.Params.{breaks_views};
    ghost use Rattle.vl_names.specs.inner.Keyed.{number_at};

    ghost broken = { λ rule. breaks_views (number_at rule.index.now) };

    fn broken(
        &self,
        alloc: Global,
        _: usize,
        param: &ParamOf,
    ) -> Result<Option<Seq<Step>>, OutOfMemory> {
        match &param.kind {
            ParamKind::Select(of) => unknown_in_views_of(alloc, self.index, &of.views),
            ParamKind::Value(_) | ParamKind::Expr(_) => Ok(None),
        }
    }
}

// The parameter of a number, if it breaks a rule.
fn broken_by<R: ParamRule>(
    alloc: Global,
    rule: &R,
    number: usize,
    param: &ParamOf,
) -> Result<Option<Breaking>, OutOfMemory>
    ensures { IfOk result (λ found. found ≡ option_map (breaking number) (R.broken rule.now (number, param.now))) }
{
    match rule.broken(alloc, number, param)? {
        Some(inside) => Ok(Some(Breaking { number, inside })),
        None => Ok(None),
    }
}

// The first parameter that breaks a rule.
fn first_breaking<R: ParamRule>(
    alloc: Global,
    rule: &R,
    params: &[ParamOf],
) -> Result<Option<Breaking>, OutOfMemory>
    ensures { IfOk result (λ found. found ≡ first_breaking (R.broken rule.now) (enumerate_from 0 params.now)) }
{
    for (number, param) in params.iter().enumerate() {
        match broken_by(alloc, rule, number, param)? {
            Some(found) => return Ok(Some(found)),
            None => {}
        }
    }
    Ok(None)
}

// The place of a number among some numbers.
fn number_place(numbers: &[usize], number: usize) -> Option<usize>
    ensures { result ≡ position_from (λ n. n == number) 0 numbers.now }
{
    for (place, n) in numbers.iter().enumerate() {
        if *n == number {
            return Some(place);
        }
    }
    None
}

// The steps to an item of the list under `params`.
fn param_trail(alloc: Global, outer: &[Step], place: usize) -> Result<Seq<Step>, OutOfMemory>
    ensures { IfOk result (λ trail. trail ≡ item_trail (member_trail outer.now (codes "params")) place) }
{
    let params = to_member(alloc, outer, "params")?;
    to_item(alloc, params.as_slice(), place)
}

// The steps to the item of a number of the list under `params` of a view, if there is a number.
fn trail_at(
    alloc: Global,
    here: &ViewHere,
    place: Option<usize>,
) -> Result<Option<Seq<Step>>, OutOfMemory>
    ensures { IfOk result (λ trail. trail ≡ option_map (item_trail (member_trail here.now.trail (codes "params"))) place) }
{
    match place {
        Some(place) => param_trail(alloc, here.trail.as_slice(), place).map(Some),
        None => Ok(None),
    }
}

// The steps to the parameter of a number, if a view has it.
fn trail_in(alloc: Global, number: usize, here: &ViewHere) -> Result<Option<Seq<Step>>, OutOfMemory>
    ensures { IfOk result (λ trail. trail ≡ trail_in number (view_shown here.now)) }
{
    let place = number_place(here.view.params.as_slice(), number);
    let trail = trail_at(alloc, here, place)?;
    Ok(trail)
}

// The steps to the parameter of a number.
fn trail_of_param(
    alloc: Global,
    views: &[ViewHere],
    number: usize,
) -> Result<Seq<Step>, OutOfMemory>
    ensures { IfOk result (λ trail. trail ≡ trail_of_param (map view_shown views.now) number) }
{
    for here in views {
        match trail_in(alloc, number, here)? {
            Some(trail) => return Ok(trail),
            None => {}
        }
    }
    Ok(Seq::new(alloc))
}

// The fault so far, or that of a parameter that breaks a rule, if it stands before it.
fn sooner_inside(
    alloc: Global,
    tree: &Json,
    so_far: Option<Fault>,
    views: &[ViewHere],
    found: Breaking,
) -> Result<Option<Fault>, OutOfMemory>
    ensures { IfOk result (λ f. f
        ≡ earlier so_far (earliest_placed tree.now (found_fault (map view_shown views.now) (Some found)))) }
{
    let Breaking { number, inside } = found;
    let mut trail = trail_of_param(alloc, views, number)?;
    trail.append(inside)?;
    let what = Broken::Value(SpecKind::Wrong);
    sooner_placed(alloc, tree, so_far, trail.as_slice(), &what)
}

/// The fault so far, or that of a parameter that breaks a rule, if one was found and stands before it.
#[tactic(auto, using(vl_trails::proofs::OrderLemmas::none_more))]
pub fn sooner_found(
    alloc: Global,
    tree: &Json,
    so_far: Option<Fault>,
    views: &[ViewHere],
    found: Option<Breaking>,
) -> Result<Option<Fault>, OutOfMemory>
    ensures { IfOk result (λ f. f ≡ earlier so_far (earliest_placed tree.now (found_fault (map view_shown views.now) found))) }
{
    match found {
        Some(found) => sooner_inside(alloc, tree, so_far, views, found),
        None => Ok(so_far),
    }
}

/// The fault so far, or that of the first parameter that breaks a rule, if it stands before it.
pub fn sooner_breaking<R: ParamRule>(
    alloc: Global,
    tree: &Json,
    so_far: Option<Fault>,
    views: &[ViewHere],
    rule: &R,
    params: &[ParamOf],
) -> Result<Option<Fault>, OutOfMemory>
    ensures { IfOk result (λ f. f
        ≡ earlier so_far (earliest_placed tree.now (first_param_fault (map view_shown views.now) (R.broken rule.now) params.now))) }
{
    let found = first_breaking(alloc, rule, params)?;
    sooner_found(alloc, tree, so_far, views, found)
}
