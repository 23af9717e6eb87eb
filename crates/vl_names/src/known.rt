//! Which names are known.
ghost use Rattle.std.specs.Prelude.{◌≡◌, ◌++◌, map, IfOk, OnOk};
ghost use Rattle.std.specs.Option.{option_to_list};
ghost use Rattle.std.specs.List.{list_all};
ghost use Rattle.vl_names.specs.Known.{is_selection, is_selection_at, knows, param_names, view_names};
ghost use Rattle.vl_names.specs.inner.Looked.{known_shown, named_by};
ghost use Rattle.vl_names.specs.inner.Shown.{view_shown};

use crate::index::named_at;
use crate::keyed::Keyed;
use crate::views::ViewHere;
use expr_reading::{parameters_of, selections_of};
use expr_syntax::Expr;
use std::alloc::Global;
use text_kit::{OutOfMemory, Seq, Text};
use vl_spec::{ParamKind, ParamOf};

/// The names of parameters, in their order.
pub fn param_names(alloc: Global, params: &[ParamOf]) -> Result<Seq<Text>, OutOfMemory>
    ensures { IfOk result (λ names. names ≡ param_names params.now) }
{
    let mut names = Seq::new(alloc);
    for param in params {
        names.push(param.name.copy()?)?;
    }
    Ok(names)
}

// Adds the name of a view, if it has one.
fn push_name(names: &mut Seq<Text>, name: &Option<Text>) -> Result<(), OutOfMemory>
    ensures { OnOk result (names.new ≡ names.old ++ option_to_list name.now) }
{
    match name {
        Some(name) => names.push(name.copy()?),
        None => Ok(()),
    }
}

/// The names of views, in their order.
pub fn view_names(alloc: Global, views: &[ViewHere]) -> Result<Seq<Text>, OutOfMemory>
    ensures { IfOk result (λ names. names ≡ view_names (map view_shown views.now)) }
{
    let mut names = Seq::new(alloc);
    for here in views {
        push_name(&mut names, &here.view.name)?;
    }
    Ok(names)
}

/// Parameters, with an index of their names.
#[derive(Clone, Copy)]
pub struct ParamNames<'a> {
    /// The parameters, in the order of the text.
    pub params: &'a [ParamOf],
    /// Their numbers by their names.
    pub index: &'a Keyed,
}

/// The number of the first parameter of a name; None exactly where no parameter has it.
pub fn param_named(alloc: Global, index: &Keyed, name: &str) -> Result<Option<usize>, OutOfMemory>
    ensures { IfOk result (λ number. number ≡ named_by index.now name.now) }
{
    if name.len() == 0 {
        Ok(None)
    } else {
        named_at(alloc, index, name)
    }
}

/// Whether a parameter of a name is known.
pub fn knows_param(alloc: Global, known: &ParamNames, name: &str) -> Result<bool, OutOfMemory>
    ensures { IfOk result (λ knows. knows ≡ (known_shown known.now).param name.now) }
{
    let number = param_named(alloc, known.index, name)?;
    Ok(number.is_some())
}

// Whether a parameter is a selection.
fn is_selection(kind: &ParamKind) -> bool
    ensures { result ≡ is_selection kind.now }
{
    match kind {
        ParamKind::Value(_) | ParamKind::Expr(_) => false,
        ParamKind::Select(_) => true,
    }
}

// Whether the parameter of a number is a selection.
fn is_selection_at(params: &[ParamOf], number: usize) -> bool
    ensures { result ≡ is_selection_at params.now number }
{
    match params.get(number) {
        Some(param) => is_selection(&param.kind),
        None => false,
    }
}

// Whether a store of a name is known.
fn knows_store(alloc: Global, known: &ParamNames, name: &str) -> Result<bool, OutOfMemory>
    ensures { IfOk result (λ knows. knows ≡ (known_shown known.now).store name.now) }
{
    match param_named(alloc, known.index, name)? {
        Some(number) => Ok(is_selection_at(known.params, number)),
        None => Ok(false),
    }
}

// Whether parameters of all these names are known.
fn knows_params(alloc: Global, known: &ParamNames, names: &[&str]) -> Result<bool, OutOfMemory>
    ensures { IfOk result (λ knows. knows ≡ list_all (known_shown known.now).param (map (λ n. n.now) names.now)) }
{
    for name in names {
        if !knows_param(alloc, known, name)? {
            return Ok(false);
        }
    }
    Ok(true)
}

// Whether stores of all these names are known.
fn knows_stores(alloc: Global, known: &ParamNames, names: &[&str]) -> Result<bool, OutOfMemory>
    ensures { IfOk result (λ knows. knows ≡ list_all (known_shown known.now).store (map (λ n. n.now) names.now)) }
{
    for name in names {
        if !knows_store(alloc, known, name)? {
            return Ok(false);
        }
    }
    Ok(true)
}

/// Whether all names that an expression mentions are known.
pub fn knows(alloc: Global, known: &ParamNames, e: &Expr) -> Result<bool, OutOfMemory>
    ensures { IfOk result (λ all. all ≡ knows (known_shown known.now) e.now) }
{
    let params = parameters_of(alloc, e)?;
    if !knows_params(alloc, known, params.as_slice())? {
        return Ok(false);
    }
    let stores = selections_of(alloc, e)?;
    knows_stores(alloc, known, stores.as_slice())
}
