// Settings of parameters.
ghost use Rattle.std.specs.Prelude.{◌≡◌, map, IfOk};
ghost use Rattle.vega_spec.specs.Names.{parameters_of};
ghost use Rattle.param_flow.specs.Machine.{with_value};
ghost use Rattle.param_flow.specs.Settings.{is_settable, has_name, has_settable, params_set, SetsAs};

use crate::ParamError;
use cell_value::{Cell, Params};
use std::alloc::Global;
use text_kit::{OutOfMemory, Seq, Text, copy_list};
use vega_spec::{Parameter, ParameterKind, VgSpec, parameters_of};

// Whether commands may set a parameter of this kind.
fn is_settable(kind: ParameterKind) -> bool
    ensures { result ≡ is_settable kind }
{
    match kind {
        ParameterKind::Settable => true,
        ParameterKind::Computed | ParameterKind::Selection => false,
    }
}

// Whether there is a parameter of this name.
fn has_name(params: &[Parameter], name: &str) -> bool
    ensures { result ≡ has_name params.now name.now }
{
    params.iter().any(|param| param.name.as_str() == name)
}

// Whether there is one that can be set.
fn has_settable(params: &[Parameter], name: &str) -> bool
    ensures { result ≡ has_settable params.now name.now }
{
    params.iter().any(|param| param.name.as_str() == name && is_settable(param.kind))
}

// A copy of a value, with another cell if it has this name.
fn with_value(param: &(Text, Cell), name: &str, value: &Cell) -> Result<(Text, Cell), OutOfMemory>
    ensures { IfOk result (λ copy. copy ≡ with_value name.now value.now param.now) }
{
    let is_named = param.0.as_str() == name;
    let cell = if is_named { value } else { &param.1 };
    Ok((param.0.copy()?, cell.copy()?))
}

// Copies of values, with another cell in the place of those of this name.
fn all_with_value(
    alloc: Global,
    params: &[(Text, Cell)],
    name: &str,
    value: &Cell,
) -> Result<Seq<(Text, Cell)>, OutOfMemory>
    ensures { IfOk result (λ copies. copies ≡ map (with_value name.now value.now) params.now) }
{
    let mut copies = Seq::with_capacity(alloc, params.len())?;
    for param in params {
        copies.push(with_value(param, name, value)?)?;
    }
    Ok(copies)
}

// The same beside copies of what the selections hold.
fn params_with(alloc: Global, now: &Params, name: &str, value: &Cell) -> Result<Params, OutOfMemory>
    ensures { IfOk result (λ next. next
        ≡ record { params = map (with_value name.now value.now) now.now.params; stores = now.now.stores }) }
{
    Ok(Params {
        params: all_with_value(alloc, now.params.as_slice(), name, value)?,
        stores: copy_list(alloc, now.stores.as_slice())?,
    })
}

/// The parameters of a chart once the one of this name has this value; the others, and what the selections hold, are as they were.
/// `NoSuchName` comes exactly where no parameter of the specification has the name, and `Computed` exactly where some have it and none of
/// them can be set, as it is computed or a selection.
pub fn set(
    alloc: Global,
    g: &VgSpec,
    now: &Params,
    name: &str,
    value: Cell,
) -> Result<Params, ParamError>
    ensures { SetsAs result (params_set (parameters_of g.now) now.now name.now value) }
{
    let params = parameters_of(alloc, g)?;
    if !has_name(params.as_slice(), name) {
        return Err(ParamError::NoSuchName);
    }
    if !has_settable(params.as_slice(), name) {
        return Err(ParamError::Computed);
    }
    Ok(params_with(alloc, now, name, &value)?)
}
