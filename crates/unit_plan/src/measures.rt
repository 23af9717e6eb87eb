// The measure and the dimension of a unit, and types in it.
ghost use Rattle.std.specs.Prelude.{◌≡◌, IfOk};
ghost use Rattle.vl_compose.specs.Shown.{unit_shown};
ghost use Rattle.unit_plan.specs.Measures.{measures_x, measure_by, dimension_by, first_type, type_said, second_type, type_in};

use crate::shows::first_at;
use scale_infer::{type_of, x_is_measure};
use std::alloc::Global;
use text_kit::OutOfMemory;
use vl_compose::UnitHere;
use vl_normalize::{X, X2, Y, Y2};
use vl_spec::{Definition, FieldType};

/// Whether x is the measure of a unit; else y is.
pub(crate) fn measures_x(alloc: Global, unit: &UnitHere) -> Result<bool, OutOfMemory>
    ensures { IfOk result (λ is. is ≡ measures_x (unit_shown unit.now)) }
{
    let x = first_at(alloc, unit, X)?;
    let y = first_at(alloc, unit, Y)?;
    Ok(x_is_measure(x, y))
}

/// The channel of the measure.
pub(crate) fn measure_by(along_x: bool) -> u16
    ensures { result ≡ measure_by along_x }
{
    if along_x { X } else { Y }
}

/// The channel of the dimension.
pub(crate) fn dimension_by(along_x: bool) -> u16
    ensures { result ≡ dimension_by along_x }
{
    if along_x { Y } else { X }
}

// The type that a definition says.
fn type_said(definition: &Definition) -> Option<FieldType>
    ensures { result ≡ type_said definition.now }
{
    match definition {
        Definition::Value(_) => None,
        Definition::Datum(of) => of.type_,
        Definition::Field(of) => of.type_,
    }
}

/// The type of the first definition of a channel that has a scale, if there is one.
pub(crate) fn first_type(
    alloc: Global,
    unit: &UnitHere,
    channel: u16,
) -> Result<Option<FieldType>, OutOfMemory>
    ensures { IfOk result (λ found. found ≡ first_type (unit_shown unit.now) channel) }
{
    match first_at(alloc, unit, channel)? {
        Some(first) => Ok(Some(type_of(first))),
        None => Ok(None),
    }
}

// The type of a second end, by that of the first.
fn second_type(first: Option<FieldType>, definition: &Definition) -> FieldType
    ensures { result ≡ second_type first definition.now }
{
    match type_said(definition) {
        Some(type_) => type_,
        None => match first {
            Some(type_) => type_,
            None => type_of(definition),
        },
    }
}

/// The type of a definition of a channel, by those of x and y.
pub(crate) fn type_in(
    x: Option<FieldType>,
    y: Option<FieldType>,
    channel: u16,
    definition: &Definition,
) -> FieldType
    ensures { result ≡ type_in x y channel definition.now }
{
    if channel == X2 {
        second_type(x, definition)
    } else if channel == Y2 {
        second_type(y, definition)
    } else {
        type_of(definition)
    }
}
