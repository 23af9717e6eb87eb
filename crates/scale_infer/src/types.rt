// What kind of cells a definition shows.
ghost use Rattle.std.specs.Prelude.{◌≡◌, option_copied};
ghost use Rattle.scale_infer.specs.Types.{scale_in, kind_said, are_bins, has_bins, is_list, has_list, type_by_kind, type_missing, type_of};
ghost use Rattle.scale_infer.specs.Types.{is_aggregated, is_binned, is_continuous, is_quantitative, is_temporal};

use crate::codes::{LINEAR, TIME};
use vl_spec::{Bin, Definition, FieldDefinition, FieldType, Scale, Sort};

/// The scale of a definition.
pub(crate) fn scale_in(definition: &Definition) -> Option<&Scale>
    ensures { option_copied result ≡ scale_in definition.now }
{
    match definition {
        Definition::Value(_) => None,
        Definition::Datum(of) => of.scale.as_ref(),
        Definition::Field(of) => of.scale.as_ref(),
    }
}

// The type of a scale that may be absent.
fn kind_said(scale: &Option<Scale>) -> Option<u16>
    ensures { result ≡ kind_said scale.now }
{
    match scale {
        Some(scale) => scale.type_,
        None => None,
    }
}

// Whether there are bins.
fn are_bins(bin: &Bin) -> bool
    ensures { result ≡ are_bins bin.now }
{
    match bin {
        Bin::Flag(flag) => *flag,
        Bin::Settings(_) => true,
    }
}

// The same where none may be given.
fn has_bins(bin: &Option<Bin>) -> bool
    ensures { result ≡ has_bins bin.now }
{
    match bin {
        Some(bin) => are_bins(bin),
        None => false,
    }
}

// Whether an order is a list.
fn is_list(sort: &Sort) -> bool
    ensures { result ≡ is_list sort.now }
{
    match sort {
        Sort::Listed(_) => true,
        Sort::Null | Sort::Cells(_) | Sort::X(_) | Sort::Y(_) | Sort::Field(_) => false,
    }
}

// The same where none may be given.
fn has_list(sort: &Option<Sort>) -> bool
    ensures { result ≡ has_list sort.now }
{
    match sort {
        Some(sort) => is_list(sort),
        None => false,
    }
}

// What the type of a scale says of the cells.
fn type_by_kind(kind: Option<u16>) -> FieldType
    ensures { result ≡ type_by_kind kind }
{
    match kind {
        None => FieldType::Nominal,
        Some(kind) => {
            if kind == LINEAR {
                FieldType::Quantitative
            } else if kind == TIME {
                FieldType::Temporal
            } else {
                FieldType::Nominal
            }
        }
    }
}

// The type of a field that says none.
fn type_missing(of: &FieldDefinition) -> FieldType
    ensures { result ≡ type_missing of.now }
{
    if has_bins(&of.bin) || of.aggregate.is_some() {
        FieldType::Quantitative
    } else if of.time_unit.is_some() {
        FieldType::Temporal
    } else if has_list(&of.sort) {
        FieldType::Ordinal
    } else {
        type_by_kind(kind_said(&of.scale))
    }
}

/// What kind of cells a definition shows: its type, or what stands for a missing one.
pub fn type_of(definition: &Definition) -> FieldType
    ensures { result ≡ type_of definition.now }
{
    match definition {
        Definition::Value(_) => FieldType::Nominal,
        Definition::Datum(of) => match of.type_ {
            Some(type_) => type_,
            None => type_by_kind(kind_said(&of.scale)),
        },
        Definition::Field(of) => match of.type_ {
            Some(type_) => type_,
            None => type_missing(of),
        },
    }
}

/// Whether a definition shows an aggregate.
pub fn is_aggregated(definition: &Definition) -> bool
    ensures { result ≡ is_aggregated definition.now }
{
    match definition {
        Definition::Field(of) => of.aggregate.is_some(),
        Definition::Value(_) | Definition::Datum(_) => false,
    }
}

/// Whether it shows bins.
pub fn is_binned(definition: &Definition) -> bool
    ensures { result ≡ is_binned definition.now }
{
    match definition {
        Definition::Field(of) => has_bins(&of.bin) && !of.aggregate.is_some(),
        Definition::Value(_) | Definition::Datum(_) => false,
    }
}

/// Whether such cells lie on a line: numbers and instants do.
pub fn is_continuous(type_: FieldType) -> bool
    ensures { result ≡ is_continuous type_ }
{
    match type_ {
        FieldType::Quantitative | FieldType::Temporal => true,
        FieldType::Ordinal | FieldType::Nominal => false,
    }
}

/// Whether they are numbers.
pub(crate) fn is_quantitative(type_: FieldType) -> bool
    ensures { result ≡ is_quantitative type_ }
{
    match type_ {
        FieldType::Quantitative => true,
        FieldType::Temporal | FieldType::Ordinal | FieldType::Nominal => false,
    }
}

/// Whether they are instants.
pub fn is_temporal(type_: FieldType) -> bool
    ensures { result ≡ is_temporal type_ }
{
    match type_ {
        FieldType::Temporal => true,
        FieldType::Quantitative | FieldType::Ordinal | FieldType::Nominal => false,
    }
}
