// Definitions of channels, apart from their conditions.
ghost use Rattle.std.specs.Prelude.{◌≡◌, IfOk};
ghost use Rattle.vl_spec.specs.declared.definitions.Definition.TheVariants as variant;

use crate::{Axis, Header, Legend, Offset, Scale, Sort};
use cell_value::Cell;
use fixed_num::Num;
use std::alloc::Global;
use text_kit::{Copies, OutOfMemory, Text, copied_five, copied_seven};

/// What a channel shows.
pub enum Definition {
    /// `value`: this, without a scale.
    Value(Cell),
    /// `datum`: a cell that is written, on a scale.
    Datum(DatumDefinition),
    /// The cells of a field, or what is made of it.
    Field(FieldDefinition),
}

/// A cell that is written, on a scale.
pub struct DatumDefinition {
    /// The cell.
    pub datum: Cell,
    /// What kind of cell it is.
    pub type_: Option<FieldType>,
    /// The scale.
    pub scale: Option<Scale>,
    /// The axis; null for none.
    pub axis: Option<Option<Axis>>,
    /// The legend; null for none.
    pub legend: Option<Option<Legend>>,
    /// The title; null for none.
    pub title: Option<Option<Text>>,
}

/// The cells of a field, or what is made of it.
pub struct FieldDefinition {
    /// The field.
    pub field: Option<Text>,
    /// What kind of cells it has.
    pub type_: Option<FieldType>,
    /// The code of the operation over it, among `case_table::OPERATIONS`.
    pub aggregate: Option<u16>,
    /// How it is put into bins.
    pub bin: Option<Bin>,
    /// The code of the unit of time among `case_table::TIME_UNITS`.
    pub time_unit: Option<u16>,
    /// The title; null for none.
    pub title: Option<Option<Text>>,
    /// How its cells stand.
    pub sort: Option<Sort>,
    /// The scale.
    pub scale: Option<Scale>,
    /// How it is stacked.
    pub stack: Option<Stacking>,
    /// The axis; null for none.
    pub axis: Option<Option<Axis>>,
    /// The legend; null for none.
    pub legend: Option<Option<Legend>>,
    /// The headers of its panels.
    pub header: Option<Header>,
    /// How it is written.
    pub format: Option<Text>,
    /// How many of its panels stand side by side.
    pub columns: Option<Num>,
    /// The space between its panels, in pixels.
    pub spacing: Option<Num>,
}

/// What kind of cells a field has.
#[derive(Clone, Copy)]
pub enum FieldType {
    /// `quantitative`
    Quantitative,
    /// `temporal`
    Temporal,
    /// `ordinal`
    Ordinal,
    /// `nominal`
    Nominal,
}

/// How a field is put into bins.
#[derive(Clone, Copy)]
pub enum Bin {
    /// Whether it is.
    Flag(bool),
    /// In this way.
    Settings(BinSettings),
}

/// In which way a field is put into bins.
#[derive(Clone, Copy)]
pub struct BinSettings {
    /// How many bins there are at most.
    pub maxbins: Option<Num>,
    /// How wide a bin is.
    pub step: Option<Num>,
}

/// How a channel is stacked.
#[derive(Clone, Copy)]
pub enum Stacking {
    /// Null: not at all.
    Null,
    /// True: from 0; false: not at all.
    Flag(bool),
    /// From here.
    Offset(Offset),
}

impl Drop for Definition {
    fn drop(self) {
        match self {
            Definition::Value(_) => {}
            Definition::Datum(_) => {}
            Definition::Field(_) => {}
        }
    }
}

impl Drop for DatumDefinition {
    fn drop(self) {
        let DatumDefinition {
            datum: _,
            type_: _,
            scale: _,
            axis: _,
            legend: _,
            title: _,
        } = self;
    }
}

impl Drop for FieldDefinition {
    fn drop(self) {
        let FieldDefinition {
            field: _,
            type_: _,
            aggregate: _,
            bin: _,
            time_unit: _,
            title: _,
            sort: _,
            scale: _,
            stack: _,
            axis: _,
            legend: _,
            header: _,
            format: _,
            columns: _,
            spacing: _,
        } = self;
    }
}

impl Copies for Definition {
    fn copied(&self, alloc: Global) -> Result<Definition, OutOfMemory> {
        match self {
            Definition::Value(cell) => Ok(Definition::Value(cell.copied(alloc)?)),
            Definition::Datum(of) => copied_datum(alloc, of),
            Definition::Field(of) => copied_field(alloc, of),
        }
    }
}

// A copy of a cell that is written.
fn copied_datum(alloc: Global, of: &DatumDefinition) -> Result<Definition, OutOfMemory>
    ensures { IfOk result (λ copy. copy ≡ variant.Datum of.now) }
{
    let (datum, title, legend, axis, scale) = copied_five(
        alloc, &of.datum, &of.title, &of.legend, &of.axis, &of.scale,
    )?;
    Ok(Definition::Datum(DatumDefinition {
        datum,
        type_: of.type_,
        scale,
        axis,
        legend,
        title,
    }))
}

// A copy of the cells of a field.
fn copied_field(alloc: Global, of: &FieldDefinition) -> Result<Definition, OutOfMemory>
    ensures { IfOk result (λ copy. copy ≡ variant.Field of.now) }
{
    let (field, title, format, legend, axis, sort, scale) = copied_seven(
        alloc, &of.field, &of.title, &of.format, &of.legend, &of.axis, &of.sort, &of.scale,
    )?;
    Ok(Definition::Field(FieldDefinition {
        field,
        type_: of.type_,
        aggregate: of.aggregate,
        bin: of.bin,
        time_unit: of.time_unit,
        title,
        sort,
        scale,
        stack: of.stack,
        axis,
        legend,
        header: of.header,
        format,
        columns: of.columns,
        spacing: of.spacing,
    }))
}
