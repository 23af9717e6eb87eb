// Parameters and selections.
ghost use Rattle.std.specs.Prelude.{◌≡◌, IfOk};
ghost use Rattle.vl_spec.specs.declared.params.ParamKind.TheVariants as variant;
ghost use Rattle.vl_spec.specs.declared.params.Select.TheVariants as select;

use crate::copying::copied_values;
use cell_value::Cell;
use expr_syntax::Expr;
use std::alloc::Global;
use text_kit::{Copies, OutOfMemory, Seq, Text, copied_two};

/// A parameter.
pub struct ParamOf {
    /// The name.
    pub name: Text,
    /// What it is.
    pub kind: ParamKind,
}

/// What a parameter is.
pub enum ParamKind {
    /// A value that can be set, at first this one.
    Value(Cell),
    /// The value of an expression.
    Expr(Expr),
    /// A selection.
    Select(Selection),
}

/// A selection.
pub struct Selection {
    /// The names of the views with the units that it concerns; without it all units below the view that has it.
    pub views: Option<Seq<Text>>,
    /// What it keeps, and when it changes.
    pub select: Select,
}

/// What a selection keeps, and when it changes.
pub enum Select {
    /// Its type alone.
    Type(SelectType),
    /// Its type and more.
    Definition(SelectDefinition),
}

/// The type of a selection.
#[derive(Clone, Copy)]
pub enum SelectType {
    /// `point`
    Point,
    /// `interval`
    Interval,
}

/// The type of a selection, what it keeps and when it changes.
pub struct SelectDefinition {
    /// The type.
    pub type_: SelectType,
    /// The fields that it keeps.
    pub fields: Option<Seq<Text>>,
    /// The codes of the channels whose fields it keeps, among `case_table::CHANNELS`.
    pub encodings: Option<Seq<u16>>,
    /// The event that sets it.
    pub on: Option<SelectEvent>,
    /// The event that clears it.
    pub clear: Option<Clear>,
    /// The event that toggles it.
    pub toggle: Option<Toggle>,
}

/// An event that sets a selection.
#[derive(Clone, Copy)]
pub enum SelectEvent {
    /// `click`
    Click,
    /// `[mousedown, mouseup] > mousemove`: a drag.
    Drag,
}

/// The event that clears a selection.
#[derive(Clone, Copy)]
pub enum Clear {
    /// True.
    True,
    /// `dblclick`
    DoubleClick,
}

/// The event that toggles a selection.
#[derive(Clone, Copy)]
pub enum Toggle {
    /// True.
    True,
    /// `event.shiftKey`
    ShiftKey,
}

impl Drop for ParamOf {
    fn drop(self) {
        let ParamOf { name: _, kind: _ } = self;
    }
}

impl Drop for ParamKind {
    fn drop(self) {
        match self {
            ParamKind::Value(_) => {}
            ParamKind::Expr(e) => drop(e),
            ParamKind::Select(_) => {}
        }
    }
}

impl Drop for Selection {
    fn drop(self) {
        let Selection {
            views: _,
            select: _,
        } = self;
    }
}

impl Drop for Select {
    fn drop(self) {
        match self {
            Select::Type(_) => {}
            Select::Definition(_) => {}
        }
    }
}

impl Drop for SelectDefinition {
    fn drop(self) {
        let SelectDefinition {
            type_: _,
            fields: _,
            encodings: _,
            on: _,
            clear: _,
            toggle: _,
        } = self;
    }
}

impl Copies for ParamOf {
    fn copied(&self, alloc: Global) -> Result<ParamOf, OutOfMemory> {
        let (name, kind) = copied_two(alloc, &self.name, &self.kind)?;
        Ok(ParamOf { name, kind })
    }
}

impl Copies for ParamKind {
    fn copied(&self, alloc: Global) -> Result<ParamKind, OutOfMemory> {
        match self {
            ParamKind::Value(cell) => Ok(ParamKind::Value(cell.copied(alloc)?)),
            ParamKind::Expr(e) => Ok(ParamKind::Expr(e.copy(alloc)?)),
            ParamKind::Select(of) => copied_selection(alloc, of),
        }
    }
}

// A copy of a selection.
fn copied_selection(alloc: Global, of: &Selection) -> Result<ParamKind, OutOfMemory>
    ensures { IfOk result (λ copy. copy ≡ variant.Select of.now) }
{
    let (views, select) = copied_two(alloc, &of.views, &of.select)?;
    Ok(ParamKind::Select(Selection { views, select }))
}

impl Copies for Select {
    fn copied(&self, alloc: Global) -> Result<Select, OutOfMemory> {
        match self {
            Select::Type(type_) => Ok(Select::Type(*type_)),
            Select::Definition(of) => copied_definition(alloc, of),
        }
    }
}

// A copy of what a selection keeps and when it changes.
fn copied_definition(alloc: Global, of: &SelectDefinition) -> Result<Select, OutOfMemory>
    ensures { IfOk result (λ copy. copy ≡ select.Definition of.now) }
{
    let encodings = copied_values(alloc, &of.encodings)?;
    let fields = Copies::copied(&of.fields, alloc)?;
    Ok(Select::Definition(SelectDefinition {
        type_: of.type_,
        fields,
        encodings,
        on: of.on,
        clear: of.clear,
        toggle: of.toggle,
    }))
}
