// Commands.

use crate::Event;
use cell_value::Cell;
use expr_syntax::Expr;
use json_exact::Json;
use text_kit::{Seq, Text};

/// An entry of a change: what it sets in the rows for which its test holds.
#[derive(Debug, Drop)]
pub struct Modify {
    /// Of which rows the field is set: those for which this is truthy.
    pub test: Expr,
    /// The name of the field.
    pub field: Text,
    /// Its new value.
    pub value: Expr,
}

/// What a change does to a source. Its expressions read the rows and the parameters as they were before it.
#[derive(Debug, Drop)]
pub struct ChangeOf {
    /// Which rows are removed: those for which this is truthy.
    pub remove: Option<Expr>,
    /// What is set in the rows that aren't removed. Where two entries set one field of a row, the later one holds.
    pub modify: Seq<Modify>,
    /// The rows that are added at the end, in order, as they were written.
    pub insert: Seq<Json>,
}

/// What a user can do to a chart.
#[derive(Debug, Drop)]
pub enum Command {
    /// Changes the rows of a source.
    Change {
        /// The name of the source.
        source: Text,
        /// What is done to it.
        change: ChangeOf,
    },
    /// Gives a value to a parameter.
    Set {
        /// The name of the parameter.
        name: Text,
        /// Its new value.
        value: Cell,
    },
    /// Does something with the mouse.
    Event(Event),
    /// Prints the picture.
    Print,
}
