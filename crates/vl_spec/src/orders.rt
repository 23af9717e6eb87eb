// Orders, and what may be one text or a list.
use cell_value::Cell;
use std::alloc::Global;
use text_kit::{Copies, OutOfMemory, Seq, Text};

/// One text, or a list of them.
pub enum Texts {
    /// A text that stands alone.
    One(Text),
    /// A list.
    Several(Seq<Text>),
}

/// The direction of an order.
#[derive(Clone, Copy)]
pub enum Order {
    /// `ascending`
    Ascending,
    /// `descending`
    Descending,
}

/// A field of an order.
pub struct SortField {
    /// The field.
    pub field: Text,
    /// Its direction.
    pub order: Option<Order>,
}

/// Where a stack begins.
#[derive(Clone, Copy)]
pub enum Offset {
    /// `zero`
    Zero,
    /// `normalize`
    Normalize,
    /// `center`
    Center,
}

/// How the cells of a channel stand.
pub enum Sort {
    /// Null: as they first appear.
    Null,
    /// By themselves, in this direction.
    Cells(Order),
    /// `x` or `-x`: by the cells of x, in this direction.
    X(Order),
    /// `y` or `-y`: by the cells of y, in this direction.
    Y(Order),
    /// As they are listed.
    Listed(Seq<Cell>),
    /// By an aggregate of a field.
    Field(FieldSort),
}

/// An order by an aggregate of a field.
pub struct FieldSort {
    /// The field; a count needs none.
    pub field: Option<Text>,
    /// The code of the operation among `case_table::OPERATIONS`.
    pub op: Option<u16>,
    /// The direction.
    pub order: Option<Order>,
}

impl Drop for Texts {
    fn drop(self) {
        match self {
            Texts::One(_) => {}
            Texts::Several(_) => {}
        }
    }
}

impl Drop for SortField {
    fn drop(self) {
        let SortField { field: _, order: _ } = self;
    }
}

impl Drop for Sort {
    fn drop(self) {
        match self {
            Sort::Null => {}
            Sort::Cells(_) => {}
            Sort::X(_) => {}
            Sort::Y(_) => {}
            Sort::Listed(_) => {}
            Sort::Field(_) => {}
        }
    }
}

impl Drop for FieldSort {
    fn drop(self) {
        let FieldSort {
            field: _,
            op: _,
            order: _,
        } = self;
    }
}

impl Copies for Texts {
    fn copied(&self, alloc: Global) -> Result<Texts, OutOfMemory> {
        match self {
            Texts::One(text) => Ok(Texts::One(text.copy()?)),
            Texts::Several(texts) => Ok(Texts::Several(texts.copied(alloc)?)),
        }
    }
}

impl Copies for SortField {
    fn copied(&self, _: Global) -> Result<SortField, OutOfMemory> {
        Ok(SortField {
            field: self.field.copy()?,
            order: self.order,
        })
    }
}

impl Copies for Sort {
    fn copied(&self, alloc: Global) -> Result<Sort, OutOfMemory> {
        match self {
            Sort::Null => Ok(Sort::Null),
            Sort::Cells(order) => Ok(Sort::Cells(*order)),
            Sort::X(order) => Ok(Sort::X(*order)),
            Sort::Y(order) => Ok(Sort::Y(*order)),
            Sort::Listed(cells) => Ok(Sort::Listed(cells.copied(alloc)?)),
            Sort::Field(of) => Ok(Sort::Field(FieldSort {
                field: Copies::copied(&of.field, alloc)?,
                op: of.op,
                order: of.order,
            })),
        }
    }
}
