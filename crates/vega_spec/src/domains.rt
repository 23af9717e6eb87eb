// Domains of scales.
use crate::Order;
use cell_value::Cell;
use expr_syntax::Expr;
use std::alloc::Global;
use text_kit::{Copies, OutOfMemory, Seq, Text, copied_three, copied_two};

/// The domain of a scale.
#[derive(Debug, Drop)]
pub enum Domain {
    /// A list of cells.
    Cells(Seq<Cell>),
    /// The value of an expression.
    Signal(Expr),
    /// The cells of a field.
    Field(FieldDomain),
    /// The cells of several fields.
    Fields(FieldsDomain),
}

/// The cells of a field of a data set.
#[derive(Debug)]
pub struct FieldDomain {
    /// The data set.
    pub data_: Text,
    /// The field.
    pub field: Text,
    /// How the cells stand.
    pub sort: Option<DomainOrder>,
}

impl Drop for FieldDomain {
    fn drop(self) {
        let FieldDomain {
            data_: _,
            field: _,
            sort: _,
        } = self;
    }
}

/// The cells of several fields.
#[derive(Debug)]
pub struct FieldsDomain {
    /// The fields.
    pub fields: Seq<Reference>,
    /// How the cells stand.
    pub sort: Option<DomainOrder>,
}

impl Drop for FieldsDomain {
    fn drop(self) {
        let FieldsDomain { fields: _, sort: _ } = self;
    }
}

/// A field of a data set.
#[derive(Debug)]
pub struct Reference {
    /// The data set.
    pub data_: Text,
    /// The field.
    pub field: Text,
}

impl Drop for Reference {
    fn drop(self) {
        let Reference { data_: _, field: _ } = self;
    }
}

/// How the cells of a domain stand.
#[derive(Debug, Drop)]
pub enum DomainOrder {
    /// `true`: ascending.
    True,
    /// By themselves, in this direction.
    Cells(Option<Order>),
    /// In this direction by the operation of this code among `case_table::OPERATIONS` over this field.
    Operation(Option<Order>, u16, Text),
}

impl Copies for Domain {
    fn copied(&self, alloc: Global) -> Result<Domain, OutOfMemory> {
        match self {
            Domain::Cells(cells) => Ok(Domain::Cells(cells.copied(alloc)?)),
            Domain::Signal(e) => Ok(Domain::Signal(e.copy(alloc)?)),
            Domain::Field(of) => Ok(Domain::Field(of.copied(alloc)?)),
            Domain::Fields(of) => Ok(Domain::Fields(of.copied(alloc)?)),
        }
    }
}

impl Copies for FieldDomain {
    fn copied(&self, alloc: Global) -> Result<FieldDomain, OutOfMemory> {
        let (data_, field, sort) = copied_three(alloc, &self.data_, &self.field, &self.sort)?;
        Ok(FieldDomain { data_, field, sort })
    }
}

impl Copies for FieldsDomain {
    fn copied(&self, alloc: Global) -> Result<FieldsDomain, OutOfMemory> {
        let (fields, sort) = copied_two(alloc, &self.fields, &self.sort)?;
        Ok(FieldsDomain { fields, sort })
    }
}

impl Copies for Reference {
    fn copied(&self, alloc: Global) -> Result<Reference, OutOfMemory> {
        let (data_, field) = copied_two(alloc, &self.data_, &self.field)?;
        Ok(Reference { data_, field })
    }
}

impl Copies for DomainOrder {
    fn copied(&self, _: Global) -> Result<DomainOrder, OutOfMemory> {
        match self {
            DomainOrder::True => Ok(DomainOrder::True),
            DomainOrder::Cells(order) => Ok(DomainOrder::Cells(*order)),
            DomainOrder::Operation(order, op, field) => Ok(DomainOrder::Operation(
                *order,
                *op,
                field.copy()?,
            )),
        }
    }
}
