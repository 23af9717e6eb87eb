// Orders, and what may be one text or a list.
use std::alloc::Global;
use text_kit::{Copies, OutOfMemory, Seq, Text, copied_two};

/// One text, or a list of them.
#[derive(Debug, Drop)]
pub enum Texts {
    /// A text that stands alone.
    One(Text),
    /// A list.
    Several(Seq<Text>),
}

/// The direction of an order.
#[derive(Clone, Copy, Debug, PartialEq, Eq)]
pub enum Order {
    /// `ascending`
    Ascending,
    /// `descending`
    Descending,
}

/// One direction, or one for each field.
#[derive(Debug, Drop)]
pub enum Orders {
    /// A direction that stands alone.
    One(Order),
    /// A list.
    Several(Seq<Order>),
}

/// An order by fields.
#[derive(Debug)]
pub struct Sort {
    /// The fields, the first of which counts most.
    pub field: Texts,
    /// The direction of each.
    pub order: Option<Orders>,
}

impl Drop for Sort {
    fn drop(self) {
        let Sort { field: _, order: _ } = self;
    }
}

impl Copies for Texts {
    fn copied(&self, alloc: Global) -> Result<Texts, OutOfMemory> {
        match self {
            Texts::One(text) => Ok(Texts::One(text.copy()?)),
            Texts::Several(texts) => Ok(Texts::Several(texts.copied(alloc)?)),
        }
    }
}

impl Copies for Orders {
    fn copied(&self, alloc: Global) -> Result<Orders, OutOfMemory> {
        match self {
            Orders::One(order) => Ok(Orders::One(*order)),
            Orders::Several(orders) => Ok(Orders::Several(Seq::from_slice(
                alloc,
                orders.as_slice(),
            )?)),
        }
    }
}

impl Copies for Sort {
    fn copied(&self, alloc: Global) -> Result<Sort, OutOfMemory> {
        let (field, order) = copied_two(alloc, &self.field, &self.order)?;
        Ok(Sort { field, order })
    }
}
