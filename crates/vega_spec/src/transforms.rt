// Transforms of rows.
use crate::{Aggregate, Lookup, Sort, Window};
use expr_syntax::Expr;
use fixed_num::Num;
use std::alloc::Global;
use text_kit::{Copies, OutOfMemory, Seq, Text, copied_four, copied_three, copied_two};

/// A transform, by its `type`.
#[derive(Debug, Drop)]
pub enum Transform {
    /// `filter`
    Filter(Filter),
    /// `formula`
    Formula(Formula),
    /// `extent`
    Extent(Extent),
    /// `bin`
    Bin(Bin),
    /// `timeunit`
    TimeUnit(TimeUnit),
    /// `aggregate`
    Aggregate(Aggregate),
    /// `joinaggregate`
    JoinAggregate(Aggregate),
    /// `stack`
    Stack(Stack),
    /// `window`
    Window(Window),
    /// `lookup`
    Lookup(Lookup),
    /// `fold`
    Fold(Fold),
}

/// Which rows are kept.
#[derive(Debug)]
pub struct Filter {
    /// The test that they pass.
    pub expr: Expr,
}

impl Drop for Filter {
    fn drop(self) {
        let Filter { expr } = self;
        drop(expr);
    }
}

/// A cell computed of each row.
#[derive(Debug)]
pub struct Formula {
    /// What is computed.
    pub expr: Expr,
    /// The name of the cell.
    pub as_: Text,
}

impl Drop for Formula {
    fn drop(self) {
        let Formula { expr, as_ } = self;
        drop(expr);
        drop(as_);
    }
}

/// The least and the greatest number of a field, as a signal.
#[derive(Debug)]
pub struct Extent {
    /// The field.
    pub field: Text,
    /// The name of the signal.
    pub signal: Text,
}

impl Drop for Extent {
    fn drop(self) {
        let Extent {
            field: _,
            signal: _,
        } = self;
    }
}

/// How the numbers of a field are put into bins.
#[derive(Debug)]
pub struct Bin {
    /// The field.
    pub field: Text,
    /// What the bins take in.
    pub extent: BinExtent,
    /// How many bins there are at most.
    pub maxbins: Option<Num>,
    /// How wide a bin is.
    pub step: Option<Num>,
    /// The names of the bin's start and end.
    pub as_: Option<(Text, Text)>,
}

impl Drop for Bin {
    fn drop(self) {
        let Bin {
            field: _,
            extent: _,
            maxbins: _,
            step: _,
            as_: _,
        } = self;
    }
}

/// What bins take in.
#[derive(Debug, Drop)]
pub enum BinExtent {
    /// From the first number to the second.
    Pair(Num, Num),
    /// The value of the signal of this name.
    Signal(Text),
}

/// How the instants of a field are put into units of time.
#[derive(Debug)]
pub struct TimeUnit {
    /// The field.
    pub field: Text,
    /// The code of the unit among `case_table::TIME_UNITS`.
    pub units: u16,
    /// The names of the unit's start and end.
    pub as_: Option<(Text, Text)>,
}

impl Drop for TimeUnit {
    fn drop(self) {
        let TimeUnit {
            field: _,
            units: _,
            as_: _,
        } = self;
    }
}

/// How the numbers of a field are stacked.
#[derive(Debug)]
pub struct Stack {
    /// The fields whose equal cells make a stack.
    pub groupby: Option<Seq<Text>>,
    /// The field.
    pub field: Text,
    /// The order within a stack.
    pub sort: Option<Sort>,
    /// Where a stack begins.
    pub offset: Option<Offset>,
    /// The names of where a number begins and ends.
    pub as_: Option<(Text, Text)>,
}

impl Drop for Stack {
    fn drop(self) {
        let Stack {
            groupby: _,
            field: _,
            sort: _,
            offset: _,
            as_: _,
        } = self;
    }
}

/// Where a stack begins.
#[derive(Clone, Copy, Debug, PartialEq, Eq)]
pub enum Offset {
    /// `zero`
    Zero,
    /// `normalize`
    Normalize,
    /// `center`
    Center,
}

/// How one row is made for each of several fields.
#[derive(Debug)]
pub struct Fold {
    /// The fields.
    pub fields: Seq<Text>,
    /// The names of the field's name and of its cell.
    pub as_: Option<(Text, Text)>,
}

impl Drop for Fold {
    fn drop(self) {
        let Fold { fields: _, as_: _ } = self;
    }
}

impl Copies for Transform {
    fn copied(&self, alloc: Global) -> Result<Transform, OutOfMemory> {
        match self {
            Transform::Filter(of) => Ok(Transform::Filter(of.copied(alloc)?)),
            Transform::Formula(of) => Ok(Transform::Formula(of.copied(alloc)?)),
            Transform::Extent(of) => Ok(Transform::Extent(of.copied(alloc)?)),
            Transform::Bin(of) => Ok(Transform::Bin(of.copied(alloc)?)),
            Transform::TimeUnit(of) => Ok(Transform::TimeUnit(of.copied(alloc)?)),
            Transform::Aggregate(of) => Ok(Transform::Aggregate(of.copied(alloc)?)),
            Transform::JoinAggregate(of) => Ok(Transform::JoinAggregate(of.copied(alloc)?)),
            Transform::Stack(of) => Ok(Transform::Stack(of.copied(alloc)?)),
            Transform::Window(of) => Ok(Transform::Window(of.copied(alloc)?)),
            Transform::Lookup(of) => Ok(Transform::Lookup(of.copied(alloc)?)),
            Transform::Fold(of) => Ok(Transform::Fold(of.copied(alloc)?)),
        }
    }
}

impl Copies for Filter {
    fn copied(&self, alloc: Global) -> Result<Filter, OutOfMemory> {
        Ok(Filter {
            expr: self.expr.copy(alloc)?,
        })
    }
}

impl Copies for Formula {
    fn copied(&self, alloc: Global) -> Result<Formula, OutOfMemory> {
        Ok(Formula {
            expr: self.expr.copy(alloc)?,
            as_: self.as_.copy()?,
        })
    }
}

impl Copies for Extent {
    fn copied(&self, alloc: Global) -> Result<Extent, OutOfMemory> {
        let (field, signal) = copied_two(alloc, &self.field, &self.signal)?;
        Ok(Extent { field, signal })
    }
}

impl Copies for Bin {
    fn copied(&self, alloc: Global) -> Result<Bin, OutOfMemory> {
        let (field, extent, as_) = copied_three(alloc, &self.field, &self.extent, &self.as_)?;
        Ok(Bin {
            field,
            extent,
            maxbins: self.maxbins,
            step: self.step,
            as_,
        })
    }
}

impl Copies for BinExtent {
    fn copied(&self, _: Global) -> Result<BinExtent, OutOfMemory> {
        match self {
            BinExtent::Pair(a, b) => Ok(BinExtent::Pair(*a, *b)),
            BinExtent::Signal(name) => Ok(BinExtent::Signal(name.copy()?)),
        }
    }
}

impl Copies for TimeUnit {
    fn copied(&self, alloc: Global) -> Result<TimeUnit, OutOfMemory> {
        let (field, as_) = copied_two(alloc, &self.field, &self.as_)?;
        Ok(TimeUnit {
            field,
            units: self.units,
            as_,
        })
    }
}

impl Copies for Stack {
    fn copied(&self, alloc: Global) -> Result<Stack, OutOfMemory> {
        let (groupby, field, sort, as_) = copied_four(
            alloc,
            &self.groupby,
            &self.field,
            &self.sort,
            &self.as_,
        )?;
        Ok(Stack {
            groupby,
            field,
            sort,
            offset: self.offset,
            as_,
        })
    }
}

impl Copies for Fold {
    fn copied(&self, alloc: Global) -> Result<Fold, OutOfMemory> {
        let (fields, as_) = copied_two(alloc, &self.fields, &self.as_)?;
        Ok(Fold { fields, as_ })
    }
}
