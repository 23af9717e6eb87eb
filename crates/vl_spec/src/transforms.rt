// Transforms of rows.
ghost use Rattle.std.specs.Prelude.{◌≡◌, IfOk};
ghost use Rattle.vl_spec.specs.declared.transforms.Transform.TheVariants as variant;

use crate::copying::with_one;
use crate::groupings::{copied_lookup, copied_window};
use crate::{AggregateTransform, Bin, Filter, LookupTransform, Offset, SortField, WindowTransform};
use expr_syntax::Expr;
use std::alloc::Global;
use text_kit::{Copies, OutOfMemory, Seq, Text, copied_four, copied_two};

/// A transform, by the member that decides.
pub enum Transform {
    /// `filter`
    Filter(Filter),
    /// `calculate`
    Calculate(CalculateTransform),
    /// `bin`
    Bin(BinTransform),
    /// `timeUnit`
    TimeUnit(TimeUnitTransform),
    /// `aggregate`
    Aggregate(AggregateTransform),
    /// `joinaggregate`
    JoinAggregate(AggregateTransform),
    /// `stack`
    Stack(StackTransform),
    /// `window`
    Window(WindowTransform),
    /// `lookup`
    Lookup(LookupTransform),
    /// `fold`
    Fold(FoldTransform),
}

/// The name of a start, with or without that of its end.
pub enum Names {
    /// A name to which `_end` is added for the end.
    One(Text),
    /// Both names.
    Two(Text, Text),
}

/// A cell computed of each row.
pub struct CalculateTransform {
    /// The name of the cell.
    pub as_: Text,
    /// What is computed.
    pub calculate: Expr,
}

/// How the numbers of a field are put into bins.
pub struct BinTransform {
    /// In which way.
    pub bin: Bin,
    /// The field.
    pub field: Text,
    /// The names of the bin's start and end.
    pub as_: Names,
}

/// How the instants of a field are put into units of time.
pub struct TimeUnitTransform {
    /// The code of the unit among `case_table::TIME_UNITS`.
    pub time_unit: u16,
    /// The field.
    pub field: Text,
    /// The name of the unit's start, to which `_end` is added for its end.
    pub as_: Text,
}

/// How the numbers of a field are stacked.
pub struct StackTransform {
    /// The field.
    pub stack: Text,
    /// The fields whose equal cells make a stack.
    pub groupby: Option<Seq<Text>>,
    /// The order within a stack.
    pub sort: Option<Seq<SortField>>,
    /// Where a stack begins.
    pub offset: Option<Offset>,
    /// The names of where a number begins and ends.
    pub as_: Names,
}

/// How one row is made for each of several fields.
pub struct FoldTransform {
    /// The fields.
    pub fold: Seq<Text>,
    /// The names of the field's name and of its cell.
    pub as_: Option<(Text, Text)>,
}

impl Drop for Transform {
    fn drop(self) {
        match self {
            Transform::Filter(filter) => drop(filter),
            Transform::Calculate(_) => {}
            Transform::Bin(_) => {}
            Transform::TimeUnit(_) => {}
            Transform::Aggregate(_) => {}
            Transform::JoinAggregate(_) => {}
            Transform::Stack(_) => {}
            Transform::Window(_) => {}
            Transform::Lookup(_) => {}
            Transform::Fold(_) => {}
        }
    }
}

impl Drop for Names {
    fn drop(self) {
        match self {
            Names::One(_) => {}
            Names::Two(_, _) => {}
        }
    }
}

impl Drop for CalculateTransform {
    fn drop(self) {
        let CalculateTransform { as_: _, calculate } = self;
        drop(calculate);
    }
}

impl Drop for BinTransform {
    fn drop(self) {
        let BinTransform {
            bin: _,
            field: _,
            as_: _,
        } = self;
    }
}

impl Drop for TimeUnitTransform {
    fn drop(self) {
        let TimeUnitTransform {
            time_unit: _,
            field: _,
            as_: _,
        } = self;
    }
}

impl Drop for StackTransform {
    fn drop(self) {
        let StackTransform {
            stack: _,
            groupby: _,
            sort: _,
            offset: _,
            as_: _,
        } = self;
    }
}

impl Drop for FoldTransform {
    fn drop(self) {
        let FoldTransform { fold: _, as_: _ } = self;
    }
}

impl Copies for Transform {
    fn copied(&self, alloc: Global) -> Result<Transform, OutOfMemory> {
        match self {
            Transform::Filter(of) => Ok(Transform::Filter(of.copy(alloc)?)),
            Transform::Calculate(of) => copied_calculate(alloc, of),
            Transform::Bin(of) => copied_bin(alloc, of),
            Transform::TimeUnit(of) => copied_time_unit(alloc, of),
            Transform::Aggregate(of) => Ok(Transform::Aggregate(of.copied(alloc)?)),
            Transform::JoinAggregate(of) => Ok(Transform::JoinAggregate(of.copied(alloc)?)),
            Transform::Stack(of) => copied_stack(alloc, of),
            Transform::Window(of) => copied_window(alloc, of),
            Transform::Lookup(of) => copied_lookup(alloc, of),
            Transform::Fold(of) => copied_fold(alloc, of),
        }
    }
}

impl Copies for Names {
    fn copied(&self, alloc: Global) -> Result<Names, OutOfMemory> {
        match self {
            Names::One(name) => Ok(Names::One(name.copy()?)),
            Names::Two(start, end) => {
                let (start, end) = copied_two(alloc, start, end)?;
                Ok(Names::Two(start, end))
            }
        }
    }
}

// A copy of a cell computed of each row.
fn copied_calculate(alloc: Global, of: &CalculateTransform) -> Result<Transform, OutOfMemory>
    ensures { IfOk result (λ copy. copy ≡ variant.Calculate of.now) }
{
    let calculate = of.calculate.copy(alloc);
    let (calculate, as_) = with_one(alloc, &of.calculate, calculate, &of.as_)?;
    Ok(Transform::Calculate(CalculateTransform { as_, calculate }))
}

// A copy of how numbers are put into bins.
fn copied_bin(alloc: Global, of: &BinTransform) -> Result<Transform, OutOfMemory>
    ensures { IfOk result (λ copy. copy ≡ variant.Bin of.now) }
{
    let (field, as_) = copied_two(alloc, &of.field, &of.as_)?;
    Ok(Transform::Bin(BinTransform {
        bin: of.bin,
        field,
        as_,
    }))
}

// A copy of how instants are put into units of time.
fn copied_time_unit(alloc: Global, of: &TimeUnitTransform) -> Result<Transform, OutOfMemory>
    ensures { IfOk result (λ copy. copy ≡ variant.TimeUnit of.now) }
{
    let (field, as_) = copied_two(alloc, &of.field, &of.as_)?;
    Ok(Transform::TimeUnit(TimeUnitTransform {
        time_unit: of.time_unit,
        field,
        as_,
    }))
}

// A copy of how numbers are stacked.
fn copied_stack(alloc: Global, of: &StackTransform) -> Result<Transform, OutOfMemory>
    ensures { IfOk result (λ copy. copy ≡ variant.Stack of.now) }
{
    let (stack, groupby, sort, as_) = copied_four(
        alloc,
        &of.stack,
        &of.groupby,
        &of.sort,
        &of.as_,
    )?;
    Ok(Transform::Stack(StackTransform {
        stack,
        groupby,
        sort,
        offset: of.offset,
        as_,
    }))
}

// A copy of how rows are made of fields.
fn copied_fold(alloc: Global, of: &FoldTransform) -> Result<Transform, OutOfMemory>
    ensures { IfOk result (λ copy. copy ≡ variant.Fold of.now) }
{
    let (fold, as_) = copied_two(alloc, &of.fold, &of.as_)?;
    Ok(Transform::Fold(FoldTransform { fold, as_ }))
}
