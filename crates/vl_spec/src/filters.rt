// Filters, and tests of conditions.
ghost use Rattle.std.specs.Prelude.{◌≡◌, ◌++◌, IfOk, OnOk};
ghost use Rattle.vl_spec.specs.declared.filters.Filter.TheVariants as variant;

use crate::copying::{boxed, filled, push_copy};
use cell_value::Cell;
use expr_syntax::Expr;
use fixed_num::Num;
use std::alloc::Global;
use text_kit::{Boxed, Copies, OutOfMemory, Seq, Text, copied_two};

/// Which rows pass.
#[cycle(filters)]
#[derive(Drop)]
pub enum Filter {
    /// Those for which an expression holds.
    Expr(Expr),
    /// Those that a selection holds; all, where a parameter that is none is true.
    Param(ParamTest),
    /// Those of which a field passes.
    Field(FieldTest),
    /// Those that pass each of these.
    And(Seq<Filter>),
    /// Those that pass one of these.
    Or(Seq<Filter>),
    /// Those that don't pass this.
    Not(Boxed<Filter>),
}

/// A test by a parameter.
pub struct ParamTest {
    /// The parameter.
    pub param: Text,
    /// Whether an empty selection holds every row; without it, it does.
    pub empty: Option<bool>,
}

/// A test of a field.
pub struct FieldTest {
    /// The field.
    pub field: Text,
    /// The code of the unit of time of which its start is compared, among `case_table::TIME_UNITS`.
    pub time_unit: Option<u16>,
    /// The comparison.
    pub comparison: Comparison,
}

/// A comparison of a cell.
pub enum Comparison {
    /// `equal`
    Equal(Cell),
    /// `lt`
    Less(Cell),
    /// `lte`
    LessSame(Cell),
    /// `gt`
    More(Cell),
    /// `gte`
    MoreSame(Cell),
    /// `range`: from the first number to the second; null for no bound.
    Range(Option<Num>, Option<Num>),
    /// `oneOf`
    OneOf(Seq<Cell>),
    /// `valid`: whether it isn't null.
    Valid(bool),
}

impl Drop for ParamTest {
    fn drop(self) {
        let ParamTest { param: _, empty: _ } = self;
    }
}

impl Drop for FieldTest {
    fn drop(self) {
        let FieldTest {
            field: _,
            time_unit: _,
            comparison: _,
        } = self;
    }
}

impl Drop for Comparison {
    fn drop(self) {
        match self {
            Comparison::Equal(cell)
            | Comparison::Less(cell)
            | Comparison::LessSame(cell)
            | Comparison::More(cell)
            | Comparison::MoreSame(cell) => drop(cell),
            Comparison::Range(_, _) => {}
            Comparison::OneOf(_) => {}
            Comparison::Valid(_) => {}
        }
    }
}

impl Filter {
    /// A filter that equals this one.
    #[cycle(filters)]
    pub fn copy(&self, alloc: Global) -> Result<Filter, OutOfMemory>
        ensures { IfOk result (λ copy. copy ≡ self.now) }
    {
        match self {
            Filter::Expr(e) => Ok(Filter::Expr(e.copy(alloc)?)),
            Filter::Param(of) => Ok(Filter::Param(of.copied(alloc)?)),
            Filter::Field(of) => copied_test(alloc, of),
            Filter::And(filters) => Ok(Filter::And(copied_filters(alloc, filters)?)),
            Filter::Or(filters) => Ok(Filter::Or(copied_filters(alloc, filters)?)),
            Filter::Not(filter) => {
                let copy = filter.get().copy(alloc);
                Ok(Filter::Not(boxed(alloc, filter, copy)?))
            }
        }
    }
}

// Copies of filters.
#[cycle(filters)]
fn copied_filters(alloc: Global, filters: &Seq<Filter>) -> Result<Seq<Filter>, OutOfMemory>
    ensures { IfOk result (λ copy. copy ≡ filters.now) }
{
    let mut out = Seq::new(alloc);
    let copied = push_copies(alloc, filters.as_slice(), &mut out);
    filled(filters, out, copied)
}

// Adds copies of filters.
#[cycle(filters)]
fn push_copies(alloc: Global, filters: &[Filter], out: &mut Seq<Filter>) -> Result<(), OutOfMemory>
    ensures { OnOk result (out.new ≡ out.old ++ filters.now) }
{
    for filter in filters {
        push_copy(out, filter, filter.copy(alloc))?;
    }
    Ok(())
}

impl Copies for Filter {
    fn copied(&self, alloc: Global) -> Result<Filter, OutOfMemory> {
        self.copy(alloc)
    }
}

impl Copies for ParamTest {
    fn copied(&self, _: Global) -> Result<ParamTest, OutOfMemory> {
        Ok(ParamTest {
            param: self.param.copy()?,
            empty: self.empty,
        })
    }
}

// A copy of a test of a field.
fn copied_test(alloc: Global, of: &FieldTest) -> Result<Filter, OutOfMemory>
    ensures { IfOk result (λ copy. copy ≡ variant.Field of.now) }
{
    let (field, comparison) = copied_two(alloc, &of.field, &of.comparison)?;
    Ok(Filter::Field(FieldTest {
        field,
        time_unit: of.time_unit,
        comparison,
    }))
}

impl Copies for Comparison {
    fn copied(&self, alloc: Global) -> Result<Comparison, OutOfMemory> {
        match self {
            Comparison::Equal(cell) => Ok(Comparison::Equal(cell.copied(alloc)?)),
            Comparison::Less(cell) => Ok(Comparison::Less(cell.copied(alloc)?)),
            Comparison::LessSame(cell) => Ok(Comparison::LessSame(cell.copied(alloc)?)),
            Comparison::More(cell) => Ok(Comparison::More(cell.copied(alloc)?)),
            Comparison::MoreSame(cell) => Ok(Comparison::MoreSame(cell.copied(alloc)?)),
            Comparison::Range(a, b) => Ok(Comparison::Range(*a, *b)),
            Comparison::OneOf(cells) => Ok(Comparison::OneOf(cells.copied(alloc)?)),
            Comparison::Valid(valid) => Ok(Comparison::Valid(*valid)),
        }
    }
}
