// Comparisons of a field as expressions.
ghost use Rattle.std.specs.Prelude.{◌≡◌, ◌++◌, [], ◌∷◌, true, false, map, IfOk, OnOk};
ghost use Rattle.expr_syntax.specs.declared.expr.BinOp.TheVariants.{Or, Same};
ghost use Rattle.expr_syntax.specs.declared.expr.Expr.TheVariants as expr;
ghost use Rattle.plan_kit.specs.Joins.{joined};
ghost use Rattle.plan_kit.specs.Literals.{number_expr};
ghost use Rattle.unit_plan.specs.Comparisons.{subject, given, compared, between, is_there, field_test};

use crate::codes::{IN_RANGE, IS_VALID, TO_DATE};
use crate::starts::start_by;
use cell_value::Cell;
use expr_syntax::{BinOp, Expr};
use fixed_num::Num;
use plan_kit::{
    binary, call_one, call_two, joined, literal, number_beside, number_expr, opposite, pair,
};
use std::alloc::Global;
use text_kit::{OutOfMemory, Seq};
use vl_spec::{Comparison, FieldTest};

// What is compared: the cell of the field, or the start of its unit of time.
fn subject(alloc: Global, test: &FieldTest) -> Result<Expr, OutOfMemory>
    ensures { IfOk result (λ e. e ≡ subject test.now) }
{
    match test.time_unit {
        Some(code) => start_by(alloc, code, &test.field),
        None => Ok(Expr::Field(test.field.copy()?)),
    }
}

// The instant of a text, or another cell as it is.
fn instant_given(alloc: Global, cell: &Cell) -> Result<Expr, OutOfMemory>
    ensures { IfOk result (λ e. e ≡ given true cell.now) }
{
    match cell {
        Cell::Text(text) => {
            let text = text.copy()?;
            call_one(alloc, TO_DATE, Expr::Text(text))
        }
        Cell::Null | Cell::Flag(_) | Cell::Number(_) | Cell::Pair(_, _) => literal(alloc, cell),
    }
}

// What it is compared with.
fn given(alloc: Global, in_units: bool, cell: &Cell) -> Result<Expr, OutOfMemory>
    ensures { IfOk result (λ e. e ≡ given in_units cell.now) }
{
    if in_units {
        instant_given(alloc, cell)
    } else {
        literal(alloc, cell)
    }
}

// A value, and what it is compared with.
fn given_beside<K: Drop>(
    alloc: Global,
    kept: K,
    in_units: bool,
    cell: &Cell,
) -> Result<(K, Expr), OutOfMemory>
    ensures { IfOk result (λ both. both ≡ (kept, given in_units cell.now)) }
{
    let e = given(alloc, in_units, cell)?;
    Ok((kept, e))
}

// A field compared with a cell.
fn compared(alloc: Global, test: &FieldTest, op: BinOp, cell: &Cell) -> Result<Expr, OutOfMemory>
    ensures { IfOk result (λ e. e ≡ compared test.now op cell.now) }
{
    let left = subject(alloc, test)?;
    let (left, right) = given_beside(alloc, left, test.time_unit.is_some(), cell)?;
    binary(alloc, op, left, right)
}

// Adds a field compared with each of some cells.
fn push_same(
    alloc: Global,
    test: &FieldTest,
    cells: &[Cell],
    out: &mut Seq<Expr>,
) -> Result<(), OutOfMemory>
    ensures { OnOk result (out.new ≡ out.old ++ map (compared test.now Same) cells.now) }
{
    for cell in cells {
        out.push(compared(alloc, test, BinOp::Same, cell)?)?;
    }
    Ok(())
}

// That a field is one of some cells.
fn one_of(alloc: Global, test: &FieldTest, cells: &[Cell]) -> Result<Expr, OutOfMemory>
    ensures { IfOk result (λ e. e ≡ joined Or (expr.Flag false) (map (compared test.now Same) cells.now)) }
{
    let mut tests = Seq::with_capacity(alloc, cells.len())?;
    push_same(alloc, test, cells, &mut tests)?;
    joined(alloc, BinOp::Or, false, tests)
}

// Two bounds as a pair, beside a value.
fn bounds_beside<K: Drop>(
    alloc: Global,
    kept: K,
    low: Num,
    high: Num,
) -> Result<(K, Expr), OutOfMemory>
    ensures { IfOk result (λ both. both ≡ (kept, expr.Pair (number_expr low) (number_expr high))) }
{
    let (low, high) = number_beside(alloc, number_expr(alloc, low)?, high)?;
    let bounds = pair(alloc, low, high)?;
    Ok((kept, bounds))
}

// That a field is a number between two, in either order.
fn within(alloc: Global, test: &FieldTest, low: Num, high: Num) -> Result<Expr, OutOfMemory>
    ensures { IfOk result (λ e. e ≡ expr.Call IN_RANGE (subject test.now ∷ expr.Pair (number_expr low) (number_expr high) ∷ [])) }
{
    let number = subject(alloc, test)?;
    let (number, bounds) = bounds_beside(alloc, number, low, high)?;
    call_two(alloc, IN_RANGE, number, bounds)
}

// That a field is a number on one side of another.
fn on_side(alloc: Global, test: &FieldTest, op: BinOp, bound: Num) -> Result<Expr, OutOfMemory>
    ensures { IfOk result (λ e. e ≡ expr.Binary op (subject test.now) (number_expr bound)) }
{
    let number = subject(alloc, test)?;
    let (number, bound) = number_beside(alloc, number, bound)?;
    binary(alloc, op, number, bound)
}

// That a field is a number between two bounds, of which each may be open.
fn between(
    alloc: Global,
    test: &FieldTest,
    low: Option<Num>,
    high: Option<Num>,
) -> Result<Expr, OutOfMemory>
    ensures { IfOk result (λ e. e ≡ between (subject test.now) low high) }
{
    match low {
        Some(low) => match high {
            Some(high) => within(alloc, test, low, high),
            None => on_side(alloc, test, BinOp::MoreSame, low),
        },
        None => match high {
            Some(high) => on_side(alloc, test, BinOp::LessSame, high),
            None => Ok(Expr::Flag(true)),
        },
    }
}

// Whether a field isn't null, or is.
fn is_there(alloc: Global, test: &FieldTest, valid: bool) -> Result<Expr, OutOfMemory>
    ensures { IfOk result (λ e. e ≡ is_there (subject test.now) valid) }
{
    let cell = subject(alloc, test)?;
    let there = call_one(alloc, IS_VALID, cell)?;
    if valid {
        Ok(there)
    } else {
        opposite(alloc, there)
    }
}

/// A test of a field.
pub(crate) fn field_test(alloc: Global, test: &FieldTest) -> Result<Expr, OutOfMemory>
    ensures { IfOk result (λ e. e ≡ field_test test.now) }
{
    match &test.comparison {
        Comparison::Equal(cell) => compared(alloc, test, BinOp::Same, cell),
        Comparison::Less(cell) => compared(alloc, test, BinOp::Less, cell),
        Comparison::LessSame(cell) => compared(alloc, test, BinOp::LessSame, cell),
        Comparison::More(cell) => compared(alloc, test, BinOp::More, cell),
        Comparison::MoreSame(cell) => compared(alloc, test, BinOp::MoreSame, cell),
        Comparison::Range(low, high) => between(alloc, test, *low, *high),
        Comparison::OneOf(cells) => one_of(alloc, test, cells.as_slice()),
        Comparison::Valid(valid) => is_there(alloc, test, *valid),
    }
}
