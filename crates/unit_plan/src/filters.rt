// Filters, and the tests of conditions, as expressions.
ghost use Rattle.std.specs.Prelude.{◌≡◌, ◌++◌, map, true, unwrap_or, IfOk, OnOk};
ghost use Rattle.expr_syntax.specs.declared.expr.BinOp.TheVariants.{Or, And};
ghost use Rattle.expr_syntax.specs.declared.expr.Expr.TheVariants as expr;
ghost use Rattle.unit_plan.specs.Selections.{is_selection};
ghost use Rattle.plan_kit.specs.Joins.{joined};
ghost use Rattle.unit_plan.specs.Filters.{stored_none, selected, param_test, filter_expr, test_expr, all_of, all_hold};

use crate::comparisons::field_test;
use crate::selections::SelectionNames;
use expr_syntax::{BinOp, Expr};
use plan_kit::{binary, joined, opposite, whole};
use std::alloc::Global;
use text_kit::{Boxed, OutOfMemory, Seq, Text};
use vl_spec::{Filter, ParamTest, Test};

// That the store of a selection is empty.
fn stored_none(alloc: Global, name: &Text) -> Result<Expr, OutOfMemory>
    ensures { IfOk result (λ e. e ≡ stored_none name.now) }
{
    let name = name.copy()?;
    binary(alloc, BinOp::Like, Expr::Stored(name), whole(0))
}

// That a selection holds the row, where an empty one holds all rows or none.
fn selected(alloc: Global, name: &Text, empty: bool) -> Result<Expr, OutOfMemory>
    ensures { IfOk result (λ e. e ≡ selected name.now empty) }
{
    let holder = name.copy()?;
    if empty {
        let none = stored_none(alloc, name)?;
        binary(alloc, BinOp::Or, none, Expr::Selected(holder))
    } else {
        Ok(Expr::Selected(holder))
    }
}

// Whether an empty selection holds every row; it does where that isn't said.
fn holds_all(empty: Option<bool>) -> bool
    ensures { result ≡ unwrap_or empty true }
{
    match empty {
        Some(all) => all,
        None => true,
    }
}

// A test by a parameter.
fn param_test(alloc: Global, names: &SelectionNames, test: &ParamTest) -> Result<Expr, OutOfMemory>
    ensures { IfOk result (λ e. e ≡ param_test (is_selection names.now.params.now) test.now) }
{
    if names.is_selection(test.param.as_str()) {
        selected(alloc, &test.param, holds_all(test.empty))
    } else {
        Ok(Expr::Param(test.param.copy()?))
    }
}

/// The expression that holds where a filter lets the row pass.
#[cycle(filters)]
pub fn filter_expr(
    alloc: Global,
    names: &SelectionNames,
    filter: &Filter,
) -> Result<Expr, OutOfMemory>
    ensures { IfOk result (λ e. e ≡ filter_expr (is_selection names.now.params.now) filter.now) }
{
    match filter {
        Filter::Expr(e) => e.copy(alloc),
        Filter::Param(test) => param_test(alloc, names, test),
        Filter::Field(test) => field_test(alloc, test),
        Filter::And(filters) => joined_filters(alloc, names, BinOp::And, true, filters),
        Filter::Or(filters) => joined_filters(alloc, names, BinOp::Or, false, filters),
        Filter::Not(filter) => opposite_filter(alloc, names, filter),
    }
}

// The opposite of a filter.
#[cycle(filters)]
fn opposite_filter(
    alloc: Global,
    names: &SelectionNames,
    filter: &Boxed<Filter>,
) -> Result<Expr, OutOfMemory>
    ensures { IfOk result (λ e. e ≡ expr.Not (filter_expr (is_selection names.now.params.now) filter.now)) }
{
    let e = filter_expr(alloc, names, filter.get())?;
    opposite(alloc, e)
}

// Several filters, joined by an operator.
#[cycle(filters)]
fn joined_filters(
    alloc: Global,
    names: &SelectionNames,
    op: BinOp,
    none: bool,
    filters: &Seq<Filter>,
) -> Result<Expr, OutOfMemory>
    ensures { IfOk result (λ e. e ≡ joined op (expr.Flag none) (map (filter_expr (is_selection names.now.params.now)) filters.now)) }
{
    let mut exprs = Seq::new(alloc);
    push_filters(alloc, names, filters.as_slice(), &mut exprs)?;
    joined(alloc, op, none, exprs)
}

// Adds the expressions of filters.
#[cycle(filters)]
fn push_filters(
    alloc: Global,
    names: &SelectionNames,
    filters: &[Filter],
    out: &mut Seq<Expr>,
) -> Result<(), OutOfMemory>
    ensures { OnOk result (out.new ≡ out.old ++ map (filter_expr (is_selection names.now.params.now)) filters.now) }
{
    for filter in filters {
        out.push(filter_expr(alloc, names, filter)?)?;
    }
    Ok(())
}

/// The expression that holds where the test of a condition does.
pub fn test_expr(alloc: Global, names: &SelectionNames, test: &Test) -> Result<Expr, OutOfMemory>
    ensures { IfOk result (λ e. e ≡ test_expr (is_selection names.now.params.now) test.now) }
{
    match test {
        Test::Param(test) => param_test(alloc, names, test),
        Test::Filter(filter) => filter_expr(alloc, names, filter),
    }
}

// That some expressions all hold; none without any.
fn all_of(alloc: Global, es: Seq<Expr>) -> Result<Option<Expr>, OutOfMemory>
    ensures { IfOk result (λ e. e ≡ all_of es) }
{
    match es.as_slice() {
        [] => Ok(None),
        [_, ..] => joined(alloc, BinOp::And, true, es).map(Some),
    }
}

/// The expression that holds where each of some tests does; none without a test.
pub fn all_hold(
    alloc: Global,
    names: &SelectionNames,
    tests: &[&Test],
) -> Result<Option<Expr>, OutOfMemory>
    ensures { IfOk result (λ e. e ≡ all_hold (is_selection names.now.params.now) (map (λ t. t.now) tests.now)) }
{
    let mut exprs = Seq::new(alloc);
    push_tests(alloc, names, tests, &mut exprs)?;
    all_of(alloc, exprs)
}

// Adds the expressions of tests.
fn push_tests(
    alloc: Global,
    names: &SelectionNames,
    tests: &[&Test],
    out: &mut Seq<Expr>,
) -> Result<(), OutOfMemory>
    ensures { OnOk result (out.new ≡ out.old ++ map (test_expr (is_selection names.now.params.now)) (map (λ t. t.now) tests.now)) }
{
    for test in tests {
        out.push(test_expr(alloc, names, test)?)?;
    }
    Ok(())
}
