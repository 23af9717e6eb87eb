// The value of an expression.
ghost use Rattle.std.specs.Prelude.{◌≢◌, ◌+◌, map, sum, sum_by};
ghost use Rattle.fixed_num.specs.Ranges.{all_found};
ghost use Rattle.expr_eval.specs.Operations.{binary_of};
ghost use Rattle.expr_eval.specs.Table.{called, chosen, code_of_if, lazy_choice, of_values};
ghost use Rattle.expr_eval.specs.Value.{value_of};
ghost use Rattle.expr_eval.specs.Reads.{reads_of};
ghost use Rattle.expr_eval.specs.Answers.{Evaluates, RisesBy};

use crate::numbers::{cell_number, number_or_null};
use crate::operations::{decides, negate, operate, pair};
use crate::ranges::count;
use crate::table::{CODE_OF_IF, call};
use crate::{EvalError, ParamReader, RowReader};
use cell_value::{Cell, Steps};
use expr_syntax::{BinOp, Expr};
use std::alloc::Global;
use std::sync::ledger::Ledger;
use text_kit::Seq;

/// The value of an expression over a row and the parameters of a chart. `Overflow` comes exactly where a result that is
/// needed is out of range, or a parameter that is needed has no value.
/// It counts one step at most for each mention of a field, and for each selection test as many as the store has fields.
#[cycle(value)]
pub fn eval<R: RowReader, P: ParamReader, L: Ledger>(
    alloc: Global,
    e: &Expr,
    row: &R,
    params: &P,
    steps: &mut Steps<L>,
) -> Result<Cell, EvalError>
    ensures value { Evaluates result (value_of (R.cells row.now) (P.values params.now) e.now) }
    ensures steps { RisesBy (reads_of (P.values params.now) e.now) steps.old steps.new }
{
    match e {
        Expr::Null => Ok(Cell::Null),
        Expr::Flag(flag) => Ok(Cell::Flag(*flag)),
        Expr::Number(number) => Ok(Cell::Number(*number)),
        Expr::Text(text) => Ok(Cell::Text(text.copy()?)),
        Expr::Field(name) => Ok(row.field(alloc, name.as_str(), steps)?),
        Expr::Param(name) => params.param(alloc, name.as_str()),
        Expr::Member(name, field) => Ok(params.member(alloc, name.as_str(), field.as_str())?),
        Expr::Not(a) => {
            let a = eval(alloc, a.get(), row, params, steps)?;
            Ok(Cell::Flag(!a.truthy()))
        }
        Expr::Minus(a) => {
            let a = eval(alloc, a.get(), row, params, steps)?;
            negate(&a)
        }
        Expr::Plus(a) => {
            let a = eval(alloc, a.get(), row, params, steps)?;
            Ok(number_or_null(cell_number(&a)))
        }
        Expr::Binary(op, a, b) => eval_binary(alloc, *op, a.get(), b.get(), row, params, steps),
        Expr::Choose(test, first, second) => {
            eval_choice(
                alloc,
                test.get(),
                first.get(),
                second.get(),
                row,
                params,
                steps,
            )
        }
        Expr::Pair(a, b) => {
            let a = eval(alloc, a.get(), row, params, steps)?;
            let b = eval(alloc, b.get(), row, params, steps)?;
            Ok(pair(&a, &b))
        }
        Expr::Call(code, args) => eval_call(alloc, *code, args.as_slice(), row, params, steps),
        Expr::Selected(store) => Ok(Cell::Flag(params.selected(
            alloc,
            store.as_str(),
            row,
            steps,
        )?)),
        Expr::Stored(store) => count(u128::from(params.stored(store.as_str()))),
        Expr::DomainLength(scale) => count(u128::from(params.domain_length(scale.as_str()))),
    }
}

// What an operator gives for two operands, of which the right one is evaluated only where the left one doesn't decide.
#[cycle(value)]
fn eval_binary<R: RowReader, P: ParamReader, L: Ledger>(
    alloc: Global,
    op: BinOp,
    a: &Expr,
    b: &Expr,
    row: &R,
    params: &P,
    steps: &mut Steps<L>,
) -> Result<Cell, EvalError>
    ensures value { Evaluates result (binary_of op
        (value_of (R.cells row.now) (P.values params.now) a.now)
        (value_of (R.cells row.now) (P.values params.now) b.now)) }
    ensures steps { RisesBy (reads_of (P.values params.now) a.now + reads_of (P.values params.now) b.now) steps.old steps.new }
{
    let left = eval(alloc, a, row, params, steps)?;
    if decides(op, &left) {
        return Ok(left);
    }
    let right = eval(alloc, b, row, params, steps)?;
    operate(alloc, op, left, right)
}

// One of two expressions, by a test.
#[cycle(value)]
fn eval_choice<R: RowReader, P: ParamReader, L: Ledger>(
    alloc: Global,
    test: &Expr,
    first: &Expr,
    second: &Expr,
    row: &R,
    params: &P,
    steps: &mut Steps<L>,
) -> Result<Cell, EvalError>
    ensures value { Evaluates result (chosen
        (value_of (R.cells row.now) (P.values params.now) test.now)
        (value_of (R.cells row.now) (P.values params.now) first.now)
        (value_of (R.cells row.now) (P.values params.now) second.now)) }
    ensures steps { RisesBy (reads_of (P.values params.now) test.now + reads_of (P.values params.now) first.now
        + reads_of (P.values params.now) second.now) steps.old steps.new }
{
    let test = eval(alloc, test, row, params, steps)?;
    if test.truthy() {
        eval(alloc, first, row, params, steps)
    } else {
        eval(alloc, second, row, params, steps)
    }
}

// The values of several expressions.
#[cycle(value)]
fn eval_all<R: RowReader, P: ParamReader, L: Ledger>(
    alloc: Global,
    args: &[Expr],
    row: &R,
    params: &P,
    steps: &mut Steps<L>,
) -> Result<Seq<Cell>, EvalError>
    ensures value { Evaluates result (all_found (map (value_of (R.cells row.now) (P.values params.now)) args.now)) }
    ensures steps { RisesBy (sum_by (reads_of (P.values params.now)) args.now) steps.old steps.new }
{
    let mut out = Seq::with_capacity(alloc, args.len())?;
    for arg in args {
        match eval(alloc, arg, row, params, steps) {
            Ok(cell) => out.push(cell)?,
            Err(e) => return Err(e),
        }
    }
    Ok(out)
}

// What `if` gives for its arguments.
#[cycle(value)]
fn eval_if<R: RowReader, P: ParamReader, L: Ledger>(
    alloc: Global,
    args: &[Expr],
    row: &R,
    params: &P,
    steps: &mut Steps<L>,
) -> Result<Cell, EvalError>
    ensures value { Evaluates result (lazy_choice (map (value_of (R.cells row.now) (P.values params.now)) args.now)) }
    ensures steps { RisesBy (sum_by (reads_of (P.values params.now)) args.now) steps.old steps.new }
{
    match args {
        [test, first, second] => eval_choice(alloc, test, first, second, row, params, steps),
        _ => Ok(Cell::Null),
    }
}

// What a builtin that needs all its arguments gives for them.
#[cycle(value)]
fn eval_builtin<R: RowReader, P: ParamReader, L: Ledger>(
    alloc: Global,
    code: u16,
    args: &[Expr],
    row: &R,
    params: &P,
    steps: &mut Steps<L>,
) -> Result<Cell, EvalError>
    requires { code ≢ code_of_if }
    ensures value { Evaluates result (of_values code (map (value_of (R.cells row.now) (P.values params.now)) args.now)) }
    ensures steps { RisesBy (sum_by (reads_of (P.values params.now)) args.now) steps.old steps.new }
{
    if let [only] = args {
        let value = eval(alloc, only, row, params, steps)?;
        return call(alloc, code, &[value]);
    }
    let values = eval_all(alloc, args, row, params, steps)?;
    call(alloc, code, values.as_slice())
}

// What a builtin gives for its arguments.
#[cycle(value)]
fn eval_call<R: RowReader, P: ParamReader, L: Ledger>(
    alloc: Global,
    code: u16,
    args: &[Expr],
    row: &R,
    params: &P,
    steps: &mut Steps<L>,
) -> Result<Cell, EvalError>
    ensures value { Evaluates result (called code (map (value_of (R.cells row.now) (P.values params.now)) args.now)) }
    ensures steps { RisesBy (sum (map (reads_of (P.values params.now)) args.now)) steps.old steps.new }
{
    if code == CODE_OF_IF {
        eval_if(alloc, args, row, params, steps)
    } else {
        eval_builtin(alloc, code, args, row, params, steps)
    }
}
