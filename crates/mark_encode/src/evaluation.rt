// What expressions and fields give over any row that can be read, with no count of steps.
ghost use Rattle.std.specs.Prelude.{◌≡◌, IfOk};
ghost use Rattle.expr_eval.specs.Answers.{Evaluates};
ghost use Rattle.expr_eval.specs.Value.{value_of, truth_of};

use cell_value::{Cell, Steps};
use expr_eval::{EvalError, ParamReader, RowReader, eval};
use expr_syntax::Expr;
use std::alloc::Global;
use std::marker::Brand;
use std::sync::ledger::{Blank, Ledger};
use text_kit::{OutOfMemory, Text};

// The value of an expression over a row, with a counter of its own.
fn eval_counted<R: RowReader, P: ParamReader, L: Ledger>(
    alloc: Global,
    e: &Expr,
    row: &R,
    params: &P,
    blank: Blank,
) -> Result<Cell, EvalError>
    requires name { blank.name ≡ L.name }
    requires parts { blank.parts ≡ L.parts }
    ensures { Evaluates result (value_of (R.cells row.now) (P.values params.now) e.now) }
{
    let mut steps = Steps::<L>::open(blank);
    eval(alloc, e, row, params, &mut steps)
}

/// The value of an expression over a row. `Overflow` comes exactly where a result that is needed is out of range.
pub fn eval_over<R: RowReader, P: ParamReader>(
    alloc: Global,
    e: &Expr,
    row: &R,
    params: &P,
) -> Result<Cell, EvalError>
    ensures { Evaluates result (value_of (R.cells row.now) (P.values params.now) e.now) }
{
    eval_counted::<R, P, Brand>(alloc, e, row, params, Blank::new(1))
}

/// Whether the value of a test over a row counts as true. `Overflow` comes exactly where the test overflows.
pub fn test_over<R: RowReader, P: ParamReader>(
    alloc: Global,
    test: &Expr,
    row: &R,
    params: &P,
) -> Result<bool, EvalError>
    ensures { Evaluates result (truth_of (R.cells row.now) (P.values params.now) test.now) }
{
    let value = eval_over(alloc, test, row, params)?;
    Ok(value.truthy())
}

// The cell under a name, with a counter of its own.
fn field_counted<R: RowReader, L: Ledger>(
    alloc: Global,
    row: &R,
    name: &Text,
    blank: Blank,
) -> Result<Cell, OutOfMemory>
    requires name { blank.name ≡ L.name }
    requires parts { blank.parts ≡ L.parts }
    ensures { IfOk result (λ cell. cell ≡ R.cells row.now name.now) }
{
    let mut steps = Steps::<L>::open(blank);
    row.field(alloc, name.as_str(), &mut steps)
}

/// The cell that a row has under a name.
pub fn field_over<R: RowReader>(alloc: Global, row: &R, name: &Text) -> Result<Cell, OutOfMemory>
    ensures { IfOk result (λ cell. cell ≡ R.cells row.now name.now) }
{
    field_counted::<R, Brand>(alloc, row, name, Blank::new(1))
}
