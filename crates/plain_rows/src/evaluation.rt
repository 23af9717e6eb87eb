// The value of an expression over one row, with no count of steps.
ghost use Rattle.std.specs.Prelude.{◌≡◌, ◌≤◌};
ghost use Rattle.cell_value.specs.State.{greatest_id};
ghost use Rattle.cell_value.specs.Datum.{cell_at};
ghost use Rattle.expr_eval.specs.Answers.{Evaluates};
ghost use Rattle.expr_eval.specs.Value.{value_of};
ghost use Rattle.expr_eval.specs.Value.{truth_of};

use cell_value::{Cell, Keyed, Steps};
use expr_eval::{EvalError, ParamReader, PlainRow, eval};
use expr_syntax::Expr;
use std::alloc::Global;
use std::marker::Brand;
use std::sync::ledger::{Blank, Ledger};

// The value of an expression over a row, with a counter of its own.
fn eval_counted<P: ParamReader, L: Ledger>(
    alloc: Global,
    e: &Expr,
    row: &Keyed,
    params: &P,
    blank: Blank,
) -> Result<Cell, EvalError>
    requires id { row.now.key.id ≤ greatest_id }
    requires name { blank.name ≡ L.name }
    requires parts { blank.parts ≡ L.parts }
    ensures { Evaluates result (value_of (cell_at row.now) (P.values params.now) e.now) }
{
    let mut steps = Steps::<L>::open(blank);
    eval(alloc, e, &PlainRow::of(row), params, &mut steps)
}

/// The value of an expression over a row, whose id is at most 10^15, and the parameters of a chart; `_vgsid_` reads as the id.
/// `Overflow` comes exactly where a result that is needed is out of range.
pub fn eval_row<P: ParamReader>(
    alloc: Global,
    e: &Expr,
    row: &Keyed,
    params: &P,
) -> Result<Cell, EvalError>
    requires { row.now.key.id ≤ greatest_id }
    ensures { Evaluates result (value_of (cell_at row.now) (P.values params.now) e.now) }
{
    eval_counted::<P, Brand>(alloc, e, row, params, Blank::new(1))
}

/// Whether the value of a test over a row, whose id is at most 10^15, counts as true. `Overflow` comes exactly where the test
/// overflows.
pub fn eval_test<P: ParamReader>(
    alloc: Global,
    test: &Expr,
    row: &Keyed,
    params: &P,
) -> Result<bool, EvalError>
    requires { row.now.key.id ≤ greatest_id }
    ensures { Evaluates result (truth_of (cell_at row.now) (P.values params.now) test.now) }
{
    let value = eval_row(alloc, test, row, params)?;
    Ok(value.truthy())
}
