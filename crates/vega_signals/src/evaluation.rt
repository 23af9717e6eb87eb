// The value of an expression over no row, with no count of steps.
ghost use Rattle.std.specs.Prelude.{◌≡◌};
ghost use Rattle.expr_eval.specs.Answers.{Evaluates};
ghost use Rattle.expr_eval.specs.Plain.{null_row};
ghost use Rattle.expr_eval.specs.Value.{value_of};

use cell_value::{Cell, Steps};
use expr_eval::{EvalError, NoRow, ParamReader, eval};
use expr_syntax::Expr;
use std::alloc::Global;
use std::marker::Brand;
use std::sync::ledger::{Blank, Ledger};

// The value of an expression over no row, with a counter of its own.
fn eval_counted<P: ParamReader, L: Ledger>(
    alloc: Global,
    e: &Expr,
    params: &P,
    blank: Blank,
) -> Result<Cell, EvalError>
    requires name { blank.name ≡ L.name }
    requires parts { blank.parts ≡ L.parts }
    ensures { Evaluates result (value_of null_row (P.values params.now) e.now) }
{
    let mut steps = Steps::<L>::open(blank);
    eval(alloc, e, &NoRow, params, &mut steps)
}

/// The value of an expression over no row and the parameters of a chart. `Overflow` comes exactly where a result that is needed is out
/// of range.
pub fn eval_alone<P: ParamReader>(alloc: Global, e: &Expr, params: &P) -> Result<Cell, EvalError>
    ensures { Evaluates result (value_of null_row (P.values params.now) e.now) }
{
    eval_counted::<P, Brand>(alloc, e, params, Blank::new(1))
}
