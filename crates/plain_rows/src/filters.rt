// The rows that pass a test.
ghost use Rattle.std.specs.Prelude.{◌≡◌, [], ◌∷◌, ◌++◌, if◌then◌else◌, IfOk, OnOk, map};
ghost use Rattle.cell_value.specs.Datum.{cell_at, datum_of};
ghost use Rattle.expr_eval.specs.Answers.{Evaluates};
ghost use Rattle.plain_rows.specs.Rows.{AreRows};
ghost use Rattle.plain_rows.specs.Answers.{GivesRows};
ghost use Rattle.plain_rows.specs.Filters.{filtered, data_filtered};

use crate::eval_test;
use cell_value::{Keyed, Rows};
use expr_eval::{EvalError, ParamReader};
use expr_syntax::Expr;
use std::alloc::Global;
use text_kit::{OutOfMemory, Seq};

// Adds a copy of a row that passes.
fn push_passing(out: &mut Rows, row: &Keyed, passes: bool) -> Result<(), OutOfMemory>
    ensures { OnOk result (out.new ≡ out.old ++ (if passes then row.now ∷ [] else [])) }
{
    if passes {
        out.push(row.copy()?)?;
    }
    Ok(())
}

// Copies of the rows that pass.
fn kept<P: ParamReader>(
    alloc: Global,
    rows: &[Keyed],
    test: &Expr,
    params: &P,
) -> Result<Rows, EvalError>
    requires { AreRows rows.now }
    ensures { Evaluates result (filtered cell_at (P.values params.now) test.now rows.now) }
{
    let mut out = Seq::new(alloc);
    for row in rows {
        match eval_test(alloc, test, row, params) {
            Ok(passes) => push_passing(&mut out, row, passes)?,
            Err(error) => return Err(error),
        }
    }
    Ok(out)
}

/// The rows, in their order, of which the test's value counts as true. `Overflow` comes exactly where the test overflows at one
/// of the rows. Their keys rise, their ids are at most 10^15, and there are at most 1,600,000 of them.
#[tactic(auto, using(crate::proofs::Readings::filter_reads, crate::proofs::Keys::kept_are_rows))]
pub fn filter<P: ParamReader>(
    alloc: Global,
    rows: &Rows,
    test: &Expr,
    params: &P,
) -> Result<Rows, EvalError>
    requires { AreRows rows.now }
    ensures kept { Evaluates result (filtered cell_at (P.values params.now) test.now rows.now) }
    ensures read { GivesRows result (data_filtered (P.values params.now) test.now (map datum_of rows.now)) }
    ensures rows { IfOk result AreRows }
{
    kept(alloc, rows.as_slice(), test, params)
}
