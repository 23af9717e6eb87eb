// A cell put into each row.
ghost use Rattle.std.specs.Prelude.{◌≡◌, ◌≤◌, IfOk, map, option_map};
ghost use Rattle.cell_value.specs.State.{greatest_id};
ghost use Rattle.cell_value.specs.Datum.{cell_at, datum_of};
ghost use Rattle.expr_eval.specs.Answers.{Evaluates};
ghost use Rattle.expr_eval.specs.Value.{value_of};
ghost use Rattle.plain_rows.specs.Rows.{AreRows};
ghost use Rattle.plain_rows.specs.Answers.{GivesRows};
ghost use Rattle.plain_rows.specs.Calculations.{with_cell, calculated, data_calculated};

use crate::eval_row;
use cell_value::{Cell, Held, Keyed, Rows, SharedText};
use expr_eval::{EvalError, ParamReader};
use expr_syntax::Expr;
use std::alloc::Global;
use text_kit::{OutOfMemory, Seq};

// A copy of a row with a cell under a name.
fn copy_with(alloc: Global, row: &Keyed, out: &SharedText, cell: Cell) -> Result<Keyed, OutOfMemory>
    ensures { IfOk result (λ copy. copy ≡ with_cell out.now cell row.now) }
{
    let mut copy = row.copy()?;
    copy.row
        .set_shared(alloc, out.copy()?, Held::of(alloc, cell)?)?;
    Ok(copy)
}

// A copy of a row with its value of the expression under a name.
fn calculated_row<P: ParamReader>(
    alloc: Global,
    row: &Keyed,
    e: &Expr,
    out: &SharedText,
    params: &P,
) -> Result<Keyed, EvalError>
    requires { row.now.key.id ≤ greatest_id }
    ensures { Evaluates result (option_map (λ cell. with_cell out.now cell row.now)
        (value_of (cell_at row.now) (P.values params.now) e.now)) }
{
    let cell = eval_row(alloc, e, row, params)?;
    Ok(copy_with(alloc, row, out, cell)?)
}

// Copies of the rows, each with its value of the expression under a name.
fn calculated_rows<P: ParamReader>(
    alloc: Global,
    rows: &[Keyed],
    e: &Expr,
    name: &SharedText,
    params: &P,
) -> Result<Rows, EvalError>
    requires { AreRows rows.now }
    ensures { Evaluates result (calculated (P.values params.now) e.now name.now rows.now) }
{
    let mut out = Seq::with_capacity(alloc, rows.len())?;
    for row in rows {
        match calculated_row(alloc, row, e, name, params) {
            Ok(copy) => out.push(copy)?,
            Err(error) => return Err(error),
        }
    }
    Ok(out)
}

/// The rows, each with its value of the expression under the name `out`, in place of the cell that was there. All values are
/// those over the rows as given; under the name `_vgsid_` a row reads as its id still. `Overflow` comes exactly where the
/// expression overflows at one of the rows. Their keys rise, their ids are at most 10^15, and there are at most 1,600,000 of them.
#[tactic(auto, using(crate::proofs::Readings::calculate_reads, crate::proofs::Keys::calculated_are_rows))]
pub fn calculate<P: ParamReader>(
    alloc: Global,
    rows: &Rows,
    e: &Expr,
    out: &str,
    params: &P,
) -> Result<Rows, EvalError>
    requires { AreRows rows.now }
    ensures put { Evaluates result (calculated (P.values params.now) e.now out.now rows.now) }
    ensures read { GivesRows result (data_calculated (P.values params.now) e.now out.now (map datum_of rows.now)) }
    ensures rows { IfOk result AreRows }
{
    let name = SharedText::of(alloc, out)?;
    calculated_rows(alloc, rows.as_slice(), e, &name, params)
}
