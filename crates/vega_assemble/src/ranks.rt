// By what cells stand.
ghost use Rattle.std.specs.Prelude.{◌≡◌, ◌+◌, Some, None, IfOk};
ghost use Rattle.expr_syntax.specs.declared.expr.Expr.TheVariants as expr;
ghost use Rattle.expr_syntax.specs.declared.expr.BinOp.TheVariants.{Same, And, Or};
ghost use Rattle.plan_kit.specs.Literals.{literal, whole};
ghost use Rattle.plan_kit.specs.Joins.{joined};
ghost use Rattle.vega_assemble.specs.Ranks.{place_if, places_in, listed_rank, over_none, counts, op_of_scale};

use crate::exprs::whole_place;
use crate::numbers::millionths;
use cell_value::Cell;
use expr_syntax::{BinOp, Expr};
use plan_kit::{binary, joined, literal};
use std::alloc::Global;
use text_kit::{OutOfMemory, Seq};

// The code of `sum` among the operations.
const SUM: u16 = 4;

/// The code of `min`.
pub(crate) const MIN: u16 = 7;

// The code of `max`.
const MAX: u16 = 8;

// ---- listed cells

// That a cell is one that is written.
fn same_as(alloc: Global, shown: &Expr, cell: &Cell) -> Result<Expr, OutOfMemory>
    ensures { IfOk result (λ e. e ≡ expr.Binary Same shown.now (literal cell.now)) }
{
    let written = literal(alloc, cell)?;
    let (written, shown) = copy_beside(alloc, written, shown)?;
    binary(alloc, BinOp::Same, shown, written)
}

// A value, and a copy of an expression.
fn copy_beside<K: Drop>(alloc: Global, kept: K, e: &Expr) -> Result<(K, Expr), OutOfMemory>
    ensures { IfOk result (λ both. both ≡ (kept, e.now)) }
{
    let copy = e.copy(alloc)?;
    Ok((kept, copy))
}

// The place of a listed cell where a cell is the same, else false.
fn place_if(alloc: Global, shown: &Expr, place: usize, cell: &Cell) -> Result<Expr, OutOfMemory>
    ensures { IfOk result (λ e. e ≡ place_if shown.now (place, cell.now)) }
{
    let number = next_place(place)?;
    let same = same_as(alloc, shown, cell)?;
    binary(alloc, BinOp::And, same, number)
}

// The place behind another.
fn next_place(place: usize) -> Result<Expr, OutOfMemory>
    ensures { IfOk result (λ e. e ≡ whole (place + 1)) }
{
    match place.checked_add(1) {
        Some(next) => whole_place(next),
        None => Err(OutOfMemory),
    }
}

// The places of all listed cells.
fn places_in(alloc: Global, shown: &Expr, cells: &[Cell]) -> Result<Seq<Expr>, OutOfMemory>
    ensures { IfOk result (λ es. es ≡ places_in shown.now cells.now) }
{
    let mut out = Seq::new(alloc);
    for (place, cell) in cells.iter().enumerate() {
        out.push(place_if(alloc, shown, place, cell)?)?;
    }
    Ok(out)
}

/// The place of a cell among listed ones: as high as the logarithm of how many there are.
pub(crate) fn listed_rank(alloc: Global, shown: &Expr, cells: &[Cell]) -> Result<Expr, OutOfMemory>
    ensures { IfOk result (λ e. e ≡ listed_rank shown.now cells.now) }
{
    let behind = next_place(cells.len())?;
    let places = places_in(alloc, shown, cells)?;
    let found = joined(alloc, BinOp::Or, false, places)?;
    binary(alloc, BinOp::Or, found, behind)
}

// ---- orders by rows

/// What an operation gives over no rows.
pub(crate) fn over_none(op: u16) -> Expr
    ensures { result ≡ over_none op }
{
    if op <= SUM {
        Expr::Number(millionths(0))
    } else {
        Expr::Null
    }
}

/// Whether an operation counts.
pub(crate) fn counts(op: u16) -> bool
    ensures { result ≡ counts op }
{
    op < SUM
}

/// The operation of a scale over the ranks of rows.
pub(crate) fn op_of_scale(op: u16) -> u16
    ensures { result ≡ op_of_scale op }
{
    if counts(op) { MAX } else { op }
}
