// Expressions that are made.
ghost use Rattle.std.specs.Prelude.{◌≡◌, IfOk};
ghost use Rattle.plan_kit.specs.Literals.{whole};
ghost use Rattle.vega_assemble.specs.Cells.{cell_expr, field_expr};

use crate::numbers::place_number;
use expr_syntax::Expr;
use plan_kit::{CellOf, literal};
use std::alloc::Global;
use text_kit::{OutOfMemory, Text};

/// A cell that is shown.
pub(crate) fn cell_expr(alloc: Global, cell: &CellOf) -> Result<Expr, OutOfMemory>
    ensures { IfOk result (λ e. e ≡ cell_expr cell.now) }
{
    match cell {
        CellOf::Field(name) => name.copy().map(Expr::Field),
        CellOf::Written(written) => literal(alloc, written),
        CellOf::Computed(e) => e.copy(alloc),
    }
}

/// The cell of a field; null without a field.
pub(crate) fn field_expr(field: &Option<Text>) -> Result<Expr, OutOfMemory>
    ensures { IfOk result (λ e. e ≡ field_expr field.now) }
{
    match field {
        Some(field) => field.copy().map(Expr::Field),
        None => Ok(Expr::Null),
    }
}

/// A place in a list as a number.
pub(crate) fn whole_place(n: usize) -> Result<Expr, OutOfMemory>
    ensures { IfOk result (λ e. e ≡ whole n) }
{
    let number = place_number(n)?;
    Ok(Expr::Number(number))
}
