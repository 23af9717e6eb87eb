// Where marks stand along x or y.
ghost use Rattle.std.specs.Prelude.{◌≤◌};
ghost use Rattle.cell_value.specs.Datum.{cell_at};
ghost use Rattle.cell_value.specs.State.{greatest_id};
ghost use Rattle.expr_eval.specs.Answers.{Evaluates};
ghost use Rattle.mark_encode.specs.Spans.{span_for};
ghost use Rattle.mark_encode.specs.inner.Kinds.{along_values};

use crate::numbers::{far_shown, number_shown};
use crate::prepared::{FarNumbers, Numbers};
use cell_value::Keyed;
use expr_eval::{EvalError, ParamReader};
use mark_shapes::{Span, span_of};
use std::alloc::Global;

/// The values in the channels of one direction.
#[derive(Drop)]
pub struct Along<'a> {
    pub near: Numbers<'a>,
    pub far: FarNumbers<'a>,
    pub middle: Numbers<'a>,
    pub size: Numbers<'a>,
}

/// Where a mark stands along one direction for a row; None where it lacks a place.
pub fn span_for<P: ParamReader>(
    alloc: Global,
    along: &Along,
    row: &Keyed,
    params: &P,
) -> Result<Option<Span>, EvalError>
    requires { row.now.key.id ≤ greatest_id }
    ensures { Evaluates result (span_for (cell_at row.now) (P.values params.now) (along_values along.now)) }
{
    let near = number_shown(alloc, &along.near, row, params)?;
    let far = far_shown(alloc, &along.far, row, params)?;
    let middle = number_shown(alloc, &along.middle, row, params)?;
    let size = number_shown(alloc, &along.size, row, params)?;
    match span_of(near, far, middle, size) {
        Some(span) => Ok(span),
        None => Err(EvalError::Overflow),
    }
}
