// Results that may go out of range.
ghost use Rattle.std.specs.Prelude.{◌*◌, ◌<◌, ◌^◌, pos};
ghost use Rattle.fixed_num.specs.Number.{million};
ghost use Rattle.expr_eval.specs.Ranges.{number_cell, number};
ghost use Rattle.expr_eval.specs.Answers.{Evaluates};

use crate::EvalError;
use cell_value::Cell;
use fixed_num::Num;

/// A result as a cell. `Overflow` exactly where there is none.
pub(crate) fn number(found: Option<Num>) -> Result<Cell, EvalError>
    ensures { Evaluates result (number_cell found) }
{
    match found {
        Some(number) => Ok(Cell::Number(number)),
        None => Err(EvalError::Overflow),
    }
}

/// A whole number as a cell. `Overflow` exactly where it is out of range.
#[tactic(auto, using(crate::proofs::RangeLemmas::in_range_from_exact))]
pub(crate) fn count(n: u128) -> Result<Cell, EvalError>
    requires { n < 2 ^ 66 }
    ensures { Evaluates result (number (pos (n * million))) }
{
    number(Num::of_millionths(n as i128 * 1_000_000))
}
