// What several transforms make of rows, one after the other.
ghost use Rattle.std.specs.Prelude.{◌∷◌, [], IsTrue, IfOk, map};
ghost use Rattle.cell_value.specs.Datum.{datum_of};
ghost use Rattle.plain_rows.specs.Rows.{AreRows};
ghost use Rattle.plain_rows.specs.Answers.{GivesRows};
ghost use Rattle.vega_lists.specs.Transforms.{is_kept, transformed, all_transformed, AllTransforms};
ghost use Rattle.vega_lists.specs.Held.{scope_in, AreLists, MayFold};

use crate::{Lists, transformed};
use cell_value::{Named, Rows};
use expr_eval::{EvalError, ParamReader};
use std::alloc::Global;
use text_kit::copy_list;
use vega_spec::Transform;

// The rows that a transform makes of rows that nothing else needs.
fn next_rows<P: ParamReader>(
    alloc: Global,
    sources: &[Named],
    lists: &Lists,
    transform: &Transform,
    rows: Rows,
    params: &P,
) -> Result<Rows, EvalError>
    requires rows { AreRows rows }
    requires lists { AreLists sources.now lists.now }
    requires kept { IsTrue (is_kept transform.now) }
    requires folds { MayFold rows (transform.now ∷ []) }
    ensures read { GivesRows result
        (transformed (P.values params.now) (scope_in sources.now lists.now) transform.now (map datum_of rows)) }
    ensures rows { IfOk result AreRows }
{
    transformed(alloc, sources, lists, transform, &rows, params)
}

// The rows that transforms make of rows that nothing else needs.

fn run<P: ParamReader>(
    alloc: Global,
    sources: &[Named],
    lists: &Lists,
    transforms: &[Transform],
    rows: Rows,
    params: &P,
) -> Result<Rows, EvalError>
    requires rows { AreRows rows }
    requires lists { AreLists sources.now lists.now }
    requires kept { AllTransforms is_kept transforms.now }
    requires folds { MayFold rows transforms.now }
    ensures read { GivesRows result
        (all_transformed (P.values params.now) (scope_in sources.now lists.now) transforms.now (map datum_of rows)) }
    ensures rows { IfOk result AreRows }
{
    let mut made = rows;
    for transform in transforms {
        made = match next_rows(alloc, sources, lists, transform, made, params) {
            Ok(next) => next,
            Err(error) => return Err(error),
        };
    }
    Ok(made)
}

/// The rows that transforms make of rows, one after the other, where names stand for lists. `Overflow` comes exactly where one of
/// them overflows.
pub(crate) fn all_transformed<P: ParamReader>(
    alloc: Global,
    sources: &[Named],
    lists: &Lists,
    transforms: &[Transform],
    rows: &Rows,
    params: &P,
) -> Result<Rows, EvalError>
    requires rows { AreRows rows.now }
    requires lists { AreLists sources.now lists.now }
    requires kept { AllTransforms is_kept transforms.now }
    requires folds { MayFold rows.now transforms.now }
    ensures read { GivesRows result
        (all_transformed (P.values params.now) (scope_in sources.now lists.now) transforms.now (map datum_of rows.now)) }
    ensures rows { IfOk result AreRows }
{
    match transforms {
        [] => Ok(copy_list(alloc, rows.as_slice())?),
        [first, others @ ..] => {
            match transformed(alloc, sources, lists, first, rows, params) {
                Ok(made) => run(alloc, sources, lists, others, made, params),
                Err(error) => Err(error),
            }
        }
    }
}
