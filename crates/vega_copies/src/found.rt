// What is found, one after the other.
ghost use Rattle.vega_copies.specs.inner.Results.{Adds};

use expr_eval::EvalError;
use text_kit::Seq;

/// Adds what was found to a list, or says why it wasn't found.
pub(crate) fn push_found<T: Drop>(
    found: Result<T, EvalError>,
    list: &mut Seq<T>,
) -> Result<(), EvalError>
    ensures { Adds found result list.old list.new }
{
    match found {
        Ok(found) => Ok(list.push(found)?),
        Err(error) => Err(error),
    }
}
