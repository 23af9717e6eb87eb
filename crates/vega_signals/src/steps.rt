// The rows that a transform leaves.
ghost use Rattle.std.specs.Prelude.{◌≡◌, ◌∷◌, [], None, IsTrue, IfOk, map};
ghost use Rattle.cell_value.specs.Datum.{datum_of};
ghost use Rattle.plain_rows.specs.Rows.{AreRows};
ghost use Rattle.plain_rows.specs.Answers.{GivesRows};
ghost use Rattle.vega_lists.specs.Transforms.{is_kept, transformed};
ghost use Rattle.vega_lists.specs.Held.{AreAllRows, AreLists, MayFold};
ghost use Rattle.vega_signals.specs.Extents.{rows_left};
ghost use Rattle.vega_signals.specs.inner.Rows.{rows_of, scope_by, lookup_in};

use crate::lookups::{looked_up, lookup_in};
use cell_value::Rows;
use expr_eval::{EvalError, ParamReader};
use std::alloc::Global;
use std::collections::BTreeMap;
use text_kit::{OutOfMemory, Seq};
use vega_lists::{ListReader, Lists, transformed};
use vega_spec::Transform;

// The rows that a transform makes of rows. Only a lookup reads other lists.
fn next_rows<O: ListReader, P: ParamReader>(
    alloc: Global,
    outer: &O,
    lists: &BTreeMap<String, Rows>,
    empty: &Lists,
    transform: &Transform,
    rows: &Rows,
    params: &P,
) -> Result<Rows, EvalError>
    requires rows { AreRows rows.now }
    requires lists { AreAllRows (rows_of (O.named outer.now) lists.now) }
    requires empty { AreLists [] empty.now }
    requires kept { IsTrue (is_kept transform.now) }
    requires folds { MayFold rows.now (transform.now ∷ []) }
    ensures read { GivesRows result
        (transformed (P.values params.now) (scope_by (O.named outer.now) lists.now) transform.now (map datum_of rows.now)) }
    ensures rows { IfOk result AreRows }
{
    match lookup_in(transform) {
        Some(l) => Ok(looked_up(alloc, outer, lists, rows, l)?),
        None => transformed(alloc, &[], empty, transform, rows, params),
    }
}

// No rows.
#[tactic(auto, using(crate::proofs::RowLemmas::none_are_rows))]
fn no_rows(alloc: Global) -> Rows
    ensures none { result ≡ [] }
    ensures rows { AreRows result }
{
    Seq::new(alloc)
}

// The rows that a transform leaves: none where it overflows.
pub(crate) fn rows_left<O: ListReader, P: ParamReader>(
    alloc: Global,
    outer: &O,
    lists: &BTreeMap<String, Rows>,
    empty: &Lists,
    transform: &Transform,
    rows: &Rows,
    params: &P,
) -> Result<Rows, OutOfMemory>
    requires rows { AreRows rows.now }
    requires lists { AreAllRows (rows_of (O.named outer.now) lists.now) }
    requires empty { AreLists [] empty.now }
    requires kept { IsTrue (is_kept transform.now) }
    requires folds { MayFold rows.now (transform.now ∷ []) }
    ensures read { IfOk result (λ out. map datum_of out
        ≡ rows_left (P.values params.now) (scope_by (O.named outer.now) lists.now) transform.now (map datum_of rows.now)) }
    ensures rows { IfOk result AreRows }
{
    match next_rows(alloc, outer, lists, empty, transform, rows, params) {
        Ok(rows) => Ok(rows),
        Err(EvalError::Overflow) => Ok(no_rows(alloc)),
        Err(EvalError::Memory) => Err(OutOfMemory),
    }
}
