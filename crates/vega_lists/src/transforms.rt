// What a transform makes of rows.
ghost use Rattle.std.specs.Prelude.{◌≡◌, ◌∷◌, [], ℕ, ◌*◌, ◌≤◌, pos, int_lt, true, IsTrue, IfOk, map, length, unwrap_or, option_copied};
ghost use Rattle.std.specs.Option.{option_map_or};
ghost use Rattle.cell_value.specs.Datum.{datum_of};
ghost use Rattle.plain_rows.specs.Rows.{AreRows, keys_of};
ghost use Rattle.plain_rows.specs.Answers.{GivesRows};
ghost use Rattle.plain_rows.specs.Folds.{data_folded};
ghost use Rattle.plain_rows.specs.Lookups.{data_looked_up};
ghost use Rattle.plain_rows.specs.TimeUnits.{data_in_time_units};
ghost use Rattle.plain_bins.specs.Binned.{data_binned};
ghost use Rattle.plain_groups.specs.GroupRows.{data_aggregated, data_join_aggregated};
ghost use Rattle.plain_stacks.specs.Stacks.{data_stacked};
ghost use Rattle.plain_windows.specs.Windows.{data_windowed};
ghost use Rattle.vega_lists.specs.Operations.{group_settings, window_settings};
ghost use Rattle.vega_lists.specs.Settings.{bin_settings, stack_settings, lookup_settings, fold_settings, unit_settings};
ghost use Rattle.vega_lists.specs.Products.{KeysFit, most_folded};
ghost use Rattle.vega_lists.specs.Transforms.{is_kept, binned, transformed};
ghost use Rattle.vega_lists.specs.Held.{scope_in, AreLists, MayFold};

use crate::Lists;
use crate::operations::{group_settings, window_settings};
use crate::settings::{
    bin_settings, extent_in, fold_settings, lookup_settings, stack_settings, unit_settings,
};
use cell_value::{Named, Rows};
use expr_eval::{EvalError, ParamReader};
use fixed_num::Num;
use plain_bins::bin;
use plain_groups::{aggregate, join_aggregate};
use plain_rows::{LookupOf, calculate, filter, fold, lookup, time_unit};
use plain_stacks::stack;
use plain_windows::window;
use std::alloc::Global;
use text_kit::{OutOfMemory, Seq, copy_list};
use vega_spec::{Aggregate, Bin, Fold, Lookup, Stack, TimeUnit, Transform, Window};

// The rows with the bins of a field, which take in these numbers.
fn binned_over(
    alloc: Global,
    rows: &Rows,
    b: &Bin,
    taken: Option<(Num, Num)>,
) -> Result<Rows, EvalError>
    requires rows { AreRows rows.now }
    requires step { IsTrue (option_map_or (int_lt (pos 0)) b.now.step true) }
    ensures read { GivesRows result (data_binned (bin_settings taken b.now) (map datum_of rows.now)) }
    ensures rows { IfOk result AreRows }
{
    let how = bin_settings(alloc, b, taken)?;
    bin(alloc, rows, &how)
}

// The rows with the bins of a field.
fn binned<P: ParamReader>(
    alloc: Global,
    rows: &Rows,
    b: &Bin,
    params: &P,
) -> Result<Rows, EvalError>
    requires rows { AreRows rows.now }
    requires step { IsTrue (option_map_or (int_lt (pos 0)) b.now.step true) }
    ensures read { GivesRows result (binned (P.values params.now) b.now (map datum_of rows.now)) }
    ensures rows { IfOk result AreRows }
{
    match extent_in(alloc, &b.extent, params) {
        Ok(taken) => binned_over(alloc, rows, b, taken),
        Err(error) => Err(error),
    }
}

// The rows of groups.
fn aggregated(alloc: Global, rows: &Rows, a: &Aggregate) -> Result<Rows, EvalError>
    requires { AreRows rows.now }
    ensures read { GivesRows result (data_aggregated (group_settings a.now) (map datum_of rows.now)) }
    ensures rows { IfOk result AreRows }
{
    let how = group_settings(alloc, a)?;
    aggregate(alloc, rows, &how)
}

// The rows with what is computed of their groups.
fn join_aggregated(alloc: Global, rows: &Rows, a: &Aggregate) -> Result<Rows, EvalError>
    requires { AreRows rows.now }
    ensures read { GivesRows result (data_join_aggregated (group_settings a.now) (map datum_of rows.now)) }
    ensures rows { IfOk result AreRows }
{
    let how = group_settings(alloc, a)?;
    join_aggregate(alloc, rows, &how)
}

// The rows with where their values begin and end in stacks.
fn stacked(alloc: Global, rows: &Rows, s: &Stack) -> Result<Rows, EvalError>
    requires { AreRows rows.now }
    ensures read { GivesRows result (data_stacked (stack_settings s.now) (map datum_of rows.now)) }
    ensures rows { IfOk result AreRows }
{
    let how = stack_settings(alloc, s)?;
    stack(alloc, rows, &how)
}

// The rows with what is computed of their neighbours.
fn windowed(alloc: Global, rows: &Rows, w: &Window) -> Result<Rows, EvalError>
    requires { AreRows rows.now }
    ensures read { GivesRows result (data_windowed (window_settings w.now) (map datum_of rows.now)) }
    ensures rows { IfOk result AreRows }
{
    let how = window_settings(alloc, w)?;
    window(alloc, rows, &how)
}

// The rows with the time units of a field.
fn in_time_units(alloc: Global, rows: &Rows, t: &TimeUnit) -> Result<Rows, OutOfMemory>
    requires { AreRows rows.now }
    ensures read { IfOk result (λ out. map datum_of out ≡ data_in_time_units (unit_settings t.now) (map datum_of rows.now)) }
    ensures rows { IfOk result AreRows }
{
    let how = unit_settings(alloc, t)?;
    time_unit(alloc, rows, &how)
}

// The rows of a fold.
fn folded(alloc: Global, rows: &Rows, f: &Fold) -> Result<Rows, OutOfMemory>
    requires rows { AreRows rows.now }
    requires folds { (product : ℕ) × KeysFit product (keys_of rows.now) × (product * length f.now.fields ≤ most_folded) }
    ensures read { IfOk result (λ out. map datum_of out ≡ data_folded (fold_settings f.now) (map datum_of rows.now)) }
    ensures rows { IfOk result AreRows }
{
    let how = fold_settings(alloc, f)?;
    fold(alloc, rows, &how)
}

/// The rows with cells of the rows of a list, if there is one: of each the last that has its key, as `lookup` of `plain_rows` gives them.
/// The keys of either rows rise, their ids are at most 10^15, and there are at most 1,600,000 of them; so it is of those that come out.
pub fn looked_up_in(
    alloc: Global,
    rows: &Rows,
    other: Option<&Rows>,
    how: &LookupOf,
) -> Result<Rows, OutOfMemory>
    requires rows { AreRows rows.now }
    requires other { AreRows (unwrap_or (option_copied other) []) }
    requires outs { length how.now.outs ≡ length how.now.fields }
    ensures read { IfOk result (λ out. map datum_of out
        ≡ data_looked_up how.now (map datum_of (unwrap_or (option_copied other.entry) [])) (map datum_of rows.now)) }
    ensures rows { IfOk result AreRows }
{
    match other {
        Some(other) => lookup(alloc, rows, other, how),
        None => lookup(alloc, rows, &Seq::new(alloc), how),
    }
}

// The rows with cells of the rows of the list that a name stands for.
fn looked_up(
    alloc: Global,
    sources: &[Named],
    lists: &Lists,
    rows: &Rows,
    l: &Lookup,
) -> Result<Rows, OutOfMemory>
    requires rows { AreRows rows.now }
    requires lists { AreLists sources.now lists.now }
    requires names { length (lookup_settings l.now).outs ≡ length l.now.values }
    ensures read { IfOk result (λ out. map datum_of out
        ≡ data_looked_up (lookup_settings l.now) (scope_in sources.now lists.now l.now.from) (map datum_of rows.now)) }
    ensures rows { IfOk result AreRows }
{
    let how = lookup_settings(alloc, l)?;
    let other = lists.find(sources, l.from.as_str());
    looked_up_in(alloc, rows, other, &how)
}

/// The rows that a transform makes of rows, where names stand for lists. `Overflow` comes exactly where an expression overflows at one of
/// the rows, the width or an end of bins over a field with a number is out of range, or the sum of a group or a frame or a total of a stack
/// is. A lookup has as many names as values, and a given width of bins is over 0. What is asked of the rows, of the lists and of what comes
/// out: their keys rise, their ids are at most 10^15, and there are at most 1,600,000 of them; a fold's rows are those of a path whose
/// product is at most 8.
pub fn transformed<P: ParamReader>(
    alloc: Global,
    sources: &[Named],
    lists: &Lists,
    transform: &Transform,
    rows: &Rows,
    params: &P,
) -> Result<Rows, EvalError>
    requires rows { AreRows rows.now }
    requires lists { AreLists sources.now lists.now }
    requires kept { IsTrue (is_kept transform.now) }
    requires folds { MayFold rows.now (transform.now ∷ []) }
    ensures read { GivesRows result
        (transformed (P.values params.now) (scope_in sources.now lists.now) transform.now (map datum_of rows.now)) }
    ensures rows { IfOk result AreRows }
{
    match transform {
        Transform::Filter(f) => filter(alloc, rows, &f.expr, params),
        Transform::Formula(f) => calculate(alloc, rows, &f.expr, f.as_.as_str(), params),
        Transform::Extent(_) => Ok(copy_list(alloc, rows.as_slice())?),
        Transform::Bin(b) => binned(alloc, rows, b, params),
        Transform::TimeUnit(t) => Ok(in_time_units(alloc, rows, t)?),
        Transform::Aggregate(a) => aggregated(alloc, rows, a),
        Transform::JoinAggregate(a) => join_aggregated(alloc, rows, a),
        Transform::Stack(s) => stacked(alloc, rows, s),
        Transform::Window(w) => windowed(alloc, rows, w),
        Transform::Lookup(l) => Ok(looked_up(alloc, sources, lists, rows, l)?),
        Transform::Fold(f) => Ok(folded(alloc, rows, f)?),
    }
}
