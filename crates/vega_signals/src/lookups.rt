// Lookups in the rows of data sets.
ghost use Rattle.std.specs.Prelude.{◌≡◌, IfOk, map, length, option_copied};
ghost use Rattle.cell_value.specs.Datum.{datum_of};
ghost use Rattle.plain_rows.specs.Rows.{AreRows};
ghost use Rattle.plain_rows.specs.Lookups.{data_looked_up};
ghost use Rattle.vega_lists.specs.Settings.{lookup_settings};
ghost use Rattle.vega_lists.specs.Held.{AreAllRows};
ghost use Rattle.vega_signals.specs.inner.Rows.{rows_of, scope_by, lookup_in};

use crate::lists::{outer_rows, own_rows};
use cell_value::Rows;
use plain_rows::lookup;
use std::alloc::Global;
use std::collections::BTreeMap;
use text_kit::OutOfMemory;
use vega_lists::{ListReader, lookup_settings};
use vega_spec::{Lookup, Transform};

// The lookup that a transform is.
pub(crate) fn lookup_in(transform: &Transform) -> Option<&Lookup>
    ensures { option_copied result ≡ lookup_in transform.now }
{
    match transform {
        Transform::Lookup(l) => Some(l),
        Transform::Filter(_)
        | Transform::Formula(_)
        | Transform::Extent(_)
        | Transform::Bin(_)
        | Transform::TimeUnit(_)
        | Transform::Aggregate(_)
        | Transform::JoinAggregate(_)
        | Transform::Stack(_)
        | Transform::Window(_)
        | Transform::Fold(_) => None,
    }
}

// The rows with cells of other rows.
fn looked_up_over(alloc: Global, rows: &Rows, other: &Rows, l: &Lookup) -> Result<Rows, OutOfMemory>
    requires rows { AreRows rows.now }
    requires other { AreRows other.now }
    requires names { length (lookup_settings l.now).outs ≡ length l.now.values }
    ensures read { IfOk result (λ out. map datum_of out
        ≡ data_looked_up (lookup_settings l.now) (map datum_of other.now) (map datum_of rows.now)) }
    ensures rows { IfOk result AreRows }
{
    let how = lookup_settings(alloc, l)?;
    lookup(alloc, rows, other, &how)
}

// The rows with cells of the rows for which a name stands round the object.
fn looked_up_outside<O: ListReader>(
    alloc: Global,
    outer: &O,
    name: &str,
    rows: &Rows,
    l: &Lookup,
) -> Result<Rows, OutOfMemory>
    requires rows { AreRows rows.now }
    requires other { AreRows (O.named outer.now name.now) }
    requires names { length (lookup_settings l.now).outs ≡ length l.now.values }
    ensures read { IfOk result (λ out. map datum_of out
        ≡ data_looked_up (lookup_settings l.now) (map datum_of (O.named outer.now name.now)) (map datum_of rows.now)) }
    ensures rows { IfOk result AreRows }
{
    let other = outer_rows(alloc, outer, name)?;
    looked_up_over(alloc, rows, &other, l)
}

// The rows with cells of the rows for which a name stands.
pub(crate) fn looked_up<O: ListReader>(
    alloc: Global,
    outer: &O,
    lists: &BTreeMap<String, Rows>,
    rows: &Rows,
    l: &Lookup,
) -> Result<Rows, OutOfMemory>
    requires rows { AreRows rows.now }
    requires lists { AreAllRows (rows_of (O.named outer.now) lists.now) }
    requires names { length (lookup_settings l.now).outs ≡ length l.now.values }
    ensures read { IfOk result (λ out. map datum_of out
        ≡ data_looked_up (lookup_settings l.now) (scope_by (O.named outer.now) lists.now l.now.from) (map datum_of rows.now)) }
    ensures rows { IfOk result AreRows }
{
    let name = l.from.as_str();
    match own_rows(lists, name) {
        Some(other) => looked_up_over(alloc, rows, other, l),
        None => looked_up_outside(alloc, outer, name, rows, l),
    }
}
