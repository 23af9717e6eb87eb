// The order of the rows of a mark.
ghost use Rattle.std.specs.Prelude.{◌≡◌, ◌<◌, ◌≤◌, Some, [], ◌∷◌, ◌++◌, map, length, option_copied, All, IfOk, OnOk};
ghost use Rattle.cell_value.specs.Datum.{datum_of};
ghost use Rattle.cell_value.specs.State.{greatest_id};
ghost use Rattle.plain_rows.specs.Rows.{AreRows};
ghost use Rattle.plain_orders.specs.Orders.{row_order, in_order};
ghost use Rattle.plain_orders.specs.Listed.{AreListed};
ghost use Rattle.plain_orders.specs.Partitions.{datum_at, data_at};
ghost use Rattle.mark_encode.specs.Orders.{fields_in, directions_in, descends, setting_of, sort_settings, rows_in_order, data_of, HaveIds, ReadAs};

use cell_value::Keyed;
use plain_orders::places_in_order;
use plain_rows::SortBy;
use std::alloc::Global;
use text_kit::{OutOfMemory, Seq, Text};
use vega_spec::{Order, Orders, Sort, Texts};

// The fields of a sort.
fn fields_in(fields: &Texts) -> &[Text]
    ensures { result.now ≡ fields_in fields.now }
{
    match fields {
        Texts::One(field) => std::slice::from_ref(field),
        Texts::Several(fields) => fields.as_slice(),
    }
}

// The directions that a sort gives.
fn directions_in(order: &Option<Orders>) -> &[Order]
    ensures { result.now ≡ directions_in order.now }
{
    match order {
        Some(Orders::One(direction)) => std::slice::from_ref(direction),
        Some(Orders::Several(directions)) => directions.as_slice(),
        None => &[],
    }
}

// Whether a direction is the descending one.
fn descends(direction: Option<&Order>) -> bool
    ensures { result ≡ descends (option_copied direction.entry) }
{
    match direction {
        Some(Order::Descending) => true,
        Some(Order::Ascending) => false,
        None => false,
    }
}

// A field with its direction, which stands at the same place.
fn setting_of(directions: &[Order], place: usize, field: &Text) -> Result<SortBy, OutOfMemory>
    ensures { IfOk result (λ setting. setting ≡ setting_of directions.now (place, field.now)) }
{
    Ok(SortBy {
        field: field.copy()?,
        descending: descends(directions.get(place)),
    })
}

/// The fields of a sort, each with its direction.
pub fn sort_settings(alloc: Global, sort: &Sort) -> Result<Seq<SortBy>, OutOfMemory>
    ensures { IfOk result (λ settings. settings ≡ sort_settings sort.now) }
{
    let fields = fields_in(&sort.field);
    let directions = directions_in(&sort.order);
    let mut settings = Seq::with_capacity(alloc, fields.len())?;
    for (place, field) in fields.iter().enumerate() {
        settings.push(setting_of(directions, place, field)?)?;
    }
    Ok(settings)
}

// Adds a row at the end.
fn push_row<'a>(found: &mut Seq<&'a Keyed>, row: &'a Keyed) -> Result<(), OutOfMemory>
    requires { row.now.key.id ≤ greatest_id }
    ensures reads { OnOk result (data_of found.new ≡ data_of found.old ++ datum_of row.now ∷ []) }
    ensures ids { OnOk result (HaveIds found.old → HaveIds found.new) }
{
    found.push(row)
}

/// All rows, as they stand.
pub fn all_rows(alloc: Global, rows: &[Keyed]) -> Result<Seq<&Keyed>, OutOfMemory>
    requires { AreRows rows.now }
    ensures { IfOk result (λ found. ReadAs found (map datum_of rows.now)) }
{
    let mut found = Seq::with_capacity(alloc, rows.len())?;
    for row in rows {
        push_row(&mut found, row)?;
    }
    Ok(found)
}

// The row at a place.
fn row_at<'a>(rows: &[&'a Keyed], place: usize) -> &'a Keyed
    requires rows { HaveIds rows.now }
    requires place { place < length rows.now }
    ensures reads { datum_of result.now ≡ datum_at (data_of rows.now) place }
    ensures id { result.now.key.id ≤ greatest_id }
{
    rows[place]
}

// The rows at places.
fn rows_at<'a>(
    alloc: Global,
    rows: &[&'a Keyed],
    places: &[usize],
) -> Result<Seq<&'a Keyed>, OutOfMemory>
    requires rows { HaveIds rows.now }
    requires places { All (λ place. place < length rows.now) places.now }
    ensures { IfOk result (λ found. ReadAs found (data_at (data_of rows.now) places.now)) }
{
    let mut found = Seq::with_capacity(alloc, places.len())?;
    for place in places {
        push_row(&mut found, row_at(rows, *place))?;
    }
    Ok(found)
}

// The rows in the order of settings, with ties by key.
fn sorted_rows<'a>(
    alloc: Global,
    rows: &[&'a Keyed],
    settings: &[SortBy],
) -> Result<Seq<&'a Keyed>, OutOfMemory>
    requires { AreListed (data_of rows.now) }
    ensures { IfOk result (λ found. ReadAs found (in_order (row_order settings.now) (data_of rows.now))) }
{
    let places = places_in_order(alloc, rows, settings)?;
    rows_at(alloc, rows, places.as_slice())
}

/// The rows of a mark by its sort, with ties by key.
pub fn rows_by_sort<'a>(
    alloc: Global,
    rows: &[&'a Keyed],
    sort: &Sort,
) -> Result<Seq<&'a Keyed>, OutOfMemory>
    requires { AreListed (data_of rows.now) }
    ensures { IfOk result (λ found. ReadAs found (rows_in_order (Some sort.now) (data_of rows.now))) }
{
    let settings = sort_settings(alloc, sort)?;
    sorted_rows(alloc, rows, settings.as_slice())
}
