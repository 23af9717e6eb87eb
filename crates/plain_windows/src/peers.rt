// How rows stand as peers.
ghost use Rattle.std.specs.Prelude.{◌≡◌, ◌-◌, ◌<◌, ◌≤◌, map, filter, length, slice_index_or, All, IfOk};
ghost use Rattle.cell_value.specs.State.{greatest_id};
ghost use Rattle.cell_value.specs.Datum.{datum_of};
ghost use Rattle.plain_orders.specs.Orders.{by_field, by_fields, by_key};
ghost use Rattle.plain_orders.specs.Partitions.{datum_at, data_at};
ghost use Rattle.plain_rows.specs.Rows.{AreRows};
ghost use Rattle.plain_windows.specs.Frames.{peer_order};
ghost use Rattle.plain_windows.specs.inner.Views.{AreListed, IsBetween, in_front};

use cell_value::{Key, Keyed};
use plain_rows::{SortBy, cell_of};
use std::cmp::Ordering;
use text_kit::OutOfMemory;

// How two rows stand by the cells of one field.
fn by_field(s: &SortBy, x: &Keyed, y: &Keyed) -> Result<Ordering, OutOfMemory>
    requires x { x.now.key.id ≤ greatest_id }
    requires y { y.now.key.id ≤ greatest_id }
    ensures { IfOk result (λ order. order ≡ by_field s.now (datum_of x.now) (datum_of y.now)) }
{
    let first = cell_of(x, s.field.as_str())?;
    let second = cell_of(y, s.field.as_str())?;
    if s.descending {
        Ok(second.order(&first))
    } else {
        Ok(first.order(&second))
    }
}

// How two rows stand by several fields: the first in which they differ decides.
fn by_fields(sort: &[SortBy], x: &Keyed, y: &Keyed) -> Result<Ordering, OutOfMemory>
    requires x { x.now.key.id ≤ greatest_id }
    requires y { y.now.key.id ≤ greatest_id }
    ensures { IfOk result (λ order. order ≡ by_fields sort.now (datum_of x.now) (datum_of y.now)) }
{
    for s in sort {
        match by_field(s, x, y)? {
            Ordering::Equal => {}
            Ordering::Less => return Ok(Ordering::Less),
            Ordering::Greater => return Ok(Ordering::Greater),
        }
    }
    Ok(Ordering::Equal)
}

// How two keys stand.
fn by_key(x: &Key, y: &Key) -> Ordering
    ensures { result ≡ by_key x.now y.now }
{
    x.id.cmp(&y.id).then(x.branch.cmp(&y.branch))
}

/// How two rows stand as peers, whose ids are at most 10^15: by the fields of the order; without one by their keys.
pub(crate) fn peer_order(sort: &[SortBy], x: &Keyed, y: &Keyed) -> Result<Ordering, OutOfMemory>
    requires x { x.now.key.id ≤ greatest_id }
    requires y { y.now.key.id ≤ greatest_id }
    ensures { IfOk result (λ order. order ≡ peer_order sort.now (datum_of x.now) (datum_of y.now)) }
{
    match sort {
        [] => Ok(by_key(&x.key, &y.key)),
        [_, ..] => by_fields(sort, x, y),
    }
}

/// The row at a place.
pub(crate) fn row_in(rows: &[Keyed], place: usize) -> &Keyed
    requires rows { AreRows rows.now }
    requires within { place < length rows.now }
    ensures row { datum_of result.now ≡ datum_at (map datum_of rows.now) place }
    ensures id { result.now.key.id ≤ greatest_id }
{
    &rows[place]
}

/// The row at a place of a list of places.
pub(crate) fn row_at<'a>(rows: &'a [Keyed], places: &[usize], at: usize) -> &'a Keyed
    requires rows { AreRows rows.now }
    requires within { All (λ place. place < length rows.now) places.now }
    requires inside { at < length places.now }
    ensures row { datum_of result.now ≡ datum_at (map datum_of rows.now) (slice_index_or places.now at 0) }
    ensures id { result.now.key.id ≤ greatest_id }
{
    row_in(rows, places[at])
}

// Whether a row stands below another, or through its peers.
fn in_front(sort: &[SortBy], through: bool, x: &Keyed, row: &Keyed) -> Result<bool, OutOfMemory>
    requires x { x.now.key.id ≤ greatest_id }
    requires row { row.now.key.id ≤ greatest_id }
    ensures { IfOk result (λ found. found ≡ in_front sort.now through (datum_of x.now) (datum_of row.now)) }
{
    if through {
        Ok(!peer_order(sort, x, row)?.is_lt())
    } else {
        Ok(peer_order(sort, row, x)?.is_lt())
    }
}

// Two places between which the front of a list ends, nearer to each other.
fn nearer(
    sort: &[SortBy],
    rows: &[Keyed],
    places: &[usize],
    x: &Keyed,
    through: bool,
    between: (usize, usize),
) -> Result<(usize, usize), OutOfMemory>
    requires rows { AreRows rows.now }
    requires listed { AreListed sort.now (map datum_of rows.now) places.now }
    requires x { x.now.key.id ≤ greatest_id }
    requires apart { between.0 < between.1 }
    requires between { IsBetween between.0
        (length (filter (in_front sort.now through (datum_of x.now)) (data_at (map datum_of rows.now) places.now))) between.1
        (length places.now) }
    ensures between { IfOk result (λ found. IsBetween found.0
        (length (filter (in_front sort.now through (datum_of x.now)) (data_at (map datum_of rows.now) places.now))) found.1
        (length places.now)) }
    ensures nearer { IfOk result (λ found. found.1 - found.0 < between.1 - between.0) }
{
    let middle = between.0 + (between.1 - between.0) / 2;
    if in_front(sort, through, x, row_at(rows, places, middle))? {
        Ok((middle + 1, between.1))
    } else {
        Ok((between.0, middle))
    }
}

/// How many of the rows at places stand below a row, or through its peers.
pub(crate) fn front(
    sort: &[SortBy],
    rows: &[Keyed],
    places: &[usize],
    x: &Keyed,
    through: bool,
) -> Result<usize, OutOfMemory>
    requires rows { AreRows rows.now }
    requires listed { AreListed sort.now (map datum_of rows.now) places.now }
    requires x { x.now.key.id ≤ greatest_id }
    ensures value { IfOk result (λ n.
        n ≡ length (filter (in_front sort.now through (datum_of x.now)) (data_at (map datum_of rows.now) places.now))) }
    ensures within { IfOk result (λ n. n ≤ length places.now) }
{
    let mut low = 0;
    let mut high = places.len();
    while low < high {
        let found = nearer(sort, rows, places, x, through, (low, high))?;
        low = found.0;
        high = found.1;
    }
    Ok(low)
}
