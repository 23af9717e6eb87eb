// The frames of rows in their partitions, by places.
ghost use Rattle.std.specs.Prelude.{◌≡◌, ◌+◌, ◌-◌, ◌<◌, ◌≤◌, ◌+ℤ◌, pos, map, length, List, IfOk};
ghost use Rattle.std.specs.Option.{option_map_or};
ghost use Rattle.cell_value.specs.Datum.{Datum, datum_of};
ghost use Rattle.plain_rows.specs.Rows.{AreRows, most_listed};
ghost use Rattle.plain_orders.specs.Partitions.{data_at};
ghost use Rattle.plain_windows.specs.Frames.{cut, frame_at, widened};
ghost use Rattle.plain_windows.specs.inner.Views.{AreListed, part, frame_rows};

use crate::peers::{front, row_at};
use cell_value::Keyed;
use plain_rows::{SortBy, WindowOf};
use text_kit::OutOfMemory;

/// Some of the rows of a partition: those from a place to another, and none where the second isn't behind the first.
#[derive(Clone, Copy, Debug)]
pub(crate) struct Frame {
    /// The place of the first.
    pub from: usize,
    /// The place behind the last.
    pub to: usize,
}

// How many of n rows stand before the place that is `by` from another.
fn cut(n: usize, place: usize, by: i32) -> usize
    requires few { n ≤ most_listed }
    requires within { place ≤ n }
    ensures value { result ≡ cut n (pos place +ℤ by) }
    ensures within { result ≤ n }
{
    let place = place as i64 + i64::from(by);
    if place < 0 { 0 } else { n.min(place as usize) }
}

// Where the frame of the row at a rank begins.
fn first_place(n: usize, rank: usize, before: Option<i32>) -> usize
    requires few { n ≤ most_listed }
    requires within { rank < n }
    ensures value { result ≡ option_map_or (λ b. cut n (pos rank +ℤ b)) before 0 }
    ensures within { result ≤ n }
{
    match before {
        Some(before) => cut(n, rank, before),
        None => 0,
    }
}

// Where the frame of the row at a rank has ended.
fn end_place(n: usize, rank: usize, after: Option<i32>) -> usize
    requires few { n ≤ most_listed }
    requires within { rank < n }
    ensures value { result ≡ option_map_or (λ a. cut n (pos (rank + 1) +ℤ a)) after n }
    ensures within { result ≤ n }
{
    match after {
        Some(after) => cut(n, rank + 1, after),
        None => n,
    }
}

/// The frame of the row at a rank of a partition of n rows.
pub(crate) fn frame_at(n: usize, rank: usize, before: Option<i32>, after: Option<i32>) -> Frame
    requires few { n ≤ most_listed }
    requires within { rank < n }
    ensures frame { (xs : List Datum) → length xs ≡ n → part result xs ≡ frame_at before after xs rank }
    ensures within { result.to ≤ n }
{
    Frame {
        from: first_place(n, rank, before),
        to: end_place(n, rank, after),
    }
}

/// The places of a frame.
pub(crate) fn frame_places(places: &[usize], frame: Frame) -> &[usize]
    requires { frame.to ≤ length places.now }
    ensures { result.now ≡ part frame places.now }
{
    if frame.from < frame.to {
        &places[frame.from..frame.to]
    } else {
        &[]
    }
}

/// The frame from the first peer of its first row to the last peer of its last.
pub(crate) fn widened(
    sort: &[SortBy],
    rows: &[Keyed],
    places: &[usize],
    frame: Frame,
) -> Result<Frame, OutOfMemory>
    requires rows { AreRows rows.now }
    requires listed { AreListed sort.now (map datum_of rows.now) places.now }
    requires within { frame.to ≤ length places.now }
    ensures frame { IfOk result (λ wide. part wide (data_at (map datum_of rows.now) places.now)
        ≡ widened sort.now (data_at (map datum_of rows.now) places.now) (part frame (data_at (map datum_of rows.now) places.now))) }
    ensures within { IfOk result (λ wide. wide.to ≤ length places.now) }
{
    if frame.to <= frame.from {
        return Ok(frame);
    }
    let first = row_at(rows, places, frame.from);
    let last = row_at(rows, places, frame.to - 1);
    Ok(Frame {
        from: front(sort, rows, places, first, false)?,
        to: front(sort, rows, places, last, true)?,
    })
}

/// The frame of the row at a rank of a partition.
pub(crate) fn frame_of(
    w: &WindowOf,
    rows: &[Keyed],
    places: &[usize],
    rank: usize,
) -> Result<Frame, OutOfMemory>
    requires rows { AreRows rows.now }
    requires listed { AreListed w.now.sort (map datum_of rows.now) places.now }
    requires rank { rank < length places.now }
    ensures frame { IfOk result (λ frame. part frame (data_at (map datum_of rows.now) places.now)
        ≡ frame_rows w.now (data_at (map datum_of rows.now) places.now) rank) }
    ensures within { IfOk result (λ frame. frame.to ≤ length places.now) }
{
    let exact = frame_at(places.len(), rank, w.before, w.after);
    if w.ignore_peers {
        Ok(exact)
    } else {
        widened(w.sort.as_slice(), rows, places, exact)
    }
}
