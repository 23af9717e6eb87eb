// Rows as they are sorted: by cells, and then by place.
ghost use Rattle.std.specs.Cmp.{eq_by_cmp_equiv, partial_equiv_from_equiv, partial_order_from_total};
ghost use Rattle.std.specs.Ordering.{eq_by_cmp, as_partial_cmp};
ghost use Rattle.std.specs.Prelude.{◌≡◌, ◌≤◌, refl, map, drop, IfOk};
ghost use Rattle.cell_value.specs.State.{greatest_id};
ghost use Rattle.cell_value.specs.Datum.{cell_at};
ghost use Rattle.plain_rows.specs.Rows.{AreRows};
ghost use Rattle.plain_orders.specs.Orders.{in_order};
ghost use Rattle.plain_orders.specs.inner.Entries.{falls, sort_cell_cmp, sort_cell_cmp_total, entry_cmp, entry_cmp_total, sort_cell};
ghost use Rattle.plain_orders.specs.inner.Entries.{sort_cells, first_cell, entry_of, entries_from};

use cell_value::{Cell, Keyed};
use plain_rows::{SortBy, cell_of};
use std::alloc::Global;
use std::cmp::Ordering;
use text_kit::{OutOfMemory, Seq};

/// A cell by which rows are sorted.
#[derive(Debug, Drop)]
pub(crate) enum SortCell {
    /// Where the least stands first.
    Rising(Cell),
    /// Where the greatest stands first.
    Falling(Cell),
}

impl SortCell {
    // Whether the greatest stands first.
    fn falls(&self) -> bool
        ensures { result ≡ falls self.now }
    {
        match self {
            SortCell::Rising(_) => false,
            SortCell::Falling(_) => true,
        }
    }
}

impl PartialEq for SortCell {
    ghost eq = { eq_by_cmp sort_cell_cmp };

    ghost laws = { partial_equiv_from_equiv (eq_by_cmp_equiv sort_cell_cmp_total) };

    fn eq(&self, o: &SortCell) -> bool {
        self.cmp(o).is_eq()
    }
}

impl Eq for SortCell {
    ghost laws = { eq_by_cmp_equiv sort_cell_cmp_total };
}

impl PartialOrd for SortCell {
    ghost partial_cmp = { as_partial_cmp sort_cell_cmp };

    ghost laws = { partial_order_from_total sort_cell_cmp_total };

    fn partial_cmp(&self, o: &SortCell) -> Option<Ordering> {
        Some(self.cmp(o))
    }
}

impl Ord for SortCell {
    ghost cmp = { sort_cell_cmp };

    ghost total = { sort_cell_cmp_total };

    ghost matches_partial_cmp = { λ a b. refl };

    ghost matches_eq = { λ a b. refl };

    fn cmp(&self, o: &SortCell) -> Ordering {
        match (self, o) {
            (SortCell::Rising(a), SortCell::Rising(b)) => a.order(b),
            (SortCell::Falling(a), SortCell::Falling(b)) => b.order(a),
            _ => self.falls().cmp(&o.falls()),
        }
    }
}

/// A row as it is sorted.
#[derive(Debug, Drop)]
pub(crate) struct Entry {
    /// The cell of the first field by which rows are sorted.
    pub first: SortCell,
    /// That of the second.
    pub second: SortCell,
    /// Those of the others.
    pub others: Seq<SortCell>,
    /// The place of the row.
    pub place: usize,
}

impl PartialEq for Entry {
    ghost eq = { eq_by_cmp entry_cmp };

    ghost laws = { partial_equiv_from_equiv (eq_by_cmp_equiv entry_cmp_total) };

    fn eq(&self, o: &Entry) -> bool {
        self.cmp(o).is_eq()
    }
}

impl Eq for Entry {
    ghost laws = { eq_by_cmp_equiv entry_cmp_total };
}

impl PartialOrd for Entry {
    ghost partial_cmp = { as_partial_cmp entry_cmp };

    ghost laws = { partial_order_from_total entry_cmp_total };

    fn partial_cmp(&self, o: &Entry) -> Option<Ordering> {
        Some(self.cmp(o))
    }
}

impl Ord for Entry {
    ghost cmp = { entry_cmp };

    ghost total = { entry_cmp_total };

    ghost matches_partial_cmp = { λ a b. refl };

    ghost matches_eq = { λ a b. refl };

    fn cmp(&self, o: &Entry) -> Ordering {
        self.first
            .cmp(&o.first)
            .then(self.second.cmp(&o.second))
            .then(self.others.as_slice().cmp(o.others.as_slice()))
            .then(self.place.cmp(&o.place))
    }
}

// The cell by which rows are sorted.
fn sort_cell(by: &SortBy, cell: Cell) -> SortCell
    ensures { result ≡ sort_cell by.now cell }
{
    if by.descending {
        SortCell::Falling(cell)
    } else {
        SortCell::Rising(cell)
    }
}

// The cells of a row by which rows are sorted.
fn sort_cells(alloc: Global, row: &Keyed, sort: &[SortBy]) -> Result<Seq<SortCell>, OutOfMemory>
    requires { row.now.key.id ≤ greatest_id }
    ensures { IfOk result (λ cells. cells ≡ sort_cells sort.now (cell_at row.now)) }
{
    let mut cells = Seq::with_capacity(alloc, sort.len())?;
    for by in sort {
        cells.push(sort_cell(by, cell_of(row, by.field.as_str())?))?;
    }
    Ok(cells)
}

// The cell of the first field of an order; without one the same for all rows.
fn first_cell(row: &Keyed, sort: &[SortBy]) -> Result<SortCell, OutOfMemory>
    requires { row.now.key.id ≤ greatest_id }
    ensures { IfOk result (λ cell. cell ≡ first_cell sort.now (cell_at row.now)) }
{
    match sort {
        [] => Ok(SortCell::Rising(Cell::Null)),
        [by, ..] => Ok(sort_cell(by, cell_of(row, by.field.as_str())?)),
    }
}

// The fields of an order behind the first.
fn behind_first(sort: &[SortBy]) -> &[SortBy]
    ensures { result.now ≡ drop 1 sort.now }
{
    match sort {
        [] => &[],
        [_, others @ ..] => others,
    }
}

/// A row at a place as it is sorted.
pub(crate) fn entry_of(
    alloc: Global,
    row: &Keyed,
    place: usize,
    sort: &[SortBy],
) -> Result<Entry, OutOfMemory>
    requires { row.now.key.id ≤ greatest_id }
    ensures { IfOk result (λ entry. entry ≡ entry_of sort.now place (cell_at row.now)) }
{
    let behind = behind_first(sort);
    let first = first_cell(row, sort)?;
    let second = first_cell(row, behind)?;
    Ok(Entry {
        first,
        second,
        others: sort_cells(alloc, row, behind_first(behind))?,
        place,
    })
}

// The rows as they are sorted.
fn entries(alloc: Global, rows: &[Keyed], sort: &[SortBy]) -> Result<Vec<Entry>, OutOfMemory>
    requires { AreRows rows.now }
    ensures { IfOk result (λ entries. entries.items ≡ entries_from sort.now 0 rows.now) }
{
    let mut entries = Vec::with_capacity(alloc, rows.len())?;
    for (place, row) in rows.iter().enumerate() {
        entries.push(entry_of(alloc, row, place, sort)?)?;
    }
    Ok(entries)
}

/// The entries in order.
pub(crate) fn sorted(entries: Vec<Entry>) -> Vec<Entry>
    ensures { result.items ≡ in_order entry_cmp entries.items }
{
    let mut entries = entries;
    entries.sort_unstable();
    entries
}

/// The places of entries.
pub(crate) fn places(alloc: Global, entries: &[Entry]) -> Result<Seq<usize>, OutOfMemory>
    ensures { IfOk result (λ places. places ≡ map (λ (entry : Entry). entry.place) entries.now) }
{
    let mut places = Seq::with_capacity(alloc, entries.len())?;
    for entry in entries {
        places.push(entry.place)?;
    }
    Ok(places)
}

/// The places of the rows in order.
pub(crate) fn ordered(
    alloc: Global,
    rows: &[Keyed],
    sort: &[SortBy],
) -> Result<Seq<usize>, OutOfMemory>
    requires { AreRows rows.now }
    ensures { IfOk result (λ places. places ≡ map (λ (entry : Entry). entry.place)
        (in_order entry_cmp (entries_from sort.now 0 rows.now))) }
{
    places(alloc, &sorted(entries(alloc, rows, sort)?))
}
