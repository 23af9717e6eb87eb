// The copies of a group by its facet.
ghost use Rattle.std.specs.Prelude.{◌≡◌, ◌∷◌, ◌++◌, [], None, IfOk, OnOk, map, flat_map, zip, min, length, slice_get, option_copied, unwrap_or, if◌then◌else◌};
ghost use Rattle.std.specs.Option.{option_map};
ghost use Rattle.std.specs.List.{enumerate_from};
ghost use Rattle.plain_facets.specs.Facets.{part_of, cells_of_fields, cells_of_copies, cells_with_rows, count_without_rows, AreDifferent};
ghost use Rattle.plain_facets.specs.Rows.{data_of, HaveIds};
ghost use Rattle.vega_spec.specs.declared.spec.VgMark.{out-VgMark};
ghost use Rattle.vega_lists.specs.Orders.{sort_settings};
ghost use Rattle.vega_copies.specs.Facets.{crosses, divided_by, rows_divided, second_of_two, copy_with, only_copy, copies_by, across_by};
ghost use Rattle.vega_copies.specs.Outlines.{facet_in};
ghost use Rattle.vega_copies.specs.inner.Levels.{rows_behind, AreNames};
ghost use Rattle.vega_copies.specs.inner.Copied.{across_with_facet, copies_with_facet, copy_seen, copy_at, named_cell, part_at, parts_at};
ghost use Rattle.vega_copies.specs.inner.Copied.{parts_read, rows_named, scope_at};
ghost use Rattle.vega_copies.specs.inner.Counted.{most_counted, with_rows_by, without_rows_by, rows_with_facet, bare_with_facet, bare_named};
ghost use Rattle.vega_copies.specs.inner.Counted.{parts_of_bare, bare_copy};

use crate::names::NamesAt;
use cell_value::{Cell, Keyed, Named, Rows};
use plain_facets::{
    CellsCounted, DividedBy, cells_of_copies, cells_of_fields, choices, count_cells, parts_of,
};
use plain_rows::SortBy;
use std::alloc::Global;
use text_kit::{OutOfMemory, Seq, Text, copy_list};
use vega_lists::{ListReader, sort_settings, texts_in};
use vega_spec::{Facet, MarkFrom, Sort, VgMark};

/// A copy of a group.
#[derive(Drop)]
pub struct CopyOf {
    /// The fields of its facet with their cells; None where the group has no facet.
    pub cells: Option<Seq<(Text, Cell)>>,
    /// The lists of which each has the rows with these cells, by their names in the copy.
    pub parts: Seq<Named>,
}

/// The copies of a group.
#[derive(Drop)]
pub struct CopiesOf {
    /// The copies, in their order.
    pub copies: Seq<CopyOf>,
    /// How many stand side by side, where the facet crosses two fields.
    pub across: Option<u64>,
}

/// The facet of a group, if it has one.
pub fn facet_in(mark: &VgMark) -> Option<&Facet>
    ensures { option_copied result ≡ facet_in (out-VgMark mark.now).from }
{
    match &mark.from {
        Some(MarkFrom::Facet(facet)) => Some(facet),
        Some(MarkFrom::Data(_)) | None => None,
    }
}

// Whether there is a copy for every choice of cells.
fn crosses(facet: &Facet) -> bool
    ensures { result ≡ crosses facet.now }
{
    match &facet.aggregate {
        Some(aggregate) => aggregate.cross.unwrap_or(false),
        None => false,
    }
}

// The order of the cells of a facet, if its group has one.
fn order_of(alloc: Global, sort: &Option<Sort>) -> Result<Option<Seq<SortBy>>, OutOfMemory>
    ensures { IfOk result (λ order. order ≡ option_map sort_settings sort.now) }
{
    match sort {
        Some(sort) => Ok(Some(sort_settings(alloc, sort)?)),
        None => Ok(None),
    }
}

// How a facet divides rows.
fn divided_by(alloc: Global, sort: &Option<Sort>, facet: &Facet) -> Result<DividedBy, OutOfMemory>
    ensures { IfOk result (λ d. d ≡ divided_by sort.now facet.now) }
{
    Ok(DividedBy {
        fields: copy_list(alloc, facet.groupby.as_slice())?,
        sort: order_of(alloc, sort)?,
        crosses: crosses(facet),
    })
}

// The rows for which a name stands.
fn rows_listed<'a>(
    alloc: Global,
    names: &'a NamesAt<'a>,
    list: &Text,
) -> Result<Seq<&'a Keyed>, OutOfMemory>
    requires names { AreNames names.now }
    ensures read { IfOk result (λ rows. data_of rows ≡ scope_at names.now list.now) }
    ensures ids { IfOk result HaveIds }
{
    Ok(names.rows(alloc, list.as_str())?)
}

// Adds the rows for which a name stands.
fn push_listed<'a>(
    alloc: Global,
    names: &'a NamesAt<'a>,
    list: &Text,
    rows: &mut Seq<&'a Keyed>,
) -> Result<(), OutOfMemory>
    requires names { AreNames names.now }
    requires ids { HaveIds rows.now }
    ensures read { OnOk result (data_of rows.new ≡ data_of rows.old ++ scope_at names.now list.now) }
    ensures ids { OnOk result (HaveIds rows.new) }
{
    rows.append(rows_listed(alloc, names, list)?)
}

// The rows of some lists, list after list.
fn rows_divided<'a>(
    alloc: Global,
    names: &'a NamesAt<'a>,
    lists: &[Text],
) -> Result<Seq<&'a Keyed>, OutOfMemory>
    requires names { AreNames names.now }
    ensures read { IfOk result (λ rows. data_of rows ≡ flat_map (scope_at names.now) lists.now) }
    ensures ids { IfOk result HaveIds }
{
    let mut rows = Seq::new(alloc);
    for list in lists {
        push_listed(alloc, names, list, &mut rows)?;
    }
    Ok(rows)
}

// The cells of copies, and how many stand side by side, where two fields are crossed.
#[derive(Drop)]
struct CellsOf {
    copies: Seq<Seq<Cell>>,
    across: Option<u64>,
}

// How many cells the second of two fields has.
fn second_of_two(fields: &[Seq<Cell>]) -> Option<u64>
    ensures { result ≡ second_of_two fields.now }
{
    match fields {
        [_, second] => Some(second.len() as u64),
        _ => None,
    }
}

// The cells of the copies of a facet over rows.
fn cells_of(alloc: Global, d: &DividedBy, rows: &[&Keyed]) -> Result<CellsOf, OutOfMemory>
    requires { HaveIds rows.now }
    ensures copies { IfOk result (λ cells. cells.copies ≡ cells_of_copies d.now (data_of rows.now)) }
    ensures across { IfOk result (λ cells. cells.across
        ≡ (if d.now.crosses then second_of_two (cells_of_fields d.now (data_of rows.now)) else None)) }
    ensures different { IfOk result (λ cells. AreDifferent cells.copies) }
{
    if d.crosses {
        let fields = cells_of_fields(alloc, d, rows)?;
        Ok(CellsOf {
            across: second_of_two(fields.as_slice()),
            copies: choices(alloc, fields.as_slice())?,
        })
    } else {
        Ok(CellsOf {
            copies: cells_of_copies(alloc, d, rows)?,
            across: None,
        })
    }
}

// Adds a field with its cell.
fn push_cell(field: &Text, cell: &Cell, named: &mut Seq<(Text, Cell)>) -> Result<(), OutOfMemory>
    ensures { OnOk result (named.new ≡ named.old ++ named_cell field.now cell.now ∷ []) }
{
    named.push((field.copy()?, cell.copy()?))
}

// Fields with their cells.
fn named_cells(
    alloc: Global,
    fields: &[Text],
    cells: &[Cell],
) -> Result<Seq<(Text, Cell)>, OutOfMemory>
    ensures { IfOk result (λ named. named ≡ zip fields.now cells.now) }
{
    let mut named = Seq::new(alloc);
    for at in 0..fields.len().min(cells.len()) {
        push_cell(&fields[at], &cells[at], &mut named)?;
    }
    Ok(named)
}

// The rows that a list has in each copy.
fn parts_named<'a>(
    alloc: Global,
    names: &'a NamesAt<'a>,
    fields: &[Text],
    copies: &[Seq<Cell>],
    list: &Text,
) -> Result<Seq<Seq<&'a Keyed>>, OutOfMemory>
    requires names { AreNames names.now }
    requires different { AreDifferent copies.now }
    ensures { IfOk result (λ parts. map data_of parts
        ≡ map (λ key. part_of fields.now key (scope_at names.now list.now)) copies.now) }
{
    let rows = rows_listed(alloc, names, list)?;
    parts_of(alloc, fields, copies, rows.as_slice())
}

// Adds them to those of other lists.
fn push_parts<'a>(
    alloc: Global,
    names: &'a NamesAt<'a>,
    fields: &[Text],
    copies: &[Seq<Cell>],
    list: &Text,
    tables: &mut Seq<Seq<Seq<&'a Keyed>>>,
) -> Result<(), OutOfMemory>
    requires names { AreNames names.now }
    requires different { AreDifferent copies.now }
    ensures { OnOk result (map (map data_of) tables.new
        ≡ map (map data_of) tables.old ++ parts_read names.now fields.now copies.now list.now ∷ []) }
{
    tables.push(parts_named(alloc, names, fields, copies, list)?)
}

// The same for each of some lists.
fn all_parts_named<'a>(
    alloc: Global,
    names: &'a NamesAt<'a>,
    fields: &[Text],
    copies: &[Seq<Cell>],
    lists: &[Text],
) -> Result<Seq<Seq<Seq<&'a Keyed>>>, OutOfMemory>
    requires names { AreNames names.now }
    requires different { AreDifferent copies.now }
    ensures { IfOk result (λ tables. map (map data_of) tables
        ≡ map (parts_read names.now fields.now copies.now) lists.now) }
{
    let mut tables = Seq::with_capacity(alloc, lists.len())?;
    for list in lists {
        push_parts(alloc, names, fields, copies, list, &mut tables)?;
    }
    Ok(tables)
}

// Adds a copy of a row.
fn push_copied(row: &Keyed, copies: &mut Rows) -> Result<(), OutOfMemory>
    ensures { OnOk result (copies.new ≡ copies.old ++ row.now ∷ []) }
{
    copies.push(row.copy()?)
}

// Copies of rows.
fn all_copied(alloc: Global, rows: &[&Keyed]) -> Result<Rows, OutOfMemory>
    ensures { IfOk result (λ copies. copies ≡ rows_behind rows.now) }
{
    let mut copies = Seq::with_capacity(alloc, rows.len())?;
    for row in rows {
        push_copied(row, &mut copies)?;
    }
    Ok(copies)
}

// Copies of the rows that a list has in a copy.
fn rows_copied(alloc: Global, table: &Seq<Seq<&Keyed>>, copy: usize) -> Result<Rows, OutOfMemory>
    ensures { IfOk result (λ rows. rows ≡ rows_behind (unwrap_or (slice_get table.now copy) [])) }
{
    match table.get(copy) {
        Some(rows) => all_copied(alloc, rows.as_slice()),
        None => Ok(Seq::new(alloc)),
    }
}

// Adds rows under a name.
fn push_named(name: &Text, rows: Rows, parts: &mut Seq<Named>) -> Result<(), OutOfMemory>
    ensures { OnOk result (parts.new ≡ parts.old ++ rows_named name.now rows ∷ []) }
{
    parts.push(Named {
        name: name.copy()?,
        rows,
    })
}

// Adds the part of a copy in one list, under its name there.
fn push_part(
    alloc: Global,
    name: &Text,
    table: &Seq<Seq<&Keyed>>,
    copy: usize,
    parts: &mut Seq<Named>,
) -> Result<(), OutOfMemory>
    ensures { OnOk result (parts.new ≡ parts.old ++ part_at copy (name.now, table.now) ∷ []) }
{
    push_named(name, rows_copied(alloc, table, copy)?, parts)
}

// The parts of a copy in all lists, by their names.
fn parts_at(
    alloc: Global,
    names: &[Text],
    tables: &[Seq<Seq<&Keyed>>],
    copy: usize,
) -> Result<Seq<Named>, OutOfMemory>
    ensures { IfOk result (λ parts. parts ≡ parts_at copy names.now tables.now) }
{
    let mut parts = Seq::new(alloc);
    for at in 0..names.len().min(tables.len()) {
        push_part(alloc, &names[at], &tables[at], copy, &mut parts)?;
    }
    Ok(parts)
}

// The copy with some cells, which stands at a place.
fn copy_at(
    alloc: Global,
    fields: &[Text],
    names: &[Text],
    tables: &[Seq<Seq<&Keyed>>],
    place: usize,
    key: &Seq<Cell>,
) -> Result<CopyOf, OutOfMemory>
    ensures { IfOk result (λ copy. copy_seen copy ≡ copy_at fields.now names.now tables.now (place, key.now)) }
{
    Ok(CopyOf {
        cells: Some(named_cells(alloc, fields, key.as_slice())?),
        parts: parts_at(alloc, names, tables, place)?,
    })
}

// Adds the copy with some cells, which stands at a place.
fn push_copy(
    alloc: Global,
    fields: &[Text],
    names: &[Text],
    tables: &[Seq<Seq<&Keyed>>],
    place: usize,
    key: &Seq<Cell>,
    copies: &mut Seq<CopyOf>,
) -> Result<(), OutOfMemory>
    ensures { OnOk result (map copy_seen copies.new
        ≡ map copy_seen copies.old ++ copy_at fields.now names.now tables.now (place, key.now) ∷ []) }
{
    copies.push(copy_at(alloc, fields, names, tables, place, key)?)
}

// The copies with some cells.
fn copies_with(
    alloc: Global,
    fields: &[Text],
    cells: &[Seq<Cell>],
    names: &[Text],
    tables: &[Seq<Seq<&Keyed>>],
) -> Result<Seq<CopyOf>, OutOfMemory>
    ensures { IfOk result (λ copies. map copy_seen copies
        ≡ map (copy_at fields.now names.now tables.now) (enumerate_from 0 cells.now)) }
{
    let mut copies = Seq::with_capacity(alloc, cells.len())?;
    for (place, key) in cells.iter().enumerate() {
        push_copy(alloc, fields, names, tables, place, key, &mut copies)?;
    }
    Ok(copies)
}

// The cells of the copies by a facet over some rows.
fn cells_over(
    alloc: Global,
    sort: &Option<Sort>,
    facet: &Facet,
    rows: &[&Keyed],
) -> Result<CellsOf, OutOfMemory>
    requires { HaveIds rows.now }
    ensures copies { IfOk result (λ found. found.copies ≡ cells_of_copies (divided_by sort.now facet.now) (data_of rows.now)) }
    ensures across { IfOk result (λ found. found.across
        ≡ (if crosses facet.now then second_of_two (cells_of_fields (divided_by sort.now facet.now) (data_of rows.now)) else None)) }
    ensures different { IfOk result (λ found. AreDifferent found.copies) }
{
    let d = divided_by(alloc, sort, facet)?;
    cells_of(alloc, &d, rows)
}

// The cells of the copies by a facet.
fn cells_by(
    alloc: Global,
    names: &NamesAt,
    sort: &Option<Sort>,
    facet: &Facet,
) -> Result<CellsOf, OutOfMemory>
    requires names { AreNames names.now }
    ensures copies { IfOk result (λ found. found.copies
        ≡ cells_of_copies (divided_by sort.now facet.now) (rows_divided (scope_at names.now) facet.now)) }
    ensures across { IfOk result (λ found. found.across ≡ across_by (scope_at names.now) sort.now facet.now) }
    ensures different { IfOk result (λ found. AreDifferent found.copies) }
{
    let rows = rows_divided(alloc, names, texts_in(&facet.data_))?;
    cells_over(alloc, sort, facet, rows.as_slice())
}

// The copies by a facet that have these cells.
fn copies_of_cells(
    alloc: Global,
    names: &NamesAt,
    facet: &Facet,
    cells: &[Seq<Cell>],
) -> Result<Seq<CopyOf>, OutOfMemory>
    requires names { AreNames names.now }
    requires different { AreDifferent cells.now }
    ensures { IfOk result (λ copies. map copy_seen copies ≡ map (copy_with (scope_at names.now) facet.now) cells.now) }
{
    let lists = texts_in(&facet.data_);
    let fields = facet.groupby.as_slice();
    let tables = all_parts_named(alloc, names, fields, cells, lists)?;
    let copies = copies_with(
        alloc,
        fields,
        cells,
        texts_in(&facet.name),
        tables.as_slice(),
    );
    drop(tables);
    copies
}

// The copies by a facet.
fn copies_by(
    alloc: Global,
    names: &NamesAt,
    sort: &Option<Sort>,
    facet: &Facet,
) -> Result<CopiesOf, OutOfMemory>
    requires names { AreNames names.now }
    ensures copies { IfOk result (λ found. map copy_seen found.copies ≡ copies_by (scope_at names.now) sort.now facet.now) }
    ensures across { IfOk result (λ found. found.across ≡ across_by (scope_at names.now) sort.now facet.now) }
{
    let cells = cells_by(alloc, names, sort, facet)?;
    Ok(CopiesOf {
        copies: copies_of_cells(alloc, names, facet, cells.copies.as_slice())?,
        across: cells.across,
    })
}

// The one copy of a group without a facet.
fn only_copy(alloc: Global) -> Result<CopiesOf, OutOfMemory>
    ensures copies { IfOk result (λ found. map copy_seen found.copies ≡ only_copy ∷ []) }
    ensures across { IfOk result (λ found. found.across ≡ None) }
{
    let mut copies = Seq::with_capacity(alloc, 1)?;
    copies.push(CopyOf {
        cells: None,
        parts: Seq::new(alloc),
    })?;
    Ok(CopiesOf {
        copies,
        across: None,
    })
}

/// The copies of a group, and how many stand side by side where its facet crosses two fields. The time is near linear in the rows of the
/// lists that the facet divides, and in the copies.
pub(crate) fn copies_of(
    alloc: Global,
    names: &NamesAt,
    sort: &Option<Sort>,
    facet: Option<&Facet>,
) -> Result<CopiesOf, OutOfMemory>
    requires names { AreNames names.now }
    ensures copies { IfOk result (λ found. map copy_seen found.copies ≡ copies_with_facet (scope_at names.now) sort.now (option_copied facet.entry)) }
    ensures across { IfOk result (λ found. found.across ≡ across_with_facet (scope_at names.now) sort.now (option_copied facet.entry)) }
{
    match facet {
        Some(facet) => copies_by(alloc, names, sort, facet),
        None => only_copy(alloc),
    }
}

/// The copies of a group, those that have rows and the number of the others.
#[derive(Drop)]
pub struct CopiesCounted {
    /// The copies that have rows.
    pub with_rows: Seq<CopyOf>,
    /// How many copies have none, up to the greatest number of 64 bits.
    pub without_rows: u64,
}

// The cells of the copies by a facet over some rows that have any of these, and how many have none.
fn counted_over(
    alloc: Global,
    sort: &Option<Sort>,
    facet: &Facet,
    rows: &[&Keyed],
) -> Result<CellsCounted, OutOfMemory>
    requires { HaveIds rows.now }
    ensures with_rows { IfOk result (λ found. found.with_rows ≡ cells_with_rows (divided_by sort.now facet.now) (data_of rows.now)) }
    ensures without_rows { IfOk result (λ found. found.without_rows
        ≡ min (count_without_rows (divided_by sort.now facet.now) (data_of rows.now)) most_counted) }
    ensures different { IfOk result (λ found. AreDifferent found.with_rows) }
{
    let d = divided_by(alloc, sort, facet)?;
    count_cells(alloc, &d, rows)
}

// The cells of the copies by a facet that have rows, and how many have none.
fn counted_by(
    alloc: Global,
    names: &NamesAt,
    sort: &Option<Sort>,
    facet: &Facet,
) -> Result<CellsCounted, OutOfMemory>
    requires names { AreNames names.now }
    ensures with_rows { IfOk result (λ found. found.with_rows
        ≡ cells_with_rows (divided_by sort.now facet.now) (rows_divided (scope_at names.now) facet.now)) }
    ensures without_rows { IfOk result (λ found. found.without_rows
        ≡ min (without_rows_by (scope_at names.now) sort.now facet.now) most_counted) }
    ensures different { IfOk result (λ found. AreDifferent found.with_rows) }
{
    let rows = rows_divided(alloc, names, texts_in(&facet.data_))?;
    counted_over(alloc, sort, facet, rows.as_slice())
}

// The copies by a facet that have rows, and how many have none.
fn count_by(
    alloc: Global,
    names: &NamesAt,
    sort: &Option<Sort>,
    facet: &Facet,
) -> Result<CopiesCounted, OutOfMemory>
    requires names { AreNames names.now }
    ensures with_rows { IfOk result (λ found. map copy_seen found.with_rows ≡ with_rows_by (scope_at names.now) sort.now facet.now) }
    ensures without_rows { IfOk result (λ found. found.without_rows
        ≡ min (without_rows_by (scope_at names.now) sort.now facet.now) most_counted) }
{
    let cells = counted_by(alloc, names, sort, facet)?;
    Ok(CopiesCounted {
        with_rows: copies_of_cells(alloc, names, facet, cells.with_rows.as_slice())?,
        without_rows: cells.without_rows,
    })
}

// The one copy of a group without a facet, counted.
fn only_counted(alloc: Global) -> Result<CopiesCounted, OutOfMemory>
    ensures with_rows { IfOk result (λ found. map copy_seen found.with_rows ≡ only_copy ∷ []) }
    ensures without_rows { IfOk result (λ found. found.without_rows ≡ min 0 most_counted) }
{
    Ok(CopiesCounted {
        with_rows: only_copy(alloc)?.copies,
        without_rows: 0,
    })
}

/// The copies of a group that have rows, and how many have none, which aren't made. The time is near linear in the rows of the lists that
/// the facet divides.
pub(crate) fn count_copies(
    alloc: Global,
    names: &NamesAt,
    sort: &Option<Sort>,
    facet: Option<&Facet>,
) -> Result<CopiesCounted, OutOfMemory>
    requires names { AreNames names.now }
    ensures with_rows { IfOk result (λ found. map copy_seen found.with_rows
        ≡ rows_with_facet (scope_at names.now) sort.now (option_copied facet.entry)) }
    ensures without_rows { IfOk result (λ found. found.without_rows
        ≡ min (bare_with_facet (scope_at names.now) sort.now (option_copied facet.entry)) most_counted) }
{
    match facet {
        Some(facet) => count_by(alloc, names, sort, facet),
        None => only_counted(alloc),
    }
}

// How many copies a facet makes, up to the greatest number of 64 bits.
fn count_all_by(
    alloc: Global,
    names: &NamesAt,
    sort: &Option<Sort>,
    facet: &Facet,
) -> Result<u64, OutOfMemory>
    requires names { AreNames names.now }
    ensures { IfOk result (λ count. count ≡ min (length (copies_by (scope_at names.now) sort.now facet.now)) most_counted) }
{
    let cells = counted_by(alloc, names, sort, facet)?;
    Ok((cells.with_rows.len() as u64).saturating_add(cells.without_rows))
}

/// How many copies a group has, up to the greatest number of 64 bits. The time is near linear in the rows of the lists that its facet
/// divides; no copy is made.
pub(crate) fn count_all_copies(
    alloc: Global,
    names: &NamesAt,
    sort: &Option<Sort>,
    facet: Option<&Facet>,
) -> Result<u64, OutOfMemory>
    requires names { AreNames names.now }
    ensures { IfOk result (λ count. count
        ≡ min (length (copies_with_facet (scope_at names.now) sort.now (option_copied facet.entry))) most_counted) }
{
    match facet {
        Some(facet) => count_all_by(alloc, names, sort, facet),
        None => Ok(1),
    }
}

// Lists without rows, by their names in a copy.
fn bare_parts(alloc: Global, names: &[Text], lists: &[Text]) -> Result<Seq<Named>, OutOfMemory>
    ensures { IfOk result (λ parts. parts ≡ map bare_named (zip names.now lists.now)) }
{
    let mut parts = Seq::new(alloc);
    for at in 0..names.len().min(lists.len()) {
        push_named(&names[at], Seq::new(alloc), &mut parts)?;
    }
    Ok(parts)
}

// The lists of a copy without rows.
fn parts_of_bare(alloc: Global, facet: Option<&Facet>) -> Result<Seq<Named>, OutOfMemory>
    ensures { IfOk result (λ parts. parts ≡ parts_of_bare (option_copied facet.entry)) }
{
    match facet {
        Some(facet) => bare_parts(alloc, texts_in(&facet.name), texts_in(&facet.data_)),
        None => Ok(Seq::new(alloc)),
    }
}

/// A copy without rows of a group with this facet, if it has one. Its cells aren't told: what is counted in it doesn't depend on them.
pub(crate) fn copy_without_rows(alloc: Global, facet: Option<&Facet>) -> Result<CopyOf, OutOfMemory>
    ensures seen { IfOk result (λ copy. copy_seen copy ≡ bare_copy (option_copied facet.entry)) }
    ensures parts { IfOk result (λ copy. copy.parts ≡ parts_of_bare (option_copied facet.entry)) }
{
    Ok(CopyOf {
        cells: None,
        parts: parts_of_bare(alloc, facet)?,
    })
}
