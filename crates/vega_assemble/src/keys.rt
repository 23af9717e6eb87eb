// By what the panels of a facet stand.
ghost use Rattle.std.specs.Prelude.{◌≡◌, ◌≤◌, ◌++◌, ◌∷◌, [], take, length, map, flat_map, IfOk, OnOk};
ghost use Rattle.expr_syntax.specs.declared.expr.Expr.TheVariants as expr;
ghost use Rattle.vega_spec.specs.declared.transforms.Transform.TheVariants as vega;
ghost use Rattle.vega_assemble.specs.Names.{key_column, keys_name, unit_name};
ghost use Rattle.vega_assemble.specs.Ranked.{formula, numbers_rows, found_in};
ghost use Rattle.vega_assemble.specs.Ranks.{listed_rank};
ghost use Rattle.vega_assemble.specs.Keys.{is_first, ordered, by_name, entry_of, placed, sort_of, wants_key, has_keys};
ghost use Rattle.vega_assemble.specs.Keys.{place_of_row, looked_up, steps_for, keys_list, looked_twice, is_found, found_somewhere};
ghost use Rattle.vega_assemble.specs.Keys.{given_by, orders_steps, orders_list, orders_for};
ghost use Rattle.vega_assemble.specs.Keys.{lists_of_facet, lists_of_grid, facet_begins, grid_begins};

use crate::exprs::whole_place;
use crate::lists::order_begins;
use crate::names::{begun_name, key_column, keys_name, orders_name, rank_column, unit_name};
use crate::ranked::{formula, found_in, given_in, numbers_rows};
use crate::ranks::listed_rank;
use crate::several::one_of;
use crate::sources::list_made;
use crate::steps::sort_written;
use cell_value::Cell;
use expr_syntax::{BinOp, Expr};
use plain_rows::SortBy;
use plan_kit::{CellOrder, FacetField, FacetPlan, GridPlan, RowsOrder, binary, joined, pair};
use std::alloc::Global;
use text_kit::{OutOfMemory, Seq, Text};
use vega_spec::{DataSet, Filter, Lookup, Sort, Transform};

// ---- orders of fields

// Whether cells stand as they first appear.
fn is_first(order: &CellOrder) -> bool
    ensures { result ≡ is_first order.now }
{
    match order {
        CellOrder::First => true,
        CellOrder::Up | CellOrder::Down | CellOrder::Listed(_) | CellOrder::ByRows(_) => false,
    }
}

// How many fields an order speaks of.
#[tactic(auto, using(crate::proofs::OrderLemmas::ends_here, crate::proofs::OrderLemmas::ends_before))]
fn ordered_count(fields: &[FacetField]) -> usize
    ensures front { take result fields.now ≡ ordered fields.now }
    ensures within { result ≤ length fields.now }
{
    for at in (0..fields.len()).rev() {
        if !is_first(&fields[at].order) {
            return at + 1;
        }
    }
    0
}

// These fields.
fn ordered(fields: &[FacetField]) -> &[FacetField]
    ensures { result.now ≡ ordered fields.now }
{
    &fields[..ordered_count(fields)]
}

// The field by which cells stand.
fn by_name(name: Text, descending: bool) -> SortBy
    ensures { result ≡ by_name name descending }
{
    SortBy {
        field: name,
        descending,
    }
}

// The field by which the cells of a field stand, and whether descending.
fn entry_of(
    alloc: Global,
    stem: &Text,
    place: usize,
    field: &FacetField,
) -> Result<SortBy, OutOfMemory>
    ensures { IfOk result (λ entry. entry ≡ entry_of stem.now (place, field.now)) }
{
    match &field.order {
        CellOrder::Up => Ok(by_name(field.name.copy()?, false)),
        CellOrder::Down => Ok(by_name(field.name.copy()?, true)),
        CellOrder::First | CellOrder::Listed(_) => Ok(by_name(
            key_column(alloc, stem, place)?,
            false,
        )),
        CellOrder::ByRows(by) => Ok(by_name(key_column(alloc, stem, place)?, by.descending)),
    }
}

/// The order of the copies, if it is one.
pub(crate) fn sort_of(
    alloc: Global,
    stem: &Text,
    fields: &[FacetField],
) -> Result<Option<Sort>, OutOfMemory>
    ensures { IfOk result (λ sort. sort ≡ sort_of stem.now fields.now) }
{
    let mut by = Seq::new(alloc);
    for (place, field) in ordered(fields).iter().enumerate() {
        by.push(entry_of(alloc, stem, place, field)?)?;
    }
    sort_written(alloc, by.as_slice())
}

// ---- keys

// Whether a field has keys.
fn wants_key(order: &CellOrder) -> bool
    ensures { result ≡ wants_key order.now }
{
    match order {
        CellOrder::Up | CellOrder::Down => false,
        CellOrder::First | CellOrder::Listed(_) | CellOrder::ByRows(_) => true,
    }
}

/// Whether one of some fields has.
pub(crate) fn has_keys(fields: &[FacetField]) -> bool
    ensures { result ≡ has_keys fields.now }
{
    for field in ordered(fields) {
        if wants_key(&field.order) {
            return true;
        }
    }
    false
}

// The number of a unit with that of its row, in the column of a key.
fn place_formula(alloc: Global, unit: usize, name: &Text) -> Result<Transform, OutOfMemory>
    ensures { IfOk result (λ made. made ≡ formula name.now (place_of_row unit name.now)) }
{
    let number = whole_place(unit)?;
    let row = name.copy().map(Expr::Field)?;
    let place = pair(alloc, number, row)?;
    Ok(formula(name.copy()?, place))
}

// Adds the number of each row under a name.
fn push_numbers(alloc: Global, name: &Text, out: &mut Seq<Transform>) -> Result<(), OutOfMemory>
    ensures { OnOk result (out.new ≡ out.old ++ vega.Window (numbers_rows name.now) ∷ []) }
{
    out.push(numbers_rows(alloc, name.copy()?)?)
}

// Adds the keys of a field that keeps the order of its first rows.
fn push_places(
    alloc: Global,
    unit: usize,
    name: &Text,
    out: &mut Seq<Transform>,
) -> Result<(), OutOfMemory>
    ensures { OnOk result (out.new
        ≡ out.old ++ vega.Window (numbers_rows name.now) ∷ formula name.now (place_of_row unit name.now) ∷ []) }
{
    push_numbers(alloc, name, out)?;
    out.push(place_formula(alloc, unit, name)?)
}

// The same under the name of its key.
fn push_first(
    alloc: Global,
    stem: &Text,
    unit: usize,
    place: usize,
    out: &mut Seq<Transform>,
) -> Result<(), OutOfMemory>
    ensures { OnOk result (out.new ≡ out.old ++ vega.Window (numbers_rows (key_column stem.now place))
        ∷ formula (key_column stem.now place) (place_of_row unit (key_column stem.now place)) ∷ []) }
{
    let name = key_column(alloc, stem, place)?;
    push_places(alloc, unit, &name, out)?;
    Ok(())
}

// The keys of a field whose cells are listed.
fn listed_key(
    alloc: Global,
    key: Text,
    name: &Text,
    cells: &[Cell],
) -> Result<Transform, OutOfMemory>
    ensures { IfOk result (λ made. made ≡ formula key (listed_rank (expr.Field name.now) cells.now)) }
{
    let shown = name.copy().map(Expr::Field)?;
    let rank = listed_rank(alloc, &shown, cells)?;
    Ok(formula(key, rank))
}

// What the cells of a field have by rows, looked up under its name.
fn looked_up(
    alloc: Global,
    stem: &Text,
    facet: usize,
    place: usize,
    name: &Text,
    by: &RowsOrder,
) -> Result<Lookup, OutOfMemory>
    ensures { IfOk result (λ made. made ≡ looked_up stem.now facet place name.now by.now) }
{
    let from = orders_name(alloc, stem, facet, place)?;
    let rank = rank_column(stem)?;
    let key = key_column(alloc, stem, place)?;
    found_in(alloc, from, &by.cell, name, rank, key, Cell::Null)
}

// Adds the keys of a field in the rows of a unit.
fn push_key(
    alloc: Global,
    stem: &Text,
    facet: usize,
    unit: usize,
    place: usize,
    field: &FacetField,
    out: &mut Seq<Transform>,
) -> Result<(), OutOfMemory>
    ensures { OnOk result (out.new ≡ out.old ++ steps_for stem.now facet unit (place, field.now)) }
{
    match &field.order {
        CellOrder::Up | CellOrder::Down => Ok(()),
        CellOrder::First => push_first(alloc, stem, unit, place, out),
        CellOrder::Listed(cells) => out.push(listed_key(
            alloc,
            key_column(alloc, stem, place)?,
            &field.name,
            cells.as_slice(),
        )?),
        CellOrder::ByRows(by) => out.push(looked_up(alloc, stem, facet, place, &field.name, by).map(
            Transform::Lookup,
        )?),
    }
}

// The keys of all fields in the rows of a unit.
fn key_steps(
    alloc: Global,
    stem: &Text,
    facet: usize,
    fields: &[FacetField],
    unit: usize,
) -> Result<Seq<Transform>, OutOfMemory>
    ensures { IfOk result (λ steps. steps ≡ flat_map (steps_for stem.now facet unit) (placed fields.now)) }
{
    let mut out = Seq::new(alloc);
    for (place, field) in ordered(fields).iter().enumerate() {
        push_key(alloc, stem, facet, unit, place, field, &mut out)?;
    }
    Ok(out)
}

// The list of keys of a unit's rows.
fn keys_list(
    alloc: Global,
    stem: &Text,
    facet: usize,
    fields: &[FacetField],
    unit: usize,
) -> Result<DataSet, OutOfMemory>
    ensures { IfOk result (λ set. set ≡ keys_list stem.now facet fields.now unit) }
{
    let name = keys_name(alloc, stem, facet, unit)?;
    let source = unit_name(alloc, stem, unit)?;
    let steps = key_steps(alloc, stem, facet, fields, unit)?;
    Ok(list_made(name, source, steps))
}

// The cell of a row looked up under a field's name in the rows of a unit.
fn looked_in(
    alloc: Global,
    stem: &Text,
    name: &Text,
    here: &Text,
    unit: usize,
    given: Text,
    otherwise: Cell,
) -> Result<Transform, OutOfMemory>
    ensures { IfOk result (λ made. made
        ≡ vega.Lookup (found_in (unit_name stem.now unit) name.now here.now name.now given otherwise)) }
{
    let set = unit_name(alloc, stem, unit)?;
    let column = name.copy()?;
    found_in(alloc, set, name, here, column, given, otherwise).map(Transform::Lookup)
}

// Adds that with null and with true for nothing.
fn push_looked_twice(
    alloc: Global,
    stem: &Text,
    facet: usize,
    name: &Text,
    here: &Text,
    unit: usize,
    out: &mut Seq<Transform>,
) -> Result<(), OutOfMemory>
    ensures { OnOk result (out.new ≡ out.old ++ looked_twice stem.now facet name.now here.now unit) }
{
    let first = unit_name(alloc, stem, unit)?;
    out.push(looked_in(alloc, stem, name, here, unit, first, Cell::Null)?)?;
    let second = keys_name(alloc, stem, facet, unit)?;
    out.push(looked_in(alloc, stem, name, here, unit, second, Cell::Flag(true))?)
}

// Adds those of all units.
fn push_all_looked(
    alloc: Global,
    stem: &Text,
    facet: usize,
    name: &Text,
    here: &Text,
    units: &[usize],
    out: &mut Seq<Transform>,
) -> Result<(), OutOfMemory>
    ensures { OnOk result (out.new ≡ out.old ++ flat_map (looked_twice stem.now facet name.now here.now) units.now) }
{
    for unit in units {
        push_looked_twice(alloc, stem, facet, name, here, *unit, out)?;
    }
    Ok(())
}

// What the two give.
fn both_given(
    alloc: Global,
    stem: &Text,
    facet: usize,
    unit: usize,
) -> Result<(Expr, Expr), OutOfMemory>
    ensures { IfOk result (λ both. both ≡ (expr.Field (unit_name stem.now unit), expr.Field (keys_name stem.now facet unit))) }
{
    let first = unit_name(alloc, stem, unit).map(Expr::Field)?;
    let second = keys_name(alloc, stem, facet, unit).map(Expr::Field)?;
    Ok((first, second))
}

// That the rows of a unit have the cell.
fn is_found(alloc: Global, stem: &Text, facet: usize, unit: usize) -> Result<Expr, OutOfMemory>
    ensures { IfOk result (λ e. e ≡ is_found stem.now facet unit) }
{
    let (first, second) = both_given(alloc, stem, facet, unit)?;
    binary(alloc, BinOp::Same, first, second)
}

// The same of all units.
fn all_found(
    alloc: Global,
    stem: &Text,
    facet: usize,
    units: &[usize],
) -> Result<Seq<Expr>, OutOfMemory>
    ensures { IfOk result (λ es. es ≡ map (is_found stem.now facet) units.now) }
{
    let mut out = Seq::new(alloc);
    for unit in units {
        out.push(is_found(alloc, stem, facet, *unit)?)?;
    }
    Ok(out)
}

// The rows alone whose cell the rows of some unit have.
fn found_alone(
    alloc: Global,
    stem: &Text,
    facet: usize,
    units: &[usize],
) -> Result<Transform, OutOfMemory>
    ensures { IfOk result (λ made. made ≡ vega.Filter (record { expr = found_somewhere stem.now facet units.now })) }
{
    let found = all_found(alloc, stem, facet, units)?;
    let expr = joined(alloc, BinOp::Or, false, found)?;
    Ok(Transform::Filter(Filter { expr }))
}

// What an operation gives of each cell over the rows of all panels.
fn given_by(alloc: Global, stem: &Text, by: &RowsOrder) -> Result<Transform, OutOfMemory>
    ensures { IfOk result (λ made. made ≡ vega.Aggregate (given_by stem.now by.now)) }
{
    let name = rank_column(stem)?;
    let groupby = one_of(alloc, by.cell.copy()?)?;
    given_in(alloc, groupby, by, name)
}

// The same of the cells alone that the rows of units have under a field's name.
fn orders_steps(
    alloc: Global,
    stem: &Text,
    facet: usize,
    units: &[usize],
    name: &Text,
    by: &RowsOrder,
) -> Result<Seq<Transform>, OutOfMemory>
    ensures { IfOk result (λ steps. steps ≡ orders_steps stem.now facet units.now name.now by.now) }
{
    let mut out = Seq::new(alloc);
    push_all_looked(alloc, stem, facet, name, &by.cell, units, &mut out)?;
    out.push(found_alone(alloc, stem, facet, units)?)?;
    out.push(given_by(alloc, stem, by)?)?;
    Ok(out)
}

// The list of these.
fn orders_list(
    alloc: Global,
    stem: &Text,
    facet: usize,
    units: &[usize],
    place: usize,
    name: &Text,
    by: &RowsOrder,
) -> Result<DataSet, OutOfMemory>
    ensures { IfOk result (λ set. set ≡ orders_list stem.now facet units.now place name.now by.now) }
{
    let list = orders_name(alloc, stem, facet, place)?;
    let source = begun_name(alloc, stem, by.unit)?;
    let steps = orders_steps(alloc, stem, facet, units, name, by)?;
    Ok(list_made(list, source, steps))
}

// Adds it where a field stands by rows.
fn push_orders(
    alloc: Global,
    stem: &Text,
    facet: usize,
    units: &[usize],
    place: usize,
    field: &FacetField,
    out: &mut Seq<DataSet>,
) -> Result<(), OutOfMemory>
    ensures { OnOk result (out.new ≡ out.old ++ orders_for stem.now facet units.now (place, field.now)) }
{
    match &field.order {
        CellOrder::First | CellOrder::Up | CellOrder::Down | CellOrder::Listed(_) => Ok(()),
        CellOrder::ByRows(by) => out.push(orders_list(
            alloc,
            stem,
            facet,
            units,
            place,
            &field.name,
            by,
        )?),
    }
}

// Adds those of all fields.
fn push_all_orders(
    alloc: Global,
    stem: &Text,
    facet: usize,
    units: &[usize],
    fields: &[FacetField],
    out: &mut Seq<DataSet>,
) -> Result<(), OutOfMemory>
    ensures { OnOk result (out.new ≡ out.old ++ flat_map (orders_for stem.now facet units.now) (placed fields.now)) }
{
    for (place, field) in ordered(fields).iter().enumerate() {
        push_orders(alloc, stem, facet, units, place, field, out)?;
    }
    Ok(())
}

// Adds the lists of keys of units.
fn push_all_keys(
    alloc: Global,
    stem: &Text,
    facet: usize,
    fields: &[FacetField],
    units: &[usize],
    out: &mut Seq<DataSet>,
) -> Result<(), OutOfMemory>
    ensures { OnOk result (out.new ≡ out.old ++ map (keys_list stem.now facet fields.now) units.now) }
{
    for unit in units {
        out.push(keys_list(alloc, stem, facet, fields, *unit)?)?;
    }
    Ok(())
}

// Adds all lists of a facet's keys.
fn push_facet(
    alloc: Global,
    stem: &Text,
    number: usize,
    f: &FacetPlan,
    out: &mut Seq<DataSet>,
) -> Result<(), OutOfMemory>
    ensures { OnOk result (out.new ≡ out.old ++ lists_of_facet stem.now number f.now) }
{
    let fields = f.fields.as_slice();
    let units = f.units.as_slice();
    if has_keys(fields) {
        push_all_orders(alloc, stem, number, units, fields, out)?;
        push_all_keys(alloc, stem, number, fields, units, out)
    } else {
        Ok(())
    }
}

/// Adds the lists of keys of a grid's facet.
pub(crate) fn push_grid(
    alloc: Global,
    stem: &Text,
    grid: &GridPlan,
    out: &mut Seq<DataSet>,
) -> Result<(), OutOfMemory>
    ensures { OnOk result (out.new ≡ out.old ++ lists_of_grid stem.now grid.now) }
{
    match &grid.facet {
        Some(f) => push_facet(alloc, stem, grid.number, f, out),
        None => Ok(()),
    }
}

// Whether an order of a facet reads the rows of a unit before its aggregate.
fn facet_begins(unit: usize, f: &FacetPlan) -> bool
    ensures { result ≡ facet_begins unit f.now }
{
    for field in f.fields.as_slice() {
        if order_begins(unit, &field.order) {
            return true;
        }
    }
    false
}

/// Whether an order of a grid's facet does.
pub(crate) fn grid_begins(unit: usize, grid: &GridPlan) -> bool
    ensures { result ≡ grid_begins unit grid.now }
{
    match &grid.facet {
        Some(f) => facet_begins(unit, f),
        None => false,
    }
}
