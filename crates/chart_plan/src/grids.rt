// The grids of a chart.
ghost use Rattle.std.specs.Prelude.{◌≡◌, ◌++◌, [], find, map, option_to_list, unwrap_or, IfOk, OnOk, true};
ghost use Rattle.std.specs.Option.{option_and_then, option_or};
ghost use Rattle.std.specs.List.{fold};
ghost use Rattle.vl_spec.specs.declared.views.Faceted.{out-Faceted};
ghost use Rattle.vl_spec.specs.declared.views.Joined.{out-Joined};
ghost use Rattle.vl_compose.specs.Rounds.{facet_at, joined_at};
ghost use Rattle.vl_compose.specs.Shown.{kind_of, round_shown, unit_shown, view_shown};
ghost use Rattle.chart_plan.specs.Orders.{order_in};
ghost use Rattle.chart_plan.specs.Grids.{header_in, are_labelled, up, field_order, field_by, field_list, fields_of};
ghost use Rattle.chart_plan.specs.Grids.{is_below, number_below, units_below, facet_plan, columns_said, columns_in, crossed_columns, facet_columns};
ghost use Rattle.chart_plan.specs.Grids.{joined_columns, usual_spacing, faceted_grid, joined_grid, grid_by, grid_in, is_there, with_grid, grids_of};

use crate::orders;
use crate::orders::start_in;
use fixed_num::Num;
use guide_infer::count_of;
use plan_kit::{CellOrder, FacetField, FacetPlan, GridColumns, GridPlan};
use std::alloc::Global;
use text_kit::{Copies, OutOfMemory, Seq, Text};
use vl_compose::{UnitHere, ViewHere};
use vl_normalize::{COLUMN, FACET, ROW};
use vl_spec::{Channel, CrossFacet, Definition, Facet, Faceted, Header, Joined, Joining, ViewKind};

// The header of a definition.
fn header_in(definition: &Definition) -> Option<Header>
    ensures { result ≡ header_in definition.now }
{
    match definition {
        Definition::Value(_) => None,
        Definition::Datum(_) => None,
        Definition::Field(of) => of.header,
    }
}

// Whether panels have headers, by a header that may be absent.
fn labels_in(header: &Option<Header>) -> bool
    ensures { result ≡ unwrap_or (option_and_then (λ h. h.labels) header.now) true }
{
    match header {
        Some(header) => match header.labels {
            Some(labels) => labels,
            None => true,
        },
        None => true,
    }
}

// Whether panels have headers.
fn are_labelled(definition: &Definition) -> bool
    ensures { result ≡ are_labelled definition.now }
{
    let header = header_in(definition);
    labels_in(&header)
}

// The order of a field's cells in a unit.
fn unit_order(
    alloc: Global,
    unit: &UnitHere,
    channel: u16,
    definition: &Definition,
) -> Result<CellOrder, OutOfMemory>
    ensures { IfOk result (λ order. order ≡ unwrap_or (order_in (unit_shown unit.now) channel definition.now) up) }
{
    match orders::order_in(alloc, unit, channel, definition)? {
        Some(order) => Ok(order),
        None => Ok(CellOrder::Up),
    }
}

// The order of a field's cells by the first of some units below a view.
fn field_order(
    alloc: Global,
    number: usize,
    units: &[UnitHere],
    channel: u16,
    definition: &Definition,
) -> Result<CellOrder, OutOfMemory>
    ensures { IfOk result (λ order. order ≡ field_order (find (is_below number) (map unit_shown units.now)) channel definition.now) }
{
    for unit in units {
        if is_below(number, unit) {
            return unit_order(alloc, unit, channel, definition);
        }
    }
    Ok(CellOrder::Up)
}

// A name, or the empty text.
fn or_empty(alloc: Global, name: Option<Text>) -> Text
    ensures { result ≡ unwrap_or name [] }
{
    match name {
        Some(name) => name,
        None => Text::new(alloc),
    }
}

// A field of a facet by its definition.
fn field_by(
    alloc: Global,
    number: usize,
    units: &[UnitHere],
    channel: u16,
    definition: &Definition,
) -> Result<FacetField, OutOfMemory>
    ensures { IfOk result (λ field. field ≡ field_by (find (is_below number) (map unit_shown units.now)) channel definition.now) }
{
    let name = or_empty(alloc, start_in(alloc, channel, definition)?);
    let order = field_order(alloc, number, units, channel, definition)?;
    Ok(FacetField {
        name,
        order,
        is_beside: channel == ROW,
        labels: are_labelled(definition),
    })
}

// Adds a field of a facet, if there is one.
fn push_field(
    alloc: Global,
    number: usize,
    units: &[UnitHere],
    channel: u16,
    shows: &Option<Channel>,
    out: &mut Seq<FacetField>,
) -> Result<(), OutOfMemory>
    ensures { OnOk result (out.new ≡ out.old ++ field_list (find (is_below number) (map unit_shown units.now)) channel shows.now) }
{
    match shows {
        Some(shows) => out.push(field_by(alloc, number, units, channel, &shows.definition)?),
        None => Ok(()),
    }
}

// Adds the fields of a facet.
fn push_fields(
    alloc: Global,
    number: usize,
    units: &[UnitHere],
    facet: &Facet,
    out: &mut Seq<FacetField>,
) -> Result<(), OutOfMemory>
    ensures { OnOk result (out.new ≡ out.old ++ fields_of (find (is_below number) (map unit_shown units.now)) facet.now) }
{
    match facet {
        Facet::One(shows) => out.push(field_by(alloc, number, units, FACET, &shows.definition)?),
        Facet::Cross(cross) => {
            push_field(alloc, number, units, ROW, &cross.row, out)?;
            push_field(alloc, number, units, COLUMN, &cross.column, out)
        }
    }
}

// Whether a unit is one of a view's.
fn is_below(number: usize, unit: &UnitHere) -> bool
    ensures { result ≡ is_below number (unit_shown unit.now) }
{
    for here in unit.round.as_slice() {
        if here.number == number {
            return true;
        }
    }
    false
}

// Adds the number of a unit, if it is one of a view's.
fn push_below(number: usize, unit: &UnitHere, out: &mut Seq<usize>) -> Result<(), OutOfMemory>
    ensures { OnOk result (out.new ≡ out.old ++ option_to_list (number_below number (unit_shown unit.now))) }
{
    if is_below(number, unit) {
        out.push(unit.number)
    } else {
        Ok(())
    }
}

// The numbers of a view's units.
fn units_below(alloc: Global, number: usize, units: &[UnitHere]) -> Result<Seq<usize>, OutOfMemory>
    ensures { IfOk result (λ out. out ≡ units_below number (map unit_shown units.now)) }
{
    let mut out = Seq::new(alloc);
    for unit in units {
        push_below(number, unit, &mut out)?;
    }
    Ok(out)
}

// How the view of a number parts rows.
fn facet_plan(
    alloc: Global,
    units: &[UnitHere],
    number: usize,
    facet: &Facet,
) -> Result<FacetPlan, OutOfMemory>
    ensures { IfOk result (λ plan. plan ≡ facet_plan (map unit_shown units.now) number facet.now) }
{
    let below = units_below(alloc, number, units)?;
    let mut fields = Seq::new(alloc);
    push_fields(alloc, number, units, facet, &mut fields)?;
    Ok(FacetPlan {
        fields,
        units: below,
    })
}

// As many columns as a number says, or one row.
fn columns_said(columns: Option<Num>) -> GridColumns
    ensures { result ≡ columns_said columns }
{
    match columns {
        Some(n) => GridColumns::Count(count_of(n)),
        None => GridColumns::OneRow,
    }
}

// The `columns` of a definition.
fn columns_in(definition: &Definition) -> Option<Num>
    ensures { result ≡ columns_in definition.now }
{
    match definition {
        Definition::Value(_) => None,
        Definition::Datum(_) => None,
        Definition::Field(of) => of.columns,
    }
}

// The columns by rows and columns.
fn crossed_columns(cross: &CrossFacet) -> GridColumns
    ensures { result ≡ crossed_columns cross.now }
{
    if cross.column.is_some() {
        if cross.row.is_some() {
            GridColumns::Crossed
        } else {
            GridColumns::OneRow
        }
    } else {
        GridColumns::Count(1)
    }
}

// The columns of a facet of one field.
fn one_columns(columns: Option<Num>, definition: &Definition) -> GridColumns
    ensures { result ≡ columns_said (option_or columns (columns_in definition.now)) }
{
    match columns {
        Some(n) => columns_said(Some(n)),
        None => columns_said(columns_in(definition)),
    }
}

// The columns of a facet.
fn facet_columns(columns: Option<Num>, facet: &Facet) -> GridColumns
    ensures { result ≡ facet_columns columns facet.now }
{
    match facet {
        Facet::One(shows) => one_columns(columns, &shows.definition),
        Facet::Cross(cross) => crossed_columns(cross),
    }
}

// The columns of joined views.
fn joined_columns(columns: Option<Num>, joining: Joining) -> GridColumns
    ensures { result ≡ joined_columns columns joining }
{
    match joining {
        Joining::Row => GridColumns::OneRow,
        Joining::Column => GridColumns::Count(1),
        Joining::Grid => columns_said(columns),
    }
}

// The space between the cells of a grid.
fn spacing_of(spacing: Option<Num>) -> Num
    ensures { result ≡ unwrap_or spacing usual_spacing }
{
    match spacing {
        Some(spacing) => spacing,
        None => match Num::of_millionths(20_000_000) {
            Some(spacing) => spacing,
            None => unreachable!(),
        },
    }
}

// The grid of a faceted view.
fn faceted_grid(
    alloc: Global,
    units: &[UnitHere],
    here: &ViewHere,
    faceted: &Faceted,
) -> Result<GridPlan, OutOfMemory>
    ensures { IfOk result (λ grid. grid ≡ faceted_grid (map unit_shown units.now) (view_shown here.now) (facet_at (out-Faceted faceted.now))) }
{
    let title = Copies::copied(&here.view.title, alloc)?;
    let facet = facet_plan(alloc, units, here.number, &faceted.facet)?;
    Ok(GridPlan {
        number: here.number,
        facet: Some(facet),
        columns: facet_columns(faceted.columns, &faceted.facet),
        spacing: spacing_of(faceted.spacing),
        title,
    })
}

// The grid of joined views.
fn joined_grid(alloc: Global, here: &ViewHere, joined: &Joined) -> Result<GridPlan, OutOfMemory>
    ensures { IfOk result (λ grid. grid ≡ joined_grid (view_shown here.now) (joined_at (out-Joined joined.now))) }
{
    let title = Copies::copied(&here.view.title, alloc)?;
    Ok(GridPlan {
        number: here.number,
        facet: None,
        columns: joined_columns(joined.columns, joined.joining),
        spacing: spacing_of(joined.spacing),
        title,
    })
}

// The grid of a view by its kind, if it is one.
fn grid_by(
    alloc: Global,
    units: &[UnitHere],
    here: &ViewHere,
    kind: &ViewKind,
) -> Result<Option<GridPlan>, OutOfMemory>
    ensures { IfOk result (λ grid. grid ≡ grid_by (map unit_shown units.now) (view_shown here.now) (kind_of kind.now)) }
{
    match kind {
        ViewKind::Unit(_) | ViewKind::Layer(_) => Ok(None),
        ViewKind::Facet(faceted) => faceted_grid(alloc, units, here, faceted).map(Some),
        ViewKind::Joined(joined) => joined_grid(alloc, here, joined).map(Some),
    }
}

// The grid of a view, if it is one.
fn grid_in(
    alloc: Global,
    units: &[UnitHere],
    here: &ViewHere,
) -> Result<Option<GridPlan>, OutOfMemory>
    ensures { IfOk result (λ grid. grid ≡ grid_in (map unit_shown units.now) (view_shown here.now)) }
{
    grid_by(alloc, units, here, &here.view.kind)
}

// Whether the grid of a number is there.
fn is_there(number: usize, grids: &[GridPlan]) -> bool
    ensures { result ≡ is_there number grids.now }
{
    for grid in grids {
        if grid.number == number {
            return true;
        }
    }
    false
}

// Adds the grid of a view.
fn push_new(
    alloc: Global,
    units: &[UnitHere],
    here: &ViewHere,
    grids: &mut Seq<GridPlan>,
) -> Result<(), OutOfMemory>
    ensures { OnOk result (grids.new ≡ grids.old ++ option_to_list (grid_in (map unit_shown units.now) (view_shown here.now))) }
{
    match grid_in(alloc, units, here)? {
        Some(grid) => grids.push(grid),
        None => Ok(()),
    }
}

// The same, unless it is there.
fn push_grid(
    alloc: Global,
    units: &[UnitHere],
    here: &ViewHere,
    grids: &mut Seq<GridPlan>,
) -> Result<(), OutOfMemory>
    ensures { OnOk result (grids.new ≡ with_grid (map unit_shown units.now) grids.old (view_shown here.now)) }
{
    if is_there(here.number, grids.as_slice()) {
        Ok(())
    } else {
        push_new(alloc, units, here, grids)
    }
}

// Adds the grids among the views round a unit.
fn push_grids(
    alloc: Global,
    units: &[UnitHere],
    round: &[ViewHere],
    grids: &mut Seq<GridPlan>,
) -> Result<(), OutOfMemory>
    ensures { OnOk result (grids.new ≡ fold (with_grid (map unit_shown units.now)) grids.old (round_shown round.now)) }
{
    for here in round {
        push_grid(alloc, units, here, grids)?;
    }
    Ok(())
}

/// The grids round some units, an outer one before those in it, and else in the order of the text.
pub(crate) fn grids_of(alloc: Global, units: &[UnitHere]) -> Result<Seq<GridPlan>, OutOfMemory>
    ensures { IfOk result (λ grids. grids ≡ grids_of (map unit_shown units.now)) }
{
    let mut grids = Seq::new(alloc);
    for unit in units {
        push_grids(alloc, units, unit.round.as_slice(), &mut grids)?;
    }
    Ok(grids)
}
