//! The rows that the marks of a chart draw.
ghost use Rattle.std.specs.Prelude.{◌≡◌, ◌++◌, ◌∷◌, [], ℕ, ◌+◌, ◌<◌, ◌≤◌, ◌^◌, Some, true, map, find, IfOk, OnOk, option_copied};
ghost use Rattle.cell_value.specs.Datum.{cell_at, datum_of};
ghost use Rattle.cell_value.specs.State.{dataset_of, greatest_id};
ghost use Rattle.expr_eval.specs.Stores.{values_of_stores};
ghost use Rattle.mark_encode.specs.Orders.{data_of};
ghost use Rattle.param_flow.specs.UnitRows.{has_key};
ghost use Rattle.plain_rows.specs.Rows.{AreRows};
ghost use Rattle.vega_lists.specs.Held.{scope_read, AreAllRows, AreSources};
ghost use Rattle.vega_spec.specs.declared.spec.Group.{out-Group};
ghost use Rattle.vega_spec.specs.declared.spec.VgMark.{out-VgMark};
ghost use Rattle.vega_copies.specs.declared.made.CopiesMade.{out-CopiesMade};
ghost use Rattle.vega_copies.specs.declared.made.CopyMade.{out-CopyMade};
ghost use Rattle.vega_copies.specs.Outlines.{count_marks};
ghost use Rattle.vega_copies.specs.Tested.{KeepsRules};
ghost use Rattle.vega_copies.specs.inner.Kept.{KeepsAll};
ghost use Rattle.vega_copies.specs.inner.Levels.{names_at, rows_at, rows_behind, AreNames, AreLevels};
ghost use Rattle.vega_copies.specs.inner.Made.{levels_behind, HaveCopies, IsCopyMade, OneMade};
ghost use Rattle.vega_copies.specs.inner.Outlined.{is_group, marks_in, marks_of, plain_of};
ghost use Rattle.vega_copies.specs.inner.Standing.{MayStand};
ghost use Rattle.vega_charts.specs.Charts.{drawing_of};
ghost use Rattle.vega_charts.specs.inner.Outcomes.{drawn_within};
ghost use Rattle.vega_charts.specs.inner.Topped.{names_on_top, rows_on_top};
ghost use Rattle.vega_meaning.specs.UnitRows.{has_keys, unit_rows};
ghost use Rattle.plain_engine.specs.inner.Drawn.{IsDrawnOver, StopsDrawing};
ghost use Rattle.plain_engine.specs.inner.Rows.{entries_of, entries_of_copies, entries_of_copy, entries_of_mark, entries_of_rows};
ghost use Rattle.plain_engine.specs.inner.Rows.{has_unit_and_key, seen, told, TellsRows};

use crate::drawn_row::DrawnRow;
use cell_value::{Cell, Key, Keyed, Named, Steps, StoreOf};
use expr_eval::{EvalError, PlainRow, RowReader, Stores};
use param_flow::UnitRows;
use std::alloc::Global;
use std::sync::ledger::Ledger;
use text_kit::{OutOfMemory, Seq, Text};
use vega_charts::rows_of_mark;
use vega_copies::{
    CopiesMade, CopyMade, Level, NamesAt, count_marks_of, is_group, level_with, made_in, marks_in,
    with_level,
};
use vega_spec::{MarkType, VgMark, VgSpec};

/// The rows that marks draw.
#[derive(Drop)]
pub struct DrawnRows {
    /// Where the cells of rows are made.
    alloc: Global,
    /// The rows, in the order in which they are drawn.
    pub rows: Seq<DrawnRow>,
}

// Whether items of a mark have keys: rects and symbols.
fn has_keys(type_: MarkType) -> bool
    ensures { result ≡ has_keys type_ }
{
    match type_ {
        MarkType::Rect | MarkType::Symbol => true,
        MarkType::Line | MarkType::Area | MarkType::Rule | MarkType::Text | MarkType::Group =>
            false,
    }
}

// Adds a row of a mark.
fn push_row(unit: u32, row: &Keyed, out: &mut Seq<DrawnRow>) -> Result<(), OutOfMemory>
    requires { row.now.key.id ≤ greatest_id }
    ensures { OnOk result (map seen out.new ≡ map seen out.old ++ (unit, datum_of row.now) ∷ []) }
{
    let drawn = DrawnRow::of(unit, row)?;
    out.push(drawn)?;
    Ok(())
}

// Adds rows of a mark.
fn push_rows(unit: u32, rows: &[&Keyed], out: &mut Seq<DrawnRow>) -> Result<(), OutOfMemory>
    requires { AreRows (rows_behind rows.now) }
    ensures { OnOk result (map seen out.new ≡ map seen out.old ++ entries_of_rows unit (data_of rows.now)) }
{
    for row in rows {
        push_row(unit, row, out)?;
    }
    Ok(())
}

// Adds the rows that a mark other than a group draws in a copy of the object that has it.
fn push_listed(
    alloc: Global,
    names: &NamesAt,
    mark: &VgMark,
    unit: u32,
    out: &mut Seq<DrawnRow>,
) -> Result<(), OutOfMemory>
    requires names { AreNames names.now }
    ensures { OnOk result (map seen out.new ≡ map seen out.old
        ++ entries_of_mark unit (plain_of (out-VgMark mark.now)) (scope_read (rows_at names.now.sources.now names.now.levels.now))) }
{
    if has_keys(mark.type_) {
        let rows = rows_of_mark(alloc, names, &mark.from)?;
        push_rows(unit, rows.as_slice(), out)
    } else {
        Ok(())
    }
}

// Adds the rows that marks draw in a copy of the object that has them, where they are numbered from this number on.
#[cycle(listing)]
fn push_inside(
    alloc: Global,
    names: &NamesAt,
    marks: &[VgMark],
    made: &[CopiesMade],
    first: u32,
    out: &mut Seq<DrawnRow>,
) -> Result<(), OutOfMemory>
    requires names { AreNames names.now }
    requires marks { HaveCopies names.now.stores.now names.now.sources.now names.now.levels.now marks.now made.now }
    requires few { first + count_marks (marks_of marks.now) < 2 ^ 32 }
    ensures { OnOk result (map seen out.new ≡ map seen out.old
        ++ entries_of names.now.sources.now first (marks_of marks.now) (levels_behind names.now.levels.now) made.now) }
{
    let mut at = 0;
    let mut unit = first;
    for mark in marks {
        push_mark(alloc, names, mark, &made[at], unit, out)?;
        unit += count_marks_of(mark);
        at += 1;
    }
    Ok(())
}

// Adds the rows that a mark draws.
#[cycle(listing)]
fn push_mark(
    alloc: Global,
    names: &NamesAt,
    mark: &VgMark,
    made: &CopiesMade,
    unit: u32,
    out: &mut Seq<DrawnRow>,
) -> Result<(), OutOfMemory>
    requires names { AreNames names.now }
    requires marks { MayStand (rows_at names.now.sources.now names.now.levels.now) (mark.now ∷ []) }
    requires made { OneMade names.now.stores.now names.now.sources.now (levels_behind names.now.levels.now) mark.now made.now }
    requires few { unit + count_marks (marks_of (mark.now ∷ [])) < 2 ^ 32 }
    ensures { OnOk result (map seen out.new ≡ map seen out.old
        ++ entries_of names.now.sources.now unit (marks_of (mark.now ∷ [])) (levels_behind names.now.levels.now) (made.now ∷ [])) }
{
    if is_group(mark) {
        push_copies(alloc, names, mark, made, unit, out)
    } else {
        push_listed(alloc, names, mark, unit, out)
    }
}

// Adds the rows that the marks in the copies of a group draw.
#[cycle(listing)]
fn push_copies(
    alloc: Global,
    names: &NamesAt,
    mark: &VgMark,
    made: &CopiesMade,
    unit: u32,
    out: &mut Seq<DrawnRow>,
) -> Result<(), OutOfMemory>
    requires names { AreNames names.now }
    requires marks { MayStand (rows_at names.now.sources.now names.now.levels.now) (mark.now ∷ []) }
    requires made { OneMade names.now.stores.now names.now.sources.now (levels_behind names.now.levels.now) mark.now made.now }
    requires few { unit + count_marks (marks_of (mark.now ∷ [])) < 2 ^ 32 }
    requires group { is_group (out-VgMark mark.now) ≡ true }
    ensures { OnOk result (map seen out.new ≡ map seen out.old
        ++ entries_of_copies names.now.sources.now unit (out-VgMark mark.now) (levels_behind names.now.levels.now) (out-CopiesMade made.now).copies) }
{
    let copies = made.copies.as_slice();
    for copy in copies {
        push_copy(alloc, names, mark, copy, unit, out)?;
    }
    Ok(())
}

// Adds those of one copy.
#[cycle(listing)]
fn push_copy(
    alloc: Global,
    outer: &NamesAt,
    mark: &VgMark,
    copy: &CopyMade,
    unit: u32,
    out: &mut Seq<DrawnRow>,
) -> Result<(), OutOfMemory>
    requires names { AreNames outer.now }
    requires marks { MayStand (rows_at outer.now.sources.now outer.now.levels.now) (mark.now ∷ []) }
    requires copy { IsCopyMade outer.now.stores.now outer.now.sources.now (levels_behind outer.now.levels.now) (out-VgMark mark.now) copy.now }
    requires few { unit + count_marks (marks_of (mark.now ∷ [])) < 2 ^ 32 }
    requires group { is_group (out-VgMark mark.now) ≡ true }
    ensures { OnOk result (map seen out.new ≡ map seen out.old
        ++ entries_of_copy outer.now.sources.now unit (out-VgMark mark.now) (levels_behind outer.now.levels.now) copy.now) }
{
    let levels = with_level(alloc, &copy.level, outer.levels)?;
    push_entered(
        alloc,
        outer.stores,
        outer.sources,
        levels.as_slice(),
        mark,
        copy,
        unit,
        out,
    )
}

// The same where these are the levels of names in it.
#[cycle(listing)]
fn push_entered<'x>(
    alloc: Global,
    stores: &'x Stores<'x>,
    sources: &'x [Named],
    levels: &'x [&'x Level],
    mark: &VgMark,
    copy: &CopyMade,
    unit: u32,
    out: &mut Seq<DrawnRow>,
) -> Result<(), OutOfMemory>
    requires names { AreLevels sources.now levels.now }
    requires marks { HaveCopies stores.now sources.now levels.now (marks_in (out-Group (out-VgMark mark.now).group)) (out-CopyMade copy.now).inside }
    requires few { unit + count_marks (marks_of (mark.now ∷ [])) < 2 ^ 32 }
    requires group { is_group (out-VgMark mark.now) ≡ true }
    ensures { OnOk result (map seen out.new ≡ map seen out.old
        ++ entries_of sources.now unit (marks_of (marks_in (out-Group (out-VgMark mark.now).group))) (levels_behind levels.now)
        (out-CopyMade copy.now).inside) }
{
    let names = NamesAt {
        stores,
        sources,
        levels,
    };
    push_inside(
        alloc,
        &names,
        marks_in(&mark.group),
        copy.inside.as_slice(),
        unit,
        out,
    )
}

// The rows that marks draw where these copies were made of those of the top.
fn rows_of_made(
    alloc: Global,
    g: &VgSpec,
    names: &NamesAt,
    made: &[CopiesMade],
) -> Result<Seq<DrawnRow>, OutOfMemory>
    requires kept { KeepsAll g.now }
    requires names { AreNames names.now }
    requires marks { HaveCopies names.now.stores.now names.now.sources.now names.now.levels.now (marks_in (out-Group g.now.group)) made.now }
    ensures { IfOk result (TellsRows (map dataset_of names.now.sources.now) g.now (names_at names.now.stores.now names.now.sources.now names.now.levels.now)) }
{
    let mut out = Seq::new(alloc);
    push_inside(alloc, names, marks_in(&g.group), made, 0, &mut out)?;
    Ok(out)
}

// The rows that marks draw where the top has these names.
fn rows_named(alloc: Global, g: &VgSpec, names: &NamesAt) -> Result<Seq<DrawnRow>, EvalError>
    requires kept { KeepsAll g.now }
    requires names { AreNames names.now }
    requires marks { MayStand (rows_at names.now.sources.now names.now.levels.now) (marks_in (out-Group g.now.group)) }
    ensures stops { StopsDrawing result (drawn_within (map dataset_of names.now.sources.now) g.now
        (names_at names.now.stores.now names.now.sources.now names.now.levels.now)) }
    ensures rows { IfOk result
        (TellsRows (map dataset_of names.now.sources.now) g.now (names_at names.now.stores.now names.now.sources.now names.now.levels.now)) }
{
    match made_in(alloc, names, marks_in(&g.group)) {
        Ok(made) => Ok(rows_of_made(alloc, g, names, made.as_slice())?),
        Err(error) => Err(error),
    }
}

// The same where this is its level of names.
fn rows_with<'x>(
    alloc: Global,
    g: &VgSpec,
    stores: &'x Stores<'x>,
    sources: &'x [Named],
    level: &'x Level,
) -> Result<Seq<DrawnRow>, EvalError>
    requires kept { KeepsAll g.now }
    requires sources { AreSources sources.now }
    requires rows { AreAllRows (rows_on_top sources.now level.now) }
    requires marks { MayStand (rows_on_top sources.now level.now) (marks_in (out-Group g.now.group)) }
    ensures stops { StopsDrawing result (drawn_within (map dataset_of sources.now) g.now (names_on_top stores.now sources.now level.now)) }
    ensures rows { IfOk result (TellsRows (map dataset_of sources.now) g.now (names_on_top stores.now sources.now level.now)) }
{
    match with_level(alloc, &*level, &[]) {
        Ok(levels) => {
            let names = NamesAt {
                stores,
                sources,
                levels: levels.as_slice(),
            };
            rows_named(alloc, g, &names)
        }
        Err(_) => Err(EvalError::Memory),
    }
}

// The rows that the marks of a specification draw, where something is drawn; else where the evaluation stops.
fn rows_over<'x>(
    alloc: Global,
    g: &VgSpec,
    stores: &'x Stores<'x>,
    sources: &'x [Named],
    params: &[(Text, Cell)],
) -> Result<Seq<DrawnRow>, EvalError>
    requires kept { KeepsRules g.now }
    requires sources { AreSources sources.now }
    ensures stops { StopsDrawing result (drawing_of g.now (values_of_stores stores.now) params.now (map dataset_of sources.now)) }
    ensures rows { IfOk result (λ rows. IsDrawnOver g.now (values_of_stores stores.now) params.now (map dataset_of sources.now)
        → (unit : ℕ) → told rows unit ≡ unit_rows g.now (values_of_stores stores.now) params.now (map dataset_of sources.now) unit) }
{
    let nowhere = NamesAt {
        stores: &*stores,
        sources: &*sources,
        levels: &[],
    };
    match level_with(alloc, &nowhere, &g.group, Seq::new(alloc), params) {
        Ok(level) => rows_with(alloc, g, &*stores, &*sources, &level),
        Err(error) => Err(error),
    }
}

/// The rows that the marks of a specification draw, over sources of rows, values of the parameters that can be set, and stores of its selections.
/// What is drawn of them is in range. The time is near linear in the rows that are drawn, and in those of all lists.
pub fn drawn_rows(
    alloc: Global,
    g: &VgSpec,
    sources: &[Named],
    params: &[(Text, Cell)],
    stores: &[StoreOf],
) -> Result<DrawnRows, OutOfMemory>
    requires kept { KeepsRules g.now }
    requires sources { AreSources sources.now }
    requires drawn { IsDrawnOver g.now (values_of_stores stores.now) params.now (map dataset_of sources.now) }
    ensures { IfOk result (λ found. (unit : ℕ) → told found.rows unit
        ≡ unit_rows g.now (values_of_stores stores.now) params.now (map dataset_of sources.now) unit) }
{
    let read = Stores::of(alloc, stores)?;
    match rows_over(alloc, g, &read, sources, params) {
        Ok(rows) => Ok(DrawnRows { alloc, rows }),
        Err(EvalError::Memory) => Err(OutOfMemory),
        Err(EvalError::Overflow) => unreachable!(),
    }
}

// Whether a row has a key.
fn has_key(key: Key, row: &Keyed) -> bool
    ensures { result ≡ has_key key (datum_of row.now) }
{
    row.key.id == key.id && row.key.branch == key.branch
}

// Whether a row is one of a mark, with a key.
fn has_unit_and_key(unit: u32, key: Key, row: &DrawnRow) -> bool
    ensures { result ≡ has_unit_and_key unit key row.now }
{
    row.unit == unit && has_key(key, &row.keyed)
}

// The first row of a mark that has a key.
fn row_named(rows: &[DrawnRow], unit: u32, key: Key) -> Option<&DrawnRow>
    ensures { option_copied result ≡ find (has_unit_and_key unit key) rows.now }
{
    for row in rows {
        if has_unit_and_key(unit, key, row) {
            return Some(row);
        }
    }
    None
}

// The cell of a row under a name.
fn cell_of<L: Ledger>(
    alloc: Global,
    row: &DrawnRow,
    name: &str,
    steps: &mut Steps<L>,
) -> Result<Cell, OutOfMemory>
    ensures cell { IfOk result (λ cell. cell ≡ cell_at row.now.keyed name.now) }
    ensures still { steps.new ≡ steps.old }
{
    PlainRow::of(&row.keyed).field(alloc, name, steps)
}

impl UnitRows for DrawnRows {
    ghost rows = { λ found unit. Some (told found.rows unit) };

    ghost tells = { λ found unit name. true };

    fn cell<L: Ledger>(
        &self,
        unit: u32,
        key: Key,
        name: &str,
        steps: &mut Steps<L>,
    ) -> Result<Cell, OutOfMemory> {
        let Some(row) = row_named(self.rows.as_slice(), unit, key) else {
            unreachable!();
        };
        cell_of(self.alloc, row, name, steps)
    }
}
