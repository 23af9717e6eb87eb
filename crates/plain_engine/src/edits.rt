//! What a change does to the rows of a source.
ghost use Rattle.std.specs.Prelude.{◌≡◌, ◌≤◌, length, map, unwrap_or, IfOk, OnOk};
ghost use Rattle.std.specs.Option.{option_map};
ghost use Rattle.std.specs.Result.{result_map_both};
ghost use Rattle.cell_value.specs.State.{greatest_id, most_rows};
ghost use Rattle.expr_eval.specs.Answers.{Evaluates};
ghost use Rattle.cell_value.specs.Datum.{datum_of, datum_with};
ghost use Rattle.param_flow.specs.Change.{setting_of, removal_of, modified, row_after, rows_after, count_staying};
ghost use Rattle.plain_engine.specs.inner.Fits.{Fits};
ghost use Rattle.plain_engine.specs.inner.Edits.{after_edit, with_edit, data_edited, datum_after, with_setting};

use cell_value::{Cell, Keyed};
use expr_eval::{EvalError, ParamReader};
use expr_syntax::Expr;
use param_flow::{ChangeOf, Modify};
use plain_rows::{eval_row, eval_test};
use std::alloc::Global;
use text_kit::{Boxed, OutOfMemory, Seq, Text};

// The name under which every row reads as its id.
const ID_NAME: &str = "_vgsid_";

/// What becomes of a row.
#[derive(Debug, Drop)]
pub enum Edit {
    /// It stays as it is.
    Stay,
    /// It is removed.
    Remove,
    /// It is modified, to this row.
    Modify(Boxed<Keyed>),
}

/// What becomes of rows.
#[derive(Debug, Drop)]
pub struct Edits {
    /// What becomes of each, in order.
    pub each: Seq<Edit>,
    /// How many count as rows that stay.
    pub staying: usize,
    /// Whether an expression is out of range.
    pub overflows: bool,
}

// The cell that an entry sets in a row; None where its test doesn't hold.
fn cell_set<P: ParamReader>(
    alloc: Global,
    entry: &Modify,
    row: &Keyed,
    params: &P,
) -> Result<Option<Cell>, EvalError>
    requires { row.now.key.id ≤ greatest_id }
    ensures { Evaluates (result_map_both (option_map (λ cell. (entry.now.field, cell))) (λ e. e) result)
        (setting_of (P.values params.now) (datum_of row.now) entry.now) }
{
    if eval_test(alloc, &entry.test, row, params)? {
        Ok(Some(eval_row(alloc, &entry.value, row, params)?))
    } else {
        Ok(None)
    }
}

// What was made of a row so far, or a copy of it.
fn begun(so_far: Option<Keyed>, row: &Keyed) -> Result<Keyed, OutOfMemory>
    ensures { IfOk result (λ now. now ≡ unwrap_or so_far row.now) }
{
    match so_far {
        Some(now) => Ok(now),
        None => row.copy(),
    }
}

// A row with a cell set, from the row as it was and what was made of it so far. The id can't be set.
fn with_cell(
    so_far: Option<Keyed>,
    row: &Keyed,
    name: &Text,
    cell: Cell,
) -> Result<Option<Keyed>, OutOfMemory>
    ensures { IfOk result (λ now. datum_after now row.now ≡ datum_with name.now cell (datum_after so_far row.now)) }
{
    if name.as_str() == ID_NAME {
        return Ok(so_far);
    }
    let mut made = begun(so_far, row)?;
    made.row.set(name.copy()?, cell)?;
    Ok(Some(made))
}

// A row as the next entry modifies it, from the row as it was and what was made of it so far.
fn with_entry<P: ParamReader>(
    alloc: Global,
    entry: &Modify,
    row: &Keyed,
    so_far: Option<Keyed>,
    params: &P,
) -> Result<Option<Keyed>, EvalError>
    requires { row.now.key.id ≤ greatest_id }
    ensures { Evaluates (result_map_both (λ made. datum_after made row.now) (λ e. e) result)
        (option_map (λ setting. with_setting setting (datum_after so_far row.now))
        (setting_of (P.values params.now) (datum_of row.now) entry.now)) }
{
    match cell_set(alloc, entry, row, params)? {
        Some(cell) => Ok(with_cell(so_far, row, &entry.field, cell)?),
        None => Ok(so_far),
    }
}

// A row as entries modify it; None where they set nothing.
fn modified<P: ParamReader>(
    alloc: Global,
    entries: &[Modify],
    row: &Keyed,
    params: &P,
) -> Result<Option<Keyed>, EvalError>
    requires { row.now.key.id ≤ greatest_id }
    ensures { Evaluates (result_map_both (λ made. datum_after made row.now) (λ e. e) result)
        (modified (P.values params.now) entries.now (datum_of row.now)) }
{
    let mut made = None;
    for entry in entries {
        match with_entry(alloc, entry, row, made, params) {
            Ok(now) => made = now,
            Err(e) => return Err(e),
        }
    }
    Ok(made)
}

// Whether a row is removed.
fn is_removed<P: ParamReader>(
    alloc: Global,
    remove: &Option<Expr>,
    row: &Keyed,
    params: &P,
) -> Result<bool, EvalError>
    requires { row.now.key.id ≤ greatest_id }
    ensures { Evaluates result (removal_of (P.values params.now) remove.now (datum_of row.now)) }
{
    match remove {
        Some(test) => eval_test(alloc, test, row, params),
        None => Ok(false),
    }
}

// What becomes of a row.
fn edit_of<P: ParamReader>(
    alloc: Global,
    change: &ChangeOf,
    row: &Keyed,
    params: &P,
) -> Result<Edit, EvalError>
    requires { row.now.key.id ≤ greatest_id }
    ensures { Evaluates (result_map_both (λ edit. option_map datum_of (after_edit edit row.now)) (λ e. e) result)
        (row_after (P.values params.now) change.now (datum_of row.now)) }
{
    if is_removed(alloc, &change.remove, row, params)? {
        return Ok(Edit::Remove);
    }
    match modified(alloc, change.modify.as_slice(), row, params)? {
        Some(now) => Ok(Edit::Modify(Boxed::new(alloc, now)?)),
        None => Ok(Edit::Stay),
    }
}

// What becomes of a row; None where an expression is out of range.
fn edit_if_known<P: ParamReader>(
    alloc: Global,
    change: &ChangeOf,
    row: &Keyed,
    params: &P,
) -> Result<Option<Edit>, OutOfMemory>
    requires { row.now.key.id ≤ greatest_id }
    ensures { IfOk result (λ edit. option_map (λ edit. option_map datum_of (after_edit edit row.now)) edit
        ≡ row_after (P.values params.now) change.now (datum_of row.now)) }
{
    match edit_of(alloc, change, row, params) {
        Ok(edit) => Ok(Some(edit)),
        Err(EvalError::Overflow) => Ok(None),
        Err(EvalError::Memory) => Err(OutOfMemory),
    }
}

// Adds what becomes of the next row. Where an expression is out of range the row counts as one that stays.
fn add(edits: &mut Edits, next: Option<Edit>) -> Result<(), OutOfMemory>
    requires { edits.old.staying ≤ most_rows }
    ensures { OnOk result (edits.new ≡ with_edit edits.old next) }
{
    match next {
        Some(Edit::Stay) => {
            edits.staying += 1;
            edits.each.push(Edit::Stay)
        }
        Some(Edit::Modify(made)) => {
            edits.staying += 1;
            edits.each.push(Edit::Modify(made))
        }
        Some(Edit::Remove) => edits.each.push(Edit::Remove),
        None => {
            edits.staying += 1;
            edits.overflows = true;
            edits.each.push(Edit::Stay)
        }
    }
}

/// What a change makes of rows.
pub fn edits_of<P: ParamReader>(
    alloc: Global,
    change: &ChangeOf,
    rows: &[Keyed],
    params: &P,
) -> Result<Edits, OutOfMemory>
    requires { Fits rows.now }
    ensures each { IfOk result (λ edits. length edits.each ≡ length rows.now) }
    ensures staying { IfOk result (λ edits. edits.staying
        ≡ count_staying (P.values params.now) change.now.remove (map datum_of rows.now)) }
    ensures rows { IfOk result (λ edits. data_edited edits rows.now
        ≡ rows_after (P.values params.now) change.now (map datum_of rows.now)) }
{
    let mut edits = Edits {
        each: Seq::with_capacity(alloc, rows.len())?,
        staying: 0,
        overflows: false,
    };
    for row in rows {
        let next = edit_if_known(alloc, change, row, params)?;
        add(&mut edits, next)?;
    }
    Ok(edits)
}
