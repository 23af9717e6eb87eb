//! Edits put in place, and taken back.
ghost use Rattle.std.specs.Prelude.{◌≡◌, ◌≤◌, ◌+◌, ◌<◌, ◌++◌, ◌∷◌, List, length, vec_len, vec_capacity, IfOk, OnErr};
ghost use Rattle.std.specs.Option.{option_to_list};
ghost use Rattle.std.specs.Vec.Iter.{into_iter_items, into_iter_len};
ghost use Rattle.plain_engine.specs.declared.undo.Mark.{Mark as MarkOf};
ghost use Rattle.plain_engine.specs.inner.Edits.{after_edit, edited};
ghost use Rattle.plain_engine.specs.inner.Undo.{mark_of, marked, restored, taken_back};

use crate::edits::Edit;
use crate::undo::{Mark, Undo};
use cell_value::{Keyed, Rows};
use std::alloc::Global;
use std::mem::replace;
use std::vec::IntoIter;
use text_kit::{OutOfMemory, Seq};

// Puts a row where its edit leaves it, at the end of `kept`, and gives its mark.
fn put(kept: &mut Vec<Keyed>, row: Keyed, edit: Edit) -> Mark
    requires { vec_len kept.old < vec_capacity kept.old }
    ensures capacity { vec_capacity kept.new ≡ vec_capacity kept.old }
    ensures len { vec_len kept.new ≤ vec_len kept.old + 1 }
    ensures rows { kept.new.items ≡ kept.old.items ++ option_to_list (after_edit edit row) }
    ensures mark { result ≡ mark_of edit row }
{
    match edit {
        Edit::Stay => {
            kept.push_reserved(row);
            Mark::Stay
        }
        Edit::Remove => Mark::Insert(row),
        Edit::Modify(made) => {
            kept.push_reserved(made.into_inner());
            Mark::Replace(row)
        }
    }
}

// Puts rows where their edits leave them, and their marks beside.
fn settle(rows: Vec<Keyed>, edits: Vec<Edit>, kept: &mut Vec<Keyed>, marks: &mut Vec<Mark>)
    requires each { length edits.items ≡ length rows.items }
    requires kept { vec_len kept.old + length rows.items ≤ vec_capacity kept.old }
    requires marks { vec_len marks.old + length rows.items ≤ vec_capacity marks.old }
    ensures capacity { vec_capacity kept.new ≡ vec_capacity kept.old }
    ensures len { vec_len kept.new ≤ vec_len kept.old + length rows.items }
    ensures rows { kept.new.items ≡ kept.old.items ++ edited edits.items rows.items }
    ensures marks { marks.new.items ≡ marks.old.items ++ marked edits.items rows.items }
{
    let mut edits = edits.into_iter();
    for row in rows {
        let edit = edits.next().unwrap_or(Edit::Stay);
        marks.push_reserved(put(kept, row, edit));
    }
}

// Adds rows at the end.
fn add_all(kept: &mut Vec<Keyed>, more: Vec<Keyed>)
    requires { vec_len kept.old + length more.items ≤ vec_capacity kept.old }
    ensures { kept.new.items ≡ kept.old.items ++ more.items }
{
    for row in more {
        kept.push_reserved(row);
    }
}

/// Makes of rows what edits make of them, and adds rows at the end. What is given takes that back. Where memory is refused the rows
/// stay.
pub fn commit(
    alloc: Global,
    rows: &mut Rows,
    edits: Seq<Edit>,
    more: Rows,
) -> Result<Undo, OutOfMemory>
    requires { length edits ≡ length rows.old }
    ensures done { IfOk result (λ undo. rows.new ≡ edited edits rows.old ++ more) }
    ensures back { IfOk result (λ undo. taken_back undo rows.new ≡ rows.old) }
    ensures kept { OnErr result (rows.new ≡ rows.old) }
{
    let Some(total) = rows.len().checked_add(more.len()) else {
        return Err(OutOfMemory);
    };
    let mut kept = Vec::with_capacity(alloc, total)?;
    let mut marks = Vec::with_capacity(alloc, rows.len())?;
    let spare = Vec::with_capacity(alloc, rows.len())?;
    let old = replace(rows, Seq::new(alloc)).into_vec();
    settle(old, edits.into_vec(), &mut kept, &mut marks);
    add_all(&mut kept, more.into_vec());
    *rows = Seq::from_vec(kept);
    Ok(Undo {
        marks: Seq::from_vec(marks),
        spare,
    })
}

// The row that a mark brings back, from the rows that follow.
fn brought_back(mark: Mark, rows: &mut IntoIter<Keyed>) -> Option<Keyed>
    requires { into_iter_len rows.old ≡ length (into_iter_items rows.old) }
    ensures len { into_iter_len rows.new ≡ length (into_iter_items rows.new) }
    ensures rows { (marks : List MarkOf) → option_to_list result ++ restored marks (into_iter_items rows.new)
        ≡ restored (mark ∷ marks) (into_iter_items rows.old) }
{
    match mark {
        Mark::Stay => rows.next(),
        Mark::Insert(row) => Some(row),
        Mark::Replace(row) => {
            let _ = rows.next();
            Some(row)
        }
    }
}

// Adds the rows that marks bring back of these rows.
fn restore(old: &mut Vec<Keyed>, marks: Vec<Mark>, rows: Vec<Keyed>)
    requires { vec_len old.old + length marks.items ≤ vec_capacity old.old }
    ensures { old.new.items ≡ old.old.items ++ restored marks.items rows.items }
{
    let mut rows = rows.into_iter();
    for mark in marks {
        if let Some(row) = brought_back(mark, &mut rows) {
            old.push_reserved(row);
        }
    }
}

/// Takes back what was made of rows. It needs no memory.
pub fn take_back(alloc: Global, rows: &mut Rows, undo: Undo)
    ensures { rows.new ≡ taken_back undo rows.old }
{
    let Undo { marks, mut spare } = undo;
    spare.clear();
    let now = replace(rows, Seq::new(alloc)).into_vec();
    restore(&mut spare, marks.into_vec(), now);
    *rows = Seq::from_vec(spare);
}
