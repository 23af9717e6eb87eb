// Rows that are read and transformed: what a call is told and the data as JSON with a tab between them; the answer is JSON too.
use crate::transformed::{folded, folded_twice, looked_up};
use crate::{shown, told};
use cell_value::Rows;
use json_exact::Json;
use plain_rows::{FoldOf, LookupOf};
use std::alloc::Global;
use text_kit::{OutOfMemory, Text};

/// Why a line has no answer.
#[derive(Clone, Copy, Debug)]
pub(crate) enum CallStop {
    /// It isn't as it should be.
    Shape,
    /// Memory was refused.
    Memory,
}

impl From<OutOfMemory> for CallStop {
    fn from(_: OutOfMemory) -> CallStop {
        CallStop::Memory
    }
}

// The tree of a text.
fn tree_of(alloc: Global, text: &str) -> Result<Json, CallStop> {
    match json_exact::read(alloc, text.as_bytes()) {
        Ok(tree) => Ok(tree),
        Err(_) => Err(CallStop::Shape),
    }
}

// The rows of a tree of JSON.
fn of_json(alloc: Global, how: &Json, data: &Json) -> Result<Json, CallStop> {
    let kinds = told::kinds(alloc, how)?;
    shown::read(alloc, data_rows::rows_of_json(alloc, data, &kinds))
}

// The rows of bytes of CSV.
fn of_csv(alloc: Global, how: &Json, data: &Json) -> Result<Json, CallStop> {
    let bytes = told::bytes(alloc, data)?;
    let kinds = told::kinds(alloc, how)?;
    let rows = data_rows::rows_of_csv(alloc, bytes.as_slice(), &kinds);
    shown::read(alloc, rows)
}

// What one fold makes of rows.
fn fold(alloc: Global, how: &Json, data: &Json) -> Result<Rows, CallStop> {
    let how = told::fold(alloc, how)?;
    let rows = told::rows(alloc, data)?;
    folded(alloc, &rows, &how, 2)
}

// What two folds make of rows, one after the other.
fn fold_twice(
    alloc: Global,
    first: &FoldOf,
    second: &FoldOf,
    data: &Json,
) -> Result<Rows, CallStop> {
    folded_twice(alloc, &told::rows(alloc, data)?, first, second)
}

// What two folds that are told make of rows.
fn folds(alloc: Global, how: &Json, data: &Json) -> Result<Rows, CallStop> {
    let (first, second) = told::two(how)?;
    let first = told::fold(alloc, first)?;
    let second = told::fold(alloc, second)?;
    fold_twice(alloc, &first, &second, data)
}

// What a lookup makes of rows in others.
fn look_up(alloc: Global, how: &LookupOf, rows: &Json, other: &Json) -> Result<Rows, CallStop> {
    let rows = told::rows(alloc, rows)?;
    let other = told::rows(alloc, other)?;
    looked_up(alloc, &rows, &other, how)
}

// What a lookup that is told makes of the first list of rows in the second.
fn lookup(alloc: Global, how: &Json, data: &Json) -> Result<Rows, CallStop> {
    let (rows, other) = told::two(data)?;
    let how = told::lookup(alloc, how)?;
    look_up(alloc, &how, rows, other)
}

// What a call that transforms rows answers.
fn transformed(alloc: Global, call: &str, how: &Json, data: &Json) -> Result<Json, CallStop> {
    let rows = match call {
        "fold" => fold(alloc, how, data)?,
        "folds" => folds(alloc, how, data)?,
        "lookup" => lookup(alloc, how, data)?,
        _ => return Err(CallStop::Shape),
    };
    shown::keyed(alloc, &rows)
}

// What a call answers.
fn answer_of(alloc: Global, call: &str, how: &Json, data: &Json) -> Result<Json, CallStop> {
    match call {
        "json" => of_json(alloc, how, data),
        "csv" => of_csv(alloc, how, data),
        _ => transformed(alloc, call, how, data),
    }
}

// What a call answers that is told the text of its data.
fn answer_over(alloc: Global, call: &str, how: &Json, data: &str) -> Result<Json, CallStop> {
    let data = tree_of(alloc, data)?;
    let answer = answer_of(alloc, call, how, &data);
    drop(data);
    answer
}

// What a call answers that is told a text.
fn answer(alloc: Global, call: &str, told: &str) -> Result<Json, CallStop> {
    let Some((how, data)) = told.split_once('\t') else {
        return Err(CallStop::Shape);
    };
    let how = tree_of(alloc, how)?;
    let answer = answer_over(alloc, call, &how, data);
    drop(how);
    answer
}

/// What is found for a question.
pub(crate) fn found(alloc: Global, call: &str, told: &str) -> Result<Text, OutOfMemory> {
    match answer(alloc, call, told) {
        Ok(tree) => {
            let text = json_exact::write(alloc, &tree);
            drop(tree);
            text
        }
        Err(CallStop::Shape) => Text::of(alloc, "no call"),
        Err(CallStop::Memory) => Err(OutOfMemory),
    }
}
