// Rows that are given as JSON.
ghost use Rattle.std.specs.Prelude.{◌≡◌, [], ◌∷◌, codes, IfOk, List, option_copied, length, map};
ghost use Rattle.json_exact.specs.declared.json.Json.{out-Json};
ghost use Rattle.data_rows.specs.Outcome.{GivesRows, all_rows, numbered};
ghost use Rattle.data_rows.specs.JsonRows.{cell_in, is_huge, cells_of, fields_in, row_of_json, bad_field, parsed_fields, json_row, rows_of_json};
ghost use Rattle.data_rows.specs.Parse.{parsed_as};
ghost use Rattle.data_rows.specs.inner.JsonNames.{huge_name};

use crate::cells::text_cell;
use crate::kinds::Kinds;
use crate::{ParseKind, RowError};
use cell_value::{Held, Row, SharedText, TextPool};
use json_exact::{Json, Member};
use std::alloc::Global;
use std::slice;
use text_kit::{OutOfMemory, Seq, Text};

/// The name under which every row reads as its id, whatever it holds there.
pub(crate) const ID_NAME: &str = "_vgsid_";

/// The rows of a JSON value, of which the texts of some fields are parsed. A list gives a row for each of its values, any other value
/// one row. An object's members are its row's cells, with lists and objects read as null; a value that is no list and no object
/// stands under `data`; a member `_vgsid_` is dropped. `Fault` comes exactly where a row is bad, and names the first: a list is bad
/// as a whole, and a number out of range makes its field bad. Of several kinds under one name the last holds.
pub fn rows_of_json(
    alloc: Global,
    tree: &Json,
    parse: &Seq<(Text, ParseKind)>,
) -> Result<Seq<Row>, RowError>
    ensures { GivesRows result (rows_of_json parse.now tree.now) }
{
    let kinds = Kinds::of(alloc, parse.as_slice())?;
    match tree {
        Json::List(items) => rows_of_values(alloc, items.as_slice(), &kinds),
        Json::Null
        | Json::Flag(_)
        | Json::Number(_)
        | Json::Huge
        | Json::Text(_)
        | Json::Object(_) => rows_of_values(alloc, slice::from_ref(tree), &kinds),
    }
}

// The rows of values.
fn rows_of_values(alloc: Global, trees: &[Json], kinds: &Kinds) -> Result<Seq<Row>, RowError>
    ensures { GivesRows result (all_rows 0 (map (json_row kinds.now.parse.now) trees.now)) }
{
    let mut rows = Seq::with_capacity(alloc, trees.len())?;
    let mut pool = TextPool::new(alloc)?;
    for (number, tree) in trees.iter().enumerate() {
        match json_row(alloc, &mut pool, number as u64, tree, kinds) {
            Ok(row) => rows.push(row)?,
            Err(error) => return Err(error),
        }
    }
    Ok(rows)
}

/// The row of a value, which has the number of the rows before it. The value is let go.
pub(crate) fn row_of_tree(
    alloc: Global,
    pool: &mut TextPool,
    before: &Seq<Row>,
    tree: Json,
    kinds: &Kinds,
) -> Result<Row, RowError>
    ensures { GivesRows result (numbered (length before.now) (json_row kinds.now.parse.now tree)) }
{
    json_row(alloc, pool, before.len() as u64, &tree, kinds)
}

// The row of a value, which has a number.
fn json_row(
    alloc: Global,
    pool: &mut TextPool,
    number: u64,
    tree: &Json,
    kinds: &Kinds,
) -> Result<Row, RowError>
    ensures { GivesRows result (numbered number (json_row kinds.now.parse.now tree.now)) }
{
    match bad_field(tree) {
        Some(field) => Err(RowError::Fault {
            row: number,
            field: Text::of(alloc, field)?,
        }),
        None => Ok(Row::from_shared(alloc, fields_of(alloc, pool, tree, kinds)?)?),
    }
}

/// The row of a JSON value of which nothing is parsed: an object's members are its cells, with lists and objects read as null and a
/// member `_vgsid_` dropped; any other value stands under `data`. (A value that is bad as a row gives null in the place of what is bad.)
#[tactic(auto, using(crate::proofs::JsonLemmas::nothing_is_parsed))]
pub fn row_of_json(alloc: Global, tree: &Json) -> Result<Row, OutOfMemory>
    ensures { IfOk result (λ row. row ≡ row_of_json tree.now) }
{
    let kinds = Kinds::of(alloc, &[])?;
    let mut pool = TextPool::empty(alloc);
    Row::from_shared(alloc, fields_of(alloc, &mut pool, tree, &kinds)?)
}

// The cells of a value under their names, parsed.
fn fields_of(
    alloc: Global,
    pool: &mut TextPool,
    tree: &Json,
    kinds: &Kinds,
) -> Result<Vec<(SharedText, Held)>, OutOfMemory>
    ensures { IfOk result (λ cells. cells.items ≡ parsed_fields kinds.now.parse.now (fields_in (out-Json tree.now))) }
{
    match tree {
        Json::Object(members) => cells_of(alloc, pool, members.as_slice(), kinds),
        Json::Null | Json::Flag(_) | Json::Number(_) | Json::Huge | Json::Text(_) | Json::List(_) =>
            data_field(alloc, pool, kinds.of_field("data"), tree),
    }
}

// A value that stands under `data`, parsed.
fn data_field(
    alloc: Global,
    pool: &mut TextPool,
    kind: Option<ParseKind>,
    tree: &Json,
) -> Result<Vec<(SharedText, Held)>, OutOfMemory>
    ensures { IfOk result (λ cells. cells.items ≡ (codes "data", parsed_as kind (cell_in (out-Json tree.now))) ∷ []) }
{
    let mut cells = Vec::new(alloc);
    let name = pool.shared(alloc, "data")?;
    cells.push((name, cell_in(alloc, pool, kind, tree)?))?;
    Ok(cells)
}

// The cells that members give to a row, under their names, parsed.
fn cells_of(
    alloc: Global,
    pool: &mut TextPool,
    members: &[Member],
    kinds: &Kinds,
) -> Result<Vec<(SharedText, Held)>, OutOfMemory>
    ensures { IfOk result (λ cells. cells.items ≡ parsed_fields kinds.now.parse.now (cells_of members.now)) }
{
    let mut cells = Vec::with_capacity(alloc, members.len())?;
    for member in members {
        let name = member.name.as_str();
        if name != ID_NAME {
            let cell = cell_in(alloc, pool, kinds.of_field(name), &member.value)?;
            cells.push((pool.shared(alloc, name)?, cell))?;
        }
    }
    Ok(cells)
}

// The cell of a value, parsed; a list or an object is read as null.
fn cell_in(
    alloc: Global,
    pool: &mut TextPool,
    kind: Option<ParseKind>,
    tree: &Json,
) -> Result<Held, OutOfMemory>
    ensures { IfOk result (λ cell. cell ≡ parsed_as kind (cell_in (out-Json tree.now))) }
{
    match tree {
        Json::Flag(flag) => Ok(Held::of_flag(*flag)),
        Json::Number(number) => Held::of_number(alloc, *number),
        Json::Text(text) => text_cell(alloc, pool, kind, text.as_str()),
        Json::Null | Json::Huge | Json::List(_) | Json::Object(_) => Ok(Held::null()),
    }
}

/// The first field of a row that can't be read, None where all can be: a number out of range makes its field bad. A list is no row at
/// all, which an empty name says; a number out of range that is no member stands under `data`.
pub fn bad_field(tree: &Json) -> Option<&str>
    ensures { option_copied result ≡ bad_field tree.now }
{
    match tree {
        Json::List(_) => Some(""),
        Json::Huge => Some("data"),
        Json::Object(members) => huge_name(members.as_slice()),
        Json::Null | Json::Flag(_) | Json::Number(_) | Json::Text(_) => None,
    }
}

// The name of the first member whose value is a number out of range.
fn huge_name(members: &[Member]) -> Option<&str>
    ensures { option_copied result ≡ huge_name members.now }
{
    for member in members {
        if is_huge(&member.value) {
            return Some(member.name.as_str());
        }
    }
    None
}

// Whether a value is a number out of range.
fn is_huge(tree: &Json) -> bool
    ensures { result ≡ is_huge (out-Json tree.now) }
{
    match tree {
        Json::Huge => true,
        Json::Null
        | Json::Flag(_)
        | Json::Number(_)
        | Json::Text(_)
        | Json::List(_)
        | Json::Object(_) => false,
    }
}
