// Facets: the fields, the order or a dash, whether the copies are crossed or found, and the lists of rows with `!` between them, between
// tabs. The answer are the cells of the fields, those of the copies, and for each list the ids of the rows of each copy.
ghost use Rattle.std.specs.Prelude.{IfOk, OnOk};
ghost use Rattle.plain_facets.specs.Facets.{AreDifferent};
ghost use Rattle.plain_facets.specs.Rows.{HaveIds};

use crate::keys::one_each;
use crate::said::{say_cell, say_id};
use crate::spelled::{names_of, sort_of, word_or_none};
use cell_value::{Cell, Keyed, Rows};
use plain_facets::{DividedBy, cells_of_copies, cells_of_fields, parts_of};
use plain_rows::SortBy;
use std::alloc::Global;
use text_kit::{OutOfMemory, Seq, Text};

// The rows of several lists.
fn lists_of(alloc: Global, words: &str) -> Result<Seq<Rows>, OutOfMemory> {
    let mut lists = Seq::new(alloc);
    for word in words.split('!') {
        lists.push(one_each(alloc, word)?)?;
    }
    Ok(lists)
}

// The fields of an order; None for a dash.
fn order_of(alloc: Global, word: &str) -> Result<Option<Seq<SortBy>>, OutOfMemory> {
    if word == "-" {
        return Ok(None);
    }
    Ok(Some(sort_of(alloc, word)?))
}

// How rows are divided.
fn divided_by(
    alloc: Global,
    fields: &str,
    order: &str,
    way: &str,
) -> Result<DividedBy, OutOfMemory> {
    let fields = names_of(alloc, fields)?;
    Ok(DividedBy {
        fields,
        sort: order_of(alloc, order)?,
        crosses: way == "crossed",
    })
}

// Adds a row, where its id is small.
#[tactic(auto, using(crate::proofs::ShownLemmas::one_row_more))]
fn show<'a>(shown: &mut Seq<&'a Keyed>, row: &'a Keyed) -> Result<(), OutOfMemory>
    requires { HaveIds shown.old }
    ensures { OnOk result (HaveIds shown.new) }
{
    if row.key.id > 100_000 {
        return Ok(());
    }
    shown.push(row)
}

// Adds the rows of a list.
fn show_all<'a>(shown: &mut Seq<&'a Keyed>, rows: &'a [Keyed]) -> Result<(), OutOfMemory>
    requires { HaveIds shown.old }
    ensures { OnOk result (HaveIds shown.new) }
{
    for row in rows {
        show(shown, row)?;
    }
    Ok(())
}

// The rows of lists, list after list.
fn all_shown(alloc: Global, lists: &[Rows]) -> Result<Seq<&Keyed>, OutOfMemory>
    ensures { IfOk result (λ shown. HaveIds shown) }
{
    let mut shown = Seq::new(alloc);
    for list in lists {
        show_all(&mut shown, list.as_slice())?;
    }
    Ok(shown)
}

// Adds cells.
fn say_cells(text: &mut Text, cells: &[Cell]) -> Result<(), OutOfMemory> {
    for cell in cells {
        say_cell(text, cell)?;
        text.push_str(",")?;
    }
    text.push_str(";")
}

// Adds lists of cells.
fn say_lists(text: &mut Text, lists: &[Seq<Cell>]) -> Result<(), OutOfMemory> {
    for cells in lists {
        say_cells(text, cells.as_slice())?;
    }
    text.push_str("#")
}

// Adds the ids of rows.
fn say_ids(text: &mut Text, rows: &[&Keyed]) -> Result<(), OutOfMemory> {
    for row in rows {
        say_id(text, row.key.id)?;
        text.push_str(",")?;
    }
    text.push_str(";")
}

// Adds the ids of the rows of each copy.
fn say_parts(
    text: &mut Text,
    alloc: Global,
    fields: &[Text],
    copies: &[Seq<Cell>],
    list: &[Keyed],
) -> Result<(), OutOfMemory>
    requires { AreDifferent copies.now }
{
    let mut rows = Seq::new(alloc);
    show_all(&mut rows, list)?;
    let parts = parts_of(alloc, fields, copies, rows.as_slice())?;
    for part in parts.as_slice() {
        say_ids(text, part.as_slice())?;
    }
    text.push_str("#")
}

// Adds the ids of the rows of each copy, list after list.
fn say_all_parts(
    text: &mut Text,
    alloc: Global,
    fields: &[Text],
    copies: &[Seq<Cell>],
    lists: &[Rows],
) -> Result<(), OutOfMemory>
    requires { AreDifferent copies.now }
{
    for list in lists {
        say_parts(text, alloc, fields, copies, list.as_slice())?;
    }
    Ok(())
}

// Adds the cells of the fields.
fn say_fields(
    text: &mut Text,
    alloc: Global,
    d: &DividedBy,
    rows: &[&Keyed],
) -> Result<(), OutOfMemory>
    requires { HaveIds rows.now }
{
    let fields = cells_of_fields(alloc, d, rows)?;
    say_lists(text, fields.as_slice())
}

// Adds the cells of the copies, and the ids of the rows of each.
fn say_copies(
    text: &mut Text,
    alloc: Global,
    d: &DividedBy,
    rows: &[&Keyed],
    lists: &[Rows],
) -> Result<(), OutOfMemory>
    requires { HaveIds rows.now }
{
    let copies = cells_of_copies(alloc, d, rows)?;
    say_lists(text, copies.as_slice())?;
    say_all_parts(text, alloc, d.fields.as_slice(), copies.as_slice(), lists)
}

// Adds how rows are divided.
fn say_division(
    text: &mut Text,
    alloc: Global,
    d: &DividedBy,
    lists: &[Rows],
) -> Result<(), OutOfMemory> {
    let rows = all_shown(alloc, lists)?;
    say_fields(text, alloc, d, rows.as_slice())?;
    say_copies(text, alloc, d, rows.as_slice(), lists)
}

// How rows are divided.
fn division(alloc: Global, d: &DividedBy, lists: &[Rows]) -> Result<Text, OutOfMemory> {
    let mut text = Text::new(alloc);
    say_division(&mut text, alloc, d, lists)?;
    Ok(text)
}

// How the rows of lists are divided.
fn division_of(alloc: Global, d: &DividedBy, words: &str) -> Result<Text, OutOfMemory> {
    let lists = lists_of(alloc, words)?;
    division(alloc, d, lists.as_slice())
}

/// What is found for a question.
pub(crate) fn found(alloc: Global, told: &str) -> Result<Text, OutOfMemory> {
    let mut words = told.split('\t');
    let fields = word_or_none(words.next());
    let order = word_or_none(words.next());
    let d = divided_by(alloc, fields, order, word_or_none(words.next()))?;
    division_of(alloc, &d, word_or_none(words.next()))
}
