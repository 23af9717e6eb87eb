// Stacks: the offset, the fields of the partitions, those of the order, the field with the new names, and the rows between tabs.
ghost use Rattle.plain_rows.specs.Rows.{AreRows};

use crate::keys::two_each;
use crate::said::said_of_answer;
use crate::spelled::{names_of, sort_of, word_or_none};
use cell_value::{Rows, SharedText};
use plain_rows::{Offset, StackOf};
use plain_stacks::stack;
use std::alloc::Global;
use text_kit::{OutOfMemory, Text};

// The offset of a word.
fn offset_of(word: &str) -> Offset {
    match word {
        "normalize" => Offset::Normalize,
        "center" => Offset::Center,
        _ => Offset::Zero,
    }
}

// The field of a stack, and the names of the start and the end.
fn stacked_by(alloc: Global, names: &str) -> Result<(Text, SharedText, SharedText), OutOfMemory> {
    let mut names = names.split(':');
    let field = Text::of(alloc, word_or_none(names.next()))?;
    let out = SharedText::of(alloc, word_or_none(names.next()))?;
    let out_end = SharedText::of(alloc, word_or_none(names.next()))?;
    Ok((field, out, out_end))
}

// The stacks of four words.
fn stacks_by(
    alloc: Global,
    offset: &str,
    fields: &str,
    sort: &str,
    names: &str,
) -> Result<StackOf, OutOfMemory> {
    let (field, out, out_end) = stacked_by(alloc, names)?;
    let groupby = names_of(alloc, fields)?;
    Ok(StackOf {
        field,
        groupby,
        sort: sort_of(alloc, sort)?,
        offset: offset_of(offset),
        out,
        out_end,
    })
}

// What a stack gives.
fn said(alloc: Global, s: &StackOf, rows: &Rows) -> Result<Text, OutOfMemory>
    requires { AreRows rows.now }
{
    said_of_answer(alloc, &stack(alloc, rows, s), true)
}

// What a stack gives of the rows of a list.
fn said_of_list(alloc: Global, s: &StackOf, list: &str) -> Result<Text, OutOfMemory> {
    said(alloc, s, &two_each(alloc, list)?)
}

/// What is found for a question.
pub(crate) fn found(alloc: Global, told: &str) -> Result<Text, OutOfMemory> {
    let mut words = told.split('\t');
    let offset = word_or_none(words.next());
    let fields = word_or_none(words.next());
    let sort = word_or_none(words.next());
    let stacks = stacks_by(alloc, offset, fields, sort, word_or_none(words.next()))?;
    said_of_list(alloc, &stacks, word_or_none(words.next()))
}
