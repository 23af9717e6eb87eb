// Names that are made.
ghost use Rattle.std.specs.Prelude.{◌≡◌, ◌++◌, [], option_map, slice_get, unwrap_or, codes, IfOk, OnOk};
ghost use Rattle.std.specs.Fmt.{decimal};
ghost use Rattle.std.specs.Option.{option_map_or};
ghost use Rattle.case_table.specs.declared.case.Case.{Case as ACase};
ghost use Rattle.plan_kit.specs.declared.scales.ScalePlan.{ScalePlan as AScalePlan};
ghost use Rattle.vega_assemble.specs.Names.{numbered, numbered_twice, none_name, unit_name, begun_name, cells_name, ranks_name, codes_name, outer_name};
ghost use Rattle.vega_assemble.specs.Names.{orders_name, keys_name, cell_column, rank_column, key_column, mark_name, channel_word, scale_name};
ghost use Rattle.vega_assemble.specs.Names.{middle_name, foot_name, drag_name};

use case_table::{CHANNELS, Case};
use plan_kit::ScalePlan;
use std::alloc::Global;
use text_kit::{OutOfMemory, Text};

// Adds an underscore and a number.
fn push_number(text: &mut Text, n: usize) -> Result<(), OutOfMemory>
    ensures { OnOk result (text.new ≡ text.old ++ codes "_" ++ decimal n) }
{
    let mut digits = itoa::Buffer::new();
    text.push_str("_")?;
    text.push_str(digits.format(n))
}

// A word with a number.
fn numbered(alloc: Global, word: &str, n: usize) -> Result<Text, OutOfMemory>
    ensures { IfOk result (λ name. name ≡ numbered word.now n) }
{
    let mut name = Text::of(alloc, word)?;
    push_number(&mut name, n)?;
    Ok(name)
}

// A word with two numbers.
fn numbered_twice(alloc: Global, word: &str, n: usize, m: usize) -> Result<Text, OutOfMemory>
    ensures { IfOk result (λ name. name ≡ numbered_twice word.now n m) }
{
    let mut name = numbered(alloc, word, n)?;
    push_number(&mut name, m)?;
    Ok(name)
}

// A name behind the stem.
fn stemmed(stem: &Text, name: &str) -> Result<Text, OutOfMemory>
    ensures { IfOk result (λ made. made ≡ stem.now ++ name.now) }
{
    let mut made = stem.copy()?;
    made.push_str(name)?;
    Ok(made)
}

// A word with a number behind the stem.
fn stemmed_one(alloc: Global, stem: &Text, word: &str, n: usize) -> Result<Text, OutOfMemory>
    ensures { IfOk result (λ made. made ≡ stem.now ++ numbered word.now n) }
{
    let name = numbered(alloc, word, n)?;
    stemmed(stem, name.as_str())
}

// A word with two numbers behind the stem.
fn stemmed_two(
    alloc: Global,
    stem: &Text,
    word: &str,
    n: usize,
    m: usize,
) -> Result<Text, OutOfMemory>
    ensures { IfOk result (λ made. made ≡ stem.now ++ numbered_twice word.now n m) }
{
    let name = numbered_twice(alloc, word, n, m)?;
    stemmed(stem, name.as_str())
}

/// The name of the data set without rows, and of the signal of its extent.
pub(crate) fn none_name(stem: &Text) -> Result<Text, OutOfMemory>
    ensures { IfOk result (λ name. name ≡ none_name stem.now) }
{
    stemmed(stem, "none")
}

/// The name of the rows of a unit.
pub(crate) fn unit_name(alloc: Global, stem: &Text, unit: usize) -> Result<Text, OutOfMemory>
    ensures { IfOk result (λ name. name ≡ unit_name stem.now unit) }
{
    stemmed_one(alloc, stem, "unit", unit)
}

/// The name of its rows before its aggregate.
pub(crate) fn begun_name(alloc: Global, stem: &Text, unit: usize) -> Result<Text, OutOfMemory>
    ensures { IfOk result (λ name. name ≡ begun_name stem.now unit) }
{
    stemmed_one(alloc, stem, "begun", unit)
}

/// The name of the cells of a column of a scale's domain.
pub(crate) fn cells_name(
    alloc: Global,
    stem: &Text,
    scale: usize,
    column: usize,
) -> Result<Text, OutOfMemory>
    ensures { IfOk result (λ name. name ≡ cells_name stem.now scale column) }
{
    stemmed_two(alloc, stem, "cells", scale, column)
}

/// The name of the ranks by which the cells of a scale stand.
pub(crate) fn ranks_name(alloc: Global, stem: &Text, scale: usize) -> Result<Text, OutOfMemory>
    ensures { IfOk result (λ name. name ≡ ranks_name stem.now scale) }
{
    stemmed_one(alloc, stem, "ranks", scale)
}

/// The name of the numbers that the cells of a field have by which a scale's ranks are told apart.
pub(crate) fn codes_name(
    alloc: Global,
    stem: &Text,
    scale: usize,
    field: usize,
) -> Result<Text, OutOfMemory>
    ensures { IfOk result (λ name. name ≡ codes_name stem.now scale field) }
{
    stemmed_two(alloc, stem, "codes", scale, field)
}

/// The name of the cells of a column as they are outside facets.
pub(crate) fn outer_name(
    alloc: Global,
    stem: &Text,
    scale: usize,
    column: usize,
) -> Result<Text, OutOfMemory>
    ensures { IfOk result (λ name. name ≡ outer_name stem.now scale column) }
{
    stemmed_two(alloc, stem, "outer", scale, column)
}

/// The name of what the cells of a facet's field have by rows.
pub(crate) fn orders_name(
    alloc: Global,
    stem: &Text,
    facet: usize,
    field: usize,
) -> Result<Text, OutOfMemory>
    ensures { IfOk result (λ name. name ≡ orders_name stem.now facet field) }
{
    stemmed_two(alloc, stem, "orders", facet, field)
}

/// The name of the keys of a unit's rows in a facet.
pub(crate) fn keys_name(
    alloc: Global,
    stem: &Text,
    facet: usize,
    unit: usize,
) -> Result<Text, OutOfMemory>
    ensures { IfOk result (λ name. name ≡ keys_name stem.now facet unit) }
{
    stemmed_two(alloc, stem, "keys", facet, unit)
}

/// The name of the column of a cell that is shown.
pub(crate) fn cell_column(stem: &Text) -> Result<Text, OutOfMemory>
    ensures { IfOk result (λ name. name ≡ cell_column stem.now) }
{
    stemmed(stem, "the_cell")
}

/// The name of the column by which cells stand.
pub(crate) fn rank_column(stem: &Text) -> Result<Text, OutOfMemory>
    ensures { IfOk result (λ name. name ≡ rank_column stem.now) }
{
    stemmed(stem, "the_rank")
}

/// The name of the column of a facet's keys for a field.
pub(crate) fn key_column(alloc: Global, stem: &Text, field: usize) -> Result<Text, OutOfMemory>
    ensures { IfOk result (λ name. name ≡ key_column stem.now field) }
{
    stemmed_one(alloc, stem, "key", field)
}

/// The name of the mark of a unit.
pub(crate) fn mark_name(alloc: Global, stem: &Text, unit: usize) -> Result<Text, OutOfMemory>
    ensures { IfOk result (λ name. name ≡ mark_name stem.now unit) }
{
    stemmed_one(alloc, stem, "mark", unit)
}

// The name at a place of a table; empty where there is none.
fn name_in(table: &[Case], place: usize) -> &'static str
    ensures { result.now ≡ unwrap_or (option_map (λ (c : ACase). c.name.now) (slice_get table.now place)) [] }
{
    match table.get(place) {
        Some(case) => case.name,
        None => "",
    }
}

// The word of a channel by its code.
fn channel_word(code: u16) -> &'static str
    ensures { result.now ≡ channel_word code }
{
    name_in(&CHANNELS, usize::from(code))
}

// The word of the channel of a scale by its number; empty where there is none.
fn word_of(scales: &[ScalePlan], number: usize) -> &'static str
    ensures { result.now ≡ option_map_or (λ (s : AScalePlan). channel_word s.channel) (slice_get scales.now number) [] }
{
    match scales.get(number) {
        Some(scale) => channel_word(scale.channel),
        None => "",
    }
}

/// The name of a scale of the plan by its number.
pub(crate) fn scale_name(
    alloc: Global,
    stem: &Text,
    scales: &[ScalePlan],
    number: usize,
) -> Result<Text, OutOfMemory>
    ensures { IfOk result (λ name. name ≡ scale_name stem.now scales.now number) }
{
    stemmed_one(alloc, stem, word_of(scales, number), number)
}

// A word and that of a channel behind the stem.
fn along(alloc: Global, stem: &Text, word: &str, channel: u16) -> Result<Text, OutOfMemory>
    ensures { IfOk result (λ name. name ≡ stem.now ++ word.now ++ channel_word channel) }
{
    let _ = alloc;
    let mut name = stemmed(stem, word)?;
    name.push_str(channel_word(channel))?;
    Ok(name)
}

/// The name of the scale over which places stand in the middle of a plot.
pub(crate) fn middle_name(alloc: Global, stem: &Text, channel: u16) -> Result<Text, OutOfMemory>
    ensures { IfOk result (λ name. name ≡ middle_name stem.now channel) }
{
    along(alloc, stem, "middle_", channel)
}

/// The name of the scale over which places stand at the foot of a plot.
pub(crate) fn foot_name(alloc: Global, stem: &Text, channel: u16) -> Result<Text, OutOfMemory>
    ensures { IfOk result (λ name. name ≡ foot_name stem.now channel) }
{
    along(alloc, stem, "foot_", channel)
}

/// The name of the scales that the drags of a selection invert along a channel.
pub(crate) fn drag_name(
    alloc: Global,
    stem: &Text,
    selection: usize,
    channel: u16,
) -> Result<Text, OutOfMemory>
    ensures { IfOk result (λ name. name ≡ drag_name stem.now selection channel) }
{
    let mut name = stemmed_one(alloc, stem, "drag", selection)?;
    name.push_str("_")?;
    name.push_str(channel_word(channel))?;
    Ok(name)
}
