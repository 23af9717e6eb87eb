// Bins: the field, the given extent and width, how many bins there are at most, and the names of the start and the end between blanks, a
// tab, and the rows. The answer is the extent of the field, and the rows.
ghost use Rattle.std.specs.Prelude.{◌<ℤ◌, pos, IfOk, IfSome};
ghost use Rattle.plain_rows.specs.Rows.{AreRows};

use crate::keys::one_each;
use crate::said::{say_answer, say_pair};
use crate::spelled::{number_by, word_or_none};
use cell_value::{Rows, SharedText};
use fixed_num::Num;
use plain_bins::{bin, extent_of};
use plain_rows::BinOf;
use std::alloc::Global;
use text_kit::{OutOfMemory, Text};

// Two decimals; None for a dash.
fn extent_by(word: &str) -> Option<(Num, Num)> {
    let (first, second) = word.split_once('~')?;
    Some((number_by(first)?, number_by(second)?))
}

// A width above 0; None for a dash.
fn width_by(word: &str) -> Option<Num>
    ensures { IfSome result (λ step. pos 0 <ℤ step) }
{
    let step = number_by(word)?;
    if step.millionths() > 0 {
        Some(step)
    } else {
        None
    }
}

// The bins of six words between blanks.
fn bins_by(alloc: Global, words: &str) -> Result<BinOf, OutOfMemory>
    ensures { IfOk result (λ b. IfSome b.step (λ step. pos 0 <ℤ step)) }
{
    let mut words = words.split(' ');
    let field = Text::of(alloc, word_or_none(words.next()))?;
    let extent = extent_by(word_or_none(words.next()));
    let step = width_by(word_or_none(words.next()));
    let maxbins = word_or_none(words.next()).parse::<u32>().unwrap_or(1);
    let out = SharedText::of(alloc, word_or_none(words.next()))?;
    let out_end = SharedText::of(alloc, word_or_none(words.next()))?;
    Ok(BinOf {
        field,
        extent,
        step,
        maxbins,
        out,
        out_end,
    })
}

// Adds an extent.
fn say_extent(text: &mut Text, extent: Option<(Num, Num)>) -> Result<(), OutOfMemory> {
    match extent {
        Some((low, high)) => say_pair(text, low, "~", high)?,
        None => text.push_str("-")?,
    }
    text.push_str(" ")
}

// What is found for some bins and rows.
fn said(alloc: Global, b: &BinOf, rows: &Rows) -> Result<Text, OutOfMemory>
    requires step { IfSome b.now.step (λ step. pos 0 <ℤ step) }
    requires rows { AreRows rows.now }
{
    let mut text = Text::new(alloc);
    say_extent(&mut text, extent_of(rows.as_slice(), b.field.as_str()))?;
    say_answer(&mut text, &bin(alloc, rows, b), false)?;
    Ok(text)
}

// What is found for some bins and the rows of a list.
fn said_of_list(alloc: Global, b: &BinOf, list: &str) -> Result<Text, OutOfMemory>
    requires { IfSome b.now.step (λ step. pos 0 <ℤ step) }
{
    said(alloc, b, &one_each(alloc, list)?)
}

/// What is found for a question.
pub(crate) fn found(alloc: Global, told: &str) -> Result<Text, OutOfMemory> {
    let Some((words, list)) = told.split_once('\t') else {
        return Text::of(alloc, "no rows");
    };
    let bins = bins_by(alloc, words)?;
    said_of_list(alloc, &bins, list)
}
