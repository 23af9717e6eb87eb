// Questions and their answers.
ghost use Rattle.std.specs.Prelude.{◌≤◌, IfSome, IsSome};
ghost use Rattle.scale_kit.specs.Scale.{IsScale};
ghost use Rattle.guide_kit.specs.Signs.{sign_kind_of};

use crate::scales::{cells_of, number_by, scale_of};
use crate::shown::{said_of_axis, said_of_item, said_of_legend};
use case_table::channel_of;
use cell_value::Cell;
use fixed_num::Num;
use guide_kit::{AxisOf, GuideError, LegendOf, Side, axis_of, has_legend, legend_of, title_of};
use scale_kit::Scale;
use std::alloc::Global;
use text_kit::{OutOfMemory, Seq, Text};

// A text of its own.
fn text(alloc: Global, text: &str) -> Result<Text, OutOfMemory> {
    Text::of(alloc, text)
}

// A text, where there is one: after `=`.
fn text_given(alloc: Global, word: &str) -> Result<Option<Text>, OutOfMemory> {
    match word.strip_prefix("=") {
        Some(rest) => Ok(Some(Text::of(alloc, rest)?)),
        None => Ok(None),
    }
}

// Cells, where they are given: after `=`.
fn cells_given(alloc: Global, word: &str) -> Result<Option<Seq<Cell>>, OutOfMemory> {
    match word.strip_prefix("=") {
        Some(rest) => Ok(Some(cells_of(alloc, rest)?)),
        None => Ok(None),
    }
}

fn side_of(word: &str) -> Side {
    match word {
        "bottom" => Side::Bottom,
        "top" => Side::Top,
        "left" => Side::Left,
        _ => Side::Right,
    }
}

// A count from 1 to 1,000.
fn count_of(word: &str) -> Option<u32>
    ensures { IfSome result (λ n. (1 ≤ n) × (n ≤ 1000)) }
{
    match word.parse::<u32>() {
        Ok(count) => {
            if 1 <= count && count <= 1_000 {
                Some(count)
            } else {
                None
            }
        }
        Err(_) => None,
    }
}

// The number of a decimal, 0 where it is none.
fn number_or_zero(word: &str) -> Num {
    match number_by(word) {
        Some(number) => number,
        None => match Num::of_millionths(0) {
            Some(zero) => zero,
            None => unreachable!(),
        },
    }
}

// A word of a question, empty where there is none.
fn at<'a>(words: &[&'a str], i: usize) -> &'a str {
    match words.get(i) {
        Some(word) => word,
        None => "",
    }
}

// The answer of an axis.
fn axis_answer(
    alloc: Global,
    axis: &AxisOf,
    s: &Scale,
    width: Num,
    height: Num,
    offset: Num,
) -> Result<Text, OutOfMemory>
    requires scale { IsScale s.now }
    requires count { IfSome axis.now.count (λ n. (1 ≤ n) × (n ≤ 1000)) }
{
    match axis_of(alloc, axis, s, width, height, offset) {
        Ok(guide) => said_of_axis(alloc, &guide),
        Err(GuideError::Overflow) => text(alloc, "overflow"),
        Err(GuideError::Memory) => text(alloc, "no memory"),
    }
}

// The answer of a legend.
fn legend_answer(alloc: Global, legend: &LegendOf, s: &Scale) -> Result<Text, OutOfMemory>
    requires scale { IsScale s.now }
    requires channel { IsSome (sign_kind_of legend.now.channel) }
{
    match legend_of(alloc, legend, s) {
        Ok(block) => said_of_legend(alloc, &block),
        Err(GuideError::Overflow) => text(alloc, "overflow"),
        Err(GuideError::Memory) => text(alloc, "no memory"),
    }
}

// What the words of an axis say that takes memory: its title, its values and its format.
type AxisTexts = (Option<Text>, Option<Seq<Cell>>, Option<Text>);

fn axis_texts(alloc: Global, w: &[&str]) -> Result<AxisTexts, OutOfMemory> {
    let title = text_given(alloc, at(w, 7))?;
    let format = text_given(alloc, at(w, 10))?;
    Ok((title, cells_given(alloc, at(w, 9))?, format))
}

// An axis, with the letters of the parts that it has: labels, ticks, domain line, grid, turned labels.
fn axis_by(w: &[&str], texts: AxisTexts) -> AxisOf
    ensures { IfSome result.count (λ n. (1 ≤ n) × (n ≤ 1000)) }
{
    let (title, values, format) = texts;
    let parts = at(w, 6);
    AxisOf {
        side: side_of(at(w, 5)),
        title,
        labels: parts.contains('l'),
        ticks: parts.contains('t'),
        line: parts.contains('d'),
        grid: parts.contains('g'),
        turned: parts.contains('r'),
        count: count_of(at(w, 8)),
        values,
        format,
    }
}

// The answer to a question about an axis.
fn of_axis(alloc: Global, w: &[&str], s: &Scale) -> Result<Text, OutOfMemory>
    requires { IsScale s.now }
{
    let (width, height) = (number_or_zero(at(w, 11)), number_or_zero(at(w, 12)));
    let offset = number_or_zero(at(w, 13));
    let texts = axis_texts(alloc, w)?;
    axis_answer(alloc, &axis_by(w, texts), s, width, height, offset)
}

// What the words of a legend say that takes memory: its title, its format and its colour.
type LegendTexts = (Option<Text>, Option<Text>, Text);

fn legend_texts(alloc: Global, w: &[&str]) -> Result<LegendTexts, OutOfMemory> {
    let title = text_given(alloc, at(w, 6))?;
    let format = text_given(alloc, at(w, 7))?;
    Ok((title, format, Text::of(alloc, at(w, 8))?))
}

// The answer to a question about a legend of a channel.
fn of_channel(alloc: Global, w: &[&str], s: &Scale, channel: u16) -> Result<Text, OutOfMemory>
    requires scale { IsScale s.now }
    requires channel { IsSome (sign_kind_of channel) }
{
    let (title, format, colour) = legend_texts(alloc, w)?;
    let legend = LegendOf {
        channel,
        title,
        format,
        colour,
    };
    legend_answer(alloc, &legend, s)
}

// The answer to a question about a legend.
fn of_legend(alloc: Global, w: &[&str], s: &Scale) -> Result<Text, OutOfMemory>
    requires { IsScale s.now }
{
    let Some(channel) = channel_of(at(w, 5)) else {
        return text(alloc, "no channel");
    };
    if !has_legend(channel) {
        return text(alloc, "no legend");
    }
    of_channel(alloc, w, s, channel)
}

// The answer to a question about a title.
fn of_title(alloc: Global, w: &[&str]) -> Result<Text, OutOfMemory> {
    match title_of(
        alloc,
        at(w, 1),
        number_or_zero(at(w, 2)),
        number_or_zero(at(w, 3)),
    ) {
        Ok(item) => said_of_item(alloc, &item),
        Err(_) => text(alloc, "no memory"),
    }
}

// The answer to a question about a guide of a scale.
fn of_scale(alloc: Global, w: &[&str], s: &Scale) -> Result<Text, OutOfMemory> {
    if !s.is_sound() {
        return text(alloc, "no sound scale");
    }
    match at(w, 0) {
        "axis" => of_axis(alloc, w, s),
        "legend" => of_legend(alloc, w, s),
        _ => text(alloc, "no question"),
    }
}

// The answer to a question by its words.
fn answer_by(alloc: Global, w: &[&str]) -> Result<Text, OutOfMemory> {
    if at(w, 0) == "title" {
        return of_title(alloc, w);
    }
    match scale_of(alloc, at(w, 1), at(w, 2), at(w, 3), at(w, 4))? {
        Some(s) => of_scale(alloc, w, &s),
        None => text(alloc, "no scale"),
    }
}

/// The answer to a question: what is asked, the kind, the numbers, the domain and the range of a scale, and then what its guide shows.
pub(crate) fn answer_to(alloc: Global, question: &str) -> Result<Text, OutOfMemory> {
    let mut words = Seq::new(alloc);
    for word in question.split('\t') {
        words.push(word)?;
    }
    answer_by(alloc, words.as_slice())
}
