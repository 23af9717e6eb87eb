// Texts.
ghost use Rattle.std.specs.Prelude.{◌≡◌, ◌*◌, pos, ◌+ℤ◌, IfOk};
ghost use Rattle.std.specs.Str.{bytes_eq};
ghost use Rattle.fixed_num.specs.Number.{million};
ghost use Rattle.fixed_num.specs.Ranges.{in_range};
ghost use Rattle.mark_shapes.specs.Texts.{anchor_named, anchor_of, is_font_size, whole_size, font_size_of, middle_below, below_named, below_of};
ghost use Rattle.mark_shapes.specs.Texts.{words_of_cell, words_or_none, place_moved, line_of_words, style_of, text_with, text_by};

use crate::numbers::zero;
use crate::shown::{Shown, or_default};
use cell_value::Cell;
use fixed_num::Num;
use guide_text::{Shows, label_of};
use scene_tree::{Anchor, Shape};
use std::alloc::Global;
use text_kit::{OutOfMemory, Text};

/// The size of a text that shows none, in pixels.
const DEFAULT_FONT_SIZE: u32 = 11;

/// How a text is set.
#[derive(Clone, Copy, Debug)]
pub struct TextStyle {
    /// The size of its font, in pixels.
    pub size: u32,
    /// Which part of it stands at its place.
    pub anchor: Anchor,
    /// How far its baseline is below its place, in pixels.
    pub below: Num,
}

// Whether two texts are the same.
fn is_word(text: &str, word: &str) -> bool
    ensures { result ≡ bytes_eq text.now word.now }
{
    text == word
}

// The anchor by the text of `align`.
fn anchor_named(name: &str) -> Anchor
    ensures { result ≡ anchor_named name.now }
{
    if is_word(name, "left") {
        Anchor::Start
    } else if is_word(name, "right") {
        Anchor::End
    } else {
        Anchor::Middle
    }
}

// The anchor that is shown.
fn anchor_of(align: Shown<Text>) -> Anchor
    ensures { result ≡ anchor_of align }
{
    match align {
        Shown::Given(name) => anchor_named(name.as_str()),
        Shown::Lacking => Anchor::Middle,
        Shown::Absent => Anchor::Middle,
    }
}

// Whether a number is whole and from 1 to 1,000.
fn is_font_size(n: Num) -> bool
    ensures { result ≡ is_font_size n }
{
    let millionths = n.millionths();
    1_000_000 <= millionths
        && millionths <= 1_000_000_000
        && millionths.unsigned_abs() % 1_000_000 == 0
}

// The size of a text by the number that is given for it.
#[tactic(auto, using(crate::proofs::TextLemmas::few_pixels))]
fn whole_size(n: Num) -> u32
    ensures { result ≡ whole_size n }
{
    if is_font_size(n) {
        (n.millionths().unsigned_abs() / 1_000_000) as u32
    } else {
        DEFAULT_FONT_SIZE
    }
}

// The size that is shown.
fn font_size_of(size: Shown<Num>) -> u32
    ensures { result ≡ font_size_of size }
{
    match size {
        Shown::Given(n) => whole_size(n),
        Shown::Lacking => DEFAULT_FONT_SIZE,
        Shown::Absent => DEFAULT_FONT_SIZE,
    }
}

// A size as a number.
fn size_in_pixels(size: u32) -> Num
    ensures { result ≡ pos (size * million) }
{
    match Num::of_millionths(i128::from(size) * 1_000_000) {
        Some(number) => number,
        None => unreachable!(),
    }
}

// How far a text stands below its place where its middle stands there.
#[tactic(auto, using(crate::proofs::TextLemmas::middle_is))]
fn middle_below(size: u32) -> Num
    ensures { result ≡ middle_below size }
{
    match Num::of_millionths(i128::from(size) * 300_000) {
        Some(number) => number,
        None => unreachable!(),
    }
}

// How far a text stands below its place by the text of `baseline`.
fn below_named(size: u32, name: &str) -> Num
    ensures { result ≡ below_named size name.now }
{
    if is_word(name, "top") {
        size_in_pixels(size)
    } else if is_word(name, "bottom") {
        zero()
    } else if is_word(name, "alphabetic") {
        zero()
    } else {
        middle_below(size)
    }
}

// How far a text stands below its place by what is shown.
fn below_of(size: u32, baseline: Shown<Text>) -> Num
    ensures { result ≡ below_of size baseline }
{
    match baseline {
        Shown::Given(name) => below_named(size, name.as_str()),
        Shown::Lacking => middle_below(size),
        Shown::Absent => middle_below(size),
    }
}

/// The words of a cell, if there is one: its label by a format where one is given, or else its display.
pub fn words_of_cell(
    alloc: Global,
    format: &Option<Text>,
    cell: &Option<Cell>,
) -> Result<Option<Text>, OutOfMemory>
    ensures { IfOk result (λ words. words ≡ words_of_cell format.now cell.now) }
{
    match cell {
        Some(cell) => Ok(Some(label_of(alloc, Shows::Cells, format, cell)?)),
        None => Ok(None),
    }
}

// The words that are shown, none where they are absent.
fn words_or_none(alloc: Global, words: Shown<Text>) -> Option<Text>
    ensures { result ≡ words_or_none words }
{
    match words {
        Shown::Absent => Some(Text::new(alloc)),
        Shown::Lacking => None,
        Shown::Given(words) => Some(words),
    }
}

// The sum of three numbers; None exactly where it is out of range.
fn sum_of_three(a: Num, b: Num, c: Num) -> Option<Num>
    ensures { result ≡ in_range (a +ℤ b +ℤ c) }
{
    Num::of_millionths(a.millionths() + b.millionths() + c.millionths())
}

// A place moved by two offsets.
fn place_moved(at: Option<Num>, first: Num, second: Option<Num>) -> Option<Option<Num>>
    ensures { result ≡ place_moved at first second }
{
    match (at, second) {
        (Some(at), Some(second)) => sum_of_three(at, first, second).map(Some),
        (Some(_), None) => Some(None),
        (None, _) => Some(None),
    }
}

// Words on one line.
fn line_of_words(
    across: Option<Num>,
    down: Option<Num>,
    anchor: Anchor,
    size: u32,
    words: Option<Text>,
) -> Option<Shape>
    ensures { result ≡ line_of_words across down anchor size words }
{
    let x = across?;
    let y = down?;
    let text = words?;
    Some(Shape::Words {
        x,
        y,
        turned: false,
        anchor,
        size,
        bold: false,
        text,
    })
}

/// How a text is set, by what is shown of its size, its anchor and its baseline.
pub fn style_of(size: Shown<Num>, align: Shown<Text>, baseline: Shown<Text>) -> TextStyle
    ensures { result ≡ style_of size align baseline }
{
    let size = font_size_of(size);
    TextStyle {
        size,
        anchor: anchor_of(align),
        below: below_of(size, baseline),
    }
}

// A text at a place, moved by its baseline and by two offsets; None exactly where it is out of range.
fn text_with(
    style: TextStyle,
    x: Option<Num>,
    y: Option<Num>,
    dx: Option<Num>,
    dy: Option<Num>,
    words: Option<Text>,
) -> Option<Option<Shape>>
    ensures { result ≡ text_with style x y dx dy words }
{
    let across = place_moved(x, zero(), dx)?;
    let down = place_moved(y, style.below, dy)?;
    Some(line_of_words(across, down, style.anchor, style.size, words))
}

/// A text at a place, in pixels, moved by two offsets, by what is shown of these and of its words: absent offsets are 0, absent words none. An
/// inner None where it lacks a place, an offset or words, an outer one exactly where it stands out of range.
pub fn text_by(
    alloc: Global,
    style: TextStyle,
    x: Option<Num>,
    y: Option<Num>,
    dx: Shown<Num>,
    dy: Shown<Num>,
    words: Shown<Text>,
) -> Option<Option<Shape>>
    ensures { result ≡ text_by style x y dx dy words }
{
    let dx = or_default(zero(), dx);
    let dy = or_default(zero(), dy);
    text_with(style, x, y, dx, dy, words_or_none(alloc, words))
}
