// Texts.
ghost use Rattle.std.specs.Prelude.{◌≡◌, option_copied, ◌≤◌, IfOk};
ghost use Rattle.cell_value.specs.Datum.{cell_at};
ghost use Rattle.cell_value.specs.State.{greatest_id};
ghost use Rattle.expr_eval.specs.Answers.{Evaluates};
ghost use Rattle.mark_shapes.specs.Texts.{text_by};
ghost use Rattle.mark_encode.specs.Channels.{channel_values};
ghost use Rattle.mark_encode.specs.Texts.{text_cell, cell_on, cell_by, words_for, words_shown};
ghost use Rattle.mark_encode.specs.Texts.{style_values_of, text_values_of, style_for, text_for};
ghost use Rattle.mark_encode.specs.inner.Scaled.{scaled_of, scaled_all};
ghost use Rattle.mark_encode.specs.inner.Kinds.{style_values, text_values};

use crate::channels::{ChannelName, Scaled, channel_values};
use crate::colors::{color_on, color_shown};
use crate::numbers::{number_by, number_of_row, number_shown};
use crate::places::{PlaceChannels, place_for, places_named};
use crate::prepared::{Numbers, Styles, numbers_of, styles_with};
use crate::scales::IndexedSet;
use crate::several::{all_three, both};
use crate::values::{cell_for, first_met};
use cell_value::{Cell, Keyed};
use expr_eval::{EvalError, ParamReader};
use fixed_num::Num;
use mark_shapes::{Shown, TextStyle, shown_color, style_of, words_of_cell};
use scale_kit::Indexed;
use scene_tree::Shape;
use std::alloc::Global;
use text_kit::{OutOfMemory, Seq, Text};
use vega_spec::Encode;

/// The values in the channels of a text.
#[derive(Drop)]
pub struct TextChannels<'a> {
    pub across: PlaceChannels<'a>,
    pub down: PlaceChannels<'a>,
    pub dx: Numbers<'a>,
    pub dy: Numbers<'a>,
    pub style: Styles<'a>,
    pub words: Seq<Scaled<'a>>,
}

// The values in the channels that say how a text is set.
fn style_channels<'a>(
    alloc: Global,
    set: &'a IndexedSet<'a>,
    sets: &'a Option<Encode>,
) -> Result<Styles<'a>, OutOfMemory>
    ensures { IfOk result (λ style. style_values style ≡ style_values_of (channel_values set.now sets.now)) }
{
    let (size, align, baseline) = all_three(
        channel_values(alloc, set, sets, ChannelName::FontSize),
        channel_values(alloc, set, sets, ChannelName::Align),
        channel_values(alloc, set, sets, ChannelName::Baseline),
    )?;
    let style = styles_with(alloc, size, align, baseline)?;
    Ok(style)
}

/// The values in the channels of a text.
pub fn text_channels<'a>(
    alloc: Global,
    set: &'a IndexedSet<'a>,
    sets: &'a Option<Encode>,
) -> Result<TextChannels<'a>, OutOfMemory>
    ensures { IfOk result (λ text. text_values text ≡ text_values_of (channel_values set.now sets.now)) }
{
    let ((across, down), (dx, dy), (style, words)) = all_three(
        both(
            places_named(alloc, set, sets, ChannelName::X, ChannelName::Xc),
            places_named(alloc, set, sets, ChannelName::Y, ChannelName::Yc),
        ),
        both(
            numbers_of(alloc, set, sets, ChannelName::Dx),
            numbers_of(alloc, set, sets, ChannelName::Dy),
        ),
        both(
            style_channels(alloc, set, sets),
            channel_values(alloc, set, sets, ChannelName::Text),
        ),
    )?;
    Ok(TextChannels {
        across,
        down,
        dx,
        dy,
        style,
        words,
    })
}

// A text as a cell.
fn text_cell(text: Option<Text>) -> Option<Cell>
    ensures { result ≡ text_cell text }
{
    Some(Cell::Text(text?))
}

// The text on the scale that a value names, or else its cell.
fn cell_on(
    alloc: Global,
    scale: Option<&Indexed>,
    band: Option<Num>,
    own: Option<Cell>,
) -> Result<Option<Cell>, OutOfMemory>
    ensures { IfOk result (λ cell. cell ≡ cell_on (option_copied scale.entry) band own) }
{
    match scale {
        Some(s) => Ok(text_cell(color_on(alloc, s, &own, band)?)),
        None => Ok(own),
    }
}

// The cell that a value with this cell shows.
fn cell_by(alloc: Global, scaled: &Scaled, own: Option<Cell>) -> Result<Option<Cell>, EvalError>
    ensures { Evaluates result (cell_by (scaled_of scaled.now) own) }
{
    match number_by(false, scaled, &own) {
        Some(Some(number)) => Ok(Some(Cell::Number(number))),
        Some(None) => Ok(cell_on(alloc, scaled.scale, scaled.value.band, own)?),
        None => Err(EvalError::Overflow),
    }
}

// The words of a value for a row.
fn words_for<P: ParamReader>(
    alloc: Global,
    scaled: &Scaled,
    row: &Keyed,
    params: &P,
) -> Result<Option<Text>, EvalError>
    requires { row.now.key.id ≤ greatest_id }
    ensures { Evaluates result (words_for (cell_at row.now) (P.values params.now) (scaled_of scaled.now)) }
{
    let own = cell_for(alloc, scaled.value, row, params)?;
    let cell = cell_by(alloc, scaled, own)?;
    Ok(words_of_cell(alloc, &scaled.value.format, &cell)?)
}

// The words that a channel shows of a row.
fn words_shown<P: ParamReader>(
    alloc: Global,
    values: &[Scaled],
    row: &Keyed,
    params: &P,
) -> Result<Shown<Text>, EvalError>
    requires { row.now.key.id ≤ greatest_id }
    ensures { Evaluates result (words_shown (cell_at row.now) (P.values params.now) (scaled_all values.now)) }
{
    let Some(scaled) = first_met(alloc, values, row, params)? else {
        return Ok(Shown::Absent);
    };
    Ok(shown_color(words_for(alloc, scaled, row, params)?))
}

// How the text of a row is set by values.
fn style_over<P: ParamReader>(
    alloc: Global,
    style: &Styles,
    row: &Keyed,
    params: &P,
) -> Result<TextStyle, EvalError>
    requires { row.now.key.id ≤ greatest_id }
    ensures { Evaluates result (style_for (style_values style.now) (cell_at row.now) (P.values params.now)) }
{
    let size = number_of_row(alloc, false, style.size.as_slice(), row, params)?;
    let align = color_shown(alloc, style.align.as_slice(), row, params)?;
    let baseline = color_shown(alloc, style.baseline.as_slice(), row, params)?;
    Ok(style_of(size, align, baseline))
}

// How the text of a row is set.
fn style_for<P: ParamReader>(
    alloc: Global,
    style: &Styles,
    row: &Keyed,
    params: &P,
) -> Result<TextStyle, EvalError>
    requires { row.now.key.id ≤ greatest_id }
    ensures { Evaluates result (style_for (style_values style.now) (cell_at row.now) (P.values params.now)) }
{
    match style.same {
        Some(found) => Ok(found),
        None => style_over(alloc, style, row, params),
    }
}

// A text at a place by what its channels show; `Overflow` exactly where it is out of range.
fn text_at(
    alloc: Global,
    style: TextStyle,
    x: Option<Num>,
    y: Option<Num>,
    dx: Shown<Num>,
    dy: Shown<Num>,
    words: Shown<Text>,
) -> Result<Option<Shape>, EvalError>
    ensures { Evaluates result (text_by style x y dx dy words) }
{
    match mark_shapes::text_by(alloc, style, x, y, dx, dy, words) {
        Some(text) => Ok(text),
        None => Err(EvalError::Overflow),
    }
}

/// The text of a row; None where it lacks a place, an offset or words.
pub fn text_for<P: ParamReader>(
    alloc: Global,
    text: &TextChannels,
    row: &Keyed,
    params: &P,
) -> Result<Option<Shape>, EvalError>
    requires { row.now.key.id ≤ greatest_id }
    ensures { Evaluates result (text_for (text_values text.now) (cell_at row.now) (P.values params.now)) }
{
    let x = place_for(alloc, &text.across, row, params)?;
    let y = place_for(alloc, &text.down, row, params)?;
    let dx = number_shown(alloc, &text.dx, row, params)?;
    let dy = number_shown(alloc, &text.dy, row, params)?;
    let style = style_for(alloc, &text.style, row, params)?;
    let words = words_shown(alloc, text.words.as_slice(), row, params)?;
    text_at(alloc, style, x, y, dx, dy, words)
}
