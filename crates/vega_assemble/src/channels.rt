// What channels show.
ghost use Rattle.std.specs.Prelude.{◌≡◌, ◌≤◌, length, map, pos, None, Some, IfOk};
ghost use Rattle.cell_value.specs.declared.cell.Cell.TheVariants.{Null};
ghost use Rattle.vega_assemble.specs.Names.{scale_name};
ghost use Rattle.vega_assemble.specs.Channels.{bare, cell_value, number_value, text_value, signal_value, written_value, shown_value};
ghost use Rattle.vega_assemble.specs.Channels.{on_scale, with_band, under};
ghost use Rattle.vega_assemble.specs.Channels.{spot_value, spot_way, look_value, look_way, words_way, alone, channel_by, end_channel, look_channel};
ghost use Rattle.vega_assemble.specs.Channels.{words_channel};

use crate::names::{foot_name, middle_name, scale_name};
use crate::numbers::millionths;
use crate::several::{copied_beside, expr_beside};
use cell_value::Cell;
use expr_syntax::Expr;
use fixed_num::Num;
use plan_kit::{CellOf, Look, LookWay, ScalePlan, Spot, SpotWay, WordsWay};
use std::alloc::Global;
use text_kit::{Copies, OutOfMemory, Seq, Text};
use vega_spec::{Channel, ChannelValue};

// ---- values

// A value with a cell, a field or an expression.
fn value_of(value: Option<Cell>, field: Option<Text>, signal: Option<Expr>) -> ChannelValue
    ensures { result ≡ record bare { value = value; field = field; signal = signal } }
{
    ChannelValue {
        value,
        field,
        scale: None,
        band: None,
        offset: None,
        signal,
        test: None,
        format: None,
    }
}

/// A cell.
pub(crate) fn cell_value(cell: Cell) -> ChannelValue
    ensures { result ≡ cell_value cell }
{
    value_of(Some(cell), None, None)
}

/// A number.
pub(crate) fn number_value(n: Num) -> ChannelValue
    ensures { result ≡ number_value n }
{
    cell_value(Cell::Number(n))
}

/// A text.
pub(crate) fn text_value(alloc: Global, text: &str) -> Result<ChannelValue, OutOfMemory>
    ensures { IfOk result (λ value. value ≡ text_value text.now) }
{
    let text = Text::of(alloc, text)?;
    Ok(cell_value(Cell::Text(text)))
}

/// The value of an expression.
pub(crate) fn signal_value(e: Expr) -> ChannelValue
    ensures { result ≡ signal_value e }
{
    value_of(None, None, Some(e))
}

// A copy of a cell.
fn copied_value(alloc: Global, cell: &Cell) -> Result<ChannelValue, OutOfMemory>
    ensures { IfOk result (λ value. value ≡ cell_value cell.now) }
{
    cell.copied(alloc).map(cell_value)
}

// A written cell.
fn written_value(alloc: Global, cell: &Cell) -> Result<ChannelValue, OutOfMemory>
    ensures { IfOk result (λ value. value ≡ written_value cell.now) }
{
    match cell {
        Cell::Null => Ok(signal_value(Expr::Null)),
        Cell::Flag(_) | Cell::Number(_) | Cell::Text(_) | Cell::Pair(_, _) => copied_value(
            alloc, cell,
        ),
    }
}

// The cell of a field.
fn field_value(name: &Text) -> Result<ChannelValue, OutOfMemory>
    ensures { IfOk result (λ value. value ≡ record bare { field = Some name.now }) }
{
    let field = name.copy()?;
    Ok(value_of(None, Some(field), None))
}

// A cell of a row.
fn shown_value(alloc: Global, cell: &CellOf) -> Result<ChannelValue, OutOfMemory>
    ensures { IfOk result (λ value. value ≡ shown_value cell.now) }
{
    match cell {
        CellOf::Field(name) => field_value(name),
        CellOf::Written(written) => written_value(alloc, written),
        CellOf::Computed(e) => e.copy(alloc).map(signal_value),
    }
}

// A value on a scale.
fn on_scale(name: Text, mut value: ChannelValue) -> ChannelValue
    ensures { result ≡ on_scale name value }
{
    value.scale = Some(name);
    value
}

// A value with a share of a band.
fn with_band(share: Num, mut value: ChannelValue) -> ChannelValue
    ensures { result ≡ with_band share value }
{
    value.band = Some(share);
    value
}

// A value under a test, moved, and with a format.
fn under(
    mut value: ChannelValue,
    test: Option<Expr>,
    offset: Option<Num>,
    format: Option<Text>,
) -> ChannelValue
    ensures { result ≡ under value test offset format }
{
    value.offset = offset;
    value.test = test;
    value.format = format;
    value
}

// ---- places

// A cell on a scale.
fn scaled_value(
    alloc: Global,
    stem: &Text,
    scales: &[ScalePlan],
    number: usize,
    cell: &CellOf,
) -> Result<ChannelValue, OutOfMemory>
    ensures { IfOk result (λ value. value ≡ on_scale (scale_name stem.now scales.now number) (shown_value cell.now)) }
{
    let name = scale_name(alloc, stem, scales, number)?;
    let value = shown_value(alloc, cell)?;
    Ok(on_scale(name, value))
}

// The base of a scale.
fn base_value(
    alloc: Global,
    stem: &Text,
    scales: &[ScalePlan],
    number: usize,
) -> Result<ChannelValue, OutOfMemory>
    ensures { IfOk result (λ value. value ≡ on_scale (scale_name stem.now scales.now number) (cell_value Null)) }
{
    let name = scale_name(alloc, stem, scales, number)?;
    Ok(on_scale(name, cell_value(Cell::Null)))
}

// The place of 0 on a scale.
fn zero_on(name: Text) -> ChannelValue
    ensures { result ≡ on_scale name (number_value (pos 0)) }
{
    on_scale(name, number_value(millionths(0)))
}

// Where a spot is.
fn spot_value(
    alloc: Global,
    stem: &Text,
    scales: &[ScalePlan],
    channel: u16,
    spot: &Spot,
) -> Result<ChannelValue, OutOfMemory>
    ensures { IfOk result (λ value. value ≡ spot_value stem.now scales.now channel spot.now) }
{
    match spot {
        Spot::Pixels(cell) => copied_value(alloc, cell),
        Spot::Place(s, cell) => scaled_value(alloc, stem, scales, *s, cell),
        Spot::Centre(s, cell) => {
            let value = scaled_value(alloc, stem, scales, *s, cell)?;
            Ok(with_band(millionths(500_000), value))
        }
        Spot::EndOfBand(s, cell) => {
            let value = scaled_value(alloc, stem, scales, *s, cell)?;
            Ok(with_band(millionths(1_000_000), value))
        }
        Spot::Base(s) => base_value(alloc, stem, scales, *s),
        Spot::Middle => middle_name(alloc, stem, channel).map(zero_on),
        Spot::Foot => foot_name(alloc, stem, channel).map(zero_on),
        Spot::Nowhere => Ok(cell_value(Cell::Null)),
    }
}

// Where an end stands under a test.
fn spot_way(
    alloc: Global,
    stem: &Text,
    scales: &[ScalePlan],
    channel: u16,
    way: &SpotWay,
) -> Result<ChannelValue, OutOfMemory>
    ensures { IfOk result (λ value. value ≡ spot_way stem.now scales.now channel way.now) }
{
    let value = spot_value(alloc, stem, scales, channel, &way.gives)?;
    let (value, test) = expr_beside(alloc, value, &way.test)?;
    Ok(under(value, test, way.offset, None))
}

// ---- looks and words

// What a look shows.
fn look_value(
    alloc: Global,
    stem: &Text,
    scales: &[ScalePlan],
    look: &Look,
) -> Result<ChannelValue, OutOfMemory>
    ensures { IfOk result (λ value. value ≡ look_value stem.now scales.now look.now) }
{
    match look {
        Look::Written(cell) => copied_value(alloc, cell),
        Look::OnScale(s, cell) => scaled_value(alloc, stem, scales, *s, cell),
    }
}

// What it shows under a test.
fn look_way(
    alloc: Global,
    stem: &Text,
    scales: &[ScalePlan],
    way: &LookWay,
) -> Result<ChannelValue, OutOfMemory>
    ensures { IfOk result (λ value. value ≡ look_way stem.now scales.now way.now) }
{
    let value = look_value(alloc, stem, scales, &way.gives)?;
    let (value, test) = expr_beside(alloc, value, &way.test)?;
    Ok(under(value, test, None, None))
}

// Words under a test.
fn words_way(alloc: Global, way: &WordsWay) -> Result<ChannelValue, OutOfMemory>
    ensures { IfOk result (λ value. value ≡ words_way way.now) }
{
    let value = shown_value(alloc, &way.gives.cell)?;
    let (value, format) = copied_beside(alloc, value, &way.gives.format)?;
    let ((value, format), test) = expr_beside(alloc, (value, format), &way.test)?;
    Ok(under(value, test, None, format))
}

// ---- channels

/// A value alone.
pub(crate) fn alone(value: ChannelValue) -> Option<Channel>
    ensures { result ≡ alone value }
{
    Some(Channel::One(value))
}

// The last value, if it is the only one.
fn one_alone(values: Seq<ChannelValue>) -> Option<Channel>
    ensures { length values ≤ 1 → result ≡ channel_by values }
{
    let mut values = values;
    match values.pop() {
        Some(value) => alone(value),
        None => None,
    }
}

// Values as a channel.
fn channel_by(values: Seq<ChannelValue>) -> Option<Channel>
    ensures { result ≡ channel_by values }
{
    if values.len() < 2 {
        one_alone(values)
    } else {
        Some(Channel::Several(values))
    }
}

/// The channel of an end along x or y.
pub(crate) fn end_channel(
    alloc: Global,
    stem: &Text,
    scales: &[ScalePlan],
    channel: u16,
    ways: &[SpotWay],
) -> Result<Option<Channel>, OutOfMemory>
    ensures { IfOk result (λ shown. shown ≡ end_channel stem.now scales.now channel ways.now) }
{
    let mut values = Seq::new(alloc);
    for way in ways {
        values.push(spot_way(alloc, stem, scales, channel, way)?)?;
    }
    Ok(channel_by(values))
}

/// The channel of a look.
pub(crate) fn look_channel(
    alloc: Global,
    stem: &Text,
    scales: &[ScalePlan],
    ways: &[LookWay],
) -> Result<Option<Channel>, OutOfMemory>
    ensures { IfOk result (λ shown. shown ≡ look_channel stem.now scales.now ways.now) }
{
    let mut values = Seq::new(alloc);
    for way in ways {
        values.push(look_way(alloc, stem, scales, way)?)?;
    }
    Ok(channel_by(values))
}

/// The channel of words.
pub(crate) fn words_channel(
    alloc: Global,
    ways: &[WordsWay],
) -> Result<Option<Channel>, OutOfMemory>
    ensures { IfOk result (λ shown. shown ≡ words_channel ways.now) }
{
    let mut values = Seq::new(alloc);
    for way in ways {
        values.push(words_way(alloc, way)?)?;
    }
    Ok(channel_by(values))
}
