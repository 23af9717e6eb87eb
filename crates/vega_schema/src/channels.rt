//! The members of objects: channels.
ghost use Rattle.std.specs.Prelude.{◌≡◌, ◌++◌, IfOk, OnOk};
ghost use Rattle.vega_schema.specs.Channels.{channel_members, value, words_value, all_channels};

use crate::codes::{
    CELL, CHANNEL, CHANNELS, EXPRESSION, FREE, LABEL_FORMAT, NUMBER, TEXT, VALUE, WORDS_CHANNEL,
    WORDS_VALUE,
};
use spec_schema::{Layout, layout_by, table};
use std::alloc::Global;
use text_kit::{OutOfMemory, Seq};

// An encode set.
#[tactic(auto, unfolding(crate::specs::Channels::channel_members))]
fn channels(alloc: Global) -> Result<Layout, OutOfMemory>
    ensures { IfOk result (λ l. l ≡ channel_members) }
{
    layout_by(
        alloc,
        CHANNELS,
        &[],
        &table![
        may "x" CHANNEL, may "x2" CHANNEL, may "xc" CHANNEL, may "width" CHANNEL, may "y" CHANNEL, may "y2" CHANNEL,
        may "yc" CHANNEL, may "height" CHANNEL, may "fill" CHANNEL, may "stroke" CHANNEL, may "strokeWidth" CHANNEL,
        may "opacity" CHANNEL, may "size" CHANNEL, may "shape" CHANNEL, may "text" WORDS_CHANNEL, may "align" CHANNEL,
        may "baseline" CHANNEL, may "dx" CHANNEL, may "dy" CHANNEL, may "fontSize" CHANNEL, may "tooltip" FREE,
    ],
        None,
    )
}

// A value of a channel.
#[tactic(auto, unfolding(crate::specs::Channels::value))]
fn value(alloc: Global) -> Result<Layout, OutOfMemory>
    ensures { IfOk result (λ l. l ≡ value) }
{
    layout_by(
        alloc,
        VALUE,
        &[],
        &table![
        may "value" CELL, may "field" TEXT, may "scale" TEXT, may "band" NUMBER, may "offset" NUMBER,
        may "signal" EXPRESSION, may "test" EXPRESSION,
    ],
        None,
    )
}

// A value of the channel `text`.
#[tactic(auto, unfolding(crate::specs::Channels::words_value))]
fn words_value(alloc: Global) -> Result<Layout, OutOfMemory>
    ensures { IfOk result (λ l. l ≡ words_value) }
{
    layout_by(
        alloc,
        WORDS_VALUE,
        &[],
        &table![
        may "value" CELL, may "field" TEXT, may "scale" TEXT, may "band" NUMBER, may "offset" NUMBER,
        may "signal" EXPRESSION, may "test" EXPRESSION, may "format" LABEL_FORMAT,
    ],
        None,
    )
}

/// Adds these layouts.
pub fn push_channels(alloc: Global, out: &mut Seq<Layout>) -> Result<(), OutOfMemory>
    ensures { OnOk result (out.new ≡ out.old ++ all_channels) }
{
    out.push(channels(alloc)?)?;
    out.push(value(alloc)?)?;
    out.push(words_value(alloc)?)
}
