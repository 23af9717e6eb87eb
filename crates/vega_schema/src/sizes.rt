//! The members of objects: what gives plots their sizes.
ghost use Rattle.std.specs.Prelude.{◌≡◌, ◌++◌, IfOk, OnOk};
ghost use Rattle.vega_schema.specs.Sizes.{size_signal, group_encode, group_channels, size_value, all_sizes};

use crate::codes::{
    CELL, CHANNEL, FREE, GROUP_CHANNELS, GROUP_ENCODE, NUMBER, SIZE_CHANNEL, SIZE_EXPRESSION,
    SIZE_SIGNAL, SIZE_VALUE, TEXT, WORDS_CHANNEL,
};
use spec_schema::{Layout, When, layout_by, table};
use std::alloc::Global;
use text_kit::{OutOfMemory, Seq};

// The value of an expression that gives the size of a plot.
#[tactic(auto, unfolding(crate::specs::Sizes::size_signal))]
fn size_signal(alloc: Global) -> Result<Layout, OutOfMemory>
    ensures { IfOk result (λ l. l ≡ size_signal) }
{
    layout_by(
        alloc,
        SIZE_SIGNAL,
        &[When::Has("signal")],
        &table![
        may "signal" SIZE_EXPRESSION,
    ],
        None,
    )
}

// The encode sets of a group.
#[tactic(auto, unfolding(crate::specs::Sizes::group_encode))]
fn group_encode(alloc: Global) -> Result<Layout, OutOfMemory>
    ensures { IfOk result (λ l. l ≡ group_encode) }
{
    layout_by(
        alloc,
        GROUP_ENCODE,
        &[],
        &table![
        may "enter" GROUP_CHANNELS, may "update" GROUP_CHANNELS,
    ],
        None,
    )
}

// An encode set of a group.
#[tactic(auto, unfolding(crate::specs::Sizes::group_channels))]
fn group_channels(alloc: Global) -> Result<Layout, OutOfMemory>
    ensures { IfOk result (λ l. l ≡ group_channels) }
{
    layout_by(
        alloc,
        GROUP_CHANNELS,
        &[],
        &table![
        may "x" CHANNEL, may "x2" CHANNEL, may "xc" CHANNEL, may "width" SIZE_CHANNEL, may "y" CHANNEL,
        may "y2" CHANNEL, may "yc" CHANNEL, may "height" SIZE_CHANNEL, may "fill" CHANNEL, may "stroke" CHANNEL,
        may "strokeWidth" CHANNEL, may "opacity" CHANNEL, may "size" CHANNEL, may "shape" CHANNEL,
        may "text" WORDS_CHANNEL, may "align" CHANNEL, may "baseline" CHANNEL, may "dx" CHANNEL, may "dy" CHANNEL,
        may "fontSize" CHANNEL, may "tooltip" FREE,
    ],
        None,
    )
}

// A value of a channel that gives the size of a plot.
#[tactic(auto, unfolding(crate::specs::Sizes::size_value))]
fn size_value(alloc: Global) -> Result<Layout, OutOfMemory>
    ensures { IfOk result (λ l. l ≡ size_value) }
{
    layout_by(
        alloc,
        SIZE_VALUE,
        &[],
        &table![
        may "value" CELL, may "field" TEXT, may "scale" TEXT, may "band" NUMBER, may "offset" NUMBER,
        may "signal" SIZE_EXPRESSION, may "test" SIZE_EXPRESSION,
    ],
        None,
    )
}

/// Adds these layouts.
pub fn push_sizes(alloc: Global, out: &mut Seq<Layout>) -> Result<(), OutOfMemory>
    ensures { OnOk result (out.new ≡ out.old ++ all_sizes) }
{
    out.push(size_signal(alloc)?)?;
    out.push(group_encode(alloc)?)?;
    out.push(group_channels(alloc)?)?;
    out.push(size_value(alloc)?)
}
