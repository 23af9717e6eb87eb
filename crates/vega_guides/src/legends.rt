// What a legend of a specification shows.
ghost use Rattle.std.specs.Prelude.{◌≡◌, IfOk, IsSome};
ghost use Rattle.guide_kit.specs.Signs.{sign_kind_of};
ghost use Rattle.vega_guides.specs.Legends.{legend_shown};

use crate::channels::{LegendChannel, channel_of};
use guide_kit::LegendOf;
use std::alloc::Global;
use text_kit::{Copies, OutOfMemory, Text};
use vega_spec::Legend;

/// A legend in a channel.
pub fn legend_shown(
    alloc: Global,
    channel: LegendChannel,
    legend: &Legend,
) -> Result<LegendOf, OutOfMemory>
    ensures value { IfOk result (λ shown. shown ≡ legend_shown channel legend.now) }
    ensures shown { IfOk result (λ shown. IsSome (sign_kind_of shown.channel)) }
{
    Ok(LegendOf {
        channel: channel_of(channel),
        title: Copies::copied(&legend.title, alloc)?,
        format: Copies::copied(&legend.format, alloc)?,
        colour: Text::of(alloc, "#4c78a8")?,
    })
}
