// The legends of scales.
ghost use Rattle.std.specs.Prelude.{◌≡◌, map, IfOk};
ghost use Rattle.std.specs.Option.{option_or};
ghost use Rattle.guide_infer.specs.First.{first_given};
ghost use Rattle.guide_infer.specs.Said.{legends_said};
ghost use Rattle.guide_infer.specs.Labels.{default_format};
ghost use Rattle.guide_infer.specs.Legends.{is_look, legend_by, legend_over, legend_of};

use crate::members::first_legend_format;
use crate::said::{is_bare, with_legends};
use crate::titles::title_of_legend;
use crate::{labels, said};
use guide_kit::LegendOf;
use std::alloc::Global;
use text_kit::{OutOfMemory, Text};
use vl_normalize::{COLOR, OPACITY, SHAPE, SIZE};
use vl_spec::Definition;

// Whether a channel has legends.
fn is_look(channel: u16) -> bool
    ensures { result ≡ is_look channel }
{
    channel == COLOR || (channel == OPACITY || (channel == SIZE || channel == SHAPE))
}

// The format that is given, or else that of a unit of time.
fn format_of(alloc: Global, definitions: &[&Definition]) -> Result<Option<Text>, OutOfMemory>
    ensures { IfOk result (λ format. format
        ≡ option_or (first_given (λ l. l.format) (legends_said (map (λ d. d.now) definitions.now))) (default_format (map (λ d. d.now) definitions.now))) }
{
    let given = said::legends_said(alloc, definitions)?;
    match first_legend_format(given.as_slice())? {
        Some(format) => Ok(Some(format)),
        None => labels::default_format(alloc, definitions),
    }
}

// The legend of a channel by the definitions that count.
fn legend_by(
    alloc: Global,
    channel: u16,
    definitions: &[&Definition],
) -> Result<LegendOf, OutOfMemory>
    ensures { IfOk result (λ legend. legend ≡ legend_by channel (map (λ d. d.now) definitions.now)) }
{
    let title = title_of_legend(alloc, definitions)?;
    let format = format_of(alloc, definitions)?;
    let colour = Text::of(alloc, "#4c78a8")?;
    Ok(LegendOf {
        channel,
        title,
        format,
        colour,
    })
}

// The same where none may count.
fn legend_over(
    alloc: Global,
    channel: u16,
    definitions: &[&Definition],
) -> Result<Option<LegendOf>, OutOfMemory>
    ensures { IfOk result (λ legend. legend ≡ legend_over channel (map (λ d. d.now) definitions.now)) }
{
    if is_bare(definitions) {
        Ok(None)
    } else {
        legend_by(alloc, channel, definitions).map(Some)
    }
}

/// The legend of a channel by all that is shown on its scale, if it has one.
pub fn legend_of(
    alloc: Global,
    channel: u16,
    definitions: &[&Definition],
) -> Result<Option<LegendOf>, OutOfMemory>
    ensures { IfOk result (λ legend. legend ≡ legend_of channel (map (λ d. d.now) definitions.now)) }
{
    if is_look(channel) {
        let counting = with_legends(alloc, definitions)?;
        legend_over(alloc, channel, counting.as_slice())
    } else {
        Ok(None)
    }
}
