// The legends of objects.
ghost use Rattle.std.specs.Prelude.{◌≡◌, ◌++◌, OnOk, All, filter_map};
ghost use Rattle.std.specs.Option.{option_to_list};
ghost use Rattle.vega_spec.specs.declared.spec.Group.{out-Group};
ghost use Rattle.vega_copies.specs.Outlines.{object_here};
ghost use Rattle.vega_drawing.specs.Guides.{legend_in_channel, legend_channels, legends_in};
ghost use Rattle.vega_drawing.specs.inner.Framed.{unlisted, IsFrame};
ghost use Rattle.vega_guides.specs.Legends.{scale_shown};
ghost use Rattle.plot_scenes.specs.Legends.{IsLegendShown};

use crate::frames::Frame;
use crate::scales::{laid_over, scale_named};
use plot_scenes::LegendShown;
use std::alloc::Global;
use text_kit::{OutOfMemory, Seq, Text};
use vega_guides::{LegendChannel, legend_shown};
use vega_spec::{Group, Legend};

/// A legend of an object.
#[derive(Clone, Copy)]
pub struct LegendHere<'s> {
    /// The number of the object.
    pub object: u32,
    /// Its place among the legends of the object, from 0 on.
    pub index: usize,
    /// The legend.
    pub legend: &'s Legend,
}

// The legends of an object.
fn legends_in(group: &Group) -> &[Legend]
    ensures { result.now ≡ (object_here (out-Group group.now)).legends }
{
    match &group.legends {
        Some(legends) => legends.as_slice(),
        None => &[],
    }
}

// Adds a legend in a channel, over the scale of a name that it shows there, if a scale has the name.
fn push_named(
    alloc: Global,
    frame: &Frame,
    here: &LegendHere,
    place: u8,
    channel: LegendChannel,
    name: &Text,
    out: &mut Seq<LegendShown>,
) -> Result<(), OutOfMemory>
    requires frame { IsFrame frame.now }
    requires named { scale_shown channel here.now.legend.now ≡ Some name.now }
    ensures value { OnOk result (out.new ≡ out.old
        ++ option_to_list (legend_in_channel here.now.object (unlisted frame.now) (here.now.index, here.now.legend.now) (place, channel))) }
    ensures kept { All IsLegendShown out.old → OnOk result (All IsLegendShown out.new) }
{
    match scale_named(frame.scales, name.as_str()) {
        Some(scale) => {
            let shown = legend_shown(alloc, channel, here.legend)?;
            let laid = laid_over(alloc, frame.width, frame.height, scale)?;
            out.push(LegendShown {
                channel: place,
                object: here.object as usize,
                index: here.index,
                legend: shown,
                scale: laid,
            })
        }
        None => Ok(()),
    }
}

// Adds a legend in a channel, over the scale that it names there, if it names one.
fn push_in_channel(
    alloc: Global,
    frame: &Frame,
    here: &LegendHere,
    place: u8,
    channel: LegendChannel,
    out: &mut Seq<LegendShown>,
) -> Result<(), OutOfMemory>
    requires { IsFrame frame.now }
    ensures value { OnOk result (out.new ≡ out.old
        ++ option_to_list (legend_in_channel here.now.object (unlisted frame.now) (here.now.index, here.now.legend.now) (place, channel))) }
    ensures kept { All IsLegendShown out.old → OnOk result (All IsLegendShown out.new) }
{
    match vega_guides::scale_shown(channel, here.legend) {
        Some(name) => push_named(alloc, frame, here, place, channel, name, out),
        None => Ok(()),
    }
}

// Adds a legend in each channel that it shows.
fn push_legend(
    alloc: Global,
    frame: &Frame,
    here: &LegendHere,
    out: &mut Seq<LegendShown>,
) -> Result<(), OutOfMemory>
    requires { IsFrame frame.now }
    ensures value { OnOk result (out.new ≡ out.old
        ++ filter_map (legend_in_channel here.now.object (unlisted frame.now) (here.now.index, here.now.legend.now)) legend_channels) }
    ensures kept { All IsLegendShown out.old → OnOk result (All IsLegendShown out.new) }
{
    push_in_channel(alloc, frame, here, 0, LegendChannel::Fill, out)?;
    push_in_channel(alloc, frame, here, 1, LegendChannel::Opacity, out)?;
    push_in_channel(alloc, frame, here, 2, LegendChannel::Shape, out)?;
    push_in_channel(alloc, frame, here, 3, LegendChannel::Size, out)
}

/// Adds the legends of a copy of an object that has this number.
pub(crate) fn push_legends(
    alloc: Global,
    frame: &Frame,
    object: u32,
    group: &Group,
    out: &mut Seq<LegendShown>,
) -> Result<(), OutOfMemory>
    requires { IsFrame frame.now }
    ensures value { OnOk result (out.new ≡ out.old
        ++ legends_in (record (object_here (out-Group group.now)) { number = object }) (unlisted frame.now)) }
    ensures kept { All IsLegendShown out.old → OnOk result (All IsLegendShown out.new) }
{
    let legends = legends_in(group);
    for (index, legend) in legends.iter().enumerate() {
        let here = LegendHere {
            object,
            index,
            legend,
        };
        push_legend(alloc, frame, &here, out)?;
    }
    Ok(())
}
