// What a mark encodes in its channels.
ghost use Rattle.std.specs.Prelude.{◌≡◌, IfOk, option_copied, []};
ghost use Rattle.std.specs.Option.{option_map_or};
ghost use Rattle.mark_encode.specs.Channels.{channel_named, channel_in, encoded, values_in, scale_for, with_scale, channel_values};
ghost use Rattle.mark_encode.specs.inner.Scaled.{scaled_of, scaled_all};

use crate::scales::IndexedSet;
use scale_kit::Indexed;
use std::alloc::Global;
use text_kit::{OutOfMemory, Seq, Text};
use vega_spec::{Channel, ChannelValue, Channels, Encode};

/// The channels that marks read.
#[derive(Clone, Copy)]
pub enum ChannelName {
    X,
    X2,
    Xc,
    Width,
    Y,
    Y2,
    Yc,
    Height,
    Fill,
    Stroke,
    StrokeWidth,
    Opacity,
    Size,
    Shape,
    Text,
    Align,
    Baseline,
    Dx,
    Dy,
    FontSize,
}

/// A value of a channel with the scale that it names.
#[derive(Drop)]
pub struct Scaled<'a> {
    pub value: &'a ChannelValue,
    pub scale: Option<&'a Indexed<'a>>,
}

// The channel of a name in an encode set.
fn channel_named(name: ChannelName, set: &Channels) -> Option<&Channel>
    ensures { option_copied result ≡ channel_named name set.now }
{
    match name {
        ChannelName::X => set.x.as_ref(),
        ChannelName::X2 => set.x2.as_ref(),
        ChannelName::Xc => set.xc.as_ref(),
        ChannelName::Width => set.width.as_ref(),
        ChannelName::Y => set.y.as_ref(),
        ChannelName::Y2 => set.y2.as_ref(),
        ChannelName::Yc => set.yc.as_ref(),
        ChannelName::Height => set.height.as_ref(),
        ChannelName::Fill => set.fill.as_ref(),
        ChannelName::Stroke => set.stroke.as_ref(),
        ChannelName::StrokeWidth => set.stroke_width.as_ref(),
        ChannelName::Opacity => set.opacity.as_ref(),
        ChannelName::Size => set.size.as_ref(),
        ChannelName::Shape => set.shape.as_ref(),
        ChannelName::Text => set.text.as_ref(),
        ChannelName::Align => set.align.as_ref(),
        ChannelName::Baseline => set.baseline.as_ref(),
        ChannelName::Dx => set.dx.as_ref(),
        ChannelName::Dy => set.dy.as_ref(),
        ChannelName::FontSize => set.font_size.as_ref(),
    }
}

// The channel of a name in one of the sets, if that is there.
fn channel_in(name: ChannelName, set: &Option<Channels>) -> Option<&Channel>
    ensures { option_copied result ≡ channel_in name set.now }
{
    match set {
        Some(set) => channel_named(name, set),
        None => None,
    }
}

// The channel of a name in the encode sets of a mark: that of the update set wins.
fn encoded(sets: &Option<Encode>, name: ChannelName) -> Option<&Channel>
    ensures { option_copied result ≡ encoded sets.now name }
{
    let Some(sets) = sets else {
        return None;
    };
    match channel_in(name, &sets.update) {
        Some(channel) => Some(channel),
        None => channel_in(name, &sets.enter),
    }
}

// The first scale of a name, if one is given.
fn scale_for<'a>(set: &'a IndexedSet<'a>, name: &Option<Text>) -> Option<&'a Indexed<'a>>
    ensures { option_copied result ≡ scale_for set.now name.now }
{
    match name {
        Some(name) => set.named(name.as_str()),
        None => None,
    }
}

// A value with the scale that it names.
fn with_scale<'a>(set: &'a IndexedSet<'a>, value: &'a ChannelValue) -> Scaled<'a>
    ensures { scaled_of result ≡ with_scale set.now value.now }
{
    Scaled {
        value,
        scale: scale_for(set, &value.scale),
    }
}

// The values of a channel, in order; none of no channel.
fn values_in(channel: Option<&Channel>) -> &[ChannelValue]
    ensures { result.now ≡ option_map_or values_in (option_copied channel.entry) [] }
{
    match channel {
        Some(Channel::One(value)) => std::slice::from_ref(value),
        Some(Channel::Several(values)) => values.as_slice(),
        None => &[],
    }
}

/// The values that a mark encodes in a channel, in order, each with its scale.
pub fn channel_values<'a>(
    alloc: Global,
    set: &'a IndexedSet<'a>,
    sets: &'a Option<Encode>,
    name: ChannelName,
) -> Result<Seq<Scaled<'a>>, OutOfMemory>
    ensures { IfOk result (λ values. scaled_all values ≡ channel_values set.now sets.now name) }
{
    let values = values_in(encoded(sets, name));
    let mut out = Seq::with_capacity(alloc, values.len())?;
    for value in values {
        out.push(with_scale(set, value))?;
    }
    Ok(out)
}
