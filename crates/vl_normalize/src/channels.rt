// The channels of views inside others.
ghost use Rattle.std.specs.Prelude.{◌≡◌, ◌++◌, map, not, IfOk, OnOk, if◌then◌else◌, [], ◌∷◌};
ghost use Rattle.std.specs.Option.{option_copied};
ghost use Rattle.vl_normalize.specs.Channels.{channels_in, has_channel, with_around, one_shown, shown};

use std::alloc::Global;
use text_kit::{OutOfMemory, Seq};
use vl_spec::{Channel, ChannelKind, ChannelOf, Encoding};

/// The channels of an encoding, none where there is none.
pub fn channels_in(encoding: &Option<Encoding>) -> &[ChannelOf]
    ensures { result.now ≡ channels_in encoding.now }
{
    match encoding {
        Some(encoding) => encoding.channels.as_slice(),
        None => &[],
    }
}

// Whether one of some channels has this code.
fn has_channel(channels: &[ChannelOf], code: u16) -> bool
    ensures { result ≡ has_channel channels.now code }
{
    for channel in channels {
        if channel.channel == code {
            return true;
        }
    }
    false
}

// Adds a channel of the layers round a view, unless the view has it itself.
fn push_around<'a>(
    own: &[ChannelOf],
    channel: &'a ChannelOf,
    all: &mut Seq<&'a ChannelOf>,
) -> Result<(), OutOfMemory>
    ensures { OnOk result (map (λ c. c.now) all.new
        ≡ map (λ c. c.now) all.old ++ (if not (has_channel own.now channel.now.channel) then channel.now ∷ [] else [])) }
{
    if has_channel(own, channel.channel) {
        Ok(())
    } else {
        all.push(channel)
    }
}

/// The channels of a view inside layers: its own, and behind them those round it that it doesn't have itself.
pub fn with_around<'a>(
    alloc: Global,
    own: &'a [ChannelOf],
    around: &[&'a ChannelOf],
) -> Result<Seq<&'a ChannelOf>, OutOfMemory>
    ensures { IfOk result (λ all. map (λ c. c.now) all ≡ with_around own.now (map (λ c. c.now) around.now)) }
{
    let mut all = Seq::with_capacity(alloc, own.len())?;
    for channel in own {
        all.push(channel)?;
    }
    for outer in around {
        push_around(own, *outer, &mut all)?;
    }
    Ok(all)
}

// The definition of a channel that shows one.
fn one_shown(shows: &ChannelKind) -> Option<&Channel>
    ensures { option_copied result ≡ one_shown shows.now }
{
    match shows {
        ChannelKind::One(channel) => Some(channel),
        ChannelKind::Several(_) => None,
    }
}

/// The definition that the first channel of a code shows.
pub fn shown<'a>(channels: &[&'a ChannelOf], code: u16) -> Option<&'a Channel>
    ensures { option_copied result ≡ shown (map (λ c. c.now) channels.now) code }
{
    for channel in channels {
        if channel.channel == code {
            return one_shown(&channel.shows);
        }
    }
    None
}
