// The channels that legends show.
ghost use Rattle.std.specs.Prelude.{◌≡◌, IsSome};
ghost use Rattle.guide_kit.specs.Signs.{sign_kind_of};
ghost use Rattle.vega_guides.specs.Legends.{channel_of, scale_shown};

use text_kit::Text;
use vega_spec::Legend;

/// A channel that legends show.
#[derive(Clone, Copy, Debug, PartialEq, Eq)]
pub enum LegendChannel {
    /// Colours.
    Fill,
    /// Opacities.
    Opacity,
    /// Shapes.
    Shape,
    /// Sizes.
    Size,
}

/// A channel by its code.
pub(crate) fn channel_of(channel: LegendChannel) -> u16
    ensures value { result ≡ channel_of channel }
    ensures shown { IsSome (sign_kind_of result) }
{
    match channel {
        LegendChannel::Fill => 4,
        LegendChannel::Opacity => 5,
        LegendChannel::Shape => 7,
        LegendChannel::Size => 6,
    }
}

/// The name of the scale that a legend shows in a channel, if it does.
pub fn scale_shown(channel: LegendChannel, legend: &Legend) -> &Option<Text>
    ensures { result.now ≡ scale_shown channel legend.now }
{
    match channel {
        LegendChannel::Fill => &legend.fill,
        LegendChannel::Opacity => &legend.opacity,
        LegendChannel::Shape => &legend.shape,
        LegendChannel::Size => &legend.size,
    }
}
