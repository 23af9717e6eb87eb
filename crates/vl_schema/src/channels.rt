//! The members of objects: channels.
ghost use Rattle.std.specs.Prelude.{◌≡◌, ◌++◌, OnOk};
ghost use Rattle.vl_schema.specs.Channels.{all_channels};
ghost use Rattle.vl_schema.specs.inner.Tables.{x_channels, y_channels, other_channels};

use crate::codes::{
    AXIS, BIN, CHANNEL, CHANNEL_KINDS, CONDITIONS, COUNT, DETAIL, ENCODING, FACET_CHANNEL,
    FIELD_TYPE, FREE, HEADER, LABEL_FORMAT, LAYER_ENCODING, LEGEND, OPERATION, SCALAR, SCALE, SORT,
    SPACE, STACK, TEXT, TIME_UNIT, TITLE, X_AXIS, X_CHANNEL, X_CONDITIONS, Y_AXIS, Y_CHANNEL,
    Y_CONDITIONS,
};
use crate::tables::{Table, push_layouts};
use spec_schema::{Layout, When, table};
use std::alloc::Global;
use text_kit::{OutOfMemory, Seq};

// The channels of a unit, and those of a layer or of a unit in one.
const ENCODINGS: [Table<'static>; 2] = layout_tables![
    ENCODING [] [
        may "x" X_CHANNEL, may "y" Y_CHANNEL, may "x2" CHANNEL, may "y2" CHANNEL, may "color" CHANNEL,
        may "opacity" CHANNEL, may "size" CHANNEL, may "shape" CHANNEL, may "detail" DETAIL, may "text" CHANNEL,
        may "row" FACET_CHANNEL, may "column" FACET_CHANNEL, may "facet" FACET_CHANNEL, may "tooltip" FREE
    ] None;
    LAYER_ENCODING [] [
        may "x" X_CHANNEL, may "y" Y_CHANNEL, may "x2" CHANNEL, may "y2" CHANNEL, may "color" CHANNEL,
        may "opacity" CHANNEL, may "size" CHANNEL, may "shape" CHANNEL, may "detail" DETAIL, may "text" CHANNEL,
        may "tooltip" FREE
    ] None;
];

// The definitions of a channel, by its object and those of its axis and its conditions: with a value that is written, with a cell
// that is, and over a field.
macro_rules! channel_tables {
    ($($object:ident $axes:ident $tests:ident;)*) => {
        layout_tables![$(
            $object [When::Leads(CHANNEL_KINDS, "value")] [may "value" SCALAR, may "condition" $tests] None;
            $object [When::Leads(CHANNEL_KINDS, "datum")] [
                may "datum" SCALAR, may "type" FIELD_TYPE, may "scale" SCALE, may "axis" $axes,
                may "legend" LEGEND, may "title" TITLE, may "condition" $tests
            ] None;
            $object [] [
                may "field" TEXT, may "type" FIELD_TYPE, may "aggregate" OPERATION, may "bin" BIN, may "timeUnit" TIME_UNIT,
                may "title" TITLE, may "sort" SORT, may "scale" SCALE, may "stack" STACK, may "axis" $axes,
                may "legend" LEGEND, may "header" HEADER, may "format" LABEL_FORMAT, may "condition" $tests,
                may "columns" COUNT, may "spacing" SPACE
            ] None;
        )*]
    };
}

const CHANNELS: [Table<'static>; 9] = channel_tables![
    X_CHANNEL X_AXIS X_CONDITIONS;
    Y_CHANNEL Y_AXIS Y_CONDITIONS;
    CHANNEL AXIS CONDITIONS;
];

/// Adds the channels of units and layers.
#[tactic(auto, unfolding(crate::specs::Channels::all_channels, crate::specs::Channels::encoding, crate::specs::Channels::layer_encoding))]
pub fn push_encodings(alloc: Global, out: &mut Seq<Layout>) -> Result<(), OutOfMemory>
    ensures { OnOk result (out.new ≡ out.old ++ all_channels) }
{
    push_layouts(alloc, out, &ENCODINGS)
}

/// Adds the definitions of x, those of y, and those of any other channel.
#[tactic(auto, unfolding(crate::specs::Channels::channels_of, crate::specs::Channels::written_channel, crate::specs::Channels::datum_channel, crate::specs::Channels::field_channel, crate::specs::Channels::field_members))]
pub fn push_channels(alloc: Global, out: &mut Seq<Layout>) -> Result<(), OutOfMemory>
    ensures { OnOk result (out.new ≡ out.old ++ (x_channels ++ y_channels ++ other_channels)) }
{
    push_layouts(alloc, out, &CHANNELS)
}
