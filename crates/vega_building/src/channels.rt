// Encode sets.
ghost use Rattle.std.specs.Prelude.{◌≡◌, IfOk};
ghost use Rattle.json_exact.specs.declared.json.Json.{out-Json};
ghost use Rattle.vega_building.specs.Channels.{channel_value_of, channel_in, channel_at, channels_of, encode_of};

use crate::parts::{Object, object_at, objects_of};
use crate::several::{Part, both, four_parts, six_parts};
use json_exact::{Json, Member};
use std::alloc::Global;
use text_kit::OutOfMemory;
use tree_readers::{member_value, number_at};
use vega_spec::{Channel, ChannelValue, Channels, Encode};

impl Object for ChannelValue {
    ghost built = { channel_value_of };

    fn of_members(alloc: Global, members: &[Member]) -> Result<ChannelValue, OutOfMemory> {
        let (value, field, scale, signal, test, format) = six_parts(
            alloc, members, "value", "field", "scale", "signal", "test", "format",
        )?;
        Ok(ChannelValue {
            value,
            field,
            scale,
            band: number_at(members, "band"),
            offset: number_at(members, "offset"),
            signal,
            test,
            format,
        })
    }
}

// A value, or a list of values.
fn channel_in(alloc: Global, tree: &Json) -> Result<Option<Channel>, OutOfMemory>
    ensures { IfOk result (λ channel. channel ≡ channel_in (out-Json tree.now)) }
{
    match tree {
        Json::Object(members) => Ok(Some(Channel::One(ChannelValue::of_members(
            alloc,
            members.as_slice(),
        )?))),
        Json::List(items) => Ok(Some(Channel::Several(objects_of(alloc, items.as_slice())?))),
        Json::Null | Json::Flag(_) | Json::Number(_) | Json::Huge | Json::Text(_) => Ok(None),
    }
}

// A channel under a name.
fn channel_at(alloc: Global, members: &[Member], name: &str) -> Result<Option<Channel>, OutOfMemory>
    ensures { IfOk result (λ channel. channel ≡ channel_at members.now name.now) }
{
    match member_value(members, name) {
        Some(tree) => channel_in(alloc, tree),
        None => Ok(None),
    }
}

impl Part for Option<Channel> {
    ghost part = { channel_at };

    fn part_at(
        alloc: Global,
        members: &[Member],
        name: &str,
    ) -> Result<Option<Channel>, OutOfMemory> {
        channel_at(alloc, members, name)
    }
}

impl Object for Channels {
    ghost built = { channels_of };

    fn of_members(alloc: Global, members: &[Member]) -> Result<Channels, OutOfMemory> {
        let across = four_parts(alloc, members, "x", "x2", "xc", "width");
        let down = four_parts(alloc, members, "y", "y2", "yc", "height");
        let look = four_parts(alloc, members, "fill", "stroke", "strokeWidth", "opacity");
        let symbol = four_parts(alloc, members, "size", "shape", "text", "align");
        let text_line = four_parts(alloc, members, "baseline", "dx", "dy", "fontSize");
        let places = both(across, down);
        let shows = both(both(look, symbol), text_line);
        let ((across, down), ((look, symbol), text_line)) = both(places, shows)?;
        let (x, x2, xc, width) = across;
        let (y, y2, yc, height) = down;
        let (fill, stroke, stroke_width, opacity) = look;
        let (size, shape, text, align) = symbol;
        let (baseline, dx, dy, font_size) = text_line;
        Ok(Channels {
            x,
            x2,
            xc,
            width,
            y,
            y2,
            yc,
            height,
            fill,
            stroke,
            stroke_width,
            opacity,
            size,
            shape,
            text,
            align,
            baseline,
            dx,
            dy,
            font_size,
        })
    }
}

impl Object for Encode {
    ghost built = { encode_of };

    fn of_members(alloc: Global, members: &[Member]) -> Result<Encode, OutOfMemory> {
        let enter = object_at(alloc, members, "enter");
        let (enter, update) = both(enter, object_at(alloc, members, "update"))?;
        Ok(Encode { enter, update })
    }
}
