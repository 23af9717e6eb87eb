// The trees of encode sets.
ghost use Rattle.vega_writing.specs.Encode.{channel_tree, channel_value_tree, channels_tree, encode_tree};

use crate::slots::{no_slots, object, with_if};
use crate::trees::Written;
use json_exact::Json;
use std::alloc::Global;
use text_kit::OutOfMemory;
use vega_spec::{Channel, ChannelValue, Channels, Encode};

impl Written for Encode {
    ghost tree = { encode_tree };

    #[tactic(auto, unfolding(crate::specs::Encode::encode_slots))]
    fn tree(&self, alloc: Global) -> Result<Json, OutOfMemory> {
        let slots = no_slots(alloc);
        let slots = with_if(alloc, slots, "enter", &self.enter);
        let slots = with_if(alloc, slots, "update", &self.update);
        object(alloc, slots)
    }
}

impl Written for Channels {
    ghost tree = { channels_tree };

    #[tactic(auto, unfolding(crate::specs::Encode::channels_slots))]
    fn tree(&self, alloc: Global) -> Result<Json, OutOfMemory> {
        let slots = no_slots(alloc);
        let slots = with_if(alloc, slots, "x", &self.x);
        let slots = with_if(alloc, slots, "x2", &self.x2);
        let slots = with_if(alloc, slots, "xc", &self.xc);
        let slots = with_if(alloc, slots, "width", &self.width);
        let slots = with_if(alloc, slots, "y", &self.y);
        let slots = with_if(alloc, slots, "y2", &self.y2);
        let slots = with_if(alloc, slots, "yc", &self.yc);
        let slots = with_if(alloc, slots, "height", &self.height);
        let slots = with_if(alloc, slots, "fill", &self.fill);
        let slots = with_if(alloc, slots, "stroke", &self.stroke);
        let slots = with_if(alloc, slots, "strokeWidth", &self.stroke_width);
        let slots = with_if(alloc, slots, "opacity", &self.opacity);
        let slots = with_if(alloc, slots, "size", &self.size);
        let slots = with_if(alloc, slots, "shape", &self.shape);
        let slots = with_if(alloc, slots, "text", &self.text);
        let slots = with_if(alloc, slots, "align", &self.align);
        let slots = with_if(alloc, slots, "baseline", &self.baseline);
        let slots = with_if(alloc, slots, "dx", &self.dx);
        let slots = with_if(alloc, slots, "dy", &self.dy);
        let slots = with_if(alloc, slots, "fontSize", &self.font_size);
        object(alloc, slots)
    }
}

impl Written for ChannelValue {
    ghost tree = { channel_value_tree };

    #[tactic(auto, unfolding(crate::specs::Encode::channel_value_slots))]
    fn tree(&self, alloc: Global) -> Result<Json, OutOfMemory> {
        let slots = no_slots(alloc);
        let slots = with_if(alloc, slots, "value", &self.value);
        let slots = with_if(alloc, slots, "field", &self.field);
        let slots = with_if(alloc, slots, "scale", &self.scale);
        let slots = with_if(alloc, slots, "band", &self.band);
        let slots = with_if(alloc, slots, "offset", &self.offset);
        let slots = with_if(alloc, slots, "signal", &self.signal);
        let slots = with_if(alloc, slots, "test", &self.test);
        let slots = with_if(alloc, slots, "format", &self.format);
        object(alloc, slots)
    }
}

impl Written for Channel {
    ghost tree = { channel_tree };

    #[tactic(auto, unfolding(crate::specs::Encode::channel_tree))]
    fn tree(&self, alloc: Global) -> Result<Json, OutOfMemory> {
        match self {
            Channel::One(value) => value.tree(alloc),
            Channel::Several(values) => values.tree(alloc),
        }
    }
}
