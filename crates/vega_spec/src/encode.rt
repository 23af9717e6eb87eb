// Encode sets.
use crate::copying::{beside_copy, beside_four, copied_expr};
use cell_value::Cell;
use expr_syntax::Expr;
use fixed_num::Num;
use std::alloc::Global;
use text_kit::{Copies, OutOfMemory, Seq, Text, copied_four, copied_two};

/// The encode sets of a mark, of which `update` wins.
#[derive(Debug)]
pub struct Encode {
    /// The first set.
    pub enter: Option<Channels>,
    /// The set that wins.
    pub update: Option<Channels>,
}

impl Drop for Encode {
    fn drop(self) {
        let Encode { enter, update } = self;
        drop(enter);
        drop(update);
    }
}

/// What each channel of a mark shows.
#[derive(Debug)]
pub struct Channels {
    /// One end, from the left.
    pub x: Option<Channel>,
    /// The other end, from the left.
    pub x2: Option<Channel>,
    /// The middle, from the left.
    pub xc: Option<Channel>,
    /// The width.
    pub width: Option<Channel>,
    /// One end, from the top.
    pub y: Option<Channel>,
    /// The other end, from the top.
    pub y2: Option<Channel>,
    /// The middle, from the top.
    pub yc: Option<Channel>,
    /// The height.
    pub height: Option<Channel>,
    /// The colour inside.
    pub fill: Option<Channel>,
    /// The colour of the line.
    pub stroke: Option<Channel>,
    /// The width of the line.
    pub stroke_width: Option<Channel>,
    /// The opacity.
    pub opacity: Option<Channel>,
    /// The area.
    pub size: Option<Channel>,
    /// The shape.
    pub shape: Option<Channel>,
    /// The text.
    pub text: Option<Channel>,
    /// How the text stands along its line.
    pub align: Option<Channel>,
    /// How the text stands across its line.
    pub baseline: Option<Channel>,
    /// How far the text is moved to the right.
    pub dx: Option<Channel>,
    /// How far the text is moved down.
    pub dy: Option<Channel>,
    /// The size of the text.
    pub font_size: Option<Channel>,
}

impl Drop for Channels {
    fn drop(self) {
        let Channels {
            x,
            x2,
            xc,
            width,
            y,
            y2,
            yc,
            height,
            fill,
            stroke,
            stroke_width,
            opacity,
            size,
            shape,
            text,
            align,
            baseline,
            dx,
            dy,
            font_size,
        } = self;
        drop(x);
        drop(x2);
        drop(xc);
        drop(width);
        drop(y);
        drop(y2);
        drop(yc);
        drop(height);
        drop(fill);
        drop(stroke);
        drop(stroke_width);
        drop(opacity);
        drop(size);
        drop(shape);
        drop(text);
        drop(align);
        drop(baseline);
        drop(dx);
        drop(dy);
        drop(font_size);
    }
}

/// A value, or a list of values with their tests.
#[derive(Debug)]
pub enum Channel {
    /// A value that stands alone.
    One(ChannelValue),
    /// The first whose test is met holds.
    Several(Seq<ChannelValue>),
}

impl Drop for Channel {
    fn drop(self) {
        match self {
            Channel::One(value) => drop(value),
            Channel::Several(values) => drop(values),
        }
    }
}

/// A value of a channel.
#[derive(Debug)]
pub struct ChannelValue {
    /// A cell.
    pub value: Option<Cell>,
    /// The field whose cell it is.
    pub field: Option<Text>,
    /// The name of the scale that is used.
    pub scale: Option<Text>,
    /// How much of a band is added.
    pub band: Option<Num>,
    /// What is added.
    pub offset: Option<Num>,
    /// The expression whose value it is.
    pub signal: Option<Expr>,
    /// The test by which it holds.
    pub test: Option<Expr>,
    /// How it is written, in the channel `text`.
    pub format: Option<Text>,
}

impl Drop for ChannelValue {
    fn drop(self) {
        let ChannelValue {
            value,
            field,
            scale,
            band: _,
            offset: _,
            signal,
            test,
            format,
        } = self;
        drop(value);
        drop(field);
        drop(scale);
        drop(signal);
        drop(test);
        drop(format);
    }
}

impl Copies for Encode {
    fn copied(&self, alloc: Global) -> Result<Encode, OutOfMemory> {
        let (enter, update) = copied_two(alloc, &self.enter, &self.update)?;
        Ok(Encode { enter, update })
    }
}

impl Copies for Channels {
    fn copied(&self, alloc: Global) -> Result<Channels, OutOfMemory> {
        let copies = copied_four(alloc, &self.x, &self.x2, &self.xc, &self.width)?;
        let copies = beside_four(alloc, copies, &self.y, &self.y2, &self.yc, &self.height)?;
        let copies = beside_four(
            alloc,
            copies,
            &self.fill,
            &self.stroke,
            &self.stroke_width,
            &self.opacity,
        )?;
        let copies = beside_four(
            alloc,
            copies,
            &self.size,
            &self.shape,
            &self.text,
            &self.align,
        )?;
        let ((((across, down), look), symbol), text_line) = beside_four(
            alloc,
            copies,
            &self.baseline,
            &self.dx,
            &self.dy,
            &self.font_size,
        )?;
        let (x, x2, xc, width) = across;
        let (y, y2, yc, height) = down;
        let (fill, stroke, stroke_width, opacity) = look;
        let (size, shape, text, align) = symbol;
        let (baseline, dx, dy, font_size) = text_line;
        Ok(Channels {
            x,
            x2,
            xc,
            width,
            y,
            y2,
            yc,
            height,
            fill,
            stroke,
            stroke_width,
            opacity,
            size,
            shape,
            text,
            align,
            baseline,
            dx,
            dy,
            font_size,
        })
    }
}

impl Copies for Channel {
    fn copied(&self, alloc: Global) -> Result<Channel, OutOfMemory> {
        match self {
            Channel::One(value) => Ok(Channel::One(value.copied(alloc)?)),
            Channel::Several(values) => Ok(Channel::Several(values.copied(alloc)?)),
        }
    }
}

impl Copies for ChannelValue {
    fn copied(&self, alloc: Global) -> Result<ChannelValue, OutOfMemory> {
        let copies = copied_four(alloc, &self.value, &self.field, &self.scale, &self.format)?;
        let copies = beside_copy(copies, &self.signal, copied_expr(alloc, &self.signal))?;
        let ((copies, signal), test) = beside_copy(
            copies,
            &self.test,
            copied_expr(alloc, &self.test),
        )?;
        let (value, field, scale, format) = copies;
        Ok(ChannelValue {
            value,
            field,
            scale,
            band: self.band,
            offset: self.offset,
            signal,
            test,
            format,
        })
    }
}
