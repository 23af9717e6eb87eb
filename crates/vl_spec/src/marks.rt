// Marks.
use fixed_num::Num;
use std::alloc::Global;
use text_kit::{Copies, OutOfMemory, Text};

/// A mark.
pub enum Mark {
    /// Its type alone.
    Type(MarkType),
    /// Its type and its look.
    Definition(MarkDefinition),
}

/// The type of a mark.
#[derive(Clone, Copy)]
pub enum MarkType {
    /// `bar`
    Bar,
    /// `rect`
    Rect,
    /// `point`
    Point,
    /// `circle`
    Circle,
    /// `square`
    Square,
    /// `line`
    Line,
    /// `area`
    Area,
    /// `tick`
    Tick,
    /// `rule`
    Rule,
    /// `text`
    Text,
}

/// The type and the look of a mark.
pub struct MarkDefinition {
    /// The type.
    pub type_: MarkType,
    /// The colour.
    pub color: Option<Text>,
    /// The opacity, from 0 to 1.
    pub opacity: Option<Num>,
    /// Whether it is filled.
    pub filled: Option<bool>,
    /// Whether a line has points.
    pub point: Option<bool>,
    /// The area of a sign, in square pixels.
    pub size: Option<Num>,
    /// The width of its line, in pixels.
    pub stroke_width: Option<Num>,
    /// Where a text is anchored.
    pub align: Option<Align>,
    /// Where the baseline of a text is.
    pub baseline: Option<Baseline>,
    /// How far to the right a text is moved, in pixels.
    pub dx: Option<Num>,
    /// How far down.
    pub dy: Option<Num>,
    /// The size of a text, in pixels.
    pub font_size: Option<Num>,
    /// How the points of a line are joined.
    pub interpolate: Option<Interpolate>,
}

/// Where a text is anchored.
#[derive(Clone, Copy)]
pub enum Align {
    /// `left`
    Left,
    /// `center`
    Center,
    /// `right`
    Right,
}

/// Where the baseline of a text is.
#[derive(Clone, Copy)]
pub enum Baseline {
    /// `top`
    Top,
    /// `middle`
    Middle,
    /// `bottom`
    Bottom,
    /// `alphabetic`
    Alphabetic,
}

/// How the points of a line are joined.
#[derive(Clone, Copy)]
pub enum Interpolate {
    /// `linear`
    Linear,
}

impl Drop for Mark {
    fn drop(self) {
        match self {
            Mark::Type(_) => {}
            Mark::Definition(_) => {}
        }
    }
}

impl Drop for MarkDefinition {
    fn drop(self) {
        let MarkDefinition {
            type_: _,
            color: _,
            opacity: _,
            filled: _,
            point: _,
            size: _,
            stroke_width: _,
            align: _,
            baseline: _,
            dx: _,
            dy: _,
            font_size: _,
            interpolate: _,
        } = self;
    }
}

impl Copies for Mark {
    fn copied(&self, alloc: Global) -> Result<Mark, OutOfMemory> {
        match self {
            Mark::Type(type_) => Ok(Mark::Type(*type_)),
            Mark::Definition(of) => Ok(Mark::Definition(of.copied(alloc)?)),
        }
    }
}

impl Copies for MarkDefinition {
    fn copied(&self, alloc: Global) -> Result<MarkDefinition, OutOfMemory> {
        let color = Copies::copied(&self.color, alloc)?;
        Ok(MarkDefinition {
            type_: self.type_,
            color,
            opacity: self.opacity,
            filled: self.filled,
            point: self.point,
            size: self.size,
            stroke_width: self.stroke_width,
            align: self.align,
            baseline: self.baseline,
            dx: self.dx,
            dy: self.dy,
            font_size: self.font_size,
            interpolate: self.interpolate,
        })
    }
}
