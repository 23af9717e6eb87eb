// What is drawn.
ghost use Rattle.std.specs.Prelude.{◌≡◌, IfOk};

use fixed_num::Num;
use std::alloc::Global;
use text_kit::{OutOfMemory, Seq, Text};

/// What is drawn, at places in pixels from the panel's origin: `x` to the right, `y` downward.
#[derive(Debug, Drop)]
pub enum Shape {
    /// A rectangle, by its upper left corner.
    Rect {
        /// Its left edge.
        x: Num,
        /// Its upper edge.
        y: Num,
        /// Its width.
        width: Num,
        /// Its height.
        height: Num,
    },
    /// A circle.
    Circle {
        /// Its centre.
        x: Num,
        /// Its centre.
        y: Num,
        /// Its radius.
        r: Num,
    },
    /// A path.
    Path {
        /// Its points, in order.
        points: Seq<Point>,
        /// Half the side of the square by which a symbol is picked; None for a path that is no symbol.
        picked: Option<Num>,
    },
    /// A line from one point to another.
    Line {
        /// Where it begins.
        x1: Num,
        /// Where it begins.
        y1: Num,
        /// Where it ends.
        x2: Num,
        /// Where it ends.
        y2: Num,
    },
    /// A text on one line.
    Words {
        /// The place of its anchor.
        x: Num,
        /// The place of its baseline.
        y: Num,
        /// Whether it is turned by a quarter against the clock, about its anchor.
        turned: bool,
        /// Which part of it stands at its place.
        anchor: Anchor,
        /// Its font size, in pixels.
        size: u32,
        /// Whether it is bold.
        bold: bool,
        /// The text.
        text: Text,
    },
}

/// A step of a path.
#[derive(Clone, Copy, Debug, PartialEq, Eq)]
pub enum Point {
    /// Goes to a point without drawing.
    Move(Num, Num),
    /// Draws a line to a point.
    Line(Num, Num),
    /// Draws a line to where the path was last moved to.
    Close,
}

/// Which part of a text stands at its place.
#[derive(Clone, Copy, Debug, PartialEq, Eq)]
pub enum Anchor {
    /// Its beginning.
    Start,
    /// Its middle.
    Middle,
    /// Its end.
    End,
}

impl Shape {
    /// A shape that equals this one.
    pub fn copy(&self, alloc: Global) -> Result<Shape, OutOfMemory>
        ensures { IfOk result (λ copy. copy ≡ self.now) }
    {
        Ok(match self {
            Shape::Rect {
                x,
                y,
                width,
                height,
            } => Shape::Rect {
                x: *x,
                y: *y,
                width: *width,
                height: *height,
            },
            Shape::Circle { x, y, r } => Shape::Circle {
                x: *x,
                y: *y,
                r: *r,
            },
            Shape::Path { points, picked } => Shape::Path {
                points: Seq::from_slice(alloc, points.as_slice())?,
                picked: *picked,
            },
            Shape::Line { x1, y1, x2, y2 } => Shape::Line {
                x1: *x1,
                y1: *y1,
                x2: *x2,
                y2: *y2,
            },
            Shape::Words {
                x,
                y,
                turned,
                anchor,
                size,
                bold,
                text,
            } => Shape::Words {
                x: *x,
                y: *y,
                turned: *turned,
                anchor: *anchor,
                size: *size,
                bold: *bold,
                text: text.copy()?,
            },
        })
    }
}
