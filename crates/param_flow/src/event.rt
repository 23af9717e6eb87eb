// Events of the mouse.

use fixed_num::Num;

/// An event of the mouse, at places in pixels from the upper left corner of the picture.
#[derive(Clone, Copy, Debug, PartialEq, Eq)]
pub enum Event {
    /// A click.
    Click {
        /// How far to the right.
        x: Num,
        /// How far down.
        y: Num,
    },
    /// A click with the shift key.
    Shift {
        /// How far to the right.
        x: Num,
        /// How far down.
        y: Num,
    },
    /// A double click.
    Double {
        /// How far to the right.
        x: Num,
        /// How far down.
        y: Num,
    },
    /// A drag from one place to another.
    Drag {
        /// How far to the right it begins.
        x1: Num,
        /// How far down it begins.
        y1: Num,
        /// How far to the right it ends.
        x2: Num,
        /// How far down it ends.
        y2: Num,
    },
}
