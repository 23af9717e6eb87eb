// Types of plans.
use fixed_num::Num;

/// The width or the height of a plot.
#[derive(Clone, Copy)]
pub enum SizePlan {
    /// So many pixels.
    Pixels(Num),
    /// So many pixels from one cell to the next, on the scale of a number.
    Steps(Num, usize),
}
