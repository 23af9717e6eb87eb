// Boxes, trees of boxes, and how they stand.
use fixed_num::Num;
use text_kit::Seq;

/// A plot with what stands round it. Lengths are in pixels.
#[derive(Clone, Copy, Debug, PartialEq, Eq)]
pub struct BoxOf {
    /// How far what belongs to the plot reaches to its left.
    pub left: Num,
    /// How far it reaches above the plot.
    pub top: Num,
    /// The plot's width.
    pub width: Num,
    /// The plot's height.
    pub height: Num,
    /// How far what belongs to the plot reaches to its right.
    pub right: Num,
    /// How far it reaches below the plot.
    pub bottom: Num,
}

/// A plot, or a grid of others.
#[derive(Debug, Drop)]
pub enum BoxTree {
    /// A plot.
    Leaf(BoxOf),
    /// A grid.
    Grid {
        /// How many cells stand side by side, from 1 on.
        columns: u64,
        /// The space between columns and between rows, in pixels.
        spacing: Num,
        /// Whether a title stands above.
        title: bool,
        /// The cells, row after row.
        cells: Seq<BoxTree>,
    },
}

/// How the boxes of a tree stand. Lengths are in pixels, from the left upper corner of the whole.
#[derive(Debug, Drop)]
pub struct Laid {
    /// Where the left upper corner of each plot stands, in the order of the tree.
    pub places: Seq<(Num, Num)>,
    /// The width of the whole.
    pub width: Num,
    /// The height of the whole.
    pub height: Num,
}

/// Where a plot or the title of a grid stands. Lengths are in pixels, from the left upper corner of the whole.
#[derive(Clone, Copy, Debug, PartialEq, Eq)]
pub struct PlaceOf {
    /// How far its left edge is from that of the whole.
    pub x: Num,
    /// How far its upper edge is from that of the whole.
    pub y: Num,
    /// The width of the plot, or that of the whole grid below the title.
    pub width: Num,
}

/// How the boxes of a tree and the titles of its grids stand. Lengths are in pixels.
#[derive(Debug, Drop)]
pub struct LaidWithTitles {
    /// Where each plot and each title of a grid stands, in the order of the tree: a title before what stands in its grid.
    pub places: Seq<PlaceOf>,
    /// The width of the whole.
    pub width: Num,
    /// The height of the whole.
    pub height: Num,
}
