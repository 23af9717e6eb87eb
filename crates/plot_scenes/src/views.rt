// Plots and grids with all that is drawn in them.
use crate::axes::Axes;
use crate::headers::Header;
use crate::legends::LegendShown;
use cell_value::Cell;
use fixed_num::Num;
use scale_kit::ScaleIn;
use scene_tree::{Item, Panel};
use text_kit::{Seq, Text};
use view_layout::BoxTree;

/// A plot with all that it draws. Lengths are in pixels.
#[derive(Debug, Drop)]
pub struct Plot {
    /// Its width.
    pub width: Num,
    /// Its height.
    pub height: Num,
    /// Its title.
    pub title: Option<Text>,
    /// Its headers, the inner before the outer.
    pub headers: Seq<Header>,
    /// Its axes.
    pub axes: Axes,
    /// The items of its marks.
    pub items: Seq<Item>,
    /// The least number of its marks; None without marks.
    pub view: Option<u32>,
    /// The cells of the facets round it by their fields, the outer before the inner; None outside facets.
    pub cells: Option<Seq<(Text, Cell)>>,
    /// The legends of its objects.
    pub legends: Seq<LegendShown>,
    /// The scales that it has for itself, by their names.
    pub scales: Seq<ScaleIn>,
}

/// A grid, without what stands in it.
#[derive(Debug, Drop)]
pub struct GridShown {
    /// How many cells stand side by side, from 1 on.
    pub columns: u64,
    /// The space between columns and between rows, in pixels.
    pub spacing: Num,
    /// Its title.
    pub title: Option<Text>,
    /// Its legends, which are drawn where a plot stands in it.
    pub legends: Seq<LegendShown>,
}

/// A panel of a plot, with the scales that belong to it.
#[derive(Debug, Drop)]
pub struct PanelHere {
    /// The panel.
    pub panel: Panel,
    /// The scales, by their names.
    pub scales: Seq<ScaleIn>,
}

/// What stands at a place of a layout.
#[derive(Debug, Drop)]
pub enum Part {
    /// The title of a grid.
    Title(Text),
    /// A plot, whose place isn't known yet.
    OfPlot(PanelHere),
}

/// A plot or a grid as boxes of a layout, with the parts that stand at its places, one for each in this order.
#[derive(Debug, Drop)]
pub struct Placed {
    /// The boxes.
    pub boxes: BoxTree,
    /// What stands at their places.
    pub parts: Seq<Part>,
    /// The legends of all that stands in it.
    pub legends: Seq<LegendShown>,
    /// Whether it is a plot, or one stands in it.
    pub has_plot: bool,
}
