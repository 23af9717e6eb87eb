// Types of plans.
use crate::grids::GridPlan;
use crate::plans::UnitPlan;
use crate::plots::PlotPlan;
use crate::scales::ScalePlan;
use crate::selections::SelectionPlan;
use crate::views::ViewPlan;
use fixed_num::Num;
use text_kit::Seq;

/// The plan of a chart. Its sources and its parameters stay in the specification.
pub struct Plan {
    /// The units, in the order of the text.
    pub units: Seq<UnitPlan>,
    /// The scales, by their numbers.
    pub scales: Seq<ScalePlan>,
    /// The plots, in the order of the text.
    pub plots: Seq<PlotPlan>,
    /// The grids, an outer one before those in it, and else in the order of the text.
    pub grids: Seq<GridPlan>,
    /// How plots and grids stand in each other.
    pub view: ViewPlan,
    /// The space round the picture, in pixels.
    pub padding: Num,
    /// The selections, in the order of the text.
    pub selections: Seq<SelectionPlan>,
}

impl Drop for Plan {
    fn drop(self) {
        let Plan {
            units,
            scales,
            plots,
            grids,
            view,
            padding: _,
            selections,
        } = self;
        drop(units);
        drop(scales);
        drop(plots);
        drop(grids);
        drop(view);
        drop(selections);
    }
}
