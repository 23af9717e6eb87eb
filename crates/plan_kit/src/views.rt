// Types of plans.
use text_kit::Seq;

/// A view.
#[cycle(views)]
#[derive(Drop)]
pub enum ViewPlan {
    /// The plot at a place among the plots of the plan, counted from 0.
    Plot(usize),
    /// The grid at a place among the grids of the plan, and the views in it, one alone in a facet.
    Grid(usize, Seq<ViewPlan>),
}
