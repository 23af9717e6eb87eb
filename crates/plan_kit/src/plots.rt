// Types of plans.
use crate::sizes::SizePlan;
use guide_kit::AxisOf;
use text_kit::{Seq, Text};

/// An axis of a plot.
pub struct AxisPlan {
    /// The number of its scale.
    pub scale: usize,
    /// What it shows.
    pub axis: AxisOf,
    /// The numbers of the facets round the plot at whose edge alone it stands.
    pub edges: Seq<usize>,
}

/// A plot.
pub struct PlotPlan {
    /// The number of its view.
    pub number: usize,
    /// The numbers of the units that are drawn in it, rising.
    pub units: Seq<usize>,
    /// The numbers of the facets round it, the outer before the inner.
    pub facets: Seq<usize>,
    /// Its title.
    pub title: Option<Text>,
    /// Its width.
    pub width: SizePlan,
    /// Its height.
    pub height: SizePlan,
    /// Its axes, those of x first.
    pub axes: Seq<AxisPlan>,
}

impl Drop for AxisPlan {
    fn drop(self) {
        let AxisPlan {
            scale: _,
            axis: _,
            edges: _,
        } = self;
    }
}

impl Drop for PlotPlan {
    fn drop(self) {
        let PlotPlan {
            number: _,
            units: _,
            facets: _,
            title: _,
            width: _,
            height: _,
            axes,
        } = self;
        drop(axes);
    }
}
