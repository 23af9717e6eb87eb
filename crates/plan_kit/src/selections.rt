// Types of plans.
use selection_events::SelectionOf;
use text_kit::Seq;

/// A drag of a selection in a plot, along a channel.
pub struct DragPlan {
    /// The number of the plot's view.
    pub plot: usize,
    /// The code of the channel: x or y.
    pub channel: u16,
    /// The number of the scale that is inverted.
    pub scale: usize,
}

/// A selection.
pub struct SelectionPlan {
    /// What it keeps, and of which units.
    pub kept: SelectionOf,
    /// What a drag of it inverts, plot after plot; none of a point.
    pub drags: Seq<DragPlan>,
}

impl Drop for DragPlan {
    fn drop(self) {
        let DragPlan {
            plot: _,
            channel: _,
            scale: _,
        } = self;
    }
}

impl Drop for SelectionPlan {
    fn drop(self) {
        let SelectionPlan { kept: _, drags: _ } = self;
    }
}
