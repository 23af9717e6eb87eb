// Types of plans.
use crate::marks::MarkPlan;
use crate::steps::Step;
use text_kit::{Seq, Text};

/// The plan of a unit.
pub struct UnitPlan {
    /// Its number among the units of the specification.
    pub number: usize,
    /// The name of the source of its rows.
    pub source: Text,
    /// The steps before a row stands for several.
    pub before: Seq<Step>,
    /// The steps from there on.
    pub after: Seq<Step>,
    /// Its mark.
    pub mark: MarkPlan,
}

impl Drop for UnitPlan {
    fn drop(self) {
        let UnitPlan {
            number: _,
            source: _,
            before: _,
            after: _,
            mark,
        } = self;
        drop(mark);
    }
}
