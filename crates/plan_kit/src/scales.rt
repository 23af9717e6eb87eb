// Types of plans.
use crate::domains::DomainPlan;
use crate::ranges::RangePlan;
use expr_syntax::Expr;
use fixed_num::Num;
use guide_kit::LegendOf;
use text_kit::Seq;

/// A scale.
pub struct ScalePlan {
    /// The code of its channel among `case_table::CHANNELS`.
    pub channel: u16,
    /// The numbers of the units that share it, rising.
    pub units: Seq<u32>,
    /// The code of its kind among `case_table::SCALE_KINDS`.
    pub kind: u16,
    /// Whether its domain is one of instants.
    pub is_time: bool,
    /// The number of the facet in each of whose panels it stands once; None where it stands once in the chart.
    pub holder: Option<usize>,
    /// Its domain.
    pub domain: DomainPlan,
    /// What gives its domain in place of this where it is a pair.
    pub raw: Option<Expr>,
    /// What it gives.
    pub range: RangePlan,
    /// Whether that is turned round.
    pub reverse: bool,
    /// Whether its domain takes in 0.
    pub zero: bool,
    /// Whether its domain ends at round numbers.
    pub nice: bool,
    /// The padding between bands, as a part of a step.
    pub inner: Num,
    /// The padding round all bands or points, as a part of a step.
    pub outer: Num,
    /// Its legend.
    pub legend: Option<LegendOf>,
    /// Whether it is the scale of a unit that shows nothing on a scale in its channel.
    pub is_alone: bool,
}

impl Drop for ScalePlan {
    fn drop(self) {
        let ScalePlan {
            channel: _,
            units: _,
            kind: _,
            is_time: _,
            holder: _,
            domain,
            raw: _,
            range,
            reverse: _,
            zero: _,
            nice: _,
            inner: _,
            outer: _,
            legend: _,
            is_alone: _,
        } = self;
        drop(domain);
        drop(range);
    }
}
