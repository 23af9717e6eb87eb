// Where the parts of an axis stand, by its side.
ghost use Rattle.std.specs.Prelude.{◌≡◌, ◌≤◌, pos, if◌then◌else◌};
ghost use Rattle.guide_kit.specs.Measures.{farthest, plus, minus};
ghost use Rattle.guide_kit.specs.Sides.{plan_of, frame_for, frame_of, outward, are_turned, label_beyond, label_anchor, label_distance};
ghost use Rattle.guide_kit.specs.Sides.{label_along, title_distance};

use crate::measures::{minus, pixels, plus};
use fixed_num::Num;
use scene_tree::Anchor;

/// The side of a plot at which an axis stands.
#[derive(Clone, Copy, Debug, PartialEq, Eq)]
pub enum Side {
    /// Below the plot.
    Bottom,
    /// Above it.
    Top,
    /// To the left of it.
    Left,
    /// To the right of it.
    Right,
}

/// What differs between the sides.
#[derive(Clone, Copy, Debug)]
pub struct Plan {
    /// Whether the axis runs along x.
    pub along_x: bool,
    /// Whether outward is away from the plot's origin.
    pub far: bool,
    /// How many pixels outward labels stand beyond ticks.
    pub label: u8,
    /// The anchor of labels.
    pub upright: Anchor,
    /// The anchor of labels that are turned.
    pub turned: Anchor,
}

/// An axis at a plot.
#[derive(Clone, Copy, Debug)]
pub struct AxisFrame {
    /// What its side is like.
    pub plan: Plan,
    /// How long it is, in pixels.
    pub size: Num,
    /// How far the plot extends across it.
    pub depth: Num,
    /// Where its line stands across it.
    pub edge: Num,
}

// A row of the table of sides.
fn side_plan(along_x: bool, far: bool, label: u8, upright: Anchor, turned: Anchor) -> Plan
    ensures { result ≡ record { along_x = along_x; far = far; label = label; upright = upright; turned = turned } }
{
    Plan {
        along_x,
        far,
        label,
        upright,
        turned,
    }
}

/// What a side is like.
fn plan_of(side: Side) -> Plan
    ensures { result ≡ plan_of side }
{
    match side {
        Side::Bottom => side_plan(true, true, 17, Anchor::Middle, Anchor::End),
        Side::Top => side_plan(true, false, 7, Anchor::Middle, Anchor::Start),
        Side::Left => side_plan(false, false, 7, Anchor::End, Anchor::End),
        Side::Right => side_plan(false, true, 7, Anchor::Start, Anchor::Start),
    }
}

// One of two numbers.
fn chosen(first: bool, a: Num, b: Num) -> Num
    ensures { result ≡ (if first then a else b) }
{
    if first { a } else { b }
}

// Where the line of an axis stands across it.
fn edge_of(far: bool, depth: Num, offset: Num) -> Num
    ensures { result ≡ (if far then plus depth offset else minus (pos 0) offset) }
{
    if far {
        plus(depth, offset)
    } else {
        minus(pixels(0), offset)
    }
}

// An axis at a plot of this size, moved outward by an offset.
fn frame_for(plan: Plan, width: Num, height: Num, offset: Num) -> AxisFrame
    ensures { result ≡ frame_for plan width height offset }
{
    let depth = chosen(plan.along_x, height, width);
    AxisFrame {
        plan,
        size: chosen(plan.along_x, width, height),
        depth,
        edge: edge_of(plan.far, depth, offset),
    }
}

/// An axis at a side of a plot of this size, moved outward by an offset.
pub fn frame_of(side: Side, width: Num, height: Num, offset: Num) -> AxisFrame
    ensures { result ≡ frame_of side width height offset }
{
    frame_for(plan_of(side), width, height, offset)
}

impl AxisFrame {
    /// The place so many pixels outward from the line.
    pub fn outward(&self, n: u64) -> Num
        requires { n ≤ farthest }
        ensures { result ≡ outward self.now n }
    {
        if self.plan.far {
            plus(self.edge, pixels(n))
        } else {
            minus(self.edge, pixels(n))
        }
    }

    /// Whether labels are turned, where that is asked.
    pub fn are_turned(&self, asked: bool) -> bool
        ensures { result ≡ are_turned self.now asked }
    {
        asked && self.plan.along_x
    }

    // How many pixels outward labels stand beyond ticks.
    fn label_beyond(&self, turned: bool) -> u8
        ensures { result ≡ label_beyond self.now turned }
    {
        if turned { 7 } else { self.plan.label }
    }

    /// The anchor of labels.
    pub fn label_anchor(&self, turned: bool) -> Anchor
        ensures { result ≡ label_anchor self.now turned }
    {
        if turned {
            self.plan.turned
        } else {
            self.plan.upright
        }
    }

    /// How many pixels outward labels stand.
    pub fn label_distance(&self, turned: bool, ticks: bool) -> u8
        ensures { result ≡ label_distance self.now turned ticks }
    {
        let beyond = self.label_beyond(turned);
        if ticks {
            beyond
        } else {
            beyond.saturating_sub(5)
        }
    }

    /// The place of a tick's label along the axis.
    pub fn label_along(&self, turned: bool, place: Num) -> Num
        ensures { result ≡ label_along self.now turned place }
    {
        if self.plan.along_x {
            if turned {
                plus(place, pixels(3))
            } else {
                place
            }
        } else {
            plus(place, pixels(3))
        }
    }

    /// How many pixels outward a title stands.
    pub fn title_distance(&self, extent: u64) -> u64
        ensures value { result ≡ title_distance self.now extent }
        ensures bound { result ≤ extent }
    {
        if self.plan.far {
            extent
        } else {
            extent.saturating_sub(11)
        }
    }
}
