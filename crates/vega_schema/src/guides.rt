//! The members of objects: guides.
ghost use Rattle.std.specs.Prelude.{◌≡◌, ◌++◌, IfOk, OnOk};
ghost use Rattle.vega_schema.specs.Guides.{group_mark, axis, legend, grid_layout, top, all_guides};

use crate::codes::{
    ANGLE, AUTOSIZE, AXES, AXIS, CELLS, COUNT, DATA_LIST, EDGE, FLAG, GROUP_ENCODE, GROUP_FROM,
    LABEL_FORMAT, LAYOUT, LEGEND, LEGENDS, MARK, MARKS, SCALES, SIDE, SIGNALS, SIZE, SORT, SPACE,
    TEXT, TICK_COUNT, TOP,
};
use spec_schema::{Layout, When, layout_by, table};
use std::alloc::Global;
use text_kit::{OutOfMemory, Seq};

// A group.
#[tactic(auto, unfolding(crate::specs::Guides::group_mark))]
fn group_mark(alloc: Global) -> Result<Layout, OutOfMemory>
    ensures { IfOk result (λ l. l ≡ group_mark) }
{
    layout_by(
        alloc,
        MARK,
        &[When::Says("type", "group")],
        &table![
        must "type" TEXT, may "name" TEXT, may "from" GROUP_FROM, may "encode" GROUP_ENCODE, may "sort" SORT,
        may "data" DATA_LIST, may "signals" SIGNALS, may "scales" SCALES, may "layout" LAYOUT, may "marks" MARKS,
        may "axes" AXES, may "legends" LEGENDS, may "title" TEXT,
    ],
        None,
    )
}

// An axis.
#[tactic(auto, unfolding(crate::specs::Guides::axis))]
fn axis(alloc: Global) -> Result<Layout, OutOfMemory>
    ensures { IfOk result (λ l. l ≡ axis) }
{
    layout_by(
        alloc,
        AXIS,
        &[],
        &table![
        must "scale" TEXT, must "orient" SIDE, may "title" TEXT, may "labels" FLAG, may "ticks" FLAG,
        may "domain" FLAG, may "grid" FLAG, may "labelAngle" ANGLE, may "tickCount" TICK_COUNT, may "values" CELLS,
        may "format" LABEL_FORMAT, may "edge" EDGE,
    ],
        None,
    )
}

// A legend.
#[tactic(auto, unfolding(crate::specs::Guides::legend))]
fn legend(alloc: Global) -> Result<Layout, OutOfMemory>
    ensures { IfOk result (λ l. l ≡ legend) }
{
    layout_by(
        alloc,
        LEGEND,
        &[],
        &table![
        may "fill" TEXT, may "opacity" TEXT, may "shape" TEXT, may "size" TEXT, may "title" TEXT,
        may "format" LABEL_FORMAT,
    ],
        None,
    )
}

// The layout of a grid.
#[tactic(auto, unfolding(crate::specs::Guides::grid_layout))]
fn grid_layout(alloc: Global) -> Result<Layout, OutOfMemory>
    ensures { IfOk result (λ l. l ≡ grid_layout) }
{
    layout_by(
        alloc,
        LAYOUT,
        &[],
        &table![
        may "padding" SPACE, may "columns" COUNT,
    ],
        None,
    )
}

// The whole specification.
#[tactic(auto, unfolding(crate::specs::Guides::top))]
fn top(alloc: Global) -> Result<Layout, OutOfMemory>
    ensures { IfOk result (λ l. l ≡ top) }
{
    layout_by(
        alloc,
        TOP,
        &[],
        &table![
        may "data" DATA_LIST, may "signals" SIGNALS, may "scales" SCALES, may "layout" LAYOUT, may "marks" MARKS,
        may "axes" AXES, may "legends" LEGENDS, may "title" TEXT, may "$schema" TEXT, may "description" TEXT,
        may "width" SIZE, may "height" SIZE, may "padding" SPACE, may "autosize" AUTOSIZE,
    ],
        None,
    )
}

/// Adds these layouts.
pub fn push_guides(alloc: Global, out: &mut Seq<Layout>) -> Result<(), OutOfMemory>
    ensures { OnOk result (out.new ≡ out.old ++ all_guides) }
{
    out.push(group_mark(alloc)?)?;
    out.push(axis(alloc)?)?;
    out.push(legend(alloc)?)?;
    out.push(grid_layout(alloc)?)?;
    out.push(top(alloc)?)
}
