// The panels of a picture.
ghost use Rattle.std.specs.Prelude.{◌≡◌, ◌++◌, IfOk, OnOk};
ghost use Rattle.plot_scenes.specs.Panels.{legend_panel, next_top, legend_panels, right_end, lower_end};
ghost use Rattle.plot_scenes.specs.Panels.{farther_right, farther_down, reach_right, reach_down};

use crate::lengths::{gap, greater};
use fixed_num::Num;
use guide_kit::{Block, plus};
use scene_tree::{Items, Panel};
use std::alloc::Global;
use text_kit::{OutOfMemory, Seq};

// A legend as a panel.
fn legend_panel(alloc: Global, x: Num, y: Num, block: Block) -> Result<Panel, OutOfMemory>
    ensures { IfOk result (λ panel. panel ≡ legend_panel x y block) }
{
    let Block {
        items,
        width,
        height,
    } = block;
    Ok(Panel {
        x,
        y,
        width,
        height,
        view: None,
        facet: None,
        items: Items::from_seq(alloc, items)?,
    })
}

// Where the next legend begins below one.
fn next_top(y: Num, block: &Block) -> Num
    ensures { result ≡ next_top y block.now }
{
    plus(plus(y, block.height), gap())
}

/// Adds legends one below the other with gaps of 18 pixels, the first with its corner at `x`, `y`.
pub(crate) fn push_legends(
    alloc: Global,
    x: Num,
    y: Num,
    blocks: Seq<Block>,
    panels: &mut Seq<Panel>,
) -> Result<(), OutOfMemory>
    ensures { OnOk result (panels.new ≡ panels.old ++ legend_panels x y blocks) }
{
    let mut top = y;
    for block in blocks.into_vec() {
        let next = next_top(top, &block);
        panels.push(legend_panel(alloc, x, top, block)?)?;
        top = next;
    }
    Ok(())
}

// The right end of a panel.
fn right_end(panel: &Panel) -> Num
    ensures { result ≡ right_end panel.now }
{
    plus(panel.x, panel.width)
}

// The lower end of a panel.
fn lower_end(panel: &Panel) -> Num
    ensures { result ≡ lower_end panel.now }
{
    plus(panel.y, panel.height)
}

// The farther of an end and the right end of a panel.
fn farther_right(most: Num, panel: &Panel) -> Num
    ensures { result ≡ farther_right most panel.now }
{
    greater(most, right_end(panel))
}

// The farther of an end and the lower end of a panel.
fn farther_down(most: Num, panel: &Panel) -> Num
    ensures { result ≡ farther_down most panel.now }
{
    greater(most, lower_end(panel))
}

/// How far panels and what reaches so far to the right reach together.
pub(crate) fn reach_right(far: Num, panels: &[Panel]) -> Num
    ensures { result ≡ reach_right far panels.now }
{
    let mut most = far;
    for panel in panels {
        most = farther_right(most, panel);
    }
    most
}

/// How far panels and what reaches so far down reach together.
pub(crate) fn reach_down(far: Num, panels: &[Panel]) -> Num
    ensures { result ≡ reach_down far panels.now }
{
    let mut most = far;
    for panel in panels {
        most = farther_down(most, panel);
    }
    most
}
