// Where events act.
ghost use Rattle.std.specs.Prelude.{◌≡◌, ◌++◌, pos, [], ◌∷◌, if◌then◌else◌, Some, filter, option_copied, IfOk, OnOk};
ghost use Rattle.selection_events.specs.Hits.{is_among};
ghost use Rattle.selection_events.specs.Places.{holds, is_plot_at, panel_at, has_unit, plot_with, plot_of, units_in, units_in_panel};

use crate::units::Units;
use crate::{PlotOf, SelectionOf};
use fixed_num::Num;
use scene_tree::{Panel, Scene, Shape, holds_at};
use std::alloc::Global;
use text_kit::{OutOfMemory, Seq};

// No pixel.
pub(crate) fn zero() -> Num
    ensures { result ≡ pos 0 }
{
    match Num::of_millionths(0) {
        Some(number) => number,
        None => unreachable!(),
    }
}

// Whether a panel holds a point, inside of it or on its edges.
fn holds(panel: &Panel, x: Num, y: Num) -> bool
    ensures { result ≡ holds panel.now x y }
{
    let shape = Shape::Rect {
        x: zero(),
        y: zero(),
        width: panel.width,
        height: panel.height,
    };
    holds_at(&shape, panel.x, panel.y, x, y)
}

// Whether it is a plot with marks that holds the point.
fn is_plot_at(x: Num, y: Num, panel: &Panel) -> bool
    ensures { result ≡ is_plot_at x y panel.now }
{
    panel.view.is_some() && holds(panel, x, y)
}

// The place where the test passes, else the one found before.
fn later(passes: bool, at: usize, found: Option<usize>) -> Option<usize>
    ensures { result ≡ (if passes then Some at else found) }
{
    if passes { Some(at) } else { found }
}

/// The panel in which an event at a point of the picture acts, by its index: of the plots with marks that hold the point, on their edges
/// too, the last. None where there is none.
#[tactic(auto, using(crate::proofs::LastLemmas::last_place_begun))]
pub fn panel_at(scene: &Scene, x: Num, y: Num) -> Option<usize>
    ensures { result ≡ panel_at scene.now x y }
{
    let panels = scene.panels.as_slice();
    let mut found = None;
    for (at, panel) in panels.iter().enumerate() {
        found = later(is_plot_at(x, y, panel), at, found);
    }
    found
}

/// Whether a plot draws a unit.
pub(crate) fn has_unit(unit: u32, plot: &PlotOf) -> bool
    ensures { result ≡ has_unit unit plot.now }
{
    plot.units.as_slice().iter().any(|u| *u == unit)
}

// The plot that draws a unit.
fn plot_with(plots: &[PlotOf], unit: u32) -> Option<&PlotOf>
    ensures { option_copied result ≡ plot_with plots.now unit }
{
    for plot in plots {
        if has_unit(unit, plot) {
            return Some(plot);
        }
    }
    None
}

/// The plot of a panel.
pub(crate) fn plot_of<'a>(plots: &'a [PlotOf], panel: &Panel) -> Option<&'a PlotOf>
    ensures { option_copied result ≡ plot_of plots.now panel.now }
{
    match panel.view {
        Some(unit) => plot_with(plots, unit),
        None => None,
    }
}

// Adds a unit where it is among those of a plot.
fn push_unit(drawn: &Units, unit: u32, out: &mut Seq<u32>) -> Result<(), OutOfMemory>
    ensures { OnOk result (out.new ≡ out.old ++ (if is_among drawn.now unit then unit ∷ [] else [])) }
{
    if drawn.has(unit) {
        out.push(unit)
    } else {
        Ok(())
    }
}

// The units of a selection in a plot.
fn units_in(alloc: Global, units: &[u32], plot: &PlotOf) -> Result<Seq<u32>, OutOfMemory>
    ensures { IfOk result (λ here. here ≡ filter (λ u. has_unit u plot.now) units.now) }
{
    let drawn = Units::of(plot.units.as_slice());
    let mut out = Seq::new(alloc);
    for unit in units {
        push_unit(&drawn, *unit, &mut out)?;
    }
    Ok(out)
}

/// The units of a selection in a panel, the least first; none where the selection doesn't concern the panel.
pub fn units_in_panel(
    alloc: Global,
    plots: &[PlotOf],
    selection: &SelectionOf,
    panel: &Panel,
) -> Result<Seq<u32>, OutOfMemory>
    ensures { IfOk result (λ units. units ≡ units_in_panel plots.now selection.now panel.now) }
{
    match plot_of(plots, panel) {
        Some(plot) => units_in(alloc, selection.units.as_slice(), plot),
        None => Ok(Seq::new(alloc)),
    }
}
