// A grid as a view.
ghost use Rattle.std.specs.Prelude.{◌≡◌, [], ◌++◌, if◌then◌else◌, map, flat_map, IfOk, OnOk};
ghost use Rattle.std.specs.List.{All};
ghost use Rattle.plot_scenes.specs.Legends.{IsLegendShown};
ghost use Rattle.plot_scenes.specs.Views.{titled, has_plots, placed_grid, HasLegends};
ghost use Rattle.plot_scenes.specs.declared.views.Placed.{Placed as View};

use crate::legends::LegendShown;
use crate::views::{GridShown, Part, Placed};
use std::alloc::Global;
use text_kit::{OutOfMemory, Seq, Text};
use view_layout::BoxTree;

// Whether it is a plot, or one stands in it.
fn has_plot(view: &Placed) -> bool
    ensures { result ≡ view.now.has_plot }
{
    view.has_plot
}

// Whether there is a plot among views.
fn has_plots(views: &[Placed]) -> bool
    ensures { result ≡ has_plots views.now }
{
    views.iter().any(has_plot)
}

// The title of a grid as a part, if it has one.
fn titled(alloc: Global, title: Option<Text>) -> Result<Seq<Part>, OutOfMemory>
    ensures { IfOk result (λ parts. parts ≡ titled title) }
{
    let mut parts = Seq::new(alloc);
    match title {
        Some(text) => {
            parts.push(Part::Title(text))?;
            Ok(parts)
        }
        None => Ok(parts),
    }
}

// The legends of a grid, where a plot stands in it.
fn legends_over(alloc: Global, grid: Seq<LegendShown>, has_plots: bool) -> Seq<LegendShown>
    ensures { result ≡ (if has_plots then grid else []) }
{
    if has_plots { grid } else { Seq::new(alloc) }
}

// The boxes of views; adds their parts and their legends.
fn gathered(
    alloc: Global,
    views: Seq<Placed>,
    parts: &mut Seq<Part>,
    legends: &mut Seq<LegendShown>,
) -> Result<Seq<BoxTree>, OutOfMemory>
    ensures boxes { IfOk result (λ boxes. boxes ≡ map (λ (v : View). v.boxes) views) }
    ensures parts { OnOk result (parts.new ≡ parts.old ++ flat_map (λ (v : View). v.parts) views) }
    ensures legends { OnOk result (legends.new ≡ legends.old ++ flat_map (λ (v : View). v.legends) views) }
{
    let mut boxes = Seq::with_capacity(alloc, views.len())?;
    for view in views.into_vec() {
        let Placed {
            boxes: own,
            parts: standing,
            legends: shown,
            ..
        } = view;
        boxes.push(own)?;
        parts.append(standing)?;
        legends.append(shown)?;
    }
    Ok(boxes)
}

/// A grid of these cells, row after row, as boxes of a layout: its title stands before what is in its cells, and its legends, which are
/// drawn where a plot stands in it, before theirs.
pub fn placed_grid(
    alloc: Global,
    grid: GridShown,
    inside: Seq<Placed>,
) -> Result<Placed, OutOfMemory>
    requires grid { All IsLegendShown grid.legends }
    requires inside { All HasLegends inside }
    ensures value { IfOk result (λ view. view ≡ placed_grid grid inside) }
    ensures asked { IfOk result HasLegends }
{
    let GridShown {
        columns,
        spacing,
        title,
        legends: own,
    } = grid;
    let has_plot = has_plots(inside.as_slice());
    let has_title = title.is_some();
    let mut legends = legends_over(alloc, own, has_plot);
    let mut parts = titled(alloc, title)?;
    let cells = gathered(alloc, inside, &mut parts, &mut legends)?;
    Ok(Placed {
        boxes: BoxTree::Grid {
            columns,
            spacing,
            title: has_title,
            cells,
        },
        parts,
        legends,
        has_plot,
    })
}
