// A plot as a view.
ghost use Rattle.std.specs.Prelude.{◌≡◌, [], ◌∷◌, ◌++◌, IfOk, OnOk};
ghost use Rattle.std.specs.Option.{option_map};
ghost use Rattle.std.specs.List.{All};
ghost use Rattle.cell_value.specs.Row.{row_of};
ghost use Rattle.plot_scenes.specs.Titles.{title_items};
ghost use Rattle.plot_scenes.specs.declared.views.Part.TheVariants.{OfPlot};
ghost use Rattle.plot_scenes.specs.Headers.{header_items, with_headers};
ghost use Rattle.plot_scenes.specs.Legends.{IsLegendShown};
ghost use Rattle.plot_scenes.specs.Views.{box_of, extents_of, placed_plot, HasLegends};

use crate::axes::Axes;
use crate::extents::Extents;
use crate::headers::{Header, push_headers, with_headers};
use crate::titles::{push_title, with_title};
use crate::views::{PanelHere, Part, Placed, Plot};
use cell_value::{Cell, Row};
use fixed_num::Num;
use guide_kit::pixels;
use scale_kit::ScaleIn;
use scene_tree::{Item, Items, Panel};
use std::alloc::Global;
use text_kit::{OutOfMemory, Seq, Text};
use view_layout::{BoxOf, BoxTree};

// A plot of this size in pixels with what extends beyond its sides, as a box.
fn box_of(size: &(Num, Num), extents: &Extents) -> BoxOf
    ensures { result ≡ box_of size.now.0 size.now.1 extents.now }
{
    BoxOf {
        left: extents.left,
        top: extents.top,
        width: size.0,
        height: size.1,
        right: extents.right,
        bottom: extents.bottom,
    }
}

// How far what belongs to a plot extends.
fn extents_of(plot: &Plot) -> Extents
    ensures { result ≡ extents_of plot.now }
{
    let headed = with_headers(&plot.axes.extents, plot.headers.as_slice());
    with_title(&plot.title, &headed)
}

// Adds the title and the headers of a plot of this size with these extents.
fn push_words(
    alloc: Global,
    title: &Option<Text>,
    size: &(Num, Num),
    extents: &Extents,
    headers: &[Header],
    items: &mut Seq<Item>,
) -> Result<(), OutOfMemory>
    ensures { OnOk result (items.new ≡ items.old ++ title_items title.now size.now.0 (with_headers extents.now headers.now)
        ++ header_items size.now.0 size.now.1 extents.now headers.now) }
{
    let headed = with_headers(extents, headers);
    push_title(alloc, title, size.0, &headed, items)?;
    push_headers(alloc, size, extents, headers, items)
}

// The items of a plot in their order. Those of its marks are a run of their own, since a copy of many items takes as much memory again.
fn items_of(
    alloc: Global,
    title: &Option<Text>,
    size: &(Num, Num),
    headers: &[Header],
    axes: Axes,
    marks: Seq<Item>,
) -> Result<Items, OutOfMemory>
    ensures { IfOk result (λ items. items ≡ title_items title.now size.now.0 (with_headers axes.extents headers.now)
        ++ header_items size.now.0 size.now.1 axes.extents headers.now ++ axes.grids ++ axes.items ++ marks) }
{
    let Axes {
        grids,
        items: own,
        extents,
    } = axes;
    let mut guides = Seq::new(alloc);
    push_words(alloc, title, size, &extents, headers, &mut guides)?;
    guides.append(grids)?;
    guides.append(own)?;
    let mut items = Items::from_seq(alloc, guides)?;
    items.add_run(marks)?;
    Ok(items)
}

// The facet cells of a plot as a row.
fn facet_of(alloc: Global, cells: Option<Seq<(Text, Cell)>>) -> Result<Option<Row>, OutOfMemory>
    ensures { IfOk result (λ facet. facet ≡ option_map row_of cells) }
{
    match cells {
        Some(cells) => Ok(Some(Row::from_entries(alloc, cells.into_vec())?)),
        None => Ok(None),
    }
}

// A list of one panel.
fn one_part(alloc: Global, panel: Panel, scales: Seq<ScaleIn>) -> Result<Seq<Part>, OutOfMemory>
    ensures { IfOk result (λ parts. parts ≡ OfPlot (record { panel = panel; scales = scales }) ∷ []) }
{
    let mut parts = Seq::new(alloc);
    parts.push(Part::OfPlot(PanelHere { panel, scales }))?;
    Ok(parts)
}

/// A plot as a box of a layout, with its panel: its title, headers, grids, axes and marks, in this order.
pub fn placed_plot(alloc: Global, plot: Plot) -> Result<Placed, OutOfMemory>
    requires { All IsLegendShown plot.legends }
    ensures value { IfOk result (λ view. view ≡ placed_plot plot) }
    ensures asked { IfOk result HasLegends }
{
    let around = extents_of(&plot);
    let Plot {
        width,
        height,
        title,
        headers,
        axes,
        items: marks,
        view,
        cells,
        legends,
        scales,
    } = plot;
    let size = (width, height);
    let items = items_of(alloc, &title, &size, headers.as_slice(), axes, marks)?;
    let facet = facet_of(alloc, cells)?;
    let panel = Panel {
        x: pixels(0),
        y: pixels(0),
        width,
        height,
        view,
        facet,
        items,
    };
    let parts = one_part(alloc, panel, scales)?;
    Ok(Placed {
        boxes: BoxTree::Leaf(box_of(&size, &around)),
        parts,
        legends,
        has_plot: true,
    })
}
