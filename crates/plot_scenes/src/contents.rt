// How plots and grids stand.
ghost use Rattle.std.specs.Prelude.{◌≡◌, IfOk, slice_get};
ghost use Rattle.view_layout.specs.Layout.{layout_with_titles_of};
ghost use Rattle.plot_scenes.specs.Contents.{grid_title, title_panel, moved_panel, panel_at, panels_at, content_with};

use crate::lengths::title_space;
use crate::views::{PanelHere, Part};
use crate::words::view_title_at;
use fixed_num::Num;
use guide_kit::{half, pixels, plus};
use scene_tree::{Item, Items, Panel};
use std::alloc::Global;
use text_kit::{OutOfMemory, Seq, Text};
use view_layout::{BoxTree, PlaceOf, lay_out_with_titles};

/// The content of a picture: its size in pixels, and its panels where they stand behind the padding.
#[derive(Debug, Drop)]
pub struct Content {
    /// Its width.
    pub width: Num,
    /// Its height.
    pub height: Num,
    /// Its panels.
    pub panels: Seq<PanelHere>,
}

// The title of a grid of this width.
fn grid_title(alloc: Global, width: Num, text: Text) -> Result<Item, OutOfMemory>
    ensures { IfOk result (λ item. item ≡ grid_title width text) }
{
    view_title_at(alloc, half(width), pixels(13), text)
}

// The panel of the title of a grid at a place behind the padding.
fn title_panel(
    alloc: Global,
    padding: Num,
    place: &PlaceOf,
    text: Text,
) -> Result<Panel, OutOfMemory>
    ensures { IfOk result (λ panel. panel ≡ title_panel padding place.now text) }
{
    let mut items = Seq::new(alloc);
    items.push(grid_title(alloc, place.width, text)?)?;
    Ok(Panel {
        x: plus(padding, place.x),
        y: plus(padding, place.y),
        width: place.width,
        height: title_space(),
        view: None,
        facet: None,
        items: Items::from_seq(alloc, items)?,
    })
}

// A panel of a plot at a place behind the padding.
fn moved_panel(padding: Num, place: &PlaceOf, panel: Panel) -> Panel
    ensures { result ≡ moved_panel padding place.now panel }
{
    let Panel {
        width,
        height,
        view,
        facet,
        items,
        ..
    } = panel;
    Panel {
        x: plus(padding, place.x),
        y: plus(padding, place.y),
        width,
        height,
        view,
        facet,
        items,
    }
}

// A part at its place behind the padding.
fn panel_at(
    alloc: Global,
    padding: Num,
    place: &PlaceOf,
    part: Part,
) -> Result<PanelHere, OutOfMemory>
    ensures { IfOk result (λ here. here ≡ panel_at padding place.now part) }
{
    match part {
        Part::Title(text) => Ok(PanelHere {
            panel: title_panel(alloc, padding, place, text)?,
            scales: Seq::new(alloc),
        }),
        Part::OfPlot(here) => {
            let PanelHere { panel, scales } = here;
            Ok(PanelHere {
                panel: moved_panel(padding, place, panel),
                scales,
            })
        }
    }
}

// A place by its index, if there is one.
fn place_at(places: &[PlaceOf], index: usize) -> Option<PlaceOf>
    ensures { result ≡ slice_get places.now index }
{
    match places.get(index) {
        Some(place) => Some(*place),
        None => None,
    }
}

// Parts at their places, one after the other.
fn panels_at(
    alloc: Global,
    padding: Num,
    parts: Seq<Part>,
    places: &[PlaceOf],
) -> Result<Seq<PanelHere>, OutOfMemory>
    ensures { IfOk result (λ panels. panels ≡ panels_at padding parts places.now) }
{
    let mut panels = Seq::new(alloc);
    for part in parts.into_vec() {
        match place_at(places, panels.len()) {
            Some(place) => panels.push(panel_at(alloc, padding, &place, part)?)?,
            None => return Ok(panels),
        }
    }
    Ok(panels)
}

/// The content that a view with these boxes and parts is, behind a padding in pixels.
pub fn content_of(
    alloc: Global,
    padding: Num,
    boxes: &BoxTree,
    parts: Seq<Part>,
) -> Result<Content, OutOfMemory>
    ensures { IfOk result (λ content. content ≡ content_with padding (layout_with_titles_of boxes.now) parts) }
{
    let laid = lay_out_with_titles(alloc, boxes)?;
    let panels = panels_at(alloc, padding, parts, laid.places.as_slice())?;
    Ok(Content {
        width: laid.width,
        height: laid.height,
        panels,
    })
}
