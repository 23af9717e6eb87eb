// What is drawn: the picture, and the scales of its plots.
ghost use Rattle.std.specs.Prelude.{◌≡◌, ◌++◌, map, flat_map, IfOk, OnOk};
ghost use Rattle.std.specs.List.{enumerate_from};
ghost use Rattle.guide_kit.specs.Answers.{Draws};
ghost use Rattle.guide_kit.specs.Measures.{plus};
ghost use Rattle.plot_scenes.specs.Lengths.{gap};
ghost use Rattle.plot_scenes.specs.Panels.{legend_panels};
ghost use Rattle.plot_scenes.specs.Views.{HasLegends};
ghost use Rattle.plot_scenes.specs.Scenes.{panels_in, scene_beside, scene_with, scale_at, scales_at, drawn, drawing_with};

use crate::contents::{Content, content_of};
use crate::legends::blocks_of;
use crate::lengths::gap;
use crate::panels::{push_legends, reach_down, reach_right};
use crate::views::{PanelHere, Placed};
use fixed_num::Num;
use guide_kit::{Block, GuideError, plus};
use scale_kit::{ScaleIn, ScaleSet};
use scene_tree::{Panel, Scene};
use std::alloc::Global;
use text_kit::{OutOfMemory, Seq};

/// What is drawn: the picture, and the scales of its plots.
#[derive(Debug, Drop)]
pub struct Drawing {
    /// The picture.
    pub scene: Scene,
    /// The scales of the whole chart, and then those of each panel by its index in the picture.
    pub scales: ScaleSet,
}

// Panels that reach so far to the right and down, and then legends.
fn scene_beside(
    padding: Num,
    right: Num,
    lower: Num,
    panels: Seq<Panel>,
    legends: Seq<Panel>,
) -> Result<Scene, OutOfMemory>
    ensures { IfOk result (λ scene. scene ≡ scene_beside padding right lower panels legends) }
{
    let width = plus(reach_right(right, legends.as_slice()), padding);
    let height = plus(reach_down(lower, legends.as_slice()), padding);
    let mut panels = panels;
    panels.append(legends)?;
    Ok(Scene {
        width,
        height,
        panels,
    })
}

// The picture of panels that are so large together, and of legends.
fn scene_with(
    alloc: Global,
    padding: Num,
    size: (Num, Num),
    panels: Seq<Panel>,
    blocks: Seq<Block>,
) -> Result<Scene, OutOfMemory>
    ensures { IfOk result (λ scene. scene ≡ scene_beside padding (plus padding size.0) (plus padding size.1) panels
        (legend_panels (plus (plus padding size.0) gap) padding blocks)) }
{
    let right = plus(padding, size.0);
    let lower = plus(padding, size.1);
    let mut legends = Seq::new(alloc);
    push_legends(alloc, plus(right, gap()), padding, blocks, &mut legends)?;
    scene_beside(padding, right, lower, panels, legends)
}

// A scale of the panel at an index.
fn scale_at(index: usize, s: ScaleIn) -> ScaleIn
    ensures { result ≡ scale_at index s }
{
    let ScaleIn { name, scale, .. } = s;
    ScaleIn {
        panel: Some(index),
        name,
        scale,
    }
}

// Adds the scales of the panel at an index.
fn push_scales(
    index: usize,
    own: Seq<ScaleIn>,
    scales: &mut Seq<ScaleIn>,
) -> Result<(), OutOfMemory>
    ensures { OnOk result (scales.new ≡ scales.old ++ map (scale_at index) own) }
{
    for s in own.into_vec() {
        scales.push(scale_at(index, s))?;
    }
    Ok(())
}

// The panels of a content; adds their scales.
fn panels_in(
    alloc: Global,
    here: Seq<PanelHere>,
    scales: &mut Seq<ScaleIn>,
) -> Result<Seq<Panel>, OutOfMemory>
    ensures panels { IfOk result (λ panels. panels ≡ panels_in here) }
    ensures scales { OnOk result (scales.new ≡ scales.old ++ flat_map scales_at (enumerate_from 0 here)) }
{
    let mut panels = Seq::with_capacity(alloc, here.len())?;
    for one in here.into_vec() {
        let PanelHere { panel, scales: own } = one;
        push_scales(panels.len(), own, scales)?;
        panels.push(panel)?;
    }
    Ok(panels)
}

/// What is drawn of a content and legends, with the scales of the whole chart, behind a padding in pixels.
pub fn drawn(
    alloc: Global,
    padding: Num,
    of_chart: Seq<ScaleIn>,
    content: Content,
    blocks: Seq<Block>,
) -> Result<Drawing, OutOfMemory>
    ensures { IfOk result (λ drawing. drawing ≡ drawn padding of_chart content blocks) }
{
    let Content {
        width,
        height,
        panels,
    } = content;
    let mut scales = of_chart;
    let panels = panels_in(alloc, panels, &mut scales)?;
    let scene = scene_with(alloc, padding, (width, height), panels, blocks)?;
    Ok(Drawing {
        scene,
        scales: ScaleSet { scales },
    })
}

/// What is drawn of a view with the scales of the whole chart, with a padding in pixels all round: its panels, and its legends in their
/// order beside them. `Overflow` exactly where a tick of a legend, or its place, is out of range. It takes no more steps than a sort of the
/// legends, and its recursion is as deep as the grids.
pub fn drawing_with(
    alloc: Global,
    padding: Num,
    of_chart: Seq<ScaleIn>,
    view: Placed,
) -> Result<Drawing, GuideError>
    requires { HasLegends view }
    ensures { Draws result (drawing_with padding of_chart view) }
{
    let Placed {
        boxes,
        parts,
        legends,
        ..
    } = view;
    let blocks = blocks_of(alloc, legends)?;
    let content = content_of(alloc, padding, &boxes, parts)?;
    Ok(drawn(alloc, padding, of_chart, content, blocks)?)
}
