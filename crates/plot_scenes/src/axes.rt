// The axes of a plot.
ghost use Rattle.std.specs.Prelude.{◌≡◌, IfOk};
ghost use Rattle.std.specs.List.{All, filter};
ghost use Rattle.guide_kit.specs.Answers.{Draws};
ghost use Rattle.guide_kit.specs.Axes.{axis_of as axis_drawn};
ghost use Rattle.plot_scenes.specs.Axes.{no_axes, and_then, one_axis, runs_along_x, runs_along};
ghost use Rattle.plot_scenes.specs.Axes.{IsAxisShown, axis_outside, axes_outside, axes_at};
ghost use Rattle.plot_scenes.specs.inner.Steps.{and_axis};

use crate::extents::{Extents, at_side, no_extents, widened};
use fixed_num::Num;
use guide_kit::{AxisOf, Guide, GuideError, Side, axis_of};
use scale_kit::Scale;
use scene_tree::Item;
use std::alloc::Global;
use text_kit::{OutOfMemory, Seq};

/// Axes, as items of the plot at which they stand.
#[derive(Debug, Drop)]
pub struct Axes {
    /// The lines of their grids.
    pub grids: Seq<Item>,
    /// Their lines, ticks, labels and titles.
    pub items: Seq<Item>,
    /// How far what belongs to the plot extends with them.
    pub extents: Extents,
}

/// An axis with the scale that it shows, laid over the plot.
#[derive(Debug, Drop)]
pub struct AxisShown {
    /// The axis.
    pub axis: AxisOf,
    /// The scale.
    pub scale: Scale,
}

// No axes, where so much extends beyond the plot.
fn no_axes(alloc: Global, extents: Extents) -> Axes
    ensures { result ≡ no_axes extents }
{
    Axes {
        grids: Seq::new(alloc),
        items: Seq::new(alloc),
        extents,
    }
}

// One axis outside what extends beyond the plot at its side.
fn one_axis(side: Side, before: &Extents, guide: Guide) -> Axes
    ensures { result ≡ one_axis side before.now guide }
{
    let Guide {
        grid,
        items,
        extent,
    } = guide;
    Axes {
        grids: grid,
        items,
        extents: widened(side, extent, before),
    }
}

// An axis at a plot of this size, moved outward by an offset.
fn guide_of(
    alloc: Global,
    shown: &AxisShown,
    size: &(Num, Num),
    offset: Num,
) -> Result<Guide, GuideError>
    requires { IsAxisShown shown.now }
    ensures { Draws result (axis_drawn shown.now.axis shown.now.scale size.now.0 size.now.1 offset) }
{
    axis_of(alloc, &shown.axis, &shown.scale, size.0, size.1, offset)
}

// An axis outside what extends beyond the plot at its side.
fn axis_outside(
    alloc: Global,
    shown: &AxisShown,
    size: &(Num, Num),
    before: &Extents,
) -> Result<Axes, GuideError>
    requires { IsAxisShown shown.now }
    ensures { Draws result (axis_outside size.now.0 size.now.1 before.now shown.now) }
{
    let offset = at_side(shown.axis.side, before);
    let guide = guide_of(alloc, shown, size, offset)?;
    Ok(one_axis(shown.axis.side, before, guide))
}

// Some axes, and then others outside them.
fn and_then(inner: Axes, outer: Axes) -> Result<Axes, OutOfMemory>
    ensures { IfOk result (λ axes. axes ≡ and_then inner outer) }
{
    let Axes {
        mut grids,
        mut items,
        ..
    } = inner;
    let Axes {
        grids: outer_grids,
        items: outer_items,
        extents,
    } = outer;
    grids.append(outer_grids)?;
    items.append(outer_items)?;
    Ok(Axes {
        grids,
        items,
        extents,
    })
}

// Whether an axis at a side runs along x.
fn runs_along_x(side: Side) -> bool
    ensures { result ≡ runs_along_x side }
{
    match side {
        Side::Left | Side::Right => false,
        Side::Top | Side::Bottom => true,
    }
}

// Whether an axis runs along x, or along y.
fn runs_along(x: bool, shown: &AxisShown) -> bool
    ensures { result ≡ runs_along x shown.now }
{
    if x {
        runs_along_x(shown.axis.side)
    } else {
        !runs_along_x(shown.axis.side)
    }
}

// Some axes, and then one more where it runs along x, or along y.
fn and_axis(
    alloc: Global,
    x: bool,
    shown: &AxisShown,
    size: &(Num, Num),
    all: Axes,
) -> Result<Axes, GuideError>
    requires { IsAxisShown shown.now }
    ensures { Draws result (and_axis size.now.0 size.now.1 x all shown.now) }
{
    if runs_along(x, shown) {
        let outer = axis_outside(alloc, shown, size, &all.extents)?;
        Ok(and_then(all, outer)?)
    } else {
        Ok(all)
    }
}

// The axes of a list that run along x or along y, each outside those before it at its side.
fn axes_outside(
    alloc: Global,
    x: bool,
    axes: &[AxisShown],
    size: &(Num, Num),
    before: Extents,
) -> Result<Axes, GuideError>
    requires { All IsAxisShown axes.now }
    ensures { Draws result (axes_outside size.now.0 size.now.1 before (filter (runs_along x) axes.now)) }
{
    let mut all = no_axes(alloc, before);
    for shown in axes {
        match and_axis(alloc, x, shown, size, all) {
            Ok(more) => all = more,
            Err(error) => return Err(error),
        }
    }
    Ok(all)
}

/// The axes of a plot of this size in pixels: those that run along x and then those that run along y, in their order, each outside those
/// before it at its side. `Overflow` exactly where a tick or its place is out of range.
pub fn axes_at(alloc: Global, axes: &[AxisShown], size: &(Num, Num)) -> Result<Axes, GuideError>
    requires { All IsAxisShown axes.now }
    ensures { Draws result (axes_at size.now.0 size.now.1 axes.now) }
{
    let across = axes_outside(alloc, true, axes, size, no_extents())?;
    let down = axes_outside(alloc, false, axes, size, across.extents)?;
    Ok(and_then(across, down)?)
}
