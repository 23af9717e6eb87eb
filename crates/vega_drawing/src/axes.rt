// The axes of objects over the scales that their names stand for.
ghost use Rattle.std.specs.Prelude.{◌≡◌, ◌∷◌, ◌++◌, [], IfOk, OnOk, map, All};
ghost use Rattle.std.specs.Option.{option_to_list};
ghost use Rattle.scale_kit.specs.Scale.{IsPixel};
ghost use Rattle.vega_drawing.specs.Scales.{axis_past, axes_here, axis_here, stands};
ghost use Rattle.vega_drawing.specs.Guides.{axis_over, axes_over};
ghost use Rattle.vega_drawing.specs.inner.Kept.{scale_seen, axis_seen, IsKeptScale, AreKeptScales, AreKeptAxes};
ghost use Rattle.vega_guides.specs.Shown.{IsAxis};
ghost use Rattle.plot_scenes.specs.Axes.{IsAxisShown};
ghost use Rattle.vega_copies.specs.Outlines.{object_here};
ghost use Rattle.vega_spec.specs.declared.spec.Group.{out-Group};

use crate::scales::{AxisHere, ScaleHere, all_spots_at, laid_over, past, same_scale, scale_named};
use crate::spots::GridSpot;
use fixed_num::Num;
use plot_scenes::AxisShown;
use std::alloc::Global;
use text_kit::{OutOfMemory, Seq};
use vega_guides::axis_shown;
use vega_spec::{Axis, Group};

/// The axes of an object.
pub(crate) fn axes_in(group: &Group) -> &[Axis]
    ensures { result.now ≡ (object_here (out-Group group.now)).axes }
{
    match &group.axes {
        Some(axes) => axes.as_slice(),
        None => &[],
    }
}

// Adds an axis with the scale that its name stands for, if it stands for one.
fn push_axis<'s, 'a>(
    alloc: Global,
    scales: &[ScaleHere<'s, 'a>],
    axis: &'s Axis,
    out: &mut Seq<AxisHere<'s, 'a>>,
) -> Result<(), OutOfMemory>
    ensures { OnOk result (map axis_seen out.new
        ≡ map axis_seen out.old ++ option_to_list (axis_here (map scale_seen scales.now) axis.now)) }
{
    match scale_named(scales, axis.scale.as_str()) {
        Some(found) => {
            let scale = same_scale(alloc, found)?;
            out.push(AxisHere { axis, scale })
        }
        None => Ok(()),
    }
}

/// The axes of the grids round a grid, and then its own.
pub(crate) fn and_axes<'s, 'a>(
    alloc: Global,
    outer: &[AxisHere<'s, 'a>],
    scales: &[ScaleHere<'s, 'a>],
    axes: &'s [Axis],
) -> Result<Seq<AxisHere<'s, 'a>>, OutOfMemory>
    requires outer { AreKeptAxes outer.now }
    requires kept { AreKeptScales scales.now }
    requires axes { All IsAxis axes.now }
    ensures value { IfOk result (λ all. map axis_seen all ≡ map axis_seen outer.now ++ axes_here (map scale_seen scales.now) axes.now) }
    ensures kept { IfOk result AreKeptAxes }
{
    let mut all = same_axes(alloc, outer)?;
    for axis in axes {
        push_axis(alloc, scales, axis, &mut all)?;
    }
    Ok(all)
}

// The same axes once more.
fn same_axes<'s, 'a>(
    alloc: Global,
    axes: &[AxisHere<'s, 'a>],
) -> Result<Seq<AxisHere<'s, 'a>>, OutOfMemory>
    ensures { IfOk result (λ copy. map axis_seen copy ≡ map axis_seen axes.now) }
{
    let mut out = Seq::with_capacity(alloc, axes.len())?;
    for axis in axes {
        let scale = same_scale(alloc, &axis.scale)?;
        out.push(AxisHere {
            axis: axis.axis,
            scale,
        })?;
    }
    Ok(out)
}

/// Axes behind one more copy of a faceted group.
pub(crate) fn all_axes_past<'s, 'a>(
    alloc: Global,
    spot: GridSpot,
    axes: &[AxisHere<'s, 'a>],
) -> Result<Seq<AxisHere<'s, 'a>>, OutOfMemory>
    requires kept { AreKeptAxes axes.now }
    ensures value { IfOk result (λ behind. map axis_seen behind ≡ map (axis_past spot) (map axis_seen axes.now)) }
    ensures kept { IfOk result AreKeptAxes }
{
    let mut out = Seq::with_capacity(alloc, axes.len())?;
    for axis in axes {
        let scale = past(alloc, spot, &axis.scale)?;
        out.push(AxisHere {
            axis: axis.axis,
            scale,
        })?;
    }
    Ok(out)
}

// Whether an axis over a scale stands in a plot: without an edge always; else where each copy between the object that has the scale and
// the plot is at that edge of its grid.
fn stands(axis: &Axis, scale: &ScaleHere) -> bool
    ensures { result ≡ stands (record { axis = axis.now; scale = scale_seen scale.now }) }
{
    match axis.edge {
        Some(edge) => all_spots_at(edge, scale.passed.as_slice()),
        None => true,
    }
}

// An axis over its scale in a plot of this width and height.
fn axis_over(
    alloc: Global,
    width: Num,
    height: Num,
    axis: &Axis,
    scale: &ScaleHere,
) -> Result<AxisShown, OutOfMemory>
    requires axis { IsAxis axis.now }
    requires kept { IsKeptScale scale.now.kept.now }
    requires width { IsPixel width }
    requires height { IsPixel height }
    ensures value { IfOk result (λ shown. shown ≡ axis_over width height (record { axis = axis.now; scale = scale_seen scale.now })) }
    ensures kept { IfOk result IsAxisShown }
{
    Ok(AxisShown {
        axis: axis_shown(alloc, axis)?,
        scale: laid_over(alloc, width, height, scale)?,
    })
}

// Adds an axis over its scale in a plot of this width and height, where it stands.
fn push_shown(
    alloc: Global,
    width: Num,
    height: Num,
    axis: &Axis,
    scale: &ScaleHere,
    out: &mut Seq<AxisShown>,
) -> Result<(), OutOfMemory>
    requires axis { IsAxis axis.now }
    requires kept { IsKeptScale scale.now.kept.now }
    requires width { IsPixel width }
    requires height { IsPixel height }
    ensures value { OnOk result (out.new ≡ out.old
        ++ axes_over width height (record { axis = axis.now; scale = scale_seen scale.now } ∷ [])) }
    ensures kept { All IsAxisShown out.old → OnOk result (All IsAxisShown out.new) }
{
    if stands(axis, scale) {
        out.push(axis_over(alloc, width, height, axis, scale)?)
    } else {
        Ok(())
    }
}

/// Adds the axes among some that stand in a plot of this width and height in pixels, each over its scale.
pub(crate) fn push_all_shown(
    alloc: Global,
    width: Num,
    height: Num,
    axes: &[AxisHere],
    out: &mut Seq<AxisShown>,
) -> Result<(), OutOfMemory>
    requires kept { AreKeptAxes axes.now }
    requires width { IsPixel width }
    requires height { IsPixel height }
    ensures value { OnOk result (out.new ≡ out.old ++ axes_over width height (map axis_seen axes.now)) }
    ensures kept { All IsAxisShown out.old → OnOk result (All IsAxisShown out.new) }
{
    for axis in axes {
        push_shown(alloc, width, height, axis.axis, &axis.scale, out)?;
    }
    Ok(())
}

// Adds an axis of a copy of an object where it stands, if its name stands for a scale.
fn push_own(
    alloc: Global,
    width: Num,
    height: Num,
    scales: &[ScaleHere],
    axis: &Axis,
    out: &mut Seq<AxisShown>,
) -> Result<(), OutOfMemory>
    requires axis { IsAxis axis.now }
    requires kept { AreKeptScales scales.now }
    requires width { IsPixel width }
    requires height { IsPixel height }
    ensures value { OnOk result (out.new ≡ out.old
        ++ axes_over width height (axes_here (map scale_seen scales.now) (axis.now ∷ []))) }
    ensures kept { All IsAxisShown out.old → OnOk result (All IsAxisShown out.new) }
{
    match scale_named(scales, axis.scale.as_str()) {
        Some(scale) => push_shown(alloc, width, height, axis, scale, out),
        None => Ok(()),
    }
}

/// Adds the axes of a copy of an object that stand in a plot of this width and height in pixels, each over its scale.
pub(crate) fn push_own_axes(
    alloc: Global,
    width: Num,
    height: Num,
    scales: &[ScaleHere],
    axes: &[Axis],
    out: &mut Seq<AxisShown>,
) -> Result<(), OutOfMemory>
    requires axes { All IsAxis axes.now }
    requires kept { AreKeptScales scales.now }
    requires width { IsPixel width }
    requires height { IsPixel height }
    ensures value { OnOk result (out.new ≡ out.old
        ++ axes_over width height (axes_here (map scale_seen scales.now) axes.now)) }
    ensures kept { All IsAxisShown out.old → OnOk result (All IsAxisShown out.new) }
{
    for axis in axes {
        push_own(alloc, width, height, scales, axis, out)?;
    }
    Ok(())
}
