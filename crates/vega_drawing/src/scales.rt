// The scales that have names at a copy of an object, and axes over them.
ghost use Rattle.std.specs.Prelude.{◌≡◌, ◌∷◌, ◌++◌, [], not, IfOk, OnOk, map, All, option_copied};
ghost use Rattle.std.specs.List.{list_all, filter};
ghost use Rattle.std.specs.Option.{option_map};
ghost use Rattle.scale_kit.specs.Scale.{IsPixel, IsScale, AreScales};
ghost use Rattle.vega_drawing.specs.Scales.{name_of, has_scale, and_outer, scale_named, set_of, scale_in, laid_over, past, is_at, is_sized};
ghost use Rattle.vega_drawing.specs.inner.Kept.{kept_seen, scale_seen, chart_has, IsKeptScale, AreKeptScales};

use crate::spots::{GridSpot, is_at};
use fixed_num::Num;
use scale_kit::{ScaleIn, ScaleSet};
use std::alloc::Global;
use text_kit::{OutOfMemory, Seq};
use vega_scales::{Scaled, scale_over};
use vega_spec::{Axis, Edge, Range, Scale};

/// A scale of an object with its domain.
#[derive(Drop)]
pub struct ScaleKept<'s> {
    /// The scale.
    pub scale: &'s Scale,
    /// What it scales.
    pub domain: &'s Scaled,
    /// Whether it belongs to the whole chart, and not to each plot.
    pub of_chart: bool,
}

/// A scale that has a name at a copy of an object.
#[derive(Drop)]
pub struct ScaleHere<'s, 'a> {
    /// The scale, as the object has it that gives the name.
    pub kept: &'a ScaleKept<'s>,
    /// The spots, in their grids, of the copies of faceted groups between that object and this one.
    pub passed: Seq<GridSpot>,
}

/// An axis of an object, with the scale that its name stands for there.
#[derive(Drop)]
pub struct AxisHere<'s, 'a> {
    /// The axis.
    pub axis: &'s Axis,
    /// The scale.
    pub scale: ScaleHere<'s, 'a>,
}

/// Whose scales belong to the whole chart.
#[derive(Clone, Copy, Debug, PartialEq, Eq)]
pub enum OfChart {
    /// No scale of a group does.
    Group,
    /// Each scale of a top that is a plot does.
    Plot,
    /// Of a top with a layout each does whose range isn't the size of a plot.
    Grid,
}

/// Whether all of some spots are at an edge.
pub(crate) fn all_spots_at(edge: Edge, spots: &[GridSpot]) -> bool
    ensures { result ≡ list_all (is_at edge) spots.now }
{
    spots.iter().all(|spot| is_at(edge, spot))
}

// Whether a range is the size of a plot.
fn is_sized(range: &Range) -> bool
    ensures { result ≡ is_sized range.now }
{
    match range {
        Range::Width | Range::Height => true,
        Range::Cells(_) | Range::Category | Range::Ramp | Range::Symbol => false,
    }
}

/// Whether a scale belongs to the whole chart.
pub(crate) fn chart_has(of: OfChart, scale: &Scale) -> bool
    ensures { result ≡ chart_has of scale.now }
{
    match of {
        OfChart::Group => false,
        OfChart::Plot => true,
        OfChart::Grid => !is_sized(&scale.range),
    }
}

/// The same scale once more.
pub(crate) fn same_scale<'s, 'a>(
    alloc: Global,
    scale: &ScaleHere<'s, 'a>,
) -> Result<ScaleHere<'s, 'a>, OutOfMemory>
    ensures { IfOk result (λ copy. scale_seen copy ≡ scale_seen scale.now) }
{
    Ok(ScaleHere {
        kept: scale.kept,
        passed: spots_copied(alloc, scale.passed.as_slice())?,
    })
}

// The same spots once more.
fn spots_copied(alloc: Global, spots: &[GridSpot]) -> Result<Seq<GridSpot>, OutOfMemory>
    ensures { IfOk result (λ copy. copy ≡ spots.now) }
{
    let mut out = Seq::with_capacity(alloc, spots.len())?;
    for spot in spots {
        out.push(*spot)?;
    }
    Ok(out)
}

// Whether one of an object's scales has the name of a scale.
fn is_hidden(own: &[ScaleKept], scale: &ScaleHere) -> bool
    ensures { result ≡ has_scale (map kept_seen own.now) (scale_seen scale.now).scale.name }
{
    let name = scale.kept.scale.name.as_str();
    for other in own {
        if other.scale.name.as_str() == name {
            return true;
        }
    }
    false
}

// Adds the scales of an object.
fn push_own<'s, 'a>(
    alloc: Global,
    own: &'a [ScaleKept<'s>],
    out: &mut Seq<ScaleHere<'s, 'a>>,
) -> Result<(), OutOfMemory>
    ensures { OnOk result (map scale_seen out.new ≡ map scale_seen out.old ++ map kept_seen own.now) }
{
    for kept in own {
        out.push(ScaleHere {
            kept,
            passed: Seq::new(alloc),
        })?;
    }
    Ok(())
}

// Adds the scale of an outer object, unless it is hidden.
fn push_outer<'s, 'a>(
    alloc: Global,
    own: &[ScaleKept],
    scale: &ScaleHere<'s, 'a>,
    out: &mut Seq<ScaleHere<'s, 'a>>,
) -> Result<(), OutOfMemory>
    ensures { OnOk result (map scale_seen out.new ≡ map scale_seen out.old
        ++ filter (λ s. not (has_scale (map kept_seen own.now) (name_of s))) (scale_seen scale.now ∷ [])) }
{
    if is_hidden(own, scale) {
        return Ok(());
    }
    out.push(same_scale(alloc, scale)?)
}

/// The scales that have names at an object: its own, and the outer ones of other names.
pub(crate) fn and_outer<'s, 'a>(
    alloc: Global,
    own: &'a [ScaleKept<'s>],
    outer: &[ScaleHere<'s, 'a>],
) -> Result<Seq<ScaleHere<'s, 'a>>, OutOfMemory>
    requires own { All IsKeptScale own.now }
    requires outer { AreKeptScales outer.now }
    ensures value { IfOk result (λ scales. map scale_seen scales ≡ and_outer (map scale_seen outer.now) (map kept_seen own.now)) }
    ensures kept { IfOk result AreKeptScales }
{
    let mut out = Seq::new(alloc);
    push_own(alloc, own, &mut out)?;
    for scale in outer {
        push_outer(alloc, own, scale, &mut out)?;
    }
    Ok(out)
}

/// The scale in a plot of this width and height in pixels.
pub(crate) fn laid_over(
    alloc: Global,
    width: Num,
    height: Num,
    scale: &ScaleHere,
) -> Result<scale_kit::Scale, OutOfMemory>
    requires kept { IsKeptScale scale.now.kept.now }
    requires width { IsPixel width }
    requires height { IsPixel height }
    ensures value { IfOk result (λ made. made ≡ laid_over width height (scale_seen scale.now)) }
    ensures sound { IfOk result IsScale }
{
    scale_over(alloc, scale.kept.scale, width, height, scale.kept.domain)
}

/// The scale in such a plot, by its name. It belongs to no panel yet.
pub(crate) fn scale_in(
    alloc: Global,
    width: Num,
    height: Num,
    scale: &ScaleHere,
) -> Result<ScaleIn, OutOfMemory>
    requires kept { IsKeptScale scale.now.kept.now }
    requires width { IsPixel width }
    requires height { IsPixel height }
    ensures value { IfOk result (λ made. made ≡ scale_in width height (scale_seen scale.now)) }
    ensures sound { IfOk result (λ made. IsScale made.scale) }
{
    Ok(ScaleIn {
        panel: None,
        name: scale.kept.scale.name.copy()?,
        scale: laid_over(alloc, width, height, scale)?,
    })
}

/// The scales by their names in a plot of this width and height in pixels.
pub(crate) fn set_of(
    alloc: Global,
    width: Num,
    height: Num,
    scales: &[ScaleHere],
) -> Result<ScaleSet, OutOfMemory>
    requires kept { AreKeptScales scales.now }
    requires width { IsPixel width }
    requires height { IsPixel height }
    ensures value { IfOk result (λ set. set ≡ set_of width height (map scale_seen scales.now)) }
    ensures sound { IfOk result AreScales }
{
    let mut made = Seq::with_capacity(alloc, scales.len())?;
    for scale in scales {
        let named = scale_in(alloc, width, height, scale)?;
        made.push(named)?;
    }
    Ok(ScaleSet { scales: made })
}

/// The same of an object's own scales alone.
pub(crate) fn own_set_of(
    alloc: Global,
    width: Num,
    height: Num,
    own: &[ScaleKept],
) -> Result<ScaleSet, OutOfMemory>
    requires kept { All IsKeptScale own.now }
    requires width { IsPixel width }
    requires height { IsPixel height }
    ensures value { IfOk result (λ set. set ≡ set_of width height (map kept_seen own.now)) }
    ensures sound { IfOk result AreScales }
{
    let mut scales = Seq::with_capacity(alloc, own.len())?;
    push_own(alloc, own, &mut scales)?;
    set_of(alloc, width, height, scales.as_slice())
}

/// The scale of a name, if there is one.
pub(crate) fn scale_named<'b, 's, 'a>(
    scales: &'b [ScaleHere<'s, 'a>],
    name: &str,
) -> Option<&'b ScaleHere<'s, 'a>>
    ensures { option_map scale_seen (option_copied result) ≡ scale_named (map scale_seen scales.now) name.now }
{
    for scale in scales {
        if scale.kept.scale.name.as_str() == name {
            return Some(scale);
        }
    }
    None
}

/// A scale behind one more copy of a faceted group.
pub(crate) fn past<'s, 'a>(
    alloc: Global,
    spot: GridSpot,
    scale: &ScaleHere<'s, 'a>,
) -> Result<ScaleHere<'s, 'a>, OutOfMemory>
    ensures { IfOk result (λ behind. scale_seen behind ≡ past spot (scale_seen scale.now)) }
{
    let mut passed = Seq::with_capacity(alloc, 1)?;
    passed.push(spot)?;
    passed.append(spots_copied(alloc, scale.passed.as_slice())?)?;
    Ok(ScaleHere {
        kept: scale.kept,
        passed,
    })
}

/// Scales behind one more copy of a faceted group.
pub(crate) fn all_past<'s, 'a>(
    alloc: Global,
    spot: GridSpot,
    scales: &[ScaleHere<'s, 'a>],
) -> Result<Seq<ScaleHere<'s, 'a>>, OutOfMemory>
    requires kept { AreKeptScales scales.now }
    ensures value { IfOk result (λ behind. map scale_seen behind ≡ map (past spot) (map scale_seen scales.now)) }
    ensures kept { IfOk result AreKeptScales }
{
    let mut out = Seq::with_capacity(alloc, scales.len())?;
    for scale in scales {
        let behind = past(alloc, spot, scale)?;
        out.push(behind)?;
    }
    Ok(out)
}
