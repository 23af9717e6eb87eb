//! The members of objects: scales.
ghost use Rattle.std.specs.Prelude.{◌≡◌, ◌++◌, IfOk, OnOk};
ghost use Rattle.vega_schema.specs.Scales.{linear_scale, time_scale, band_scale, point_scale, ordinal_scale, no_scale, all_scales};

use crate::codes::{
    ANY_RANGE, CONTINUOUS_RANGE, DISCRETE_RANGE, EXPRESSION_SIGNAL, FLAG, NOTHING, ORDINAL_RANGE,
    SCALE, SCALE_DOMAIN, SHARE, TEXT,
};
use spec_schema::{Layout, When, layout_by, table};
use std::alloc::Global;
use text_kit::{OutOfMemory, Seq};

// A scale of the type `linear`.
#[tactic(auto, unfolding(crate::specs::Scales::linear_scale))]
fn linear_scale(alloc: Global) -> Result<Layout, OutOfMemory>
    ensures { IfOk result (λ l. l ≡ linear_scale) }
{
    layout_by(
        alloc,
        SCALE,
        &[When::Says("type", "linear")],
        &table![
        must "name" TEXT, must "type" TEXT, must "domain" SCALE_DOMAIN, may "domainRaw" EXPRESSION_SIGNAL,
        must "range" CONTINUOUS_RANGE, may "zero" FLAG, may "nice" FLAG, may "reverse" FLAG, may "padding" SHARE,
        may "paddingInner" SHARE, may "paddingOuter" SHARE,
    ],
        None,
    )
}

// A scale of the type `time`.
#[tactic(auto, unfolding(crate::specs::Scales::time_scale))]
fn time_scale(alloc: Global) -> Result<Layout, OutOfMemory>
    ensures { IfOk result (λ l. l ≡ time_scale) }
{
    layout_by(
        alloc,
        SCALE,
        &[When::Says("type", "time")],
        &table![
        must "name" TEXT, must "type" TEXT, must "domain" SCALE_DOMAIN, may "domainRaw" EXPRESSION_SIGNAL,
        must "range" CONTINUOUS_RANGE, may "zero" FLAG, may "nice" FLAG, may "reverse" FLAG, may "padding" SHARE,
        may "paddingInner" SHARE, may "paddingOuter" SHARE,
    ],
        None,
    )
}

// A scale of the type `band`.
#[tactic(auto, unfolding(crate::specs::Scales::band_scale))]
fn band_scale(alloc: Global) -> Result<Layout, OutOfMemory>
    ensures { IfOk result (λ l. l ≡ band_scale) }
{
    layout_by(
        alloc,
        SCALE,
        &[When::Says("type", "band")],
        &table![
        must "name" TEXT, must "type" TEXT, must "domain" SCALE_DOMAIN, may "domainRaw" EXPRESSION_SIGNAL,
        must "range" DISCRETE_RANGE, may "zero" FLAG, may "nice" FLAG, may "reverse" FLAG, may "padding" SHARE,
        may "paddingInner" SHARE, may "paddingOuter" SHARE,
    ],
        None,
    )
}

// A scale of the type `point`.
#[tactic(auto, unfolding(crate::specs::Scales::point_scale))]
fn point_scale(alloc: Global) -> Result<Layout, OutOfMemory>
    ensures { IfOk result (λ l. l ≡ point_scale) }
{
    layout_by(
        alloc,
        SCALE,
        &[When::Says("type", "point")],
        &table![
        must "name" TEXT, must "type" TEXT, must "domain" SCALE_DOMAIN, may "domainRaw" EXPRESSION_SIGNAL,
        must "range" DISCRETE_RANGE, may "zero" FLAG, may "nice" FLAG, may "reverse" FLAG, may "padding" SHARE,
        may "paddingInner" SHARE, may "paddingOuter" SHARE,
    ],
        None,
    )
}

// A scale of the type `ordinal`.
#[tactic(auto, unfolding(crate::specs::Scales::ordinal_scale))]
fn ordinal_scale(alloc: Global) -> Result<Layout, OutOfMemory>
    ensures { IfOk result (λ l. l ≡ ordinal_scale) }
{
    layout_by(
        alloc,
        SCALE,
        &[When::Says("type", "ordinal")],
        &table![
        must "name" TEXT, must "type" TEXT, must "domain" SCALE_DOMAIN, may "domainRaw" EXPRESSION_SIGNAL,
        must "range" ORDINAL_RANGE, may "zero" FLAG, may "nice" FLAG, may "reverse" FLAG, may "padding" SHARE,
        may "paddingInner" SHARE, may "paddingOuter" SHARE,
    ],
        None,
    )
}

// A scale of no known type: its type is missing or wrong, and its range is that of some scale.
#[tactic(auto, unfolding(crate::specs::Scales::no_scale))]
fn no_scale(alloc: Global) -> Result<Layout, OutOfMemory>
    ensures { IfOk result (λ l. l ≡ no_scale) }
{
    layout_by(
        alloc,
        SCALE,
        &[],
        &table![
        must "name" TEXT, must "type" NOTHING, must "domain" SCALE_DOMAIN, may "domainRaw" EXPRESSION_SIGNAL,
        must "range" ANY_RANGE, may "zero" FLAG, may "nice" FLAG, may "reverse" FLAG, may "padding" SHARE,
        may "paddingInner" SHARE, may "paddingOuter" SHARE,
    ],
        None,
    )
}

/// Adds these layouts.
pub fn push_scales(alloc: Global, out: &mut Seq<Layout>) -> Result<(), OutOfMemory>
    ensures { OnOk result (out.new ≡ out.old ++ all_scales) }
{
    out.push(linear_scale(alloc)?)?;
    out.push(time_scale(alloc)?)?;
    out.push(band_scale(alloc)?)?;
    out.push(point_scale(alloc)?)?;
    out.push(ordinal_scale(alloc)?)?;
    out.push(no_scale(alloc)?)
}
