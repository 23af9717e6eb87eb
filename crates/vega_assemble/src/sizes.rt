// The sizes of plots.
ghost use Rattle.std.specs.Prelude.{◌≡◌, IfOk};
ghost use Rattle.vega_assemble.specs.Sizes.{space_expr, inner_of, outer_of, steps_expr, size_written, extent_of};

use crate::made::Extent;
use crate::names::scale_name;
use crate::numbers::millionths;
use crate::several::three_of;
use expr_syntax::{BinOp, Expr};
use fixed_num::Num;
use plan_kit::{PlotPlan, ScalePlan, SizePlan, binary};
use std::alloc::Global;
use text_kit::{OutOfMemory, Text};
use vega_spec::Size;

/// The code of `bandspace` among the builtins.
const BANDSPACE: u16 = 18;

// The space of the bands of a scale, in steps.
fn space_expr(alloc: Global, scale: Text, inner: Num, outer: Num) -> Result<Expr, OutOfMemory>
    ensures { IfOk result (λ e. e ≡ space_expr scale inner outer) }
{
    let arguments = three_of(
        alloc,
        Expr::DomainLength(scale),
        Expr::Number(inner),
        Expr::Number(outer),
    )?;
    Ok(Expr::Call(BANDSPACE, arguments))
}

// The paddings of the scale of a number.
fn inner_of(scales: &[ScalePlan], number: usize) -> Num
    ensures { result ≡ inner_of scales.now number }
{
    match scales.get(number) {
        Some(scale) => scale.inner,
        None => millionths(0),
    }
}

fn outer_of(scales: &[ScalePlan], number: usize) -> Num
    ensures { result ≡ outer_of scales.now number }
{
    match scales.get(number) {
        Some(scale) => scale.outer,
        None => millionths(0),
    }
}

// A step for each unit of that space.
fn steps_expr(
    alloc: Global,
    stem: &Text,
    scales: &[ScalePlan],
    step: Num,
    number: usize,
) -> Result<Expr, OutOfMemory>
    ensures { IfOk result (λ e. e ≡ steps_expr stem.now scales.now step number) }
{
    let name = scale_name(alloc, stem, scales, number)?;
    let space = space_expr(
        alloc,
        name,
        inner_of(scales, number),
        outer_of(scales, number),
    )?;
    binary(alloc, BinOp::Mul, Expr::Number(step), space)
}

// A size.
fn size_written(
    alloc: Global,
    stem: &Text,
    scales: &[ScalePlan],
    size: &SizePlan,
) -> Result<Size, OutOfMemory>
    ensures { IfOk result (λ made. made ≡ size_written stem.now scales.now size.now) }
{
    match size {
        SizePlan::Pixels(n) => Ok(Size::Number(*n)),
        SizePlan::Steps(step, number) => steps_expr(alloc, stem, scales, *step, *number).map(
            Size::Signal,
        ),
    }
}

/// The size of a plot.
pub(crate) fn extent_of(
    alloc: Global,
    stem: &Text,
    scales: &[ScalePlan],
    plot: &PlotPlan,
) -> Result<Extent, OutOfMemory>
    ensures { IfOk result (λ made. made ≡ extent_of stem.now scales.now plot.now) }
{
    let width = size_written(alloc, stem, scales, &plot.width)?;
    let height = size_written(alloc, stem, scales, &plot.height)?;
    Ok(Extent { width, height })
}

/// A value, and the size of a plot.
pub(crate) fn extent_beside<K: Drop>(
    alloc: Global,
    kept: K,
    stem: &Text,
    scales: &[ScalePlan],
    plot: &PlotPlan,
) -> Result<(K, Extent), OutOfMemory>
    ensures { IfOk result (λ both. both ≡ (kept, extent_of stem.now scales.now plot.now)) }
{
    let extent = extent_of(alloc, stem, scales, plot)?;
    Ok((kept, extent))
}
