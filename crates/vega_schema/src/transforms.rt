//! The members of objects: transforms.
ghost use Rattle.std.specs.Prelude.{◌≡◌, ◌++◌, IfOk, OnOk};
ghost use Rattle.vega_schema.specs.Transforms.{filter, formula, extent, bin, time_unit, stack, fold, all_transforms};

use crate::codes::{
    COUNT, EXPRESSION, EXTENT, OFFSET, SORT, STEP, TEXT, TEXTS, TIME_UNIT, TRANSFORM, TWO_TEXTS,
};
use spec_schema::{Layout, When, layout_by, table};
use std::alloc::Global;
use text_kit::{OutOfMemory, Seq};

// A transform of the type `filter`.
#[tactic(auto, unfolding(crate::specs::Transforms::filter))]
fn filter(alloc: Global) -> Result<Layout, OutOfMemory>
    ensures { IfOk result (λ l. l ≡ filter) }
{
    layout_by(
        alloc,
        TRANSFORM,
        &[When::Says("type", "filter")],
        &table![
        must "type" TEXT, must "expr" EXPRESSION,
    ],
        None,
    )
}

// A transform of the type `formula`.
#[tactic(auto, unfolding(crate::specs::Transforms::formula))]
fn formula(alloc: Global) -> Result<Layout, OutOfMemory>
    ensures { IfOk result (λ l. l ≡ formula) }
{
    layout_by(
        alloc,
        TRANSFORM,
        &[When::Says("type", "formula")],
        &table![
        must "type" TEXT, must "expr" EXPRESSION, must "as" TEXT,
    ],
        None,
    )
}

// A transform of the type `extent`.
#[tactic(auto, unfolding(crate::specs::Transforms::extent))]
fn extent(alloc: Global) -> Result<Layout, OutOfMemory>
    ensures { IfOk result (λ l. l ≡ extent) }
{
    layout_by(
        alloc,
        TRANSFORM,
        &[When::Says("type", "extent")],
        &table![
        must "type" TEXT, must "field" TEXT, must "signal" TEXT,
    ],
        None,
    )
}

// A transform of the type `bin`.
#[tactic(auto, unfolding(crate::specs::Transforms::bin))]
fn bin(alloc: Global) -> Result<Layout, OutOfMemory>
    ensures { IfOk result (λ l. l ≡ bin) }
{
    layout_by(
        alloc,
        TRANSFORM,
        &[When::Says("type", "bin")],
        &table![
        must "type" TEXT, must "field" TEXT, must "extent" EXTENT, may "maxbins" COUNT, may "step" STEP,
        may "as" TWO_TEXTS,
    ],
        None,
    )
}

// A transform of the type `timeunit`.
#[tactic(auto, unfolding(crate::specs::Transforms::time_unit))]
fn time_unit(alloc: Global) -> Result<Layout, OutOfMemory>
    ensures { IfOk result (λ l. l ≡ time_unit) }
{
    layout_by(
        alloc,
        TRANSFORM,
        &[When::Says("type", "timeunit")],
        &table![
        must "type" TEXT, must "field" TEXT, must "units" TIME_UNIT, may "as" TWO_TEXTS,
    ],
        None,
    )
}

// A transform of the type `stack`.
#[tactic(auto, unfolding(crate::specs::Transforms::stack))]
fn stack(alloc: Global) -> Result<Layout, OutOfMemory>
    ensures { IfOk result (λ l. l ≡ stack) }
{
    layout_by(
        alloc,
        TRANSFORM,
        &[When::Says("type", "stack")],
        &table![
        must "type" TEXT, may "groupby" TEXTS, must "field" TEXT, may "sort" SORT, may "offset" OFFSET,
        may "as" TWO_TEXTS,
    ],
        None,
    )
}

// A transform of the type `fold`.
#[tactic(auto, unfolding(crate::specs::Transforms::fold))]
fn fold(alloc: Global) -> Result<Layout, OutOfMemory>
    ensures { IfOk result (λ l. l ≡ fold) }
{
    layout_by(
        alloc,
        TRANSFORM,
        &[When::Says("type", "fold")],
        &table![
        must "type" TEXT, must "fields" TEXTS, may "as" TWO_TEXTS,
    ],
        None,
    )
}

/// Adds these layouts.
pub fn push_transforms(alloc: Global, out: &mut Seq<Layout>) -> Result<(), OutOfMemory>
    ensures { OnOk result (out.new ≡ out.old ++ all_transforms) }
{
    out.push(filter(alloc)?)?;
    out.push(formula(alloc)?)?;
    out.push(extent(alloc)?)?;
    out.push(bin(alloc)?)?;
    out.push(time_unit(alloc)?)?;
    out.push(stack(alloc)?)?;
    out.push(fold(alloc)?)
}
