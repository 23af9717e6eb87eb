//! The members of objects: groupings.
ghost use Rattle.std.specs.Prelude.{◌≡◌, ◌++◌, IfOk, OnOk};
ghost use Rattle.vega_schema.specs.Groupings.{aggregate, join_aggregate, window, lookup, no_transform, all_groupings};

use crate::codes::{
    CELL, FLAG, FRAME, FREE, NOTHING, ONE_TEXT, OPERATIONS, PARAMETERS, SORT, TEXT, TEXTS,
    TEXTS_OR_NULLS, TRANSFORM, WINDOW_OPERATIONS,
};
use spec_schema::{Layout, When, layout_by, table};
use std::alloc::Global;
use text_kit::{OutOfMemory, Seq};

// A transform of the type `aggregate`.
#[tactic(auto, unfolding(crate::specs::Groupings::aggregate))]
fn aggregate(alloc: Global) -> Result<Layout, OutOfMemory>
    ensures { IfOk result (λ l. l ≡ aggregate) }
{
    layout_by(
        alloc,
        TRANSFORM,
        &[When::Says("type", "aggregate")],
        &table![
        must "type" TEXT, may "groupby" TEXTS, may "ops" OPERATIONS, may "fields" TEXTS_OR_NULLS,
        may "as" TEXTS_OR_NULLS,
    ],
        None,
    )
}

// A transform of the type `joinaggregate`.
#[tactic(auto, unfolding(crate::specs::Groupings::join_aggregate))]
fn join_aggregate(alloc: Global) -> Result<Layout, OutOfMemory>
    ensures { IfOk result (λ l. l ≡ join_aggregate) }
{
    layout_by(
        alloc,
        TRANSFORM,
        &[When::Says("type", "joinaggregate")],
        &table![
        must "type" TEXT, may "groupby" TEXTS, may "ops" OPERATIONS, may "fields" TEXTS_OR_NULLS,
        may "as" TEXTS_OR_NULLS,
    ],
        None,
    )
}

// A transform of the type `window`.
#[tactic(auto, unfolding(crate::specs::Groupings::window))]
fn window(alloc: Global) -> Result<Layout, OutOfMemory>
    ensures { IfOk result (λ l. l ≡ window) }
{
    layout_by(
        alloc,
        TRANSFORM,
        &[When::Says("type", "window")],
        &table![
        must "type" TEXT, must "ops" WINDOW_OPERATIONS, may "fields" TEXTS_OR_NULLS, may "params" PARAMETERS,
        may "as" TEXTS_OR_NULLS, may "groupby" TEXTS, may "sort" SORT, may "frame" FRAME, may "ignorePeers" FLAG,
    ],
        None,
    )
}

// A transform of the type `lookup`.
#[tactic(auto, unfolding(crate::specs::Groupings::lookup))]
fn lookup(alloc: Global) -> Result<Layout, OutOfMemory>
    ensures { IfOk result (λ l. l ≡ lookup) }
{
    layout_by(
        alloc,
        TRANSFORM,
        &[When::Says("type", "lookup")],
        &table![
        must "type" TEXT, must "from" TEXT, must "key" TEXT, must "fields" ONE_TEXT, must "values" TEXTS,
        may "as" TEXTS, may "default" CELL,
    ],
        None,
    )
}

// A transform of no known type: its type is missing or wrong, and it may have each member that some transform has.
#[tactic(auto, unfolding(crate::specs::Groupings::no_transform))]
fn no_transform(alloc: Global) -> Result<Layout, OutOfMemory>
    ensures { IfOk result (λ l. l ≡ no_transform) }
{
    layout_by(
        alloc,
        TRANSFORM,
        &[],
        &table![
        must "type" NOTHING, may "expr" FREE, may "as" FREE, may "field" FREE, may "signal" FREE, may "extent" FREE,
        may "maxbins" FREE, may "step" FREE, may "units" FREE, may "groupby" FREE, may "ops" FREE, may "fields" FREE,
        may "sort" FREE, may "offset" FREE, may "params" FREE, may "frame" FREE, may "ignorePeers" FREE,
        may "from" FREE, may "key" FREE, may "values" FREE, may "default" FREE,
    ],
        None,
    )
}

/// Adds these layouts.
pub fn push_groupings(alloc: Global, out: &mut Seq<Layout>) -> Result<(), OutOfMemory>
    ensures { OnOk result (out.new ≡ out.old ++ all_groupings) }
{
    out.push(aggregate(alloc)?)?;
    out.push(join_aggregate(alloc)?)?;
    out.push(window(alloc)?)?;
    out.push(lookup(alloc)?)?;
    out.push(no_transform(alloc)?)
}
