//! The members of objects: marks.
ghost use Rattle.std.specs.Prelude.{◌≡◌, ◌++◌, IfOk, OnOk};
ghost use Rattle.vega_schema.specs.Marks.{mark_from, group_from, facet, cross, encode, no_mark, all_marks};

use crate::codes::{
    CHANNELS, CROSS, ENCODE, FACET, FLAG, GROUP_FROM, HEADERS, MARK, MARK_FROM, NOTHING, SORT,
    TEXT, TEXT_OR_TEXTS, TEXTS,
};
use spec_schema::{Layout, When, layout_by, table};
use std::alloc::Global;
use text_kit::{OutOfMemory, Seq};

// Where the rows of a mark come from.
#[tactic(auto, unfolding(crate::specs::Marks::mark_from))]
fn mark_from(alloc: Global) -> Result<Layout, OutOfMemory>
    ensures { IfOk result (λ l. l ≡ mark_from) }
{
    layout_by(
        alloc,
        MARK_FROM,
        &[When::Has("data"), When::Lacks("facet")],
        &table![
        may "data" TEXT,
    ],
        None,
    )
}

// Where the copies of a group come from.
#[tactic(auto, unfolding(crate::specs::Marks::group_from))]
fn group_from(alloc: Global) -> Result<Layout, OutOfMemory>
    ensures { IfOk result (λ l. l ≡ group_from) }
{
    layout_by(
        alloc,
        GROUP_FROM,
        &[When::Has("facet"), When::Lacks("data")],
        &table![
        may "facet" FACET,
    ],
        None,
    )
}

// How rows are parted into copies of a group.
#[tactic(auto, unfolding(crate::specs::Marks::facet))]
fn facet(alloc: Global) -> Result<Layout, OutOfMemory>
    ensures { IfOk result (λ l. l ≡ facet) }
{
    layout_by(
        alloc,
        FACET,
        &[],
        &table![
        must "name" TEXT_OR_TEXTS, must "data" TEXT_OR_TEXTS, must "groupby" TEXTS, may "aggregate" CROSS,
        may "headers" HEADERS,
    ],
        None,
    )
}

// Whether a facet has each pair of cells.
#[tactic(auto, unfolding(crate::specs::Marks::cross))]
fn cross(alloc: Global) -> Result<Layout, OutOfMemory>
    ensures { IfOk result (λ l. l ≡ cross) }
{
    layout_by(
        alloc,
        CROSS,
        &[],
        &table![
        may "cross" FLAG,
    ],
        None,
    )
}

// The encode sets of a mark.
#[tactic(auto, unfolding(crate::specs::Marks::encode))]
fn encode(alloc: Global) -> Result<Layout, OutOfMemory>
    ensures { IfOk result (λ l. l ≡ encode) }
{
    layout_by(
        alloc,
        ENCODE,
        &[],
        &table![
        may "enter" CHANNELS, may "update" CHANNELS,
    ],
        None,
    )
}

// A mark of no known type: its type is missing or wrong, and it has the members of a mark other than a group.
#[tactic(auto, unfolding(crate::specs::Marks::no_mark))]
fn no_mark(alloc: Global) -> Result<Layout, OutOfMemory>
    ensures { IfOk result (λ l. l ≡ no_mark) }
{
    layout_by(
        alloc,
        MARK,
        &[],
        &table![
        must "type" NOTHING, may "name" TEXT, must "from" MARK_FROM, may "encode" ENCODE, may "sort" SORT,
    ],
        None,
    )
}

/// Adds these layouts.
pub fn push_marks(alloc: Global, out: &mut Seq<Layout>) -> Result<(), OutOfMemory>
    ensures { OnOk result (out.new ≡ out.old ++ all_marks) }
{
    out.push(mark_from(alloc)?)?;
    out.push(group_from(alloc)?)?;
    out.push(facet(alloc)?)?;
    out.push(cross(alloc)?)?;
    out.push(encode(alloc)?)?;
    out.push(no_mark(alloc)?)
}
