//! The members of objects: plain_marks.
ghost use Rattle.std.specs.Prelude.{◌≡◌, ◌++◌, IfOk, OnOk};
ghost use Rattle.vega_schema.specs.PlainMarks.{rect_mark, symbol_mark, line_mark, area_mark, rule_mark, text_mark, all_plain_marks};

use crate::codes::{ENCODE, MARK, MARK_FROM, SORT, TEXT};
use spec_schema::{Layout, When, layout_by, table};
use std::alloc::Global;
use text_kit::{OutOfMemory, Seq};

// A mark of the type `rect`.
#[tactic(auto, unfolding(crate::specs::PlainMarks::rect_mark))]
fn rect_mark(alloc: Global) -> Result<Layout, OutOfMemory>
    ensures { IfOk result (λ l. l ≡ rect_mark) }
{
    layout_by(
        alloc,
        MARK,
        &[When::Says("type", "rect")],
        &table![
        must "type" TEXT, may "name" TEXT, must "from" MARK_FROM, may "encode" ENCODE, may "sort" SORT,
    ],
        None,
    )
}

// A mark of the type `symbol`.
#[tactic(auto, unfolding(crate::specs::PlainMarks::symbol_mark))]
fn symbol_mark(alloc: Global) -> Result<Layout, OutOfMemory>
    ensures { IfOk result (λ l. l ≡ symbol_mark) }
{
    layout_by(
        alloc,
        MARK,
        &[When::Says("type", "symbol")],
        &table![
        must "type" TEXT, may "name" TEXT, must "from" MARK_FROM, may "encode" ENCODE, may "sort" SORT,
    ],
        None,
    )
}

// A mark of the type `line`.
#[tactic(auto, unfolding(crate::specs::PlainMarks::line_mark))]
fn line_mark(alloc: Global) -> Result<Layout, OutOfMemory>
    ensures { IfOk result (λ l. l ≡ line_mark) }
{
    layout_by(
        alloc,
        MARK,
        &[When::Says("type", "line")],
        &table![
        must "type" TEXT, may "name" TEXT, must "from" MARK_FROM, may "encode" ENCODE, may "sort" SORT,
    ],
        None,
    )
}

// A mark of the type `area`.
#[tactic(auto, unfolding(crate::specs::PlainMarks::area_mark))]
fn area_mark(alloc: Global) -> Result<Layout, OutOfMemory>
    ensures { IfOk result (λ l. l ≡ area_mark) }
{
    layout_by(
        alloc,
        MARK,
        &[When::Says("type", "area")],
        &table![
        must "type" TEXT, may "name" TEXT, must "from" MARK_FROM, may "encode" ENCODE, may "sort" SORT,
    ],
        None,
    )
}

// A mark of the type `rule`.
#[tactic(auto, unfolding(crate::specs::PlainMarks::rule_mark))]
fn rule_mark(alloc: Global) -> Result<Layout, OutOfMemory>
    ensures { IfOk result (λ l. l ≡ rule_mark) }
{
    layout_by(
        alloc,
        MARK,
        &[When::Says("type", "rule")],
        &table![
        must "type" TEXT, may "name" TEXT, must "from" MARK_FROM, may "encode" ENCODE, may "sort" SORT,
    ],
        None,
    )
}

// A mark of the type `text`.
#[tactic(auto, unfolding(crate::specs::PlainMarks::text_mark))]
fn text_mark(alloc: Global) -> Result<Layout, OutOfMemory>
    ensures { IfOk result (λ l. l ≡ text_mark) }
{
    layout_by(
        alloc,
        MARK,
        &[When::Says("type", "text")],
        &table![
        must "type" TEXT, may "name" TEXT, must "from" MARK_FROM, may "encode" ENCODE, may "sort" SORT,
    ],
        None,
    )
}

/// Adds these layouts.
pub fn push_plain_marks(alloc: Global, out: &mut Seq<Layout>) -> Result<(), OutOfMemory>
    ensures { OnOk result (out.new ≡ out.old ++ all_plain_marks) }
{
    out.push(rect_mark(alloc)?)?;
    out.push(symbol_mark(alloc)?)?;
    out.push(line_mark(alloc)?)?;
    out.push(area_mark(alloc)?)?;
    out.push(rule_mark(alloc)?)?;
    out.push(text_mark(alloc)?)
}
