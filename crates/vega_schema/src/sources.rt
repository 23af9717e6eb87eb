//! The members of objects: sources.
ghost use Rattle.std.specs.Prelude.{◌≡◌, ◌++◌, IfOk, OnOk};
ghost use Rattle.vega_schema.specs.Sources.{data_set, data_format, parse, sort, extent_signal, all_sources};

use crate::codes::{
    DATA, EXTENT_SIGNAL, FORMAT, FORMAT_TYPE, FREE, ORDERS, PARSE, PARSE_KIND, SORT, TEXT,
    TEXT_OR_TEXTS, TRANSFORMS,
};
use spec_schema::{Layout, When, layout_by, table};
use std::alloc::Global;
use text_kit::{OutOfMemory, Seq};

// A data set.
#[tactic(auto, unfolding(crate::specs::Sources::data_set))]
fn data_set(alloc: Global) -> Result<Layout, OutOfMemory>
    ensures { IfOk result (λ l. l ≡ data_set) }
{
    layout_by(
        alloc,
        DATA,
        &[],
        &table![
        must "name" TEXT, may "values" FREE, may "url" TEXT, may "format" FORMAT, may "source" TEXT,
        may "transform" TRANSFORMS,
    ],
        None,
    )
}

// The format of a data file.
#[tactic(auto, unfolding(crate::specs::Sources::data_format))]
fn data_format(alloc: Global) -> Result<Layout, OutOfMemory>
    ensures { IfOk result (λ l. l ≡ data_format) }
{
    layout_by(
        alloc,
        FORMAT,
        &[],
        &table![
        may "type" FORMAT_TYPE, may "parse" PARSE,
    ],
        None,
    )
}

// How the texts of the fields of a data file are read.
#[tactic(auto, unfolding(crate::specs::Sources::parse))]
fn parse(alloc: Global) -> Result<Layout, OutOfMemory>
    ensures { IfOk result (λ l. l ≡ parse) }
{
    layout_by(alloc, PARSE, &[], &[], Some(PARSE_KIND))
}

// An order by fields.
#[tactic(auto, unfolding(crate::specs::Sources::sort))]
fn sort(alloc: Global) -> Result<Layout, OutOfMemory>
    ensures { IfOk result (λ l. l ≡ sort) }
{
    layout_by(
        alloc,
        SORT,
        &[When::Has("field")],
        &table![
        may "field" TEXT_OR_TEXTS, may "order" ORDERS,
    ],
        None,
    )
}

// The signal of an extent, by its name.
#[tactic(auto, unfolding(crate::specs::Sources::extent_signal))]
fn extent_signal(alloc: Global) -> Result<Layout, OutOfMemory>
    ensures { IfOk result (λ l. l ≡ extent_signal) }
{
    layout_by(
        alloc,
        EXTENT_SIGNAL,
        &[When::Has("signal")],
        &table![
        may "signal" TEXT,
    ],
        None,
    )
}

/// Adds these layouts.
pub fn push_sources(alloc: Global, out: &mut Seq<Layout>) -> Result<(), OutOfMemory>
    ensures { OnOk result (out.new ≡ out.old ++ all_sources) }
{
    out.push(data_set(alloc)?)?;
    out.push(data_format(alloc)?)?;
    out.push(parse(alloc)?)?;
    out.push(sort(alloc)?)?;
    out.push(extent_signal(alloc)?)
}
