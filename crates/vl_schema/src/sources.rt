//! The members of objects: where rows come from.
ghost use Rattle.std.specs.Prelude.{◌≡◌, ◌++◌, OnOk};
ghost use Rattle.vl_schema.specs.Sources.{all_sources};

use crate::codes::{
    DATA, DATA_NAMES, DATASETS, FORMAT, FORMAT_TYPE, FREE, PARSE, PARSE_KIND, TEXT, URL,
};
use crate::tables::{Table, push_layouts};
use spec_schema::{Layout, When, table};
use std::alloc::Global;
use text_kit::{OutOfMemory, Seq};

// Rows by a name or written, those of a file, its format, how the texts of its fields are read, and rows by names.
const SOURCES: [Table<'static>; 5] = layout_tables![
    DATA [When::Any(DATA_NAMES), When::Lacks("url")] [may "name" TEXT, may "values" FREE, may "format" FORMAT] None;
    DATA [When::Has("url"), When::Lacks("values")] [may "name" TEXT, may "url" URL, may "format" FORMAT] None;
    FORMAT [] [may "type" FORMAT_TYPE, may "parse" PARSE] None;
    PARSE [] [] Some(PARSE_KIND);
    DATASETS [] [] Some(FREE);
];

/// Adds these layouts.
#[tactic(auto, unfolding(crate::specs::Sources::all_sources, crate::specs::Sources::source_of_values, crate::specs::Sources::source_of_file, crate::specs::Sources::format, crate::specs::Sources::parse, crate::specs::Sources::datasets))]
pub fn push_sources(alloc: Global, out: &mut Seq<Layout>) -> Result<(), OutOfMemory>
    ensures { OnOk result (out.new ≡ out.old ++ all_sources) }
{
    push_layouts(alloc, out, &SOURCES)
}
