//! Tables of several objects, and several lists of names, written in the program, as values.
ghost use Rattle.std.specs.Prelude.{◌≡◌, ◌++◌, map, OnOk};
ghost use Rattle.vl_schema.specs.inner.Tables.{layout_of};

use spec_schema::{Layout, Row, When, layout_by, names_by};
use std::alloc::Global;
use text_kit::{OutOfMemory, Seq, Text};

/// A layout as it is written.
#[derive(Clone, Copy)]
pub struct Table<'a> {
    /// The code of the object.
    pub object: u16,
    /// What has to hold of the members.
    pub whens: &'a [When<'a>],
    /// The members.
    pub rows: &'a [Row<'a>],
    /// The shape of a member of any other name, where there may be one.
    pub others: Option<u16>,
}

/// Adds the layouts that tables write.
pub fn push_layouts(
    alloc: Global,
    out: &mut Seq<Layout>,
    tables: &[Table],
) -> Result<(), OutOfMemory>
    ensures { OnOk result (out.new ≡ out.old ++ map layout_of tables.now) }
{
    for table in tables {
        out.push(layout_by(alloc, table.object, table.whens, table.rows, table.others)?)?;
    }
    Ok(())
}

/// Adds lists of names.
pub fn push_lists(
    alloc: Global,
    out: &mut Seq<Seq<Text>>,
    lists: &[&[&str]],
) -> Result<(), OutOfMemory>
    ensures { OnOk result (out.new ≡ out.old ++ map (λ names. map (λ name. name.now) names.now) lists.now) }
{
    for names in lists {
        out.push(names_by(alloc, names)?)?;
    }
    Ok(())
}
