//! The members of objects: marks.
ghost use Rattle.std.specs.Prelude.{◌≡◌, ◌++◌, OnOk};
ghost use Rattle.vl_schema.specs.Marks.{all_marks};

use crate::codes::{
    ALIGN, BASELINE, COUNT, FLAG, FREE, INTERPOLATE, LOOK, MARK, MARK_TYPE, SHARE, SHIFT, TEXT,
};
use crate::tables::{Table, push_layouts};
use spec_schema::{Layout, When, table};
use std::alloc::Global;
use text_kit::{OutOfMemory, Seq};

// Marks of the types that have a size, and any other.
macro_rules! mark_tables {
    ($($name:literal)*) => {
        layout_tables![
            $(MARK [When::Says("type", $name)] [
                must "type" MARK_TYPE, may "color" TEXT, may "opacity" SHARE, may "filled" FLAG, may "point" FLAG,
                may "size" LOOK, may "strokeWidth" LOOK, may "align" ALIGN, may "baseline" BASELINE, may "dx" SHIFT,
                may "dy" SHIFT, may "fontSize" COUNT, may "interpolate" INTERPOLATE, may "tooltip" FREE
            ] None;)*
            MARK [] [
                must "type" MARK_TYPE, may "color" TEXT, may "opacity" SHARE, may "filled" FLAG, may "point" FLAG,
                may "strokeWidth" LOOK, may "align" ALIGN, may "baseline" BASELINE, may "dx" SHIFT,
                may "dy" SHIFT, may "fontSize" COUNT, may "interpolate" INTERPOLATE, may "tooltip" FREE
            ] None;
        ]
    };
}

const MARKS: [Table<'static>; 4] = mark_tables!["point" "circle" "square"];

/// Adds these layouts.
#[tactic(auto, unfolding(crate::specs::Marks::all_marks, crate::specs::Marks::sized_mark, crate::specs::Marks::mark))]
pub fn push_marks(alloc: Global, out: &mut Seq<Layout>) -> Result<(), OutOfMemory>
    ensures { OnOk result (out.new ≡ out.old ++ all_marks) }
{
    push_layouts(alloc, out, &MARKS)
}
