// The names of fields.
ghost use Rattle.std.specs.Prelude.{◌≡◌, IfOk};
ghost use Rattle.vl_building.specs.Fields.{field_at, needed_field, field_of};

use crate::escapes::field_name;
use crate::parts::Reads;
use json_exact::{Json, Member};
use std::alloc::Global;
use text_kit::{OutOfMemory, Text};
use tree_readers::{text_in, word_at};

/// The field under a name.
pub fn field_at(alloc: Global, members: &[Member], name: &str) -> Result<Option<Text>, OutOfMemory>
    ensures { IfOk result (λ field. field ≡ field_at members.now name.now) }
{
    match word_at(members, name) {
        Some(text) => field_name(alloc, text.as_str()).map(Some),
        None => Ok(None),
    }
}

/// The field under a name, empty where there is none.
pub fn needed_field(alloc: Global, members: &[Member], name: &str) -> Result<Text, OutOfMemory>
    ensures { IfOk result (λ field. field ≡ needed_field members.now name.now) }
{
    match word_at(members, name) {
        Some(text) => field_name(alloc, text.as_str()),
        None => Ok(Text::new(alloc)),
    }
}

/// Fields, each empty where an item says none.
pub struct Fields;

impl Reads<Json, Text> for Fields {
    ghost reads = { field_of };

    fn read(alloc: Global, tree: &Json) -> Result<Text, OutOfMemory> {
        match text_in(tree) {
            Some(text) => field_name(alloc, text.as_str()),
            None => Ok(Text::new(alloc)),
        }
    }
}
