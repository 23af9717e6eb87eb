// The codes that names stand for.
ghost use Rattle.std.specs.Prelude.{◌≡◌, IfOk};
ghost use Rattle.vl_building.specs.Names.{named_at, named_in, below, operation_named, window_operation_named, time_unit_named, scale_kind_named, channel_named};
ghost use Rattle.vl_building.specs.Names.{channels_at};

use crate::parts::{Picks, picked};
use json_exact::{Json, Member};
use std::alloc::Global;
use text_kit::{OutOfMemory, Seq};
use tree_readers::{items_at, text_in, word_at};

// How many operations are those of aggregates; those that windows have besides come after them.
const AGGREGATES: u16 = 12;

// How many kinds of scales are types; the kind that is none comes after them.
const SCALE_TYPES: u16 = 5;

// A code below a limit.
fn below(limit: u16, code: u16) -> Option<u16>
    ensures { result ≡ below limit code }
{
    if code < limit { Some(code) } else { None }
}

/// The code of the operation of aggregates under a name.
pub fn operation_at(members: &[Member], name: &str) -> Option<u16>
    ensures { result ≡ named_at operation_named members.now name.now }
{
    let code = case_table::operation_of(word_at(members, name)?.as_str())?;
    below(AGGREGATES, code)
}

/// The code of the operation of windows under a name.
pub fn window_operation_at(members: &[Member], name: &str) -> Option<u16>
    ensures { result ≡ named_at window_operation_named members.now name.now }
{
    case_table::operation_of(word_at(members, name)?.as_str())
}

/// The code of the unit of time under a name.
pub fn time_unit_at(members: &[Member], name: &str) -> Option<u16>
    ensures { result ≡ named_at time_unit_named members.now name.now }
{
    case_table::time_unit_of(word_at(members, name)?.as_str())
}

/// The code of the type of a scale under a name.
pub fn scale_kind_at(members: &[Member], name: &str) -> Option<u16>
    ensures { result ≡ named_at scale_kind_named members.now name.now }
{
    let code = case_table::scale_kind_of(word_at(members, name)?.as_str())?;
    below(SCALE_TYPES, code)
}

/// The code of the channel under a name.
pub fn channel_at(members: &[Member], name: &str) -> Option<u16>
    ensures { result ≡ named_at channel_named members.now name.now }
{
    case_table::channel_of(word_at(members, name)?.as_str())
}

// The codes of the channels that items name.
struct ChannelCodes;

impl Picks<Json, u16> for ChannelCodes {
    ghost picks = { named_in channel_named };

    fn pick(_: Global, tree: &Json) -> Result<Option<u16>, OutOfMemory> {
        match text_in(tree) {
            Some(text) => Ok(case_table::channel_of(text.as_str())),
            None => Ok(None),
        }
    }
}

/// The codes of the channels that the items of the list under a name name.
pub fn channels_at(
    alloc: Global,
    members: &[Member],
    name: &str,
) -> Result<Option<Seq<u16>>, OutOfMemory>
    ensures { IfOk result (λ out. out ≡ channels_at members.now name.now) }
{
    match items_at(members, name) {
        Some(items) => picked::<Json, u16, ChannelCodes>(alloc, items.as_slice()).map(Some),
        None => Ok(None),
    }
}
