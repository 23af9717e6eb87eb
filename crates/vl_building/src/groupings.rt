// Transforms over several rows.
ghost use Rattle.std.specs.Prelude.{◌≡◌, IfOk};
ghost use Rattle.vl_spec.specs.declared.transforms.Transform.TheVariants as variant;
ghost use Rattle.vl_building.specs.Transforms.{operation_of, aggregate_of, sort_field_of, window_operation_of, frame_end_of};
ghost use Rattle.vl_building.specs.Transforms.{frame_at, window_of, lookup_from, lookup_of};

use crate::fields::{Fields, field_at, needed_field};
use crate::filters::bound_in;
use crate::names::named_at;
use crate::numbers::{count_between, is_whole};
use crate::parts;
use crate::parts::{Object, Objects, each_at, needed_each};
use crate::several::{all_four, all_three, both};
use crate::tables::{operation_at, window_operation_at};
use fixed_num::Num;
use json_exact::{Json, Member};
use std::alloc::Global;
use text_kit::{Copies, OutOfMemory, Text};
use tree_readers::{flag_at, items_at, needed_members, needed_text};
use vl_spec::{
    AggregateTransform, Frame, LookupFrom, LookupTransform, MOST_NUMBER, Operation, SortField,
    Transform, WindowOperation, WindowTransform,
};

// An operation over the rows of a group.
impl Object for Operation {
    ghost built = { operation_of };

    #[tactic(auto, unfolding(crate::specs::Transforms::operation_of))]
    fn of_members(alloc: Global, members: &[Member]) -> Result<Operation, OutOfMemory> {
        let (field, as_) = both(
            field_at(alloc, members, "field"),
            needed_text(alloc, members, "as"),
        )?;
        Ok(Operation {
            op: operation_at(members, "op").unwrap_or(0),
            field,
            as_,
        })
    }
}

/// What is computed of each group of rows, by the name of the member that says it.
#[tactic(auto, unfolding(crate::specs::Transforms::aggregate_of))]
pub fn aggregate_of(
    alloc: Global,
    name: &str,
    members: &[Member],
) -> Result<AggregateTransform, OutOfMemory>
    ensures { IfOk result (λ aggregate. aggregate ≡ aggregate_of name.now members.now) }
{
    let (groupby, aggregate) = both(
        each_at::<Text, Fields>(alloc, members, "groupby"),
        needed_each::<Operation, Objects>(alloc, members, name),
    )?;
    Ok(AggregateTransform { aggregate, groupby })
}

// A field of an order.
impl Object for SortField {
    ghost built = { sort_field_of };

    #[tactic(auto, unfolding(crate::specs::Transforms::sort_field_of))]
    fn of_members(alloc: Global, members: &[Member]) -> Result<SortField, OutOfMemory> {
        Ok(SortField {
            field: needed_field(alloc, members, "field")?,
            order: named_at(members, "order"),
        })
    }
}

// An operation over the rows about a row.
impl Object for WindowOperation {
    ghost built = { window_operation_of };

    #[tactic(auto, unfolding(crate::specs::Transforms::window_operation_of))]
    fn of_members(alloc: Global, members: &[Member]) -> Result<WindowOperation, OutOfMemory> {
        let (field, as_) = both(
            field_at(alloc, members, "field"),
            needed_text(alloc, members, "as"),
        )?;
        Ok(WindowOperation {
            op: window_operation_at(members, "op").unwrap_or(0),
            param: count_between(members, "param", 0, MOST_NUMBER),
            field,
            as_,
        })
    }
}

// The end of a frame that an item is: a whole number, or null.
fn frame_end_of(tree: &Json) -> Option<Option<Num>>
    ensures { result ≡ frame_end_of tree.now }
{
    match bound_in(tree)? {
        Some(number) => {
            if is_whole(number) {
                Some(Some(number))
            } else {
                None
            }
        }
        None => Some(None),
    }
}

// The rows about a row, under a name.
fn frame_at(members: &[Member], name: &str) -> Option<Frame>
    ensures { result ≡ frame_at members.now name.now }
{
    let [first, last] = items_at(members, name)?.as_slice() else {
        return None;
    };
    let first = frame_end_of(first)?;
    let last = frame_end_of(last)?;
    Some(Frame { first, last })
}

/// `window`
#[tactic(auto, unfolding(crate::specs::Transforms::window_of))]
pub fn window_of(alloc: Global, members: &[Member]) -> Result<Transform, OutOfMemory>
    ensures { IfOk result (λ t. t ≡ variant.Window (window_of members.now)) }
{
    let (groupby, sort, window) = all_three(
        each_at::<Text, Fields>(alloc, members, "groupby"),
        each_at::<SortField, Objects>(alloc, members, "sort"),
        needed_each::<WindowOperation, Objects>(alloc, members, "window"),
    )?;
    Ok(Transform::Window(WindowTransform {
        window,
        groupby,
        sort,
        frame: frame_at(members, "frame"),
        ignore_peers: flag_at(members, "ignorePeers"),
    }))
}

// The rows of which a lookup takes cells, those of this source.
#[tactic(auto, unfolding(crate::specs::Transforms::lookup_from))]
fn lookup_from(
    alloc: Global,
    source: &Option<Text>,
    members: &[Member],
) -> Result<LookupFrom, OutOfMemory>
    ensures { IfOk result (λ from. from ≡ lookup_from source.now members.now) }
{
    let (data_, key, fields) = all_three(
        Copies::copied(source, alloc),
        needed_field(alloc, members, "key"),
        needed_each::<Text, Fields>(alloc, members, "fields"),
    )?;
    Ok(LookupFrom { data_, key, fields })
}

/// `lookup`, in this source.
#[tactic(auto, unfolding(crate::specs::Transforms::lookup_of))]
pub fn lookup_of(
    alloc: Global,
    source: &Option<Text>,
    members: &[Member],
) -> Result<Transform, OutOfMemory>
    ensures { IfOk result (λ t. t ≡ variant.Lookup (lookup_of source.now members.now)) }
{
    let (lookup, as_, default, from) = all_four(
        needed_field(alloc, members, "lookup"),
        parts::found_at(alloc, members, "as"),
        parts::found_at(alloc, members, "default"),
        lookup_from(alloc, source, needed_members(members, "from")),
    )?;
    Ok(Transform::Lookup(LookupTransform {
        lookup,
        from,
        as_,
        default,
    }))
}
