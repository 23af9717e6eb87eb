// Transforms over several rows.
ghost use Rattle.std.specs.Prelude.{◌≡◌, IfOk};
ghost use Rattle.vega_spec.specs.declared.transforms.Transform.TheVariants as by_type;
ghost use Rattle.vega_building.specs.Groupings.{maybe_text, maybe_number, aggregate_of, frame_in, frame_at, needed_operations, window_of, lookup_of};

use crate::parts::{Item, list_of};
use crate::several::{Part, four_parts, six_parts};
use fixed_num::Num;
use json_exact::{Json, Member};
use std::alloc::Global;
use text_kit::{OutOfMemory, Seq, Text};
use tree_readers::{flag_at, items_at, number_in, text_in};
use vega_spec::{Aggregate, Frame, Lookup, Transform, Window};

impl Item for Option<Text> {
    ghost item = { maybe_text };

    fn of_item(_: Global, tree: &Json) -> Result<Option<Text>, OutOfMemory> {
        match text_in(tree) {
            Some(text) => Ok(Some(text.copy()?)),
            None => Ok(None),
        }
    }
}

impl Item for Option<Num> {
    ghost item = { maybe_number };

    fn of_item(_: Global, tree: &Json) -> Result<Option<Num>, OutOfMemory> {
        Ok(number_in(tree))
    }
}

// What an aggregate gives, of either type.
fn groups_of(alloc: Global, members: &[Member]) -> Result<Aggregate, OutOfMemory>
    ensures { IfOk result (λ aggregate. aggregate ≡ aggregate_of members.now) }
{
    let (groupby, ops, fields, as_) = four_parts(alloc, members, "groupby", "ops", "fields", "as")?;
    Ok(Aggregate {
        groupby,
        ops,
        fields,
        as_,
    })
}

/// `aggregate`
pub fn aggregate_of(alloc: Global, members: &[Member]) -> Result<Transform, OutOfMemory>
    ensures { IfOk result (λ transform. transform ≡ by_type.Aggregate (aggregate_of members.now)) }
{
    Ok(Transform::Aggregate(groups_of(alloc, members)?))
}

/// `joinaggregate`
pub fn join_aggregate_of(alloc: Global, members: &[Member]) -> Result<Transform, OutOfMemory>
    ensures { IfOk result (λ transform. transform ≡ by_type.JoinAggregate (aggregate_of members.now)) }
{
    Ok(Transform::JoinAggregate(groups_of(alloc, members)?))
}

// The codes of operations under a name, none where there is no list.
fn needed_operations(alloc: Global, members: &[Member], name: &str) -> Result<Seq<u16>, OutOfMemory>
    ensures { IfOk result (λ codes. codes ≡ needed_operations members.now name.now) }
{
    match items_at(members, name) {
        Some(items) => list_of(alloc, items.as_slice()),
        None => Ok(Seq::new(alloc)),
    }
}

// The two bounds of a frame.
fn frame_in(items: &[Json]) -> Option<Frame>
    ensures { result ≡ frame_in items.now }
{
    match items {
        [a, b] => Some(Frame {
            first: number_in(a),
            last: number_in(b),
        }),
        _ => None,
    }
}

// The frame under a name.
fn frame_at(members: &[Member], name: &str) -> Option<Frame>
    ensures { result ≡ frame_at members.now name.now }
{
    frame_in(items_at(members, name)?.as_slice())
}

impl Part for Seq<u16> {
    ghost part = { needed_operations };

    fn part_at(alloc: Global, members: &[Member], name: &str) -> Result<Seq<u16>, OutOfMemory> {
        needed_operations(alloc, members, name)
    }
}

/// `window`
pub fn window_of(alloc: Global, members: &[Member]) -> Result<Transform, OutOfMemory>
    ensures { IfOk result (λ transform. transform ≡ by_type.Window (window_of members.now)) }
{
    let (ops, fields, params, as_, groupby, sort) = six_parts(
        alloc, members, "ops", "fields", "params", "as", "groupby", "sort",
    )?;
    Ok(Transform::Window(Window {
        ops,
        fields,
        params,
        as_,
        groupby,
        sort,
        frame: frame_at(members, "frame"),
        ignore_peers: flag_at(members, "ignorePeers"),
    }))
}

/// `lookup`
pub fn lookup_of(alloc: Global, members: &[Member]) -> Result<Transform, OutOfMemory>
    ensures { IfOk result (λ transform. transform ≡ by_type.Lookup (lookup_of members.now)) }
{
    let (from, key, fields, values, as_, default) = six_parts(
        alloc, members, "from", "key", "fields", "values", "as", "default",
    )?;
    Ok(Transform::Lookup(Lookup {
        from,
        key,
        fields,
        values,
        as_,
        default,
    }))
}
