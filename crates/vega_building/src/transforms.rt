// Transforms of rows.
ghost use Rattle.std.specs.Prelude.{◌≡◌, IfOk};
ghost use Rattle.json_exact.specs.declared.json.Json.{out-Json};
ghost use Rattle.tree_readers.specs.Parts.{members_of};
ghost use Rattle.vega_spec.specs.declared.transforms.Transform.TheVariants as by_type;
ghost use Rattle.vega_building.specs.Transforms.{filter_of, formula_of, extent_of, numbers_in, extent_signal, bin_extent_in, bin_extent_at};
ghost use Rattle.vega_building.specs.Transforms.{needed_bin_extent, bin_of, time_unit_of, stack_of, fold_of, transform_by, transform_of};

use crate::groupings::{aggregate_of, join_aggregate_of, lookup_of, window_of};
use crate::names::named_at;
use crate::parts::{Item, Object, needed_expression};
use crate::several::{Part, four_parts, three_parts, two_parts};
use crate::tables::needed_time_unit;
use json_exact::{Json, Member};
use std::alloc::Global;
use text_kit::{OutOfMemory, Text};
use tree_readers::{member_value, needed_text, number_at, number_in, text_at};
use vega_spec::{Bin, BinExtent, Extent, Filter, Fold, Formula, Stack, TimeUnit, Transform};

// `filter`
fn filter_of(alloc: Global, members: &[Member]) -> Result<Transform, OutOfMemory>
    ensures { IfOk result (λ transform. transform ≡ by_type.Filter (filter_of members.now)) }
{
    let expr = needed_expression(alloc, members, "expr")?;
    Ok(Transform::Filter(Filter { expr }))
}

// `formula`
fn formula_of(alloc: Global, members: &[Member]) -> Result<Transform, OutOfMemory>
    ensures { IfOk result (λ transform. transform ≡ by_type.Formula (formula_of members.now)) }
{
    let (expr, as_) = two_parts(alloc, members, "expr", "as")?;
    Ok(Transform::Formula(Formula { expr, as_ }))
}

// `extent`
fn extent_of(alloc: Global, members: &[Member]) -> Result<Transform, OutOfMemory>
    ensures { IfOk result (λ transform. transform ≡ by_type.Extent (extent_of members.now)) }
{
    let (field, signal) = two_parts(alloc, members, "field", "signal")?;
    Ok(Transform::Extent(Extent { field, signal }))
}

// Two numbers.
fn numbers_in(items: &[Json]) -> Option<BinExtent>
    ensures { result ≡ numbers_in items.now }
{
    let [a, b] = items else {
        return None;
    };
    let x = number_in(a)?;
    let y = number_in(b)?;
    Some(BinExtent::Pair(x, y))
}

// The name of a signal.
fn extent_signal(members: &[Member]) -> Result<Option<BinExtent>, OutOfMemory>
    ensures { IfOk result (λ extent. extent ≡ extent_signal members.now) }
{
    match text_at(members, "signal")? {
        Some(name) => Ok(Some(BinExtent::Signal(name))),
        None => Ok(None),
    }
}

// Two numbers, or the name of a signal.
fn bin_extent_in(tree: &Json) -> Result<Option<BinExtent>, OutOfMemory>
    ensures { IfOk result (λ extent. extent ≡ bin_extent_in (out-Json tree.now)) }
{
    match tree {
        Json::List(items) => Ok(numbers_in(items.as_slice())),
        Json::Object(members) => extent_signal(members.as_slice()),
        Json::Null | Json::Flag(_) | Json::Number(_) | Json::Huge | Json::Text(_) => Ok(None),
    }
}

// What bins take in, under a name.
fn bin_extent_at(members: &[Member], name: &str) -> Result<Option<BinExtent>, OutOfMemory>
    ensures { IfOk result (λ extent. extent ≡ bin_extent_at members.now name.now) }
{
    match member_value(members, name) {
        Some(tree) => bin_extent_in(tree),
        None => Ok(None),
    }
}

// What bins take in, under a name, the signal of no name where it isn't said.
fn needed_bin_extent(
    alloc: Global,
    members: &[Member],
    name: &str,
) -> Result<BinExtent, OutOfMemory>
    ensures { IfOk result (λ extent. extent ≡ needed_bin_extent members.now name.now) }
{
    match bin_extent_at(members, name)? {
        Some(extent) => Ok(extent),
        None => Ok(BinExtent::Signal(Text::new(alloc))),
    }
}

impl Part for BinExtent {
    ghost part = { needed_bin_extent };

    fn part_at(alloc: Global, members: &[Member], name: &str) -> Result<BinExtent, OutOfMemory> {
        needed_bin_extent(alloc, members, name)
    }
}

// `bin`
fn bin_of(alloc: Global, members: &[Member]) -> Result<Transform, OutOfMemory>
    ensures { IfOk result (λ transform. transform ≡ by_type.Bin (bin_of members.now)) }
{
    let (field, extent, as_) = three_parts(alloc, members, "field", "extent", "as")?;
    Ok(Transform::Bin(Bin {
        field,
        extent,
        maxbins: number_at(members, "maxbins"),
        step: number_at(members, "step"),
        as_,
    }))
}

// `timeunit`
fn time_unit_of(alloc: Global, members: &[Member]) -> Result<Transform, OutOfMemory>
    ensures { IfOk result (λ transform. transform ≡ by_type.TimeUnit (time_unit_of members.now)) }
{
    let (field, as_) = two_parts(alloc, members, "field", "as")?;
    Ok(Transform::TimeUnit(TimeUnit {
        field,
        units: needed_time_unit(members, "units"),
        as_,
    }))
}

// `stack`
fn stack_of(alloc: Global, members: &[Member]) -> Result<Transform, OutOfMemory>
    ensures { IfOk result (λ transform. transform ≡ by_type.Stack (stack_of members.now)) }
{
    let (groupby, field, sort, as_) = four_parts(alloc, members, "groupby", "field", "sort", "as")?;
    Ok(Transform::Stack(Stack {
        groupby,
        field,
        sort,
        offset: named_at(members, "offset"),
        as_,
    }))
}

// `fold`
fn fold_of(alloc: Global, members: &[Member]) -> Result<Transform, OutOfMemory>
    ensures { IfOk result (λ transform. transform ≡ by_type.Fold (fold_of members.now)) }
{
    let (fields, as_) = two_parts(alloc, members, "fields", "as")?;
    Ok(Transform::Fold(Fold { fields, as_ }))
}

// A transform by its type; one of no known type is a filter.
fn transform_by(alloc: Global, name: &str, members: &[Member]) -> Result<Transform, OutOfMemory>
    ensures { IfOk result (λ transform. transform ≡ transform_by name.now members.now) }
{
    match name {
        "formula" => formula_of(alloc, members),
        "extent" => extent_of(alloc, members),
        "bin" => bin_of(alloc, members),
        "timeunit" => time_unit_of(alloc, members),
        "aggregate" => aggregate_of(alloc, members),
        "joinaggregate" => join_aggregate_of(alloc, members),
        "stack" => stack_of(alloc, members),
        "window" => window_of(alloc, members),
        "lookup" => lookup_of(alloc, members),
        "fold" => fold_of(alloc, members),
        _ => filter_of(alloc, members),
    }
}

impl Object for Transform {
    ghost built = { transform_of };

    fn of_members(alloc: Global, members: &[Member]) -> Result<Transform, OutOfMemory> {
        let name = needed_text(alloc, members, "type")?;
        transform_by(alloc, name.as_str(), members)
    }
}

impl Item for Transform {
    ghost item = { λ tree. transform_of (members_of tree) };

    fn of_item(alloc: Global, tree: &Json) -> Result<Transform, OutOfMemory> {
        Transform::of_members(alloc, tree_readers::members_of(tree))
    }
}
