// Transforms of rows.
ghost use Rattle.std.specs.Prelude.{◌≡◌, IfOk};
ghost use Rattle.vl_spec.specs.declared.transforms.Transform.TheVariants as variant;
ghost use Rattle.vl_building.specs.Transforms.{calculate_of, needed_bin, bin_of, time_unit_of, stack_of, fold_of, transform_of};

use crate::cells::needed_names;
use crate::definitions::bin_settings_of;
use crate::fields::{Fields, needed_field};
use crate::filters::needed_filter;
use crate::groupings::{aggregate_of, lookup_of, window_of};
use crate::names::named_at;
use crate::parts::{Objects, each_at, needed_each, needed_expression};
use crate::several::{all_four, both};
use crate::tables::time_unit_at;
use crate::words::first_among;
use json_exact::Member;
use std::alloc::Global;
use text_kit::{OutOfMemory, Text};
use tree_readers::{members_at, needed_text, two_texts_at};
use vl_spec::{
    Bin, BinTransform, CalculateTransform, FoldTransform, SortField, StackTransform,
    TimeUnitTransform, Transform,
};

// `calculate`
#[tactic(auto, unfolding(crate::specs::Transforms::calculate_of))]
fn calculate_of(alloc: Global, members: &[Member]) -> Result<Transform, OutOfMemory>
    ensures { IfOk result (λ t. t ≡ variant.Calculate (calculate_of members.now)) }
{
    let (as_, calculate) = both(
        needed_text(alloc, members, "as"),
        needed_expression(alloc, members, "calculate"),
    )?;
    Ok(Transform::Calculate(CalculateTransform { as_, calculate }))
}

// How a transform puts a field into bins: in the way that an object says, else by itself.
fn needed_bin(members: &[Member], name: &str) -> Bin
    ensures { result ≡ needed_bin members.now name.now }
{
    match members_at(members, name) {
        Some(inner) => Bin::Settings(bin_settings_of(inner.as_slice())),
        None => Bin::Flag(true),
    }
}

// `bin`
#[tactic(auto, unfolding(crate::specs::Transforms::bin_of))]
fn bin_of(alloc: Global, members: &[Member]) -> Result<Transform, OutOfMemory>
    ensures { IfOk result (λ t. t ≡ variant.Bin (bin_of members.now)) }
{
    let (field, as_) = both(
        needed_field(alloc, members, "field"),
        needed_names(alloc, members, "as"),
    )?;
    Ok(Transform::Bin(BinTransform {
        bin: needed_bin(members, "bin"),
        field,
        as_,
    }))
}

// `timeUnit`
#[tactic(auto, unfolding(crate::specs::Transforms::time_unit_of))]
fn time_unit_of(alloc: Global, members: &[Member]) -> Result<Transform, OutOfMemory>
    ensures { IfOk result (λ t. t ≡ variant.TimeUnit (time_unit_of members.now)) }
{
    let (field, as_) = both(
        needed_field(alloc, members, "field"),
        needed_text(alloc, members, "as"),
    )?;
    Ok(Transform::TimeUnit(TimeUnitTransform {
        time_unit: time_unit_at(members, "timeUnit").unwrap_or(0),
        field,
        as_,
    }))
}

// `stack`
#[tactic(auto, unfolding(crate::specs::Transforms::stack_of))]
fn stack_of(alloc: Global, members: &[Member]) -> Result<Transform, OutOfMemory>
    ensures { IfOk result (λ t. t ≡ variant.Stack (stack_of members.now)) }
{
    let (stack, groupby, sort, as_) = all_four(
        needed_field(alloc, members, "stack"),
        each_at::<Text, Fields>(alloc, members, "groupby"),
        each_at::<SortField, Objects>(alloc, members, "sort"),
        needed_names(alloc, members, "as"),
    )?;
    Ok(Transform::Stack(StackTransform {
        stack,
        groupby,
        sort,
        offset: named_at(members, "offset"),
        as_,
    }))
}

// `fold`
#[tactic(auto, unfolding(crate::specs::Transforms::fold_of))]
fn fold_of(alloc: Global, members: &[Member]) -> Result<Transform, OutOfMemory>
    ensures { IfOk result (λ t. t ≡ variant.Fold (fold_of members.now)) }
{
    let (fold, as_) = both(
        needed_each::<Text, Fields>(alloc, members, "fold"),
        two_texts_at(alloc, members, "as"),
    )?;
    Ok(Transform::Fold(FoldTransform { fold, as_ }))
}

// The members of which the first decides what a transform is.
const KINDS: [&str; 10] = [
    "filter",
    "calculate",
    "bin",
    "timeUnit",
    "aggregate",
    "joinaggregate",
    "stack",
    "window",
    "lookup",
    "fold",
];

/// The transform of these members by the first that decides, a lookup being one in this source; one without is a filter that no row passes.
#[tactic(auto, unfolding(crate::specs::Transforms::transform_of, crate::specs::Transforms::transform_by, crate::specs::Transforms::is_transform_kind))]
pub fn transform_of(
    alloc: Global,
    source: &Option<Text>,
    members: &[Member],
) -> Result<Transform, OutOfMemory>
    ensures { IfOk result (λ transform. transform ≡ transform_of source.now members.now) }
{
    match first_among(members, &KINDS, "") {
        "calculate" => calculate_of(alloc, members),
        "bin" => bin_of(alloc, members),
        "timeUnit" => time_unit_of(alloc, members),
        "aggregate" => Ok(Transform::Aggregate(aggregate_of(alloc, "aggregate", members)?)),
        "joinaggregate" => Ok(Transform::JoinAggregate(aggregate_of(
            alloc,
            "joinaggregate",
            members,
        )?)),
        "stack" => stack_of(alloc, members),
        "window" => window_of(alloc, members),
        "lookup" => lookup_of(alloc, source, members),
        "fold" => fold_of(alloc, members),
        _ => Ok(Transform::Filter(needed_filter(alloc, members, "filter")?)),
    }
}
