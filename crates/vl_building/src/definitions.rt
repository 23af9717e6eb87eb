// Definitions of channels, apart from their conditions.
ghost use Rattle.std.specs.Prelude.{◌≡◌, Some, IfOk};
ghost use Rattle.vl_spec.specs.declared.orders.Sort.TheVariants as sort;
ghost use Rattle.vl_spec.specs.declared.definitions.Definition.TheVariants as variant;
ghost use Rattle.vl_building.specs.Definitions.{bin_settings_of, bin_in, sort_named, field_sort_of, sort_at, stacking_in, datum_definition_of};
ghost use Rattle.vl_building.specs.Definitions.{field_definition_of, definition_of};

use crate::cells::needed_scalar;
use crate::fields::field_at;
use crate::names::{ByName, named_at};
use crate::numbers::{count_between, number_between};
use crate::parts;
use crate::parts::{Items, Object, Plain, each, plain_at};
use crate::several::{Part, all_four, all_three, three_parts, two_parts};
use crate::tables::{operation_at, time_unit_at};
use crate::words::first_among;
use cell_value::Cell;
use json_exact::{Json, Member};
use std::alloc::Global;
use text_kit::OutOfMemory;
use tree_readers::member_value;
use vl_spec::{
    Bin, BinSettings, DatumDefinition, Definition, FieldDefinition, FieldSort, LEAST_COUNT,
    MOST_COUNT, MOST_NUMBER, MOST_SPACE, OVER_ZERO, Offset, Order, Sort, Stacking,
};

/// In which way a field is put into bins.
#[tactic(auto, unfolding(crate::specs::Definitions::bin_settings_of))]
pub fn bin_settings_of(members: &[Member]) -> BinSettings
    ensures { result ≡ bin_settings_of members.now }
{
    BinSettings {
        maxbins: count_between(members, "maxbins", LEAST_COUNT, MOST_COUNT),
        step: number_between(members, "step", OVER_ZERO, MOST_NUMBER),
    }
}

// How a field is put into bins.
impl Plain for Bin {
    ghost plain = { bin_in };

    fn of_plain(tree: &Json) -> Option<Bin> {
        match tree {
            Json::Flag(flag) => Some(Bin::Flag(*flag)),
            Json::Object(members) => Some(Bin::Settings(bin_settings_of(members.as_slice()))),
            Json::Null | Json::Number(_) | Json::Huge | Json::Text(_) | Json::List(_) => None,
        }
    }
}

// An order that is a text.
#[tactic(auto, unfolding(crate::specs::Definitions::sort_named))]
fn sort_named(name: &str) -> Option<Sort>
    ensures { result ≡ sort_named name.now }
{
    match name {
        "ascending" => Some(Sort::Cells(Order::Ascending)),
        "descending" => Some(Sort::Cells(Order::Descending)),
        "x" => Some(Sort::X(Order::Ascending)),
        "-x" => Some(Sort::X(Order::Descending)),
        "y" => Some(Sort::Y(Order::Ascending)),
        "-y" => Some(Sort::Y(Order::Descending)),
        _ => None,
    }
}

// An order by an aggregate of a field.
#[tactic(auto, unfolding(crate::specs::Definitions::field_sort_of))]
fn field_sort_of(alloc: Global, members: &[Member]) -> Result<Option<Sort>, OutOfMemory>
    ensures { IfOk result (λ order. order ≡ Some (sort.Field (field_sort_of members.now))) }
{
    let op = operation_at(members, "op");
    let order = named_at(members, "order");
    Ok(Some(Sort::Field(FieldSort {
        field: field_at(alloc, members, "field")?,
        op,
        order,
    })))
}

// How the cells of a channel stand.
impl Part for Option<Sort> {
    ghost part = { sort_at };

    fn part_at(alloc: Global, members: &[Member], name: &str) -> Result<Option<Sort>, OutOfMemory> {
        match member_value(members, name) {
            Some(Json::Null) => Ok(Some(Sort::Null)),
            Some(Json::Text(text)) => Ok(sort_named(text.as_str())),
            Some(Json::List(items)) => Ok(Some(Sort::Listed(each::<Json, Cell, Items>(
                alloc,
                items.as_slice(),
            )?))),
            Some(Json::Object(members)) => field_sort_of(alloc, members.as_slice()),
            Some(Json::Flag(_) | Json::Number(_) | Json::Huge) | None => Ok(None),
        }
    }
}

// How a channel is stacked.
impl Plain for Stacking {
    ghost plain = { stacking_in };

    fn of_plain(tree: &Json) -> Option<Stacking> {
        match tree {
            Json::Null => Some(Stacking::Null),
            Json::Flag(flag) => Some(Stacking::Flag(*flag)),
            Json::Text(text) => Some(Stacking::Offset(Offset::by_name(text.as_str())?)),
            Json::Number(_) | Json::Huge | Json::List(_) | Json::Object(_) => None,
        }
    }
}

// A cell that is written, on a scale.
#[tactic(auto, unfolding(crate::specs::Definitions::datum_definition_of))]
fn datum_definition_of(alloc: Global, members: &[Member]) -> Result<Definition, OutOfMemory>
    ensures { IfOk result (λ definition. definition ≡ variant.Datum (datum_definition_of members.now)) }
{
    let (datum, (title, legend), (axis, scale)) = all_three(
        needed_scalar(alloc, members, "datum"),
        two_parts(alloc, members, "title", "legend"),
        two_parts(alloc, members, "axis", "scale"),
    )?;
    Ok(Definition::Datum(DatumDefinition {
        datum,
        type_: named_at(members, "type"),
        scale,
        axis,
        legend,
        title,
    }))
}

// The cells of a field, or what is made of it.
#[tactic(auto, unfolding(crate::specs::Definitions::field_definition_of))]
fn field_definition_of(alloc: Global, members: &[Member]) -> Result<Definition, OutOfMemory>
    ensures { IfOk result (λ definition. definition ≡ variant.Field (field_definition_of members.now)) }
{
    let (header, field, (title, format, legend), (axis, sort, scale)) = all_four(
        parts::object_at(alloc, members, "header"),
        field_at(alloc, members, "field"),
        three_parts(alloc, members, "title", "format", "legend"),
        three_parts(alloc, members, "axis", "sort", "scale"),
    )?;
    Ok(Definition::Field(FieldDefinition {
        field,
        type_: named_at(members, "type"),
        aggregate: operation_at(members, "aggregate"),
        bin: plain_at(members, "bin"),
        time_unit: time_unit_at(members, "timeUnit"),
        title,
        sort,
        scale,
        stack: plain_at(members, "stack"),
        axis,
        legend,
        header,
        format,
        columns: count_between(members, "columns", LEAST_COUNT, MOST_COUNT),
        spacing: number_between(members, "spacing", 0, MOST_SPACE),
    }))
}

// The members of which the first decides what a definition is.
const KINDS: [&str; 6] = ["value", "datum", "field", "aggregate", "bin", "timeUnit"];

// What a channel shows, by its first deciding member.
impl Object for Definition {
    ghost built = { definition_of };

    #[tactic(auto, unfolding(crate::specs::Definitions::definition_of, crate::specs::Definitions::definition_by, crate::specs::Definitions::is_channel_kind))]
    fn of_members(alloc: Global, members: &[Member]) -> Result<Definition, OutOfMemory> {
        match first_among(members, &KINDS, "") {
            "value" => Ok(Definition::Value(needed_scalar(alloc, members, "value")?)),
            "datum" => datum_definition_of(alloc, members),
            _ => field_definition_of(alloc, members),
        }
    }
}
