// Filters.
ghost use Rattle.std.specs.Prelude.{◌≡◌, map, IfOk};
ghost use Rattle.std.specs.Option.{option_and_then};
ghost use Rattle.json_exact.specs.Inside.{items_in};
ghost use Rattle.tree_readers.specs.Parts.{found_at};
ghost use Rattle.json_exact.specs.declared.json.Json.{out-Json};
ghost use Rattle.vl_spec.specs.declared.filters.Filter.TheVariants as filter;
ghost use Rattle.vl_building.specs.Inside.{member_gives};
ghost use Rattle.vl_building.specs.Filters.{param_test_of, bound_in, range_in, later_comparison, comparison_of, field_test_of, as_filter};
ghost use Rattle.vl_building.specs.Filters.{filters_given, object_filter, filter_of, filters_of, needed_filter};

use crate::cells::needed_scalar;
use crate::fields::needed_field;
use crate::parts::{Items, expression_or_null, needed_each};
use crate::several::{both, push_made};
use crate::tables::time_unit_at;
use cell_value::Cell;
use expr_syntax::Expr;
use fixed_num::Num;
use json_exact::{Json, Member};
use std::alloc::Global;
use text_kit::{Boxed, OutOfMemory, Seq};
use tree_readers::{has_member, items_at, needed_text};
use vl_spec::{Comparison, FieldTest, Filter, ParamTest};

/// A test by a parameter.
#[tactic(auto, unfolding(crate::specs::Filters::param_test_of))]
pub fn param_test_of(alloc: Global, members: &[Member]) -> Result<ParamTest, OutOfMemory>
    ensures { IfOk result (λ test. test ≡ param_test_of members.now) }
{
    Ok(ParamTest {
        param: needed_text(alloc, members, "param")?,
        empty: tree_readers::flag_at(members, "empty"),
    })
}

/// A bound: a number, or null for none.
pub fn bound_in(tree: &Json) -> Option<Option<Num>>
    ensures { result ≡ bound_in (out-Json tree.now) }
{
    match tree {
        Json::Null => Some(None),
        Json::Number(number) => Some(Some(*number)),
        Json::Flag(_) | Json::Huge | Json::Text(_) | Json::List(_) | Json::Object(_) => None,
    }
}

// From one bound to another, where both are well-formed.
fn range_at(members: &[Member], name: &str) -> Option<Comparison>
    ensures { result ≡ option_and_then range_in (found_at items_in members.now name.now) }
{
    let [low, high] = items_at(members, name)?.as_slice() else {
        return None;
    };
    let low = bound_in(low)?;
    let high = bound_in(high)?;
    Some(Comparison::Range(low, high))
}

// A comparison by one of these members.
#[tactic(auto, unfolding(crate::specs::Filters::later_comparison))]
fn later_comparison(alloc: Global, members: &[Member]) -> Result<Comparison, OutOfMemory>
    ensures { IfOk result (λ comparison. comparison ≡ later_comparison members.now) }
{
    if has_member(members, "gte") {
        Ok(Comparison::MoreSame(needed_scalar(alloc, members, "gte")?))
    } else if has_member(members, "range") {
        Ok(range_at(members, "range").unwrap_or(Comparison::Range(None, None)))
    } else if has_member(members, "oneOf") {
        Ok(Comparison::OneOf(needed_each::<Cell, Items>(alloc, members, "oneOf")?))
    } else {
        Ok(Comparison::Valid(tree_readers::flag_at(members, "valid").unwrap_or(true)))
    }
}

// A comparison, by the first of its members that is there.
#[tactic(auto, unfolding(crate::specs::Filters::comparison_of))]
fn comparison_of(alloc: Global, members: &[Member]) -> Result<Comparison, OutOfMemory>
    ensures { IfOk result (λ comparison. comparison ≡ comparison_of members.now) }
{
    if has_member(members, "equal") {
        Ok(Comparison::Equal(needed_scalar(alloc, members, "equal")?))
    } else if has_member(members, "lt") {
        Ok(Comparison::Less(needed_scalar(alloc, members, "lt")?))
    } else if has_member(members, "lte") {
        Ok(Comparison::LessSame(needed_scalar(alloc, members, "lte")?))
    } else if has_member(members, "gt") {
        Ok(Comparison::More(needed_scalar(alloc, members, "gt")?))
    } else {
        later_comparison(alloc, members)
    }
}

// A test of a field.
#[tactic(auto, unfolding(crate::specs::Filters::field_test_of))]
fn field_test_of(alloc: Global, members: &[Member]) -> Result<Filter, OutOfMemory>
    ensures { IfOk result (λ test. test ≡ filter.Field (field_test_of members.now)) }
{
    let (field, comparison) = both(
        needed_field(alloc, members, "field"),
        comparison_of(alloc, members),
    )?;
    Ok(Filter::Field(FieldTest {
        field,
        time_unit: time_unit_at(members, "timeUnit"),
        comparison,
    }))
}

/// The filter that a value is.
#[cycle(filters)]
#[tactic(auto, unfolding(crate::specs::Filters::text_filter))]
pub fn filter_of(alloc: Global, tree: &Json) -> Result<Filter, OutOfMemory>
    ensures { IfOk result (λ filter. filter ≡ filter_of tree.now) }
{
    match tree {
        Json::Text(text) => Ok(Filter::Expr(expression_or_null(alloc, text.as_str())?)),
        Json::Object(members) => object_filter(alloc, members.as_slice()),
        Json::Null | Json::Flag(_) | Json::Number(_) | Json::Huge | Json::List(_) => Ok(
            Filter::Expr(Expr::Null),
        ),
    }
}

// A filter that is an object, by the first of these members that is there.
#[cycle(filters)]
#[tactic(auto, unfolding(crate::specs::Filters::object_filter))]
fn object_filter(alloc: Global, members: &[Member]) -> Result<Filter, OutOfMemory>
    ensures { IfOk result (λ filter. filter ≡ object_filter members.now (member_gives as_filter members.now)) }
{
    if has_member(members, "and") {
        Ok(Filter::And(filters_at(alloc, members, "and")?))
    } else if has_member(members, "or") {
        Ok(Filter::Or(filters_at(alloc, members, "or")?))
    } else if has_member(members, "not") {
        Ok(Filter::Not(Boxed::new(alloc, needed_filter(alloc, members, "not")?)?))
    } else if has_member(members, "field") {
        field_test_of(alloc, members)
    } else {
        Ok(Filter::Param(param_test_of(alloc, members)?))
    }
}

/// The filter under a name, one that no row passes where there is none.
#[cycle(filters)]
pub fn needed_filter(alloc: Global, members: &[Member], name: &str) -> Result<Filter, OutOfMemory>
    ensures { IfOk result (λ filter. filter ≡ needed_filter members.now name.now) }
{
    for member in members {
        if member.name.as_str() == name {
            return filter_of(alloc, &member.value);
        }
    }
    Ok(Filter::Expr(Expr::Null))
}

// The filters that the items of a value are.
#[cycle(filters)]
fn filters_of(alloc: Global, tree: &Json) -> Result<Seq<Filter>, OutOfMemory>
    ensures { IfOk result (λ filters. filters ≡ filters_of tree.now) }
{
    match tree {
        Json::List(items) => filters_in(alloc, items.as_slice()),
        Json::Null
        | Json::Flag(_)
        | Json::Number(_)
        | Json::Huge
        | Json::Text(_)
        | Json::Object(_) => Ok(Seq::new(alloc)),
    }
}

// The filters that items are.
#[cycle(filters)]
fn filters_in(alloc: Global, items: &[Json]) -> Result<Seq<Filter>, OutOfMemory>
    ensures { IfOk result (λ filters. filters ≡ map filter_of items.now) }
{
    let mut filters = Seq::new(alloc);
    for tree in items {
        push_made(&mut filters, filter_of(alloc, tree))?;
    }
    Ok(filters)
}

// The filters that the items of the list under a name are.
#[cycle(filters)]
fn filters_at(alloc: Global, members: &[Member], name: &str) -> Result<Seq<Filter>, OutOfMemory>
    ensures { IfOk result (λ filters. filters ≡ filters_given (member_gives as_filter members.now name.now)) }
{
    for member in members {
        if member.name.as_str() == name {
            return filters_of(alloc, &member.value);
        }
    }
    Ok(Seq::new(alloc))
}
