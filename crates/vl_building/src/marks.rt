// Marks, parameters and selections.
ghost use Rattle.std.specs.Prelude.{◌≡◌, Some, IfOk};
ghost use Rattle.vl_spec.specs.declared.marks.Mark.TheVariants as mark;
ghost use Rattle.vl_spec.specs.declared.params.Select.TheVariants as select;
ghost use Rattle.vl_spec.specs.declared.params.ParamKind.TheVariants as kind;
ghost use Rattle.vl_building.specs.Marks.{sign_size_at, mark_definition_of, mark_at, clear_in, toggle_in, select_definition_of};
ghost use Rattle.vl_building.specs.Marks.{select_in, selection_of, param_kind_of, param_of};

use crate::fields::Fields;
use crate::names::{ByName, named_at, select_event_at};
use crate::numbers::{count_between, number_between};
use crate::parts;
use crate::parts::{Items, Plain, Value, each_at, needed_expression, plain_at};
use crate::several::{Part, both};
use crate::tables::channels_at;
use cell_value::Cell;
use fixed_num::Num;
use json_exact::{Json, Member};
use std::alloc::Global;
use text_kit::{OutOfMemory, Text};
use tree_readers::{cell_at, flag_at, has_member, member_value, needed_text, text_at};
use vl_spec::{
    Clear, LEAST_COUNT, LEAST_SHIFT, MOST_COUNT, MOST_LOOK, MOST_SHARE, MOST_SHIFT, Mark,
    MarkDefinition, MarkType, ParamKind, ParamOf, Select, SelectDefinition, SelectType, Selection,
    Toggle,
};

// The size of a sign, under a name; other marks have none.
fn sign_size_at(type_: MarkType, members: &[Member], name: &str) -> Option<Num>
    ensures { result ≡ sign_size_at type_ members.now name.now }
{
    match type_ {
        MarkType::Point | MarkType::Circle | MarkType::Square => number_between(
            members, name, 0, MOST_LOOK,
        ),
        MarkType::Bar
        | MarkType::Rect
        | MarkType::Line
        | MarkType::Area
        | MarkType::Tick
        | MarkType::Rule
        | MarkType::Text => None,
    }
}

// The type and the look of a mark.
#[tactic(auto, unfolding(crate::specs::Marks::mark_definition_of))]
fn mark_definition_of(members: &[Member]) -> Result<Option<Mark>, OutOfMemory>
    ensures { IfOk result (λ of. of ≡ Some (mark.Definition (mark_definition_of members.now))) }
{
    let type_ = named_at(members, "type").unwrap_or(MarkType::Bar);
    Ok(Some(Mark::Definition(MarkDefinition {
        color: text_at(members, "color")?,
        type_,
        opacity: number_between(members, "opacity", 0, MOST_SHARE),
        filled: flag_at(members, "filled"),
        point: flag_at(members, "point"),
        size: sign_size_at(type_, members, "size"),
        stroke_width: number_between(members, "strokeWidth", 0, MOST_LOOK),
        align: named_at(members, "align"),
        baseline: named_at(members, "baseline"),
        dx: number_between(members, "dx", LEAST_SHIFT, MOST_SHIFT),
        dy: number_between(members, "dy", LEAST_SHIFT, MOST_SHIFT),
        font_size: count_between(members, "fontSize", LEAST_COUNT, MOST_COUNT),
        interpolate: named_at(members, "interpolate"),
    })))
}

// A mark: the name of its type, or an object.
impl Part for Option<Mark> {
    ghost part = { mark_at };

    fn part_at(_: Global, members: &[Member], name: &str) -> Result<Option<Mark>, OutOfMemory> {
        match member_value(members, name) {
            Some(Json::Text(text)) => match MarkType::by_name(text.as_str()) {
                Some(type_) => Ok(Some(Mark::Type(type_))),
                None => Ok(None),
            },
            Some(Json::Object(members)) => mark_definition_of(members.as_slice()),
            Some(Json::Null | Json::Flag(_) | Json::Number(_) | Json::Huge | Json::List(_))
            | None => Ok(None),
        }
    }
}

// The event that clears a selection.
impl Plain for Clear {
    ghost plain = { clear_in };

    fn of_plain(tree: &Json) -> Option<Clear> {
        match tree {
            Json::Flag(true) => Some(Clear::True),
            Json::Text(text) => {
                if text.as_str() == "dblclick" {
                    Some(Clear::DoubleClick)
                } else {
                    None
                }
            }
            Json::Null
            | Json::Flag(false)
            | Json::Number(_)
            | Json::Huge
            | Json::List(_)
            | Json::Object(_) => None,
        }
    }
}

// The event that toggles one.
impl Plain for Toggle {
    ghost plain = { toggle_in };

    fn of_plain(tree: &Json) -> Option<Toggle> {
        match tree {
            Json::Flag(true) => Some(Toggle::True),
            Json::Text(text) => {
                if text.as_str() == "event.shiftKey" {
                    Some(Toggle::ShiftKey)
                } else {
                    None
                }
            }
            Json::Null
            | Json::Flag(false)
            | Json::Number(_)
            | Json::Huge
            | Json::List(_)
            | Json::Object(_) => None,
        }
    }
}

// The type of a selection, what it keeps and when it changes.
#[tactic(auto, unfolding(crate::specs::Marks::select_definition_of))]
fn select_definition_of(alloc: Global, members: &[Member]) -> Result<Option<Select>, OutOfMemory>
    ensures { IfOk result (λ of. of ≡ Some (select.Definition (select_definition_of members.now))) }
{
    let type_ = named_at(members, "type").unwrap_or(SelectType::Point);
    let (encodings, fields) = both(
        channels_at(alloc, members, "encodings"),
        each_at::<Text, Fields>(alloc, members, "fields"),
    )?;
    Ok(Some(Select::Definition(SelectDefinition {
        type_,
        fields,
        encodings,
        on: select_event_at(members, type_, "on"),
        clear: plain_at(members, "clear"),
        toggle: plain_at(members, "toggle"),
    })))
}

// What a selection keeps: the name of its type, or an object.
impl Value for Select {
    ghost read = { select_in };

    fn of_value(alloc: Global, tree: &Json) -> Result<Option<Select>, OutOfMemory> {
        match tree {
            Json::Text(text) => match SelectType::by_name(text.as_str()) {
                Some(type_) => Ok(Some(Select::Type(type_))),
                None => Ok(None),
            },
            Json::Object(members) => select_definition_of(alloc, members.as_slice()),
            Json::Null | Json::Flag(_) | Json::Number(_) | Json::Huge | Json::List(_) => Ok(None),
        }
    }
}

// A selection.
#[tactic(auto, unfolding(crate::specs::Marks::selection_of))]
fn selection_of(alloc: Global, members: &[Member]) -> Result<ParamKind, OutOfMemory>
    ensures { IfOk result (λ of. of ≡ kind.Select (selection_of members.now)) }
{
    let (views, select) = both(
        each_at::<Text, Items>(alloc, members, "views"),
        parts::found_at(alloc, members, "select"),
    )?;
    Ok(ParamKind::Select(Selection {
        views,
        select: select.unwrap_or(Select::Type(SelectType::Point)),
    }))
}

// What a parameter is, by the first of these members that is there.
#[tactic(auto, unfolding(crate::specs::Marks::param_kind_of))]
fn param_kind_of(alloc: Global, members: &[Member]) -> Result<ParamKind, OutOfMemory>
    ensures { IfOk result (λ kind. kind ≡ param_kind_of members.now) }
{
    if has_member(members, "select") {
        selection_of(alloc, members)
    } else if has_member(members, "expr") {
        Ok(ParamKind::Expr(needed_expression(alloc, members, "expr")?))
    } else {
        Ok(ParamKind::Value(cell_at(members, "value")?.unwrap_or(Cell::Null)))
    }
}

/// A parameter.
#[tactic(auto, unfolding(crate::specs::Marks::param_of))]
pub fn param_of(alloc: Global, members: &[Member]) -> Result<ParamOf, OutOfMemory>
    ensures { IfOk result (λ param. param ≡ param_of members.now) }
{
    let (name, kind) = both(
        needed_text(alloc, members, "name"),
        param_kind_of(alloc, members),
    )?;
    Ok(ParamOf { name, kind })
}
