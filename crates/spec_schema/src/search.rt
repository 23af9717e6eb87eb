//! The first fault of a specification.
ghost use Rattle.std.specs.Prelude.{◌≡◌, Some, map, flat_map, length, IfOk};
ghost use Rattle.std.specs.List.{enumerate_from};
ghost use Rattle.spec_schema.specs.Forms.{layout_of};
ghost use Rattle.spec_schema.specs.Faults.{faults_in, list_faults, object_faults, faults_by, member_faults, is_missing, missing_fault};
ghost use Rattle.spec_schema.specs.Faults.{member_names, judged_members, first};

use crate::fault::{Fault, below, below_number, here};
use crate::form::Form;
use crate::layout::{Layout, Rule, has_name, shape_in};
use crate::schema::{Schema, form_of, layout_of};
use crate::spec_error::SpecKind;
use json_exact::{Json, Member};
use std::alloc::Global;
use text_kit::OutOfMemory;

/// The first fault of a value, in the order of the text, where a value of this shape is asked; None exactly where it has none.
#[cycle(search)]
pub fn first_fault(
    alloc: Global,
    schema: &Schema,
    tree: &Json,
    shape: u16,
) -> Result<Option<Fault>, OutOfMemory>
    ensures { IfOk result (λ f. f ≡ first (faults_in schema.now tree.now shape)) }
{
    let Some(form) = form_of(schema, shape, tree) else {
        return Ok(Some(here(alloc, SpecKind::Wrong)));
    };
    match tree {
        Json::List(items) => first_in_list(alloc, schema, items.as_slice(), form.items()),
        Json::Object(members) => first_in_object(alloc, schema, members.as_slice(), form),
        Json::Null | Json::Flag(_) | Json::Number(_) | Json::Huge | Json::Text(_) => Ok(None),
    }
}

// The first fault of a list by the shape of its items.
#[cycle(search)]
fn first_in_list(
    alloc: Global,
    schema: &Schema,
    items: &[Json],
    shape: Option<u16>,
) -> Result<Option<Fault>, OutOfMemory>
    ensures { IfOk result (λ f. f ≡ first (list_faults shape (map (faults_in schema.now) items.now))) }
{
    match shape {
        Some(shape) => first_in_items(alloc, schema, items, shape),
        None => Ok(None),
    }
}

// The first fault of several items.
#[cycle(search)]
fn first_in_items(
    alloc: Global,
    schema: &Schema,
    items: &[Json],
    shape: u16,
) -> Result<Option<Fault>, OutOfMemory>
    ensures { IfOk result (λ f. f ≡ first (list_faults (Some shape) (map (faults_in schema.now) items.now))) }
{
    for (number, item) in items.iter().enumerate() {
        if let Some(fault) = first_fault(alloc, schema, item, shape)? {
            return Ok(Some(below_number(alloc, number, fault)?));
        }
    }
    Ok(None)
}

// The first fault of an object by its form.
#[cycle(search)]
fn first_in_object(
    alloc: Global,
    schema: &Schema,
    members: &[Member],
    form: Form,
) -> Result<Option<Fault>, OutOfMemory>
    ensures { IfOk result (λ f. f ≡ first
        (object_faults (layout_of schema.now form members.now) (judged_members schema.now members.now))) }
{
    match layout_of(schema, form, members) {
        Some(layout) => first_by_layout(alloc, schema, members, layout),
        None => Ok(None),
    }
}

// The first fault of an object by its layout.
#[cycle(search)]
fn first_by_layout(
    alloc: Global,
    schema: &Schema,
    members: &[Member],
    layout: &Layout,
) -> Result<Option<Fault>, OutOfMemory>
    ensures { IfOk result (λ f. f ≡ first (object_faults (Some layout.now) (judged_members schema.now members.now))) }
{
    if let Some(fault) = first_in_members(alloc, schema, members, layout)? {
        return Ok(Some(fault));
    }
    first_missing(alloc, members, layout.rules.as_slice())
}

// The first fault of several members.
#[cycle(search)]
fn first_in_members(
    alloc: Global,
    schema: &Schema,
    members: &[Member],
    layout: &Layout,
) -> Result<Option<Fault>, OutOfMemory>
    ensures { IfOk result (λ f. f ≡ first
        (flat_map (member_faults layout.now) (enumerate_from 0 (judged_members schema.now members.now)))) }
{
    for (number, member) in members.iter().enumerate() {
        if let Some(fault) = first_in_member(
            alloc,
            schema,
            member,
            shape_in(layout, member.name.as_str()),
        )? {
            return Ok(Some(below(alloc, number, member.name.as_str(), fault)?));
        }
    }
    Ok(None)
}

// The first fault of a member, seen from its value.
#[cycle(search)]
fn first_in_member(
    alloc: Global,
    schema: &Schema,
    member: &Member,
    shape: Option<u16>,
) -> Result<Option<Fault>, OutOfMemory>
    ensures { IfOk result (λ f. f ≡ first (faults_by shape (faults_in schema.now member.now.value))) }
{
    match shape {
        Some(shape) => first_fault(alloc, schema, &member.value, shape),
        None => Ok(Some(here(alloc, SpecKind::Unsupported))),
    }
}

// Whether a member has to be there and isn't.
fn is_missing(members: &[Member], rule: &Rule) -> bool
    ensures { result ≡ is_missing (member_names members.now) rule.now }
{
    rule.required && !has_name(members, rule.name.as_str())
}

// The first of the members that have to be there and aren't.
fn first_missing(
    alloc: Global,
    members: &[Member],
    rules: &[Rule],
) -> Result<Option<Fault>, OutOfMemory>
    ensures { IfOk result (λ f. f ≡ first
        (flat_map (missing_fault (member_names members.now)) (enumerate_from (length members.now) rules.now))) }
{
    for (number, rule) in rules.iter().enumerate() {
        if is_missing(members, rule) {
            let missing = here(alloc, SpecKind::Missing);
            return Ok(Some(below(alloc, members.len() + number, rule.name.as_str(), missing)?));
        }
    }
    Ok(None)
}
