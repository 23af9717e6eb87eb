//! The walk through a tree.
ghost use Rattle.std.specs.Prelude.{◌≡◌, ℕ, List, Some, [], ◌∷◌, ◌++◌, drop, map, OnOk};
ghost use Rattle.std.specs.Option.{option_map_or};
ghost use Rattle.json_exact.specs.declared.json.Json.{Json};
ghost use Rattle.spec_schema.specs.Forms.{layout_of};
ghost use Rattle.spec_walk.specs.Walk.{seen_in, list_parts, object_parts, seen_members};
ghost use Rattle.spec_walk.specs.inner.Inside.{inside};

use json_exact::{Json, Member};
use spec_schema::{Form, Layout, Schema, form_of, layout_of, shape_in};
use std::alloc::Global;
use text_kit::OutOfMemory;

/// What visits values. It keeps a trail, of what it noted of the values round the next one, and gathers what its visits give.
pub trait Visitor {
    ghost Note: { Type 0 };

    ghost Part: { Type 0 };

    ghost noted: { ℕ → ℕ → Json → Note };

    ghost visit: { List Note → Json → List Part };

    ghost trail: { Self → List Note };

    ghost gathered: { Self → List Part };

    /// Notes a value at the front of the trail, by its number among its parent's children and its shape, and visits it.
    fn enter(
        &mut self,
        alloc: Global,
        number: usize,
        shape: u16,
        tree: &Json,
    ) -> Result<(), OutOfMemory>
        ensures trail { OnOk result (trail self.new ≡ noted number shape tree.now ∷ trail self.old) }
        ensures gathered { OnOk result (gathered self.new ≡ gathered self.old ++ visit (trail self.new) tree.now) };

    /// Takes the innermost value off the trail.
    fn leave(&mut self)
        ensures trail { trail self.new ≡ drop 1 (trail self.old) }
        ensures gathered { gathered self.new ≡ gathered self.old };
}

/// Visits a value of this number and shape, and what stands inside it, in the order of the text.
#[cycle(walk)]
pub fn walk<V: Visitor>(
    alloc: Global,
    schema: &Schema,
    tree: &Json,
    number: usize,
    shape: u16,
    visitor: &mut V,
) -> Result<(), OutOfMemory>
    ensures trail { OnOk result (V.trail visitor.new ≡ V.trail visitor.old) }
    ensures gathered { OnOk result (V.gathered visitor.new
        ≡ V.gathered visitor.old ++ seen_in schema.now V.noted V.visit tree.now number shape (V.trail visitor.old)) }
{
    let Some(form) = form_of(schema, shape, tree) else {
        return Ok(());
    };
    visitor.enter(alloc, number, shape, tree)?;
    walk_inside(alloc, schema, tree, form, visitor)?;
    visitor.leave();
    Ok(())
}

// Visits what stands inside a value of this form.
#[cycle(walk)]
fn walk_inside<V: Visitor>(
    alloc: Global,
    schema: &Schema,
    tree: &Json,
    form: Form,
    visitor: &mut V,
) -> Result<(), OutOfMemory>
    ensures trail { OnOk result (V.trail visitor.new ≡ V.trail visitor.old) }
    ensures gathered { OnOk result (V.gathered visitor.new
        ≡ V.gathered visitor.old ++ inside schema.now V.noted V.visit tree.now form (V.trail visitor.old)) }
{
    match tree {
        Json::List(items) => walk_list(alloc, schema, items.as_slice(), form.items(), visitor),
        Json::Object(members) => walk_object(alloc, schema, members.as_slice(), form, visitor),
        Json::Null | Json::Flag(_) | Json::Number(_) | Json::Huge | Json::Text(_) => Ok(()),
    }
}

// Visits the items of a list by their shape.
#[cycle(walk)]
fn walk_list<V: Visitor>(
    alloc: Global,
    schema: &Schema,
    items: &[Json],
    shape: Option<u16>,
    visitor: &mut V,
) -> Result<(), OutOfMemory>
    ensures trail { OnOk result (V.trail visitor.new ≡ V.trail visitor.old) }
    ensures gathered { OnOk result (V.gathered visitor.new
        ≡ V.gathered visitor.old ++ list_parts shape (map (seen_in schema.now V.noted V.visit) items.now) (V.trail visitor.old)) }
{
    match shape {
        Some(shape) => walk_items(alloc, schema, items, shape, visitor),
        None => Ok(()),
    }
}

// Visits several items.
#[cycle(walk)]
fn walk_items<V: Visitor>(
    alloc: Global,
    schema: &Schema,
    items: &[Json],
    shape: u16,
    visitor: &mut V,
) -> Result<(), OutOfMemory>
    ensures trail { OnOk result (V.trail visitor.new ≡ V.trail visitor.old) }
    ensures gathered { OnOk result (V.gathered visitor.new
        ≡ V.gathered visitor.old ++ list_parts (Some shape) (map (seen_in schema.now V.noted V.visit) items.now) (V.trail visitor.old)) }
{
    for (number, item) in items.iter().enumerate() {
        walk(alloc, schema, item, number, shape, visitor)?;
    }
    Ok(())
}

// Visits the members of an object by its form.
#[cycle(walk)]
fn walk_object<V: Visitor>(
    alloc: Global,
    schema: &Schema,
    members: &[Member],
    form: Form,
    visitor: &mut V,
) -> Result<(), OutOfMemory>
    ensures trail { OnOk result (V.trail visitor.new ≡ V.trail visitor.old) }
    ensures gathered { OnOk result (V.gathered visitor.new ≡ V.gathered visitor.old
        ++ object_parts (layout_of schema.now form members.now)
        (seen_members schema.now V.noted V.visit members.now) (V.trail visitor.old)) }
{
    match layout_of(schema, form, members) {
        Some(layout) => walk_members(alloc, schema, members, layout, visitor),
        None => Ok(()),
    }
}

// Visits the members of an object by its layout.
#[cycle(walk)]
fn walk_members<V: Visitor>(
    alloc: Global,
    schema: &Schema,
    members: &[Member],
    layout: &Layout,
    visitor: &mut V,
) -> Result<(), OutOfMemory>
    ensures trail { OnOk result (V.trail visitor.new ≡ V.trail visitor.old) }
    ensures gathered { OnOk result (V.gathered visitor.new ≡ V.gathered visitor.old
        ++ object_parts (Some layout.now) (seen_members schema.now V.noted V.visit members.now) (V.trail visitor.old)) }
{
    for (number, member) in members.iter().enumerate() {
        walk_member(
            alloc,
            schema,
            member,
            number,
            shape_in(layout, member.name.as_str()),
            visitor,
        )?;
    }
    Ok(())
}

// Visits a member, where its name has a rule.
#[cycle(walk)]
fn walk_member<V: Visitor>(
    alloc: Global,
    schema: &Schema,
    member: &Member,
    number: usize,
    shape: Option<u16>,
    visitor: &mut V,
) -> Result<(), OutOfMemory>
    ensures trail { OnOk result (V.trail visitor.new ≡ V.trail visitor.old) }
    ensures gathered { OnOk result (V.gathered visitor.new ≡ V.gathered visitor.old
        ++ option_map_or (λ s. seen_in schema.now V.noted V.visit member.now.value number s (V.trail visitor.old)) shape []) }
{
    match shape {
        Some(shape) => walk(alloc, schema, &member.value, number, shape, visitor),
        None => Ok(()),
    }
}
