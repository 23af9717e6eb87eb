//! Parts that several rules give.
ghost use Rattle.std.specs.Prelude.{◌≡◌, ◌++◌, ◌∷◌, [], map, reverse, OnOk};
ghost use Rattle.vega_parts.specs.declared.part.Part.TheVariants.{Fault};
ghost use Rattle.vega_parts.specs.Trails.{place_of, scope_of};
ghost use Rattle.vega_parts.specs.Names.{given, used, used_member, fault_member, used_item, used_items, used_names};

use crate::around::{Around, child, grandchild, place_of, scope_of};
use crate::members::{member_at, text_at, text_in};
use crate::part::{Given, GivenName, Part, Place, Used, UsedName};
use crate::several::{beside, both};
use json_exact::Json;
use spec_schema::SpecKind;
use std::alloc::Global;
use text_kit::{OutOfMemory, Seq, Text};

/// Adds a name that is given.
pub fn push_given(
    alloc: Global,
    kind: Given,
    scope: Place,
    of: Place,
    at: Place,
    name: &str,
    out: &mut Seq<Part>,
) -> Result<(), OutOfMemory>
    ensures { OnOk result (out.new ≡ out.old ++ given kind scope of at name.now ∷ []) }
{
    let ((scope, of, at), name) = beside((scope, of, at), Text::of(alloc, name))?;
    out.push(Part::Given(GivenName {
        kind,
        scope,
        of,
        at,
        name,
        scale: None,
    }))
}

/// Adds a name that is used.
pub fn push_used(
    alloc: Global,
    kind: Used,
    scope: Place,
    at: Place,
    name: &str,
    out: &mut Seq<Part>,
) -> Result<(), OutOfMemory>
    ensures { OnOk result (out.new ≡ out.old ++ used kind scope at name.now ∷ []) }
{
    let ((scope, at), name) = beside((scope, at), Text::of(alloc, name))?;
    out.push(Part::Used(UsedName {
        kind,
        scope,
        at,
        name,
    }))
}

/// Adds what a member of this name uses, where it is a text.
pub fn push_used_member(
    alloc: Global,
    kind: Used,
    name: &str,
    trail: &[Around],
    tree: &Json,
    out: &mut Seq<Part>,
) -> Result<(), OutOfMemory>
    ensures { OnOk result (out.new ≡ out.old ++ used_member kind name.now (reverse trail.now) tree.now) }
{
    match text_at(tree, name) {
        Some((number, text)) => {
            let (scope, at) = both(scope_of(alloc, trail), child(alloc, trail, number))?;
            push_used(alloc, kind, scope, at, text, out)
        }
        None => Ok(()),
    }
}

/// Adds the fault that a member of this name is, where there is one.
pub fn push_fault_member(
    alloc: Global,
    kind: SpecKind,
    name: &str,
    trail: &[Around],
    tree: &Json,
    out: &mut Seq<Part>,
) -> Result<(), OutOfMemory>
    ensures { OnOk result (out.new ≡ out.old ++ fault_member kind name.now (reverse trail.now) tree.now) }
{
    match member_at(tree, name) {
        Some((number, _)) => push_fault(child(alloc, trail, number)?, kind, out),
        None => Ok(()),
    }
}

/// Adds a fault.
pub fn push_fault(at: Place, kind: SpecKind, out: &mut Seq<Part>) -> Result<(), OutOfMemory>
    ensures { OnOk result (out.new ≡ out.old ++ Fault at kind ∷ []) }
{
    out.push(Part::Fault { at, kind })
}

// Adds what an item of the list at a child uses, where it is a text.
fn push_used_item(
    alloc: Global,
    kind: Used,
    object: &[Around],
    trail: &[Around],
    number: usize,
    inner: usize,
    item: &Json,
    out: &mut Seq<Part>,
) -> Result<(), OutOfMemory>
    ensures { OnOk result (out.new ≡ out.old ++ used_item kind (reverse object.now) (reverse trail.now) number (inner, item.now)) }
{
    match text_in(item) {
        Some(name) => {
            let (scope, at) = both(
                place_of(alloc, object),
                grandchild(alloc, trail, number, inner),
            )?;
            push_used(alloc, kind, scope, at, name, out)
        }
        None => Ok(()),
    }
}

/// Adds what the items of the list at a child use, those that are texts.
pub fn push_used_items(
    alloc: Global,
    kind: Used,
    object: &[Around],
    trail: &[Around],
    number: usize,
    items: &[Json],
    out: &mut Seq<Part>,
) -> Result<(), OutOfMemory>
    ensures { OnOk result (out.new ≡ out.old ++ used_items kind (reverse object.now) (reverse trail.now) number items.now) }
{
    for (inner, item) in items.iter().enumerate() {
        push_used_item(alloc, kind, object, trail, number, inner, item, out)?;
    }
    Ok(())
}

// Adds a name that a value itself uses.
fn push_used_name(
    alloc: Global,
    kind: Used,
    trail: &[Around],
    name: &str,
    out: &mut Seq<Part>,
) -> Result<(), OutOfMemory>
    ensures { OnOk result (out.new ≡ out.old ++ used kind (scope_of (reverse trail.now)) (place_of (reverse trail.now)) name.now ∷ []) }
{
    let (scope, at) = both(scope_of(alloc, trail), place_of(alloc, trail))?;
    push_used(alloc, kind, scope, at, name, out)
}

/// Adds names that a value itself uses.
pub fn push_used_names(
    alloc: Global,
    kind: Used,
    trail: &[Around],
    names: &[&str],
    out: &mut Seq<Part>,
) -> Result<(), OutOfMemory>
    ensures { OnOk result (out.new ≡ out.old ++ used_names kind (reverse trail.now) (map (λ n. n.now) names.now)) }
{
    for name in names {
        push_used_name(alloc, kind, trail, name, out)?;
    }
    Ok(())
}
