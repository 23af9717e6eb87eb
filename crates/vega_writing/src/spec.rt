// The trees of marks, groups and whole specifications.
ghost use Rattle.std.specs.Prelude.{◌≡◌, ◌++◌, IfOk, OnOk, map, option_map};
ghost use Rattle.vega_writing.specs.Spec.{autosize_tree, size_tree, group_slots, mark_tree, own_slots, tree_of};
ghost use Rattle.vega_writing.specs.inner.Marks.{group_with, mark_with};
ghost use Rattle.json_exact.specs.declared.json.Json.TheVariants as json;

use crate::several::{list_of, there};
use crate::slots::{Slot, joined, no_slots, object, with, with_if, with_tree_if};
use crate::trees::{Written, computed_tree, word};
use json_exact::Json;
use std::alloc::Global;
use text_kit::{OutOfMemory, Seq};
use vega_spec::{Autosize, Group, Size, VgMark, VgSpec};

/// The tree of a specification: each object as its members that are there, in the order of the table of members. A code that stands
/// for nothing is written as the empty text.
pub fn tree_of(alloc: Global, g: &VgSpec) -> Result<Json, OutOfMemory>
    ensures { IfOk result (λ tree. tree ≡ tree_of g.now) }
{
    let slots = group_slots(alloc, &g.group);
    object(alloc, joined(slots, own_slots(alloc, g)))
}

// The members that the whole alone has.
#[tactic(auto, unfolding(crate::specs::Spec::own_slots))]
fn own_slots(alloc: Global, g: &VgSpec) -> Result<Seq<Slot>, OutOfMemory>
    ensures { IfOk result (λ slots. slots ≡ own_slots g.now) }
{
    let slots = no_slots(alloc);
    let slots = with_if(alloc, slots, "$schema", &g.schema);
    let slots = with_if(alloc, slots, "description", &g.description);
    let slots = with_if(alloc, slots, "width", &g.width);
    let slots = with_if(alloc, slots, "height", &g.height);
    let slots = with_if(alloc, slots, "padding", &g.padding);
    with_if(alloc, slots, "autosize", &g.autosize)
}

// The members that the whole and a group have in common, from the tree of the marks inside.
#[tactic(auto, unfolding(crate::specs::Spec::group_slots_here))]
fn group_with(
    alloc: Global,
    group: &Group,
    marks: Result<Option<Json>, OutOfMemory>,
) -> Result<Seq<Slot>, OutOfMemory>
    ensures { (trees : _) → IfOk marks (λ given. given ≡ option_map json.List trees) → IfOk result (λ slots. slots ≡ group_with group.now trees) }
{
    let slots = no_slots(alloc);
    let slots = with_if(alloc, slots, "data", &group.data_);
    let slots = with_if(alloc, slots, "signals", &group.signals);
    let slots = with_if(alloc, slots, "scales", &group.scales);
    let slots = with_if(alloc, slots, "layout", &group.layout);
    let slots = with_tree_if(alloc, slots, "marks", marks);
    let slots = with_if(alloc, slots, "axes", &group.axes);
    let slots = with_if(alloc, slots, "legends", &group.legends);
    with_if(alloc, slots, "title", &group.title)
}

// A mark, from the members that it has as a group.
#[tactic(auto, unfolding(crate::specs::Spec::mark_slots))]
fn mark_with(
    alloc: Global,
    mark: &VgMark,
    inside: Result<Seq<Slot>, OutOfMemory>,
) -> Result<Json, OutOfMemory>
    ensures { (made : _) → IfOk inside (λ given. given ≡ made) → IfOk result (λ tree. tree ≡ mark_with mark.now made) }
{
    let slots = no_slots(alloc);
    let slots = with(alloc, slots, "type", &mark.type_);
    let slots = with_if(alloc, slots, "name", &mark.name);
    let slots = with_if(alloc, slots, "from", &mark.from);
    let slots = with_if(alloc, slots, "encode", &mark.encode);
    let slots = with_if(alloc, slots, "sort", &mark.sort);
    object(alloc, joined(slots, inside))
}

// The members that the whole and a group have in common.
#[cycle(marks)]
fn group_slots(alloc: Global, group: &Group) -> Result<Seq<Slot>, OutOfMemory>
    ensures { IfOk result (λ slots. slots ≡ group_slots group.now) }
{
    match &group.marks {
        Some(marks) => {
            let tree = marks_tree(alloc, marks.as_slice());
            group_with(alloc, group, there(tree))
        }
        None => group_with(alloc, group, Ok(None)),
    }
}

// Adds the trees of some marks.
#[cycle(marks)]
fn push_marks(alloc: Global, marks: &[VgMark], items: &mut Seq<Json>) -> Result<(), OutOfMemory>
    ensures { OnOk result (items.new ≡ items.old ++ map mark_tree marks.now) }
{
    for mark in marks {
        items.push(mark_tree(alloc, mark)?)?;
    }
    Ok(())
}

// Some marks.
#[cycle(marks)]
fn marks_tree(alloc: Global, marks: &[VgMark]) -> Result<Json, OutOfMemory>
    ensures { IfOk result (λ tree. tree ≡ json.List (map mark_tree marks.now)) }
{
    let mut items = Seq::new(alloc);
    let done = push_marks(alloc, marks, &mut items);
    list_of(done, items)
}

// A mark.
#[cycle(marks)]
fn mark_tree(alloc: Global, mark: &VgMark) -> Result<Json, OutOfMemory>
    ensures { IfOk result (λ tree. tree ≡ mark_tree mark.now) }
{
    let inside = group_slots(alloc, &mark.group);
    mark_with(alloc, mark, inside)
}

impl Written for Size {
    ghost tree = { size_tree };

    #[tactic(auto, unfolding(crate::specs::Spec::size_tree))]
    fn tree(&self, alloc: Global) -> Result<Json, OutOfMemory> {
        match self {
            Size::Number(number) => number.tree(alloc),
            Size::Signal(e) => computed_tree(alloc, e),
        }
    }
}

impl Written for Autosize {
    ghost tree = { autosize_tree };

    #[tactic(auto, unfolding(crate::specs::Spec::autosize_tree))]
    fn tree(&self, alloc: Global) -> Result<Json, OutOfMemory> {
        match self {
            Autosize::Pad => word(alloc, "pad"),
        }
    }
}
