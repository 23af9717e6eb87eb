// Marks, groups and whole specifications.
ghost use Rattle.std.specs.Prelude.{◌≡◌, ◌∷◌, ◌++◌, [], map, codes, IfOk, OnOk};
ghost use Rattle.json_exact.specs.declared.json.Json.{out-Json};
ghost use Rattle.tree_readers.specs.Parts.{object_at};
ghost use Rattle.vega_building.specs.Orders.{sort_of};
ghost use Rattle.vega_building.specs.Channels.{encode_of};
ghost use Rattle.vega_building.specs.Marks.{mark_from_at};
ghost use Rattle.vega_building.specs.Spec.{group_with, mark_with, mark_of, marks_in, marks_at, size_signal, size_in, size_at, spec_with, spec_of};

use crate::marks::mark_from_at;
use crate::names::{named_at, named_or};
use crate::parts;
use crate::parts::expression_at;
use crate::several::{Part, both, filled, four_parts, push_made, six_parts};
use json_exact::{Json, Member};
use std::alloc::Global;
use text_kit::{OutOfMemory, Seq};
use tree_readers::{member_value, members_of, number_at};
use vega_spec::{Encode, Group, MarkFrom, MarkType, Size, Sort, VgMark, VgSpec};

// What a group has, its marks being these.
fn group_with(
    alloc: Global,
    members: &[Member],
    marks: Option<Seq<VgMark>>,
) -> Result<Group, OutOfMemory>
    ensures { IfOk result (λ group. group ≡ group_with members.now marks) }
{
    let layout = parts::object_at(alloc, members, "layout");
    let parts = six_parts(
        alloc, members, "data", "signals", "scales", "axes", "legends", "title",
    );
    let ((layout, marks), parts) = both(both(layout, Ok(marks)), parts)?;
    let (data_, signals, scales, axes, legends, title) = parts;
    Ok(Group {
        data_,
        signals,
        scales,
        layout,
        axes,
        legends,
        title,
        marks,
    })
}

impl Part for Option<MarkFrom> {
    ghost part = { mark_from_at };

    fn part_at(
        alloc: Global,
        members: &[Member],
        name: &str,
    ) -> Result<Option<MarkFrom>, OutOfMemory> {
        mark_from_at(alloc, members, name)
    }
}

impl Part for Option<Encode> {
    ghost part = { object_at encode_of };

    fn part_at(
        alloc: Global,
        members: &[Member],
        name: &str,
    ) -> Result<Option<Encode>, OutOfMemory> {
        parts::object_at(alloc, members, name)
    }
}

impl Part for Option<Sort> {
    ghost part = { object_at sort_of };

    fn part_at(alloc: Global, members: &[Member], name: &str) -> Result<Option<Sort>, OutOfMemory> {
        parts::object_at(alloc, members, name)
    }
}

// A mark, the marks inside it being these.
fn mark_with(
    alloc: Global,
    members: &[Member],
    marks: Option<Seq<VgMark>>,
) -> Result<VgMark, OutOfMemory>
    ensures { IfOk result (λ mark. mark ≡ mark_with members.now marks) }
{
    let group = group_with(alloc, members, marks);
    let own = four_parts(alloc, members, "name", "from", "encode", "sort");
    let (group, (name, from, encode, sort)) = both(group, own)?;
    Ok(VgMark {
        group,
        type_: named_or(members, "type", MarkType::Rect),
        name,
        from,
        encode,
        sort,
    })
}

// Adds the mark of these members, the marks inside it being these. A mark is wide, so it stands on the stack only below here, where
// nothing inside it is read any more.
#[inline(never)]
fn push_mark(
    alloc: Global,
    members: &[Member],
    inside: Option<Seq<VgMark>>,
    marks: &mut Seq<VgMark>,
) -> Result<(), OutOfMemory>
    ensures { OnOk result (marks.new ≡ marks.old ++ mark_with members.now inside ∷ []) }
{
    push_made(marks, mark_with(alloc, members, inside))
}

// Adds the mark that a value is; one that is no object is a mark without members.
#[cycle(marks)]
fn push_mark_of(alloc: Global, tree: &Json, marks: &mut Seq<VgMark>) -> Result<(), OutOfMemory>
    ensures { OnOk result (marks.new ≡ marks.old ++ mark_of tree.now ∷ []) }
{
    match tree {
        Json::Object(members) => push_object_mark(alloc, members.as_slice(), marks),
        Json::Null | Json::Flag(_) | Json::Number(_) | Json::Huge | Json::Text(_) | Json::List(_) =>
            push_mark(alloc, &[], None, marks),
    }
}

// Adds the mark of these members.
#[cycle(marks)]
fn push_object_mark(
    alloc: Global,
    members: &[Member],
    marks: &mut Seq<VgMark>,
) -> Result<(), OutOfMemory>
    ensures { OnOk result (marks.new ≡ marks.old ++ mark_with members.now (marks_at members.now (codes "marks")) ∷ []) }
{
    let inside = marks_at(alloc, members)?;
    push_mark(alloc, members, inside, marks)
}

// Adds the mark that each item is.
#[cycle(marks)]
fn push_marks(alloc: Global, items: &[Json], marks: &mut Seq<VgMark>) -> Result<(), OutOfMemory>
    ensures { OnOk result (marks.new ≡ marks.old ++ map mark_of items.now) }
{
    for tree in items {
        push_mark_of(alloc, tree, marks)?;
    }
    Ok(())
}

// The marks that each item is.
#[cycle(marks)]
fn marks_of(alloc: Global, items: &[Json]) -> Result<Seq<VgMark>, OutOfMemory>
    ensures { IfOk result (λ marks. marks ≡ map mark_of items.now) }
{
    let mut marks = Seq::new(alloc);
    let done = push_marks(alloc, items, &mut marks);
    filled(done, marks)
}

// The marks that a list has.
#[cycle(marks)]
fn marks_in(alloc: Global, tree: &Json) -> Result<Option<Seq<VgMark>>, OutOfMemory>
    ensures { IfOk result (λ marks. marks ≡ marks_in tree.now) }
{
    match tree {
        Json::List(items) => Ok(Some(marks_of(alloc, items.as_slice())?)),
        Json::Null
        | Json::Flag(_)
        | Json::Number(_)
        | Json::Huge
        | Json::Text(_)
        | Json::Object(_) => Ok(None),
    }
}

// The marks under the first member of that name.
#[cycle(marks)]
fn marks_at(alloc: Global, members: &[Member]) -> Result<Option<Seq<VgMark>>, OutOfMemory>
    ensures { IfOk result (λ marks. marks ≡ marks_at members.now (codes "marks")) }
{
    for member in members {
        if member.name.as_str() == "marks" {
            return marks_in(alloc, &member.value);
        }
    }
    Ok(None)
}

// The expression of a width or a height.
fn size_signal(alloc: Global, members: &[Member]) -> Result<Option<Size>, OutOfMemory>
    ensures { IfOk result (λ size. size ≡ size_signal members.now) }
{
    match expression_at(alloc, members, "signal")? {
        Some(e) => Ok(Some(Size::Signal(e))),
        None => Ok(None),
    }
}

// A width or a height: a number, or the value of an expression.
fn size_in(alloc: Global, tree: &Json) -> Result<Option<Size>, OutOfMemory>
    ensures { IfOk result (λ size. size ≡ size_in (out-Json tree.now)) }
{
    match tree {
        Json::Number(number) => Ok(Some(Size::Number(*number))),
        Json::Object(members) => size_signal(alloc, members.as_slice()),
        Json::Null | Json::Flag(_) | Json::Huge | Json::Text(_) | Json::List(_) => Ok(None),
    }
}

// The same under a name.
fn size_at(alloc: Global, members: &[Member], name: &str) -> Result<Option<Size>, OutOfMemory>
    ensures { IfOk result (λ size. size ≡ size_at members.now name.now) }
{
    match member_value(members, name) {
        Some(tree) => size_in(alloc, tree),
        None => Ok(None),
    }
}

impl Part for Option<Size> {
    ghost part = { size_at };

    fn part_at(alloc: Global, members: &[Member], name: &str) -> Result<Option<Size>, OutOfMemory> {
        size_at(alloc, members, name)
    }
}

// The specification of these members.
fn spec_with(alloc: Global, members: &[Member]) -> Result<VgSpec, OutOfMemory>
    ensures { IfOk result (λ g. g ≡ spec_with members.now) }
{
    let marks = marks_at(alloc, members)?;
    let group = group_with(alloc, members, marks);
    let own = four_parts(alloc, members, "$schema", "description", "width", "height");
    let (group, (schema, description, width, height)) = both(group, own)?;
    Ok(VgSpec {
        group,
        schema,
        description,
        width,
        height,
        padding: number_at(members, "padding"),
        autosize: named_at(members, "autosize"),
    })
}

/// The specification that a tree is. Each part is read by its name; where a part is absent or ill-formed, it is as one that isn't
/// there, or empty where it has to be there. The one error is that memory is refused.
pub fn spec_of(alloc: Global, tree: &Json) -> Result<VgSpec, OutOfMemory>
    ensures { IfOk result (λ g. g ≡ spec_of tree.now) }
{
    spec_with(alloc, members_of(tree))
}
