//! The names that data and views give.
ghost use Rattle.std.specs.Prelude.{◌≡◌, [], ◌∷◌, ◌++◌, codes, flat_map, map, IfOk, OnOk};
ghost use Rattle.std.specs.Option.{option_copied, option_to_list};
ghost use Rattle.std.specs.List.{enumerate_from};
ghost use Rattle.vl_names.specs.Given.{data_given, datasets_of, given_at, given_by_data, given_by_dataset, given_by_transform, given_as};
ghost use Rattle.vl_names.specs.Given.{given_by_view, given_if, looked_up, name_given, name_trail, views_given};
ghost use Rattle.vl_names.specs.inner.Shown.{view_shown};
ghost use Rattle.vl_trails.specs.Trails.{to_item as item_trail, to_member as member_trail};

use crate::trails::{copied_trail, to_item, to_member};
use crate::unknown::transforms_in;
use crate::views::ViewHere;
use json_exact::{Json, Member};
use spec_walk::Step;
use std::alloc::Global;
use text_kit::{OutOfMemory, Seq, Text};
use tree_readers::{has_member, members_of, needed_members};
use vl_spec::Transform;
use vl_trails::members_at;

/// A name that is given.
pub struct Given {
    /// The name.
    pub name: Text,
    /// The steps from the top to where it is given.
    pub trail: Seq<Step>,
}

impl Drop for Given {
    fn drop(self) {
        let Given { name: _, trail: _ } = self;
    }
}

// Adds the name that data gives which has these members.
fn push_by_data(
    alloc: Global,
    name: &Text,
    trail: &[Step],
    members: &[Member],
    out: &mut Seq<Given>,
) -> Result<(), OutOfMemory>
    ensures { OnOk result (out.new ≡ out.old ++ given_by_data name.now trail.now members.now) }
{
    if has_member(members, "values") || has_member(members, "url") {
        let trail = named_trail(alloc, trail, members)?;
        let name = name.copy()?;
        out.push(Given { name, trail })
    } else {
        Ok(())
    }
}

// Where data gives its name: at its `name`, or where it has none at itself.
fn named_trail(alloc: Global, trail: &[Step], members: &[Member]) -> Result<Seq<Step>, OutOfMemory>
    ensures { IfOk result (λ at. at ≡ name_trail trail.now members.now) }
{
    if has_member(members, "name") {
        to_member(alloc, trail, "name")
    } else {
        copied_trail(alloc, trail)
    }
}

// Adds the name that data at the end of a trail gives.
fn push_at(
    alloc: Global,
    tree: &Json,
    trail: &[Step],
    name: &Text,
    out: &mut Seq<Given>,
) -> Result<(), OutOfMemory>
    ensures { OnOk result (out.new ≡ out.old ++ given_at tree.now trail.now name.now) }
{
    match members_at(alloc, tree, trail)? {
        Some(members) => push_by_data(alloc, name, trail, members, out),
        None => Ok(()),
    }
}

// Adds the name that data in an object gives, by the name of its source.
fn push_under(
    alloc: Global,
    tree: &Json,
    outer: &[Step],
    name: &Text,
    out: &mut Seq<Given>,
) -> Result<(), OutOfMemory>
    ensures { OnOk result (out.new ≡ out.old ++ given_at tree.now (member_trail outer.now (codes "data")) name.now) }
{
    let trail = to_member(alloc, outer, "data")?;
    push_at(alloc, tree, trail.as_slice(), name, out)
}

// The name of the source in which a transform looks up.
fn looked_up(transform: &Transform) -> Option<&Text>
    ensures { option_copied result ≡ looked_up transform.now }
{
    match transform {
        Transform::Lookup(of) => of.from.data_.as_ref(),
        Transform::Filter(_)
        | Transform::Calculate(_)
        | Transform::Bin(_)
        | Transform::TimeUnit(_)
        | Transform::Aggregate(_)
        | Transform::JoinAggregate(_)
        | Transform::Stack(_)
        | Transform::Window(_)
        | Transform::Fold(_) => None,
    }
}

// Adds the name that the data of a lookup gives, where its transform has this number.
fn push_lookup(
    alloc: Global,
    tree: &Json,
    transforms: &[Step],
    number: usize,
    name: &Text,
    out: &mut Seq<Given>,
) -> Result<(), OutOfMemory>
    ensures { OnOk result (out.new
        ≡ out.old ++ given_at tree.now (member_trail (member_trail (item_trail transforms.now number) (codes "from")) (codes "data")) name.now) }
{
    let item = to_item(alloc, transforms, number)?;
    let from = to_member(alloc, item.as_slice(), "from")?;
    push_under(alloc, tree, from.as_slice(), name, out)
}

// Adds the name that the data of a transform gives.
fn push_by_transform(
    alloc: Global,
    tree: &Json,
    transforms: &[Step],
    number: usize,
    transform: &Transform,
    out: &mut Seq<Given>,
) -> Result<(), OutOfMemory>
    ensures { OnOk result (out.new ≡ out.old ++ given_by_transform tree.now transforms.now (number, transform.now)) }
{
    match looked_up(transform) {
        Some(name) => push_lookup(alloc, tree, transforms, number, name, out),
        None => Ok(()),
    }
}

// Adds those of the transforms of a list.
fn push_by_transforms(
    alloc: Global,
    tree: &Json,
    trail: &[Step],
    transforms: &[Transform],
    out: &mut Seq<Given>,
) -> Result<(), OutOfMemory>
    ensures { OnOk result (out.new ≡ out.old ++ flat_map (given_by_transform tree.now trail.now) (enumerate_from 0 transforms.now)) }
{
    for (number, transform) in transforms.iter().enumerate() {
        push_by_transform(alloc, tree, trail, number, transform, out)?;
    }
    Ok(())
}

// Adds the name that the data of a view gives.
fn push_own(
    alloc: Global,
    tree: &Json,
    trail: &[Step],
    source: &Option<Text>,
    out: &mut Seq<Given>,
) -> Result<(), OutOfMemory>
    ensures { OnOk result (out.new ≡ out.old ++ given_if tree.now (member_trail trail.now (codes "data")) source.now) }
{
    match source {
        Some(name) => push_under(alloc, tree, trail, name, out),
        None => Ok(()),
    }
}

// Adds the names that the data of a view and of its lookups give.
fn push_by_view(
    alloc: Global,
    tree: &Json,
    here: &ViewHere,
    out: &mut Seq<Given>,
) -> Result<(), OutOfMemory>
    ensures { OnOk result (out.new ≡ out.old ++ given_by_view tree.now (view_shown here.now)) }
{
    push_own(alloc, tree, here.trail.as_slice(), &here.view.data_, out)?;
    let transforms = to_member(alloc, here.trail.as_slice(), "transform")?;
    push_by_transforms(
        alloc,
        tree,
        transforms.as_slice(),
        transforms_in(&here.view.transform),
        out,
    )
}

// Adds those of views.
fn push_by_views(
    alloc: Global,
    tree: &Json,
    views: &[ViewHere],
    out: &mut Seq<Given>,
) -> Result<(), OutOfMemory>
    ensures { OnOk result (out.new ≡ out.old ++ flat_map (given_by_view tree.now) (map view_shown views.now)) }
{
    for here in views {
        push_by_view(alloc, tree, here, out)?;
    }
    Ok(())
}

// The name that a dataset gives.
fn given_by_dataset(alloc: Global, number: usize, member: &Member) -> Result<Given, OutOfMemory>
    ensures { IfOk result (λ given. given ≡ given_by_dataset (number, member.now)) }
{
    let outer = to_member(alloc, &[], "datasets")?;
    let trail = to_item(alloc, outer.as_slice(), number)?;
    let name = member.name.copy()?;
    Ok(Given { name, trail })
}

// The names that datasets give.
fn given_by_datasets(alloc: Global, datasets: &[Member]) -> Result<Seq<Given>, OutOfMemory>
    ensures { IfOk result (λ given. given ≡ map given_by_dataset (enumerate_from 0 datasets.now)) }
{
    let mut out = Seq::new(alloc);
    for (number, member) in datasets.iter().enumerate() {
        out.push(given_by_dataset(alloc, number, member)?)?;
    }
    Ok(out)
}

// The datasets of a specification.
fn datasets_of(tree: &Json) -> &[Member]
    ensures { result.now ≡ datasets_of tree.now }
{
    needed_members(members_of(tree), "datasets")
}

/// The names of all data of a specification, and of its datasets.
pub fn data_given(alloc: Global, tree: &Json, views: &[ViewHere]) -> Result<Seq<Given>, OutOfMemory>
    ensures { IfOk result (λ given. given ≡ data_given tree.now (map view_shown views.now)) }
{
    let mut out = given_by_datasets(alloc, datasets_of(tree))?;
    push_by_views(alloc, tree, views, &mut out)?;
    Ok(out)
}

// Adds the name of a view, if it has one.
fn push_name(alloc: Global, here: &ViewHere, out: &mut Seq<Given>) -> Result<(), OutOfMemory>
    ensures { OnOk result (out.new ≡ out.old ++ option_to_list (name_given (view_shown here.now))) }
{
    match &here.view.name {
        Some(name) => push_named(alloc, here.trail.as_slice(), name, out),
        None => Ok(()),
    }
}

// Adds the name of a view.
fn push_named(
    alloc: Global,
    trail: &[Step],
    name: &Text,
    out: &mut Seq<Given>,
) -> Result<(), OutOfMemory>
    ensures { OnOk result (out.new ≡ out.old ++ given_as name.now (member_trail trail.now (codes "name")) ∷ []) }
{
    let trail = to_member(alloc, trail, "name")?;
    let name = name.copy()?;
    out.push(Given { name, trail })
}

/// The names of all views.
pub fn views_given(alloc: Global, views: &[ViewHere]) -> Result<Seq<Given>, OutOfMemory>
    ensures { IfOk result (λ given. given ≡ views_given (map view_shown views.now)) }
{
    let mut out = Seq::new(alloc);
    for here in views {
        push_name(alloc, here, &mut out)?;
    }
    Ok(out)
}
