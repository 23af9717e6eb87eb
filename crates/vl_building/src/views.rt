// Views.
ghost use Rattle.std.specs.Prelude.{◌≡◌, map, codes, IfOk};
ghost use Rattle.vl_spec.specs.declared.views.Facet.TheVariants as facet;
ghost use Rattle.vl_spec.specs.declared.views.ViewKind.TheVariants as view_kind;
ghost use Rattle.vl_building.specs.Channels.{channel_of};
ghost use Rattle.vl_spec.specs.declared.views.ViewKind.{ViewKind};
ghost use Rattle.vl_building.specs.Views.{other_word, view_word, cross_of, facet_of, unit_of, view_with, joined_with, as_view};
ghost use Rattle.vl_building.specs.Views.{views_given, view_given, kind_by, views_in};
ghost use Rattle.vl_building.specs.inner.Named.{shown};
ghost use Rattle.vl_building.specs.inner.Heads.{views_inside, view_in};

use crate::gather::items_of;
use crate::naming::Named;
use crate::numbers::{count_between, number_between};
use crate::parts::{Object, plain_at};
use crate::places::{ParamNumbers, Transforms, listed_at};
use crate::several::{all_five, both, boxed, push_made, three_parts, two_parts};
use crate::words::first_among;
use crate::{parts, places};
use json_exact::{Json, Member};
use std::alloc::Global;
use text_kit::{Boxed, OutOfMemory, Seq};
use tree_readers::{has_member, members_of, needed_members};
use vl_spec::{
    Channel, CrossFacet, Facet, Faceted, Joined, Joining, LEAST_COUNT, Layer, MOST_COUNT,
    MOST_SPACE, Transform, Unit, View, ViewKind,
};

// The members of which the first decides what a view is.
const KINDS: [&str; 6] = ["mark", "layer", "facet", "hconcat", "vconcat", "concat"];

// What decides where no such member stands: a `spec`, or else `mark`.
fn other_word(members: &[Member]) -> &'static str
    ensures { result.now ≡ other_word members.now }
{
    if has_member(members, "spec") {
        "facet"
    } else {
        "mark"
    }
}

// The member that decides.
#[tactic(auto, unfolding(crate::specs::Views::is_view_kind))]
fn view_word(members: &[Member]) -> &str
    ensures { result.now ≡ view_word members.now }
{
    first_among(members, &KINDS, other_word(members))
}

// How rows are parted into rows and columns.
#[inline(never)]
#[tactic(auto, unfolding(crate::specs::Views::cross_of))]
fn cross_of(alloc: Global, members: &[Member]) -> Result<Facet, OutOfMemory>
    ensures { IfOk result (λ parted. parted ≡ facet.Cross (cross_of members.now)) }
{
    let (row, column) = two_parts(alloc, members, "row", "column")?;
    Ok(Facet::Cross(CrossFacet { row, column }))
}

// How rows are parted by one field.
#[inline(never)]
fn one_facet(alloc: Global, members: &[Member]) -> Result<Facet, OutOfMemory>
    ensures { IfOk result (λ parted. parted ≡ facet.One (channel_of members.now)) }
{
    Ok(Facet::One(Channel::of_members(alloc, members)?))
}

// How rows are parted: by rows and columns only without `field`.
impl Object for Facet {
    ghost built = { facet_of };

    #[tactic(auto, unfolding(crate::specs::Views::facet_of))]
    fn of_members(alloc: Global, members: &[Member]) -> Result<Facet, OutOfMemory> {
        if has_member(members, "field") {
            one_facet(alloc, members)
        } else if has_member(members, "row") || has_member(members, "column") {
            cross_of(alloc, members)
        } else {
            one_facet(alloc, members)
        }
    }
}

// One mark.
#[inline(never)]
#[tactic(auto, unfolding(crate::specs::Views::unit_of))]
fn unit_of(alloc: Global, members: &[Member]) -> Result<ViewKind, OutOfMemory>
    ensures { IfOk result (λ kind. kind ≡ view_kind.Unit (unit_of members.now)) }
{
    let (mark, encoding) = two_parts(alloc, members, "mark", "encoding")?;
    Ok(ViewKind::Unit(Unit { mark, encoding }))
}

// A view of this kind, where it is there.
#[inline(never)]
#[tactic(auto, unfolding(crate::specs::Views::view_with))]
fn view_with(
    alloc: Global,
    named: &Named,
    members: &[Member],
    place: &[usize],
    kind: Result<ViewKind, OutOfMemory>,
) -> Result<View, OutOfMemory>
    ensures { (k : ViewKind) → IfOk kind (λ x. x ≡ k) → IfOk result (λ view. view ≡ view_with (shown named.now) members.now place.now k) }
{
    let (kind, data_, params, transform, (name, title, resolve)) = all_five(
        kind,
        places::source_of(alloc, named, place, members),
        listed_at::<usize, ParamNumbers>(alloc, named, place, members, "params"),
        listed_at::<Transform, Transforms>(alloc, named, place, members, "transform"),
        three_parts(alloc, members, "name", "title", "resolve"),
    )?;
    Ok(View {
        name,
        title,
        data_,
        transform,
        params: params.unwrap_or(Seq::new(alloc)),
        width: plain_at(members, "width"),
        height: plain_at(members, "height"),
        resolve,
        kind,
    })
}

/// The view of these members, at a place.
#[cycle(views)]
pub fn view_of(
    alloc: Global,
    named: &Named,
    members: &[Member],
    place: &[usize],
) -> Result<View, OutOfMemory>
    ensures { IfOk result (λ view. view ≡ view_in (shown named.now) members.now place.now) }
{
    let kind = kind_by(alloc, named, view_word(members), members, place);
    view_with(alloc, named, members, place, kind)
}

// What a view is, by the member that decides.
#[cycle(views)]
#[tactic(auto, unfolding(crate::specs::Views::kind_by, crate::specs::Views::layer_with, crate::specs::Views::faceted_with))]
fn kind_by(
    alloc: Global,
    named: &Named,
    word: &str,
    members: &[Member],
    place: &[usize],
) -> Result<ViewKind, OutOfMemory>
    ensures { IfOk result (λ kind. kind ≡ kind_by word.now members.now (views_inside (shown named.now) members.now place.now)) }
{
    match word {
        "layer" => {
            let (layer, encoding) = both(
                views_at(alloc, named, members, place, "layer"),
                parts::object_at(alloc, members, "encoding"),
            )?;
            Ok(ViewKind::Layer(Layer { layer, encoding }))
        }
        "facet" => {
            let (spec, facet) = both(
                view_at(alloc, named, members, place),
                Facet::of_members(alloc, needed_members(members, "facet")),
            )?;
            Ok(ViewKind::Facet(Faceted {
                facet,
                columns: count_between(members, "columns", LEAST_COUNT, MOST_COUNT),
                spacing: number_between(members, "spacing", 0, MOST_SPACE),
                spec,
            }))
        }
        "hconcat" => joined_of(alloc, named, Joining::Row, "hconcat", members, place),
        "vconcat" => joined_of(alloc, named, Joining::Column, "vconcat", members, place),
        "concat" => joined_of(alloc, named, Joining::Grid, "concat", members, place),
        _ => unit_of(alloc, members),
    }
}

// Views beside each other.
#[cycle(views)]
#[tactic(auto, unfolding(crate::specs::Views::joined_with))]
fn joined_of(
    alloc: Global,
    named: &Named,
    joining: Joining,
    name: &str,
    members: &[Member],
    place: &[usize],
) -> Result<ViewKind, OutOfMemory>
    ensures { IfOk result (λ kind. kind
        ≡ view_kind.Joined (joined_with joining members.now (views_given (views_inside (shown named.now) members.now place.now name.now)))) }
{
    Ok(ViewKind::Joined(Joined {
        views: views_at(alloc, named, members, place, name)?,
        joining,
        columns: count_between(members, "columns", LEAST_COUNT, MOST_COUNT),
        spacing: number_between(members, "spacing", 0, MOST_SPACE),
    }))
}

// The view under `spec`, in a box; one without members where there is none.
#[cycle(views)]
fn view_at(
    alloc: Global,
    named: &Named,
    members: &[Member],
    place: &[usize],
) -> Result<Boxed<View>, OutOfMemory>
    ensures { IfOk result (λ view. view ≡ view_given (views_inside (shown named.now) members.now place.now (codes "spec"))) }
{
    for (number, member) in members.iter().enumerate() {
        if member.name.as_str() == "spec" {
            let here = places::child(alloc, place, number)?;
            let view = view_of(alloc, named, members_of(&member.value), here.as_slice());
            return boxed(alloc, view);
        }
    }
    boxed(
        alloc,
        view_with(alloc, named, &[], place, unit_of(alloc, &[])),
    )
}

// The views that the items of the list under a name are.
#[cycle(views)]
fn views_at(
    alloc: Global,
    named: &Named,
    members: &[Member],
    place: &[usize],
    name: &str,
) -> Result<Seq<View>, OutOfMemory>
    ensures { IfOk result (λ views. views ≡ views_given (views_inside (shown named.now) members.now place.now name.now)) }
{
    for (number, member) in members.iter().enumerate() {
        if member.name.as_str() == name {
            let here = places::child(alloc, place, number)?;
            return views_in(alloc, named, items_of(&member.value), here.as_slice());
        }
    }
    Ok(Seq::new(alloc))
}

// The views that items at a place are.
#[cycle(views)]
fn views_in(
    alloc: Global,
    named: &Named,
    items: &[Json],
    place: &[usize],
) -> Result<Seq<View>, OutOfMemory>
    ensures { IfOk result (λ views. views ≡ views_in (map (as_view (shown named.now)) items.now) place.now) }
{
    let mut views = Seq::new(alloc);
    for (number, tree) in items.iter().enumerate() {
        let here = places::child(alloc, place, number)?;
        let view = view_of(alloc, named, members_of(tree), here.as_slice());
        push_made(&mut views, view)?;
    }
    Ok(views)
}
