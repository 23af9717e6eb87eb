//! The views of a specification, each where it stands.
ghost use Rattle.std.specs.Prelude.{◌≡◌, [], ◌∷◌, ◌++◌, codes, map, IfOk, OnOk};
ghost use Rattle.vl_names.specs.Views.{in_list, joined_word, views_in, views_of};
ghost use Rattle.vl_names.specs.inner.Shown.{view_at, view_shown};
ghost use Rattle.vl_trails.specs.Trails.{to_item as one_item, to_member as one_member};

use crate::trails::{copied_trail, to_item, to_member};
use spec_walk::Step;
use std::alloc::Global;
use text_kit::{OutOfMemory, Seq};
use vl_spec::{Joining, View, ViewKind, VlSpec};

/// A view where it stands.
#[derive(Drop)]
pub struct ViewHere<'s> {
    /// The steps from the top to it.
    pub trail: Seq<Step>,
    /// The view.
    pub view: &'s View,
}

// The member that holds joined views.
fn joined_word(joining: Joining) -> &'static str
    ensures { result.now ≡ joined_word joining }
{
    match joining {
        Joining::Row => "hconcat",
        Joining::Column => "vconcat",
        Joining::Grid => "concat",
    }
}

// Adds a view alone.
fn push_here<'s>(
    alloc: Global,
    view: &'s View,
    trail: &[Step],
    out: &mut Seq<ViewHere<'s>>,
) -> Result<(), OutOfMemory>
    ensures { OnOk result (map view_shown out.new ≡ map view_shown out.old ++ view_at view.now trail.now ∷ []) }
{
    let trail = copied_trail(alloc, trail)?;
    out.push(ViewHere { trail, view })
}

// Adds a view and those in it.
#[cycle(views)]
fn push_view<'s>(
    alloc: Global,
    view: &'s View,
    trail: &[Step],
    out: &mut Seq<ViewHere<'s>>,
) -> Result<(), OutOfMemory>
    ensures { OnOk result (map view_shown out.new ≡ map view_shown out.old ++ views_in view.now trail.now) }
{
    push_here(alloc, view, trail, out)?;
    match &view.kind {
        ViewKind::Unit(_) => Ok(()),
        ViewKind::Layer(layer) => push_list(alloc, layer.layer.as_slice(), "layer", trail, out),
        ViewKind::Facet(faceted) => push_only(alloc, faceted.spec.get(), trail, out),
        ViewKind::Joined(joined) => push_list(
            alloc,
            joined.views.as_slice(),
            joined_word(joined.joining),
            trail,
            out,
        ),
    }
}

// Adds the view under `spec`, and those in it.
#[cycle(views)]
fn push_only<'s>(
    alloc: Global,
    view: &'s View,
    outer: &[Step],
    out: &mut Seq<ViewHere<'s>>,
) -> Result<(), OutOfMemory>
    ensures { OnOk result (map view_shown out.new ≡ map view_shown out.old ++ views_in view.now (one_member outer.now (codes "spec"))) }
{
    let trail = to_member(alloc, outer, "spec")?;
    push_view(alloc, view, trail.as_slice(), out)
}

// Adds the views of the list under a name, and those in them.
#[cycle(views)]
fn push_list<'s>(
    alloc: Global,
    views: &'s [View],
    name: &str,
    outer: &[Step],
    out: &mut Seq<ViewHere<'s>>,
) -> Result<(), OutOfMemory>
    ensures { OnOk result (map view_shown out.new
        ≡ map view_shown out.old ++ in_list (map views_in views.now) (one_member outer.now name.now)) }
{
    let trail = to_member(alloc, outer, name)?;
    push_items(alloc, views, trail.as_slice(), out)
}

// Adds the views of a list, and those in them.
#[cycle(views)]
fn push_items<'s>(
    alloc: Global,
    views: &'s [View],
    trail: &[Step],
    out: &mut Seq<ViewHere<'s>>,
) -> Result<(), OutOfMemory>
    ensures { OnOk result (map view_shown out.new ≡ map view_shown out.old ++ in_list (map views_in views.now) trail.now) }
{
    for (number, view) in views.iter().enumerate() {
        push_item(alloc, view, number, trail, out)?;
    }
    Ok(())
}

// Adds an item of a list, and the views in it.
#[cycle(views)]
fn push_item<'s>(
    alloc: Global,
    view: &'s View,
    number: usize,
    outer: &[Step],
    out: &mut Seq<ViewHere<'s>>,
) -> Result<(), OutOfMemory>
    ensures { OnOk result (map view_shown out.new ≡ map view_shown out.old ++ views_in view.now (one_item outer.now number)) }
{
    let trail = to_item(alloc, outer, number)?;
    push_view(alloc, view, trail.as_slice(), out)
}

/// The views of a specification, each before those in it, in time and memory as they are many and as deep as they stand.
pub fn views_of<'s>(alloc: Global, s: &'s VlSpec) -> Result<Seq<ViewHere<'s>>, OutOfMemory>
    ensures { IfOk result (λ views. map view_shown views ≡ views_of s.now) }
{
    let mut out = Seq::new(alloc);
    push_view(alloc, &s.view, &[], &mut out)?;
    Ok(out)
}
