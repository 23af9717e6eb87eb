// What stands round a unit.
ghost use Rattle.std.specs.Prelude.{◌≡◌, ◌++◌, [], ◌∷◌, drop, map, unwrap_or, IfOk, OnOk, if◌then◌else◌};
ghost use Rattle.std.specs.Option.{option_map, option_or};
ghost use Rattle.std.specs.Fmt.{decimal};
ghost use Rattle.vl_spec.specs.declared.views.View.{out-View};
ghost use Rattle.vl_compose.specs.Shown.{kind_of, round_shown, view_shown};
ghost use Rattle.vl_compose.specs.Views.{joined_word, step_of, path_from, path_of, source_of, transforms_of, is_faceted, facets_of};
ghost use Rattle.vl_compose.specs.Views.{parts_plots, first_number, plot_of};

use crate::here::ViewHere;
use std::alloc::Global;
use text_kit::{OutOfMemory, Seq, Text};
use vl_spec::{Joining, Transform, View, ViewKind};

// The member that holds joined views.
fn joined_word(joining: Joining) -> &'static str
    ensures { result.now ≡ joined_word joining }
{
    match joining {
        Joining::Row => "/hconcat/",
        Joining::Column => "/vconcat/",
        Joining::Grid => "/concat/",
    }
}

// Adds a word, and a number in digits.
fn push_number(path: &mut Text, word: &str, number: usize) -> Result<(), OutOfMemory>
    ensures { OnOk result (path.new ≡ path.old ++ word.now ++ decimal number) }
{
    let mut buffer = itoa::Buffer::new();
    path.push_str(word)?;
    path.push_str(buffer.format(number))
}

// Adds the words from a view to the view in it of this number.
fn push_step(path: &mut Text, kind: &ViewKind, child: usize) -> Result<(), OutOfMemory>
    ensures { OnOk result (path.new ≡ path.old ++ step_of (kind_of kind.now) child) }
{
    match kind {
        ViewKind::Unit(_) => Ok(()),
        ViewKind::Layer(_) => push_number(path, "/layer/", child),
        ViewKind::Facet(_) => path.push_str("/spec"),
        ViewKind::Joined(joined) => push_number(path, joined_word(joined.joining), child),
    }
}

// The words from a view on to the last of those that follow, each in the one before.
fn path_from<'s>(
    alloc: Global,
    top: &'s ViewKind,
    inside: &[ViewHere<'s>],
) -> Result<Text, OutOfMemory>
    ensures { IfOk result (λ path. path ≡ path_from (kind_of top.now) (round_shown inside.now)) }
{
    let mut path = Text::new(alloc);
    let mut outer = top;
    for here in inside {
        push_step(&mut path, outer, here.child)?;
        outer = &here.view.kind;
    }
    Ok(path)
}

/// The JSON Pointer (RFC 6901) of the last of some views, each in the one before, from the first on.
pub fn path_of(alloc: Global, round: &[ViewHere]) -> Result<Text, OutOfMemory>
    ensures { IfOk result (λ path. path ≡ path_of (round_shown round.now)) }
{
    match round {
        [top, inside @ ..] => path_from(alloc, &top.view.kind, inside),
        [] => Ok(Text::new(alloc)),
    }
}

// A name, or else another.
fn or_outer<'s>(own: &'s Option<Text>, outer: Option<&'s Text>) -> Option<&'s Text>
    ensures { option_map (λ name. name.now) result ≡ option_or own.now (option_map (λ name. name.now) outer.entry) }
{
    match own {
        Some(name) => Some(name),
        None => outer,
    }
}

/// The name of the source of the rows of a unit with these views round it: the innermost that names one gives it.
pub fn source_of<'s>(round: &[ViewHere<'s>]) -> Option<&'s Text>
    ensures { option_map (λ name. name.now) result ≡ source_of (round_shown round.now) }
{
    let mut source = None;
    for here in round {
        source = or_outer(&here.view.data_, source);
    }
    source
}

// Adds the transforms of a view.
fn push_transforms<'s>(
    view: &'s View,
    transforms: &mut Seq<&'s Transform>,
) -> Result<(), OutOfMemory>
    ensures { OnOk result (map (λ t. t.now) transforms.new
        ≡ map (λ t. t.now) transforms.old ++ unwrap_or (out-View view.now).transform []) }
{
    match &view.transform {
        Some(own) => push_each(own.as_slice(), transforms),
        None => Ok(()),
    }
}

// Adds each of some transforms.
fn push_each<'s>(
    own: &'s [Transform],
    transforms: &mut Seq<&'s Transform>,
) -> Result<(), OutOfMemory>
    ensures { OnOk result (map (λ t. t.now) transforms.new ≡ map (λ t. t.now) transforms.old ++ own.now) }
{
    for transform in own {
        transforms.push(transform)?;
    }
    Ok(())
}

/// What is done to the rows of a unit with these views round it: the transforms of the outermost first, and its own last.
pub fn transforms_of<'s>(
    alloc: Global,
    round: &[ViewHere<'s>],
) -> Result<Seq<&'s Transform>, OutOfMemory>
    ensures { IfOk result (λ transforms. map (λ t. t.now) transforms ≡ transforms_of (round_shown round.now)) }
{
    let mut transforms = Seq::new(alloc);
    for here in round {
        push_transforms(here.view, &mut transforms)?;
    }
    Ok(transforms)
}

// Whether a view is faceted.
fn is_faceted(kind: &ViewKind) -> bool
    ensures { result ≡ is_faceted (kind_of kind.now) }
{
    match kind {
        ViewKind::Facet(_) => true,
        ViewKind::Unit(_) | ViewKind::Layer(_) | ViewKind::Joined(_) => false,
    }
}

// Adds a view, if it is faceted.
fn push_faceted<'s>(here: ViewHere<'s>, facets: &mut Seq<ViewHere<'s>>) -> Result<(), OutOfMemory>
    ensures { OnOk result (round_shown facets.new
        ≡ round_shown facets.old ++ (if is_faceted (view_shown here.entry).kind then view_shown here.entry ∷ [] else [])) }
{
    if is_faceted(&here.view.kind) {
        facets.push(here)
    } else {
        Ok(())
    }
}

/// The facets among some views, in their order.
pub fn facets_of<'s>(
    alloc: Global,
    round: &[ViewHere<'s>],
) -> Result<Seq<ViewHere<'s>>, OutOfMemory>
    ensures { IfOk result (λ facets. round_shown facets ≡ facets_of (round_shown round.now)) }
{
    let mut facets = Seq::new(alloc);
    for here in round {
        push_faceted(*here, &mut facets)?;
    }
    Ok(facets)
}

// Whether the views in a view are plots of their own.
fn parts_plots(kind: &ViewKind) -> bool
    ensures { result ≡ parts_plots (kind_of kind.now) }
{
    match kind {
        ViewKind::Facet(_) | ViewKind::Joined(_) => true,
        ViewKind::Unit(_) | ViewKind::Layer(_) => false,
    }
}

// The number of a view at a place; 0 past the last.
pub(crate) fn number_at(round: &[ViewHere], place: usize) -> usize
    ensures { result ≡ first_number (drop place (round_shown round.now)) }
{
    match round.get(place) {
        Some(here) => here.number,
        None => 0,
    }
}

/// The number of the view that is drawn as the plot of a unit with these views round it: its own, or that of the outermost layer round it
/// within the innermost facet and the innermost joined views.
pub fn plot_of(round: &[ViewHere]) -> usize
    ensures { result ≡ plot_of (round_shown round.now) }
{
    let mut place = round.len();
    while place > 0 {
        let view = round[place - 1].view;
        if parts_plots(&view.kind) {
            return number_at(round, place);
        }
        place -= 1;
    }
    number_at(round, place)
}
