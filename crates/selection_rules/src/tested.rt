//! Whether the selections of a specification keep what charts ask of them.
ghost use Rattle.std.specs.Prelude.{◌≡◌, [], map, is_none, IfOk};
ghost use Rattle.std.specs.List.{list_all};
ghost use Rattle.selection_events.specs.Kept.{fields_of};
ghost use Rattle.vega_selections.specs.Kept.{selection_name};
ghost use Rattle.vega_selections.specs.Selections.{selections_of};
ghost use Rattle.selection_rules.specs.Tested.{keeps_the_same, is_empty, are_apart, is_selection, is_kept, are_kept, keeps_selections};

use crate::names::{are_own, are_same};
use selection_events::SelectionOf;
use std::alloc::Global;
use text_kit::{OutOfMemory, Seq, Text};
use vega_selections::{VgSelection, selections_of};
use vega_spec::VgSpec;

// The fields that a selection keeps of clicks.
fn fields_of(s: &SelectionOf) -> &[Text]
    ensures { result.now ≡ fields_of s.now }
{
    match &s.click {
        Some(fields) => fields.as_slice(),
        None => match &s.toggle {
            Some(fields) => fields.as_slice(),
            None => &[],
        },
    }
}

// Whether it keeps the same fields of a click with the shift key as of one without.
fn keeps_the_same(alloc: Global, s: &SelectionOf) -> Result<bool, OutOfMemory>
    ensures { IfOk result (λ same. same ≡ keeps_the_same s.now) }
{
    match &s.toggle {
        Some(other) => are_same(alloc, other.as_slice(), fields_of(s)),
        None => Ok(true),
    }
}

// Whether a drag does nothing to it.
fn has_no_drag(s: &SelectionOf) -> bool
    ensures { result ≡ is_empty s.now.drag }
{
    match s.drag.as_slice() {
        [] => true,
        [_, ..] => false,
    }
}

// Whether it doesn't do something on clicks and on drags.
fn are_apart(s: &SelectionOf) -> bool
    ensures { result ≡ are_apart s.now }
{
    has_no_drag(s) || (s.click.is_none() && s.toggle.is_none())
}

// Whether charts ask no more of a selection.
fn is_selection(alloc: Global, s: &SelectionOf) -> Result<bool, OutOfMemory>
    ensures { IfOk result (λ is. is ≡ is_selection s.now) }
{
    if are_apart(s) {
        keeps_the_same(alloc, s)
    } else {
        Ok(false)
    }
}

// The names of selections.
fn names_of(alloc: Global, selections: &[VgSelection]) -> Result<Seq<Text>, OutOfMemory>
    ensures { IfOk result (λ names. names ≡ map selection_name selections.now) }
{
    let mut names = Seq::new(alloc);
    for v in selections {
        names.push(v.selection.name.copy()?)?;
    }
    Ok(names)
}

// Whether each is such.
fn each_is_kept(alloc: Global, selections: &[VgSelection]) -> Result<bool, OutOfMemory>
    ensures { IfOk result (λ all. all ≡ list_all is_kept selections.now) }
{
    for v in selections {
        if !is_selection(alloc, &v.selection)? {
            return Ok(false);
        }
    }
    Ok(true)
}

// Whether selections have names of their own, and each is such.
fn are_kept(alloc: Global, selections: &[VgSelection]) -> Result<bool, OutOfMemory>
    ensures { IfOk result (λ are. are ≡ are_kept selections.now) }
{
    let names = names_of(alloc, selections)?;
    if are_own(alloc, names.as_slice())? {
        each_is_kept(alloc, selections)
    } else {
        Ok(false)
    }
}

/// Whether the selections of a specification have names of their own, and each keeps the same fields of clicks with and without the shift key and
/// doesn't do something on clicks and on drags. In time near linear in their number and their fields. The one error is that memory is refused.
pub fn keeps_selections(alloc: Global, g: &VgSpec) -> Result<bool, OutOfMemory>
    ensures { IfOk result (λ is. is ≡ keeps_selections g.now) }
{
    let selections = selections_of(alloc, g)?;
    are_kept(alloc, selections.as_slice())
}
