// Which units selections concern.
ghost use Rattle.std.specs.Prelude.{◌≡◌, ◌++◌, map, bytes_eq, option_to_list, IfOk, OnOk};
ghost use Rattle.std.specs.List.{fold, list_any};
ghost use Rattle.vl_compose.specs.Shown.{round_shown, unit_shown, view_shown};
ghost use Rattle.chart_plan.specs.Selections.{is_named};
ghost use Rattle.chart_plan.specs.inner.Marked.{with_mark, with_view, no_marks, unit_marks, is_marked, marks_at, concerns_by, place_if, places_of};

use std::alloc::Global;
use text_kit::{OutOfMemory, Seq, Text};
use vl_compose::{UnitHere, ViewHere};
use vl_spec::Selection;

// None of so many parameters.
fn no_marks(alloc: Global, count: usize) -> Result<Seq<bool>, OutOfMemory>
    ensures { IfOk result (λ marks. marks ≡ no_marks count) }
{
    Ok(Seq::from_vec(vec![in alloc; false; count]?))
}

// Marks a parameter.
fn mark(marks: &mut Seq<bool>, number: usize)
    ensures { marks.new ≡ with_mark marks.old number }
{
    if number < marks.len() {
        marks.set(number, true);
    }
}

// Marks parameters.
fn mark_all(numbers: &[usize], marks: &mut Seq<bool>)
    ensures { marks.new ≡ fold with_mark marks.old numbers.now }
{
    for number in numbers {
        mark(marks, *number);
    }
}

// Marks those of some views.
fn mark_round(round: &[ViewHere], marks: &mut Seq<bool>)
    ensures { marks.new ≡ fold with_view marks.old (round_shown round.now) }
{
    for here in round {
        mark_all(here.view.params.as_slice(), marks);
    }
}

// Which of so many parameters a unit has.
fn unit_marks(alloc: Global, count: usize, unit: &UnitHere) -> Result<Seq<bool>, OutOfMemory>
    ensures { IfOk result (λ marks. marks ≡ unit_marks count (unit_shown unit.now)) }
{
    let mut marks = no_marks(alloc, count)?;
    mark_round(unit.round.as_slice(), &mut marks);
    Ok(marks)
}

/// Which of so many parameters each of some units has.
pub(crate) fn marks_of(
    alloc: Global,
    count: usize,
    units: &[UnitHere],
) -> Result<Seq<Seq<bool>>, OutOfMemory>
    ensures { IfOk result (λ marks. marks ≡ map (unit_marks count) (map unit_shown units.now)) }
{
    let mut marks = Seq::new(alloc);
    for unit in units {
        marks.push(unit_marks(alloc, count, unit)?)?;
    }
    Ok(marks)
}

// Whether a parameter is marked.
fn is_marked(marks: &[bool], number: usize) -> bool
    ensures { result ≡ is_marked marks.now number }
{
    match marks.get(number) {
        Some(flag) => *flag,
        None => false,
    }
}

// The marks of a unit.
fn marks_at(marks: &[Seq<bool>], place: usize) -> &[bool]
    ensures { result.now ≡ marks_at marks.now place }
{
    match marks.get(place) {
        Some(marks) => marks.as_slice(),
        None => &[],
    }
}

// Whether a name is among others.
fn is_there(names: &[Text], name: &str) -> bool
    ensures { result ≡ list_any (λ n. bytes_eq n name.now) names.now }
{
    for other in names {
        if other.as_str() == name {
            return true;
        }
    }
    false
}

// Whether the name of a view is one of some.
fn is_named(names: &[Text], here: &ViewHere) -> bool
    ensures { result ≡ is_named names.now (view_shown here.now) }
{
    match &here.view.name {
        Some(name) => is_there(names, name.as_str()),
        None => false,
    }
}

// Whether one of some views is named so.
fn any_named(names: &[Text], round: &[ViewHere]) -> bool
    ensures { result ≡ list_any (is_named names.now) (round_shown round.now) }
{
    for here in round {
        if is_named(names, here) {
            return true;
        }
    }
    false
}

// Whether a selection, the parameter of a number, concerns a unit with these marks.
fn concerns_by(marks: &[bool], number: usize, selection: &Selection, unit: &UnitHere) -> bool
    ensures { result ≡ concerns_by marks.now number selection.now (unit_shown unit.now) }
{
    match &selection.views {
        Some(names) => any_named(names.as_slice(), unit.round.as_slice()),
        None => is_marked(marks, number),
    }
}

// Adds the place of a unit, if the selection concerns it.
fn push_place(
    marks: &[Seq<bool>],
    number: usize,
    selection: &Selection,
    place: usize,
    unit: &UnitHere,
    out: &mut Seq<usize>,
) -> Result<(), OutOfMemory>
    ensures { OnOk result (out.new ≡ out.old ++ option_to_list (place_if marks.now number selection.now (place, unit_shown unit.now))) }
{
    if concerns_by(marks_at(marks, place), number, selection, unit) {
        out.push(place)
    } else {
        Ok(())
    }
}

/// The places of the units with these marks that a selection, the parameter of a number, concerns.
pub(crate) fn places_of(
    alloc: Global,
    marks: &[Seq<bool>],
    number: usize,
    selection: &Selection,
    units: &[UnitHere],
) -> Result<Seq<usize>, OutOfMemory>
    ensures { IfOk result (λ places. places ≡ places_of marks.now number selection.now (map unit_shown units.now)) }
{
    let mut places = Seq::new(alloc);
    for (place, unit) in units.iter().enumerate() {
        push_place(marks, number, selection, place, unit, &mut places)?;
    }
    Ok(places)
}
