// Whether a specification keeps the rules.
ghost use Rattle.std.specs.Prelude.{◌≡◌, ◌&&◌, ◌∷◌, ◌+◌, ◌-◌, ◌^◌, [], pos, min, int_lt, IfOk, true, nat_eq, nat_lt, length, unwrap_or};
ghost use Rattle.std.specs.Option.{option_map_or};
ghost use Rattle.std.specs.List.{list_all};
ghost use Rattle.expr_eval.specs.Numbers.{the_number};
ghost use Rattle.vega_spec.specs.declared.spec.Group.{out-Group};
ghost use Rattle.vega_spec.specs.declared.spec.VgMark.{out-VgMark};
ghost use Rattle.vega_spec.specs.Names.{sources_of};
ghost use Rattle.vega_lists.specs.Transforms.{is_kept};
ghost use Rattle.vega_scales.specs.Ranges.{two_numbers};
ghost use Rattle.vega_scales.specs.Scales.{given_ends};
ghost use Rattle.vega_copies.specs.Outlines.{object_here, outline_of, count_marks, count_groups};
ghost use Rattle.vega_copies.specs.Tested.{is_padding, is_pixel, is_range, is_set, has_places, is_scale, is_count, has_columns, is_size, is_space};
ghost use Rattle.vega_copies.specs.Tested.{keeps_object, are_few, is_outline, has_sizes, are_new, keeps_rules};
ghost use Rattle.vega_copies.specs.inner.Outlined.{marks_in, marks_of};
ghost use Rattle.vega_copies.specs.inner.Tested.{are_objects, group_is_kept};

use crate::apart::are_new;
use crate::folds::folds_fit;
use crate::marks::{is_group, marks_in};
use crate::objects::scales_in;
use cell_value::Cell;
use fixed_num::Num;
use std::alloc::Global;
use text_kit::OutOfMemory;
use vega_guides::has_kept_axes;
use vega_lists::transforms_of;
use vega_scales::{is_built, is_domain_built, is_ordinal};
use vega_signals::data_of;
use vega_spec::{
    DataSet, Group, Layout, Lookup, Range, Scale, Size, Transform, VgMark, VgSpec, sources_of,
};

// A place is from 0 to 10^11 pixels.
fn is_pixel(n: Num) -> bool
    ensures { result ≡ is_pixel n }
{
    let millionths = n.millionths();
    0 <= millionths && millionths <= 100_000_000_000_000_000
}

// The number in a cell, if it is one.
fn the_number(cell: &Cell) -> Option<Num>
    ensures { result ≡ the_number cell.now }
{
    match cell {
        Cell::Number(n) => Some(*n),
        Cell::Null | Cell::Flag(_) | Cell::Text(_) | Cell::Pair(_, _) => None,
    }
}

// The ends of a list of two numbers.
fn two_numbers(cells: &[Cell]) -> Option<(Num, Num)>
    ensures { result ≡ two_numbers cells.now }
{
    let [from, to] = cells else {
        return None;
    };
    Some((the_number(from)?, the_number(to)?))
}

// The ends that a range gives.
fn given_ends(range: &Range) -> Option<(Num, Num)>
    ensures { result ≡ given_ends range.now }
{
    match range {
        Range::Cells(cells) => two_numbers(cells.as_slice()),
        Range::Width | Range::Height | Range::Category | Range::Ramp | Range::Symbol => None,
    }
}

// A width of bins that is given is over 0.
fn is_step_kept(step: Option<Num>) -> bool
    ensures { result ≡ option_map_or (int_lt (pos 0)) step true }
{
    match step {
        Some(step) => 0 < step.millionths(),
        None => true,
    }
}

// A lookup that names what it takes has as many names as it has values.
fn has_names(l: &Lookup) -> bool
    ensures { result ≡ nat_eq (length (unwrap_or l.now.as_ l.now.values)) (length l.now.values) }
{
    match &l.as_ {
        Some(names) => names.len() == l.values.len(),
        None => true,
    }
}

// A transform is as specifications may have it.
fn is_kept(transform: &Transform) -> bool
    ensures { result ≡ is_kept transform.now }
{
    match transform {
        Transform::Bin(b) => is_step_kept(b.step),
        Transform::Lookup(l) => has_names(l),
        Transform::Filter(_)
        | Transform::Formula(_)
        | Transform::Extent(_)
        | Transform::TimeUnit(_)
        | Transform::Aggregate(_)
        | Transform::JoinAggregate(_)
        | Transform::Stack(_)
        | Transform::Window(_)
        | Transform::Fold(_) => true,
    }
}

// So is each transform of a data set.
fn is_set(set: &DataSet) -> bool
    ensures { result ≡ is_set set.now }
{
    transforms_of(set).iter().all(is_kept)
}

// A padding of bands that is given is from 0 to 1.
fn is_padding_given(given: Option<Num>) -> bool
    ensures { result ≡ option_map_or is_padding given true }
{
    match given {
        Some(n) => 0 <= n.millionths() && n.millionths() <= 1_000_000,
        None => true,
    }
}

// The space round a picture is from 0 to 1,000 pixels, if it is given.
fn is_space_given(given: Option<Num>) -> bool
    ensures { result ≡ option_map_or is_space given true }
{
    match given {
        Some(n) => 0 <= n.millionths() && n.millionths() <= 1_000_000_000,
        None => true,
    }
}

// The ends of a range are places.
fn is_range_given(range: &Range) -> bool
    ensures { result ≡ option_map_or is_range (given_ends range.now) true }
{
    match given_ends(range) {
        Some((from, to)) => is_pixel(from) && is_pixel(to),
        None => true,
    }
}

// So are those of a scale; an ordinal scale has none.
fn has_places(scale: &Scale) -> bool
    ensures { result ≡ has_places scale.now }
{
    is_ordinal(scale) || is_range_given(&scale.range)
}

// A scale has a meaning, and its numbers are those that specifications may have.
fn is_scale(scale: &Scale) -> bool
    ensures { result ≡ is_scale scale.now }
{
    is_built(scale)
        && is_domain_built(&scale.domain)
        && is_padding_given(scale.padding)
        && is_padding_given(scale.padding_inner)
        && is_padding_given(scale.padding_outer)
        && has_places(scale)
}

// Each data set has a meaning.
fn are_sets(sets: &[DataSet]) -> bool
    ensures { result ≡ list_all is_set sets.now }
{
    sets.iter().all(is_set)
}

// So has each scale.
fn are_scales(scales: &[Scale]) -> bool
    ensures { result ≡ list_all is_scale scales.now }
{
    scales.iter().all(is_scale)
}

// The columns that a layout asks for, if it does, are from 1 to 1,000.
fn is_count_given(given: Option<Num>) -> bool
    ensures { result ≡ option_map_or is_count given true }
{
    match given {
        Some(n) => 1_000_000 <= n.millionths() && n.millionths() <= 1_000_000_000,
        None => true,
    }
}

// So can those of a layout that an object may have.
fn has_columns(layout: &Option<Layout>) -> bool
    ensures { result ≡ has_columns layout.now }
{
    match layout {
        Some(layout) => is_count_given(layout.columns),
        None => true,
    }
}

// A written size is a place.
fn is_size(size: &Option<Size>) -> bool
    ensures { result ≡ is_size size.now }
{
    match size {
        Some(Size::Number(n)) => is_pixel(*n),
        Some(Size::Signal(_)) | None => true,
    }
}

// What an object has is as specifications may have it.
fn keeps_object(group: &Group) -> bool
    ensures { result ≡ keeps_object (object_here (out-Group group.now)) }
{
    are_sets(data_of(group))
        && are_scales(scales_in(group))
        && has_kept_axes(group)
        && has_columns(&group.layout)
}

// So is each object among marks.
#[cycle(testing)]
#[tactic(auto, using(crate::proofs::TreeLemmas::objects_first))]
fn are_objects(marks: &[VgMark]) -> bool
    ensures { result ≡ are_objects (marks_of marks.now) }
{
    for mark in marks {
        if !are_objects_in(mark) {
            return false;
        }
    }
    true
}

// So is a mark, and what stands in it.
#[cycle(testing)]
#[tactic(auto, using(crate::proofs::TreeLemmas::group_objects, crate::proofs::TreeLemmas::plain_objects))]
fn are_objects_in(mark: &VgMark) -> bool
    ensures { result ≡ are_objects (marks_of (mark.now ∷ [])) }
{
    if is_group(mark) {
        group_is_kept(mark)
    } else {
        true
    }
}

// So is a group, and each group in it.
#[cycle(testing)]
fn group_is_kept(mark: &VgMark) -> bool
    ensures { result ≡ group_is_kept (out-VgMark mark.now) }
{
    keeps_object(&mark.group) && are_objects(marks_in(&mark.group))
}

// How many marks other than groups there are, up to the greatest number of 64 bits.
#[cycle(counting_all)]
#[tactic(auto, using(crate::proofs::TreeLemmas::all_counted, crate::proofs::TreeLemmas::one_more_counted, crate::proofs::OutlineLemmas::counted_first))]
fn count_marks(marks: &[VgMark]) -> u64
    ensures { result ≡ min (count_marks (marks_of marks.now)) (2 ^ 64 - 1) }
{
    let mut count = 0u64;
    for mark in marks {
        count = count.saturating_add(count_marks_of(mark));
    }
    count
}

// How many a mark is: a group as many as are in it.
#[cycle(counting_all)]
#[tactic(auto, using(crate::proofs::TreeLemmas::group_counted_alone, crate::proofs::OutlineLemmas::plain_counted))]
fn count_marks_of(mark: &VgMark) -> u64
    ensures { result ≡ min (count_marks (marks_of (mark.now ∷ []))) (2 ^ 64 - 1) }
{
    if is_group(mark) {
        count_marks(marks_in(&mark.group))
    } else {
        1
    }
}

// How many groups there are, up to the greatest number of 64 bits.
#[cycle(counting_all_groups)]
#[tactic(auto, using(crate::proofs::TreeLemmas::all_counted, crate::proofs::TreeLemmas::one_more_counted, crate::proofs::OutlineLemmas::grouped_first))]
fn count_groups(marks: &[VgMark]) -> u64
    ensures { result ≡ min (count_groups (marks_of marks.now)) (2 ^ 64 - 1) }
{
    let mut count = 0u64;
    for mark in marks {
        count = count.saturating_add(count_groups_of(mark));
    }
    count
}

// How many a mark is: a group one more than are in it.
#[cycle(counting_all_groups)]
#[tactic(auto, using(crate::proofs::TreeLemmas::group_grouped_alone, crate::proofs::OutlineLemmas::plain_grouped))]
fn count_groups_of(mark: &VgMark) -> u64
    ensures { result ≡ min (count_groups (marks_of (mark.now ∷ []))) (2 ^ 64 - 1) }
{
    if is_group(mark) {
        count_groups(marks_in(&mark.group)).saturating_add(1)
    } else {
        0
    }
}

// Marks can be numbered in 32 bits.
#[tactic(auto, using(crate::proofs::TreeLemmas::few_counted))]
fn are_few_marks(marks: &[VgMark]) -> bool
    ensures { result ≡ nat_lt (count_marks (marks_of marks.now)) (2 ^ 32) }
{
    count_marks(marks) < 4_294_967_296
}

// So can groups, with the top before them.
#[tactic(auto, using(crate::proofs::TreeLemmas::few_grouped))]
fn are_few_groups(marks: &[VgMark]) -> bool
    ensures { result ≡ nat_lt (1 + count_groups (marks_of marks.now)) (2 ^ 32) }
{
    count_groups(marks) < 4_294_967_295
}

// So can both.
fn are_few(marks: &[VgMark]) -> bool
    ensures { result ≡ are_few (marks_of marks.now) }
{
    are_few_marks(marks) && are_few_groups(marks)
}

// All of this holds of the top with its marks.
fn are_all_objects(group: &Group) -> bool
    ensures { result ≡ (keeps_object (object_here (out-Group group.now))
        && (are_objects (marks_of (marks_in (out-Group group.now))) && are_few (marks_of (marks_in (out-Group group.now))))) }
{
    keeps_object(group) && are_objects(marks_in(group)) && are_few(marks_in(group))
}

// The same, and no path of data sets folds too far.
#[tactic(auto, using(crate::proofs::TreeLemmas::outline_by_folds, crate::proofs::TreeLemmas::no_outline))]
fn is_outline(alloc: Global, g: &VgSpec) -> Result<bool, OutOfMemory>
    ensures { IfOk result (λ is. is ≡ is_outline keeps_object (outline_of g.now)) }
{
    if are_all_objects(&g.group) {
        Ok(folds_fit(alloc, &g.group)?)
    } else {
        Ok(false)
    }
}

// The sizes of the picture are as specifications may have them.
fn has_sizes(g: &VgSpec) -> bool
    ensures { result ≡ has_sizes g.now }
{
    is_size(&g.width) && is_size(&g.height) && is_space_given(g.padding)
}

// Whether the sources of a specification have names of their own.
fn has_own_names(alloc: Global, g: &VgSpec) -> Result<bool, OutOfMemory>
    ensures { IfOk result (λ own. own ≡ are_new [] (sources_of g.now)) }
{
    let names = sources_of(alloc, g)?;
    are_new(alloc, names.as_slice())
}

// The same, and the sizes.
fn has_sizes_and_names(alloc: Global, g: &VgSpec) -> Result<bool, OutOfMemory>
    ensures { IfOk result (λ is. is ≡ (has_sizes g.now && are_new [] (sources_of g.now))) }
{
    if has_sizes(g) {
        has_own_names(alloc, g)
    } else {
        Ok(false)
    }
}

/// Whether a specification keeps the rules that its chart needs. The time is near linear in the specification, times how deep groups stand in
/// each other.
pub fn keeps_rules(alloc: Global, g: &VgSpec) -> Result<bool, OutOfMemory>
    ensures { IfOk result (λ is. is ≡ keeps_rules g.now) }
{
    if is_outline(alloc, g)? {
        has_sizes_and_names(alloc, g)
    } else {
        Ok(false)
    }
}
