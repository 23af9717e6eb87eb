// The marks of objects, with their numbers.
ghost use Rattle.std.specs.Prelude.{◌≡◌, ◌<◌, ◌^◌, ◌∷◌, []};
ghost use Rattle.vega_spec.specs.declared.spec.Group.{out-Group};
ghost use Rattle.vega_spec.specs.declared.spec.VgMark.{out-VgMark};
ghost use Rattle.vega_copies.specs.Outlines.{count_marks, count_groups, first_unit, numbered};
ghost use Rattle.vega_copies.specs.inner.Outlined.{marks_of, marks_in, is_group};

use vega_spec::{Group, MarkType, VgMark};

/// The marks of an object.
pub fn marks_in(group: &Group) -> &[VgMark]
    ensures { result.now ≡ marks_in (out-Group group.now) }
{
    match &group.marks {
        Some(marks) => marks.as_slice(),
        None => &[],
    }
}

/// Whether a mark is a group.
pub fn is_group(mark: &VgMark) -> bool
    ensures { result ≡ is_group (out-VgMark mark.now) }
{
    match mark.type_ {
        MarkType::Group => true,
        MarkType::Rect
        | MarkType::Symbol
        | MarkType::Line
        | MarkType::Area
        | MarkType::Rule
        | MarkType::Text => false,
    }
}

/// How many marks other than groups there are, those in groups among them.
#[cycle(counting)]
#[tactic(auto, using(crate::proofs::OutlineLemmas::counted_first, crate::proofs::OutlineLemmas::counted_alone, crate::proofs::OutlineLemmas::plain_counted))]
pub(crate) fn count_marks(marks: &[VgMark]) -> u32
    requires few { count_marks (marks_of marks.now) < 2 ^ 32 }
    ensures { result ≡ count_marks (marks_of marks.now) }
{
    let mut count = 0;
    for mark in marks {
        count += count_marks_of(mark);
    }
    count
}

/// How many a mark is: a group as many as are in it.
#[cycle(counting)]
#[tactic(auto, using(crate::proofs::OutlineLemmas::counted_first, crate::proofs::OutlineLemmas::counted_alone, crate::proofs::OutlineLemmas::plain_counted))]
pub fn count_marks_of(mark: &VgMark) -> u32
    requires few { count_marks (marks_of (mark.now ∷ [])) < 2 ^ 32 }
    ensures { result ≡ count_marks (marks_of (mark.now ∷ [])) }
{
    if is_group(mark) {
        count_marks(marks_in(&mark.group))
    } else {
        1
    }
}

/// How many groups there are, those in groups among them.
#[cycle(counting_groups)]
#[tactic(auto, using(crate::proofs::OutlineLemmas::grouped_first, crate::proofs::OutlineLemmas::grouped_alone, crate::proofs::OutlineLemmas::plain_grouped))]
pub(crate) fn count_groups(marks: &[VgMark]) -> u32
    requires few { count_groups (marks_of marks.now) < 2 ^ 32 }
    ensures { result ≡ count_groups (marks_of marks.now) }
{
    let mut count = 0;
    for mark in marks {
        count += count_groups_of(mark);
    }
    count
}

/// How many groups a mark is: a group one more than are in it.
#[cycle(counting_groups)]
#[tactic(auto, using(crate::proofs::OutlineLemmas::grouped_first, crate::proofs::OutlineLemmas::grouped_alone, crate::proofs::OutlineLemmas::plain_grouped))]
pub fn count_groups_of(mark: &VgMark) -> u32
    requires few { count_groups (marks_of (mark.now ∷ [])) < 2 ^ 32 }
    ensures { result ≡ count_groups (marks_of (mark.now ∷ [])) }
{
    if is_group(mark) {
        1 + count_groups(marks_in(&mark.group))
    } else {
        0
    }
}

/// The least number of marks that are numbered from this one on, if there are any.
#[tactic(auto, using(crate::proofs::OutlineLemmas::first_is))]
pub fn first_unit(marks: &[VgMark], unit: u32) -> Option<u32>
    requires few { count_marks (marks_of marks.now) < 2 ^ 32 }
    ensures { result ≡ first_unit (numbered unit 0 (marks_of marks.now)) }
{
    if count_marks(marks) == 0 {
        None
    } else {
        Some(unit)
    }
}
