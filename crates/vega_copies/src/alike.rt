// Groups of which each copy holds as many plots as any other.
ghost use Rattle.std.specs.Prelude.{◌≡◌, ◌∷◌, [], option_copied};
ghost use Rattle.std.specs.List.{list_any};
ghost use Rattle.vega_spec.specs.declared.spec.Group.{out-Group};
ghost use Rattle.vega_spec.specs.declared.spec.VgMark.{out-VgMark};
ghost use Rattle.vega_copies.specs.inner.Alike.{is_one_of, divides_none, reads_none, all_read_none, group_reads_none, names_of_parts, are_alike};
ghost use Rattle.vega_copies.specs.inner.Outlined.{marks_in, marks_of, group_object};

use crate::copies::facet_in;
use crate::marks::{is_group, marks_in};
use text_kit::Text;
use vega_lists::texts_in;
use vega_signals::data_of;
use vega_spec::{Facet, VgMark};

// Whether a name is one of some.
fn is_one_of(names: &[Text], name: &str) -> bool
    ensures { result ≡ is_one_of names.now name.now }
{
    for other in names {
        if other.as_str() == name {
            return true;
        }
    }
    false
}

// Whether one of some lists has one of these names.
fn is_any_named(names: &[Text], lists: &[Text]) -> bool
    ensures { result ≡ list_any (is_one_of names.now) lists.now }
{
    for list in lists {
        if is_one_of(names, list.as_str()) {
            return true;
        }
    }
    false
}

// Whether the facet of a group, if it has one, divides none of the lists of these names.
fn divides_none(names: &[Text], facet: Option<&Facet>) -> bool
    ensures { result ≡ divides_none names.now (option_copied facet.entry) }
{
    match facet {
        Some(facet) => !is_any_named(names, texts_in(&facet.data_)),
        None => true,
    }
}

// Whether a group has no data sets, and its facet divides none of these lists.
fn reads_none(names: &[Text], mark: &VgMark) -> bool
    ensures { result ≡ reads_none names.now (group_object 0 (out-VgMark mark.now)) }
{
    data_of(&mark.group).len() == 0 && divides_none(names, facet_in(mark))
}

// Whether this holds of each group among marks.
#[cycle(reading)]
#[tactic(auto, using(crate::proofs::AlikeLemmas::read_first))]
fn all_read_none(names: &[Text], marks: &[VgMark]) -> bool
    ensures { result ≡ all_read_none names.now (marks_of marks.now) }
{
    for mark in marks {
        if !mark_reads_none(names, mark) {
            return false;
        }
    }
    true
}

// Whether it holds of a mark, and of those in it.
#[cycle(reading)]
#[tactic(auto, using(crate::proofs::AlikeLemmas::group_reads, crate::proofs::AlikeLemmas::plain_reads))]
fn mark_reads_none(names: &[Text], mark: &VgMark) -> bool
    ensures { result ≡ all_read_none names.now (marks_of (mark.now ∷ [])) }
{
    if is_group(mark) {
        group_reads_none(names, mark)
    } else {
        true
    }
}

// Whether it holds of a group, and of those in it.
#[cycle(reading)]
fn group_reads_none(names: &[Text], mark: &VgMark) -> bool
    ensures { result ≡ group_reads_none names.now (out-VgMark mark.now) }
{
    reads_none(names, mark) && all_read_none(names, marks_in(&mark.group))
}

// The names that the lists of the facet of a group have in a copy.
fn names_of_parts(facet: Option<&Facet>) -> &[Text]
    ensures { result.now ≡ names_of_parts (option_copied facet.entry) }
{
    match facet {
        Some(facet) => texts_in(&facet.name),
        None => &[],
    }
}

/// Whether the copies of a group are alike, as far as plots are counted: it has no data sets, and nothing that is counted in it reads the
/// lists of a copy.
pub(crate) fn are_alike(mark: &VgMark) -> bool
    ensures { result ≡ are_alike (group_object 0 (out-VgMark mark.now)) (marks_of (marks_in (out-Group (out-VgMark mark.now).group))) }
{
    data_of(&mark.group).len() == 0
        && all_read_none(names_of_parts(facet_in(mark)), marks_in(&mark.group))
}
