// The names of the marks of a specification.
ghost use Rattle.std.specs.Prelude.{◌≡◌, ◌++◌, flat_map, map, OnOk};
ghost use Rattle.vega_spec.specs.declared.spec.Group.{out-Group};
ghost use Rattle.vega_selections.specs.Marks.{is_group, marks_in, names_in, mark_names};

use std::alloc::Global;
use text_kit::{Copies, OutOfMemory, Seq, Text};
use vega_spec::{Group, MarkType, VgMark};

/// Whether marks of this type are groups.
pub(crate) fn is_group(type_: MarkType) -> bool
    ensures { result ≡ is_group type_ }
{
    match type_ {
        MarkType::Group => true,
        MarkType::Rect
        | MarkType::Symbol
        | MarkType::Line
        | MarkType::Area
        | MarkType::Rule
        | MarkType::Text => false,
    }
}

/// The marks of an object.
pub(crate) fn marks_in(group: &Group) -> &[VgMark]
    ensures { result.now ≡ marks_in (out-Group group.now) }
{
    match &group.marks {
        Some(marks) => marks.as_slice(),
        None => &[],
    }
}

/// Adds the names of the marks other than groups that stand in an object.
#[cycle(names)]
#[tactic(auto, using(crate::proofs::FoldLemmas::names_of_object))]
pub(crate) fn push_names(
    alloc: Global,
    group: &Group,
    out: &mut Seq<Option<Text>>,
) -> Result<(), OutOfMemory>
    ensures { OnOk result (out.new ≡ out.old ++ names_in group.now) }
{
    push_names_below(alloc, marks_in(group), out)
}

// Adds those of some marks.
#[cycle(names)]
fn push_names_below(
    alloc: Global,
    marks: &[VgMark],
    out: &mut Seq<Option<Text>>,
) -> Result<(), OutOfMemory>
    ensures { OnOk result (out.new ≡ out.old ++ flat_map (λ names. names) (map mark_names marks.now)) }
{
    for mark in marks {
        push_mark_names(alloc, mark, out)?;
    }
    Ok(())
}

// Adds those of a mark: its own, or those in the group that it is.
#[cycle(names)]
#[tactic(auto, using(crate::proofs::FoldLemmas::names_of_group, crate::proofs::FoldLemmas::name_of_plain))]
fn push_mark_names(
    alloc: Global,
    mark: &VgMark,
    out: &mut Seq<Option<Text>>,
) -> Result<(), OutOfMemory>
    ensures { OnOk result (out.new ≡ out.old ++ mark_names mark.now) }
{
    if is_group(mark.type_) {
        push_names(alloc, &mark.group, out)
    } else {
        out.push(Copies::copied(&mark.name, alloc)?)
    }
}
