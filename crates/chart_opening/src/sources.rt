//! The sources of a specification.
ghost use Rattle.std.specs.Prelude.{◌≡◌, ◌++◌, flat_map, map, IfOk, OnOk};
ghost use Rattle.chart_opening.specs.Sources.{own_set, own_sets, sets_in, mark_sets, source_sets, is_csv};

use std::alloc::Global;
use text_kit::OutOfMemory;
use vega_spec::{DataSet, FormatKind, Group, VgMark, VgSpec};

// Adds a data set, where it is a source.
fn push_own<'a>(sets: &mut Vec<&'a DataSet>, set: &'a DataSet) -> Result<(), OutOfMemory>
    ensures { OnOk result (map (λ s. s.now) sets.new.items ≡ map (λ s. s.now) sets.old.items ++ own_set set.now) }
{
    if set.source.is_some() {
        return Ok(());
    }
    sets.push(set)?;
    Ok(())
}

// Adds the sources among some data sets.
fn push_all_own<'a>(sets: &mut Vec<&'a DataSet>, all: &'a [DataSet]) -> Result<(), OutOfMemory>
    ensures { OnOk result (map (λ s. s.now) sets.new.items ≡ map (λ s. s.now) sets.old.items ++ own_sets all.now) }
{
    for set in all {
        push_own(sets, set)?;
    }
    Ok(())
}

// Adds the sources of an object and of the groups in it.
#[cycle(sources)]
fn push_sets<'a>(sets: &mut Vec<&'a DataSet>, group: &'a Group) -> Result<(), OutOfMemory>
    ensures { OnOk result (map (λ s. s.now) sets.new.items ≡ map (λ s. s.now) sets.old.items ++ sets_in group.now) }
{
    if let Some(all) = &group.data_ {
        push_all_own(sets, all.as_slice())?;
    }
    match &group.marks {
        Some(marks) => push_below(sets, marks.as_slice()),
        None => Ok(()),
    }
}

// Adds those of some marks.
#[cycle(sources)]
fn push_below<'a>(sets: &mut Vec<&'a DataSet>, marks: &'a [VgMark]) -> Result<(), OutOfMemory>
    ensures { OnOk result (map (λ s. s.now) sets.new.items
        ≡ map (λ s. s.now) sets.old.items ++ flat_map (λ sets. sets) (map mark_sets marks.now)) }
{
    for mark in marks {
        push_sets(sets, &mark.group)?;
    }
    Ok(())
}

/// The sources of a specification, which are its data sets without a `source`: those of an object before those of the groups in it.
pub fn source_sets<'a>(alloc: Global, g: &'a VgSpec) -> Result<Vec<&'a DataSet>, OutOfMemory>
    ensures { IfOk result (λ sets. map (λ s. s.now) sets.items ≡ source_sets g.now) }
{
    let mut sets = Vec::new(alloc);
    push_sets(&mut sets, &g.group)?;
    Ok(sets)
}

/// Whether the file of a data set is CSV; without a type it is JSON.
pub fn is_csv(set: &DataSet) -> bool
    ensures { result ≡ is_csv set.now }
{
    match &set.format {
        Some(format) => format.type_ == Some(FormatKind::Csv),
        None => false,
    }
}
