// The sources and the parameters of a specification.
ghost use Rattle.std.specs.Prelude.{◌≡◌, ◌++◌, map, flat_map, IfOk, OnOk};
ghost use Rattle.vega_spec.specs.Names.{kind_of, parameter_of, parameters_of, own_source, own_sources, sources_in, mark_sources, sources_of};

use crate::{DataSet, Group, Signal, VgMark, VgSpec};
use std::alloc::Global;
use text_kit::{OutOfMemory, Seq, Text};

/// What commands may do with a parameter.
#[derive(Clone, Copy, Debug, PartialEq, Eq)]
pub enum ParameterKind {
    /// It can be set.
    Settable,
    /// It is computed from others.
    Computed,
    /// It is a selection, which events change.
    Selection,
}

/// A parameter: a signal of the top.
#[derive(Debug)]
pub struct Parameter {
    /// Its name.
    pub name: Text,
    /// Its kind.
    pub kind: ParameterKind,
}

impl Drop for Parameter {
    fn drop(self) {
        let Parameter { name: _, kind: _ } = self;
    }
}

// The kind of a signal.
fn kind_of(signal: &Signal) -> ParameterKind
    ensures { result ≡ kind_of signal.now }
{
    if signal.on.is_some() {
        ParameterKind::Selection
    } else if signal.update.is_some() {
        ParameterKind::Computed
    } else {
        ParameterKind::Settable
    }
}

// A signal as a parameter.
fn parameter_of(signal: &Signal) -> Result<Parameter, OutOfMemory>
    ensures { IfOk result (λ p. p ≡ parameter_of signal.now) }
{
    Ok(Parameter {
        name: signal.name.copy()?,
        kind: kind_of(signal),
    })
}

// Signals as parameters.
fn parameters_in(alloc: Global, signals: &[Signal]) -> Result<Seq<Parameter>, OutOfMemory>
    ensures { IfOk result (λ ps. ps ≡ map parameter_of signals.now) }
{
    let mut out = Seq::new(alloc);
    for signal in signals {
        out.push(parameter_of(signal)?)?;
    }
    Ok(out)
}

/// The parameters of a specification, in their order: the signals of the top, by name and kind.
pub fn parameters_of(alloc: Global, g: &VgSpec) -> Result<Seq<Parameter>, OutOfMemory>
    ensures { IfOk result (λ ps. ps ≡ parameters_of g.now) }
{
    match &g.group.signals {
        Some(signals) => parameters_in(alloc, signals.as_slice()),
        None => Ok(Seq::new(alloc)),
    }
}

// Adds a data set that is a source.
fn push_own(set: &DataSet, out: &mut Seq<Text>) -> Result<(), OutOfMemory>
    ensures { OnOk result (out.new ≡ out.old ++ own_source set.now) }
{
    if set.source.is_some() {
        return Ok(());
    }
    out.push(set.name.copy()?)
}

// Adds the sources among some data sets.
fn push_all_own(sets: &[DataSet], out: &mut Seq<Text>) -> Result<(), OutOfMemory>
    ensures { OnOk result (out.new ≡ out.old ++ own_sources sets.now) }
{
    for set in sets {
        push_own(set, out)?;
    }
    Ok(())
}

// Adds the sources of an object and of the groups in it.
#[cycle(sources)]
fn push_sources(group: &Group, out: &mut Seq<Text>) -> Result<(), OutOfMemory>
    ensures { OnOk result (out.new ≡ out.old ++ sources_in group.now) }
{
    if let Some(sets) = &group.data_ {
        push_all_own(sets.as_slice(), out)?;
    }
    match &group.marks {
        Some(marks) => push_below(marks.as_slice(), out),
        None => Ok(()),
    }
}

// Adds those of some marks.
#[cycle(sources)]
fn push_below(marks: &[VgMark], out: &mut Seq<Text>) -> Result<(), OutOfMemory>
    ensures { OnOk result (out.new ≡ out.old ++ flat_map (λ names. names) (map mark_sources marks.now)) }
{
    for mark in marks {
        push_sources(&mark.group, out)?;
    }
    Ok(())
}

/// The names of the sources of a specification, which are its data sets without a `source`: those of an object before those of
/// the groups in it.
pub fn sources_of(alloc: Global, g: &VgSpec) -> Result<Seq<Text>, OutOfMemory>
    ensures { IfOk result (λ names. names ≡ sources_of g.now) }
{
    let mut out = Seq::new(alloc);
    push_sources(&g.group, &mut out)?;
    Ok(out)
}
