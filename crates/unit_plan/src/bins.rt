// Bins and units of time of definitions, as steps.
ghost use Rattle.std.specs.Prelude.{◌≡◌, ◌++◌, None, flat_map, option_copied, IfOk, OnOk};
ghost use Rattle.unit_plan.specs.Bins.{bin_of, unit_of, bins_by, units_by, bins_of, units_of_time, bin_cuts, unit_cuts};
ghost use Rattle.unit_plan.specs.inner.LentShows.{show_shown, shows_shown};

use crate::shows::{ShownHere, field_in};
use crate::transforms::{count_in, shared_end};
use cell_names::{bin_name, bin_settings, bins_in, most_bins, unit_name};
use cell_value::SharedText;
use plain_rows::{BinOf, TimeOf};
use plan_kit::{Step, number_or};
use std::alloc::Global;
use text_kit::{OutOfMemory, Seq, Text};
use vl_spec::{Bin, FieldDefinition};

// The bins of a field of a channel.
fn bin_of(alloc: Global, channel: u16, bin: &Bin, field: &Text) -> Result<BinOf, OutOfMemory>
    ensures { IfOk result (λ how. how ≡ bin_of channel bin.now field.now) }
{
    let settings = bin_settings(bin);
    let start = bin_name(alloc, channel, bin, field.as_str())?;
    Ok(BinOf {
        field: field.copy()?,
        extent: None,
        step: settings.step,
        maxbins: count_in(number_or(settings.maxbins, most_bins(channel))),
        out_end: shared_end(alloc, &start)?,
        out: SharedText::of_text(alloc, start)?,
    })
}

// Its units of time.
fn unit_of(alloc: Global, unit: u16, field: &Text) -> Result<TimeOf, OutOfMemory>
    ensures { IfOk result (λ how. how ≡ unit_of unit field.now) }
{
    let start = unit_name(alloc, unit, field.as_str())?;
    Ok(TimeOf {
        field: field.copy()?,
        unit,
        out_end: shared_end(alloc, &start)?,
        out: SharedText::of_text(alloc, start)?,
    })
}

// Adds the bins of a definition that may lack bins, or a field.
fn push_bins_by(
    alloc: Global,
    channel: u16,
    bin: Option<&Bin>,
    field: &Option<Text>,
    steps: &mut Seq<Step>,
) -> Result<(), OutOfMemory>
    ensures { OnOk result (steps.new ≡ steps.old ++ bins_by channel (option_copied bin.entry) field.now) }
{
    match bin {
        Some(bin) => match field {
            Some(field) => steps.push(Step::Bin(bin_of(alloc, channel, bin, field)?)),
            None => Ok(()),
        },
        None => Ok(()),
    }
}

// Adds its units of time.
fn push_units_by(
    alloc: Global,
    unit: Option<u16>,
    field: &Option<Text>,
    steps: &mut Seq<Step>,
) -> Result<(), OutOfMemory>
    ensures { OnOk result (steps.new ≡ steps.old ++ units_by None unit field.now) }
{
    match unit {
        Some(unit) => match field {
            Some(field) => steps.push(Step::Unit(unit_of(alloc, unit, field)?)),
            None => Ok(()),
        },
        None => Ok(()),
    }
}

// Adds the bins of a definition, where they act.
fn push_bins_of(
    alloc: Global,
    channel: u16,
    of: &FieldDefinition,
    steps: &mut Seq<Step>,
) -> Result<(), OutOfMemory>
    ensures { OnOk result (steps.new ≡ steps.old ++ bins_of channel of.now) }
{
    if of.aggregate.is_some() {
        Ok(())
    } else {
        push_bins_by(alloc, channel, bins_in(of), &of.field, steps)
    }
}

// Adds its units of time, where they act.
fn push_units_of(
    alloc: Global,
    of: &FieldDefinition,
    steps: &mut Seq<Step>,
) -> Result<(), OutOfMemory>
    ensures { OnOk result (steps.new ≡ steps.old ++ units_of_time of.now) }
{
    if of.aggregate.is_some() {
        return Ok(());
    }
    match bins_in(of) {
        Some(_) => Ok(()),
        None => push_units_by(alloc, of.time_unit, &of.field, steps),
    }
}

// Adds the bins of what is shown.
fn push_bin_cuts(alloc: Global, shown: &ShownHere, steps: &mut Seq<Step>) -> Result<(), OutOfMemory>
    ensures { OnOk result (steps.new ≡ steps.old ++ bin_cuts (show_shown shown.now)) }
{
    match field_in(shown.shows) {
        Some(of) => push_bins_of(alloc, shown.channel, of, steps),
        None => Ok(()),
    }
}

// Adds its units of time.
fn push_unit_cuts(
    alloc: Global,
    shown: &ShownHere,
    steps: &mut Seq<Step>,
) -> Result<(), OutOfMemory>
    ensures { OnOk result (steps.new ≡ steps.old ++ unit_cuts (show_shown shown.now)) }
{
    match field_in(shown.shows) {
        Some(of) => push_units_of(alloc, of, steps),
        None => Ok(()),
    }
}

/// Adds the bins of definitions.
pub(crate) fn push_bins(
    alloc: Global,
    shows: &[ShownHere],
    steps: &mut Seq<Step>,
) -> Result<(), OutOfMemory>
    ensures { OnOk result (steps.new ≡ steps.old ++ flat_map bin_cuts (shows_shown shows.now)) }
{
    for shown in shows {
        push_bin_cuts(alloc, shown, steps)?;
    }
    Ok(())
}

/// Adds their units of time.
pub(crate) fn push_units(
    alloc: Global,
    shows: &[ShownHere],
    steps: &mut Seq<Step>,
) -> Result<(), OutOfMemory>
    ensures { OnOk result (steps.new ≡ steps.old ++ flat_map unit_cuts (shows_shown shows.now)) }
{
    for shown in shows {
        push_unit_cuts(alloc, shown, steps)?;
    }
    Ok(())
}
