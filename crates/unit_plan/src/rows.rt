// The steps over the rows of a unit.
ghost use Rattle.std.specs.Prelude.{◌≡◌, ◌++◌, map, IfOk, OnOk};
ghost use Rattle.vl_compose.specs.Shown.{unit_shown};
ghost use Rattle.vl_compose.specs.Views.{transforms_of};
ghost use Rattle.unit_plan.specs.Bins.{bin_steps, unit_steps};
ghost use Rattle.unit_plan.specs.Groups.{group_steps};
ghost use Rattle.unit_plan.specs.Reads.{read_steps};
ghost use Rattle.unit_plan.specs.Rows.{before, after};
ghost use Rattle.unit_plan.specs.Selections.{is_selection};
ghost use Rattle.unit_plan.specs.Stacks.{stack_step, stack_steps};
ghost use Rattle.unit_plan.specs.Transforms.{step_of};

use crate::bins::{push_bins, push_units};
use crate::groups::{aggregates, groups_of};
use crate::measures::first_type;
use crate::reads::push_reads;
use crate::selections::SelectionNames;
use crate::shows::shows_of;
use crate::stacks::stack_settings_of;
use crate::transforms::push_transforms;
use plain_rows::StackOf;
use plan_kit::Step;
use std::alloc::Global;
use text_kit::{OutOfMemory, Seq};
use vl_compose::UnitHere;
use vl_normalize::{X, Y};

// Adds the transforms of the views round a unit.
fn push_outer(
    alloc: Global,
    names: &SelectionNames,
    unit: &UnitHere,
    steps: &mut Seq<Step>,
) -> Result<(), OutOfMemory>
    ensures { OnOk result (steps.new
        ≡ steps.old ++ map (step_of (is_selection names.now.params.now)) (transforms_of (unit_shown unit.now).round)) }
{
    let transforms = vl_compose::transforms_of(alloc, unit.round.as_slice())?;
    push_transforms(alloc, names, transforms.as_slice(), steps)
}

// Adds the readings of instants.
fn push_unit_reads(alloc: Global, unit: &UnitHere, steps: &mut Seq<Step>) -> Result<(), OutOfMemory>
    ensures { OnOk result (steps.new ≡ steps.old ++ read_steps (unit_shown unit.now)) }
{
    let x = first_type(alloc, unit, X)?;
    let y = first_type(alloc, unit, Y)?;
    let shows = shows_of(alloc, unit)?;
    push_reads(alloc, x, y, shows.as_slice(), steps)
}

// Adds the bins, and then the units of time.
fn push_cuts(alloc: Global, unit: &UnitHere, steps: &mut Seq<Step>) -> Result<(), OutOfMemory>
    ensures { OnOk result (steps.new ≡ steps.old ++ bin_steps (unit_shown unit.now) ++ unit_steps (unit_shown unit.now)) }
{
    let shows = shows_of(alloc, unit)?;
    push_bins(alloc, shows.as_slice(), steps)?;
    push_units(alloc, shows.as_slice(), steps)
}

// Adds the steps before a row stands for several.
fn push_before(
    alloc: Global,
    names: &SelectionNames,
    unit: &UnitHere,
    steps: &mut Seq<Step>,
) -> Result<(), OutOfMemory>
    ensures { OnOk result (steps.new ≡ steps.old ++ before (is_selection names.now.params.now) (unit_shown unit.now)) }
{
    push_outer(alloc, names, unit, steps)?;
    push_unit_reads(alloc, unit, steps)?;
    push_cuts(alloc, unit, steps)
}

/// The steps before a row stands for several.
pub(crate) fn before(
    alloc: Global,
    names: &SelectionNames,
    unit: &UnitHere,
) -> Result<Seq<Step>, OutOfMemory>
    ensures { IfOk result (λ steps. steps ≡ before (is_selection names.now.params.now) (unit_shown unit.now)) }
{
    let mut steps = Seq::new(alloc);
    push_before(alloc, names, unit, &mut steps)?;
    Ok(steps)
}

// Adds the groups of aggregates.
fn push_groups(alloc: Global, unit: &UnitHere, steps: &mut Seq<Step>) -> Result<(), OutOfMemory>
    ensures { OnOk result (steps.new ≡ steps.old ++ group_steps (unit_shown unit.now)) }
{
    if aggregates(alloc, unit)? {
        steps.push(Step::Group(groups_of(alloc, unit)?))
    } else {
        Ok(())
    }
}

// Adds a stack, if there is one.
fn push_stack(how: Option<StackOf>, steps: &mut Seq<Step>) -> Result<(), OutOfMemory>
    ensures { OnOk result (steps.new ≡ steps.old ++ stack_step how) }
{
    match how {
        Some(how) => steps.push(Step::Stack(how)),
        None => Ok(()),
    }
}

// Adds that of a unit.
fn push_unit_stack(alloc: Global, unit: &UnitHere, steps: &mut Seq<Step>) -> Result<(), OutOfMemory>
    ensures { OnOk result (steps.new ≡ steps.old ++ stack_steps (unit_shown unit.now)) }
{
    push_stack(stack_settings_of(alloc, unit)?, steps)
}

/// The steps from there on.
pub(crate) fn after(alloc: Global, unit: &UnitHere) -> Result<Seq<Step>, OutOfMemory>
    ensures { IfOk result (λ steps. steps ≡ after (unit_shown unit.now)) }
{
    let mut steps = Seq::new(alloc);
    push_groups(alloc, unit, &mut steps)?;
    push_unit_stack(alloc, unit, &mut steps)?;
    Ok(steps)
}
