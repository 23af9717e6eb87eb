//! Trails, one step further.
ghost use Rattle.std.specs.Prelude.{◌≡◌, ◌++◌, IfOk, OnOk};
ghost use Rattle.vl_trails.specs.Trails.{to_item, to_member};

use spec_walk::Step;
use std::alloc::Global;
use text_kit::{OutOfMemory, Seq, Text};

// A copy of a step.
fn copied_step(step: &Step) -> Result<Step, OutOfMemory>
    ensures { IfOk result (λ copy. copy ≡ step.now) }
{
    match step {
        Step::Name(name) => name.copy().map(Step::Name),
        Step::Number(number) => Ok(Step::Number(*number)),
    }
}

// Adds copies of steps.
fn push_copies(steps: &[Step], out: &mut Seq<Step>) -> Result<(), OutOfMemory>
    ensures { OnOk result (out.new ≡ out.old ++ steps.now) }
{
    for step in steps {
        out.push(copied_step(step)?)?;
    }
    Ok(())
}

/// A trail that equals this one.
pub fn copied_trail(alloc: Global, trail: &[Step]) -> Result<Seq<Step>, OutOfMemory>
    ensures { IfOk result (λ copy. copy ≡ trail.now) }
{
    let mut out = Seq::new(alloc);
    push_copies(trail, &mut out)?;
    Ok(out)
}

/// One step further, to a member.
pub fn to_member(alloc: Global, trail: &[Step], name: &str) -> Result<Seq<Step>, OutOfMemory>
    ensures { IfOk result (λ longer. longer ≡ to_member trail.now name.now) }
{
    let mut longer = copied_trail(alloc, trail)?;
    longer.push(Step::Name(Text::of(alloc, name)?))?;
    Ok(longer)
}

/// One step further, to an item.
pub fn to_item(alloc: Global, trail: &[Step], number: usize) -> Result<Seq<Step>, OutOfMemory>
    ensures { IfOk result (λ longer. longer ≡ to_item trail.now number) }
{
    let mut longer = copied_trail(alloc, trail)?;
    longer.push(Step::Number(number))?;
    Ok(longer)
}
