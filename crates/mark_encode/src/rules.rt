// Rules.
ghost use Rattle.std.specs.Prelude.{◌≡◌, ◌≤◌, IfOk};
ghost use Rattle.cell_value.specs.Datum.{cell_at};
ghost use Rattle.cell_value.specs.State.{greatest_id};
ghost use Rattle.expr_eval.specs.Answers.{Evaluates};
ghost use Rattle.mark_encode.specs.Channels.{channel_values};
ghost use Rattle.mark_encode.specs.Rules.{ends_named, ends_for, rule_values_of, rule_for};
ghost use Rattle.mark_encode.specs.inner.Kinds.{end_values, rule_values};

use crate::channels::ChannelName;
use crate::numbers::{far_shown, number_shown};
use crate::prepared::{FarNumbers, Numbers, far_numbers_of, numbers_of};
use crate::scales::IndexedSet;
use crate::several::both;
use cell_value::Keyed;
use expr_eval::{EvalError, ParamReader};
use fixed_num::Num;
use mark_shapes::{Ends, ends_of, line_between};
use scene_tree::Shape;
use std::alloc::Global;
use text_kit::OutOfMemory;
use vega_spec::Encode;

/// The values in the channels of one direction of a rule, and how long its plot is.
#[derive(Drop)]
pub struct EndChannels<'a> {
    pub near: Numbers<'a>,
    pub far: FarNumbers<'a>,
    pub whole: Num,
}

/// The values in the channels of a rule, with the size of its plot.
#[derive(Drop)]
pub struct RuleChannels<'a> {
    pub across: EndChannels<'a>,
    pub down: EndChannels<'a>,
}

// The values in the channels of these names.
fn ends_named<'a>(
    alloc: Global,
    set: &'a IndexedSet<'a>,
    sets: &'a Option<Encode>,
    near: ChannelName,
    far: ChannelName,
    whole: Num,
) -> Result<EndChannels<'a>, OutOfMemory>
    ensures { IfOk result (λ ends. end_values ends ≡ ends_named (channel_values set.now sets.now) near far whole) }
{
    let (near, far) = both(
        numbers_of(alloc, set, sets, near),
        far_numbers_of(alloc, set, sets, far),
    )?;
    Ok(EndChannels { near, far, whole })
}

/// The values in the channels of a rule in a plot of this size.
pub fn rule_channels<'a>(
    alloc: Global,
    set: &'a IndexedSet<'a>,
    sets: &'a Option<Encode>,
    width: Num,
    height: Num,
) -> Result<RuleChannels<'a>, OutOfMemory>
    ensures { IfOk result (λ rule. rule_values rule ≡ rule_values_of width height (channel_values set.now sets.now)) }
{
    let (across, down) = both(
        ends_named(alloc, set, sets, ChannelName::X, ChannelName::X2, width),
        ends_named(alloc, set, sets, ChannelName::Y, ChannelName::Y2, height),
    )?;
    Ok(RuleChannels { across, down })
}

// Where a rule begins and ends along one direction for a row.
fn ends_for<P: ParamReader>(
    alloc: Global,
    ends: &EndChannels,
    row: &Keyed,
    params: &P,
) -> Result<Option<Ends>, EvalError>
    requires { row.now.key.id ≤ greatest_id }
    ensures { Evaluates result (ends_for (cell_at row.now) (P.values params.now) (end_values ends.now)) }
{
    let near = number_shown(alloc, &ends.near, row, params)?;
    let far = far_shown(alloc, &ends.far, row, params)?;
    Ok(ends_of(ends.whole, near, far))
}

/// The rule of a row; None where it lacks an end.
pub fn rule_for<P: ParamReader>(
    alloc: Global,
    rule: &RuleChannels,
    row: &Keyed,
    params: &P,
) -> Result<Option<Shape>, EvalError>
    requires { row.now.key.id ≤ greatest_id }
    ensures { Evaluates result (rule_for (rule_values rule.now) (cell_at row.now) (P.values params.now)) }
{
    let across = ends_for(alloc, &rule.across, row, params)?;
    let down = ends_for(alloc, &rule.down, row, params)?;
    Ok(line_between(across, down))
}
