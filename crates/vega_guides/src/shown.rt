// What an axis of a specification shows.
ghost use Rattle.std.specs.Prelude.{◌≡◌, ◌≤◌, IfOk, IfSome, unwrap_or};
ghost use Rattle.std.specs.Option.{option_map};
ghost use Rattle.vega_guides.specs.Shown.{edge_of, turns_labels, are_turned, IsCount, whole_of, IsAxis, axis_shown};

use fixed_num::Num;
use guide_kit::{AxisOf, Side as Edge};
use std::alloc::Global;
use text_kit::{Copies, OutOfMemory};
use vega_spec::{Axis, Side};

// The side of a plot.
fn edge_of(side: Side) -> Edge
    ensures { result ≡ edge_of side }
{
    match side {
        Side::Left => Edge::Left,
        Side::Right => Edge::Right,
        Side::Top => Edge::Top,
        Side::Bottom => Edge::Bottom,
    }
}

// Whether an angle turns labels.
fn turns_labels(angle: Num) -> bool
    ensures { result ≡ turns_labels angle }
{
    angle.millionths() == -90_000_000 || angle.millionths() == 270_000_000
}

// Whether labels are turned.
fn are_turned(angle: Option<Num>) -> bool
    ensures { result ≡ are_turned angle }
{
    match angle {
        Some(angle) => turns_labels(angle),
        None => false,
    }
}

/// The whole part of a number from 1 to 1,000.
pub fn whole_of(number: Num) -> u32
    requires { IsCount number }
    ensures value { result ≡ whole_of number }
    ensures some { 1 ≤ result }
    ensures few { result ≤ 1000 }
{
    (number.millionths().unsigned_abs() / 1_000_000) as u32
}

// For how many ticks an axis asks, if it does.
fn count_of(number: Option<Num>) -> Option<u32>
    requires { IfSome number IsCount }
    ensures value { result ≡ option_map whole_of number }
    ensures bounds { IfSome result (λ n. (1 ≤ n) × (n ≤ 1000)) }
{
    match number {
        Some(number) => Some(whole_of(number)),
        None => None,
    }
}

// A flag, or what stands for it where it is absent.
fn flag_or(given: Option<bool>, absent: bool) -> bool
    ensures { result ≡ unwrap_or given absent }
{
    match given {
        Some(flag) => flag,
        None => absent,
    }
}

/// An axis with what it leaves out.
pub fn axis_shown(alloc: Global, axis: &Axis) -> Result<AxisOf, OutOfMemory>
    requires { IsAxis axis.now }
    ensures value { IfOk result (λ shown. shown ≡ axis_shown axis.now) }
    ensures bounds { IfOk result (λ shown. IfSome shown.count (λ n. (1 ≤ n) × (n ≤ 1000))) }
{
    Ok(AxisOf {
        side: edge_of(axis.orient),
        title: Copies::copied(&axis.title, alloc)?,
        labels: flag_or(axis.labels, true),
        ticks: flag_or(axis.ticks, true),
        line: flag_or(axis.domain, true),
        grid: flag_or(axis.grid, false),
        turned: are_turned(axis.label_angle),
        count: count_of(axis.tick_count),
        values: Copies::copied(&axis.values, alloc)?,
        format: Copies::copied(&axis.format, alloc)?,
    })
}
