// The start of a unit of time, as an expression.
ghost use Rattle.std.specs.Prelude.{◌≡◌, ◌==◌, ◌++◌, IfOk, OnOk};
ghost use Rattle.time_calc.specs.TimeUnits.{part_number, keeps};
ghost use Rattle.unit_plan.specs.Starts.{part_call, quarter_month, weekday_date, year_kept, month_kept, date_kept, time_kept, day_parts};
ghost use Rattle.unit_plan.specs.Starts.{time_parts, start_expr, start_by};

use crate::codes::{DATE, DATETIME, DAY, HOURS, MINUTES, MONTH, QUARTER, SECONDS, YEAR};
use case_table::{PartOf, unit_rule};
use expr_syntax::{BinOp, Expr};
use plan_kit::{binary, call_one, whole};
use std::alloc::Global;
use text_kit::{OutOfMemory, Seq, Text};

// The number of a part among the parts.
fn part_number(part: PartOf) -> u8
    ensures { result ≡ part_number part }
{
    match part {
        PartOf::Year => 0,
        PartOf::Quarter => 1,
        PartOf::Month => 2,
        PartOf::Date => 3,
        PartOf::Day => 4,
        PartOf::Hours => 5,
        PartOf::Minutes => 6,
        PartOf::Seconds => 7,
        PartOf::Milliseconds => 8,
    }
}

// Whether two parts are the same.
fn is_part(one: PartOf, other: PartOf) -> bool
    ensures { result ≡ (part_number one == part_number other) }
{
    part_number(one) == part_number(other)
}

// Whether a part is one of those that are kept.
fn keeps(kept: &[PartOf], part: PartOf) -> bool
    ensures { result ≡ keeps kept.now part }
{
    for one in kept {
        if is_part(*one, part) {
            return true;
        }
    }
    false
}

// A part of the instant in a field, by the code of its builtin.
fn part_call(alloc: Global, code: u16, field: &Text) -> Result<Expr, OutOfMemory>
    ensures { IfOk result (λ e. e ≡ part_call code field.now) }
{
    let name = field.copy()?;
    call_one(alloc, code, Expr::Field(name))
}

// The first month of the quarter.
fn quarter_month(alloc: Global, field: &Text) -> Result<Expr, OutOfMemory>
    ensures { IfOk result (λ e. e ≡ quarter_month field.now) }
{
    let quarter = part_call(alloc, QUARTER, field)?;
    let before = binary(alloc, BinOp::Sub, quarter, whole(1))?;
    binary(alloc, BinOp::Mul, before, whole(3))
}

// The day of January 2012 that falls on the weekday.
fn weekday_date(alloc: Global, field: &Text) -> Result<Expr, OutOfMemory>
    ensures { IfOk result (λ e. e ≡ weekday_date field.now) }
{
    let day = part_call(alloc, DAY, field)?;
    binary(alloc, BinOp::Add, whole(1), day)
}

// The year.
fn year_kept(alloc: Global, kept: &[PartOf], field: &Text) -> Result<Expr, OutOfMemory>
    ensures { IfOk result (λ e. e ≡ year_kept kept.now field.now) }
{
    if keeps(kept, PartOf::Year) {
        part_call(alloc, YEAR, field)
    } else {
        Ok(whole(2012))
    }
}

// The month.
fn month_kept(alloc: Global, kept: &[PartOf], field: &Text) -> Result<Expr, OutOfMemory>
    ensures { IfOk result (λ e. e ≡ month_kept kept.now field.now) }
{
    if keeps(kept, PartOf::Month) {
        part_call(alloc, MONTH, field)
    } else if keeps(kept, PartOf::Quarter) {
        quarter_month(alloc, field)
    } else {
        Ok(whole(0))
    }
}

// The day of the month.
fn date_kept(alloc: Global, kept: &[PartOf], field: &Text) -> Result<Expr, OutOfMemory>
    ensures { IfOk result (λ e. e ≡ date_kept kept.now field.now) }
{
    if keeps(kept, PartOf::Date) {
        part_call(alloc, DATE, field)
    } else if keeps(kept, PartOf::Day) {
        weekday_date(alloc, field)
    } else {
        Ok(whole(1))
    }
}

// A part of the time of day, by the code of its builtin.
fn time_kept(
    alloc: Global,
    kept: &[PartOf],
    part: PartOf,
    code: u16,
    field: &Text,
) -> Result<Expr, OutOfMemory>
    ensures { IfOk result (λ e. e ≡ time_kept kept.now part code field.now) }
{
    if keeps(kept, part) {
        part_call(alloc, code, field)
    } else {
        Ok(whole(0))
    }
}

// Adds the day.
fn push_day(
    alloc: Global,
    kept: &[PartOf],
    field: &Text,
    parts: &mut Seq<Expr>,
) -> Result<(), OutOfMemory>
    ensures { OnOk result (parts.new ≡ parts.old ++ day_parts kept.now field.now) }
{
    parts.push(year_kept(alloc, kept, field)?)?;
    parts.push(month_kept(alloc, kept, field)?)?;
    parts.push(date_kept(alloc, kept, field)?)
}

// Adds the time of day.
fn push_time(
    alloc: Global,
    kept: &[PartOf],
    field: &Text,
    parts: &mut Seq<Expr>,
) -> Result<(), OutOfMemory>
    ensures { OnOk result (parts.new ≡ parts.old ++ time_parts kept.now field.now) }
{
    parts.push(time_kept(alloc, kept, PartOf::Hours, HOURS, field)?)?;
    parts.push(time_kept(alloc, kept, PartOf::Minutes, MINUTES, field)?)?;
    parts.push(time_kept(alloc, kept, PartOf::Seconds, SECONDS, field)?)
}

// Adds both.
fn push_parts(
    alloc: Global,
    kept: &[PartOf],
    field: &Text,
    parts: &mut Seq<Expr>,
) -> Result<(), OutOfMemory>
    ensures { OnOk result (parts.new ≡ parts.old ++ day_parts kept.now field.now ++ time_parts kept.now field.now) }
{
    push_day(alloc, kept, field, parts)?;
    push_time(alloc, kept, field, parts)
}

// The start of the unit of time that keeps these parts.
fn start_expr(alloc: Global, kept: &[PartOf], field: &Text) -> Result<Expr, OutOfMemory>
    ensures { IfOk result (λ e. e ≡ start_expr kept.now field.now) }
{
    let mut parts = Seq::with_capacity(alloc, 6)?;
    push_parts(alloc, kept, field, &mut parts)?;
    Ok(Expr::Call(DATETIME, parts))
}

/// The start of the unit of time of a code at the instant in a field.
#[tactic(auto, unfolding(crate::specs::Starts::start_by))]
pub(crate) fn start_by(alloc: Global, code: u16, field: &Text) -> Result<Expr, OutOfMemory>
    ensures { IfOk result (λ e. e ≡ start_by code field.now) }
{
    match unit_rule(code) {
        Some(rule) => start_expr(alloc, rule.kept, field),
        None => Ok(Expr::Null),
    }
}
