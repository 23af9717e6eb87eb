//! Labels of instants as ticks.
ghost use Rattle.std.specs.Prelude.{◌≡◌, IsTrue, IfOk};
ghost use Rattle.time_calc.specs.Instants.{stands_for_instant};
ghost use Rattle.tick_kit.specs.TimeTicks.{whole_milliseconds};
ghost use Rattle.tick_kit.specs.TimeLabels.{default_pattern, time_label};

use crate::parts::{begins_day, begins_hour, begins_minute, begins_month, begins_second, part_at};
use fixed_num::Num;
use std::alloc::Global;
use text_kit::{OutOfMemory, Text};
use time_calc::{LabelError, PartOf, label};

// The pattern of the label of an instant.
fn default_pattern(at: Num) -> &'static str
    requires { IsTrue (stands_for_instant at) }
    ensures { result.now ≡ default_pattern (whole_milliseconds at) }
{
    if !begins_second(at) {
        ".%L"
    } else if !begins_minute(at) {
        ":%S"
    } else if !begins_hour(at) {
        "%I:%M"
    } else if !begins_day(at) {
        "%I %p"
    } else if !begins_month(at) {
        if part_at(at, PartOf::Day) == 0 {
            "%b %d"
        } else {
            "%a %d"
        }
    } else if part_at(at, PartOf::Month) == 0 {
        "%Y"
    } else {
        "%B"
    }
}

/// The label of a tick at `at`, an instant in milliseconds since 1970-01-01T00:00Z, in UTC: `.%L` off a whole second, `:%S` off a minute,
/// `%I:%M` off an hour, `%I %p` off a day; on a day that isn't the first of a month `%b %d` on Sundays and else `%a %d`; on the first
/// of a month `%B`, and on 1 January `%Y`.
pub fn time_label(alloc: Global, at: Num) -> Result<Text, OutOfMemory>
    requires { IsTrue (stands_for_instant at) }
    ensures { IfOk result (λ text. text ≡ time_label at) }
{
    match label(alloc, at, default_pattern(at)) {
        Ok(text) => Ok(text),
        Err(LabelError::Memory) => Err(OutOfMemory),
        Err(LabelError::Pattern) => unreachable!(),
        Err(LabelError::Instant) => unreachable!(),
    }
}
