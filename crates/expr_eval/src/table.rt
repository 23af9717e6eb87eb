// The table of builtins.
ghost use Rattle.std.specs.Prelude.{◌≢◌};
ghost use Rattle.expr_eval.specs.Table.{builtin, code_of_if};
ghost use Rattle.expr_eval.specs.Answers.{Evaluates};

use crate::EvalError;
use crate::builtins::{
    abs, ceil, clamp, floor, in_range, is_boolean, is_number, is_string, is_valid, part_of, round,
    sqrt, to_date, to_number, to_string,
};
use crate::lists::{band_space, instant, length, max, min};
use cell_value::Cell;
use std::alloc::Global;
use time_calc::PartOf;

/// The code of `if`, the one builtin that leaves an argument out.
pub(crate) const CODE_OF_IF: u16 = 15;

/// What the builtin of a code gives for the values of its arguments. `Overflow` exactly where the result is out of range.
#[tactic(auto, unfolding(crate::specs::Table::builtin_table))]
pub(crate) fn call(alloc: Global, code: u16, args: &[Cell]) -> Result<Cell, EvalError>
    requires { code ≢ code_of_if }
    ensures { Evaluates result (builtin code args.now) }
{
    macro_rules! dispatch {
        ($($name:literal $number:literal => $call:expr,)*) => {
            match code {
                $($number => $call,)*
                _ => Ok(Cell::Null),
            }
        };
    }
    dispatch! {
        "isValid" 0 => is_valid(args),
        "isNumber" 1 => is_number(args),
        "isString" 2 => is_string(args),
        "isBoolean" 3 => is_boolean(args),
        "toNumber" 4 => to_number(args),
        "toString" 5 => to_string(alloc, args),
        "toDate" 6 => to_date(args),
        "abs" 7 => abs(args),
        "ceil" 8 => ceil(args),
        "floor" 9 => floor(args),
        "sqrt" 10 => sqrt(args),
        "round" 11 => round(args),
        "min" 12 => min(args),
        "max" 13 => max(args),
        "clamp" 14 => clamp(args),
        "inrange" 16 => in_range(args),
        "length" 17 => length(args),
        "bandspace" 18 => band_space(args),
        "year" 19 => part_of(PartOf::Year, args),
        "quarter" 20 => part_of(PartOf::Quarter, args),
        "month" 21 => part_of(PartOf::Month, args),
        "date" 22 => part_of(PartOf::Date, args),
        "day" 23 => part_of(PartOf::Day, args),
        "hours" 24 => part_of(PartOf::Hours, args),
        "minutes" 25 => part_of(PartOf::Minutes, args),
        "seconds" 26 => part_of(PartOf::Seconds, args),
        "milliseconds" 27 => part_of(PartOf::Milliseconds, args),
        "utcyear" 28 => part_of(PartOf::Year, args),
        "utcquarter" 29 => part_of(PartOf::Quarter, args),
        "utcmonth" 30 => part_of(PartOf::Month, args),
        "utcdate" 31 => part_of(PartOf::Date, args),
        "utcday" 32 => part_of(PartOf::Day, args),
        "utchours" 33 => part_of(PartOf::Hours, args),
        "utcminutes" 34 => part_of(PartOf::Minutes, args),
        "utcseconds" 35 => part_of(PartOf::Seconds, args),
        "utcmilliseconds" 36 => part_of(PartOf::Milliseconds, args),
        "utc" 37 => instant(args),
        "datetime" 38 => instant(args),
    }
}
