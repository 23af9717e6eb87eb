//! The tables of names, each in the order in which the codes count.
use crate::case::Case;

macro_rules! cases {
    ($($name:literal $code:literal),*) => {
        [$(Case { name: $name, code: $code }),*]
    };
}

/// The operations of aggregates, then those that windows have besides.
pub const OPERATIONS: [Case; 19] = cases![
    "count" 0, "valid" 1, "missing" 2, "distinct" 3, "sum" 4, "mean" 5, "average" 6, "min" 7, "max" 8,
    "median" 9, "q1" 10, "q3" 11, "row_number" 12, "rank" 13, "dense_rank" 14, "lag" 15, "lead" 16,
    "first_value" 17, "last_value" 18
];

/// The time units, then the same in UTC.
pub const TIME_UNITS: [Case; 32] = cases![
    "year" 0, "yearquarter" 1, "quarter" 2, "yearmonth" 3, "month" 4, "yearmonthdate" 5, "monthdate" 6,
    "date" 7, "day" 8, "yearmonthdatehours" 9, "hours" 10, "yearmonthdatehoursminutes" 11, "hoursminutes" 12,
    "minutes" 13, "yearmonthdatehoursminutesseconds" 14, "seconds" 15, "utcyear" 16, "utcyearquarter" 17,
    "utcquarter" 18, "utcyearmonth" 19, "utcmonth" 20, "utcyearmonthdate" 21, "utcmonthdate" 22,
    "utcdate" 23, "utcday" 24, "utcyearmonthdatehours" 25, "utchours" 26, "utcyearmonthdatehoursminutes" 27,
    "utchoursminutes" 28, "utcminutes" 29, "utcyearmonthdatehoursminutesseconds" 30, "utcseconds" 31
];

/// The builtins of expressions: of values, of numbers, of choices and texts, the parts of an instant, the same in UTC, instants.
pub const BUILTINS: [Case; 39] = cases![
    "isValid" 0, "isNumber" 1, "isString" 2, "isBoolean" 3, "toNumber" 4, "toString" 5, "toDate" 6, "abs" 7,
    "ceil" 8, "floor" 9, "sqrt" 10, "round" 11, "min" 12, "max" 13, "clamp" 14, "if" 15, "inrange" 16,
    "length" 17, "bandspace" 18, "year" 19, "quarter" 20, "month" 21, "date" 22, "day" 23, "hours" 24,
    "minutes" 25, "seconds" 26, "milliseconds" 27, "utcyear" 28, "utcquarter" 29, "utcmonth" 30,
    "utcdate" 31, "utcday" 32, "utchours" 33, "utcminutes" 34, "utcseconds" 35, "utcmilliseconds" 36,
    "utc" 37, "datetime" 38
];

/// The channels of Vega-Lite.
pub const CHANNELS: [Case; 13] = cases![
    "x" 0, "y" 1, "x2" 2, "y2" 3, "color" 4, "opacity" 5, "size" 6, "shape" 7, "detail" 8, "text" 9,
    "row" 10, "column" 11, "facet" 12
];

/// The kinds of scales.
pub const SCALE_KINDS: [Case; 6] = cases![
    "linear" 0, "time" 1, "band" 2, "point" 3, "ordinal" 4, "ramp" 5
];
