//! The names of the tables, each in the order in which the codes count from 0, and how many arguments builtins take.
use case_table::{
    ARGUMENTS, BUILTINS, CHANNELS, Case, OPERATIONS, SCALE_KINDS, TIME_UNITS, admits, builtin_of,
    channel_of, find, operation_of, scale_kind_of, time_unit_of,
};

/// A table of names.
#[derive(Clone, Copy, Debug)]
enum Table {
    Operations,
    TimeUnits,
    Builtins,
    Channels,
    ScaleKinds,
}

/// A table, how many names it has, and the names.
type Names = (Table, usize, &'static str);

const NAMES: [Names; 5] = [
    (
        Table::Operations,
        19,
        concat!(
            "count valid missing distinct sum mean average min max median q1 q3 ",
            "row_number rank dense_rank lag lead first_value last_value",
        ),
    ),
    (
        Table::TimeUnits,
        32,
        concat!(
            "year yearquarter quarter yearmonth month yearmonthdate monthdate date day ",
            "yearmonthdatehours hours yearmonthdatehoursminutes hoursminutes minutes ",
            "yearmonthdatehoursminutesseconds seconds ",
            "utcyear utcyearquarter utcquarter utcyearmonth utcmonth utcyearmonthdate utcmonthdate utcdate utcday ",
            "utcyearmonthdatehours utchours utcyearmonthdatehoursminutes utchoursminutes utcminutes ",
            "utcyearmonthdatehoursminutesseconds utcseconds",
        ),
    ),
    (
        Table::Builtins,
        39,
        concat!(
            "isValid isNumber isString isBoolean toNumber toString toDate abs ceil floor sqrt round ",
            "min max clamp if inrange length bandspace ",
            "year quarter month date day hours minutes seconds milliseconds ",
            "utcyear utcquarter utcmonth utcdate utcday utchours utcminutes utcseconds utcmilliseconds utc datetime",
        ),
    ),
    (
        Table::Channels,
        13,
        "x y x2 y2 color opacity size shape detail text row column facet",
    ),
    (Table::ScaleKinds, 6, "linear time band point ordinal ramp"),
];

// The code of a name in a table.
fn code_of(table: Table, name: &str) -> Option<u16> {
    match table {
        Table::Operations => operation_of(name),
        Table::TimeUnits => time_unit_of(name),
        Table::Builtins => builtin_of(name),
        Table::Channels => channel_of(name),
        Table::ScaleKinds => scale_kind_of(name),
    }
}

// The same, found in the table itself.
fn found(table: Table, name: &str) -> Option<u16> {
    match table {
        Table::Operations => find(&OPERATIONS, name),
        Table::TimeUnits => find(&TIME_UNITS, name),
        Table::Builtins => find(&BUILTINS, name),
        Table::Channels => find(&CHANNELS, name),
        Table::ScaleKinds => find(&SCALE_KINDS, name),
    }
}

// Whether this is the code of a name, looked up in both ways.
fn is_code(table: Table, name: &str, code: usize) -> bool {
    code_of(table, name).map(usize::from) == Some(code)
        && found(table, name).map(usize::from) == Some(code)
}

// Whether a table has exactly these names, as many as told, and their codes count from 0.
fn has_names(table: Table, count: usize, names: &str) -> bool {
    for (code, name) in names.split(' ').enumerate() {
        if !is_code(table, name, code) {
            return false;
        }
    }
    names.split(' ').count() == count
}

const NO_NAMES: [&str; 4] = ["", "Count", "xx", "utc2"];

// Whether a table has none of the words that are no names.
fn has_no_other(table: Table) -> bool {
    for name in &NO_NAMES {
        if code_of(table, name).is_some() {
            return false;
        }
    }
    true
}

// Whether a table has the names of a row, and no others.
fn is_table(row: &Names) -> bool {
    has_names(row.0, row.1, row.2) && has_no_other(row.0)
}

#[test]
fn codes_count_from_0(rt: HostRuntime) {
    for row in &NAMES {
        assert!(rt; is_table(row), "{:?}", row.0);
    }
}

const TWICE: [Case; 3] = [
    Case { name: "a", code: 7 },
    Case { name: "b", code: 5 },
    Case { name: "a", code: 9 },
];

/// A name, and the code that is found.
type Found = (&'static str, Option<u16>);

const FOUND: [Found; 3] = [("a", Some(7)), ("b", Some(5)), ("c", None)];

// Whether the code of a name is found.
fn finds(row: &Found) -> bool {
    find(&TWICE, row.0) == row.1
}

#[test]
fn the_first_case_of_a_name_is_found(rt: HostRuntime) {
    for row in &FOUND {
        assert!(rt; finds(row), "{row:?}");
    }
}

/// A builtin, and the least and the greatest number of its arguments.
type Counts = (&'static str, usize, usize);

const COUNTS: [Counts; 10] = [
    ("isValid", 1, 1),
    ("toDate", 1, 1),
    ("round", 1, 1),
    ("min", 2, 8),
    ("max", 2, 8),
    ("clamp", 3, 3),
    ("if", 3, 3),
    ("inrange", 2, 2),
    ("bandspace", 3, 3),
    ("datetime", 2, 7),
];

// Whether a builtin takes as many arguments as it should, of counts below 10.
fn takes(row: &Counts) -> bool {
    let code = builtin_of(row.0).unwrap_or(u16::MAX);
    for count in 0..10 {
        if admits(code, count) != (row.1 <= count && count <= row.2) {
            return false;
        }
    }
    true
}

#[test]
fn builtins_take_so_many_arguments(rt: HostRuntime) {
    for row in &COUNTS {
        assert!(rt; takes(row), "{row:?}");
    }
}

#[test]
fn only_builtins_take_arguments(rt: HostRuntime) {
    assert!(rt; ARGUMENTS.len() == BUILTINS.len() && !admits(39, 1));
}
