// Worked values: each expected value is computed with whole numbers of any size.
use fixed_num::{Num, NumFault};
use std::alloc::{AllocError, Global};

#[derive(Clone, Copy, Debug)]
enum Operation {
    Sum,
    Difference,
    Product,
    Quotient,
    Floor,
    Ceiling,
}

/// An operation, two numbers, and what it gives of them.
type Operated = (Operation, i128, i128, Option<i128>);

const OPERATIONS: [Operated; 47] = [
    (
        Operation::Sum,
        1000000000000000000000,
        0,
        Some(1000000000000000000000),
    ),
    (Operation::Sum, 1000000000000000000000, 1, None),
    (Operation::Sum, -1000000000000000000000, -1, None),
    (Operation::Sum, 5, -7, Some(-2)),
    (Operation::Difference, -1000000000000000000000, 1, None),
    (
        Operation::Difference,
        1000000000000000000000,
        1000000000000000000000,
        Some(0),
    ),
    (Operation::Difference, 3, 5, Some(-2)),
    (Operation::Product, 1, 500000, Some(1)),
    (Operation::Product, -1, 500000, Some(0)),
    (Operation::Product, 3, 500000, Some(2)),
    (Operation::Product, -3, 500000, Some(-1)),
    (Operation::Product, 1, 499999, Some(0)),
    (Operation::Product, -1, 500001, Some(-1)),
    (
        Operation::Product,
        1000000000000000000000,
        1000000,
        Some(1000000000000000000000),
    ),
    (Operation::Product, 1000000000000000000000, 1000001, None),
    (
        Operation::Product,
        1000000000000000000000,
        1000000000000000000000,
        None,
    ),
    (
        Operation::Product,
        -1000000000000000000000,
        1000000000000000000000,
        None,
    ),
    (Operation::Product, 31622776601683, 31622776601683793, None),
    (Operation::Product, 1000000000000000000, 1000000001, None),
    (Operation::Product, 2500000, -1, Some(-2)),
    (Operation::Quotient, 1, 2000000, Some(1)),
    (Operation::Quotient, -1, 2000000, Some(0)),
    (Operation::Quotient, 3, 2000000, Some(2)),
    (Operation::Quotient, -3, 2000000, Some(-1)),
    (Operation::Quotient, 1, -2000000, Some(0)),
    (Operation::Quotient, 1000000, 3000000, Some(333333)),
    (Operation::Quotient, -2000000, 3000000, Some(-666667)),
    (Operation::Quotient, 1, 0, None),
    (Operation::Quotient, 0, 0, None),
    (
        Operation::Quotient,
        1000000000000000000000,
        1000000,
        Some(1000000000000000000000),
    ),
    (Operation::Quotient, 1000000000000000000000, 999999, None),
    (
        Operation::Quotient,
        1000000000000000000000,
        1000000000000000000000,
        Some(1000000),
    ),
    (Operation::Quotient, 1, 3, Some(333333)),
    (Operation::Quotient, 7, -1000000000000000000000, Some(0)),
    (Operation::Floor, 7, 5, Some(5)),
    (Operation::Floor, -7, 5, Some(-10)),
    (Operation::Floor, -5, 5, Some(-5)),
    (
        Operation::Floor,
        1000000000000000000000,
        3,
        Some(999999999999999999999),
    ),
    (Operation::Floor, -1000000000000000000000, 3, None),
    (Operation::Ceiling, 7, 5, Some(10)),
    (Operation::Ceiling, -7, 5, Some(-5)),
    (Operation::Ceiling, 1000000000000000000000, 3, None),
    (
        Operation::Ceiling,
        -1000000000000000000000,
        3,
        Some(-999999999999999999999),
    ),
    (Operation::Ceiling, 10, 5, Some(10)),
    (
        Operation::Product,
        123456789012345678,
        765432109,
        Some(94497790384087779349),
    ),
    (
        Operation::Product,
        -31622776601683,
        31622776601682,
        Some(-999999999999918203262),
    ),
    (
        Operation::Quotient,
        123456789012345678901,
        -98765432109,
        Some(-1249999988620469),
    ),
];

/// `m`, `p`, `q` and `r`, and what `m + p * q / r` is.
type Along = (i128, i128, i128, i128, Option<i128>);

const ALONG: [Along; 18] = [
    (0, 1, 1, 2, Some(1)),
    (0, -1, 1, 2, Some(0)),
    (0, 1, 1, -2, Some(0)),
    (0, 3, 1, 2, Some(2)),
    (0, -3, 1, 2, Some(-1)),
    (1, -1, 1, 2, Some(1)),
    (200, -28, 200, 55, Some(98)),
    (0, 2000000000000000000000, 2000000000000000000000, 1, None),
    (
        -1000000000000000000000,
        2000000000000000000000,
        2000000000000000000000,
        2000000000000000000000,
        Some(1000000000000000000000),
    ),
    (
        -1000000000000000000000,
        2000000000000000000000,
        2000000000000000000000,
        1999999999999999999999,
        None,
    ),
    (
        1000000000000000000000,
        -2000000000000000000000,
        1000000000000000000000,
        1000000000000000000000,
        Some(-1000000000000000000000),
    ),
    (
        0,
        1000000000000000000000,
        999999999999999999999,
        1000000000000000000000,
        Some(999999999999999999999),
    ),
    (
        0,
        1999999999999999999999,
        1000000000000000000001,
        2000000000000000000000,
        Some(1000000000000000000000),
    ),
    (
        0,
        -1999999999999999999999,
        1000000000000000000001,
        2000000000000000000000,
        Some(-1000000000000000000000),
    ),
    (
        0,
        999999999999999999999,
        1999999999999999999997,
        2000000000000000000000,
        Some(999999999999999999998),
    ),
    (
        -1000000000000000000000,
        1999999999999999999993,
        1999999999999999999989,
        -1999999999999999999997,
        None,
    ),
    (500000, 1, 1, 2, Some(500001)),
    (10, 1, 3, 1999999999999999999997, Some(10)),
];

/// A number and its root.
type Root = (i128, Option<i128>);

const ROOTS: [Root; 10] = [
    (0, Some(0)),
    (1, Some(1000)),
    (3, Some(1732)),
    (4, Some(2000)),
    (2000000, Some(1414213)),
    (7500000, Some(2738612)),
    (1000000000000000000000, Some(31622776601683)),
    (999999999999999999999, Some(31622776601683)),
    (-1, None),
    (-1000000000000000000000, None),
];

/// A text, and the number that it is read as.
type Read = (&'static str, Result<i128, NumFault>);

const READ: [Read; 36] = [
    ("0.0000005", Ok(1)),
    ("-0.0000005", Ok(0)),
    ("-0.0000015", Ok(-1)),
    ("-0.0000025", Ok(-2)),
    ("1e15", Ok(1000000000000000000000)),
    ("1e16", Err(NumFault::Range)),
    ("-1e15", Ok(-1000000000000000000000)),
    ("0e999999999999", Ok(0)),
    ("-0", Ok(0)),
    ("0", Ok(0)),
    ("1e-7", Ok(0)),
    ("5e-7", Ok(1)),
    ("-5e-7", Ok(0)),
    ("-5.0000001e-7", Ok(-1)),
    ("5.1E-7", Ok(1)),
    ("4.9999e-7", Ok(0)),
    ("1000000000000000.0000004", Ok(1000000000000000000000)),
    ("1000000000000000.0000005", Err(NumFault::Range)),
    ("-1000000000000000.0000005", Ok(-1000000000000000000000)),
    ("-1000000000000000.0000006", Err(NumFault::Range)),
    ("999999999999999.9999995", Ok(1000000000000000000000)),
    ("999999999999999.9999994", Ok(999999999999999999999)),
    ("0.1e1", Ok(1000000)),
    ("12.5E+2", Ok(1250000000)),
    ("123456789012345678901234567890e-20", Ok(1234567890123457)),
    ("1e-999999999999999999999999", Ok(0)),
    ("1e999999999999999999999999", Err(NumFault::Range)),
    ("-0.000e999999999999999999999999", Ok(0)),
    (
        "0.00000000000000000000000000001e44",
        Ok(1000000000000000000000),
    ),
    ("0.00000000000000000000000000001e45", Err(NumFault::Range)),
    ("1234.567e-3", Ok(1234567)),
    ("-1234567e-10", Ok(-123)),
    ("5e-6", Ok(5)),
    ("49e-8", Ok(0)),
    ("50e-8", Ok(1)),
    ("-51e-8", Ok(-1)),
];

const NO_NUMBERS: [&str; 27] = [
    "01", "+1", ".5", "1.", "1e", "-", "", " 1", "1 ", "1e+", "1.e5", "0x1", "--1", "1e5.5", "-01",
    "1.5e", "e5", "00", "1.5.5", "1e5e5", "-.5", "1,5", "\u{661}", "1e 5", "-e1", "0.", "1_0",
];

/// A text, the number at its front, how many bytes are left, and whether it is a number.
type Front = (&'static str, (Option<i128>, usize, bool));

const FRONTS: [Front; 9] = [
    ("-1.5e1,2", (Some(-15000000), 2, true)),
    ("01", (Some(0), 1, true)),
    ("1e16]", (None, 1, true)),
    ("12.50.5", (Some(12500000), 2, true)),
    ("1.x", (None, 1, false)),
    ("1e+x", (None, 1, false)),
    ("-a", (None, 1, false)),
    ("a", (None, 1, false)),
    ("", (None, 0, false)),
];

/// A front, a digit that stands a thousand times behind it, what stands behind that, and the number that it all is read as.
type Long = (&'static str, u8, &'static str, Result<i128, NumFault>);

const LONG: [Long; 10] = [
    ("0.0000004", b'9', "", Ok(0)),
    ("0.000000", b'0', "5", Ok(0)),
    ("-0.0000005", b'0', "1", Ok(-1)),
    ("-0.0000005", b'0', "", Ok(0)),
    ("0.0000005", b'0', "", Ok(1)),
    ("1", b'0', "e-1000", Ok(1000000)),
    ("1", b'0', "", Err(NumFault::Range)),
    ("0e", b'9', "", Ok(0)),
    ("1e-", b'9', "", Ok(0)),
    ("1e", b'9', "", Err(NumFault::Range)),
];

/// A number and how it is written.
type Written = (i128, &'static str);

const WRITTEN: [Written; 14] = [
    (1, "0.000001"),
    (-1, "-0.000001"),
    (0, "0"),
    (-1500000, "-1.5"),
    (1000000000000000000000, "1000000000000000"),
    (-1000000000000000000000, "-1000000000000000"),
    (999999999999999999999, "999999999999999.999999"),
    (123456000, "123.456"),
    (100000, "0.1"),
    (1000000, "1"),
    (999999, "0.999999"),
    (-999999, "-0.999999"),
    (10, "0.00001"),
    (7000070, "7.00007"),
];

fn operate(operation: Operation, a: i128, b: i128) -> Option<i128> {
    let a = Num::of_millionths(a)?;
    let b = Num::of_millionths(b)?;
    let found = match operation {
        Operation::Sum => a.add(b),
        Operation::Difference => a.sub(b),
        Operation::Product => a.mul(b),
        Operation::Quotient => a.div(b),
        Operation::Floor if b.millionths() > 0 => a.floor_to(b),
        Operation::Ceiling if b.millionths() > 0 => a.ceil_to(b),
        _ => None,
    };
    Some(found?.millionths())
}

fn along(m: i128, p: i128, q: i128, r: i128) -> Option<i128> {
    const REACH: u128 = 2000000000000000000000;
    let in_reach = p.unsigned_abs() <= REACH
        && q.unsigned_abs() <= REACH
        && r.unsigned_abs() <= REACH;
    if r == 0 || !in_reach {
        return None;
    }
    Some(Num::of_millionths(m)?.along(p, q, r)?.millionths())
}

fn root(m: i128) -> Option<i128> {
    Some(Num::of_millionths(m)?.root()?.millionths())
}

fn read(text: &[u8]) -> Result<i128, NumFault> {
    Ok(Num::read_decimal(text)?.millionths())
}

fn front(text: &str) -> (Option<i128>, usize, bool) {
    match Num::read_front(text.as_bytes()) {
        Ok((Some(number), rest)) => (Some(number.millionths()), rest.len(), true),
        Ok((None, rest)) => (None, rest.len(), true),
        Err(left) => (None, left, false),
    }
}

// Whether an operation gives what it should.
fn operates(row: &Operated) -> bool {
    operate(row.0, row.1, row.2) == row.3
}

#[test]
fn operations_round_once(rt: HostRuntime) {
    for row in &OPERATIONS {
        assert!(rt; operates(row), "{row:?}");
    }
}

// Whether a step along gives what it should.
fn steps(row: &Along) -> bool {
    along(row.0, row.1, row.2, row.3) == row.4
}

#[test]
fn steps_along(rt: HostRuntime) {
    for row in &ALONG {
        assert!(rt; steps(row), "{row:?}");
    }
}

// Whether a root is what it should be.
fn is_root(row: &Root) -> bool {
    root(row.0) == row.1
}

#[test]
fn roots(rt: HostRuntime) {
    for row in &ROOTS {
        assert!(rt; is_root(row), "{row:?}");
    }
}

// Whether a text is read as it should be.
fn reads(row: &Read) -> bool {
    read(row.0.as_bytes()) == row.1
}

#[test]
fn decimals_are_read(rt: HostRuntime) {
    for row in &READ {
        assert!(rt; reads(row), "{row:?}");
    }
}

// Whether a text is refused for its shape.
fn is_no_number(text: &str) -> bool {
    read(text.as_bytes()) == Err(NumFault::Shape)
}

#[test]
fn what_is_no_decimal_is_refused(rt: HostRuntime) {
    for text in &NO_NUMBERS {
        assert!(rt; is_no_number(text), "{text}");
    }
}

// Whether a text has such a number at its front.
fn begins(row: &Front) -> bool {
    front(row.0) == row.1
}

#[test]
fn numbers_are_found_at_the_front(rt: HostRuntime) {
    for row in &FRONTS {
        assert!(rt; begins(row), "{row:?}");
    }
}

// The bytes of a row.
fn long(alloc: Global, row: &Long) -> Result<Vec<u8>, AllocError> {
    let mut text = row.0.as_bytes().to_vec(alloc)?;
    text.extend_from_slice(&[row.1; 1000])?;
    text.extend_from_slice(row.2.as_bytes())?;
    Ok(text)
}

// Whether a long text is read as it should be.
fn reads_long(alloc: Global, row: &Long) -> bool {
    match long(alloc, row) {
        Ok(text) => read(&text) == row.3,
        Err(_) => false,
    }
}

#[test]
fn long_decimals_are_read(rt: HostRuntime) {
    for row in &LONG {
        assert!(rt; reads_long(rt.alloc(), row), "{row:?}");
    }
}

// Whether a number is written so in its place.
fn writes(number: Num, text: &str) -> bool {
    let mut buf = [b'x'; 32];
    let len = number.write_decimal(&mut buf);
    &buf[..len] == text.as_bytes()
}

// Whether a number is written as it should be, in both ways.
fn is_written(row: &Written) -> bool {
    match Num::of_millionths(row.0) {
        Some(number) => writes(number, row.1) && number.decimal().as_str() == row.1,
        None => false,
    }
}

#[test]
fn decimals_are_written(rt: HostRuntime) {
    for row in &WRITTEN {
        assert!(rt; is_written(row), "{row:?}");
    }
}

// Whether the limits are numbers, the one greater than the other.
fn limits_are_numbers() -> bool {
    Num::of_millionths(1000000000000000000000) > Num::of_millionths(-1000000000000000000000)
}

// Whether what lies beyond the limits is no number.
fn beyond_are_none() -> bool {
    Num::of_millionths(1000000000000000000001) == None
        && Num::of_millionths(-1000000000000000000001) == None
}

#[test]
fn numbers_end_at_the_limit(rt: HostRuntime) {
    assert!(rt; limits_are_numbers());
    assert!(rt; beyond_are_none());
}
