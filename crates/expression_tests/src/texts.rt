use expr_syntax::{Expr, ExprError, read, write};
use std::alloc::{AllocError, Global};

/// A text, and what is written of the tree that it reads as: nothing where it reads as none.
type Row = (&'static str, &'static str);

const TEXTS: [Row; 156] = [
    ("1.50", "1.5"),
    ("'a'", "'a'"),
    ("\"a'b\"", "'a\\'b'"),
    ("true", "true"),
    ("false", "false"),
    ("null", "null"),
    ("datum.a", "datum['a']"),
    (" datum . true ", "datum['true']"),
    ("datum [ \"a b\" ]", "datum['a b']"),
    ("p", "p"),
    ("p.if", "p.if"),
    ("abs", "abs"),
    ("domain.length", "domain.length"),
    ("length(data)", "length(data)"),
    ("length(data.x)", "length(data.x)"),
    ("min(1,2,3,4,5,6,7,8)", "min(1, 2, 3, 4, 5, 6, 7, 8)"),
    ("if(a, b, c)", "if(a, b, c)"),
    ("utc(2012, 0)", "utc(2012, 0)"),
    ("[1,2]", "[1, 2]"),
    ("(((a)))", "a"),
    (
        "vlSelectionTest ( 'p_store' , datum )",
        "vlSelectionTest('p_store', datum)",
    ),
    (
        "vlSelectionTest('_store', datum)",
        "vlSelectionTest('_store', datum)",
    ),
    ("length ( data ( \"p_store\" ) )", "length(data('p_store'))"),
    ("domain ( 's' ) . length", "domain('s').length"),
    ("a + b * c", "a + (b * c)"),
    ("a * b + c", "(a * b) + c"),
    ("a - b - c", "(a - b) - c"),
    ("a / b % c * d", "((a / b) % c) * d"),
    ("a == b != c === d !== e", "(((a == b) != c) === d) !== e"),
    ("a < b <= c > d >= e", "(((a < b) <= c) > d) >= e"),
    ("a || b || c", "(a || b) || c"),
    ("a && b && c", "(a && b) && c"),
    (
        "a || b && c == d < e + f * g",
        "a || (b && (c == (d < (e + (f * g)))))",
    ),
    (
        "a * b + c < d == e && f || g",
        "(((((a * b) + c) < d) == e) && f) || g",
    ),
    ("a ? b : c ? d : e", "a ? b : (c ? d : e)"),
    ("a ? b ? c : d : e", "a ? (b ? c : d) : e"),
    ("a || b ? c && d : !e", "(a || b) ? (c && d) : (!e)"),
    ("!a && b", "(!a) && b"),
    ("--1", "-(-1)"),
    ("! - + a", "!(-(+a))"),
    ("-a * b", "(-a) * b"),
    ("a - -b", "a - (-b)"),
    ("(a + b) * c", "(a + b) * c"),
    ("(a ? b : c) ? d : e", "(a ? b : c) ? d : e"),
    ("[a + b, c]", "[(a + b), c]"),
    ("max(a + b, !c)", "max((a + b), (!c))"),
    ("[[a, b], abs(c)]", "[[a, b], abs(c)]"),
    ("-datum.a", "-datum['a']"),
    ("", ""),
    ("()", ""),
    ("foo(1)", ""),
    ("abs(1, 2)", ""),
    ("datum.", ""),
    ("datum", ""),
    ("datum[a]", ""),
    ("datum['a'", ""),
    ("datum['a'].b", ""),
    ("datum.'a'", ""),
    ("datum.a.b", ""),
    ("datum(1)", ""),
    ("a b", ""),
    ("1 2", ""),
    ("a 'b'", ""),
    ("a +", ""),
    ("+", ""),
    ("* a", ""),
    ("a = b", ""),
    ("a & b", ""),
    ("a ! b", ""),
    ("a ? b", ""),
    ("a ? b :", ""),
    ("a ? : c", ""),
    ("a : b", ""),
    ("(a", ""),
    ("a)", ""),
    ("(a]", ""),
    ("(a, b)", ""),
    ("[a]", ""),
    ("[]", ""),
    ("[a, b", ""),
    ("[a, b)", ""),
    ("[a, b, c]", ""),
    ("[a b]", ""),
    ("true.x", ""),
    ("null(1)", ""),
    ("p.", ""),
    ("p.1", ""),
    ("p.x.y", ""),
    ("p['x']", ""),
    ("p.x(1)", ""),
    ("'a'.x", ""),
    ("1.x", ""),
    ("(a).x", ""),
    ("abs()", ""),
    ("abs(1,)", ""),
    ("abs(1", ""),
    ("abs(1]", ""),
    ("abs 1", ""),
    ("min(1)", ""),
    ("min(1,2,3,4,5,6,7,8,9)", ""),
    ("if(a, b)", ""),
    ("utc(1)", ""),
    ("utc(1,2,3,4,5,6,7,8)", ""),
    ("Abs(1)", ""),
    ("vlSelectionTest('p', datum)", ""),
    ("vlSelectionTest('p_store')", ""),
    ("vlSelectionTest('p_store', 1)", ""),
    ("vlSelectionTest('p_store', datum.a)", ""),
    ("vlSelectionTest(p_store, datum)", ""),
    ("vlSelectionTest('p_store', datum", ""),
    ("length(data('p'))", ""),
    ("length(data('p_store')", ""),
    ("length(data('p_store'), 1)", ""),
    ("length(data(p_store))", ""),
    ("length(data('p_store') + 1)", ""),
    ("abs(data('p_store'))", ""),
    ("data('p_store')", ""),
    ("domain('s')", ""),
    ("domain('s').width", ""),
    ("domain(s).length", ""),
    ("domain('s', 1).length", ""),
    ("domain('s')['length']", ""),
    (" \t\r\n", ""),
    ("\ta\r\n+ $1", "a + $1"),
    ("_b - a1", "_b - a1"),
    ("1e+5", "100000"),
    ("1+5", "1 + 5"),
    ("5-3", "5 - 3"),
    ("0.5e-1*2E2", "0.05 * 200"),
    ("1 .5", ""),
    ("a1.5", ""),
    ("1000000000000000", "1000000000000000"),
    ("1000000000000000.0000004", "1000000000000000"),
    ("1000000000000000.0000005", ""),
    ("1e16", ""),
    ("01", ""),
    ("1e", ""),
    ("1.", ""),
    ("1.5.2", ""),
    ("1e5e+3", ""),
    ("2a", ""),
    ("a===b==c!==d!=e", "(((a === b) == c) !== d) != e"),
    ("a====b", ""),
    ("a||b&&!c", "a || (b && (!c))"),
    ("a<=b<c>=d>e", "(((a <= b) < c) >= d) > e"),
    ("a%b", "a % b"),
    ("-a- -b", "(-a) - (-b)"),
    ("a?b:[c,d]", "a ? b : [c, d]"),
    ("(a)+abs(1)", "a + abs(1)"),
    ("'a\"\\'\\\\'", "'a\"\\'\\\\'"),
    ("\"b'\"", "'b\\''"),
    (
        "'\\n\n\\t\\r\u{1}\u{20ac}\u{1f600}'",
        "'\\n\\n\\t\\r\u{1}\u{20ac}\u{1f600}'",
    ),
    ("'a", ""),
    ("'\\b'", ""),
    ("\u{e9}", ""),
    ("'a''b'", ""),
];

// Whether a tree is written so.
fn is_written(alloc: Global, e: &Expr, want: &str) -> bool {
    match write(alloc, e) {
        Ok(written) => written.as_str() == want,
        Err(_) => false,
    }
}

// Whether a text reads as the tree that it should.
fn reads(alloc: Global, row: &Row) -> bool {
    match read(alloc, row.0) {
        Ok(e) => {
            let written = is_written(alloc, &e, row.1);
            drop(e);
            written
        }
        Err(ExprError::Shape) => row.1.is_empty(),
        Err(ExprError::Memory) => false,
    }
}

#[test]
fn texts_read_as_trees(rt: HostRuntime) {
    for row in &TEXTS {
        assert!(rt; reads(rt.alloc(), row), "{}", row.0);
    }
}

/// A front, how often it stands there, what stands behind it, a back, how often that stands there, and whether the text is read.
type Deep = (&'static str, usize, &'static str, &'static str, usize, bool);

const DEEP: [Deep; 24] = [
    ("!", 255, "a", "", 0, true),
    ("!", 256, "a", "", 0, false),
    ("", 0, "a", "+a", 255, true),
    ("", 0, "a", "+a", 256, false),
    ("a+(", 255, "a", ")", 255, true),
    ("a+(", 256, "a", ")", 256, false),
    ("a ? b : ", 255, "c", "", 0, true),
    ("a ? b : ", 256, "c", "", 0, false),
    ("abs(", 255, "a", ")", 255, true),
    ("abs(", 256, "a", ")", 256, false),
    ("[a,", 255, "b", "]", 255, true),
    ("[a,", 256, "b", "]", 256, false),
    ("(", 256, "a", ")", 256, true),
    ("(", 257, "a", ")", 257, false),
    ("abs((", 128, "a", "))", 128, true),
    ("abs((", 128, "(a)", "))", 128, false),
    ("[a,(", 128, "b", ")]", 128, true),
    ("[a,(", 128, "(b)", ")]", 128, false),
    ("(", 256, "datum['a']", ")", 256, true),
    (
        "(",
        256,
        "vlSelectionTest('p_store', datum)",
        ")",
        256,
        true,
    ),
    ("(", 256, "length(data('p_store'))", ")", 256, true),
    ("", 0, "a", "+a", 100_000, false),
    ("!", 100_000, "a", "", 0, false),
    ("(", 100_000, "a", ")", 100_000, false),
];

// Adds a text so many times.
fn push_times(text: &mut String, part: &str, times: usize) -> Result<(), AllocError> {
    for _ in 0..times {
        text.push_str(part)?;
    }
    Ok(())
}

// The text of a row.
fn repeated(alloc: Global, row: &Deep) -> Result<String, AllocError> {
    let mut text = String::new(alloc);
    push_times(&mut text, row.0, row.1)?;
    text.push_str(row.2)?;
    push_times(&mut text, row.3, row.4)?;
    Ok(text)
}

fn is_read(alloc: Global, text: &str) -> bool {
    match read(alloc, text) {
        Ok(e) => {
            drop(e);
            true
        }
        Err(_) => false,
    }
}

// Whether the text of a row is read where it should be.
fn is_read_so(alloc: Global, row: &Deep) -> bool {
    match repeated(alloc, row) {
        Ok(text) => is_read(alloc, text.as_str()) == row.5,
        Err(_) => false,
    }
}

#[test]
fn heights_and_brackets_have_limits(rt: HostRuntime) {
    for row in &DEEP {
        assert!(rt; is_read_so(rt.alloc(), row), "{row:?}");
    }
}
