//! Calls of names with texts, and the names in expressions by what they name.
use expr_reading::{call_of, expression_of, parameters_of, scales_of, selections_of};
use expr_syntax::{Expr, TextCall};
use std::alloc::Global;
use text_kit::OutOfMemory;

/// A text, and the name and the arguments of the call that it spells.
type CallRow = (
    &'static str,
    Option<(&'static str, &'static [&'static str])>,
);

const CALLS: [CallRow; 32] = [
    ("vlPoint('p', 'f')", Some(("vlPoint", &["p", "f"]))),
    ("vlPoint('p','f')", Some(("vlPoint", &["p", "f"]))),
    (
        " vlPoint\t(\n'p' , \"f\" )\r",
        Some(("vlPoint", &["p", "f"])),
    ),
    ("go()", Some(("go", &[]))),
    ("go( )", Some(("go", &[]))),
    ("f('')", Some(("f", &[""]))),
    ("f('a\\'b',\"c\")", Some(("f", &["a'b", "c"]))),
    (
        "f('a','b','c','d','e')",
        Some(("f", &["a", "b", "c", "d", "e"])),
    ),
    ("$x_1('\u{e9},(')", Some(("$x_1", &["\u{e9},("]))),
    ("datum('a')", Some(("datum", &["a"]))),
    ("", None),
    ("f", None),
    ("f(", None),
    ("f)", None),
    ("f()(", None),
    ("f(()", None),
    ("f('a'", None),
    ("f('a',)", None),
    ("f(,'a')", None),
    ("f('a' 'b')", None),
    ("f('a',,'b')", None),
    ("f('a','b'))", None),
    ("f('a') g", None),
    ("f('a') + 1", None),
    ("f(a)", None),
    ("f(1)", None),
    ("f.g('a')", None),
    ("f['a']", None),
    ("'f'('a')", None),
    ("1('a')", None),
    ("f('a\")", None),
    ("f('\\u0061')", None),
];

// Whether these are the same words.
fn are(words: &[&str], want: &[&str]) -> bool {
    words.len() == want.len() && words.iter().zip(want).all(|(word, other)| *word == *other)
}

// Whether a call has this name and these arguments.
fn is_call(call: &TextCall, name: &str, arguments: &[&str]) -> bool {
    call.name.as_str() == name
        && call.arguments.len() == arguments.len()
        && (call.arguments.as_slice().iter())
            .zip(arguments)
            .all(|(text, other)| text.as_str() == *other)
}

// Whether a call is one that a text should spell.
fn is_wanted(call: &TextCall, wanted: Option<(&str, &[&str])>) -> bool {
    match wanted {
        Some((name, arguments)) => is_call(call, name, arguments),
        None => false,
    }
}

// Whether a text spells the call of a row.
fn spells(alloc: Global, row: &CallRow) -> bool {
    match call_of(alloc, row.0) {
        Ok(Some(call)) => is_wanted(&call, row.1),
        Ok(None) => row.1.is_none(),
        Err(_) => false,
    }
}

#[test]
fn calls_are_spelled(rt: HostRuntime) {
    for row in &CALLS {
        assert!(rt; spells(rt.alloc(), row), "{}", row.0);
    }
}

/// An expression, and the names of parameters, selections and scales in it.
type NameRow = (
    &'static str,
    &'static [&'static str],
    &'static [&'static str],
    &'static [&'static str],
);

const NAMES: [NameRow; 7] = [
    ("1 + datum.a", &[], &[], &[]),
    ("a + b.x < a", &["a", "b", "a"], &[], &[]),
    (
        "vlSelectionTest('p_store', datum) && a",
        &["a"],
        &["p"],
        &[],
    ),
    (
        "length(data('q_store')) + length(data('p_store'))",
        &[],
        &["q", "p"],
        &[],
    ),
    ("domain('x').length", &[], &[], &["x"]),
    (
        "a ? [b, b] : max(c, domain('s').length) - !d",
        &["a", "b", "b", "c", "d"],
        &[],
        &["s"],
    ),
    ("-p + length(data('p_store'))", &["p"], &["p"], &[]),
];

// Whether an expression has these parameters.
fn has_parameters(alloc: Global, e: &Expr, want: &[&str]) -> bool {
    match parameters_of(alloc, e) {
        Ok(names) => are(names.as_slice(), want),
        Err(_) => false,
    }
}

// Whether it has these selections.
fn has_selections(alloc: Global, e: &Expr, want: &[&str]) -> bool {
    match selections_of(alloc, e) {
        Ok(names) => are(names.as_slice(), want),
        Err(_) => false,
    }
}

// Whether it has these scales.
fn has_scales(alloc: Global, e: &Expr, want: &[&str]) -> bool {
    match scales_of(alloc, e) {
        Ok(names) => are(names.as_slice(), want),
        Err(_) => false,
    }
}

// Whether an expression has the names of a row.
fn has_names(alloc: Global, e: &Expr, row: &NameRow) -> bool {
    has_parameters(alloc, e, row.1)
        && has_selections(alloc, e, row.2)
        && has_scales(alloc, e, row.3)
}

// Whether the expression of a row is read, and has its names.
fn names(alloc: Global, row: &NameRow) -> bool {
    match expression_of(alloc, row.0) {
        Ok(Some(e)) => {
            let has = has_names(alloc, &e, row);
            drop(e);
            has
        }
        _ => false,
    }
}

#[test]
fn names_are_found(rt: HostRuntime) {
    for row in &NAMES {
        assert!(rt; names(rt.alloc(), row), "{}", row.0);
    }
}

// Whether a text is read as no expression.
fn is_none(alloc: Global, text: &str) -> bool {
    match expression_of(alloc, text) {
        Ok(None) => true,
        Ok(Some(e)) => {
            drop(e);
            false
        }
        Err(_) => false,
    }
}

#[test]
fn a_call_is_no_expression(rt: HostRuntime) {
    assert!(rt; is_none(rt.alloc(), "f('a')"));
}
