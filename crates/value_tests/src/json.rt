use json_exact::{Json, JsonError, ValueReader, at_path, read, write};
use std::alloc::Global;
use text_kit::{OutOfMemory, Text};

/// Bytes, and what is written of what they say.
type Row = (&'static str, &'static str);

const READ: [Row; 36] = [
    ("null", "null"),
    (" true ", "true"),
    ("false", "false"),
    ("7", "7"),
    ("-0", "0"),
    ("-12", "-12"),
    ("-1.50", "-1.5"),
    ("-0.0000005", "0"),
    ("0.0000005", "0.000001"),
    ("-0.0000015", "-0.000001"),
    ("1e3", "1000"),
    ("1E-2", "0.01"),
    ("0.1e+1", "1"),
    ("1e15", "1000000000000000"),
    ("1e16", "1e99"),
    ("[-1e400]", "[1e99]"),
    ("-1e999999999999", "1e99"),
    ("1e-999999999999", "0"),
    ("\"\"", "\"\""),
    ("\" !#[]^~\u{7f}\"", "\" !#[]^~\u{7f}\""),
    (
        "\"\\\"\\\\\\/\\b\\f\\n\\r\\t\"",
        "\"\\\"\\\\/\\b\\f\\n\\r\\t\"",
    ),
    (
        "\"\\u0041\\u00e9\\u20AC\\ud7ff\\uE000\"",
        "\"A\u{e9}\u{20ac}\u{d7ff}\u{e000}\"",
    ),
    (
        "\"\\u0008\\u0009\\u000a\\u000c\\u000D\"",
        "\"\\b\\t\\n\\f\\r\"",
    ),
    (
        "\"\\u0000\\u0007\\u000b\\u000E\\u000f\\u0010\\u001A\"",
        "\"\\u0000\\u0007\\u000b\\u000e\\u000f\\u0010\\u001a\"",
    ),
    ("\"\\u001F\\u0020\"", "\"\\u001f \""),
    (
        "\"\\ud83d\\ude00\\uDBFF\\uDFFF\"",
        "\"\u{1f600}\u{10ffff}\"",
    ),
    (
        "\"\u{80}\u{7ff}\u{800}\u{d7ff}\u{e000}\u{ffff}\u{10000}\u{10ffff}\"",
        "\"\u{80}\u{7ff}\u{800}\u{d7ff}\u{e000}\u{ffff}\u{10000}\u{10ffff}\"",
    ),
    (" [ ] ", "[]"),
    ("\t{\n}\r", "{}"),
    ("[1,-2,true]", "[1,-2,true]"),
    (" [ 1 , \"a\" , [ null , { } ] ] ", "[1,\"a\",[null,{}]]"),
    (
        "\r\n{ \"b\" : [ 0 ] , \"a\" : { \"b\" : false } }\t",
        "{\"b\":[0],\"a\":{\"b\":false}}",
    ),
    ("{\"\":0,\"ab\":1,\"a\":2}", "{\"\":0,\"ab\":1,\"a\":2}"),
    ("[{\"a\":0.5},{\"a\":-2}]", "[{\"a\":0.5},{\"a\":-2}]"),
    ("{\"\\n\":\"\\\"\"}", "{\"\\n\":\"\\\"\"}"),
    (
        "{\"9\":0,\"8\":0,\"7\":0,\"6\":0,\"5\":0,\"4\":0,\"3\":0,\"2\":0,\"1\":0,\"0\":0}",
        "{\"9\":0,\"8\":0,\"7\":0,\"6\":0,\"5\":0,\"4\":0,\"3\":0,\"2\":0,\"1\":0,\"0\":0}",
    ),
];

// Whether a tree is written as this text.
fn is_written(alloc: Global, tree: &Json, text: &str) -> bool {
    match write(alloc, tree) {
        Ok(written) => written.as_str() == text,
        Err(_) => false,
    }
}

// Whether a copy of a tree is.
fn is_copied(alloc: Global, tree: &Json, text: &str) -> bool {
    match tree.copy(alloc) {
        Ok(copy) => {
            let written = is_written(alloc, &copy, text);
            drop(copy);
            written
        }
        Err(_) => false,
    }
}

// Whether a copy of the tree that bytes say is written as it should be.
fn says(alloc: Global, row: &Row) -> bool {
    match read(alloc, row.0.as_bytes()) {
        Ok(tree) => {
            let copied = is_copied(alloc, &tree, row.1);
            drop(tree);
            copied
        }
        Err(_) => false,
    }
}

#[test]
fn what_is_read(rt: HostRuntime) {
    for row in &READ {
        assert!(rt; says(rt.alloc(), row), "{row:?}");
    }
}

/// Bytes, what is written of the values that they list, each with a semicolon behind it, and the fault behind those.
type Listed = (&'static str, &'static str, Option<JsonError>);

const LISTED: [Listed; 12] = [
    (" [1, [2,3] ,{\"a\":[4]}] ", "1;[2,3];{\"a\":[4]};", None),
    (" [ ] ", "", None),
    (" 7 ", "7;", None),
    ("{\"a\":[1,2]}", "{\"a\":[1,2]};", None),
    ("[[1,2]]", "[1,2];", None),
    ("[1,2", "1;", Some(JsonError::Fault { at: 4 })),
    ("[1,]", "1;", Some(JsonError::Fault { at: 3 })),
    ("[1]x", "1;", Some(JsonError::Fault { at: 3 })),
    ("[]]", "", Some(JsonError::Fault { at: 2 })),
    ("[1 2]", "", Some(JsonError::Fault { at: 3 })),
    ("nul", "", Some(JsonError::Fault { at: 3 })),
    ("", "", Some(JsonError::Fault { at: 0 })),
];

// Adds what is written of a tree, and a semicolon.
fn push_tree(alloc: Global, out: &mut Text, tree: &Json) -> Result<(), OutOfMemory> {
    out.push_str(write(alloc, tree)?.as_str())?;
    out.push_str(";")
}

// The same of a value that is let go.
fn push_value(alloc: Global, out: &mut Text, value: Json) -> Result<(), OutOfMemory> {
    let pushed = push_tree(alloc, out, &value);
    drop(value);
    pushed
}

// Adds what is written of the values that bytes list, a hundred at most. The fault behind them.
fn list(alloc: Global, bytes: &[u8], out: &mut Text) -> Result<Option<JsonError>, OutOfMemory> {
    let mut left = ValueReader::of(bytes);
    for _ in 0..100 {
        match left.next_value(alloc) {
            Ok(Some((value, others))) => {
                push_value(alloc, out, value)?;
                left = others;
            }
            Ok(None) => return Ok(None),
            Err(error) => return Ok(Some(error)),
        }
    }
    Ok(None)
}

// Whether bytes list such values, with such a fault behind them.
fn lists(alloc: Global, row: &Listed) -> Result<bool, OutOfMemory> {
    let mut out = Text::new(alloc);
    let fault = list(alloc, row.0.as_bytes(), &mut out)?;
    Ok(fault == row.2 && out.as_str() == row.1)
}

#[test]
fn values_are_read_one_after_the_other(rt: HostRuntime) {
    for row in &LISTED {
        assert!(rt; lists(rt.alloc(), row) == Ok(true), "{row:?}");
    }
}

// Whether a path leads to what is written so, or to nothing.
fn leads_to(alloc: Global, tree: &Json, row: &Row) -> bool {
    match at_path(tree, row.0) {
        Some(value) => is_written(alloc, value, row.1),
        None => row.1 == "nothing",
    }
}

const TREE: &str = "{\"foo\":[\"bar\",\"baz\"],\"\":0,\"a/b\":1,\"c%d\":2,\"e^f\":3,\"g|h\":4,
    \"i\\\\j\":5,\"k\\\"l\":6,\" \":7,\"m~n\":8,\"~1\":{\"a\":[[],[9]]}}";

/// Paths, and what is written of what stands there.
const PATHS: [Row; 37] = [
    ("/foo", "[\"bar\",\"baz\"]"),
    ("/foo/0", "\"bar\""),
    ("/foo/1", "\"baz\""),
    ("/", "0"),
    ("/a~1b", "1"),
    ("/c%d", "2"),
    ("/e^f", "3"),
    ("/g|h", "4"),
    ("/i\\j", "5"),
    ("/k\"l", "6"),
    ("/ ", "7"),
    ("/m~0n", "8"),
    ("/~01", "{\"a\":[[],[9]]}"),
    ("/~01/a/1/0", "9"),
    ("/~01/a/0/0", "nothing"),
    ("/~1", "nothing"),
    ("/foo/2", "nothing"),
    ("/foo/00", "nothing"),
    ("/foo/01", "nothing"),
    ("/foo/-", "nothing"),
    ("/foo/-1", "nothing"),
    ("/foo/+1", "nothing"),
    ("/foo/1 ", "nothing"),
    ("/foo/", "nothing"),
    ("/foo/0/x", "nothing"),
    ("/foo/0/", "nothing"),
    ("/foo/18446744073709551616", "nothing"),
    ("/foo/99999999999999999999999", "nothing"),
    ("/fo", "nothing"),
    ("/food", "nothing"),
    ("//", "nothing"),
    ("/a/b", "nothing"),
    ("/a~b", "nothing"),
    ("/a~", "nothing"),
    ("/a~2b", "nothing"),
    ("foo", "nothing"),
    ("~1foo", "nothing"),
];

// Whether it does in the tree.
fn leads(alloc: Global, row: &Row) -> bool {
    match read(alloc, TREE.as_bytes()) {
        Ok(tree) => {
            let leads = leads_to(alloc, &tree, row);
            drop(tree);
            leads
        }
        Err(_) => false,
    }
}

#[test]
fn where_paths_lead(rt: HostRuntime) {
    for row in &PATHS {
        assert!(rt; leads(rt.alloc(), row), "{row:?}");
    }
}
