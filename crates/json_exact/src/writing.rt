//! The text of a tree.

ghost use Rattle.std.specs.Prelude.{◌≡◌, ◌∷◌, [], ◌++◌, ◌<◌, ◌/◌, ◌%◌, List, ℕ, map, codes, encode_utf8, IfOk, OnOk};
ghost use Rattle.std.specs.Char.{digit_char};
ghost use Rattle.json_exact.specs.Reading.{Reads};
ghost use Rattle.json_exact.specs.declared.json.Json.{Json as Tree};
ghost use Rattle.json_exact.specs.Writing.{escaped, quoted, text_of, member_text, with_commas};

use crate::json::{Json, Member};
use std::alloc::Global;
use text_kit::{OutOfMemory, Text};

/// The JSON text (RFC 8259) of a tree, without spaces. A number out of range is written `1e99`.
pub fn write(alloc: Global, tree: &Json) -> Result<Text, OutOfMemory>
    ensures { IfOk result (λ text. text ≡ text_of tree.now) }
{
    let mut out = Text::new(alloc);
    push_value(&mut out, tree)?;
    Ok(out)
}

/// What is written of a tree that was read is read as that tree.
pub fn what_was_written_is_read()
    ensures { (bytes : List ℕ) (tree : Tree) → Reads bytes tree → Reads (text_of tree) tree }
{}

// Each of these adds one part of the text to what is written so far.

#[cycle(writing)]
fn push_value(out: &mut Text, tree: &Json) -> Result<(), OutOfMemory>
    ensures { OnOk result (out.new ≡ out.old ++ text_of tree.now) }
{
    match tree {
        Json::Null => out.push_str("null"),
        Json::Flag(true) => out.push_str("true"),
        Json::Flag(false) => out.push_str("false"),
        Json::Number(number) => out.push_str(number.decimal().as_str()),
        Json::Huge => out.push_str("1e99"),
        Json::Text(text) => push_quoted(out, text),
        Json::List(items) => {
            out.push_str("[")?;
            push_items(out, items.as_slice())?;
            out.push_str("]")
        }
        Json::Object(members) => {
            out.push_str("{")?;
            push_members(out, members.as_slice())?;
            out.push_str("}")
        }
    }
}

#[cycle(writing)]
fn push_items(out: &mut Text, items: &[Json]) -> Result<(), OutOfMemory>
    ensures { OnOk result (out.new ≡ out.old ++ with_commas (map text_of items.now)) }
{
    let [first, others @ ..] = items else {
        return Ok(());
    };
    push_value(out, first)?;
    for item in others {
        out.push_str(",")?;
        push_value(out, item)?;
    }
    Ok(())
}

#[cycle(writing)]
fn push_members(out: &mut Text, members: &[Member]) -> Result<(), OutOfMemory>
    ensures { OnOk result (out.new ≡ out.old ++ with_commas (map member_text members.now)) }
{
    let [first, others @ ..] = members else {
        return Ok(());
    };
    push_member(out, first)?;
    for member in others {
        out.push_str(",")?;
        push_member(out, member)?;
    }
    Ok(())
}

#[cycle(writing)]
fn push_member(out: &mut Text, member: &Member) -> Result<(), OutOfMemory>
    ensures { OnOk result (out.new ≡ out.old ++ member_text member.now) }
{
    push_quoted(out, &member.name)?;
    out.push_str(":")?;
    push_value(out, &member.value)
}

fn push_quoted(out: &mut Text, text: &Text) -> Result<(), OutOfMemory>
    ensures { OnOk result (out.new ≡ out.old ++ quoted text.now) }
{
    out.push_str("\"")?;
    push_escaped(out, text)?;
    out.push_str("\"")
}

fn push_escaped(out: &mut Text, text: &Text) -> Result<(), OutOfMemory>
    ensures { OnOk result (out.new ≡ out.old ++ escaped text.now) }
{
    for c in text.as_str().chars() {
        push_char(out, c)?;
    }
    Ok(())
}

fn push_char(out: &mut Text, c: char) -> Result<(), OutOfMemory>
    ensures { OnOk result (out.new ≡ out.old ++ escaped (encode_utf8 c)) }
{
    match c {
        '"' => out.push_str("\\\""),
        '\\' => out.push_str("\\\\"),
        '\u{8}' => out.push_str("\\b"),
        '\t' => out.push_str("\\t"),
        '\n' => out.push_str("\\n"),
        '\u{c}' => out.push_str("\\f"),
        '\r' => out.push_str("\\r"),
        _ if c < ' ' => push_control(out, c),
        _ => push_plain(out, c),
    }
}

fn push_control(out: &mut Text, c: char) -> Result<(), OutOfMemory>
    requires { c < 32 }
    ensures { OnOk result
        (out.new ≡ out.old ++ codes "\\u00" ++ digit_char (c / 16) ∷ digit_char (c % 16) ∷ []) }
{
    let code = u32::from(c);
    out.push_str("\\u00")?;
    push_digit(out, code / 16)?;
    push_digit(out, code % 16)
}

fn push_digit(out: &mut Text, n: u32) -> Result<(), OutOfMemory>
    requires { n < 16 }
    ensures { OnOk result (out.new ≡ out.old ++ digit_char n ∷ []) }
{
    match char::from_digit(n, 16) {
        Some(digit) => push_plain(out, digit),
        None => unreachable!(),
    }
}

fn push_plain(out: &mut Text, c: char) -> Result<(), OutOfMemory>
    ensures { OnOk result (out.new ≡ out.old ++ encode_utf8 c) }
{
    let mut buf = [0u8; 4];
    out.push_str(c.encode_utf8(&mut buf))
}
