// What calls are told, of JSON.
ghost use Rattle.std.specs.Prelude.{IfOk};
ghost use Rattle.plain_rows.specs.Rows.{AreRows};
ghost use Rattle.call_table.specs.Numbered.{BranchesBelow};

use crate::json_rows::CallStop;
use crate::keys;
use cell_value::{Cell, Rows, SharedText};
use data_rows::{ParseKind, rows_of_json};
use json_exact::{Json, Member, at_path};
use plain_rows::{FoldOf, LookupOf};
use std::alloc::Global;
use text_kit::{OutOfMemory, Seq, Text};

/// The bytes of a text, in which `ÿ` stands for a byte that is never part of UTF-8.
pub(crate) fn bytes(alloc: Global, data: &Json) -> Result<Vec<u8>, CallStop> {
    let Json::Text(text) = data else {
        return Err(CallStop::Shape);
    };
    let mut bytes = Vec::new(alloc);
    for c in text.as_str().chars() {
        push_char(&mut bytes, c)?;
    }
    Ok(bytes)
}

fn push_char(bytes: &mut Vec<u8>, c: char) -> Result<(), OutOfMemory> {
    if c == 'ÿ' {
        bytes.push(0xff)?;
    } else {
        let mut units = [0; 4];
        bytes.extend_from_slice(c.encode_utf8(&mut units).as_bytes())?;
    }
    Ok(())
}

/// The kinds of fields, an object of their names.
pub(crate) fn kinds(alloc: Global, told: &Json) -> Result<Seq<(Text, ParseKind)>, CallStop> {
    let Json::Object(members) = told else {
        return Err(CallStop::Shape);
    };
    let mut kinds = Seq::new(alloc);
    for member in members.as_slice() {
        kinds.push(field_kind(member)?)?;
    }
    Ok(kinds)
}

// The name of a field and its kind.
fn field_kind(member: &Member) -> Result<(Text, ParseKind), CallStop> {
    let kind = kind(&member.value)?;
    Ok((member.name.copy()?, kind))
}

fn kind(told: &Json) -> Result<ParseKind, CallStop> {
    let Json::Text(word) = told else {
        return Err(CallStop::Shape);
    };
    match word.as_str() {
        "number" => Ok(ParseKind::Number),
        "boolean" => Ok(ParseKind::Boolean),
        "string" => Ok(ParseKind::Text),
        "date" => Ok(ParseKind::Date),
        _ => Err(CallStop::Shape),
    }
}

/// Rows with the ids that count from 1.
pub(crate) fn rows(alloc: Global, data: &Json) -> Result<Rows, CallStop>
    ensures rows { IfOk result AreRows }
    ensures branches { IfOk result (BranchesBelow 2) }
{
    match rows_of_json(alloc, data, &Seq::new(alloc)) {
        Ok(rows) => Ok(keys::keyed(alloc, rows, true)?),
        Err(_) => Err(CallStop::Shape),
    }
}

/// The two values of a list.
pub(crate) fn two(told: &Json) -> Result<(&Json, &Json), CallStop> {
    let Json::List(items) = told else {
        return Err(CallStop::Shape);
    };
    match items.as_slice() {
        [first, second] => Ok((first, second)),
        _ => Err(CallStop::Shape),
    }
}

fn text(told: &Json, path: &str) -> Result<Text, CallStop> {
    match at_path(told, path) {
        Some(Json::Text(text)) => Ok(text.copy()?),
        _ => Err(CallStop::Shape),
    }
}

fn texts(alloc: Global, told: &Json, path: &str) -> Result<Seq<Text>, CallStop> {
    let Some(Json::List(items)) = at_path(told, path) else {
        return Err(CallStop::Shape);
    };
    let mut texts = Seq::new(alloc);
    for item in items.as_slice() {
        texts.push(text(item, "")?)?;
    }
    Ok(texts)
}

fn cell(told: &Json, path: &str) -> Result<Cell, CallStop> {
    match at_path(told, path) {
        Some(Json::Null) => Ok(Cell::Null),
        Some(Json::Number(number)) => Ok(Cell::Number(*number)),
        Some(Json::Text(text)) => Ok(Cell::Text(text.copy()?)),
        _ => Err(CallStop::Shape),
    }
}

fn shared(alloc: Global, told: &Json, path: &str) -> Result<SharedText, CallStop> {
    Ok(SharedText::of_text(alloc, text(told, path)?)?)
}

fn shared_texts(alloc: Global, told: &Json, path: &str) -> Result<Seq<SharedText>, CallStop> {
    let mut shared = Seq::new(alloc);
    for text in texts(alloc, told, path)?.as_slice() {
        shared.push(SharedText::of(alloc, text.as_str())?)?;
    }
    Ok(shared)
}

// The names of the keys and of the values of a fold.
fn fold_outs(alloc: Global, told: &Json) -> Result<(SharedText, SharedText), CallStop> {
    let out_key = shared(alloc, told, "/as/0")?;
    Ok((out_key, shared(alloc, told, "/as/1")?))
}

/// What a fold is told.
pub(crate) fn fold(alloc: Global, told: &Json) -> Result<FoldOf, CallStop> {
    let fields = shared_texts(alloc, told, "/fields")?;
    let (out_key, out_value) = fold_outs(alloc, told)?;
    Ok(FoldOf {
        fields,
        out_key,
        out_value,
    })
}

// The two keys of a lookup.
fn lookup_keys(told: &Json) -> Result<(Text, Text), CallStop> {
    let here = text(told, "/here")?;
    Ok((here, text(told, "/there")?))
}

// The fields of a lookup and their names.
fn lookup_fields(alloc: Global, told: &Json) -> Result<(Seq<Text>, Seq<SharedText>), CallStop> {
    let fields = texts(alloc, told, "/fields")?;
    Ok((fields, shared_texts(alloc, told, "/as")?))
}

/// What a lookup is told.
pub(crate) fn lookup(alloc: Global, told: &Json) -> Result<LookupOf, CallStop> {
    let (key_here, key_there) = lookup_keys(told)?;
    let (fields, outs) = lookup_fields(alloc, told)?;
    Ok(LookupOf {
        key_here,
        key_there,
        fields,
        outs,
        otherwise: cell(told, "/default")?,
    })
}
