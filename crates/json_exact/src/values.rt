//! Values, lists and objects, each read from the front of the bytes.

ghost use Rattle.text_kit.specs.Answer.{GivesAs};
ghost use Rattle.json_exact.specs.inner.Reader.{cause, padded_at, value_at, flat_at, list_at, object_at, member_at, sequence_at};

use crate::error::{ReadStop, fault_at};
use crate::json::{Json, Member};
use crate::names::Members;
use crate::numbers::number_of;
use crate::texts::{name_of, quoted_of};
use crate::words::{after_first, after_word, first_of, skip_white};
use std::alloc::Global;
use text_kit::{Seq, Text};

/// The value at the front, in which at most `level` lists and objects stand in one another, and the bytes after it.
#[cycle(values)]
fn value_of(alloc: Global, level: u32, bytes: &[u8]) -> Result<(Json, &[u8]), ReadStop>
    ensures { GivesAs (λ x. (x.0, x.1.now)) cause result (value_at level bytes.now) }
{
    match first_of(bytes) {
        b'[' | b'{' if level == 0 => Err(fault_at(bytes)),
        b'[' => list_of(alloc, level - 1, after_first(bytes)),
        b'{' => object_of(alloc, level - 1, after_first(bytes)),
        _ => flat_of(alloc, bytes),
    }
}

/// The value at the front that is neither a list nor an object, and the bytes after it.
#[tactic(auto, unfolding(crate::specs::inner::Reader::flat_at))]
fn flat_of(alloc: Global, bytes: &[u8]) -> Result<(Json, &[u8]), ReadStop>
    ensures { GivesAs (λ x. (x.0, x.1.now)) cause result (flat_at bytes.now) }
{
    match first_of(bytes) {
        b'"' => match quoted_of(alloc, bytes) {
            Ok((text, rest)) => Ok((Json::Text(text), rest)),
            Err(error) => Err(error),
        },
        b'n' => {
            let rest = after_word(bytes, b"null")?;
            Ok((Json::Null, rest))
        }
        b't' => {
            let rest = after_word(bytes, b"true")?;
            Ok((Json::Flag(true), rest))
        }
        b'f' => {
            let rest = after_word(bytes, b"false")?;
            Ok((Json::Flag(false), rest))
        }
        _ => number_of(bytes),
    }
}

/// The same with white space on both sides.
#[cycle(values)]
pub fn padded_of(alloc: Global, level: u32, bytes: &[u8]) -> Result<(Json, &[u8]), ReadStop>
    ensures { GivesAs (λ x. (x.0, x.1.now)) cause result (padded_at (value_at level) bytes.now) }
{
    match value_of(alloc, level, skip_white(bytes)) {
        Ok((tree, rest)) => Ok((tree, skip_white(rest))),
        Err(error) => Err(error),
    }
}

/// The list whose opening bracket stands before the bytes, and the bytes after it.
#[cycle(values)]
#[tactic(auto, unfolding(crate::specs::inner::Reader::list_at))]
fn list_of(alloc: Global, level: u32, bytes: &[u8]) -> Result<(Json, &[u8]), ReadStop>
    ensures { GivesAs (λ x. (x.0, x.1.now)) cause result (list_at (value_at level) bytes.now) }
{
    match items_of(alloc, level, bytes) {
        Ok((items, rest)) => Ok((Json::List(items), rest)),
        Err(error) => Err(error),
    }
}

/// The items up to the closing bracket, and the bytes after it.
#[cycle(values)]
fn items_of(alloc: Global, level: u32, bytes: &[u8]) -> Result<(Seq<Json>, &[u8]), ReadStop>
    ensures { GivesAs (λ x. (x.0, x.1.now)) cause result (sequence_at 93 (λ done. padded_at (value_at level)) bytes.now) }
{
    let mut rest = skip_white(bytes);
    if first_of(rest) == b']' {
        return Ok((Seq::new(alloc), after_first(rest)));
    }
    // Room for one, since most have few: a nest of lists of one each would else take four times as much.
    let mut items = Seq::with_capacity(alloc, 1)?;
    for _ in 0..bytes.len() {
        let (item, after) = padded_of(alloc, level, rest)?;
        items.push(item)?;
        match first_of(after) {
            b',' => rest = after_first(after),
            b']' => return Ok((items, after_first(after))),
            _ => return Err(fault_at(after)),
        }
    }
    Err(fault_at(rest))
}

/// A name that none of the members has, a colon and a value, and the bytes after them.
#[cycle(values)]
#[tactic(auto, unfolding(crate::specs::inner::Reader::member_at))]
fn member_of<'a>(
    alloc: Global,
    level: u32,
    members: &Members,
    bytes: &'a [u8],
) -> Result<(Member, &'a [u8]), ReadStop>
    ensures { GivesAs (λ x. (x.0, x.1.now)) cause result (member_at (value_at level) members.now.members bytes.now) }
{
    let (name, rest) = name_of(alloc, members, skip_white(bytes))?;
    let rest = skip_white(rest);
    if first_of(rest) != b':' {
        return Err(fault_at(rest));
    }
    let (value, rest) = padded_of(alloc, level, after_first(rest))?;
    Ok((Member { name, value }, rest))
}

/// The object whose opening brace stands before the bytes, and the bytes after it.
#[cycle(values)]
#[tactic(auto, unfolding(crate::specs::inner::Reader::object_at))]
fn object_of(alloc: Global, level: u32, bytes: &[u8]) -> Result<(Json, &[u8]), ReadStop>
    ensures { GivesAs (λ x. (x.0, x.1.now)) cause result (object_at (value_at level) bytes.now) }
{
    let (members, rest) = members_of(alloc, level, bytes)?;
    Ok((Json::Object(members), rest))
}

/// The members up to the closing brace, and the bytes after it.
#[cycle(values)]
fn members_of(alloc: Global, level: u32, bytes: &[u8]) -> Result<(Seq<Member>, &[u8]), ReadStop>
    ensures { GivesAs (λ x. (x.0, x.1.now)) cause result (sequence_at 125 (member_at (value_at level)) bytes.now) }
{
    let mut rest = skip_white(bytes);
    if first_of(rest) == b'}' {
        return Ok((Seq::new(alloc), after_first(rest)));
    }
    let mut members = Members::new(alloc)?;
    for _ in 0..bytes.len() {
        let (member, after) = member_of(alloc, level, &members, rest)?;
        members = members.with(alloc, member)?;
        match first_of(after) {
            b',' => rest = after_first(after),
            b'}' => return Ok((members.into_seq(), after_first(after))),
            _ => return Err(fault_at(after)),
        }
    }
    Err(fault_at(rest))
}
