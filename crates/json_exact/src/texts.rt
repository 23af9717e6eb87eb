//! Texts between quotes, read from the front of the bytes.

ghost use Rattle.std.specs.Prelude.{[], length};
ghost use Rattle.text_kit.specs.Answer.{GivesAs};
ghost use Rattle.json_exact.specs.inner.Reader.{cause, chars_at, quoted_at, names_of};

use crate::characters::char_of;
use crate::error::{ReadStop, fault_at};
use crate::names::Members;
use crate::words::{after_first, first_of};
use std::alloc::Global;
use text_kit::Text;

/// The characters up to a quote, and the bytes from the quote on.
fn chars_of(alloc: Global, bytes: &[u8]) -> Result<(Text, &[u8]), ReadStop>
    ensures { GivesAs (λ x. (x.0, x.1.now)) cause result (chars_at (length bytes.now) [] bytes.now) }
{
    let mut out = String::new(alloc);
    let mut rest = bytes;
    for _ in 0..bytes.len() {
        if first_of(rest) == b'"' {
            return Ok((Text::from_string(out), rest));
        }
        let (code, after) = char_of(rest)?;
        match char::from_u32(code) {
            Some(c) => out.push(c)?,
            None => unreachable!(),
        }
        rest = after;
    }
    Err(fault_at(rest))
}

#[tactic(auto, unfolding(crate::specs::inner::Reader::quoted_at))]
/// The text between quotes at the front, and the bytes after it.
pub fn quoted_of(alloc: Global, bytes: &[u8]) -> Result<(Text, &[u8]), ReadStop>
    ensures { GivesAs (λ x. (x.0, x.1.now)) cause result (quoted_at [] bytes.now) }
{
    if first_of(bytes) != b'"' {
        return Err(fault_at(bytes));
    }
    let (text, rest) = chars_of(alloc, after_first(bytes))?;
    Ok((text, after_first(rest)))
}

#[tactic(auto, unfolding(crate::specs::inner::Reader::quoted_at))]
/// The text between quotes at the front, which is the name of none of the members, and the bytes after it.
pub fn name_of<'a>(
    alloc: Global,
    members: &Members,
    bytes: &'a [u8],
) -> Result<(Text, &'a [u8]), ReadStop>
    ensures { GivesAs (λ x. (x.0, x.1.now)) cause result (quoted_at (names_of members.now.members) bytes.now) }
{
    if first_of(bytes) != b'"' {
        return Err(fault_at(bytes));
    }
    let (text, rest) = chars_of(alloc, after_first(bytes))?;
    if members.have(text.as_str()) {
        return Err(fault_at(rest));
    }
    Ok((text, after_first(rest)))
}
