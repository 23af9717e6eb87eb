//! The characters of a text, each read from the front of the bytes.

ghost use Rattle.std.specs.Prelude.{◌≡◌, ◌+◌, ◌*◌, ◌<◌, ◌≤◌, IfOk, IsTrue};
ghost use Rattle.std.specs.Char.{is_ascii_hexdigit};
ghost use Rattle.text_kit.specs.Answer.{GivesAs};
ghost use Rattle.json_exact.specs.Reading.{hex_value, short_escape, IsHigh};
ghost use Rattle.json_exact.specs.inner.Reader.{cause, hex_at, hex_pair_at, low_at, after_high_at, long_at, escape_at, tail_at, three_at};
ghost use Rattle.json_exact.specs.inner.Reader.{four_at, plain_at, char_at};

use crate::error::{ReadStop, fault_at};
use crate::words::{after_first, after_word, first_of};

/// What a digit to the base sixteen stands for.
fn hex_value(digit: u8) -> u32
    requires { IsTrue (is_ascii_hexdigit digit) }
    ensures value { result ≡ hex_value digit }
    ensures small { result < 16 }
{
    if digit <= b'9' {
        u32::from(digit - b'0')
    } else if digit <= b'F' {
        u32::from(digit - 55)
    } else {
        u32::from(digit - 87)
    }
}

#[tactic(auto, unfolding(crate::specs::inner::Reader::hex_at))]
/// The digit to the base sixteen at the front, from `low` to `high`, and the bytes after it.
fn hex_of(low: u32, high: u32, bytes: &[u8]) -> Result<(u32, &[u8]), ReadStop>
    ensures gives { GivesAs (λ x. (x.0, x.1.now)) cause result (hex_at low high bytes.now) }
    ensures low { IfOk result (λ x. low ≤ x.0) }
    ensures high { IfOk result (λ x. x.0 ≤ high) }
    ensures small { IfOk result (λ x. x.0 < 16) }
{
    let digit = first_of(bytes);
    if !digit.is_ascii_hexdigit() {
        return Err(fault_at(bytes));
    }
    let value = hex_value(digit);
    if low <= value && value <= high {
        Ok((value, after_first(bytes)))
    } else {
        Err(fault_at(bytes))
    }
}

#[tactic(auto, unfolding(crate::specs::inner::Reader::hex_pair_at))]
/// The number with two more digits at its end, and the bytes after them.
fn hex_pair_of(n: u32, bytes: &[u8]) -> Result<(u32, &[u8]), ReadStop>
    requires { n < 256 }
    ensures gives { GivesAs (λ x. (x.0, x.1.now)) cause result (hex_pair_at n bytes.now) }
    ensures low { IfOk result (λ x. n * 256 ≤ x.0) }
    ensures high { IfOk result (λ x. x.0 < n * 256 + 256) }
{
    let (c, rest) = hex_of(0, 15, bytes)?;
    let (d, rest) = hex_of(0, 15, rest)?;
    Ok(((n * 16 + c) * 16 + d, rest))
}

#[tactic(auto, unfolding(crate::specs::inner::Reader::low_at))]
/// The second half of a pair of surrogates, and the bytes after it.
fn low_of(bytes: &[u8]) -> Result<(u32, &[u8]), ReadStop>
    ensures gives { GivesAs (λ x. (x.0, x.1.now)) cause result (low_at bytes.now) }
    ensures low { IfOk result (λ x. 0xDC00 ≤ x.0) }
    ensures high { IfOk result (λ x. x.0 < 0xE000) }
{
    let (a, rest) = hex_of(13, 13, bytes)?;
    let (b, rest) = hex_of(12, 15, rest)?;
    hex_pair_of(a * 16 + b, rest)
}

#[tactic(auto, unfolding(crate::specs::inner::Reader::after_high_at))]
/// The character of a pair of surrogates, after its first half, and the bytes after it.
fn after_high(high: u32, bytes: &[u8]) -> Result<(u32, &[u8]), ReadStop>
    requires { IsHigh high }
    ensures { GivesAs (λ x. (x.0, x.1.now)) cause result (after_high_at high bytes.now) }
{
    let rest = after_word(bytes, b"\\u")?;
    let (low, rest) = low_of(rest)?;
    Ok((0x10000 + (high - 0xD800) * 1024 + (low - 0xDC00), rest))
}

#[tactic(auto, unfolding(crate::specs::inner::Reader::long_at))]
/// The character of an escape by number, after its `u`, and the bytes after it.
fn long_of(bytes: &[u8]) -> Result<(u32, &[u8]), ReadStop>
    ensures { GivesAs (λ x. (x.0, x.1.now)) cause result (long_at bytes.now) }
{
    let (a, rest) = hex_of(0, 15, bytes)?;
    let (b, rest) = hex_of(0, if a == 13 { 11 } else { 15 }, rest)?;
    let (n, rest) = hex_pair_of(a * 16 + b, rest)?;
    if 0xD800 <= n && n < 0xDC00 {
        after_high(n, rest)
    } else {
        Ok((n, rest))
    }
}

/// The character that an escape of two bytes stands for, by its second byte.
fn short_escape(letter: u8) -> Option<u32>
    ensures { result ≡ short_escape letter }
{
    match letter {
        b'"' => Some(34),
        b'\\' => Some(92),
        b'/' => Some(47),
        b'b' => Some(8),
        b'f' => Some(12),
        b'n' => Some(10),
        b'r' => Some(13),
        b't' => Some(9),
        _ => None,
    }
}

#[tactic(auto, unfolding(crate::specs::inner::Reader::escape_at))]
/// The character of an escape, after its `\`, and the bytes after it.
fn escape_of(bytes: &[u8]) -> Result<(u32, &[u8]), ReadStop>
    ensures { GivesAs (λ x. (x.0, x.1.now)) cause result (escape_at bytes.now) }
{
    if first_of(bytes) == b'u' {
        return long_of(after_first(bytes));
    }
    match short_escape(first_of(bytes)) {
        Some(c) => Ok((c, after_first(bytes))),
        None => Err(fault_at(bytes)),
    }
}

#[tactic(auto, unfolding(crate::specs::inner::Reader::tail_at))]
/// The number with one more byte of a character at its end, from `low` to `high`, and the bytes after it.
fn tail_of(low: u8, high: u8, n: u32, bytes: &[u8]) -> Result<(u32, &[u8]), ReadStop>
    requires few { n < 65536 }
    requires low { 128 ≤ low }
    requires high { high < 192 }
    ensures gives { GivesAs (λ x. (x.0, x.1.now)) cause result (tail_at low high n bytes.now) }
    ensures small { IfOk result (λ x. x.0 < n * 64 + 64) }
{
    let b = first_of(bytes);
    if low <= b && b <= high {
        Ok((n * 64 + u32::from(b - 128), after_first(bytes)))
    } else {
        Err(fault_at(bytes))
    }
}

#[tactic(auto, unfolding(crate::specs::inner::Reader::three_at))]
/// The rest of a character of three bytes, by its first byte, and the bytes after it.
fn three_of(b: u8, bytes: &[u8]) -> Result<(u32, &[u8]), ReadStop>
    requires low { 224 ≤ b }
    requires high { b < 240 }
    ensures { GivesAs (λ x. (x.0, x.1.now)) cause result (three_at b bytes.now) }
{
    let low = if b == 224 { 160 } else { 128 };
    let high = if b == 237 { 159 } else { 191 };
    let (n, rest) = tail_of(low, high, u32::from(b - 224), bytes)?;
    tail_of(128, 191, n, rest)
}

#[tactic(auto, unfolding(crate::specs::inner::Reader::four_at))]
/// The rest of a character of four bytes, by its first byte, and the bytes after it.
fn four_of(b: u8, bytes: &[u8]) -> Result<(u32, &[u8]), ReadStop>
    requires low { 240 ≤ b }
    requires high { b < 245 }
    ensures { GivesAs (λ x. (x.0, x.1.now)) cause result (four_at b bytes.now) }
{
    let low = if b == 240 { 144 } else { 128 };
    let high = if b == 244 { 143 } else { 191 };
    let (n, rest) = tail_of(low, high, u32::from(b - 240), bytes)?;
    let (n, rest) = tail_of(128, 191, n, rest)?;
    tail_of(128, 191, n, rest)
}

#[tactic(auto, unfolding(crate::specs::inner::Reader::plain_at))]
/// The character that stands for itself, by its first byte, and the bytes after it.
fn plain_of(b: u8, bytes: &[u8]) -> Result<(u32, &[u8]), ReadStop>
    ensures { GivesAs (λ x. (x.0, x.1.now)) cause result (plain_at b bytes.now) }
{
    if b < 32 || b == b'"' {
        return Err(fault_at(bytes));
    }
    if b < 128 {
        return Ok((u32::from(b), after_first(bytes)));
    }
    if 194 <= b && b <= 223 {
        return tail_of(128, 191, u32::from(b - 192), after_first(bytes));
    }
    if 224 <= b && b <= 239 {
        return three_of(b, after_first(bytes));
    }
    if 240 <= b && b <= 244 {
        return four_of(b, after_first(bytes));
    }
    Err(fault_at(bytes))
}

#[tactic(auto, unfolding(crate::specs::inner::Reader::char_at))]
/// The character at the front, and the bytes after it.
pub fn char_of(bytes: &[u8]) -> Result<(u32, &[u8]), ReadStop>
    ensures { GivesAs (λ x. (x.0, x.1.now)) cause result (char_at bytes.now) }
{
    let b = first_of(bytes);
    if b == b'\\' {
        escape_of(after_first(bytes))
    } else {
        plain_of(b, bytes)
    }
}
