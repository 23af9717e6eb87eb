//! White space and words, read from the front of the bytes.

ghost use Rattle.std.specs.Prelude.{◌≡◌, drop};
ghost use Rattle.text_kit.specs.Answer.{GivesAs};
ghost use Rattle.json_exact.specs.Reading.{is_white};
ghost use Rattle.fixed_num.specs.Front.{first};
ghost use Rattle.json_exact.specs.inner.Reader.{cause, skip_white, after_word};

use crate::error::{ReadStop, fault_at};

/// The first byte, 0 where there is none.
pub fn first_of(bytes: &[u8]) -> u8
    ensures { result ≡ first bytes.now }
{
    match bytes {
        [] => 0,
        [first, ..] => *first,
    }
}

/// The bytes after the first.
pub fn after_first(bytes: &[u8]) -> &[u8]
    ensures { result.now ≡ drop 1 bytes.now }
{
    match bytes {
        [] => bytes,
        [_, rest @ ..] => rest,
    }
}

/// Whether a byte is white space.
fn is_white(byte: u8) -> bool
    ensures { result ≡ is_white byte }
{
    byte == b' ' || byte == b'\t' || byte == b'\n' || byte == b'\r'
}

/// The bytes after the white space at the front.
pub fn skip_white(bytes: &[u8]) -> &[u8]
    ensures { result.now ≡ skip_white bytes.now }
{
    for (i, b) in bytes.iter().enumerate() {
        if !is_white(*b) {
            return &bytes[i..];
        }
    }
    &[]
}

/// The bytes after the word that stands at the front.
pub fn after_word<'a>(bytes: &'a [u8], word: &[u8]) -> Result<&'a [u8], ReadStop>
    ensures { GivesAs (λ x. x.now) cause result (after_word word.now bytes.now) }
{
    let mut rest = bytes;
    for b in word {
        if first_of(rest) != *b {
            return Err(fault_at(rest));
        }
        rest = after_first(rest);
    }
    Ok(rest)
}
