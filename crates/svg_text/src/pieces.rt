// Texts in pieces, printed by way of a page.
ghost use Rattle.std.specs.Prelude.{◌≡◌, ◌++◌, encode_utf8, codes};
ghost use Rattle.std.specs.List.{flat_map, list_all};
ghost use Rattle.fixed_num.specs.Decimal.{spelling};
ghost use Rattle.svg_text.specs.inner.Pieces.{piece_text, is_plain};
ghost use Rattle.svg_text.specs.inner.Printing.{Prints};
ghost use Rattle.svg_text.specs.SceneText.{xml_char, xml_text};

use crate::page::{Page, put};
use chart_io::{Sink, WriteFault};
use fixed_num::Num;
use text_kit::Text;

// A piece of text.
#[derive(Drop)]
pub enum Piece<'a> {
    // A text as it stands.
    Plain(&'a str),
    // A number.
    Number(Num),
    // A text in which markup becomes entities.
    Escaped(&'a Text),
}

// The text as it stands.
#[inline(always)]
pub fn put_text<K: Sink>(out: &mut K, page: &mut Page, text: &str) -> Result<(), WriteFault>
    ensures { Prints K.faults K.held out.old page.old out.new page.new result text.now }
{
    put(out, page, text.as_bytes())
}

// The number.
fn put_number<K: Sink>(out: &mut K, page: &mut Page, number: Num) -> Result<(), WriteFault>
    ensures { Prints K.faults K.held out.old page.old out.new page.new result (spelling number) }
{
    let mut buf = [0; 32];
    let len = number.write_decimal(&mut buf);
    put(out, page, &buf[..len])
}

// A text, and a number after it.
#[inline(always)]
pub fn put_after<K: Sink>(
    out: &mut K,
    page: &mut Page,
    before: &str,
    number: Num,
) -> Result<(), WriteFault>
    ensures { Prints K.faults K.held out.old page.old out.new page.new result (before.now ++ spelling number) }
{
    put_text(out, page, before)?;
    put_number(out, page, number)
}

// Two numbers, each after a text.
#[inline(always)]
pub fn put_two<K: Sink>(
    out: &mut K,
    page: &mut Page,
    first: &str,
    x: Num,
    second: &str,
    y: Num,
) -> Result<(), WriteFault>
    ensures { Prints K.faults K.held out.old page.old out.new page.new result
        ((first.now ++ spelling x) ++ (second.now ++ spelling y)) }
{
    put_after(out, page, first, x)?;
    put_after(out, page, second, y)
}

// A number after a text, and a closing quote.
#[inline(always)]
pub fn put_last<K: Sink>(
    out: &mut K,
    page: &mut Page,
    before: &str,
    number: Num,
) -> Result<(), WriteFault>
    ensures { Prints K.faults K.held out.old page.old out.new page.new result ((before.now ++ spelling number) ++ codes "\"") }
{
    put_after(out, page, before, number)?;
    put_text(out, page, "\"")
}

// Two numbers, each after a text, and a closing quote.
#[inline(always)]
pub fn put_last_two<K: Sink>(
    out: &mut K,
    page: &mut Page,
    first: &str,
    x: Num,
    second: &str,
    y: Num,
) -> Result<(), WriteFault>
    ensures { Prints K.faults K.held out.old page.old out.new page.new result
        ((first.now ++ spelling x) ++ ((second.now ++ spelling y) ++ codes "\"")) }
{
    put_after(out, page, first, x)?;
    put_last(out, page, second, y)
}

// The character as it stands.
fn put_char<K: Sink>(out: &mut K, page: &mut Page, c: char) -> Result<(), WriteFault>
    ensures { Prints K.faults K.held out.old page.old out.new page.new result (encode_utf8 c) }
{
    let mut buf = [0u8; 4];
    put_text(out, page, c.encode_utf8(&mut buf))
}

// The character in a text of XML.
fn put_escape<K: Sink>(out: &mut K, page: &mut Page, c: char) -> Result<(), WriteFault>
    ensures { Prints K.faults K.held out.old page.old out.new page.new result (xml_char c) }
{
    match c {
        '&' => put_text(out, page, "&amp;"),
        '<' => put_text(out, page, "&lt;"),
        '>' => put_text(out, page, "&gt;"),
        '"' => put_text(out, page, "&quot;"),
        '\t' | '\n' | '\r' => put_char(out, page, c),
        '\0'..='\u{1f}' | '\u{7f}'..='\u{9f}' | '\u{fffe}' | '\u{ffff}' => put_char(
            out, page, '\u{fffd}',
        ),
        _ => put_char(out, page, c),
    }
}

// The text in XML, one character after another.
#[inline(never)]
fn put_escapes<K: Sink>(out: &mut K, page: &mut Page, text: &Text) -> Result<(), WriteFault>
    ensures { Prints K.faults K.held out.old page.old out.new page.new result (xml_text text.now) }
{
    for c in text.as_str().chars() {
        put_escape(out, page, c)?;
    }
    Ok(())
}

// Whether a byte is one of a character that stands in a text of XML as it is, whatever else the character has: no markup, no control but
// a tab, a line feed and a carriage return, and not the first byte of U+0080 to U+00BF or of U+F000 to U+FFFF.
fn is_plain(byte: u8) -> bool
    ensures { result ≡ is_plain byte }
{
    match byte {
        b'\t' | b'\n' | b'\r' => true,
        0..=0x1f | b'"' | b'&' | b'<' | b'>' | 0x7f | 0xc2 | 0xef => false,
        _ => true,
    }
}

// Whether all bytes are such.
fn are_plain(bytes: &[u8]) -> bool
    ensures { result ≡ list_all is_plain bytes.now }
{
    bytes.iter().all(|byte| is_plain(*byte))
}

// Whether all bytes of the text are such.
fn is_plain_text(text: &Text) -> bool
    ensures { result ≡ list_all is_plain text.now }
{
    are_plain(text.as_str().as_bytes())
}

// The text in XML.
fn put_escaped<K: Sink>(out: &mut K, page: &mut Page, text: &Text) -> Result<(), WriteFault>
    ensures { Prints K.faults K.held out.old page.old out.new page.new result (xml_text text.now) }
{
    if is_plain_text(text) {
        return put_text(out, page, text.as_str());
    }
    put_escapes(out, page, text)
}

// The text in XML, and a closing quote.
pub fn put_quoted<K: Sink>(out: &mut K, page: &mut Page, text: &Text) -> Result<(), WriteFault>
    ensures { Prints K.faults K.held out.old page.old out.new page.new result (xml_text text.now ++ codes "\"") }
{
    put_escaped(out, page, text)?;
    put_text(out, page, "\"")
}

// The piece.
fn put_piece<K: Sink>(out: &mut K, page: &mut Page, piece: &Piece<'_>) -> Result<(), WriteFault>
    ensures { Prints K.faults K.held out.old page.old out.new page.new result (piece_text piece.now) }
{
    match piece {
        Piece::Plain(text) => put_text(out, page, text),
        Piece::Number(number) => put_number(out, page, *number),
        Piece::Escaped(text) => put_escaped(out, page, text),
    }
}

// The pieces, one after another.
pub fn put_pieces<K: Sink>(
    out: &mut K,
    page: &mut Page,
    pieces: &[Piece<'_>],
) -> Result<(), WriteFault>
    ensures { Prints K.faults K.held out.old page.old out.new page.new result (flat_map piece_text pieces.now) }
{
    for piece in pieces {
        put_piece(out, page, piece)?;
    }
    Ok(())
}
