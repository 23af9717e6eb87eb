//! The text of tokens.

ghost use Rattle.std.specs.Prelude.{◌≡◌, ◌++◌, encode_utf8, flat_map, slice_index, IfOk, OnOk};
ghost use Rattle.fixed_num.specs.Decimal.{spelling};
ghost use Rattle.expr_syntax.specs.TokenText.{escape_in_text, quoted_text, token_text, ends_operand, is_between, is_operator, is_comma};
ghost use Rattle.expr_syntax.specs.TokenText.{grows, clings, is_apart, text_of_tokens};

use crate::scanner::{byte_at, is_name_byte};
use crate::token::{Mark, Token};
use fixed_num::Num;
use std::alloc::Global;
use std::str;
use text_kit::{OutOfMemory, Text};

// Whether an operand may end with the token.
fn ends_operand(token: &Token) -> bool
    ensures { result ≡ ends_operand token.now }
{
    match token {
        Token::Mark(Mark::Close | Mark::CloseSquare) => true,
        Token::Mark(_) => false,
        _ => true,
    }
}

// Whether the mark stands between two operands, where it comes after one.
fn is_between(mark: Mark) -> bool
    ensures { result ≡ is_between mark }
{
    !matches!(
        mark,
        Mark::Not
            | Mark::Comma
            | Mark::Point
            | Mark::Open
            | Mark::Close
            | Mark::OpenSquare
            | Mark::CloseSquare
    )
}

// Whether the token is such a mark.
fn is_operator(token: &Token) -> bool
    ensures { result ≡ is_operator token.now }
{
    match token {
        Token::Mark(mark) => is_between(*mark),
        _ => false,
    }
}

fn is_comma(token: &Token) -> bool
    ensures { result ≡ is_comma token.now }
{
    matches!(token, Token::Mark(Mark::Comma))
}

// Whether a `=` directly after the mark makes it longer.
fn grows(mark: Mark) -> bool
    ensures { result ≡ grows mark }
{
    matches!(
        mark,
        Mark::Not | Mark::Less | Mark::More | Mark::Like | Mark::NotLike
    )
}

// Whether the byte directly after the token would belong to it, or may not stand there.
fn clings(token: &Token, byte: u8) -> bool
    ensures { result ≡ clings token.now byte }
{
    match token {
        Token::Name(_) => is_name_byte(byte),
        Token::Number(_) => is_name_byte(byte) || byte == b'.',
        Token::Quoted(_) => false,
        Token::Mark(mark) => grows(*mark) && byte == b'=',
    }
}

// The first byte of a decimal.
fn first_of_number(number: Num) -> u8
    ensures { result ≡ slice_index (spelling number) 0 }
{
    let mut buf = [0u8; 32];
    let len = number.write_decimal(&mut buf);
    byte_at(&buf[..len], 0)
}

// The first byte of a token's text, 0 where it has none.
fn first_byte(token: &Token) -> u8
    ensures { result ≡ slice_index (token_text token.now) 0 }
{
    match token {
        Token::Name(name) => byte_at(name.as_str().as_bytes(), 0),
        Token::Number(number) => first_of_number(*number),
        Token::Quoted(_) => b'\'',
        Token::Mark(mark) => byte_at(mark.text().as_bytes(), 0),
    }
}

// Whether a blank stands between two tokens; the flag says whether the first comes after an operand.
fn is_apart(after: bool, first: &Token, second: &Token) -> bool
    ensures { result ≡ is_apart after first.now second.now }
{
    after && is_operator(first)
        || is_comma(first)
        || ends_operand(first) && is_operator(second)
        || clings(first, first_byte(second))
}

// Each of these adds a part of the text at the end.

fn push_number(out: &mut Text, number: Num) -> Result<(), OutOfMemory>
    ensures { OnOk result (out.new ≡ out.old ++ spelling number) }
{
    out.push_str(number.decimal().as_str())
}

fn push_plain(out: &mut Text, c: char) -> Result<(), OutOfMemory>
    ensures { OnOk result (out.new ≡ out.old ++ encode_utf8 c) }
{
    let mut buf = [0u8; 4];
    out.push_str(c.encode_utf8(&mut buf))
}

fn push_char(out: &mut Text, c: char) -> Result<(), OutOfMemory>
    ensures { OnOk result (out.new ≡ out.old ++ flat_map escape_in_text (encode_utf8 c)) }
{
    match c {
        '\\' => out.push_str("\\\\"),
        '\'' => out.push_str("\\'"),
        '\n' => out.push_str("\\n"),
        '\t' => out.push_str("\\t"),
        '\r' => out.push_str("\\r"),
        _ => push_plain(out, c),
    }
}

fn push_escaped(out: &mut Text, text: &str) -> Result<(), OutOfMemory>
    ensures { OnOk result (out.new ≡ out.old ++ flat_map escape_in_text text.now) }
{
    for c in text.chars() {
        push_char(out, c)?;
    }
    Ok(())
}

fn push_quoted(out: &mut Text, text: &str) -> Result<(), OutOfMemory>
    ensures { OnOk result (out.new ≡ out.old ++ quoted_text text.now) }
{
    out.push_str("'")?;
    push_escaped(out, text)?;
    out.push_str("'")
}

fn push_token(out: &mut Text, token: &Token) -> Result<(), OutOfMemory>
    ensures { OnOk result (out.new ≡ out.old ++ token_text token.now) }
{
    match token {
        Token::Name(name) => out.push_str(name.as_str()),
        Token::Number(number) => push_number(out, *number),
        Token::Quoted(text) => push_quoted(out, text.as_str()),
        Token::Mark(mark) => out.push_str(mark.text()),
    }
}

/// The text of tokens, with a blank round a mark between two operands, after a comma, and where two would run together.
pub(crate) fn text_of_tokens(alloc: Global, tokens: &[Token]) -> Result<Text, OutOfMemory>
    ensures { IfOk result (λ text. text ≡ text_of_tokens tokens.now) }
{
    let mut out = Text::new(alloc);
    let [first, others @ ..] = tokens else {
        return Ok(out);
    };
    push_token(&mut out, first)?;
    let mut after = false;
    let mut last = first;
    for token in others {
        if is_apart(after, last, token) {
            out.push_str(" ")?;
        }
        push_token(&mut out, token)?;
        after = ends_operand(last);
        last = token;
    }
    Ok(out)
}
