//! The tokens of a text.

ghost use Rattle.std.specs.Prelude.{◌≡◌, List, IfOk, IsErrOf, drop, true, false, slice_index};
ghost use Rattle.std.specs.List.{prefix_len};
ghost use Rattle.text_kit.specs.Answer.{GivesAs};
ghost use Rattle.expr_syntax.specs.declared.errors.ExprError.TheVariants.{Shape};
ghost use Rattle.expr_syntax.specs.Tokens.{is_blank, is_name_start, is_name_byte, unescape, HasTokens};
ghost use Rattle.expr_syntax.specs.inner.Scanner.{cause, mark_of, mark_at, after_mark, belongs, is_exponent_mark};
ghost use Rattle.fixed_num.specs.Front.{first};
ghost use Rattle.expr_syntax.specs.inner.Scanner.{number_len, number_at, inside_at, as_quoted, name_at, is_quote, token_at};
ghost use Rattle.expr_syntax.specs.declared.token.Token.{Token as AnyToken};

use crate::errors::ExprError;
use crate::token::{Mark, Token};
use fixed_num::Num;
use std::alloc::Global;
use text_kit::{Seq, Text};

// Whether a byte is a space, a tab, a line feed or a carriage return.
fn is_blank(byte: u8) -> bool
    ensures { result ≡ is_blank byte }
{
    byte == b' ' || byte == b'\t' || byte == b'\n' || byte == b'\r'
}

// Whether a name may begin with a byte.
fn is_name_start(byte: u8) -> bool
    ensures { result ≡ is_name_start byte }
{
    byte.is_ascii_alphabetic() || byte == b'_' || byte == b'$'
}

// Whether a name may go on with a byte.
pub(crate) fn is_name_byte(byte: u8) -> bool
    ensures { result ≡ is_name_byte byte }
{
    is_name_start(byte) || byte.is_ascii_digit()
}

// The byte at an index, 0 where there is none.
pub(crate) fn byte_at(bytes: &[u8], index: usize) -> u8
    ensures { result ≡ slice_index bytes.now index }
{
    match bytes.get(index) {
        Some(byte) => *byte,
        None => 0,
    }
}

// The longest mark that begins with three bytes, of which those that are absent are 0.
#[tactic(auto, unfolding(crate::specs::inner::Scanner::mark_of))]
fn mark_of(first: u8, second: u8, third: u8) -> Option<Mark>
    ensures { result ≡ mark_of first second third }
{
    match first {
        b'|' if second == b'|' => Some(Mark::Or),
        b'&' if second == b'&' => Some(Mark::And),
        b'=' if second == b'=' && third == b'=' => Some(Mark::Same),
        b'=' if second == b'=' => Some(Mark::Like),
        b'!' if second == b'=' && third == b'=' => Some(Mark::NotSame),
        b'!' if second == b'=' => Some(Mark::NotLike),
        b'!' => Some(Mark::Not),
        b'<' if second == b'=' => Some(Mark::LessSame),
        b'<' => Some(Mark::Less),
        b'>' if second == b'=' => Some(Mark::MoreSame),
        b'>' => Some(Mark::More),
        b'+' => Some(Mark::Plus),
        b'-' => Some(Mark::Minus),
        b'*' => Some(Mark::Times),
        b'/' => Some(Mark::Over),
        b'%' => Some(Mark::Percent),
        b'?' => Some(Mark::Question),
        b':' => Some(Mark::Colon),
        b',' => Some(Mark::Comma),
        b'.' => Some(Mark::Point),
        b'(' => Some(Mark::Open),
        b')' => Some(Mark::Close),
        b'[' => Some(Mark::OpenSquare),
        b']' => Some(Mark::CloseSquare),
        _ => None,
    }
}

// The mark at the front, and what follows it.
fn mark_at(text: &str) -> Result<(Token, &str), ExprError>
    ensures { GivesAs (λ x. (x.0, x.1.now)) cause result (after_mark (mark_at text.now) text.now) }
{
    let bytes = text.as_bytes();
    match mark_of(byte_at(bytes, 0), byte_at(bytes, 1), byte_at(bytes, 2)) {
        Some(mark) => {
            let (_, rest) = text.split_at(mark.text().len());
            Ok((Token::Mark(mark), rest))
        }
        None => Err(ExprError::Shape),
    }
}

// How many bytes of a name stand at the front.
fn name_len(bytes: &[u8]) -> usize
    ensures { result ≡ prefix_len is_name_byte bytes.now }
{
    bytes.iter().take_while(|byte| is_name_byte(**byte)).count()
}

// The name at the front, and what follows it.
fn name_at(alloc: Global, text: &str) -> Result<(Token, &str), ExprError>
    ensures { GivesAs (λ x. (x.0, x.1.now)) cause result (name_at text.now) }
{
    let (word, rest) = text.split_at(name_len(text.as_bytes()));
    Ok((Token::Name(Text::of(alloc, word)?), rest))
}

// Whether a byte may belong to a number, behind an `e` or `E` where the flag is set.
fn belongs(behind: bool, byte: u8) -> bool
    ensures { result ≡ belongs behind byte }
{
    is_name_byte(byte) || byte == b'.' || behind && (byte == b'+' || byte == b'-')
}

fn is_exponent_mark(byte: u8) -> bool
    ensures { result ≡ is_exponent_mark byte }
{
    byte == b'e' || byte == b'E'
}

// How many bytes at the front may belong to a number.
fn number_len(bytes: &[u8]) -> usize
    ensures { result ≡ number_len false bytes.now }
{
    let mut behind = false;
    for (i, byte) in bytes.iter().enumerate() {
        if !belongs(behind, *byte) {
            return i;
        }
        behind = is_exponent_mark(*byte);
    }
    bytes.len()
}

// The number at the front, and what follows it.
#[tactic(auto, unfolding(crate::specs::inner::Scanner::number_at))]
fn number_at(text: &str) -> Result<(Token, &str), ExprError>
    ensures { GivesAs (λ x. (x.0, x.1.now)) cause result (number_at text.now) }
{
    let (word, rest) = text.split_at(number_len(text.as_bytes()));
    match Num::read_decimal(word.as_bytes()) {
        Ok(number) => Ok((Token::Number(number), rest)),
        Err(_) => Err(ExprError::Shape),
    }
}

// The character that `\` and a letter stand for.
fn unescape(letter: char) -> Option<char>
    ensures { result ≡ unescape letter }
{
    match letter {
        '\\' | '\'' | '"' => Some(letter),
        'n' => Some('\n'),
        't' => Some('\t'),
        'r' => Some('\r'),
        _ => None,
    }
}

// The text up to the quote, and what follows the quote.
fn inside_at(alloc: Global, quote: char, text: &str) -> Result<(Text, &str), ExprError>
    requires { is_quote quote ≡ true }
    ensures { GivesAs (λ x. (x.0, x.1.now)) cause result (inside_at quote false text.now) }
{
    let mut out = String::new(alloc);
    let mut escaped = false;
    for (i, c) in text.char_indices() {
        if escaped {
            match unescape(c) {
                Some(meant) => out.push(meant)?,
                None => return Err(ExprError::Shape),
            }
            escaped = false;
        } else if c == quote {
            return Ok((Text::from_string(out), &text[i + 1..]));
        } else if c == '\\' {
            escaped = true;
        } else {
            out.push(c)?;
        }
    }
    Err(ExprError::Shape)
}

// The text between quotes at the front, whose first byte is the quote, and what follows it.
fn quoted_at(alloc: Global, quote: u8, text: &str) -> Result<(Token, &str), ExprError>
    requires quote { is_quote quote ≡ true }
    requires first { first text.now ≡ quote }
    ensures { GivesAs (λ x. (x.0, x.1.now)) cause result (as_quoted (inside_at quote false (drop 1 text.now))) }
{
    match inside_at(alloc, quote as char, &text[1..]) {
        Ok((inside, rest)) => Ok((Token::Quoted(inside), rest)),
        Err(error) => Err(error),
    }
}

// The token at the front, and what follows it.
#[tactic(auto, unfolding(crate::specs::inner::Scanner::token_at))]
fn token_at(alloc: Global, text: &str) -> Result<(Token, &str), ExprError>
    ensures { GivesAs (λ x. (x.0, x.1.now)) cause result (token_at text.now) }
{
    let first = byte_at(text.as_bytes(), 0);
    if is_name_start(first) {
        name_at(alloc, text)
    } else if first.is_ascii_digit() {
        number_at(text)
    } else if first == b'\'' || first == b'"' {
        quoted_at(alloc, first, text)
    } else {
        mark_at(text)
    }
}

// How many blanks stand at the front.
fn blanks_len(bytes: &[u8]) -> usize
    ensures { result ≡ prefix_len is_blank bytes.now }
{
    bytes.iter().take_while(|byte| is_blank(**byte)).count()
}

// What follows the blanks at the front.
fn skip_blanks(text: &str) -> &str
    ensures { result.now ≡ drop (prefix_len is_blank text.now) text.now }
{
    &text[blanks_len(text.as_bytes())..]
}

/// The tokens of a text. `Shape` comes exactly where it has none.
pub(crate) fn tokens(alloc: Global, text: &str) -> Result<Seq<Token>, ExprError>
    // The text has the tokens that are answered.
    ensures ok { IfOk result (λ tokens. HasTokens text.now tokens) }
    // `Shape` is answered only where the text has no tokens.
    ensures shape { IsErrOf result Shape → (tokens : List AnyToken) → HasTokens text.now tokens → ⊥ }
{
    let mut out = Seq::new(alloc);
    let mut rest = skip_blanks(text);
    while !rest.is_empty() {
        let (token, after) = match token_at(alloc, rest) {
            Ok(read) => read,
            Err(error) => return Err(error),
        };
        out.push(token)?;
        rest = skip_blanks(after);
    }
    Ok(out)
}
