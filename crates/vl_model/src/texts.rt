//! Texts that have forms of their own.
ghost use Rattle.std.specs.Prelude.{◌≡◌, ◌-◌, drop, length, IfOk};
ghost use Rattle.std.specs.List.{list_all};
ghost use Rattle.expr_syntax.specs.Tokens.{is_name_start, is_name_byte};
ghost use Rattle.vl_model.specs.Texts.{is_expression, is_label_format, is_name, is_reserved, is_parameter_name, begins_far, is_far};
ghost use Rattle.vl_model.specs.Texts.{wrong_unless, unsupported_if, plain_fault, text_fault};

use expr_reading::expression_of;
use expr_syntax::has_domain_length;
use guide_text::number_format_of;
use spec_schema::SpecKind;
use std::alloc::Global;
use text_kit::OutOfMemory;
use time_calc::is_pattern;
use vl_schema::{EXPRESSION, FILTER, LABEL_FORMAT, PARAMETER_NAME, URL};

// Whether a text is an expression in which no length of a domain stands.
fn is_expression(alloc: Global, text: &str) -> Result<bool, OutOfMemory>
    ensures { IfOk result (λ is. is ≡ is_expression text.now) }
{
    match expression_of(alloc, text)? {
        Some(e) => Ok(!has_domain_length(&e)),
        None => Ok(false),
    }
}

// Whether a text is a format of labels.
fn is_label_format(text: &str) -> bool
    ensures { result ≡ is_label_format text.now }
{
    number_format_of(text).is_some() || is_pattern(text)
}

// Whether a name may begin with a byte.
fn is_name_start(byte: u8) -> bool
    ensures { result ≡ is_name_start byte }
{
    byte.is_ascii_alphabetic() || byte == b'_' || byte == b'$'
}

// Whether a name may go on with a byte.
fn is_name_byte(byte: &u8) -> bool
    ensures { result ≡ is_name_byte byte.now }
{
    is_name_start(*byte) || byte.is_ascii_digit()
}

// Whether a name may go on with all of these bytes.
fn go_on(bytes: &[u8]) -> bool
    ensures { result ≡ list_all is_name_byte bytes.now }
{
    bytes.iter().all(is_name_byte)
}

// Whether bytes are a name.
fn is_name(bytes: &[u8]) -> bool
    ensures { result ≡ is_name bytes.now }
{
    match bytes {
        [first, others @ ..] => is_name_start(*first) && go_on(others),
        [] => false,
    }
}

// Whether a text is a word that no parameter can have as its name.
fn is_reserved(text: &str) -> bool
    ensures { result ≡ is_reserved text.now }
{
    text == "datum" || text == "true" || text == "false" || text == "null"
}

// Whether a text is a name that a parameter can have.
fn is_parameter_name(text: &str) -> bool
    ensures { result ≡ is_parameter_name text.now }
{
    is_name(text.as_bytes()) && !is_reserved(text)
}

// Whether a text begins with `://`.
fn begins_far(bytes: &[u8]) -> bool
    ensures { result ≡ begins_far bytes.now }
{
    match bytes {
        [a, b, c, ..] => *a == b':' && *b == b'/' && *c == b'/',
        _ => false,
    }
}

// The bytes after the first.
fn after_first(bytes: &[u8]) -> &[u8]
    ensures rest { result.now ≡ drop 1 bytes.now }
    ensures shorter { length result.now ≡ length bytes.now - 1 }
{
    match bytes {
        [_, rest @ ..] => rest,
        [] => &[],
    }
}

// Whether `://` stands somewhere in a text.
#[tactic(auto, using(crate::proofs::FarAddresses::far_here, crate::proofs::FarAddresses::far_further))]
fn is_far(bytes: &[u8]) -> bool
    ensures { result ≡ is_far bytes.now }
{
    let mut rest = bytes;
    while !rest.is_empty() {
        if begins_far(rest) {
            return true;
        }
        rest = after_first(rest);
    }
    false
}

// A text is wrong unless it has its form.
fn wrong_unless(is: bool) -> Option<SpecKind>
    ensures { result ≡ wrong_unless is }
{
    if is { None } else { Some(SpecKind::Wrong) }
}

// An address is unsupported where it is one of the network.
fn unsupported_if(is: bool) -> Option<SpecKind>
    ensures { result ≡ unsupported_if is }
{
    if is {
        Some(SpecKind::Unsupported)
    } else {
        None
    }
}

// What is wrong with a text that isn't an expression, if anything, by its shape.
fn plain_fault(shape: u16, text: &str) -> Option<SpecKind>
    ensures { result ≡ plain_fault shape text.now }
{
    if shape == LABEL_FORMAT {
        wrong_unless(is_label_format(text))
    } else if shape == PARAMETER_NAME {
        wrong_unless(is_parameter_name(text))
    } else if shape == URL {
        unsupported_if(is_far(text.as_bytes()))
    } else {
        None
    }
}

/// What is wrong with a text, if anything, by its shape.
#[tactic(auto, unfolding(crate::specs::Texts::text_fault))]
pub fn text_fault(alloc: Global, shape: u16, text: &str) -> Result<Option<SpecKind>, OutOfMemory>
    ensures { IfOk result (λ kind. kind ≡ text_fault shape text.now) }
{
    if shape == EXPRESSION || shape == FILTER {
        Ok(wrong_unless(is_expression(alloc, text)?))
    } else {
        Ok(plain_fault(shape, text))
    }
}
