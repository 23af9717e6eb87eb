//! The formats of labels.
ghost use Rattle.std.specs.Prelude.{◌≡◌, ◌++◌, reverse, OnOk};
ghost use Rattle.vega_parts.specs.LabelFormats.{is_number_end, is_number_tail, is_number_format, is_label_format, label_format_parts};

use crate::around::{Around, place_of};
use crate::members::text_in;
use crate::names::push_fault;
use crate::part::Part;
use json_exact::Json;
use spec_schema::SpecKind;
use std::alloc::Global;
use text_kit::{OutOfMemory, Seq};
use time_calc::is_pattern;

// Whether it is the end of a number format.
fn is_number_end(bytes: &[u8]) -> bool
    ensures { result ≡ is_number_end bytes.now }
{
    match bytes {
        [b] => *b == b'f' || *b == b'd' || *b == b'%',
        _ => false,
    }
}

// Whether it is a number format without its comma.
fn is_number_tail(bytes: &[u8]) -> bool
    ensures { result ≡ is_number_tail bytes.now }
{
    match bytes {
        [b, n, rest @ ..] => {
            if *b == b'.' {
                b'0' <= *n && *n <= b'6' && is_number_end(rest)
            } else {
                is_number_end(bytes)
            }
        }
        _ => is_number_end(bytes),
    }
}

// Whether it is a number format.
fn is_number_format(bytes: &[u8]) -> bool
    ensures { result ≡ is_number_format bytes.now }
{
    match bytes {
        [] => false,
        [b, rest @ ..] => {
            if *b == b',' {
                is_number_tail(rest)
            } else {
                is_number_tail(bytes)
            }
        }
    }
}

// Whether it is a label format.
fn is_label_format(text: &str) -> bool
    ensures { result ≡ is_label_format text.now }
{
    is_number_format(text.as_bytes()) || is_pattern(text)
}

/// Adds the fault that a text is no label format.
pub fn push_label_format_parts(
    alloc: Global,
    trail: &[Around],
    tree: &Json,
    out: &mut Seq<Part>,
) -> Result<(), OutOfMemory>
    ensures { OnOk result (out.new ≡ out.old ++ label_format_parts (reverse trail.now) tree.now) }
{
    match text_in(tree) {
        Some(text) => {
            if is_label_format(text) {
                Ok(())
            } else {
                push_fault(place_of(alloc, trail)?, SpecKind::Wrong, out)
            }
        }
        None => Ok(()),
    }
}
