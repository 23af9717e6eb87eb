// The headers of a plot.
ghost use Rattle.std.specs.Prelude.{◌≡◌, ◌++◌, IfOk, OnOk};
ghost use Rattle.plot_scenes.specs.Headers.{header_space, header_item, header_side, with_header, header_items, with_headers};

use crate::extents::{Extents, widened};
use crate::words::label_at;
use fixed_num::Num;
use guide_kit::{Side, half, minus, pixels, plus};
use scene_tree::Item;
use std::alloc::Global;
use text_kit::{OutOfMemory, Seq, Text};

/// A text beside a plot, turned, or above it.
#[derive(Debug, Drop)]
pub struct Header {
    /// Whether it stands beside the plot.
    pub is_beside: bool,
    /// The text.
    pub text: Text,
}

// How far a header extends.
fn header_space() -> Num
    ensures { result ≡ header_space }
{
    pixels(15)
}

// A header at a plot of this size with these extents.
fn header_item(
    alloc: Global,
    size: &(Num, Num),
    extents: &Extents,
    header: &Header,
) -> Result<Item, OutOfMemory>
    ensures { IfOk result (λ item. item ≡ header_item size.now.0 size.now.1 extents.now header.now) }
{
    let text = header.text.copy()?;
    if header.is_beside {
        let x = minus(pixels(0), plus(extents.left, pixels(5)));
        label_at(alloc, true, x, half(size.1), text)
    } else {
        let y = minus(pixels(0), plus(extents.top, pixels(5)));
        label_at(alloc, false, half(size.0), y, text)
    }
}

// The side at which a header stands.
fn header_side(header: &Header) -> Side
    ensures { result ≡ header_side header.now }
{
    if header.is_beside {
        Side::Left
    } else {
        Side::Top
    }
}

// The extents with a header.
fn with_header(extents: &Extents, header: &Header) -> Extents
    ensures { result ≡ with_header extents.now header.now }
{
    widened(header_side(header), header_space(), extents)
}

/// Adds headers in their order, each outside those before it, at a plot of this size in pixels with these extents.
pub fn push_headers(
    alloc: Global,
    size: &(Num, Num),
    extents: &Extents,
    headers: &[Header],
    items: &mut Seq<Item>,
) -> Result<(), OutOfMemory>
    ensures { OnOk result (items.new ≡ items.old ++ header_items size.now.0 size.now.1 extents.now headers.now) }
{
    let mut around = *extents;
    for header in headers {
        items.push(header_item(alloc, size, &around, header)?)?;
        around = with_header(&around, header);
    }
    Ok(())
}

/// The extents with headers.
pub fn with_headers(extents: &Extents, headers: &[Header]) -> Extents
    ensures { result ≡ with_headers extents.now headers.now }
{
    let mut around = *extents;
    for header in headers {
        around = with_header(&around, header);
    }
    around
}
