//! A fault and where it stands.
ghost use Rattle.std.specs.Prelude.{◌≡◌, ◌++◌, ◌∷◌, flat_map, encode_utf8, IfOk, OnOk};
ghost use Rattle.std.specs.Fmt.{decimal};
ghost use Rattle.spec_schema.specs.Faults.{here, below, path_word, path_byte};

use crate::spec_error::SpecKind;
use std::alloc::Global;
use text_kit::{OutOfMemory, Seq, Text};

/// A fault of a specification.
#[derive(Debug, Drop)]
pub struct Fault {
    /// Where it stands: from the top on, the number of a child among its parent's children, counted from 0. A missing member
    /// stands after those that are there, by its rule's number. So faults are in the order of the text where their places
    /// are in the order of lists.
    pub place: Seq<usize>,
    /// Where it stands, as a JSON Pointer (RFC 6901).
    pub path: Text,
    /// Of which kind it is.
    pub kind: SpecKind,
}

/// A fault at the value itself.
pub fn here(alloc: Global, kind: SpecKind) -> Fault
    ensures { result ≡ here kind }
{
    Fault {
        place: Seq::new(alloc),
        path: Text::new(alloc),
        kind,
    }
}

// Writes a name into a path.
fn push_escaped(out: &mut Text, name: &str) -> Result<(), OutOfMemory>
    ensures { OnOk result (out.new ≡ out.old ++ flat_map path_byte name.now) }
{
    for c in name.chars() {
        push_char(out, c)?;
    }
    Ok(())
}

// Writes a character of a name into a path.
fn push_char(out: &mut Text, c: char) -> Result<(), OutOfMemory>
    ensures { OnOk result (out.new ≡ out.old ++ flat_map path_byte (encode_utf8 c)) }
{
    match c {
        '~' => out.push_str("~0"),
        '/' => out.push_str("~1"),
        _ => push_plain(out, c),
    }
}

// Writes a character as it is.
fn push_plain(out: &mut Text, c: char) -> Result<(), OutOfMemory>
    ensures { OnOk result (out.new ≡ out.old ++ encode_utf8 c) }
{
    let mut bytes = [0; 4];
    out.push_str(c.encode_utf8(&mut bytes))
}

/// A name in a path, after its slash.
pub fn path_word(alloc: Global, name: &str) -> Result<Text, OutOfMemory>
    ensures { IfOk result (λ text. text ≡ path_word name.now) }
{
    let mut out = Text::of(alloc, "/")?;
    push_escaped(&mut out, name)?;
    Ok(out)
}

// A place with one more number at its front.
fn place_below(alloc: Global, number: usize, place: Seq<usize>) -> Result<Seq<usize>, OutOfMemory>
    ensures { IfOk result (λ longer. longer ≡ number ∷ place) }
{
    let mut longer = Seq::new(alloc);
    longer.push(number)?;
    longer.append(place)?;
    Ok(longer)
}

/// A fault of the child of this number and name, seen from its parent.
pub fn below(alloc: Global, number: usize, name: &str, fault: Fault) -> Result<Fault, OutOfMemory>
    ensures { IfOk result (λ f. f ≡ below number name.now fault) }
{
    let Fault { place, path, kind } = fault;
    let place = place_below(alloc, number, place)?;
    let mut longer = path_word(alloc, name)?;
    longer.push_str(path.as_str())?;
    Ok(Fault {
        place,
        path: longer,
        kind,
    })
}

/// A fault of the item of this number, seen from its list.
pub fn below_number(alloc: Global, number: usize, fault: Fault) -> Result<Fault, OutOfMemory>
    ensures { IfOk result (λ f. f ≡ below number (decimal number) fault) }
{
    let mut buffer = itoa::Buffer::new();
    below(alloc, number, buffer.format(number), fault)
}
