// The text of a field without its escapes.
ghost use Rattle.std.specs.Prelude.{◌≡◌, ◌++◌, IfOk, OnOk};
ghost use Rattle.vl_building.specs.Fields.{field_name};
ghost use Rattle.vl_building.specs.inner.Escapes.{waiting, stepped};

use std::alloc::Global;
use text_kit::{OutOfMemory, Text};

// Adds a `\` that waited.
fn push_waiting(out: &mut Text, waits: bool) -> Result<(), OutOfMemory>
    ensures { OnOk result (out.new ≡ out.old ++ waiting waits) }
{
    if waits { out.push_str("\\") } else { Ok(()) }
}

// Adds a character behind a `\` that waits or not.
fn push_behind(out: &mut Text, waits: bool, c: char) -> Result<(), OutOfMemory>
    ensures { OnOk result (out.new ≡ out.old ++ stepped waits c) }
{
    let mut bytes = [0; 4];
    match c {
        '.' | '[' | ']' => out.push_str(c.encode_utf8(&mut bytes)),
        '\\' => push_waiting(out, waits),
        _ => {
            push_waiting(out, waits)?;
            out.push_str(c.encode_utf8(&mut bytes))
        }
    }
}

/// The name of the field that a text says.
pub fn field_name(alloc: Global, text: &str) -> Result<Text, OutOfMemory>
    ensures { IfOk result (λ name. name ≡ field_name text.now) }
{
    let mut out = Text::new(alloc);
    let mut waits = false;
    for c in text.chars() {
        push_behind(&mut out, waits, c)?;
        waits = c == '\\';
    }
    push_waiting(&mut out, waits)?;
    Ok(out)
}
