// Replies as text.
ghost use Rattle.std.specs.Prelude.{◌≡◌, ◌++◌, IfOk, codes};
ghost use Rattle.std.specs.Fmt.{decimal};
ghost use Rattle.json_exact.specs.Writing.{quoted};
ghost use Rattle.param_flow.specs.Playing.{reply_text};

use json_exact::Json;
use param_flow::{Cause, Reply};
use std::alloc::Global;
use text_kit::{OutOfMemory, Text};

/// The line that is written for a reply.
pub fn reply_text(alloc: Global, reply: Reply) -> Result<Text, OutOfMemory>
    ensures { IfOk result (λ text. text ≡ reply_text reply) }
{
    match reply {
        Reply::Done => Text::of(alloc, "ok\n"),
        Reply::Refused(Cause::Line) => Text::of(alloc, "refused line\n"),
        Reply::Refused(Cause::Name) => Text::of(alloc, "refused name\n"),
        Reply::Refused(Cause::Row { row, field }) => row_text(alloc, row, field),
        Reply::Refused(Cause::Limit) => Text::of(alloc, "refused limit\n"),
        Reply::Refused(Cause::Overflow) => Text::of(alloc, "refused overflow\n"),
    }
}

// The line that is written where an inserted row is refused.
fn row_text(alloc: Global, row: u64, field: Text) -> Result<Text, OutOfMemory>
    ensures { IfOk result (λ text. text ≡ codes "refused row " ++ decimal row ++ codes " " ++ quoted field ++ codes "\n") }
{
    let mut digits = itoa::Buffer::new();
    let field = json_exact::write(alloc, &Json::Text(field))?;
    let mut text = Text::of(alloc, "refused row ")?;
    text.push_str(digits.format(row))?;
    text.push_str(" ")?;
    text.push_str(field.as_str())?;
    text.push_str("\n")?;
    Ok(text)
}
