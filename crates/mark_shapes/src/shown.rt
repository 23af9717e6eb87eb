// What is shown of a row.
ghost use Rattle.std.specs.Prelude.{◌≡◌, IfOk};
ghost use Rattle.mark_shapes.specs.Shown.{shown, or_default};

use cell_value::{SharedText, TextPool};
use fixed_num::Num;
use std::alloc::Global;
use text_kit::{OutOfMemory, Text};

/// What a channel shows of a row.
#[derive(Debug, Drop)]
pub enum Shown<T> {
    /// The channel isn't encoded, or none of its values counts for the row.
    Absent,
    /// A value counts for the row, and gives nothing that the channel can show.
    Lacking,
    /// What it shows.
    Given(T),
}

/// The number that a channel shows, where a value counts.
pub fn shown_number(given: Option<Num>) -> Shown<Num>
    ensures { result ≡ shown given }
{
    match given {
        Some(number) => Shown::Given(number),
        None => Shown::Lacking,
    }
}

/// The colour that a channel shows, where a value counts.
pub fn shown_color(given: Option<Text>) -> Shown<Text>
    ensures { result ≡ shown given }
{
    match given {
        Some(color) => Shown::Given(color),
        None => Shown::Lacking,
    }
}

/// A colour that is shown, shared with those of the pool.
pub fn shown_shared(
    alloc: Global,
    pool: &mut TextPool,
    color: Shown<Text>,
) -> Result<Shown<SharedText>, OutOfMemory>
    ensures { IfOk result (λ shared. shared ≡ color) }
{
    match color {
        Shown::Absent => Ok(Shown::Absent),
        Shown::Lacking => Ok(Shown::Lacking),
        Shown::Given(color) => Ok(Shown::Given(pool.shared(alloc, color.as_str())?)),
    }
}

/// The number that a channel shows, or the default where it is absent; None where it lacks.
pub fn or_default(default: Num, number: Shown<Num>) -> Option<Num>
    ensures { result ≡ or_default default number }
{
    match number {
        Shown::Absent => Some(default),
        Shown::Lacking => None,
        Shown::Given(given) => Some(given),
    }
}
