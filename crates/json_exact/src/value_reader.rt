//! The values of a text, read one after the other.

ghost use Rattle.std.specs.Prelude.{IfOk};
ghost use Rattle.text_kit.specs.Answer.{GivesAs};
ghost use Rattle.std.specs.Option.{option_map};
ghost use Rattle.json_exact.specs.Values.{AreValuesOf, AnswersAreTheValues, IsNext, IsFewer, ahead, most_ahead};
ghost use Rattle.json_exact.specs.inner.Reader.{cause};
ghost use Rattle.json_exact.specs.inner.Ahead.{item_then, step_at};

use crate::error::{JsonError, ReadStop, fault_at};
use crate::json::Json;
use crate::reading::{DEEPEST, text_of};
use crate::values::padded_of;
use crate::words::{after_first, first_of, skip_white};
use std::alloc::Global;

/// Where a reader of values is.
#[derive(Clone, Copy, Debug, PartialEq, Eq)]
pub enum Stage {
    /// Before a text that is no list.
    Whole,
    /// Before an item of a list.
    Items,
    /// Behind all values.
    End,
}

/// Reads the values that a JSON text lists, one after the other: the items of a list, or the one value that is no list. So no tree of
/// the whole text is made.
#[derive(Clone, Copy, Debug)]
pub struct ValueReader<'a> {
    // How many bytes the text has.
    size: usize,
    stage: Stage,
    // How many values may still come at most.
    most: usize,
    rest: &'a [u8],
}

// The item of a list at the front, and what follows it.
fn item_of(alloc: Global, bytes: &[u8]) -> Result<(Json, Stage, &[u8]), ReadStop>
    ensures { GivesAs (λ x. (x.0, x.1, x.2.now)) cause result (item_then bytes.now) }
{
    let (item, rest) = padded_of(alloc, DEEPEST - 1, bytes)?;
    match first_of(rest) {
        b',' => Ok((item, Stage::Items, after_first(rest))),
        b']' => Ok((item, Stage::End, skip_white(after_first(rest)))),
        _ => Err(fault_at(rest)),
    }
}

// The next value at this stage, where so many may still come, and what follows it; None at the end.
fn next_of(
    alloc: Global,
    stage: Stage,
    most: usize,
    rest: &[u8],
) -> Result<Option<(Json, Stage, &[u8])>, ReadStop>
    ensures { GivesAs (option_map (λ x. (x.0, x.1, x.2.now))) cause result (step_at stage most rest.now) }
{
    match stage {
        Stage::End if rest.is_empty() => Ok(None),
        Stage::Whole if most > 0 => Ok(Some((text_of(alloc, rest)?, Stage::End, &[]))),
        Stage::Items if most > 0 => Ok(Some(item_of(alloc, rest)?)),
        Stage::End | Stage::Whole | Stage::Items => Err(fault_at(rest)),
    }
}

impl<'a> ValueReader<'a> {
    /// A reader of the values of these bytes.
    pub fn of(bytes: &'a [u8]) -> ValueReader<'a>
        ensures { AreValuesOf bytes.now (ahead result) }
    {
        let size = bytes.len();
        let front = skip_white(bytes);
        if first_of(front) != b'[' {
            return ValueReader {
                size,
                stage: Stage::Whole,
                most: 1,
                rest: bytes,
            };
        }
        let inside = after_first(front);
        let rest = skip_white(inside);
        if first_of(rest) == b']' {
            return ValueReader {
                size,
                stage: Stage::End,
                most: 0,
                rest: skip_white(after_first(rest)),
            };
        }
        ValueReader {
            size,
            stage: Stage::Items,
            most: inside.len(),
            rest,
        }
    }

    /// The next value and a reader of those after it; None at the end of the text. `Fault` comes where the bytes spell no tree, once
    /// the values before the fault are read, and says how many of the bytes begin a text.
    pub fn next_value(self, alloc: Global) -> Result<Option<(Json, ValueReader<'a>)>, JsonError>
        ensures next { IsNext (ahead self.entry) result }
        ensures fewer { IfOk result (IsFewer (most_ahead self.entry)) }
    {
        match next_of(alloc, self.stage, self.most, self.rest) {
            Ok(None) => Ok(None),
            Ok(Some((value, stage, rest))) => Ok(Some((
                value,
                ValueReader {
                    size: self.size,
                    stage,
                    most: self.most.saturating_sub(1),
                    rest,
                },
            ))),
            Err(ReadStop::Memory) => Err(JsonError::Memory),
            Err(ReadStop::Fault { left }) => Err(JsonError::Fault {
                at: self.size.saturating_sub(left) as u64,
            }),
        }
    }
}

/// What a reader answers from call to call, up to its end or a fault, is right by what the text spells, whatever is told to be ahead of it.
pub fn answers_are_the_values()
    ensures { AnswersAreTheValues }
{}
