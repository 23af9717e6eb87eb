ghost use Rattle.std.specs.Prelude.{◌≡◌, ◌⊎◌, List, ℕ, IfOk, Ok, Err};
ghost use Rattle.text_kit.specs.Answer.{GivesAs};
ghost use Rattle.json_exact.specs.Reading.{Reads, FaultsAt};
ghost use Rattle.json_exact.specs.inner.Reader.{cause, text_at};
ghost use Rattle.json_exact.specs.declared.json.Json.{Json as Tree};
ghost use Rattle.json_exact.specs.declared.error.JsonError.TheVariants.{Fault, Memory};

use crate::error::{JsonError, ReadStop, fault_at};
use crate::json::Json;
use crate::values::padded_of;
use std::alloc::Global;

/// How many lists and objects may stand in one another.
pub const DEEPEST: u32 = 128;

/// The tree that all of the bytes spell.
#[tactic(auto, unfolding(crate::specs::inner::Reader::text_at))]
pub fn text_of(alloc: Global, bytes: &[u8]) -> Result<Json, ReadStop>
    ensures { GivesAs (λ tree. tree) cause result (text_at bytes.now) }
{
    let (tree, rest) = padded_of(alloc, DEEPEST, bytes)?;
    if !rest.is_empty() {
        return Err(fault_at(rest));
    }
    Ok(tree)
}

/// The tree that the bytes spell. `Fault` comes exactly where they spell none, and says how many of them begin a text.
pub fn read(alloc: Global, bytes: &[u8]) -> Result<Json, JsonError>
    // What is read is what the bytes say.
    ensures sound { IfOk result (λ tree. Reads bytes.now tree) }
    // What the bytes say is read, unless memory is refused.
    ensures complete { (tree : Tree) → Reads bytes.now tree → (result ≡ Ok tree) ⊎ (result ≡ Err Memory) }
    // A fault is answered only where the bytes say nothing.
    ensures fault { (place : ℕ) → result ≡ Err (Fault place) → (tree : Tree) → Reads bytes.now tree → ⊥ }
    // Its place is the length of the longest prefix that begins a text.
    ensures place { (place : ℕ) → result ≡ Err (Fault place) → FaultsAt bytes.now place }
{
    match text_of(alloc, bytes) {
        Ok(tree) => Ok(tree),
        Err(ReadStop::Memory) => Err(JsonError::Memory),
        Err(ReadStop::Fault { left }) => Err(JsonError::Fault {
            at: bytes.len().saturating_sub(left) as u64,
        }),
    }
}

/// No bytes are read in two ways.
pub fn one_reading()
    ensures { (bytes : List ℕ) (s t : Tree) → Reads bytes s → Reads bytes t → s ≡ t }
{}
