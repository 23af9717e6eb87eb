// Texts that come again.
ghost use Rattle.std.specs.Prelude.{◌≡◌, ◌<◌, IfOk, IfSome};

use crate::SharedText;
use std::alloc::Global;
use text_kit::{OutOfMemory, Seq};

// How many texts a pool keeps.
const KEPT: u64 = 1024;

/// Texts that were wanted before. One that comes again is shared with the last that has its place, by its hash; so what is read takes
/// little more memory for a text in each row than for one in all.
#[derive(Drop)]
pub struct TextPool {
    kept: Seq<Option<SharedText>>,
}

// A place for a text, by FNV-1a over its bytes.
fn place_of(text: &str) -> usize {
    let mut hash: u64 = 0xcbf2_9ce4_8422_2325;
    for byte in text.as_bytes() {
        hash = (hash ^ u64::from(*byte)).wrapping_mul(0x0000_0100_0000_01b3);
    }
    (hash % KEPT) as usize
}

// The kept text, if it is the one that is wanted.
fn same_text(
    kept: Option<&Option<SharedText>>,
    text: &str,
) -> Result<Option<SharedText>, OutOfMemory>
    ensures { IfOk result (λ found. IfSome found (λ shared. shared ≡ text.now)) }
{
    if let Some(Some(known)) = kept {
        if known.as_str() == text {
            return Ok(Some(known.copy()?));
        }
    }
    Ok(None)
}

impl TextPool {
    /// A pool that has no text yet.
    pub fn new(alloc: Global) -> Result<TextPool, OutOfMemory> {
        let mut kept = Seq::with_capacity(alloc, KEPT as usize)?;
        for _ in 0..KEPT {
            kept.push(None)?;
        }
        Ok(TextPool { kept })
    }

    /// A pool that keeps no text. It takes no memory.
    pub fn empty(alloc: Global) -> TextPool {
        TextPool {
            kept: Seq::new(alloc),
        }
    }

    /// A text of the bytes of `text`: one that was wanted before where the pool keeps it, else one that is made now and kept.
    pub fn shared(&mut self, alloc: Global, text: &str) -> Result<SharedText, OutOfMemory>
        ensures { IfOk result (λ shared. shared ≡ text.now) }
    {
        let place = place_of(text);
        if let Some(known) = same_text(self.kept.as_slice().get(place), text)? {
            return Ok(known);
        }
        let made = SharedText::of(alloc, text)?;
        let copy = made.copy()?;
        if place < self.kept.len() {
            self.kept.set(place, Some(copy));
        }
        Ok(made)
    }
}
