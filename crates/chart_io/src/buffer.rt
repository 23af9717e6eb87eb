//! Buffers to read into.
ghost use Rattle.std.specs.Prelude.{◌≡◌, length, IfOk};

use std::alloc::Global;
use text_kit::OutOfMemory;

/// A buffer of this many bytes.
pub fn zeros(alloc: Global, len: usize) -> Result<Vec<u8>, OutOfMemory>
    ensures { IfOk result (λ buffer. length buffer.items ≡ len) }
{
    Ok(vec![in alloc; 0u8; len]?)
}
