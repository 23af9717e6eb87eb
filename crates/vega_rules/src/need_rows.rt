//! Rows of what is needed.
ghost use Rattle.std.specs.Prelude.{◌≡◌, [], IfOk, OnOk, replicate};
ghost use Rattle.vega_rules.specs.Edges.{need};
ghost use Rattle.vega_rules.specs.inner.NeedRows.{with_need, with_needs};

use std::alloc::Global;
use text_kit::{OutOfMemory, Seq};

/// For each part, what it needs.
pub type NeedRows = Vec<Seq<usize>>;

/// As many empty rows.
pub fn empty_rows(alloc: Global, count: usize) -> Result<NeedRows, OutOfMemory>
    ensures { IfOk result (λ rows. rows.items ≡ replicate count []) }
{
    let mut rows = Vec::with_capacity(alloc, count)?;
    for _ in 0..count {
        rows.push(Seq::new(alloc))?;
    }
    Ok(rows)
}

// Adds a need.
fn add_end(rows: &mut NeedRows, from: usize, to: usize) -> Result<(), OutOfMemory>
    ensures { OnOk result (rows.new.items ≡ with_need rows.old.items (from, to)) }
{
    if from < rows.len() {
        rows[from].push(to)?;
    }
    Ok(())
}

/// Adds that one part needs another, where both are there.
pub fn add_need(
    rows: &mut NeedRows,
    from: Option<usize>,
    to: Option<usize>,
) -> Result<(), OutOfMemory>
    ensures { OnOk result (rows.new.items ≡ with_needs rows.old.items (need from to)) }
{
    if let Some(from) = from {
        if let Some(to) = to {
            return add_end(rows, from, to);
        }
    }
    Ok(())
}
