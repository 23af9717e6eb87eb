// Many cells put under their names at once.
ghost use Rattle.std.specs.Prelude.{◌≡◌, T, map, IfOk, OnOk};
ghost use Rattle.std.specs.Ordering.{nat_cmp};
ghost use Rattle.std.specs.Cmp.Lexicographic.{slice_cmp};
ghost use Rattle.std.specs.FinMap.{insert, is_sorted};
ghost use Rattle.cell_value.specs.Row.{row_of};
ghost use Rattle.cell_value.specs.inner.Gather.{named, seen_row};

use crate::{Held, SharedText};
use std::alloc::Global;
use std::collections::BTreeMap;
use text_kit::{OutOfMemory, Text};

// Puts a cell under a name.
#[tactic(auto, using(crate::proofs::GatherLemmas::named_insert))]
fn put(cells: &mut BTreeMap<String, Held>, name: &SharedText, cell: Held) -> Result<(), OutOfMemory>
    ensures { OnOk result (seen_row cells.new.entries ≡ insert (seen_row cells.old.entries) name.now cell) }
{
    cells.insert(name.as_text().copy()?.into_string(), cell)?;
    Ok(())
}

/// The cells by their names: of several under one name the last.
#[tactic(auto, using(crate::proofs::GatherLemmas::none_seen_yet, crate::proofs::GatherLemmas::one_more))]
pub fn gathered(
    alloc: Global,
    entries: Vec<(SharedText, Held)>,
) -> Result<BTreeMap<String, Held>, OutOfMemory>
    ensures { IfOk result (λ cells. seen_row cells.entries ≡ row_of entries.items) }
{
    let mut cells = BTreeMap::new(alloc);
    for (name, cell) in entries {
        put(&mut cells, &name, cell)?;
    }
    Ok(cells)
}

/// The same cells as a list in the order of their names.
pub fn listed(
    alloc: Global,
    cells: BTreeMap<String, Held>,
) -> Result<Vec<(SharedText, Held)>, OutOfMemory>
    ensures items { IfOk result (λ list. list.items ≡ map named cells.entries) }
    ensures sorted { IfOk result (λ list. T (is_sorted (slice_cmp nat_cmp) list.items)) }
{
    let mut list = Vec::with_capacity(alloc, cells.len())?;
    for (name, cell) in cells {
        list.push((SharedText::of_text(alloc, Text::from_string(name))?, cell))?;
    }
    Ok(list)
}
