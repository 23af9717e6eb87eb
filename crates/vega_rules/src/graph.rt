//! Needs as a graph.
ghost use Rattle.std.specs.Prelude.{◌≡◌, IfOk};
ghost use Rattle.vega_rules.specs.declared.keys.By.TheVariants as by;
ghost use Rattle.vega_rules.specs.inner.Index.{IsIndex};
ghost use Rattle.vega_rules.specs.Graph.{graph};
ghost use Rattle.vega_rules.specs.inner.Placed.{IsPlaced};

use crate::edges::add_part;
use crate::keyed::Keyed;
use crate::need_rows::empty_rows;
use std::alloc::Global;
use text_kit::{OutOfMemory, Seq};
use vega_parts::Part;

/// For each part, what it needs.
pub fn graph(
    alloc: Global,
    names: &Keyed,
    places: &Keyed,
    parts: &[Part],
) -> Result<Seq<Seq<usize>>, OutOfMemory>
    requires names { IsIndex by.Name names.now parts.now }
    requires places { IsPlaced places.now parts.now }
    ensures { IfOk result (λ needs. needs ≡ graph parts.now) }
{
    let mut rows = empty_rows(alloc, parts.len())?;
    for part in parts {
        add_part(alloc, names, places, parts, part, &mut rows)?;
    }
    Ok(Seq::from_vec(rows))
}
