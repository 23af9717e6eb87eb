// What reads lists of rows by their names.
ghost use Rattle.std.specs.Prelude.{◌≡◌, ℕ, List, IfOk, map};
ghost use Rattle.cell_value.specs.declared.state.Keyed.{Keyed};
ghost use Rattle.vega_lists.specs.Held.{rows_named};

use crate::Lists;
use cell_value::{Keyed, Named};
use std::alloc::Global;
use text_kit::{OutOfMemory, Seq};

/// Lists of rows by their names.
pub trait ListReader {
    /// The rows for which each name stands; none where a name stands for no list.
    ghost named: { Self → List ℕ → List Keyed };

    /// The rows for which a name stands, in their order.
    fn rows<'a>(&'a self, alloc: Global, name: &str) -> Result<Seq<&'a Keyed>, OutOfMemory>
        ensures { IfOk result (λ rows. map (λ row. row.now) rows ≡ named self.now name.now) };
}

/// The lists of a specification over its sources.
#[derive(Clone, Copy)]
pub struct ListsIn<'a> {
    /// The sources of which the lists were made.
    pub sources: &'a [Named],
    /// The lists.
    pub lists: &'a Lists,
}

// References to rows, in their order.
pub(crate) fn referred(alloc: Global, rows: &[Keyed]) -> Result<Seq<&Keyed>, OutOfMemory>
    ensures { IfOk result (λ found. map (λ row. row.now) found ≡ rows.now) }
{
    let mut found = Seq::with_capacity(alloc, rows.len())?;
    for row in rows {
        found.push(row)?;
    }
    Ok(found)
}

impl ListReader for ListsIn<'_> {
    ghost named = { λ reader. rows_named reader.sources.now reader.lists.now };

    fn rows<'a>(&'a self, alloc: Global, name: &str) -> Result<Seq<&'a Keyed>, OutOfMemory> {
        match self.lists.find(self.sources, name) {
            Some(rows) => referred(alloc, rows.as_slice()),
            None => Ok(Seq::new(alloc)),
        }
    }
}
