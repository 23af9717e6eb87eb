// What reads the lists of an object in others.
ghost use Rattle.vega_lists.specs.Inside.{no_rows, rows_inside};

use crate::readers::referred;
use crate::{ListReader, Lists};
use cell_value::{Keyed, Named};
use std::alloc::Global;
use text_kit::{OutOfMemory, Seq};

/// No list: each name stands for no rows.
#[derive(Clone, Copy)]
pub struct NoLists;

impl ListReader for NoLists {
    ghost named = { λ _. no_rows };

    fn rows<'a>(&'a self, alloc: Global, _: &str) -> Result<Seq<&'a Keyed>, OutOfMemory> {
        Ok(Seq::new(alloc))
    }
}

/// The lists of an object and those of the objects round it. A name under which the object holds a list stands for that, each other name
/// for what it stands for outside.
#[derive(Clone, Copy)]
pub struct ListsInside<'a, O> {
    /// The sources of which the lists were made.
    pub sources: &'a [Named],
    /// What reads the lists of the objects round it.
    pub outer: &'a O,
    /// The lists of the object.
    pub lists: &'a Lists,
}

impl<O: ListReader> ListReader for ListsInside<'_, O> {
    ghost named = { λ reader. rows_inside reader.sources.now (O.named reader.outer.now) reader.lists.now };

    fn rows<'a>(&'a self, alloc: Global, name: &str) -> Result<Seq<&'a Keyed>, OutOfMemory> {
        match self.lists.held(self.sources, name) {
            Some(rows) => referred(alloc, rows),
            None => self.outer.rows(alloc, name),
        }
    }
}
