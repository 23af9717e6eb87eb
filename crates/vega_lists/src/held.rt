// Lists of rows by their names.
ghost use Rattle.std.specs.Prelude.{◌≡◌, option_copied};
ghost use Rattle.vega_lists.specs.Held.{rows_in, rows_there, place_named, rows_found};
ghost use Rattle.vega_lists.specs.Inside.{rows_held};

use cell_value::{Keyed, Named, Rows};
use std::collections::BTreeMap;
use text_kit::Seq;

/// Where the rows of a list stand.
#[derive(Clone, Copy)]
pub(crate) enum RowsIn {
    /// In the source at this place.
    Source(usize),
    /// Among the lists that were made, at this place.
    Made(usize),
    /// There is no list.
    Nothing,
}

/// The lists for which names stand. A list that no transform changes stays where it is, in a source or under another name.
pub struct Lists {
    pub(crate) by_name: BTreeMap<String, RowsIn>,
    pub(crate) made: Seq<Rows>,
}

impl Drop for Lists {
    fn drop(self) {
        let Lists {
            by_name: _,
            made: _,
        } = self;
    }
}

// The place of a name.
pub(crate) fn place_named(places: &BTreeMap<String, RowsIn>, name: &str) -> RowsIn
    ensures { result ≡ place_named places.now name.now }
{
    match places.get(name) {
        Some(place) => *place,
        None => RowsIn::Nothing,
    }
}

// The rows in a place, if there is a list.
pub(crate) fn rows_in<'a>(sources: &'a [Named], made: &'a [Rows], place: RowsIn) -> Option<&'a Rows>
    ensures { option_copied result ≡ rows_in sources.now made.now place }
{
    match place {
        RowsIn::Source(at) => Some(&sources.get(at)?.rows),
        RowsIn::Made(at) => made.get(at),
        RowsIn::Nothing => None,
    }
}

// The rows in a place; none where there is no list.
fn rows_there<'a>(sources: &'a [Named], made: &'a [Rows], place: RowsIn) -> &'a [Keyed]
    ensures { result.now ≡ rows_there sources.now made.now place }
{
    match rows_in(sources, made, place) {
        Some(rows) => rows.as_slice(),
        None => &[],
    }
}

impl Lists {
    /// The rows for which a name stands; None only where it stands for no list. One that data sets read without a list of it may be found
    /// as a list without rows. The sources are those of which the lists were made.
    pub fn find<'a>(&'a self, sources: &'a [Named], name: &str) -> Option<&'a Rows>
        ensures { option_copied result ≡ rows_found sources.now self.now name.now }
    {
        rows_in(
            sources,
            self.made.as_slice(),
            place_named(&self.by_name, name),
        )
    }

    /// The rows that are held under a name: of a list of the object itself, or of an outer one of which it holds a copy. None where it holds
    /// no list of the name, which stands for what it stands for round the object then. The sources are those of which the lists were made.
    pub fn held<'a>(&'a self, sources: &'a [Named], name: &str) -> Option<&'a [Keyed]>
        ensures { option_copied result ≡ rows_held sources.now self.now name.now }
    {
        match self.by_name.get(name) {
            Some(place) => Some(rows_there(sources, self.made.as_slice(), *place)),
            None => None,
        }
    }
}
