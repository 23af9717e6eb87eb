// Different keys.
ghost use Rattle.std.specs.Prelude.{◌≡◌, ◌++◌, [], ◌∷◌, map, is_some, IfOk, OnOk, if◌then◌else◌};
ghost use Rattle.plain_facets.specs.Facets.{key_of, distinct_keys};
ghost use Rattle.plain_facets.specs.Rows.{data_of, HaveIds};

use crate::keys::fill_key;
use crate::places::{no_places, note};
use cell_value::{Cell, Keyed};
use std::alloc::Global;
use text_kit::{OutOfMemory, Seq, Text, copy_list};

// Adds a key, unless it had a place already.
fn push_new(
    found: &mut Seq<Seq<Cell>>,
    alloc: Global,
    key: &Vec<Cell>,
    had: Option<usize>,
) -> Result<(), OutOfMemory>
    ensures { OnOk result (found.new ≡ (if is_some had then found.old else found.old ++ key.now.items ∷ [])) }
{
    if had.is_some() {
        return Ok(());
    }
    found.push(copy_list(alloc, key.as_slice())?)
}

/// The different keys of rows in some fields, by the first row with each.
pub(crate) fn distinct_keys(
    alloc: Global,
    rows: &[&Keyed],
    fields: &[Text],
) -> Result<Seq<Seq<Cell>>, OutOfMemory>
    requires { HaveIds rows.now }
    ensures { IfOk result (λ found. found ≡ distinct_keys (map (key_of fields.now) (data_of rows.now))) }
{
    let mut places = no_places(alloc);
    let mut found = Seq::new(alloc);
    let mut key = Vec::with_capacity(alloc, fields.len())?;
    for (at, row) in rows.iter().enumerate() {
        fill_key(&mut key, row, fields)?;
        let had = note(&mut places, alloc, &key, at)?;
        push_new(&mut found, alloc, &key, had)?;
    }
    Ok(found)
}
