// Values under keys.
ghost use Rattle.std.specs.Prelude.{◌≡◌, ◌++◌, [], ◌∷◌, flat_map, IfOk, OnOk, if◌then◌else◌};
ghost use Rattle.cell_value.specs.declared.cell.Cell.{Cell as AnyCell};
ghost use Rattle.cell_value.specs.Cell.{same_cells};
ghost use Rattle.domain_kit.specs.Orders.{keys_of, values_under};
ghost use Rattle.domain_kit.specs.inner.Held.{values_held};

use cell_value::Cell;
use std::alloc::Global;
use std::collections::BTreeMap;
use text_kit::{OutOfMemory, Seq, copy_list};

/// A value under a key.
#[derive(Debug, Drop)]
pub struct Entry {
    /// The key.
    pub key: Cell,
    /// The value.
    pub value: Cell,
}

/// The values under each key.
pub(crate) type Held = BTreeMap<Cell, Seq<Cell>>;

/// The keys of entries.
pub(crate) fn keys_of(alloc: Global, entries: &[Entry]) -> Result<Seq<Cell>, OutOfMemory>
    ensures { IfOk result (λ keys. keys ≡ keys_of entries.now) }
{
    let mut keys = Seq::with_capacity(alloc, entries.len())?;
    for entry in entries {
        keys.push(entry.key.copy()?)?;
    }
    Ok(keys)
}

// No value under any key.
fn none_held(alloc: Global) -> Held
    ensures { (key : AnyCell) → values_held result key ≡ [] }
{
    BTreeMap::new(alloc)
}

// Adds a value under a key.
fn hold(held: &mut Held, alloc: Global, entry: &Entry) -> Result<(), OutOfMemory>
    ensures { OnOk result ((key : AnyCell) → values_held held.new key
        ≡ values_held held.old key ++ (if same_cells key entry.now.key then entry.now.value ∷ [] else [])) }
{
    let mut values = held.remove(&entry.key).unwrap_or(Seq::new(alloc));
    values.push(entry.value.copy()?)?;
    held.insert(entry.key.copy()?, values)?;
    Ok(())
}

/// The values of entries under their keys.
pub(crate) fn held_of(alloc: Global, entries: &[Entry]) -> Result<Held, OutOfMemory>
    ensures { IfOk result (λ held. values_held held ≡ values_under entries.now) }
{
    let mut held = none_held(alloc);
    for entry in entries {
        hold(&mut held, alloc, entry)?;
    }
    Ok(held)
}

/// The values under a key; none where it is absent.
pub(crate) fn held_values<'a>(held: &'a Held, key: &Cell) -> &'a [Cell]
    ensures { result.now ≡ values_held held.now key.now }
{
    match held.get(key) {
        Some(values) => values.as_slice(),
        None => &[],
    }
}

/// The values under keys, key after key.
pub(crate) fn all_held(alloc: Global, held: &Held, keys: &[Cell]) -> Result<Seq<Cell>, OutOfMemory>
    ensures { IfOk result (λ values. values ≡ flat_map (values_held held.now) keys.now) }
{
    let mut values = Seq::new(alloc);
    for key in keys {
        values.append(copy_list(alloc, held_values(held, key))?)?;
    }
    Ok(values)
}
