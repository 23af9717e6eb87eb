// The scales that units share.
ghost use Rattle.std.specs.Prelude.{◌≡◌, ℕ, ◌<◌, ◌+◌, ◌==◌, ◌++◌, ◌∷◌, [], flat_map, length, map, if◌then◌else◌, IfOk, OnOk};
ghost use Rattle.vl_compose.specs.Shown.{unit_shown};
ghost use Rattle.vl_compose.specs.Sharing.{has_scale, homed, homed_for, sharing_at, is_first, groups_among, shared_by, shared_scales, resolve_of};
ghost use Rattle.vl_compose.specs.inner.Rows.{row_at};

use crate::definitions::definitions_at;
use crate::here::UnitHere;
use crate::sharing::home_of;
use crate::units::units_of;
use crate::views::{SharedScale, small};
use std::alloc::Global;
use text_kit::{OutOfMemory, Seq};
use vl_normalize::{COLOR, OPACITY, SHAPE, SIZE, X, Y};
use vl_spec::VlSpec;

/// A unit that has a scale for a channel.
#[derive(Clone, Copy)]
pub struct Homed {
    /// Its number among the units.
    pub number: u32,
    /// The number of the view up to which the scale is shared.
    pub home: usize,
}

// The channels that have scales.
const SCALE_CHANNELS: [u16; 6] = [X, Y, COLOR, OPACITY, SIZE, SHAPE];

// Whether a unit has a scale for a channel.
fn has_scale(alloc: Global, code: u16, unit: &UnitHere) -> Result<bool, OutOfMemory>
    ensures { IfOk result (λ has. has ≡ has_scale code (unit_shown unit.now)) }
{
    let definitions = definitions_at(alloc, unit.channels.as_slice(), code)?;
    Ok(!definitions.is_empty())
}

// Adds a unit, if it has a scale for a channel.
fn push_homed(
    alloc: Global,
    code: u16,
    unit: &UnitHere,
    all: &mut Seq<Homed>,
) -> Result<(), OutOfMemory>
    ensures { OnOk result (all.new
        ≡ all.old ++ (if has_scale code (unit_shown unit.now) then homed code (unit_shown unit.now) ∷ [] else [])) }
{
    if has_scale(alloc, code, unit)? {
        let number = small(unit.number)?;
        let home = home_of(unit.round.as_slice(), code);
        all.push(Homed { number, home })
    } else {
        Ok(())
    }
}

// The units that have a scale for a channel.
fn homed_for(alloc: Global, code: u16, units: &[UnitHere]) -> Result<Seq<Homed>, OutOfMemory>
    ensures { IfOk result (λ all. all ≡ homed_for code (map unit_shown units.now)) }
{
    let mut all = Seq::new(alloc);
    for unit in units {
        push_homed(alloc, code, unit, &mut all)?;
    }
    Ok(all)
}

// Adds an empty row.
fn push_row(alloc: Global, rows: &mut Vec<Seq<u32>>) -> Result<(), OutOfMemory>
    ensures row { OnOk result (rows.new.items ≡ rows.old.items ++ [] ∷ []) }
    ensures more { OnOk result (length rows.new.items ≡ length rows.old.items + 1) }
{
    rows.push(Seq::new(alloc))?;
    Ok(())
}

// Makes rows up to this one; those that are there stay.
fn grow(alloc: Global, rows: &mut Vec<Seq<u32>>, home: usize) -> Result<(), OutOfMemory>
    ensures same { OnOk result ((h : ℕ) → row_at rows.new.items h ≡ row_at rows.old.items h) }
    ensures there { OnOk result (home < length rows.new.items) }
{
    while rows.len() <= home {
        push_row(alloc, rows)?;
    }
    Ok(())
}

// Puts a number into a row that is there.
fn put(rows: &mut Vec<Seq<u32>>, home: usize, number: u32) -> Result<(), OutOfMemory>
    requires { home < length rows.old.items }
    ensures { OnOk result ((h : ℕ) → row_at rows.new.items h ≡ (if home == h then row_at rows.old.items h ++ number ∷ [] else row_at rows.old.items h)) }
{
    rows[home].push(number)
}

// The numbers of units by the views up to which they share a scale.
fn rows_of(alloc: Global, all: &[Homed]) -> Result<Vec<Seq<u32>>, OutOfMemory>
    ensures { IfOk result (λ rows. (h : ℕ) → row_at rows.items h ≡ sharing_at all.now h) }
{
    let mut rows = Vec::new(alloc);
    for unit in all {
        grow(alloc, &mut rows, unit.home)?;
        put(&mut rows, unit.home, unit.number)?;
    }
    Ok(rows)
}

// The row of a view; none where there is no such row.
fn row_at(rows: &[Seq<u32>], home: usize) -> &[u32]
    ensures { result.now ≡ row_at rows.now home }
{
    match rows.get(home) {
        Some(row) => row.as_slice(),
        None => &[],
    }
}

// Whether a number comes first.
fn is_first(number: u32, row: &[u32]) -> bool
    ensures { result ≡ is_first number row.now }
{
    match row {
        [first, ..] => *first == number,
        [] => false,
    }
}

// Adds the scale that a unit shares, if it is the first of those that do.
fn push_group(
    alloc: Global,
    code: u16,
    row: &[u32],
    number: u32,
    groups: &mut Seq<SharedScale>,
) -> Result<(), OutOfMemory>
    ensures { OnOk result (groups.new
        ≡ groups.old ++ (if is_first number row.now then record { channel = code; units = row.now } ∷ [] else [])) }
{
    if is_first(number, row) {
        let units = Seq::from_slice(alloc, row)?;
        groups.push(SharedScale {
            channel: code,
            units,
        })
    } else {
        Ok(())
    }
}

// Adds the scales of a channel, each where its first unit stands.
fn push_groups(
    alloc: Global,
    code: u16,
    all: &[Homed],
    groups: &mut Seq<SharedScale>,
) -> Result<(), OutOfMemory>
    ensures { OnOk result (groups.new ≡ groups.old ++ groups_among code all.now) }
{
    let rows = rows_of(alloc, all)?;
    for unit in all {
        let row = row_at(rows.as_slice(), unit.home);
        push_group(alloc, code, row, unit.number, groups)?;
    }
    Ok(())
}

// Adds the scales of a channel.
fn push_shared(
    alloc: Global,
    code: u16,
    units: &[UnitHere],
    groups: &mut Seq<SharedScale>,
) -> Result<(), OutOfMemory>
    ensures { OnOk result (groups.new ≡ groups.old ++ shared_by (map unit_shown units.now) code) }
{
    let all = homed_for(alloc, code, units)?;
    push_groups(alloc, code, all.as_slice(), groups)
}

// Adds the scales of some channels.
fn push_all(
    alloc: Global,
    codes: &[u16],
    units: &[UnitHere],
    groups: &mut Seq<SharedScale>,
) -> Result<(), OutOfMemory>
    ensures { OnOk result (groups.new ≡ groups.old ++ flat_map (shared_by (map unit_shown units.now)) codes.now) }
{
    for code in codes {
        push_shared(alloc, *code, units, groups)?;
    }
    Ok(())
}

/// The scales of units: for each channel that has scales, in the order of codes, the groups of units that share one, in the order of their
/// first units. The units are those of a specification, as `units_of` gives them.
pub fn shared_scales(alloc: Global, units: &[UnitHere]) -> Result<Seq<SharedScale>, OutOfMemory>
    ensures { IfOk result (λ groups. groups ≡ shared_scales (map unit_shown units.now)) }
{
    let mut groups = Seq::new(alloc);
    push_all(alloc, &SCALE_CHANNELS, units, &mut groups)?;
    Ok(groups)
}

/// The scales of a specification with the units that share them: for each channel that has scales, in the order of codes, the groups of
/// units that share one, in the order of their first units, in time and memory as the specification has views.
pub fn resolve_of(alloc: Global, s: &VlSpec) -> Result<Seq<SharedScale>, OutOfMemory>
    ensures { IfOk result (λ groups. groups ≡ resolve_of s.now) }
{
    let units = units_of(alloc, s)?;
    shared_scales(alloc, units.as_slice())
}
