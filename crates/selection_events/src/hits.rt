// The item that a click hits.
ghost use Rattle.std.specs.Prelude.{◌≡◌, ◌-ℤ◌, ◌&&◌, if◌then◌else◌, Some, None};
ghost use Rattle.std.specs.Option.{option_or};
ghost use Rattle.scene_tree.specs.Hits.{holds_point};
ghost use Rattle.selection_events.specs.Hits.{marked, is_among, hit_of, hit_at};
ghost use Rattle.selection_events.specs.inner.Last.{last_found};

use crate::units::Units;
use cell_value::Key;
use fixed_num::Num;
use scene_tree::{Item, Panel, holds_at};

/// What is hit of an item.
#[derive(Clone, Copy, Debug, PartialEq, Eq)]
pub struct Hit {
    /// The number of its unit.
    pub unit: u32,
    /// The key of its row.
    pub key: Key,
}

// The unit and the key of an item, where it has both.
fn marked(item: &Item) -> Option<Hit>
    ensures { result ≡ marked item.now }
{
    let unit = item.unit?;
    let key = item.key?;
    Some(Hit { unit, key })
}

// Whether an item holds a point.
fn holds(panel: &Panel, x: Num, y: Num, item: &Item) -> bool
    ensures { result ≡ holds_point item.now.shape (x -ℤ panel.now.x) (y -ℤ panel.now.y) }
{
    holds_at(&item.shape, panel.x, panel.y, x, y)
}

// What is hit of an item of these units with its unit and its key.
fn hit_with(units: &Units, panel: &Panel, x: Num, y: Num, item: &Item, hit: Hit) -> Option<Hit>
    ensures { result ≡ (if is_among units.now hit.unit
        && holds_point item.now.shape (x -ℤ panel.now.x) (y -ℤ panel.now.y) then Some hit else None) }
{
    if units.has(hit.unit) && holds(panel, x, y, item) {
        Some(hit)
    } else {
        None
    }
}

// What is hit of an item at a point.
fn hit_of(units: &Units, panel: &Panel, x: Num, y: Num, item: &Item) -> Option<Hit>
    ensures { result ≡ hit_of units.now panel.now x y item.now }
{
    match marked(item) {
        Some(hit) => hit_with(units, panel, x, y, item, hit),
        None => None,
    }
}

// What is hit, else what was before.
fn later(hit: Option<Hit>, found: Option<Hit>) -> Option<Hit>
    ensures { result ≡ option_or hit found }
{
    match hit {
        Some(hit) => Some(hit),
        None => found,
    }
}

// What is hit last of some items, else what was before.
fn hit_among(
    units: &Units,
    panel: &Panel,
    x: Num,
    y: Num,
    items: &[Item],
    before: Option<Hit>,
) -> Option<Hit>
    ensures { result ≡ last_found (hit_of units.now panel.now x y) items.now before }
{
    let mut found = before;
    for item in items {
        found = later(hit_of(units, panel, x, y, item), found);
    }
    found
}

/// What is hit at a point of the picture in a panel: the last item of one of these units that has a key and holds the point. None where
/// there is none. It takes no memory.
#[tactic(auto, using(crate::proofs::LastLemmas::last_in_runs_begun))]
pub fn hit_at(units: &[u32], panel: &Panel, x: Num, y: Num) -> Option<Hit>
    ensures { result ≡ hit_at units.now panel.now x y }
{
    let among = Units::of(units);
    let runs = panel.items.runs();
    let mut found = None;
    for run in runs {
        found = hit_among(&among, panel, x, y, run.as_slice(), found);
    }
    found
}
