// The item that stands at a point of a picture.
ghost use Rattle.std.specs.Prelude.{◌≡◌, ◌<◌, ◌&&◌, ◌-ℤ◌, length, IfSome};
ghost use Rattle.scene_tree.specs.Hits.{holds_point, has_key, places_where, hits_among, last, hit_of};

use crate::holding::holds;
use crate::places::Place;
use crate::{Item, Items, Panel, Scene, Shape};
use fixed_num::Num;

/// An item of a scene.
#[derive(Clone, Copy, Debug, PartialEq, Eq)]
pub struct ItemRef {
    /// The place of its panel among those of the scene, counted from 0.
    pub panel: usize,
    /// Its place among the items of its panel, counted from 0.
    pub item: usize,
}

/// Whether a shape holds the point `x`, `y` of the picture, where its places are counted from the place `left`, `top` of the picture: a rect
/// inside of it and on its edges, a circle where the point is no farther from its centre than its radius, a symbol's path in a square round its
/// middle. No other shape holds a point. It takes no memory.
pub fn holds_at(shape: &Shape, left: Num, top: Num, x: Num, y: Num) -> bool
    ensures { result ≡ holds_point shape.now (x -ℤ left) (y -ℤ top) }
{
    let across = Place::from(left, x);
    let down = Place::from(top, y);
    holds(shape, across, down)
}

// Whether an item has a key and holds a point of its panel.
fn is_hit(item: &Item, x: Place, y: Place) -> bool
    ensures { result ≡ has_key item.now && holds_point item.now.shape x y }
{
    item.key.is_some() && holds(&item.shape, x, y)
}

// The place of the last of some items of a panel that has a key and holds a point of the panel.
#[tactic(auto, using(crate::proofs::LastLemmas::place_here, crate::proofs::LastLemmas::place_before))]
fn last_hit(items: &[Item], x: Place, y: Place) -> Option<usize>
    ensures value { result ≡ last (places_where (λ item. has_key item && holds_point item.shape x y) items.now) }
    ensures within { IfSome result (λ at. at < length items.now) }
{
    for at in (0..items.len()).rev() {
        if is_hit(&items[at], x, y) {
            return Some(at);
        }
    }
    None
}

// The same of a panel's items in runs, from the last of them on.
fn last_hit_among(items: &Items, x: Place, y: Place) -> Option<usize>
    ensures { result ≡ last (places_where (λ item. has_key item && holds_point item.shape x y) items.now) }
{
    let runs = items.runs();
    let mut before = items.len();
    for at in (0..runs.len()).rev() {
        let run = runs[at].as_slice();
        before -= run.len();
        if let Some(item) = last_hit(run, x, y) {
            return Some(before + item);
        }
    }
    None
}

// The place of the last item of a panel that has a key and holds a point of the picture.
fn last_hit_in(panel: &Panel, x: Num, y: Num) -> Option<usize>
    ensures { result ≡ last (hits_among has_key panel.now x y) }
{
    let across = Place::from(panel.x, x);
    let down = Place::from(panel.y, y);
    last_hit_among(&panel.items, across, down)
}

/// The last item in drawing order that has a key and holds the point `x`, `y` of the picture, in pixels from its upper
/// left corner; None exactly where none does. A rect holds what lies inside of it and on its edges, and a circle what is
/// no farther from its centre than its radius. A symbol's path holds a square round its middle. No other shape holds a
/// point. It takes no memory.
#[tactic(auto, using(crate::proofs::HitLemmas::panel_here, crate::proofs::HitLemmas::panel_before))]
pub fn pick(s: &Scene, x: Num, y: Num) -> Option<ItemRef>
    ensures { result ≡ hit_of s.now x y }
{
    let panels = s.panels.as_slice();
    for panel in (0..panels.len()).rev() {
        if let Some(item) = last_hit_in(&panels[panel], x, y) {
            return Some(ItemRef { panel, item });
        }
    }
    None
}
