// Scales that are indexed once.
ghost use Rattle.std.specs.Prelude.{◌≡◌, ℕ, List, ◌∷◌, Some, cond, option_copied, IfOk, OnOk};
ghost use Rattle.std.specs.Str.{bytes_eq};
ghost use Rattle.scale_kit.specs.Scale.{AreScales};
ghost use Rattle.mark_encode.specs.Channels.{scale_named, scales_within};
ghost use Rattle.mark_encode.specs.inner.Scales.{place_under, scale_at, scales_of, AreAllScales, FindsScales, sets_round, scales_inside};

use scale_kit::{Indexed, ScaleIn, ScaleSet};
use std::alloc::Global;
use std::collections::BTreeMap;
use std::marker::Model;
use text_kit::{OutOfMemory, Seq, Text};

// Puts the place of a name.
fn put(places: &mut BTreeMap<String, usize>, name: &Text, place: usize) -> Result<(), OutOfMemory>
    ensures { OnOk result ((q : List ℕ) → place_under places.new q ≡ cond (bytes_eq name.now q) (Some place) (place_under places.old q)) }
{
    places.insert(name.copy()?.into_string(), place)?;
    Ok(())
}

// Where the scales of names stand first.
fn first_places(alloc: Global, scales: &[ScaleIn]) -> Result<BTreeMap<String, usize>, OutOfMemory>
    ensures { IfOk result (λ places. FindsScales places (scales_of scales.now) scales.now) }
{
    let mut places = BTreeMap::new(alloc);
    let mut left = scales.len();
    while left > 0 {
        left -= 1;
        put(&mut places, &scales[left].name, left)?;
    }
    Ok(places)
}

// The scales, each with an index of its domain.
fn all_indexed<'a>(alloc: Global, scales: &'a [ScaleIn]) -> Result<Seq<Indexed<'a>>, OutOfMemory>
    requires { AreAllScales scales.now }
    ensures { IfOk result (λ indexed. indexed ≡ scales_of scales.now) }
{
    let mut indexed = Seq::with_capacity(alloc, scales.len())?;
    for scale in scales {
        indexed.push(Indexed::of(alloc, &scale.scale)?)?;
    }
    Ok(indexed)
}

// The place under a name.
fn place_under(places: &BTreeMap<String, usize>, name: &str) -> Option<usize>
    ensures { result ≡ place_under places.now name.now }
{
    places.get(name).copied()
}

// The scale at a place, if one is given.
fn scale_at<'a, 'b>(scales: &'b [Indexed<'a>], place: Option<usize>) -> Option<&'b Indexed<'a>>
    ensures { option_copied result ≡ scale_at scales.now place }
{
    match place {
        Some(place) => scales.get(place),
        None => None,
    }
}

// The scales of an object with their indexes, and the level of the object round it. Contracts see it as the sets of scales, from its own
// outwards.
#[derive(Drop)]
struct Level<'a> {
    set: &'a ScaleSet,
    indexed: Seq<Indexed<'a>>,
    places: BTreeMap<String, usize>,
    outer: Option<&'a Level<'a>>,
}

impl<'a> Model for Level<'a> {
    ghost use Rattle.std.specs.Prelude.{List, ◌∷◌, length};
    ghost use Rattle.scale_kit.specs.declared.scale.ScaleSet.{ScaleSet as AnySet};
    ghost use Rattle.mark_encode.specs.inner.Scales.{FindsScales, sets_round};
    ghost use Rattle.std.proofs.Common.{arith};

    ghost Value = { List AnySet };

    ghost view = { λ level. level.set.now ∷ sets_round level.outer };

    ghost invariant = { λ level. FindsScales level.places level.indexed level.set.now.scales };

    ghost size = { length };

    ghost size_decreases = { λ a h. Prim.grind (arith) };
}

impl<'a> Level<'a> {
    // The scales of an object with their indexes.
    fn of(
        alloc: Global,
        set: &'a ScaleSet,
        outer: Option<&'a Level<'a>>,
    ) -> Result<Level<'a>, OutOfMemory>
        requires { AreScales set.now }
        ensures { IfOk result (λ level. level ≡ set.now ∷ sets_round outer.entry) }
    {
        let scales = set.scales.as_slice();
        Ok(Level {
            set,
            indexed: all_indexed(alloc, scales)?,
            places: first_places(alloc, scales)?,
            outer,
        })
    }

    // The first scale of a name in the object, or else round it.
    fn named(&'a self, name: &str) -> Option<&'a Indexed<'a>>
        ensures { option_copied result ≡ scale_named (scales_inside self.now) name.now }
    {
        let own = scale_at(self.indexed.as_slice(), place_under(&self.places, name));
        match (own, self.outer) {
            (Some(scale), _) => Some(scale),
            (None, Some(outer)) => outer.named(name),
            (None, None) => None,
        }
    }
}

/// The scales that have names in an object, each with an index of its domain, made once for all that look in it. Contracts see it as the set
/// of scales. A scale is found in logarithmic time at its object, after those inside that have none of its name.
#[derive(Drop)]
pub struct IndexedSet<'a> {
    level: Level<'a>,
}

impl<'a> Model for IndexedSet<'a> {
    ghost use Rattle.scale_kit.specs.declared.scale.ScaleSet.{ScaleSet as AnySet};
    ghost use Rattle.mark_encode.specs.inner.Scales.{scales_inside};

    ghost Value = { AnySet };

    ghost view = { λ set. scales_inside set.level };
}

impl<'a> IndexedSet<'a> {
    /// These scales, of an object that has none round it. Their indexes take memory as the scales have names and cells in their domains, and
    /// are made in near linear time.
    pub fn of(alloc: Global, set: &'a ScaleSet) -> Result<IndexedSet<'a>, OutOfMemory>
        requires { AreScales set.now }
        ensures { IfOk result (λ indexed. indexed ≡ set.now) }
    {
        Ok(IndexedSet {
            level: Level::of(alloc, set, None)?,
        })
    }

    /// The scales of an object, and those round it of other names. It takes time and memory for its own alone, as `of` does: those round it
    /// are found in the indexes that they have. Finding a scale goes as deep as objects stand in one another.
    pub fn within(
        alloc: Global,
        own: &'a ScaleSet,
        outer: &'a IndexedSet<'a>,
    ) -> Result<IndexedSet<'a>, OutOfMemory>
        requires { AreScales own.now }
        ensures { IfOk result (λ indexed. indexed ≡ scales_within own.now outer.now) }
    {
        Ok(IndexedSet {
            level: Level::of(alloc, own, Some(&outer.level))?,
        })
    }

    /// The first scale of a name.
    pub(crate) fn named(&'a self, name: &str) -> Option<&'a Indexed<'a>>
        ensures { option_copied result ≡ scale_named self.now name.now }
    {
        self.level.named(name)
    }
}
