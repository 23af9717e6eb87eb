//! Names that are given twice.
ghost use Rattle.std.specs.Prelude.{◌≡◌, ℕ, List, None, Some, cond, false, bytes_eq, IfOk, OnOk};
ghost use Rattle.std.specs.Option.{option_copied, option_map_or};
ghost use Rattle.spec_schema.specs.Order.{earlier, is_before};
ghost use Rattle.vl_names.specs.Twice.{behind_firsts, is_repeated, sooner_place, stands_at, twice};
ghost use Rattle.vl_names.specs.inner.First.{IsFirst, place_under};
ghost use Rattle.vl_trails.specs.Faults.{earliest_placed, wrong_if};

use crate::given::Given;
use crate::index::name_numbers;
use json_exact::Json;
use spec_schema::{Fault, SpecKind};
use std::alloc::Global;
use std::collections::BTreeMap;
use text_kit::{OutOfMemory, Seq};
use vl_trails::{Broken, place_of, sooner_placed};

// Where names are first given.
type Firsts = BTreeMap<Vec<usize>, Seq<usize>>;

// No name at all.
fn no_names(alloc: Global) -> Firsts
    ensures { (q : List ℕ) → place_under result q ≡ None }
{
    BTreeMap::new(alloc)
}

// Whether a place stands before another in the text.
fn is_before(first: &[usize], second: &[usize]) -> bool
    ensures { result ≡ is_before first.now second.now }
{
    let [m, ms @ ..] = first else {
        return !second.is_empty();
    };
    let [n, ns @ ..] = second else {
        return false;
    };
    *m < *n || (*m == *n && is_before(ms, ns))
}

// Puts a place under a name, in place of the one that was there.
fn put(firsts: &mut Firsts, key: Seq<usize>, place: Seq<usize>) -> Result<(), OutOfMemory>
    ensures { OnOk result ((q : List ℕ) → place_under firsts.new q ≡ cond (bytes_eq q key) (Some place) (place_under firsts.old q)) }
{
    put_vec(firsts, key.into_vec(), place)
}

// Puts a place under the numbers of a name.
fn put_vec(firsts: &mut Firsts, key: Vec<usize>, place: Seq<usize>) -> Result<(), OutOfMemory>
    ensures { OnOk result ((q : List ℕ) → place_under firsts.new q ≡ cond (bytes_eq q key.items) (Some place) (place_under firsts.old q)) }
{
    firsts.insert(key, place)?;
    Ok(())
}

// The place under a name; None exactly where there is none.
fn place_under<'a>(firsts: &'a Firsts, key: &[usize]) -> Option<&'a Seq<usize>>
    ensures { option_copied result ≡ place_under firsts.now key.now }
{
    firsts.get(key)
}

// Whether the place under a name stands before another.
fn stands_before(firsts: &Firsts, key: &Seq<usize>, place: &Seq<usize>) -> bool
    ensures { result ≡ option_map_or (λ first. is_before first place.now) (place_under firsts.now key.now) false }
{
    match place_under(firsts, key.as_slice()) {
        Some(first) => is_before(first.as_slice(), place.as_slice()),
        None => false,
    }
}

// Puts a place under a name, unless what is there shall stay.
#[tactic(auto, using(crate::proofs::FirstLemmas::all_stay))]
fn put_unless(
    firsts: &mut Firsts,
    stays: bool,
    key: Seq<usize>,
    place: Seq<usize>,
) -> Result<(), OutOfMemory>
    ensures { OnOk result ((q : List ℕ) → place_under firsts.new q
        ≡ cond (bytes_eq q key) (cond stays (place_under firsts.old key) (Some place)) (place_under firsts.old q)) }
{
    if stays {
        Ok(())
    } else {
        put(firsts, key, place)
    }
}

// Puts a place under a name, unless an earlier one is there.
fn put_earlier(
    alloc: Global,
    firsts: &mut Firsts,
    name: &str,
    place: Seq<usize>,
) -> Result<(), OutOfMemory>
    ensures { OnOk result ((q : List ℕ) → place_under firsts.new q
        ≡ cond (bytes_eq q name.now) (sooner_place place (place_under firsts.old name.now)) (place_under firsts.old q)) }
{
    let key = name_numbers(alloc, name)?;
    let stays = stands_before(firsts, &key, &place);
    put_unless(firsts, stays, key, place)
}

// Puts where a name is given under it, unless an earlier place is there.
fn put_given(
    alloc: Global,
    tree: &Json,
    firsts: &mut Firsts,
    given: &Given,
) -> Result<(), OutOfMemory>
    ensures { OnOk result ((q : List ℕ) → place_under firsts.new q
        ≡ cond (bytes_eq q given.now.name) (sooner_place (stands_at tree.now given.now) (place_under firsts.old given.now.name)) (place_under firsts.old q)) }
{
    let place = place_of(alloc, tree, given.trail.as_slice())?;
    put_earlier(alloc, firsts, given.name.as_str(), place)
}

// Where each name is first given.
#[tactic(auto, using(crate::proofs::FirstLemmas::one_before, crate::proofs::FirstLemmas::none_given))]
fn firsts_of(alloc: Global, tree: &Json, all: &[Given]) -> Result<Firsts, OutOfMemory>
    ensures { IfOk result (λ firsts. IsFirst tree.now firsts all.now) }
{
    let mut firsts = no_names(alloc);
    let mut left = all.len();
    while left > 0 {
        left -= 1;
        put_given(alloc, tree, &mut firsts, &all[left])?;
    }
    Ok(firsts)
}

// Whether a name was given before.
fn is_repeated(
    alloc: Global,
    tree: &Json,
    firsts: &Firsts,
    given: &Given,
) -> Result<bool, OutOfMemory>
    ensures { IfOk result (λ is. is
        ≡ is_repeated tree.now (place_under firsts.now) given.now) }
{
    let key = name_numbers(alloc, given.name.as_str())?;
    let place = place_of(alloc, tree, given.trail.as_slice())?;
    Ok(stands_before(firsts, &key, &place))
}

// The fault so far, or that of a name which was given before, if it stands before it.
#[tactic(auto, using(vl_trails::proofs::OrderLemmas::none_more))]
fn sooner_repeated(
    alloc: Global,
    tree: &Json,
    so_far: Option<Fault>,
    firsts: &Firsts,
    given: &Given,
) -> Result<Option<Fault>, OutOfMemory>
    ensures { IfOk result (λ f. f ≡ earlier so_far (earliest_placed tree.now (wrong_if
        (is_repeated tree.now (place_under firsts.now) given.now) given.now.trail))) }
{
    if is_repeated(alloc, tree, firsts, given)? {
        let what = Broken::Value(SpecKind::Wrong);
        sooner_placed(alloc, tree, so_far, given.trail.as_slice(), &what)
    } else {
        Ok(so_far)
    }
}

// The fault so far, or the first of those of names that were given before, if it stands before it.
fn sooner_among(
    alloc: Global,
    tree: &Json,
    so_far: Option<Fault>,
    firsts: &Firsts,
    all: &[Given],
) -> Result<Option<Fault>, OutOfMemory>
    ensures { IfOk result (λ f. f ≡ earlier so_far (earliest_placed tree.now (behind_firsts tree.now (place_under firsts.now) all.now))) }
{
    let mut so_far = so_far;
    for given in all {
        so_far = sooner_repeated(alloc, tree, so_far, firsts, given)?;
    }
    Ok(so_far)
}

/// The fault so far, or that of a name which is given twice and stands first, if it stands before it.
pub fn sooner_twice(
    alloc: Global,
    tree: &Json,
    so_far: Option<Fault>,
    all: &[Given],
) -> Result<Option<Fault>, OutOfMemory>
    ensures { IfOk result (λ f. f ≡ earlier so_far (earliest_placed tree.now (twice tree.now all.now))) }
{
    let firsts = firsts_of(alloc, tree, all)?;
    sooner_among(alloc, tree, so_far, &firsts, all)
}
