//! What used names mean.
ghost use Rattle.std.specs.Prelude.{◌≡◌, ◌≤◌, length, take, option_map, option_and_then, IfOk};
ghost use Rattle.std.specs.Option.{option_copied, option_or};
ghost use Rattle.vega_rules.specs.Places.{ends_before, fronts};
ghost use Rattle.vega_rules.specs.Resolved.{giver, other_giver, asks_before, uses_in_data, served, served_by, given_as, given_in};
ghost use Rattle.vega_rules.specs.Resolved.{first_found, fronts_round, nearest_given, behind_own, resolved, resolved_use};
ghost use Rattle.vega_rules.specs.declared.keys.By.TheVariants as by;
ghost use Rattle.vega_rules.specs.inner.Index.{name_key, IsIndex};
ghost use Rattle.vega_rules.specs.inner.Looked.{given_front, given_fronts};

use crate::index::given_at;
use crate::keyed::Keyed;
use crate::keys::{front, name_key};
use std::alloc::Global;
use text_kit::{OutOfMemory, Seq, Text};
use vega_parts::{Given, GivenName, Part, Used, UsedName};

// What gives the name that is used.
pub fn giver(how: Used) -> Option<Given>
    ensures { result ≡ giver how }
{
    match how {
        Used::Source | Used::From | Used::MarkRows | Used::FacetRows | Used::Domain => {
            Some(Given::Data)
        }
        Used::Signal => Some(Given::Signal),
        Used::Store => Some(Given::Store),
        Used::Scale | Used::SizedScale => Some(Given::Scale),
        Used::MarkBelow => None,
    }
}

// What else gives it.
fn other_giver(how: Used) -> Option<Given>
    ensures { result ≡ other_giver how }
{
    match how {
        Used::Source | Used::From | Used::MarkRows | Used::FacetRows | Used::Domain => {
            Some(Given::Facet)
        }
        Used::Signal | Used::Store | Used::Scale | Used::SizedScale | Used::MarkBelow => None,
    }
}

// Whether what gives it has to stand before the use.
fn asks_before(how: Used) -> bool
    ensures { result ≡ asks_before how }
{
    match how {
        Used::Source | Used::From | Used::MarkRows | Used::FacetRows => true,
        Used::Domain
        | Used::Signal
        | Used::Store
        | Used::Scale
        | Used::SizedScale
        | Used::MarkBelow => false,
    }
}

// Whether it is a data set that uses the name.
fn uses_in_data(how: Used) -> bool
    ensures { result ≡ uses_in_data how }
{
    match how {
        Used::Source | Used::From => true,
        Used::MarkRows
        | Used::FacetRows
        | Used::Domain
        | Used::Signal
        | Used::Store
        | Used::Scale
        | Used::SizedScale
        | Used::MarkBelow => false,
    }
}

// Whether what stands at a place ends before another place.
fn ends_before(first: &[usize], second: &[usize]) -> bool
    ensures { result ≡ ends_before first.now second.now }
{
    let [n, ns @ ..] = second else {
        return false;
    };
    let [m, ms @ ..] = first else {
        return false;
    };
    *m < *n || (*m == *n && ends_before(ms, ns))
}

// A name that is given, where it serves a use at a place.
fn served<'a>(how: Used, at: &[usize], name: &'a GivenName) -> Option<&'a GivenName>
    ensures { option_copied result ≡ served how at.now name.now }
{
    if !asks_before(how) || ends_before(name.of.as_slice(), at) {
        Some(name)
    } else {
        None
    }
}

// A name, if any, that is given, where it serves.
fn where_served<'a>(how: Used, at: &[usize], name: Option<&'a GivenName>) -> Option<&'a GivenName>
    ensures { option_copied result ≡ option_and_then (served how at.now) (option_copied name.entry) }
{
    match name {
        Some(name) => served(how, at, name),
        None => None,
    }
}

// The first name with a front of a key.
fn given_front<'a>(
    index: &Keyed,
    parts: &'a [Part],
    room: usize,
    key: &Option<Seq<usize>>,
) -> Option<&'a GivenName>
    requires { IsIndex by.Name index.now parts.now }
    ensures { option_copied result ≡ given_front parts.now room key.now }
{
    match key {
        Some(key) => given_at(index, parts, front(key.as_slice(), room)),
        None => None,
    }
}

// The first name with a front of one of two keys.
fn given_fronts<'a>(
    index: &Keyed,
    parts: &'a [Part],
    room: usize,
    key: &Option<Seq<usize>>,
    other: &Option<Seq<usize>>,
) -> Option<&'a GivenName>
    requires { IsIndex by.Name index.now parts.now }
    ensures { option_copied result ≡ given_fronts parts.now room key.now other.now }
{
    match given_front(index, parts, room, key) {
        Some(name) => Some(name),
        None => given_front(index, parts, room, other),
    }
}

// The key of a name of a kind.
fn key_for(
    alloc: Global,
    kind: Option<Given>,
    name: &str,
    scope: &[usize],
) -> Result<Option<Seq<usize>>, OutOfMemory>
    ensures { IfOk result (λ key. key ≡ option_map (λ k. name_key k name.now scope.now) kind) }
{
    match kind {
        Some(kind) => Ok(Some(name_key(alloc, kind, name, scope)?)),
        None => Ok(None),
    }
}

// What the object itself gives by the name as one kind, by its key.
#[tactic(auto, using(crate::proofs::FrontLemmas::by_whole))]
fn given_as<'a>(
    index: &Keyed,
    parts: &'a [Part],
    kind: Option<Given>,
    scope: &[usize],
    name: &str,
    key: &Option<Seq<usize>>,
) -> Option<&'a GivenName>
    requires index { IsIndex by.Name index.now parts.now }
    requires key { key.now ≡ option_map (λ k. name_key k name.now scope.now) kind }
    ensures { option_copied result ≡ given_as parts.now name.now scope.now kind }
{
    given_front(index, parts, 2 + name.len() + scope.len(), key)
}

// What one of the objects round another gives by the name, by its keys there.
#[tactic(auto, using(crate::proofs::FrontLemmas::by_front))]
fn given_in<'a>(
    index: &Keyed,
    parts: &'a [Part],
    how: Used,
    scope: &[usize],
    name: &str,
    key: &Option<Seq<usize>>,
    other: &Option<Seq<usize>>,
    room: usize,
) -> Option<&'a GivenName>
    requires index { IsIndex by.Name index.now parts.now }
    requires key { key.now ≡ option_map (λ k. name_key k name.now scope.now) (giver how) }
    requires other { other.now ≡ option_map (λ k. name_key k name.now scope.now) (other_giver how) }
    requires room { room ≤ length scope.now }
    ensures { option_copied result ≡ given_in parts.now how name.now (take room scope.now) }
{
    given_fronts(index, parts, 2 + name.len() + room, key, other)
}

// What the nearest object gives that has the name, from one of the objects round another outwards.
fn nearest<'a>(
    index: &Keyed,
    parts: &'a [Part],
    how: Used,
    scope: &[usize],
    name: &str,
    key: &Option<Seq<usize>>,
    other: &Option<Seq<usize>>,
    room: usize,
) -> Option<&'a GivenName>
    requires index { IsIndex by.Name index.now parts.now }
    requires key { key.now ≡ option_map (λ k. name_key k name.now scope.now) (giver how) }
    requires other { other.now ≡ option_map (λ k. name_key k name.now scope.now) (other_giver how) }
    requires room { room ≤ length scope.now }
    ensures { option_copied result ≡ first_found (given_in parts.now how name.now) (fronts (take room scope.now)) }
{
    let mut left = room;
    while left > 0 {
        if let Some(found) = given_in(index, parts, how, scope, name, key, other, left) {
            return Some(found);
        }
        left -= 1;
    }
    given_in(index, parts, how, scope, name, key, other, 0)
}

// What the nearest of the objects round an object gives that has the name.
#[tactic(auto, using(crate::proofs::FrontLemmas::none_round, crate::proofs::FrontLemmas::one_less))]
fn nearest_round<'a>(
    index: &Keyed,
    parts: &'a [Part],
    how: Used,
    scope: &[usize],
    name: &str,
    key: &Option<Seq<usize>>,
    other: &Option<Seq<usize>>,
) -> Option<&'a GivenName>
    requires index { IsIndex by.Name index.now parts.now }
    requires key { key.now ≡ option_map (λ k. name_key k name.now scope.now) (giver how) }
    requires other { other.now ≡ option_map (λ k. name_key k name.now scope.now) (other_giver how) }
    ensures { option_copied result ≡ first_found (given_in parts.now how name.now) (fronts_round scope.now) }
{
    if scope.len() == 0 {
        return None;
    }
    nearest(index, parts, how, scope, name, key, other, scope.len() - 1)
}

// What stands by the name behind the data sets of a data set's own object.
fn behind_own<'a>(
    index: &Keyed,
    parts: &'a [Part],
    how: Used,
    scope: &[usize],
    name: &str,
    key: &Option<Seq<usize>>,
    other: &Option<Seq<usize>>,
) -> Option<&'a GivenName>
    requires index { IsIndex by.Name index.now parts.now }
    requires key { key.now ≡ option_map (λ k. name_key k name.now scope.now) (giver how) }
    requires other { other.now ≡ option_map (λ k. name_key k name.now scope.now) (other_giver how) }
    ensures { option_copied result ≡ behind_own parts.now how name.now scope.now }
{
    match given_as(index, parts, other_giver(how), scope, name, other) {
        Some(found) => Some(found),
        None => nearest_round(index, parts, how, scope, name, key, other),
    }
}

// What a name means, from its own object outwards.
#[tactic(auto, using(crate::proofs::FrontLemmas::take_all))]
fn meant_outwards<'a>(
    index: &Keyed,
    parts: &'a [Part],
    how: Used,
    scope: &[usize],
    at: &[usize],
    name: &str,
    key: &Option<Seq<usize>>,
    other: &Option<Seq<usize>>,
) -> Option<&'a GivenName>
    requires index { IsIndex by.Name index.now parts.now }
    requires key { key.now ≡ option_map (λ k. name_key k name.now scope.now) (giver how) }
    requires other { other.now ≡ option_map (λ k. name_key k name.now scope.now) (other_giver how) }
    ensures { option_copied result ≡ nearest_given parts.now how at.now name.now (fronts scope.now) }
{
    where_served(
        how,
        at,
        nearest(index, parts, how, scope, name, key, other, scope.len()),
    )
}

// What a name means that a data set uses.
#[tactic(auto, using(crate::proofs::FrontLemmas::served_as))]
fn meant_in_data<'a>(
    index: &Keyed,
    parts: &'a [Part],
    how: Used,
    scope: &[usize],
    at: &[usize],
    name: &str,
    key: &Option<Seq<usize>>,
    other: &Option<Seq<usize>>,
) -> Option<&'a GivenName>
    requires index { IsIndex by.Name index.now parts.now }
    requires key { key.now ≡ option_map (λ k. name_key k name.now scope.now) (giver how) }
    requires other { other.now ≡ option_map (λ k. name_key k name.now scope.now) (other_giver how) }
    ensures { option_copied result ≡ option_or (served_by parts.now how at.now name.now scope.now (giver how))
        (option_and_then (served how at.now) (behind_own parts.now how name.now scope.now)) }
{
    match where_served(
        how,
        at,
        given_as(index, parts, giver(how), scope, name, key),
    ) {
        Some(found) => Some(found),
        None => where_served(
            how,
            at,
            behind_own(index, parts, how, scope, name, key, other),
        ),
    }
}

// What a name means, by its keys in the innermost object.
fn meant<'a>(
    index: &Keyed,
    parts: &'a [Part],
    how: Used,
    scope: &[usize],
    at: &[usize],
    name: &str,
    key: &Option<Seq<usize>>,
    other: &Option<Seq<usize>>,
) -> Option<&'a GivenName>
    requires index { IsIndex by.Name index.now parts.now }
    requires key { key.now ≡ option_map (λ k. name_key k name.now scope.now) (giver how) }
    requires other { other.now ≡ option_map (λ k. name_key k name.now scope.now) (other_giver how) }
    ensures { option_copied result ≡ resolved parts.now how scope.now at.now name.now }
{
    if uses_in_data(how) {
        meant_in_data(index, parts, how, scope, at, name, key, other)
    } else {
        meant_outwards(index, parts, how, scope, at, name, key, other)
    }
}

/// What a name means that is used in an object: what the nearest object gives, from this one outwards, that has it, where this may
/// be used there; a data set passes over what its own object gives later. None exactly where no object has the name or what is
/// given stands too late. It looks the name up once or twice for each number of the object's place.
pub fn resolved<'a>(
    alloc: Global,
    index: &Keyed,
    parts: &'a [Part],
    how: Used,
    scope: &[usize],
    at: &[usize],
    name: &str,
) -> Result<Option<&'a GivenName>, OutOfMemory>
    requires { IsIndex by.Name index.now parts.now }
    ensures { IfOk result (λ found. option_copied found ≡ resolved parts.now how scope.now at.now name.now) }
{
    let key = key_for(alloc, giver(how), name, scope)?;
    let other = key_for(alloc, other_giver(how), name, scope)?;
    Ok(meant(index, parts, how, scope, at, name, &key, &other))
}

/// What a used name means.
pub fn resolved_use<'a>(
    alloc: Global,
    index: &Keyed,
    parts: &'a [Part],
    u: &UsedName,
) -> Result<Option<&'a GivenName>, OutOfMemory>
    requires { IsIndex by.Name index.now parts.now }
    ensures { IfOk result (λ found. option_copied found ≡ resolved_use parts.now u.now) }
{
    resolved(
        alloc,
        index,
        parts,
        u.kind,
        u.scope.as_slice(),
        u.at.as_slice(),
        u.name.as_str(),
    )
}
