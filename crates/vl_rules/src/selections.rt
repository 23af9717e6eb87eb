//! What is asked of selections.
ghost use Rattle.std.specs.Prelude.{◌≡◌, ◌==◌, ◌||◌, ◌++◌, ◌∷◌, [], true, not, bytes_eq, filter, map, if◌then◌else◌, IfOk, OnOk};
ghost use Rattle.std.specs.List.{list_any};
ghost use Rattle.spec_walk.specs.declared.places.Step.TheVariants as step;
ghost use Rattle.vl_compose.specs.Sharing.{is_filled};
ghost use Rattle.vl_rules.specs.Selections.{is_interval_type, is_interval, fields_of, encodings_of, unnamed, codes_over, asking_of};
ghost use Rattle.vl_rules.specs.Selections.{same_step, begins, below, is_under, concerned, asked_for, lacks_source, is_place, spot_for};
ghost use Rattle.vl_rules.specs.Selections.{cant_span, is_no_span, of_neighbours, same_names, names_over, keep_same_points};
ghost use Rattle.vl_rules.specs.Selections.{keep_same_extents, keep_same, is_unlike, part_scales, is_parted, is_wrong_for};
ghost use Rattle.vl_rules.specs.Standings.{same_home as same_up_to};

use crate::offers::{CHANNEL_CODES, Offer, OfferedPlace};
use crate::same::same_names;
use crate::standings::same_home;
use spec_walk::Step;
use std::alloc::Global;
use text_kit::{OutOfMemory, Seq, Text};
use vl_normalize::{X, Y};
use vl_spec::{Select, SelectType, Selection};

/// What a selection says.
pub struct Asking {
    /// Whether it is an interval; else a point.
    pub interval: bool,
    /// Whether it says fields.
    pub says_fields: bool,
    /// Whether it says channels.
    pub says_channels: bool,
    /// The codes of the channels that it is over, each once.
    pub codes: Seq<u16>,
}

impl Drop for Asking {
    fn drop(self) {
        let Asking {
            interval: _,
            says_fields: _,
            says_channels: _,
            codes: _,
        } = self;
    }
}

// Whether selections of a type are intervals.
fn is_interval_type(type_: SelectType) -> bool
    ensures { result ≡ is_interval_type type_ }
{
    matches!(type_, SelectType::Interval)
}

// Whether a selection is an interval.
fn is_interval(select: &Select) -> bool
    ensures { result ≡ is_interval select.now }
{
    match select {
        Select::Type(type_) => is_interval_type(*type_),
        Select::Definition(of) => is_interval_type(of.type_),
    }
}

// The fields that a selection says.
fn fields_of(select: &Select) -> &[Text]
    ensures { result.now ≡ fields_of select.now }
{
    match select {
        Select::Type(_) => &[],
        Select::Definition(of) => match &of.fields {
            Some(fields) => fields.as_slice(),
            None => &[],
        },
    }
}

// The channels that a selection says.
fn encodings_of(select: &Select) -> &[u16]
    ensures { result.now ≡ encodings_of select.now }
{
    match select {
        Select::Type(_) => &[],
        Select::Definition(of) => match &of.encodings {
            Some(codes) => codes.as_slice(),
            None => &[],
        },
    }
}

// Whether there are codes.
fn are_codes(codes: &[u16]) -> bool
    ensures { result ≡ is_filled codes.now }
{
    match codes {
        [_, ..] => true,
        [] => false,
    }
}

// Whether there are names.
fn are_names(names: &[Text]) -> bool
    ensures { result ≡ is_filled names.now }
{
    match names {
        [_, ..] => true,
        [] => false,
    }
}

// Whether a code is among some.
fn has_code(codes: &[u16], code: u16) -> bool
    ensures { result ≡ list_any (λ c. c == code) codes.now }
{
    for c in codes {
        if *c == code {
            return true;
        }
    }
    false
}

// Adds a code, if it is among some.
fn push_named(named: &[u16], code: u16, out: &mut Seq<u16>) -> Result<(), OutOfMemory>
    ensures { OnOk result (out.new ≡ out.old ++ (if list_any (λ c. c == code) named.now then code ∷ [] else [])) }
{
    if has_code(named, code) {
        out.push(code)
    } else {
        Ok(())
    }
}

// Those of some codes that are named.
fn named_among(alloc: Global, named: &[u16], codes: &[u16]) -> Result<Seq<u16>, OutOfMemory>
    ensures { IfOk result (λ out. out ≡ filter (λ code. list_any (λ c. c == code) named.now) codes.now) }
{
    let mut out = Seq::new(alloc);
    for code in codes {
        push_named(named, *code, &mut out)?;
    }
    Ok(out)
}

// x and y.
fn both_places(alloc: Global) -> Result<Seq<u16>, OutOfMemory>
    ensures { IfOk result (λ out. out ≡ unnamed true) }
{
    Seq::from_slice(alloc, &[X, Y])
}

// The channels of a selection that says none.
fn unnamed(alloc: Global, interval: bool) -> Result<Seq<u16>, OutOfMemory>
    ensures { IfOk result (λ out. out ≡ unnamed interval) }
{
    if interval {
        both_places(alloc)
    } else {
        Ok(Seq::new(alloc))
    }
}

// The channels that a selection is over, each once.
fn codes_over(alloc: Global, interval: bool, encodings: &[u16]) -> Result<Seq<u16>, OutOfMemory>
    ensures { IfOk result (λ codes. codes ≡ codes_over interval encodings.now) }
{
    if are_codes(encodings) {
        named_among(alloc, encodings, &CHANNEL_CODES)
    } else {
        unnamed(alloc, interval)
    }
}

/// What a selection says.
pub fn asking_of(alloc: Global, select: &Select) -> Result<Asking, OutOfMemory>
    ensures { IfOk result (λ asking. asking ≡ asking_of select.now) }
{
    let interval = is_interval(select);
    let encodings = encodings_of(select);
    let codes = codes_over(alloc, interval, encodings)?;
    Ok(Asking {
        interval,
        says_fields: are_names(fields_of(select)),
        says_channels: are_codes(encodings),
        codes,
    })
}

// Whether a step leads to the member of a name.
fn is_step_to(name: &str, other: &Step) -> bool
    ensures { result ≡ same_step (step.Name name.now) other.now }
{
    match other {
        Step::Name(other) => name == other.as_str(),
        Step::Number(_) => false,
    }
}

// Whether it leads to the item of a number.
fn is_step_number(number: usize, other: &Step) -> bool
    ensures { result ≡ same_step (step.Number number) other.now }
{
    match other {
        Step::Name(_) => false,
        Step::Number(other) => number == *other,
    }
}

// Whether two steps are the same.
fn same_step(a: &Step, b: &Step) -> bool
    ensures { result ≡ same_step a.now b.now }
{
    match a {
        Step::Name(name) => is_step_to(name.as_str(), b),
        Step::Number(number) => is_step_number(*number, b),
    }
}

// Whether a trail begins with the steps of another.
fn begins(steps: &[Step], trail: &[Step]) -> bool
    ensures { result ≡ begins steps.now trail.now }
{
    let [s, steps @ ..] = steps else {
        return true;
    };
    let [t, trail @ ..] = trail else {
        return false;
    };
    same_step(s, t) && begins(steps, trail)
}

// Adds a unit, if a test says so.
fn push_if<'a>(test: bool, offer: &'a Offer, out: &mut Seq<&'a Offer>) -> Result<(), OutOfMemory>
    ensures { OnOk result (map (λ o. o.now) out.new ≡ map (λ o. o.now) out.old ++ (if test then offer.now ∷ [] else [])) }
{
    if test { out.push(offer) } else { Ok(()) }
}

/// The units below the view at a trail.
pub fn below<'a>(
    alloc: Global,
    trail: &[Step],
    offers: &'a [Offer],
) -> Result<Seq<&'a Offer>, OutOfMemory>
    ensures { IfOk result (λ inside. map (λ o. o.now) inside ≡ below trail.now offers.now) }
{
    let mut inside = Seq::new(alloc);
    for offer in offers {
        push_if(begins(trail, offer.trail.as_slice()), offer, &mut inside)?;
    }
    Ok(inside)
}

// Whether a view has one of some names.
fn has_name(names: &[Text], name: &str) -> bool
    ensures { result ≡ list_any (λ n. bytes_eq n name.now) names.now }
{
    for n in names {
        if n.as_str() == name {
            return true;
        }
    }
    false
}

// Whether a unit is a view of one of these names, or stands below one.
fn is_under(names: &[Text], offer: &Offer) -> bool
    ensures { result ≡ is_under names.now offer.now }
{
    for name in names {
        if has_name(offer.names.as_slice(), name.as_str()) {
            return true;
        }
    }
    false
}

// The units of the views of these names.
fn under<'a>(
    alloc: Global,
    names: &[Text],
    offers: &'a [Offer],
) -> Result<Seq<&'a Offer>, OutOfMemory>
    ensures { IfOk result (λ units. map (λ o. o.now) units ≡ filter (is_under names.now) offers.now) }
{
    let mut units = Seq::new(alloc);
    for offer in offers {
        push_if(is_under(names, offer), offer, &mut units)?;
    }
    Ok(units)
}

/// The units that a selection concerns, of all and of those below the view that has it.
pub fn concerned<'a>(
    alloc: Global,
    offers: &'a [Offer],
    inside: &[&'a Offer],
    selection: &Selection,
) -> Result<Seq<&'a Offer>, OutOfMemory>
    ensures { IfOk result (λ units. map (λ o. o.now) units ≡ concerned offers.now (map (λ o. o.now) inside.now) selection.now) }
{
    match &selection.views {
        Some(names) => under(alloc, names.as_slice(), offers),
        None => Seq::from_slice(alloc, inside),
    }
}

// Whether a unit has a field or an aggregate for a channel.
fn is_sourced(offer: &Offer, code: u16) -> bool
    ensures { result ≡ (asked_for code offer.now).sourced }
{
    match offer.asked.get(usize::from(code)) {
        Some(asked) => asked.sourced,
        None => false,
    }
}

// The names under which a point keeps a channel of a unit.
fn names_for(offer: &Offer, code: u16) -> &[Text]
    ensures { result.now ≡ (asked_for code offer.now).names }
{
    match offer.asked.get(usize::from(code)) {
        Some(asked) => asked.names.as_slice(),
        None => &[],
    }
}

// Those under which an interval does.
fn extents_for(offer: &Offer, code: u16) -> &[Text]
    ensures { result.now ≡ (asked_for code offer.now).extents }
{
    match offer.asked.get(usize::from(code)) {
        Some(asked) => asked.extents.as_slice(),
        None => &[],
    }
}

// Whether a unit has nothing for one of some channels.
fn lacks_source(codes: &[u16], offer: &Offer) -> bool
    ensures { result ≡ lacks_source codes.now offer.now }
{
    for code in codes {
        if !is_sourced(offer, *code) {
            return true;
        }
    }
    false
}

// Whether one of some units has nothing for one of some channels.
fn any_lacks_source(codes: &[u16], units: &[&Offer]) -> bool
    ensures { result ≡ list_any (lacks_source codes.now) (map (λ o. o.now) units.now) }
{
    for unit in units {
        if lacks_source(codes, unit) {
            return true;
        }
    }
    false
}

// Whether a channel is x or y.
fn is_place(code: u16) -> bool
    ensures { result ≡ is_place code }
{
    code == X || code == Y
}

// Whether one of some channels is neither.
fn any_is_no_place(codes: &[u16]) -> bool
    ensures { result ≡ list_any (λ code. not (is_place code)) codes.now }
{
    for code in codes {
        if !is_place(*code) {
            return true;
        }
    }
    false
}

// The place of a code.
fn spot_for(code: u16, offer: &Offer) -> OfferedPlace
    ensures { result ≡ spot_for code offer.now }
{
    if code == X { offer.x } else { offer.y }
}

// Whether an interval may not span one of some places of a unit.
fn cant_span(codes: &[u16], offer: &Offer) -> bool
    ensures { result ≡ cant_span codes.now offer.now }
{
    for code in codes {
        if !spot_for(*code, offer).spans {
            return true;
        }
    }
    false
}

// Whether it may not span one of some places of one of some units.
fn any_cant_span(codes: &[u16], units: &[&Offer]) -> bool
    ensures { result ≡ list_any (cant_span codes.now) (map (λ o. o.now) units.now) }
{
    for unit in units {
        if cant_span(codes, unit) {
            return true;
        }
    }
    false
}

// Adds copies of names.
fn push_copies(names: &[Text], out: &mut Seq<Text>) -> Result<(), OutOfMemory>
    ensures { OnOk result (out.new ≡ out.old ++ names.now) }
{
    for name in names {
        out.push(name.copy()?)?;
    }
    Ok(())
}

// All names that a unit keeps for some channels.
fn names_over(alloc: Global, codes: &[u16], offer: &Offer) -> Result<Seq<Text>, OutOfMemory>
    ensures { IfOk result (λ names. names ≡ names_over codes.now offer.now) }
{
    let mut names = Seq::new(alloc);
    for code in codes {
        push_copies(names_for(offer, *code), &mut names)?;
    }
    Ok(names)
}

// Whether two units keep the same names for some channels.
fn same_over(alloc: Global, codes: &[u16], a: &Offer, b: &Offer) -> Result<bool, OutOfMemory>
    ensures { IfOk result (λ same. same ≡ same_names (names_over codes.now a.now) (names_over codes.now b.now)) }
{
    let xs = names_over(alloc, codes, a)?;
    let ys = names_over(alloc, codes, b)?;
    same_names(alloc, xs.as_slice(), ys.as_slice())
}

// Whether two units keep the same fields of points.
fn keep_same_points(
    alloc: Global,
    asking: &Asking,
    a: &Offer,
    b: &Offer,
) -> Result<bool, OutOfMemory>
    ensures { IfOk result (λ same. same ≡ keep_same_points asking.now a.now b.now) }
{
    if asking.says_channels {
        same_over(alloc, asking.codes.as_slice(), a, b)
    } else {
        same_names(alloc, a.kept.as_slice(), b.kept.as_slice())
    }
}

// Whether two units keep the same extents for some channels.
fn keep_same_extents(
    alloc: Global,
    codes: &[u16],
    a: &Offer,
    b: &Offer,
) -> Result<bool, OutOfMemory>
    ensures { IfOk result (λ same. same ≡ keep_same_extents codes.now a.now b.now) }
{
    for code in codes {
        if !same_names(alloc, extents_for(a, *code), extents_for(b, *code))? {
            return Ok(false);
        }
    }
    Ok(true)
}

// Whether two units have different scales for one of some channels.
fn differ_in_scale(codes: &[u16], a: &Offer, b: &Offer) -> bool
    ensures { result ≡ list_any (λ code. not (same_up_to (spot_for code a.now).home (spot_for code b.now).home)) codes.now }
{
    for code in codes {
        if !same_home(spot_for(*code, a).home, spot_for(*code, b).home) {
            return true;
        }
    }
    false
}

// Whether two units keep the same.
#[tactic(auto, unfolding(crate::specs::Selections::keep_same))]
fn keep_same(alloc: Global, asking: &Asking, a: &Offer, b: &Offer) -> Result<bool, OutOfMemory>
    ensures { IfOk result (λ same. same ≡ keep_same asking.now a.now b.now) }
{
    if asking.interval {
        keep_same_extents(alloc, asking.codes.as_slice(), a, b)
    } else if asking.says_fields {
        Ok(true)
    } else {
        keep_same_points(alloc, asking, a, b)
    }
}

// Whether one of some units and the next keep something different.
fn is_unlike(alloc: Global, asking: &Asking, units: &[&Offer]) -> Result<bool, OutOfMemory>
    ensures { IfOk result (λ unlike. unlike ≡ is_unlike asking.now (map (λ o. o.now) units.now)) }
{
    let [a, others @ ..] = units else {
        return Ok(false);
    };
    let [b, ..] = others else {
        return Ok(false);
    };
    if keep_same(alloc, asking, a, b)? {
        is_unlike(alloc, asking, others)
    } else {
        Ok(true)
    }
}

// Whether two units in one plot have different scales for one of some channels.
fn part_scales(codes: &[u16], a: &Offer, b: &Offer) -> bool
    ensures { result ≡ part_scales codes.now a.now b.now }
{
    a.plot == b.plot && differ_in_scale(codes, a, b)
}

// Whether this holds of one of some units and the next.
fn any_part_scales(codes: &[u16], units: &[&Offer]) -> bool
    ensures { result ≡ of_neighbours (part_scales codes.now) (map (λ o. o.now) units.now) }
{
    let [a, others @ ..] = units else {
        return false;
    };
    let [b, ..] = others else {
        return false;
    };
    part_scales(codes, a, b) || any_part_scales(codes, others)
}

// Whether a selection can't be an interval over its channels.
fn is_no_span(asking: &Asking, units: &[&Offer]) -> bool
    ensures { result ≡ is_no_span asking.now (map (λ o. o.now) units.now) }
{
    let codes = asking.codes.as_slice();
    asking.interval && (any_is_no_place(codes) || any_cant_span(codes, units))
}

// Whether it is an interval over different scales in one plot.
fn is_parted(asking: &Asking, units: &[&Offer]) -> bool
    ensures { result ≡ is_parted asking.now (map (λ o. o.now) units.now) }
{
    asking.interval && any_part_scales(asking.codes.as_slice(), units)
}

// Whether a selection keeps different fields, or is parted, in the units that it concerns.
fn is_uneven(alloc: Global, asking: &Asking, units: &[&Offer]) -> Result<bool, OutOfMemory>
    ensures { IfOk result (λ uneven. uneven
        ≡ (is_unlike asking.now (map (λ o. o.now) units.now) || is_parted asking.now (map (λ o. o.now) units.now))) }
{
    if is_unlike(alloc, asking, units)? {
        Ok(true)
    } else {
        Ok(is_parted(asking, units))
    }
}

/// Whether a selection is wrong for the units that it concerns.
pub fn is_wrong_for(alloc: Global, asking: &Asking, units: &[&Offer]) -> Result<bool, OutOfMemory>
    ensures { IfOk result (λ wrong. wrong ≡ is_wrong_for asking.now (map (λ o. o.now) units.now)) }
{
    if any_lacks_source(asking.codes.as_slice(), units) || is_no_span(asking, units) {
        Ok(true)
    } else {
        is_uneven(alloc, asking, units)
    }
}
