//! The faults of scales, and where they stand: at the members of the scale, or where a definition has a member that might say the kind of its cells, and
//! says nothing.
ghost use Rattle.std.specs.Prelude.{◌≡◌, ◌++◌, ◌||◌, codes, is_some, true, if◌then◌else◌, [], ◌∷◌, IfOk, OnOk};
ghost use Rattle.std.specs.Option.{option_copied};
ghost use Rattle.scale_infer.specs.Types.{has_bins, scale_in, type_of};
ghost use Rattle.vl_trails.specs.Faults.{wrong_if};
ghost use Rattle.vl_trails.specs.Judging.{after};
ghost use Rattle.vl_trails.specs.Trails.{to_member as to_scale};
ghost use Rattle.vl_rules.specs.Fits.{has_unfit_range, has_unfit_scheme, has_unfit_type};
ghost use Rattle.vl_rules.specs.Scales.{silent_others, silent_in, silent_of, held_or, hangs_on_type, in_scale, fits_some, unfit_at};
ghost use Rattle.vl_rules.specs.Scales.{unfit_type, unfit_range, unfit_scheme, scale_faults, definition_faults};

use crate::fits::{has_fit_type, has_unfit_range, has_unfit_scheme, has_unfit_type, is_ordinal};
use crate::leads::holds;
use crate::named::has_bins;
use json_exact::Json;
use scale_infer::{ORDINAL, type_of};
use spec_schema::{Fault, SpecKind};
use spec_walk::Step;
use std::alloc::Global;
use text_kit::{OutOfMemory, Seq, Text};
use vl_names::to_member;
use vl_spec::{Definition, FieldDefinition, FieldType, Scale};
use vl_trails::{Broken, Judging, sooner_placed};

// Adds the name of a member.
fn push_member(alloc: Global, name: &str, out: &mut Seq<Text>) -> Result<(), OutOfMemory>
    ensures { OnOk result (out.new ≡ out.old ++ name.now ∷ []) }
{
    let name = Text::of(alloc, name)?;
    out.push(name)
}

// Adds the name of a member, unless it says something.
fn push_unless(
    alloc: Global,
    said: bool,
    name: &str,
    out: &mut Seq<Text>,
) -> Result<(), OutOfMemory>
    ensures { OnOk result (out.new ≡ out.old ++ (if said then [] else name.now ∷ [])) }
{
    if said {
        Ok(())
    } else {
        push_member(alloc, name, out)
    }
}

// Adds the names of the members of a field without a type that might say the kind of its cells, and say nothing.
fn push_others(alloc: Global, of: &FieldDefinition, out: &mut Seq<Text>) -> Result<(), OutOfMemory>
    ensures { OnOk result (out.new ≡ out.old ++ silent_others of.now) }
{
    push_unless(alloc, of.aggregate.is_some(), "aggregate", out)?;
    push_unless(alloc, of.bin.is_some(), "bin", out)?;
    push_unless(alloc, of.time_unit.is_some(), "timeUnit", out)
}

// The same where it has no bins and no aggregate.
fn push_unless_numbers(
    alloc: Global,
    of: &FieldDefinition,
    out: &mut Seq<Text>,
) -> Result<(), OutOfMemory>
    ensures { OnOk result (out.new
        ≡ out.old ++ (if has_bins of.now.bin || is_some of.now.aggregate then [] else silent_others of.now)) }
{
    if has_bins(&of.bin) || of.aggregate.is_some() {
        Ok(())
    } else {
        push_others(alloc, of, out)
    }
}

// Adds its type, and those.
fn push_silent(alloc: Global, of: &FieldDefinition, out: &mut Seq<Text>) -> Result<(), OutOfMemory>
    ensures { OnOk result (out.new ≡ out.old ++ silent_in of.now) }
{
    push_member(alloc, "type", out)?;
    push_unless_numbers(alloc, of, out)
}

// The same where it says no type.
fn push_silent_field(
    alloc: Global,
    of: &FieldDefinition,
    out: &mut Seq<Text>,
) -> Result<(), OutOfMemory>
    ensures { OnOk result (out.new ≡ out.old ++ (if is_some of.now.type_ then [] else silent_in of.now)) }
{
    if of.type_.is_some() {
        Ok(())
    } else {
        push_silent(alloc, of, out)
    }
}

// Adds the names of the members of a definition that might say the kind of its cells, and say nothing.
fn push_silent_of(
    alloc: Global,
    definition: &Definition,
    out: &mut Seq<Text>,
) -> Result<(), OutOfMemory>
    ensures { OnOk result (out.new ≡ out.old ++ silent_of definition.now) }
{
    match definition {
        Definition::Value(_) => Ok(()),
        Definition::Datum(of) => push_unless(alloc, of.type_.is_some(), "type", out),
        Definition::Field(of) => push_silent_field(alloc, of, out),
    }
}

// The steps to the first of some members that the object at a trail has.
fn held_or(
    alloc: Global,
    tree: &Json,
    trail: &[Step],
    names: &[Text],
    otherwise: Seq<Step>,
) -> Result<Seq<Step>, OutOfMemory>
    ensures { IfOk result (λ at. at ≡ held_or tree.now trail.now names.now otherwise) }
{
    for name in names {
        if holds(alloc, tree, trail, name.as_str())? {
            return to_member(alloc, trail, name.as_str());
        }
    }
    Ok(otherwise)
}

// Whether what a scale gives hangs on its type, where that is absent or doesn't fit.
fn hangs_on_type(channel: u16, type_: FieldType, scale: &Scale) -> bool
    ensures { result ≡ hangs_on_type channel type_ scale.now }
{
    is_ordinal(channel, type_, Some(ORDINAL)) && !has_fit_type(channel, type_, scale)
}

// The name of a type alone.
fn its_type(alloc: Global) -> Result<Seq<Text>, OutOfMemory>
    ensures { IfOk result (λ names. names ≡ codes "type" ∷ []) }
{
    let mut names = Seq::new(alloc);
    push_member(alloc, "type", &mut names)?;
    Ok(names)
}

// The name of a type, where something hangs on that.
fn type_if(alloc: Global, hangs: bool) -> Result<Seq<Text>, OutOfMemory>
    ensures { IfOk result (λ names. names ≡ (if hangs then codes "type" ∷ [] else [])) }
{
    if hangs {
        its_type(alloc)
    } else {
        Ok(Seq::new(alloc))
    }
}

// The steps from a scale to its member of a name, or to its type, on which that hangs.
fn in_scale(
    alloc: Global,
    tree: &Json,
    hangs: bool,
    trail: &[Step],
    name: &str,
) -> Result<Seq<Step>, OutOfMemory>
    ensures { IfOk result (λ at. at ≡ held_or tree.now trail.now (if hangs then codes "type" ∷ [] else []) (to_scale trail.now name.now)) }
{
    let own = to_member(alloc, trail, name)?;
    let names = type_if(alloc, hangs)?;
    held_or(alloc, tree, trail, names.as_slice(), own)
}

// The same from the definition of the scale.
fn under_scale(
    alloc: Global,
    tree: &Json,
    channel: u16,
    definition: &Definition,
    scale: &Scale,
    trail: &[Step],
    name: &str,
) -> Result<Seq<Step>, OutOfMemory>
    ensures { IfOk result (λ at. at
        ≡ in_scale tree.now channel (type_of definition.now) scale.now (to_scale trail.now (codes "scale")) name.now) }
{
    let at = to_member(alloc, trail, "scale")?;
    let hangs = hangs_on_type(channel, type_of(definition), scale);
    in_scale(alloc, tree, hangs, at.as_slice(), name)
}

// The members of a definition that might say the kind of its cells, and say nothing.
fn silent_of(alloc: Global, definition: &Definition) -> Result<Seq<Text>, OutOfMemory>
    ensures { IfOk result (λ names. names ≡ silent_of definition.now) }
{
    let mut names = Seq::new(alloc);
    push_silent_of(alloc, definition, &mut names)?;
    Ok(names)
}

// The same, where something hangs on that.
fn silent_if(alloc: Global, hangs: bool, definition: &Definition) -> Result<Seq<Text>, OutOfMemory>
    ensures { IfOk result (λ names. names ≡ (if hangs then silent_of definition.now else [])) }
{
    if hangs {
        silent_of(alloc, definition)
    } else {
        Ok(Seq::new(alloc))
    }
}

// Where the scale of the definition at a trail doesn't fit by the member of a name.
fn unfit_at(
    alloc: Global,
    tree: &Json,
    hangs: bool,
    channel: u16,
    definition: &Definition,
    scale: &Scale,
    trail: &[Step],
    name: &str,
) -> Result<Seq<Step>, OutOfMemory>
    ensures { IfOk result (λ at. at ≡ unfit_at tree.now hangs channel definition.now scale.now trail.now name.now) }
{
    let otherwise = under_scale(alloc, tree, channel, definition, scale, trail, name)?;
    let names = silent_if(alloc, hangs, definition)?;
    held_or(alloc, tree, trail, names.as_slice(), otherwise)
}

// Keeps a fault that may be earlier than the one so far.
fn keep_first(first: &mut Option<Fault>, next: Option<Fault>)
    ensures { first.new ≡ next }
{
    *first = next;
}

/// What stands at a trail is wrong.
pub fn judge_wrong(alloc: Global, judging: &mut Judging, trail: &[Step]) -> Result<(), OutOfMemory>
    ensures { OnOk result (judging.new ≡ after judging.old (wrong_if true trail.now)) }
{
    let so_far = judging.first.take();
    let next = sooner_placed(
        alloc,
        judging.tree,
        so_far,
        trail,
        &Broken::Value(SpecKind::Wrong),
    )?;
    keep_first(&mut judging.first, next);
    Ok(())
}

// The scale of the definition where one is doesn't fit by the member of a name.
fn judge_unfit_at(
    alloc: Global,
    judging: &mut Judging,
    hangs: bool,
    channel: u16,
    definition: &Definition,
    scale: &Scale,
    name: &str,
) -> Result<(), OutOfMemory>
    ensures { OnOk result (judging.new ≡ after judging.old (wrong_if true
        (unfit_at judging.old.tree.now hangs channel definition.now scale.now judging.old.trail name.now))) }
{
    let trail = unfit_at(
        alloc,
        judging.tree,
        hangs,
        channel,
        definition,
        scale,
        judging.trail.as_slice(),
        name,
    )?;
    judge_wrong(alloc, judging, trail.as_slice())
}

// Whether the type of a scale fits cells of some kind.
fn type_fits_some(channel: u16, scale: &Scale) -> bool
    ensures { result ≡ fits_some (λ type_. has_unfit_type channel type_ scale.now) }
{
    !(has_unfit_type(channel, FieldType::Quantitative, scale)
        && has_unfit_type(channel, FieldType::Temporal, scale)
        && has_unfit_type(channel, FieldType::Ordinal, scale)
        && has_unfit_type(channel, FieldType::Nominal, scale))
}

// Whether its range does.
fn range_fits_some(channel: u16, scale: &Scale) -> bool
    ensures { result ≡ fits_some (λ type_. has_unfit_range channel type_ scale.now) }
{
    !(has_unfit_range(channel, FieldType::Quantitative, scale)
        && has_unfit_range(channel, FieldType::Temporal, scale)
        && has_unfit_range(channel, FieldType::Ordinal, scale)
        && has_unfit_range(channel, FieldType::Nominal, scale))
}

// Whether its scheme does.
fn scheme_fits_some(channel: u16, scale: &Scale) -> bool
    ensures { result ≡ fits_some (λ type_. has_unfit_scheme channel type_ scale.now) }
{
    !(has_unfit_scheme(channel, FieldType::Quantitative, scale)
        && has_unfit_scheme(channel, FieldType::Temporal, scale)
        && has_unfit_scheme(channel, FieldType::Ordinal, scale)
        && has_unfit_scheme(channel, FieldType::Nominal, scale))
}

// Judges the type of the scale of the definition where one is.
#[tactic(auto, using(vl_trails::proofs::WayLemmas::after_none))]
fn judge_type(
    alloc: Global,
    judging: &mut Judging,
    channel: u16,
    definition: &Definition,
    scale: &Scale,
) -> Result<(), OutOfMemory>
    ensures { OnOk result (judging.new
        ≡ after judging.old (unfit_type judging.old.tree.now channel definition.now scale.now judging.old.trail)) }
{
    if has_unfit_type(channel, type_of(definition), scale) {
        let hangs = type_fits_some(channel, scale);
        judge_unfit_at(alloc, judging, hangs, channel, definition, scale, "type")
    } else {
        Ok(())
    }
}

// Judges its range.
#[tactic(auto, using(vl_trails::proofs::WayLemmas::after_none))]
fn judge_range(
    alloc: Global,
    judging: &mut Judging,
    channel: u16,
    definition: &Definition,
    scale: &Scale,
) -> Result<(), OutOfMemory>
    ensures { OnOk result (judging.new
        ≡ after judging.old (unfit_range judging.old.tree.now channel definition.now scale.now judging.old.trail)) }
{
    if has_unfit_range(channel, type_of(definition), scale) {
        let hangs = range_fits_some(channel, scale);
        judge_unfit_at(alloc, judging, hangs, channel, definition, scale, "range")
    } else {
        Ok(())
    }
}

// Judges its scheme.
#[tactic(auto, using(vl_trails::proofs::WayLemmas::after_none))]
fn judge_scheme(
    alloc: Global,
    judging: &mut Judging,
    channel: u16,
    definition: &Definition,
    scale: &Scale,
) -> Result<(), OutOfMemory>
    ensures { OnOk result (judging.new
        ≡ after judging.old (unfit_scheme judging.old.tree.now channel definition.now scale.now judging.old.trail)) }
{
    if has_unfit_scheme(channel, type_of(definition), scale) {
        let hangs = scheme_fits_some(channel, scale);
        judge_unfit_at(alloc, judging, hangs, channel, definition, scale, "scheme")
    } else {
        Ok(())
    }
}

// Judges the scale of the definition where one is.
fn judge_scale(
    alloc: Global,
    judging: &mut Judging,
    channel: u16,
    definition: &Definition,
    scale: &Scale,
) -> Result<(), OutOfMemory>
    ensures { OnOk result (judging.new
        ≡ after judging.old (scale_faults judging.old.tree.now channel definition.now scale.now judging.old.trail)) }
{
    judge_type(alloc, judging, channel, definition, scale)?;
    judge_range(alloc, judging, channel, definition, scale)?;
    judge_scheme(alloc, judging, channel, definition, scale)
}

// The scale of a definition.
fn scale_in(definition: &Definition) -> Option<&Scale>
    ensures { option_copied result ≡ scale_in definition.now }
{
    match definition {
        Definition::Value(_) => None,
        Definition::Datum(of) => of.scale.as_ref(),
        Definition::Field(of) => of.scale.as_ref(),
    }
}

/// Judges the scale of the definition of a channel where one is.
#[tactic(auto, using(vl_trails::proofs::WayLemmas::after_none))]
pub fn judge_definition(
    alloc: Global,
    judging: &mut Judging,
    channel: u16,
    definition: &Definition,
) -> Result<(), OutOfMemory>
    ensures { OnOk result (judging.new
        ≡ after judging.old (definition_faults judging.old.tree.now channel definition.now judging.old.trail)) }
{
    match scale_in(definition) {
        Some(scale) => judge_scale(alloc, judging, channel, definition, scale),
        None => Ok(()),
    }
}
