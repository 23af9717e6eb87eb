// Scales in words.
use crate::names::channel_name;
use fixed_num::Num;
use scale_infer::{ScaleOf, infer};
use std::alloc::Global;
use text_kit::{OutOfMemory, Text};
use vl_compose::{resolve_of, views_of};
use vl_normalize::normalize;
use vl_spec::VlSpec;

/// The scales of a normal form: of each the channel, the numbers of the units that share it, the kind, the flags that are true, and of a band
/// or point scale the inner and the outer padding.
pub fn said(alloc: Global, s: &VlSpec) -> Result<Text, OutOfMemory> {
    let normal = normalize(alloc, s)?;
    let views = views_of(alloc, &normal)?;
    let shared = resolve_of(alloc, &normal)?;
    let scales = infer(alloc, &normal, &views, &shared)?;
    let mut out = Text::new(alloc);
    for scale in scales.as_slice() {
        say_scale(alloc, &mut out, scale)?;
    }
    Ok(out)
}

// The name of a kind of scales.
fn kind_name(code: u16) -> &'static str {
    match code {
        0 => "linear",
        1 => "time",
        2 => "band",
        3 => "point",
        4 => "ordinal",
        5 => "ramp",
        _ => "?",
    }
}

// Adds the numbers of units.
fn say_views(alloc: Global, out: &mut Text, views: &[u32]) -> Result<(), OutOfMemory> {
    for number in views {
        out.push_str(format!(in alloc; " {number}")?.as_str())?;
    }
    Ok(())
}

// Adds a word, where it holds.
fn say_flag(out: &mut Text, word: &str, holds: bool) -> Result<(), OutOfMemory> {
    if holds { out.push_str(word) } else { Ok(()) }
}

// Adds a padding.
fn say_padding(out: &mut Text, padding: Num) -> Result<(), OutOfMemory> {
    out.push_str(" ")?;
    out.push_str(padding.decimal().as_str())
}

// Adds the paddings of a band or point scale.
fn say_paddings(out: &mut Text, scale: &ScaleOf) -> Result<(), OutOfMemory> {
    if scale.kind == 2 || scale.kind == 3 {
        say_padding(out, scale.inner)?;
        say_padding(out, scale.outer)
    } else {
        Ok(())
    }
}

// Adds a scale.
fn say_scale(alloc: Global, out: &mut Text, scale: &ScaleOf) -> Result<(), OutOfMemory> {
    out.push_str(channel_name(scale.channel))?;
    say_views(alloc, out, scale.units.as_slice())?;
    out.push_str(" ")?;
    out.push_str(kind_name(scale.kind))?;
    say_flag(out, " zero", scale.zero)?;
    say_flag(out, " nice", scale.nice)?;
    say_paddings(out, scale)?;
    out.push_str(";")
}
