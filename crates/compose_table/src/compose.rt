// Units, their paths and the scales that they share, in words.
use crate::names::channel_name;
use std::alloc::Global;
use text_kit::{OutOfMemory, Text};
use vl_compose::{
    UnitHere, ViewHere, facets_of, home_of, plot_of, resolve_of, source_of, transforms_of,
    units_of, views_of,
};
use vl_spec::{ChannelOf, VlSpec};

/// The unit views of a specification: of each its number and its path.
pub fn views(alloc: Global, s: &VlSpec) -> Result<Text, OutOfMemory> {
    let views = views_of(alloc, s)?;
    let mut out = Text::new(alloc);
    for view in views.as_slice() {
        say_number(alloc, &mut out, "", u64::from(view.number))?;
        say_word(&mut out, " ", view.path.as_str())?;
        out.push_str(";")?;
    }
    Ok(out)
}

/// The scales of a specification: of each the channel and the numbers of the units that share it.
pub fn shared(alloc: Global, s: &VlSpec) -> Result<Text, OutOfMemory> {
    let scales = resolve_of(alloc, s)?;
    let mut out = Text::new(alloc);
    for scale in scales.as_slice() {
        out.push_str(channel_name(scale.channel))?;
        say_numbers(alloc, &mut out, scale.units.as_slice())?;
        out.push_str(";")?;
    }
    Ok(out)
}

/// The units of a specification: of each its number, the number of its view and of its plot, the source of its rows, how many transforms
/// make them, the numbers of the facets round it, and its channels, those that have scales with the number of the view up to which
/// they are shared.
pub fn units(alloc: Global, s: &VlSpec) -> Result<Text, OutOfMemory> {
    let units = units_of(alloc, s)?;
    let mut out = Text::new(alloc);
    for unit in units.as_slice() {
        say_unit(alloc, &mut out, unit)?;
    }
    Ok(out)
}

// Whether it has scales.
fn has_scales(code: u16) -> bool {
    code < 2 || 3 < code && code < 8
}

// Adds a word behind another.
fn say_word(out: &mut Text, before: &str, word: &str) -> Result<(), OutOfMemory> {
    out.push_str(before)?;
    out.push_str(word)
}

// Adds a number behind a word.
fn say_number(alloc: Global, out: &mut Text, before: &str, number: u64) -> Result<(), OutOfMemory> {
    out.push_str(before)?;
    out.push_str(format!(in alloc; "{number}")?.as_str())
}

// Adds numbers.
fn say_numbers(alloc: Global, out: &mut Text, numbers: &[u32]) -> Result<(), OutOfMemory> {
    for number in numbers {
        say_number(alloc, out, " ", u64::from(*number))?;
    }
    Ok(())
}

// Adds where a unit stands.
fn say_place(alloc: Global, out: &mut Text, round: &[ViewHere]) -> Result<(), OutOfMemory> {
    if let [.., here] = round {
        say_number(alloc, out, " view ", here.number as u64)?;
    }
    say_number(alloc, out, " plot ", plot_of(round) as u64)
}

// Adds the rows of a unit.
fn say_rows(alloc: Global, out: &mut Text, round: &[ViewHere]) -> Result<(), OutOfMemory> {
    if let Some(name) = source_of(round) {
        say_word(out, " rows ", name.as_str())?;
    }
    let steps = transforms_of(alloc, round)?.len();
    if 0 < steps {
        say_number(alloc, out, " steps ", steps as u64)?;
    }
    Ok(())
}

// Adds the facets round a unit.
fn say_facets(alloc: Global, out: &mut Text, round: &[ViewHere]) -> Result<(), OutOfMemory> {
    let facets = facets_of(alloc, round)?;
    for facet in facets.as_slice() {
        say_number(alloc, out, " facet ", facet.number as u64)?;
    }
    Ok(())
}

// Adds the channels of a unit.
fn say_channels(
    alloc: Global,
    out: &mut Text,
    round: &[ViewHere],
    channels: &[&ChannelOf],
) -> Result<(), OutOfMemory> {
    for channel in channels {
        say_word(out, " ", channel_name(channel.channel))?;
        if has_scales(channel.channel) {
            say_number(alloc, out, "@", home_of(round, channel.channel) as u64)?;
        }
    }
    Ok(())
}

// Adds a unit.
fn say_unit(alloc: Global, out: &mut Text, unit: &UnitHere) -> Result<(), OutOfMemory> {
    let round = unit.round.as_slice();
    say_number(alloc, out, "", unit.number as u64)?;
    say_place(alloc, out, round)?;
    say_rows(alloc, out, round)?;
    say_facets(alloc, out, round)?;
    say_channels(alloc, out, round, unit.channels.as_slice())?;
    out.push_str(";")
}
