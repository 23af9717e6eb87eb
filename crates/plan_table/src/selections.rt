// Selections in words.
use crate::words::{channel_name, say_count, say_flag, say_texts, say_word};
use plan_kit::{DragPlan, Plan, SelectionPlan};
use selection_events::DragOf;
use std::alloc::Global;
use text_kit::{OutOfMemory, Seq, Text};

/// The selections of a plan: of each its name, its units, what it keeps on a click and with the shift key, whether a double click clears it, the channels
/// of its drag with their fields, and the scales that a drag inverts, with the numbers of the plots' views.
pub fn said(alloc: Global, plan: &Plan) -> Result<Text, OutOfMemory> {
    let mut out = Text::new(alloc);
    for selection in plan.selections.as_slice() {
        say_selection(alloc, &mut out, selection)?;
    }
    Ok(out)
}

// Adds a selection.
fn say_selection(
    alloc: Global,
    out: &mut Text,
    selection: &SelectionPlan,
) -> Result<(), OutOfMemory> {
    out.push_str(selection.kept.name.as_str())?;
    say_units(alloc, out, selection.kept.units.as_slice())?;
    say_kept(out, " click", &selection.kept.click)?;
    say_kept(out, " toggle", &selection.kept.toggle)?;
    say_flag(out, " clears", selection.kept.clears)?;
    say_drag(out, selection.kept.drag.as_slice())?;
    say_drags(alloc, out, selection.drags.as_slice())?;
    out.push_str(";")
}

// Adds the numbers of units.
fn say_units(alloc: Global, out: &mut Text, units: &[u32]) -> Result<(), OutOfMemory> {
    for number in units {
        say_count(alloc, out, " ", u64::from(*number))?;
    }
    Ok(())
}

// Adds the fields that are kept, where something is.
fn say_kept(out: &mut Text, word: &str, fields: &Option<Seq<Text>>) -> Result<(), OutOfMemory> {
    match fields {
        Some(fields) => {
            out.push_str(word)?;
            say_texts(out, fields.as_slice())
        }
        None => Ok(()),
    }
}

// Adds the channels of a drag.
fn say_drag(out: &mut Text, drag: &[DragOf]) -> Result<(), OutOfMemory> {
    for of in drag {
        say_word(out, " drag ", of.channel.as_str())?;
        say_word(out, " ", of.field.as_str())?;
    }
    Ok(())
}

// Adds what drags invert.
fn say_drags(alloc: Global, out: &mut Text, drags: &[DragPlan]) -> Result<(), OutOfMemory> {
    for drag in drags {
        say_count(alloc, out, " in ", drag.plot as u64)?;
        say_word(out, " ", channel_name(drag.channel))?;
        say_count(alloc, out, " on ", drag.scale as u64)?;
    }
    Ok(())
}
