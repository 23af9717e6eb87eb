// Steps over rows in words.
use crate::words::{say_cell, say_count, say_flag, say_number, say_texts, say_word};
use case_table::{OPERATIONS, TIME_UNITS};
use cell_value::SharedText;
use expr_syntax::{Expr, write};
use plain_rows::{
    BinOf, FoldOf, GroupOf, LookupOf, Offset, OpOf, SortBy, StackOf, TimeOf, WindowOf,
};
use plan_kit::{Step, UnitPlan};
use std::alloc::Global;
use text_kit::{OutOfMemory, Text};

/// Adds the source of the rows of a unit, and its steps before a row stands for several.
pub fn say_before(alloc: Global, out: &mut Text, unit: &UnitPlan) -> Result<(), OutOfMemory> {
    out.push_str(unit.source.as_str())?;
    say_steps(alloc, out, unit.before.as_slice())
}

/// Adds the number of a unit, and its steps from there on.
pub fn say_after(alloc: Global, out: &mut Text, unit: &UnitPlan) -> Result<(), OutOfMemory> {
    say_count(alloc, out, "", unit.number as u64)?;
    say_steps(alloc, out, unit.after.as_slice())
}

// Adds steps.
fn say_steps(alloc: Global, out: &mut Text, steps: &[Step]) -> Result<(), OutOfMemory> {
    for step in steps {
        out.push_str(", ")?;
        say_step(alloc, out, step)?;
    }
    Ok(())
}

// Adds a step.
fn say_step(alloc: Global, out: &mut Text, step: &Step) -> Result<(), OutOfMemory> {
    match step {
        Step::Filter(e) => say_expr(alloc, out, "filter ", e),
        Step::Calculate(e, name) => {
            say_expr(alloc, out, "calc ", e)?;
            say_word(out, " as ", name.as_str())
        }
        Step::Bin(of) => say_bin(alloc, out, of),
        Step::Unit(of) => say_unit(out, of),
        Step::Group(of) => say_group(out, "group", of),
        Step::Join(of) => say_group(out, "join", of),
        Step::Stack(of) => say_stack(out, of),
        Step::Window(of) => say_window(alloc, out, of),
        Step::Lookup(source, of) => say_lookup(alloc, out, source, of),
        Step::Fold(of) => say_fold(out, of),
    }
}

/// Adds an expression behind a word.
pub fn say_expr(alloc: Global, out: &mut Text, before: &str, e: &Expr) -> Result<(), OutOfMemory> {
    let text = write(alloc, e)?;
    say_word(out, before, text.as_str())
}

// Adds two names behind an arrow.
fn say_ends(out: &mut Text, start: &SharedText, end: &SharedText) -> Result<(), OutOfMemory> {
    say_word(out, " -> ", start.as_str())?;
    say_word(out, " ", end.as_str())
}

// Adds bins.
fn say_bin(alloc: Global, out: &mut Text, of: &BinOf) -> Result<(), OutOfMemory> {
    say_word(out, "bin ", of.field.as_str())?;
    say_count(alloc, out, " maxbins ", u64::from(of.maxbins))?;
    match of.step {
        Some(step) => say_number(out, " step ", step)?,
        None => {}
    }
    say_flag(out, " within", of.extent.is_some())?;
    say_ends(out, &of.out, &of.out_end)
}

// The name of a code.
fn name_in(names: &[case_table::Case], code: u16) -> &'static str {
    match names.get(usize::from(code)) {
        Some(case) => case.name,
        None => "?",
    }
}

// Adds units of time.
fn say_unit(out: &mut Text, of: &TimeOf) -> Result<(), OutOfMemory> {
    say_word(out, "unit ", name_in(&TIME_UNITS, of.unit))?;
    say_word(out, " ", of.field.as_str())?;
    say_ends(out, &of.out, &of.out_end)
}

// Adds an operation.
fn say_op(out: &mut Text, of: &OpOf) -> Result<(), OutOfMemory> {
    say_word(out, " ", name_in(&OPERATIONS, of.op))?;
    match &of.field {
        Some(field) => say_word(out, " ", field.as_str())?,
        None => {}
    }
    say_word(out, " -> ", of.out.as_str())
}

// Adds operations.
fn say_ops(out: &mut Text, ops: &[OpOf]) -> Result<(), OutOfMemory> {
    for of in ops {
        say_op(out, of)?;
    }
    Ok(())
}

// Adds fields in brackets.
fn say_fields(out: &mut Text, fields: &[Text]) -> Result<(), OutOfMemory> {
    out.push_str(" [")?;
    say_texts(out, fields)?;
    out.push_str(" ]")
}

// Adds groups.
fn say_group(out: &mut Text, word: &str, of: &GroupOf) -> Result<(), OutOfMemory> {
    out.push_str(word)?;
    say_fields(out, of.groupby.as_slice())?;
    say_ops(out, of.ops.as_slice())
}

// Adds an order.
fn say_sort(out: &mut Text, sort: &[SortBy]) -> Result<(), OutOfMemory> {
    out.push_str(" by")?;
    for of in sort {
        say_word(out, " ", of.field.as_str())?;
        say_flag(out, " down", of.descending)?;
    }
    Ok(())
}

// The word of an offset.
fn offset_word(offset: Offset) -> &'static str {
    match offset {
        Offset::Zero => " zero",
        Offset::Normalize => " normalize",
        Offset::Center => " center",
    }
}

// Adds a stack.
fn say_stack(out: &mut Text, of: &StackOf) -> Result<(), OutOfMemory> {
    say_word(out, "stack ", of.field.as_str())?;
    say_fields(out, of.groupby.as_slice())?;
    say_sort(out, of.sort.as_slice())?;
    out.push_str(offset_word(of.offset))?;
    say_ends(out, &of.out, &of.out_end)
}

// Adds a bound of a frame.
fn say_bound(alloc: Global, out: &mut Text, bound: Option<i32>) -> Result<(), OutOfMemory> {
    match bound {
        Some(n) => out.push_str(format!(in alloc; " {n}")?.as_str()),
        None => out.push_str(" all"),
    }
}

// Adds a window.
fn say_window(alloc: Global, out: &mut Text, of: &WindowOf) -> Result<(), OutOfMemory> {
    out.push_str("window")?;
    say_ops(out, of.ops.as_slice())?;
    out.push_str(" params")?;
    for param in of.params.as_slice() {
        say_count(alloc, out, " ", u64::from(*param))?;
    }
    say_fields(out, of.groupby.as_slice())?;
    say_sort(out, of.sort.as_slice())?;
    say_bound(alloc, out, of.before)?;
    say_bound(alloc, out, of.after)?;
    say_flag(out, " no peers", of.ignore_peers)
}

// Adds names.
fn say_shared(out: &mut Text, names: &[SharedText]) -> Result<(), OutOfMemory> {
    for name in names {
        say_word(out, " ", name.as_str())?;
    }
    Ok(())
}

// Adds a lookup.
fn say_lookup(
    alloc: Global,
    out: &mut Text,
    source: &Text,
    of: &LookupOf,
) -> Result<(), OutOfMemory> {
    say_word(out, "lookup ", of.key_here.as_str())?;
    say_word(out, " in ", source.as_str())?;
    say_word(out, " ", of.key_there.as_str())?;
    out.push_str(" takes")?;
    say_texts(out, of.fields.as_slice())?;
    out.push_str(" ->")?;
    say_shared(out, of.outs.as_slice())?;
    say_cell(alloc, out, " else ", &of.otherwise)
}

// Adds a fold.
fn say_fold(out: &mut Text, of: &FoldOf) -> Result<(), OutOfMemory> {
    out.push_str("fold")?;
    say_shared(out, of.fields.as_slice())?;
    say_ends(out, &of.out_key, &of.out_value)
}
