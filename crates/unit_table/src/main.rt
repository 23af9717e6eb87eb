//! A table of the plans of units of Vega-Lite specifications: what is asked, a tab, what is expected, a tab, and the specification. Asked are of
//! each unit of the normal form `before`, the source of its rows and the steps before a row stands for several, `after`, its number and the
//! steps from there on, `ends`, where its mark stands, and `looks`, how it looks. It writes each line of which something else is found, and how
//! many lines there were.
#![tactic(auto)]

mod marks;
mod seen;
mod steps;
mod words;

use plan_kit::UnitPlan;
use scale_infer::ScaleOf;
use std::alloc::Global;
use std::io;
use text_kit::{OutOfMemory, Text};
use unit_plan::{SelectionNames, selection_names, unit_plan_of};
use vl_compose::{UnitHere, units_of};
use vl_normalize::normalize;
use vl_spec::VlSpec;

// Adds what is said of the plan of a unit.
fn say_plan(
    alloc: Global,
    out: &mut Text,
    asked: &str,
    plan: &UnitPlan,
) -> Result<(), OutOfMemory> {
    match asked {
        "before" => steps::say_before(alloc, out, plan),
        "after" => steps::say_after(alloc, out, plan),
        "ends" => marks::say_ends(alloc, out, &plan.mark),
        "looks" => marks::say_looks(alloc, out, &plan.mark),
        _ => out.push_str("asks nothing"),
    }
}

// Adds what is said of a unit.
fn say_unit(
    alloc: Global,
    out: &mut Text,
    asked: &str,
    names: &SelectionNames,
    scales: &[ScaleOf],
    unit: &UnitHere,
) -> Result<(), OutOfMemory> {
    let seen = seen::seen_by(alloc, scales, unit)?;
    let plan = unit_plan_of(alloc, names, unit, seen.as_slice())?;
    say_plan(alloc, out, asked, &plan)?;
    out.push_str(";")
}

// What is said of the units of a normal form.
fn units_said(alloc: Global, asked: &str, s: &VlSpec) -> Result<Text, OutOfMemory> {
    let names = selection_names(alloc, s.params.as_slice())?;
    let units = units_of(alloc, s)?;
    let scales = seen::all_scales(alloc, s, units.as_slice())?;
    let mut out = Text::new(alloc);
    for unit in units.as_slice() {
        say_unit(alloc, &mut out, asked, &names, scales.as_slice(), unit)?;
    }
    Ok(out)
}

// What is found of a specification.
fn found(alloc: Global, asked: &str, spec: &str) -> Result<Text, OutOfMemory> {
    match json_exact::read(alloc, spec.as_bytes()) {
        Ok(tree) => {
            let s = vl_building::spec_of(alloc, &tree)?;
            units_said(alloc, asked, &normalize(alloc, &s)?)
        }
        Err(_) => Text::of(alloc, "no JSON"),
    }
}

// What is found of a line, where it isn't what the line expects.
fn failed(alloc: Global, line: &str) -> Result<Option<Text>, OutOfMemory> {
    let Some((asked, rest)) = line.split_once('\t') else {
        return Ok(Some(Text::of(alloc, "no tab")?));
    };
    let Some((expected, spec)) = rest.split_once('\t') else {
        return Ok(Some(Text::of(alloc, "one tab")?));
    };
    let answer = found(alloc, asked, spec)?;
    if answer.as_str() == expected {
        Ok(None)
    } else {
        Ok(Some(answer))
    }
}

fn main(rt: HostRuntime) -> io::Result<()> {
    let alloc = rt.alloc();
    let mut count: u64 = 0;
    for line in rt.lines(alloc) {
        let line = line?;
        count = count.saturating_add(1);
        match failed(alloc, line.as_str()) {
            Ok(None) => {}
            Ok(Some(answer)) => println!(rt; "{} at {line}", answer.as_str())?,
            Err(OutOfMemory) => println!(rt; "no memory at {line}")?,
        }
    }
    println!(rt; "{count} lines")
}
