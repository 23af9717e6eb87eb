//! A table of the plans of Vega-Lite charts: what is asked, a tab, what is expected, a tab, and the specification. Asked are `scales`, `plots`,
//! `grids`, `tree` and `selections`, the parts of a plan but for those of its units. It writes each line of which something else is found, and how
//! many lines there were.
#![tactic(auto)]

mod grids;
mod orders;
mod plots;
mod scales;
mod selections;
mod words;

use chart_plan::plan_of;
use plan_kit::Plan;
use std::alloc::Global;
use std::io;
use text_kit::{OutOfMemory, Text};

// What is said of a plan.
fn said(alloc: Global, asked: &str, plan: &Plan) -> Result<Text, OutOfMemory> {
    match asked {
        "scales" => scales::said(alloc, plan),
        "plots" => plots::said(alloc, plan),
        "grids" => grids::said(alloc, plan),
        "tree" => grids::tree(alloc, plan),
        "selections" => selections::said(alloc, plan),
        _ => Text::of(alloc, "asks nothing"),
    }
}

// What is found of a specification.
fn found(alloc: Global, asked: &str, spec: &str) -> Result<Text, OutOfMemory> {
    match json_exact::read(alloc, spec.as_bytes()) {
        Ok(tree) => {
            let s = vl_building::spec_of(alloc, &tree)?;
            said(alloc, asked, &plan_of(alloc, &s)?)
        }
        Err(_) => Text::of(alloc, "no JSON"),
    }
}

// What is found of a line, where it isn't what the line expects.
fn failed(alloc: Global, line: &str) -> Result<Option<Text>, OutOfMemory> {
    let Some((asked, rest)) = line.split_once('\t') else {
        return Ok(Some(Text::of(alloc, "no tab")?));
    };
    let Some((expected, spec)) = rest.split_once('\t') else {
        return Ok(Some(Text::of(alloc, "one tab")?));
    };
    let answer = found(alloc, asked, spec)?;
    if answer.as_str() == expected {
        Ok(None)
    } else {
        Ok(Some(answer))
    }
}

fn main(rt: HostRuntime) -> io::Result<()> {
    let alloc = rt.alloc();
    let mut count: u64 = 0;
    for line in rt.lines(alloc) {
        let line = line?;
        count = count.saturating_add(1);
        match failed(alloc, line.as_str()) {
            Ok(None) => {}
            Ok(Some(answer)) => println!(rt; "{} at {line}", answer.as_str())?,
            Err(OutOfMemory) => println!(rt; "no memory at {line}")?,
        }
    }
    println!(rt; "{count} lines")
}
