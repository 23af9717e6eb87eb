//! A table of what is inferred of Vega-Lite specifications: what is asked, a tab, what is expected, a tab, and the specification. Asked are
//! `normal`, the normal form; `views`, `units` and `shared`, the units as they are written, with their paths, what stands round them, and the
//! scales that they share; and `scales`, the scales of the normal form. It writes each line of which something else is found, and how many
//! lines there were.
#![tactic(auto)]

mod compose;
mod infer;
mod names;
mod normal;

use std::alloc::Global;
use std::io;
use text_kit::{OutOfMemory, Text};
use vl_spec::VlSpec;

// What is said of a specification.
fn said(alloc: Global, asked: &str, s: &VlSpec) -> Result<Text, OutOfMemory> {
    match asked {
        "normal" => normal::said(alloc, s),
        "views" => compose::views(alloc, s),
        "units" => compose::units(alloc, s),
        "shared" => compose::shared(alloc, s),
        "scales" => infer::said(alloc, s),
        _ => Text::of(alloc, "asks nothing"),
    }
}

// What is found of a specification.
fn found(alloc: Global, asked: &str, spec: &str) -> Result<Text, OutOfMemory> {
    match json_exact::read(alloc, spec.as_bytes()) {
        Ok(tree) => said(alloc, asked, &vl_building::spec_of(alloc, &tree)?),
        Err(_) => Text::of(alloc, "no JSON"),
    }
}

// What is found of a line, where it isn't what the line expects.
fn failed(alloc: Global, line: &str) -> Result<Option<Text>, OutOfMemory> {
    let Some((asked, rest)) = line.split_once('\t') else {
        return Ok(Some(Text::of(alloc, "no tab")?));
    };
    let Some((expected, spec)) = rest.split_once('\t') else {
        return Ok(Some(Text::of(alloc, "one tab")?));
    };
    let answer = found(alloc, asked, spec)?;
    if answer.as_str() == expected {
        Ok(None)
    } else {
        Ok(Some(answer))
    }
}

fn main(rt: HostRuntime) -> io::Result<()> {
    let alloc = rt.alloc();
    let mut count: u64 = 0;
    for line in rt.lines(alloc) {
        let line = line?;
        count = count.saturating_add(1);
        match failed(alloc, line.as_str()) {
            Ok(None) => {}
            Ok(Some(answer)) => println!(rt; "{} at {line}", answer.as_str())?,
            Err(OutOfMemory) => println!(rt; "no memory at {line}")?,
        }
    }
    println!(rt; "{count} lines")
}
