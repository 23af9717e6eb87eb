//! A table of calls. A line has what is expected, a tab, the name of a call, a tab, and what the call is told, in words between tabs:
//! `tick` and `time` with what is asked of them, `layout` and `titles` a tree of boxes, and the calls over rows, whose rows stand last. It
//! writes each line of which something else is found, and how many lines there were. `oracles/call_table.py` writes the table.
#![tactic(auto)]

mod bins;
mod facets;
mod groups;
mod instants;
mod json_rows;
mod keys;
mod layouts;
mod said;
mod shown;
mod spelled;
mod stacks;
mod ticks;
mod told;
mod transformed;
mod windows;

use std::alloc::Global;
use std::io;
use text_kit::{OutOfMemory, Text};

// What is found for a call over rows.
fn found_of_rows(alloc: Global, call: &str, told: &str) -> Result<Text, OutOfMemory> {
    match call {
        "bin" => bins::found(alloc, told),
        "aggregate" => groups::aggregated(alloc, told),
        "join" => groups::joined(alloc, told),
        "facet" => facets::found(alloc, told),
        "stack" => stacks::found(alloc, told),
        "window" => windows::found(alloc, told),
        _ => json_rows::found(alloc, call, told),
    }
}

// What is found for a call.
fn found(alloc: Global, call: &str, told: &str) -> Result<Text, OutOfMemory> {
    match call {
        "tick" => ticks::found(alloc, told),
        "time" => instants::found(alloc, told),
        "layout" => layouts::found(alloc, told),
        "titles" => layouts::found_with_titles(alloc, told),
        _ => found_of_rows(alloc, call, told),
    }
}

// The name of a call, and what it is told.
fn call_of(line: &str) -> (&str, &str) {
    match line.split_once('\t') {
        Some(parts) => parts,
        None => (line, ""),
    }
}

// What is found for a line, where it isn't what the line expects.
fn failed(alloc: Global, line: &str) -> Result<Option<Text>, OutOfMemory> {
    let Some((expected, rest)) = line.split_once('\t') else {
        return Ok(Some(Text::of(alloc, "no call")?));
    };
    let (call, told) = call_of(rest);
    let found = found(alloc, call, told)?;
    if found.as_str() == expected {
        Ok(None)
    } else {
        Ok(Some(found))
    }
}

// What is written of that.
fn word_of(failed: &Result<Option<Text>, OutOfMemory>) -> Option<&str> {
    match failed {
        Ok(Some(found)) => Some(found.as_str()),
        Ok(None) => None,
        Err(_) => Some("no memory"),
    }
}

fn main(rt: HostRuntime) -> io::Result<()> {
    let alloc = rt.alloc();
    let mut count: u64 = 0;
    for line in rt.lines(alloc) {
        let line = line?;
        count = count.saturating_add(1);
        let found = failed(alloc, line.as_str());
        if let Some(word) = word_of(&found) {
            println!(rt; "{word} at {line}")?;
        }
    }
    println!(rt; "{count} lines")
}
