//! A table of specifications, each with the first fault that it has to have: `ok`, or a kind and a path, then a tab and the
//! specification. It writes each line whose specification has another first fault, and how many lines there were.
#![tactic(auto)]

use spec_schema::{Fault, Schema, SpecKind, first_fault};
use std::alloc::Global;
use std::io;
use text_kit::OutOfMemory;
use vega_schema::{TOP, vega_schema};

// The kind of a fault in a word.
fn word_of(kind: SpecKind) -> &'static str {
    match kind {
        SpecKind::Unsupported => "unsupported",
        SpecKind::Missing => "missing",
        SpecKind::Wrong => "wrong",
    }
}

// What is said of a first fault.
fn said(alloc: Global, fault: Option<Fault>) -> io::Result<String> {
    match fault {
        Some(fault) => Ok(format!(in alloc; "{} {}", word_of(fault.kind), fault.path.as_str())?),
        None => Ok(String::from_str(alloc, "ok")?),
    }
}

// What is said of the first fault of a specification.
fn found(alloc: Global, schema: &Schema, text: &str) -> io::Result<String> {
    let Ok(tree) = json_exact::read(alloc, text.as_bytes()) else {
        return Ok(String::from_str(alloc, "no JSON")?);
    };
    match first_fault(alloc, schema, &tree, TOP) {
        Ok(fault) => said(alloc, fault),
        Err(OutOfMemory) => Ok(String::from_str(alloc, "no memory")?),
    }
}

// What is said of a line of the table, where it isn't what the line expects.
fn failed(alloc: Global, schema: &Schema, line: &str) -> io::Result<Option<String>> {
    let Some((expected, text)) = line.split_once('\t') else {
        return Ok(Some(String::from_str(alloc, "no tab")?));
    };
    let answer = found(alloc, schema, text)?;
    if answer.as_str() == expected {
        Ok(None)
    } else {
        Ok(Some(answer))
    }
}

fn main(rt: HostRuntime) -> io::Result<()> {
    let alloc = rt.alloc();
    let Ok(schema) = vega_schema(alloc) else {
        return println!(rt; "no memory");
    };
    let mut count: u64 = 0;
    for line in rt.lines(alloc) {
        let line = line?;
        count = count.saturating_add(1);
        if let Some(answer) = failed(alloc, &schema, line.as_str())? {
            println!(rt; "{answer} at {line}")?;
        }
    }
    println!(rt; "{count} lines")
}
