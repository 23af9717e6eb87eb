//! A table of axes, legends and titles, each with its answer: the answer, a tab, and the question in words between tabs. It writes each
//! line whose question has another answer, and how many lines there were. `oracles/guide_table.py` writes the table.
#![tactic(auto)]

mod questions;
mod scales;
mod shown;

use questions::answer_to;
use std::alloc::Global;
use std::io;
use text_kit::{OutOfMemory, Text};

// The answer to the question of a line, where it isn't what the line expects.
fn failed(alloc: Global, line: &str) -> Result<Option<Text>, OutOfMemory> {
    let Some((expected, question)) = line.split_once('\t') else {
        return Ok(Some(Text::of(alloc, "no tab")?));
    };
    let answer = answer_to(alloc, question)?;
    if answer.as_str() == expected {
        Ok(None)
    } else {
        Ok(Some(answer))
    }
}

// What is written of that.
fn word_of(failed: &Result<Option<Text>, OutOfMemory>) -> Option<&str> {
    match failed {
        Ok(Some(answer)) => Some(answer.as_str()),
        Ok(None) => None,
        Err(_) => Some("no memory"),
    }
}

fn main(rt: HostRuntime) -> io::Result<()> {
    let alloc = rt.alloc();
    let mut count: u64 = 0;
    for line in rt.lines(alloc) {
        let line = line?;
        count = count.saturating_add(1);
        if let Some(word) = word_of(&failed(alloc, line.as_str())) {
            println!(rt; "{word} at {line}")?;
        }
    }
    println!(rt; "{count} lines")
}
