//! A table of whole charts: what is expected, a tab, and a Vega specification that has all of its rows. What is expected are the panels, the
//! scales that are kept and the picture, or why nothing is drawn; or only that there is some picture. No selection holds anything. It writes
//! each line of which something else is found, and how many lines there were. Each specification has to be written, read again and copied the
//! same, too.
//! `oracles/chart_table.py` writes the table.
#![tactic(auto)]

ghost use Rattle.std.specs.Prelude.{◌≡◌, true};
ghost use Rattle.vega_lists.specs.Held.{AreSources};
ghost use Rattle.vega_copies.specs.Tested.{keeps_rules};

mod opening;
mod shown;
mod written;

use cell_value::{Cell, Named};
use expr_eval::Stores;
use json_exact::Json;
use opening::{params_of, sources_of};
use plot_scenes::Drawing;
use shown::said_of_drawing;
use std::alloc::Global;
use std::io;
use text_kit::{OutOfMemory, Text};
use vega_charts::{DrawError, drawing_of};
use vega_spec::VgSpec;
use written::is_written_again;

// What is drawn of a specification over these sources and parameters, where no selection holds anything.
fn drawn(
    alloc: Global,
    g: &VgSpec,
    sources: &[Named],
    params: &[(Text, Cell)],
) -> Result<Drawing, DrawError>
    requires rules { keeps_rules g.now ≡ true }
    requires sources { AreSources sources.now }
{
    match Stores::of(alloc, &[]) {
        Ok(stores) => drawing_of(alloc, g, &*sources, params, &stores),
        Err(_) => Err(DrawError::Memory),
    }
}

// How many panels are too many, in words.
fn said_of_panels(alloc: Global, count: u64) -> Result<Text, OutOfMemory> {
    Text::of(alloc, format!(in alloc; "panels {count}")?.as_str())
}

// What is drawn, in words, or why nothing is.
fn said(alloc: Global, drawn: Result<Drawing, DrawError>) -> Result<Text, OutOfMemory> {
    match drawn {
        Ok(drawing) => {
            let said = said_of_drawing(alloc, &drawing);
            drop(drawing);
            said
        }
        Err(DrawError::Overflow) => Text::of(alloc, "overflow"),
        Err(DrawError::Panels(count)) => said_of_panels(alloc, count),
        Err(DrawError::Memory) => Err(OutOfMemory),
    }
}

// What is found for a specification that keeps the rules over these sources, in words.
fn found_over(alloc: Global, g: &VgSpec, sources: &[Named]) -> Result<Text, OutOfMemory>
    requires rules { keeps_rules g.now ≡ true }
    requires sources { AreSources sources.now }
{
    let params = params_of(alloc, g)?;
    said(alloc, drawn(alloc, g, sources, params.as_slice()))
}

// What is found for a specification that keeps the rules, in words.
fn found_of_chart(alloc: Global, g: &VgSpec) -> Result<Text, OutOfMemory>
    requires { keeps_rules g.now ≡ true }
{
    let sources = sources_of(alloc, g)?;
    found_over(alloc, g, sources.as_slice())
}

// What is found for a specification, in words.
fn found_of(alloc: Global, g: &VgSpec) -> Result<Text, OutOfMemory> {
    if vega_copies::keeps_rules(alloc, g)? {
        found_of_chart(alloc, g)
    } else {
        Text::of(alloc, "no chart")
    }
}

// What is found for a specification that was read, in words.
fn found_of_read(alloc: Global, g: &VgSpec) -> Result<Text, OutOfMemory> {
    if is_written_again(alloc, g)? {
        found_of(alloc, g)
    } else {
        Text::of(alloc, "written otherwise")
    }
}

// What is found for a tree, in words.
fn found_of_tree(alloc: Global, tree: &Json) -> Result<Text, OutOfMemory> {
    match vega_model::read(alloc, tree) {
        Ok(g) => found_of_read(alloc, &g),
        Err(_) => Text::of(alloc, "refused"),
    }
}

// What is found for a text, in words.
fn found(alloc: Global, spec: &str) -> Result<Text, OutOfMemory> {
    match json_exact::read(alloc, spec.as_bytes()) {
        Ok(tree) => {
            let found = found_of_tree(alloc, &tree);
            drop(tree);
            found
        }
        Err(_) => Text::of(alloc, "no JSON"),
    }
}

// Whether an answer is what is expected, which may be any picture.
fn is_expected(answer: &str, expected: &str) -> bool {
    answer == expected || expected == "drawn" && answer.ends_with("</svg>||")
}

// What is found for a line, where it isn't what the line expects.
fn failed(alloc: Global, line: &str) -> Result<Option<Text>, OutOfMemory> {
    let Some((expected, spec)) = line.split_once('\t') else {
        return Ok(None);
    };
    let answer = found(alloc, spec)?;
    if is_expected(answer.as_str(), expected) {
        Ok(None)
    } else {
        Ok(Some(answer))
    }
}

// What is written of that.
fn word_of(failed: &Result<Option<Text>, OutOfMemory>) -> Option<&str> {
    match failed {
        Ok(Some(answer)) => Some(answer.as_str()),
        Ok(None) => None,
        Err(_) => Some("no memory"),
    }
}

fn main(rt: HostRuntime) -> io::Result<()> {
    let alloc = rt.alloc();
    let mut count: u64 = 0;
    for line in rt.lines(alloc) {
        let line = line?;
        count = count.saturating_add(1);
        let found = failed(alloc, line.as_str());
        if let Some(word) = word_of(&found) {
            println!(rt; "{word} at {line}")?;
        }
    }
    println!(rt; "{count} lines")
}
