// Names, numbers and texts.
use cell_value::Cell;
use fixed_num::Num;
use std::alloc::Global;
use text_kit::{OutOfMemory, Text};

/// The name of a channel.
pub fn channel_name(code: u16) -> &'static str {
    match code {
        0 => "x",
        1 => "y",
        4 => "color",
        5 => "opacity",
        6 => "size",
        7 => "shape",
        _ => "?",
    }
}

/// The name of a kind of scales.
pub fn kind_name(code: u16) -> &'static str {
    match code {
        0 => "linear",
        1 => "time",
        2 => "band",
        3 => "point",
        4 => "ordinal",
        5 => "ramp",
        _ => "?",
    }
}

/// The name of an operation.
pub fn op_name(code: u16) -> &'static str {
    match code {
        0 => "count",
        1 => "valid",
        2 => "missing",
        3 => "distinct",
        4 => "sum",
        5 => "mean",
        6 => "average",
        7 => "min",
        8 => "max",
        9 => "median",
        10 => "q1",
        11 => "q3",
        _ => "?",
    }
}

/// Adds a word behind another.
pub fn say_word(out: &mut Text, before: &str, word: &str) -> Result<(), OutOfMemory> {
    out.push_str(before)?;
    out.push_str(word)
}

/// Adds a word, where it holds.
pub fn say_flag(out: &mut Text, word: &str, holds: bool) -> Result<(), OutOfMemory> {
    if holds { out.push_str(word) } else { Ok(()) }
}

/// Adds a count behind a word.
pub fn say_count(
    alloc: Global,
    out: &mut Text,
    before: &str,
    count: u64,
) -> Result<(), OutOfMemory> {
    out.push_str(before)?;
    out.push_str(format!(in alloc; "{count}")?.as_str())
}

/// Adds counts, each behind a word.
pub fn say_counts(
    alloc: Global,
    out: &mut Text,
    before: &str,
    counts: &[usize],
) -> Result<(), OutOfMemory> {
    for count in counts {
        say_count(alloc, out, before, *count as u64)?;
    }
    Ok(())
}

/// Adds a number behind a word.
pub fn say_number(out: &mut Text, before: &str, number: Num) -> Result<(), OutOfMemory> {
    out.push_str(before)?;
    out.push_str(number.decimal().as_str())
}

/// Adds a cell behind a word.
pub fn say_cell(
    alloc: Global,
    out: &mut Text,
    before: &str,
    cell: &Cell,
) -> Result<(), OutOfMemory> {
    out.push_str(before)?;
    out.push_str(cell.display(alloc)?.as_str())
}

/// Adds cells, each behind a space.
pub fn say_cells(alloc: Global, out: &mut Text, cells: &[Cell]) -> Result<(), OutOfMemory> {
    for cell in cells {
        say_cell(alloc, out, " ", cell)?;
    }
    Ok(())
}

/// Adds a text in quotes, where there is one.
pub fn say_quoted(out: &mut Text, before: &str, text: &Option<Text>) -> Result<(), OutOfMemory> {
    match text {
        Some(text) => {
            out.push_str(before)?;
            say_word(out, "'", text.as_str())?;
            out.push_str("'")
        }
        None => Ok(()),
    }
}

/// Adds texts, each behind a space.
pub fn say_texts(out: &mut Text, texts: &[Text]) -> Result<(), OutOfMemory> {
    for text in texts {
        say_word(out, " ", text.as_str())?;
    }
    Ok(())
}
