// Names, numbers and texts.
use cell_value::Cell;
use fixed_num::Num;
use std::alloc::Global;
use text_kit::{OutOfMemory, Text};

/// Adds a word behind another.
pub fn say_word(out: &mut Text, before: &str, word: &str) -> Result<(), OutOfMemory> {
    out.push_str(before)?;
    out.push_str(word)
}

/// Adds a word, where it holds.
pub fn say_flag(out: &mut Text, word: &str, holds: bool) -> Result<(), OutOfMemory> {
    if holds { out.push_str(word) } else { Ok(()) }
}

/// Adds a count behind a word.
pub fn say_count(
    alloc: Global,
    out: &mut Text,
    before: &str,
    count: u64,
) -> Result<(), OutOfMemory> {
    out.push_str(before)?;
    out.push_str(format!(in alloc; "{count}")?.as_str())
}

/// Adds a number behind a word.
pub fn say_number(out: &mut Text, before: &str, number: Num) -> Result<(), OutOfMemory> {
    out.push_str(before)?;
    out.push_str(number.decimal().as_str())
}

/// Adds a cell behind a word.
pub fn say_cell(
    alloc: Global,
    out: &mut Text,
    before: &str,
    cell: &Cell,
) -> Result<(), OutOfMemory> {
    out.push_str(before)?;
    out.push_str(cell.display(alloc)?.as_str())
}

/// Adds a text in quotes, where there is one.
pub fn say_quoted(out: &mut Text, before: &str, text: &Option<Text>) -> Result<(), OutOfMemory> {
    match text {
        Some(text) => {
            out.push_str(before)?;
            say_word(out, "'", text.as_str())?;
            out.push_str("'")
        }
        None => Ok(()),
    }
}

/// Adds texts, each behind a space.
pub fn say_texts(out: &mut Text, texts: &[Text]) -> Result<(), OutOfMemory> {
    for text in texts {
        say_word(out, " ", text.as_str())?;
    }
    Ok(())
}
