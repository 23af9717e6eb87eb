//! Whether specifications are written, read again and copied the same.
use json_exact::Json;
use std::alloc::Global;
use text_kit::{OutOfMemory, Text};
use vega_spec::VgSpec;

// The text of a specification.
fn text_of(alloc: Global, g: &VgSpec) -> Result<Text, OutOfMemory> {
    let tree = vega_model::write(alloc, g)?;
    let text = json_exact::write(alloc, &tree);
    drop(tree);
    text
}

// The text of a copy of it.
fn text_of_copy(alloc: Global, g: &VgSpec) -> Result<Text, OutOfMemory> {
    let copy = g.copy(alloc)?;
    let text = text_of(alloc, &copy);
    drop(copy);
    text
}

// The text of the specification that a tree says.
fn text_of_tree(alloc: Global, tree: &Json) -> Option<Text> {
    match vega_model::read(alloc, tree) {
        Ok(again) => {
            let text = text_of(alloc, &again).ok();
            drop(again);
            text
        }
        Err(_) => None,
    }
}

// The text of the specification that a text says.
fn text_again(alloc: Global, text: &str) -> Option<Text> {
    match json_exact::read(alloc, text.as_bytes()) {
        Ok(tree) => {
            let again = text_of_tree(alloc, &tree);
            drop(tree);
            again
        }
        Err(_) => None,
    }
}

// Whether a text is read and written again the same.
fn is_same_again(alloc: Global, text: &str) -> bool {
    match text_again(alloc, text) {
        Some(again) => again.as_str() == text,
        None => false,
    }
}

/// Whether a specification is written, read and written again the same, and a copy of it is written as it is.
pub(crate) fn is_written_again(alloc: Global, g: &VgSpec) -> Result<bool, OutOfMemory> {
    let text = text_of(alloc, g)?;
    let copied = text_of_copy(alloc, g)?;
    Ok(copied.as_str() == text.as_str() && is_same_again(alloc, text.as_str()))
}
