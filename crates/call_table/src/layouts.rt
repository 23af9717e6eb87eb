// Layouts: a tree of boxes. A box is its six numbers with commas; a grid is its cells between brackets, and then its columns, its spacing
// and whether it has a title. The answer are the places of the plots, and with titles those of the titles of grids among them and the
// width of each, and then the width and the height of the whole.
use crate::said::say_number;
use crate::spelled::number_by;
use fixed_num::Num;
use std::alloc::Global;
use text_kit::{OutOfMemory, Seq, Text};
use view_layout::{BoxOf, BoxTree, Laid, LaidWithTitles, lay_out, lay_out_with_titles};

// The box of six decimals.
fn box_by(word: &str) -> Option<BoxOf> {
    let mut parts = word.split(',');
    let left = number_by(parts.next()?)?;
    let top = number_by(parts.next()?)?;
    let width = number_by(parts.next()?)?;
    let height = number_by(parts.next()?)?;
    let right = number_by(parts.next()?)?;
    let bottom = number_by(parts.next()?)?;
    Some(BoxOf {
        left,
        top,
        width,
        height,
        right,
        bottom,
    })
}

// The columns, the spacing and the title of a grid.
fn grid_by(word: &str) -> Option<(u64, Num, bool)> {
    let mut parts = word.split(',');
    let columns = parts.next()?.parse::<u64>().ok()?;
    let spacing = number_by(parts.next()?)?;
    Some((columns, spacing, parts.next()? == "title"))
}

// The grid that ends with a word.
fn grid_of(word: &str, cells: Seq<BoxTree>) -> Option<BoxTree> {
    let (columns, spacing, title) = grid_by(word)?;
    Some(BoxTree::Grid {
        columns,
        spacing,
        title,
        cells,
    })
}

// The box or the grid that ends with a word; a grid takes the cells that were opened last.
fn ended_by(word: &str, open: &mut Seq<Seq<BoxTree>>) -> Option<BoxTree> {
    match word.strip_prefix(")") {
        Some(grid) => grid_of(grid, open.pop()?),
        None => Some(BoxTree::Leaf(box_by(word)?)),
    }
}

// Adds a tree to the cells that were opened last.
fn add(tree: BoxTree, open: &mut Seq<Seq<BoxTree>>) -> Result<(), OutOfMemory> {
    if let Some(mut cells) = open.pop() {
        cells.push(tree)?;
        open.push(cells)?;
    }
    Ok(())
}

// Takes a word of a tree.
fn take_word(alloc: Global, word: &str, open: &mut Seq<Seq<BoxTree>>) -> Result<(), OutOfMemory> {
    if word == "(" {
        return open.push(Seq::new(alloc));
    }
    match ended_by(word, open) {
        Some(tree) => add(tree, open),
        None => Ok(()),
    }
}

// Takes the words of a tree.
fn take_words(alloc: Global, text: &str, open: &mut Seq<Seq<BoxTree>>) -> Result<(), OutOfMemory> {
    open.push(Seq::new(alloc))?;
    for word in text.split(' ') {
        take_word(alloc, word, open)?;
    }
    Ok(())
}

// The tree of a text; None where it is none.
fn tree_by(alloc: Global, text: &str) -> Result<Option<BoxTree>, OutOfMemory> {
    let mut open = Seq::new(alloc);
    take_words(alloc, text, &mut open)?;
    match open.pop() {
        Some(mut trees) => Ok(trees.pop()),
        None => Ok(None),
    }
}

// Adds a number.
fn say(text: &mut Text, number: Num) -> Result<(), OutOfMemory> {
    say_number(text, number)?;
    text.push_str(" ")
}

// Adds the width and the height of a layout.
fn say_size(text: &mut Text, width: Num, height: Num) -> Result<(), OutOfMemory> {
    text.push_str("| ")?;
    say(text, width)?;
    say(text, height)
}

// Adds a layout.
fn say_laid(text: &mut Text, laid: &Laid) -> Result<(), OutOfMemory> {
    for place in laid.places.as_slice() {
        say(text, place.0)?;
        say(text, place.1)?;
    }
    say_size(text, laid.width, laid.height)
}

// How a layout is spelled.
fn said(alloc: Global, laid: &Laid) -> Result<Text, OutOfMemory> {
    let mut text = Text::new(alloc);
    say_laid(&mut text, laid)?;
    Ok(text)
}

// Adds a layout with titles.
fn say_laid_with_titles(text: &mut Text, laid: &LaidWithTitles) -> Result<(), OutOfMemory> {
    for place in laid.places.as_slice() {
        say(text, place.x)?;
        say(text, place.y)?;
        say(text, place.width)?;
    }
    say_size(text, laid.width, laid.height)
}

// How a layout with titles is spelled.
fn said_with_titles(alloc: Global, laid: &LaidWithTitles) -> Result<Text, OutOfMemory> {
    let mut text = Text::of(alloc, "titles ")?;
    say_laid_with_titles(&mut text, laid)?;
    Ok(text)
}

// What is found for a tree that was read.
fn found_of(alloc: Global, tree: &BoxTree) -> Result<Text, OutOfMemory> {
    said(alloc, &lay_out(alloc, tree)?)
}

/// What is found for a tree.
pub(crate) fn found(alloc: Global, text: &str) -> Result<Text, OutOfMemory> {
    match tree_by(alloc, text)? {
        Some(tree) => {
            let found = found_of(alloc, &tree);
            drop(tree);
            found
        }
        None => Text::of(alloc, "no tree"),
    }
}

// What is found for a tree that was read, with the titles of its grids.
fn found_with_titles_of(alloc: Global, tree: &BoxTree) -> Result<Text, OutOfMemory> {
    said_with_titles(alloc, &lay_out_with_titles(alloc, tree)?)
}

/// What is found for a tree with the titles of its grids.
pub(crate) fn found_with_titles(alloc: Global, text: &str) -> Result<Text, OutOfMemory> {
    match tree_by(alloc, text)? {
        Some(tree) => {
            let found = found_with_titles_of(alloc, &tree);
            drop(tree);
            found
        }
        None => Text::of(alloc, "no tree"),
    }
}
