// What ordinal scales and ramps range over: lists of colours and of signs, and the colours of a ramp.
ghost use Rattle.std.specs.Prelude.{◌≡◌, map, reverse, IfOk};
ghost use Rattle.cell_value.specs.declared.cell.Cell.TheVariants.{Text as TextCell};
ghost use Rattle.domain_kit.specs.Entries.{category_colors, symbol_shapes, color_from, color_to, steps_among};
ghost use Rattle.domain_kit.specs.Entries.{ramp_entry, ramp_entries, entries_turned};

use crate::numbers::{millionths, zero};
use cell_value::Cell;
use scale_kit::{Scale, paint};
use std::alloc::Global;
use text_kit::{OutOfMemory, Seq, Text};

/// The colours between which a ramp runs: red, green and blue.
const FIRST_COLOR: [u8; 3] = [222, 235, 247];

const LAST_COLOR: [u8; 3] = [8, 81, 156];

/// The colour at which a ramp begins, if it is turned round or not.
pub fn color_from(reverse: bool) -> [u8; 3]
    ensures { result ≡ color_from reverse }
{
    if reverse { LAST_COLOR } else { FIRST_COLOR }
}

/// The colour at which it ends.
pub fn color_to(reverse: bool) -> [u8; 3]
    ensures { result ≡ color_to reverse }
{
    if reverse { FIRST_COLOR } else { LAST_COLOR }
}

// Words as cells.
fn texts(alloc: Global, words: &[&str]) -> Result<Seq<Cell>, OutOfMemory>
    ensures { IfOk result (λ cells. cells ≡ map (λ word. TextCell word.now) words.now) }
{
    let mut cells = Seq::with_capacity(alloc, words.len())?;
    for word in words {
        cells.push(Cell::Text(Text::of(alloc, word)?))?;
    }
    Ok(cells)
}

/// The colours of `category`, ten of them.
#[tactic(auto, unfolding(crate::specs::Entries::category_colors))]
pub fn category_colors(alloc: Global) -> Result<Seq<Cell>, OutOfMemory>
    ensures { IfOk result (λ cells. cells ≡ map TextCell category_colors) }
{
    texts(
        alloc,
        &[
            "#4c78a8", "#f58518", "#e45756", "#72b7b2", "#54a24b", "#eeca3b", "#b279a2", "#ff9da6",
            "#9d755d", "#bab0ac",
        ],
    )
}

/// The shapes of `symbol`, four of them.
#[tactic(auto, unfolding(crate::specs::Entries::symbol_shapes))]
pub fn symbol_shapes(alloc: Global) -> Result<Seq<Cell>, OutOfMemory>
    ensures { IfOk result (λ cells. cells ≡ map TextCell symbol_shapes) }
{
    texts(alloc, &["circle", "square", "triangle-up", "diamond"])
}

// How many steps there are from the first of n entries to the last.
fn steps_among(n: usize) -> usize
    ensures { result ≡ steps_among n }
{
    if 1 < n { n - 1 } else { 1 }
}

// Entry k of n on a ramp.
fn ramp_entry(alloc: Global, n: usize, k: usize) -> Result<Cell, OutOfMemory>
    ensures { IfOk result (λ entry. entry ≡ ramp_entry n k) }
{
    let ramp = Scale::Ramp {
        time: false,
        d0: zero(),
        d1: millionths(steps_among(n)),
        from: FIRST_COLOR,
        to: LAST_COLOR,
    };
    match paint(alloc, &ramp, &Cell::Number(millionths(k)))? {
        Some(color) => Ok(Cell::Text(color)),
        None => unreachable!(),
    }
}

/// n colours from one end of a ramp to the other.
#[tactic(auto, using(crate::proofs::EntryLemmas::mapped_more))]
pub fn ramp_entries(alloc: Global, n: usize) -> Result<Seq<Cell>, OutOfMemory>
    ensures { IfOk result (λ entries. entries ≡ ramp_entries n) }
{
    let mut entries = Seq::with_capacity(alloc, n)?;
    for k in 0..n {
        entries.push(ramp_entry(alloc, n, k)?)?;
    }
    Ok(entries)
}

// Entries from the last to the first.
fn reversed(entries: Seq<Cell>) -> Seq<Cell>
    ensures { result ≡ reverse entries }
{
    let mut entries = entries.into_vec();
    entries.reverse();
    Seq::from_vec(entries)
}

/// Entries in their order, or the other way round where that is asked.
pub fn entries_turned(turned: bool, entries: Seq<Cell>) -> Seq<Cell>
    ensures { result ≡ entries_turned turned entries }
{
    if turned { reversed(entries) } else { entries }
}
