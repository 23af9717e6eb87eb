// The entries of legends.
ghost use Rattle.std.specs.Prelude.{◌≡◌, ◌+◌, ◌≤◌, ◌++◌, map, IfSome, IfOk, OnOk};
ghost use Rattle.std.specs.List.{enumerate_from, filter_map};
ghost use Rattle.std.specs.Option.{option_to_list};
ghost use Rattle.fixed_num.specs.Ranges.{all_found};
ghost use Rattle.scale_kit.specs.Scale.{IsScale};
ghost use Rattle.guide_text.specs.Labels.{own_decimals};
ghost use Rattle.guide_text.specs.Widths.{greatest_size};
ghost use Rattle.guide_kit.specs.Answers.{Draws};
ghost use Rattle.guide_kit.specs.Axes.{widest};
ghost use Rattle.guide_kit.specs.Legends.{rows_of, entry_with, entry_of, entries_of, centre_of, sign_item, label_item, labels_in, entries_width};

use crate::errors::GuideError;
use crate::items::{LABEL_COLUMN, label_style, words_at};
use crate::measures::{pixels, plus};
use crate::signs::{Sign, SignKind, sign_at, sign_of};
use crate::ticks::{cells_shown, shows_of};
use cell_value::Cell;
use fixed_num::Num;
use guide_text::{Shows, label_of, text_width};
use scale_kit::{Indexed, Scale};
use scene_tree::{Anchor, Item};
use std::alloc::Global;
use text_kit::{OutOfMemory, Seq, Text};

/// For how many ticks a legend asks.
const LEGEND_COUNT: u32 = 5;

/// The farthest place, in whole pixels.
const FARTHEST: u128 = 1_000_000_000_000_000;

/// An entry of a legend.
#[derive(Debug, Drop)]
pub struct Entry {
    /// Its sign, where it can be drawn.
    pub sign: Option<Sign>,
    /// Its label.
    pub label: Text,
}

/// The rows of a legend, in pixels.
#[derive(Clone, Copy, Debug)]
pub struct LegendRows {
    /// How high each is.
    pub height: u8,
    /// How far its centre is below its top.
    pub centre: u8,
    /// Where its sign has its centre.
    pub sign: u8,
    /// Where its label begins.
    pub label: u8,
}

/// The rows of a legend with signs of a kind.
pub fn rows_of(kind: SignKind) -> LegendRows
    ensures { result ≡ rows_of kind }
{
    match kind {
        SignKind::Size => LegendRows {
            height: 22,
            centre: 11,
            sign: 11,
            label: 26,
        },
        SignKind::Color | SignKind::Opacity | SignKind::Shape => LegendRows {
            height: 14,
            centre: 7,
            sign: 6,
            label: 16,
        },
    }
}

// The entry of a cell, with its sign if that can be drawn.
fn entry_with(
    alloc: Global,
    sign: Option<Sign>,
    shows: Shows,
    format: &Option<Text>,
    v: &Cell,
) -> Result<Entry, OutOfMemory>
    requires { IfSome (own_decimals shows) (λ n. n ≤ 6) }
    ensures { IfOk result (λ entry. entry ≡ entry_with shows format.now v.now sign) }
{
    Ok(Entry {
        label: label_of(alloc, shows, format, v)?,
        sign,
    })
}

// The entry of a cell.
fn entry_of(
    alloc: Global,
    kind: SignKind,
    s: &Indexed,
    shows: Shows,
    format: &Option<Text>,
    v: &Cell,
) -> Result<Entry, GuideError>
    requires { IfSome (own_decimals shows) (λ n. n ≤ 6) }
    ensures { Draws result (entry_of kind s.now shows format.now v.now) }
{
    let sign = sign_of(alloc, kind, s, v)?;
    Ok(entry_with(alloc, sign, shows, format, v)?)
}

// The entries of cells, in order.
fn entries_at(
    alloc: Global,
    kind: SignKind,
    s: &Indexed,
    shows: Shows,
    format: &Option<Text>,
    cells: &[Cell],
) -> Result<Seq<Entry>, GuideError>
    requires { IfSome (own_decimals shows) (λ n. n ≤ 6) }
    ensures { Draws result (all_found (map (entry_of kind s.now shows format.now) cells.now)) }
{
    let mut entries = Seq::with_capacity(alloc, cells.len())?;
    for cell in cells {
        match entry_of(alloc, kind, s, shows, format, cell) {
            Ok(entry) => entries.push(entry)?,
            Err(error) => return Err(error),
        }
    }
    Ok(entries)
}

/// The entries of a legend of a scale: those of all cells that it shows.
pub fn entries_of(
    alloc: Global,
    kind: SignKind,
    s: &Scale,
    format: &Option<Text>,
) -> Result<Seq<Entry>, GuideError>
    requires { IsScale s.now }
    ensures { Draws result (entries_of kind s.now format.now) }
{
    let indexed = Indexed::of(alloc, s)?;
    let shows = shows_of(LEGEND_COUNT, s);
    let cells = cells_shown(alloc, LEGEND_COUNT, s)?;
    let entries = entries_at(alloc, kind, &indexed, shows, format, cells.as_slice())?;
    Ok(entries)
}

// The centre of an entry by its number.
fn centre_of(rows: &LegendRows, top: u8, number: usize) -> Num
    ensures { result ≡ centre_of rows.now top number }
{
    let above = u128::from(top) + u128::from(number as u64) * u128::from(rows.height);
    pixels((above + u128::from(rows.centre)).min(FARTHEST) as u64)
}

// Adds the sign of an entry by its number, where it can be drawn.
fn push_sign(
    alloc: Global,
    color: &str,
    rows: &LegendRows,
    top: u8,
    number: usize,
    entry: &Entry,
    items: &mut Seq<Item>,
) -> Result<(), OutOfMemory>
    ensures { OnOk result (items.new ≡ items.old ++ option_to_list (sign_item color.now rows.now top (number, entry.now))) }
{
    match &entry.sign {
        Some(sign) => {
            let x = pixels(u64::from(rows.sign));
            items.push(sign_at(alloc, color, x, centre_of(rows, top, number), sign)?)
        }
        None => Ok(()),
    }
}

// The label of an entry by its number.
fn label_item(
    alloc: Global,
    rows: &LegendRows,
    top: u8,
    number: usize,
    entry: &Entry,
) -> Result<Item, OutOfMemory>
    ensures { IfOk result (λ item. item ≡ label_item rows.now top (number, entry.now)) }
{
    let x = pixels(u64::from(rows.label));
    let y = plus(centre_of(rows, top, number), pixels(3));
    words_at(
        alloc,
        label_style(false, Anchor::Start),
        x,
        y,
        entry.label.copy()?,
    )
}

/// Adds the signs of entries below a top, those that can be drawn.
pub fn push_signs(
    alloc: Global,
    color: &str,
    rows: &LegendRows,
    top: u8,
    entries: &[Entry],
    items: &mut Seq<Item>,
) -> Result<(), OutOfMemory>
    ensures { OnOk result (items.new ≡ items.old ++ filter_map (sign_item color.now rows.now top) (enumerate_from 0 entries.now)) }
{
    for (number, entry) in entries.iter().enumerate() {
        push_sign(alloc, color, rows, top, number, entry, items)?;
    }
    Ok(())
}

/// Adds the labels of entries below a top.
pub fn push_labels(
    alloc: Global,
    rows: &LegendRows,
    top: u8,
    entries: &[Entry],
    items: &mut Seq<Item>,
) -> Result<(), OutOfMemory>
    ensures { OnOk result (items.new ≡ items.old ++ map (label_item rows.now top) (enumerate_from 0 entries.now)) }
{
    for (number, entry) in entries.iter().enumerate() {
        items.push(label_item(alloc, rows, top, number, entry)?)?;
    }
    Ok(())
}

// The width of the widest label.
fn widest_label(entries: &[Entry]) -> u64
    ensures value { result ≡ widest 6 (labels_in entries.now) }
    ensures bound { result ≤ greatest_size }
{
    let mut most = 0;
    for entry in entries {
        most = text_width(entry.label.as_str(), LABEL_COLUMN).max(most);
    }
    most
}

/// How wide entries are, in pixels.
pub fn entries_width(rows: &LegendRows, entries: &[Entry]) -> u64
    ensures value { result ≡ entries_width rows.now entries.now }
    ensures bound { result ≤ 255 + greatest_size }
{
    match entries {
        [] => 0,
        [_, ..] => u64::from(rows.label) + widest_label(entries),
    }
}
