// Legends.
ghost use Rattle.std.specs.Prelude.{◌≡◌, ◌≤◌, ◌++◌, ◌↔◌, IsTrue, IsSome, IfOk, OnOk};
ghost use Rattle.guide_text.specs.Widths.{greatest_size};
ghost use Rattle.scale_kit.specs.Scale.{IsScale};
ghost use Rattle.guide_kit.specs.Answers.{Draws};
ghost use Rattle.guide_kit.specs.Signs.{sign_kind_of};
ghost use Rattle.guide_kit.specs.Legends.{title_height, title_items, block_width, block_height, block_with, legend_with, legend_of};

use crate::entries::{
    Entry, LegendRows, entries_of, entries_width, push_labels, push_signs, rows_of,
};
use crate::errors::GuideError;
use crate::items::{TITLE_COLUMN, title_style, words_at};
use crate::measures::pixels;
use crate::signs::{SignKind, sign_kind_of};
use fixed_num::Num;
use guide_text::text_width;
use scale_kit::Scale;
use scene_tree::{Anchor, Item};
use std::alloc::Global;
use text_kit::{OutOfMemory, Seq, Text};

/// The greatest width and height, in pixels.
const GREATEST_SIZE: u64 = 100_000_000_000;

/// What a legend shows.
#[derive(Debug, Drop)]
pub struct LegendOf {
    /// The code of its channel: color, opacity, shape or size.
    pub channel: u16,
    /// Its title.
    pub title: Option<Text>,
    /// The format of its labels.
    pub format: Option<Text>,
    /// The colour of signs that don't show one.
    pub colour: Text,
}

/// A legend, as items from its upper left corner.
#[derive(Debug, Drop)]
pub struct Block {
    /// Its title, all signs and then all labels.
    pub items: Seq<Item>,
    /// Its width, in pixels.
    pub width: Num,
    /// Its height, in pixels.
    pub height: Num,
}

// How high a title is with the space below it.
fn title_height(title: &Option<Text>) -> u8
    ensures { result ≡ title_height title.now }
{
    if title.is_some() { 15 } else { 0 }
}

// Adds the title of a legend.
fn push_title(alloc: Global, title: &Option<Text>, items: &mut Seq<Item>) -> Result<(), OutOfMemory>
    ensures { OnOk result (items.new ≡ items.old ++ title_items title.now) }
{
    match title {
        Some(text) => {
            let style = title_style(false, Anchor::Start);
            items.push(words_at(alloc, style, pixels(0), pixels(11), text.copy()?)?)
        }
        None => Ok(()),
    }
}

// The width of a legend.
fn block_width(title: &Option<Text>, rows: &LegendRows, entries: &[Entry]) -> u64
    ensures value { result ≡ block_width title.now rows.now entries.now }
    ensures bound { result ≤ greatest_size }
{
    let words = match title {
        Some(text) => text_width(text.as_str(), TITLE_COLUMN),
        None => 0,
    };
    words.max(entries_width(rows, entries)).min(GREATEST_SIZE)
}

// The height of a legend.
fn block_height(title: &Option<Text>, rows: &LegendRows, entries: &[Entry]) -> u64
    ensures value { result ≡ block_height title.now rows.now entries.now }
    ensures bound { result ≤ greatest_size }
{
    let below = u128::from(entries.len() as u64) * u128::from(rows.height);
    (u128::from(title_height(title)) + below).min(u128::from(GREATEST_SIZE)) as u64
}

// A legend with these entries.
fn block_with(
    alloc: Global,
    legend: &LegendOf,
    rows: &LegendRows,
    entries: &[Entry],
) -> Result<Block, OutOfMemory>
    ensures { IfOk result (λ block. block ≡ block_with legend.now rows.now entries.now) }
{
    let top = title_height(&legend.title);
    let mut items = Seq::new(alloc);
    push_title(alloc, &legend.title, &mut items)?;
    push_signs(
        alloc,
        legend.colour.as_str(),
        rows,
        top,
        entries,
        &mut items,
    )?;
    push_labels(alloc, rows, top, entries, &mut items)?;
    Ok(Block {
        items,
        width: pixels(block_width(&legend.title, rows, entries)),
        height: pixels(block_height(&legend.title, rows, entries)),
    })
}

// A legend with signs of a kind.
fn legend_with(
    alloc: Global,
    kind: SignKind,
    legend: &LegendOf,
    s: &Scale,
) -> Result<Block, GuideError>
    requires { IsScale s.now }
    ensures { Draws result (legend_with kind legend.now s.now) }
{
    let rows = rows_of(kind);
    let entries = entries_of(alloc, kind, s, &legend.format)?;
    Ok(block_with(alloc, legend, &rows, entries.as_slice())?)
}

/// Whether a channel by its code has legends: color, opacity, shape and size have.
pub fn has_legend(channel: u16) -> bool
    ensures { IsTrue result ↔ IsSome (sign_kind_of channel) }
{
    sign_kind_of(channel).is_some()
}

/// The legend of a scale, with an entry for each cell that its scale shows; where its sign can't be drawn it has its label alone. `Overflow`
/// exactly where a tick or its place is out of range.
pub fn legend_of(alloc: Global, legend: &LegendOf, s: &Scale) -> Result<Block, GuideError>
    requires scale { IsScale s.now }
    requires channel { IsSome (sign_kind_of legend.now.channel) }
    ensures { Draws result (legend_of legend.now s.now) }
{
    match sign_kind_of(legend.channel) {
        Some(kind) => legend_with(alloc, kind, legend, s),
        None => unreachable!(),
    }
}
