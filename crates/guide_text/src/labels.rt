// Labels of cells.
ghost use Rattle.std.specs.Prelude.{◌≡◌, ◌≤◌, IsTrue, IfSome, IfOk};
ghost use Rattle.time_calc.specs.Instants.{stands_for_instant};
ghost use Rattle.scale_kit.specs.Places.{the_number, the_instant};
ghost use Rattle.guide_text.specs.Formats.{number_format_of};
ghost use Rattle.guide_text.specs.Labels.{plain_label, own_decimals, number_labelled, pattern_labelled, labelled_by, label_of};

use crate::formats::{NumberFormat, number_format_of};
use crate::numbers::formatted;
use cell_value::Cell;
use fixed_num::Num;
use std::alloc::Global;
use text_kit::{OutOfMemory, Text};
use tick_kit::{number_label, time_label};
use time_calc::{LabelError, label};

/// The first instant in range, in millionths of a millisecond since 1970.
const FIRST_INSTANT: i128 = -62_135_596_800_000_000_000;

/// The last.
const LAST_INSTANT: i128 = 253_370_764_799_999_000_000;

/// What the labels of a guide show.
#[derive(Clone, Copy, Debug, PartialEq, Eq)]
pub enum Shows {
    /// Numbers, with so many decimals, at most 6.
    Numbers(u32),
    /// Instants, which a number format labels with so many decimals, at most 6.
    Instants(u32),
    /// The cells of a list.
    Cells,
}

// The number in a cell; None where it is none.
fn the_number(v: &Cell) -> Option<Num>
    ensures { result ≡ the_number v.now }
{
    match v {
        Cell::Number(n) => Some(*n),
        Cell::Null | Cell::Flag(_) | Cell::Text(_) | Cell::Pair(..) => None,
    }
}

// Whether a number stands for an instant in range.
fn is_instant(n: Num) -> bool
    ensures { result ≡ stands_for_instant n }
{
    FIRST_INSTANT <= n.millionths() && n.millionths() <= LAST_INSTANT
}

// The instant in range for which a cell stands; None where it stands for none.
fn the_instant(v: &Cell) -> Option<Num>
    ensures value { result ≡ the_instant v.now }
    ensures instant { IfSome result (λ n. IsTrue (stands_for_instant n)) }
{
    let n = the_number(v)?;
    if is_instant(n) { Some(n) } else { None }
}

// The decimals that the labels have of their own.
fn own_decimals(shows: Shows) -> Option<u32>
    ensures { result ≡ own_decimals shows }
{
    match shows {
        Shows::Numbers(decimals) => Some(decimals),
        Shows::Instants(decimals) => Some(decimals),
        Shows::Cells => None,
    }
}

// The label of a cell without a format.
fn plain_label(alloc: Global, shows: Shows, v: &Cell) -> Result<Text, OutOfMemory>
    requires { IfSome (own_decimals shows) (λ n. n ≤ 6) }
    ensures { IfOk result (λ text. text ≡ plain_label shows v.now) }
{
    match shows {
        Shows::Numbers(decimals) => match the_number(v) {
            Some(n) => number_label(alloc, n, decimals),
            None => v.display(alloc),
        },
        Shows::Instants(_) => match the_instant(v) {
            Some(n) => time_label(alloc, n),
            None => v.display(alloc),
        },
        Shows::Cells => v.display(alloc),
    }
}

// The label of a cell by a number format.
fn number_labelled(
    alloc: Global,
    format: &NumberFormat,
    shows: Shows,
    v: &Cell,
) -> Result<Text, OutOfMemory>
    requires named { IfSome format.now.decimals (λ n. n ≤ 6) }
    requires own { IfSome (own_decimals shows) (λ n. n ≤ 6) }
    ensures { IfOk result (λ text. text ≡ number_labelled format.now shows v.now) }
{
    match the_number(v) {
        Some(n) => formatted(alloc, format, own_decimals(shows), n),
        None => v.display(alloc),
    }
}

// The label of a cell by a pattern.
fn pattern_labelled(alloc: Global, pattern: &str, v: &Cell) -> Result<Text, OutOfMemory>
    ensures { IfOk result (λ text. text ≡ pattern_labelled pattern.now v.now) }
{
    let Some(n) = the_number(v) else {
        return v.display(alloc);
    };
    match label(alloc, n, pattern) {
        Ok(text) => Ok(text),
        Err(LabelError::Memory) => Err(OutOfMemory),
        Err(LabelError::Pattern) => v.display(alloc),
        Err(LabelError::Instant) => v.display(alloc),
    }
}

// The label of a cell by a format.
fn labelled_by(alloc: Global, format: &str, shows: Shows, v: &Cell) -> Result<Text, OutOfMemory>
    requires { IfSome (own_decimals shows) (λ n. n ≤ 6) }
    ensures { IfOk result (λ text. text ≡ labelled_by (number_format_of format.now) format.now shows v.now) }
{
    match number_format_of(format) {
        Some(numbers) => number_labelled(alloc, &numbers, shows, v),
        None => pattern_labelled(alloc, format, v),
    }
}

/// The label of a cell. A number format labels numbers, any other format is a pattern of labels of instants in range; what these don't
/// label is displayed. Without a format a number has the decimals of the labels, with `,` between thousands, an instant is labelled by
/// the greatest unit that it doesn't begin, and every other cell, and each cell of a list, is displayed.
#[tactic(auto, unfolding(crate::specs::Labels::label_of))]
pub fn label_of(
    alloc: Global,
    shows: Shows,
    format: &Option<Text>,
    v: &Cell,
) -> Result<Text, OutOfMemory>
    requires { IfSome (own_decimals shows) (λ n. n ≤ 6) }
    ensures { IfOk result (λ text. text ≡ label_of shows format.now v.now) }
{
    match format {
        Some(format) => labelled_by(alloc, format.as_str(), shows, v),
        None => plain_label(alloc, shows, v),
    }
}
