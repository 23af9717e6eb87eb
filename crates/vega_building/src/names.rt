// What names stand for.
ghost use Rattle.std.specs.Prelude.{◌≡◌};
ghost use Rattle.std.specs.Option.{unwrap_or};
ghost use Rattle.vega_building.specs.Names.{named_at, named_in, order_named, order_of, format_kind_named, parse_kind_named, parse_kind_of};
ghost use Rattle.vega_building.specs.Names.{offset_named, selector_named, mark_type_named, header_named, side_named, edge_named, autosize_named};

use crate::parts::Item;
use crate::words::{Word, word_in};
use json_exact::{Json, Member};
use std::alloc::Global;
use text_kit::OutOfMemory;
use tree_readers::{text_in, word_at};
use vega_spec::{
    Autosize, Edge, EventSelector, FormatKind, Header, MarkType, Offset, Order, ParseKind, Side,
};

/// What names stand for.
pub trait ByName: Sized {
    ghost use Rattle.std.specs.Prelude.{List, Option, ℕ};

    ghost named: { List ℕ → Option Self };

    /// What a name stands for.
    fn by_name(name: &str) -> Option<Self>
        ensures { result ≡ named name.now };
}

/// What the name under a name stands for.
pub fn named_at<T: ByName>(members: &[Member], name: &str) -> Option<T>
    ensures { result ≡ named_at T.named members.now name.now }
{
    T::by_name(word_at(members, name)?.as_str())
}

/// What an item that is a name stands for.
pub fn named_in<T: ByName>(tree: &Json) -> Option<T>
    ensures { result ≡ named_in T.named tree.now }
{
    T::by_name(text_in(tree)?.as_str())
}

/// What the name under a name stands for, or this where it stands for nothing.
pub fn named_or<T: ByName + Copy>(members: &[Member], name: &str, other: T) -> T
    ensures { result ≡ unwrap_or (named_at T.named members.now name.now) other }
{
    match named_at(members, name) {
        Some(value) => value,
        None => other,
    }
}

// Directions.
const ORDERS: [Word<Order>; 2] = words![
    "ascending" Order::Ascending,
    "descending" Order::Descending,
];

impl ByName for Order {
    ghost named = { order_named };

    fn by_name(name: &str) -> Option<Order> {
        word_in(&ORDERS, name)
    }
}

impl Item for Order {
    ghost item = { order_of };

    fn of_item(_: Global, tree: &Json) -> Result<Order, OutOfMemory> {
        match named_in(tree) {
            Some(order) => Ok(order),
            None => Ok(Order::Ascending),
        }
    }
}

// Types of data files.
const FORMATS: [Word<FormatKind>; 2] = words![
    "json" FormatKind::Json,
    "csv" FormatKind::Csv,
];

impl ByName for FormatKind {
    ghost named = { format_kind_named };

    fn by_name(name: &str) -> Option<FormatKind> {
        word_in(&FORMATS, name)
    }
}

// Readings of texts.
const PARSES: [Word<ParseKind>; 4] = words![
    "number" ParseKind::Number,
    "boolean" ParseKind::Boolean,
    "string" ParseKind::String,
    "date" ParseKind::Date,
];

impl ByName for ParseKind {
    ghost named = { parse_kind_named };

    fn by_name(name: &str) -> Option<ParseKind> {
        word_in(&PARSES, name)
    }
}

/// The reading of texts that an item names, as numbers where it names none.
pub fn parse_kind_of(tree: &Json) -> ParseKind
    ensures { result ≡ parse_kind_of tree.now }
{
    match named_in(tree) {
        Some(kind) => kind,
        None => ParseKind::Number,
    }
}

// Where stacks begin.
const OFFSETS: [Word<Offset>; 3] = words![
    "zero" Offset::Zero,
    "normalize" Offset::Normalize,
    "center" Offset::Center,
];

impl ByName for Offset {
    ghost named = { offset_named };

    fn by_name(name: &str) -> Option<Offset> {
        word_in(&OFFSETS, name)
    }
}

// Event selectors.
const SELECTORS: [Word<EventSelector>; 4] = words![
    "click" EventSelector::Click,
    "click[event.shiftKey]" EventSelector::ShiftClick,
    "dblclick" EventSelector::DoubleClick,
    "[mousedown, mouseup] > mousemove" EventSelector::Drag,
];

impl ByName for EventSelector {
    ghost named = { selector_named };

    fn by_name(name: &str) -> Option<EventSelector> {
        word_in(&SELECTORS, name)
    }
}

// Types of marks.
const MARK_TYPES: [Word<MarkType>; 7] = words![
    "rect" MarkType::Rect,
    "symbol" MarkType::Symbol,
    "line" MarkType::Line,
    "area" MarkType::Area,
    "rule" MarkType::Rule,
    "text" MarkType::Text,
    "group" MarkType::Group,
];

impl ByName for MarkType {
    ghost named = { mark_type_named };

    fn by_name(name: &str) -> Option<MarkType> {
        word_in(&MARK_TYPES, name)
    }
}

// Places of headers.
const HEADERS: [Word<Header>; 2] = words![
    "row" Header::Row,
    "column" Header::Column,
];

impl ByName for Header {
    ghost named = { header_named };

    fn by_name(name: &str) -> Option<Header> {
        word_in(&HEADERS, name)
    }
}

// Sides of a plot.
const SIDES: [Word<Side>; 4] = words![
    "left" Side::Left,
    "right" Side::Right,
    "top" Side::Top,
    "bottom" Side::Bottom,
];

impl ByName for Side {
    ghost named = { side_named };

    fn by_name(name: &str) -> Option<Side> {
        word_in(&SIDES, name)
    }
}

// Panels in which an axis stands alone.
const EDGES: [Word<Edge>; 2] = words![
    "last-row" Edge::LastRow,
    "first-column" Edge::FirstColumn,
];

impl ByName for Edge {
    ghost named = { edge_named };

    fn by_name(name: &str) -> Option<Edge> {
        word_in(&EDGES, name)
    }
}

// How a picture's size is found.
const AUTOSIZES: [Word<Autosize>; 1] = words![
    "pad" Autosize::Pad,
];

impl ByName for Autosize {
    ghost named = { autosize_named };

    fn by_name(name: &str) -> Option<Autosize> {
        word_in(&AUTOSIZES, name)
    }
}
