// What names stand for.
ghost use Rattle.std.specs.Prelude.{◌≡◌};
ghost use Rattle.vl_building.specs.Names.{named_at, named_in, order_named, offset_named, format_kind_named, parse_kind_named, mark_type_named, align_named};
ghost use Rattle.vl_building.specs.Names.{baseline_named, interpolate_named, select_type_named, select_event_named, field_type_named, scheme_named};
ghost use Rattle.vl_building.specs.Names.{sharing_named, side_named, autosize_named};

use crate::words::{Word, word_in};
use json_exact::{Json, Member};
use tree_readers::{text_in, word_at};
use vl_spec::{
    Align, Autosize, Baseline, FieldType, FormatKind, Interpolate, MarkType, Offset, Order,
    ParseKind, Scheme, SelectEvent, SelectType, Sharing, Side,
};

/// What names stand for.
pub trait ByName: Sized {
    ghost use Rattle.std.specs.Prelude.{List, Option, ℕ};

    ghost named: { List ℕ → Option Self };

    /// What a name stands for.
    fn by_name(name: &str) -> Option<Self>
        ensures { result ≡ named name.now };
}

/// What the name under a name stands for.
pub fn named_at<T: ByName>(members: &[Member], name: &str) -> Option<T>
    ensures { result ≡ named_at T.named members.now name.now }
{
    T::by_name(word_at(members, name)?.as_str())
}

/// What a value that is a name stands for.
pub fn named_in<T: ByName>(tree: &Json) -> Option<T>
    ensures { result ≡ named_in T.named tree.now }
{
    T::by_name(text_in(tree)?.as_str())
}

// Directions.
const ORDERS: [Word<Order>; 2] = words![
    "ascending" Order::Ascending,
    "descending" Order::Descending,
];

impl ByName for Order {
    ghost named = { order_named };

    #[tactic(auto, unfolding(crate::specs::Names::order_named))]
    fn by_name(name: &str) -> Option<Order> {
        word_in(&ORDERS, name)
    }
}

// Where stacks begin.
const OFFSETS: [Word<Offset>; 3] = words![
    "zero" Offset::Zero,
    "normalize" Offset::Normalize,
    "center" Offset::Center,
];

impl ByName for Offset {
    ghost named = { offset_named };

    #[tactic(auto, unfolding(crate::specs::Names::offset_named))]
    fn by_name(name: &str) -> Option<Offset> {
        word_in(&OFFSETS, name)
    }
}

// Types of data files.
const FORMATS: [Word<FormatKind>; 2] = words![
    "json" FormatKind::Json,
    "csv" FormatKind::Csv,
];

impl ByName for FormatKind {
    ghost named = { format_kind_named };

    #[tactic(auto, unfolding(crate::specs::Names::format_kind_named))]
    fn by_name(name: &str) -> Option<FormatKind> {
        word_in(&FORMATS, name)
    }
}

// Readings of texts.
const PARSES: [Word<ParseKind>; 4] = words![
    "number" ParseKind::Number,
    "boolean" ParseKind::Boolean,
    "string" ParseKind::String,
    "date" ParseKind::Date,
];

impl ByName for ParseKind {
    ghost named = { parse_kind_named };

    #[tactic(auto, unfolding(crate::specs::Names::parse_kind_named))]
    fn by_name(name: &str) -> Option<ParseKind> {
        word_in(&PARSES, name)
    }
}

// Types of marks.
const MARK_TYPES: [Word<MarkType>; 10] = words![
    "bar" MarkType::Bar,
    "rect" MarkType::Rect,
    "point" MarkType::Point,
    "circle" MarkType::Circle,
    "square" MarkType::Square,
    "line" MarkType::Line,
    "area" MarkType::Area,
    "tick" MarkType::Tick,
    "rule" MarkType::Rule,
    "text" MarkType::Text,
];

impl ByName for MarkType {
    ghost named = { mark_type_named };

    #[tactic(auto, unfolding(crate::specs::Names::mark_type_named))]
    fn by_name(name: &str) -> Option<MarkType> {
        word_in(&MARK_TYPES, name)
    }
}

// Where texts are anchored.
const ALIGNS: [Word<Align>; 3] = words![
    "left" Align::Left,
    "center" Align::Center,
    "right" Align::Right,
];

impl ByName for Align {
    ghost named = { align_named };

    #[tactic(auto, unfolding(crate::specs::Names::align_named))]
    fn by_name(name: &str) -> Option<Align> {
        word_in(&ALIGNS, name)
    }
}

// Where the baselines of texts are.
const BASELINES: [Word<Baseline>; 4] = words![
    "top" Baseline::Top,
    "middle" Baseline::Middle,
    "bottom" Baseline::Bottom,
    "alphabetic" Baseline::Alphabetic,
];

impl ByName for Baseline {
    ghost named = { baseline_named };

    #[tactic(auto, unfolding(crate::specs::Names::baseline_named))]
    fn by_name(name: &str) -> Option<Baseline> {
        word_in(&BASELINES, name)
    }
}

// How the points of lines are joined.
const INTERPOLATES: [Word<Interpolate>; 1] = words![
    "linear" Interpolate::Linear,
];

impl ByName for Interpolate {
    ghost named = { interpolate_named };

    #[tactic(auto, unfolding(crate::specs::Names::interpolate_named))]
    fn by_name(name: &str) -> Option<Interpolate> {
        word_in(&INTERPOLATES, name)
    }
}

// Types of selections.
const SELECT_TYPES: [Word<SelectType>; 2] = words![
    "point" SelectType::Point,
    "interval" SelectType::Interval,
];

impl ByName for SelectType {
    ghost named = { select_type_named };

    #[tactic(auto, unfolding(crate::specs::Names::select_type_named))]
    fn by_name(name: &str) -> Option<SelectType> {
        word_in(&SELECT_TYPES, name)
    }
}

/// The event that sets a selection of a type, under a name.
pub fn select_event_at(members: &[Member], type_: SelectType, name: &str) -> Option<SelectEvent>
    ensures { result ≡ named_at (select_event_named type_) members.now name.now }
{
    let event = word_at(members, name)?.as_str();
    match type_ {
        SelectType::Point => word_in(&POINT_EVENTS, event),
        SelectType::Interval => word_in(&INTERVAL_EVENTS, event),
    }
}

// The event that sets a selection of points.
const POINT_EVENTS: [Word<SelectEvent>; 1] = words![
    "click" SelectEvent::Click,
];

// The event that sets a selection of intervals.
const INTERVAL_EVENTS: [Word<SelectEvent>; 1] = words![
    "[mousedown, mouseup] > mousemove" SelectEvent::Drag,
];

// Kinds of cells.
const FIELD_TYPES: [Word<FieldType>; 4] = words![
    "quantitative" FieldType::Quantitative,
    "temporal" FieldType::Temporal,
    "ordinal" FieldType::Ordinal,
    "nominal" FieldType::Nominal,
];

impl ByName for FieldType {
    ghost named = { field_type_named };

    #[tactic(auto, unfolding(crate::specs::Names::field_type_named))]
    fn by_name(name: &str) -> Option<FieldType> {
        word_in(&FIELD_TYPES, name)
    }
}

// Colour schemes.
const SCHEMES: [Word<Scheme>; 2] = words![
    "tableau10" Scheme::Tableau10,
    "blues" Scheme::Blues,
];

impl ByName for Scheme {
    ghost named = { scheme_named };

    #[tactic(auto, unfolding(crate::specs::Names::scheme_named))]
    fn by_name(name: &str) -> Option<Scheme> {
        word_in(&SCHEMES, name)
    }
}

// Whether views share a scale.
const SHARINGS: [Word<Sharing>; 2] = words![
    "shared" Sharing::Shared,
    "independent" Sharing::Independent,
];

impl ByName for Sharing {
    ghost named = { sharing_named };

    #[tactic(auto, unfolding(crate::specs::Names::sharing_named))]
    fn by_name(name: &str) -> Option<Sharing> {
        word_in(&SHARINGS, name)
    }
}

// Sides of a plot.
const SIDES: [Word<Side>; 4] = words![
    "left" Side::Left,
    "right" Side::Right,
    "top" Side::Top,
    "bottom" Side::Bottom,
];

impl ByName for Side {
    ghost named = { side_named };

    #[tactic(auto, unfolding(crate::specs::Names::side_named))]
    fn by_name(name: &str) -> Option<Side> {
        word_in(&SIDES, name)
    }
}

// How a picture's size is found.
const AUTOSIZES: [Word<Autosize>; 1] = words![
    "pad" Autosize::Pad,
];

impl ByName for Autosize {
    ghost named = { autosize_named };

    #[tactic(auto, unfolding(crate::specs::Names::autosize_named))]
    fn by_name(name: &str) -> Option<Autosize> {
        word_in(&AUTOSIZES, name)
    }
}
