//! The forms of each shape.
ghost use Rattle.std.specs.Prelude.{◌≡◌, IfOk};
ghost use Rattle.vega_schema.specs.Shapes.{leaves, named, lists, objects, shapes};

use crate::codes::*;
use spec_schema::{Form, Shape};
use std::alloc::Global;
use text_kit::{OutOfMemory, Seq};

// The forms of shapes, each after the code of its shape.
macro_rules! forms {
    ($($code:ident $form:expr),* $(,)?) => {
        [$(Shape { code: $code, form: $form }),*]
    };
}

// Values that hold no others.
#[tactic(auto, unfolding(crate::specs::Shapes::leaves))]
fn leaves(alloc: Global) -> Result<Seq<Shape>, OutOfMemory>
    ensures { IfOk result (λ s. s ≡ leaves) }
{
    Seq::from_slice(
        alloc,
        &forms![
            FREE Form::Free,
            TEXT Form::Text,
            EXPRESSION Form::Text,
            SIZE_EXPRESSION Form::Text,
            LABEL_FORMAT Form::Text,
            FLAG Form::Flag,
            CELL Form::Cell,
            NUMBER Form::Number { least: LEAST, most: MOST },
            SPACE Form::Number { least: 0, most: 1_000_000_000 },
            SHARE Form::Number { least: 0, most: 1_000_000 },
            COUNT Form::Whole { least: 1_000_000, most: 1_000_000_000 },
            TICK_COUNT Form::Whole { least: 1_000_000, most: 100_000_000 },
            ANGLE Form::Number { least: 0, most: 0 },
            ANGLE Form::Number { least: -90_000_000, most: -90_000_000 },
            ANGLE Form::Number { least: 270_000_000, most: 270_000_000 },
            STEP Form::Number { least: 1, most: MOST },
            PARAMETER Form::Whole { least: 0, most: MOST },
            PARAMETER Form::Null,
            BOUND Form::Whole { least: LEAST, most: MOST },
            BOUND Form::Null,
            RANGE_NUMBER Form::Number { least: 0, most: 1_000_000_000_000 },
            SIZE Form::Number { least: 1, most: 10_000_000_000 },
            SIZE Form::Object(SIZE_SIGNAL),
        ],
    )
}

// Values that are one of some names, and ranges.
#[tactic(auto, unfolding(crate::specs::Shapes::named))]
fn named(alloc: Global) -> Result<Seq<Shape>, OutOfMemory>
    ensures { IfOk result (λ s. s ≡ named) }
{
    Seq::from_slice(
        alloc,
        &forms![
            AUTOSIZE Form::Name(AUTOSIZE_NAMES),
            FORMAT_TYPE Form::Name(FORMAT_NAMES),
            PARSE_KIND Form::Name(PARSE_NAMES),
            OPERATION Form::Name(OPERATION_NAMES),
            WINDOW_OPERATION Form::Name(WINDOW_NAMES),
            TIME_UNIT Form::Name(UNIT_NAMES),
            OFFSET Form::Name(OFFSET_NAMES),
            ORDER Form::Name(ORDER_NAMES),
            EVENTS Form::Name(EVENT_NAMES),
            HEADER Form::Name(HEADER_NAMES),
            HEADER Form::Null,
            SIDE Form::Name(SIDE_NAMES),
            EDGE Form::Name(EDGE_NAMES),
            CONTINUOUS_RANGE Form::Pair(RANGE_NUMBER),
            CONTINUOUS_RANGE Form::Name(CONTINUOUS_NAMES),
            DISCRETE_RANGE Form::Pair(RANGE_NUMBER),
            DISCRETE_RANGE Form::Name(DISCRETE_NAMES),
            ORDINAL_RANGE Form::List { least: 1, most: usize::MAX, items: RANGE_ITEM },
            ORDINAL_RANGE Form::Name(ORDINAL_NAMES),
            ANY_RANGE Form::List { least: 1, most: usize::MAX, items: RANGE_ITEM },
            ANY_RANGE Form::Name(RANGE_NAMES),
            RANGE_ITEM Form::Null,
            RANGE_ITEM Form::Flag,
            RANGE_ITEM Form::Number { least: 0, most: 1_000_000_000_000 },
            RANGE_ITEM Form::Text,
            RANGE_ITEM Form::Pair(NUMBER),
        ],
    )
}

// Lists, and what may be a list.
#[tactic(auto, unfolding(crate::specs::Shapes::lists))]
fn lists(alloc: Global) -> Result<Seq<Shape>, OutOfMemory>
    ensures { IfOk result (λ s. s ≡ lists) }
{
    Seq::from_slice(
        alloc,
        &forms![
            CELLS Form::List { least: 0, most: usize::MAX, items: CELL },
            TEXTS Form::List { least: 0, most: usize::MAX, items: TEXT },
            ONE_TEXT Form::List { least: 1, most: 1, items: TEXT },
            TWO_TEXTS Form::List { least: 2, most: 2, items: TEXT },
            TEXT_OR_TEXTS Form::Text,
            TEXT_OR_TEXTS Form::List { least: 0, most: usize::MAX, items: TEXT },
            TEXT_OR_NULL Form::Text,
            TEXT_OR_NULL Form::Null,
            TEXTS_OR_NULLS Form::List { least: 0, most: usize::MAX, items: TEXT_OR_NULL },
            OPERATIONS Form::List { least: 0, most: usize::MAX, items: OPERATION },
            WINDOW_OPERATIONS Form::List { least: 0, most: usize::MAX, items: WINDOW_OPERATION },
            PARAMETERS Form::List { least: 0, most: usize::MAX, items: PARAMETER },
            FRAME Form::List { least: 2, most: 2, items: BOUND },
            ORDERS Form::Name(ORDER_NAMES),
            ORDERS Form::List { least: 0, most: usize::MAX, items: ORDER },
            EXTENT Form::Pair(NUMBER),
            EXTENT Form::Object(EXTENT_SIGNAL),
            DOMAIN_ORDER Form::True,
            DOMAIN_ORDER Form::Object(DOMAIN_SORT),
            SCALE_DOMAIN Form::List { least: 0, most: usize::MAX, items: CELL },
            SCALE_DOMAIN Form::Object(DOMAIN),
            CHANNEL Form::Object(VALUE),
            CHANNEL Form::List { least: 0, most: usize::MAX, items: VALUE },
            WORDS_CHANNEL Form::Object(WORDS_VALUE),
            WORDS_CHANNEL Form::List { least: 0, most: usize::MAX, items: WORDS_VALUE },
            SIZE_CHANNEL Form::Object(SIZE_VALUE),
            SIZE_CHANNEL Form::List { least: 0, most: usize::MAX, items: SIZE_VALUE },
            DATA_LIST Form::List { least: 0, most: usize::MAX, items: DATA },
            TRANSFORMS Form::List { least: 0, most: usize::MAX, items: TRANSFORM },
            SIGNALS Form::List { least: 0, most: usize::MAX, items: SIGNAL },
            ON_LIST Form::List { least: 0, most: usize::MAX, items: ON },
            SCALES Form::List { least: 0, most: usize::MAX, items: SCALE },
            REFERENCES Form::List { least: 0, most: usize::MAX, items: REFERENCE },
            MARKS Form::List { least: 0, most: usize::MAX, items: MARK },
            HEADERS Form::List { least: 0, most: usize::MAX, items: HEADER },
            AXES Form::List { least: 0, most: usize::MAX, items: AXIS },
            LEGENDS Form::List { least: 0, most: usize::MAX, items: LEGEND },
        ],
    )
}

// Objects.
#[tactic(auto, unfolding(crate::specs::Shapes::objects))]
fn objects(alloc: Global) -> Result<Seq<Shape>, OutOfMemory>
    ensures { IfOk result (λ s. s ≡ objects) }
{
    Seq::from_slice(
        alloc,
        &forms![
            TOP Form::Object(TOP),
            DATA Form::Object(DATA),
            FORMAT Form::Object(FORMAT),
            PARSE Form::Object(PARSE),
            TRANSFORM Form::Object(TRANSFORM),
            SORT Form::Object(SORT),
            EXTENT_SIGNAL Form::Object(EXTENT_SIGNAL),
            SIGNAL Form::Object(SIGNAL),
            ON Form::Object(ON),
            SCALE Form::Object(SCALE),
            DOMAIN Form::Object(DOMAIN),
            REFERENCE Form::Object(REFERENCE),
            DOMAIN_SORT Form::Object(DOMAIN_SORT),
            EXPRESSION_SIGNAL Form::Object(EXPRESSION_SIGNAL),
            MARK Form::Object(MARK),
            MARK_FROM Form::Object(MARK_FROM),
            GROUP_FROM Form::Object(GROUP_FROM),
            FACET Form::Object(FACET),
            CROSS Form::Object(CROSS),
            ENCODE Form::Object(ENCODE),
            CHANNELS Form::Object(CHANNELS),
            VALUE Form::Object(VALUE),
            WORDS_VALUE Form::Object(WORDS_VALUE),
            AXIS Form::Object(AXIS),
            LEGEND Form::Object(LEGEND),
            LAYOUT Form::Object(LAYOUT),
            SIZE_SIGNAL Form::Object(SIZE_SIGNAL),
            GROUP_ENCODE Form::Object(GROUP_ENCODE),
            GROUP_CHANNELS Form::Object(GROUP_CHANNELS),
            SIZE_VALUE Form::Object(SIZE_VALUE),
        ],
    )
}

/// The forms of all shapes.
pub fn shapes(alloc: Global) -> Result<Seq<Shape>, OutOfMemory>
    ensures { IfOk result (λ s. s ≡ shapes) }
{
    let mut out = leaves(alloc)?;
    out.append(named(alloc)?)?;
    out.append(lists(alloc)?)?;
    out.append(objects(alloc)?)?;
    Ok(out)
}
