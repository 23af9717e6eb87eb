// The looks of marks.
ghost use Rattle.std.specs.Prelude.{◌≡◌, ◌++◌, [], ◌∷◌, codes, map, unwrap_or, option_copied, if◌then◌else◌, IfOk, OnOk};
ghost use Rattle.std.specs.Option.{option_and_then};
ghost use Rattle.cell_value.specs.declared.cell.Cell.TheVariants as TheCell;
ghost use Rattle.vl_compose.specs.Shown.{unit_shown};
ghost use Rattle.unit_plan.specs.Branches.{covers};
ghost use Rattle.unit_plan.specs.Selections.{is_selection};
ghost use Rattle.unit_plan.specs.Looks.{scaled, look_of, look_way, fixed, looks_by, looks_at, said_in, type_of_mark, is_black, plain_color};
ghost use Rattle.unit_plan.specs.Looks.{color_said, default_color, is_light, plain_opacity, opacity_said, default_opacity, size_said};
ghost use Rattle.unit_plan.specs.Looks.{default_size, is_filled, is_stroked, is_rule, plain_width, width_said, stroked, line_width};
ghost use Rattle.unit_plan.specs.Looks.{color_in, opacity_in, size_in, sign_in};
ghost use Rattle.unit_plan.specs.inner.Lent.{branch_shown, branches_shown};

use crate::branches::BranchHere;
use crate::cells::cell_of;
use crate::ends::{covers, tests_beside};
use crate::groups::aggregates;
use crate::lanes::branches_at;
use crate::seen::{ScaleSeen, seen_at};
use crate::selections::SelectionNames;
use cell_value::Cell;
use fixed_num::Num;
use plan_kit::{Look, LookWay, millionths, number_or};
use std::alloc::Global;
use text_kit::{Copies, OutOfMemory, Seq, Text};
use vl_compose::UnitHere;
use vl_normalize::{COLOR, OPACITY, SHAPE, SIZE};
use vl_spec::{Definition, Mark, MarkDefinition, MarkType};

// What a channel's scale gives for the cell of a definition.
fn scaled(
    alloc: Global,
    channel: u16,
    scale: &Option<ScaleSeen>,
    definition: &Definition,
) -> Result<Look, OutOfMemory>
    ensures { IfOk result (λ look. look ≡ scaled channel scale.now definition.now) }
{
    match scale {
        Some(scale) => Ok(Look::OnScale(scale.number, cell_of(alloc, channel, definition)?)),
        None => Ok(Look::Written(Cell::Null)),
    }
}

// What a definition of a channel shows.
fn look_of(
    alloc: Global,
    channel: u16,
    scale: &Option<ScaleSeen>,
    definition: &Definition,
) -> Result<Look, OutOfMemory>
    ensures { IfOk result (λ look. look ≡ look_of channel scale.now definition.now) }
{
    match definition {
        Definition::Value(cell) => cell.copied(alloc).map(Look::Written),
        Definition::Datum(_) | Definition::Field(_) => scaled(alloc, channel, scale, definition),
    }
}

// What a branch shows.
fn look_way(
    alloc: Global,
    names: &SelectionNames,
    channel: u16,
    scale: &Option<ScaleSeen>,
    branch: &BranchHere,
) -> Result<LookWay, OutOfMemory>
    ensures { IfOk result (λ way. way ≡ look_way (is_selection names.now.params.now) channel scale.now (branch_shown branch.now)) }
{
    let gives = look_of(alloc, channel, scale, branch.shows)?;
    let (gives, test) = tests_beside(alloc, names, gives, branch)?;
    Ok(LookWay { test, gives })
}

// Adds what branches show.
fn push_looks(
    alloc: Global,
    names: &SelectionNames,
    channel: u16,
    scale: &Option<ScaleSeen>,
    branches: &[BranchHere],
    out: &mut Seq<LookWay>,
) -> Result<(), OutOfMemory>
    ensures { OnOk result (out.new
        ≡ out.old ++ map (look_way (is_selection names.now.params.now) channel scale.now) (branches_shown branches.now)) }
{
    for branch in branches {
        out.push(look_way(alloc, names, channel, scale, branch)?)?;
    }
    Ok(())
}

// A look that is written.
fn fixed(cell: Cell) -> LookWay
    ensures { result ≡ fixed cell }
{
    LookWay {
        test: None,
        gives: Look::Written(cell),
    }
}

// Adds a default where no branch counts for each row.
fn push_default(
    default: Cell,
    branches: &[BranchHere],
    out: &mut Seq<LookWay>,
) -> Result<(), OutOfMemory>
    ensures { OnOk result (out.new ≡ out.old ++ (if covers (branches_shown branches.now) then [] else fixed default ∷ [])) }
{
    if covers(branches) {
        Ok(())
    } else {
        out.push(fixed(default))
    }
}

// The looks of some branches, and a default where none counts.
fn looks_by(
    alloc: Global,
    names: &SelectionNames,
    channel: u16,
    scale: &Option<ScaleSeen>,
    default: Cell,
    branches: &[BranchHere],
) -> Result<Seq<LookWay>, OutOfMemory>
    ensures { IfOk result (λ looks. looks ≡ looks_by (is_selection names.now.params.now) channel scale.now default (branches_shown branches.now)) }
{
    let mut out = Seq::new(alloc);
    push_looks(alloc, names, channel, scale, branches, &mut out)?;
    push_default(default, branches, &mut out)?;
    Ok(out)
}

// Those of a channel of a unit.
fn looks_at(
    alloc: Global,
    names: &SelectionNames,
    unit: &UnitHere,
    scales: &[ScaleSeen],
    channel: u16,
    default: Cell,
) -> Result<Seq<LookWay>, OutOfMemory>
    ensures { IfOk result (λ looks. looks ≡ looks_at (is_selection names.now.params.now) (unit_shown unit.now) scales.now channel default) }
{
    let branches = branches_at(alloc, unit.channels.as_slice(), channel)?;
    looks_by(
        alloc,
        names,
        channel,
        &seen_at(scales, channel),
        default,
        branches.as_slice(),
    )
}

/// What a mark says besides its type.
pub(crate) fn said_in(mark: &Option<Mark>) -> Option<&MarkDefinition>
    ensures { option_copied result ≡ option_and_then said_in mark.now }
{
    match mark {
        Some(Mark::Definition(of)) => Some(of),
        Some(Mark::Type(_)) => None,
        None => None,
    }
}

/// The type of a mark.
pub(crate) fn type_of_mark(mark: &Option<Mark>) -> MarkType
    ensures { result ≡ type_of_mark mark.now }
{
    match mark {
        Some(Mark::Type(type_)) => *type_,
        Some(Mark::Definition(of)) => of.type_,
        None => MarkType::Point,
    }
}

// Whether a mark is black by itself.
fn is_black(type_: MarkType) -> bool
    ensures { result ≡ is_black type_ }
{
    match type_ {
        MarkType::Rule | MarkType::Text => true,
        MarkType::Bar
        | MarkType::Rect
        | MarkType::Point
        | MarkType::Circle
        | MarkType::Square
        | MarkType::Line
        | MarkType::Area
        | MarkType::Tick => false,
    }
}

// The colour of a mark that says none.
fn plain_color(type_: MarkType) -> &'static str
    ensures { result.now ≡ plain_color type_ }
{
    if is_black(type_) { "#000" } else { "#4c78a8" }
}

// The colour that a mark says.
fn color_said(said: Option<&MarkDefinition>) -> Option<&Text>
    ensures { option_copied result ≡ color_said (option_copied said.entry) }
{
    match said {
        Some(of) => of.color.as_ref(),
        None => None,
    }
}

// A colour that may be said, or else another.
fn color_or(alloc: Global, said: Option<&Text>, otherwise: &str) -> Result<Cell, OutOfMemory>
    ensures { IfOk result (λ cell. cell ≡ TheCell.Text (unwrap_or (option_copied said.entry) otherwise.now)) }
{
    match said {
        Some(color) => color.copy().map(Cell::Text),
        None => Text::of(alloc, otherwise).map(Cell::Text),
    }
}

// The default colour of a unit.
fn default_color(alloc: Global, unit: &UnitHere) -> Result<Cell, OutOfMemory>
    ensures { IfOk result (λ cell. cell ≡ default_color (unit_shown unit.now)) }
{
    color_or(
        alloc,
        color_said(said_in(unit.mark)),
        plain_color(type_of_mark(unit.mark)),
    )
}

// Whether a mark lets others be seen through it.
fn is_light(type_: MarkType) -> bool
    ensures { result ≡ is_light type_ }
{
    match type_ {
        MarkType::Point | MarkType::Circle | MarkType::Square | MarkType::Tick => true,
        MarkType::Bar
        | MarkType::Rect
        | MarkType::Line
        | MarkType::Area
        | MarkType::Rule
        | MarkType::Text => false,
    }
}

// The opacity of a mark that says none.
fn plain_opacity(aggregated: bool, type_: MarkType) -> Num
    ensures { result ≡ plain_opacity aggregated type_ }
{
    if is_light(type_) && !aggregated {
        millionths(700_000)
    } else {
        millionths(1_000_000)
    }
}

// The opacity that a mark says.
fn opacity_said(said: Option<&MarkDefinition>) -> Option<Num>
    ensures { result ≡ opacity_said (option_copied said.entry) }
{
    match said {
        Some(of) => of.opacity,
        None => None,
    }
}

// The default opacity of a unit.
fn default_opacity(alloc: Global, unit: &UnitHere) -> Result<Cell, OutOfMemory>
    ensures { IfOk result (λ cell. cell ≡ default_opacity (unit_shown unit.now)) }
{
    let plain = plain_opacity(aggregates(alloc, unit)?, type_of_mark(unit.mark));
    Ok(Cell::Number(number_or(opacity_said(said_in(unit.mark)), plain)))
}

// The size that a mark says.
fn size_said(said: Option<&MarkDefinition>) -> Option<Num>
    ensures { result ≡ size_said (option_copied said.entry) }
{
    match said {
        Some(of) => of.size,
        None => None,
    }
}

// The default size of a unit.
fn default_size(unit: &UnitHere) -> Cell
    ensures { result ≡ default_size (unit_shown unit.now) }
{
    Cell::Number(number_or(size_said(said_in(unit.mark)), millionths(30_000_000)))
}

// Whether the mark says that it is filled.
fn is_filled(said: Option<&MarkDefinition>) -> bool
    ensures { result ≡ is_filled (option_copied said.entry) }
{
    match said {
        Some(of) => matches!(of.filled, Some(true)),
        None => false,
    }
}

// Whether the colour is that of a line.
fn is_stroked(type_: MarkType, filled: bool) -> bool
    ensures { result ≡ is_stroked type_ filled }
{
    match type_ {
        MarkType::Point => !filled,
        MarkType::Line | MarkType::Rule => true,
        MarkType::Bar
        | MarkType::Rect
        | MarkType::Circle
        | MarkType::Square
        | MarkType::Area
        | MarkType::Tick
        | MarkType::Text => false,
    }
}

/// Whether the colour of a unit is that of a line.
pub(crate) fn stroked(unit: &UnitHere) -> bool
    ensures { result ≡ stroked (unit_shown unit.now) }
{
    is_stroked(type_of_mark(unit.mark), is_filled(said_in(unit.mark)))
}

// Whether a mark is a rule.
fn is_rule(type_: MarkType) -> bool
    ensures { result ≡ is_rule type_ }
{
    matches!(type_, MarkType::Rule)
}

// How wide the line of a mark is that says nothing of it.
fn plain_width(type_: MarkType) -> Num
    ensures { result ≡ plain_width type_ }
{
    if is_rule(type_) {
        millionths(1_000_000)
    } else {
        millionths(2_000_000)
    }
}

// How wide the mark says that it is.
fn width_said(said: Option<&MarkDefinition>) -> Option<Num>
    ensures { result ≡ width_said (option_copied said.entry) }
{
    match said {
        Some(of) => of.stroke_width,
        None => None,
    }
}

/// How wide the line of a unit is, if it has one.
pub(crate) fn line_width(unit: &UnitHere) -> Option<Num>
    ensures { result ≡ line_width (unit_shown unit.now) }
{
    if stroked(unit) {
        Some(number_or(
            width_said(said_in(unit.mark)),
            plain_width(type_of_mark(unit.mark)),
        ))
    } else {
        None
    }
}

/// The colours of a unit.
pub(crate) fn color_in(
    alloc: Global,
    names: &SelectionNames,
    unit: &UnitHere,
    scales: &[ScaleSeen],
) -> Result<Seq<LookWay>, OutOfMemory>
    ensures { IfOk result (λ looks. looks ≡ color_in (is_selection names.now.params.now) (unit_shown unit.now) scales.now) }
{
    let default = default_color(alloc, unit)?;
    looks_at(alloc, names, unit, scales, COLOR, default)
}

/// Its opacities.
pub(crate) fn opacity_in(
    alloc: Global,
    names: &SelectionNames,
    unit: &UnitHere,
    scales: &[ScaleSeen],
) -> Result<Seq<LookWay>, OutOfMemory>
    ensures { IfOk result (λ looks. looks ≡ opacity_in (is_selection names.now.params.now) (unit_shown unit.now) scales.now) }
{
    let default = default_opacity(alloc, unit)?;
    looks_at(alloc, names, unit, scales, OPACITY, default)
}

/// Its sizes.
pub(crate) fn size_in(
    alloc: Global,
    names: &SelectionNames,
    unit: &UnitHere,
    scales: &[ScaleSeen],
) -> Result<Seq<LookWay>, OutOfMemory>
    ensures { IfOk result (λ looks. looks ≡ size_in (is_selection names.now.params.now) (unit_shown unit.now) scales.now) }
{
    looks_at(alloc, names, unit, scales, SIZE, default_size(unit))
}

// A text as a cell.
fn word(alloc: Global, text: &str) -> Result<Cell, OutOfMemory>
    ensures { IfOk result (λ cell. cell ≡ TheCell.Text text.now) }
{
    Text::of(alloc, text).map(Cell::Text)
}

// A sign that is written, as the only one.
fn one_sign(alloc: Global, text: &str) -> Result<Seq<LookWay>, OutOfMemory>
    ensures { IfOk result (λ looks. looks ≡ fixed (TheCell.Text text.now) ∷ []) }
{
    let cell = word(alloc, text)?;
    let mut out = Seq::new(alloc);
    out.push(fixed(cell))?;
    Ok(out)
}

// The signs of points.
fn point_signs(
    alloc: Global,
    names: &SelectionNames,
    unit: &UnitHere,
    scales: &[ScaleSeen],
) -> Result<Seq<LookWay>, OutOfMemory>
    ensures { IfOk result (λ looks. looks
        ≡ looks_at (is_selection names.now.params.now) (unit_shown unit.now) scales.now SHAPE (TheCell.Text (codes "circle"))) }
{
    let default = word(alloc, "circle")?;
    looks_at(alloc, names, unit, scales, SHAPE, default)
}

/// Its signs.
pub(crate) fn sign_in(
    alloc: Global,
    names: &SelectionNames,
    unit: &UnitHere,
    scales: &[ScaleSeen],
) -> Result<Seq<LookWay>, OutOfMemory>
    ensures { IfOk result (λ looks. looks ≡ sign_in (is_selection names.now.params.now) (unit_shown unit.now) scales.now) }
{
    match type_of_mark(unit.mark) {
        MarkType::Point => point_signs(alloc, names, unit, scales),
        MarkType::Circle => one_sign(alloc, "circle"),
        MarkType::Square => one_sign(alloc, "square"),
        MarkType::Bar
        | MarkType::Rect
        | MarkType::Line
        | MarkType::Area
        | MarkType::Tick
        | MarkType::Rule
        | MarkType::Text => Ok(Seq::new(alloc)),
    }
}
