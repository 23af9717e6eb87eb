// The selections of a chart.
ghost use Rattle.std.specs.Prelude.{◌≡◌, ◌++◌, [], map, option_map, option_to_list, IfOk, OnOk};
ghost use Rattle.std.specs.Option.{option_and_then, option_map_or};
ghost use Rattle.std.specs.List.{filter_map, flat_map};
ghost use Rattle.vl_compose.specs.Shown.{unit_shown};
ghost use Rattle.guide_infer.specs.First.{first_given};
ghost use Rattle.chart_plan.specs.Selections.{type_in, is_interval, if_some, fields_said, channels_said, first_name, id_names};
ghost use Rattle.chart_plan.specs.Selections.{default_names, unit_names, point_names, clicked, drag_channels, dragged, kept_with, drag_in};
ghost use Rattle.chart_plan.specs.Selections.{selections_of};
ghost use Rattle.chart_plan.specs.inner.Marked.{unit_there, number_at, numbers_at, first_at, number_there, drags_numbered, drags_along};
ghost use Rattle.chart_plan.specs.inner.Marked.{plan_at, plan_marked, param_marked, all_marked};

use crate::drags::{drag_channels, dragged};
use crate::kept::names_of_channels;
use crate::marked::{marks_of, places_of};
use crate::plots::number_in;
use crate::shown::small;
use guide_infer::each_once;
use plan_kit::{DragPlan, PlotPlan, ScalePlan, SelectionPlan};
use selection_events::SelectionOf;
use std::alloc::Global;
use text_kit::{Copies, OutOfMemory, Seq, Text};
use unit_plan::{ScaleSeen, group_names, seen_at};
use vl_compose::UnitHere;
use vl_spec::{ParamKind, ParamOf, Select, SelectType, Selection};

// The type of a selection.
pub(crate) fn type_in(select: &Select) -> SelectType
    ensures { result ≡ type_in select.now }
{
    match select {
        Select::Type(type_) => *type_,
        Select::Definition(of) => of.type_,
    }
}

// Whether it is an interval.
pub(crate) fn is_interval(type_: SelectType) -> bool
    ensures { result ≡ is_interval type_ }
{
    match type_ {
        SelectType::Point => false,
        SelectType::Interval => true,
    }
}

// A list that isn't empty.
fn if_some<T>(list: &Option<Seq<T>>) -> Option<&Seq<T>>
    ensures { option_map (λ xs. xs.now) result ≡ option_and_then if_some list.now }
{
    match list {
        Some(items) => { if items.is_empty() { None } else { Some(items) } }
        None => None,
    }
}

// The fields that a selection names.
fn fields_said(select: &Select) -> Option<&Seq<Text>>
    ensures { option_map (λ xs. xs.now) result ≡ fields_said select.now }
{
    match select {
        Select::Type(_) => None,
        Select::Definition(of) => if_some(&of.fields),
    }
}

// The channels that it names.
pub(crate) fn channels_said(select: &Select) -> Option<&Seq<u16>>
    ensures { option_map (λ xs. xs.now) result ≡ channels_said select.now }
{
    match select {
        Select::Type(_) => None,
        Select::Definition(of) => if_some(&of.encodings),
    }
}

// The first of some names.
pub(crate) fn first_name(names: &[Text]) -> Option<&Text>
    ensures { option_map (λ n. n.now) result ≡ first_name names.now }
{
    match names {
        [first, ..] => Some(first),
        [] => None,
    }
}

// The name of the number of a row.
fn id_names(alloc: Global) -> Result<Seq<Text>, OutOfMemory>
    ensures { IfOk result (λ names. names ≡ id_names) }
{
    let mut names = Seq::new(alloc);
    names.push(Text::of(alloc, "_vgsid_")?)?;
    Ok(names)
}

// What is kept of a unit where nothing is said.
fn default_names(alloc: Global, unit: &UnitHere) -> Result<Seq<Text>, OutOfMemory>
    ensures { IfOk result (λ names. names ≡ default_names (unit_shown unit.now)) }
{
    match group_names(alloc, unit)? {
        Some(names) => Ok(names),
        None => id_names(alloc),
    }
}

// What is kept of a unit where no fields are said.
#[tactic(auto, unfolding(crate::specs::Selections::unit_names))]
fn unit_names(alloc: Global, select: &Select, unit: &UnitHere) -> Result<Seq<Text>, OutOfMemory>
    ensures { IfOk result (λ names. names ≡ unit_names select.now (unit_shown unit.now)) }
{
    match channels_said(select) {
        Some(codes) => names_of_channels(alloc, false, unit, codes.as_slice()),
        None => default_names(alloc, unit),
    }
}

// The unit at a place.
fn unit_at<'a, 's>(units: &'a [UnitHere<'s>], place: usize) -> Option<&'a UnitHere<'s>>
    ensures { option_map (λ u. unit_shown u.now) result ≡ unit_there units.now place }
{
    units.get(place)
}

// The first unit at some places.
pub(crate) fn first_unit<'a, 's>(
    units: &'a [UnitHere<'s>],
    places: &[usize],
) -> Option<&'a UnitHere<'s>>
    ensures { option_map (λ u. unit_shown u.now) result ≡ first_at (unit_there units.now) places.now }
{
    for place in places {
        match unit_at(units, *place) {
            Some(unit) => return Some(unit),
            None => {}
        }
    }
    None
}

// What is kept of the first unit at some places, where no fields are said.
fn first_names(
    alloc: Global,
    select: &Select,
    units: &[UnitHere],
    places: &[usize],
) -> Result<Seq<Text>, OutOfMemory>
    ensures { IfOk result (λ names. names ≡ option_map_or (unit_names select.now) (first_at (unit_there units.now) places.now) id_names) }
{
    match first_unit(units, places) {
        Some(unit) => unit_names(alloc, select, unit),
        None => id_names(alloc),
    }
}

// What a point keeps.
fn point_names(
    alloc: Global,
    select: &Select,
    units: &[UnitHere],
    places: &[usize],
) -> Result<Seq<Text>, OutOfMemory>
    ensures { IfOk result (λ names. names ≡ point_names select.now (first_at (unit_there units.now) places.now)) }
{
    match fields_said(select) {
        Some(fields) => Copies::copied(fields, alloc),
        None => first_names(alloc, select, units, places),
    }
}

// What is kept on a click.
fn clicked(
    alloc: Global,
    select: &Select,
    units: &[UnitHere],
    places: &[usize],
) -> Result<Option<Seq<Text>>, OutOfMemory>
    ensures { IfOk result (λ names. names ≡ clicked select.now (first_at (unit_there units.now) places.now)) }
{
    if is_interval(type_in(select)) {
        Ok(None)
    } else {
        let names = point_names(alloc, select, units, places)?;
        each_once(alloc, names.as_slice()).map(Some)
    }
}

// Adds the number of the unit at a place.
fn push_number_at(units: &[UnitHere], place: usize, out: &mut Seq<u32>) -> Result<(), OutOfMemory>
    ensures { OnOk result (out.new ≡ out.old ++ option_to_list (number_at (unit_there units.now) place)) }
{
    match units.get(place) {
        Some(unit) => out.push(small(unit.number)?),
        None => Ok(()),
    }
}

// The numbers of the units at some places.
fn numbers_at(alloc: Global, units: &[UnitHere], places: &[usize]) -> Result<Seq<u32>, OutOfMemory>
    ensures { IfOk result (λ out. out ≡ numbers_at (unit_there units.now) places.now) }
{
    let mut out = Seq::new(alloc);
    for place in places {
        push_number_at(units, *place, &mut out)?;
    }
    Ok(out)
}

// What a selection keeps of the units at some places.
fn kept_with(
    alloc: Global,
    name: &Text,
    select: &Select,
    units: &[UnitHere],
    places: &[usize],
) -> Result<SelectionOf, OutOfMemory>
    ensures { IfOk result (λ kept. kept
        ≡ kept_with name.now (numbers_at (unit_there units.now) places.now) select.now (first_at (unit_there units.now) places.now)) }
{
    let name = name.copy()?;
    let concerned = numbers_at(alloc, units, places)?;
    let click = clicked(alloc, select, units, places)?;
    let toggle = clicked(alloc, select, units, places)?;
    let drag = dragged(alloc, select, units, places)?;
    Ok(SelectionOf {
        name,
        units: concerned,
        click,
        toggle,
        clears: true,
        drag,
    })
}

// Adds a drag in a plot along a channel.
fn push_drag_in(
    plot: usize,
    seen: &[ScaleSeen],
    code: u16,
    out: &mut Seq<DragPlan>,
) -> Result<(), OutOfMemory>
    ensures { OnOk result (out.new ≡ out.old ++ option_to_list (drag_in plot seen.now code)) }
{
    match seen_at(seen, code) {
        Some(scale) => out.push(DragPlan {
            plot,
            channel: code,
            scale: scale.number,
        }),
        None => Ok(()),
    }
}

// Adds those along some channels.
fn push_drags_in(
    plot: usize,
    seen: &[ScaleSeen],
    codes: &[u16],
    out: &mut Seq<DragPlan>,
) -> Result<(), OutOfMemory>
    ensures { OnOk result (out.new ≡ out.old ++ filter_map (drag_in plot seen.now) codes.now) }
{
    for code in codes {
        push_drag_in(plot, seen, *code, out)?;
    }
    Ok(())
}

// Adds the drags of the unit of a number in a plot.
fn push_numbered(
    alloc: Global,
    scales: &[ScalePlan],
    codes: &[u16],
    plot: usize,
    number: usize,
    out: &mut Seq<DragPlan>,
) -> Result<(), OutOfMemory>
    ensures { OnOk result (out.new ≡ out.old ++ drags_numbered scales.now codes.now plot number) }
{
    let seen = crate::scales::seen_by(alloc, scales, number)?;
    push_drags_in(plot, seen.as_slice(), codes, out)
}

// The number of the unit at a place, if it is in a plot.
fn number_there(plot: usize, units: &[UnitHere], place: usize) -> Option<usize>
    ensures { result ≡ number_there plot (unit_there units.now) place }
{
    match units.get(place) {
        Some(unit) => number_in(plot, unit),
        None => None,
    }
}

// The number of the first unit in a plot among those at some places.
fn first_number(plot: usize, units: &[UnitHere], places: &[usize]) -> Option<usize>
    ensures { result ≡ first_given (number_there plot (unit_there units.now)) places.now }
{
    for place in places {
        match number_there(plot, units, *place) {
            Some(number) => return Some(number),
            None => {}
        }
    }
    None
}

// Adds the drags in a plot, of the first unit there among those at some places.
fn push_plot_drags(
    alloc: Global,
    units: &[UnitHere],
    scales: &[ScalePlan],
    places: &[usize],
    codes: &[u16],
    plot: &PlotPlan,
    out: &mut Seq<DragPlan>,
) -> Result<(), OutOfMemory>
    ensures { OnOk result (out.new ≡ out.old ++ drags_along scales.now (unit_there units.now) places.now codes.now plot.now) }
{
    match first_number(plot.number, units, places) {
        Some(number) => push_numbered(alloc, scales, codes, plot.number, number, out),
        None => Ok(()),
    }
}

// Those in all plots, plot after plot, along some channels.
fn all_drags(
    alloc: Global,
    units: &[UnitHere],
    scales: &[ScalePlan],
    plots: &[PlotPlan],
    places: &[usize],
    codes: &[u16],
) -> Result<Seq<DragPlan>, OutOfMemory>
    ensures { IfOk result (λ drags. drags ≡ flat_map (drags_along scales.now (unit_there units.now) places.now codes.now) plots.now) }
{
    let mut out = Seq::new(alloc);
    for plot in plots {
        push_plot_drags(alloc, units, scales, places, codes, plot, &mut out)?;
    }
    Ok(out)
}

// The drags of a selection in all plots, plot after plot.
fn drags_of_all(
    alloc: Global,
    units: &[UnitHere],
    scales: &[ScalePlan],
    plots: &[PlotPlan],
    places: &[usize],
    select: &Select,
) -> Result<Seq<DragPlan>, OutOfMemory>
    ensures { IfOk result (λ drags. drags ≡ flat_map (drags_along scales.now (unit_there units.now) places.now (drag_channels select.now)) plots.now) }
{
    let codes = drag_channels(alloc, select)?;
    all_drags(alloc, units, scales, plots, places, codes.as_slice())
}

// The selection of a name that concerns the units at some places.
fn plan_at(
    alloc: Global,
    units: &[UnitHere],
    scales: &[ScalePlan],
    plots: &[PlotPlan],
    places: &[usize],
    name: &Text,
    select: &Select,
) -> Result<SelectionPlan, OutOfMemory>
    ensures { IfOk result (λ plan. plan ≡ plan_at (unit_there units.now) scales.now plots.now places.now name.now select.now) }
{
    let kept = kept_with(alloc, name, select, units, places)?;
    let drags = drags_of_all(alloc, units, scales, plots, places, select)?;
    Ok(SelectionPlan { kept, drags })
}

// The selection of a number among the parameters, by the marks of units.
fn plan_marked(
    alloc: Global,
    marks: &[Seq<bool>],
    units: &[UnitHere],
    scales: &[ScalePlan],
    plots: &[PlotPlan],
    number: usize,
    name: &Text,
    selection: &Selection,
) -> Result<SelectionPlan, OutOfMemory>
    ensures { IfOk result (λ plan. plan
        ≡ plan_marked marks.now (map unit_shown units.now) (unit_there units.now) scales.now plots.now number name.now selection.now) }
{
    let places = places_of(alloc, marks, number, selection, units)?;
    plan_at(
        alloc,
        units,
        scales,
        plots,
        places.as_slice(),
        name,
        &selection.select,
    )
}

// Adds the selection of a parameter, if it is one.
fn push_selection(
    alloc: Global,
    marks: &[Seq<bool>],
    units: &[UnitHere],
    scales: &[ScalePlan],
    plots: &[PlotPlan],
    number: usize,
    param: &ParamOf,
    out: &mut Seq<SelectionPlan>,
) -> Result<(), OutOfMemory>
    ensures { OnOk result (out.new ≡ out.old
        ++ option_to_list (param_marked marks.now (map unit_shown units.now) (unit_there units.now) scales.now plots.now (number, param.now))) }
{
    match &param.kind {
        ParamKind::Select(selection) => out.push(plan_marked(
            alloc,
            marks,
            units,
            scales,
            plots,
            number,
            &param.name,
            selection,
        )?),
        ParamKind::Value(_) => Ok(()),
        ParamKind::Expr(_) => Ok(()),
    }
}

// The selections among some parameters, by the marks of units.
fn all_marked(
    alloc: Global,
    marks: &[Seq<bool>],
    units: &[UnitHere],
    scales: &[ScalePlan],
    plots: &[PlotPlan],
    params: &[ParamOf],
) -> Result<Seq<SelectionPlan>, OutOfMemory>
    ensures { IfOk result (λ plans. plans ≡ all_marked marks.now (map unit_shown units.now) (unit_there units.now) scales.now plots.now params.now) }
{
    let mut out = Seq::new(alloc);
    for (number, param) in params.iter().enumerate() {
        push_selection(alloc, marks, units, scales, plots, number, param, &mut out)?;
    }
    Ok(out)
}

/// The selections among some parameters, in their order. What a parameter concerns is looked up in marks.
pub(crate) fn selections_of(
    alloc: Global,
    units: &[UnitHere],
    scales: &[ScalePlan],
    plots: &[PlotPlan],
    params: &[ParamOf],
) -> Result<Seq<SelectionPlan>, OutOfMemory>
    ensures { IfOk result (λ plans. plans ≡ selections_of (map unit_shown units.now) scales.now plots.now params.now) }
{
    let marks = marks_of(alloc, params.len(), units)?;
    all_marked(alloc, marks.as_slice(), units, scales, plots, params)
}
