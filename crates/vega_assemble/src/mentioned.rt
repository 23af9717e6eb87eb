// The names that a specification mentions.
ghost use Rattle.std.specs.Prelude.{◌≡◌, ◌++◌, ◌∷◌, [], map, flat_map, IfOk, OnOk};
ghost use Rattle.vega_assemble.specs.Mentioned.{in_expr, in_test, in_cell, if_named, in_op, in_sort, in_group, in_stack, in_window};
ghost use Rattle.vega_assemble.specs.Mentioned.{in_lookup, in_step, in_spot, in_spot_way, in_along, in_look, in_look_way, in_words_way};
ghost use Rattle.vega_assemble.specs.Mentioned.{in_ends, in_looks, in_mark, in_unit, in_rows_order, in_order, in_column, in_domain};
ghost use Rattle.vega_assemble.specs.Mentioned.{in_scale, in_field, in_facet, in_grid, in_kept, in_drag, in_selection, in_param, in_plan};
ghost use Rattle.vega_assemble.specs.Mentioned.{mentioned};
ghost use Rattle.vega_assemble.specs.inner.Lent.{lent};

use cell_value::SharedText;
use expr_syntax::Expr;
use plain_rows::{BinOf, FoldOf, GroupOf, LookupOf, OpOf, SortBy, StackOf, TimeOf, WindowOf};
use plan_kit::{
    Along, CellOf, CellOrder, Column, DomainPlan, FacetField, FacetPlan, GridPlan, Look, LookWay,
    MarkPlan, Plan, RowsOrder, ScalePlan, SelectionPlan, Spot, SpotWay, Step, UnitPlan, WordsWay,
};
use selection_events::DragOf;
use std::alloc::Global;
use text_kit::{OutOfMemory, Seq, Text};
use vl_spec::{ParamKind, ParamOf, SourceOf, VlSpec};

// Adds a name.
fn push<'a>(name: &'a str, out: &mut Vec<&'a str>) -> Result<(), OutOfMemory>
    ensures { OnOk result (lent out.new ≡ lent out.old ++ name.now ∷ []) }
{
    out.push(name)?;
    Ok(())
}

// Adds names.
fn push_all<'a>(names: &'a [Text], out: &mut Vec<&'a str>) -> Result<(), OutOfMemory>
    ensures { OnOk result (lent out.new ≡ lent out.old ++ names.now) }
{
    for name in names {
        push(name.as_str(), out)?;
    }
    Ok(())
}

// Adds shared names.
fn push_shared<'a>(names: &'a [SharedText], out: &mut Vec<&'a str>) -> Result<(), OutOfMemory>
    ensures { OnOk result (lent out.new ≡ lent out.old ++ names.now) }
{
    for name in names {
        push(name.as_str(), out)?;
    }
    Ok(())
}

// Adds a name that may be there.
fn push_if<'a>(name: &'a Option<Text>, out: &mut Vec<&'a str>) -> Result<(), OutOfMemory>
    ensures { OnOk result (lent out.new ≡ lent out.old ++ if_named name.now) }
{
    match name {
        Some(name) => push(name.as_str(), out),
        None => Ok(()),
    }
}

// ---- expressions and cells

// Adds the names in an expression.
#[cycle(names)]
fn push_expr<'a>(e: &'a Expr, out: &mut Vec<&'a str>) -> Result<(), OutOfMemory>
    ensures { OnOk result (lent out.new ≡ lent out.old ++ in_expr e.now) }
{
    match e {
        Expr::Null | Expr::Flag(_) | Expr::Number(_) | Expr::Text(_) | Expr::DomainLength(_) => Ok(
            (),
        ),
        Expr::Field(name)
        | Expr::Param(name)
        | Expr::Member(name, _)
        | Expr::Selected(name)
        | Expr::Stored(name) => push(name.as_str(), out),
        Expr::Not(a) | Expr::Minus(a) | Expr::Plus(a) => push_expr(a.get(), out),
        Expr::Binary(_, a, b) | Expr::Pair(a, b) => {
            push_expr(a.get(), out)?;
            push_expr(b.get(), out)
        }
        Expr::Choose(test, first, second) => {
            push_expr(test.get(), out)?;
            push_expr(first.get(), out)?;
            push_expr(second.get(), out)
        }
        Expr::Call(_, args) => push_exprs(args.as_slice(), out),
    }
}

// Adds those in several.
#[cycle(names)]
fn push_exprs<'a>(args: &'a [Expr], out: &mut Vec<&'a str>) -> Result<(), OutOfMemory>
    ensures { OnOk result (lent out.new ≡ lent out.old ++ flat_map (λ arg. arg) (map in_expr args.now)) }
{
    for arg in args {
        push_expr(arg, out)?;
    }
    Ok(())
}

// Adds those in a test that may be there.
fn push_test<'a>(e: &'a Option<Expr>, out: &mut Vec<&'a str>) -> Result<(), OutOfMemory>
    ensures { OnOk result (lent out.new ≡ lent out.old ++ in_test e.now) }
{
    match e {
        Some(e) => push_expr(e, out),
        None => Ok(()),
    }
}

// Adds those of a cell.
fn push_cell<'a>(cell: &'a CellOf, out: &mut Vec<&'a str>) -> Result<(), OutOfMemory>
    ensures { OnOk result (lent out.new ≡ lent out.old ++ in_cell cell.now) }
{
    match cell {
        CellOf::Field(name) => push(name.as_str(), out),
        CellOf::Written(_) => Ok(()),
        CellOf::Computed(e) => push_expr(e, out),
    }
}

// ---- steps

// Adds those of an operation.
fn push_op<'a>(op: &'a OpOf, out: &mut Vec<&'a str>) -> Result<(), OutOfMemory>
    ensures { OnOk result (lent out.new ≡ lent out.old ++ in_op op.now) }
{
    push_if(&op.field, out)?;
    push(op.out.as_str(), out)
}

// Adds those of several.
fn push_ops<'a>(ops: &'a [OpOf], out: &mut Vec<&'a str>) -> Result<(), OutOfMemory>
    ensures { OnOk result (lent out.new ≡ lent out.old ++ flat_map in_op ops.now) }
{
    for op in ops {
        push_op(op, out)?;
    }
    Ok(())
}

// Adds those of an order.
fn push_sort<'a>(by: &'a [SortBy], out: &mut Vec<&'a str>) -> Result<(), OutOfMemory>
    ensures { OnOk result (lent out.new ≡ lent out.old ++ in_sort by.now) }
{
    for one in by {
        push(one.field.as_str(), out)?;
    }
    Ok(())
}

// Adds those of groups.
fn push_group<'a>(group: &'a GroupOf, out: &mut Vec<&'a str>) -> Result<(), OutOfMemory>
    ensures { OnOk result (lent out.new ≡ lent out.old ++ in_group group.now) }
{
    push_all(group.groupby.as_slice(), out)?;
    push_ops(group.ops.as_slice(), out)
}

// Adds those of bins, and of units of time.
fn push_bin<'a>(bin: &'a BinOf, out: &mut Vec<&'a str>) -> Result<(), OutOfMemory>
    ensures { OnOk result (lent out.new ≡ lent out.old ++ bin.now.field ∷ bin.now.out ∷ bin.now.out_end ∷ []) }
{
    push(bin.field.as_str(), out)?;
    push(bin.out.as_str(), out)?;
    push(bin.out_end.as_str(), out)
}

fn push_unit_of_time<'a>(unit: &'a TimeOf, out: &mut Vec<&'a str>) -> Result<(), OutOfMemory>
    ensures { OnOk result (lent out.new ≡ lent out.old ++ unit.now.field ∷ unit.now.out ∷ unit.now.out_end ∷ []) }
{
    push(unit.field.as_str(), out)?;
    push(unit.out.as_str(), out)?;
    push(unit.out_end.as_str(), out)
}

// Adds those of a stack.
fn push_stack<'a>(stack: &'a StackOf, out: &mut Vec<&'a str>) -> Result<(), OutOfMemory>
    ensures { OnOk result (lent out.new ≡ lent out.old ++ in_stack stack.now) }
{
    push(stack.field.as_str(), out)?;
    push_all(stack.groupby.as_slice(), out)?;
    push_sort(stack.sort.as_slice(), out)?;
    push(stack.out.as_str(), out)?;
    push(stack.out_end.as_str(), out)
}

// Adds those of a window.
fn push_window<'a>(window: &'a WindowOf, out: &mut Vec<&'a str>) -> Result<(), OutOfMemory>
    ensures { OnOk result (lent out.new ≡ lent out.old ++ in_window window.now) }
{
    push_ops(window.ops.as_slice(), out)?;
    push_all(window.groupby.as_slice(), out)?;
    push_sort(window.sort.as_slice(), out)
}

// Adds those of a lookup.
fn push_lookup<'a>(
    source: &'a Text,
    lookup: &'a LookupOf,
    out: &mut Vec<&'a str>,
) -> Result<(), OutOfMemory>
    ensures { OnOk result (lent out.new ≡ lent out.old ++ source.now ∷ in_lookup lookup.now) }
{
    push(source.as_str(), out)?;
    push(lookup.key_here.as_str(), out)?;
    push(lookup.key_there.as_str(), out)?;
    push_all(lookup.fields.as_slice(), out)?;
    push_shared(lookup.outs.as_slice(), out)
}

// Adds those of a fold.
fn push_fold<'a>(fold: &'a FoldOf, out: &mut Vec<&'a str>) -> Result<(), OutOfMemory>
    ensures { OnOk result (lent out.new ≡ lent out.old ++ fold.now.out_key ∷ fold.now.out_value ∷ fold.now.fields) }
{
    push(fold.out_key.as_str(), out)?;
    push(fold.out_value.as_str(), out)?;
    push_shared(fold.fields.as_slice(), out)
}

// Adds those of a formula.
fn push_formula<'a>(e: &'a Expr, name: &'a Text, out: &mut Vec<&'a str>) -> Result<(), OutOfMemory>
    ensures { OnOk result (lent out.new ≡ lent out.old ++ name.now ∷ in_expr e.now) }
{
    push(name.as_str(), out)?;
    push_expr(e, out)
}

// Adds those of a step.
fn push_step<'a>(step: &'a Step, out: &mut Vec<&'a str>) -> Result<(), OutOfMemory>
    ensures { OnOk result (lent out.new ≡ lent out.old ++ in_step step.now) }
{
    match step {
        Step::Filter(e) => push_expr(e, out),
        Step::Calculate(e, name) => push_formula(e, name, out),
        Step::Bin(bin) => push_bin(bin, out),
        Step::Unit(unit) => push_unit_of_time(unit, out),
        Step::Group(group) => push_group(group, out),
        Step::Join(group) => push_group(group, out),
        Step::Stack(stack) => push_stack(stack, out),
        Step::Window(window) => push_window(window, out),
        Step::Lookup(source, lookup) => push_lookup(source, lookup, out),
        Step::Fold(fold) => push_fold(fold, out),
    }
}

// Adds those of several.
fn push_steps<'a>(steps: &'a [Step], out: &mut Vec<&'a str>) -> Result<(), OutOfMemory>
    ensures { OnOk result (lent out.new ≡ lent out.old ++ flat_map in_step steps.now) }
{
    for step in steps {
        push_step(step, out)?;
    }
    Ok(())
}

// ---- marks

// Adds those of a spot.
fn push_spot<'a>(spot: &'a Spot, out: &mut Vec<&'a str>) -> Result<(), OutOfMemory>
    ensures { OnOk result (lent out.new ≡ lent out.old ++ in_spot spot.now) }
{
    match spot {
        Spot::Place(_, cell) | Spot::Centre(_, cell) | Spot::EndOfBand(_, cell) => push_cell(
            cell, out,
        ),
        Spot::Pixels(_) | Spot::Base(_) | Spot::Middle | Spot::Foot | Spot::Nowhere => Ok(()),
    }
}

// Adds those of an end.
fn push_spot_ways<'a>(ways: &'a [SpotWay], out: &mut Vec<&'a str>) -> Result<(), OutOfMemory>
    ensures { OnOk result (lent out.new ≡ lent out.old ++ flat_map in_spot_way ways.now) }
{
    for way in ways {
        push_spot_way(way, out)?;
    }
    Ok(())
}

fn push_spot_way<'a>(way: &'a SpotWay, out: &mut Vec<&'a str>) -> Result<(), OutOfMemory>
    ensures { OnOk result (lent out.new ≡ lent out.old ++ in_spot_way way.now) }
{
    push_test(&way.test, out)?;
    push_spot(&way.gives, out)
}

// Adds those of both ends.
fn push_along<'a>(along: &'a Along, out: &mut Vec<&'a str>) -> Result<(), OutOfMemory>
    ensures { OnOk result (lent out.new ≡ lent out.old ++ in_along along.now) }
{
    push_spot_ways(along.near.as_slice(), out)?;
    push_spot_ways(along.far.as_slice(), out)
}

// Adds those of a look.
fn push_look<'a>(look: &'a Look, out: &mut Vec<&'a str>) -> Result<(), OutOfMemory>
    ensures { OnOk result (lent out.new ≡ lent out.old ++ in_look look.now) }
{
    match look {
        Look::Written(_) => Ok(()),
        Look::OnScale(_, cell) => push_cell(cell, out),
    }
}

fn push_look_way<'a>(way: &'a LookWay, out: &mut Vec<&'a str>) -> Result<(), OutOfMemory>
    ensures { OnOk result (lent out.new ≡ lent out.old ++ in_look_way way.now) }
{
    push_test(&way.test, out)?;
    push_look(&way.gives, out)
}

fn push_look_ways<'a>(ways: &'a [LookWay], out: &mut Vec<&'a str>) -> Result<(), OutOfMemory>
    ensures { OnOk result (lent out.new ≡ lent out.old ++ flat_map in_look_way ways.now) }
{
    for way in ways {
        push_look_way(way, out)?;
    }
    Ok(())
}

// Adds those of words.
fn push_words_way<'a>(way: &'a WordsWay, out: &mut Vec<&'a str>) -> Result<(), OutOfMemory>
    ensures { OnOk result (lent out.new ≡ lent out.old ++ in_words_way way.now) }
{
    push_test(&way.test, out)?;
    push_cell(&way.gives.cell, out)
}

fn push_words_ways<'a>(ways: &'a [WordsWay], out: &mut Vec<&'a str>) -> Result<(), OutOfMemory>
    ensures { OnOk result (lent out.new ≡ lent out.old ++ flat_map in_words_way ways.now) }
{
    for way in ways {
        push_words_way(way, out)?;
    }
    Ok(())
}

// Adds those of a mark's ends, of its looks, and of all of it.
fn push_ends<'a>(m: &'a MarkPlan, out: &mut Vec<&'a str>) -> Result<(), OutOfMemory>
    ensures { OnOk result (lent out.new ≡ lent out.old ++ in_ends m.now) }
{
    push_along(&m.across, out)?;
    push_along(&m.down, out)
}

fn push_looks<'a>(m: &'a MarkPlan, out: &mut Vec<&'a str>) -> Result<(), OutOfMemory>
    ensures { OnOk result (lent out.new ≡ lent out.old ++ in_looks m.now) }
{
    push_look_ways(m.color.as_slice(), out)?;
    push_look_ways(m.opacity.as_slice(), out)?;
    push_look_ways(m.size.as_slice(), out)?;
    push_look_ways(m.sign.as_slice(), out)
}

fn push_mark<'a>(m: &'a MarkPlan, out: &mut Vec<&'a str>) -> Result<(), OutOfMemory>
    ensures { OnOk result (lent out.new ≡ lent out.old ++ in_mark m.now) }
{
    push_ends(m, out)?;
    push_looks(m, out)?;
    push_words_ways(m.words.as_slice(), out)?;
    push_if(&m.order, out)?;
    push_all(m.series.as_slice(), out)
}

// Adds those of a unit.
fn push_unit<'a>(unit: &'a UnitPlan, out: &mut Vec<&'a str>) -> Result<(), OutOfMemory>
    ensures { OnOk result (lent out.new ≡ lent out.old ++ in_unit unit.now) }
{
    push(unit.source.as_str(), out)?;
    push_steps(unit.before.as_slice(), out)?;
    push_steps(unit.after.as_slice(), out)?;
    push_mark(&unit.mark, out)
}

fn push_units<'a>(units: &'a [UnitPlan], out: &mut Vec<&'a str>) -> Result<(), OutOfMemory>
    ensures { OnOk result (lent out.new ≡ lent out.old ++ flat_map in_unit units.now) }
{
    for unit in units {
        push_unit(unit, out)?;
    }
    Ok(())
}

// ---- scales, facets and selections

// Adds those of an order by rows.
fn push_rows_order<'a>(by: &'a RowsOrder, out: &mut Vec<&'a str>) -> Result<(), OutOfMemory>
    ensures { OnOk result (lent out.new ≡ lent out.old ++ in_rows_order by.now) }
{
    push(by.cell.as_str(), out)?;
    push_if(&by.field, out)
}

fn push_order<'a>(order: &'a CellOrder, out: &mut Vec<&'a str>) -> Result<(), OutOfMemory>
    ensures { OnOk result (lent out.new ≡ lent out.old ++ in_order order.now) }
{
    match order {
        CellOrder::First | CellOrder::Up | CellOrder::Down | CellOrder::Listed(_) => Ok(()),
        CellOrder::ByRows(by) => push_rows_order(by, out),
    }
}

// Adds those of columns.
fn push_columns<'a>(columns: &'a [Column], out: &mut Vec<&'a str>) -> Result<(), OutOfMemory>
    ensures { OnOk result (lent out.new ≡ lent out.old ++ flat_map in_column columns.now) }
{
    for column in columns {
        push_cell(&column.cell, out)?;
    }
    Ok(())
}

// Adds those of a domain.
fn push_domain<'a>(plan: &'a DomainPlan, out: &mut Vec<&'a str>) -> Result<(), OutOfMemory>
    ensures { OnOk result (lent out.new ≡ lent out.old ++ in_domain plan.now) }
{
    match plan {
        DomainPlan::Cells(_) => Ok(()),
        DomainPlan::Columns(of) => {
            push_columns(of.columns.as_slice(), out)?;
            push_order(&of.order, out)
        }
    }
}

// Adds those of a scale.
fn push_scale<'a>(scale: &'a ScalePlan, out: &mut Vec<&'a str>) -> Result<(), OutOfMemory>
    ensures { OnOk result (lent out.new ≡ lent out.old ++ in_scale scale.now) }
{
    push_domain(&scale.domain, out)?;
    push_test(&scale.raw, out)
}

fn push_scales<'a>(scales: &'a [ScalePlan], out: &mut Vec<&'a str>) -> Result<(), OutOfMemory>
    ensures { OnOk result (lent out.new ≡ lent out.old ++ flat_map in_scale scales.now) }
{
    for scale in scales {
        push_scale(scale, out)?;
    }
    Ok(())
}

// Adds those of a facet's field, of a facet, and of a grid.
fn push_field<'a>(field: &'a FacetField, out: &mut Vec<&'a str>) -> Result<(), OutOfMemory>
    ensures { OnOk result (lent out.new ≡ lent out.old ++ in_field field.now) }
{
    push(field.name.as_str(), out)?;
    push_order(&field.order, out)
}

fn push_facet<'a>(f: &'a FacetPlan, out: &mut Vec<&'a str>) -> Result<(), OutOfMemory>
    ensures { OnOk result (lent out.new ≡ lent out.old ++ in_facet f.now) }
{
    for field in f.fields.as_slice() {
        push_field(field, out)?;
    }
    Ok(())
}

fn push_grid<'a>(grid: &'a GridPlan, out: &mut Vec<&'a str>) -> Result<(), OutOfMemory>
    ensures { OnOk result (lent out.new ≡ lent out.old ++ in_grid grid.now) }
{
    match &grid.facet {
        Some(f) => push_facet(f, out),
        None => Ok(()),
    }
}

fn push_grids<'a>(grids: &'a [GridPlan], out: &mut Vec<&'a str>) -> Result<(), OutOfMemory>
    ensures { OnOk result (lent out.new ≡ lent out.old ++ flat_map in_grid grids.now) }
{
    for grid in grids {
        push_grid(grid, out)?;
    }
    Ok(())
}

// Adds the fields that are kept of a click.
fn push_kept<'a>(fields: &'a Option<Seq<Text>>, out: &mut Vec<&'a str>) -> Result<(), OutOfMemory>
    ensures { OnOk result (lent out.new ≡ lent out.old ++ in_kept fields.now) }
{
    match fields {
        Some(fields) => push_all(fields.as_slice(), out),
        None => Ok(()),
    }
}

fn push_drags<'a>(drags: &'a [DragOf], out: &mut Vec<&'a str>) -> Result<(), OutOfMemory>
    ensures { OnOk result (lent out.new ≡ lent out.old ++ flat_map in_drag drags.now) }
{
    for drag in drags {
        push(drag.field.as_str(), out)?;
    }
    Ok(())
}

// Adds those of a selection.
fn push_selection<'a>(s: &'a SelectionPlan, out: &mut Vec<&'a str>) -> Result<(), OutOfMemory>
    ensures { OnOk result (lent out.new ≡ lent out.old ++ in_selection s.now) }
{
    push(s.kept.name.as_str(), out)?;
    push_kept(&s.kept.click, out)?;
    push_kept(&s.kept.toggle, out)?;
    push_drags(s.kept.drag.as_slice(), out)
}

fn push_selections<'a>(
    selections: &'a [SelectionPlan],
    out: &mut Vec<&'a str>,
) -> Result<(), OutOfMemory>
    ensures { OnOk result (lent out.new ≡ lent out.old ++ flat_map in_selection selections.now) }
{
    for s in selections {
        push_selection(s, out)?;
    }
    Ok(())
}

// ---- the whole

// Adds those of a parameter.
fn push_param<'a>(param: &'a ParamOf, out: &mut Vec<&'a str>) -> Result<(), OutOfMemory>
    ensures { OnOk result (lent out.new ≡ lent out.old ++ in_param param.now) }
{
    push(param.name.as_str(), out)?;
    match &param.kind {
        ParamKind::Value(_) | ParamKind::Select(_) => Ok(()),
        ParamKind::Expr(e) => push_expr(e, out),
    }
}

fn push_params<'a>(params: &'a [ParamOf], out: &mut Vec<&'a str>) -> Result<(), OutOfMemory>
    ensures { OnOk result (lent out.new ≡ lent out.old ++ flat_map in_param params.now) }
{
    for param in params {
        push_param(param, out)?;
    }
    Ok(())
}

// Adds the names of sources.
fn push_sources<'a>(sources: &'a [SourceOf], out: &mut Vec<&'a str>) -> Result<(), OutOfMemory>
    ensures { OnOk result (lent out.new ≡ lent out.old ++ map (λ source. source.name) sources.now) }
{
    for source in sources {
        push(source.name.as_str(), out)?;
    }
    Ok(())
}

// Adds those of a plan.
fn push_plan<'a>(p: &'a Plan, out: &mut Vec<&'a str>) -> Result<(), OutOfMemory>
    ensures { OnOk result (lent out.new ≡ lent out.old ++ in_plan p.now) }
{
    push_units(p.units.as_slice(), out)?;
    push_scales(p.scales.as_slice(), out)?;
    push_grids(p.grids.as_slice(), out)?;
    push_selections(p.selections.as_slice(), out)
}

/// The names that a specification with this plan mentions, in time linear in both.
pub(crate) fn mentioned<'a>(
    alloc: Global,
    s: &'a VlSpec,
    p: &'a Plan,
) -> Result<Vec<&'a str>, OutOfMemory>
    ensures { IfOk result (λ names. lent names ≡ mentioned s.now p.now) }
{
    let mut out = Vec::new(alloc);
    push_sources(s.sources.as_slice(), &mut out)?;
    push_params(s.params.as_slice(), &mut out)?;
    push_plan(p, &mut out)?;
    Ok(out)
}
