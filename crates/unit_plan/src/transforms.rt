// The transforms of views as steps.
ghost use Rattle.std.specs.Prelude.{◌≡◌, ◌++◌, ◌*◌, [], pos, codes, false, map, unwrap_or, IfOk, OnOk};
ghost use Rattle.std.specs.Option.{option_map, option_map_or};
ghost use Rattle.fixed_num.specs.Number.{million};
ghost use Rattle.cell_value.specs.declared.cell.Cell.TheVariants.{Null};
ghost use Rattle.plain_rows.specs.declared.transforms.Offset.TheVariants as TheRows;
ghost use Rattle.plan_kit.specs.declared.steps.Step.TheVariants as TheSteps;
ghost use Rattle.cell_names.specs.Names.{end_name};
ghost use Rattle.unit_plan.specs.Selections.{is_selection};
ghost use Rattle.unit_plan.specs.Transforms.{count_in, offset_in, start_named, end_named, op_settings, group_settings, is_descending, sort_by, sort_settings};
ghost use Rattle.unit_plan.specs.Transforms.{offset_of, stack_settings, transform_bins, unit_settings, window_op, param_of, before_of};
ghost use Rattle.unit_plan.specs.Transforms.{after_of, window_settings, texts_in, lookup_settings, fold_settings, step_of};

use crate::filters::filter_expr;
use crate::selections::SelectionNames;
use cell_names::{bin_settings, end_name};
use cell_value::{Cell, SharedText};
use fixed_num::Num;
use plain_rows::{
    BinOf, FoldOf, GroupOf, LookupOf, Offset as RowOffset, OpOf, SortBy, StackOf, TimeOf, WindowOf,
};
use plan_kit::Step;
use std::alloc::Global;
use text_kit::{Copies, OutOfMemory, Seq, Text, copy_list};
use vl_spec::{
    AggregateTransform, BinTransform, CalculateTransform, FoldTransform, Frame, LookupTransform,
    Names, Offset, Operation, Order, SortField, StackTransform, Texts, TimeUnitTransform,
    Transform, WindowOperation, WindowTransform,
};

/// A whole number as a count of 32 bits, without its sign; a greater one is cut.
pub(crate) fn count_in(number: Num) -> u32
    ensures { result ≡ count_in number }
{
    (number.millionths().unsigned_abs() / 1_000_000).min(u128::from(u32::MAX)) as u32
}

// A whole number as an offset of 32 bits; a greater one is cut.
fn offset_in(number: Num) -> i32
    ensures { result ≡ offset_in number }
{
    let whole = number.millionths().div_euclid(1_000_000);
    whole.min(i128::from(i32::MAX)).max(i128::from(i32::MIN)) as i32
}

// The name of a start.
fn start_named(alloc: Global, names: &Names) -> Result<SharedText, OutOfMemory>
    ensures { IfOk result (λ name. name ≡ start_named names.now) }
{
    match names {
        Names::One(name) => SharedText::of(alloc, name.as_str()),
        Names::Two(start, _) => SharedText::of(alloc, start.as_str()),
    }
}

/// A name to which `_end` is added, so that copies share it.
pub(crate) fn shared_end(alloc: Global, start: &Text) -> Result<SharedText, OutOfMemory>
    ensures { IfOk result (λ name. name ≡ end_name start.now) }
{
    let name = end_name(alloc, start.as_str())?;
    SharedText::of_text(alloc, name)
}

// The name of an end.
fn end_named(alloc: Global, names: &Names) -> Result<SharedText, OutOfMemory>
    ensures { IfOk result (λ name. name ≡ end_named names.now) }
{
    match names {
        Names::One(name) => shared_end(alloc, name),
        Names::Two(_, end) => SharedText::of(alloc, end.as_str()),
    }
}

// Copies of texts; none without a list.
fn texts_or_empty(alloc: Global, texts: &Option<Seq<Text>>) -> Result<Seq<Text>, OutOfMemory>
    ensures { IfOk result (λ copies. copies ≡ unwrap_or texts.now []) }
{
    match texts {
        Some(texts) => copy_list(alloc, texts.as_slice()),
        None => Ok(Seq::new(alloc)),
    }
}

// The texts, so that copies share them.
fn shared_texts(alloc: Global, texts: &[Text]) -> Result<Seq<SharedText>, OutOfMemory>
    ensures { IfOk result (λ shared. shared ≡ texts.now) }
{
    let mut shared = Seq::with_capacity(alloc, texts.len())?;
    for text in texts {
        shared.push(SharedText::of(alloc, text.as_str())?)?;
    }
    Ok(shared)
}

// An operation.
fn op_settings(alloc: Global, of: &Operation) -> Result<OpOf, OutOfMemory>
    ensures { IfOk result (λ how. how ≡ op_settings of.now) }
{
    Ok(OpOf {
        op: of.op,
        field: Copies::copied(&of.field, alloc)?,
        out: SharedText::of(alloc, of.as_.as_str())?,
    })
}

// Operations.
fn ops_settings(alloc: Global, ops: &[Operation]) -> Result<Seq<OpOf>, OutOfMemory>
    ensures { IfOk result (λ how. how ≡ map op_settings ops.now) }
{
    let mut out = Seq::with_capacity(alloc, ops.len())?;
    for of in ops {
        out.push(op_settings(alloc, of)?)?;
    }
    Ok(out)
}

// What is computed of each group.
fn group_settings(alloc: Global, of: &AggregateTransform) -> Result<GroupOf, OutOfMemory>
    ensures { IfOk result (λ how. how ≡ group_settings of.now) }
{
    Ok(GroupOf {
        groupby: texts_or_empty(alloc, &of.groupby)?,
        ops: ops_settings(alloc, of.aggregate.as_slice())?,
    })
}

// Whether the greatest cell stands first.
fn is_descending(order: Option<Order>) -> bool
    ensures { result ≡ option_map_or is_descending order false }
{
    match order {
        Some(Order::Descending) => true,
        Some(Order::Ascending) | None => false,
    }
}

// A field of an order.
fn sort_by(of: &SortField) -> Result<SortBy, OutOfMemory>
    ensures { IfOk result (λ how. how ≡ sort_by of.now) }
{
    Ok(SortBy {
        field: of.field.copy()?,
        descending: is_descending(of.order),
    })
}

// The fields of an order.
fn sorts_by(alloc: Global, fields: &[SortField]) -> Result<Seq<SortBy>, OutOfMemory>
    ensures { IfOk result (λ how. how ≡ map sort_by fields.now) }
{
    let mut out = Seq::with_capacity(alloc, fields.len())?;
    for of in fields {
        out.push(sort_by(of)?)?;
    }
    Ok(out)
}

// The same; none without an order.
fn sort_settings(alloc: Global, sort: &Option<Seq<SortField>>) -> Result<Seq<SortBy>, OutOfMemory>
    ensures { IfOk result (λ how. how ≡ sort_settings sort.now) }
{
    match sort {
        Some(fields) => sorts_by(alloc, fields.as_slice()),
        None => Ok(Seq::new(alloc)),
    }
}

/// Where a stack begins.
pub(crate) fn offset_of(offset: Offset) -> RowOffset
    ensures { result ≡ offset_of offset }
{
    match offset {
        Offset::Zero => RowOffset::Zero,
        Offset::Normalize => RowOffset::Normalize,
        Offset::Center => RowOffset::Center,
    }
}

// The same, from zero where it isn't said.
fn offset_or_zero(offset: Option<Offset>) -> RowOffset
    ensures { result ≡ option_map_or offset_of offset TheRows.Zero }
{
    match offset {
        Some(offset) => offset_of(offset),
        None => RowOffset::Zero,
    }
}

// How numbers are stacked.
fn stack_settings(alloc: Global, of: &StackTransform) -> Result<StackOf, OutOfMemory>
    ensures { IfOk result (λ how. how ≡ stack_settings of.now) }
{
    Ok(StackOf {
        field: of.stack.copy()?,
        groupby: texts_or_empty(alloc, &of.groupby)?,
        sort: sort_settings(alloc, &of.sort)?,
        offset: offset_or_zero(of.offset),
        out: start_named(alloc, &of.as_)?,
        out_end: end_named(alloc, &of.as_)?,
    })
}

// How many bins there are at most, 10 where it isn't said.
fn most_bins(given: Option<Num>) -> u32
    ensures { result ≡ count_in (unwrap_or given (pos (10 * million))) }
{
    match given {
        Some(most) => count_in(most),
        None => 10,
    }
}

// How numbers are put into bins.
fn transform_bins(alloc: Global, of: &BinTransform) -> Result<BinOf, OutOfMemory>
    ensures { IfOk result (λ how. how ≡ transform_bins of.now) }
{
    let settings = bin_settings(&of.bin);
    Ok(BinOf {
        field: of.field.copy()?,
        extent: None,
        step: settings.step,
        maxbins: most_bins(settings.maxbins),
        out: start_named(alloc, &of.as_)?,
        out_end: end_named(alloc, &of.as_)?,
    })
}

// How instants are put into units of time.
fn unit_settings(alloc: Global, of: &TimeUnitTransform) -> Result<TimeOf, OutOfMemory>
    ensures { IfOk result (λ how. how ≡ unit_settings of.now) }
{
    Ok(TimeOf {
        field: of.field.copy()?,
        unit: of.time_unit,
        out: SharedText::of(alloc, of.as_.as_str())?,
        out_end: shared_end(alloc, &of.as_)?,
    })
}

// An operation of a window.
fn window_op(alloc: Global, of: &WindowOperation) -> Result<OpOf, OutOfMemory>
    ensures { IfOk result (λ how. how ≡ window_op of.now) }
{
    Ok(OpOf {
        op: of.op,
        field: Copies::copied(&of.field, alloc)?,
        out: SharedText::of(alloc, of.as_.as_str())?,
    })
}

// Operations of a window.
fn window_ops(alloc: Global, ops: &[WindowOperation]) -> Result<Seq<OpOf>, OutOfMemory>
    ensures { IfOk result (λ how. how ≡ map window_op ops.now) }
{
    let mut out = Seq::with_capacity(alloc, ops.len())?;
    for of in ops {
        out.push(window_op(alloc, of)?)?;
    }
    Ok(out)
}

// The number that an operation takes, 1 where it isn't said.
fn param_of(of: &WindowOperation) -> u32
    ensures { result ≡ param_of of.now }
{
    match of.param {
        Some(number) => count_in(number),
        None => 1,
    }
}

// Those of operations.
fn params_of(alloc: Global, ops: &[WindowOperation]) -> Result<Seq<u32>, OutOfMemory>
    ensures { IfOk result (λ params. params ≡ map param_of ops.now) }
{
    let mut out = Seq::with_capacity(alloc, ops.len())?;
    for of in ops {
        out.push(param_of(of))?;
    }
    Ok(out)
}

// A bound of a frame, if there is one.
fn bound_of(number: Option<Num>) -> Option<i32>
    ensures { result ≡ option_map offset_in number }
{
    match number {
        Some(number) => Some(offset_in(number)),
        None => None,
    }
}

// Where a frame begins.
fn before_of(frame: Option<Frame>) -> Option<i32>
    ensures { result ≡ before_of frame }
{
    match frame {
        Some(bounds) => bound_of(bounds.first),
        None => None,
    }
}

// Where a frame ends, with the row itself where it isn't said.
fn after_of(frame: Option<Frame>) -> Option<i32>
    ensures { result ≡ after_of frame }
{
    match frame {
        Some(bounds) => bound_of(bounds.last),
        None => Some(0),
    }
}

// A flag, false where it isn't said.
fn or_false(said: Option<bool>) -> bool
    ensures { result ≡ unwrap_or said false }
{
    match said {
        Some(flag) => flag,
        None => false,
    }
}

// What is computed of each row over its neighbours.
fn window_settings(alloc: Global, of: &WindowTransform) -> Result<WindowOf, OutOfMemory>
    ensures { IfOk result (λ how. how ≡ window_settings of.now) }
{
    Ok(WindowOf {
        ops: window_ops(alloc, of.window.as_slice())?,
        params: params_of(alloc, of.window.as_slice())?,
        groupby: texts_or_empty(alloc, &of.groupby)?,
        sort: sort_settings(alloc, &of.sort)?,
        before: before_of(of.frame),
        after: after_of(of.frame),
        ignore_peers: or_false(of.ignore_peers),
    })
}

// One text or several, as a list.
fn texts_in(texts: &Texts) -> &[Text]
    ensures { result.now ≡ texts_in texts.now }
{
    match texts {
        Texts::One(text) => std::slice::from_ref(text),
        Texts::Several(several) => several.as_slice(),
    }
}

// The names of what is taken: those given, or its own.
fn names_taken<'a>(as_: &'a Option<Texts>, fields: &'a Seq<Text>) -> &'a [Text]
    ensures { result.now ≡ option_map_or texts_in as_.now fields.now }
{
    match as_ {
        Some(names) => texts_in(names),
        None => fields.as_slice(),
    }
}

// A copy of the cell, null without one.
fn cell_or_null(cell: &Option<Cell>) -> Result<Cell, OutOfMemory>
    ensures { IfOk result (λ copy. copy ≡ unwrap_or cell.now Null) }
{
    match cell {
        Some(cell) => cell.copy(),
        None => Ok(Cell::Null),
    }
}

// How cells of other rows are taken.
fn lookup_settings(alloc: Global, of: &LookupTransform) -> Result<LookupOf, OutOfMemory>
    ensures { IfOk result (λ how. how ≡ lookup_settings of.now) }
{
    Ok(LookupOf {
        key_here: of.lookup.copy()?,
        key_there: of.from.key.copy()?,
        fields: copy_list(alloc, of.from.fields.as_slice())?,
        outs: shared_texts(alloc, names_taken(&of.as_, &of.from.fields))?,
        otherwise: cell_or_null(&of.default)?,
    })
}

// A copy of a name; empty without one.
fn name_or_empty(alloc: Global, name: &Option<Text>) -> Result<Text, OutOfMemory>
    ensures { IfOk result (λ copy. copy ≡ unwrap_or name.now []) }
{
    match name {
        Some(name) => name.copy(),
        None => Ok(Text::new(alloc)),
    }
}

// A lookup as a step.
fn lookup_step(alloc: Global, of: &LookupTransform) -> Result<Step, OutOfMemory>
    ensures { IfOk result (λ step. step ≡ TheSteps.Lookup (unwrap_or of.now.from.data_ []) (lookup_settings of.now)) }
{
    let source = name_or_empty(alloc, &of.from.data_)?;
    Ok(Step::Lookup(source, lookup_settings(alloc, of)?))
}

// The name of the field's name.
fn key_named(alloc: Global, names: &Option<(Text, Text)>) -> Result<SharedText, OutOfMemory>
    ensures { IfOk result (λ name. name ≡ option_map_or (λ both. both.0) names.now (codes "key")) }
{
    match names {
        Some(both) => SharedText::of(alloc, both.0.as_str()),
        None => SharedText::of(alloc, "key"),
    }
}

// The name of the field's cell.
fn value_named(alloc: Global, names: &Option<(Text, Text)>) -> Result<SharedText, OutOfMemory>
    ensures { IfOk result (λ name. name ≡ option_map_or (λ both. both.1) names.now (codes "value")) }
{
    match names {
        Some(both) => SharedText::of(alloc, both.1.as_str()),
        None => SharedText::of(alloc, "value"),
    }
}

// How one row is made for each of several fields.
fn fold_settings(alloc: Global, of: &FoldTransform) -> Result<FoldOf, OutOfMemory>
    ensures { IfOk result (λ how. how ≡ fold_settings of.now) }
{
    Ok(FoldOf {
        fields: shared_texts(alloc, of.fold.as_slice())?,
        out_key: key_named(alloc, &of.as_)?,
        out_value: value_named(alloc, &of.as_)?,
    })
}

// A calculation as a step.
fn calculate_step(alloc: Global, of: &CalculateTransform) -> Result<Step, OutOfMemory>
    ensures { IfOk result (λ step. step ≡ TheSteps.Calculate of.now.calculate of.now.as_) }
{
    let name = of.as_.copy()?;
    Ok(Step::Calculate(of.calculate.copy(alloc)?, name))
}

/// A transform as a step.
pub(crate) fn step_of(
    alloc: Global,
    names: &SelectionNames,
    transform: &Transform,
) -> Result<Step, OutOfMemory>
    ensures { IfOk result (λ step. step ≡ step_of (is_selection names.now.params.now) transform.now) }
{
    match transform {
        Transform::Filter(filter) => filter_expr(alloc, names, filter).map(Step::Filter),
        Transform::Calculate(of) => calculate_step(alloc, of),
        Transform::Bin(of) => transform_bins(alloc, of).map(Step::Bin),
        Transform::TimeUnit(of) => unit_settings(alloc, of).map(Step::Unit),
        Transform::Aggregate(of) => group_settings(alloc, of).map(Step::Group),
        Transform::JoinAggregate(of) => group_settings(alloc, of).map(Step::Join),
        Transform::Stack(of) => stack_settings(alloc, of).map(Step::Stack),
        Transform::Window(of) => window_settings(alloc, of).map(Step::Window),
        Transform::Lookup(of) => lookup_step(alloc, of),
        Transform::Fold(of) => fold_settings(alloc, of).map(Step::Fold),
    }
}

/// Adds the steps of transforms.
pub(crate) fn push_transforms(
    alloc: Global,
    names: &SelectionNames,
    transforms: &[&Transform],
    steps: &mut Seq<Step>,
) -> Result<(), OutOfMemory>
    ensures { OnOk result (steps.new ≡ steps.old ++ map (step_of (is_selection names.now.params.now)) (map (λ t. t.now) transforms.now)) }
{
    for transform in transforms {
        steps.push(step_of(alloc, names, transform)?)?;
    }
    Ok(())
}
