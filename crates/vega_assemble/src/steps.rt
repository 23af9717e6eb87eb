// Steps as transforms.
ghost use Rattle.std.specs.Prelude.{◌≡◌, ◌++◌, map, Some, IfOk, OnOk};
ghost use Rattle.std.specs.Option.{option_map};
ghost use Rattle.vega_spec.specs.declared.transforms.Transform.TheVariants as vega;
ghost use Rattle.vega_assemble.specs.Steps.{direction, directed, some_sort, sort_written, extent_written, bin_written, unit_written};
ghost use Rattle.vega_assemble.specs.Steps.{codes_of, fields_of, names_of, group_written, offset_written, stack_written, param_given, bound_written};
ghost use Rattle.vega_assemble.specs.Steps.{frame_written, window_written, lookup_written, fold_written, step_written, steps_written};

use crate::names::none_name;
use crate::numbers::{bound_written, ones};
use crate::several::{copied_beside, copied_text, copied_texts, one_of};
use cell_value::SharedText;
use expr_syntax::Expr;
use fixed_num::Num;
use plain_rows::{
    BinOf, FoldOf, GroupOf, LookupOf, Offset as RowOffset, OpOf, SortBy, StackOf, TimeOf, WindowOf,
};
use plan_kit::Step;
use std::alloc::Global;
use text_kit::{Copies, OutOfMemory, Seq, Text};
use vega_spec::{
    Aggregate, Bin, BinExtent, Filter, Fold, Formula, Frame, Lookup, Offset, Order, Orders, Sort,
    Stack, Texts, TimeUnit, Transform, Window,
};

// ---- names

// The text of a shared one.
fn own_text(text: &SharedText) -> Result<Text, OutOfMemory>
    ensures { IfOk result (λ own. own ≡ text.now) }
{
    text.as_text().copy()
}

// A value, and the text of a shared one.
fn own_beside<K: Drop>(kept: K, text: &SharedText) -> Result<(K, Text), OutOfMemory>
    ensures { IfOk result (λ both. both ≡ (kept, text.now)) }
{
    let own = own_text(text)?;
    Ok((kept, own))
}

// The names of a start and an end.
fn both_names(start: &SharedText, end: &SharedText) -> Result<(Text, Text), OutOfMemory>
    ensures { IfOk result (λ both. both ≡ (start.now, end.now)) }
{
    let start = own_text(start)?;
    own_beside(start, end)
}

// A field, and the names of a start and an end.
fn field_and_names(
    field: &Text,
    start: &SharedText,
    end: &SharedText,
) -> Result<(Text, (Text, Text)), OutOfMemory>
    ensures { IfOk result (λ all. all ≡ (field.now, (start.now, end.now))) }
{
    let names = both_names(start, end)?;
    let field = field.copy()?;
    Ok((field, names))
}

// The texts of shared ones.
fn own_texts(alloc: Global, texts: &[SharedText]) -> Result<Seq<Text>, OutOfMemory>
    ensures { IfOk result (λ own. own ≡ texts.now) }
{
    let mut out = Seq::new(alloc);
    for text in texts {
        out.push(own_text(text)?)?;
    }
    Ok(out)
}

// ---- orders

/// A direction.
pub(crate) fn direction(descending: bool) -> Order
    ensures { result ≡ direction descending }
{
    if descending {
        Order::Descending
    } else {
        Order::Ascending
    }
}

// The fields of an order.
fn sorted_fields(alloc: Global, by: &[SortBy]) -> Result<Seq<Text>, OutOfMemory>
    ensures { IfOk result (λ fields. fields ≡ map (λ s. s.field) by.now) }
{
    let mut out = Seq::new(alloc);
    for one in by {
        out.push(one.field.copy()?)?;
    }
    Ok(out)
}

// Their directions.
fn directions(alloc: Global, by: &[SortBy]) -> Result<Seq<Order>, OutOfMemory>
    ensures { IfOk result (λ orders. orders ≡ map directed by.now) }
{
    let mut out = Seq::new(alloc);
    for one in by {
        out.push(direction(one.descending))?;
    }
    Ok(out)
}

// An order by fields.
fn some_sort(alloc: Global, by: &[SortBy]) -> Result<Sort, OutOfMemory>
    ensures { IfOk result (λ sort. sort ≡ some_sort by.now) }
{
    let fields = sorted_fields(alloc, by)?;
    let orders = directions(alloc, by)?;
    Ok(Sort {
        field: Texts::Several(fields),
        order: Some(Orders::Several(orders)),
    })
}

/// An order by fields, if there are any.
pub(crate) fn sort_written(alloc: Global, by: &[SortBy]) -> Result<Option<Sort>, OutOfMemory>
    ensures { IfOk result (λ sort. sort ≡ sort_written by.now) }
{
    if by.is_empty() {
        Ok(None)
    } else {
        some_sort(alloc, by).map(Some)
    }
}

// A value, and an order.
fn sort_beside<K: Drop>(
    alloc: Global,
    kept: K,
    by: &[SortBy],
) -> Result<(K, Option<Sort>), OutOfMemory>
    ensures { IfOk result (λ both. both ≡ (kept, sort_written by.now)) }
{
    let sort = sort_written(alloc, by)?;
    Ok((kept, sort))
}

// ---- transforms of single rows

// The extent of bins.
fn extent_written(stem: &Text, extent: Option<(Num, Num)>) -> Result<BinExtent, OutOfMemory>
    ensures { IfOk result (λ written. written ≡ extent_written stem.now extent) }
{
    match extent {
        Some((from, to)) => Ok(BinExtent::Pair(from, to)),
        None => none_name(stem).map(BinExtent::Signal),
    }
}

// A value, and an extent.
fn extent_beside<K: Drop>(
    kept: K,
    stem: &Text,
    extent: Option<(Num, Num)>,
) -> Result<(K, BinExtent), OutOfMemory>
    ensures { IfOk result (λ both. both ≡ (kept, extent_written stem.now extent)) }
{
    let extent = extent_written(stem, extent)?;
    Ok((kept, extent))
}

// Bins.
fn bin_written(stem: &Text, bin: &BinOf) -> Result<Transform, OutOfMemory>
    ensures { IfOk result (λ written. written ≡ vega.Bin (bin_written stem.now bin.now)) }
{
    let names = field_and_names(&bin.field, &bin.out, &bin.out_end)?;
    let ((field, names), extent) = extent_beside(names, stem, bin.extent)?;
    Ok(Transform::Bin(Bin {
        field,
        extent,
        maxbins: Some(ones(bin.maxbins)),
        step: bin.step,
        as_: Some(names),
    }))
}

// Units of time.
fn unit_written(unit: &TimeOf) -> Result<Transform, OutOfMemory>
    ensures { IfOk result (λ written. written ≡ vega.TimeUnit (unit_written unit.now)) }
{
    let (field, names) = field_and_names(&unit.field, &unit.out, &unit.out_end)?;
    Ok(Transform::TimeUnit(TimeUnit {
        field,
        units: unit.unit,
        as_: Some(names),
    }))
}

// A filter.
fn filter_written(alloc: Global, e: &Expr) -> Result<Transform, OutOfMemory>
    ensures { IfOk result (λ written. written ≡ vega.Filter record { expr = e.now }) }
{
    let expr = e.copy(alloc)?;
    Ok(Transform::Filter(Filter { expr }))
}

// A formula.
fn formula_written(alloc: Global, e: &Expr, name: &Text) -> Result<Transform, OutOfMemory>
    ensures { IfOk result (λ written. written ≡ vega.Formula record { expr = e.now; as_ = name.now }) }
{
    let as_ = name.copy()?;
    let expr = e.copy(alloc)?;
    Ok(Transform::Formula(Formula { expr, as_ }))
}

// ---- operations

// The codes of operations.
fn codes_of(alloc: Global, ops: &[OpOf]) -> Result<Seq<u16>, OutOfMemory>
    ensures { IfOk result (λ codes. codes ≡ codes_of ops.now) }
{
    let mut out = Seq::new(alloc);
    for op in ops {
        out.push(op.op)?;
    }
    Ok(out)
}

// Their fields.
fn fields_of(alloc: Global, ops: &[OpOf]) -> Result<Seq<Option<Text>>, OutOfMemory>
    ensures { IfOk result (λ fields. fields ≡ fields_of ops.now) }
{
    let mut out = Seq::new(alloc);
    for op in ops {
        out.push(copied_text(&op.field)?)?;
    }
    Ok(out)
}

// Their names.
fn names_of(alloc: Global, ops: &[OpOf]) -> Result<Seq<Option<Text>>, OutOfMemory>
    ensures { IfOk result (λ names. names ≡ names_of ops.now) }
{
    let mut out = Seq::new(alloc);
    for op in ops {
        out.push(own_text(&op.out).map(Some)?)?;
    }
    Ok(out)
}

// What groups compute.
fn group_written(alloc: Global, group: &GroupOf) -> Result<Aggregate, OutOfMemory>
    ensures { IfOk result (λ written. written ≡ group_written group.now) }
{
    let ops = codes_of(alloc, group.ops.as_slice())?;
    let groupby = copied_texts(alloc, group.groupby.as_slice())?;
    let fields = fields_of(alloc, group.ops.as_slice())?;
    let names = names_of(alloc, group.ops.as_slice())?;
    Ok(Aggregate {
        groupby: Some(groupby),
        ops: Some(ops),
        fields: Some(fields),
        as_: Some(names),
    })
}

// ---- stacks

// Where a stack begins.
fn offset_written(offset: RowOffset) -> Offset
    ensures { result ≡ offset_written offset }
{
    match offset {
        RowOffset::Zero => Offset::Zero,
        RowOffset::Normalize => Offset::Normalize,
        RowOffset::Center => Offset::Center,
    }
}

// A stack.
fn stack_written(alloc: Global, stack: &StackOf) -> Result<Transform, OutOfMemory>
    ensures { IfOk result (λ written. written ≡ vega.Stack (stack_written stack.now)) }
{
    let names = field_and_names(&stack.field, &stack.out, &stack.out_end)?;
    let (names, groupby) = copied_beside(alloc, names, &stack.groupby)?;
    let (kept, sort) = sort_beside(alloc, (names, groupby), stack.sort.as_slice())?;
    let ((field, names), groupby) = kept;
    Ok(Transform::Stack(Stack {
        groupby: Some(groupby),
        field,
        sort,
        offset: Some(offset_written(stack.offset)),
        as_: Some(names),
    }))
}

// ---- windows

// The numbers that operations take.
fn params_written(alloc: Global, params: &[u32]) -> Result<Seq<Option<Num>>, OutOfMemory>
    ensures { IfOk result (λ written. written ≡ map param_given params.now) }
{
    let mut out = Seq::new(alloc);
    for param in params {
        out.push(Some(ones(*param)))?;
    }
    Ok(out)
}

// A bound of a frame, if there is one.
fn bound_of(bound: Option<i32>) -> Option<Num>
    ensures { result ≡ option_map bound_written bound }
{
    match bound {
        Some(n) => Some(bound_written(n)),
        None => None,
    }
}

// The rows about each row.
fn frame_written(window: &WindowOf) -> Frame
    ensures { result ≡ frame_written window.now }
{
    Frame {
        first: bound_of(window.before),
        last: bound_of(window.after),
    }
}

// A window with its operations.
fn window_with(
    alloc: Global,
    window: &WindowOf,
    ops: Seq<u16>,
    params: Seq<Option<Num>>,
) -> Result<Window, OutOfMemory>
    ensures { IfOk result (λ written. written ≡ record (window_written window.now) { ops = ops; params = Some params }) }
{
    let fields = fields_of(alloc, window.ops.as_slice())?;
    let names = names_of(alloc, window.ops.as_slice())?;
    let groupby = copied_texts(alloc, window.groupby.as_slice())?;
    let sort = sort_written(alloc, window.sort.as_slice())?;
    Ok(Window {
        ops,
        fields: Some(fields),
        params: Some(params),
        as_: Some(names),
        groupby: Some(groupby),
        sort,
        frame: Some(frame_written(window)),
        ignore_peers: Some(window.ignore_peers),
    })
}

// A window.
fn window_written(alloc: Global, window: &WindowOf) -> Result<Transform, OutOfMemory>
    ensures { IfOk result (λ written. written ≡ vega.Window (window_written window.now)) }
{
    let ops = codes_of(alloc, window.ops.as_slice())?;
    let params = params_written(alloc, window.params.as_slice())?;
    window_with(alloc, window, ops, params).map(Transform::Window)
}

// ---- lookups and folds

// A lookup in a source.
fn lookup_written(alloc: Global, source: &Text, lookup: &LookupOf) -> Result<Transform, OutOfMemory>
    ensures { IfOk result (λ written. written ≡ vega.Lookup (lookup_written source.now lookup.now)) }
{
    let from = source.copy()?;
    let key = lookup.key_there.copy()?;
    let fields = one_of(alloc, lookup.key_here.copy()?)?;
    let values = copied_texts(alloc, lookup.fields.as_slice())?;
    let names = own_texts(alloc, lookup.outs.as_slice())?;
    let default = lookup.otherwise.copied(alloc)?;
    Ok(Transform::Lookup(Lookup {
        from,
        key,
        fields,
        values,
        as_: Some(names),
        default: Some(default),
    }))
}

// A fold.
fn fold_written(alloc: Global, fold: &FoldOf) -> Result<Transform, OutOfMemory>
    ensures { IfOk result (λ written. written ≡ vega.Fold (fold_written fold.now)) }
{
    let fields = own_texts(alloc, fold.fields.as_slice())?;
    let names = both_names(&fold.out_key, &fold.out_value)?;
    Ok(Transform::Fold(Fold {
        fields,
        as_: Some(names),
    }))
}

// ---- steps

// A step.
fn step_written(alloc: Global, stem: &Text, step: &Step) -> Result<Transform, OutOfMemory>
    ensures { IfOk result (λ written. written ≡ step_written stem.now step.now) }
{
    match step {
        Step::Filter(e) => filter_written(alloc, e),
        Step::Calculate(e, name) => formula_written(alloc, e, name),
        Step::Bin(bin) => bin_written(stem, bin),
        Step::Unit(unit) => unit_written(unit),
        Step::Group(group) => group_written(alloc, group).map(Transform::Aggregate),
        Step::Join(group) => group_written(alloc, group).map(Transform::JoinAggregate),
        Step::Stack(stack) => stack_written(alloc, stack),
        Step::Window(window) => window_written(alloc, window),
        Step::Lookup(source, lookup) => lookup_written(alloc, source, lookup),
        Step::Fold(fold) => fold_written(alloc, fold),
    }
}

/// Adds the transforms of steps.
pub(crate) fn push_steps(
    alloc: Global,
    stem: &Text,
    steps: &[Step],
    out: &mut Seq<Transform>,
) -> Result<(), OutOfMemory>
    ensures { OnOk result (out.new ≡ out.old ++ steps_written stem.now steps.now) }
{
    for step in steps {
        out.push(step_written(alloc, stem, step)?)?;
    }
    Ok(())
}
