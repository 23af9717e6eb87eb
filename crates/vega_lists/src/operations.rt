// What operations over groups and windows ask of rows.
ghost use Rattle.std.specs.Prelude.{◌≡◌, [], IfOk, slice_get, unwrap_or, option_map, option_copied};
ghost use Rattle.case_table.specs.declared.case.Case.{Case as ACase};
ghost use Rattle.vega_lists.specs.Operations.{entry_at, operation_name, default_name, op_settings, ops_settings, one_count, group_settings};
ghost use Rattle.vega_lists.specs.Operations.{count_in, offset_in, param_at, params_of, before_of, after_of, window_settings};

use crate::orders::sort_or_empty;
use case_table::{Case, OPERATIONS};
use cell_value::SharedText;
use fixed_num::Num;
use plain_rows::{GroupOf, OpOf, WindowOf};
use std::alloc::Global;
use text_kit::{OutOfMemory, Seq, Text, copy_list};
use vega_spec::{Aggregate, Frame, Window};

// Copies of texts; none without a list.
pub(crate) fn texts_or_empty(
    alloc: Global,
    texts: &Option<Seq<Text>>,
) -> Result<Seq<Text>, OutOfMemory>
    ensures { IfOk result (λ copies. copies ≡ unwrap_or texts.now []) }
{
    match texts {
        Some(texts) => copy_list(alloc, texts.as_slice()),
        None => Ok(Seq::new(alloc)),
    }
}

// The text at a place, where neither the list is absent nor the text.
fn text_at(list: &Option<Seq<Option<Text>>>, place: usize) -> Option<&Text>
    ensures { option_copied result ≡ entry_at list.now place }
{
    match list.as_ref()?.get(place) {
        Some(Some(text)) => Some(text),
        Some(None) | None => None,
    }
}

// The number at a place likewise.
fn number_at(list: &Option<Seq<Option<Num>>>, place: usize) -> Option<Num>
    ensures { result ≡ entry_at list.now place }
{
    match list.as_ref()?.get(place) {
        Some(number) => *number,
        None => None,
    }
}

// The name at a place of a table; empty where there is none.
fn name_in(table: &[Case], place: usize) -> &'static str
    ensures { result.now ≡ unwrap_or (option_map (λ (c : ACase). c.name.now) (slice_get table.now place)) [] }
{
    match table.get(place) {
        Some(case) => case.name,
        None => "",
    }
}

// The name of an operation by its code; empty where there is none.
fn operation_name(code: u16) -> &'static str
    ensures { result.now ≡ operation_name code }
{
    name_in(&OPERATIONS, usize::from(code))
}

// The name of what an operation gives where it has none of its own.
fn default_name(alloc: Global, op: u16, field: Option<&Text>) -> Result<Text, OutOfMemory>
    ensures { IfOk result (λ name. name ≡ default_name op (option_copied field.entry)) }
{
    let mut name = Text::of(alloc, operation_name(op))?;
    if let Some(field) = field {
        name.push_str("_")?;
        name.push_str(field.as_str())?;
    }
    Ok(name)
}

// The name of what an operation gives.
fn name_or_default(
    alloc: Global,
    op: u16,
    field: Option<&Text>,
    name: Option<&Text>,
) -> Result<Text, OutOfMemory>
    ensures { IfOk result (λ out. out ≡ unwrap_or (option_copied name.entry) (default_name op (option_copied field.entry))) }
{
    match name {
        Some(name) => name.copy(),
        None => default_name(alloc, op, field),
    }
}

// A copy of a text, if there is one.
fn copy_of(text: Option<&Text>) -> Result<Option<Text>, OutOfMemory>
    ensures { IfOk result (λ copy. copy ≡ option_copied text.entry) }
{
    match text {
        Some(text) => Ok(Some(text.copy()?)),
        None => Ok(None),
    }
}

// An operation with its field and its name.
fn op_settings(
    alloc: Global,
    op: u16,
    field: Option<&Text>,
    name: Option<&Text>,
) -> Result<OpOf, OutOfMemory>
    ensures { IfOk result (λ how. how ≡ op_settings op (option_copied field.entry) (option_copied name.entry)) }
{
    Ok(OpOf {
        op,
        field: copy_of(field)?,
        out: SharedText::of_text(alloc, name_or_default(alloc, op, field, name)?)?,
    })
}

// Operations, each with the field and the name at its place.
fn ops_settings(
    alloc: Global,
    ops: &[u16],
    fields: &Option<Seq<Option<Text>>>,
    names: &Option<Seq<Option<Text>>>,
) -> Result<Seq<OpOf>, OutOfMemory>
    ensures { IfOk result (λ settings. settings ≡ ops_settings ops.now fields.now names.now) }
{
    let mut settings = Seq::with_capacity(alloc, ops.len())?;
    for (place, op) in ops.iter().enumerate() {
        let field = text_at(fields, place);
        settings.push(op_settings(alloc, *op, field, text_at(names, place))?)?;
    }
    Ok(settings)
}

/// The operations of a transform that has none: one `count`.
const ONE_COUNT: [u16; 1] = [0];

// The codes of operations; one `count` without a list.
fn ops_or_count(ops: &Option<Seq<u16>>) -> &[u16]
    ensures { result.now ≡ unwrap_or ops.now one_count }
{
    match ops {
        Some(ops) => ops.as_slice(),
        None => &ONE_COUNT,
    }
}

/// What an aggregate computes of each group.
pub(crate) fn group_settings(alloc: Global, a: &Aggregate) -> Result<GroupOf, OutOfMemory>
    ensures { IfOk result (λ how. how ≡ group_settings a.now) }
{
    Ok(GroupOf {
        groupby: texts_or_empty(alloc, &a.groupby)?,
        ops: ops_settings(alloc, ops_or_count(&a.ops), &a.fields, &a.as_)?,
    })
}

/// A whole number as a count of 32 bits, without its sign; a greater one is cut.
pub(crate) fn count_in(number: Num) -> u32
    ensures { result ≡ count_in number }
{
    (number.millionths().unsigned_abs() / 1_000_000).min(u128::from(u32::MAX)) as u32
}

// A whole number as an offset of 32 bits; a greater one is cut.
fn offset_in(number: Num) -> i32
    ensures { result ≡ offset_in number }
{
    let whole = number.millionths().div_euclid(1_000_000);
    whole.min(i128::from(i32::MAX)).max(i128::from(i32::MIN)) as i32
}

// The number that an operation takes, 1 without one.
fn param_at(params: &Option<Seq<Option<Num>>>, place: usize) -> u32
    ensures { result ≡ param_at params.now place }
{
    match number_at(params, place) {
        Some(number) => count_in(number),
        None => 1,
    }
}

// The numbers that operations take, by their places.
fn params_of(
    alloc: Global,
    ops: &[u16],
    params: &Option<Seq<Option<Num>>>,
) -> Result<Seq<u32>, OutOfMemory>
    ensures { IfOk result (λ given. given ≡ params_of ops.now params.now) }
{
    let mut given = Seq::with_capacity(alloc, ops.len())?;
    for (place, _) in ops.iter().enumerate() {
        given.push(param_at(params, place))?;
    }
    Ok(given)
}

// A bound of a frame, if there is one.
fn bound_of(number: Option<Num>) -> Option<i32>
    ensures { result ≡ option_map offset_in number }
{
    match number {
        Some(number) => Some(offset_in(number)),
        None => None,
    }
}

// Where a frame begins.
fn before_of(frame: Option<Frame>) -> Option<i32>
    ensures { result ≡ before_of frame }
{
    match frame {
        Some(bounds) => bound_of(bounds.first),
        None => None,
    }
}

// Where a frame ends, with the row itself where it isn't said.
fn after_of(frame: Option<Frame>) -> Option<i32>
    ensures { result ≡ after_of frame }
{
    match frame {
        Some(bounds) => bound_of(bounds.last),
        None => Some(0),
    }
}

/// What a window computes of each row.
pub(crate) fn window_settings(alloc: Global, w: &Window) -> Result<WindowOf, OutOfMemory>
    ensures { IfOk result (λ how. how ≡ window_settings w.now) }
{
    Ok(WindowOf {
        ops: ops_settings(alloc, w.ops.as_slice(), &w.fields, &w.as_)?,
        params: params_of(alloc, w.ops.as_slice(), &w.params)?,
        groupby: texts_or_empty(alloc, &w.groupby)?,
        sort: sort_or_empty(alloc, &w.sort)?,
        before: before_of(w.frame),
        after: after_of(w.frame),
        ignore_peers: matches!(w.ignore_peers, Some(true)),
    })
}
