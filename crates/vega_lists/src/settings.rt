// What the transforms of a Vega specification ask of rows, with what stands for the members that are absent.
ghost use Rattle.std.specs.Prelude.{◌≡◌, ◌*◌, [], pos, IfOk, slice_get, unwrap_or};
ghost use Rattle.fixed_num.specs.Number.{million};
ghost use Rattle.cell_value.specs.declared.cell.Cell.TheVariants.{Null};
ghost use Rattle.expr_eval.specs.Answers.{Evaluates};
ghost use Rattle.vega_spec.specs.declared.transforms.Offset.TheVariants as TheOffset;
ghost use Rattle.vega_lists.specs.Operations.{count_in};
ghost use Rattle.vega_lists.specs.Settings.{first_name, second_name, pair_in, extent_in, bin_settings, offset_of, stack_settings};
ghost use Rattle.vega_lists.specs.Settings.{lookup_settings, fold_settings, unit_settings};

use crate::operations::{count_in, texts_or_empty};
use crate::orders::sort_or_empty;
use cell_value::{Cell, SharedText};
use expr_eval::{EvalError, ParamReader};
use fixed_num::Num;
use plain_rows::{BinOf, FoldOf, LookupOf, Offset as RowOffset, StackOf, TimeOf};
use std::alloc::Global;
use text_kit::{OutOfMemory, Seq, Text, copy_list};
use vega_spec::{Bin, BinExtent, Fold, Lookup, Offset, Stack, TimeUnit};

// A copy of the first of two names, or of what stands for it.
fn first_name(
    alloc: Global,
    names: &Option<(Text, Text)>,
    absent: &str,
) -> Result<SharedText, OutOfMemory>
    ensures { IfOk result (λ name. name ≡ first_name names.now absent.now) }
{
    match names {
        Some(both) => SharedText::of(alloc, both.0.as_str()),
        None => SharedText::of(alloc, absent),
    }
}

// A copy of the second of two names, or of what stands for it.
fn second_name(
    alloc: Global,
    names: &Option<(Text, Text)>,
    absent: &str,
) -> Result<SharedText, OutOfMemory>
    ensures { IfOk result (λ name. name ≡ second_name names.now absent.now) }
{
    match names {
        Some(both) => SharedText::of(alloc, both.1.as_str()),
        None => SharedText::of(alloc, absent),
    }
}

// A copy of the first text.
fn first_text(alloc: Global, texts: &[Text]) -> Result<Text, OutOfMemory>
    ensures { IfOk result (λ text. text ≡ unwrap_or (slice_get texts.now 0) []) }
{
    match texts.get(0) {
        Some(text) => text.copy(),
        None => Ok(Text::new(alloc)),
    }
}

// The texts, so that copies share them.
fn shared_texts(alloc: Global, texts: &[Text]) -> Result<Seq<SharedText>, OutOfMemory>
    ensures { IfOk result (λ shared. shared ≡ texts.now) }
{
    let mut shared = Seq::with_capacity(alloc, texts.len())?;
    for text in texts {
        shared.push(SharedText::of(alloc, text.as_str())?)?;
    }
    Ok(shared)
}

// The texts, or those that stand for them, so that copies share them.
fn texts_or(
    alloc: Global,
    texts: &Option<Seq<Text>>,
    absent: &Seq<Text>,
) -> Result<Seq<SharedText>, OutOfMemory>
    ensures { IfOk result (λ shared. shared ≡ unwrap_or texts.now absent.now) }
{
    match texts {
        Some(texts) => shared_texts(alloc, texts.as_slice()),
        None => shared_texts(alloc, absent.as_slice()),
    }
}

// A copy of the cell, null without one.
fn cell_or_null(cell: &Option<Cell>) -> Result<Cell, OutOfMemory>
    ensures { IfOk result (λ copy. copy ≡ unwrap_or cell.now Null) }
{
    match cell {
        Some(cell) => cell.copy(),
        None => Ok(Cell::Null),
    }
}

/// What a lookup asks of rows, with what stands for the members that are absent: the names of its values, and null.
pub fn lookup_settings(alloc: Global, l: &Lookup) -> Result<LookupOf, OutOfMemory>
    ensures { IfOk result (λ how. how ≡ lookup_settings l.now) }
{
    Ok(LookupOf {
        key_here: first_text(alloc, l.fields.as_slice())?,
        key_there: l.key.copy()?,
        fields: copy_list(alloc, l.values.as_slice())?,
        outs: texts_or(alloc, &l.as_, &l.values)?,
        otherwise: cell_or_null(&l.default)?,
    })
}

/// What a fold asks of rows.
pub(crate) fn fold_settings(alloc: Global, f: &Fold) -> Result<FoldOf, OutOfMemory>
    ensures { IfOk result (λ how. how ≡ fold_settings f.now) }
{
    Ok(FoldOf {
        fields: shared_texts(alloc, f.fields.as_slice())?,
        out_key: first_name(alloc, &f.as_, "key")?,
        out_value: second_name(alloc, &f.as_, "value")?,
    })
}

/// What a time unit asks of rows.
pub(crate) fn unit_settings(alloc: Global, t: &TimeUnit) -> Result<TimeOf, OutOfMemory>
    ensures { IfOk result (λ how. how ≡ unit_settings t.now) }
{
    Ok(TimeOf {
        field: t.field.copy()?,
        unit: t.units,
        out: first_name(alloc, &t.as_, "unit0")?,
        out_end: second_name(alloc, &t.as_, "unit1")?,
    })
}

// The two numbers that a cell is, if it is two.
fn pair_in(cell: &Cell) -> Option<(Num, Num)>
    ensures { result ≡ pair_in cell.now }
{
    match cell {
        Cell::Pair(a, b) => Some((*a, *b)),
        Cell::Null | Cell::Flag(_) | Cell::Number(_) | Cell::Text(_) => None,
    }
}

/// The two numbers that bins take in: those given, or those that a signal is. `Overflow` comes exactly where the signal has no value.
pub(crate) fn extent_in<P: ParamReader>(
    alloc: Global,
    extent: &BinExtent,
    params: &P,
) -> Result<Option<(Num, Num)>, EvalError>
    ensures { Evaluates result (extent_in (P.values params.now) extent.now) }
{
    match extent {
        BinExtent::Pair(a, b) => Ok(Some((*a, *b))),
        BinExtent::Signal(name) => match params.param(alloc, name.as_str()) {
            Ok(cell) => Ok(pair_in(&cell)),
            Err(error) => Err(error),
        },
    }
}

// How many bins there are at most, 10 where it isn't said.
fn most_bins(given: Option<Num>) -> u32
    ensures { result ≡ count_in (unwrap_or given (pos (10 * million))) }
{
    match given {
        Some(most) => count_in(most),
        None => 10,
    }
}

/// What bins ask of rows that take in these numbers.
pub(crate) fn bin_settings(
    alloc: Global,
    b: &Bin,
    taken: Option<(Num, Num)>,
) -> Result<BinOf, OutOfMemory>
    ensures { IfOk result (λ how. how ≡ bin_settings taken b.now) }
{
    Ok(BinOf {
        field: b.field.copy()?,
        extent: taken,
        step: b.step,
        maxbins: most_bins(b.maxbins),
        out: first_name(alloc, &b.as_, "bin0")?,
        out_end: second_name(alloc, &b.as_, "bin1")?,
    })
}

// Where a stack begins, at zero where it isn't said.
fn offset_of(given: Option<Offset>) -> RowOffset
    ensures { result ≡ offset_of (unwrap_or given TheOffset.Zero) }
{
    match given {
        Some(Offset::Zero) | None => RowOffset::Zero,
        Some(Offset::Normalize) => RowOffset::Normalize,
        Some(Offset::Center) => RowOffset::Center,
    }
}

/// What a stack asks of rows.
pub(crate) fn stack_settings(alloc: Global, s: &Stack) -> Result<StackOf, OutOfMemory>
    ensures { IfOk result (λ how. how ≡ stack_settings s.now) }
{
    Ok(StackOf {
        field: s.field.copy()?,
        groupby: texts_or_empty(alloc, &s.groupby)?,
        sort: sort_or_empty(alloc, &s.sort)?,
        offset: offset_of(s.offset),
        out: first_name(alloc, &s.as_, "y0")?,
        out_end: second_name(alloc, &s.as_, "y1")?,
    })
}
