// Which data sets mention a signal that has no value.
ghost use Rattle.std.specs.Prelude.{◌≡◌, IfOk, map};
ghost use Rattle.std.specs.List.{list_any};
ghost use Rattle.expr_reading.specs.Mentions.{parameters_in};
ghost use Rattle.vega_signals.specs.Needs.{extent_reads};
ghost use Rattle.vega_signals.specs.Lacking.{lacks, transform_lacks, set_lacks};

use expr_eval::{EvalError, ParamReader};
use expr_reading::parameters_of;
use expr_syntax::Expr;
use std::alloc::Global;
use text_kit::OutOfMemory;
use vega_spec::{BinExtent, DataSet, Transform};

// Whether a name has no value.
fn lacks<P: ParamReader>(alloc: Global, values: &P, name: &str) -> Result<bool, OutOfMemory>
    ensures { IfOk result (λ found. found ≡ lacks (P.values values.now) name.now) }
{
    match values.param(alloc, name) {
        Ok(_) => Ok(false),
        Err(EvalError::Overflow) => Ok(true),
        Err(EvalError::Memory) => Err(OutOfMemory),
    }
}

// Whether one of some names has none.
fn any_lacks<P: ParamReader>(alloc: Global, values: &P, names: &[&str]) -> Result<bool, OutOfMemory>
    ensures { IfOk result (λ found. found ≡ list_any (lacks (P.values values.now)) (map (λ name. name.now) names.now)) }
{
    for name in names {
        if lacks(alloc, values, name)? {
            return Ok(true);
        }
    }
    Ok(false)
}

// Whether an expression mentions a parameter that has none.
fn expression_lacks<P: ParamReader>(
    alloc: Global,
    values: &P,
    e: &Expr,
) -> Result<bool, OutOfMemory>
    ensures { IfOk result (λ found. found ≡ list_any (lacks (P.values values.now)) (parameters_in e.now)) }
{
    let names = parameters_of(alloc, e)?;
    any_lacks(alloc, values, names.as_slice())
}

// Whether bins reach over a signal that has none.
fn extent_lacks<P: ParamReader>(
    alloc: Global,
    values: &P,
    extent: &BinExtent,
) -> Result<bool, OutOfMemory>
    ensures { IfOk result (λ found. found ≡ list_any (lacks (P.values values.now)) (extent_reads extent.now)) }
{
    match extent {
        BinExtent::Pair(_, _) => Ok(false),
        BinExtent::Signal(name) => any_lacks(alloc, values, &[name.as_str()]),
    }
}

// Whether a transform mentions a signal that has none.
fn transform_lacks<P: ParamReader>(
    alloc: Global,
    values: &P,
    transform: &Transform,
) -> Result<bool, OutOfMemory>
    ensures { IfOk result (λ found. found ≡ transform_lacks (P.values values.now) transform.now) }
{
    match transform {
        Transform::Filter(f) => expression_lacks(alloc, values, &f.expr),
        Transform::Formula(f) => expression_lacks(alloc, values, &f.expr),
        Transform::Bin(b) => extent_lacks(alloc, values, &b.extent),
        Transform::Extent(_)
        | Transform::TimeUnit(_)
        | Transform::Aggregate(_)
        | Transform::JoinAggregate(_)
        | Transform::Stack(_)
        | Transform::Window(_)
        | Transform::Lookup(_)
        | Transform::Fold(_) => Ok(false),
    }
}

// Whether one of some transforms does.
fn any_transform_lacks<P: ParamReader>(
    alloc: Global,
    values: &P,
    transforms: &[Transform],
) -> Result<bool, OutOfMemory>
    ensures { IfOk result (λ found. found ≡ list_any (transform_lacks (P.values values.now)) transforms.now) }
{
    for transform in transforms {
        if transform_lacks(alloc, values, transform)? {
            return Ok(true);
        }
    }
    Ok(false)
}

// Whether a transform of a data set does.
fn set_lacks<P: ParamReader>(alloc: Global, values: &P, set: &DataSet) -> Result<bool, OutOfMemory>
    ensures { IfOk result (λ found. found ≡ set_lacks (P.values values.now) set.now) }
{
    any_transform_lacks(alloc, values, vega_lists::transforms_of(set))
}

/// Whether a transform of one of some data sets mentions a signal that has no value: an expression, or the bounds of bins. It counts
/// whether it is evaluated there or not. The store of a selection that an expression tests or counts is no signal.
pub fn any_set_lacks<P: ParamReader>(
    alloc: Global,
    values: &P,
    sets: &[DataSet],
) -> Result<bool, OutOfMemory>
    ensures { IfOk result (λ found. found ≡ list_any (set_lacks (P.values values.now)) sets.now) }
{
    for set in sets {
        if set_lacks(alloc, values, set)? {
            return Ok(true);
        }
    }
    Ok(false)
}
