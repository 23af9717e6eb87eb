// Domains of scales by what is known of the cells of their references.
ghost use Rattle.std.specs.Prelude.{◌≡◌, ◌≤ℤ◌, true, false, IfOk, IfSome, IsTrue};
ghost use Rattle.std.specs.Option.{option_map};
ghost use Rattle.expr_eval.specs.Answers.{Evaluates};
ghost use Rattle.expr_eval.specs.Plain.{null_row};
ghost use Rattle.expr_eval.specs.Value.{value_of};
ghost use Rattle.scale_kit.specs.Scale.{AreInstants};
ghost use Rattle.domain_kit.specs.Counting.{extent_among};
ghost use Rattle.vega_scales.specs.Domains.{cells_in, counting_in};
ghost use Rattle.vega_scales.specs.Known.{sort_of, falls, extent_by, widened_by, numbers_by, domain_of_numbers, in_order_asked, cells_by};
ghost use Rattle.vega_scales.specs.Known.{domain_of_cells, domain_by_rank};
ghost use Rattle.vega_scales.specs.Scales.{is_discrete, is_set, is_time, takes_zero, FitsScale};

use crate::domains::{cells_of_value, descends, extent_in, raw_domain, widened};
use crate::scaled::Scaled;
use cell_value::Cell;
use domain_kit::{Entry, by_rank, extent_between, in_direction, in_first_order};
use expr_eval::{EvalError, ParamReader};
use expr_syntax::Expr;
use fixed_num::Num;
use std::alloc::Global;
use text_kit::{OutOfMemory, Seq, copy_list};
use vega_spec::{Domain, DomainOrder, Scale};

// Whether an order runs from the greatest to the least.
fn falls(sort: &Option<DomainOrder>) -> bool
    ensures { result ≡ falls sort.now }
{
    match sort {
        None => false,
        Some(DomainOrder::True) => false,
        Some(DomainOrder::Cells(direction)) => descends(*direction),
        Some(DomainOrder::Operation(direction, _, _)) => descends(*direction),
    }
}

// Whether the order of a domain does.
fn falls_there(domain: &Domain) -> bool
    ensures { result ≡ falls (sort_of domain.now) }
{
    match domain {
        Domain::Cells(_) => false,
        Domain::Signal(_) => false,
        Domain::Field(of) => falls(&of.sort),
        Domain::Fields(of) => falls(&of.sort),
    }
}

// The extent that the value of an expression gives.
fn extent_of_value<P: ParamReader>(
    alloc: Global,
    scale: &Scale,
    e: &Expr,
    params: &P,
) -> Result<(Num, Num), EvalError>
    ensures value { Evaluates result (option_map (extent_among (counting_in (is_time scale.now) scale.now.domain))
        (option_map cells_in (value_of null_row (P.values params.now) e.now))) }
    ensures ordered { IfOk result (λ ends. ends.0 ≤ℤ ends.1) }
{
    let cells = cells_of_value(alloc, e, params)?;
    Ok(extent_in(scale, cells.as_slice()))
}

// The extent of the domain of a scale, by the ends of the numbers of its references.
fn extent_by<P: ParamReader>(
    alloc: Global,
    scale: &Scale,
    ends: Option<(Num, Num)>,
    params: &P,
) -> Result<(Num, Num), EvalError>
    requires { IfSome ends (λ e. e.0 ≤ℤ e.1) }
    ensures value { Evaluates result (extent_by (P.values params.now) ends (is_time scale.now) scale.now.domain) }
    ensures ordered { IfOk result (λ ends. ends.0 ≤ℤ ends.1) }
{
    match &scale.domain {
        Domain::Cells(cells) => Ok(extent_in(scale, cells.as_slice())),
        Domain::Signal(e) => extent_of_value(alloc, scale, e, params),
        Domain::Field(_) => Ok(extent_between(ends)),
        Domain::Fields(_) => Ok(extent_between(ends)),
    }
}

// That extent, widened as the scale asks.
fn widened_by<P: ParamReader>(
    alloc: Global,
    scale: &Scale,
    ends: Option<(Num, Num)>,
    params: &P,
) -> Result<(Num, Num), EvalError>
    requires { IfSome ends (λ e. e.0 ≤ℤ e.1) }
    ensures value { Evaluates result (widened_by (P.values params.now) ends (is_time scale.now) (takes_zero scale.now)
        (is_set scale.now.nice) scale.now.domain) }
    ensures ordered { IfOk result (λ ends. ends.0 ≤ℤ ends.1) }
{
    let found = extent_by(alloc, scale, ends, params)?;
    match widened(scale, found) {
        Some(domain) => Ok(domain),
        None => Err(EvalError::Overflow),
    }
}

// The numbers between which the domain of a continuous scale runs, by the ends of the numbers of its references.
fn numbers_by<P: ParamReader>(
    alloc: Global,
    scale: &Scale,
    ends: Option<(Num, Num)>,
    params: &P,
) -> Result<(Num, Num), EvalError>
    requires { IfSome ends (λ e. e.0 ≤ℤ e.1) }
    ensures value { Evaluates result (numbers_by (P.values params.now) ends scale.now) }
    ensures ordered { IfOk result (λ ends. ends.0 ≤ℤ ends.1) }
{
    match raw_domain(alloc, scale, params) {
        Ok(Some(given)) => Ok(given),
        Ok(None) => widened_by(alloc, scale, ends, params),
        Err(e) => Err(e),
    }
}

/// What a continuous scale scales, by the least and the greatest number that count among the cells of its references, None where none
/// counts; on a time scale they are instants in range. `Overflow` comes exactly where an expression that its domain needs overflows or its
/// domain is widened out of range.
pub fn domain_of_numbers<P: ParamReader>(
    alloc: Global,
    scale: &Scale,
    ends: Option<(Num, Num)>,
    params: &P,
) -> Result<Scaled, EvalError>
    requires continuous { is_discrete scale.now ≡ false }
    requires ordered { IfSome ends (λ e. e.0 ≤ℤ e.1) }
    requires in_time { IsTrue (is_time scale.now) → IfSome ends AreInstants }
    ensures value { Evaluates result (domain_of_numbers (P.values params.now) ends scale.now) }
    ensures fits { IfOk result (FitsScale scale.now) }
{
    let (d0, d1) = numbers_by(alloc, scale, ends, params)?;
    Ok(Scaled::Between(d0, d1))
}

// Cells in an order that isn't by an operation.
fn in_order_asked(
    alloc: Global,
    sort: &Option<DomainOrder>,
    cells: Seq<Cell>,
) -> Result<Seq<Cell>, OutOfMemory>
    ensures { IfOk result (λ out. out ≡ in_order_asked sort.now cells) }
{
    match sort {
        None => in_first_order(alloc, cells.as_slice()),
        Some(_) => in_direction(alloc, falls(sort), cells),
    }
}

// The cells of a discrete domain, by those of its references.
fn cells_by<P: ParamReader>(
    alloc: Global,
    domain: &Domain,
    cells: Seq<Cell>,
    params: &P,
) -> Result<Seq<Cell>, EvalError>
    ensures { Evaluates result (cells_by (P.values params.now) cells domain.now) }
{
    match domain {
        Domain::Cells(given) => Ok(copy_list(alloc, given.as_slice())?),
        Domain::Signal(e) => cells_of_value(alloc, e, params),
        Domain::Field(of) => Ok(in_order_asked(alloc, &of.sort, cells)?),
        Domain::Fields(of) => Ok(in_order_asked(alloc, &of.sort, cells)?),
    }
}

/// What a discrete scale whose cells stand by no operation scales, by the cells of its references: all of them, or as many as stand for
/// them in its order. `Overflow` comes exactly where the expression of its domain overflows.
pub fn domain_of_cells<P: ParamReader>(
    alloc: Global,
    scale: &Scale,
    cells: Seq<Cell>,
    params: &P,
) -> Result<Scaled, EvalError>
    requires { is_discrete scale.now ≡ true }
    ensures value { Evaluates result (domain_of_cells (P.values params.now) cells scale.now) }
    ensures fits { IfOk result (FitsScale scale.now) }
{
    let found = cells_by(alloc, &scale.domain, cells, params)?;
    Ok(Scaled::Cells(found))
}

/// What a discrete scale whose cells stand by an operation scales, by its distinct cells in ascending order, each as the value under what the
/// operation gives for it.
pub fn domain_by_rank(alloc: Global, scale: &Scale, ranks: &[Entry]) -> Result<Scaled, OutOfMemory>
    requires { is_discrete scale.now ≡ true }
    ensures value { IfOk result (λ domain. domain ≡ domain_by_rank ranks.now scale.now) }
    ensures fits { IfOk result (FitsScale scale.now) }
{
    let cells = by_rank(alloc, falls_there(&scale.domain), ranks)?;
    Ok(Scaled::Cells(cells))
}
