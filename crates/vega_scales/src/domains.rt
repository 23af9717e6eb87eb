// The domains of scales.
ghost use Rattle.std.specs.Prelude.{◌≡◌, ◌≤ℤ◌, [], ◌∷◌, IfOk, IfSome};
ghost use Rattle.std.specs.Option.{option_map};
ghost use Rattle.expr_eval.specs.Answers.{Evaluates};
ghost use Rattle.expr_eval.specs.Plain.{null_row};
ghost use Rattle.expr_eval.specs.Value.{value_of};
ghost use Rattle.vega_lists.specs.Held.{scope_read, AreAllRows};
ghost use Rattle.domain_kit.specs.Cells.{in_first_order};
ghost use Rattle.domain_kit.specs.Counting.{extent_among, widened_as_asked};
ghost use Rattle.domain_kit.specs.Orders.{in_direction, by_operation};
ghost use Rattle.vega_scales.specs.Domains.{cells_in, reference_of, cells_referred, entries_referred, descends, in_order, discrete_domain};
ghost use Rattle.vega_scales.specs.Domains.{cells_of_domain, counting_in, raw_domain, extent_of_domain, widened_domain};
ghost use Rattle.vega_scales.specs.Scales.{is_set, is_time, takes_zero, numbers_of_scale};

use crate::columns;
use crate::evaluation::eval_alone;
use crate::scales::{is_set, is_time, takes_zero};
use cell_value::Cell;
use domain_kit::{Counting, numbers_or_instants, pair_in};
use expr_eval::{EvalError, ParamReader};
use expr_syntax::Expr;
use fixed_num::Num;
use std::alloc::Global;
use text_kit::{OutOfMemory, Seq, copy_list};
use vega_lists::ListReader;
use vega_spec::{Domain, DomainOrder, FieldDomain, Order, Reference, Scale};

// A list of one cell.
fn one_cell(alloc: Global, cell: Cell) -> Result<Seq<Cell>, OutOfMemory>
    ensures { IfOk result (λ cells. cells ≡ cell ∷ []) }
{
    let mut cells = Seq::new(alloc);
    cells.push(cell)?;
    Ok(cells)
}

// The cells that a value stands for as a domain.
fn cells_in(alloc: Global, value: Cell) -> Result<Seq<Cell>, OutOfMemory>
    ensures { IfOk result (λ cells. cells ≡ cells_in value) }
{
    match value {
        Cell::Null => Ok(Seq::new(alloc)),
        Cell::Flag(b) => one_cell(alloc, Cell::Flag(b)),
        Cell::Number(n) => one_cell(alloc, Cell::Number(n)),
        Cell::Text(text) => one_cell(alloc, Cell::Text(text)),
        Cell::Pair(a, b) => {
            let mut cells = one_cell(alloc, Cell::Number(a))?;
            cells.push(Cell::Number(b))?;
            Ok(cells)
        }
    }
}

/// The cells that the value of an expression stands for.
pub(crate) fn cells_of_value<P: ParamReader>(
    alloc: Global,
    e: &Expr,
    params: &P,
) -> Result<Seq<Cell>, EvalError>
    ensures { Evaluates result (option_map cells_in (value_of null_row (P.values params.now) e.now)) }
{
    let value = eval_alone(alloc, e, params)?;
    Ok(cells_in(alloc, value)?)
}

// The one reference of a domain over one field.
fn one_reference(alloc: Global, of: &FieldDomain) -> Result<Seq<Reference>, OutOfMemory>
    ensures { IfOk result (λ references. references ≡ reference_of of.now ∷ []) }
{
    let reference = Reference {
        data_: of.data_.copy()?,
        field: of.field.copy()?,
    };
    let mut references = Seq::new(alloc);
    references.push(reference)?;
    Ok(references)
}

// The distinct cells of references by their first rows.
fn by_first_rows<L: ListReader>(
    alloc: Global,
    lists: &L,
    references: &[Reference],
) -> Result<Seq<Cell>, OutOfMemory>
    requires { AreAllRows (L.named lists.now) }
    ensures { IfOk result (λ out. out ≡ in_first_order (cells_referred (scope_read (L.named lists.now)) references.now)) }
{
    let cells = columns::cells_referred(alloc, lists, references)?;
    domain_kit::in_first_order(alloc, cells.as_slice())
}

/// Whether cells stand from the greatest to the least.
pub(crate) fn descends(direction: Option<Order>) -> bool
    ensures { result ≡ descends direction }
{
    match direction {
        None => false,
        Some(Order::Ascending) => false,
        Some(Order::Descending) => true,
    }
}

// The distinct cells of references by themselves.
fn by_cells<L: ListReader>(
    alloc: Global,
    lists: &L,
    references: &[Reference],
    direction: Option<Order>,
) -> Result<Seq<Cell>, OutOfMemory>
    requires { AreAllRows (L.named lists.now) }
    ensures { IfOk result (λ out. out ≡ in_direction (descends direction) (cells_referred (scope_read (L.named lists.now)) references.now)) }
{
    let cells = columns::cells_referred(alloc, lists, references)?;
    domain_kit::in_direction(alloc, descends(direction), cells)
}

// The distinct cells of references by an operation over a field.
fn by_field<L: ListReader>(
    alloc: Global,
    lists: &L,
    references: &[Reference],
    direction: Option<Order>,
    op: u16,
    field: &str,
) -> Result<Seq<Cell>, EvalError>
    requires { AreAllRows (L.named lists.now) }
    ensures { Evaluates result (by_operation (descends direction) op (entries_referred (scope_read (L.named lists.now)) field.now references.now)) }
{
    let entries = columns::entries_referred(alloc, lists, field, references)?;
    domain_kit::by_operation(alloc, descends(direction), op, entries.as_slice())
}

// The distinct cells of references in their order.
fn in_order<L: ListReader>(
    alloc: Global,
    lists: &L,
    references: &[Reference],
    sort: &Option<DomainOrder>,
) -> Result<Seq<Cell>, EvalError>
    requires { AreAllRows (L.named lists.now) }
    ensures { Evaluates result (in_order (scope_read (L.named lists.now)) references.now sort.now) }
{
    match sort {
        None => Ok(by_first_rows(alloc, lists, references)?),
        Some(DomainOrder::True) => Ok(by_cells(alloc, lists, references, None)?),
        Some(DomainOrder::Cells(direction)) => {
            Ok(by_cells(alloc, lists, references, *direction)?)
        }
        Some(DomainOrder::Operation(direction, op, field)) => {
            let field = field.as_str();
            by_field(alloc, lists, references, *direction, *op, field)
        }
    }
}

/// The cells of a discrete domain: a list and the cells that the value of an expression stands for as they are, those of references
/// distinct and in their order: by their first rows, ascending or descending, or by an operation over a field of the rows that have the
/// cell. `Overflow` comes exactly where the expression overflows, or a sum by which the cells stand.
pub fn discrete_domain<L: ListReader, P: ParamReader>(
    alloc: Global,
    domain: &Domain,
    lists: &L,
    params: &P,
) -> Result<Seq<Cell>, EvalError>
    requires { AreAllRows (L.named lists.now) }
    ensures { Evaluates result (discrete_domain (P.values params.now) (scope_read (L.named lists.now)) domain.now) }
{
    match domain {
        Domain::Cells(cells) => Ok(copy_list(alloc, cells.as_slice())?),
        Domain::Signal(e) => cells_of_value(alloc, e, params),
        Domain::Field(of) => {
            let references = one_reference(alloc, of)?;
            in_order(alloc, lists, references.as_slice(), &of.sort)
        }
        Domain::Fields(of) => in_order(alloc, lists, of.fields.as_slice(), &of.sort),
    }
}

// The cells of which the domain of a continuous scale is made.
fn cells_of_domain<L: ListReader, P: ParamReader>(
    alloc: Global,
    domain: &Domain,
    lists: &L,
    params: &P,
) -> Result<Seq<Cell>, EvalError>
    requires { AreAllRows (L.named lists.now) }
    ensures { Evaluates result (cells_of_domain (P.values params.now) (scope_read (L.named lists.now)) domain.now) }
{
    match domain {
        Domain::Cells(cells) => Ok(copy_list(alloc, cells.as_slice())?),
        Domain::Signal(e) => cells_of_value(alloc, e, params),
        Domain::Field(of) => {
            let references = one_reference(alloc, of)?;
            Ok(columns::cells_referred(alloc, lists, references.as_slice())?)
        }
        Domain::Fields(of) => {
            let references = of.fields.as_slice();
            Ok(columns::cells_referred(alloc, lists, references)?)
        }
    }
}

// Which cells of a domain count.
fn counting_in(of_time: bool, domain: &Domain) -> Counting
    ensures { result ≡ counting_in of_time domain.now }
{
    if !of_time {
        return Counting::Numbers;
    }
    match domain {
        Domain::Cells(_) => Counting::ListedInstants,
        Domain::Signal(_) | Domain::Field(_) | Domain::Fields(_) => Counting::Instants,
    }
}

/// The domain that the raw domain of a scale gives, if its value is a pair.
pub(crate) fn raw_domain<P: ParamReader>(
    alloc: Global,
    scale: &Scale,
    params: &P,
) -> Result<Option<(Num, Num)>, EvalError>
    ensures value { Evaluates result (raw_domain (P.values params.now) (is_time scale.now) scale.now.domain_raw) }
    ensures ordered { IfOk result (λ given. IfSome given (λ ends. ends.0 ≤ℤ ends.1)) }
{
    match &scale.domain_raw {
        Some(e) => {
            let value = eval_alone(alloc, e, params)?;
            Ok(pair_in(numbers_or_instants(is_time(scale)), &value))
        }
        None => Ok(None),
    }
}

/// The least and the greatest number among cells of the domain of a scale.
pub(crate) fn extent_in(scale: &Scale, cells: &[Cell]) -> (Num, Num)
    ensures value { result ≡ extent_among (counting_in (is_time scale.now) scale.now.domain) cells.now }
    ensures ordered { result.0 ≤ℤ result.1 }
{
    domain_kit::extent_among(counting_in(is_time(scale), &scale.domain), cells)
}

// The least and the greatest number among the cells of the domain of a scale.
fn extent_of_domain<L: ListReader, P: ParamReader>(
    alloc: Global,
    scale: &Scale,
    lists: &L,
    params: &P,
) -> Result<(Num, Num), EvalError>
    requires { AreAllRows (L.named lists.now) }
    ensures value { Evaluates result (extent_of_domain (P.values params.now) (scope_read (L.named lists.now)) (is_time scale.now)
        scale.now.domain) }
    ensures ordered { IfOk result (λ ends. ends.0 ≤ℤ ends.1) }
{
    let cells = cells_of_domain(alloc, &scale.domain, lists, params)?;
    Ok(extent_in(scale, cells.as_slice()))
}

/// A domain widened as a scale asks.
pub(crate) fn widened(scale: &Scale, ends: (Num, Num)) -> Option<(Num, Num)>
    requires { ends.0 ≤ℤ ends.1 }
    ensures value { result ≡ widened_as_asked (is_time scale.now) (takes_zero scale.now) (is_set scale.now.nice) ends }
    ensures ordered { IfSome result (λ ends. ends.0 ≤ℤ ends.1) }
{
    domain_kit::widened_as_asked(is_time(scale), takes_zero(scale), is_set(scale.nice), ends)
}

// The domain that the cells of a domain give.
fn widened_domain<L: ListReader, P: ParamReader>(
    alloc: Global,
    scale: &Scale,
    lists: &L,
    params: &P,
) -> Result<(Num, Num), EvalError>
    requires { AreAllRows (L.named lists.now) }
    ensures value { Evaluates result (widened_domain (P.values params.now) (scope_read (L.named lists.now)) (is_time scale.now)
        (takes_zero scale.now) (is_set scale.now.nice) scale.now.domain) }
    ensures ordered { IfOk result (λ ends. ends.0 ≤ℤ ends.1) }
{
    let ends = extent_of_domain(alloc, scale, lists, params)?;
    match widened(scale, ends) {
        Some(domain) => Ok(domain),
        None => Err(EvalError::Overflow),
    }
}

/// The numbers between which the domain of a continuous scale runs: the raw domain as it is where its value is a pair, else the least and
/// the greatest number of the domain, 0 and 1 where it has none, which take in 0 and are widened to round numbers as the scale asks. On a
/// time scale only instants in range count, and what is widened is cut to that range. `Overflow` comes exactly where an expression that is
/// needed overflows or the domain is widened out of range.
pub(crate) fn continuous_domain<L: ListReader, P: ParamReader>(
    alloc: Global,
    scale: &Scale,
    lists: &L,
    params: &P,
) -> Result<(Num, Num), EvalError>
    requires { AreAllRows (L.named lists.now) }
    ensures value { Evaluates result (numbers_of_scale (P.values params.now) (scope_read (L.named lists.now)) scale.now) }
    ensures ordered { IfOk result (λ ends. ends.0 ≤ℤ ends.1) }
{
    match raw_domain(alloc, scale, params) {
        Ok(Some(given)) => Ok(given),
        Ok(None) => widened_domain(alloc, scale, lists, params),
        Err(e) => Err(e),
    }
}
