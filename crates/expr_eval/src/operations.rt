// What operators give for the values of their operands.
ghost use Rattle.std.specs.Prelude.{◌≡◌, ◌≢◌, pos, ◌-ℤ◌, ◌*ℤ◌, int_div, IfOk, Some};
ghost use Rattle.cell_value.specs.Cell.{kind};
ghost use Rattle.cell_value.specs.Display.{display_of};
ghost use Rattle.expr_eval.specs.Answers.{Evaluates};
ghost use Rattle.expr_eval.specs.Operations.{like, order_of, flag_or_null, two_numbers, on_numbers, joins, joined, added, difference};
ghost use Rattle.expr_eval.specs.Operations.{product, quotient, remainder, negated, operated, decides, paired};

use crate::EvalError;
use crate::numbers::{cell_number, is_pair, is_text, the_number};
use crate::ranges::number;
use cell_value::Cell;
use expr_syntax::BinOp;
use fixed_num::Num;
use std::alloc::Global;
use std::cmp::Ordering;
use text_kit::{OutOfMemory, Text};

// Where the kind stands in the order of cells.
fn kind(cell: &Cell) -> u8
    ensures { result ≡ kind cell.now }
{
    match cell {
        Cell::Null => 0,
        Cell::Flag(_) => 1,
        Cell::Number(_) => 2,
        Cell::Text(_) => 3,
        Cell::Pair(_, _) => 4,
    }
}

// Whether two cells are equal for `==`.
fn like(a: &Cell, b: &Cell) -> bool
    ensures { result ≡ like a.now b.now }
{
    if kind(a) == kind(b) {
        return a.same(b);
    }
    match (cell_number(a), cell_number(b)) {
        (Some(a), Some(b)) => a == b,
        _ => false,
    }
}

// How two numbers or two texts stand to each other; None for other cells.
fn order_of(a: &Cell, b: &Cell) -> Option<Ordering>
    ensures { result ≡ order_of a.now b.now }
{
    match (a, b) {
        (Cell::Number(a), Cell::Number(b)) => Some(a.cmp(b)),
        (Cell::Text(a), Cell::Text(b)) => Some(a.as_str().cmp(b.as_str())),
        _ => None,
    }
}

// Two numbers; None for other cells.
fn two_numbers(a: &Cell, b: &Cell) -> Option<(Num, Num)>
    ensures { result ≡ two_numbers a.now b.now }
{
    Some((the_number(a)?, the_number(b)?))
}

// Whether `+` joins the displays of two cells.
fn joins(a: &Cell, b: &Cell) -> bool
    ensures { result ≡ joins a.now b.now }
{
    (is_text(a) || is_text(b)) && !is_pair(a) && !is_pair(b)
}

// How the cell is displayed; a text stays what it is.
fn into_display(alloc: Global, cell: Cell) -> Result<Text, OutOfMemory>
    ensures { IfOk result (λ text. text ≡ display_of cell) }
{
    match cell {
        Cell::Text(text) => Ok(text),
        other => other.display(alloc),
    }
}

// The displays of two cells, one after the other. A text on the left grows.
fn join(alloc: Global, a: Cell, b: &Cell) -> Result<Cell, EvalError>
    ensures { Evaluates result (Some (joined a b.now)) }
{
    let mut text = into_display(alloc, a)?;
    match b {
        Cell::Text(more) => text.push_str(more.as_str())?,
        other => text.push_str(other.display(alloc)?.as_str())?,
    }
    Ok(Cell::Text(text))
}

// `+`
#[tactic(auto, using(crate::proofs::RangeLemmas::in_range_from_exact))]
fn add(alloc: Global, a: Cell, b: Cell) -> Result<Cell, EvalError>
    ensures { Evaluates result (added a b) }
{
    if joins(&a, &b) {
        return join(alloc, a, &b);
    }
    let Some((x, y)) = two_numbers(&a, &b) else {
        return Ok(Cell::Null);
    };
    number(x.add(y))
}

// `-`
#[tactic(auto, using(crate::proofs::RangeLemmas::in_range_from_exact))]
fn subtract(a: &Cell, b: &Cell) -> Result<Cell, EvalError>
    ensures { Evaluates result (on_numbers difference a.now b.now) }
{
    let Some((x, y)) = two_numbers(a, b) else {
        return Ok(Cell::Null);
    };
    number(x.sub(y))
}

// `*`
#[tactic(auto, using(crate::proofs::RangeLemmas::in_range_from_exact))]
fn multiply(a: &Cell, b: &Cell) -> Result<Cell, EvalError>
    ensures { Evaluates result (on_numbers product a.now b.now) }
{
    let Some((x, y)) = two_numbers(a, b) else {
        return Ok(Cell::Null);
    };
    number(x.mul(y))
}

// `/` of numbers.
#[tactic(auto, using(crate::proofs::RangeLemmas::in_range_from_quotient))]
fn quotient(x: Num, y: Num) -> Result<Cell, EvalError>
    ensures { Evaluates result (quotient x y) }
{
    if y.millionths() == 0 {
        return Ok(Cell::Null);
    }
    number(x.div(y))
}

// `/`
fn divide(a: &Cell, b: &Cell) -> Result<Cell, EvalError>
    ensures { Evaluates result (on_numbers quotient a.now b.now) }
{
    let Some((x, y)) = two_numbers(a, b) else {
        return Ok(Cell::Null);
    };
    quotient(x, y)
}

// What is left of a count when another one is taken from it.
#[tactic(auto, using(crate::proofs::RangeLemmas::rest_is))]
fn rest(x: Num, y: Num) -> i128
    requires { y ≢ pos 0 }
    ensures { result ≡ x -ℤ y *ℤ int_div x y }
{
    x.millionths() % y.millionths()
}

// `%` of numbers.
#[tactic(auto, using(crate::proofs::RangeLemmas::in_range_from_exact))]
fn remainder(x: Num, y: Num) -> Result<Cell, EvalError>
    ensures { Evaluates result (remainder x y) }
{
    if y.millionths() == 0 {
        return Ok(Cell::Null);
    }
    number(Num::of_millionths(rest(x, y)))
}

// `%`
fn take_remainder(a: &Cell, b: &Cell) -> Result<Cell, EvalError>
    ensures { Evaluates result (on_numbers remainder a.now b.now) }
{
    let Some((x, y)) = two_numbers(a, b) else {
        return Ok(Cell::Null);
    };
    remainder(x, y)
}

/// Unary `-`. It takes no memory; a number as far on the other side of 0 is always in range.
#[tactic(auto, using(crate::proofs::RangeLemmas::in_range_from_exact))]
pub(crate) fn negate(a: &Cell) -> Result<Cell, EvalError>
    ensures { Evaluates result (negated a.now) }
{
    match the_number(a) {
        Some(n) => number(Num::of_millionths(-n.millionths())),
        None => Ok(Cell::Null),
    }
}

/// Whether the left operand decides, so that the right one isn't needed.
pub(crate) fn decides(op: BinOp, a: &Cell) -> bool
    ensures { result ≡ decides op a.now }
{
    match op {
        BinOp::Or => a.truthy(),
        BinOp::And => !a.truthy(),
        _ => false,
    }
}

// A test of how two cells stand to each other, null where they don't.
fn flag_or_null(found: Option<bool>) -> Cell
    ensures { result ≡ flag_or_null found }
{
    match found {
        Some(flag) => Cell::Flag(flag),
        None => Cell::Null,
    }
}

/// What an operator gives for two operands. `Overflow` exactly where the result is out of range.
pub(crate) fn operate(alloc: Global, op: BinOp, a: Cell, b: Cell) -> Result<Cell, EvalError>
    ensures { Evaluates result (operated op a b) }
{
    match op {
        BinOp::Or => Ok(if a.truthy() { a } else { b }),
        BinOp::And => Ok(if a.truthy() { b } else { a }),
        BinOp::Like => Ok(Cell::Flag(like(&a, &b))),
        BinOp::NotLike => Ok(Cell::Flag(!like(&a, &b))),
        BinOp::Same => Ok(Cell::Flag(a.same(&b))),
        BinOp::NotSame => Ok(Cell::Flag(!a.same(&b))),
        BinOp::Less => Ok(flag_or_null(order_of(&a, &b).map(|order| order.is_lt()))),
        BinOp::LessSame => Ok(flag_or_null(order_of(&a, &b).map(|order| order.is_le()))),
        BinOp::More => Ok(flag_or_null(order_of(&a, &b).map(|order| order.is_gt()))),
        BinOp::MoreSame => Ok(flag_or_null(order_of(&a, &b).map(|order| order.is_ge()))),
        BinOp::Add => add(alloc, a, b),
        BinOp::Sub => subtract(&a, &b),
        BinOp::Mul => multiply(&a, &b),
        BinOp::Div => divide(&a, &b),
        BinOp::Rem => take_remainder(&a, &b),
    }
}

/// `[a, b]`
pub(crate) fn pair(a: &Cell, b: &Cell) -> Cell
    ensures { result ≡ paired a.now b.now }
{
    match two_numbers(a, b) {
        Some((a, b)) => Cell::Pair(a, b),
        None => Cell::Null,
    }
}
