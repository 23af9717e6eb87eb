// Expressions made of others, and of cells that are written.
ghost use Rattle.std.specs.Prelude.{◌≡◌, [], ◌∷◌, IfOk};
ghost use Rattle.expr_syntax.specs.declared.expr.Expr.TheVariants as expr;
ghost use Rattle.plan_kit.specs.Literals.{number_expr, literal, whole};

use crate::numbers::{ones, turned};
use cell_value::Cell;
use expr_syntax::{BinOp, Expr};
use fixed_num::Num;
use std::alloc::Global;
use text_kit::{Boxed, OutOfMemory, Seq};

// Two values, each in a box.
fn boxed_two<A: Drop, B: Drop>(
    alloc: Global,
    a: A,
    b: B,
) -> Result<(Boxed<A>, Boxed<B>), OutOfMemory>
    ensures { IfOk result (λ both. both ≡ (a, b)) }
{
    let a = Boxed::new(alloc, a)?;
    Ok((a, Boxed::new(alloc, b)?))
}

// Three values, each in a box.
fn boxed_three<A: Drop, B: Drop, C: Drop>(
    alloc: Global,
    a: A,
    b: B,
    c: C,
) -> Result<(Boxed<A>, Boxed<B>, Boxed<C>), OutOfMemory>
    ensures { IfOk result (λ all. all ≡ (a, b, c)) }
{
    let (a, b) = boxed_two(alloc, a, b)?;
    Ok((a, b, Boxed::new(alloc, c)?))
}

// A list of one value.
fn one_of<A: Drop>(alloc: Global, a: A) -> Result<Seq<A>, OutOfMemory>
    ensures { IfOk result (λ list. list ≡ a ∷ []) }
{
    let mut list = Seq::new(alloc);
    list.push(a)?;
    Ok(list)
}

// A list of two values.
fn two_of<A: Drop>(alloc: Global, a: A, b: A) -> Result<Seq<A>, OutOfMemory>
    ensures { IfOk result (λ list. list ≡ a ∷ b ∷ []) }
{
    let mut list = Seq::new(alloc);
    list.push(a)?;
    list.push(b)?;
    Ok(list)
}

/// An operator between two operands, as an expression.
pub fn binary(alloc: Global, op: BinOp, left: Expr, right: Expr) -> Result<Expr, OutOfMemory>
    ensures { IfOk result (λ e. e ≡ expr.Binary op left right) }
{
    let (left, right) = boxed_two(alloc, left, right)?;
    Ok(Expr::Binary(op, left, right))
}

/// The expression that gives what one of two others gives, by the test of a third.
pub fn choose(alloc: Global, test: Expr, yes: Expr, other: Expr) -> Result<Expr, OutOfMemory>
    ensures { IfOk result (λ e. e ≡ expr.Choose test yes other) }
{
    let (test, yes, other) = boxed_three(alloc, test, yes, other)?;
    Ok(Expr::Choose(test, yes, other))
}

/// The opposite of a test.
pub fn opposite(alloc: Global, test: Expr) -> Result<Expr, OutOfMemory>
    ensures { IfOk result (λ e. e ≡ expr.Not test) }
{
    let test = Boxed::new(alloc, test)?;
    Ok(Expr::Not(test))
}

/// The expression that gives the pair of what two others give.
pub fn pair(alloc: Global, first: Expr, second: Expr) -> Result<Expr, OutOfMemory>
    ensures { IfOk result (λ e. e ≡ expr.Pair first second) }
{
    let (first, second) = boxed_two(alloc, first, second)?;
    Ok(Expr::Pair(first, second))
}

/// The call of a builtin with one argument, by the builtin's code among `case_table::BUILTINS`.
pub fn call_one(alloc: Global, code: u16, a: Expr) -> Result<Expr, OutOfMemory>
    ensures { IfOk result (λ e. e ≡ expr.Call code (a ∷ [])) }
{
    let arguments = one_of(alloc, a)?;
    Ok(Expr::Call(code, arguments))
}

/// The call of a builtin with two arguments, by its code as in `call_one`.
pub fn call_two(alloc: Global, code: u16, a: Expr, b: Expr) -> Result<Expr, OutOfMemory>
    ensures { IfOk result (λ e. e ≡ expr.Call code (a ∷ b ∷ [])) }
{
    let arguments = two_of(alloc, a, b)?;
    Ok(Expr::Call(code, arguments))
}

/// A whole number as an expression.
pub fn whole(n: u32) -> Expr
    ensures { result ≡ whole n }
{
    Expr::Number(ones(n))
}

/// A number as an expression: one below zero is the opposite of its size.
pub fn number_expr(alloc: Global, n: Num) -> Result<Expr, OutOfMemory>
    ensures { IfOk result (λ e. e ≡ number_expr n) }
{
    if n.millionths() < 0 {
        let size = Boxed::new(alloc, Expr::Number(turned(n)))?;
        Ok(Expr::Minus(size))
    } else {
        Ok(Expr::Number(n))
    }
}

// Two numbers that are written.
fn pair_expr(alloc: Global, a: Num, b: Num) -> Result<Expr, OutOfMemory>
    ensures { IfOk result (λ e. e ≡ expr.Pair (number_expr a) (number_expr b)) }
{
    let (a, b) = number_beside(alloc, number_expr(alloc, a)?, b)?;
    pair(alloc, a, b)
}

/// What is kept as it is, and beside it a number as an expression.
pub fn number_beside<K: Drop>(alloc: Global, kept: K, n: Num) -> Result<(K, Expr), OutOfMemory>
    ensures { IfOk result (λ both. both ≡ (kept, number_expr n)) }
{
    let e = number_expr(alloc, n)?;
    Ok((kept, e))
}

/// A cell as an expression: a number below zero is the opposite of its size.
pub fn literal(alloc: Global, cell: &Cell) -> Result<Expr, OutOfMemory>
    ensures { IfOk result (λ e. e ≡ literal cell.now) }
{
    match cell {
        Cell::Null => Ok(Expr::Null),
        Cell::Flag(flag) => Ok(Expr::Flag(*flag)),
        Cell::Number(n) => number_expr(alloc, *n),
        Cell::Text(text) => Ok(Expr::Text(text.copy()?)),
        Cell::Pair(a, b) => pair_expr(alloc, *a, *b),
    }
}
