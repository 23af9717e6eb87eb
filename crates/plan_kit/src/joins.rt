// Expressions joined by an operator.
ghost use Rattle.std.specs.Prelude.{◌≡◌, ◌++◌, ◌∷◌, [], map, IfOk, OnOk};
ghost use Rattle.expr_syntax.specs.declared.expr.Expr.TheVariants as expr;
ghost use Rattle.plan_kit.specs.Joins.{chunks, pair_of, paired, paired_times, first_or, joined};

use crate::exprs::binary;
use expr_syntax::{BinOp, Expr};
use std::alloc::Global;
use text_kit::{OutOfMemory, Seq};

// Each two neighbours; the last stands alone where it has none.
fn chunks_of_two<T: Drop>(alloc: Global, items: Seq<T>) -> Result<Seq<(T, Option<T>)>, OutOfMemory>
    ensures { IfOk result (λ out. out ≡ chunks items) }
{
    let mut out = Seq::new(alloc);
    let mut left = items.into_vec().into_iter();
    while let Some(first) = left.next() {
        let second = left.next();
        out.push((first, second))?;
    }
    Ok(out)
}

// Two neighbours joined; one without a neighbour stays.
fn pair_of(alloc: Global, op: BinOp, first: Expr, second: Option<Expr>) -> Result<Expr, OutOfMemory>
    ensures { IfOk result (λ e. e ≡ pair_of op (first, second)) }
{
    match second {
        Some(second) => binary(alloc, op, first, second),
        None => Ok(first),
    }
}

// Adds them.
fn push_pair(
    alloc: Global,
    op: BinOp,
    two: (Expr, Option<Expr>),
    out: &mut Seq<Expr>,
) -> Result<(), OutOfMemory>
    ensures { OnOk result (out.new ≡ out.old ++ pair_of op two ∷ []) }
{
    let (first, second) = two;
    let e = pair_of(alloc, op, first, second)?;
    out.push(e)
}

// Adds all.
fn push_pairs(
    alloc: Global,
    op: BinOp,
    chunks: Seq<(Expr, Option<Expr>)>,
    out: &mut Seq<Expr>,
) -> Result<(), OutOfMemory>
    ensures { OnOk result (out.new ≡ out.old ++ map (pair_of op) chunks) }
{
    for two in chunks.into_vec() {
        push_pair(alloc, op, two, out)?;
    }
    Ok(())
}

// Each two neighbours joined.
fn paired(alloc: Global, op: BinOp, es: Seq<Expr>) -> Result<Seq<Expr>, OutOfMemory>
    ensures { IfOk result (λ out. out ≡ paired op es) }
{
    let chunks = chunks_of_two(alloc, es)?;
    let mut out = Seq::new(alloc);
    push_pairs(alloc, op, chunks, &mut out)?;
    Ok(out)
}

// The same until one is left, or none was there.
fn all_paired(alloc: Global, op: BinOp, es: Seq<Expr>) -> Result<Seq<Expr>, OutOfMemory>
    ensures { IfOk result (λ out. out ≡ paired_times op 64 es) }
{
    let mut left = es;
    let mut times: u32 = 64;
    while times > 0 {
        if left.len() < 2 {
            return Ok(left);
        }
        left = paired(alloc, op, left)?;
        times -= 1;
    }
    Ok(left)
}

// The first of some expressions, or a flag.
fn first_or(none: bool, es: Seq<Expr>) -> Expr
    ensures { result ≡ first_or (expr.Flag none) es }
{
    let mut items = es.into_vec().into_iter();
    match items.next() {
        Some(e) => e,
        None => Expr::Flag(none),
    }
}

/// Expressions joined by an operator in pairs, so that a long list gives a tree that is low; the flag where there are none.
#[tactic(auto, unfolding(crate::specs::Joins::joined))]
pub fn joined(alloc: Global, op: BinOp, none: bool, es: Seq<Expr>) -> Result<Expr, OutOfMemory>
    ensures { IfOk result (λ e. e ≡ joined op (expr.Flag none) es) }
{
    let left = all_paired(alloc, op, es)?;
    Ok(first_or(none, left))
}
