// Copies of parts that may be absent.
ghost use Rattle.std.specs.Prelude.{◌≡◌, ◌∷◌, ◌++◌, [], IfOk, OnOk};

use expr_syntax::Expr;
use json_exact::Json;
use std::alloc::Global;
use text_kit::{Copies, OutOfMemory, Seq, copied_four};

/// A copy of an expression.
pub fn copied_expr(alloc: Global, e: &Option<Expr>) -> Result<Option<Expr>, OutOfMemory>
    ensures { IfOk result (λ copy. copy ≡ e.now) }
{
    match e {
        Some(e) => Ok(Some(e.copy(alloc)?)),
        None => Ok(None),
    }
}

/// A copy of a tree.
pub fn copied_json(alloc: Global, tree: &Option<Json>) -> Result<Option<Json>, OutOfMemory>
    ensures { IfOk result (λ copy. copy ≡ tree.now) }
{
    match tree {
        Some(tree) => Ok(Some(tree.copy(alloc)?)),
        None => Ok(None),
    }
}

/// A copy of a list of plain values.
pub fn copied_values<T: Copy>(
    alloc: Global,
    values: &Option<Seq<T>>,
) -> Result<Option<Seq<T>>, OutOfMemory>
    ensures { IfOk result (λ copy. copy ≡ values.now) }
{
    match values {
        Some(values) => Ok(Some(Seq::from_slice(alloc, values.as_slice())?)),
        None => Ok(None),
    }
}

/// A value, and the copy of another.
pub fn beside_copy<K: Drop, A>(
    kept: K,
    of: &A,
    copy: Result<A, OutOfMemory>,
) -> Result<(K, A), OutOfMemory>
    requires { IfOk copy (λ value. value ≡ of.now) }
    ensures { IfOk result (λ both. both ≡ (kept, of.now)) }
{
    match copy {
        Ok(copy) => Ok((kept, copy)),
        Err(error) => Err(error),
    }
}

/// A value, and copies of four others.
pub fn beside_four<K: Drop, A: Copies + Drop, B: Copies + Drop, C: Copies + Drop, D: Copies + Drop>(
    alloc: Global,
    kept: K,
    a: &A,
    b: &B,
    c: &C,
    d: &D,
) -> Result<(K, (A, B, C, D)), OutOfMemory>
    ensures { IfOk result (λ all. all ≡ (kept, (a.now, b.now, c.now, d.now))) }
{
    let copies = copied_four(alloc, a, b, c, d)?;
    Ok((kept, copies))
}

/// Adds the copy of a value.
pub fn push_copy<T: Drop>(
    out: &mut Seq<T>,
    of: &T,
    copy: Result<T, OutOfMemory>,
) -> Result<(), OutOfMemory>
    requires { IfOk copy (λ value. value ≡ of.now) }
    ensures { OnOk result (out.new ≡ out.old ++ of.now ∷ []) }
{
    out.push(copy?)
}
