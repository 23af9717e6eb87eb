// Copies of several values at once.
ghost use Rattle.std.specs.Prelude.{◌≡◌, IfOk};

use crate::{Copies, OutOfMemory};
use std::alloc::Global;

/// Copies of two values.
pub fn copied_two<A: Copies + Drop, B: Copies>(
    alloc: Global,
    a: &A,
    b: &B,
) -> Result<(A, B), OutOfMemory>
    ensures { IfOk result (λ copies. copies ≡ (a.now, b.now)) }
{
    let a = a.copied(alloc)?;
    Ok((a, b.copied(alloc)?))
}

/// Copies of three values.
pub fn copied_three<A: Copies + Drop, B: Copies + Drop, C: Copies>(
    alloc: Global,
    a: &A,
    b: &B,
    c: &C,
) -> Result<(A, B, C), OutOfMemory>
    ensures { IfOk result (λ copies. copies ≡ (a.now, b.now, c.now)) }
{
    let (a, b) = copied_two(alloc, a, b)?;
    Ok((a, b, c.copied(alloc)?))
}

/// Copies of four values.
pub fn copied_four<A: Copies + Drop, B: Copies + Drop, C: Copies + Drop, D: Copies>(
    alloc: Global,
    a: &A,
    b: &B,
    c: &C,
    d: &D,
) -> Result<(A, B, C, D), OutOfMemory>
    ensures { IfOk result (λ copies. copies ≡ (a.now, b.now, c.now, d.now)) }
{
    let (a, b) = copied_two(alloc, a, b)?;
    let (c, d) = copied_two(alloc, c, d)?;
    Ok((a, b, c, d))
}

/// Copies of five values.
pub fn copied_five<
    A: Copies + Drop,
    B: Copies + Drop,
    C: Copies + Drop,
    D: Copies + Drop,
    E: Copies,
>(alloc: Global, a: &A, b: &B, c: &C, d: &D, e: &E) -> Result<(A, B, C, D, E), OutOfMemory>
    ensures { IfOk result (λ copies. copies ≡ (a.now, b.now, c.now, d.now, e.now)) }
{
    let (a, b) = copied_two(alloc, a, b)?;
    let (c, d, e) = copied_three(alloc, c, d, e)?;
    Ok((a, b, c, d, e))
}

/// Copies of six values.
pub fn copied_six<
    A: Copies + Drop,
    B: Copies + Drop,
    C: Copies + Drop,
    D: Copies + Drop,
    E: Copies + Drop,
    F: Copies,
>(
    alloc: Global,
    a: &A,
    b: &B,
    c: &C,
    d: &D,
    e: &E,
    f: &F,
) -> Result<(A, B, C, D, E, F), OutOfMemory>
    ensures { IfOk result (λ copies. copies ≡ (a.now, b.now, c.now, d.now, e.now, f.now)) }
{
    let (a, b, c) = copied_three(alloc, a, b, c)?;
    let (d, e, f) = copied_three(alloc, d, e, f)?;
    Ok((a, b, c, d, e, f))
}

/// Copies of seven values.
pub fn copied_seven<
    A: Copies + Drop,
    B: Copies + Drop,
    C: Copies + Drop,
    D: Copies + Drop,
    E: Copies + Drop,
    F: Copies + Drop,
    G: Copies,
>(
    alloc: Global,
    a: &A,
    b: &B,
    c: &C,
    d: &D,
    e: &E,
    f: &F,
    g: &G,
) -> Result<(A, B, C, D, E, F, G), OutOfMemory>
    ensures { IfOk result (λ copies. copies ≡ (a.now, b.now, c.now, d.now, e.now, f.now, g.now)) }
{
    let (a, b, c) = copied_three(alloc, a, b, c)?;
    let (d, e, f, g) = copied_four(alloc, d, e, f, g)?;
    Ok((a, b, c, d, e, f, g))
}

/// A value, and a copy of another.
pub fn beside<K: Drop, A: Copies>(alloc: Global, kept: K, a: &A) -> Result<(K, A), OutOfMemory>
    ensures { IfOk result (λ both. both ≡ (kept, a.now)) }
{
    let a = a.copied(alloc)?;
    Ok((kept, a))
}

/// A value, and copies of three others.
pub fn beside_three<K: Drop, A: Copies + Drop, B: Copies + Drop, C: Copies>(
    alloc: Global,
    kept: K,
    a: &A,
    b: &B,
    c: &C,
) -> Result<(K, A, B, C), OutOfMemory>
    ensures { IfOk result (λ all. all ≡ (kept, a.now, b.now, c.now)) }
{
    let (a, b, c) = copied_three(alloc, a, b, c)?;
    Ok((kept, a, b, c))
}
