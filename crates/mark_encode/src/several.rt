// Values that are made one beside another.
ghost use Rattle.std.specs.Prelude.{◌≡◌, Ok, IfOk};

use text_kit::OutOfMemory;

/// Two values, where both are there.
#[inline(never)]
pub fn both<A: Drop, B: Drop>(
    a: Result<A, OutOfMemory>,
    b: Result<B, OutOfMemory>,
) -> Result<(A, B), OutOfMemory>
    ensures first { IfOk result (λ all. a ≡ Ok all.0) }
    ensures second { IfOk result (λ all. b ≡ Ok all.1) }
{
    let a = a?;
    Ok((a, b?))
}

/// Three values, where all are there.
#[inline(never)]
pub fn all_three<A: Drop, B: Drop, C: Drop>(
    a: Result<A, OutOfMemory>,
    b: Result<B, OutOfMemory>,
    c: Result<C, OutOfMemory>,
) -> Result<(A, B, C), OutOfMemory>
    ensures first { IfOk result (λ all. a ≡ Ok all.0) }
    ensures second { IfOk result (λ all. b ≡ Ok all.1) }
    ensures third { IfOk result (λ all. c ≡ Ok all.2) }
{
    let (a, b) = both(a, b)?;
    Ok((a, b, c?))
}

/// Four values, where all are there.
#[inline(never)]
pub fn all_four<A: Drop, B: Drop, C: Drop, D: Drop>(
    a: Result<A, OutOfMemory>,
    b: Result<B, OutOfMemory>,
    c: Result<C, OutOfMemory>,
    d: Result<D, OutOfMemory>,
) -> Result<(A, B, C, D), OutOfMemory>
    ensures first { IfOk result (λ all. a ≡ Ok all.0) }
    ensures second { IfOk result (λ all. b ≡ Ok all.1) }
    ensures third { IfOk result (λ all. c ≡ Ok all.2) }
    ensures fourth { IfOk result (λ all. d ≡ Ok all.3) }
{
    let (a, b) = both(a, b)?;
    let (c, d) = both(c, d)?;
    Ok((a, b, c, d))
}
