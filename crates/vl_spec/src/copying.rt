// Copies of values, beside one that is made elsewhere.
ghost use Rattle.std.specs.Prelude.{◌≡◌, ◌∷◌, ◌++◌, [], IfOk, OnOk};

use std::alloc::Global;
use text_kit::{Boxed, Copies, OutOfMemory, Seq, copied_five, copied_three};

/// A copy of a list of plain values.
pub fn copied_values<T: Copy>(
    alloc: Global,
    values: &Option<Seq<T>>,
) -> Result<Option<Seq<T>>, OutOfMemory>
    ensures { IfOk result (λ copy. copy ≡ values.now) }
{
    match values {
        Some(values) => Seq::from_slice(alloc, values.as_slice()).map(Some),
        None => Ok(None),
    }
}

/// The copy of a value in a box, in a box.
pub fn boxed<T: Drop>(
    alloc: Global,
    of: &Boxed<T>,
    copy: Result<T, OutOfMemory>,
) -> Result<Boxed<T>, OutOfMemory>
    requires { IfOk copy (λ value. value ≡ of.now) }
    ensures { IfOk result (λ boxed. boxed ≡ of.now) }
{
    Boxed::new(alloc, copy?)
}

/// Adds the copy of a value.
pub fn push_copy<T: Drop>(
    out: &mut Seq<T>,
    of: &T,
    copy: Result<T, OutOfMemory>,
) -> Result<(), OutOfMemory>
    requires { IfOk copy (λ value. value ≡ of.now) }
    ensures { OnOk result (out.new ≡ out.old ++ of.now ∷ []) }
{
    out.push(copy?)
}

/// The copy of a list, where all was copied into it.
pub fn filled<T: Drop>(
    of: &Seq<T>,
    list: Seq<T>,
    copied: Result<(), OutOfMemory>,
) -> Result<Seq<T>, OutOfMemory>
    requires { OnOk copied (list ≡ of.now) }
    ensures { IfOk result (λ copy. copy ≡ of.now) }
{
    copied?;
    Ok(list)
}

/// The copy of a value, and a copy of another.
pub fn with_one<K: Drop, A: Copies>(
    alloc: Global,
    of: &K,
    copy: Result<K, OutOfMemory>,
    a: &A,
) -> Result<(K, A), OutOfMemory>
    requires { IfOk copy (λ value. value ≡ of.now) }
    ensures { IfOk result (λ both. both ≡ (of.now, a.now)) }
{
    let copy = copy?;
    Ok((copy, a.copied(alloc)?))
}

/// The copy of a value, and copies of three others.
pub fn with_three<K: Drop, A: Copies + Drop, B: Copies + Drop, C: Copies>(
    alloc: Global,
    of: &K,
    copy: Result<K, OutOfMemory>,
    a: &A,
    b: &B,
    c: &C,
) -> Result<(K, A, B, C), OutOfMemory>
    requires { IfOk copy (λ value. value ≡ of.now) }
    ensures { IfOk result (λ all. all ≡ (of.now, a.now, b.now, c.now)) }
{
    let copy = copy?;
    let (a, b, c) = copied_three(alloc, a, b, c)?;
    Ok((copy, a, b, c))
}

/// The copy of a value, and copies of plain values and of five others.
pub fn with_values_and_five<
    K: Drop,
    T: Copy,
    A: Copies + Drop,
    B: Copies + Drop,
    C: Copies + Drop,
    D: Copies + Drop,
    E: Copies,
>(
    alloc: Global,
    of: &K,
    copy: Result<K, OutOfMemory>,
    values: &Seq<T>,
    a: &A,
    b: &B,
    c: &C,
    d: &D,
    e: &E,
) -> Result<(K, Seq<T>, A, B, C, D, E), OutOfMemory>
    requires { IfOk copy (λ value. value ≡ of.now) }
    ensures { IfOk result (λ all. all ≡ (of.now, values.now, a.now, b.now, c.now, d.now, e.now)) }
{
    let copy = copy?;
    let values = Seq::from_slice(alloc, values.as_slice())?;
    let (a, b, c, d, e) = copied_five(alloc, a, b, c, d, e)?;
    Ok((copy, values, a, b, c, d, e))
}
