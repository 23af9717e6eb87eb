// Values that may be refused memory, and lists of them.
ghost use Rattle.std.specs.Prelude.{◌≡◌, [], ◌∷◌, ◌++◌, Ok, Some, IfOk, OnOk};
ghost use Rattle.json_exact.specs.declared.json.Json.TheVariants as json;

use json_exact::Json;
use std::alloc::Global;
use text_kit::{OutOfMemory, Seq};

/// Two values, where both are there.
#[inline(never)]
pub fn both<A: Drop, B: Drop>(
    a: Result<A, OutOfMemory>,
    b: Result<B, OutOfMemory>,
) -> Result<(A, B), OutOfMemory>
    ensures first { IfOk result (λ all. a ≡ Ok all.0) }
    ensures second { IfOk result (λ all. b ≡ Ok all.1) }
{
    let a = a?;
    Ok((a, b?))
}

/// A list, and one value more.
#[inline(never)]
pub fn added<T: Drop>(list: Seq<T>, value: T) -> Result<Seq<T>, OutOfMemory>
    ensures { IfOk result (λ all. all ≡ list ++ value ∷ []) }
{
    let mut all = list;
    all.push(value)?;
    Ok(all)
}

/// The tree of a list of trees, where all of them were put into it.
#[inline(never)]
pub fn list_of(done: Result<(), OutOfMemory>, items: Seq<Json>) -> Result<Json, OutOfMemory>
    ensures { (whole : _) → OnOk done (items ≡ whole) → IfOk result (λ tree. tree ≡ json.List whole) }
{
    done?;
    Ok(Json::List(items))
}

/// The tree of a list of two trees, where both are there.
pub fn list_of_two(
    alloc: Global,
    first: Result<Json, OutOfMemory>,
    second: Result<Json, OutOfMemory>,
) -> Result<Json, OutOfMemory>
    ensures { (a : _) (b : _) → IfOk first (λ given. given ≡ a) → IfOk second (λ given. given ≡ b) → IfOk result (λ tree. tree ≡ json.List (a ∷ b ∷ [])) }
{
    let (first, second) = both(first, second)?;
    let items = added(Seq::new(alloc), first);
    let (items, second) = both(items, Ok(second))?;
    Ok(Json::List(added(items, second)?))
}

/// Where a value is there, it as one that may be absent.
pub fn there<T>(made: Result<T, OutOfMemory>) -> Result<Option<T>, OutOfMemory>
    ensures { (value : _) → IfOk made (λ given. given ≡ value) → IfOk result (λ given. given ≡ Some value) }
{
    Ok(Some(made?))
}
