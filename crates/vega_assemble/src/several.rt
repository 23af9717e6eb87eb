// Values that are made beside one that lives by then, which is let go in one step where memory is refused.
ghost use Rattle.std.specs.Prelude.{◌≡◌, ◌∷◌, [], map, IfOk};
ghost use Rattle.vega_assemble.specs.Sources.{if_any};

use expr_syntax::Expr;
use std::alloc::Global;
use text_kit::{Copies, OutOfMemory, Seq, Text};

/// A value, and a copy of a text.
pub(crate) fn text_beside<K: Drop>(kept: K, text: &Text) -> Result<(K, Text), OutOfMemory>
    ensures { IfOk result (λ both. both ≡ (kept, text.now)) }
{
    let copy = text.copy()?;
    Ok((kept, copy))
}

/// A value, and a copy of what may be there.
pub(crate) fn copied_beside<K: Drop, T: Copies>(
    alloc: Global,
    kept: K,
    value: &T,
) -> Result<(K, T), OutOfMemory>
    ensures { IfOk result (λ both. both ≡ (kept, value.now)) }
{
    let copy = value.copied(alloc)?;
    Ok((kept, copy))
}

/// A value, and a copy of an expression that may be there.
pub(crate) fn expr_beside<K: Drop>(
    alloc: Global,
    kept: K,
    e: &Option<Expr>,
) -> Result<(K, Option<Expr>), OutOfMemory>
    ensures { IfOk result (λ both. both ≡ (kept, e.now)) }
{
    match e {
        Some(e) => {
            let copy = e.copy(alloc)?;
            Ok((kept, Some(copy)))
        }
        None => Ok((kept, None)),
    }
}

/// A copy of a text that may be there.
pub(crate) fn copied_text(text: &Option<Text>) -> Result<Option<Text>, OutOfMemory>
    ensures { IfOk result (λ copy. copy ≡ text.now) }
{
    match text {
        Some(text) => text.copy().map(Some),
        None => Ok(None),
    }
}

/// A list of one value.
pub(crate) fn one_of<A: Drop>(alloc: Global, a: A) -> Result<Seq<A>, OutOfMemory>
    ensures { IfOk result (λ list. list ≡ a ∷ []) }
{
    let mut list = Seq::new(alloc);
    list.push(a)?;
    Ok(list)
}

/// A list of two values.
pub(crate) fn two_of<A: Drop>(alloc: Global, a: A, b: A) -> Result<Seq<A>, OutOfMemory>
    ensures { IfOk result (λ list. list ≡ a ∷ b ∷ []) }
{
    let mut list = Seq::new(alloc);
    list.push(a)?;
    list.push(b)?;
    Ok(list)
}

/// A list of three values.
pub(crate) fn three_of<A: Drop>(alloc: Global, a: A, b: A, c: A) -> Result<Seq<A>, OutOfMemory>
    ensures { IfOk result (λ list. list ≡ a ∷ b ∷ c ∷ []) }
{
    let mut list = Seq::new(alloc);
    list.push(a)?;
    list.push(b)?;
    list.push(c)?;
    Ok(list)
}

/// A list that is left out where it is empty.
pub(crate) fn if_any<A: Drop>(list: Seq<A>) -> Option<Seq<A>>
    ensures { result ≡ if_any list }
{
    if list.is_empty() { None } else { Some(list) }
}

/// Copies of texts.
pub(crate) fn copied_texts(alloc: Global, texts: &[Text]) -> Result<Seq<Text>, OutOfMemory>
    ensures { IfOk result (λ copies. copies ≡ texts.now) }
{
    let mut out = Seq::new(alloc);
    for text in texts {
        out.push(text.copy()?)?;
    }
    Ok(out)
}
