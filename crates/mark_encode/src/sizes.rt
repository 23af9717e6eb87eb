// The sizes of symbols.
ghost use Rattle.std.specs.Prelude.{◌≡◌};
ghost use Rattle.expr_eval.specs.Answers.{Evaluates};
ghost use Rattle.mark_encode.specs.inner.Fixed.{sized_of, symbol_sized};

use expr_eval::EvalError;
use fixed_num::Num;
use mark_shapes::{Symbol, radius_of, symbol_about};
use scene_tree::Shape;
use std::alloc::Global;

/// How large a symbol is, in pixels.
#[derive(Clone, Copy)]
pub struct SymbolSize {
    /// The root of its size.
    pub side: Num,
    /// Half of that.
    pub r: Num,
}

/// How large a symbol is by the root of its size, if there is one; None exactly where that is out of range.
pub fn sized_of(side: Option<Num>) -> Option<Option<SymbolSize>>
    ensures { result ≡ sized_of side }
{
    let Some(side) = side else {
        return Some(None);
    };
    let r = radius_of(side)?;
    Some(Some(SymbolSize { side, r }))
}

/// A symbol about a place, if it has a size; `Overflow` exactly where a number is out of range.
pub fn symbol_sized(
    alloc: Global,
    form: Symbol,
    size: Option<SymbolSize>,
    x: Option<Num>,
    y: Option<Num>,
) -> Result<Option<Shape>, EvalError>
    ensures { Evaluates result (symbol_sized form size x y) }
{
    let Some(size) = size else {
        return Ok(None);
    };
    match symbol_about(alloc, form, size.side, size.r, x, y)? {
        Some(shape) => Ok(shape),
        None => Err(EvalError::Overflow),
    }
}
