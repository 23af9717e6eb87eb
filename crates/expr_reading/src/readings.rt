// What texts read as.
ghost use Rattle.std.specs.Prelude.{◌≡◌, IfOk};
ghost use Rattle.expr_reading.specs.Readings.{expression_of as tree_of, call_of as spelled_call};

use expr_syntax::{Expr, ExprError, TextCall};
use std::alloc::Global;
use text_kit::OutOfMemory;

/// The tree that a text reads as; None exactly where it reads as none.
pub fn expression_of(alloc: Global, text: &str) -> Result<Option<Expr>, OutOfMemory>
    ensures { IfOk result (λ found. found ≡ tree_of text.now) }
{
    match expr_syntax::read(alloc, text) {
        Ok(e) => Ok(Some(e)),
        Err(ExprError::Shape) => Ok(None),
        Err(ExprError::Memory) => Err(OutOfMemory),
    }
}

/// The call of a name with texts that a text spells, as `vlPoint('p', 'f')`; None exactly where it spells none.
pub fn call_of(alloc: Global, text: &str) -> Result<Option<TextCall>, OutOfMemory>
    ensures { IfOk result (λ found. found ≡ spelled_call text.now) }
{
    expr_syntax::text_call(alloc, text)
}
