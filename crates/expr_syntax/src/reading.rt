//! Reading a text.
ghost use Rattle.std.specs.Prelude.{◌≡◌, ◌⊎◌, List, ℕ, IfOk, Ok, Err};
ghost use Rattle.expr_syntax.specs.declared.expr.Expr.{Expr as Tree};
ghost use Rattle.expr_syntax.specs.declared.errors.ExprError.TheVariants.{Shape, Memory};
ghost use Rattle.expr_syntax.specs.Grammar.{HasReading};

use crate::errors::ExprError;
use crate::expr::Expr;
use crate::parser::whole_at;
use crate::scanner::tokens;
use std::alloc::Global;

/// The tree that a text reads as. `Shape` comes exactly where it reads as none: where no form of the grammar fits, where the tree
/// would be higher than 256, or where more than 256 brackets stand in one another.
pub fn read(alloc: Global, text: &str) -> Result<Expr, ExprError>
    // What is read is what the text reads as.
    ensures sound { IfOk result (λ e. HasReading text.now e) }
    // What the text reads as is read, unless memory is refused.
    ensures complete { (e : Tree) → HasReading text.now e → (result ≡ Ok e) ⊎ (result ≡ Err Memory) }
    // `Shape` is answered only where the text reads as nothing.
    ensures shape { result ≡ Err Shape → (e : Tree) → HasReading text.now e → ⊥ }
{
    let tokens = match tokens(alloc, text) {
        Ok(tokens) => tokens,
        Err(error) => return Err(error),
    };
    whole_at(alloc, tokens.as_slice())
}

/// No text reads as two trees.
pub fn one_reading()
    ensures { (text : List ℕ) (d e : Tree) → HasReading text d → HasReading text e → d ≡ e }
{}
