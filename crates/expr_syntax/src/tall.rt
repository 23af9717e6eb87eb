//! Trees with their heights.
ghost use Rattle.std.specs.Prelude.{◌≡◌, suc, max, IfOk};
ghost use Rattle.text_kit.specs.Answer.{GivesAs};
ghost use Rattle.expr_syntax.specs.Grammar.{height};
ghost use Rattle.expr_syntax.specs.inner.Scanner.{cause};
ghost use Rattle.expr_syntax.specs.inner.Parser.{within};

use crate::errors::ExprError;
use crate::expr::Expr;
use crate::token::Token;

/// A tree and how high it is.
#[derive(Debug)]
pub(crate) struct Tall {
    pub(crate) tree: Expr,
    pub(crate) height: u32,
}

impl Drop for Tall {
    fn drop(self) {
        let Tall { tree: _, height: _ } = self;
    }
}

impl Tall {
    // The tree alone.
    pub(crate) fn into_tree(self) -> Expr
        ensures { result ≡ self.tree }
    {
        let Tall { tree, height: _ } = self;
        tree
    }
}

// A tree without parts.
pub(crate) fn leaf(tree: Expr) -> Tall
    requires { height tree ≡ 1 }
    ensures tree { result.tree ≡ tree }
    ensures told { result.height ≡ height result.tree }
{
    Tall { tree, height: 1 }
}

// A tree whose highest part is so high, where it is no higher than the limit.
pub(crate) fn within(
    limit: u32,
    highest: u32,
    tree: Expr,
    rest: &[Token],
) -> Result<(Tall, &[Token]), ExprError>
    requires { height tree ≡ suc highest }
    ensures gives { GivesAs (λ x. (x.0.tree, x.1.now)) cause result (within limit highest tree rest.now) }
    ensures told { IfOk result (λ x. x.0.height ≡ height x.0.tree) }
{
    if highest < limit {
        Ok((
            Tall {
                tree,
                height: highest + 1,
            },
            rest,
        ))
    } else {
        Err(ExprError::Shape)
    }
}

// The greater of two heights.
pub(crate) fn higher(a: u32, b: u32) -> u32
    ensures { result ≡ max a b }
{
    if a < b { b } else { a }
}
