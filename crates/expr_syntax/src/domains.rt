//! Lengths of domains in expressions.
ghost use Rattle.std.specs.Prelude.{◌≡◌, map};
ghost use Rattle.std.specs.List.{list_any};
ghost use Rattle.expr_syntax.specs.Expressions.{has_domain_length, ExpressionsAreRead};

use crate::expr::Expr;

/// Whether `domain('s').length` stands anywhere in an expression. It takes no memory; the time is linear in the expression, and the
/// recursion as deep as it is high.
#[cycle(domains)]
pub fn has_domain_length(e: &Expr) -> bool
    ensures { result ≡ has_domain_length e.now }
{
    match e {
        Expr::Null
        | Expr::Flag(_)
        | Expr::Number(_)
        | Expr::Text(_)
        | Expr::Field(_)
        | Expr::Param(_)
        | Expr::Member(_, _)
        | Expr::Selected(_)
        | Expr::Stored(_) => false,
        Expr::Not(a) | Expr::Minus(a) | Expr::Plus(a) => has_domain_length(a.get()),
        Expr::Binary(_, a, b) | Expr::Pair(a, b) => {
            has_domain_length(a.get()) || has_domain_length(b.get())
        }
        Expr::Choose(test, first, second) => {
            has_domain_length(test.get())
                || (has_domain_length(first.get()) || has_domain_length(second.get()))
        }
        Expr::Call(_, args) => stands_in_any(args.as_slice()),
        Expr::DomainLength(_) => true,
    }
}

// Whether it stands in one of some expressions.
#[cycle(domains)]
fn stands_in_any(args: &[Expr]) -> bool
    ensures { result ≡ list_any (λ arg. arg) (map has_domain_length args.now) }
{
    for arg in args {
        if has_domain_length(arg) {
            return true;
        }
    }
    false
}

/// Each text reads as an expression in which no length of a domain stands, or as none.
pub fn expressions_are_read()
    ensures { ExpressionsAreRead }
{}
