//! The names of parameters that an expression mentions.
ghost use Rattle.std.specs.Prelude.{◌≡◌, ◌++◌, flat_map, map, IfOk, OnOk};
ghost use Rattle.expr_syntax.specs.Names.{names_in};

use crate::expr::Expr;
use std::alloc::Global;
use text_kit::OutOfMemory;

/// The names of the parameters that `e` mentions, and of the selections that it tests or counts, in the order of its text and
/// each as often as it stands there. The time is linear in the expression, the recursion as deep as the expression is high, and
/// memory is taken only for the list. `OutOfMemory` where it was refused.
pub fn names_of<'a>(alloc: Global, e: &'a Expr) -> Result<Vec<&'a str>, OutOfMemory>
    ensures { IfOk result (λ names. map (λ n. n.now) names.items ≡ names_in e.now) }
{
    let mut names = Vec::new(alloc);
    push_names(&mut names, e)?;
    Ok(names)
}

// Adds the names in an expression.
#[cycle(names)]
fn push_names<'a>(names: &mut Vec<&'a str>, e: &'a Expr) -> Result<(), OutOfMemory>
    ensures { OnOk result (map (λ n. n.now) names.new.items ≡ map (λ n. n.now) names.old.items ++ names_in e.now) }
{
    match e {
        Expr::Null
        | Expr::Flag(_)
        | Expr::Number(_)
        | Expr::Text(_)
        | Expr::Field(_)
        | Expr::DomainLength(_) => Ok(()),
        Expr::Param(name) | Expr::Member(name, _) | Expr::Selected(name) | Expr::Stored(name) => {
            names.push(name.as_str())?;
            Ok(())
        }
        Expr::Not(a) | Expr::Minus(a) | Expr::Plus(a) => push_names(names, a.get()),
        Expr::Binary(_, a, b) | Expr::Pair(a, b) => {
            push_names(names, a.get())?;
            push_names(names, b.get())
        }
        Expr::Choose(test, first, second) => {
            push_names(names, test.get())?;
            push_names(names, first.get())?;
            push_names(names, second.get())
        }
        Expr::Call(_, args) => push_all_names(names, args.as_slice()),
    }
}

// Adds the names in some expressions.
#[cycle(names)]
fn push_all_names<'a>(names: &mut Vec<&'a str>, args: &'a [Expr]) -> Result<(), OutOfMemory>
    ensures { OnOk result (map (λ n. n.now) names.new.items
        ≡ map (λ n. n.now) names.old.items ++ flat_map (λ arg. arg) (map names_in args.now)) }
{
    for arg in args {
        push_names(names, arg)?;
    }
    Ok(())
}
