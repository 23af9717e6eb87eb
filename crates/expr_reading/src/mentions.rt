// The names in an expression, by what they name.
ghost use Rattle.std.specs.Prelude.{◌≡◌, ◌++◌, flat_map, map, IfOk, OnOk};
ghost use Rattle.expr_reading.specs.Mentions.{named_as, mentioned_in, parameters_in, selections_in, scales_in};

use expr_syntax::Expr;
use std::alloc::Global;
use text_kit::OutOfMemory;

/// What a name in an expression names.
#[derive(Clone, Copy, Debug)]
pub(crate) enum NameKind {
    /// A parameter, of which the value or one member is read.
    Parameter,
    /// A selection that is tested or counted.
    Selection,
    /// A scale whose domain is counted.
    Scale,
}

/// The names of the parameters that `e` reads, in the order of its text and each as often as it stands there. The time is linear in the
/// expression, the recursion as deep as it is high, and memory is taken only for the list.
pub fn parameters_of<'a>(alloc: Global, e: &'a Expr) -> Result<Vec<&'a str>, OutOfMemory>
    ensures { IfOk result (λ names. map (λ n. n.now) names.items ≡ parameters_in e.now) }
{
    mentions_of(alloc, NameKind::Parameter, e)
}

/// The names of the selections that `e` tests or counts, as `parameters_of` has those of parameters.
pub fn selections_of<'a>(alloc: Global, e: &'a Expr) -> Result<Vec<&'a str>, OutOfMemory>
    ensures { IfOk result (λ names. map (λ n. n.now) names.items ≡ selections_in e.now) }
{
    mentions_of(alloc, NameKind::Selection, e)
}

/// The names of the scales of which `e` counts the domain, as `parameters_of` has those of parameters.
pub fn scales_of<'a>(alloc: Global, e: &'a Expr) -> Result<Vec<&'a str>, OutOfMemory>
    ensures { IfOk result (λ names. map (λ n. n.now) names.items ≡ scales_in e.now) }
{
    mentions_of(alloc, NameKind::Scale, e)
}

// The names of a kind in an expression.
fn mentions_of<'a>(alloc: Global, kind: NameKind, e: &'a Expr) -> Result<Vec<&'a str>, OutOfMemory>
    ensures { IfOk result (λ names. map (λ n. n.now) names.items ≡ mentioned_in kind e.now) }
{
    let mut names = Vec::new(alloc);
    push_names(&mut names, kind, e)?;
    Ok(names)
}

// Adds a name, where it is of the kind that is wanted.
fn push_named<'a>(
    names: &mut Vec<&'a str>,
    kind: NameKind,
    here: NameKind,
    name: &'a str,
) -> Result<(), OutOfMemory>
    ensures { OnOk result (map (λ n. n.now) names.new.items ≡ map (λ n. n.now) names.old.items ++ named_as kind here name.now) }
{
    match (kind, here) {
        (NameKind::Parameter, NameKind::Parameter)
        | (NameKind::Selection, NameKind::Selection)
        | (NameKind::Scale, NameKind::Scale) => {
            names.push(name)?;
            Ok(())
        }
        _ => Ok(()),
    }
}

// Adds the names of a kind in an expression.
#[cycle(mentions)]
fn push_names<'a>(names: &mut Vec<&'a str>, kind: NameKind, e: &'a Expr) -> Result<(), OutOfMemory>
    ensures { OnOk result (map (λ n. n.now) names.new.items ≡ map (λ n. n.now) names.old.items ++ mentioned_in kind e.now) }
{
    match e {
        Expr::Null | Expr::Flag(_) | Expr::Number(_) | Expr::Text(_) | Expr::Field(_) => Ok(()),
        Expr::Param(name) | Expr::Member(name, _) => push_named(
            names,
            kind,
            NameKind::Parameter,
            name.as_str(),
        ),
        Expr::Selected(name) | Expr::Stored(name) => push_named(
            names,
            kind,
            NameKind::Selection,
            name.as_str(),
        ),
        Expr::DomainLength(name) => push_named(names, kind, NameKind::Scale, name.as_str()),
        Expr::Not(a) | Expr::Minus(a) | Expr::Plus(a) => push_names(names, kind, a.get()),
        Expr::Binary(_, a, b) | Expr::Pair(a, b) => {
            push_names(names, kind, a.get())?;
            push_names(names, kind, b.get())
        }
        Expr::Choose(test, first, second) => {
            push_names(names, kind, test.get())?;
            push_names(names, kind, first.get())?;
            push_names(names, kind, second.get())
        }
        Expr::Call(_, args) => push_all_names(names, kind, args.as_slice()),
    }
}

// Adds the names of a kind in some expressions.
#[cycle(mentions)]
fn push_all_names<'a>(
    names: &mut Vec<&'a str>,
    kind: NameKind,
    args: &'a [Expr],
) -> Result<(), OutOfMemory>
    ensures { OnOk result (map (λ n. n.now) names.new.items
        ≡ map (λ n. n.now) names.old.items ++ flat_map (λ arg. arg) (map (mentioned_in kind) args.now)) }
{
    for arg in args {
        push_names(names, kind, arg)?;
    }
    Ok(())
}
