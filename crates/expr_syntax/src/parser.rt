//! Trees, each read from the front of the tokens.
//!
//! `nesting` is how many brackets may still be opened and `limit` how high the tree may be. Each step into a part takes from one
//! of them, so the recursion is no deeper than they say; a row of operators is a loop.
ghost use Rattle.std.specs.Prelude.{◌≡◌, ◌<◌, ◌≤◌, ◌-◌, [], map, max, IfOk};
ghost use Rattle.text_kit.specs.Answer.{GivesAs};
ghost use Rattle.expr_syntax.specs.declared.expr.Expr.TheVariants.{Choose, Binary, Pair};
ghost use Rattle.expr_syntax.specs.Grammar.{height, level_of, list_max};
ghost use Rattle.expr_syntax.specs.inner.Scanner.{cause};
ghost use Rattle.expr_syntax.specs.inner.Parser.{operator_at, arguments_at, most_arguments, called_at, named_at, pair_at, primary_at, within};
ghost use Rattle.expr_syntax.specs.inner.Parser.{unary_at, branches_at, choice_at, joined_at, chain_at, builtin_at, call_at, tree_at};
ghost use Rattle.expr_syntax.specs.inner.Parser.{inside_of, whole_at};

use crate::errors::ExprError;
use crate::expr::{BinOp, Expr};
use crate::forms::{asks_store, domain_length_at, field_at, is_word, selected_at, stored_at};
use crate::fronts::{after, after_first, name_at, next, operator_of, starts};
use crate::tall::{Tall, higher, leaf, within};
use crate::token::{Mark, Token};
use case_table::{admits, builtin_of};
use std::alloc::Global;
use text_kit::{Boxed, OutOfMemory, Seq, Text};

/// How many brackets may stand in one another.
const MOST_NESTING: u32 = 256;

/// How high a tree may be.
const MOST_HEIGHT: u32 = 256;

/// No builtin takes more arguments.
const MOST_ARGUMENTS: u32 = 8;

/// The level of an operator.
fn level_of(op: BinOp) -> u32
    ensures { result ≡ level_of op }
{
    match op {
        BinOp::Or => 7,
        BinOp::And => 6,
        BinOp::Like | BinOp::NotLike | BinOp::Same | BinOp::NotSame => 5,
        BinOp::Less | BinOp::LessSame | BinOp::More | BinOp::MoreSame => 4,
        BinOp::Add | BinOp::Sub => 3,
        BinOp::Mul | BinOp::Div | BinOp::Rem => 2,
    }
}

// The operator of a level that comes first.
#[tactic(auto, unfolding(crate::specs::inner::Parser::operator_at))]
fn operator_at(level: u32, tokens: &[Token]) -> Option<BinOp>
    ensures { result ≡ operator_at level tokens.now }
{
    match next(tokens) {
        Some((Token::Mark(mark), _)) => operator_of(*mark).filter(|op| level_of(*op) == level),
        Some((Token::Name(_) | Token::Number(_) | Token::Quoted(_), _)) | None => None,
    }
}

// Two boxed trees.
fn boxed_pair(
    alloc: Global,
    first: Expr,
    second: Expr,
) -> Result<(Boxed<Expr>, Boxed<Expr>), OutOfMemory>
    ensures { IfOk result (λ pair. pair ≡ (first, second)) }
{
    let first = Boxed::new(alloc, first)?;
    Ok((first, Boxed::new(alloc, second)?))
}

// A choice of its parts.
fn chosen(alloc: Global, test: Expr, first: Expr, second: Expr) -> Result<Expr, OutOfMemory>
    ensures { IfOk result (λ e. e ≡ Choose test first second) }
{
    let (first, second) = boxed_pair(alloc, first, second)?;
    Ok(Expr::Choose(Boxed::new(alloc, test)?, first, second))
}

// An operator with its operands.
fn joined(alloc: Global, op: BinOp, left: Expr, right: Expr) -> Result<Expr, OutOfMemory>
    ensures { IfOk result (λ e. e ≡ Binary op left right) }
{
    let (left, right) = boxed_pair(alloc, left, right)?;
    Ok(Expr::Binary(op, left, right))
}

// A pair of its parts.
fn paired(alloc: Global, first: Expr, second: Expr) -> Result<Expr, OutOfMemory>
    ensures { IfOk result (λ e. e ≡ Pair first second) }
{
    let (first, second) = boxed_pair(alloc, first, second)?;
    Ok(Expr::Pair(first, second))
}

// A choice of read trees, where it is no higher than the limit.
#[tactic(auto, using(crate::proofs::Heights::heights))]
fn chosen_within(
    alloc: Global,
    limit: u32,
    test: Tall,
    first: Tall,
    second: Tall,
    rest: &[Token],
) -> Result<(Tall, &[Token]), ExprError>
    requires test { test.height ≡ height test.tree }
    requires first { first.height ≡ height first.tree }
    requires second { second.height ≡ height second.tree }
    ensures gives { GivesAs (λ x. (x.0.tree, x.1.now)) cause result
        (within limit (max (height test.tree) (max (height first.tree) (height second.tree)))
        (Choose test.tree first.tree second.tree) rest.now) }
    ensures told { IfOk result (λ x. x.0.height ≡ height x.0.tree) }
{
    let highest = higher(test.height, higher(first.height, second.height));
    let tree = chosen(
        alloc,
        test.into_tree(),
        first.into_tree(),
        second.into_tree(),
    )?;
    within(limit, highest, tree, rest)
}

// A pair of read trees, where it is no higher than the limit.
#[tactic(auto, using(crate::proofs::Heights::heights))]
fn paired_within(
    alloc: Global,
    limit: u32,
    first: Tall,
    second: Tall,
    rest: &[Token],
) -> Result<(Tall, &[Token]), ExprError>
    requires first { first.height ≡ height first.tree }
    requires second { second.height ≡ height second.tree }
    ensures gives { GivesAs (λ x. (x.0.tree, x.1.now)) cause result
        (within limit (max (height first.tree) (height second.tree)) (Pair first.tree second.tree) rest.now) }
    ensures told { IfOk result (λ x. x.0.height ≡ height x.0.tree) }
{
    let highest = higher(first.height, second.height);
    let tree = paired(alloc, first.into_tree(), second.into_tree())?;
    within(limit, highest, tree, rest)
}

/// The tree at a level, from 0, a primary, to 8, a choice.
#[cycle(parser)]
pub(crate) fn tree_at(
    alloc: Global,
    nesting: u32,
    limit: u32,
    level: u32,
    tokens: &[Token],
) -> Result<(Tall, &[Token]), ExprError>
    requires { level ≤ 8 }
    ensures gives { GivesAs (λ x. (x.0.tree, x.1.now)) cause result (tree_at nesting limit level tokens.now) }
    ensures told { IfOk result (λ x. x.0.height ≡ height x.0.tree) }
{
    if limit == 0 {
        return Err(ExprError::Shape);
    }
    match level {
        0 => primary_at(alloc, nesting, limit, tokens),
        1 => unary_at(alloc, nesting, limit, tokens),
        8 => choice_at(alloc, nesting, limit, tokens),
        _ => binary_at(alloc, nesting, limit, level, tokens),
    }
}

// A choice, or what is tighter.
#[cycle(parser)]
#[tactic(auto, unfolding(crate::specs::inner::Parser::choice_at))]
fn choice_at(
    alloc: Global,
    nesting: u32,
    limit: u32,
    tokens: &[Token],
) -> Result<(Tall, &[Token]), ExprError>
    requires { 0 < limit }
    ensures gives { GivesAs (λ x. (x.0.tree, x.1.now)) cause result
        (choice_at (tree_at nesting limit 7) (tree_at nesting (limit - 1) 8) limit tokens.now) }
    ensures told { IfOk result (λ x. x.0.height ≡ height x.0.tree) }
{
    let (test, rest) = match tree_at(alloc, nesting, limit, 7, tokens) {
        Ok(read) => read,
        Err(error) => return Err(error),
    };
    if starts(Mark::Question, rest) {
        branches_at(alloc, nesting, limit, test, after_first(rest))
    } else {
        Ok((test, rest))
    }
}

// The branches of a choice, after its `?`.
#[cycle(parser)]
#[tactic(auto, using(crate::proofs::Heights::heights), unfolding(crate::specs::inner::Parser::branches_at))]
fn branches_at<'a>(
    alloc: Global,
    nesting: u32,
    limit: u32,
    test: Tall,
    tokens: &'a [Token],
) -> Result<(Tall, &'a [Token]), ExprError>
    requires some { 0 < limit }
    requires test { test.height ≡ height test.tree }
    ensures gives { GivesAs (λ x. (x.0.tree, x.1.now)) cause result
        (branches_at (tree_at nesting (limit - 1) 8) limit test.tree tokens.now) }
    ensures told { IfOk result (λ x. x.0.height ≡ height x.0.tree) }
{
    let (first, rest) = match tree_at(alloc, nesting, limit - 1, 8, tokens) {
        Ok(read) => read,
        Err(error) => return Err(error),
    };
    let rest = after(Mark::Colon, rest)?;
    let (second, rest) = match tree_at(alloc, nesting, limit - 1, 8, rest) {
        Ok(read) => read,
        Err(error) => return Err(error),
    };
    chosen_within(alloc, limit, test, first, second, rest)
}

// Operands with operators between them, up to those of a level.
#[cycle(parser)]
fn binary_at(
    alloc: Global,
    nesting: u32,
    limit: u32,
    level: u32,
    tokens: &[Token],
) -> Result<(Tall, &[Token]), ExprError>
    requires some { 0 < limit }
    requires low { 2 ≤ level }
    requires high { level ≤ 7 }
    ensures gives { GivesAs (λ x. (x.0.tree, x.1.now)) cause result (tree_at nesting limit level tokens.now) }
    ensures told { IfOk result (λ x. x.0.height ≡ height x.0.tree) }
{
    let (mut left, mut rest) = match tree_at(alloc, nesting, limit, 1, tokens) {
        Ok(read) => read,
        Err(error) => return Err(error),
    };
    // From the tightest operators to the loosest that may stand here.
    for tight in 1..level {
        let (whole, after) = match chain_at(alloc, nesting, limit, tight + 1, left, rest) {
            Ok(read) => read,
            Err(error) => return Err(error),
        };
        left = whole;
        rest = after;
    }
    Ok((left, rest))
}

// Operators of a level with their right operands, after a left operand, read from left to right.
#[cycle(parser)]
fn chain_at<'a>(
    alloc: Global,
    nesting: u32,
    limit: u32,
    level: u32,
    first: Tall,
    tokens: &'a [Token],
) -> Result<(Tall, &'a [Token]), ExprError>
    requires some { 0 < limit }
    requires low { 2 ≤ level }
    requires high { level ≤ 7 }
    requires first { first.height ≡ height first.tree }
    ensures gives { GivesAs (λ x. (x.0.tree, x.1.now)) cause result
        (chain_at (tree_at nesting (limit - 1) (level - 1)) limit level limit first.tree tokens.now) }
    ensures told { IfOk result (λ x. x.0.height ≡ height x.0.tree) }
{
    let mut left = first;
    let mut rest = tokens;
    // Each operator makes the tree higher.
    for _ in 0..limit {
        let Some(op) = operator_at(level, rest) else {
            return Ok((left, rest));
        };
        let (whole, after) = match joined_at(
            alloc,
            nesting,
            limit,
            level,
            op,
            left,
            after_first(rest),
        ) {
            Ok(read) => read,
            Err(error) => return Err(error),
        };
        left = whole;
        rest = after;
    }
    Err(ExprError::Shape)
}

// A left operand with its operator, and the right operand that comes next.
#[cycle(parser)]
fn joined_at<'a>(
    alloc: Global,
    nesting: u32,
    limit: u32,
    level: u32,
    op: BinOp,
    left: Tall,
    tokens: &'a [Token],
) -> Result<(Tall, &'a [Token]), ExprError>
    requires some { 0 < limit }
    requires low { 2 ≤ level }
    requires high { level ≤ 7 }
    requires left { left.height ≡ height left.tree }
    ensures gives { GivesAs (λ x. (x.0.tree, x.1.now)) cause result
        (joined_at (tree_at nesting (limit - 1) (level - 1)) limit op left.tree tokens.now) }
    ensures told { IfOk result (λ x. x.0.height ≡ height x.0.tree) }
{
    let (right, rest) = match tree_at(alloc, nesting, limit - 1, level - 1, tokens) {
        Ok(read) => read,
        Err(error) => return Err(error),
    };
    let highest = higher(left.height, right.height);
    let tree = joined(alloc, op, left.into_tree(), right.into_tree())?;
    within(limit, highest, tree, rest)
}

// A sign with its operand, or a primary.
#[cycle(parser)]
#[tactic(auto, using(crate::proofs::Heights::heights), unfolding(crate::specs::inner::Parser::unary_at))]
fn unary_at(
    alloc: Global,
    nesting: u32,
    limit: u32,
    tokens: &[Token],
) -> Result<(Tall, &[Token]), ExprError>
    requires { 0 < limit }
    ensures gives { GivesAs (λ x. (x.0.tree, x.1.now)) cause result
        (unary_at (tree_at nesting limit 0) (tree_at nesting (limit - 1) 1) limit tokens.now) }
    ensures told { IfOk result (λ x. x.0.height ≡ height x.0.tree) }
{
    let not = starts(Mark::Not, tokens);
    let minus = starts(Mark::Minus, tokens);
    if !not && !minus && !starts(Mark::Plus, tokens) {
        return tree_at(alloc, nesting, limit, 0, tokens);
    }
    let (operand, rest) = match tree_at(alloc, nesting, limit - 1, 1, after_first(tokens)) {
        Ok(read) => read,
        Err(error) => return Err(error),
    };
    let highest = operand.height;
    let operand = Boxed::new(alloc, operand.into_tree())?;
    if not {
        within(limit, highest, Expr::Not(operand), rest)
    } else if minus {
        within(limit, highest, Expr::Minus(operand), rest)
    } else {
        within(limit, highest, Expr::Plus(operand), rest)
    }
}

// A primary.
#[cycle(parser)]
#[tactic(auto, using(crate::proofs::Heights::heights), unfolding(crate::specs::inner::Parser::primary_at, crate::specs::inner::Parser::bracketed_at))]
fn primary_at(
    alloc: Global,
    nesting: u32,
    limit: u32,
    tokens: &[Token],
) -> Result<(Tall, &[Token]), ExprError>
    requires { 0 < limit }
    ensures gives { GivesAs (λ x. (x.0.tree, x.1.now)) cause result
        (primary_at (inside_of nesting limit) (inside_of nesting (limit - 1)) limit tokens.now) }
    ensures told { IfOk result (λ x. x.0.height ≡ height x.0.tree) }
{
    let Some((first, rest)) = next(tokens) else {
        return Err(ExprError::Shape);
    };
    match first {
        Token::Number(number) => Ok((leaf(Expr::Number(*number)), rest)),
        Token::Quoted(text) => Ok((leaf(Expr::Text(text.copy()?)), rest)),
        Token::Name(name) => named_at(alloc, nesting, limit, name, rest),
        Token::Mark(mark) if *mark == Mark::Open => {
            let (tree, rest) = match inside_of(alloc, nesting, limit, rest) {
                Ok(read) => read,
                Err(error) => return Err(error),
            };
            let rest = after(Mark::Close, rest)?;
            Ok((tree, rest))
        }
        Token::Mark(mark) if *mark == Mark::OpenSquare => pair_at(alloc, nesting, limit, rest),
        Token::Mark(_) => Err(ExprError::Shape),
    }
}

// What stands between brackets.
#[cycle(parser)]
fn inside_of(
    alloc: Global,
    nesting: u32,
    limit: u32,
    tokens: &[Token],
) -> Result<(Tall, &[Token]), ExprError>
    ensures gives { GivesAs (λ x. (x.0.tree, x.1.now)) cause result (inside_of nesting limit tokens.now) }
    ensures told { IfOk result (λ x. x.0.height ≡ height x.0.tree) }
{
    if nesting == 0 {
        return Err(ExprError::Shape);
    }
    tree_at(alloc, nesting - 1, limit, 8, tokens)
}

// A pair, after its `[`.
#[cycle(parser)]
#[tactic(auto, using(crate::proofs::Heights::heights), unfolding(crate::specs::inner::Parser::pair_at))]
fn pair_at(
    alloc: Global,
    nesting: u32,
    limit: u32,
    tokens: &[Token],
) -> Result<(Tall, &[Token]), ExprError>
    requires { 0 < limit }
    ensures gives { GivesAs (λ x. (x.0.tree, x.1.now)) cause result (pair_at (inside_of nesting (limit - 1)) limit tokens.now) }
    ensures told { IfOk result (λ x. x.0.height ≡ height x.0.tree) }
{
    let (first, rest) = match inside_of(alloc, nesting, limit - 1, tokens) {
        Ok(read) => read,
        Err(error) => return Err(error),
    };
    let rest = after(Mark::Comma, rest)?;
    let (second, rest) = match inside_of(alloc, nesting, limit - 1, rest) {
        Ok(read) => read,
        Err(error) => return Err(error),
    };
    let rest = after(Mark::CloseSquare, rest)?;
    paired_within(alloc, limit, first, second, rest)
}

// What begins with a name, after it.
#[cycle(parser)]
#[tactic(auto, using(crate::proofs::Heights::heights), unfolding(crate::specs::inner::Parser::named_at, crate::specs::inner::Parser::parameter_at))]
fn named_at<'a>(
    alloc: Global,
    nesting: u32,
    limit: u32,
    name: &Text,
    tokens: &'a [Token],
) -> Result<(Tall, &'a [Token]), ExprError>
    requires { 0 < limit }
    ensures gives { GivesAs (λ x. (x.0.tree, x.1.now)) cause result (named_at (inside_of nesting (limit - 1)) limit name.now tokens.now) }
    ensures told { IfOk result (λ x. x.0.height ≡ height x.0.tree) }
{
    match name.as_str() {
        "true" => Ok((leaf(Expr::Flag(true)), tokens)),
        "false" => Ok((leaf(Expr::Flag(false)), tokens)),
        "null" => Ok((leaf(Expr::Null), tokens)),
        "datum" => field_at(tokens),
        _ if starts(Mark::Open, tokens) => called_at(
            alloc,
            nesting,
            limit,
            name,
            after_first(tokens),
        ),
        _ if starts(Mark::Point, tokens) => {
            let (field, rest) = name_at(after_first(tokens))?;
            Ok((leaf(Expr::Member(name.copy()?, field.copy()?)), rest))
        }
        _ => Ok((leaf(Expr::Param(name.copy()?)), tokens)),
    }
}

// A call, after its `(`.
#[cycle(parser)]
#[tactic(auto, unfolding(crate::specs::inner::Parser::called_at))]
fn called_at<'a>(
    alloc: Global,
    nesting: u32,
    limit: u32,
    name: &Text,
    tokens: &'a [Token],
) -> Result<(Tall, &'a [Token]), ExprError>
    requires { 0 < limit }
    ensures gives { GivesAs (λ x. (x.0.tree, x.1.now)) cause result (called_at (inside_of nesting (limit - 1)) limit name.now tokens.now) }
    ensures told { IfOk result (λ x. x.0.height ≡ height x.0.tree) }
{
    let word = name.as_str();
    if is_word(word, "vlSelectionTest") {
        selected_at(alloc, tokens)
    } else if is_word(word, "domain") {
        domain_length_at(tokens)
    } else if asks_store(word, tokens) {
        stored_at(alloc, after_first(after_first(tokens)))
    } else {
        builtin_at(alloc, nesting, limit, builtin_of(word), tokens)
    }
}

// A call of the builtin of a code, if there is one, after its `(`.
#[cycle(parser)]
fn builtin_at(
    alloc: Global,
    nesting: u32,
    limit: u32,
    code: Option<u16>,
    tokens: &[Token],
) -> Result<(Tall, &[Token]), ExprError>
    requires { 0 < limit }
    ensures gives { GivesAs (λ x. (x.0.tree, x.1.now)) cause result (builtin_at (inside_of nesting (limit - 1)) limit code tokens.now) }
    ensures told { IfOk result (λ x. x.0.height ≡ height x.0.tree) }
{
    match code {
        Some(code) => call_at(alloc, nesting, limit, code, tokens),
        None => Err(ExprError::Shape),
    }
}

// The arguments of the builtin of a code, after its `(`.
#[cycle(parser)]
#[tactic(auto, using(crate::proofs::Heights::heights), unfolding(crate::specs::inner::Parser::call_at))]
fn call_at(
    alloc: Global,
    nesting: u32,
    limit: u32,
    code: u16,
    tokens: &[Token],
) -> Result<(Tall, &[Token]), ExprError>
    requires { 0 < limit }
    ensures gives { GivesAs (λ x. (x.0.tree, x.1.now)) cause result (call_at (inside_of nesting (limit - 1)) limit code tokens.now) }
    ensures told { IfOk result (λ x. x.0.height ≡ height x.0.tree) }
{
    let (arguments, highest, rest) = match arguments_at(alloc, nesting, limit - 1, tokens) {
        Ok(read) => read,
        Err(error) => return Err(error),
    };
    let rest = after(Mark::Close, rest)?;
    if !admits(code, arguments.len()) {
        return Err(ExprError::Shape);
    }
    within(limit, highest, Expr::Call(code, arguments), rest)
}

// Arguments with commas between them, how high the highest is, and what follows.
#[cycle(parser)]
fn arguments_at(
    alloc: Global,
    nesting: u32,
    limit: u32,
    tokens: &[Token],
) -> Result<(Seq<Expr>, u32, &[Token]), ExprError>
    ensures gives { GivesAs (λ x. (x.0, x.2.now)) cause result (arguments_at (inside_of nesting limit) most_arguments [] tokens.now) }
    ensures told { IfOk result (λ x. x.1 ≡ list_max (map height x.0)) }
{
    let mut arguments = Seq::new(alloc);
    let mut highest = 0;
    let mut rest = tokens;
    for _ in 0..MOST_ARGUMENTS {
        let (argument, after) = match inside_of(alloc, nesting, limit, rest) {
            Ok(read) => read,
            Err(error) => return Err(error),
        };
        highest = higher(highest, argument.height);
        arguments.push(argument.into_tree())?;
        if !starts(Mark::Comma, after) {
            return Ok((arguments, highest, after));
        }
        rest = after_first(after);
    }
    Err(ExprError::Shape)
}

/// The tree that all of the tokens are.
#[tactic(auto, unfolding(crate::specs::inner::Parser::whole_at))]
pub(crate) fn whole_at(alloc: Global, tokens: &[Token]) -> Result<Expr, ExprError>
    ensures { GivesAs (λ e. e) cause result (whole_at tokens.now) }
{
    let (tall, rest) = match tree_at(alloc, MOST_NESTING, MOST_HEIGHT, 8, tokens) {
        Ok(read) => read,
        Err(error) => return Err(error),
    };
    if rest.is_empty() {
        Ok(tall.into_tree())
    } else {
        Err(ExprError::Shape)
    }
}
