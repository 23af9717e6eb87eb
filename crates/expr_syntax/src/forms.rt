//! The forms without parts.
ghost use Rattle.std.specs.Prelude.{◌≡◌, bytes_eq, IfOk};
ghost use Rattle.text_kit.specs.Answer.{GivesAs};
ghost use Rattle.expr_syntax.specs.Grammar.{height};
ghost use Rattle.expr_syntax.specs.inner.Scanner.{cause};
ghost use Rattle.expr_syntax.specs.inner.Parser.{before_store, selected_at, stored_at, domain_length_at, field_at, starts_data, asks_store};

use crate::errors::ExprError;
use crate::expr::Expr;
use crate::fronts::{after, after_first, after_word, name_at, next, quoted_at, starts};
use crate::tall::{Tall, leaf};
use crate::token::{Mark, Token};
use std::alloc::Global;
use text_kit::Text;

// What stands before `_store`.
#[tactic(auto, unfolding(crate::specs::inner::Parser::before_store))]
fn before_store(alloc: Global, text: &Text) -> Result<Text, ExprError>
    ensures { GivesAs (λ x. x) cause result (before_store text.now) }
{
    match text.as_str().strip_suffix("_store") {
        Some(selection) => Ok(Text::of(alloc, selection)?),
        None => Err(ExprError::Shape),
    }
}

// After `vlSelectionTest(`.
#[tactic(auto, using(crate::proofs::Heights::heights), unfolding(crate::specs::inner::Parser::selected_at))]
pub(crate) fn selected_at(alloc: Global, tokens: &[Token]) -> Result<(Tall, &[Token]), ExprError>
    ensures gives { GivesAs (λ x. (x.0.tree, x.1.now)) cause result (selected_at tokens.now) }
    ensures told { IfOk result (λ x. x.0.height ≡ height x.0.tree) }
{
    let (text, rest) = quoted_at(tokens)?;
    let rest = after(Mark::Comma, rest)?;
    let rest = after_word("datum", rest)?;
    let rest = after(Mark::Close, rest)?;
    Ok((leaf(Expr::Selected(before_store(alloc, text)?)), rest))
}

// After `length(data(`.
#[tactic(auto, using(crate::proofs::Heights::heights), unfolding(crate::specs::inner::Parser::stored_at))]
pub(crate) fn stored_at(alloc: Global, tokens: &[Token]) -> Result<(Tall, &[Token]), ExprError>
    ensures gives { GivesAs (λ x. (x.0.tree, x.1.now)) cause result (stored_at tokens.now) }
    ensures told { IfOk result (λ x. x.0.height ≡ height x.0.tree) }
{
    let (text, rest) = quoted_at(tokens)?;
    let rest = after(Mark::Close, rest)?;
    let rest = after(Mark::Close, rest)?;
    Ok((leaf(Expr::Stored(before_store(alloc, text)?)), rest))
}

// After `domain(`.
#[tactic(auto, using(crate::proofs::Heights::heights), unfolding(crate::specs::inner::Parser::domain_length_at))]
pub(crate) fn domain_length_at(tokens: &[Token]) -> Result<(Tall, &[Token]), ExprError>
    ensures gives { GivesAs (λ x. (x.0.tree, x.1.now)) cause result (domain_length_at tokens.now) }
    ensures told { IfOk result (λ x. x.0.height ≡ height x.0.tree) }
{
    let (text, rest) = quoted_at(tokens)?;
    let rest = after(Mark::Close, rest)?;
    let rest = after(Mark::Point, rest)?;
    let rest = after_word("length", rest)?;
    Ok((leaf(Expr::DomainLength(text.copy()?)), rest))
}

// After `datum`.
#[tactic(auto, using(crate::proofs::Heights::heights), unfolding(crate::specs::inner::Parser::field_at))]
pub(crate) fn field_at(tokens: &[Token]) -> Result<(Tall, &[Token]), ExprError>
    ensures gives { GivesAs (λ x. (x.0.tree, x.1.now)) cause result (field_at tokens.now) }
    ensures told { IfOk result (λ x. x.0.height ≡ height x.0.tree) }
{
    if starts(Mark::Point, tokens) {
        let (name, rest) = name_at(after_first(tokens))?;
        return Ok((leaf(Expr::Field(name.copy()?)), rest));
    }
    let rest = after(Mark::OpenSquare, tokens)?;
    let (name, rest) = quoted_at(rest)?;
    let rest = after(Mark::CloseSquare, rest)?;
    Ok((leaf(Expr::Field(name.copy()?)), rest))
}

// Whether `data(` comes first.
#[tactic(auto, unfolding(crate::specs::inner::Parser::starts_data))]
fn starts_data(tokens: &[Token]) -> bool
    ensures { result ≡ starts_data tokens.now }
{
    match next(tokens) {
        Some((Token::Name(name), rest)) => name.as_str() == "data" && starts(Mark::Open, rest),
        Some((Token::Mark(_) | Token::Number(_) | Token::Quoted(_), _)) | None => false,
    }
}

// Whether a call with this name asks for a store: `length(` and `data(`.
pub(crate) fn asks_store(name: &str, tokens: &[Token]) -> bool
    ensures { result ≡ asks_store name.now tokens.now }
{
    name == "length" && starts_data(tokens)
}

// Whether a name is a word.
pub(crate) fn is_word(name: &str, word: &str) -> bool
    ensures { result ≡ bytes_eq name.now word.now }
{
    name == word
}
