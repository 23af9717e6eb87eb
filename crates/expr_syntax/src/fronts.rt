//! The tokens at the front of others.
ghost use Rattle.std.specs.Prelude.{◌≡◌, ◌∷◌, [], drop, MatchOption};
ghost use Rattle.text_kit.specs.Answer.{GivesAs};
ghost use Rattle.expr_syntax.specs.inner.Scanner.{cause};
ghost use Rattle.expr_syntax.specs.inner.Parser.{is, starts, after, after_word, name_at, quoted_at, operator_of};

use crate::errors::ExprError;
use crate::expr::BinOp;
use crate::token::{Mark, Token};
use text_kit::Text;

// The first token, and those after it.
pub(crate) fn next(tokens: &[Token]) -> Option<(&Token, &[Token])>
    ensures { MatchOption result (tokens.now ≡ []) (λ x. tokens.now ≡ x.0.now ∷ x.1.now) }
{
    match tokens {
        [] => None,
        [first, rest @ ..] => Some((first, rest)),
    }
}

// The tokens after the first.
pub(crate) fn after_first(tokens: &[Token]) -> &[Token]
    ensures { result.now ≡ drop 1 tokens.now }
{
    match tokens {
        [] => tokens,
        [_, rest @ ..] => rest,
    }
}

// Whether two marks are one.
pub(crate) fn is(mark: Mark, other: Mark) -> bool
    ensures { result ≡ is mark other }
{
    mark == other
}

// Whether a mark comes first.
#[tactic(auto, unfolding(crate::specs::inner::Parser::starts))]
pub(crate) fn starts(mark: Mark, tokens: &[Token]) -> bool
    ensures { result ≡ starts mark tokens.now }
{
    match next(tokens) {
        Some((Token::Mark(first), _)) => is(mark, *first),
        Some((Token::Name(_) | Token::Number(_) | Token::Quoted(_), _)) | None => false,
    }
}

// What follows a mark.
pub(crate) fn after(mark: Mark, tokens: &[Token]) -> Result<&[Token], ExprError>
    ensures { GivesAs (λ x. x.now) cause result (after mark tokens.now) }
{
    if starts(mark, tokens) {
        Ok(after_first(tokens))
    } else {
        Err(ExprError::Shape)
    }
}

// A name, and what follows it.
#[tactic(auto, unfolding(crate::specs::inner::Parser::name_at))]
pub(crate) fn name_at(tokens: &[Token]) -> Result<(&Text, &[Token]), ExprError>
    ensures { GivesAs (λ x. (x.0.now, x.1.now)) cause result (name_at tokens.now) }
{
    match next(tokens) {
        Some((Token::Name(name), rest)) => Ok((name, rest)),
        Some((Token::Mark(_) | Token::Number(_) | Token::Quoted(_), _)) | None => {
            Err(ExprError::Shape)
        }
    }
}

// A text between quotes, and what follows it.
#[tactic(auto, unfolding(crate::specs::inner::Parser::quoted_at))]
pub(crate) fn quoted_at(tokens: &[Token]) -> Result<(&Text, &[Token]), ExprError>
    ensures { GivesAs (λ x. (x.0.now, x.1.now)) cause result (quoted_at tokens.now) }
{
    match next(tokens) {
        Some((Token::Quoted(text), rest)) => Ok((text, rest)),
        Some((Token::Mark(_) | Token::Number(_) | Token::Name(_), _)) | None => {
            Err(ExprError::Shape)
        }
    }
}

// What follows a word.
pub(crate) fn after_word<'a>(word: &str, tokens: &'a [Token]) -> Result<&'a [Token], ExprError>
    ensures { GivesAs (λ x. x.now) cause result (after_word word.now tokens.now) }
{
    let (name, rest) = name_at(tokens)?;
    if name.as_str() == word {
        Ok(rest)
    } else {
        Err(ExprError::Shape)
    }
}

// The operator that a mark stands for.
pub(crate) fn operator_of(mark: Mark) -> Option<BinOp>
    ensures { result ≡ operator_of mark }
{
    match mark {
        Mark::Or => Some(BinOp::Or),
        Mark::And => Some(BinOp::And),
        Mark::Like => Some(BinOp::Like),
        Mark::NotLike => Some(BinOp::NotLike),
        Mark::Same => Some(BinOp::Same),
        Mark::NotSame => Some(BinOp::NotSame),
        Mark::Less => Some(BinOp::Less),
        Mark::LessSame => Some(BinOp::LessSame),
        Mark::More => Some(BinOp::More),
        Mark::MoreSame => Some(BinOp::MoreSame),
        Mark::Plus => Some(BinOp::Add),
        Mark::Minus => Some(BinOp::Sub),
        Mark::Times => Some(BinOp::Mul),
        Mark::Over => Some(BinOp::Div),
        Mark::Percent => Some(BinOp::Rem),
        Mark::Not
        | Mark::Question
        | Mark::Colon
        | Mark::Comma
        | Mark::Point
        | Mark::Open
        | Mark::Close
        | Mark::OpenSquare
        | Mark::CloseSquare => None,
    }
}
