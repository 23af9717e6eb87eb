//! Calls of names with texts.
ghost use Rattle.std.specs.Prelude.{◌≡◌, ◌∷◌, [], ◌++◌, fold, IfOk, IfSome, Some, OnOk};
ghost use Rattle.std.specs.Option.{option_copied};
ghost use Rattle.expr_syntax.specs.Calls.{SpellsCall};
ghost use Rattle.expr_syntax.specs.declared.calls.TextCall.{TextCall as AnyCall};
ghost use Rattle.expr_syntax.specs.declared.calls.Place.TheVariants.{Named};
ghost use Rattle.expr_syntax.specs.inner.Calls.{place_after_text, place_after_mark, place_after, is_closed, name_called, texts_in, call_in};

use crate::errors::ExprError;
use crate::fronts::{is, next};
use crate::scanner::tokens;
use crate::token::{Mark, Token};
use std::alloc::Global;
use text_kit::{OutOfMemory, Seq, Text};

/// A call of a name with texts.
#[derive(Debug, Drop)]
pub struct TextCall {
    /// The name.
    pub name: Text,
    /// The texts, without their quotes and escapes.
    pub arguments: Seq<Text>,
}

/// A place in a call.
#[derive(Clone, Copy, Debug)]
enum Place {
    /// After the name.
    Named,
    /// After `(`.
    Opened,
    /// After a text.
    Spelled,
    /// After `,`.
    Parted,
    /// After `)`.
    Closed,
    /// Where no call leads.
    Nowhere,
}

// Where a text leads.
#[tactic(auto, unfolding(crate::specs::inner::Calls::place_after_text))]
fn place_after_text(place: Place) -> Place
    ensures { result ≡ place_after_text place }
{
    match place {
        Place::Opened | Place::Parted => Place::Spelled,
        Place::Named | Place::Spelled | Place::Closed | Place::Nowhere => Place::Nowhere,
    }
}

// Where a mark leads.
#[tactic(auto, unfolding(crate::specs::inner::Calls::place_after_mark))]
fn place_after_mark(place: Place, mark: Mark) -> Place
    ensures { result ≡ place_after_mark place mark }
{
    match place {
        Place::Named if is(mark, Mark::Open) => Place::Opened,
        Place::Opened if is(mark, Mark::Close) => Place::Closed,
        Place::Spelled if is(mark, Mark::Comma) => Place::Parted,
        Place::Spelled if is(mark, Mark::Close) => Place::Closed,
        _ => Place::Nowhere,
    }
}

// Where a token leads.
#[tactic(auto, unfolding(crate::specs::inner::Calls::place_after))]
fn place_after(place: Place, token: &Token) -> Place
    ensures { result ≡ place_after place token.now }
{
    match token {
        Token::Quoted(_) => place_after_text(place),
        Token::Mark(mark) => place_after_mark(place, *mark),
        Token::Name(_) | Token::Number(_) => Place::Nowhere,
    }
}

// Whether a call ends at a place.
fn is_closed(place: Place) -> bool
    ensures { result ≡ is_closed place }
{
    match place {
        Place::Closed => true,
        Place::Named | Place::Opened | Place::Spelled | Place::Parted | Place::Nowhere => false,
    }
}

// Where the tokens after a name lead.
fn place_of(tokens: &[Token]) -> Place
    ensures { result ≡ fold place_after Named tokens.now }
{
    let mut place = Place::Named;
    for token in tokens {
        place = place_after(place, token);
    }
    place
}

// The name of the call that the tokens are.
#[tactic(auto, unfolding(crate::specs::inner::Calls::name_called))]
fn name_called(tokens: &[Token]) -> Option<&Text>
    ensures { option_copied result ≡ name_called tokens.now }
{
    match next(tokens) {
        Some((Token::Name(name), rest)) if is_closed(place_of(rest)) => Some(name),
        _ => None,
    }
}

// Adds the text that a token is.
#[tactic(auto, unfolding(crate::specs::inner::Calls::texts_in))]
fn push_text(texts: &mut Seq<Text>, token: &Token) -> Result<(), OutOfMemory>
    ensures { OnOk result (texts.new ≡ texts.old ++ texts_in (token.now ∷ [])) }
{
    match token {
        Token::Quoted(text) => texts.push(text.copy()?),
        Token::Name(_) | Token::Number(_) | Token::Mark(_) => Ok(()),
    }
}

// The texts among the tokens.
fn texts_in(alloc: Global, tokens: &[Token]) -> Result<Seq<Text>, OutOfMemory>
    ensures { IfOk result (λ texts. texts ≡ texts_in tokens.now) }
{
    let mut texts = Seq::new(alloc);
    for token in tokens {
        push_text(&mut texts, token)?;
    }
    Ok(texts)
}

// The call that the tokens are.
#[tactic(auto, unfolding(crate::specs::inner::Calls::call_in))]
fn call_in(alloc: Global, tokens: &[Token]) -> Result<Option<TextCall>, OutOfMemory>
    ensures { IfOk result (λ call. call ≡ call_in tokens.now) }
{
    match name_called(tokens) {
        Some(name) => {
            let name = name.copy()?;
            let arguments = texts_in(alloc, tokens)?;
            Ok(Some(TextCall { name, arguments }))
        }
        None => Ok(None),
    }
}

/// The call of a name with texts that a text spells, as `vlPoint('p', 'f')`, by the tokens of expressions; None exactly where it spells
/// none. There may be any number of texts, none too; blanks may stand between any two tokens.
pub fn text_call(alloc: Global, text: &str) -> Result<Option<TextCall>, OutOfMemory>
    // What is found is what the text spells.
    ensures sound { IfOk result (λ found. IfSome found (SpellsCall text.now)) }
    // What the text spells is found.
    ensures complete { IfOk result (λ found. (call : AnyCall) → SpellsCall text.now call → found ≡ Some call) }
{
    match tokens(alloc, text) {
        Ok(tokens) => call_in(alloc, tokens.as_slice()),
        Err(ExprError::Shape) => Ok(None),
        Err(ExprError::Memory) => Err(OutOfMemory),
    }
}
