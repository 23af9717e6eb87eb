//! The text of a tree.
ghost use Rattle.std.specs.Prelude.{◌≡◌, ◌∷◌, [], ◌++◌, List, ℕ, IfOk, OnOk, codes, option_map, slice_get};
ghost use Rattle.expr_syntax.specs.declared.expr.Expr.{Expr as Tree};
ghost use Rattle.expr_syntax.specs.declared.token.Token.TheVariants as token;
ghost use Rattle.expr_syntax.specs.declared.token.Mark.TheVariants as mark;
ghost use Rattle.case_table.specs.declared.case.Case.{Case as ACase};
ghost use Rattle.expr_syntax.specs.Grammar.{HasReading, mark_of, store_of, field_of_row, selection_test, store_length, length_of_domain};
ghost use Rattle.expr_syntax.specs.Writing.{written, as_part, with_commas, the_name, builtin_name, text_of};

use crate::expr::{BinOp, Expr};
use crate::token::{Mark, Token};
use crate::token_text::text_of_tokens;
use case_table::{BUILTINS, Case};
use std::alloc::Global;
use text_kit::{OutOfMemory, Seq, Text};

/// The text of a tree: brackets round every part that is no primary, and `'` round texts and the names of fields.
pub fn write(alloc: Global, e: &Expr) -> Result<Text, OutOfMemory>
    ensures { IfOk result (λ text. text ≡ text_of e.now) }
{
    let mut tokens = Seq::new(alloc);
    push_tree(alloc, &mut tokens, e)?;
    text_of_tokens(alloc, tokens.as_slice())
}

/// What is written of a tree that was read is read as that tree.
pub fn what_was_written_is_read()
    ensures { (text : List ℕ) (e : Tree) → HasReading text e → HasReading (text_of e) e }
{}

// The mark of an operator.
fn mark_of(op: BinOp) -> Mark
    ensures { result ≡ mark_of op }
{
    match op {
        BinOp::Or => Mark::Or,
        BinOp::And => Mark::And,
        BinOp::Like => Mark::Like,
        BinOp::NotLike => Mark::NotLike,
        BinOp::Same => Mark::Same,
        BinOp::NotSame => Mark::NotSame,
        BinOp::Less => Mark::Less,
        BinOp::LessSame => Mark::LessSame,
        BinOp::More => Mark::More,
        BinOp::MoreSame => Mark::MoreSame,
        BinOp::Add => Mark::Plus,
        BinOp::Sub => Mark::Minus,
        BinOp::Mul => Mark::Times,
        BinOp::Div => Mark::Over,
        BinOp::Rem => Mark::Percent,
    }
}

// The name at a place of a table, empty where there is none.
fn name_in(table: &[Case], place: usize) -> &'static str
    ensures { result.now ≡ the_name (option_map (λ (c : ACase). c.name.now) (slice_get table.now place)) }
{
    match table.get(place) {
        Some(case) => case.name,
        None => "",
    }
}

// The name of the builtin of a code, empty where there is none.
fn builtin_name(code: u16) -> &'static str
    ensures { result.now ≡ builtin_name code }
{
    name_in(&BUILTINS, usize::from(code))
}

// Whether a tree is written as a primary.
#[tactic(auto, using(crate::proofs::Folded::forms_written))]
fn is_primary(e: &Expr) -> bool
    ensures { result ≡ (written e.now).is_primary }
{
    match e {
        Expr::Not(_)
        | Expr::Minus(_)
        | Expr::Plus(_)
        | Expr::Binary(_, _, _)
        | Expr::Choose(_, _, _) => { false }
        Expr::Null
        | Expr::Flag(_)
        | Expr::Number(_)
        | Expr::Text(_)
        | Expr::Field(_)
        | Expr::Param(_)
        | Expr::Member(_, _)
        | Expr::Pair(_, _)
        | Expr::Call(_, _)
        | Expr::Selected(_)
        | Expr::Stored(_)
        | Expr::DomainLength(_) => true,
    }
}

// Each of these adds tokens to those that are there.

fn push_mark(out: &mut Seq<Token>, mark: Mark) -> Result<(), OutOfMemory>
    ensures { OnOk result (out.new ≡ out.old ++ token.Mark mark ∷ []) }
{
    out.push(Token::Mark(mark))
}

fn push_word(alloc: Global, out: &mut Seq<Token>, word: &str) -> Result<(), OutOfMemory>
    ensures { OnOk result (out.new ≡ out.old ++ token.Name word.now ∷ []) }
{
    out.push(Token::Name(Text::of(alloc, word)?))
}

fn push_text(out: &mut Seq<Token>, text: &Text) -> Result<(), OutOfMemory>
    ensures { OnOk result (out.new ≡ out.old ++ token.Quoted text.now ∷ []) }
{
    out.push(Token::Quoted(text.copy()?))
}

// The name of the store of a selection, as a text.
fn push_store(out: &mut Seq<Token>, selection: &Text) -> Result<(), OutOfMemory>
    ensures { OnOk result (out.new ≡ out.old ++ token.Quoted (store_of selection.now) ∷ []) }
{
    let mut store = selection.copy()?;
    store.push_str("_store")?;
    out.push(Token::Quoted(store))
}

fn push_field(alloc: Global, out: &mut Seq<Token>, name: &Text) -> Result<(), OutOfMemory>
    ensures { OnOk result (out.new ≡ out.old ++ field_of_row name.now) }
{
    push_word(alloc, out, "datum")?;
    push_mark(out, Mark::OpenSquare)?;
    push_text(out, name)?;
    push_mark(out, Mark::CloseSquare)
}

fn push_member(
    alloc: Global,
    out: &mut Seq<Token>,
    name: &Text,
    field: &Text,
) -> Result<(), OutOfMemory>
    ensures { OnOk result (out.new ≡ out.old ++ token.Name name.now ∷ token.Mark mark.Point ∷ token.Name field.now ∷ []) }
{
    push_word(alloc, out, name.as_str())?;
    push_mark(out, Mark::Point)?;
    push_word(alloc, out, field.as_str())
}

// A word and `(`.
fn push_call(alloc: Global, out: &mut Seq<Token>, word: &str) -> Result<(), OutOfMemory>
    ensures { OnOk result (out.new ≡ out.old ++ token.Name word.now ∷ token.Mark mark.Open ∷ []) }
{
    push_word(alloc, out, word)?;
    push_mark(out, Mark::Open)
}

// `, datum)`
fn push_datum(alloc: Global, out: &mut Seq<Token>) -> Result<(), OutOfMemory>
    ensures { OnOk result (out.new ≡ out.old ++ token.Mark mark.Comma ∷ token.Name (codes "datum") ∷ token.Mark mark.Close ∷ []) }
{
    push_mark(out, Mark::Comma)?;
    push_word(alloc, out, "datum")?;
    push_mark(out, Mark::Close)
}

// `).length`
fn push_length(alloc: Global, out: &mut Seq<Token>) -> Result<(), OutOfMemory>
    ensures { OnOk result (out.new ≡ out.old ++ token.Mark mark.Close ∷ token.Mark mark.Point ∷ token.Name (codes "length") ∷ []) }
{
    push_mark(out, Mark::Close)?;
    push_mark(out, Mark::Point)?;
    push_word(alloc, out, "length")
}

fn push_selected(alloc: Global, out: &mut Seq<Token>, selection: &Text) -> Result<(), OutOfMemory>
    ensures { OnOk result (out.new ≡ out.old ++ selection_test selection.now) }
{
    push_call(alloc, out, "vlSelectionTest")?;
    push_store(out, selection)?;
    push_datum(alloc, out)
}

fn push_stored(alloc: Global, out: &mut Seq<Token>, selection: &Text) -> Result<(), OutOfMemory>
    ensures { OnOk result (out.new ≡ out.old ++ store_length selection.now) }
{
    push_call(alloc, out, "length")?;
    push_call(alloc, out, "data")?;
    push_store(out, selection)?;
    push_mark(out, Mark::Close)?;
    push_mark(out, Mark::Close)
}

fn push_domain_length(alloc: Global, out: &mut Seq<Token>, scale: &Text) -> Result<(), OutOfMemory>
    ensures { OnOk result (out.new ≡ out.old ++ length_of_domain scale.now) }
{
    push_call(alloc, out, "domain")?;
    push_text(out, scale)?;
    push_length(alloc, out)
}

#[cycle(writer)]
#[tactic(auto, using(crate::proofs::Folded::forms_written))]
fn push_tree(alloc: Global, out: &mut Seq<Token>, e: &Expr) -> Result<(), OutOfMemory>
    ensures { OnOk result (out.new ≡ out.old ++ (written e.now).tokens) }
{
    match e {
        Expr::Null => push_word(alloc, out, "null"),
        Expr::Flag(true) => push_word(alloc, out, "true"),
        Expr::Flag(false) => push_word(alloc, out, "false"),
        Expr::Number(number) => out.push(Token::Number(*number)),
        Expr::Text(text) => push_text(out, text),
        Expr::Field(name) => push_field(alloc, out, name),
        Expr::Param(name) => push_word(alloc, out, name.as_str()),
        Expr::Member(name, field) => push_member(alloc, out, name, field),
        Expr::Not(operand) => push_signed(alloc, out, Mark::Not, operand.get()),
        Expr::Minus(operand) => push_signed(alloc, out, Mark::Minus, operand.get()),
        Expr::Plus(operand) => push_signed(alloc, out, Mark::Plus, operand.get()),
        Expr::Binary(op, left, right) => {
            push_part(alloc, out, left.get())?;
            push_signed(alloc, out, mark_of(*op), right.get())
        }
        Expr::Choose(test, first, second) => {
            push_part(alloc, out, test.get())?;
            push_signed(alloc, out, Mark::Question, first.get())?;
            push_signed(alloc, out, Mark::Colon, second.get())
        }
        Expr::Pair(first, second) => {
            push_signed(alloc, out, Mark::OpenSquare, first.get())?;
            push_signed(alloc, out, Mark::Comma, second.get())?;
            push_mark(out, Mark::CloseSquare)
        }
        Expr::Call(code, arguments) => {
            push_word(alloc, out, builtin_name(*code))?;
            push_mark(out, Mark::Open)?;
            push_arguments(alloc, out, arguments.as_slice())?;
            push_mark(out, Mark::Close)
        }
        Expr::Selected(selection) => push_selected(alloc, out, selection),
        Expr::Stored(selection) => push_stored(alloc, out, selection),
        Expr::DomainLength(scale) => push_domain_length(alloc, out, scale),
    }
}

// A part, in brackets where it is no primary.
#[cycle(writer)]
fn push_part(alloc: Global, out: &mut Seq<Token>, e: &Expr) -> Result<(), OutOfMemory>
    ensures { OnOk result (out.new ≡ out.old ++ as_part (written e.now)) }
{
    if is_primary(e) {
        return push_tree(alloc, out, e);
    }
    push_mark(out, Mark::Open)?;
    push_tree(alloc, out, e)?;
    push_mark(out, Mark::Close)
}

// A mark and then a part.
#[cycle(writer)]
fn push_signed(alloc: Global, out: &mut Seq<Token>, mark: Mark, e: &Expr) -> Result<(), OutOfMemory>
    ensures { OnOk result (out.new ≡ out.old ++ token.Mark mark ∷ as_part (written e.now)) }
{
    push_mark(out, mark)?;
    push_part(alloc, out, e)
}

// Parts with commas between them.
#[cycle(writer)]
fn push_arguments(
    alloc: Global,
    out: &mut Seq<Token>,
    arguments: &[Expr],
) -> Result<(), OutOfMemory>
    ensures { OnOk result (out.new ≡ out.old ++ with_commas (λ e. as_part (written e)) arguments.now) }
{
    let [first, others @ ..] = arguments else {
        return Ok(());
    };
    push_part(alloc, out, first)?;
    for argument in others {
        push_signed(alloc, out, Mark::Comma, argument)?;
    }
    Ok(())
}
