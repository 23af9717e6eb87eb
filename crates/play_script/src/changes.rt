//! What a change does, as it is written: expressions and rows.
ghost use Rattle.std.specs.Prelude.{◌≡◌, map};
ghost use Rattle.std.specs.Option.{option_copied};
ghost use Rattle.fixed_num.specs.Ranges.{all_found};
ghost use Rattle.expr_syntax.specs.inner.Expression.{without_domain};
ghost use Rattle.param_flow.specs.Commands.{items_or_empty, expression_in, remove_in, modify_in, change_in};
ghost use Rattle.play_script.specs.inner.Reading.{ReadsAs, script_expression, expression_at, text_at, change_with};

use crate::LineError;
use crate::values::{
    items_of, items_or_empty, member_of, member_value, members_among, members_of, text_in,
};
use expr_syntax::{Expr, ExprError, has_domain_length};
use json_exact::{Json, Member};
use param_flow::{ChangeOf, Modify};
use std::alloc::Global;
use text_kit::{Seq, Text};

// An expression in which no length of a domain stands.
fn without_domain(e: Expr) -> Result<Expr, LineError>
    ensures { ReadsAs result (without_domain e) }
{
    if has_domain_length(&e) {
        Err(LineError::Fault)
    } else {
        Ok(e)
    }
}

// The expression that a text is.
fn expression_of(alloc: Global, text: &str) -> Result<Expr, LineError>
    ensures { ReadsAs result (script_expression text.now) }
{
    match expr_syntax::read(alloc, text) {
        Ok(e) => without_domain(e),
        Err(ExprError::Shape) => Err(LineError::Fault),
        Err(ExprError::Memory) => Err(LineError::Memory),
    }
}

// The expression that a tree is.
fn expression_in(alloc: Global, tree: &Json) -> Result<Expr, LineError>
    ensures { ReadsAs result (expression_in script_expression tree.now) }
{
    match text_in(tree) {
        Some(text) => expression_of(alloc, text.as_str()),
        None => Err(LineError::Fault),
    }
}

// The expression under a name.
fn expression_at(alloc: Global, members: &[Member], name: &str) -> Result<Expr, LineError>
    ensures { ReadsAs result (expression_at script_expression members.now name.now) }
{
    match member_value(members, name) {
        Some(tree) => expression_in(alloc, tree),
        None => Err(LineError::Fault),
    }
}

// The text under a name.
fn text_at(members: &[Member], name: &str) -> Result<Text, LineError>
    ensures { ReadsAs result (text_at members.now name.now) }
{
    match member_value(members, name) {
        Some(tree) => match text_in(tree) {
            Some(text) => Ok(text.copy()?),
            None => Err(LineError::Fault),
        },
        None => Err(LineError::Fault),
    }
}

// The expression of a member that may be absent.
fn remove_in(alloc: Global, found: Option<&Json>) -> Result<Option<Expr>, LineError>
    ensures { ReadsAs result (remove_in script_expression (option_copied found.entry)) }
{
    match found {
        Some(tree) => Ok(Some(expression_in(alloc, tree)?)),
        None => Ok(None),
    }
}

// An entry that sets a field.
fn modify_in(alloc: Global, tree: &Json) -> Result<Modify, LineError>
    ensures { ReadsAs result (modify_in script_expression tree.now) }
{
    let Some(members) = members_among(&["where", "field", "set"], tree) else {
        return Err(LineError::Fault);
    };
    let test = expression_at(alloc, members, "where")?;
    let field = text_at(members, "field")?;
    let value = expression_at(alloc, members, "set")?;
    Ok(Modify { test, field, value })
}

// The entries of a change.
#[tactic(auto, using(fixed_num::proofs::FoundLemmas::one_more))]
fn entries_in(alloc: Global, entries: &[Json]) -> Result<Seq<Modify>, LineError>
    ensures { ReadsAs result (all_found (map (modify_in script_expression) entries.now)) }
{
    let mut out = Seq::new(alloc);
    for entry in entries {
        out.push(modify_in(alloc, entry)?)?;
    }
    Ok(out)
}

// The rows that a change inserts.
fn insert_in(alloc: Global, found: Option<Json>) -> Option<Seq<Json>>
    ensures { result ≡ items_or_empty found }
{
    match found {
        Some(tree) => items_of(tree),
        None => Some(Seq::new(alloc)),
    }
}

// The change that an object of these members is.
fn change_with(alloc: Global, members: Seq<Member>) -> Result<ChangeOf, LineError>
    ensures { ReadsAs result (change_with script_expression members) }
{
    let remove = remove_in(alloc, member_value(members.as_slice(), "remove"))?;
    let Some(entries) = items_or_empty(member_value(members.as_slice(), "modify")) else {
        return Err(LineError::Fault);
    };
    let modify = entries_in(alloc, entries)?;
    let Some(insert) = insert_in(alloc, member_of(members, "insert")) else {
        return Err(LineError::Fault);
    };
    Ok(ChangeOf {
        remove,
        modify,
        insert,
    })
}

/// The change that a tree is.
pub fn change_in(alloc: Global, tree: Json) -> Result<ChangeOf, LineError>
    ensures { ReadsAs result (change_in script_expression tree) }
{
    match members_of(&["remove", "modify", "insert"], tree) {
        Some(members) => change_with(alloc, members),
        None => Err(LineError::Fault),
    }
}
