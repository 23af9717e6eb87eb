// What values, items, objects and members are.
ghost use Rattle.std.specs.Prelude.{◌≡◌, ◌++◌, [], Some, None, map, IfOk, OnOk, if◌then◌else◌};
ghost use Rattle.std.specs.Option.{option_to_list, unwrap_or};
ghost use Rattle.std.specs.List.{filter_map};
ghost use Rattle.json_exact.specs.declared.json.Json.{out-Json};
ghost use Rattle.tree_readers.specs.Parts.{found_at, list_at, object_at, text_of};
ghost use Rattle.expr_syntax.specs.declared.expr.Expr.TheVariants as expr;
ghost use Rattle.vl_building.specs.Expressions.{expression_in, needed_expression};

use crate::several::push_made;
use expr_reading::expression_of;
use expr_syntax::{Expr, has_domain_length};
use json_exact::{Json, Member};
use std::alloc::Global;
use text_kit::{OutOfMemory, Seq, Text};
use tree_readers::{items_at, member_value, members_at, word_at};

/// What objects are.
pub trait Object: Sized {
    ghost use Rattle.std.specs.Prelude.{List};
    ghost use Rattle.json_exact.specs.declared.json.Member.{Member};

    ghost built: { List Member → Self };

    /// What an object of these members is.
    fn of_members(alloc: Global, members: &[Member]) -> Result<Self, OutOfMemory>
        ensures { IfOk result (λ value. value ≡ built members.now) };
}

/// What values may be.
pub trait Value: Sized {
    ghost use Rattle.std.specs.Prelude.{Option};
    ghost use Rattle.tree_readers.specs.Parts.{Opened};

    ghost read: { Opened → Option Self };

    /// What a value is, if it is one of these.
    fn of_value(alloc: Global, tree: &Json) -> Result<Option<Self>, OutOfMemory>
        ensures { IfOk result (λ value. value ≡ read (out-Json tree.now)) };
}

/// What values may be that take no memory.
pub trait Plain: Sized {
    ghost use Rattle.std.specs.Prelude.{Option};
    ghost use Rattle.tree_readers.specs.Parts.{Opened};

    ghost plain: { Opened → Option Self };

    /// What a value is, if it is one of these.
    fn of_plain(tree: &Json) -> Option<Self>
        ensures { result ≡ plain (out-Json tree.now) };
}

/// A reading of values.
pub trait Reads<X, T> {
    ghost reads: { X → T };

    /// What a value is.
    fn read(alloc: Global, value: &X) -> Result<T, OutOfMemory>
        ensures { IfOk result (λ is. is ≡ reads value.now) };
}

/// A reading of those values that say something.
pub trait Picks<X, T> {
    ghost use Rattle.std.specs.Prelude.{Option};

    ghost picks: { X → Option T };

    /// What a value says, if it says something.
    fn pick(alloc: Global, value: &X) -> Result<Option<T>, OutOfMemory>
        ensures { IfOk result (λ said. said ≡ picks value.now) };
}

/// Items by what they are.
pub struct Items;

impl Reads<Json, Text> for Items {
    ghost reads = { text_of };

    fn read(alloc: Global, tree: &Json) -> Result<Text, OutOfMemory> {
        tree_readers::text_of(alloc, tree)
    }
}

/// Objects by their members.
pub struct Objects;

impl<T: Object> Reads<Json, T> for Objects {
    ghost use Rattle.tree_readers.specs.Parts.{members_of};

    ghost reads = { λ tree. T.built (members_of tree) };

    fn read(alloc: Global, tree: &Json) -> Result<T, OutOfMemory> {
        T::of_members(alloc, tree_readers::members_of(tree))
    }
}

/// What each value is in a reading.
pub fn each<X, T: Drop, R: Reads<X, T>>(alloc: Global, values: &[X]) -> Result<Seq<T>, OutOfMemory>
    ensures { IfOk result (λ list. list ≡ map R.reads values.now) }
{
    let mut list = Seq::new(alloc);
    for value in values {
        push_made(&mut list, R::read(alloc, value))?;
    }
    Ok(list)
}

// Adds what a value says.
fn push_picked<X, T: Drop, R: Picks<X, T>>(
    alloc: Global,
    value: &X,
    out: &mut Seq<T>,
) -> Result<(), OutOfMemory>
    ensures { OnOk result (out.new ≡ out.old ++ option_to_list (R.picks value.now)) }
{
    match R::pick(alloc, value)? {
        Some(said) => out.push(said),
        None => Ok(()),
    }
}

/// What values say in a reading, of those that say something.
pub fn picked<X, T: Drop, R: Picks<X, T>>(
    alloc: Global,
    values: &[X],
) -> Result<Seq<T>, OutOfMemory>
    ensures { IfOk result (λ list. list ≡ filter_map R.picks values.now) }
{
    let mut out = Seq::new(alloc);
    for value in values {
        push_picked::<X, T, R>(alloc, value, &mut out)?;
    }
    Ok(out)
}

/// What each item of the list under a name is in a reading.
pub fn each_at<T: Drop, R: Reads<Json, T>>(
    alloc: Global,
    members: &[Member],
    name: &str,
) -> Result<Option<Seq<T>>, OutOfMemory>
    ensures { IfOk result (λ list. list ≡ list_at R.reads members.now name.now) }
{
    match items_at(members, name) {
        Some(items) => Ok(Some(each::<Json, T, R>(alloc, items.as_slice())?)),
        None => Ok(None),
    }
}

/// The same, none where there is no list.
pub fn needed_each<T: Drop, R: Reads<Json, T>>(
    alloc: Global,
    members: &[Member],
    name: &str,
) -> Result<Seq<T>, OutOfMemory>
    ensures { IfOk result (λ list. list ≡ unwrap_or (list_at R.reads members.now name.now) []) }
{
    match items_at(members, name) {
        Some(items) => each::<Json, T, R>(alloc, items.as_slice()),
        None => Ok(Seq::new(alloc)),
    }
}

/// What the value under a name is, if it is one of these.
pub fn found_at<T: Value>(
    alloc: Global,
    members: &[Member],
    name: &str,
) -> Result<Option<T>, OutOfMemory>
    ensures { IfOk result (λ value. value ≡ found_at T.read members.now name.now) }
{
    match member_value(members, name) {
        Some(tree) => T::of_value(alloc, tree),
        None => Ok(None),
    }
}

/// The same of what takes no memory.
pub fn plain_at<T: Plain>(members: &[Member], name: &str) -> Option<T>
    ensures { result ≡ found_at T.plain members.now name.now }
{
    T::of_plain(member_value(members, name)?)
}

/// What the object under a name is.
pub fn object_at<T: Object>(
    alloc: Global,
    members: &[Member],
    name: &str,
) -> Result<Option<T>, OutOfMemory>
    ensures { IfOk result (λ value. value ≡ object_at T.built members.now name.now) }
{
    match members_at(members, name) {
        Some(members) => Ok(Some(T::of_members(alloc, members.as_slice())?)),
        None => Ok(None),
    }
}

// A value, unless it is to go.
fn unless<T: Drop>(goes: bool, value: T) -> Option<T>
    ensures { result ≡ (if goes then None else Some value) }
{
    if goes { None } else { Some(value) }
}

/// The expression that a text is, null where it is none or the length of a domain stands in it.
pub fn expression_or_null(alloc: Global, text: &str) -> Result<Expr, OutOfMemory>
    ensures { IfOk result (λ e. e ≡ unwrap_or (expression_in text.now) expr.Null) }
{
    match expression_of(alloc, text)? {
        Some(e) => {
            let goes = has_domain_length(&e);
            Ok(unless(goes, e).unwrap_or(Expr::Null))
        }
        None => Ok(Expr::Null),
    }
}

/// The expression under a name, null where there is none.
pub fn needed_expression(alloc: Global, members: &[Member], name: &str) -> Result<Expr, OutOfMemory>
    ensures { IfOk result (λ e. e ≡ needed_expression members.now name.now) }
{
    match word_at(members, name) {
        Some(text) => expression_or_null(alloc, text.as_str()),
        None => Ok(Expr::Null),
    }
}
