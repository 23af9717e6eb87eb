// What stands under the names of members.
ghost use Rattle.std.specs.Prelude.{◌≡◌, map, IfOk};
ghost use Rattle.tree_readers.specs.Parts.{list_at, object_at, members_of, text_of, needed_texts};
ghost use Rattle.vega_building.specs.Parts.{cell_of, expression_at, needed_expression, signal_at};

use crate::several::push_made;
use cell_value::Cell;
use expr_reading::expression_of;
use expr_syntax::Expr;
use json_exact::{Json, Member};
use std::alloc::Global;
use text_kit::{OutOfMemory, Seq, Text};
use tree_readers::{cell_in, items_at, members_at, word_at};

/// What items of lists are.
pub trait Item: Sized {
    ghost use Rattle.json_exact.specs.declared.json.Json.{Json};

    ghost item: { Json → Self };

    /// What an item is.
    fn of_item(alloc: Global, tree: &Json) -> Result<Self, OutOfMemory>
        ensures { IfOk result (λ value. value ≡ item tree.now) };
}

/// What objects are.
pub trait Object: Sized {
    ghost use Rattle.std.specs.Prelude.{List};
    ghost use Rattle.json_exact.specs.declared.json.Member.{Member};

    ghost built: { List Member → Self };

    /// What an object of these members is.
    fn of_members(alloc: Global, members: &[Member]) -> Result<Self, OutOfMemory>
        ensures { IfOk result (λ value. value ≡ built members.now) };
}

/// What each item is.
pub fn list_of<T: Item + Drop>(alloc: Global, items: &[Json]) -> Result<Seq<T>, OutOfMemory>
    ensures { IfOk result (λ list. list ≡ map T.item items.now) }
{
    let mut list = Seq::new(alloc);
    for tree in items {
        push_made(&mut list, T::of_item(alloc, tree))?;
    }
    Ok(list)
}

/// What each object is.
pub fn objects_of<T: Object + Drop>(alloc: Global, items: &[Json]) -> Result<Seq<T>, OutOfMemory>
    ensures { IfOk result (λ list. list ≡ map (λ tree. T.built (members_of tree)) items.now) }
{
    let mut list = Seq::new(alloc);
    for tree in items {
        push_made(
            &mut list,
            T::of_members(alloc, tree_readers::members_of(tree)),
        )?;
    }
    Ok(list)
}

/// What each item of the list under a name is.
pub fn list_at<T: Item + Drop>(
    alloc: Global,
    members: &[Member],
    name: &str,
) -> Result<Option<Seq<T>>, OutOfMemory>
    ensures { IfOk result (λ list. list ≡ list_at T.item members.now name.now) }
{
    match items_at(members, name) {
        Some(items) => Ok(Some(list_of(alloc, items.as_slice())?)),
        None => Ok(None),
    }
}

/// What the object under a name is.
pub fn object_at<T: Object>(
    alloc: Global,
    members: &[Member],
    name: &str,
) -> Result<Option<T>, OutOfMemory>
    ensures { IfOk result (λ value. value ≡ object_at T.built members.now name.now) }
{
    match members_at(members, name) {
        Some(members) => Ok(Some(T::of_members(alloc, members.as_slice())?)),
        None => Ok(None),
    }
}

impl Item for Text {
    ghost item = { text_of };

    fn of_item(alloc: Global, tree: &Json) -> Result<Text, OutOfMemory> {
        tree_readers::text_of(alloc, tree)
    }
}

/// The texts of the list under a name, none where there is no list.
pub fn needed_texts(alloc: Global, members: &[Member], name: &str) -> Result<Seq<Text>, OutOfMemory>
    ensures { IfOk result (λ texts. texts ≡ needed_texts members.now name.now) }
{
    match items_at(members, name) {
        Some(items) => list_of(alloc, items.as_slice()),
        None => Ok(Seq::new(alloc)),
    }
}

/// The expression under a name.
pub fn expression_at(
    alloc: Global,
    members: &[Member],
    name: &str,
) -> Result<Option<Expr>, OutOfMemory>
    ensures { IfOk result (λ e. e ≡ expression_at members.now name.now) }
{
    match word_at(members, name) {
        Some(text) => expression_of(alloc, text.as_str()),
        None => Ok(None),
    }
}

/// The expression under a name, null where there is none.
pub fn needed_expression(alloc: Global, members: &[Member], name: &str) -> Result<Expr, OutOfMemory>
    ensures { IfOk result (λ e. e ≡ needed_expression members.now name.now) }
{
    match expression_at(alloc, members, name)? {
        Some(e) => Ok(e),
        None => Ok(Expr::Null),
    }
}

/// The expression of an object `{"signal": EXPRESSION}` under a name.
pub fn signal_at(alloc: Global, members: &[Member], name: &str) -> Result<Option<Expr>, OutOfMemory>
    ensures { IfOk result (λ e. e ≡ signal_at members.now name.now) }
{
    match members_at(members, name) {
        Some(object) => expression_at(alloc, object.as_slice(), "signal"),
        None => Ok(None),
    }
}

impl Item for Cell {
    ghost item = { cell_of };

    fn of_item(_: Global, tree: &Json) -> Result<Cell, OutOfMemory> {
        match cell_in(tree)? {
            Some(cell) => Ok(cell),
            None => Ok(Cell::Null),
        }
    }
}
