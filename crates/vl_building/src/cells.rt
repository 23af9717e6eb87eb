// Values of several forms.
ghost use Rattle.std.specs.Prelude.{◌≡◌, IfOk};
ghost use Rattle.vl_building.specs.Values.{scalar_in, scalar_of, needed_scalar, title_at, nullable_at, texts_in, both_names, names_in};
ghost use Rattle.vl_building.specs.Values.{needed_names};

use crate::parts;
use crate::parts::{Items, Object, Reads, Value, each};
use crate::several::{Part, both};
use cell_value::Cell;
use json_exact::{Json, Member};
use std::alloc::Global;
use text_kit::{OutOfMemory, Text};
use tree_readers::{member_value, text_of};
use vl_spec::{Names, Texts};

// Scalars, null where an item is none.
impl Reads<Json, Cell> for Items {
    ghost reads = { scalar_of };

    fn read(_: Global, tree: &Json) -> Result<Cell, OutOfMemory> {
        match tree {
            Json::Flag(flag) => Ok(Cell::Flag(*flag)),
            Json::Number(number) => Ok(Cell::Number(*number)),
            Json::Text(text) => Ok(Cell::Text(text.copy()?)),
            Json::Null | Json::Huge | Json::List(_) | Json::Object(_) => Ok(Cell::Null),
        }
    }
}

// A scalar.
impl Value for Cell {
    ghost read = { scalar_in };

    fn of_value(alloc: Global, tree: &Json) -> Result<Option<Cell>, OutOfMemory> {
        match tree {
            Json::Null | Json::Flag(_) | Json::Number(_) | Json::Text(_) => Items::read(
                alloc, tree,
            ).map(Some),
            Json::Huge | Json::List(_) | Json::Object(_) => Ok(None),
        }
    }
}

/// The scalar under a name, null where there is none.
pub fn needed_scalar(alloc: Global, members: &[Member], name: &str) -> Result<Cell, OutOfMemory>
    ensures { IfOk result (λ cell. cell ≡ needed_scalar members.now name.now) }
{
    match member_value(members, name) {
        Some(tree) => Items::read(alloc, tree),
        None => Ok(Cell::Null),
    }
}

// A title: null for none, or a text.
impl Part for Option<Option<Text>> {
    ghost part = { title_at };

    fn part_at(
        _: Global,
        members: &[Member],
        name: &str,
    ) -> Result<Option<Option<Text>>, OutOfMemory> {
        match member_value(members, name) {
            Some(Json::Null) => Ok(Some(None)),
            Some(Json::Text(text)) => Ok(Some(Some(text.copy()?))),
            Some(Json::Flag(_) | Json::Number(_) | Json::Huge | Json::List(_) | Json::Object(_))
            | None => Ok(None),
        }
    }
}

// Null, or what an object is by its members.
impl<T: Object> Part for Option<Option<T>> {
    ghost part = { nullable_at T.built };

    fn part_at(
        alloc: Global,
        members: &[Member],
        name: &str,
    ) -> Result<Option<Option<T>>, OutOfMemory> {
        match member_value(members, name) {
            Some(Json::Null) => Ok(Some(None)),
            Some(Json::Object(members)) => Ok(Some(Some(T::of_members(
                alloc,
                members.as_slice(),
            )?))),
            Some(Json::Flag(_) | Json::Number(_) | Json::Huge | Json::Text(_) | Json::List(_))
            | None => Ok(None),
        }
    }
}

// One text, or a list of them.
impl Value for Texts {
    ghost read = { texts_in };

    fn of_value(alloc: Global, tree: &Json) -> Result<Option<Texts>, OutOfMemory> {
        match tree {
            Json::Text(text) => Ok(Some(Texts::One(text.copy()?))),
            Json::List(items) => Ok(Some(Texts::Several(each::<Json, Text, Items>(
                alloc,
                items.as_slice(),
            )?))),
            Json::Null | Json::Flag(_) | Json::Number(_) | Json::Huge | Json::Object(_) => Ok(None),
        }
    }
}

// The two names of a list.
fn both_names(alloc: Global, items: &[Json]) -> Result<Option<Names>, OutOfMemory>
    ensures { IfOk result (λ names. names ≡ both_names items.now) }
{
    match items {
        [a, b] => {
            let (first, second) = both(text_of(alloc, a), text_of(alloc, b))?;
            Ok(Some(Names::Two(first, second)))
        }
        _ => Ok(None),
    }
}

// One name, or two.
impl Value for Names {
    ghost read = { names_in };

    fn of_value(alloc: Global, tree: &Json) -> Result<Option<Names>, OutOfMemory> {
        match tree {
            Json::Text(text) => Ok(Some(Names::One(text.copy()?))),
            Json::List(items) => both_names(alloc, items.as_slice()),
            Json::Null | Json::Flag(_) | Json::Number(_) | Json::Huge | Json::Object(_) => Ok(None),
        }
    }
}

/// One name, or two, under a name; the empty name where there is none.
pub fn needed_names(alloc: Global, members: &[Member], name: &str) -> Result<Names, OutOfMemory>
    ensures { IfOk result (λ names. names ≡ needed_names members.now name.now) }
{
    match parts::found_at(alloc, members, name)? {
        Some(names) => Ok(names),
        None => Ok(Names::One(Text::new(alloc))),
    }
}
