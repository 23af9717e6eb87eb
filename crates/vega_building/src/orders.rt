// Orders, and what may be one text or a list.
ghost use Rattle.std.specs.Prelude.{◌≡◌, IfOk};
ghost use Rattle.json_exact.specs.declared.json.Json.{out-Json};
ghost use Rattle.vega_building.specs.Orders.{one_order, texts_in, needed_one_or_several, orders_in, sort_of, texts_at, orders_at};

use crate::names::ByName;
use crate::parts::{Object, list_of};
use crate::several::both;
use json_exact::{Json, Member};
use std::alloc::Global;
use text_kit::{OutOfMemory, Text};
use tree_readers::member_value;
use vega_spec::{Order, Orders, Sort, Texts};

// One text, or a list of them.
fn texts_in(alloc: Global, tree: &Json) -> Result<Option<Texts>, OutOfMemory>
    ensures { IfOk result (λ texts. texts ≡ texts_in (out-Json tree.now)) }
{
    match tree {
        Json::Text(text) => Ok(Some(Texts::One(text.copy()?))),
        Json::List(items) => Ok(Some(Texts::Several(list_of(alloc, items.as_slice())?))),
        Json::Null | Json::Flag(_) | Json::Number(_) | Json::Huge | Json::Object(_) => Ok(None),
    }
}

// One text, or a list of them, under a name.
fn texts_at(alloc: Global, members: &[Member], name: &str) -> Result<Option<Texts>, OutOfMemory>
    ensures { IfOk result (λ texts. texts ≡ texts_at members.now name.now) }
{
    match member_value(members, name) {
        Some(tree) => texts_in(alloc, tree),
        None => Ok(None),
    }
}

/// One text, or a list of them, under a name; the empty text where there is none.
pub fn needed_one_or_several(
    alloc: Global,
    members: &[Member],
    name: &str,
) -> Result<Texts, OutOfMemory>
    ensures { IfOk result (λ texts. texts ≡ needed_one_or_several members.now name.now) }
{
    match texts_at(alloc, members, name)? {
        Some(texts) => Ok(texts),
        None => Ok(Texts::One(Text::new(alloc))),
    }
}

// One direction.
fn one_order(name: &str) -> Option<Orders>
    ensures { result ≡ one_order name.now }
{
    Some(Orders::One(Order::by_name(name)?))
}

// One direction, or a list of them.
fn orders_in(alloc: Global, tree: &Json) -> Result<Option<Orders>, OutOfMemory>
    ensures { IfOk result (λ orders. orders ≡ orders_in (out-Json tree.now)) }
{
    match tree {
        Json::Text(text) => Ok(one_order(text.as_str())),
        Json::List(items) => Ok(Some(Orders::Several(list_of(alloc, items.as_slice())?))),
        Json::Null | Json::Flag(_) | Json::Number(_) | Json::Huge | Json::Object(_) => Ok(None),
    }
}

// One direction, or a list of them, under a name.
fn orders_at(alloc: Global, members: &[Member], name: &str) -> Result<Option<Orders>, OutOfMemory>
    ensures { IfOk result (λ orders. orders ≡ orders_at members.now name.now) }
{
    match member_value(members, name) {
        Some(tree) => orders_in(alloc, tree),
        None => Ok(None),
    }
}

impl Object for Sort {
    ghost built = { sort_of };

    fn of_members(alloc: Global, members: &[Member]) -> Result<Sort, OutOfMemory> {
        let field = needed_one_or_several(alloc, members, "field");
        let (field, order) = both(field, orders_at(alloc, members, "order"))?;
        Ok(Sort { field, order })
    }
}
