// The orders that specifications ask for.
ghost use Rattle.std.specs.Prelude.{◌≡◌, IfOk, map};
ghost use Rattle.std.specs.List.{enumerate_from};
ghost use Rattle.vega_lists.specs.Orders.{texts_in, is_descending, order_at, sort_by, sort_settings, sort_or_empty};

use plain_rows::SortBy;
use std::alloc::Global;
use text_kit::{OutOfMemory, Seq, Text};
use vega_spec::{Order, Orders, Sort, Texts};

/// One text or several, as a list.
pub fn texts_in(texts: &Texts) -> &[Text]
    ensures { result.now ≡ texts_in texts.now }
{
    match texts {
        Texts::One(text) => std::slice::from_ref(text),
        Texts::Several(several) => several.as_slice(),
    }
}

// The direction of the field at a place; ascending without one.
fn order_at(orders: &Option<Orders>, place: usize) -> Order
    ensures { result ≡ order_at orders.now place }
{
    match orders {
        None => Order::Ascending,
        Some(Orders::One(order)) => *order,
        Some(Orders::Several(several)) => match several.get(place) {
            Some(order) => *order,
            None => Order::Ascending,
        },
    }
}

// Whether the greatest cell stands first.
fn is_descending(order: Order) -> bool
    ensures { result ≡ is_descending order }
{
    match order {
        Order::Ascending => false,
        Order::Descending => true,
    }
}

// The field at a place of an order, with its direction.
fn sort_by(field: &Text, orders: &Option<Orders>, place: usize) -> Result<SortBy, OutOfMemory>
    ensures { IfOk result (λ by. by ≡ sort_by orders.now (place, field.now)) }
{
    Ok(SortBy {
        field: field.copy()?,
        descending: is_descending(order_at(orders, place)),
    })
}

// Fields, each with its direction.
fn sort_of(
    alloc: Global,
    fields: &[Text],
    orders: &Option<Orders>,
) -> Result<Seq<SortBy>, OutOfMemory>
    ensures { IfOk result (λ sort. sort ≡ map (sort_by orders.now) (enumerate_from 0 fields.now)) }
{
    let mut sort = Seq::with_capacity(alloc, fields.len())?;
    for (place, field) in fields.iter().enumerate() {
        sort.push(sort_by(field, orders, place)?)?;
    }
    Ok(sort)
}

/// The fields of an order, each with its direction: ascending where it gives none.
pub fn sort_settings(alloc: Global, s: &Sort) -> Result<Seq<SortBy>, OutOfMemory>
    ensures { IfOk result (λ sort. sort ≡ sort_settings s.now) }
{
    sort_of(alloc, texts_in(&s.field), &s.order)
}

/// The fields of an order, each with its direction; none without an order.
pub(crate) fn sort_or_empty(alloc: Global, sort: &Option<Sort>) -> Result<Seq<SortBy>, OutOfMemory>
    ensures { IfOk result (λ settings. settings ≡ sort_or_empty sort.now) }
{
    match sort {
        Some(sort) => sort_settings(alloc, sort),
        None => Ok(Seq::new(alloc)),
    }
}
