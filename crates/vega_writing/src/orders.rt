// The trees of orders, and of what may be one text or a list.
ghost use Rattle.vega_writing.specs.Orders.{order_tree, orders_tree, sort_tree, texts_tree};

use crate::slots::{no_slots, object, with, with_if};
use crate::trees::{Written, word};
use json_exact::Json;
use std::alloc::Global;
use text_kit::OutOfMemory;
use vega_spec::{Order, Orders, Sort, Texts};

impl Written for Order {
    ghost tree = { order_tree };

    #[tactic(auto, unfolding(crate::specs::Orders::order_tree))]
    fn tree(&self, alloc: Global) -> Result<Json, OutOfMemory> {
        match self {
            Order::Ascending => word(alloc, "ascending"),
            Order::Descending => word(alloc, "descending"),
        }
    }
}

impl Written for Sort {
    ghost tree = { sort_tree };

    #[tactic(auto, unfolding(crate::specs::Orders::sort_slots))]
    fn tree(&self, alloc: Global) -> Result<Json, OutOfMemory> {
        let slots = no_slots(alloc);
        let slots = with(alloc, slots, "field", &self.field);
        let slots = with_if(alloc, slots, "order", &self.order);
        object(alloc, slots)
    }
}

impl Written for Texts {
    ghost tree = { texts_tree };

    #[tactic(auto, unfolding(crate::specs::Orders::texts_tree))]
    fn tree(&self, alloc: Global) -> Result<Json, OutOfMemory> {
        match self {
            Texts::One(text) => text.tree(alloc),
            Texts::Several(several) => several.tree(alloc),
        }
    }
}

impl Written for Orders {
    ghost tree = { orders_tree };

    #[tactic(auto, unfolding(crate::specs::Orders::orders_tree))]
    fn tree(&self, alloc: Global) -> Result<Json, OutOfMemory> {
        match self {
            Orders::One(order) => order.tree(alloc),
            Orders::Several(several) => several.tree(alloc),
        }
    }
}
