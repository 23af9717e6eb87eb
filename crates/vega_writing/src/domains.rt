// The trees of domains of scales.
ghost use Rattle.std.specs.Prelude.{◌≡◌, IfOk};
ghost use Rattle.vega_writing.specs.Domains.{domain_order_tree, domain_tree};
ghost use Rattle.vega_writing.specs.Domains.{field_domain_tree, fields_domain_tree, reference_tree};
ghost use Rattle.vega_spec.specs.declared.domains.DomainOrder.TheVariants as order_of;

use crate::names::operation_tree;
use crate::slots::{no_slots, object, with, with_if, with_tree};
use crate::trees::{Written, computed_tree};
use json_exact::Json;
use std::alloc::Global;
use text_kit::{OutOfMemory, Text};
use vega_spec::{Domain, DomainOrder, FieldDomain, FieldsDomain, Order, Reference};

impl Written for FieldDomain {
    ghost tree = { field_domain_tree };

    #[tactic(auto, unfolding(crate::specs::Domains::field_domain_slots))]
    fn tree(&self, alloc: Global) -> Result<Json, OutOfMemory> {
        let slots = no_slots(alloc);
        let slots = with(alloc, slots, "data", &self.data_);
        let slots = with(alloc, slots, "field", &self.field);
        let slots = with_if(alloc, slots, "sort", &self.sort);
        object(alloc, slots)
    }
}

impl Written for FieldsDomain {
    ghost tree = { fields_domain_tree };

    #[tactic(auto, unfolding(crate::specs::Domains::fields_domain_slots))]
    fn tree(&self, alloc: Global) -> Result<Json, OutOfMemory> {
        let slots = no_slots(alloc);
        let slots = with(alloc, slots, "fields", &self.fields);
        let slots = with_if(alloc, slots, "sort", &self.sort);
        object(alloc, slots)
    }
}

impl Written for Reference {
    ghost tree = { reference_tree };

    #[tactic(auto, unfolding(crate::specs::Domains::reference_slots))]
    fn tree(&self, alloc: Global) -> Result<Json, OutOfMemory> {
        let slots = no_slots(alloc);
        let slots = with(alloc, slots, "data", &self.data_);
        let slots = with(alloc, slots, "field", &self.field);
        object(alloc, slots)
    }
}

impl Written for DomainOrder {
    ghost tree = { domain_order_tree };

    #[tactic(auto, unfolding(crate::specs::Domains::domain_order_tree))]
    fn tree(&self, alloc: Global) -> Result<Json, OutOfMemory> {
        match self {
            DomainOrder::True => Ok(Json::Flag(true)),
            DomainOrder::Cells(order) => order_by_cells(alloc, order),
            DomainOrder::Operation(order, op, field) => order_by_operation(
                alloc, order, *op, field,
            ),
        }
    }
}

// The order by the cells themselves.
#[tactic(auto, unfolding(crate::specs::Domains::domain_order_tree))]
fn order_by_cells(alloc: Global, order: &Option<Order>) -> Result<Json, OutOfMemory>
    ensures { IfOk result (λ tree. tree ≡ domain_order_tree (order_of.Cells order.now)) }
{
    let slots = no_slots(alloc);
    let slots = with_if(alloc, slots, "order", order);
    object(alloc, slots)
}

// The order by an operation over a field.
#[tactic(auto, unfolding(crate::specs::Domains::domain_order_tree))]
fn order_by_operation(
    alloc: Global,
    order: &Option<Order>,
    op: u16,
    field: &Text,
) -> Result<Json, OutOfMemory>
    ensures { IfOk result (λ tree. tree ≡ domain_order_tree (order_of.Operation order.now op field.now)) }
{
    let slots = no_slots(alloc);
    let slots = with_if(alloc, slots, "order", order);
    let slots = with_tree(alloc, slots, "op", operation_tree(alloc, op));
    let slots = with(alloc, slots, "field", field);
    object(alloc, slots)
}

impl Written for Domain {
    ghost tree = { domain_tree };

    #[tactic(auto, unfolding(crate::specs::Domains::domain_tree))]
    fn tree(&self, alloc: Global) -> Result<Json, OutOfMemory> {
        match self {
            Domain::Cells(cells) => cells.tree(alloc),
            Domain::Signal(e) => computed_tree(alloc, e),
            Domain::Field(field) => field.tree(alloc),
            Domain::Fields(fields) => fields.tree(alloc),
        }
    }
}
