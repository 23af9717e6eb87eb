// Domains of scales.
ghost use Rattle.std.specs.Prelude.{◌≡◌, codes, Some, IfOk};
ghost use Rattle.json_exact.specs.declared.json.Json.{out-Json};
ghost use Rattle.vega_spec.specs.declared.domains.Domain.TheVariants as by_kind;
ghost use Rattle.vega_building.specs.Parts.{needed_expression as expression_under};
ghost use Rattle.vega_building.specs.Domains.{reference_of, domain_order_of, domain_order_in, domain_order_at, field_domain_of};
ghost use Rattle.vega_building.specs.Domains.{needed_references, fields_domain_of, domain_of, domain_in, domain_at, needed_domain};

use crate::names::named_at;
use crate::parts::{Object, list_of, needed_expression, objects_of};
use crate::several::{both, two_parts};
use crate::tables::needed_operation;
use json_exact::{Json, Member};
use std::alloc::Global;
use text_kit::{OutOfMemory, Seq};
use tree_readers::{has_member, items_at, member_value, needed_text};
use vega_spec::{Domain, DomainOrder, FieldDomain, FieldsDomain, Reference};

impl Object for Reference {
    ghost built = { reference_of };

    fn of_members(alloc: Global, members: &[Member]) -> Result<Reference, OutOfMemory> {
        let (data_, field) = two_parts(alloc, members, "data", "field")?;
        Ok(Reference { data_, field })
    }
}

// An order by an operation, where there is one, or by the cells themselves.
fn domain_order_of(alloc: Global, members: &[Member]) -> Result<DomainOrder, OutOfMemory>
    ensures { IfOk result (λ order. order ≡ domain_order_of members.now) }
{
    let order = named_at(members, "order");
    if has_member(members, "op") {
        let op = needed_operation(members, "op");
        Ok(DomainOrder::Operation(order, op, needed_text(alloc, members, "field")?))
    } else {
        Ok(DomainOrder::Cells(order))
    }
}

// How the cells of a domain stand.
fn domain_order_in(alloc: Global, tree: &Json) -> Result<Option<DomainOrder>, OutOfMemory>
    ensures { IfOk result (λ order. order ≡ domain_order_in (out-Json tree.now)) }
{
    match tree {
        Json::Flag(true) => Ok(Some(DomainOrder::True)),
        Json::Object(members) => Ok(Some(domain_order_of(alloc, members.as_slice())?)),
        Json::Null
        | Json::Flag(false)
        | Json::Number(_)
        | Json::Huge
        | Json::Text(_)
        | Json::List(_) => Ok(None),
    }
}

// The same under a name.
fn domain_order_at(
    alloc: Global,
    members: &[Member],
    name: &str,
) -> Result<Option<DomainOrder>, OutOfMemory>
    ensures { IfOk result (λ order. order ≡ domain_order_at members.now name.now) }
{
    match member_value(members, name) {
        Some(tree) => domain_order_in(alloc, tree),
        None => Ok(None),
    }
}

// The cells of a field.
fn field_domain_of(alloc: Global, members: &[Member]) -> Result<Option<Domain>, OutOfMemory>
    ensures { IfOk result (λ domain. domain ≡ Some (by_kind.Field (field_domain_of members.now))) }
{
    let parts = two_parts(alloc, members, "data", "field");
    let ((data_, field), sort) = both(parts, domain_order_at(alloc, members, "sort"))?;
    Ok(Some(Domain::Field(FieldDomain { data_, field, sort })))
}

// The references of a list under a name, none where there is no list.
fn needed_references(
    alloc: Global,
    members: &[Member],
    name: &str,
) -> Result<Seq<Reference>, OutOfMemory>
    ensures { IfOk result (λ references. references ≡ needed_references members.now name.now) }
{
    match items_at(members, name) {
        Some(items) => objects_of(alloc, items.as_slice()),
        None => Ok(Seq::new(alloc)),
    }
}

// The cells of several fields.
fn fields_domain_of(alloc: Global, members: &[Member]) -> Result<Option<Domain>, OutOfMemory>
    ensures { IfOk result (λ domain. domain ≡ Some (by_kind.Fields (fields_domain_of members.now))) }
{
    let fields = needed_references(alloc, members, "fields");
    let (fields, sort) = both(fields, domain_order_at(alloc, members, "sort"))?;
    Ok(Some(Domain::Fields(FieldsDomain { fields, sort })))
}

// The cells that an expression gives.
fn signal_domain_of(alloc: Global, members: &[Member]) -> Result<Option<Domain>, OutOfMemory>
    ensures { IfOk result (λ domain. domain ≡ Some (by_kind.Signal (expression_under members.now (codes "signal")))) }
{
    let e = needed_expression(alloc, members, "signal")?;
    Ok(Some(Domain::Signal(e)))
}

// A domain that is an object: an expression, several fields, or one.
fn domain_of(alloc: Global, members: &[Member]) -> Result<Option<Domain>, OutOfMemory>
    ensures { IfOk result (λ domain. domain ≡ Some (domain_of members.now)) }
{
    if has_member(members, "signal") {
        signal_domain_of(alloc, members)
    } else if has_member(members, "fields") {
        fields_domain_of(alloc, members)
    } else {
        field_domain_of(alloc, members)
    }
}

// A domain.
fn domain_in(alloc: Global, tree: &Json) -> Result<Option<Domain>, OutOfMemory>
    ensures { IfOk result (λ domain. domain ≡ domain_in (out-Json tree.now)) }
{
    match tree {
        Json::List(items) => Ok(Some(Domain::Cells(list_of(alloc, items.as_slice())?))),
        Json::Object(members) => domain_of(alloc, members.as_slice()),
        Json::Null | Json::Flag(_) | Json::Number(_) | Json::Huge | Json::Text(_) => Ok(None),
    }
}

// The same under a name.
fn domain_at(alloc: Global, members: &[Member], name: &str) -> Result<Option<Domain>, OutOfMemory>
    ensures { IfOk result (λ domain. domain ≡ domain_at members.now name.now) }
{
    match member_value(members, name) {
        Some(tree) => domain_in(alloc, tree),
        None => Ok(None),
    }
}

/// The domain under a name, that of no cells where there is none.
pub fn needed_domain(alloc: Global, members: &[Member], name: &str) -> Result<Domain, OutOfMemory>
    ensures { IfOk result (λ domain. domain ≡ needed_domain members.now name.now) }
{
    match domain_at(alloc, members, name)? {
        Some(domain) => Ok(domain),
        None => Ok(Domain::Cells(Seq::new(alloc))),
    }
}
