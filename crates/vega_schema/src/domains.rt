//! The members of objects: domains.
ghost use Rattle.std.specs.Prelude.{◌≡◌, ◌++◌, IfOk, OnOk};
ghost use Rattle.vega_schema.specs.Domains.{domain_of_signal, domain_of_field, domain_of_fields, reference, sort_by_operation};
ghost use Rattle.vega_schema.specs.Domains.{sort_by_cells, all_domains};

use crate::codes::{
    DOMAIN, DOMAIN_ORDER, DOMAIN_SORT, EXPRESSION, OPERATION, ORDER, REFERENCE, REFERENCES, TEXT,
};
use spec_schema::{Layout, When, layout_by, table};
use std::alloc::Global;
use text_kit::{OutOfMemory, Seq};

// The domain that an expression gives.
#[tactic(auto, unfolding(crate::specs::Domains::domain_of_signal))]
fn domain_of_signal(alloc: Global) -> Result<Layout, OutOfMemory>
    ensures { IfOk result (λ l. l ≡ domain_of_signal) }
{
    layout_by(
        alloc,
        DOMAIN,
        &[When::Has("signal")],
        &table![
        may "signal" EXPRESSION,
    ],
        None,
    )
}

// The domain that a field of a data set gives.
#[tactic(auto, unfolding(crate::specs::Domains::domain_of_field))]
fn domain_of_field(alloc: Global) -> Result<Layout, OutOfMemory>
    ensures { IfOk result (λ l. l ≡ domain_of_field) }
{
    layout_by(
        alloc,
        DOMAIN,
        &[When::Has("data"), When::Has("field")],
        &table![
        may "data" TEXT, may "field" TEXT, may "sort" DOMAIN_ORDER,
    ],
        None,
    )
}

// The domain that several fields give.
#[tactic(auto, unfolding(crate::specs::Domains::domain_of_fields))]
fn domain_of_fields(alloc: Global) -> Result<Layout, OutOfMemory>
    ensures { IfOk result (λ l. l ≡ domain_of_fields) }
{
    layout_by(
        alloc,
        DOMAIN,
        &[When::Has("fields")],
        &table![
        may "fields" REFERENCES, may "sort" DOMAIN_ORDER,
    ],
        None,
    )
}

// A reference to a field of a data set.
#[tactic(auto, unfolding(crate::specs::Domains::reference))]
fn reference(alloc: Global) -> Result<Layout, OutOfMemory>
    ensures { IfOk result (λ l. l ≡ reference) }
{
    layout_by(
        alloc,
        REFERENCE,
        &[When::Has("data"), When::Has("field")],
        &table![
        may "data" TEXT, may "field" TEXT,
    ],
        None,
    )
}

// The order of a domain by an aggregate.
#[tactic(auto, unfolding(crate::specs::Domains::sort_by_operation))]
fn sort_by_operation(alloc: Global) -> Result<Layout, OutOfMemory>
    ensures { IfOk result (λ l. l ≡ sort_by_operation) }
{
    layout_by(
        alloc,
        DOMAIN_SORT,
        &[When::Has("op"), When::Has("field")],
        &table![
        may "order" ORDER, may "op" OPERATION, may "field" TEXT,
    ],
        None,
    )
}

// The order of a domain by its cells.
#[tactic(auto, unfolding(crate::specs::Domains::sort_by_cells))]
fn sort_by_cells(alloc: Global) -> Result<Layout, OutOfMemory>
    ensures { IfOk result (λ l. l ≡ sort_by_cells) }
{
    layout_by(
        alloc,
        DOMAIN_SORT,
        &[When::Lacks("op"), When::Lacks("field")],
        &table![
        may "order" ORDER,
    ],
        None,
    )
}

/// Adds these layouts.
pub fn push_domains(alloc: Global, out: &mut Seq<Layout>) -> Result<(), OutOfMemory>
    ensures { OnOk result (out.new ≡ out.old ++ all_domains) }
{
    out.push(domain_of_signal(alloc)?)?;
    out.push(domain_of_field(alloc)?)?;
    out.push(domain_of_fields(alloc)?)?;
    out.push(reference(alloc)?)?;
    out.push(sort_by_operation(alloc)?)?;
    out.push(sort_by_cells(alloc)?)
}
