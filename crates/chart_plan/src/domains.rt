// The domains of scales.
ghost use Rattle.std.specs.Prelude.{◌≡◌, Some, map, option_copied, option_map, IfOk};
ghost use Rattle.std.specs.Option.{option_and_then};
ghost use Rattle.vl_compose.specs.Shown.{unit_shown};
ghost use Rattle.guide_infer.specs.First.{first_given};
ghost use Rattle.chart_plan.specs.Domains.{domain_said, first_named, first_kept, kept_first, member, ends_kept, channel_meant, ends_of, raw_by, raw_of};
ghost use Rattle.chart_plan.specs.Domains.{named_kind, listed, order_for, of_rows, shared_domain, alone_domain};

use crate::columns::columns_of;
use crate::orders::order_of;
use cell_value::Cell;
use expr_syntax::Expr;
use guide_infer::is_continuous;
use plan_kit::{CellOrder, Column, DomainPlan, RowCells};
use std::alloc::Global;
use text_kit::{Copies, OutOfMemory, Seq, Text};
use vl_compose::UnitHere;
use vl_normalize::{X, Y};
use vl_spec::{Domain, ParamDomain, ParamKind, ParamOf, Scale, Select};

// The first domain that is given.
fn domain_said<'s>(said: &[&'s Scale]) -> Option<&'s Domain>
    ensures { option_copied result ≡ domain_said (map (λ s. s.now) said.now) }
{
    for one in said {
        match &one.domain {
            Some(given) => return Some(given),
            None => {}
        }
    }
    None
}

// The first of some codes.
fn first_code(codes: &[u16]) -> Option<u16>
    ensures { result ≡ first_given (λ code. Some code) codes.now }
{
    match codes {
        [first, ..] => Some(*first),
        [] => None,
    }
}

// The first channel that a selection names, if it names one.
fn first_named(select: &Select) -> Option<u16>
    ensures { result ≡ first_named select.now }
{
    match select {
        Select::Type(_) => None,
        Select::Definition(of) => match &of.encodings {
            Some(codes) => first_code(codes.as_slice()),
            None => None,
        },
    }
}

// The same of a parameter that may be none.
fn first_kept(kind: &ParamKind) -> Option<u16>
    ensures { result ≡ first_kept kind.now }
{
    match kind {
        ParamKind::Value(_) => None,
        ParamKind::Expr(_) => None,
        ParamKind::Select(of) => first_named(&of.select),
    }
}

// What the parameter of a name is.
fn named_kind<'s>(params: &'s [ParamOf], name: &str) -> Option<&'s ParamKind>
    ensures { option_copied result ≡ named_kind params.now name.now }
{
    for param in params {
        if param.name.as_str() == name {
            return Some(&param.kind);
        }
    }
    None
}

// The first channel that the parameter of a name keeps.
fn kept_first(params: &[ParamOf], name: &str) -> u16
    ensures { result ≡ kept_first params.now name.now }
{
    match named_kind(params, name) {
        Some(kind) => match first_kept(kind) {
            Some(code) => code,
            None => X,
        },
        None => X,
    }
}

// A member of a parameter.
fn member(alloc: Global, name: &Text, channel: &str) -> Result<Expr, OutOfMemory>
    ensures { IfOk result (λ e. e ≡ member name.now channel.now) }
{
    let channel = Text::of(alloc, channel)?;
    Ok(Expr::Member(name.copy()?, channel))
}

// The ends of a channel that a parameter keeps.
fn ends_kept(alloc: Global, name: &Text, channel: u16) -> Result<Option<Expr>, OutOfMemory>
    ensures { IfOk result (λ e. e ≡ ends_kept name.now channel) }
{
    if channel == X {
        member(alloc, name, "x").map(Some)
    } else if channel == Y {
        member(alloc, name, "y").map(Some)
    } else {
        Ok(None)
    }
}

// The channel that a domain means.
fn channel_meant(params: &[ParamOf], of: &ParamDomain) -> u16
    ensures { result ≡ channel_meant params.now of.now }
{
    match of.encoding {
        Some(code) => code,
        None => kept_first(params, of.param.as_str()),
    }
}

// The ends that a domain means.
fn ends_of(alloc: Global, params: &[ParamOf], of: &ParamDomain) -> Result<Option<Expr>, OutOfMemory>
    ensures { IfOk result (λ e. e ≡ ends_of params.now of.now) }
{
    ends_kept(alloc, &of.param, channel_meant(params, of))
}

// A domain by a parameter.
fn raw_by(alloc: Global, params: &[ParamOf], domain: &Domain) -> Result<Option<Expr>, OutOfMemory>
    ensures { IfOk result (λ e. e ≡ raw_by params.now domain.now) }
{
    match domain {
        Domain::Cells(_) => Ok(None),
        Domain::Param(of) => ends_of(alloc, params, of),
    }
}

// The same of a domain that may be absent.
fn raw_said(alloc: Global, params: &[ParamOf], said: &[&Scale]) -> Result<Option<Expr>, OutOfMemory>
    ensures { IfOk result (λ e. e ≡ option_and_then (raw_by params.now) (domain_said (map (λ s. s.now) said.now))) }
{
    match domain_said(said) {
        Some(domain) => raw_by(alloc, params, domain),
        None => Ok(None),
    }
}

/// The expression that gives a continuous scale its domain where it gives a pair.
pub(crate) fn raw_of(
    alloc: Global,
    params: &[ParamOf],
    kind: u16,
    said: &[&Scale],
) -> Result<Option<Expr>, OutOfMemory>
    ensures { IfOk result (λ e. e ≡ raw_of params.now kind (map (λ s. s.now) said.now)) }
{
    if is_continuous(kind) {
        raw_said(alloc, params, said)
    } else {
        Ok(None)
    }
}

// The order of the cells of a scale.
fn order_for(
    alloc: Global,
    channel: u16,
    kind: u16,
    units: &[UnitHere],
    sharing: &[u32],
) -> Result<CellOrder, OutOfMemory>
    ensures { IfOk result (λ order. order ≡ order_for channel kind (map unit_shown units.now) sharing.now) }
{
    if is_continuous(kind) {
        Ok(CellOrder::Up)
    } else {
        order_of(alloc, channel, units, sharing)
    }
}

// Cells of rows as the domain of a scale.
fn of_rows(
    alloc: Global,
    channel: u16,
    kind: u16,
    units: &[UnitHere],
    sharing: &[u32],
) -> Result<DomainPlan, OutOfMemory>
    ensures { IfOk result (λ domain. domain ≡ of_rows channel kind (map unit_shown units.now) sharing.now) }
{
    let columns = columns_of(alloc, channel, kind, units, sharing)?;
    let order = order_for(alloc, channel, kind, units, sharing)?;
    Ok(DomainPlan::Columns(RowCells { columns, order }))
}

// The list that a domain gives, lent.
fn listed(domain: &Domain) -> Option<&Seq<Cell>>
    ensures { option_map (λ cells. cells.now) result ≡ listed domain.now }
{
    match domain {
        Domain::Cells(cells) => Some(cells),
        Domain::Param(_) => None,
    }
}

// The same of a domain that may be absent.
fn list_said<'s>(said: &[&'s Scale]) -> Option<&'s Seq<Cell>>
    ensures { option_map (λ cells. cells.now) result ≡ option_and_then listed (domain_said (map (λ s. s.now) said.now)) }
{
    match domain_said(said) {
        Some(domain) => listed(domain),
        None => None,
    }
}

/// The domain of a scale that units share, by what their definitions say of scales.
pub(crate) fn shared_domain(
    alloc: Global,
    channel: u16,
    kind: u16,
    units: &[UnitHere],
    sharing: &[u32],
    said: &[&Scale],
) -> Result<DomainPlan, OutOfMemory>
    ensures { IfOk result (λ domain. domain ≡ shared_domain channel kind (map unit_shown units.now) sharing.now (map (λ s. s.now) said.now)) }
{
    match list_said(said) {
        Some(cells) => Copies::copied(cells, alloc).map(DomainPlan::Cells),
        None => of_rows(alloc, channel, kind, units, sharing),
    }
}

/// The domain of the scale of a unit alone: one null.
pub(crate) fn alone_domain(alloc: Global) -> Result<DomainPlan, OutOfMemory>
    ensures { IfOk result (λ domain. domain ≡ alone_domain) }
{
    let mut cells = Seq::new(alloc);
    cells.push(Cell::Null)?;
    Ok(DomainPlan::Cells(cells))
}
