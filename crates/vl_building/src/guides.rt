// Scales, axes, legends and headers.
ghost use Rattle.std.specs.Prelude.{◌≡◌, Some, pos, IfOk};
ghost use Rattle.vl_spec.specs.declared.scales.Domain.TheVariants as domain;
ghost use Rattle.vl_building.specs.Guides.{axis_of, legend_of, header_of, param_domain_of, domain_in, range_item, range_at, scale_of};

use crate::names::named_at;
use crate::numbers::{angle_at, between, count_between, number_between};
use crate::parts;
use crate::parts::{Items, Object, Reads, Value, each};
use crate::several::{both, three_parts, two_parts};
use crate::tables::{channel_at, scale_kind_at};
use cell_value::Cell;
use fixed_num::Num;
use json_exact::{Json, Member};
use std::alloc::Global;
use text_kit::{OutOfMemory, Seq};
use tree_readers::{flag_at, items_at, needed_text};
use vl_spec::{
    Axis, Domain, Header, LEAST_COUNT, Legend, MOST_LOOK, MOST_SHARE, MOST_TICKS, ParamDomain,
    Scale,
};

impl Object for Axis {
    ghost built = { axis_of };

    #[tactic(auto, unfolding(crate::specs::Guides::axis_of))]
    fn of_members(alloc: Global, members: &[Member]) -> Result<Axis, OutOfMemory> {
        let (title, format, values) = three_parts(alloc, members, "title", "format", "values")?;
        Ok(Axis {
            title,
            labels: flag_at(members, "labels"),
            ticks: flag_at(members, "ticks"),
            domain: flag_at(members, "domain"),
            grid: flag_at(members, "grid"),
            label_angle: angle_at(members, "labelAngle"),
            tick_count: count_between(members, "tickCount", LEAST_COUNT, MOST_TICKS),
            values,
            orient: named_at(members, "orient"),
            format,
        })
    }
}

impl Object for Legend {
    ghost built = { legend_of };

    #[tactic(auto, unfolding(crate::specs::Guides::legend_of))]
    fn of_members(alloc: Global, members: &[Member]) -> Result<Legend, OutOfMemory> {
        let (title, format) = two_parts(alloc, members, "title", "format")?;
        Ok(Legend { title, format })
    }
}

impl Object for Header {
    ghost built = { header_of };

    #[tactic(auto, unfolding(crate::specs::Guides::header_of))]
    fn of_members(_: Global, members: &[Member]) -> Result<Header, OutOfMemory> {
        Ok(Header {
            labels: flag_at(members, "labels"),
        })
    }
}

// The domain that a selection gives.
#[tactic(auto, unfolding(crate::specs::Guides::param_domain_of))]
fn param_domain_of(alloc: Global, members: &[Member]) -> Result<Option<Domain>, OutOfMemory>
    ensures { IfOk result (λ of. of ≡ Some (domain.Param (param_domain_of members.now))) }
{
    Ok(Some(Domain::Param(ParamDomain {
        param: needed_text(alloc, members, "param")?,
        encoding: channel_at(members, "encoding"),
    })))
}

// A domain: a list of cells, or what a selection gives.
impl Value for Domain {
    ghost read = { domain_in };

    fn of_value(alloc: Global, tree: &Json) -> Result<Option<Domain>, OutOfMemory> {
        match tree {
            Json::List(items) => Ok(Some(Domain::Cells(each::<Json, Cell, Items>(
                alloc,
                items.as_slice(),
            )?))),
            Json::Object(members) => param_domain_of(alloc, members.as_slice()),
            Json::Null | Json::Flag(_) | Json::Number(_) | Json::Huge | Json::Text(_) => Ok(None),
        }
    }
}

// The number 0.
fn zero() -> Num
    ensures { result ≡ pos 0 }
{
    match Num::of_millionths(0) {
        Some(number) => number,
        None => unreachable!(),
    }
}

// Items of a range, 0 where one is none.
struct Ranged;

impl Reads<Json, Cell> for Ranged {
    ghost reads = { range_item };

    fn read(_: Global, tree: &Json) -> Result<Cell, OutOfMemory> {
        match tree {
            Json::Null => Ok(Cell::Null),
            Json::Flag(flag) => Ok(Cell::Flag(*flag)),
            Json::Number(number) => match between(*number, 0, MOST_LOOK) {
                Some(number) => Ok(Cell::Number(number)),
                None => Ok(Cell::Number(zero())),
            },
            Json::Text(text) => Ok(Cell::Text(text.copy()?)),
            Json::Huge | Json::List(_) | Json::Object(_) => Ok(Cell::Number(zero())),
        }
    }
}

// The range under a name; an empty list is none.
fn range_at(alloc: Global, members: &[Member], name: &str) -> Result<Option<Seq<Cell>>, OutOfMemory>
    ensures { IfOk result (λ range. range ≡ range_at members.now name.now) }
{
    match items_at(members, name) {
        Some(items) => {
            if items.len() == 0 {
                Ok(None)
            } else {
                each::<Json, Cell, Ranged>(alloc, items.as_slice()).map(Some)
            }
        }
        None => Ok(None),
    }
}

impl Object for Scale {
    ghost built = { scale_of };

    #[tactic(auto, unfolding(crate::specs::Guides::scale_of))]
    fn of_members(alloc: Global, members: &[Member]) -> Result<Scale, OutOfMemory> {
        let (range, domain) = both(
            range_at(alloc, members, "range"),
            parts::found_at(alloc, members, "domain"),
        )?;
        Ok(Scale {
            type_: scale_kind_at(members, "type"),
            domain,
            range,
            scheme: named_at(members, "scheme"),
            zero: flag_at(members, "zero"),
            nice: flag_at(members, "nice"),
            padding: number_between(members, "padding", 0, MOST_SHARE),
            padding_inner: number_between(members, "paddingInner", 0, MOST_SHARE),
            padding_outer: number_between(members, "paddingOuter", 0, MOST_SHARE),
            reverse: flag_at(members, "reverse"),
        })
    }
}
