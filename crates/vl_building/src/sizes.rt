// Sizes, and what views share.
ghost use Rattle.std.specs.Prelude.{◌≡◌, IfOk};
ghost use Rattle.vl_building.specs.Sizes.{size_in, config_view_of, config_at, sharing_in, resolve_of};

use crate::names::named_in;
use crate::numbers::{between, number_between};
use crate::parts;
use crate::parts::{Object, Picks, Plain, picked, plain_at};
use json_exact::{Json, Member};
use std::alloc::Global;
use text_kit::OutOfMemory;
use tree_readers::members_at;
use vl_spec::{ConfigView, MOST_SIZE, MOST_STEP, OVER_ZERO, Resolve, SharingOf, Size};

// A size: a number, or the step of an object.
impl Plain for Size {
    ghost plain = { size_in };

    fn of_plain(tree: &Json) -> Option<Size> {
        match tree {
            Json::Number(number) => Some(Size::Number(between(*number, OVER_ZERO, MOST_SIZE)?)),
            Json::Object(members) => Some(Size::Step(number_between(
                members.as_slice(),
                "step",
                OVER_ZERO,
                MOST_STEP,
            )?)),
            Json::Null | Json::Flag(_) | Json::Huge | Json::Text(_) | Json::List(_) => None,
        }
    }
}

impl Object for ConfigView {
    ghost built = { config_view_of };

    #[tactic(auto, unfolding(crate::specs::Sizes::config_view_of))]
    fn of_members(_: Global, members: &[Member]) -> Result<ConfigView, OutOfMemory> {
        Ok(ConfigView {
            continuous_width: number_between(members, "continuousWidth", OVER_ZERO, MOST_SIZE),
            continuous_height: number_between(members, "continuousHeight", OVER_ZERO, MOST_SIZE),
            discrete_width: plain_at(members, "discreteWidth"),
            discrete_height: plain_at(members, "discreteHeight"),
            step: number_between(members, "step", OVER_ZERO, MOST_STEP),
        })
    }
}

/// The sizes of views that say none, in the object under a name.
pub fn config_at(
    alloc: Global,
    members: &[Member],
    name: &str,
) -> Result<Option<ConfigView>, OutOfMemory>
    ensures { IfOk result (λ config. config ≡ config_at members.now name.now) }
{
    match members_at(members, name) {
        Some(inner) => parts::object_at(alloc, inner.as_slice(), "view"),
        None => Ok(None),
    }
}

// What members say of the channels of their names.
struct Sharings;

impl Picks<Member, SharingOf> for Sharings {
    ghost picks = { sharing_in };

    #[tactic(auto, unfolding(crate::specs::Sizes::sharing_in))]
    fn pick(_: Global, member: &Member) -> Result<Option<SharingOf>, OutOfMemory> {
        let Some(channel) = case_table::channel_of(member.name.as_str()) else {
            return Ok(None);
        };
        match named_in(&member.value) {
            Some(sharing) => Ok(Some(SharingOf { channel, sharing })),
            None => Ok(None),
        }
    }
}

impl Object for Resolve {
    ghost built = { resolve_of };

    #[tactic(auto, unfolding(crate::specs::Sizes::resolve_of))]
    fn of_members(alloc: Global, members: &[Member]) -> Result<Resolve, OutOfMemory> {
        match members_at(members, "scale") {
            Some(inner) => Ok(Resolve {
                scale: Some(picked::<Member, SharingOf, Sharings>(alloc, inner.as_slice())?),
            }),
            None => Ok(Resolve { scale: None }),
        }
    }
}
