// Channels, and their conditions.
ghost use Rattle.std.specs.Prelude.{◌≡◌, map, codes, IfOk};
ghost use Rattle.json_exact.specs.declared.json.Json.{out-Json};
ghost use Rattle.vl_building.specs.Inside.{member_gives};
ghost use Rattle.vl_building.specs.Channels.{test_of, channel_with, condition_showing, as_condition, condition_with, condition_of, conditions_of};
ghost use Rattle.vl_building.specs.Channels.{conditions_at, channel_of, shown_in, channel_in, encoding_of};

use crate::filters::{needed_filter, param_test_of};
use crate::parts::{Object, Objects, Picks, each, picked};
use crate::several::{both, boxed, push_made};
use json_exact::{Json, Member};
use std::alloc::Global;
use text_kit::{OutOfMemory, Seq};
use tree_readers::has_member;
use vl_spec::{Channel, ChannelKind, ChannelOf, Condition, Conditions, Definition, Encoding, Test};

// When a condition holds.
impl Object for Test {
    ghost built = { test_of };

    #[tactic(auto, unfolding(crate::specs::Channels::test_of))]
    fn of_members(alloc: Global, members: &[Member]) -> Result<Test, OutOfMemory> {
        if has_member(members, "test") {
            Ok(Test::Filter(needed_filter(alloc, members, "test")?))
        } else {
            Ok(Test::Param(param_test_of(alloc, members)?))
        }
    }
}

// A definition of a channel, its conditions being these.
#[tactic(auto, unfolding(crate::specs::Channels::channel_with))]
fn channel_with(
    alloc: Global,
    members: &[Member],
    condition: Option<Conditions>,
) -> Result<Channel, OutOfMemory>
    ensures { IfOk result (λ channel. channel ≡ channel_with members.now condition) }
{
    let (definition, condition) = both(Definition::of_members(alloc, members), Ok(condition))?;
    Ok(Channel {
        definition,
        condition,
    })
}

// A condition that shows this.
#[tactic(auto, unfolding(crate::specs::Channels::condition_showing))]
fn condition_showing(
    alloc: Global,
    members: &[Member],
    shows: Channel,
) -> Result<Condition, OutOfMemory>
    ensures { IfOk result (λ condition. condition ≡ condition_showing members.now shows) }
{
    let (test, shows) = both(Test::of_members(alloc, members), Ok(shows))?;
    Ok(Condition { test, shows })
}

// The condition that a value is.
#[cycle(conditions)]
fn condition_of(alloc: Global, tree: &Json) -> Result<Condition, OutOfMemory>
    ensures { IfOk result (λ condition. condition ≡ condition_of tree.now) }
{
    match tree {
        Json::Object(members) => object_condition(alloc, members.as_slice()),
        Json::Null | Json::Flag(_) | Json::Number(_) | Json::Huge | Json::Text(_) | Json::List(_) =>
            object_condition(alloc, &[]),
    }
}

// The condition of these members.
#[cycle(conditions)]
fn object_condition(alloc: Global, members: &[Member]) -> Result<Condition, OutOfMemory>
    ensures { IfOk result (λ condition. condition ≡ condition_with members.now (member_gives as_condition members.now)) }
{
    let conditions = conditions_at(alloc, members)?;
    let shows = channel_with(alloc, members, conditions)?;
    condition_showing(alloc, members, shows)
}

// The conditions that a value is.
#[cycle(conditions)]
fn conditions_of(alloc: Global, tree: &Json) -> Result<Option<Conditions>, OutOfMemory>
    ensures { IfOk result (λ conditions. conditions ≡ conditions_of tree.now) }
{
    match tree {
        Json::Object(members) => {
            let condition = boxed(alloc, object_condition(alloc, members.as_slice()))?;
            Ok(Some(Conditions::One(condition)))
        }
        Json::List(items) => {
            let conditions = conditions_in(alloc, items.as_slice())?;
            Ok(Some(Conditions::Several(conditions)))
        }
        Json::Null | Json::Flag(_) | Json::Number(_) | Json::Huge | Json::Text(_) => Ok(None),
    }
}

// The conditions that items are.
#[cycle(conditions)]
fn conditions_in(alloc: Global, items: &[Json]) -> Result<Seq<Condition>, OutOfMemory>
    ensures { IfOk result (λ conditions. conditions ≡ map condition_of items.now) }
{
    let mut out = Seq::new(alloc);
    for tree in items {
        push_made(&mut out, condition_of(alloc, tree))?;
    }
    Ok(out)
}

// The conditions under the first member of that name.
#[cycle(conditions)]
fn conditions_at(alloc: Global, members: &[Member]) -> Result<Option<Conditions>, OutOfMemory>
    ensures { IfOk result (λ conditions. conditions ≡ conditions_at members.now (codes "condition")) }
{
    for member in members {
        if member.name.as_str() == "condition" {
            return conditions_of(alloc, &member.value);
        }
    }
    Ok(None)
}

impl Object for Channel {
    ghost built = { channel_of };

    fn of_members(alloc: Global, members: &[Member]) -> Result<Channel, OutOfMemory> {
        let conditions = conditions_at(alloc, members)?;
        channel_with(alloc, members, conditions)
    }
}

// What a channel shows; a list of definitions is for `detail` alone.
fn shown_in(alloc: Global, name: &str, tree: &Json) -> Result<Option<ChannelKind>, OutOfMemory>
    ensures { IfOk result (λ shows. shows ≡ shown_in name.now (out-Json tree.now)) }
{
    match tree {
        Json::Object(members) => Ok(Some(ChannelKind::One(Channel::of_members(
            alloc,
            members.as_slice(),
        )?))),
        Json::List(items) => {
            if name == "detail" {
                Ok(Some(ChannelKind::Several(each::<Json, Channel, Objects>(
                    alloc,
                    items.as_slice(),
                )?)))
            } else {
                Ok(None)
            }
        }
        Json::Null | Json::Flag(_) | Json::Number(_) | Json::Huge | Json::Text(_) => Ok(None),
    }
}

// The channels that members are.
struct Channels;

impl Picks<Member, ChannelOf> for Channels {
    ghost picks = { channel_in };

    #[tactic(auto, unfolding(crate::specs::Channels::channel_in))]
    fn pick(alloc: Global, member: &Member) -> Result<Option<ChannelOf>, OutOfMemory> {
        let name = member.name.as_str();
        let Some(channel) = case_table::channel_of(name) else {
            return Ok(None);
        };
        match shown_in(alloc, name, &member.value)? {
            Some(shows) => Ok(Some(ChannelOf { channel, shows })),
            None => Ok(None),
        }
    }
}

impl Object for Encoding {
    ghost built = { encoding_of };

    #[tactic(auto, unfolding(crate::specs::Channels::encoding_of))]
    fn of_members(alloc: Global, members: &[Member]) -> Result<Encoding, OutOfMemory> {
        Ok(Encoding {
            channels: picked::<Member, ChannelOf, Channels>(alloc, members)?,
        })
    }
}
