// Channels, and their conditions.
ghost use Rattle.std.specs.Prelude.{◌≡◌, ◌++◌, IfOk, OnOk};

use crate::copying::{boxed, filled, push_copy, with_one};
use crate::{Definition, Filter, ParamTest};
use std::alloc::Global;
use text_kit::{Boxed, Copies, OutOfMemory, Seq};

/// The channels of a view, in the order of the text.
pub struct Encoding {
    /// The channels.
    pub channels: Seq<ChannelOf>,
}

/// A channel by its name.
pub struct ChannelOf {
    /// The code of the channel among `case_table::CHANNELS`.
    pub channel: u16,
    /// What it shows.
    pub shows: ChannelKind,
}

/// What a channel shows.
pub enum ChannelKind {
    /// One definition.
    One(Channel),
    /// A list of them, for `detail`.
    Several(Seq<Channel>),
}

/// A definition of a channel.
#[cycle(channels)]
#[derive(Drop)]
pub struct Channel {
    /// What it shows where no condition holds.
    pub definition: Definition,
    /// What it shows where one holds.
    pub condition: Option<Conditions>,
}

/// The conditions of a channel.
#[cycle(channels)]
#[derive(Drop)]
pub enum Conditions {
    /// One that stands alone.
    One(Boxed<Condition>),
    /// A list, of which the first that holds counts.
    Several(Seq<Condition>),
}

/// A condition of a channel.
#[cycle(channels)]
#[derive(Drop)]
pub struct Condition {
    /// When it holds.
    pub test: Test,
    /// What the channel then shows.
    pub shows: Channel,
}

/// When a condition holds.
pub enum Test {
    /// Where a parameter allows it.
    Param(ParamTest),
    /// Where a filter lets the row pass.
    Filter(Filter),
}

impl Drop for Encoding {
    fn drop(self) {
        let Encoding { channels: _ } = self;
    }
}

impl Drop for ChannelOf {
    fn drop(self) {
        let ChannelOf {
            channel: _,
            shows: _,
        } = self;
    }
}

impl Drop for ChannelKind {
    fn drop(self) {
        match self {
            ChannelKind::One(channel) => drop(channel),
            ChannelKind::Several(channels) => drop(channels),
        }
    }
}

impl Drop for Test {
    fn drop(self) {
        match self {
            Test::Param(_) => {}
            Test::Filter(filter) => drop(filter),
        }
    }
}

impl Copies for Encoding {
    fn copied(&self, alloc: Global) -> Result<Encoding, OutOfMemory> {
        Ok(Encoding {
            channels: self.channels.copied(alloc)?,
        })
    }
}

impl Copies for ChannelOf {
    fn copied(&self, alloc: Global) -> Result<ChannelOf, OutOfMemory> {
        Ok(ChannelOf {
            channel: self.channel,
            shows: self.shows.copied(alloc)?,
        })
    }
}

impl Copies for ChannelKind {
    fn copied(&self, alloc: Global) -> Result<ChannelKind, OutOfMemory> {
        match self {
            ChannelKind::One(channel) => Ok(ChannelKind::One(channel.copied(alloc)?)),
            ChannelKind::Several(channels) => Ok(ChannelKind::Several(channels.copied(alloc)?)),
        }
    }
}

impl Channel {
    /// A channel that equals this one.
    #[cycle(channels)]
    pub fn copy(&self, alloc: Global) -> Result<Channel, OutOfMemory>
        ensures { IfOk result (λ copy. copy ≡ self.now) }
    {
        let condition = copied_conditions(alloc, &self.condition);
        let (condition, definition) = with_one(
            alloc,
            &self.condition,
            condition,
            &self.definition,
        )?;
        Ok(Channel {
            definition,
            condition,
        })
    }
}

impl Conditions {
    /// Conditions that equal these.
    #[cycle(channels)]
    pub fn copy(&self, alloc: Global) -> Result<Conditions, OutOfMemory>
        ensures { IfOk result (λ copy. copy ≡ self.now) }
    {
        match self {
            Conditions::One(condition) => {
                let copy = condition.get().copy(alloc);
                Ok(Conditions::One(boxed(alloc, condition, copy)?))
            }
            Conditions::Several(conditions) => Ok(Conditions::Several(copied_list(
                alloc, conditions,
            )?)),
        }
    }
}

impl Condition {
    /// A condition that equals this one.
    #[cycle(channels)]
    pub fn copy(&self, alloc: Global) -> Result<Condition, OutOfMemory>
        ensures { IfOk result (λ copy. copy ≡ self.now) }
    {
        let shows = self.shows.copy(alloc);
        let (shows, test) = with_one(alloc, &self.shows, shows, &self.test)?;
        Ok(Condition { test, shows })
    }
}

// A copy of conditions that may be absent.
#[cycle(channels)]
fn copied_conditions(
    alloc: Global,
    conditions: &Option<Conditions>,
) -> Result<Option<Conditions>, OutOfMemory>
    ensures { IfOk result (λ copy. copy ≡ conditions.now) }
{
    match conditions {
        Some(conditions) => conditions.copy(alloc).map(Some),
        None => Ok(None),
    }
}

// Copies of conditions.
#[cycle(channels)]
fn copied_list(alloc: Global, conditions: &Seq<Condition>) -> Result<Seq<Condition>, OutOfMemory>
    ensures { IfOk result (λ copy. copy ≡ conditions.now) }
{
    let mut out = Seq::new(alloc);
    let copied = push_copies(alloc, conditions.as_slice(), &mut out);
    filled(conditions, out, copied)
}

// Adds copies of conditions.
#[cycle(channels)]
fn push_copies(
    alloc: Global,
    conditions: &[Condition],
    out: &mut Seq<Condition>,
) -> Result<(), OutOfMemory>
    ensures { OnOk result (out.new ≡ out.old ++ conditions.now) }
{
    for condition in conditions {
        push_copy(out, condition, condition.copy(alloc))?;
    }
    Ok(())
}

impl Copies for Channel {
    fn copied(&self, alloc: Global) -> Result<Channel, OutOfMemory> {
        self.copy(alloc)
    }
}

impl Copies for Test {
    fn copied(&self, alloc: Global) -> Result<Test, OutOfMemory> {
        match self {
            Test::Param(of) => Ok(Test::Param(of.copied(alloc)?)),
            Test::Filter(filter) => Ok(Test::Filter(filter.copy(alloc)?)),
        }
    }
}
