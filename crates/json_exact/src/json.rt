ghost use Rattle.std.specs.Prelude.{◌≡◌, IfOk};

use fixed_num::Num;
use std::alloc::Global;
use text_kit::{OutOfMemory, Seq, Text};

/// A JSON value. Members keep the order in which they were read.
#[cycle(json)]
#[derive(Debug, Drop)]
pub enum Json {
    /// `null`
    Null,
    /// `true` or `false`
    Flag(bool),
    /// A number in range, in millionths.
    Number(Num),
    /// A number out of range.
    Huge,
    /// A text, without its quotes and escapes.
    Text(Text),
    /// A list.
    List(Seq<Json>),
    /// An object.
    Object(Seq<Member>),
}

/// A member of an object.
#[cycle(json)]
#[derive(Debug, Drop)]
pub struct Member {
    /// The name, without its quotes and escapes.
    pub name: Text,
    /// The value.
    pub value: Json,
}

impl Json {
    /// A tree that equals this one.
    #[cycle(json)]
    pub fn copy(&self, alloc: Global) -> Result<Json, OutOfMemory>
        ensures { IfOk result (λ r. r ≡ self.now) }
    {
        match self {
            Json::Null => Ok(Json::Null),
            Json::Flag(b) => Ok(Json::Flag(*b)),
            Json::Number(n) => Ok(Json::Number(*n)),
            Json::Huge => Ok(Json::Huge),
            Json::Text(t) => Ok(Json::Text(t.copy()?)),
            Json::List(items) => {
                let mut out = Seq::new(alloc);
                for item in items.as_slice() {
                    out.push(item.copy(alloc)?)?;
                }
                Ok(Json::List(out))
            }
            Json::Object(members) => {
                let mut out = Seq::new(alloc);
                for member in members.as_slice() {
                    out.push(member.copy(alloc)?)?;
                }
                Ok(Json::Object(out))
            }
        }
    }
}

impl Member {
    /// A member that equals this one.
    #[cycle(json)]
    pub fn copy(&self, alloc: Global) -> Result<Member, OutOfMemory>
        ensures { IfOk result (λ r. r ≡ self.now) }
    {
        Ok(Member {
            name: self.name.copy()?,
            value: self.value.copy(alloc)?,
        })
    }
}
