//! The members of an object so far, with what finds a name among them.

ghost use Rattle.std.specs.Prelude.{◌≡◌, [], ◌∷◌, ◌++◌, drop, List, ℕ, IfOk};
ghost use Rattle.std.specs.List.{list_any};
ghost use Rattle.std.specs.Str.{bytes_eq};
ghost use Rattle.std.specs.BTreeSet.{contains_text};
ghost use Rattle.json_exact.specs.inner.Reader.{names_of};

use crate::json::Member;
use std::alloc::Global;
use std::collections::BTreeSet;
use text_kit::{OutOfMemory, Seq};

/// How many names are looked through one by one. The others stand in a tree.
const FEW: usize = 8;

/// The members of an object so far.
#[derive(Drop)]
pub struct Members {
    members: Seq<Member>,
    later: BTreeSet<String>,
    ghost found: { (q : List ℕ) → contains_text later q ≡ list_any (bytes_eq q) (drop 8 (names_of members)) },
}

/// Whether one of the members has the name.
fn have(members: &[Member], name: &str) -> bool
    ensures { result ≡ list_any (bytes_eq name.now) (names_of members.now) }
{
    for member in members {
        if member.name.as_str() == name {
            return true;
        }
    }
    false
}

impl Members {
    /// No members, with room for one, since most objects in a nest have few.
    pub fn new(alloc: Global) -> Result<Members, OutOfMemory>
        ensures { IfOk result (λ m. m.members ≡ []) }
    {
        Ok(Members {
            members: Seq::with_capacity(alloc, 1)?,
            later: BTreeSet::new(alloc),
        })
    }

    /// Whether one of the members has the name.
    pub fn have(&self, name: &str) -> bool
        ensures { result ≡ list_any (bytes_eq name.now) (names_of self.now.members) }
    {
        let all = self.members.as_slice();
        if all.len() <= FEW {
            return have(all, name);
        }
        have(&all[..FEW], name) || self.later.contains(name)
    }

    /// The members with one more at the end.
    pub fn with(self, alloc: Global, member: Member) -> Result<Members, OutOfMemory>
        ensures { IfOk result (λ m. m.members ≡ self.members ++ member ∷ []) }
    {
        let Members {
            mut members,
            mut later,
        } = self;
        if members.len() >= FEW {
            later.insert(String::from_str(alloc, member.name.as_str())?)?;
        }
        members.push(member)?;
        Ok(Members { members, later })
    }

    /// The members as a list.
    pub fn into_seq(self) -> Seq<Member>
        ensures { result ≡ self.members }
    {
        let Members { members, later: _ } = self;
        members
    }
}
