// Objects from members that may be absent. Members are added to members that may have been refused memory, so that no list of them is
// let go between one member and the next.
ghost use Rattle.std.specs.Prelude.{◌≡◌, [], ◌∷◌, ◌++◌, IfOk, OnOk, option_map};
ghost use Rattle.vega_writing.specs.Slots.{must, may, member_if, object, present};
ghost use Rattle.vega_writing.specs.Trees.{text_tree};
ghost use Rattle.json_exact.specs.declared.json.Json.TheVariants as json;

use crate::several::{added, both, there};
use crate::trees::{Written, word};
use json_exact::{Json, Member};
use std::alloc::Global;
use text_kit::{OutOfMemory, Seq, Text};

/// A member that may be absent.
#[derive(Drop)]
pub struct Slot {
    /// The name.
    pub name: Text,
    /// The value, where the member is there.
    pub value: Option<Json>,
}

/// No members yet.
pub fn no_slots(alloc: Global) -> Result<Seq<Slot>, OutOfMemory>
    ensures { IfOk result (λ slots. slots ≡ []) }
{
    Ok(Seq::new(alloc))
}

/// Members, and then one with this tree, where there is one.
pub fn with_tree_if(
    alloc: Global,
    slots: Result<Seq<Slot>, OutOfMemory>,
    name: &str,
    tree: Result<Option<Json>, OutOfMemory>,
) -> Result<Seq<Slot>, OutOfMemory>
    ensures { (made : _) (value : _) → IfOk slots (λ given. given ≡ made) → IfOk tree (λ given. given ≡ value) →
        IfOk result (λ all. all ≡ made ++ may name.now value ∷ []) }
{
    let slot = both(Text::of(alloc, name), tree);
    let (slots, (name, value)) = both(slots, slot)?;
    added(slots, Slot { name, value })
}

/// Members, and then one with this tree.
pub fn with_tree(
    alloc: Global,
    slots: Result<Seq<Slot>, OutOfMemory>,
    name: &str,
    tree: Result<Json, OutOfMemory>,
) -> Result<Seq<Slot>, OutOfMemory>
    ensures { (made : _) (value : _) → IfOk slots (λ given. given ≡ made) → IfOk tree (λ given. given ≡ value) →
        IfOk result (λ all. all ≡ made ++ must name.now value ∷ []) }
{
    with_tree_if(alloc, slots, name, there(tree))
}

/// Members, and then one with this value.
pub fn with<T: Written>(
    alloc: Global,
    slots: Result<Seq<Slot>, OutOfMemory>,
    name: &str,
    value: &T,
) -> Result<Seq<Slot>, OutOfMemory>
    ensures { (made : _) → IfOk slots (λ given. given ≡ made) → IfOk result (λ all. all ≡ made ++ must name.now (T.tree value.now) ∷ []) }
{
    with_tree(alloc, slots, name, value.tree(alloc))
}

// The tree of a value, where there is one.
fn tree_if<T: Written>(alloc: Global, value: &Option<T>) -> Result<Option<Json>, OutOfMemory>
    ensures { IfOk result (λ tree. tree ≡ option_map T.tree value.now) }
{
    match value {
        Some(value) => Ok(Some(value.tree(alloc)?)),
        None => Ok(None),
    }
}

/// Members, and then one with this value, where there is one.
pub fn with_if<T: Written>(
    alloc: Global,
    slots: Result<Seq<Slot>, OutOfMemory>,
    name: &str,
    value: &Option<T>,
) -> Result<Seq<Slot>, OutOfMemory>
    ensures { (made : _) → IfOk slots (λ given. given ≡ made) → IfOk result (λ all. all ≡ made ++ may name.now (option_map T.tree value.now) ∷ []) }
{
    with_tree_if(alloc, slots, name, tree_if(alloc, value))
}

/// Members, and then one with this text.
pub fn with_word(
    alloc: Global,
    slots: Result<Seq<Slot>, OutOfMemory>,
    name: &str,
    text: &str,
) -> Result<Seq<Slot>, OutOfMemory>
    ensures { (made : _) → IfOk slots (λ given. given ≡ made) → IfOk result (λ all. all ≡ made ++ must name.now (text_tree text.now) ∷ []) }
{
    with_tree(alloc, slots, name, word(alloc, text))
}

/// Members, and then others.
pub fn joined(
    slots: Result<Seq<Slot>, OutOfMemory>,
    others: Result<Seq<Slot>, OutOfMemory>,
) -> Result<Seq<Slot>, OutOfMemory>
    ensures { (made : _) (more : _) → IfOk slots (λ given. given ≡ made) → IfOk others (λ given. given ≡ more) →
        IfOk result (λ all. all ≡ made ++ more) }
{
    let (mut slots, others) = both(slots, others)?;
    slots.append(others)?;
    Ok(slots)
}

/// The object of the members that are there, in their order.
pub fn object(alloc: Global, slots: Result<Seq<Slot>, OutOfMemory>) -> Result<Json, OutOfMemory>
    ensures { (made : _) → IfOk slots (λ given. given ≡ made) → IfOk result (λ tree. tree ≡ object made) }
{
    object_of(alloc, slots?)
}

// The same of members that were not refused memory.
#[tactic(auto, unfolding(crate::specs::Slots::present))]
fn object_of(alloc: Global, slots: Seq<Slot>) -> Result<Json, OutOfMemory>
    ensures { IfOk result (λ tree. tree ≡ json.Object (present slots)) }
{
    let mut members = Seq::new(alloc);
    for slot in slots.into_vec() {
        add(&mut members, slot)?;
    }
    Ok(Json::Object(members))
}

// Adds the member, where it is there.
fn add(members: &mut Seq<Member>, slot: Slot) -> Result<(), OutOfMemory>
    ensures { OnOk result (members.new ≡ members.old ++ member_if slot.name slot.value) }
{
    let Slot { name, value } = slot;
    match value {
        Some(value) => members.push(Member { name, value }),
        None => Ok(()),
    }
}
