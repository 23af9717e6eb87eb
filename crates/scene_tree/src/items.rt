// Items in runs.
ghost use Rattle.std.specs.Prelude.{◌≡◌, ◌<◌, [], ◌∷◌, ◌++◌, length, slice_set, slice_index_or, suc, IsTrue, ◌↔◌, IfOk, IfSome, OnOk, OnErr};
ghost use Rattle.scene_tree.specs.Items.{joined};

use crate::Item;
use std::alloc::Global;
use std::marker::Model;
use text_kit::{Copies, OutOfMemory, Seq, copy_list};

// How many items a run has at most that grows item by item.
const MOST: usize = 1024;

/// Items in their order, in runs, so that an item can go in among many while those of other runs stay where they are. Contracts see them as
/// one list.
#[derive(Debug, Drop)]
pub struct Items {
    count: usize,
    runs: Vec<Seq<Item>>,
}

impl Model for Items {
    ghost use Rattle.std.specs.Prelude.{◌≡◌, List, length};
    ghost use Rattle.std.specs.Coded.{coded_list};
    ghost use Rattle.scene_tree.specs.declared.scene.Item.{Item as AnyItem};
    ghost use Rattle.scene_tree.specs.contracts.scene.Item as item;

    ghost Value = { List AnyItem };

    ghost coded = { coded_list item.the_row.coded };

    ghost use Rattle.scene_tree.specs.Items.{joined};

    ghost view = { λ items. joined items.runs.items };

    ghost invariant = { λ items. items.count ≡ length (joined items.runs.items) };
}

// The place of the last run, if there is one that may grow.
fn open_run(runs: &[Seq<Item>]) -> Option<usize>
    ensures { IfSome result (λ at. suc at ≡ length runs.now) }
{
    match runs {
        [others @ .., last] if last.len() < MOST => Some(others.len()),
        _ => None,
    }
}

// Adds an item at the end of a run.
fn push_to(runs: &mut Vec<Seq<Item>>, at: usize, item: Item) -> Result<(), OutOfMemory>
    requires { at < length runs.old.items }
    ensures ok { OnOk result (runs.new.items ≡ slice_set runs.old.items at (slice_index_or runs.old.items at [] ++ item ∷ [])) }
    ensures err { OnErr result (runs.new.items ≡ runs.old.items) }
{
    runs[at].push(item)?;
    Ok(())
}

// Adds an item as a run of its own.
fn push_alone(alloc: Global, runs: &mut Vec<Seq<Item>>, item: Item) -> Result<(), OutOfMemory>
    ensures ok { OnOk result (runs.new.items ≡ runs.old.items ++ (item ∷ []) ∷ []) }
    ensures err { OnErr result (runs.new.items ≡ runs.old.items) }
{
    let mut run = Seq::new(alloc);
    run.push(item)?;
    runs.push(run)?;
    Ok(())
}

// Adds an item behind those of all runs.
#[tactic(auto, using(crate::proofs::RunLemmas::last_grown, crate::proofs::RunLemmas::one_run_more))]
fn push_last(alloc: Global, runs: &mut Vec<Seq<Item>>, item: Item) -> Result<(), OutOfMemory>
    ensures ok { OnOk result (joined runs.new.items ≡ joined runs.old.items ++ item ∷ []) }
    ensures err { OnErr result (runs.new.items ≡ runs.old.items) }
{
    match open_run(runs.as_slice()) {
        Some(at) => push_to(runs, at, item),
        None => push_alone(alloc, runs, item),
    }
}

impl Items {
    /// No items. They take no memory until some are added.
    pub fn new(alloc: Global) -> Items
        ensures { result ≡ [] }
    {
        Items {
            count: 0,
            runs: Vec::new(alloc),
        }
    }

    /// The items of a run, none of which is copied.
    pub fn from_seq(alloc: Global, run: Seq<Item>) -> Result<Items, OutOfMemory>
        ensures { IfOk result (λ items. items ≡ run) }
    {
        let mut items = Items::new(alloc);
        items.add_run(run)?;
        Ok(items)
    }

    /// Adds an item at the end. Where memory is refused the items stay, and the item is dropped.
    #[tactic(auto, using(crate::proofs::RunLemmas::count_more))]
    pub fn push(&mut self, alloc: Global, item: Item) -> Result<(), OutOfMemory>
        ensures ok { OnOk result (self.new ≡ self.old ++ item ∷ []) }
        ensures err { OnErr result (self.new ≡ self.old) }
    {
        let Some(count) = self.count.checked_add(1) else {
            return Err(OutOfMemory);
        };
        push_last(alloc, &mut self.runs, item)?;
        self.count = count;
        Ok(())
    }

    /// Adds the items of a run at the end, none of which is copied. Where memory is refused the items stay, and the run is dropped.
    #[tactic(auto, using(crate::proofs::RunLemmas::one_run_more, crate::proofs::RunLemmas::count_more))]
    pub fn add_run(&mut self, run: Seq<Item>) -> Result<(), OutOfMemory>
        ensures ok { OnOk result (self.new ≡ self.old ++ run) }
        ensures err { OnErr result (self.new ≡ self.old) }
    {
        let Some(count) = self.count.checked_add(run.len()) else {
            return Err(OutOfMemory);
        };
        self.runs.push(run)?;
        self.count = count;
        Ok(())
    }

    /// Moves other items to the end. Where memory is refused these stay, and the others are dropped.
    #[tactic(auto, using(crate::proofs::RunLemmas::more_runs, crate::proofs::RunLemmas::count_more))]
    pub fn append(&mut self, more: Items) -> Result<(), OutOfMemory>
        ensures ok { OnOk result (self.new ≡ self.old ++ more) }
        ensures err { OnErr result (self.new ≡ self.old) }
    {
        let Some(count) = self.count.checked_add(more.len()) else {
            return Err(OutOfMemory);
        };
        let Items { mut runs, .. } = more;
        self.runs.append(&mut runs)?;
        self.count = count;
        Ok(())
    }

    /// How many items there are.
    pub fn len(&self) -> usize
        ensures { result ≡ length self.now }
    {
        self.count
    }

    /// Whether there is no item.
    pub fn is_empty(&self) -> bool
        ensures { IsTrue result ↔ (self.now ≡ []) }
    {
        self.count == 0
    }

    /// The runs, to read and to iterate over.
    pub fn runs(&self) -> &[Seq<Item>]
        ensures { joined result.now ≡ self.now }
    {
        self.runs.as_slice()
    }

    /// Items that equal these.
    pub fn copy(&self, alloc: Global) -> Result<Items, OutOfMemory>
        ensures { IfOk result (λ copy. copy ≡ self.now) }
    {
        let runs = copy_list(alloc, self.runs.as_slice())?;
        Ok(Items {
            count: self.count,
            runs: runs.into_vec(),
        })
    }
}

impl Copies for Items {
    fn copied(&self, alloc: Global) -> Result<Items, OutOfMemory> {
        self.copy(alloc)
    }
}
