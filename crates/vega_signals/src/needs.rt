// Nodes in an order in which each comes after those that it needs, as far as there is one. Nothing is promised of it: who uses it tests what
// is needed.
use std::alloc::Global;
use text_kit::{OutOfMemory, Seq};

// Which nodes need which. The needs that are for one node are a chain.
#[derive(Drop)]
pub(crate) struct Needs {
    // How many of those that a node needs haven't come.
    lacking: Seq<usize>,
    // The last need that was told for a node, counted from 1; 0 where there is none.
    last: Seq<usize>,
    // The node that has a need.
    needer: Seq<usize>,
    // The need that was told before it for the same node, as in `last`.
    earlier: Seq<usize>,
}

// The entry at `i`, 0 where there is none.
fn entry(list: &Seq<usize>, i: usize) -> usize {
    list.get(i).copied().unwrap_or(0)
}

// Puts a number in the place of the entry at `i`, if there is one.
fn put(list: &mut Seq<usize>, i: usize, number: usize) {
    if i < list.len() {
        list.set(i, number);
    }
}

impl Needs {
    // No nodes.
    pub(crate) fn new(alloc: Global) -> Needs {
        Needs {
            lacking: Seq::new(alloc),
            last: Seq::new(alloc),
            needer: Seq::new(alloc),
            earlier: Seq::new(alloc),
        }
    }

    // Adds a node. They are counted from 0.
    pub(crate) fn add(&mut self) -> Result<usize, OutOfMemory> {
        let node = self.lacking.len();
        self.lacking.push(0)?;
        self.last.push(0)?;
        Ok(node)
    }

    // A node needs another.
    pub(crate) fn tell(&mut self, node: usize, needed: usize) -> Result<(), OutOfMemory> {
        let lacking = entry(&self.lacking, node).saturating_add(1);
        put(&mut self.lacking, node, lacking);
        let earlier = entry(&self.last, needed);
        self.earlier.push(earlier)?;
        self.needer.push(node)?;
        let last = self.needer.len();
        put(&mut self.last, needed, last);
        Ok(())
    }

    // One of those that a node needs came. The node comes once none is left.
    fn come(&mut self, node: usize, order: &mut Seq<usize>) -> Result<(), OutOfMemory> {
        let lacking = entry(&self.lacking, node).saturating_sub(1);
        put(&mut self.lacking, node, lacking);
        if lacking == 0 {
            order.push(node)?;
        }
        Ok(())
    }

    // A node came.
    fn follow(&mut self, needed: usize, order: &mut Seq<usize>) -> Result<(), OutOfMemory> {
        let mut need = entry(&self.last, needed);
        for _ in 0..self.needer.len() {
            if need == 0 {
                break;
            }
            let i = need.saturating_sub(1);
            let node = entry(&self.needer, i);
            self.come(node, order)?;
            need = entry(&self.earlier, i);
        }
        Ok(())
    }

    // Those that need none.
    fn free(&self, alloc: Global) -> Result<Seq<usize>, OutOfMemory> {
        let mut order = Seq::new(alloc);
        for node in 0..self.lacking.len() {
            if entry(&self.lacking, node) == 0 {
                order.push(node)?;
            }
        }
        Ok(order)
    }

    // The nodes, each after those that it needs, without those that need themselves and those that need such.
    pub(crate) fn order(mut self, alloc: Global) -> Result<Seq<usize>, OutOfMemory> {
        let mut order = self.free(alloc)?;
        for at in 0..self.lacking.len() {
            if at >= order.len() {
                break;
            }
            let node = entry(&order, at);
            self.follow(node, &mut order)?;
        }
        Ok(order)
    }
}
