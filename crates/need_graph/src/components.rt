// Levels of nodes by Tarjan's walk in depth, without recursion. Nothing is promised of them: who uses them tests what is needed.
use crate::nodes::needs_of;
use std::alloc::Global;
use text_kit::{OutOfMemory, Seq};

/// A walk over a graph. Lists with an entry for each node have 0 for what isn't known yet.
#[derive(Drop)]
struct Walk {
    /// When a node was found, counted from 1.
    found: Seq<usize>,
    /// The earliest node found that a node is known to lead back to, by when that was found.
    low: Seq<usize>,
    /// How many needs of a node were followed.
    followed: Seq<usize>,
    /// The component that a node stands in, counted from 1 as they are closed: a component is closed after those that it leads to.
    component: Seq<usize>,
    /// The way from the root to the node at hand.
    path: Seq<usize>,
    /// The nodes found whose component isn't closed.
    open: Seq<usize>,
    /// How many nodes were found.
    count: usize,
    /// How many components were closed.
    closed: usize,
}

// As many zeros.
fn zeros(alloc: Global, count: usize) -> Result<Seq<usize>, OutOfMemory> {
    Ok(Seq::from_vec(vec![in alloc; 0; count]?))
}

// The entry at `i`, 0 where there is none.
fn entry(list: &Seq<usize>, i: usize) -> usize {
    list.get(i).copied().unwrap_or(0)
}

// Puts a number in the place of the entry at `i`, if there is one.
fn put(list: &mut Seq<usize>, i: usize, number: usize) {
    if i < list.len() {
        list.set(i, number);
    }
}

// The last entry.
fn last_of(list: &Seq<usize>) -> Option<usize> {
    list.as_slice().last().copied()
}

impl Walk {
    // A walk that has found no node yet.
    fn new(alloc: Global, count: usize) -> Result<Walk, OutOfMemory> {
        Ok(Walk {
            found: zeros(alloc, count)?,
            low: zeros(alloc, count)?,
            followed: zeros(alloc, count)?,
            component: zeros(alloc, count)?,
            path: Seq::new(alloc),
            open: Seq::new(alloc),
            count: 0,
            closed: 0,
        })
    }

    // Goes to a node that wasn't found.
    fn enter(&mut self, v: usize) -> Result<(), OutOfMemory> {
        self.count = self.count.saturating_add(1);
        put(&mut self.found, v, self.count);
        put(&mut self.low, v, self.count);
        self.path.push(v)?;
        self.open.push(v)
    }

    // A node leads back to what was found then.
    fn lower(&mut self, v: usize, low: usize) {
        let least = entry(&self.low, v).min(low);
        put(&mut self.low, v, least);
    }

    // Follows a need of the node at hand.
    fn follow(&mut self, v: usize, w: usize) -> Result<(), OutOfMemory> {
        let found = entry(&self.found, w);
        if found == 0 {
            return self.enter(w);
        }
        if entry(&self.component, w) == 0 {
            self.lower(v, found);
        }
        Ok(())
    }

    // Closes the component whose first node is `v`.
    fn close(&mut self, v: usize) {
        self.closed = self.closed.saturating_add(1);
        while let Some(w) = self.open.pop() {
            put(&mut self.component, w, self.closed);
            if w == v {
                return;
            }
        }
    }

    // Goes back from a node, all of whose needs were followed.
    fn leave(&mut self, v: usize) {
        let low = entry(&self.low, v);
        if low == entry(&self.found, v) {
            self.close(v);
        }
        let _ = self.path.pop();
        if let Some(before) = last_of(&self.path) {
            self.lower(before, low);
        }
    }

    // One step of the walk; false where it is at its end.
    fn step(&mut self, needs: &Seq<Seq<usize>>) -> Result<bool, OutOfMemory> {
        let Some(v) = last_of(&self.path) else {
            return Ok(false);
        };
        let at = entry(&self.followed, v);
        match needs_of(needs, v).get(at) {
            Some(w) if *w < needs.len() => {
                put(&mut self.followed, v, at.saturating_add(1));
                self.follow(v, *w)?;
            }
            Some(_) => put(&mut self.followed, v, at.saturating_add(1)),
            None => self.leave(v),
        }
        Ok(true)
    }

    // Walks over all that can be reached from a node.
    fn run(&mut self, needs: &Seq<Seq<usize>>, root: usize) -> Result<(), OutOfMemory> {
        self.enter(root)?;
        for _ in 0..u64::MAX {
            if !self.step(needs)? {
                break;
            }
        }
        Ok(())
    }
}

// The component of each node, counted so that no need leads to a later one.
pub(crate) fn components_of(
    alloc: Global,
    needs: &Seq<Seq<usize>>,
) -> Result<Seq<usize>, OutOfMemory> {
    let mut walk = Walk::new(alloc, needs.len())?;
    for root in 0..needs.len() {
        if entry(&walk.found, root) == 0 {
            walk.run(needs, root)?;
        }
    }
    let Walk { component, .. } = walk;
    Ok(component)
}
