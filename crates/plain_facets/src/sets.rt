// Different elements in order.
ghost use Rattle.std.specs.Prelude.{◌≡◌, IfOk};
ghost use Rattle.tick_kit.specs.Domains.{ascending};

use std::alloc::Global;
use std::collections::BTreeSet;
use text_kit::OutOfMemory;

/// The different elements of a list, in ascending order.
pub(crate) fn in_order<T: Ord + Drop>(alloc: Global, items: Vec<T>) -> Result<Vec<T>, OutOfMemory>
    ensures { IfOk result (λ found. found.items ≡ ascending T.cmp items.items) }
{
    let mut left = items;
    let mut found = BTreeSet::new(alloc);
    while let Some(item) = left.pop() {
        found.insert(item)?;
    }
    Ok(found.into_iter().collect(alloc)?)
}
