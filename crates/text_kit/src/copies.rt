ghost use Rattle.std.specs.Prelude.{◌≡◌, IfOk};

use crate::{OutOfMemory, Seq, Text};
use std::alloc::Global;

/// A value that can be copied, as long as there is memory.
pub trait Copies: Sized {
    /// A value that equals this one.
    fn copied(&self, alloc: Global) -> Result<Self, OutOfMemory>
        ensures { IfOk result (λ copy. copy ≡ self.now) };
}

impl Copies for Text {
    fn copied(&self, _: Global) -> Result<Text, OutOfMemory> {
        self.copy()
    }
}

impl<T: Copies> Copies for Option<T> {
    fn copied(&self, alloc: Global) -> Result<Option<T>, OutOfMemory> {
        match self {
            Some(value) => Ok(Some(value.copied(alloc)?)),
            None => Ok(None),
        }
    }
}

impl<T: Copies + Drop, U: Copies> Copies for (T, U) {
    fn copied(&self, alloc: Global) -> Result<(T, U), OutOfMemory> {
        Ok((self.0.copied(alloc)?, self.1.copied(alloc)?))
    }
}

impl<T: Copies + Drop> Copies for Seq<T> {
    fn copied(&self, alloc: Global) -> Result<Seq<T>, OutOfMemory> {
        copy_list(alloc, self.as_slice())
    }
}

/// A list of copies of `items`.
pub fn copy_list<T: Copies + Drop>(alloc: Global, items: &[T]) -> Result<Seq<T>, OutOfMemory>
    ensures { IfOk result (λ list. list ≡ items.now) }
{
    let mut list = Seq::with_capacity(alloc, items.len())?;
    for item in items {
        list.push(item.copied(alloc)?)?;
    }
    Ok(list)
}
