ghost use Rattle.std.specs.Prelude.{◌≡◌, [], ◌∷◌, ◌++◌, ◌<◌, length, take, slice_get, slice_set, ◌↔◌, IsTrue, IfOk, MatchOption, OnOk};
ghost use Rattle.std.specs.Prelude.{OnErr};
ghost use Rattle.std.specs.Option.{option_copied};

use crate::OutOfMemory;
use std::alloc::Global;
use std::marker::Model;

/// A `Vec` that contracts see as the list of its elements. It may hold a type that holds it.
#[derive(Debug, Drop)]
pub struct Seq<T> {
    items: Vec<T>,
}

impl<T> Model for Seq<T> {
    ghost use Rattle.std.specs.Prelude.{List};
    ghost use Rattle.std.specs.Coded.{coded_list};

    ghost Value = { List T };

    ghost coded = { coded_list T.code };

    ghost view = { λ seq. seq.items.items };
}

impl<T> Seq<T> {
    /// An empty list. It takes no memory until something is added.
    pub fn new(alloc: Global) -> Seq<T>
        ensures { result ≡ [] }
    {
        Seq {
            items: Vec::new(alloc),
        }
    }

    /// An empty list with room for `capacity` elements.
    pub fn with_capacity(alloc: Global, capacity: usize) -> Result<Seq<T>, OutOfMemory>
        ensures { IfOk result (λ seq. seq ≡ []) }
    {
        Ok(Seq {
            items: Vec::with_capacity(alloc, capacity)?,
        })
    }

    /// The elements of `items`, without taking memory.
    pub fn from_vec(items: Vec<T>) -> Seq<T>
        ensures { result ≡ items.items }
    {
        Seq { items }
    }

    /// The elements as a `Vec`, without taking memory.
    pub fn into_vec(self) -> Vec<T>
        ensures { result.items ≡ self }
    {
        let Seq { items } = self;
        items
    }

    /// The elements, to read and to iterate over.
    pub fn as_slice(&self) -> &[T]
        ensures { result.now ≡ self.now }
    {
        self.items.as_slice()
    }

    /// How many elements there are.
    pub fn len(&self) -> usize
        ensures { result ≡ length self.now }
    {
        self.items.len()
    }

    /// Whether there is no element.
    pub fn is_empty(&self) -> bool
        ensures { IsTrue result ↔ (self.now ≡ []) }
    {
        self.items.is_empty()
    }

    /// The element at `i`, counted from 0; None exactly where `i` is not below the length.
    pub fn get(&self, i: usize) -> Option<&T>
        ensures { option_copied result ≡ slice_get self.now i }
    {
        self.items.get(i)
    }

    /// Takes the last element away; None exactly where there is none.
    pub fn pop(&mut self) -> Option<T>
        ensures { MatchOption result ((self.old ≡ []) × (self.new ≡ [])) (λ last. self.old ≡ self.new ++ last ∷ []) }
    {
        self.items.pop()
    }
}

impl<T: Drop> Seq<T> {
    /// Adds `v` at the end. Where memory is refused the list stays, and `v` is dropped.
    pub fn push(&mut self, v: T) -> Result<(), OutOfMemory>
        ensures ok { OnOk result (self.new ≡ self.old ++ v ∷ []) }
        ensures err { OnErr result (self.new ≡ self.old) }
    {
        self.items.push(v)?;
        Ok(())
    }

    /// Moves the elements of `more` to the end. Where memory is refused the list stays, and `more` is dropped.
    pub fn append(&mut self, more: Seq<T>) -> Result<(), OutOfMemory>
        ensures ok { OnOk result (self.new ≡ self.old ++ more) }
        ensures err { OnErr result (self.new ≡ self.old) }
    {
        let Seq { mut items } = more;
        self.items.append(&mut items)?;
        Ok(())
    }

    /// Keeps the first `n` elements, all of them where there are fewer.
    pub fn truncate(&mut self, n: usize)
        ensures { self.new ≡ take n self.old }
    {
        self.items.truncate(n);
    }

    /// Puts `v` in the place of the element at `i`, counted from 0.
    pub fn set(&mut self, i: usize, v: T)
        requires { i < length self.old }
        ensures { self.new ≡ slice_set self.old i v }
    {
        self.items[i] = v;
    }
}

impl<T: Copy> Seq<T> {
    /// A copy of the elements of `items`.
    pub fn from_slice(alloc: Global, items: &[T]) -> Result<Seq<T>, OutOfMemory>
        ensures { IfOk result (λ seq. seq ≡ items.now) }
    {
        Ok(Seq {
            items: Vec::from_slice(alloc, items)?,
        })
    }
}
