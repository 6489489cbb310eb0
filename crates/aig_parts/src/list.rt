//! Lists.
ghost use Rattle.std.specs.Prelude.{◌≡◌, ◌∷◌, ◌++◌, ◌↔◌, ◌<◌, [], length, slice_get, IsTrue, IfOk, OnOk, OnErr};
ghost use Rattle.std.specs.Prelude.{option_copied, slice_set, slice_index_or, ◌^◌};
ghost use Rattle.std.specs.Slice.Iter.{iter_rest};
ghost use Rattle.std.specs.Iterator.Adapters.{IterYieldsInOrder};
ghost use Rattle.std.specs.List.{AllZip};

use std::alloc::{AllocError, AllocFailed, Global};
use std::marker::Model;
use std::ops::Index;
use std::slice;

/// A `Vec` that contracts see as the list of its items.
#[derive(Drop, Debug)]
pub struct List<T> {
    items: Vec<T>,
}

/// Bytes that contracts see as the list of their numbers: a symbol's name, a comment.
pub type Bytes = List<u8>;

impl<T> Model for List<T> {
    ghost use Rattle.std.specs.Prelude.{List};

    ghost Value = { List T };

    ghost view = { λ a. a.items.items };
}

impl<T> List<T> {
    /// The empty list, which takes no memory.
    pub fn new(alloc: Global) -> List<T>
        ensures { result ≡ [] }
    {
        List {
            items: Vec::new(alloc),
        }
    }

    /// The empty list, with room for so many items.
    pub fn with_capacity(alloc: Global, capacity: usize) -> Result<List<T>, AllocError>
        ensures { IfOk result (λ list. list ≡ []) }
    {
        Ok(List {
            items: Vec::with_capacity(alloc, capacity)?,
        })
    }

    /// The list of a `Vec`'s items.
    pub fn from_vec(items: Vec<T>) -> List<T>
        ensures { result ≡ items.items }
    {
        List { items }
    }

    /// How many items there are.
    pub fn len(&self) -> usize
        ensures { result ≡ length self.now }
    {
        self.items.len()
    }

    /// Whether there is no item.
    pub fn is_empty(&self) -> bool
        ensures { IsTrue result ↔ (self.now ≡ []) }
    {
        self.items.is_empty()
    }

    /// The items as a slice.
    pub fn as_slice(&self) -> &[T]
        ensures { result.now ≡ self.now }
    {
        self.items.as_slice()
    }

    /// Adds an item at the end. Where memory is refused nothing changes.
    pub fn push(&mut self, item: T) -> Result<(), AllocFailed<T>>
        ensures ok { OnOk result (self.new ≡ self.old ++ item ∷ []) }
        ensures err { OnErr result (self.new ≡ self.old) }
    {
        self.items.push(item)
    }

    /// The item at a position, counted from 0, or none past the end.
    pub fn get(&self, index: usize) -> Option<&T>
        ensures { option_copied result ≡ slice_get self.now index }
    {
        self.items.get(index)
    }

    /// The items in order.
    pub fn iter(&self) -> slice::Iter<'_, T>
        ensures rest { iter_rest result ≡ self.now }
        ensures len { length (iter_rest result) < 2 ^ 64 }
        ensures runs { IterYieldsInOrder T }
    {
        self.items.iter()
    }
}

impl<T: Copy> List<T> {
    /// Writes an item that is there.
    pub fn set(&mut self, index: usize, item: T)
        requires { index < length self.old }
        ensures { self.new ≡ slice_set self.old index item }
    {
        self.items[index] = item;
    }
}

impl<T> Index<usize> for List<T> {
    type Output = T;

    ghost can_index = { λ v i. i < length v };

    ghost index_gives = { λ v i x. x ≡ slice_index_or v i x };

    fn index(&self, index: usize) -> &T
        requires { index < length self.now }
        ensures { result.now ≡ slice_index_or self.now index result.now }
    {
        &self.items[index]
    }
}

impl<T: Clone> Clone for List<T> {
    ghost is_clone = { λ v w. AllZip T.is_clone v w };

    fn clone(&self) -> Result<List<T>, AllocError> {
        Ok(List {
            items: self.items.clone()?,
        })
    }
}
