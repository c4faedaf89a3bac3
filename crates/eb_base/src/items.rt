// A list for public types: contracts see its items alone, and not where they lie or how much room there is.
ghost use Rattle.std.specs.Prelude.{◌≡◌, ◌+◌, ◌<◌, ◌≤◌, ◌↔◌, List, [], ◌∷◌, ◌++◌, length, take, IsTrue, IsSome, OnOk, OnErr, slice_get, slice_set, option_copied, option_to_list, insert, remove};

use crate::memory::Memory;
use std::alloc::Global;
use std::marker::Model;

/// A list of values, in order. Contracts see it as the list of its items.
#[derive(Debug, Drop)]
pub struct Items<T> {
    inner: Vec<T>,
}

impl<T> Model for Items<T> {
    ghost use Rattle.std.specs.Prelude.{List};
    ghost use Rattle.std.specs.Coded.{coded_list};

    ghost Value = { List T };

    ghost coded = { coded_list T.code };

    ghost view = { λ it. it.inner.items };
}

impl<T> Items<T> {
    /// The list of these values. Takes no memory.
    pub fn of(values: Vec<T>) -> Self
        ensures { result ≡ values.items }
    {
        Items { inner: values }
    }

    /// The empty list. Takes no memory.
    pub fn new(alloc: Global) -> Self
        ensures { result ≡ [] }
    {
        Items {
            inner: Vec::new(alloc),
        }
    }

    /// The items, in order, to look at or to go through. Takes no memory.
    pub fn items(&self) -> &[T]
        ensures { result.now ≡ self.now }
    {
        self.inner.as_slice()
    }

    /// The values as a vector. Takes no memory.
    pub fn into_vec(self) -> Vec<T>
        ensures { result.items ≡ self }
    {
        self.inner
    }

    /// How many items there are.
    pub fn len(&self) -> usize
        ensures { result ≡ length self.now }
    {
        self.inner.len()
    }

    /// Whether there is none.
    pub fn is_empty(&self) -> bool
        ensures { IsTrue result ↔ (self.now ≡ []) }
    {
        self.inner.is_empty()
    }

    /// The item at a place from 0, if there is one.
    pub fn get(&self, at: usize) -> Option<&T>
        ensures { option_copied result ≡ slice_get self.now at }
    {
        self.items().get(at)
    }

    /// Adds an item behind the last one. Where there is no memory for it, nothing changes.
    pub fn push(&mut self, value: T) -> Result<(), Memory>
    where
        T: Drop,
        ensures ok { OnOk result (self.new ≡ self.old ++ value ∷ []) }
        ensures err { OnErr result (self.new ≡ self.old) }
    {
        self.inner.push(value)?;
        Ok(())
    }

    /// Puts an item at a place, before the one that stood there. Where there is no memory for it, nothing changes.
    pub fn insert(&mut self, at: usize, value: T) -> Result<(), Memory>
    where
        T: Drop,
        requires { at ≤ length self.old }
        ensures ok { OnOk result (self.new ≡ insert self.old at value) }
        ensures err { OnErr result (self.new ≡ self.old) }
    {
        self.inner.insert(at, value)?;
        Ok(())
    }

    /// Moves all items of another list behind the last one. Where there is no memory for them, both lists stay.
    pub fn append(&mut self, other: &mut Items<T>) -> Result<(), Memory>
        ensures ok { OnOk result (self.new ≡ self.old ++ other.old) }
        ensures moved { OnOk result (other.new ≡ []) }
        ensures err { OnErr result (self.new ≡ self.old) }
        ensures kept { OnErr result (other.new ≡ other.old) }
    {
        self.inner.append(&mut other.inner)?;
        Ok(())
    }

    /// Takes the last item away, if there is one. Takes no memory.
    pub fn pop(&mut self) -> Option<T>
        ensures some { IsSome result ↔ (0 < length self.old) }
        ensures items { self.old ≡ self.new ++ option_to_list result }
    {
        self.inner.pop()
    }

    /// Takes the item at a place away; those behind it move up. Takes no memory.
    pub fn remove(&mut self, at: usize) -> T
        requires { at < length self.old }
        ensures value { slice_get self.old at ≡ Some result }
        ensures items { self.new ≡ remove self.old at }
    {
        self.inner.remove(at)
    }

    /// Puts a value in the place of an item. Takes no memory.
    pub fn set(&mut self, at: usize, value: T)
    where
        T: Drop,
        requires { at < length self.old }
        ensures { self.new ≡ slice_set self.old at value }
    {
        self.inner[at] = value;
    }

    /// Keeps the first `count` items alone, or all where there are no more. Takes no memory.
    pub fn truncate(&mut self, count: usize)
    where
        T: Drop,
        ensures { self.new ≡ take count self.old }
    {
        self.inner.truncate(count);
    }
}
