// A list with room for more: values go into it without asking for memory, so that what comes after the
// request for room can't fail.
ghost use Rattle.std.specs.Prelude.{◌≡◌, ◌-◌, ◌<◌, ◌≤◌, [], ◌∷◌, ◌++◌, IfOk, OnOk};

use crate::items::Items;
use crate::memory::Memory;
use std::alloc::Global;
use std::marker::Model;

/// A list of values with room for more of them. Contracts see its items, and how many more there is room for.
#[derive(Debug, Drop)]
pub struct Reserved<T> {
    inner: Vec<T>,
}

impl<T> Model for Reserved<T> {
    ghost use Rattle.std.specs.Prelude.{◌-◌, vec_len, vec_capacity};
    ghost use Rattle.eb_base.specs.Room.{Roomy, roomy_code};

    ghost Value = { Roomy T };

    ghost coded = { roomy_code T.code };

    ghost view = { λ r. record { items = r.inner.items; room = vec_capacity r.inner - vec_len r.inner } };
}

impl<T: Drop> Reserved<T> {
    /// The same list with room for at least so many more values. After want of memory the list is gone.
    pub fn with_room(list: Items<T>, count: usize) -> Result<Self, Memory>
        ensures items { IfOk result (λ reserved. reserved.items ≡ list) }
        ensures room { IfOk result (λ reserved. count ≤ reserved.room) }
    {
        let mut inner = list.into_vec();
        inner.reserve(count)?;
        Ok(Reserved { inner })
    }
}

impl<T> Reserved<T> {
    /// The empty list. Takes no memory.
    pub fn new(alloc: Global) -> Self
        ensures { result.items ≡ [] }
    {
        Reserved {
            inner: Vec::new(alloc),
        }
    }

    /// Makes room for at least so many more values. The values stay, after want of memory too.
    pub fn reserve(&mut self, count: usize) -> Result<(), Memory>
        ensures items { self.new.items ≡ self.old.items }
        ensures room { OnOk result (count ≤ self.new.room) }
    {
        self.inner.reserve(count)?;
        Ok(())
    }

    /// How many more values there is room for. Takes no memory.
    pub fn room(&self) -> usize
        ensures { result ≡ self.now.room }
    {
        self.inner.capacity() - self.inner.len()
    }

    /// Adds a value at the end, where there is room. Takes no memory.
    pub fn push(&mut self, value: T)
        requires { 0 < self.old.room }
        ensures { self.new ≡ record { items = self.old.items ++ value ∷ []; room = self.old.room - 1 } }
    {
        self.inner.push_reserved(value);
    }

    /// The items, in order. Takes no memory.
    pub fn items(&self) -> &[T]
        ensures { result.now ≡ self.now.items }
    {
        self.inner.as_slice()
    }

    /// The list of the items. Takes no memory.
    pub fn into_items(self) -> Items<T>
        ensures { result ≡ self.items }
    {
        Items::of(self.inner)
    }
}
