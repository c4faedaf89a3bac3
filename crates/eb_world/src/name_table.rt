// Values under names, found by a hash. Contracts see a finite map, the order in which the names are listed,
// and how many more entries there is room for.
ghost use Rattle.std.specs.Prelude.{◌≡◌, ◌+◌, ◌<◌, ◌≤◌, [], None, Some, IfOk, OnOk, OnErr, is_some, slice_get, length};
ghost use Rattle.std.specs.Option.{option_copied};
ghost use Rattle.std.specs.List.Sorted.{IsPermutation};
ghost use Rattle.std.specs.FinMap as map;

use eb_base::{Memory, Name};
use indexmap::IndexMap;
use std::alloc::Global;
use std::marker::Model;

/// Values under names. Finding, adding and taking one takes constant expected time.
#[derive(Drop)]
pub struct NameTable<T> {
    inner: IndexMap<Name, T>,
}

impl<T> Model for NameTable<T> {
    ghost use Rattle.std.specs.FinMap.{from_entries};
    ghost use Rattle.std.specs.Map.{keys_of};
    ghost use Rattle.indexmap.specs.IndexMap.{spare};
    ghost use Rattle.eb_world.specs.Tables.{NameTable as Table, name_table_code};

    ghost Value = { Table T };

    ghost coded = { name_table_code T.code };

    ghost view = { λ t. record {
      map = from_entries t.inner.entries;
      order = keys_of t.inner.entries;
      room = spare t.inner;
    } };
}

impl<T> NameTable<T> {
    /// The empty table. Takes no memory.
    pub fn new(alloc: Global) -> Self
        ensures map { result.map ≡ map.empty }
        ensures order { result.order ≡ [] }
    {
        NameTable {
            inner: IndexMap::new(alloc),
        }
    }

    /// Makes room for so many more entries. The entries stay, after want of memory too.
    pub fn reserve(&mut self, count: usize) -> Result<(), Memory>
        ensures map { self.new.map ≡ self.old.map }
        ensures order { self.new.order ≡ self.old.order }
        ensures room { OnOk result (count ≤ self.new.room) }
        ensures kept { self.old.room ≤ self.new.room }
    {
        self.inner.reserve(count)?;
        Ok(())
    }

    /// The value under a name, if there is one. Takes no memory.
    pub fn get(&self, name: &Name) -> Option<&T>
        ensures { option_copied result ≡ map.get self.now.map name.now }
    {
        self.inner.get(name)
    }

    /// Whether there is a value under a name. Takes no memory.
    pub fn has(&self, name: &Name) -> bool
        ensures { result ≡ is_some (map.get self.now.map name.now) }
    {
        self.get(name).is_some()
    }

    /// Adds a value under a new name, where there is room. Takes no memory.
    pub fn add(&mut self, name: Name, value: T)
    where
        T: Drop,
        requires new { map.get self.old.map name ≡ None }
        requires room { 0 < self.old.room }
        ensures map { self.new.map ≡ map.insert self.old.map name value }
        ensures room { self.old.room ≤ self.new.room + 1 }
    {
        let Ok(_) = self.inner.insert(name, value) else {
            unreachable!()
        };
    }

    /// Takes away the value under a name, if there is one. Takes no memory.
    pub fn take(&mut self, name: &Name) -> Option<T>
        ensures value { result ≡ map.get self.old.map name.now }
        ensures map { self.new.map ≡ map.remove self.old.map name.now }
        ensures room { self.old.room ≤ self.new.room }
    {
        self.inner.swap_remove(name)
    }

    /// How many entries there are. Takes no memory.
    pub fn len(&self) -> usize
        ensures entries { result ≡ map.len self.now.map }
        ensures order { IsPermutation (map.keys self.now.map) self.now.order }
    {
        self.inner.len()
    }

    /// The entry at a place of the order. Takes no memory.
    pub fn at(&self, place: usize) -> (Name, &T)
        requires { place < map.len self.now.map }
        ensures order { slice_get self.now.order place ≡ Some result.0 }
        ensures value { map.get self.now.map result.0 ≡ Some result.1.now }
    {
        let _count = self.inner.len();
        let Some((name, value)) = self.inner.get_index(place) else {
            unreachable!()
        };
        (*name, value)
    }
}
