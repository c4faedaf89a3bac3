// A map under names: contracts see it as a finite map, and say nothing of how it is kept.
ghost use Rattle.std.specs.Prelude.{◌≡◌, option_copied, is_some, IfOk, OnOk, OnErr};
ghost use Rattle.std.specs.FinMap as map;
ghost use Rattle.std.specs.Map.Iter.{ShowsInOrder, deref_pair};

use crate::memory::Memory;
use crate::names::Name;
use std::alloc::Global;
use std::collections::BTreeMap;
use std::collections::btree_map::Iter;
use std::marker::Model;

/// Values under names, in the names' order.
#[derive(Drop)]
pub struct NameMap<T> {
    inner: BTreeMap<Name, T>,
}

impl<T> Model for NameMap<T> {
    ghost use Rattle.std.specs.FinMap as map;
    ghost use Rattle.eb_base.specs.Names.{name_cmp, coded_name};

    ghost Value = { map.FinMap name_cmp T };

    ghost coded = { map.code coded_name T.code };

    ghost view = { λ m. map.from_entries m.inner.entries };
}

impl<T> NameMap<T> {
    /// The empty map. Takes no memory.
    pub fn new(alloc: Global) -> Self
        ensures { result ≡ map.empty }
    {
        NameMap {
            inner: BTreeMap::new(alloc),
        }
    }

    /// The value under a name, if there is one. Takes no memory.
    pub fn get(&self, name: &Name) -> Option<&T>
        ensures { option_copied result ≡ map.get self.now name.now }
    {
        self.inner.get(name)
    }

    /// Puts a value under a name, and answers the one before. Where there is no memory for it, nothing changes.
    pub fn put(&mut self, name: Name, value: T) -> Result<Option<T>, Memory>
    where
        T: Drop,
        ensures before { IfOk result (λ before. before ≡ map.get self.old name) }
        ensures ok { OnOk result (self.new ≡ map.insert self.old name value) }
        ensures err { OnErr result (self.new ≡ self.old) }
    {
        Ok(self.inner.insert(name, value)?)
    }

    /// Takes away the value under a name, if there is one. Takes no memory.
    pub fn take(&mut self, name: &Name) -> Option<T>
        ensures before { result ≡ map.get self.old name.now }
        ensures taken { self.new ≡ map.remove self.old name.now }
    {
        self.inner.remove(name)
    }

    /// Whether there is a value under a name. Takes no memory.
    pub fn contains(&self, name: &Name) -> bool
        ensures { result ≡ is_some (map.get self.now name.now) }
    {
        self.get(name).is_some()
    }

    /// How many names there are. Takes no memory.
    pub fn len(&self) -> usize
        ensures { result ≡ map.len self.now }
    {
        self.inner.len()
    }

    /// The names with their values, in the names' order. Takes no memory.
    pub fn iter(&self) -> Iter<'_, Name, T>
        ensures rest { result ≡ map.entries self.now }
        ensures runs { ShowsInOrder (deref_pair {K = Name} {X = T}) }
    {
        self.inner.iter()
    }
}
