// The index: which runs looked at a key.
ghost use Rattle.std.specs.Prelude.{◌≡◌, ◌+◌, ◌<◌, OnOk, OnErr};
ghost use Rattle.std.specs.FinMap as map;
ghost use Rattle.std.specs.Map.Iter.{ShowsInOrder, deref_pair};
ghost use Rattle.eb_record.specs.Readers.{look_at, looks_under, key_name, with_looks, with_readers, without_looks};

use crate::naming::{key_name, run_name};
use eb_base::{Memory, Name, NameMap};
use eb_eval::RunId;
use eb_scene::Key;
use std::alloc::Global;
use std::collections::BTreeMap;
use std::collections::btree_map::Range;
use std::marker::Model;

// The name before all others.
const FIRST: Name = Name {
    play: 0,
    scene: 0,
    object: 0,
    extra: 0,
};

/// A look of a run at a key, each by its name. Looks are ordered by key, then by run.
#[derive(Clone, Copy, PartialEq, Eq, PartialOrd, Ord)]
pub(crate) struct Look {
    /// The name of the key.
    pub key: Name,
    /// The name of the run.
    pub run: Name,
}

/// Looks, each with its run. Contracts see a finite map from looks.
#[derive(Drop)]
pub(crate) struct Looks {
    inner: BTreeMap<Look, RunId>,
}

impl Model for Looks {
    ghost use Rattle.std.specs.FinMap as map;
    ghost use Rattle.eb_eval.specs.contracts.ids.RunId as run;
    ghost use Rattle.eb_record.specs.contracts.looks.Look as look;
    ghost use Rattle.eb_record.specs.Readers.{look_cmp, Index};

    ghost Value = { Index };

    ghost coded = { map.code look.the_row.coded run.the_row.coded };

    ghost view = { λ m. map.from_entries {R = look_cmp} m.inner.entries };
}

/// The look of a run at a key.
fn look_at(id: RunId, key: &Key) -> Look
    ensures { result ≡ look_at id key.now }
{
    Look {
        key: key_name(key),
        run: run_name(id),
    }
}

/// The name behind that of a key, with no other between them.
fn behind(key: &Name) -> Name
    requires { key.now.extra < 256 }
    ensures { result ≡ record key.now { extra = key.now.extra + 1 } }
{
    Name {
        extra: key.extra + 1,
        ..*key
    }
}

impl Looks {
    /// No looks. Takes no memory.
    pub fn new(alloc: Global) -> Self
        ensures { result ≡ map.empty }
    {
        Looks {
            inner: BTreeMap::new(alloc),
        }
    }

    /// Puts a look, with its run. Where there is no memory for it, nothing changes.
    fn put(&mut self, look: Look, id: RunId) -> Result<(), Memory>
        ensures ok { OnOk result (self.new ≡ map.insert self.old look id) }
        ensures err { OnErr result (self.new ≡ self.old) }
    {
        self.inner.insert(look, id)?;
        Ok(())
    }

    /// Takes a look away, if it is there. Takes no memory.
    fn take(&mut self, look: &Look)
        ensures { self.new ≡ map.remove self.old look.now }
    {
        self.inner.remove(look);
    }

    /// Takes away the looks of a run at these keys. Takes no memory.
    pub fn take_all(&mut self, id: RunId, keys: &[Key])
        ensures { self.new ≡ without_looks id self.old keys.now }
    {
        for key in keys {
            self.take(&look_at(id, key));
        }
    }

    /// Puts the looks of a run at these keys, or some of them where there is no memory for all.
    fn put_some(&mut self, id: RunId, keys: &[Key]) -> Result<(), Memory>
        ensures ok { OnOk result (self.new ≡ with_looks id self.old keys.now) }
        ensures err { OnErr result (without_looks id self.new keys.now ≡ without_looks id self.old keys.now) }
    {
        for key in keys {
            self.put(look_at(id, key), id)?;
        }
        Ok(())
    }

    /// Puts the looks of a run at these keys. Where there is no memory for all, none of them is there.
    pub fn put_all(&mut self, id: RunId, keys: &[Key]) -> Result<(), Memory>
        ensures ok { OnOk result (self.new ≡ with_looks id self.old keys.now) }
        ensures err { OnErr result (self.new ≡ without_looks id self.old keys.now) }
    {
        match self.put_some(id, keys) {
            Ok(()) => Ok(()),
            Err(_) => {
                self.take_all(id, keys);
                Err(Memory)
            }
        }
    }

    /// The looks at a key with their runs, ascending by the run. Takes no memory.
    fn at(&self, key: &Key) -> Range<'_, Look, RunId>
        ensures rest { result ≡ looks_under self.now (key_name key.now) }
        ensures runs { ShowsInOrder (deref_pair {K = Look} {X = RunId}) }
    {
        let key = key_name(key);
        let start = Look { key, run: FIRST };
        let end = Look {
            key: behind(&key),
            run: FIRST,
        };
        self.inner.range(start..end)
    }

    /// Puts the runs that looked at a key among those found, each under its name.
    pub fn put_readers(&self, found: &mut NameMap<RunId>, key: &Key) -> Result<(), Memory>
        ensures { OnOk result (found.new ≡ with_readers self.now found.old key.now) }
    {
        for (look, id) in self.at(key) {
            found.put(look.run, *id)?;
        }
        Ok(())
    }
}
