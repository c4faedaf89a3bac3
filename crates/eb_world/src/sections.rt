// The names that each section has, with room for more of them.
ghost use Rattle.std.specs.Prelude.{◌≡◌, ◌+◌, ◌-◌, ◌<◌, ◌≤◌, ◌≢◌, [], ◌∷◌, ◌++◌, None, Some, IfSome, OnOk};
ghost use Rattle.std.specs.FinMap as map;
ghost use Rattle.eb_world.specs.Tables.{names_at, room_at};

use eb_base::{Memory, Name, Place, Reserved};
use indexmap::IndexMap;
use std::alloc::Global;
use std::marker::Model;

/// Lists of names by section. Finding a list takes constant expected time.
#[derive(Drop)]
pub struct Sections {
    alloc: Global,
    inner: IndexMap<Place, Reserved<Name>>,
}

impl Model for Sections {
    ghost use Rattle.std.specs.FinMap.{from_entries};
    ghost use Rattle.eb_world.specs.Tables.{Sections as Lists, sections_code};

    ghost Value = { Lists };

    ghost coded = { sections_code };

    ghost view = { λ s. from_entries s.inner.entries };
}

impl Sections {
    /// No lists. Takes no memory.
    pub fn new(alloc: Global) -> Self
        ensures { result ≡ map.empty }
    {
        Sections {
            alloc,
            inner: IndexMap::new(alloc),
        }
    }

    /// Makes room for so many more names of a section. The names of each section stay, after want of memory too.
    pub fn reserve(&mut self, place: Place, count: usize) -> Result<(), Memory>
        ensures names { (q : Place) → names_at self.new q ≡ names_at self.old q }
        ensures room { OnOk result (count ≤ room_at self.new place) }
    {
        if let Some(names) = self.inner.get_mut(&place) {
            names.reserve(count)?;
            return Ok(());
        }
        let mut names = Reserved::new(self.alloc);
        names.reserve(count)?;
        self.inner.insert(place, names)?;
        Ok(())
    }

    /// Adds a name to a section that has room for it. Takes no memory.
    pub fn add(&mut self, place: Place, name: Name)
        requires { 0 < room_at self.old place }
        ensures { self.new ≡ map.insert self.old place (record { items = names_at self.old place ++ name ∷ []; room = room_at self.old place - 1 }) }
    {
        let Some(names) = self.inner.get_mut(&place) else {
            unreachable!()
        };
        names.push(name);
    }

    /// Takes the names of a section away. Takes no memory.
    pub fn take(&mut self, place: Place) -> Option<Reserved<Name>>
        ensures taken { result ≡ map.get self.old place }
        ensures new { self.new ≡ map.remove self.old place }
    {
        self.inner.swap_remove(&place)
    }
}
