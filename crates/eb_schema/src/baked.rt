// What is baked: entities under their names, each in the section of a place.
ghost use Rattle.std.specs.Prelude.{◌≡◌, ◌≢◌, Some, None, IfOk, OnOk, OnErr, is_some, option_map};
ghost use Rattle.std.specs.FinMap as map;
ghost use Rattle.std.specs.List.Sorted.{IsStrictlySortedBy};
ghost use Rattle.std.specs.Map.Iter.{ShowsInOrder, deref_pair};
ghost use Rattle.eb_base.specs.Names.{name_cmp};
ghost use Rattle.eb_schema.specs.BakedEntities.{Entities, baked_entity};

use crate::rows::Row;
use eb_base::{Memory, Name, NameMap, Place};
use std::alloc::Global;
use std::collections::btree_map::Iter;
use std::marker::Model;

/// A baked entity.
#[derive(Drop)]
pub struct BakedEntity {
    /// The section that it lies in.
    pub place: Place,
    /// What it has.
    pub row: Row,
}

/// What is baked: the place and the row of each entity, under its name. Contracts see a finite map from names.
#[derive(Drop)]
pub struct Baked {
    entities: NameMap<BakedEntity>,
}

impl Model for Baked {
    ghost use Rattle.std.specs.FinMap as map;
    ghost use Rattle.eb_base.specs.Names.{coded_name};
    ghost use Rattle.eb_schema.specs.BakedEntities.{Entities};
    ghost use Rattle.eb_schema.specs.contracts.baked.BakedEntity as entity;

    ghost Value = { Entities };

    ghost coded = { map.code coded_name entity.the_row.coded };

    ghost view = { λ b. b.entities };
}

impl Baked {
    /// The map of no entity. Takes no memory.
    pub fn open(alloc: Global) -> Self
        ensures { result ≡ map.empty }
    {
        Baked {
            entities: NameMap::new(alloc),
        }
    }

    /// The place and the row of the entity of a name, if there is one. Takes no memory, and time by the logarithm of
    /// the number of entities.
    pub fn get(&self, name: &Name) -> Option<(Place, &Row)>
        ensures { option_map (λ found. baked_entity found.0 found.1.now) result ≡ map.get self.now name.now }
    {
        match self.entities.get(name) {
            Some(entity) => Some((entity.place, &entity.row)),
            None => None,
        }
    }

    /// Puts an entity under a name, in place of the one that is there. Where there is no memory, nothing changes. Takes
    /// time by the logarithm of the number of entities.
    pub fn put(&mut self, name: Name, place: Place, row: Row) -> Result<(), Memory>
        ensures ok { OnOk result (self.new ≡ map.insert self.old name (baked_entity place row)) }
        ensures err { OnErr result (self.new ≡ self.old) }
    {
        self.entities.put(name, BakedEntity { place, row })?;
        Ok(())
    }

    /// Takes the entity of a name away, and tells whether there was one. Takes no memory, and time by the logarithm of
    /// the number of entities.
    pub fn take(&mut self, name: &Name) -> bool
        ensures told { result ≡ is_some (map.get self.old name.now) }
        ensures taken { self.new ≡ map.remove self.old name.now }
    {
        self.entities.take(name).is_some()
    }

    /// How many entities there are. Takes no memory.
    pub fn len(&self) -> usize
        ensures { result ≡ map.len self.now }
    {
        self.entities.len()
    }

    /// The names with their entities, ascending by name, each once. Takes no memory.
    pub fn iter(&self) -> Iter<'_, Name, BakedEntity>
        ensures rest { result ≡ map.entries self.now }
        ensures runs { ShowsInOrder (deref_pair {K = Name} {X = BakedEntity}) }
        ensures order { IsStrictlySortedBy name_cmp (map.keys self.now) }
    {
        self.entities.iter()
    }

    /// The names, ascending, each once.
    pub fn names(&self, alloc: Global) -> Result<Vec<Name>, Memory>
        ensures names { IfOk result (λ names. names.items ≡ map.keys self.now) }
        ensures order { IsStrictlySortedBy name_cmp (map.keys self.now) }
    {
        let mut names = Vec::new(alloc);
        for (name, _) in self.iter() {
            names.push(*name)?;
        }
        Ok(names)
    }

    /// An equal map.
    pub fn copy(&self, alloc: Global) -> Result<Self, Memory>
        ensures { IfOk result (λ baked. baked ≡ self.now) }
    {
        let mut baked = Baked::open(alloc);
        for (name, entity) in self.iter() {
            let row = entity.row.copy(alloc)?;
            baked.put(*name, entity.place, row)?;
        }
        Ok(baked)
    }
}

/// The law that an entity that was put is found by its name and one that was taken is not, and that all others stay.
pub fn entities_are_found()
    ensures put { (m : Entities) (n : Name) (e : BakedEntity) → map.get (map.insert m n e) n ≡ Some e }
    ensures taken { (m : Entities) (n : Name) → map.get (map.remove m n) n ≡ None }
    ensures put_others { (m : Entities) (n other : Name) (e : BakedEntity) → other ≢ n → map.get (map.insert m n e) other ≡ map.get m other }
    ensures taken_others { (m : Entities) (n other : Name) → other ≢ n → map.get (map.remove m n) other ≡ map.get m other }
{}
