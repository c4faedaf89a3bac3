// The assets of a project, by number.
ghost use Rattle.std.specs.Prelude.{◌≡◌, ℕ, [], OnOk, OnErr, is_some, length, slice_set};
ghost use Rattle.std.specs.Option.{option_copied};
ghost use Rattle.std.specs.Map.{keys_of};
ghost use Rattle.eb_scene.specs.Projects.{numbered};
ghost use Rattle.eb_scene.specs.Tables.{with_numbered, without_numbered, changed};

use crate::numbers::Numbers;
use crate::objects::Given;
use eb_base::{Items, Memory};
use std::alloc::Global;
use std::collections::BTreeMap;
use std::marker::Model;

/// Assets. Contracts see their values under their numbers, in ascending order.
#[derive(Drop)]
pub struct Assets {
    values: BTreeMap<u32, Items<Given>>,
    numbers: Numbers,
}

impl Model for Assets {
    ghost use Rattle.std.specs.Prelude.{◌≡◌, List};
    ghost use Rattle.std.specs.Map.{keys_of};
    ghost use Rattle.eb_scene.specs.declared.objects.Given.{Given};
    ghost use Rattle.eb_scene.specs.Projects.{Numbered};

    ghost Value = { Numbered (List Given) };

    ghost view = { λ a. a.values.entries };

    ghost invariant = { λ a. a.numbers ≡ keys_of a.values.entries };
}

/// Puts a value at a place, if there is one there. Takes no memory.
pub fn set_item(values: &mut Items<Given>, place: usize, value: Given)
    ensures { values.new ≡ slice_set values.old place value }
{
    if place < values.len() {
        values.set(place, value);
    }
}

impl Assets {
    /// No assets. Takes no memory.
    pub fn new(alloc: Global) -> Self
        ensures { result ≡ [] }
    {
        Assets {
            values: BTreeMap::new(alloc),
            numbers: Numbers::new(alloc),
        }
    }

    /// How many assets there are. Takes no memory.
    pub fn len(&self) -> usize
        ensures { result ≡ length self.now }
    {
        self.values.len()
    }

    /// The values of an asset, if it is there. Takes no memory.
    pub fn get(&self, number: u32) -> Option<&[Given]>
        ensures { option_copied result ≡ numbered self.now number }
    {
        match self.values.get(&number) {
            Some(values) => Some(values.items()),
            None => None,
        }
    }

    /// The numbers of all assets, ascending. Takes no memory.
    pub fn numbers(&self) -> &[u32]
        ensures { result.now ≡ keys_of self.now }
    {
        self.numbers.items()
    }

    /// Whether an asset is there. Takes no memory.
    pub fn has(&self, number: u32) -> bool
        ensures { result ≡ is_some (numbered self.now number) }
    {
        self.values.get(&number).is_some()
    }

    /// Puts the values of an asset, in place of those that it has. Where there is no memory, nothing changes.
    pub fn put(&mut self, number: u32, values: Items<Given>) -> Result<(), Memory>
        ensures ok { OnOk result (self.new ≡ with_numbered self.old number values) }
        ensures err { OnErr result (self.new ≡ self.old) }
    {
        self.numbers.add(number)?;
        match self.values.insert(number, values) {
            Ok(_) => Ok(()),
            Err(_) => {
                self.numbers.remove(number);
                Err(Memory)
            }
        }
    }

    /// Takes an asset away, if it is there. Takes no memory.
    pub fn take(&mut self, number: u32)
        ensures { self.new ≡ without_numbered self.old number }
    {
        self.values.remove(&number);
        self.numbers.remove(number);
    }

    /// Gives a field of an asset another value, if it is there. Takes no memory.
    pub fn set_value(&mut self, number: u32, place: usize, value: Given)
        ensures { self.new ≡ changed (λ values. slice_set values place value) self.old number }
    {
        match self.values.get_mut(&number) {
            Some(values) => set_item(values, place, value),
            None => {}
        }
    }
}
