// The objects of a scene, by number.
ghost use Rattle.std.specs.Prelude.{◌≡◌, ℕ, [], OnOk, OnErr, IfNone, is_some, length};
ghost use Rattle.std.specs.Option.{option_copied};
ghost use Rattle.std.specs.Map.{keys_of};
ghost use Rattle.std.specs.List.Sorted.{IsStrictlySortedBy};
ghost use Rattle.std.specs.Ordering.{nat_cmp};
ghost use Rattle.eb_scene.specs.Projects.{numbered, parent_at, mark_at};
ghost use Rattle.eb_scene.specs.Tables.{with_numbered, without_numbered, changed};
ghost use Rattle.eb_scene.specs.Edits.{marked, parented, with_part, without_part, with_value};

use crate::objects::{Given, Object, Part};
use crate::parts::{put_part, set_value, take_part};
use eb_base::{AuthorNo, Memory};
use std::alloc::Global;
use std::collections::BTreeMap;
use std::marker::Model;

/// Objects under their numbers. Contracts see them in ascending order.
#[derive(Drop)]
pub struct Table {
    objects: BTreeMap<u32, Object>,
}

impl Model for Table {
    ghost use Rattle.eb_scene.specs.Projects.{Objects};

    ghost Value = { Objects };

    ghost view = { λ t. t.objects.entries };
}

impl Table {
    /// No objects. Takes no memory.
    pub fn new(alloc: Global) -> Self
        ensures { result ≡ [] }
    {
        Table {
            objects: BTreeMap::new(alloc),
        }
    }

    /// How many objects there are. Takes no memory.
    pub fn len(&self) -> usize
        ensures len { result ≡ length self.now }
        ensures order { IsStrictlySortedBy nat_cmp (keys_of self.now) }
    {
        self.objects.len()
    }

    /// The object of a number, if there is one. Takes no memory.
    pub fn get(&self, number: u32) -> Option<&Object>
        ensures { option_copied result ≡ numbered self.now number }
    {
        self.objects.get(&number)
    }

    /// Whether there is an object of a number. Takes no memory.
    pub fn has(&self, number: u32) -> bool
        ensures { result ≡ is_some (numbered self.now number) }
    {
        self.get(number).is_some()
    }

    /// The parent of an object, if it has one. Takes no memory.
    pub fn parent(&self, number: u32) -> Option<u32>
        ensures { result ≡ parent_at self.now number }
    {
        match self.get(number) {
            Some(object) => object.parent,
            None => None,
        }
    }

    /// The mark of an object, if it has one. Takes no memory.
    pub fn mark(&self, number: u32) -> Option<u8>
        ensures { result ≡ mark_at self.now number }
    {
        match self.get(number) {
            Some(object) => object.mark,
            None => None,
        }
    }

    /// Puts an object under a number, in place of the one that is there. Where there is no memory, nothing changes.
    pub fn put(&mut self, number: u32, object: Object) -> Result<(), Memory>
        ensures ok { OnOk result (self.new ≡ with_numbered self.old number object) }
        ensures err { OnErr result (self.new ≡ self.old) }
        ensures order { IsStrictlySortedBy nat_cmp (keys_of self.old) }
    {
        self.objects.insert(number, object)?;
        Ok(())
    }

    /// Takes the object of a number out, if there is one. Takes no memory.
    pub fn take(&mut self, number: u32) -> Option<Object>
        ensures found { result ≡ numbered self.old number }
        ensures taken { self.new ≡ without_numbered self.old number }
        ensures same { IfNone result (self.new ≡ self.old) }
    {
        self.objects.remove(&number)
    }

    /// Puts an object below another one, or below none. Takes no memory.
    pub fn set_parent(&mut self, number: u32, parent: Option<u32>)
        ensures set { self.new ≡ changed (parented parent) self.old number }
        ensures order { IsStrictlySortedBy nat_cmp (keys_of self.old) }
    {
        match self.objects.get_mut(&number) {
            Some(object) => object.parent = parent,
            None => {}
        }
    }

    /// Gives an object a mark, or takes it away. Takes no memory.
    pub fn set_mark(&mut self, number: u32, mark: Option<u8>)
        ensures { self.new ≡ changed (marked mark) self.old number }
    {
        match self.objects.get_mut(&number) {
            Some(object) => object.mark = mark,
            None => {}
        }
    }

    /// Gives an object a component, in place of the one of its type. Where there is no memory, nothing changes.
    pub fn put_part(&mut self, number: u32, part: Part) -> Result<(), Memory>
        ensures ok { OnOk result (self.new ≡ changed (with_part part) self.old number) }
        ensures err { OnErr result (self.new ≡ self.old) }
    {
        match self.objects.get_mut(&number) {
            Some(object) => put_part(object, part),
            None => Ok(()),
        }
    }

    /// Takes a component of an object away. Takes no memory.
    pub fn take_part(&mut self, number: u32, kind: AuthorNo)
        ensures { self.new ≡ changed (without_part kind) self.old number }
    {
        match self.objects.get_mut(&number) {
            Some(object) => take_part(object, kind),
            None => {}
        }
    }

    /// Gives a field of a component another value. Takes no memory.
    pub fn set_value(
        &mut self,
        alloc: Global,
        number: u32,
        kind: AuthorNo,
        place: usize,
        value: Given,
    )
        ensures { self.new ≡ changed (with_value kind place value) self.old number }
    {
        match self.objects.get_mut(&number) {
            Some(object) => set_value(object, alloc, kind, place, value),
            None => {}
        }
    }
}
