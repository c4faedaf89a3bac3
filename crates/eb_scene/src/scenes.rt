// A scene: its objects, the children of each, and the list of all numbers.
ghost use Rattle.std.specs.Prelude.{◌≡◌, ℕ, [], OnOk, OnErr, is_some, length, true};
ghost use Rattle.std.specs.Option.{option_copied};
ghost use Rattle.std.specs.Map.{keys_of};
ghost use Rattle.std.specs.Ordering.{nat_cmp};
ghost use Rattle.std.specs.List.Sorted.{IsStrictlySortedBy};
ghost use Rattle.eb_scene.specs.Projects.{numbered, parent_at, mark_at, children_of, above, first_mark, section};
ghost use Rattle.eb_scene.specs.Tables.{with_numbered, without_numbered, changed, ListsChildren};
ghost use Rattle.eb_scene.specs.Trees.{without_all};
ghost use Rattle.eb_scene.specs.Edits.{marked, parented, with_part, without_part, with_value};

use crate::below::Below;
use crate::numbers::Numbers;
use crate::objects::{Given, Object, Part};
use crate::table::Table;
use eb_base::{AuthorNo, Memory};
use std::alloc::Global;
use std::marker::Model;

/// A scene. Contracts see its objects under their numbers, in ascending order.
#[derive(Drop)]
pub struct Scene {
    objects: Table,
    below: Below,
    numbers: Numbers,
    alloc: Global,
}

impl Model for Scene {
    ghost use Rattle.eb_scene.specs.Projects.{Objects};
    ghost use Rattle.eb_scene.specs.Tables.{IsIndex};

    ghost Value = { Objects };

    ghost view = { λ s. s.objects };

    ghost invariant = { λ s. IsIndex s.objects s.below s.numbers };
}

/// Takes the object of a number out, and the number out of the list of its parent, if it is there. Takes no memory.
fn take_out(objects: &mut Table, below: &mut Below, number: u32)
    requires { ListsChildren objects.old below.old }
    ensures objects { objects.new ≡ without_numbered objects.old number }
    ensures lists { ListsChildren objects.new below.new }
{
    match objects.take(number) {
        Some(object) => below.unhang(object.parent, number),
        None => {}
    }
}

/// Takes these objects out, one after the other. Takes no memory.
fn take_out_all(objects: &mut Table, below: &mut Below, gone: &[u32])
    requires { ListsChildren objects.old below.old }
    ensures objects { objects.new ≡ without_all objects.old gone.now }
    ensures lists { ListsChildren objects.new below.new }
{
    for number in gone {
        take_out(objects, below, *number);
    }
}

impl Scene {
    /// A scene without objects. Takes no memory.
    pub fn new(alloc: Global) -> Self
        ensures { result ≡ [] }
    {
        Scene {
            objects: Table::new(alloc),
            below: Below::new(alloc),
            numbers: Numbers::new(alloc),
            alloc,
        }
    }

    /// How many objects there are. Takes no memory.
    pub fn len(&self) -> usize
        ensures len { result ≡ length self.now }
        ensures order { IsStrictlySortedBy nat_cmp (keys_of self.now) }
    {
        self.objects.len()
    }

    /// The object of a number, if there is one. Takes no memory.
    pub fn get(&self, number: u32) -> Option<&Object>
        ensures { option_copied result ≡ numbered self.now number }
    {
        self.objects.get(number)
    }

    /// Whether there is an object of a number. Takes no memory.
    pub fn has(&self, number: u32) -> bool
        ensures { result ≡ is_some (numbered self.now number) }
    {
        self.objects.has(number)
    }

    /// The parent of an object, if it has one. Takes no memory.
    pub fn parent(&self, number: u32) -> Option<u32>
        ensures { result ≡ parent_at self.now number }
    {
        self.objects.parent(number)
    }

    /// The mark of an object, if it has one. Takes no memory.
    pub fn mark(&self, number: u32) -> Option<u8>
        ensures { result ≡ mark_at self.now number }
    {
        self.objects.mark(number)
    }

    /// The numbers of the objects right below one, ascending. Takes no memory.
    pub fn children(&self, number: u32) -> &[u32]
        ensures { result.now ≡ children_of self.now number }
    {
        self.below.at(number)
    }

    /// The numbers of all objects, ascending. Takes no memory.
    pub fn numbers(&self) -> &[u32]
        ensures { result.now ≡ keys_of self.now }
    {
        self.numbers.items()
    }

    /// Puts an object under a new number. Where there is no memory, nothing changes.
    pub fn put(&mut self, number: u32, object: Object) -> Result<(), Memory>
        requires { numbered self.old number ≡ None }
        ensures ok { OnOk result (self.new ≡ with_numbered self.old number object) }
        ensures err { OnErr result (self.new ≡ self.old) }
    {
        let parent = object.parent;
        self.numbers.add(number)?;
        match self.below.hang(self.alloc, parent, number) {
            Ok(()) => {}
            Err(fault) => {
                self.numbers.remove(number);
                return Err(fault);
            }
        }
        match self.objects.put(number, object) {
            Ok(()) => Ok(()),
            Err(fault) => {
                self.below.unhang(parent, number);
                self.numbers.remove(number);
                Err(fault)
            }
        }
    }

    /// Takes these objects out, those that are there. Takes no memory. Of a list of children the last one goes first
    /// where they ascend in `gone`, so that none of them is moved.
    pub fn take_all(&mut self, gone: Vec<u32>)
        ensures { self.new ≡ without_all self.old gone.items }
    {
        let mut gone = gone;
        gone.reverse();
        take_out_all(&mut self.objects, &mut self.below, &gone);
        gone.sort_unstable();
        self.numbers.remove_all(&gone);
    }

    /// Puts an object below another one, or below none. Where there is no memory, nothing changes.
    pub fn set_parent(&mut self, number: u32, parent: Option<u32>) -> Result<(), Memory>
        requires { is_some (numbered self.old number) ≡ true }
        ensures ok { OnOk result (self.new ≡ changed (parented parent) self.old number) }
        ensures err { OnErr result (self.new ≡ self.old) }
    {
        let old = self.objects.parent(number);
        self.below.rehang(self.alloc, old, parent, number)?;
        self.objects.set_parent(number, parent);
        Ok(())
    }

    /// Gives an object a mark, or takes it away. Takes no memory.
    pub fn set_mark(&mut self, number: u32, mark: Option<u8>)
        ensures { self.new ≡ changed (marked mark) self.old number }
    {
        self.objects.set_mark(number, mark);
    }

    /// Gives an object a component, in place of the one of its type. Where there is no memory, nothing changes.
    pub fn put_part(&mut self, number: u32, part: Part) -> Result<(), Memory>
        ensures ok { OnOk result (self.new ≡ changed (with_part part) self.old number) }
        ensures err { OnErr result (self.new ≡ self.old) }
    {
        self.objects.put_part(number, part)
    }

    /// Takes a component of an object away. Takes no memory.
    pub fn take_part(&mut self, number: u32, kind: AuthorNo)
        ensures { self.new ≡ changed (without_part kind) self.old number }
    {
        self.objects.take_part(number, kind);
    }

    /// Gives a field of a component another value. Takes no memory.
    pub fn set_value(&mut self, number: u32, kind: AuthorNo, place: usize, value: Given)
        ensures { self.new ≡ changed (with_value kind place value) self.old number }
    {
        self.objects
            .set_value(self.alloc, number, kind, place, value);
    }
}
