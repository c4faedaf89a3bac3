// Ascending lists of numbers.
ghost use Rattle.std.specs.Prelude.{◌≡◌, [], OnOk, OnErr, length};
ghost use Rattle.std.specs.List.Sorted.{IsStrictlySortedBy, IsSorted, IsSearchInRange};
ghost use Rattle.std.specs.Ordering.{nat_cmp};
ghost use Rattle.eb_schema.specs.TypeOrder.{place_of};
ghost use Rattle.eb_scene.specs.Numbers.{has_number, with_number, without_number, without_numbers};

use eb_base::Memory;
use std::alloc::Global;
use std::marker::Model;

/// Numbers in ascending order, each once. Contracts see the list.
#[derive(Drop)]
pub struct Numbers {
    list: Vec<u32>,
}

impl Model for Numbers {
    ghost use Rattle.std.specs.Prelude.{ℕ, List};
    ghost use Rattle.std.specs.List.Sorted.{IsStrictlySortedBy};
    ghost use Rattle.std.specs.Ordering.{nat_cmp};

    ghost Value = { List ℕ };

    ghost view = { λ n. n.list.items };

    ghost invariant = { λ n. IsStrictlySortedBy nat_cmp n.list.items };
}

/// The place of a number in an ascending list, or else the one where it would stand.
fn place(list: &[u32], number: u32) -> Result<usize, usize>
    requires { IsStrictlySortedBy nat_cmp list.now }
    ensures place { result ≡ place_of (λ k. k) number list.now }
    ensures bound { IsSearchInRange result (length list.now) }
{
    list.binary_search(&number)
}

/// Whether a number is in an ascending list.
fn has(list: &[u32], number: u32) -> bool
    ensures { IsSorted nat_cmp list.now → result ≡ has_number list.now number }
{
    list.binary_search(&number).is_ok()
}

impl Numbers {
    /// No numbers. Takes no memory.
    pub fn new(alloc: Global) -> Self
        ensures { result ≡ [] }
    {
        Numbers {
            list: Vec::new(alloc),
        }
    }

    /// The numbers. Takes no memory.
    pub fn items(&self) -> &[u32]
        ensures items { result.now ≡ self.now }
        ensures order { IsStrictlySortedBy nat_cmp self.now }
    {
        self.list.as_slice()
    }

    /// Adds a number, if it isn't there. Where there is no memory for it, nothing changes.
    pub fn add(&mut self, number: u32) -> Result<(), Memory>
        ensures ok { OnOk result (self.new ≡ with_number self.old number) }
        ensures err { OnErr result (self.new ≡ self.old) }
    {
        match place(self.list.as_slice(), number) {
            Ok(_) => Ok(()),
            Err(at) => {
                self.list.insert(at, number)?;
                Ok(())
            }
        }
    }

    /// Takes a number away, if it is there. Takes no memory.
    pub fn remove(&mut self, number: u32)
        ensures removed { self.new ≡ without_number self.old number }
        ensures order { IsStrictlySortedBy nat_cmp self.old }
    {
        match place(self.list.as_slice(), number) {
            Ok(at) => {
                self.list.remove(at);
            }
            Err(_) => {}
        }
    }

    /// Takes these numbers away, ascending, in one pass. Takes no memory.
    fn remove_many(&mut self, gone: &[u32])
        requires { IsSorted nat_cmp gone.now }
        ensures removed { self.new ≡ without_numbers self.old gone.now }
        ensures order { IsStrictlySortedBy nat_cmp self.old }
    {
        self.list.retain(|number| !has(gone, *number));
    }

    /// Takes these numbers away, ascending, those that are there. Takes no memory.
    pub fn remove_all(&mut self, gone: &[u32])
        requires { IsSorted nat_cmp gone.now }
        ensures removed { self.new ≡ without_numbers self.old gone.now }
        ensures order { IsStrictlySortedBy nat_cmp self.old }
    {
        if gone.len() == 1 {
            self.remove(gone[0]);
        } else {
            self.remove_many(gone);
        }
    }
}
