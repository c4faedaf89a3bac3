// Lists of numbers under numbers: the children of each object.
ghost use Rattle.std.specs.Prelude.{◌≡◌, ℕ, ◌==◌, [], cond, OnOk, OnErr};
ghost use Rattle.std.specs.List.Sorted.{IsStrictlySortedBy};
ghost use Rattle.std.specs.Ordering.{nat_cmp};
ghost use Rattle.eb_scene.specs.Numbers.{with_number, without_number};
ghost use Rattle.eb_scene.specs.Projects.{is_parent};
ghost use Rattle.eb_scene.specs.Tables.{list_at, changed_list};

use crate::numbers::Numbers;
use eb_base::Memory;
use std::alloc::Global;
use std::collections::BTreeMap;
use std::marker::Model;

/// A list of numbers under each number. Contracts see those that are kept: a list that empties is forgotten.
#[derive(Drop)]
pub struct Below {
    lists: BTreeMap<u32, Numbers>,
}

impl Model for Below {
    ghost use Rattle.std.specs.Prelude.{ℕ, List};
    ghost use Rattle.eb_scene.specs.Projects.{Numbered};

    ghost Value = { Numbered (List ℕ) };

    ghost view = { λ b. b.lists.entries };
}

impl Below {
    /// Empty lists. Takes no memory.
    pub fn new(alloc: Global) -> Self
        ensures { result ≡ [] }
    {
        Below {
            lists: BTreeMap::new(alloc),
        }
    }

    /// The list of a number. Takes no memory.
    pub fn at(&self, over: u32) -> &[u32]
        ensures { result.now ≡ list_at self.now over }
    {
        match self.lists.get(&over) {
            Some(list) => list.items(),
            None => &[],
        }
    }

    /// Begins a list with one number. Where there is no memory, nothing changes.
    fn begin(&mut self, alloc: Global, over: u32, number: u32) -> Result<(), Memory>
        ensures ok { OnOk result ((q : ℕ) → list_at self.new q ≡ cond (over == q) (with_number [] number) (list_at self.old q)) }
        ensures err { OnErr result (self.new ≡ self.old) }
    {
        let mut list = Numbers::new(alloc);
        list.add(number)?;
        self.lists.insert(over, list)?;
        Ok(())
    }

    /// Adds a number to a list. Where there is no memory, nothing changes.
    fn add(&mut self, alloc: Global, over: u32, number: u32) -> Result<(), Memory>
        ensures ok { OnOk result ((q : ℕ) → list_at self.new q ≡ cond (over == q) (with_number (list_at self.old q) number) (list_at self.old q)) }
        ensures err { OnErr result ((q : ℕ) → list_at self.new q ≡ list_at self.old q) }
    {
        match self.lists.get_mut(&over) {
            Some(list) => {
                list.add(number)?;
                Ok(())
            }
            None => {
                self.begin(alloc, over, number)?;
                Ok(())
            }
        }
    }

    /// Takes a number out of a list. Takes no memory.
    fn take(&mut self, over: u32, number: u32)
        ensures { (q : ℕ) → list_at self.new q ≡ cond (over == q) (without_number (list_at self.old q) number) (list_at self.old q) }
    {
        match self.lists.get_mut(&over) {
            Some(list) => list.remove(number),
            None => {}
        }
    }

    /// Forgets a list that is empty. Takes no memory.
    fn tidy(&mut self, over: u32)
        ensures { (q : ℕ) → list_at self.new q ≡ list_at self.old q }
    {
        if self.at(over).is_empty() {
            self.lists.remove(&over);
        }
    }

    /// Takes a number out of a list, and forgets the list when it was the last one. Takes no memory.
    fn remove(&mut self, over: u32, number: u32)
        ensures { (q : ℕ) → list_at self.new q ≡ cond (over == q) (without_number (list_at self.old q) number) (list_at self.old q) }
    {
        self.take(over, number);
        self.tidy(over);
    }

    /// Adds a number to the list of its parent, if it has one. Where there is no memory, nothing changes.
    pub fn hang(&mut self, alloc: Global, over: Option<u32>, number: u32) -> Result<(), Memory>
        ensures ok { OnOk result ((q : ℕ) → list_at self.new q ≡ cond (is_parent over q) (with_number (list_at self.old q) number) (list_at self.old q)) }
        ensures err { OnErr result ((q : ℕ) → list_at self.new q ≡ list_at self.old q) }
    {
        match over {
            Some(over) => {
                self.add(alloc, over, number)?;
                Ok(())
            }
            None => Ok(()),
        }
    }

    /// Takes a number out of the list of its parent, if it has one. Takes no memory.
    pub fn unhang(&mut self, over: Option<u32>, number: u32)
        ensures { (q : ℕ) → list_at self.new q ≡ cond (is_parent over q) (without_number (list_at self.old q) number) (list_at self.old q) }
    {
        match over {
            Some(over) => self.remove(over, number),
            None => {}
        }
    }

    /// Moves a number from the list of one parent to that of another. Where there is no memory, nothing changes.
    #[tactic(auto, using(crate::proofs::NumberFacts::relisted, crate::proofs::NumberFacts::relisted_same))]
    pub fn rehang(
        &mut self,
        alloc: Global,
        old: Option<u32>,
        new: Option<u32>,
        number: u32,
    ) -> Result<(), Memory>
        ensures ok { OnOk result ((q : ℕ) → list_at self.new q ≡ changed_list number (is_parent old q) (is_parent new q) (list_at self.old q)) }
        ensures err { OnErr result ((q : ℕ) → list_at self.new q ≡ list_at self.old q) }
    {
        if old == new {
            return Ok(());
        }
        self.hang(alloc, new, number)?;
        self.unhang(old, number);
        Ok(())
    }
}
