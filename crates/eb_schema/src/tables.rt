// A list of types that are found by number and by name.
ghost use Rattle.std.specs.Prelude.{◌≡◌, ℕ, ◌==◌, List, Some, cond, IfOk, OnOk, bytes_eq, find, take};
ghost use Rattle.std.specs.Ordering.{nat_cmp};
ghost use Rattle.std.specs.Option.{option_copied, option_and_then};
ghost use Rattle.std.specs.List.{slice_get, list_any};
ghost use Rattle.std.specs.BTreeMap.{get};
ghost use Rattle.eb_schema.specs.Tables.{first_from, stands_before, under_name};

use eb_base::{Items, Memory};
use std::alloc::Global;
use std::collections::BTreeMap;
use std::marker::Model;

/// What a table holds: it has a number and a name.
pub trait Listed: Drop {
    ghost use Rattle.std.specs.Prelude.{ℕ, List};

    ghost number_of: { Self → ℕ };

    ghost name_of: { Self → List ℕ };

    /// The number by which it is found.
    fn number(&self) -> u8
        ensures { result ≡ number_of self.now };

    /// The name by which it is found.
    fn name(&self) -> &[u8]
        ensures { result.now ≡ name_of self.now };
}

/// A list whose items are found by number and by name, of some with the same number or name the first.
/// Contracts see the list.
#[derive(Drop)]
pub struct Table<T: Listed> {
    items: Items<T>,
    numbers: BTreeMap<u8, usize>,
    names: BTreeMap<Vec<u8>, usize>,
}

impl<T: Listed> Model for Table<T> {
    ghost use Rattle.std.specs.Prelude.{List};
    ghost use Rattle.std.specs.Coded.{coded_list};
    ghost use Rattle.eb_schema.specs.Tables.{IsIndex};

    ghost Value = { List T };

    ghost coded = { coded_list T.code };

    ghost view = { λ t. t.items };

    ghost invariant = { λ t. IsIndex T.number_of T.name_of t.items t.numbers t.names };
}

/// The item at the index, where there is an index.
fn standing<'a, T>(items: &'a [T], index: Option<usize>) -> Option<&'a T>
    ensures { option_copied result ≡ option_and_then (slice_get items.now) index }
{
    match index {
        Some(index) => items.get(index),
        None => None,
    }
}

/// Whether there is a first, and it stands before this index.
pub fn is_before(first: Option<usize>, index: usize) -> bool
    ensures { result ≡ stands_before first index }
{
    match first {
        Some(first) => first < index,
        None => false,
    }
}

/// Puts an index under a name, in place of the one that is there.
pub fn put_name(
    alloc: Global,
    map: &mut BTreeMap<Vec<u8>, usize>,
    name: &[u8],
    index: usize,
) -> Result<(), Memory>
    ensures { OnOk result ((q : List ℕ) → under_name map.new q ≡ cond (bytes_eq q name.now) (Some index) (under_name map.old q)) }
{
    let name = Vec::from_slice(alloc, name)?;
    map.insert(name, index)?;
    Ok(())
}

/// The index of the first item of each number.
fn numbers_of<T: Listed>(alloc: Global, items: &[T]) -> Result<BTreeMap<u8, usize>, Memory>
    ensures { IfOk result (λ m. (q : ℕ) → get nat_cmp m q ≡ first_from 0 (λ x. T.number_of x == q) items.now) }
{
    let mut map = BTreeMap::new(alloc);
    let mut index = items.len();
    while index > 0 {
        index -= 1;
        map.insert(items[index].number(), index)?;
    }
    Ok(map)
}

/// The index of the first item of each name.
fn names_of<T: Listed>(alloc: Global, items: &[T]) -> Result<BTreeMap<Vec<u8>, usize>, Memory>
    ensures { IfOk result (λ m. (q : List ℕ) → under_name m q ≡ first_from 0 (λ x. bytes_eq q (T.name_of x)) items.now) }
{
    let mut map = BTreeMap::new(alloc);
    let mut index = items.len();
    while index > 0 {
        index -= 1;
        put_name(alloc, &mut map, items[index].name(), index)?;
    }
    Ok(map)
}

impl<T: Listed> Table<T> {
    /// The table of this list.
    pub fn of(alloc: Global, items: Items<T>) -> Result<Self, Memory>
        ensures { IfOk result (λ table. table ≡ items) }
    {
        let numbers = numbers_of(alloc, items.items())?;
        let names = names_of(alloc, items.items())?;
        Ok(Table {
            items,
            numbers,
            names,
        })
    }

    /// The list. Takes no memory.
    pub fn items(&self) -> &[T]
        ensures { result.now ≡ self.now }
    {
        self.items.items()
    }

    /// The first item of this number. Takes no memory, and time by the logarithm of the length.
    pub fn numbered(&self, number: u8) -> Option<&T>
        ensures { option_copied result ≡ find (λ x. T.number_of x == number) self.now }
    {
        standing(self.items.items(), self.numbers.get(&number).copied())
    }

    /// The first item of this name. Takes no memory, and time by the logarithm of the length.
    pub fn named(&self, name: &[u8]) -> Option<&T>
        ensures { option_copied result ≡ find (λ x. bytes_eq name.now (T.name_of x)) self.now }
    {
        standing(self.items.items(), self.names.get(name).copied())
    }

    /// Whether one of the items before the index has this number. Takes no memory, and time by the logarithm of
    /// the length.
    pub fn has_number_before(&self, index: usize, number: u8) -> bool
        ensures { result ≡ list_any (λ x. T.number_of x == number) (take index self.now) }
    {
        is_before(self.numbers.get(&number).copied(), index)
    }

    /// Whether one of the items before the index has this name. Takes no memory, and time by the logarithm of
    /// the length.
    pub fn has_name_before(&self, index: usize, name: &[u8]) -> bool
        ensures { result ≡ list_any (λ x. bytes_eq (T.name_of x) name.now) (take index self.now) }
    {
        is_before(self.names.get(name).copied(), index)
    }
}
