// Visible names, in the order in which they became visible.
ghost use Rattle.std.specs.Prelude.{◌≡◌, ◌-◌, ◌<◌, List, [], ◌∷◌, ◌++◌, length, take, find, OnOk, OnErr, bytes_eq};
ghost use Rattle.std.specs.Option.{option_copied, option_and_then};
ghost use Rattle.std.specs.List.{slice_get, position_or_len};

use crate::named::Named;
use crate::places::{forget, note};
use eb_base::Memory;
use std::alloc::Global;
use std::collections::BTreeMap;
use std::marker::Model;

/// What is visible, in the order in which it became so. Contracts see this list. Of those with the same name the first is found.
#[derive(Drop)]
pub struct VisibleNames<V: Named> {
    names: Vec<V>,
    places: BTreeMap<Vec<u8>, usize>,
}

impl<V: Named> Model for VisibleNames<V> {
    ghost use Rattle.std.specs.Prelude.{List};
    ghost use Rattle.std.specs.Coded.{coded_list};
    ghost use Rattle.eb_rule_names.specs.Places.{LeadsToFirst};

    ghost Value = { List V };

    ghost coded = { coded_list V.code };

    ghost view = { λ v. v.names.items };

    ghost invariant = { λ v. LeadsToFirst V.name_of v.names.items v.places };
}

// What stands at the place, where there is one.
fn standing<'a, V>(names: &'a [V], at: Option<usize>) -> Option<&'a V>
    ensures { option_copied result ≡ option_and_then (slice_get names.now) at }
{
    match at {
        Some(at) => names.get(at),
        None => None,
    }
}

impl<V: Named> VisibleNames<V> {
    /// Nothing is visible. Takes no memory.
    pub fn new(alloc: Global) -> Self
        ensures { result ≡ [] }
    {
        VisibleNames {
            names: Vec::new(alloc),
            places: BTreeMap::new(alloc),
        }
    }

    /// How many are visible.
    pub fn len(&self) -> usize
        ensures { result ≡ length self.now }
    {
        self.names.len()
    }

    /// The first of this name. Takes no memory, and time by the logarithm of the length.
    pub fn find(&self, name: &[u8]) -> Option<&V>
        ensures { option_copied result ≡ find (λ v. bytes_eq name.now (V.name_of v)) self.now }
    {
        standing(self.names.as_slice(), self.places.get(name).copied())
    }

    /// How many stand before the first of this name, and all where none has it. Takes no memory, and time by the logarithm of the
    /// length.
    pub fn place(&self, name: &[u8]) -> usize
        ensures { result ≡ position_or_len (λ v. bytes_eq name.now (V.name_of v)) self.now }
    {
        self.places.get(name).copied().unwrap_or(self.names.len())
    }

    /// Makes one more visible. Where there is no memory for it, nothing changes. Takes time by the logarithm of the length.
    pub fn push(&mut self, alloc: Global, value: V) -> Result<(), Memory>
        ensures ok { OnOk result (self.new ≡ self.old ++ value ∷ []) }
        ensures err { OnErr result (self.new ≡ self.old) }
    {
        self.names.reserve(1)?;
        note(alloc, &mut self.places, value.name(), self.names.len())?;
        self.names.push_reserved(value);
        Ok(())
    }

    // The last one goes out of sight.
    fn drop_last(&mut self)
        requires { 0 < length self.old }
        ensures { self.new ≡ take (length self.old - 1) self.old }
    {
        let at = self.names.len() - 1;
        forget(&mut self.places, self.names[at].name(), at);
        self.names.truncate(at);
    }

    /// Keeps the first `count` visible, or all where there are no more. Takes no memory, and for each that goes time by the
    /// logarithm of the length.
    pub fn truncate(&mut self, count: usize)
        ensures { self.new ≡ take count self.old }
    {
        while self.len() > count {
            self.drop_last();
        }
    }
}
