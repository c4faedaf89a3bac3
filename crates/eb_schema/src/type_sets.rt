// Sets of component types.
ghost use Rattle.std.specs.Prelude.{◌≡◌, ◌≤◌, ◌↔◌, ◌==◌, IfOk, OnOk, OnErr, IsTrue, length};
ghost use Rattle.std.specs.List.{list_any};
ghost use Rattle.std.specs.List.Sorted.{IsStrictlySortedBy};
ghost use Rattle.std.specs.Ordering.{nat_cmp};
ghost use Rattle.eb_schema.specs.declared.type_sets.TypeSetFault.TheVariants.{Memory};
ghost use Rattle.eb_schema.specs.Rows.{most_kinds, kinds_of, with_item, type_set, type_set_of, TellsSet};

use crate::rows::{MOST_KINDS, Row};
use crate::type_order::place;
use eb_base::{Items, Memory, TypeNo};
use std::alloc::Global;
use std::marker::Model;

/// Why a list of types is no set.
#[derive(Clone, Copy, Debug, PartialEq, Eq)]
pub enum TypeSetFault {
    /// There was no memory.
    Memory,
    /// The list has more than 32 different types.
    TooMany,
}

impl From<Memory> for TypeSetFault {
    ghost from_gives = { λ _ fault. fault ≡ Memory };

    fn from(_: Memory) -> Self {
        TypeSetFault::Memory
    }
}

/// At most 32 component types. Contracts see the list of their numbers, in ascending order.
#[derive(Drop)]
pub struct TypeSet {
    kinds: Items<TypeNo>,
}

impl Model for TypeSet {
    ghost use Rattle.std.specs.Prelude.{ℕ, List};
    ghost use Rattle.eb_schema.specs.Rows.{IsTypeSet};

    ghost Value = { List ℕ };

    ghost view = { λ s. s.kinds };

    ghost invariant = { λ s. IsTypeSet s.kinds };
}

/// Puts a type into an ascending list, unless it is there. Where there is no memory, nothing changes.
fn add(kinds: &mut Items<TypeNo>, kind: TypeNo) -> Result<(), Memory>
    requires { IsStrictlySortedBy nat_cmp kinds.old }
    ensures ok { OnOk result (kinds.new ≡ with_item (λ j. j) kind kinds.old) }
    ensures err { OnErr result (kinds.new ≡ kinds.old) }
{
    match place(kinds.items(), kind) {
        Ok(_) => Ok(()),
        Err(at) => {
            kinds.insert(at, kind)?;
            Ok(())
        }
    }
}

/// The types of a list in ascending order, each once.
fn each_once(alloc: Global, kinds: &[TypeNo]) -> Result<Items<TypeNo>, Memory>
    ensures { IfOk result (λ set. set ≡ type_set kinds.now) }
{
    let mut set = Items::new(alloc);
    let mut index = kinds.len();
    while index > 0 {
        index -= 1;
        add(&mut set, kinds[index])?;
    }
    Ok(set)
}

impl TypeSet {
    /// The set of the types of a list. `TooMany` comes exactly where there are more than 32 different ones.
    pub fn of(alloc: Global, kinds: &[TypeNo]) -> Result<Self, TypeSetFault>
        ensures { TellsSet result (type_set_of kinds.now) }
    {
        let kinds = each_once(alloc, kinds)?;
        if kinds.len() > MOST_KINDS {
            return Err(TypeSetFault::TooMany);
        }
        Ok(TypeSet { kinds })
    }

    /// The types of a row.
    pub fn of_row(alloc: Global, row: &Row) -> Result<Self, Memory>
        ensures { IfOk result (λ set. set ≡ kinds_of row.now) }
    {
        let mut kinds = Items::new(alloc);
        for cell in row.cells() {
            kinds.push(cell.kind)?;
        }
        Ok(TypeSet { kinds })
    }

    /// The types in ascending order. Takes no memory.
    pub fn kinds(&self) -> &[TypeNo]
        ensures kinds { result.now ≡ self.now }
        ensures order { IsStrictlySortedBy nat_cmp self.now }
        ensures few { length self.now ≤ most_kinds }
    {
        self.kinds.items()
    }

    /// Whether a type is in the set. Takes no memory, and time by the logarithm of their number.
    pub fn has(&self, kind: TypeNo) -> bool
        ensures { result ≡ list_any (λ k. k == kind) self.now }
    {
        place(self.kinds.items(), kind).is_ok()
    }

    /// Whether two sets have the same types. Takes no memory.
    pub fn same(&self, other: &TypeSet) -> bool
        ensures { IsTrue result ↔ (self.now ≡ other.now) }
    {
        self.kinds.items() == other.kinds.items()
    }

    /// An equal set.
    pub fn copy(&self, alloc: Global) -> Result<Self, Memory>
        ensures { IfOk result (λ set. set ≡ self.now) }
    {
        let kinds = Vec::from_slice(alloc, self.kinds.items())?;
        Ok(TypeSet {
            kinds: Items::of(kinds),
        })
    }
}
