// The drafts of authoring types, found by number, by name, and by the name that they are copied to.
ghost use Rattle.std.specs.Prelude.{◌≡◌, List, ℕ, Some, cond, IfOk, OnOk, take};
ghost use Rattle.std.specs.List.{list_any};
ghost use Rattle.eb_schema.specs.declared.drafts.DraftAuthoring.{DraftAuthoring};
ghost use Rattle.eb_schema.specs.Tables.{first_from, under_name};
ghost use Rattle.eb_schema.specs.SchemaTests.{is_named};

use crate::drafts::DraftAuthoring;
use crate::tables::{Table, is_before, put_name};
use eb_base::{Items, Memory};
use std::alloc::Global;
use std::collections::BTreeMap;
use std::marker::Model;

/// The drafts of authoring types. Contracts see their list.
#[derive(Drop)]
pub struct AuthoringDrafts {
    table: Table<DraftAuthoring>,
    copies: BTreeMap<Vec<u8>, usize>,
}

impl Model for AuthoringDrafts {
    ghost use Rattle.std.specs.Prelude.{◌≡◌, List, ℕ};
    ghost use Rattle.eb_schema.specs.declared.drafts.DraftAuthoring.{DraftAuthoring};
    ghost use Rattle.eb_schema.specs.Tables.{first_from, under_name};
    ghost use Rattle.eb_schema.specs.SchemaTests.{is_named};

    ghost Value = { List DraftAuthoring };

    ghost view = { λ d. d.table };

    ghost invariant = { λ d. (q : List ℕ) → under_name d.copies q ≡ first_from 0 (λ a. is_named q a.copy.value) d.table };
}

/// Puts the index of a draft under the name that it is copied to, if there is one.
fn put_copy(
    alloc: Global,
    map: &mut BTreeMap<Vec<u8>, usize>,
    draft: &DraftAuthoring,
    index: usize,
) -> Result<(), Memory>
    ensures { OnOk result ((q : List ℕ) → under_name map.new q ≡ cond (is_named q draft.now.copy.value) (Some index) (under_name map.old q)) }
{
    match &draft.copy.value {
        Some(name) => {
            put_name(alloc, map, name.bytes(), index)?;
            Ok(())
        }
        None => Ok(()),
    }
}

/// The index of the first draft that is copied to each name.
fn copies(alloc: Global, drafts: &[DraftAuthoring]) -> Result<BTreeMap<Vec<u8>, usize>, Memory>
    ensures { IfOk result (λ m. (q : List ℕ) → under_name m q ≡ first_from 0 (λ a. is_named q a.copy.value) drafts.now) }
{
    let mut map = BTreeMap::new(alloc);
    let mut index = drafts.len();
    while index > 0 {
        index -= 1;
        put_copy(alloc, &mut map, &drafts[index], index)?;
    }
    Ok(map)
}

impl AuthoringDrafts {
    /// The drafts of this list.
    pub fn of(alloc: Global, drafts: Items<DraftAuthoring>) -> Result<Self, Memory>
        ensures { IfOk result (λ made. made ≡ drafts) }
    {
        let copies = copies(alloc, drafts.items())?;
        let table = Table::of(alloc, drafts)?;
        Ok(AuthoringDrafts { table, copies })
    }

    /// The drafts, found by number and by name. Takes no memory.
    pub fn table(&self) -> &Table<DraftAuthoring>
        ensures { result.now ≡ self.now }
    {
        &self.table
    }

    /// Whether one of the drafts before the index is copied to the name. Takes no memory, and time by the
    /// logarithm of the length.
    pub fn is_copied_before(&self, index: usize, name: &[u8]) -> bool
        ensures { result ≡ list_any (λ a. is_named name.now a.copy.value) (take index self.now) }
    {
        is_before(self.copies.get(name).copied(), index)
    }
}
