// Which entities are not as they were.
ghost use Rattle.std.specs.Prelude.{◌≡◌, IfOk, OnOk, fold};
ghost use Rattle.std.specs.FinMap.{entries, get, keys};
ghost use Rattle.eb_bake.specs.Changed as spec;

use crate::sameness::same_lists;
use eb_base::{Items, Memory, Name, NameMap};
use eb_schema::{Baked, BakedEntity};
use std::alloc::Global;

/// Whether an entity is new or not as it was.
fn is_changed(old: &Baked, name: &Name, entity: &BakedEntity) -> bool
    ensures { result ≡ spec.is_changed (get old.now name.now) entity.now }
{
    match old.get(name) {
        Some((place, row)) => {
            !(place == entity.place && same_lists(row.cells(), entity.row.cells()))
        }
        None => true,
    }
}

/// Notes a name, if it is to be noted.
fn note_if(out: &mut NameMap<()>, noted: bool, name: Name) -> Result<(), Memory>
    ensures { OnOk result (out.new ≡ spec.noted_if noted out.old name) }
{
    if noted {
        out.put(name, ())?;
    }
    Ok(())
}

/// Notes the entities that are new or not as they were.
fn note_changed(out: &mut NameMap<()>, old: &Baked, new: &Baked) -> Result<(), Memory>
    ensures { OnOk result (out.new ≡ fold (spec.with_changed old.now) out.old (entries new.now)) }
{
    for (name, entity) in new.iter() {
        note_if(out, is_changed(old, name, entity), *name)?;
    }
    Ok(())
}

/// Notes the entities that are gone.
fn note_gone(out: &mut NameMap<()>, old: &Baked, new: &Baked) -> Result<(), Memory>
    ensures { OnOk result (out.new ≡ fold (spec.with_gone new.now) out.old (entries old.now)) }
{
    for (name, _entity) in old.iter() {
        note_if(out, new.get(name).is_none(), *name)?;
    }
    Ok(())
}

/// The names in a set, ascending.
fn names_of(alloc: Global, set: &NameMap<()>) -> Result<Items<Name>, Memory>
    ensures { IfOk result (λ names. names ≡ keys set.now) }
{
    let mut names = Items::new(alloc);
    for (name, _unit) in set.iter() {
        names.push(*name)?;
    }
    Ok(names)
}

/// The names of the entities that two maps don't have alike, ascending.
#[tactic(auto, unfolding(crate::specs::Changed::changed_names))]
pub fn changed(alloc: Global, old: &Baked, new: &Baked) -> Result<Items<Name>, Memory>
    ensures { IfOk result (λ names. names ≡ spec.changed_names old.now new.now) }
{
    let mut set = NameMap::new(alloc);
    note_changed(&mut set, old, new)?;
    note_gone(&mut set, old, new)?;
    let names = names_of(alloc, &set)?;
    Ok(names)
}
