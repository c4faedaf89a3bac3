// What a system does to one entity.
ghost use Rattle.std.specs.Prelude.{◌≡◌, ◌++◌, OnOk, IfOk, flat_map};
ghost use Rattle.std.specs.FinMap.{entries};
ghost use Rattle.eb_system.specs.Stages as spec;

use crate::before::Before;
use crate::filling::{Filled, fill};
use crate::matching::matches;
use crate::reads::SystemReads;
use crate::turns::{Turn, take_turn};
use eb_base::{Items, Memory, Name, Place, TypeNo};
use eb_eval::Issue;
use eb_meaning::RunFault;
use eb_rules::SystemPlan;
use eb_schema::{Baked, BakedEntity, Row};
use std::alloc::Global;

/// The new row of an entity.
#[derive(Drop)]
pub struct Change {
    /// The name of the entity.
    pub name: Name,
    /// Its place.
    pub place: Place,
    /// Its row after the system.
    pub row: Row,
}

/// What a system does to entities.
#[derive(Drop)]
pub struct Effects {
    /// The entities that it changes.
    pub changes: Items<Change>,
    /// What it left out.
    pub issues: Items<Issue>,
}

/// Lists the fault of a system on an entity, if there is one.
fn put_fault(
    issues: &mut Items<Issue>,
    system: u8,
    name: Name,
    fault: Option<RunFault>,
) -> Result<(), Memory>
    ensures { OnOk result (issues.new ≡ issues.old ++ spec.fault_issues system name fault) }
{
    match fault {
        Some(fault) => {
            issues.push(Issue::System {
                system,
                name,
                fault,
            })?;
            Ok(())
        }
        None => Ok(()),
    }
}

/// Lists the fault of a system on an entity, and then the types that it left out.
fn put_left_out(
    issues: &mut Items<Issue>,
    system: u8,
    name: Name,
    fault: Option<RunFault>,
    left: &[TypeNo],
) -> Result<(), Memory>
    ensures { OnOk result (issues.new ≡ issues.old ++ spec.left_out system name fault left.now) }
{
    put_fault(issues, system, name, fault)?;
    for kind in left {
        let kind = *kind;
        issues.push(Issue::SystemTooMany { system, name, kind })?;
    }
    Ok(())
}

/// What a turn does to an entity: its new row, where something was added and there is no fault, and what was left out.
fn put_turn(
    out: &mut Effects,
    alloc: Global,
    system: u8,
    name: Name,
    entity: &BakedEntity,
    turn: Turn,
) -> Result<(), Memory>
    ensures changes { OnOk result (out.new.changes ≡ out.old.changes ++ spec.changes_by (name, entity.now) turn) }
    ensures issues { OnOk result (out.new.issues ≡ out.old.issues ++ spec.issues_by system (name, entity.now) turn) }
{
    let Turn { added, fault } = turn;
    if added.is_empty() {
        put_fault(&mut out.issues, system, name, fault)?;
        return Ok(());
    }
    let Filled { row, left } = fill(alloc, &entity.row, added)?;
    put_left_out(&mut out.issues, system, name, fault, left.items())?;
    if fault.is_none() {
        let place = entity.place;
        out.changes.push(Change { name, place, row })?;
    }
    Ok(())
}

/// What a system does to an entity: nothing, where its query doesn't match.
fn put_effects(
    out: &mut Effects,
    alloc: Global,
    before: &Before,
    system: &SystemPlan,
    name: Name,
    entity: &BakedEntity,
) -> Result<(), Memory>
    ensures changes { OnOk result (out.new.changes ≡ out.old.changes ++ spec.changes_at before.now system.now (name, entity.now)) }
    ensures issues { OnOk result (out.new.issues ≡ out.old.issues ++ spec.issues_at before.now system.now (name, entity.now)) }
{
    if !matches(&system.query, &entity.row) {
        return Ok(());
    }
    let row = &entity.row;
    let reads = SystemReads { before, name, row };
    let turn = take_turn(alloc, &reads, system.body.as_slice())?;
    put_turn(out, alloc, system.number, name, entity, turn)?;
    Ok(())
}

/// What a system does to all entities, each evaluated on the entities as they are.
pub fn effects_of(alloc: Global, entities: &Baked, system: &SystemPlan) -> Result<Effects, Memory>
    ensures changes { IfOk result (λ done. done.changes ≡ flat_map (spec.changes_at entities.now system.now) (entries entities.now)) }
    ensures issues { IfOk result (λ done. done.issues ≡ flat_map (spec.issues_at entities.now system.now) (entries entities.now)) }
{
    let before = Before::of(alloc, entities, system.body.as_slice())?;
    let mut done = Effects {
        changes: Items::new(alloc),
        issues: Items::new(alloc),
    };
    for (name, entity) in entities.iter() {
        put_effects(&mut done, alloc, &before, system, *name, entity)?;
    }
    Ok(done)
}
