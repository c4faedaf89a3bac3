// The copy baker: what it looks at, and the cells that it makes.
ghost use Rattle.std.specs.Prelude.{◌≡◌, Some, OnOk, IfOk};
ghost use Rattle.eb_scene.specs.Answers.{answer};
ghost use Rattle.eb_meaning.specs.Asks.{run, Gives};
ghost use Rattle.eb_eval.specs.Copying.{val_where, copied, copied_all, copied_part, copied_type, copied_types};

use crate::entities::own_entity;
use crate::ids::RunId;
use eb_base::{AuthorNo, Items, Memory, TypeNo};
use eb_scene::{Given, Key, Project};
use eb_schema::{Authoring, Cell, Val};
use std::alloc::Global;

// A copied reference: to the object's own entity where the object is there, and else to none.
fn val_where(there: bool, scene: u8, object: u32) -> Val
    ensures { result ≡ val_where there scene object }
{
    if there {
        Val::To(own_entity(scene, object))
    } else {
        Val::Null
    }
}

// A value as it is copied.
fn copied(project: &Project, noted: &mut Items<Key>, scene: u8, value: Given) -> Result<Val, Memory>
    ensures { IfOk result (λ copy. run (answer project.now) (copied scene value) noted.old ≡ Gives copy noted.new) }
{
    match value {
        Given::Num(number) => Ok(Val::Num(number)),
        Given::Object(object) => {
            noted.push(Key::Exists { scene, object })?;
            let there = project.object(scene, object).is_some();
            Ok(val_where(there, scene, object))
        }
        Given::Asset(_) => Ok(Val::Null),
        Given::Null => Ok(Val::Null),
    }
}

// Values as they are copied, behind those before.
fn copied_all(
    project: &Project,
    noted: &mut Items<Key>,
    scene: u8,
    values: &[Given],
    have: &mut Items<Val>,
) -> Result<(), Memory>
    ensures { OnOk result (run (answer project.now) (copied_all scene values.now have.old) noted.old ≡ Gives have.new noted.new) }
{
    for value in values {
        let copy = copied(project, noted, scene, *value)?;
        have.push(copy)?;
    }
    Ok(())
}

// A component as a cell, behind those before.
fn copied_part(
    alloc: Global,
    project: &Project,
    noted: &mut Items<Key>,
    scene: u8,
    kind: TypeNo,
    values: &[Given],
    cells: &mut Items<Cell>,
) -> Result<(), Memory>
    ensures { OnOk result (run (answer project.now) (copied_part scene kind (Some values.now) cells.old) noted.old ≡ Gives cells.new noted.new) }
{
    let mut copies = Items::new(alloc);
    copied_all(project, noted, scene, values, &mut copies)?;
    cells.push(Cell {
        kind,
        values: copies,
    })?;
    Ok(())
}

// The component of an authoring type that is copied to another one.
fn copied_to(
    alloc: Global,
    project: &Project,
    noted: &mut Items<Key>,
    id: RunId,
    kind: AuthorNo,
    copy: TypeNo,
    cells: &mut Items<Cell>,
) -> Result<(), Memory>
    ensures { OnOk result (run (answer project.now) (copied_type id kind (Some copy) cells.old) noted.old ≡ Gives cells.new noted.new) }
{
    let RunId { scene, object, .. } = id;
    noted.push(Key::Comp {
        scene,
        object,
        kind,
    })?;
    match project.component(scene, object, kind) {
        Some(part) => {
            let values = part.values.items();
            copied_part(alloc, project, noted, scene, copy, values, cells)?;
            Ok(())
        }
        None => Ok(()),
    }
}

// The component of an authoring type, if the type has a copy.
fn copied_type(
    alloc: Global,
    project: &Project,
    noted: &mut Items<Key>,
    id: RunId,
    authoring: &Authoring,
    cells: &mut Items<Cell>,
) -> Result<(), Memory>
    ensures { OnOk result (run (answer project.now) (copied_type id authoring.now.number authoring.now.copy cells.old) noted.old ≡ Gives cells.new noted.new) }
{
    match authoring.copy {
        Some(copy) => {
            copied_to(alloc, project, noted, id, authoring.number, copy, cells)?;
            Ok(())
        }
        None => Ok(()),
    }
}

/// The cells of the copy baker on an object: each authoring type with a copy is looked at, also those that the object lacks.
pub fn copied_types(
    alloc: Global,
    project: &Project,
    noted: &mut Items<Key>,
    id: RunId,
    types: &[Authoring],
    cells: &mut Items<Cell>,
) -> Result<(), Memory>
    ensures { OnOk result (run (answer project.now) (copied_types id types.now cells.old) noted.old ≡ Gives cells.new noted.new) }
{
    for authoring in types {
        copied_type(alloc, project, noted, id, authoring, cells)?;
    }
    Ok(())
}
