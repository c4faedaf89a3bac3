// The runs that an edit may make or take away: those of the objects that go with a scene, and of those that touched keys are of.
ghost use Rattle.std.specs.Prelude.{◌≡◌, ◌++◌, IfOk, OnOk, map, flat_map};
ghost use Rattle.eb_eval.specs.Runs.{all_bakers, id_of, most_bakers};
ghost use Rattle.eb_scene.specs.Projects.{objects_of};
ghost use Rattle.std.specs.Map.{keys_of};
ghost use Rattle.eb_rerun.specs.Again as spec;
ghost use Rattle.eb_rerun.specs.Recorded.{scene_objects};

use eb_base::{Items, Memory};
use eb_eval::RunId;
use eb_scene::{Edit, Key, Project};
use std::alloc::Global;

/// The object that a key is of, none of an asset.
fn object_of(key: &Key) -> Option<(u8, u32)>
    ensures { result ≡ spec.object_of key.now }
{
    match *key {
        Key::Comp { scene, object, .. } => Some((scene, object)),
        Key::Parent { scene, object } => Some((scene, object)),
        Key::Children { scene, object } => Some((scene, object)),
        Key::Exists { scene, object } => Some((scene, object)),
        Key::Asset { .. } => None,
    }
}

/// Whether an object stands last.
fn is_last(objects: &[(u8, u32)], object: (u8, u32)) -> bool
    ensures { result ≡ spec.is_last (spec.last_of objects.now) object }
{
    match objects.last() {
        Some(last) => last.0 == object.0 && last.1 == object.1,
        None => false,
    }
}

/// Puts an object, unless it stands last.
fn put_object(out: &mut Items<(u8, u32)>, object: Option<(u8, u32)>) -> Result<(), Memory>
    ensures { OnOk result (out.new ≡ spec.with_object out.old object) }
{
    match object {
        Some(object) => {
            if !is_last(out.items(), object) {
                out.push(object)?;
            }
            Ok(())
        }
        None => Ok(()),
    }
}

/// The objects that keys are of; one that comes several times in a row stands there once.
fn objects_of_keys(alloc: Global, keys: &[Key]) -> Result<Items<(u8, u32)>, Memory>
    ensures { IfOk result (λ objects. objects ≡ spec.objects_of_keys keys.now) }
{
    let mut out = Items::new(alloc);
    for key in keys {
        put_object(&mut out, object_of(key))?;
    }
    Ok(out)
}

/// How many bakers there may be: the copy baker and the bakers 1 to 64.
fn most_bakers() -> u8
    ensures { result ≡ most_bakers }
{
    65
}

/// Lists a run of an object by each baker that there may be, behind others.
fn put_runs_around(out: &mut Items<RunId>, scene: u8, object: u32) -> Result<(), Memory>
    ensures { OnOk result (out.new ≡ out.old ++ map (id_of scene object) all_bakers) }
{
    for baker in 0..most_bakers() {
        out.push(RunId {
            scene,
            object,
            baker,
        })?;
    }
    Ok(())
}

/// Lists the runs of objects by each baker that there may be, behind others.
fn put_all_around(out: &mut Items<RunId>, objects: &[(u8, u32)]) -> Result<(), Memory>
    ensures { OnOk result (out.new ≡ out.old ++ flat_map spec.runs_around objects.now) }
{
    for object in objects {
        put_runs_around(out, object.0, object.1)?;
    }
    Ok(())
}

/// The objects of a scene.
fn scene_objects(alloc: Global, project: &Project, scene: u8) -> Result<Items<(u8, u32)>, Memory>
    ensures { IfOk result (λ objects. objects ≡ scene_objects project.now scene) }
{
    let mut out = Items::new(alloc);
    for object in project.objects(scene) {
        out.push((scene, *object))?;
    }
    Ok(out)
}

/// The objects that go with a scene that an edit of the project removes, none where it removes none.
pub fn scene_gone(alloc: Global, project: &Project, edit: &Edit) -> Result<Items<(u8, u32)>, Memory>
    ensures { IfOk result (λ objects. objects ≡ spec.scene_gone project.now edit.now) }
{
    match edit {
        Edit::RemoveScene { scene } => scene_objects(alloc, project, *scene),
        _ => Ok(Items::new(alloc)),
    }
}

/// All runs that an edit may make or take away: those of the objects that go with a scene, and of those that touched keys
/// are of.
pub fn around(alloc: Global, gone: &[(u8, u32)], keys: &[Key]) -> Result<Items<RunId>, Memory>
    ensures { IfOk result (λ ids. ids ≡ spec.around gone.now keys.now) }
{
    let mut out = Items::new(alloc);
    put_all_around(&mut out, gone)?;
    put_all_around(&mut out, objects_of_keys(alloc, keys)?.items())?;
    Ok(out)
}
