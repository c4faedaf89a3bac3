// What the runs of objects give together, by the runs that are kept.
ghost use Rattle.std.specs.Prelude.{◌≡◌, IfOk, OnOk, fold};
ghost use Rattle.eb_merge.specs.Objects.{own_after_run, own_standing, with_object, with_run};
ghost use Rattle.eb_rerun.specs.Recorded.{recorded, scene_objects};
ghost use Rattle.eb_bake.specs.Baking as spec;
ghost use Rattle.eb_bake.specs.Recalled.{kept_run, kept_runs};

use eb_base::{Memory, Name, Place};
use eb_eval::{RunId, object_runs, own_entity};
use eb_merge::{Merged, OwnCells, give_run};
use eb_record::Record;
use eb_rules::Rules;
use eb_scene::Project;
use std::alloc::Global;

/// The section that the entities of an object lie in.
fn place_of(project: &Project, scene: u8, object: u32) -> Place
    ensures { result ≡ spec.place_of project.now (scene, object) }
{
    let section = project.section_of(scene, object).unwrap_or(0);
    Place { scene, section }
}

/// What a run gives its object's own entity, if it is kept.
fn give_kept(own: &mut OwnCells, alloc: Global, kept: &Record, id: RunId) -> Result<(), Memory>
    ensures { OnOk result (own.new ≡ fold own_after_run own.old (kept_run kept.now id)) }
{
    match kept.run(id) {
        Some(run) => give_run(own, alloc, id, run),
        None => Ok(()),
    }
}

/// What stands on the own entity of an object that has these runs.
fn own_of(alloc: Global, kept: &Record, ids: &[RunId]) -> Result<OwnCells, Memory>
    ensures { IfOk result (λ own. own ≡ own_standing (kept_runs kept.now ids.now)) }
{
    let mut own = OwnCells::open(alloc);
    for id in ids {
        give_kept(&mut own, alloc, kept, *id)?;
    }
    Ok(own)
}

/// Adds the extras of a run and its fault, if it is kept.
fn add_kept(
    merged: &mut Merged,
    alloc: Global,
    place: Place,
    kept: &Record,
    id: RunId,
) -> Result<(), Memory>
    ensures { OnOk result (merged.new ≡ fold (with_run place) merged.old (kept_run kept.now id)) }
{
    match kept.run(id) {
        Some(run) => merged.add_run(alloc, place, id, run),
        None => Ok(()),
    }
}

/// Adds the extras of these runs and their faults.
fn add_runs(
    merged: &mut Merged,
    alloc: Global,
    place: Place,
    kept: &Record,
    ids: &[RunId],
) -> Result<(), Memory>
    ensures { OnOk result (merged.new ≡ fold (with_run place) merged.old (kept_runs kept.now ids.now)) }
{
    for id in ids {
        add_kept(merged, alloc, place, kept, *id)?;
    }
    Ok(())
}

/// Adds what these runs give: to the own entity of their object, and as extras, in the section of this place.
fn add_all(
    merged: &mut Merged,
    alloc: Global,
    own: Name,
    place: Place,
    kept: &Record,
    ids: &[RunId],
) -> Result<(), Memory>
    ensures { OnOk result (merged.new ≡ with_object merged.old own place (kept_runs kept.now ids.now)) }
{
    let cells = own_of(alloc, kept, ids)?;
    merged.add_own(alloc, own, place, cells)?;
    add_runs(merged, alloc, place, kept, ids)?;
    Ok(())
}

/// Adds what the runs of an object give.
#[tactic(auto, using(crate::proofs::RunFacts::object_merged))]
fn add_object(
    merged: &mut Merged,
    alloc: Global,
    rules: &Rules,
    project: &Project,
    kept: &Record,
    scene: u8,
    object: u32,
) -> Result<(), Memory>
    requires { kept.now ≡ recorded rules.now project.now }
    ensures { OnOk result (merged.new ≡ spec.with_object_of rules.now project.now merged.old (scene, object)) }
{
    let ids = object_runs(alloc, rules, project, scene, object)?;
    let own = own_entity(scene, object);
    let place = place_of(project, scene, object);
    add_all(merged, alloc, own, place, kept, ids.items())?;
    Ok(())
}

/// Adds what the runs of the objects of a scene give.
fn add_scene(
    merged: &mut Merged,
    alloc: Global,
    rules: &Rules,
    project: &Project,
    kept: &Record,
    scene: u8,
) -> Result<(), Memory>
    requires { kept.now ≡ recorded rules.now project.now }
    ensures { OnOk result (merged.new ≡ fold (spec.with_object_of rules.now project.now) merged.old (scene_objects project.now scene)) }
{
    for object in project.objects(scene) {
        add_object(merged, alloc, rules, project, kept, scene, *object)?;
    }
    Ok(())
}

/// What all runs of a project give together, where they are kept.
pub fn merged(
    alloc: Global,
    rules: &Rules,
    project: &Project,
    kept: &Record,
) -> Result<Merged, Memory>
    requires { kept.now ≡ recorded rules.now project.now }
    ensures { IfOk result (λ merged. merged ≡ spec.merged_of rules.now project.now) }
{
    let mut merged = Merged::open(alloc);
    for scene in project.scenes()? {
        add_scene(&mut merged, alloc, rules, project, kept, scene)?;
    }
    Ok(merged)
}
