// Which runs a project has.
ghost use Rattle.std.specs.Prelude.{◌≡◌, ◌==◌, ◌∷◌, [], ◌++◌, Some, IfOk, OnOk};
ghost use Rattle.std.specs.List.{list_any};
ghost use Rattle.eb_eval.specs.Copying.{is_copied};
ghost use Rattle.eb_eval.specs.Runs.{bakes, bakes_where, id_of, is_run, most_bakers, object_runs, parts_in, runs_by};

use crate::ids::RunId;
use crate::runs::baker_of;
use eb_base::{AuthorNo, Items, Memory};
use eb_rules::{BakerPlan, Rules};
use eb_scene::{Part, Project};
use eb_schema::Schema;
use std::alloc::Global;

/// How many bakers there may be: the copy baker and the bakers 1 to 64.
#[tactic(auto, unfolding(crate::specs::Runs::most_bakers))]
fn most_bakers() -> u8
    ensures { result ≡ most_bakers }
{
    65
}

// The components of an object, none where it isn't there.
fn parts_of(project: &Project, scene: u8, object: u32) -> &[Part]
    ensures { result.now ≡ parts_in project.now scene object }
{
    match project.object(scene, object) {
        Some(object) => object.components.items(),
        None => &[],
    }
}

// Whether components of an authoring type are copied.
fn is_copied(schema: &Schema, kind: AuthorNo) -> bool
    ensures { result ≡ is_copied schema.now kind }
{
    match schema.authoring(kind) {
        Some(authoring) => authoring.copy.is_some(),
        None => false,
    }
}

// Whether one of these components is copied.
fn has_copied(schema: &Schema, parts: &[Part]) -> bool
    ensures { result ≡ list_any (λ p. is_copied schema.now p.kind) parts.now }
{
    for part in parts {
        if is_copied(schema, part.kind) {
            return true;
        }
    }
    false
}

// Whether a baker bakes an object with these components: one is of its type.
fn bakes(plan: &BakerPlan, parts: &[Part]) -> bool
    ensures { result ≡ bakes (Some plan.now) parts.now }
{
    for part in parts {
        if part.kind == plan.authoring {
            return true;
        }
    }
    false
}

// Whether the baker of a number, or the copy baker, bakes an object with these components.
fn bakes_parts(rules: &Rules, baker: u8, parts: &[Part]) -> bool
    ensures { result ≡ bakes_where (baker == 0) rules.now baker parts.now }
{
    if baker == 0 {
        return has_copied(rules.schema(), parts);
    }
    match baker_of(rules, baker) {
        Some(plan) => bakes(plan, parts),
        None => false,
    }
}

/// Whether a project has a run. Takes no memory. `docs/baking.md`, "Runs".
pub fn is_run(rules: &Rules, project: &Project, id: RunId) -> bool
    ensures { result ≡ is_run rules.now project.now id }
{
    bakes_parts(rules, id.baker, parts_of(project, id.scene, id.object))
}

// The run of a baker on an object, if the project has it, behind those before.
fn push_run(
    rules: &Rules,
    project: &Project,
    id: RunId,
    runs: &mut Items<RunId>,
) -> Result<(), Memory>
    ensures { OnOk result (runs.new ≡ runs.old ++ runs_by rules.now project.now id.scene id.object (id.baker ∷ [])) }
{
    if is_run(rules, project, id) {
        runs.push(id)?;
    }
    Ok(())
}

/// The runs of an object, ascending by baker; none where it isn't there. `docs/baking.md`, "Runs".
pub fn object_runs(
    alloc: Global,
    rules: &Rules,
    project: &Project,
    scene: u8,
    object: u32,
) -> Result<Items<RunId>, Memory>
    ensures { IfOk result (λ runs. runs ≡ object_runs rules.now project.now scene object) }
{
    let mut runs = Items::new(alloc);
    for baker in 0..most_bakers() {
        let id = RunId {
            scene,
            object,
            baker,
        };
        push_run(rules, project, id, &mut runs)?;
    }
    Ok(runs)
}
