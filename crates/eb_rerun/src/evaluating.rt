// The runs of a project, and their evaluation.
ghost use Rattle.std.specs.Prelude.{◌≡◌, ◌+◌, ◌++◌, IfOk, OnOk, fold, length};
ghost use Rattle.eb_eval.specs.Runs as runs;
ghost use Rattle.eb_rerun.specs.Recorded.{recorded, with_run};

use eb_base::{Items, Memory, Steps};
use eb_eval::{RunId, object_runs, run_baker};
use eb_record::Record;
use eb_rules::Rules;
use eb_scene::Project;
use std::alloc::Global;
use std::sync::ledger::Ledger;

/// Lists the runs of the objects of a scene, behind others.
fn put_scene_runs(
    out: &mut Items<RunId>,
    alloc: Global,
    rules: &Rules,
    project: &Project,
    scene: u8,
) -> Result<(), Memory>
    ensures { OnOk result (out.new ≡ out.old ++ runs.scene_runs rules.now project.now scene) }
{
    for object in project.objects(scene) {
        out.append(&mut object_runs(alloc, rules, project, scene, *object)?)?;
    }
    Ok(())
}

/// The runs of a project, ascending by scene, object and baker.
pub fn runs_of(alloc: Global, rules: &Rules, project: &Project) -> Result<Items<RunId>, Memory>
    ensures { IfOk result (λ ids. ids ≡ runs.runs_of rules.now project.now) }
{
    let mut out = Items::new(alloc);
    for scene in project.scenes()? {
        put_scene_runs(&mut out, alloc, rules, project, scene)?;
    }
    Ok(out)
}

/// Evaluates these runs of a project, each once, and keeps what comes of them.
pub fn evaluate_all<L: Ledger>(
    kept: &mut Record,
    alloc: Global,
    rules: &Rules,
    project: &Project,
    ids: &[RunId],
    steps: &mut Steps<L>,
) -> Result<(), Memory>
    ensures kept { OnOk result (kept.new ≡ fold (with_run rules.now project.now) kept.old ids.now) }
    ensures steps { OnOk result (steps.new ≡ steps.old + length ids.now) }
{
    for id in ids {
        let run = run_baker(alloc, rules, project, *id, steps)?;
        kept.put(*id, run)?;
    }
    Ok(())
}

/// What came of all runs of a project, each evaluated once.
#[tactic(auto, unfolding(crate::specs::Recorded::recorded))]
pub fn evaluate_project<L: Ledger>(
    alloc: Global,
    rules: &Rules,
    project: &Project,
    steps: &mut Steps<L>,
) -> Result<Record, Memory>
    ensures kept { IfOk result (λ kept. kept ≡ recorded rules.now project.now) }
    ensures steps { OnOk result (steps.new ≡ steps.old + length (runs.runs_of rules.now project.now)) }
{
    let ids = runs_of(alloc, rules, project)?;
    let mut kept = Record::open(alloc);
    evaluate_all(&mut kept, alloc, rules, project, ids.items(), steps)?;
    Ok(kept)
}
