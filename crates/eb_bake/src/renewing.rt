// What rules make of a project, from nothing and after an edit.
ghost use Rattle.std.specs.Prelude.{◌≡◌, ◌+◌, ◌++◌, IfOk, OnOk, length};
ghost use Rattle.std.specs.FinMap.{len};
ghost use Rattle.eb_eval.specs.Runs.{runs_of};
ghost use Rattle.eb_rerun.specs.Again.{again, renewed};
ghost use Rattle.eb_rerun.specs.Recorded.{recorded};
ghost use Rattle.eb_bake.specs.Baking.{IsBake, issues_of, staged_of};
ghost use Rattle.eb_bake.specs.Changed.{changed_names};

use crate::changed::changed;
use crate::merging::merged;
use eb_base::{Items, Memory, Name, Steps};
use eb_eval::Issue;
use eb_record::Record;
use eb_rerun::{evaluate_project, renew_runs};
use eb_rules::Rules;
use eb_scene::{Key, Project};
use eb_system::{Stages, run_all};
use std::alloc::Global;
use std::sync::ledger::Ledger;

/// What rules make of a project.
#[derive(Drop)]
pub struct Bake {
    /// All runs of the project, and what came of each.
    pub runs: Record,
    /// The entities after all systems.
    pub stages: Stages,
    /// All that was left out, in the order in which it is listed.
    pub issues: Items<Issue>,
}

/// What an edit made anew.
#[derive(Drop)]
pub struct Rebaked {
    /// How many runs are new, or had looked at what the edit touched.
    pub rerun: u32,
    /// How many runs there are after the edit.
    pub runs: u32,
    /// The entities that are not as they were before the edit, ascending by name.
    pub changed: Items<Name>,
}

/// Lists these issues behind others.
fn put_issues(out: &mut Items<Issue>, issues: &[Issue]) -> Result<(), Memory>
    ensures { OnOk result (out.new ≡ out.old ++ issues.now) }
{
    for issue in issues {
        out.push(*issue)?;
    }
    Ok(())
}

/// What the systems make of what all runs of a project give together, where these are kept; and all that was left out.
#[tactic(auto, unfolding(crate::specs::Baking::staged_of, crate::specs::Baking::issues_of))]
fn staged(
    alloc: Global,
    rules: &Rules,
    project: &Project,
    kept: &Record,
) -> Result<(Stages, Items<Issue>), Memory>
    requires { kept.now ≡ recorded rules.now project.now }
    ensures stages { IfOk result (λ done. done.0 ≡ staged_of rules.now project.now) }
    ensures issues { IfOk result (λ done. done.1 ≡ issues_of rules.now project.now) }
{
    let (entities, mut issues) = merged(alloc, rules, project, kept)?.finish()?;
    let stages = run_all(alloc, rules, &entities)?;
    put_issues(&mut issues, stages.issues())?;
    Ok((stages, issues))
}

/// What rules make of a project: each run is evaluated once.
pub fn fresh<L: Ledger>(
    alloc: Global,
    rules: &Rules,
    project: &Project,
    steps: &mut Steps<L>,
) -> Result<Bake, Memory>
    ensures bake { IfOk result (λ bake. IsBake rules.now project.now bake) }
    ensures steps { OnOk result (steps.new ≡ steps.old + length (runs_of rules.now project.now)) }
{
    let runs = evaluate_project(alloc, rules, project, steps)?;
    let (stages, issues) = staged(alloc, rules, project, &runs)?;
    Ok(Bake {
        runs,
        stages,
        issues,
    })
}

/// A count of runs. One that no project has answers want of memory.
fn run_count(count: usize) -> Result<u32, Memory>
    ensures { IfOk result (λ counted. counted ≡ count) }
{
    u32::try_from(count).map_err(|_| Memory)
}

/// Brings what rules make of a project up to the project after an edit that touched these keys, and with which these
/// objects went: the runs that it made anew are evaluated, and no others. After want of memory it is of no use.
pub fn renew<L: Ledger>(
    bake: &mut Bake,
    alloc: Global,
    rules: &Rules,
    project: &Project,
    gone: &[(u8, u32)],
    touched: &[Key],
    steps: &mut Steps<L>,
) -> Result<Rebaked, Memory>
    requires { renewed bake.old.runs rules.now project.now gone.now touched.now ≡ recorded rules.now project.now }
    ensures bake { OnOk result (IsBake rules.now project.now bake.new) }
    ensures rerun { IfOk result (λ done. done.rerun ≡ length (again bake.old.runs rules.now project.now gone.now touched.now)) }
    ensures runs { IfOk result (λ done. done.runs ≡ len (recorded rules.now project.now)) }
    ensures changed { IfOk result (λ done. done.changed ≡ changed_names bake.old.stages.entities bake.new.stages.entities) }
    ensures steps { IfOk result (λ done. steps.new ≡ steps.old + done.rerun) }
{
    let ids = renew_runs(&mut bake.runs, alloc, rules, project, gone, touched, steps)?;
    let rerun = run_count(ids.len())?;
    let runs = run_count(bake.runs.len())?;
    let (stages, issues) = staged(alloc, rules, project, &bake.runs)?;
    let changed = changed(alloc, bake.stages.last(), stages.last())?;
    bake.stages = stages;
    bake.issues = issues;
    Ok(Rebaked {
        rerun,
        runs,
        changed,
    })
}
