// The runs that an edit evaluates and those that it takes away.
ghost use Rattle.std.specs.Prelude.{◌≡◌, ◌+◌, IfOk, OnOk, fold, length, map};
ghost use Rattle.std.specs.FinMap.{entries};
ghost use Rattle.eb_rerun.specs.Again as spec;

use crate::evaluating::evaluate_all;
use crate::near::around;
use eb_base::{Items, Memory, NameMap, Steps};
use eb_eval::{RunId, is_run};
use eb_record::{Record, run_name};
use eb_rules::Rules;
use eb_scene::{Key, Project};
use std::alloc::Global;
use std::sync::ledger::Ledger;

/// Puts those of these runs that the project has.
fn put_present(
    out: &mut NameMap<RunId>,
    rules: &Rules,
    project: &Project,
    ids: &[RunId],
) -> Result<(), Memory>
    ensures { OnOk result (out.new ≡ fold (spec.with_present rules.now project.now) out.old ids.now) }
{
    for id in ids {
        if is_run(rules, project, *id) {
            out.put(run_name(*id), *id)?;
        }
    }
    Ok(())
}

/// Puts those of these runs that the project has and that aren't kept.
fn put_new(
    out: &mut NameMap<RunId>,
    kept: &Record,
    rules: &Rules,
    project: &Project,
    ids: &[RunId],
) -> Result<(), Memory>
    ensures { OnOk result (out.new ≡ fold (spec.with_new kept.now rules.now project.now) out.old ids.now) }
{
    for id in ids {
        if kept.run(*id).is_none() && is_run(rules, project, *id) {
            out.put(run_name(*id), *id)?;
        }
    }
    Ok(())
}

/// The runs of a set, ascending.
fn ids_of(alloc: Global, set: &NameMap<RunId>) -> Result<Items<RunId>, Memory>
    ensures { IfOk result (λ ids. ids ≡ map (λ e. e.1) (entries set.now)) }
{
    let mut ids = Items::new(alloc);
    for (_name, id) in set.iter() {
        ids.push(*id)?;
    }
    Ok(ids)
}

/// The runs to be evaluated: of those that looked at what was touched those that are still there, and of those around it the
/// new ones.
fn chosen(
    alloc: Global,
    kept: &Record,
    rules: &Rules,
    project: &Project,
    read: &[RunId],
    near: &[RunId],
) -> Result<Items<RunId>, Memory>
    ensures { IfOk result (λ ids. ids ≡ map (λ e. e.1) (entries (spec.chosen kept.now rules.now project.now read.now near.now))) }
{
    let mut set = NameMap::new(alloc);
    put_present(&mut set, rules, project, read)?;
    put_new(&mut set, kept, rules, project, near)?;
    let ids = ids_of(alloc, &set)?;
    Ok(ids)
}

/// Takes these runs away.
fn undo_all(kept: &mut Record, ids: &[RunId])
    ensures { kept.new ≡ fold spec.undone kept.old ids.now }
{
    for id in ids {
        kept.undo(*id);
    }
}

/// Takes those of these runs away that the project hasn't.
fn undo_gone(kept: &mut Record, rules: &Rules, project: &Project, ids: &[RunId])
    ensures { kept.new ≡ fold (spec.undone_if_gone rules.now project.now) kept.old ids.now }
{
    for id in ids {
        if !is_run(rules, project, *id) {
            kept.undo(*id);
        }
    }
}

/// Brings the runs that are kept up to the project after an edit that touched these keys, and with which these objects went
/// that stood in one scene; and answers those that were evaluated for it.
#[tactic(auto, unfolding(crate::specs::Again::again, crate::specs::Again::renewed))]
pub fn renew_runs<L: Ledger>(
    kept: &mut Record,
    alloc: Global,
    rules: &Rules,
    project: &Project,
    gone: &[(u8, u32)],
    keys: &[Key],
    steps: &mut Steps<L>,
) -> Result<Items<RunId>, Memory>
    ensures again { IfOk result (λ ids. ids ≡ spec.again kept.old rules.now project.now gone.now keys.now) }
    ensures kept { OnOk result (kept.new ≡ spec.renewed kept.old rules.now project.now gone.now keys.now) }
    ensures steps { IfOk result (λ ids. steps.new ≡ steps.old + length ids) }
{
    let read = kept.runs_of(alloc, keys)?;
    let near = around(alloc, gone, keys)?;
    let ids = chosen(alloc, kept, rules, project, read.items(), near.items())?;
    undo_all(kept, read.items());
    undo_gone(kept, rules, project, near.items());
    evaluate_all(kept, alloc, rules, project, ids.items(), steps)?;
    Ok(ids)
}
