// What one run gives: to its object's own entity, as extras, and its fault.
ghost use Rattle.std.specs.Prelude.{◌≡◌, ◌++◌, OnOk};
ghost use Rattle.eb_merge.specs.Objects.{fault_of, outputs_of, own_after_output, own_after_run, with_extra, with_extras};

use crate::own_cells::OwnCells;
use eb_base::{Items, Memory, Place};
use eb_eval::{Issue, Outcome, Output, Run, RunId};
use eb_schema::Baked;
use std::alloc::Global;

/// What a run gives: nothing where it has a fault. Takes no memory.
fn outputs_of(run: &Run) -> &[Output]
    ensures { result.now ≡ outputs_of run.now.outcome }
{
    match run.outcome() {
        Outcome::Made(outputs) => outputs.items(),
        Outcome::Fault(_) => &[],
    }
}

/// What an output gives the object's own entity.
fn give_output(own: &mut OwnCells, alloc: Global, baker: u8, output: &Output) -> Result<(), Memory>
    ensures { OnOk result (own.new ≡ own_after_output baker own.old output.now) }
{
    if output.name.extra == 0 {
        own.give_row(alloc, baker, &output.row)?;
    }
    Ok(())
}

/// What a run, of a higher baker than those before, gives its object's own entity.
pub fn give_run(own: &mut OwnCells, alloc: Global, id: RunId, run: &Run) -> Result<(), Memory>
    ensures { OnOk result (own.new ≡ own_after_run own.old (id, run.now)) }
{
    for output in outputs_of(run) {
        give_output(own, alloc, id.baker, output)?;
    }
    Ok(())
}

/// Puts an extra entity.
fn put_extra(
    entities: &mut Baked,
    alloc: Global,
    place: Place,
    output: &Output,
) -> Result<(), Memory>
    ensures { OnOk result (entities.new ≡ with_extra place entities.old output.now) }
{
    if output.name.extra != 0 {
        let row = output.row.copy(alloc)?;
        entities.put(output.name, place, row)?;
    }
    Ok(())
}

/// Puts the extra entities of a run.
pub fn put_extras(
    entities: &mut Baked,
    alloc: Global,
    place: Place,
    run: &Run,
) -> Result<(), Memory>
    ensures { OnOk result (entities.new ≡ with_extras place entities.old run.now) }
{
    for output in outputs_of(run) {
        put_extra(entities, alloc, place, output)?;
    }
    Ok(())
}

/// Lists the fault of a run, if it has one.
pub fn put_fault(out: &mut Items<Issue>, id: RunId, run: &Run) -> Result<(), Memory>
    ensures { OnOk result (out.new ≡ out.old ++ fault_of (id, run.now)) }
{
    match run.outcome() {
        Outcome::Made(_) => Ok(()),
        Outcome::Fault(fault) => {
            let fault = *fault;
            out.push(Issue::Fault { id, fault })?;
            Ok(())
        }
    }
}
