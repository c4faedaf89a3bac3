// One run, from the rules and a project to what it looks at and gives.
ghost use Rattle.std.specs.Prelude.{◌≡◌, ◌+◌, [], Some, IfOk, OnOk, OnErr, option_copied};
ghost use Rattle.eb_scene.specs.Answers.{answer};
ghost use Rattle.eb_meaning.specs.Asks.{GoesTo, run, asked};
ghost use Rattle.eb_meaning.specs.declared.values.Stop.TheVariants as stop;
ghost use Rattle.eb_eval.specs.Runs.{plan_of, baker_of, baker_asks, bakes, bakes_where, nothing, run_asks, is_run, parts_in, outcome_of_run, reads_of_run};
ghost use Rattle.eb_eval.specs.Copying.{is_copied, copy_asks};
ghost use Rattle.std.specs.List.{list_any};

use crate::copying::copied_types;
use crate::ids::RunId;
use crate::key_order::in_order;
use crate::outcomes::Outcome;
use crate::outputs::outputs;
use crate::sealed::{Run, Sealed};
use crate::sights::RunReads;
use eb_base::{AuthorNo, Items, Memory, Steps};
use eb_meaning::{RunFault, Scope, Stop, act_all};
use eb_rules::{BakerPlan, Rules};
use eb_scene::{Key, Part, Project};
use eb_schema::Schema;
use std::alloc::Global;
use std::sync::ledger::Ledger;

/// The baker of a number, if there is one.
#[tactic(auto, unfolding(crate::specs::Runs::plan_of))]
pub(crate) fn baker_of(rules: &Rules, baker: u8) -> Option<&BakerPlan>
    ensures { option_copied result ≡ baker_of rules.now baker }
{
    rules.resolved().baker(baker)
}

// The copy baker on an object.
fn copy(
    alloc: Global,
    schema: &Schema,
    project: &Project,
    noted: &mut Items<Key>,
    id: RunId,
    scope: &mut Scope,
) -> Result<(), Stop>
    requires { scope.old ≡ nothing }
    ensures { GoesTo (run (answer project.now) (copy_asks schema.now id) noted.old) result scope.new noted.new }
{
    let mut cells = Items::new(alloc);
    let types = schema.authoring_types();
    copied_types(alloc, project, noted, id, types, &mut cells)?;
    scope.own = cells;
    Ok(())
}

// A baker on an object: first its component of the baker's type, and then the statements.
fn bake(
    alloc: Global,
    plan: &BakerPlan,
    project: &Project,
    noted: &mut Items<Key>,
    id: RunId,
    scope: &mut Scope,
) -> Result<(), Stop>
    requires { scope.old ≡ nothing }
    ensures { GoesTo (run (answer project.now) (baker_asks id (Some plan.now)) noted.old) result scope.new noted.new }
{
    let RunId { scene, object, .. } = id;
    let own = plan.authoring;
    noted.push(Key::Comp {
        scene,
        object,
        kind: own,
    })?;
    let reads = RunReads {
        alloc,
        project,
        id,
        own,
    };
    act_all(alloc, &reads, noted, scope, plan.body.as_slice())?;
    Ok(())
}

// What a run does.
fn act(
    alloc: Global,
    rules: &Rules,
    project: &Project,
    noted: &mut Items<Key>,
    id: RunId,
    scope: &mut Scope,
) -> Result<(), Stop>
    requires { scope.old ≡ nothing }
    ensures { GoesTo (run (answer project.now) (run_asks rules.now id) noted.old) result scope.new noted.new }
{
    if id.baker == 0 {
        copy(alloc, rules.schema(), project, noted, id, scope)?;
        return Ok(());
    }
    match baker_of(rules, id.baker) {
        Some(plan) => {
            bake(alloc, plan, project, noted, id, scope)?;
            Ok(())
        }
        None => Ok(()),
    }
}

// The fault at which an evaluation stopped.
fn fault_of(why: Stop) -> Result<RunFault, Memory>
    ensures { IfOk result (λ fault. why ≡ stop.Fault fault) }
{
    match why {
        Stop::Fault(fault) => Ok(fault),
        Stop::Memory => Err(Memory),
    }
}

// What comes of a run, and in `noted` the keys that it looked at, in the order in which it did.
fn outcome_of(
    alloc: Global,
    rules: &Rules,
    project: &Project,
    noted: &mut Items<Key>,
    id: RunId,
) -> Result<Outcome, Memory>
    requires { noted.old ≡ [] }
    ensures outcome { IfOk result (λ x. x ≡ outcome_of_run project.now rules.now id) }
    ensures noted { OnOk result (noted.new ≡ asked (answer project.now) (run_asks rules.now id)) }
{
    let mut scope = Scope {
        names: Items::new(alloc),
        own: Items::new(alloc),
        extras: Items::new(alloc),
    };
    match act(alloc, rules, project, noted, id, &mut scope) {
        Ok(()) => Ok(Outcome::Made(outputs(alloc, id, scope)?)),
        Err(stop) => Ok(Outcome::Fault(fault_of(stop)?)),
    }
}

/// Evaluates a run: what comes of it, and the keys that it looks at. The run is one of the project, and the rules' schema is
/// the project's; of another one nothing comes that means something. What comes of it is sealed until it is counted.
/// `docs/baking.md`, "Runs" and "Reads".
pub fn eval_run(
    alloc: Global,
    rules: &Rules,
    project: &Project,
    id: RunId,
) -> Result<Sealed, Memory>
    ensures outcome { IfOk result (λ s. s.outcome ≡ outcome_of_run project.now rules.now id) }
    ensures keys { IfOk result (λ s. s.keys ≡ reads_of_run project.now rules.now id) }
{
    let mut noted = Items::new(alloc);
    let outcome = outcome_of(alloc, rules, project, &mut noted, id)?;
    Ok(Sealed {
        run: Run {
            keys: in_order(noted),
            outcome,
        },
    })
}

/// Evaluates a run and counts it: where it answers, `steps` rose by one. The run is one of the project, and the rules'
/// schema is the project's.
pub fn run_baker<L: Ledger>(
    alloc: Global,
    rules: &Rules,
    project: &Project,
    id: RunId,
    steps: &mut Steps<L>,
) -> Result<Run, Memory>
    ensures outcome { IfOk result (λ r. r.outcome ≡ outcome_of_run project.now rules.now id) }
    ensures keys { IfOk result (λ r. r.keys ≡ reads_of_run project.now rules.now id) }
    ensures counted { OnOk result (steps.new ≡ steps.old + 1) }
    ensures uncounted { OnErr result (steps.new ≡ steps.old) }
{
    let sealed = eval_run(alloc, rules, project, id)?;
    Ok(sealed.open(steps))
}
