// All systems of rules, one after the other.
ghost use Rattle.std.specs.Prelude.{◌≡◌, [], OnOk, IfOk, fold};
ghost use Rattle.eb_eval.specs.Runs.{plan_of};
ghost use Rattle.eb_system.specs.Stages.{after_slot, after_system, staged, with_change};

use crate::changes::{Change, effects_of};
use eb_base::{Items, Memory};
use eb_eval::Issue;
use eb_rules::{Rules, SystemPlan};
use eb_schema::Baked;
use std::alloc::Global;
use std::marker::Model;

/// What the systems of rules come to: the entities after the last one, and what the systems left out.
#[derive(Drop)]
pub struct Stages {
    last: Baked,
    issues: Items<Issue>,
}

impl Model for Stages {
    ghost use Rattle.eb_system.specs.Staged.{Stage, coded_stage};

    ghost Value = { Stage };

    ghost coded = { coded_stage };

    ghost view = { λ s. record { entities = s.last; issues = s.issues } };
}

/// Puts the new rows.
fn put_changes(entities: &mut Baked, changes: Items<Change>) -> Result<(), Memory>
    ensures { OnOk result (entities.new ≡ fold with_change entities.old changes) }
{
    for change in changes.into_vec() {
        entities.put(change.name, change.place, change.row)?;
    }
    Ok(())
}

impl Stages {
    /// The entities before all systems.
    fn open(alloc: Global, merged: &Baked) -> Result<Self, Memory>
        ensures { IfOk result (λ stages. stages ≡ record { entities = merged.now; issues = [] }) }
    {
        let last = merged.copy(alloc)?;
        let issues = Items::new(alloc);
        Ok(Stages { last, issues })
    }

    /// One more system.
    fn run(&mut self, alloc: Global, system: &SystemPlan) -> Result<(), Memory>
        ensures { OnOk result (self.new ≡ after_system self.old system.now) }
    {
        let mut done = effects_of(alloc, &self.last, system)?;
        self.issues.append(&mut done.issues)?;
        put_changes(&mut self.last, done.changes)?;
        Ok(())
    }

    /// One more system, if there is one at its number.
    fn run_slot(&mut self, alloc: Global, slot: &Option<SystemPlan>) -> Result<(), Memory>
        ensures { OnOk result (self.new ≡ after_slot self.old slot.now) }
    {
        match slot {
            Some(system) => {
                self.run(alloc, system)?;
                Ok(())
            }
            None => Ok(()),
        }
    }

    /// The entities after the last system. Takes no memory.
    pub fn last(&self) -> &Baked
        ensures { result.now ≡ self.now.entities }
    {
        &self.last
    }

    /// What the systems left out: by system, then by name, a fault before types, and types ascending. Takes no memory.
    pub fn issues(&self) -> &[Issue]
        ensures { result.now ≡ self.now.issues }
    {
        self.issues.items()
    }
}

// What stands at the numbers of the systems.
#[tactic(auto, unfolding(eb_eval::specs::Runs::plan_of))]
fn systems_of(rules: &Rules) -> &[Option<SystemPlan>]
    ensures { result.now ≡ (plan_of rules.now).systems }
{
    rules.resolved().systems.items()
}

/// The systems of the rules on these entities, in ascending number. Each is evaluated on all entities as they were before it.
/// `docs/baking.md`, "Systems".
#[tactic(auto, unfolding(crate::specs::Stages::staged))]
pub fn run_all(alloc: Global, rules: &Rules, merged: &Baked) -> Result<Stages, Memory>
    ensures { IfOk result (λ stages. stages ≡ staged rules.now merged.now) }
{
    let mut stages = Stages::open(alloc, merged)?;
    for slot in systems_of(rules) {
        stages.run_slot(alloc, slot)?;
    }
    Ok(stages)
}
