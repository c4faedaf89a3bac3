// The statements of a system on one entity.
ghost use Rattle.std.specs.Prelude.{◌≡◌, IfOk};
ghost use Rattle.eb_system.specs.Sights.{system_sight};
ghost use Rattle.eb_system.specs.Stages.{turn_under};

use crate::reads::SystemReads;
use eb_base::{Items, Memory};
use eb_meaning::{RunFault, Scope, Stop, act_all};
use eb_rules::Step;
use eb_schema::Cell;
use std::alloc::Global;

/// What the statements of a system come to on an entity.
#[derive(Drop)]
pub struct Turn {
    /// A component for each `add`, in the order of evaluation, up to the fault if there is one.
    pub added: Items<Cell>,
    /// The fault.
    pub fault: Option<RunFault>,
}

/// Evaluates the statements of a system on an entity.
pub fn take_turn(alloc: Global, reads: &SystemReads, body: &[Step]) -> Result<Turn, Memory>
    ensures { IfOk result (λ turn. turn ≡ turn_under (system_sight reads.now.before.now reads.now.name reads.now.row.now) body.now) }
{
    let mut noted = Items::new(alloc);
    let mut scope = Scope {
        names: Items::new(alloc),
        own: Items::new(alloc),
        extras: Items::new(alloc),
    };
    match act_all(alloc, reads, &mut noted, &mut scope, body) {
        Ok(()) => Ok(Turn {
            added: scope.own,
            fault: None,
        }),
        Err(Stop::Fault(fault)) => Ok(Turn {
            added: scope.own,
            fault: Some(fault),
        }),
        Err(Stop::Memory) => Err(Memory),
    }
}
