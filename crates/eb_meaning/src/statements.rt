// What statements do. `docs/rules.md`, "Meaning".
ghost use Rattle.eb_meaning.specs.Asks.{GoesTo, run};
ghost use Rattle.eb_meaning.specs.Statements as spec;

use crate::additions::{cell, cells};
use crate::operators::truth;
use crate::scopes::{Extra, Scope};
use crate::sights::Reads;
use crate::terms::value;
use crate::values::Stop;
use eb_base::Items;
use eb_rules::{Addition, Step, Term};
use eb_scene::Key;
use std::alloc::Global;

// let x = e ;
fn act_let<R: Reads>(
    reads: &R,
    noted: &mut Items<Key>,
    scope: &mut Scope,
    term: &Term,
) -> Result<(), Stop>
    ensures { GoesTo (run (R.answers reads.now) (spec.let_acts (R.sight reads.now) term.now scope.old) noted.old) result scope.new noted.new }
{
    let made = value(reads, noted, scope.names.items(), term)?;
    scope.names.push(made)?;
    Ok(())
}

// add T { .. }
fn act_add<R: Reads>(
    alloc: Global,
    reads: &R,
    noted: &mut Items<Key>,
    scope: &mut Scope,
    addition: &Addition,
) -> Result<(), Stop>
    ensures { GoesTo (run (R.answers reads.now) (spec.add_acts (R.sight reads.now) addition.now scope.old) noted.old) result scope.new noted.new }
{
    let made = cell(alloc, reads, noted, scope.names.items(), addition)?;
    scope.own.push(made)?;
    Ok(())
}

// extra x { add .. }
fn act_extra<R: Reads>(
    alloc: Global,
    reads: &R,
    noted: &mut Items<Key>,
    scope: &mut Scope,
    number: usize,
    additions: &[Addition],
) -> Result<(), Stop>
    ensures { GoesTo (run (R.answers reads.now) (spec.extra_acts (R.sight reads.now) number additions.now scope.old) noted.old) result scope.new noted.new }
{
    let made = cells(alloc, reads, noted, scope.names.items(), additions)?;
    scope.extras.push(Extra {
        number,
        cells: made,
    })?;
    scope.names.push(reads.extra(number))?;
    Ok(())
}

// One statement.
#[cycle(acting)]
#[tactic(auto, unfolding(crate::specs::Statements::acts))]
fn act<R: Reads>(
    alloc: Global,
    reads: &R,
    noted: &mut Items<Key>,
    scope: &mut Scope,
    step: &Step,
) -> Result<(), Stop>
    ensures { GoesTo (run (R.answers reads.now) (spec.acts (R.sight reads.now) step.now scope.old) noted.old) result scope.new noted.new }
{
    match step {
        Step::Let(term) => {
            act_let(reads, noted, scope, term)?;
            Ok(())
        }
        Step::Add(addition) => {
            act_add(alloc, reads, noted, scope, addition)?;
            Ok(())
        }
        Step::Extra(number, additions) => {
            act_extra(alloc, reads, noted, scope, *number, additions.as_slice())?;
            Ok(())
        }
        Step::If(test, body, other) => {
            let test = value(reads, noted, scope.names.items(), test)?;
            if truth(test) {
                act_block(alloc, reads, noted, scope, body.as_slice())?;
                Ok(())
            } else {
                act_block(alloc, reads, noted, scope, other.as_slice())?;
                Ok(())
            }
        }
    }
}

// Statements in braces, whose names go out of sight at the closing one.
#[cycle(acting)]
#[tactic(auto, unfolding(crate::specs::Statements::acts))]
fn act_block<R: Reads>(
    alloc: Global,
    reads: &R,
    noted: &mut Items<Key>,
    scope: &mut Scope,
    body: &[Step],
) -> Result<(), Stop>
    ensures { GoesTo (run (R.answers reads.now) (spec.in_braces (R.sight reads.now) body.now scope.old) noted.old) result scope.new noted.new }
{
    let visible = scope.names.len();
    act_all(alloc, reads, noted, scope, body)?;
    scope.names.truncate(visible);
    Ok(())
}

/// The statements of a body, in their order, up to a fault: what they come to stands in `scope`, also what they came to until
/// a fault. Where there was no memory, of the scope and of what is noted nothing is said. The keys that are looked at are noted.
#[cycle(acting)]
#[tactic(auto, unfolding(crate::specs::Statements::acts))]
pub fn act_all<R: Reads>(
    alloc: Global,
    reads: &R,
    noted: &mut Items<Key>,
    scope: &mut Scope,
    body: &[Step],
) -> Result<(), Stop>
    ensures { GoesTo (run (R.answers reads.now) (spec.body_acts (R.sight reads.now) body.now scope.old) noted.old) result scope.new noted.new }
{
    for step in body {
        act(alloc, reads, noted, scope, step)?;
    }
    Ok(())
}
