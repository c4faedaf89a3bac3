// Names and types of a job's commands, and what they are resolved to.
ghost use Rattle.std.specs.Prelude.{◌≡◌, ◌+◌, ◌≤◌, ◌++◌, [], drop, MatchResult, Ok, Err, OnOk};
ghost use Rattle.eb_rule_text.specs.Counts as counts;
ghost use Rattle.eb_rules.specs.Jobs as spec;
ghost use Rattle.eb_rules.specs.Typing.{Walks};

use crate::faults::{Refusal, RuleKind};
use crate::fields::{asked, known, past, tested};
use crate::inits::values_typed;
use crate::plans::{Addition, Aim, Order};
use crate::reads::is_entity;
use crate::scopes::{Bound, Scope, Visible};
use crate::shapes::is_ref;
use crate::statements::is_free;
use crate::walking::WalkError;
use eb_base::{Memory, Text, TypeNo};
use eb_rule_names::VisibleNames;
use eb_rule_text::{Command, Context, Init, Target};
use eb_schema::Schema;
use sqlite_items::Items;
use std::alloc::Global;

// How many commands a job may have.
const MOST_COMMANDS: usize = 8;

fn aim_walk(scope: &Scope<'_, '_>, target: &Target, places: &[usize]) -> Result<Aim, Refusal>
    ensures { result ≡ spec.aim_walk scope.now target.now places.now }
{
    match target {
        Target::This => Ok(Aim::This),
        Target::Name(name) => {
            is_entity(scope, name, places)?;
            Ok(Aim::Created(scope.known.place(name.bytes())))
        }
        Target::At(link) => {
            let link = asked(scope, link, past(places, 4), past(places, 6))?;
            tested(RuleKind::TypeFault, is_ref(link.field.kind), places)?;
            Ok(Aim::At(link))
        }
    }
}

// How many tokens it has.
fn target_tokens(target: &Target) -> usize
    ensures { result ≡ counts.target_tokens target.now }
{
    match target {
        Target::This => 1,
        Target::Name(_) => 1,
        Target::At(_) => 8,
    }
}

// The places behind a target that stands behind the first word of a command.
fn behind_target<'p>(target: &Target, places: &'p [usize]) -> &'p [usize]
    ensures { result.now ≡ drop (counts.target_tokens target.now) (drop 1 places.now) }
{
    past(past(places, 1), target_tokens(target))
}

// T { .. }
fn filled<'p>(
    alloc: Global,
    scope: &Scope<'_, '_>,
    kind: &Text,
    inits: &[Init],
    places: &'p [usize],
) -> Result<(Addition, &'p [usize]), WalkError>
    ensures { Walks (spec.filled scope.now kind.now inits.now places.now) (λ q. (q.0, q.1.now)) result }
{
    let number = known(scope.schema.component_named(kind.bytes()), places)?;
    let (made, rest) = values_typed(alloc, scope, number, inits, past(places, 1))?;
    Ok((made, rest))
}

fn command_typed<'p>(
    alloc: Global,
    scope: &Scope<'_, '_>,
    command: &Command,
    places: &'p [usize],
) -> Result<(Order, &'p [usize]), WalkError>
    ensures { Walks (spec.command_typed scope.now command.now places.now) (λ q. (q.0, q.1.now)) result }
{
    match command {
        Command::Create(name) => {
            let free = is_free(name, scope.known);
            tested(RuleKind::NameTaken, free, past(places, 1))?;
            Ok((Order::Create, past(places, 2)))
        }
        Command::Destroy(on) => {
            let aim = aim_walk(scope, on, past(places, 1))?;
            Ok((Order::Destroy(aim), behind_target(on, places)))
        }
        Command::Remove(on, kind) => {
            let aim = aim_walk(scope, on, past(places, 1))?;
            let rest = behind_target(on, places);
            let number = known(scope.schema.component_named(kind.bytes()), rest)?;
            Ok((Order::Remove(aim, number), past(rest, 1)))
        }
        Command::Add(on, kind, inits) => {
            let aim = aim_walk(scope, on, past(places, 1))?;
            let rest = behind_target(on, places);
            let (made, rest) = filled(alloc, scope, kind, inits.as_slice(), rest)?;
            Ok((Order::Add(aim, made), rest))
        }
        Command::Set(on, kind, inits) => {
            let aim = aim_walk(scope, on, past(places, 1))?;
            let rest = behind_target(on, places);
            let (made, rest) = filled(alloc, scope, kind, inits.as_slice(), rest)?;
            Ok((Order::Set(aim, made), rest))
        }
    }
}

/// Where a part of a job stands.
pub fn job_scope<'g, 'k>(
    schema: &'g Schema,
    all: &'g [TypeNo],
    known: &'k VisibleNames<Visible>,
) -> Scope<'g, 'k>
    ensures { result ≡ spec.job_scope schema.now all.now known.now }
{
    Scope {
        schema,
        context: Context::Job,
        own: &[],
        all,
        known,
    }
}

// A created name is visible in the commands behind it.
fn note(alloc: Global, command: &Command, known: &mut VisibleNames<Visible>) -> Result<(), Memory>
    ensures { OnOk result (known.new ≡ spec.behind_command command.now known.old) }
{
    match command {
        Command::Create(name) => {
            let name = name.copy(alloc)?;
            known.push(
                alloc,
                Visible {
                    name,
                    bound: Bound::Entity,
                },
            )?;
            Ok(())
        }
        Command::Destroy(_) => Ok(()),
        Command::Remove(_, _) => Ok(()),
        Command::Add(_, _, _) => Ok(()),
        Command::Set(_, _, _) => Ok(()),
    }
}

/// The commands of a job, up to its closing brace.
pub fn commands_typed<'p>(
    alloc: Global,
    schema: &Schema,
    all: &[TypeNo],
    commands: &[Command],
    places: &'p [usize],
) -> Result<(Items<Order>, &'p [usize]), WalkError>
    ensures { Walks (spec.commands_typed schema.now all.now commands.now 0 [] [] places.now) (λ q. (q.0, q.1.now)) result }
{
    let mut known = VisibleNames::new(alloc);
    let mut done = Items::new(alloc);
    let mut rest = places;
    for at in 0..commands.len() {
        let command = &commands[at];
        tested(RuleKind::TooMany, at < MOST_COMMANDS, rest)?;
        let scope = job_scope(schema, all, &known);
        let (order, behind) = command_typed(alloc, &scope, command, rest)?;
        done.push(order)?;
        note(alloc, command, &mut known)?;
        rest = behind;
    }
    Ok((done, rest))
}
