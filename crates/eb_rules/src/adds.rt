// Additions of components to entities.
ghost use Rattle.std.specs.Prelude.{◌≡◌, MatchResult, Ok, Err, OnOk};
ghost use Rattle.eb_rules.specs.Statements as spec;
ghost use Rattle.eb_rules.specs.Typing.{Walks};

use crate::faults::{Refusal, RuleKind};
use crate::fields::{is_in_all, known, past, tested};
use crate::inits::values_typed;
use crate::plans::Addition;
use crate::scopes::{Scope, Visible};
use crate::walking::{Ground, WalkError};
use eb_base::{Items, Memory, Text, TypeNo};
use eb_rule_names::VisibleNames;
use eb_rule_text::{Add, Context};
use std::alloc::Global;

// How many types an entity of a baker may have.
const MOST_TYPES: usize = 32;

/// Where an expression stands on this walk.
pub fn scope_of<'g, 'k>(ground: &Ground<'g>, known: &'k VisibleNames<Visible>) -> Scope<'g, 'k>
    ensures { result ≡ spec.scope_of ground.now known.now }
{
    Scope {
        schema: ground.schema,
        context: ground.context,
        own: ground.own,
        all: ground.all,
        known,
    }
}

// One more type, where it is new.
fn note(types: &mut Items<TypeNo>, kind: TypeNo) -> Result<(), Memory>
    ensures { OnOk result (types.new ≡ spec.noted kind types.old) }
{
    if is_in_all(kind, types.items()) {
        return Ok(());
    }
    types.push(kind)?;
    Ok(())
}

fn is_baker(context: Context) -> bool
    ensures { result ≡ spec.is_baker context }
{
    match context {
        Context::Baker => true,
        Context::System => false,
        Context::Job => false,
    }
}

fn is_full(context: Context, kind: TypeNo, types: &[TypeNo]) -> bool
    ensures { result ≡ spec.is_full context kind types.now }
{
    is_baker(context) && !is_in_all(kind, types) && types.len() >= MOST_TYPES
}

// The type, where it is known and there is room for it.
fn add_kind(
    ground: &Ground<'_>,
    types: &[TypeNo],
    kind: &Text,
    places: &[usize],
) -> Result<TypeNo, Refusal>
    ensures { result ≡ spec.add_kind ground.now types.now kind.now places.now }
{
    let number = known(ground.schema.component_named(kind.bytes()), places)?;
    let full = is_full(ground.context, number, types);
    tested(RuleKind::TooMany, !full, places)?;
    Ok(number)
}

/// An addition to an entity that has been given these types, which are then one more.
pub fn add_typed<'p>(
    alloc: Global,
    ground: &Ground<'_>,
    known: &VisibleNames<Visible>,
    types: &mut Items<TypeNo>,
    add: &Add,
    places: &'p [usize],
) -> Result<(Addition, &'p [usize]), WalkError>
    ensures { Walks (spec.add_typed ground.now known.now types.old add.now places.now) (λ q. ((q.0, types.new), q.1.now)) result }
{
    let kind = add_kind(ground, types.items(), &add.kind, past(places, 1))?;
    let scope = scope_of(ground, known);
    let (made, rest) = values_typed(alloc, &scope, kind, add.inits.as_slice(), past(places, 2))?;
    note(types, kind)?;
    Ok((made, rest))
}

/// The additions of an extra, behind those that are done.
pub fn adds_typed<'p>(
    alloc: Global,
    ground: &Ground<'_>,
    known: &VisibleNames<Visible>,
    adds: &[Add],
    done: &mut sqlite_items::Items<Addition>,
    types: &mut Items<TypeNo>,
    places: &'p [usize],
) -> Result<&'p [usize], WalkError>
    ensures { Walks (spec.adds_typed ground.now known.now adds.now done.old types.old places.now) (λ q. ((done.new, types.new), q.now)) result }
{
    let mut rest = places;
    for add in adds {
        let (made, behind) = add_typed(alloc, ground, known, types, add, rest)?;
        done.push(made)?;
        rest = behind;
    }
    Ok(rest)
}
