// Names and types of whole rules.
ghost use Rattle.std.specs.Prelude.{◌≡◌, ◌<◌, MatchResult, Ok, Err, IfOk, Some, IfSome};
ghost use Rattle.eb_rules.specs.Queries as spec;
ghost use Rattle.eb_rules.specs.Typing.{Walks};

use crate::faults::{Refusal, RuleKind};
use crate::fields::{authoring_fields, known, past, required, tested};
use crate::plans::{BakerPlan, RulesPlan, SystemPlan, at_number};
use crate::queries::query_typed;
use crate::statements::inside;
use crate::walking::{Ground, State, WalkError};
use eb_base::{Items, Memory};
use eb_rule_names::VisibleNames;
use eb_rule_text::{Baker, Context, Rule, System};
use eb_schema::Schema;
use std::alloc::Global;

// Bakers have numbers from 1 to this, and systems to the other.
const MOST_BAKERS: u8 = 64;

const MOST_SYSTEMS: u8 = 32;

fn small(most: u8, number: i64) -> Option<u8>
    ensures value { result ≡ spec.small most number }
    ensures some { IfSome result (λ n. 0 < n) }
{
    if number >= 1 && number <= most as i64 {
        Some(number as u8)
    } else {
        None
    }
}

// So many numbers, of which none is used.
#[tactic(auto, unfolding(crate::specs::Queries::unused))]
fn unused<T: Drop>(alloc: Global, count: usize) -> Result<Items<Option<T>>, Memory>
    ensures { IfOk result (λ slots. slots ≡ spec.unused count) }
{
    let mut slots = Items::new(alloc);
    for _at in 0..count {
        slots.push(None)?;
    }
    Ok(slots)
}

fn is_used<T>(number: u8, slots: &Items<Option<T>>) -> bool
    ensures { result ≡ spec.is_used number slots.now }
{
    at_number(number, slots.items()).is_some()
}

// The number of a rule: its range, and whether one before has it.
fn number_typed<T>(
    most: u8,
    number: i64,
    slots: &Items<Option<T>>,
    places: &[usize],
) -> Result<u8, Refusal>
    ensures number { result ≡ spec.number_typed most number slots.now places.now }
    ensures some { IfOk result (λ n. 0 < n) }
{
    let number = required(RuleKind::TooMany, small(most, number), places)?;
    let used = is_used(number, slots);
    tested(RuleKind::NameTaken, !used, places)?;
    Ok(number)
}

// A rule at its number.
fn put<T: Drop>(number: u8, rule: T, slots: &mut Items<Option<T>>)
    requires { 0 < number }
    ensures { slots.new ≡ spec.put number rule slots.old }
{
    let at = number as usize - 1;
    if at < slots.len() {
        slots.set(at, Some(rule));
    }
}

fn first_state(alloc: Global) -> State
    ensures { result ≡ spec.first_state }
{
    State {
        known: VisibleNames::new(alloc),
        types: Items::new(alloc),
        extras: 0,
    }
}

// A baker behind its number.
fn baker_typed<'p>(
    alloc: Global,
    schema: &Schema,
    number: u8,
    baker: &Baker,
    places: &'p [usize],
) -> Result<(BakerPlan, &'p [usize]), WalkError>
    ensures { Walks (spec.baker_typed schema.now number baker.now places.now) (λ q. (q.0, q.1.now)) result }
{
    let authoring = known(
        schema.authoring_named(baker.authoring.bytes()),
        past(places, 3),
    )?;
    let ground = Ground {
        schema,
        context: Context::Baker,
        own: authoring_fields(schema, authoring),
        all: &[],
    };
    let mut state = first_state(alloc);
    let (body, rest) = inside(
        alloc,
        &ground,
        &mut state,
        baker.body.as_slice(),
        past(places, 4),
    )?;
    let plan = BakerPlan {
        number,
        authoring,
        body,
    };
    Ok((plan, rest))
}

// A system behind its number.
fn system_typed<'p>(
    alloc: Global,
    schema: &Schema,
    number: u8,
    system: &System,
    places: &'p [usize],
) -> Result<(SystemPlan, &'p [usize]), WalkError>
    ensures { Walks (spec.system_typed schema.now number system.now places.now) (λ q. (q.0, q.1.now)) result }
{
    let (query, rest) = query_typed(alloc, schema, &system.query, past(places, 2))?;
    let ground = Ground {
        schema,
        context: Context::System,
        own: &[],
        all: query.all.items(),
    };
    let mut state = first_state(alloc);
    let (body, rest) = inside(alloc, &ground, &mut state, system.body.as_slice(), rest)?;
    let plan = SystemPlan {
        number,
        query,
        body,
    };
    Ok((plan, rest))
}

// One rule, which is put to those before it.
fn rule_typed<'p>(
    alloc: Global,
    schema: &Schema,
    plan: &mut RulesPlan,
    rule: &Rule,
    places: &'p [usize],
) -> Result<&'p [usize], WalkError>
    ensures { Walks (spec.rule_typed schema.now plan.old rule.now places.now) (λ q. (plan.new, q.now)) result }
{
    match rule {
        Rule::Baker(baker) => {
            let number = number_typed(MOST_BAKERS, baker.number, &plan.bakers, past(places, 1))?;
            let (made, rest) = baker_typed(alloc, schema, number, baker, places)?;
            put(number, made, &mut plan.bakers);
            Ok(rest)
        }
        Rule::System(system) => {
            let number = number_typed(MOST_SYSTEMS, system.number, &plan.systems, past(places, 1))?;
            let (made, rest) = system_typed(alloc, schema, number, system, places)?;
            put(number, made, &mut plan.systems);
            Ok(rest)
        }
    }
}

/// All rules of a text, each resolved and at its number.
pub fn rules_typed<'p>(
    alloc: Global,
    schema: &Schema,
    rules: &[Rule],
    places: &'p [usize],
) -> Result<(RulesPlan, &'p [usize]), WalkError>
    ensures { Walks (spec.rules_typed schema.now rules.now spec.no_rules places.now) (λ q. (q.0, q.1.now)) result }
{
    let bakers = unused(alloc, MOST_BAKERS as usize)?;
    let systems = unused(alloc, MOST_SYSTEMS as usize)?;
    let mut plan = RulesPlan { bakers, systems };
    let mut rest = places;
    for rule in rules {
        rest = rule_typed(alloc, schema, &mut plan, rule, rest)?;
    }
    Ok((plan, rest))
}
