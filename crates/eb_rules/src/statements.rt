// Names and types of statements, and what they are resolved to.
ghost use Rattle.std.specs.Prelude.{◌≡◌, [], map, MatchResult, Ok, Err, OnOk};
ghost use Rattle.eb_rules.specs.Statements as spec;
ghost use Rattle.eb_rules.specs.Typing.{Walks};

use crate::adds::{add_typed, adds_typed, scope_of};
use crate::faults::RuleKind;
use crate::fields::{find_bound, past, tested};
use crate::inits::fitted;
use crate::plans::Step;
use crate::scopes::{Bound, Visible};
use crate::shapes::Shape;
use crate::typing::typed;
use crate::walking::{Ground, State, WalkError};
use eb_base::{Memory, Text};
use eb_rule_names::VisibleNames;
use eb_rule_text::{Add, Expr, Stmt};
use sqlite_items::Items;
use std::alloc::Global;

// How many extras a baker may have.
const MOST_EXTRAS: usize = 16;

/// That a name isn't visible yet.
pub fn is_free(name: &Text, known: &VisibleNames<Visible>) -> bool
    ensures { result ≡ spec.is_free name.now known.now }
{
    find_bound(name.bytes(), known).is_none()
}

// One more visible name.
fn show(alloc: Global, state: &mut State, name: &Text, bound: Bound) -> Result<(), Memory>
    ensures { OnOk result (state.new ≡ spec.with_name state.old name.now bound) }
{
    let name = name.copy(alloc)?;
    state.known.push(alloc, Visible { name, bound })?;
    Ok(())
}

// let x = e ;
fn let_walk<'p>(
    alloc: Global,
    ground: &Ground<'_>,
    state: &mut State,
    name: &Text,
    value: &Expr,
    places: &'p [usize],
) -> Result<(Step, &'p [usize]), WalkError>
    ensures { Walks (spec.let_walk ground.now name.now value.now state.old places.now) (λ q. ((q.0, state.new), q.1.now)) result }
{
    let free = is_free(name, &state.known);
    tested(RuleKind::NameTaken, free, past(places, 1))?;
    let scope = scope_of(ground, &state.known);
    let (value, rest) = typed(alloc, &scope, value, past(places, 3))?;
    show(alloc, state, name, Bound::Value(value.shape))?;
    Ok((Step::Let(value.term), past(rest, 1)))
}

// add T { .. }
fn add_walk<'p>(
    alloc: Global,
    ground: &Ground<'_>,
    state: &mut State,
    add: &Add,
    places: &'p [usize],
) -> Result<(Step, &'p [usize]), WalkError>
    ensures { Walks (spec.add_walk ground.now add.now state.old places.now) (λ q. ((q.0, state.new), q.1.now)) result }
{
    let (made, rest) = add_typed(alloc, ground, &state.known, &mut state.types, add, places)?;
    Ok((Step::Add(made), rest))
}

// extra x { add .. }
fn extra_walk<'p>(
    alloc: Global,
    ground: &Ground<'_>,
    state: &mut State,
    name: &Text,
    adds: &[Add],
    places: &'p [usize],
) -> Result<(Step, &'p [usize]), WalkError>
    ensures { Walks (spec.extra_walk ground.now name.now adds.now state.old places.now) (λ q. ((q.0, state.new), q.1.now)) result }
{
    let number = state.extras;
    tested(RuleKind::TooMany, number < MOST_EXTRAS, places)?;
    let free = is_free(name, &state.known);
    tested(RuleKind::NameTaken, free, past(places, 1))?;
    let mut done = Items::new(alloc);
    let mut types = eb_base::Items::new(alloc);
    let rest = adds_typed(
        alloc,
        ground,
        &state.known,
        adds,
        &mut done,
        &mut types,
        past(places, 3),
    )?;
    show(alloc, state, name, Bound::Entity)?;
    state.extras = number + 1;
    Ok((Step::Extra(number, done), past(rest, 1)))
}

/// One statement of a baker or a system, resolved: what it makes visible, and the places behind it.
#[cycle(walking)]
#[tactic(auto, unfolding(crate::specs::Statements::walked))]
pub fn walk<'p>(
    alloc: Global,
    ground: &Ground<'_>,
    state: &mut State,
    stmt: &Stmt,
    places: &'p [usize],
) -> Result<(Step, &'p [usize]), WalkError>
    ensures { Walks (spec.walked ground.now stmt.now state.old places.now) (λ q. ((q.0, state.new), q.1.now)) result }
{
    match stmt {
        Stmt::Let(name, value) => let_walk(alloc, ground, state, name, value, places),
        Stmt::Add(add) => add_walk(alloc, ground, state, add, places),
        Stmt::Extra(name, adds) => {
            extra_walk(alloc, ground, state, name, adds.as_slice(), places)
        }
        Stmt::If(test, body, other) => {
            let scope = scope_of(ground, &state.known);
            let (test, rest) = fitted(alloc, &scope, Some(Shape::Bool), test, past(places, 1))?;
            let (body, rest) = inside(alloc, ground, state, body.as_slice(), rest)?;
            match other {
                None => Ok((Step::If(test, body, Items::new(alloc)), rest)),
                Some(more) => {
                    let (more, rest) = inside(
                        alloc,
                        ground,
                        state,
                        more.as_slice(),
                        past(rest, 1),
                    )?;
                    Ok((Step::If(test, body, more), rest))
                }
            }
        }
    }
}

/// Statements in braces, whose names go out of sight at the closing one.
#[cycle(walking)]
#[tactic(auto, unfolding(crate::specs::Statements::walked))]
pub fn inside<'p>(
    alloc: Global,
    ground: &Ground<'_>,
    state: &mut State,
    body: &[Stmt],
    places: &'p [usize],
) -> Result<(Items<Step>, &'p [usize]), WalkError>
    ensures { Walks (spec.inside (map (spec.walked ground.now) body.now) state.old places.now) (λ q. ((q.0, state.new), q.1.now)) result }
{
    let seen = state.known.len();
    let mut done = Items::new(alloc);
    let rest = walk_all(alloc, ground, state, body, &mut done, past(places, 1))?;
    state.known.truncate(seen);
    Ok((done, past(rest, 1)))
}

#[cycle(walking)]
#[tactic(auto, unfolding(crate::specs::Statements::walked))]
fn walk_all<'p>(
    alloc: Global,
    ground: &Ground<'_>,
    state: &mut State,
    body: &[Stmt],
    done: &mut Items<Step>,
    places: &'p [usize],
) -> Result<&'p [usize], WalkError>
    ensures { Walks (spec.all_walks (map (spec.walked ground.now) body.now) done.old state.old places.now) (λ q. ((done.new, state.new), q.now)) result }
{
    let mut rest = places;
    for stmt in body {
        let (step, behind) = walk(alloc, ground, state, stmt, rest)?;
        done.push(step)?;
        rest = behind;
    }
    Ok(rest)
}
