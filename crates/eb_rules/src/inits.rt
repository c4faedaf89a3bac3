// The values of a component.
ghost use Rattle.std.specs.Prelude.{◌≡◌, ◌++◌, [], true, drop, MatchResult, Ok, Err};
ghost use Rattle.eb_rules.specs.Scopes.{next_field};
ghost use Rattle.eb_rules.specs.Statements as spec;
ghost use Rattle.eb_rules.specs.Typing.{Walks};

use crate::faults::{Refusal, RuleKind};
use crate::fields::{component_fields, find_field, known, past, refused, required, tested};
use crate::plans::{Addition, Filling, Term};
use crate::scopes::Scope;
use crate::shapes::{Shape, fits, shape_of};
use crate::typing::typed;
use crate::walking::WalkError;
use eb_base::{Text, TypeNo};
use eb_rule_text::{Expr, Init};
use eb_schema::{Field, Kind};
use sqlite_items::Items;
use std::alloc::Global;

// The kind of the next field, where the name is its.
fn next_field(left: &[Field], name: &Text) -> Option<Kind>
    ensures { result ≡ next_field left.now name.now }
{
    match left {
        [] => None,
        [field, ..] => {
            if name.bytes() == field.name.bytes() {
                Some(field.kind)
            } else {
                None
            }
        }
    }
}

// A field of the component, and the next one.
fn next_kind(
    fields: &[Field],
    left: &[Field],
    name: &Text,
    places: &[usize],
) -> Result<Kind, Refusal>
    ensures { result ≡ spec.next_kind fields.now left.now name.now places.now }
{
    known(find_field(name.bytes(), fields), places)?;
    let kind = required(RuleKind::TypeFault, next_field(left, name), places)?;
    Ok(kind)
}

/// An expression of the wanted shape, or the fault of the whole expression.
pub fn fitted<'p>(
    alloc: Global,
    scope: &Scope<'_, '_>,
    wanted: Option<Shape>,
    value: &Expr,
    places: &'p [usize],
) -> Result<(Term, &'p [usize]), WalkError>
    ensures { Walks (spec.fitted scope.now wanted value.now places.now) (λ q. (q.0, q.1.now)) result }
{
    let (made, rest) = typed(alloc, scope, value, places)?;
    tested(RuleKind::TypeFault, fits(wanted, made.shape), places)?;
    Ok((made.term, rest))
}

// f : e
fn init_typed<'p>(
    alloc: Global,
    scope: &Scope<'_, '_>,
    fields: &[Field],
    left: &[Field],
    init: &Init,
    places: &'p [usize],
) -> Result<(Filling, &'p [usize]), WalkError>
    ensures { Walks (spec.init_typed scope.now fields.now left.now init.now places.now) (λ q. (q.0, q.1.now)) result }
{
    let kind = next_kind(fields, left, &init.field, places)?;
    let (value, rest) = fitted(alloc, scope, shape_of(kind), &init.value, past(places, 2))?;
    Ok((Filling { kind, value }, rest))
}

// The closing brace, where each field has its value.
fn closed<'p>(left: &[Field], places: &'p [usize]) -> Result<&'p [usize], Refusal>
    ensures { MatchResult result (λ q. (done : _) → spec.closed left.now done places.now ≡ Ok (done, q.now)) (λ x. (done : _) → spec.closed left.now done places.now ≡ Err x) }
{
    match left {
        [] => Ok(past(places, 1)),
        [_, ..] => Err(refused(RuleKind::TypeFault, places)),
    }
}

fn behind_comma(first: bool, places: &[usize]) -> &[usize]
    ensures { result.now ≡ spec.behind_comma first places.now }
{
    if first { places } else { past(places, 1) }
}

fn later(fields: &[Field]) -> &[Field]
    ensures { result.now ≡ drop 1 fields.now }
{
    match fields {
        [] => fields,
        [_, rest @ ..] => rest,
    }
}

// The values of all fields, in the order of the schema, and the closing brace. The places are those behind the opening brace.
fn inits_typed<'p>(
    alloc: Global,
    scope: &Scope<'_, '_>,
    fields: &[Field],
    inits: &[Init],
    places: &'p [usize],
) -> Result<(Items<Filling>, &'p [usize]), WalkError>
    ensures { Walks (spec.inits_from scope.now fields.now fields.now true inits.now [] places.now) (λ q. (q.0, q.1.now)) result }
{
    let mut done = Items::new(alloc);
    let mut left = fields;
    let mut rest = places;
    let mut first = true;
    for init in inits {
        let (filling, behind) = init_typed(
            alloc,
            scope,
            fields,
            left,
            init,
            behind_comma(first, rest),
        )?;
        done.push(filling)?;
        rest = behind;
        left = later(left);
        first = false;
    }
    let rest = closed(left, rest)?;
    Ok((done, rest))
}

/// The values of a component of a type, in braces.
pub fn values_typed<'p>(
    alloc: Global,
    scope: &Scope<'_, '_>,
    kind: TypeNo,
    inits: &[Init],
    places: &'p [usize],
) -> Result<(Addition, &'p [usize]), WalkError>
    ensures { Walks (spec.values_typed scope.now kind inits.now places.now) (λ q. (q.0, q.1.now)) result }
{
    let fields = component_fields(scope.schema, kind);
    let (values, rest) = inits_typed(alloc, scope, fields, inits, past(places, 1))?;
    Ok((Addition { kind, values }, rest))
}
