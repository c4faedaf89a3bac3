// The look-up of types, fields and visible names.
ghost use Rattle.std.specs.Prelude.{◌≡◌, drop};
ghost use Rattle.eb_rules.specs.Scopes as scopes;
ghost use Rattle.eb_rules.specs.Typing as spec;

use crate::faults::{Refusal, RuleKind};
use crate::plans::{AuthoredField, ComponentField, FieldPlace};
use crate::scopes::{Bound, Scope, Visible};
use eb_base::{AuthorNo, Text, TypeNo};
use eb_rule_names::VisibleNames;
use eb_rule_text::FieldPath;
use eb_schema::{Field, Kind, Schema};

/// The places behind so many tokens.
pub fn past(places: &[usize], count: usize) -> &[usize]
    ensures { result.now ≡ drop count places.now }
{
    if count <= places.len() {
        &places[count..]
    } else {
        &[]
    }
}

/// The place of the next token.
pub fn here(places: &[usize]) -> usize
    ensures { result ≡ spec.here places.now }
{
    match places {
        [] => 0,
        [at, ..] => *at,
    }
}

/// A refusal at the next token.
pub fn refused(kind: RuleKind, places: &[usize]) -> Refusal
    ensures { result ≡ spec.refused kind places.now }
{
    Refusal {
        kind,
        at: here(places),
    }
}

/// The kind of the field of a name, where there is one.
pub fn find_field(name: &[u8], fields: &[Field]) -> Option<Kind>
    ensures { result ≡ scopes.field_kind name.now fields.now }
{
    for field in fields {
        if name == field.name.bytes() {
            return Some(field.kind);
        }
    }
    None
}

fn field_place(name: &[u8], fields: &[Field]) -> usize
    ensures { result ≡ scopes.field_place name.now fields.now }
{
    for at in 0..fields.len() {
        if name == fields[at].name.bytes() {
            return at;
        }
    }
    fields.len()
}

/// The field of a name, where there is one.
pub fn field_in(name: &Text, fields: &[Field]) -> Option<FieldPlace>
    ensures { result ≡ scopes.field_in name.now fields.now }
{
    match find_field(name.bytes(), fields) {
        None => None,
        Some(kind) => Some(FieldPlace {
            place: field_place(name.bytes(), fields),
            kind,
        }),
    }
}

/// What there must be, or the refusal at the next token.
pub fn required<T: Copy>(kind: RuleKind, found: Option<T>, places: &[usize]) -> Result<T, Refusal>
    ensures { result ≡ spec.required kind found places.now }
{
    match found {
        Some(found) => Ok(found),
        None => Err(refused(kind, places)),
    }
}

/// What must hold, or the refusal at the next token.
pub fn tested(kind: RuleKind, holds: bool, places: &[usize]) -> Result<(), Refusal>
    ensures { result ≡ spec.tested kind holds places.now }
{
    if holds {
        Ok(())
    } else {
        Err(refused(kind, places))
    }
}

/// What a name of a type or a field is, or that it is none.
pub fn known<T: Copy>(found: Option<T>, places: &[usize]) -> Result<T, Refusal>
    ensures { result ≡ spec.required RuleKind.UnknownName found places.now }
{
    required(RuleKind::UnknownName, found, places)
}

/// What a visible name stands for.
pub fn find_bound(name: &[u8], known: &VisibleNames<Visible>) -> Option<Bound>
    ensures { result ≡ scopes.bound_of name.now known.now }
{
    match known.find(name) {
        Some(visible) => Some(visible.bound),
        None => None,
    }
}

/// Whether the query asks for the type.
pub fn is_in_all(kind: TypeNo, all: &[TypeNo]) -> bool
    ensures { result ≡ scopes.is_in_all kind all.now }
{
    for other in all {
        if other.number() == kind.number() {
            return true;
        }
    }
    false
}

/// The fields of an authoring type.
pub fn authoring_fields(schema: &Schema, number: AuthorNo) -> &[Field]
    ensures { result.now ≡ scopes.authoring_fields schema.now number }
{
    match schema.authoring(number) {
        Some(found) => found.fields.items(),
        None => &[],
    }
}

/// The fields of a component type.
#[tactic(auto, unfolding(crate::specs::Scopes::component_fields))]
pub fn component_fields(schema: &Schema, number: TypeNo) -> &[Field]
    ensures { result.now ≡ scopes.component_fields schema.now number }
{
    match schema.component(number) {
        Some(found) => found.fields.items(),
        None => &[],
    }
}

/// T.f of an authoring type: T stands at `kind`, and f at `places`.
pub fn authored(
    scope: &Scope<'_, '_>,
    path: &FieldPath,
    kind: &[usize],
    places: &[usize],
) -> Result<AuthoredField, Refusal>
    ensures { result ≡ spec.authored scope.now path.now kind.now places.now }
{
    let number = known(scope.schema.authoring_named(path.kind.bytes()), kind)?;
    let fields = authoring_fields(scope.schema, number);
    let field = known(field_in(&path.field, fields), places)?;
    Ok(AuthoredField {
        kind: number,
        field,
    })
}

// f of a component type.
fn numbered(
    scope: &Scope<'_, '_>,
    number: TypeNo,
    field: &Text,
    places: &[usize],
) -> Result<ComponentField, Refusal>
    ensures { result ≡ spec.numbered scope.now number field.now places.now }
{
    let fields = component_fields(scope.schema, number);
    let field = known(field_in(field, fields), places)?;
    Ok(ComponentField {
        kind: number,
        field,
    })
}

/// T.f of a component type.
pub fn of_component(
    scope: &Scope<'_, '_>,
    path: &FieldPath,
    kind: &[usize],
    places: &[usize],
) -> Result<ComponentField, Refusal>
    ensures { result ≡ spec.of_component scope.now path.now kind.now places.now }
{
    let number = known(scope.schema.component_named(path.kind.bytes()), kind)?;
    numbered(scope, number, &path.field, places)
}

/// T.f of a component type that the query asks for: `TypeFault` at T where it doesn't.
pub fn asked(
    scope: &Scope<'_, '_>,
    path: &FieldPath,
    kind: &[usize],
    places: &[usize],
) -> Result<ComponentField, Refusal>
    ensures { result ≡ spec.asked scope.now path.now kind.now places.now }
{
    let number = known(scope.schema.component_named(path.kind.bytes()), kind)?;
    tested(RuleKind::TypeFault, is_in_all(number, scope.all), kind)?;
    numbered(scope, number, &path.field, places)
}
