// What a row holds, as values of the rule language.
ghost use Rattle.std.specs.Prelude.{◌≡◌};
ghost use Rattle.eb_system.specs.Sights as spec;

use eb_eval::fields::value_as;
use eb_meaning::operators::NO_VALUE;
use eb_meaning::{Link, Value};
use eb_rules::ComponentField;
use eb_schema::{Kind, Row, Val};

/// What a field of the kind holds, as a value.
fn value_in(kind: Kind, value: Val) -> Value
    ensures { result ≡ spec.value_in kind value }
{
    match value {
        Val::Num(number) => value_as(kind, number),
        Val::To(name) => Value::Link(Link::To(name)),
        Val::Null => Value::Link(Link::Null),
        Val::Gone => Value::Link(Link::Gone),
    }
}

/// What a row holds in a field, if it has the component. Takes no memory.
pub fn held(row: &Row, field: &ComponentField) -> Option<Val>
    ensures { result ≡ spec.held row.now field.now }
{
    match row.cell(field.kind) {
        Some(cell) => cell.values.get(field.field.place).copied(),
        None => None,
    }
}

/// The same as a value. Takes no memory.
pub fn found_in(row: &Row, field: &ComponentField) -> Option<Value>
    ensures { result ≡ spec.found_in row.now field.now }
{
    match held(row, field) {
        Some(value) => Some(value_in(field.field.kind, value)),
        None => None,
    }
}

/// The value of a field that its entity has.
pub fn own_value(row: &Row, field: &ComponentField) -> Value
    ensures { result ≡ spec.own_value row.now field.now }
{
    match found_in(row, field) {
        Some(value) => value,
        None => NO_VALUE,
    }
}
