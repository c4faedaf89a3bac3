// The fields of components and assets, as values.
ghost use Rattle.std.specs.Prelude.{◌≡◌};
ghost use Rattle.std.specs.List.{slice_get};
ghost use Rattle.eb_eval.specs.Walks.{number_in, value_as, value_at};

use eb_meaning::Value;
use eb_rules::FieldPlace;
use eb_scene::Given;
use eb_schema::Kind;

/// What a field holds, if it is there.
pub fn held_at(place: usize, values: &[Given]) -> Option<Given>
    ensures { result ≡ slice_get values.now place }
{
    match values.get(place) {
        Some(value) => Some(*value),
        None => None,
    }
}

/// The number that a field holds, 0 where it holds none.
pub fn number_in(held: Option<Given>) -> i64
    ensures { result ≡ number_in held }
{
    match held {
        Some(Given::Num(number)) => number,
        _ => 0,
    }
}

/// A number as the value of a field of the kind.
pub fn value_as(kind: Kind, number: i64) -> Value
    ensures { result ≡ value_as kind number }
{
    match kind {
        Kind::Fix => Value::Fix(number),
        _ => Value::Int(number),
    }
}

/// The value of a number field.
pub fn value_at(field: &FieldPlace, values: &[Given]) -> Value
    ensures { result ≡ value_at field.now values.now }
{
    value_as(field.kind, number_in(held_at(field.place, values)))
}
