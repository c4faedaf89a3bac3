// The values of a project as its document writes them.
ghost use Rattle.std.specs.Prelude.{◌≡◌, IfOk, OnOk};
ghost use Rattle.serde_json.specs.Data.{string, put, no_members};
ghost use Rattle.serde_json.specs.View.{view, members_view};
ghost use Rattle.eb_schema.specs.declared.kinds.Kind.TheVariants.{Fix};
ghost use Rattle.eb_schema.specs.Schemas.{authoring_of};
ghost use Rattle.eb_scene_text.specs.ProjectText.{number_data, value_data, with_fields, with_part_as, with_parts};

use eb_base::{Memory, Text, fix_write};
use eb_scene::{Given, Part};
use eb_schema::{Field, Kind, Schema};
use serde_json::{Map, Value};
use std::alloc::Global;
use std::str;

/// Puts a value under a name. A schema's names are words of letters and digits; of one that were no text nothing
/// could be written, and `Memory` is all that is left to answer.
fn put_named(
    alloc: Global,
    map: &mut Map<String, Value>,
    name: &Text,
    value: Value,
) -> Result<(), Memory>
    ensures { OnOk result (members_view map.new.entries ≡ put name.now (view value) (members_view map.old.entries)) }
{
    match str::from_utf8(name.bytes()) {
        Ok(key) => {
            serde_json::put(map, alloc, key, value)?;
            Ok(())
        }
        Err(_) => Err(Memory),
    }
}

/// Units of a fixed-point number as fixed text.
fn fixed_value(alloc: Global, units: i64) -> Result<Value, Memory>
    ensures { IfOk result (λ v. view v ≡ number_data Fix units) }
{
    let text = fix_write(alloc, units as i128)?;
    match str::from_utf8(text.bytes()) {
        Ok(text) => {
            let value = Value::try_from_str(alloc, text)?;
            Ok(value)
        }
        Err(_) => Err(Memory),
    }
}

/// A number in a field of a kind.
fn number_value(alloc: Global, kind: Kind, number: i64) -> Result<Value, Memory>
    ensures { IfOk result (λ v. view v ≡ number_data kind number) }
{
    match kind {
        Kind::Fix => fixed_value(alloc, number),
        Kind::I8 | Kind::I16 | Kind::I32 | Kind::I64 | Kind::Ref | Kind::Asset => {
            Ok(Value::from(number))
        }
    }
}

/// A value in a field of a kind.
fn value_of(alloc: Global, kind: Kind, given: Given) -> Result<Value, Memory>
    ensures { IfOk result (λ v. view v ≡ value_data kind given) }
{
    match given {
        Given::Num(number) => number_value(alloc, kind, number),
        Given::Object(number) => Ok(Value::from(number)),
        Given::Asset(number) => Ok(Value::from(number)),
        Given::Null => Ok(Value::Null),
    }
}

/// A value for each field, under its name.
pub fn fields_map(
    alloc: Global,
    fields: &[Field],
    values: &[Given],
) -> Result<Map<String, Value>, Memory>
    ensures { IfOk result (λ m. members_view m.entries ≡ with_fields no_members fields.now values.now) }
{
    let mut map = Map::new(alloc);
    let mut rest = values;
    for field in fields {
        match rest {
            [] => return Ok(map),
            [given, more @ ..] => {
                let value = value_of(alloc, field.kind, *given)?;
                put_named(alloc, &mut map, &field.name, value)?;
                rest = more;
            }
        }
    }
    Ok(map)
}

/// Puts a component under the name of its type.
fn put_part(
    alloc: Global,
    map: &mut Map<String, Value>,
    schema: &Schema,
    part: &Part,
) -> Result<(), Memory>
    ensures { OnOk result (members_view map.new.entries ≡ with_part_as (members_view map.old.entries) part.now.values (authoring_of schema.now part.now.kind)) }
{
    match schema.authoring(part.kind) {
        Some(kind) => {
            let fields = fields_map(alloc, kind.fields.items(), part.values.items())?;
            put_named(alloc, map, &kind.name, Value::Object(fields))
        }
        None => Ok(()),
    }
}

/// Components under the names of their types.
pub fn parts_map(
    alloc: Global,
    schema: &Schema,
    parts: &[Part],
) -> Result<Map<String, Value>, Memory>
    ensures { IfOk result (λ m. members_view m.entries ≡ with_parts schema.now no_members parts.now) }
{
    let mut map = Map::new(alloc);
    for part in parts {
        put_part(alloc, &mut map, schema, part)?;
    }
    Ok(map)
}
