// The line of one entity of a world.
ghost use Rattle.std.specs.Prelude.{◌≡◌, ◌++◌, [], ◌∷◌, IfOk, OnOk, Some, flat_map, is_some, option_map, slice_get};
ghost use Rattle.std.specs.FinMap as finite;
ghost use Rattle.eb_schema.specs.Rows.{kinds_of};
ghost use Rattle.eb_schema.specs.Schemas.{component_of};
ghost use Rattle.eb_world.specs.Worlds.{living_of};
ghost use Rattle.eb_query.specs.EntityText.{component_text, field_text, fields_text};
ghost use Rattle.eb_query.specs.Pieces.{kind_text, line_of, separator, values_of};

use crate::lines::{put_field, put_name, put_tag};
use eb_base::{Entity, Items, Memory, Name, Tag, TypeNo};
use eb_schema::{Component, Field, Schema, TypeSet, Val};
use eb_world::World;

/// The value of a field of a live entity, if it has it.
fn value_at(
    world: &World,
    entity: Entity,
    kind: TypeNo,
    index: usize,
) -> Result<Option<Val>, Memory>
    ensures { IfOk result (λ v. v ≡ slice_get (values_of (living_of world.now entity) kind) index) }
{
    // A type has at most 16 fields, and none that 8 bits can't count.
    let Ok(field) = u8::try_from(index) else {
        return Err(Memory);
    };
    Ok(world.value(entity, kind, field))
}

/// Adds a field behind those before it.
fn put_next(out: &mut Vec<u8>, index: usize, field: &Field, value: Val) -> Result<(), Memory>
    ensures { OnOk result (out.new.items ≡ out.old.items ++ (separator index ++ field_text field.now value)) }
{
    if index > 0 {
        out.push(b',')?;
    }
    put_field(out, field, value)?;
    Ok(())
}

/// Adds the fields of a type with an entity's values.
fn put_fields(
    out: &mut Vec<u8>,
    world: &World,
    entity: Entity,
    kind: TypeNo,
    fields: &Items<Field>,
) -> Result<(), Memory>
    ensures { OnOk result (out.new.items ≡ out.old.items ++ fields_text fields.now (values_of (living_of world.now entity) kind)) }
{
    for index in 0..fields.len() {
        let Some(value) = value_at(world, entity, kind, index)? else {
            return Ok(());
        };
        let Some(field) = fields.get(index) else {
            unreachable!()
        };
        put_next(out, index, field, value)?;
    }
    Ok(())
}

/// Adds a type with an entity's values, if the schema has the type.
fn put_kind(
    out: &mut Vec<u8>,
    world: &World,
    schema: &Schema,
    entity: Entity,
    kind: TypeNo,
) -> Result<(), Memory>
    ensures { OnOk result (out.new.items ≡ out.old.items ++ kind_text schema.now (living_of world.now entity) kind) }
{
    let Some(component) = schema.component(kind) else {
        return Ok(());
    };
    out.push(b' ')?;
    out.extend_from_slice(component.name.bytes())?;
    out.push(b'(')?;
    put_fields(out, world, entity, kind, &component.fields)?;
    out.push(b')')?;
    Ok(())
}

/// Adds the types of an entity with its values.
fn put_kinds(
    out: &mut Vec<u8>,
    world: &World,
    schema: &Schema,
    entity: Entity,
    kinds: &[TypeNo],
) -> Result<(), Memory>
    ensures { OnOk result (out.new.items ≡ out.old.items ++ flat_map (kind_text schema.now (living_of world.now entity)) kinds.now) }
{
    for kind in kinds {
        put_kind(out, world, schema, entity, *kind)?;
    }
    Ok(())
}

/// Adds the line of a live entity, given its tag and its types.
pub fn put_line(
    out: &mut Vec<u8>,
    world: &World,
    schema: &Schema,
    name: Name,
    entity: Entity,
    tag: Tag,
    kinds: &TypeSet,
) -> Result<(), Memory>
    requires tag { option_map (λ l. l.tag) (living_of world.now entity) ≡ Some tag }
    requires kinds { option_map (λ l. kinds_of l.row) (living_of world.now entity) ≡ Some kinds.now }
    ensures { OnOk result (out.new.items ≡ out.old.items ++ line_of schema.now name (living_of world.now entity)) }
{
    put_name(out, name)?;
    out.push(b' ')?;
    put_tag(out, tag)?;
    put_kinds(out, world, schema, entity, kinds.kinds())?;
    out.push(b'\n')?;
    Ok(())
}
