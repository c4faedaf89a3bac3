// Edits of the components of the objects of one scene, each with its refusals in order.
ghost use Rattle.std.specs.Prelude.{◌≡◌, option_map};
ghost use Rattle.std.specs.Option.{option_copied};
ghost use Rattle.eb_scene.specs.Edits.{Tells, type_named, is_full, component_put, component_removed, field_set};

use crate::edits::{EditFault, Raw, RawField};
use crate::fits::{field_fitted, fitted};
use crate::objects::{Object, Part};
use crate::parts::part_of;
use crate::scenes::Scene;
use eb_base::AuthorNo;
use eb_schema::{Authoring, Schema};
use std::alloc::Global;

/// Most components of an object.
const MOST_PARTS: usize = 16;

/// The authoring type of a name.
pub fn type_named<'a>(schema: &'a Schema, name: &[u8]) -> Option<&'a Authoring>
    ensures { option_copied result ≡ type_named schema.now name.now }
{
    match schema.authoring_named(name) {
        Some(kind) => schema.authoring(kind),
        None => None,
    }
}

/// Whether an object has no component of the type, and no room for one.
fn is_full(object: &Object, kind: AuthorNo) -> bool
    ensures { result ≡ is_full object.now kind }
{
    part_of(object.components.items(), kind).is_none() && object.components.len() >= MOST_PARTS
}

/// Gives an object a component, in place of the one of the type if there is one.
pub fn put_component(
    scene: &mut Scene,
    alloc: Global,
    schema: &Schema,
    number: u32,
    kind: &[u8],
    fields: &[RawField],
) -> Result<(), EditFault>
    ensures { Tells result scene.old scene.new (component_put schema.now scene.old number kind.now fields.now) }
{
    let Some(object) = scene.get(number) else {
        return Err(EditFault::NoObject);
    };
    let Some(authoring) = type_named(schema, kind) else {
        return Err(EditFault::NoType);
    };
    let values = fitted(alloc, authoring.fields.items(), fields)?;
    if is_full(object, authoring.number) {
        return Err(EditFault::ObjectLimit);
    }
    let part = Part {
        kind: authoring.number,
        values,
    };
    scene.put_part(number, part)?;
    Ok(())
}

/// Takes a component away.
pub fn remove_component(
    scene: &mut Scene,
    schema: &Schema,
    number: u32,
    kind: &[u8],
) -> Result<(), EditFault>
    ensures { Tells result scene.old scene.new (component_removed schema.now scene.old number kind.now) }
{
    let Some(object) = scene.get(number) else {
        return Err(EditFault::NoObject);
    };
    let Some(authoring) = type_named(schema, kind) else {
        return Err(EditFault::NoType);
    };
    if part_of(object.components.items(), authoring.number).is_none() {
        return Err(EditFault::NoComponent);
    }
    scene.take_part(number, authoring.number);
    Ok(())
}

/// Gives a field of a component another value.
pub fn set_field(
    scene: &mut Scene,
    schema: &Schema,
    number: u32,
    kind: &[u8],
    field: &[u8],
    value: Raw,
) -> Result<(), EditFault>
    ensures { Tells result scene.old scene.new (field_set schema.now scene.old number kind.now field.now value) }
{
    let Some(object) = scene.get(number) else {
        return Err(EditFault::NoObject);
    };
    let Some(authoring) = type_named(schema, kind) else {
        return Err(EditFault::NoType);
    };
    if part_of(object.components.items(), authoring.number).is_none() {
        return Err(EditFault::NoComponent);
    }
    let (place, value) = field_fitted(authoring.fields.items(), field, value)?;
    scene.set_value(number, authoring.number, place, value);
    Ok(())
}
