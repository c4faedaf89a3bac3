// Reading the form of a schema's document, node by node in preorder.
ghost use Rattle.std.specs.Prelude.{◌≡◌};
ghost use Rattle.serde_json.specs.View.{view};
ghost use Rattle.eb_json.specs.Forms.{Gives, text_at, natural_at, object_at, list_at};
ghost use Rattle.eb_schema.specs.SchemaForm.{name_at, mode_at, field_at, component_at, component_parts_at, authoring_at, authoring_parts_at, draft_at, draft_keys, draft_parts_at};

use crate::drafts::{Draft, DraftAuthoring, DraftComponent, DraftField, Placed};
use crate::kinds::Mode;
use eb_base::{AuthorNo, Items, Text, TypeNo, is_name};
use eb_json::{
    Form, FormFault, after, inside, list_of, member, natural_in, null_or, object, pair, text,
};
use serde_json::Value;
use std::alloc::Global;

/// Any text.
struct TextForm;

impl Form for TextForm {
    type Read = Text;

    ghost reads = { λ _. text_at };

    fn read(&self, alloc: Global, place: u32, value: &Value) -> Result<Text, FormFault> {
        let found = text(place, value)?;
        Ok(Text::of(alloc, found.as_bytes())?)
    }
}

/// A name of a type or a field.
#[tactic(auto, unfolding(crate::specs::SchemaForm::name_at))]
fn name(alloc: Global, place: u32, value: &Value) -> Result<Text, FormFault>
    ensures { Gives (λ t. t) result (name_at place (view value.now)) }
{
    let found = text(place, value)?;
    if is_name(found.as_bytes()) {
        Ok(Text::of(alloc, found.as_bytes())?)
    } else {
        Err(FormFault::Wrong { place })
    }
}

/// What baking does with a component.
#[tactic(auto, unfolding(crate::specs::SchemaForm::mode_at))]
fn mode(place: u32, value: &Value) -> Result<Mode, FormFault>
    ensures { Gives (λ m. m) result (mode_at place (view value.now)) }
{
    let found = text(place, value)?;
    if found == "stored" {
        Ok(Mode::Stored)
    } else if found == "baking" {
        Ok(Mode::Baking)
    } else if found == "only" {
        Ok(Mode::Only)
    } else {
        Err(FormFault::Wrong { place })
    }
}

/// A field: a list of two texts, its name and its kind.
struct FieldForm;

impl Form for FieldForm {
    type Read = DraftField;

    ghost reads = { λ _. field_at };

    #[tactic(auto, unfolding(crate::specs::SchemaForm::field_at))]
    fn read(&self, alloc: Global, place: u32, value: &Value) -> Result<DraftField, FormFault> {
        let (first, second) = pair(place, value)?;
        let name_place = inside(place);
        let kind_place = after(name_place, first);
        Ok(DraftField {
            name: Placed {
                place: name_place,
                value: name(alloc, name_place, first)?,
            },
            kind: Placed {
                place: kind_place,
                value: TextForm.read(alloc, kind_place, second)?,
            },
        })
    }
}

/// A component type: an object of these four members.
struct ComponentForm;

impl Form for ComponentForm {
    type Read = DraftComponent;

    ghost reads = { λ _. component_at };

    #[tactic(auto, unfolding(crate::specs::SchemaForm::component_at))]
    fn read(&self, alloc: Global, place: u32, value: &Value) -> Result<DraftComponent, FormFault> {
        object(place, value, &["fields", "mode", "name", "number"])?;
        let fields = member(place, value, "fields")?;
        let mode = member(place, value, "mode")?;
        let name = member(place, value, "name")?;
        let number = member(place, value, "number")?;
        component_parts(alloc, inside(place), fields, mode, name, number)
    }
}

/// The members of a component type, the first of them at this place.
#[tactic(auto, unfolding(crate::specs::SchemaForm::component_parts_at))]
fn component_parts(
    alloc: Global,
    place: u32,
    fields: &Value,
    mode_value: &Value,
    name_value: &Value,
    number: &Value,
) -> Result<DraftComponent, FormFault>
    ensures { Gives (λ t. t) result (component_parts_at place (view fields.now) (view mode_value.now) (view name_value.now) (view number.now)) }
{
    let mode_place = after(place, fields);
    let name_place = after(mode_place, mode_value);
    let number_place = after(name_place, name_value);
    let fields = draft_fields(alloc, place, fields)?;
    let mode = mode(mode_place, mode_value)?;
    let name = name(alloc, name_place, name_value)?;
    let number = type_number(number_place, number)?;
    Ok(DraftComponent {
        fields: Placed {
            place,
            value: fields,
        },
        mode,
        name: Placed {
            place: name_place,
            value: name,
        },
        number: Placed {
            place: number_place,
            value: number,
        },
    })
}

/// A list of fields.
fn draft_fields(alloc: Global, place: u32, value: &Value) -> Result<Items<DraftField>, FormFault>
    ensures { Gives (λ t. t) result (list_at field_at place (view value.now)) }
{
    let fields = list_of(alloc, &FieldForm, place, value)?;
    Ok(Items::of(fields))
}

/// The number of a component type, 1 to 128.
fn type_number(place: u32, value: &Value) -> Result<TypeNo, FormFault>
    ensures { Gives (λ t. t) result (natural_at 1 128 place (view value.now)) }
{
    let number = natural_in(place, value, 1, 128)?;
    match TypeNo::new(number as u8) {
        Some(kind) => Ok(kind),
        None => Err(FormFault::Wrong { place }),
    }
}

/// The number of an authoring type, 1 to 128.
fn author_number(place: u32, value: &Value) -> Result<AuthorNo, FormFault>
    ensures { Gives (λ t. t) result (natural_at 1 128 place (view value.now)) }
{
    let number = natural_in(place, value, 1, 128)?;
    match AuthorNo::new(number as u8) {
        Some(kind) => Ok(kind),
        None => Err(FormFault::Wrong { place }),
    }
}

/// An authoring type: an object of these four members.
struct AuthoringForm;

impl Form for AuthoringForm {
    type Read = DraftAuthoring;

    ghost reads = { λ _. authoring_at };

    #[tactic(auto, unfolding(crate::specs::SchemaForm::authoring_at))]
    fn read(&self, alloc: Global, place: u32, value: &Value) -> Result<DraftAuthoring, FormFault> {
        object(place, value, &["copy", "fields", "name", "number"])?;
        let copy = member(place, value, "copy")?;
        let fields = member(place, value, "fields")?;
        let name = member(place, value, "name")?;
        let number = member(place, value, "number")?;
        authoring_parts(alloc, inside(place), copy, fields, name, number)
    }
}

/// The members of an authoring type, the first of them at this place.
#[tactic(auto, unfolding(crate::specs::SchemaForm::authoring_parts_at))]
fn authoring_parts(
    alloc: Global,
    place: u32,
    copy: &Value,
    fields: &Value,
    name_value: &Value,
    number: &Value,
) -> Result<DraftAuthoring, FormFault>
    ensures { Gives (λ t. t) result (authoring_parts_at place (view copy.now) (view fields.now) (view name_value.now) (view number.now)) }
{
    let fields_place = after(place, copy);
    let name_place = after(fields_place, fields);
    let number_place = after(name_place, name_value);
    let copy = null_or(alloc, &TextForm, place, copy)?;
    let fields = draft_fields(alloc, fields_place, fields)?;
    let name = name(alloc, name_place, name_value)?;
    let number = author_number(number_place, number)?;
    Ok(DraftAuthoring {
        copy: Placed { place, value: copy },
        fields: Placed {
            place: fields_place,
            value: fields,
        },
        name: Placed {
            place: name_place,
            value: name,
        },
        number: Placed {
            place: number_place,
            value: number,
        },
    })
}

/// Tests that the node is an object of a schema's three members.
#[tactic(auto, unfolding(crate::specs::SchemaForm::draft_keys))]
fn draft_object(place: u32, value: &Value) -> Result<(), FormFault>
    ensures { Gives (λ _. view value.now) result (object_at draft_keys place (view value.now)) }
{
    object(place, value, &["assets", "authoring", "components"])
}

/// The whole schema: an object of these three members.
pub struct DraftForm;

impl Form for DraftForm {
    type Read = Draft;

    ghost reads = { λ _. draft_at };

    #[tactic(auto, unfolding(crate::specs::SchemaForm::draft_at))]
    fn read(&self, alloc: Global, place: u32, value: &Value) -> Result<Draft, FormFault> {
        draft_object(place, value)?;
        let assets = member(place, value, "assets")?;
        let authoring = member(place, value, "authoring")?;
        let components = member(place, value, "components")?;
        draft_parts(alloc, inside(place), assets, authoring, components)
    }
}

/// The members of the schema, the first of them at this place.
#[tactic(auto, unfolding(crate::specs::SchemaForm::draft_parts_at))]
fn draft_parts(
    alloc: Global,
    place: u32,
    assets: &Value,
    authoring: &Value,
    components: &Value,
) -> Result<Draft, FormFault>
    ensures { Gives (λ t. t) result (draft_parts_at place (view assets.now) (view authoring.now) (view components.now)) }
{
    let authoring_place = after(place, assets);
    let components_place = after(authoring_place, authoring);
    let assets = draft_fields(alloc, place, assets)?;
    let authoring = list_of(alloc, &AuthoringForm, authoring_place, authoring)?;
    let components = list_of(alloc, &ComponentForm, components_place, components)?;
    Ok(Draft {
        assets: Placed {
            place,
            value: assets,
        },
        authoring: Placed {
            place: authoring_place,
            value: Items::of(authoring),
        },
        components: Placed {
            place: components_place,
            value: Items::of(components),
        },
    })
}
