// The members of each word of an edit, ascending by key: the first wrong node is the one of the least place.
ghost use Rattle.serde_json.specs.View.{view};
ghost use Rattle.eb_json.specs.Forms.{Gives};
ghost use Rattle.eb_scene_text.specs.EditForm.{scene_alone_at, asset_alone_at, add_object_at, remove_object_at, set_parent_at, set_section_at, put_component_at, remove_component_at, set_field_at, put_asset_at, set_asset_field_at};

use crate::members::{FieldsForm, skipped, taken};
use crate::values::{AboveForm, MarkForm, NumberForm, SceneForm, TextForm, ValueForm};
use eb_json::{FormFault, inside, object};
use eb_scene::Edit;
use serde_json::Value;
use std::alloc::Global;

/// The scene of an edit that names nothing else.
#[tactic(auto, unfolding(crate::specs::EditForm::scene_alone_at))]
pub fn scene_alone(alloc: Global, place: u32, document: &Value) -> Result<u8, FormFault>
    ensures { Gives (λ x. x) result (scene_alone_at place (view document.now)) }
{
    object(place, document, &["do", "scene"])?;
    let next = inside(place);
    let next = skipped("do", document, next)?;
    let (scene, _) = taken(alloc, &SceneForm, "scene", document, next)?;
    Ok(scene)
}

/// The asset of an edit that names nothing else.
#[tactic(auto, unfolding(crate::specs::EditForm::asset_alone_at))]
pub fn asset_alone(alloc: Global, place: u32, document: &Value) -> Result<u32, FormFault>
    ensures { Gives (λ x. x) result (asset_alone_at place (view document.now)) }
{
    object(place, document, &["asset", "do"])?;
    let (asset, _) = taken(alloc, &NumberForm, "asset", document, inside(place))?;
    Ok(asset)
}

/// A new object.
#[tactic(auto, unfolding(crate::specs::EditForm::add_object_at))]
pub fn add_object(alloc: Global, place: u32, document: &Value) -> Result<Edit, FormFault>
    ensures { Gives (λ x. x) result (add_object_at place (view document.now)) }
{
    object(
        place,
        document,
        &["do", "object", "parent", "scene", "section"],
    )?;
    let next = inside(place);
    let next = skipped("do", document, next)?;
    let (object, next) = taken(alloc, &NumberForm, "object", document, next)?;
    let (parent, next) = taken(alloc, &AboveForm, "parent", document, next)?;
    let (scene, next) = taken(alloc, &SceneForm, "scene", document, next)?;
    let (section, _) = taken(alloc, &MarkForm, "section", document, next)?;
    Ok(Edit::AddObject {
        scene,
        object,
        parent,
        section,
    })
}

/// An object that goes.
#[tactic(auto, unfolding(crate::specs::EditForm::remove_object_at))]
pub fn remove_object(alloc: Global, place: u32, document: &Value) -> Result<Edit, FormFault>
    ensures { Gives (λ x. x) result (remove_object_at place (view document.now)) }
{
    object(place, document, &["do", "object", "scene"])?;
    let next = inside(place);
    let next = skipped("do", document, next)?;
    let (object, next) = taken(alloc, &NumberForm, "object", document, next)?;
    let (scene, _) = taken(alloc, &SceneForm, "scene", document, next)?;
    Ok(Edit::RemoveObject { scene, object })
}

/// An object below another one, or below none.
#[tactic(auto, unfolding(crate::specs::EditForm::set_parent_at))]
pub fn set_parent(alloc: Global, place: u32, document: &Value) -> Result<Edit, FormFault>
    ensures { Gives (λ x. x) result (set_parent_at place (view document.now)) }
{
    object(place, document, &["do", "object", "parent", "scene"])?;
    let next = inside(place);
    let next = skipped("do", document, next)?;
    let (object, next) = taken(alloc, &NumberForm, "object", document, next)?;
    let (parent, next) = taken(alloc, &AboveForm, "parent", document, next)?;
    let (scene, _) = taken(alloc, &SceneForm, "scene", document, next)?;
    Ok(Edit::SetParent {
        scene,
        object,
        parent,
    })
}

/// An object's mark.
#[tactic(auto, unfolding(crate::specs::EditForm::set_section_at))]
pub fn set_section(alloc: Global, place: u32, document: &Value) -> Result<Edit, FormFault>
    ensures { Gives (λ x. x) result (set_section_at place (view document.now)) }
{
    object(place, document, &["do", "object", "scene", "section"])?;
    let next = inside(place);
    let next = skipped("do", document, next)?;
    let (object, next) = taken(alloc, &NumberForm, "object", document, next)?;
    let (scene, next) = taken(alloc, &SceneForm, "scene", document, next)?;
    let (section, _) = taken(alloc, &MarkForm, "section", document, next)?;
    Ok(Edit::SetSection {
        scene,
        object,
        section,
    })
}

/// A component with its values.
#[tactic(auto, unfolding(crate::specs::EditForm::put_component_at))]
pub fn put_component(alloc: Global, place: u32, document: &Value) -> Result<Edit, FormFault>
    ensures { Gives (λ x. x) result (put_component_at place (view document.now)) }
{
    object(
        place,
        document,
        &["do", "fields", "kind", "object", "scene"],
    )?;
    let next = inside(place);
    let next = skipped("do", document, next)?;
    let (fields, next) = taken(alloc, &FieldsForm, "fields", document, next)?;
    let (kind, next) = taken(alloc, &TextForm, "kind", document, next)?;
    let (object, next) = taken(alloc, &NumberForm, "object", document, next)?;
    let (scene, _) = taken(alloc, &SceneForm, "scene", document, next)?;
    Ok(Edit::PutComponent {
        scene,
        object,
        kind,
        fields,
    })
}

/// A component that goes.
#[tactic(auto, unfolding(crate::specs::EditForm::remove_component_at))]
pub fn remove_component(alloc: Global, place: u32, document: &Value) -> Result<Edit, FormFault>
    ensures { Gives (λ x. x) result (remove_component_at place (view document.now)) }
{
    object(place, document, &["do", "kind", "object", "scene"])?;
    let next = inside(place);
    let next = skipped("do", document, next)?;
    let (kind, next) = taken(alloc, &TextForm, "kind", document, next)?;
    let (object, next) = taken(alloc, &NumberForm, "object", document, next)?;
    let (scene, _) = taken(alloc, &SceneForm, "scene", document, next)?;
    Ok(Edit::RemoveComponent {
        scene,
        object,
        kind,
    })
}

/// A value of a component.
#[tactic(auto, unfolding(crate::specs::EditForm::set_field_at))]
pub fn set_field(alloc: Global, place: u32, document: &Value) -> Result<Edit, FormFault>
    ensures { Gives (λ x. x) result (set_field_at place (view document.now)) }
{
    object(
        place,
        document,
        &["do", "field", "kind", "object", "scene", "value"],
    )?;
    let next = inside(place);
    let next = skipped("do", document, next)?;
    let (field, next) = taken(alloc, &TextForm, "field", document, next)?;
    let (kind, next) = taken(alloc, &TextForm, "kind", document, next)?;
    let (object, next) = taken(alloc, &NumberForm, "object", document, next)?;
    let (scene, next) = taken(alloc, &SceneForm, "scene", document, next)?;
    let (value, _) = taken(alloc, &ValueForm, "value", document, next)?;
    Ok(Edit::SetField {
        scene,
        object,
        kind,
        field,
        value,
    })
}

/// An asset with its values.
#[tactic(auto, unfolding(crate::specs::EditForm::put_asset_at))]
pub fn put_asset(alloc: Global, place: u32, document: &Value) -> Result<Edit, FormFault>
    ensures { Gives (λ x. x) result (put_asset_at place (view document.now)) }
{
    object(place, document, &["asset", "do", "fields"])?;
    let next = inside(place);
    let (asset, next) = taken(alloc, &NumberForm, "asset", document, next)?;
    let next = skipped("do", document, next)?;
    let (fields, _) = taken(alloc, &FieldsForm, "fields", document, next)?;
    Ok(Edit::PutAsset { asset, fields })
}

/// A value of an asset.
#[tactic(auto, unfolding(crate::specs::EditForm::set_asset_field_at))]
pub fn set_asset_field(alloc: Global, place: u32, document: &Value) -> Result<Edit, FormFault>
    ensures { Gives (λ x. x) result (set_asset_field_at place (view document.now)) }
{
    object(place, document, &["asset", "do", "field", "value"])?;
    let next = inside(place);
    let (asset, next) = taken(alloc, &NumberForm, "asset", document, next)?;
    let next = skipped("do", document, next)?;
    let (field, next) = taken(alloc, &TextForm, "field", document, next)?;
    let (value, _) = taken(alloc, &ValueForm, "value", document, next)?;
    Ok(Edit::SetAssetField {
        asset,
        field,
        value,
    })
}
