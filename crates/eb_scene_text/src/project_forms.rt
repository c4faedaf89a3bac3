// The form of a project's document, node by node in preorder.
ghost use Rattle.serde_json.specs.View.{view};
ghost use Rattle.eb_json.specs.Forms.{Gives, list_at, object_at};
ghost use Rattle.eb_scene_text.specs.ProjectForm.{draft_asset_at, draft_part_at, draft_parts_at, object_keys, draft_object_at, draft_scene_at, draft_at};

use crate::drafts::{DraftAsset, DraftObject, DraftPart, DraftProject, DraftScene};
use crate::members::{FieldsForm, MemberForm, each_member, taken};
use crate::values::{AboveForm, MarkForm, NumberForm, SceneForm};
use eb_base::{Items, Text};
use eb_json::{Form, FormFault, inside, list_of, object};
use serde_json::Value;
use std::alloc::Global;

/// An asset: an object of these two members.
struct AssetForm;

impl Form for AssetForm {
    type Read = DraftAsset;

    ghost reads = { λ _. draft_asset_at };

    #[tactic(auto, unfolding(crate::specs::ProjectForm::draft_asset_at))]
    fn read(&self, alloc: Global, place: u32, value: &Value) -> Result<DraftAsset, FormFault> {
        object(place, value, &["fields", "number"])?;
        let next = inside(place);
        let (fields, next) = taken(alloc, &FieldsForm, "fields", value, next)?;
        let (number, _) = taken(alloc, &NumberForm, "number", value, next)?;
        Ok(DraftAsset { number, fields })
    }
}

/// A list of assets.
struct AssetsForm;

impl Form for AssetsForm {
    type Read = Items<DraftAsset>;

    ghost reads = { λ _. list_at draft_asset_at };

    fn read(
        &self,
        alloc: Global,
        place: u32,
        value: &Value,
    ) -> Result<Items<DraftAsset>, FormFault> {
        let assets = list_of(alloc, &AssetForm, place, value)?;
        Ok(Items::of(assets))
    }
}

/// A component under the name of its type.
struct PartForm;

impl MemberForm for PartForm {
    type Read = DraftPart;

    ghost reads = { λ _. draft_part_at };

    fn read(
        &self,
        alloc: Global,
        key: &str,
        place: u32,
        value: &Value,
    ) -> Result<DraftPart, FormFault> {
        let fields = FieldsForm.read(alloc, place, value)?;
        let kind = Text::of(alloc, key.as_bytes())?;
        Ok(DraftPart { kind, fields })
    }
}

/// The components of an object.
struct PartsForm;

impl Form for PartsForm {
    type Read = Items<DraftPart>;

    ghost reads = { λ _. draft_parts_at };

    #[tactic(auto, unfolding(crate::specs::ProjectForm::draft_parts_at))]
    fn read(
        &self,
        alloc: Global,
        place: u32,
        value: &Value,
    ) -> Result<Items<DraftPart>, FormFault> {
        each_member(alloc, &PartForm, place, value)
    }
}

/// Tests that the node is an object of the four members that an object of a scene has.
#[tactic(auto, unfolding(crate::specs::ProjectForm::object_keys))]
fn has_object_keys(place: u32, value: &Value) -> Result<(), FormFault>
    ensures { Gives (λ _. view value.now) result (object_at object_keys place (view value.now)) }
{
    object(place, value, &["components", "number", "parent", "section"])
}

/// An object of a scene: its components, its number, its parent and its mark.
struct ObjectForm;

impl Form for ObjectForm {
    type Read = DraftObject;

    ghost reads = { λ _. draft_object_at };

    #[tactic(auto, unfolding(crate::specs::ProjectForm::draft_object_at))]
    fn read(&self, alloc: Global, place: u32, value: &Value) -> Result<DraftObject, FormFault> {
        has_object_keys(place, value)?;
        let next = inside(place);
        let (components, next) = taken(alloc, &PartsForm, "components", value, next)?;
        let (number, next) = taken(alloc, &NumberForm, "number", value, next)?;
        let (parent, next) = taken(alloc, &AboveForm, "parent", value, next)?;
        let (section, _) = taken(alloc, &MarkForm, "section", value, next)?;
        Ok(DraftObject {
            number,
            parent,
            section,
            components,
        })
    }
}

/// A list of objects.
struct ObjectsForm;

impl Form for ObjectsForm {
    type Read = Items<DraftObject>;

    ghost reads = { λ _. list_at draft_object_at };

    fn read(
        &self,
        alloc: Global,
        place: u32,
        value: &Value,
    ) -> Result<Items<DraftObject>, FormFault> {
        let objects = list_of(alloc, &ObjectForm, place, value)?;
        Ok(Items::of(objects))
    }
}

/// A scene: an object of these two members.
struct DraftSceneForm;

impl Form for DraftSceneForm {
    type Read = DraftScene;

    ghost reads = { λ _. draft_scene_at };

    #[tactic(auto, unfolding(crate::specs::ProjectForm::draft_scene_at))]
    fn read(&self, alloc: Global, place: u32, value: &Value) -> Result<DraftScene, FormFault> {
        object(place, value, &["number", "objects"])?;
        let next = inside(place);
        let (number, next) = taken(alloc, &SceneForm, "number", value, next)?;
        let (objects, _) = taken(alloc, &ObjectsForm, "objects", value, next)?;
        Ok(DraftScene { number, objects })
    }
}

/// A list of scenes.
struct ScenesForm;

impl Form for ScenesForm {
    type Read = Items<DraftScene>;

    ghost reads = { λ _. list_at draft_scene_at };

    fn read(
        &self,
        alloc: Global,
        place: u32,
        value: &Value,
    ) -> Result<Items<DraftScene>, FormFault> {
        let scenes = list_of(alloc, &DraftSceneForm, place, value)?;
        Ok(Items::of(scenes))
    }
}

/// A whole project: an object of these two members.
pub struct DraftForm;

impl Form for DraftForm {
    type Read = DraftProject;

    ghost reads = { λ _. draft_at };

    #[tactic(auto, unfolding(crate::specs::ProjectForm::draft_at))]
    fn read(&self, alloc: Global, place: u32, value: &Value) -> Result<DraftProject, FormFault> {
        object(place, value, &["assets", "scenes"])?;
        let next = inside(place);
        let (assets, next) = taken(alloc, &AssetsForm, "assets", value, next)?;
        let (scenes, _) = taken(alloc, &ScenesForm, "scenes", value, next)?;
        Ok(DraftProject { assets, scenes })
    }
}
