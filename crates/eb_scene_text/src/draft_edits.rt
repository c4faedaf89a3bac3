// The edits that a project's document stands for, in their order.
ghost use Rattle.std.specs.Prelude.{◌≡◌, ◌++◌, map, flat_map, IfOk, OnOk};
ghost use Rattle.eb_scene_text.specs.ProjectForm.{asset_edit, object_edit, parent_edits, part_edit, part_edits, scene_edits, draft_edits};

use crate::drafts::{DraftAsset, DraftObject, DraftPart, DraftProject, DraftScene};
use eb_base::{Items, Memory};
use eb_scene::Edit;
use std::alloc::Global;

/// All assets.
fn push_assets(edits: &mut Vec<Edit>, assets: Items<DraftAsset>) -> Result<(), Memory>
    ensures { OnOk result (edits.new.items ≡ edits.old.items ++ map asset_edit assets) }
{
    for draft in assets.into_vec() {
        let DraftAsset { number, fields } = draft;
        edits.push(Edit::PutAsset {
            asset: number,
            fields,
        })?;
    }
    Ok(())
}

/// All objects of a scene, at first below none.
fn push_objects(edits: &mut Vec<Edit>, scene: u8, objects: &[DraftObject]) -> Result<(), Memory>
    ensures { OnOk result (edits.new.items ≡ edits.old.items ++ map (object_edit scene) objects.now) }
{
    for draft in objects {
        edits.push(Edit::AddObject {
            scene,
            object: draft.number,
            parent: None,
            section: draft.section,
        })?;
    }
    Ok(())
}

/// The parent of an object, where it stands below another one.
fn push_parent(edits: &mut Vec<Edit>, scene: u8, draft: &DraftObject) -> Result<(), Memory>
    ensures { OnOk result (edits.new.items ≡ edits.old.items ++ parent_edits scene draft.now) }
{
    if let Some(parent) = draft.parent {
        edits.push(Edit::SetParent {
            scene,
            object: draft.number,
            parent: Some(parent),
        })?;
    }
    Ok(())
}

/// The parents of all objects of a scene.
fn push_parents(edits: &mut Vec<Edit>, scene: u8, objects: &[DraftObject]) -> Result<(), Memory>
    ensures { OnOk result (edits.new.items ≡ edits.old.items ++ flat_map (parent_edits scene) objects.now) }
{
    for draft in objects {
        push_parent(edits, scene, draft)?;
    }
    Ok(())
}

/// The components of an object.
fn push_parts(
    edits: &mut Vec<Edit>,
    scene: u8,
    object: u32,
    parts: Items<DraftPart>,
) -> Result<(), Memory>
    ensures { OnOk result (edits.new.items ≡ edits.old.items ++ map (part_edit scene object) parts) }
{
    for draft in parts.into_vec() {
        let DraftPart { kind, fields } = draft;
        edits.push(Edit::PutComponent {
            scene,
            object,
            kind,
            fields,
        })?;
    }
    Ok(())
}

/// The components of all objects of a scene.
fn push_all_parts(
    edits: &mut Vec<Edit>,
    scene: u8,
    objects: Items<DraftObject>,
) -> Result<(), Memory>
    ensures { OnOk result (edits.new.items ≡ edits.old.items ++ flat_map (part_edits scene) objects) }
{
    for draft in objects.into_vec() {
        push_parts(edits, scene, draft.number, draft.components)?;
    }
    Ok(())
}

/// A scene with all that is in it.
fn push_scene(edits: &mut Vec<Edit>, draft: DraftScene) -> Result<(), Memory>
    ensures { OnOk result (edits.new.items ≡ edits.old.items ++ scene_edits draft) }
{
    let DraftScene { number, objects } = draft;
    edits.push(Edit::AddScene { scene: number })?;
    push_objects(edits, number, objects.items())?;
    push_parents(edits, number, objects.items())?;
    push_all_parts(edits, number, objects)?;
    Ok(())
}

/// All scenes.
fn push_scenes(edits: &mut Vec<Edit>, scenes: Items<DraftScene>) -> Result<(), Memory>
    ensures { OnOk result (edits.new.items ≡ edits.old.items ++ flat_map scene_edits scenes) }
{
    for draft in scenes.into_vec() {
        push_scene(edits, draft)?;
    }
    Ok(())
}

/// The edits that a document stands for: assets, and then scene by scene the scene, its objects, their parents and
/// their components.
pub fn edits_of(alloc: Global, draft: DraftProject) -> Result<Vec<Edit>, Memory>
    ensures { IfOk result (λ edits. edits.items ≡ draft_edits draft) }
{
    let DraftProject { assets, scenes } = draft;
    let mut edits = Vec::new(alloc);
    push_assets(&mut edits, assets)?;
    push_scenes(&mut edits, scenes)?;
    Ok(edits)
}
